//! A right's set by the words that mark its nodes, 64 to a word.
ghost use Rattle.std.specs.Prelude.{◌≡◌, ℕ, ◌/◌, ◌<◌, IsSome, length};
ghost use Rattle.bit_words.specs.Marks.{marks, words_for};
ghost use Rattle.water_model.specs.CutSets.{set_of};
ghost use Rattle.water_model.specs.Cuts.{enters, leaves, takes_within};
ghost use Rattle.water_model.specs.Lookups.{has};
ghost use Rattle.water_model.specs.Valid.{IsValidBasin};
ghost use Rattle.cut_cert.specs.Sets.{cut_at, marked_nodes};

use water_model::calls::taking_node;
use water_model::cut_list::CutList;
use water_model::types::Basin;

/// The words of a right's set.
pub fn words_of(cuts: &CutList, right: u32) -> &[u64]
    requires right { right < length cuts.now.sets }
    requires held { IsSome (set_of cuts.now right) }
    ensures set { marks cuts.now.nodes result.now ≡ cut_at cuts.now right }
    ensures size { length result.now ≡ words_for cuts.now.nodes }
    ensures sized { length (cut_at cuts.now right) ≡ cuts.now.nodes }
{
    match cuts.words(right) {
        Some(words) => words,
        None => unreachable!(),
    }
}

/// Whether the words mark a node.
pub fn is_in(words: &[u64], node: u32) -> bool
    requires { node / 64 < length words.now }
    ensures { (nodes : ℕ) → node < nodes → result ≡ has (marks nodes words.now) node }
{
    bit_words::is_marked(words, node)
}

/// Whether a link enters the set.
pub fn enters(basin: &Basin, words: &[u64], link: u32) -> bool
    requires basin { IsValidBasin basin.now }
    requires words { length words.now ≡ words_for (length basin.now.nodes) }
    requires link { link < length basin.now.links }
    ensures { result ≡ enters basin.now (marked_nodes basin.now words.now) link }
{
    let link = &basin.links[link as usize];
    is_in(words, link.to) && !is_in(words, link.from)
}

/// Whether a link leaves the set.
pub fn leaves(basin: &Basin, words: &[u64], link: u32) -> bool
    requires basin { IsValidBasin basin.now }
    requires words { length words.now ≡ words_for (length basin.now.nodes) }
    requires link { link < length basin.now.links }
    ensures { result ≡ leaves basin.now (marked_nodes basin.now words.now) link }
{
    let link = &basin.links[link as usize];
    is_in(words, link.from) && !is_in(words, link.to)
}

/// Whether a right is a diversion or zone that takes within the set.
pub fn takes_within(basin: &Basin, words: &[u64], taker: u32) -> bool
    requires basin { IsValidBasin basin.now }
    requires words { length words.now ≡ words_for (length basin.now.nodes) }
    requires taker { taker < length basin.now.rights }
    ensures { result ≡ takes_within basin.now (marked_nodes basin.now words.now) taker }
{
    match taking_node(basin, taker) {
        Some(node) => is_in(words, node),
        None => false,
    }
}
