//! What a line says.
ghost use Rattle.std.specs.Prelude.{◌≡◌, ◌+◌, ◌++◌, [], true, drop, length, IfSome, Ok};
ghost use Rattle.water_text.specs.Fields.{pieces_after};
ghost use Rattle.water_text.specs.LinesIn.{TakesToFeed};
ghost use Rattle.water_model.specs.Valid.{IsValidBasin};
ghost use Rattle.result_lines.specs.declared.item.Item.TheVariants as line;
ghost use Rattle.result_reader.specs.Reading as reading;
ghost use Rattle.result_reader.specs.declared.words.Word.TheVariants as word;

use crate::bad_line::BadLine;
use crate::fields::{
    amount_field, count_field, month_field, name_field, no_field, one_field, three_fields,
    two_fields,
};
use crate::likely::Likely;
use crate::names::Names;
use crate::words::Word;
use result_lines::item::Item;
use result_lines::quantity::Quantity;
use water_model::space::Space;
use water_text::fields::cut;

/// The entry that has the name, which is likely this one. Where none has it, no such line may come.
fn entry_named(names: &Names, space: Space, likely: u32, name: &[u8]) -> Result<u32, BadLine>
    requires { IsValidBasin names.now.basin.now }
    ensures { result ≡ reading.entry_named names.now.basin.now space name.now }
{
    names.named(space, likely, name).ok_or(BadLine::OutOfPlace)
}

#[tactic(auto, unfolding(crate::specs::Reading::item_with))]
fn title(names: &Names, rest: Option<&[u8]>) -> Result<Item, BadLine>
    ensures { result ≡ reading.item_with names.now.basin.now word.Title (pieces_after rest.entry) }
{
    if one_field(rest)? == b"1".as_slice() {
        Ok(Item::Title)
    } else {
        Err(BadLine::BadField)
    }
}

#[tactic(auto, unfolding(crate::specs::Reading::item_with))]
fn run(names: &Names, rest: Option<&[u8]>) -> Result<Item, BadLine>
    ensures { result ≡ reading.item_with names.now.basin.now word.Run (pieces_after rest.entry) }
{
    let (first, months) = two_fields(rest)?;
    let first = month_field(first)?;
    let months = count_field(months)?;
    Ok(Item::Run { first, months })
}

#[tactic(auto, unfolding(crate::specs::Reading::item_with))]
fn month(names: &Names, rest: Option<&[u8]>) -> Result<Item, BadLine>
    ensures { result ≡ reading.item_with names.now.basin.now word.Month (pieces_after rest.entry) }
{
    let month = month_field(one_field(rest)?)?;
    Ok(Item::Month { month })
}

#[tactic(auto, unfolding(crate::specs::Reading::item_with))]
fn amount(
    names: &Names,
    likely: Likely,
    quantity: Quantity,
    rest: Option<&[u8]>,
) -> Result<Item, BadLine>
    requires { IsValidBasin names.now.basin.now }
    ensures { result ≡ reading.item_with names.now.basin.now (word.Amount quantity) (pieces_after rest.entry) }
{
    let (name, amount) = two_fields(rest)?;
    let name = name_field(name)?;
    let amount = amount_field(amount)?;
    let entry = entry_named(names, quantity.space(), likely.entry, name)?;
    Ok(Item::Amount {
        quantity,
        entry,
        amount,
    })
}

#[tactic(auto, unfolding(crate::specs::Reading::item_with))]
fn delivery(names: &Names, likely: Likely, rest: Option<&[u8]>) -> Result<Item, BadLine>
    requires { IsValidBasin names.now.basin.now }
    ensures { result ≡ reading.item_with names.now.basin.now word.Deliver (pieces_after rest.entry) }
{
    let (name, amount, want) = three_fields(rest)?;
    let name = name_field(name)?;
    let amount = amount_field(amount)?;
    let want = amount_field(want)?;
    let right = entry_named(names, Space::Rights, likely.entry, name)?;
    Ok(Item::Deliver {
        right,
        amount,
        want,
    })
}

#[tactic(auto, unfolding(crate::specs::Reading::item_with))]
fn call(names: &Names, likely: Likely, rest: Option<&[u8]>) -> Result<Item, BadLine>
    requires { IsValidBasin names.now.basin.now }
    ensures { result ≡ reading.item_with names.now.basin.now word.Call (pieces_after rest.entry) }
{
    let name = name_field(one_field(rest)?)?;
    let right = entry_named(names, Space::Rights, likely.entry, name)?;
    Ok(Item::Call { right })
}

#[tactic(auto, unfolding(crate::specs::Reading::item_with))]
fn member(names: &Names, likely: Likely, rest: Option<&[u8]>) -> Result<Item, BadLine>
    requires { IsValidBasin names.now.basin.now }
    ensures { result ≡ reading.item_with names.now.basin.now word.Member (pieces_after rest.entry) }
{
    let name = name_field(one_field(rest)?)?;
    let node = entry_named(names, Space::Nodes, likely.member, name)?;
    Ok(Item::Member { node })
}

#[tactic(auto, unfolding(crate::specs::Reading::item_with))]
fn called(names: &Names, likely: Likely, rest: Option<&[u8]>) -> Result<Item, BadLine>
    requires { IsValidBasin names.now.basin.now }
    ensures { result ≡ reading.item_with names.now.basin.now word.Called (pieces_after rest.entry) }
{
    let (name, other) = two_fields(rest)?;
    let name = name_field(name)?;
    let other = name_field(other)?;
    let right = entry_named(names, Space::Rights, likely.entry, name)?;
    let by = entry_named(names, Space::Rights, likely.entry, other)?;
    Ok(Item::Called { right, by })
}

#[tactic(auto, unfolding(crate::specs::Reading::item_with))]
fn done(names: &Names, rest: Option<&[u8]>) -> Result<Item, BadLine>
    ensures { result ≡ reading.item_with names.now.basin.now word.Done (pieces_after rest.entry) }
{
    let months = count_field(one_field(rest)?)?;
    Ok(Item::Done { months })
}

#[tactic(auto, unfolding(crate::specs::Reading::item_with))]
fn end(names: &Names, rest: Option<&[u8]>) -> Result<Item, BadLine>
    ensures { result ≡ reading.item_with names.now.basin.now word.End (pieces_after rest.entry) }
{
    no_field(rest)?;
    Ok(Item::End)
}

/// What a line of this word says, with the fields after it.
fn item_with(
    names: &Names,
    likely: Likely,
    word: Word,
    rest: Option<&[u8]>,
) -> Result<Item, BadLine>
    requires { IsValidBasin names.now.basin.now }
    ensures { result ≡ reading.item_with names.now.basin.now word (pieces_after rest.entry) }
{
    match word {
        Word::Title => title(names, rest),
        Word::Run => run(names, rest),
        Word::Month => month(names, rest),
        Word::Amount(quantity) => amount(names, likely, quantity, rest),
        Word::Deliver => delivery(names, likely, rest),
        Word::Call => call(names, likely, rest),
        Word::Member => member(names, likely, rest),
        Word::Called => called(names, likely, rest),
        Word::End => end(names, rest),
        Word::Done => done(names, rest),
    }
}

/// What a line says, whatever stands before it, by its fields. It likely names these entries.
#[tactic(auto, unfolding(crate::specs::Reading::item_of))]
#[inline(never)]
pub fn item_by_fields(names: &Names, likely: Likely, text: &[u8]) -> Result<Item, BadLine>
    requires { IsValidBasin names.now.basin.now }
    ensures { result ≡ reading.item_of names.now.basin.now text.now }
{
    if text.len() > 128 {
        return Err(BadLine::OverLong);
    }
    let (first, rest) = cut(text);
    match Word::of(first) {
        Some(word) => item_with(names, likely, word, rest),
        None => Err(BadLine::UnknownWord),
    }
}

/// Whether bytes begin with a line.
pub fn begins_with(piece: &[u8], line: &[u8]) -> bool
    ensures { result ≡ true → piece.now ≡ line.now ++ drop (length line.now) piece.now }
{
    line.len() <= piece.len() && &piece[..line.len()] == line
}

/// The `in` line of the node at an index, which may be any number, without its line feed, where a piece begins with it.
/// It is compared with the line that was spelled once, so its end isn't looked for.
#[inline(always)]
pub fn member_line<'a>(names: &Names, node: u32, piece: &'a [u8]) -> Option<&'a [u8]>
    requires { IsValidBasin names.now.basin.now }
    ensures says { IfSome result (λ text. reading.item_of names.now.basin.now text.now ≡ Ok (line.Member node)) }
    ensures takes { IfSome result (λ text. TakesToFeed [] text.now piece.now (length text.now + 1)) }
{
    let line = names.member_line(node)?;
    if begins_with(piece, line) {
        Some(&piece[..line.len() - 1])
    } else {
        None
    }
}
