//! Marks of indices by the bits of words, 64 to a word. Nothing here takes memory.
//!
//! The mark of index p is bit p % 64 of word p / 64, counted from the lowest.
#![tactic(auto)]

ghost use Rattle.std.specs.Prelude.{◌≡◌, ◌≢◌, ℕ, ◌+◌, ◌*◌, ◌/◌, ◌<◌, ◌≤◌, true, false, length, IfSome, IfNone};
ghost use Rattle.std.specs.Int.{bit_at};
ghost use Rattle.bit_words.specs.Marks.{words_for, is_marked, in_both, IsNextInBoth, IsLowestFrom};

/// How many words hold the marks of this many indices.
pub fn words_for(indices: u32) -> usize
    ensures { result ≡ words_for indices }
{
    (indices as usize + 63) / 64
}

/// Whether an index is marked.
pub fn is_marked(words: &[u64], index: u32) -> bool
    requires { index / 64 < length words.now }
    ensures { result ≡ is_marked words.now index }
{
    (words[index as usize / 64] >> (index % 64)) & 1 == 1
}

/// Marks an index. The marks of the other indices stay.
pub fn mark(words: &mut [u64], index: u32)
    requires { index / 64 < length words.old }
    ensures count { length words.new ≡ length words.old }
    ensures on { is_marked words.new index ≡ true }
    ensures off { (q : ℕ) → q ≢ index → is_marked words.new q ≡ is_marked words.old q }
{
    words[index as usize / 64] |= 1 << (index % 64);
}

/// Removes the mark of an index. The marks of the other indices stay.
pub fn unmark(words: &mut [u64], index: u32)
    requires { index / 64 < length words.old }
    ensures count { length words.new ≡ length words.old }
    ensures on { is_marked words.new index ≡ false }
    ensures off { (q : ℕ) → q ≢ index → is_marked words.new q ≡ is_marked words.old q }
{
    words[index as usize / 64] &= !(1 << (index % 64));
}

/// The least index from `from` onwards and below `indices` that both lists mark, or none where there is none. Two words
/// without a common mark cost one look.
pub fn next_marked_in_both(words: &[u64], others: &[u64], from: u32, indices: u32) -> Option<u32>
    requires words { indices ≤ 64 * length words.now }
    requires others { indices ≤ 64 * length others.now }
    ensures some { IfSome result (λ p. IsNextInBoth words.now others.now from indices p) }
    ensures none { IfNone result ((q : ℕ) → from ≤ q → q < indices → in_both words.now others.now q ≡ false) }
{
    for at in from as usize / 64..words_for(indices) {
        let first = at as u32 * 64;
        if let Some(bit) = lowest_bit(words[at] & others[at], from.saturating_sub(first)) {
            let index = first + bit;
            return if index < indices { Some(index) } else { None };
        }
    }
    None
}

/// The lowest bit of a word that is 1, of those from `from` onwards, or none where all of them are 0.
fn lowest_bit(word: u64, from: u32) -> Option<u32>
    requires { from < 64 }
    ensures some { IfSome result (λ bit. IsLowestFrom word from bit) }
    ensures none { IfNone result ((i : ℕ) → from ≤ i → i < 64 → bit_at word i ≡ 0) }
{
    let rest = word >> from;
    if rest == 0 {
        None
    } else {
        Some(from + rest.trailing_zeros())
    }
}
