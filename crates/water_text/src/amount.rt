//! Amounts in decimal digits.
ghost use Rattle.std.specs.Prelude.{◌≡◌, ◌≤◌, IfSome};
ghost use Rattle.water_text.specs.Amounts.{is_amount, read_amount, read_plain};

use crate::digits::{are_digits, value_of};

#[tactic(auto, using(crate::proofs::Values::digits_by_list))]
fn is_amount(text: &[u8]) -> bool
    ensures { result ≡ is_amount text.now }
{
    1 <= text.len() && text.len() <= 19 && are_digits(text)
}

/// The value of 1 to 19 decimal digits, leading zeros allowed, or `None` where the text is anything else or the value
/// is above `max`.
#[tactic(auto, unfolding(crate::specs::Amounts::read_amount))]
pub fn read_amount(text: &[u8], max: u64) -> Option<u64>
    ensures value { result ≡ read_amount text.now max }
    ensures within { IfSome result (λ value. value ≤ max) }
{
    if !is_amount(text) {
        return None;
    }
    let value = value_of(text);
    if value <= max { Some(value) } else { None }
}

/// The same, and also `None` where a `0` stands before other digits.
#[tactic(auto, unfolding(crate::specs::Amounts::read_plain))]
pub fn read_plain(text: &[u8], max: u64) -> Option<u64>
    ensures value { result ≡ read_plain text.now max }
    ensures within { IfSome result (λ value. value ≤ max) }
{
    if text.len() > 1 && text[0] == b'0' {
        return None;
    }
    read_amount(text, max)
}
