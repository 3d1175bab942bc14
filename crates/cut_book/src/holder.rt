//! For whom water is kept on a link.
ghost use Rattle.std.specs.Prelude.{◌≡◌, ◌<◌, ◌==◌, length, slice_index, if◌then◌else◌, IfSome};
ghost use Rattle.cut_book.specs.Holders.{holder_of, more_senior};

use crate::shortage::Shortage;
use rights_roll::priority::is_senior_to;
use water_model::types::Basin;

/// The more senior of a right and the one before, if there is one.
fn more_senior(basin: &Basin, before: Option<u32>, right: u32) -> Option<u32>
    requires before { IfSome before (λ r. r < length basin.now.rights) }
    requires right { right < length basin.now.rights }
    ensures { result ≡ more_senior basin.now before right }
{
    match before {
        Some(other) if !is_senior_to(basin, right, other) => Some(other),
        _ => Some(right),
    }
}

/// The holder so far, or a further right on the link if it is delivered the amount and more senior.
fn holder_with(shortage: &Shortage, amount: u64, before: Option<u32>, right: u32) -> Option<u32>
    requires before { IfSome before (λ r. r < length shortage.now.basin.rights) }
    requires right { right < length shortage.now.basin.rights }
    ensures { result ≡ (if slice_index shortage.now.month.delivered right == amount
        then more_senior shortage.now.basin before right else before) }
{
    if shortage.month.delivered[right as usize] == amount {
        more_senior(shortage.basin, before, right)
    } else {
        before
    }
}

/// The most senior instream right on a link that is delivered this amount, or `None` where there is none.
///
/// Only the rights on the link are gone over, by the roll.
pub fn holder_of(shortage: &Shortage, link: u32, amount: u64) -> Option<u32>
    ensures value { result ≡ holder_of shortage.now.basin shortage.now.month.delivered link amount }
    ensures within { IfSome result (λ holder. holder < length shortage.now.basin.rights) }
{
    let mut holder = None;
    let mut next = shortage.roll.first_on(link);
    while let Some(right) = next {
        holder = holder_with(shortage, amount, holder, right);
        next = shortage.roll.next_on(right);
    }
    holder
}
