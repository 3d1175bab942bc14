//! The faults of a document in their order.
ghost use Rattle.std.specs.Prelude.{◌≡◌};
ghost use Rattle.basin_tree.specs.Documents.{tree_of};
ghost use Rattle.basin_tree.specs.Order.{tree_fault};

use crate::counts::TooMany;
use crate::document::Document;
use crate::fault::BasinFault;
use crate::keys::{MissingKey, UnknownKey};
use crate::kinds::WrongKind;
use crate::name_faults::{BadName, NoSuchName, OutletReservoir, SameName};
use crate::ranges::OutOfRange;
use crate::walk::{Finding, first_finding};

/// The first fault that a document has by itself, before its network, its rights and its area tables are looked at.
#[tactic(auto, unfolding(crate::specs::Order::tree_fault))]
pub fn tree_fault(document: &Document) -> Option<Finding>
    ensures { result ≡ tree_fault (tree_of document.now) }
{
    if let Some(finding) = first_finding::<UnknownKey>(document, BasinFault::UnknownKey) {
        return Some(finding);
    }
    if let Some(finding) = first_finding::<MissingKey>(document, BasinFault::MissingKey) {
        return Some(finding);
    }
    if let Some(finding) = first_finding::<WrongKind>(document, BasinFault::WrongKind) {
        return Some(finding);
    }
    if let Some(finding) = first_finding::<OutOfRange>(document, BasinFault::OutOfRange) {
        return Some(finding);
    }
    if let Some(finding) = first_finding::<BadName>(document, BasinFault::BadName) {
        return Some(finding);
    }
    if let Some(finding) = first_finding::<TooMany>(document, BasinFault::TooMany) {
        return Some(finding);
    }
    if let Some(finding) = first_finding::<SameName>(document, BasinFault::SameName) {
        return Some(finding);
    }
    if let Some(finding) = first_finding::<NoSuchName>(document, BasinFault::NoSuchName) {
        return Some(finding);
    }
    first_finding::<OutletReservoir>(document, BasinFault::OutletReservoir)
}
