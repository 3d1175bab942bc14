//! The entries that the next line most likely names. Where they are right, no name is looked up; what a line says does
//! not depend on them.

use crate::position::Position;
use crate::progress::Progress;
use crate::shape::Shape;
use result_lines::item::Item;

/// The entries that a line most likely names. They may be any numbers.
#[derive(Clone, Copy)]
pub struct Likely {
    /// The node of an `in` line.
    pub member: u32,
    /// The first entry of any other line.
    pub entry: u32,
}

/// The first entry that a line which is due names, or 0.
fn entry_of(shape: &Shape) -> u32 {
    match *shape {
        Shape::Amount { entry, .. } => entry,
        Shape::Deliver { right } | Shape::Call { right } | Shape::Called { right } => right,
        Shape::Member { node } => node,
        Shape::Title | Shape::Run | Shape::Month { .. } | Shape::End | Shape::Done { .. } => 0,
    }
}

/// The node that a list has at an index, or 0.
fn node_at(nodes: &[u32], at: Option<u32>) -> u32 {
    match at {
        Some(at) => nodes.get(at as usize).copied().unwrap_or(0),
        None => 0,
    }
}

/// The node that the next `in` line most likely names: the one that came after the last line in an earlier set. The
/// sets of a month, and of one month and the next, differ little. `followers` has that node for each node at its index
/// plus 1, and for a `call` line at index 0.
pub fn likely_member(followers: &[u32], progress: &Progress) -> u32 {
    node_at(followers, progress.next_member)
}

/// The first entry that any other line most likely names: that of the line of a month that is due.
pub fn likely_entry(dues: &[Shape], progress: &Progress) -> u32 {
    match progress.position {
        Position::Month { at, .. } if at < dues.len() => entry_of(&dues[at]),
        _ => 0,
    }
}

/// Keeps the node of an `in` line as the one that came after the line before it.
pub fn follow(followers: &mut [u32], progress: Progress, item: &Item) {
    if let (Some(next), Item::Member { node }) = (progress.next_member, *item)
        && (next as usize) < followers.len()
    {
        followers[next as usize] = node;
    }
}
