//! How far a reader has come.
ghost use Rattle.std.specs.Prelude.{◌≡◌, ◌<◌, length, false};
ghost use Rattle.result_lines.specs.OfBasin.{IsOfBasin};
ghost use Rattle.water_model.specs.Valid.{IsValidBasin};
ghost use Rattle.result_lines.specs.declared.item.Item.TheVariants as line;
ghost use Rattle.result_reader.specs.Due as due;
ghost use Rattle.result_reader.specs.Form as form;
ghost use Rattle.result_reader.specs.Progress.{IsProgress, IsNextProgress};

use crate::position::{Position, next_position};
use crate::shape::{Shape, is_call};
use result_lines::item::Item;
use water_model::types::Basin;

/// The position among the lines that are due, and after a `call` the first node whose `in` line may come, and whether
/// one must come.
#[derive(Clone, Copy)]
pub struct Progress {
    pub position: Position,
    pub next_member: Option<u32>,
    pub must: bool,
}

/// Goes on to another progress. Its fields are copied one by one: a copy of the whole takes the unused bytes between them
/// along, and waits for these.
#[inline(always)]
pub fn go_on(progress: &mut Progress, next: Progress)
    ensures { progress.new ≡ next }
{
    progress.position = next.position;
    progress.next_member = next.next_member;
    progress.must = next.must;
}

/// The progress after an `in` line of a node, if the line may come.
#[tactic(auto, using(crate::proofs::Members::member_steps))]
pub fn next_member(basin: &Basin, dues: &[Shape], progress: Progress, node: u32) -> Option<Progress>
    requires basin { IsValidBasin basin.now }
    requires dues { dues.now ≡ form.due_in_month basin.now }
    requires progress { IsProgress basin.now dues.now progress }
    requires node { node < length basin.now.nodes }
    ensures { IsNextProgress basin.now dues.now progress (line.Member node) result }
{
    let next = progress.next_member?;
    if next <= node {
        Some(Progress {
            position: progress.position,
            next_member: Some(node + 1),
            must: false,
        })
    } else {
        None
    }
}

/// The progress after a line that is no `in` line.
#[tactic(auto, using(crate::proofs::Members::other_steps))]
fn next_other(basin: &Basin, dues: &[Shape], progress: Progress, item: &Item) -> Option<Progress>
    requires basin { IsValidBasin basin.now }
    requires dues { dues.now ≡ form.due_in_month basin.now }
    requires progress { IsProgress basin.now dues.now progress }
    requires item { IsOfBasin basin.now item.now }
    requires other { due.is_member item.now ≡ false }
    ensures { IsNextProgress basin.now dues.now progress item.now result }
{
    if progress.must {
        return None;
    }
    let position = next_position(basin, dues, progress.position, item)?;
    if is_call(item) {
        Some(Progress {
            position,
            next_member: Some(0),
            must: true,
        })
    } else {
        Some(Progress {
            position,
            next_member: None,
            must: false,
        })
    }
}

/// The progress after a line, if the line may come.
#[inline(always)]
pub fn next_progress(
    basin: &Basin,
    dues: &[Shape],
    progress: Progress,
    item: &Item,
) -> Option<Progress>
    requires basin { IsValidBasin basin.now }
    requires dues { dues.now ≡ form.due_in_month basin.now }
    requires progress { IsProgress basin.now dues.now progress }
    requires item { IsOfBasin basin.now item.now }
    ensures { IsNextProgress basin.now dues.now progress item.now result }
{
    match *item {
        Item::Member { node } => next_member(basin, dues, progress, node),
        _ => next_other(basin, dues, progress, item),
    }
}
