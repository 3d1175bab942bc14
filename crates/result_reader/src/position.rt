//! The position of a line among those that are due.
ghost use Rattle.std.specs.Prelude.{◌≡◌, ◌<◌, ◌≤◌, length};
ghost use Rattle.result_lines.specs.OfBasin.{IsOfBasin};
ghost use Rattle.water_model.specs.Valid.{IsValidBasin};
ghost use Rattle.result_reader.specs.Form as form;
ghost use Rattle.result_reader.specs.Progress.{IsDueSearch, months_due, due_at, IsNextPosition, IsPositionOf};

use crate::shape::{Shape, is_optional, is_same_shape, shape_of};
use result_lines::item::Item;
use rights_roll::priority::is_senior_to;
use water_model::calls::month_at;
use water_model::types::Basin;

/// Where a line was found among those that are due: at an index, or not, because a line that has to come stands before
/// it, or because all that are left may be left out.
pub enum DueSearch {
    At(usize),
    Blocked,
    Passed,
}

/// Where a reader stands: before a line of the head, or after `begun` of the `month` lines and at an index in that
/// month's lines, or at the end.
#[derive(Clone, Copy)]
pub enum Position {
    Title,
    Run,
    Month { begun: u32, at: usize },
    After,
}

fn is_allowed(basin: &Basin, item: &Item) -> bool
    requires { IsOfBasin basin.now item.now }
    ensures { result ≡ form.is_allowed basin.now item.now }
{
    match *item {
        Item::Called { right, by } => is_senior_to(basin, by, right),
        _ => true,
    }
}

/// Whether a line is the one that is due.
#[tactic(auto, unfolding(crate::specs::Form::fits))]
fn fits(basin: &Basin, due: &Shape, item: &Item) -> bool
    requires { IsOfBasin basin.now item.now }
    ensures { result ≡ form.fits basin.now due.now item.now }
{
    is_same_shape(due, &shape_of(item)) && is_allowed(basin, item)
}

/// Looks for a line among those of a month, from an index on, over lines that may be left out.
fn find_due(basin: &Basin, dues: &[Shape], from: usize, item: &Item) -> DueSearch
    requires from { from ≤ length dues.now }
    requires item { IsOfBasin basin.now item.now }
    ensures { IsDueSearch basin.now dues.now from item.now result }
{
    for at in from..dues.len() {
        if fits(basin, &dues[at], item) {
            return DueSearch::At(at);
        }
        if !is_optional(&dues[at]) {
            return DueSearch::Blocked;
        }
    }
    DueSearch::Passed
}

/// The position after the line of the next month, or after the last line, if the line is the one that is due.
#[tactic(auto, using(crate::proofs::Placing::month_steps))]
fn next_month(basin: &Basin, begun: u32, item: &Item) -> Option<Position>
    requires basin { IsValidBasin basin.now }
    requires begun { begun ≤ basin.now.months }
    requires item { IsOfBasin basin.now item.now }
    ensures { IsNextPosition basin.now (form.due_in_month basin.now) (months_due basin.now begun) item.now result }
{
    if begun < basin.months {
        let due = Shape::Month {
            month: month_at(basin, begun),
        };
        if fits(basin, &due, item) {
            Some(Position::Month {
                begun: begun + 1,
                at: 0,
            })
        } else {
            None
        }
    } else {
        let due = Shape::Done {
            months: basin.months,
        };
        if fits(basin, &due, item) {
            Some(Position::After)
        } else {
            None
        }
    }
}

/// The position after a line, if the line may come.
pub fn next_position(
    basin: &Basin,
    dues: &[Shape],
    position: Position,
    item: &Item,
) -> Option<Position>
    requires basin { IsValidBasin basin.now }
    requires dues { dues.now ≡ form.due_in_month basin.now }
    requires position { IsPositionOf basin.now dues.now position }
    requires item { IsOfBasin basin.now item.now }
    ensures { IsNextPosition basin.now dues.now (due_at basin.now dues.now position) item.now result }
{
    match position {
        Position::Title => {
            if fits(basin, &Shape::Title, item) {
                Some(Position::Run)
            } else {
                None
            }
        }
        Position::Run => {
            if fits(basin, &Shape::Run, item) {
                Some(Position::Month {
                    begun: 0,
                    at: dues.len(),
                })
            } else {
                None
            }
        }
        Position::Month { begun, at } => match find_due(basin, dues, at, item) {
            DueSearch::At(found) => Some(Position::Month {
                begun,
                at: found + 1,
            }),
            DueSearch::Blocked => None,
            DueSearch::Passed => next_month(basin, begun, item),
        },
        Position::After => None,
    }
}
