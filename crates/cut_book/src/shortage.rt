//! A right that is short in a month, and the terms of its account.
ghost use Rattle.std.specs.Prelude.{◌≡◌, ◌<◌, slice_index, IfSome};
ghost use Rattle.std.specs.Option.{option_to_list};
ghost use Rattle.water_model.specs.Entries.{count_in};
ghost use Rattle.cut_cert.specs.Sets.{cut_at};
ghost use Rattle.cut_book.specs.Book.{counts, space_of, terms_at};
ghost use Rattle.cut_book.specs.Entries.{IsOfBasin, amount_of};
ghost use Rattle.cut_book.specs.Shortages.{lines_of};

use crate::entry::BookLine;
use crate::holder::holder_of;
use crate::part::Part;
use cut_cert::{enters, holds, is_on_link, kept_on, leaves, takes_within};
use rights_roll::priority::is_senior_to;
use rights_roll::roll::Roll;
use std::marker::Model;
use water_model::calls::carry_of;
use water_model::cut_list::CutList;
use water_model::types::{Basin, MonthRecord};

/// A right of a basin that is short in a month, with the basin's roll and the month's record, and cuts that have a set
/// of this right.
#[derive(Drop)]
pub struct Shortage<'b> {
    pub basin: &'b Basin,
    pub roll: &'b Roll,
    pub month: &'b MonthRecord,
    pub cuts: &'b CutList,
    pub right: u32,
}

impl<'b> Model for Shortage<'b> {
    ghost use Rattle.cut_book.specs.Shortages.{ShortageView, IsShortage, shortage};

    ghost Value = { ShortageView };

    ghost view = { λ s. shortage s.basin.now s.roll.now s.month.now s.cuts.now s.right };

    ghost invariant = { λ s. IsShortage (shortage s.basin.now s.roll.now s.month.now s.cuts.now s.right) };
}

/// The amount of a line.
fn amount_of(line: BookLine) -> u64
    ensures { result ≡ amount_of line }
{
    match line {
        BookLine::Why { amount, .. }
        | BookLine::Supply { amount, .. }
        | BookLine::Enter { amount, .. }
        | BookLine::Keep { amount, .. }
        | BookLine::Take { amount, .. }
        | BookLine::Sum { amount } => amount,
    }
}

impl<'b> Shortage<'b> {
    /// Whether an index of a part has a term in the bound of the right's set.
    fn counts(&self, part: Part, index: u32) -> bool
        requires { index < count_in (space_of part) self.now.basin }
        ensures { result ≡ counts part self.now.basin self.now.right (cut_at self.now.cuts self.now.right) index }
    {
        match part {
            Part::Supplies => holds(self.cuts, self.right, index),
            Part::Enters => enters(self.basin, self.cuts, self.right, index),
            Part::Keeps => {
                leaves(self.basin, self.cuts, self.right, index)
                    && !is_on_link(self.basin, self.right, index)
            }
            Part::Takes => {
                takes_within(self.basin, self.cuts, self.right, index)
                    && is_senior_to(self.basin, index, self.right)
            }
        }
    }

    /// The term of an index of a part, if it has one.
    fn term_at(&self, part: Part, index: u32) -> Option<BookLine>
        requires { index < count_in (space_of part) self.now.basin }
        ensures term { option_to_list result ≡ terms_at part self.now.basin self.now.month self.now.right index }
        ensures named { IfSome result (IsOfBasin self.now.basin) }
    {
        let delivered = self.month.delivered.as_slice();
        Some(match part {
            Part::Supplies => BookLine::Supply {
                node: index,
                amount: self.month.supply[index as usize],
            },
            Part::Enters => BookLine::Enter {
                link: index,
                amount: carry_of(self.basin, index, self.month.month),
            },
            Part::Keeps => {
                let amount = kept_on(self.basin, self.roll, delivered, self.right, index);
                BookLine::Keep {
                    link: index,
                    amount,
                    holder: holder_of(self, index, amount)?,
                }
            }
            Part::Takes => BookLine::Take {
                right: index,
                amount: delivered[index as usize],
            },
        })
    }

    /// The line of an index of a part, if it has one: its term, unless its amount is 0.
    pub fn line_at(&self, part: Part, index: u32) -> Option<BookLine>
        requires { index < count_in (space_of part) self.now.basin }
        ensures lines { option_to_list result ≡ lines_of self.now part index }
        ensures named { IfSome result (IsOfBasin self.now.basin) }
    {
        if !self.counts(part, index) {
            return None;
        }
        let line = self.term_at(part, index)?;
        if amount_of(line) == 0 {
            None
        } else {
            Some(line)
        }
    }

    /// The first line of the right's book.
    pub fn why(&self) -> BookLine
        ensures value { result ≡ BookLine.Why self.now.month.month self.now.right
            (slice_index self.now.month.delivered self.now.right) (slice_index self.now.month.want self.now.right) }
        ensures named { IsOfBasin self.now.basin result }
    {
        BookLine::Why {
            month: self.month.month,
            right: self.right,
            amount: self.month.delivered[self.right as usize],
            want: self.month.want[self.right as usize],
        }
    }

    /// The last line of the right's book, where its set is tight: what the right got is what the terms sum to.
    pub fn sum(&self) -> BookLine
        ensures { result ≡ BookLine.Sum (slice_index self.now.month.delivered self.now.right) }
    {
        BookLine::Sum {
            amount: self.month.delivered[self.right as usize],
        }
    }
}
