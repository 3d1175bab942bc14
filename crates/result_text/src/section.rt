//! The lines of a month, section by section and entry by entry.
ghost use Rattle.std.specs.Prelude.{◌≡◌, ◌≢◌, ◌<◌, slice_index, IfSome};
ghost use Rattle.std.specs.Option.{option_to_list};
ghost use Rattle.water_model.specs.Entries.{count_in};
ghost use Rattle.result_lines.specs.OfBasin.{IsOfBasin};
ghost use Rattle.result_lines.specs.Quantities.{amounts_of, space_of};
ghost use Rattle.result_lines.specs.Text.{lines_at, section_space};
ghost use Rattle.water_model.specs.History.{calling_right};

use crate::listing::{Listing, put_some};
use crate::writer::put_call;
use cut_cert::calls::calling_right;
use result_lines::item::{Item, Section};
use result_lines::quantity::Quantity;
use std::marker::Model;
use water_edge::{Sink, SinkFailed};
use water_model::space::Space;
use water_model::types::{Basin, MonthRecord};

/// A month of a basin, with what is looked up once for all its lines: which nodes return rows name, and the first
/// caller of each node.
#[derive(Drop)]
pub struct MonthLines<'b> {
    pub basin: &'b Basin,
    pub month: &'b MonthRecord,
    pub returned: &'b [bool],
    pub callers: &'b [Option<u32>],
}

impl<'b> Model for MonthLines<'b> {
    ghost use Rattle.result_text.specs.Lines.{MonthSeen, IsMonthSeen, month_seen};

    ghost Value = { MonthSeen };

    ghost view = { λ m. month_seen m.basin.now m.month.now m.returned.now m.callers.now };

    ghost invariant = { λ m. IsMonthSeen (month_seen m.basin.now m.month.now m.returned.now m.callers.now) };
}

impl<'b> MonthLines<'b> {
    /// The amount of an entry in the record.
    fn amount_at(&self, quantity: Quantity, entry: u32) -> u64
        requires { entry < count_in (space_of quantity) self.now.basin }
        ensures { result ≡ slice_index (amounts_of quantity self.now.month) entry }
    {
        let at = entry as usize;
        match quantity {
            Quantity::Opening => self.month.opening[at],
            Quantity::Evaporated => self.month.evaporated[at],
            Quantity::Returned => self.month.returned[at],
            Quantity::Used => self.month.used[at],
            Quantity::Flow => self.month.plan.flow[at],
            Quantity::Outflow => self.month.plan.out[at],
            Quantity::Closing => self.month.closing[at],
        }
    }

    /// The line of an entry of a section, if it has one. Only the section of calls has several lines for an entry.
    fn line_at(&self, section: Section, entry: u32) -> Option<Item>
        requires single { section ≢ Section.Calls }
        requires entry { entry < count_in (section_space section) self.now.basin }
        ensures value { option_to_list result
            ≡ lines_at section self.now.basin self.now.month (calling_right self.now.basin self.now.month) entry }
        ensures named { IfSome result (IsOfBasin self.now.basin) }
    {
        match section {
            Section::Amounts(quantity) => {
                if !quantity.has_line(self.basin, self.returned, entry) {
                    return None;
                }
                let amount = self.amount_at(quantity, entry);
                Some(Item::Amount {
                    quantity,
                    entry,
                    amount,
                })
            }
            Section::Deliveries => Some(Item::Deliver {
                right: entry,
                amount: self.month.delivered[entry as usize],
                want: self.month.want[entry as usize],
            }),
            Section::Calls => None,
            Section::Called => match calling_right(self.basin, self.callers, self.month, entry) {
                Some(by) => Some(Item::Called { right: entry, by }),
                None => None,
            },
        }
    }
}

impl<'b> Listing for MonthLines<'b> {
    type Part = Section;

    type Said = Item;

    ghost of_basin = { λ m. m.basin };

    ghost part_space = { section_space };

    ghost entry_lines = { λ m s entry. lines_at s m.basin m.month (calling_right m.basin m.month) entry };

    fn space(&self, section: Section) -> Space {
        section.space()
    }

    fn put_entry<K: Sink>(
        &self,
        sink: &mut K,
        section: Section,
        entry: u32,
    ) -> Result<(), SinkFailed> {
        match section {
            Section::Calls => put_call(sink, self.basin, self.month, entry),
            _ => put_some(sink, self.basin, self.line_at(section, entry)),
        }
    }
}
