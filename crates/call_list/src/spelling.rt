//! How a line is spelled.
ghost use Rattle.call_list.specs.Entries.{IsOfBasin, whole_line};

use crate::entry::Entry;
use result_text::listing::Spelled;
use water_model::space::{Space, name_in};
use water_model::types::Basin;
use water_text::line::Line;

impl Spelled for Entry {
    ghost is_of_basin = { IsOfBasin };

    ghost bytes = { whole_line };

    #[tactic(auto, unfolding(crate::specs::Entries::whole_line, crate::specs::Entries::fields_of))]
    fn spell(&self, line: &mut Line, basin: &Basin) {
        match *self {
            Entry::Calls { first, months } => {
                line.word(b"calls");
                line.add_month(first);
                line.add_number(u64::from(months));
            }
            Entry::Month { month } => {
                line.word(b"month");
                line.add_month(month);
            }
            Entry::Short {
                right,
                amount,
                want,
            } => {
                line.word(b"short");
                line.add_name(name_in(Space::Rights, basin, right));
                line.add_number(amount);
                line.add_number(want);
            }
            Entry::Next { node, right } => {
                line.word(b"next");
                line.add_name(name_in(Space::Nodes, basin, node));
                line.add_name(name_in(Space::Rights, basin, right));
            }
            Entry::Link { link, right } => {
                line.word(b"link");
                line.add_name(name_in(Space::Links, basin, link));
                line.add_name(name_in(Space::Rights, basin, right));
            }
            Entry::Curtailed { right, caller } => {
                line.word(b"curtailed");
                line.add_name(name_in(Space::Rights, basin, right));
                line.add_name(name_in(Space::Rights, basin, caller));
            }
            Entry::End => line.word(b"end"),
            Entry::Done { months } => {
                line.word(b"done");
                line.add_number(u64::from(months));
            }
            Entry::Where {
                month,
                right,
                amount,
                want,
            } => {
                line.word(b"where");
                line.add_month(month);
                line.add_name(name_in(Space::Rights, basin, right));
                line.add_number(amount);
                line.add_number(want);
            }
            Entry::At { node } => {
                line.word(b"at");
                line.add_name(name_in(Space::Nodes, basin, node));
            }
            Entry::Carry { link } => {
                line.word(b"link");
                line.add_name(name_in(Space::Links, basin, link));
            }
        }
        line.word(b"\n");
    }
}
