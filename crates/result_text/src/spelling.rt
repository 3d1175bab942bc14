//! How a line is spelled.
ghost use Rattle.result_lines.specs.OfBasin.{IsOfBasin};
ghost use Rattle.result_lines.specs.Spelling.{whole_line};

use crate::listing::Spelled;
use result_lines::item::Item;
use water_model::space::{Space, name_in};
use water_model::types::Basin;
use water_text::line::Line;

impl Spelled for Item {
    ghost is_of_basin = { IsOfBasin };

    ghost bytes = { whole_line };

    #[tactic(auto, unfolding(result_lines::specs::Spelling::line_of, result_lines::specs::Spelling::fields_of))]
    fn spell(&self, line: &mut Line, basin: &Basin) {
        match *self {
            Item::Title => line.word(b"river-result 1"),
            Item::Run { first, months } => {
                line.word(b"run");
                line.add_month(first);
                line.add_number(u64::from(months));
            }
            Item::Month { month } => {
                line.word(b"month");
                line.add_month(month);
            }
            Item::Amount {
                quantity,
                entry,
                amount,
            } => {
                line.word(quantity.word());
                line.add_name(name_in(quantity.space(), basin, entry));
                line.add_number(amount);
            }
            Item::Deliver {
                right,
                amount,
                want,
            } => {
                line.word(b"deliver");
                line.add_name(name_in(Space::Rights, basin, right));
                line.add_number(amount);
                line.add_number(want);
            }
            Item::Call { right } => {
                line.word(b"call");
                line.add_name(name_in(Space::Rights, basin, right));
            }
            Item::Member { node } => {
                line.word(b"in");
                line.add_name(name_in(Space::Nodes, basin, node));
            }
            Item::Called { right, by } => {
                line.word(b"called");
                line.add_name(name_in(Space::Rights, basin, right));
                line.add_name(name_in(Space::Rights, basin, by));
            }
            Item::End => line.word(b"end"),
            Item::Done { months } => {
                line.word(b"done");
                line.add_number(u64::from(months));
            }
        }
        line.word(b"\n");
    }
}
