//! How a line of an account book is spelled.
ghost use Rattle.cut_book.specs.Entries.{IsOfBasin, whole_line};

use crate::entry::BookLine;
use result_text::listing::Spelled;
use water_model::space::{Space, name_in};
use water_model::types::Basin;
use water_text::line::Line;

impl Spelled for BookLine {
    ghost is_of_basin = { IsOfBasin };

    ghost bytes = { whole_line };

    #[tactic(auto, unfolding(crate::specs::Entries::whole_line, crate::specs::Entries::fields_of))]
    fn spell(&self, line: &mut Line, basin: &Basin) {
        match *self {
            BookLine::Why {
                month,
                right,
                amount,
                want,
            } => {
                line.word(b"why");
                line.add_month(month);
                line.add_name(name_in(Space::Rights, basin, right));
                line.add_number(amount);
                line.add_number(want);
            }
            BookLine::Supply { node, amount } => {
                line.word(b"supply");
                line.add_name(name_in(Space::Nodes, basin, node));
                line.add_number(amount);
            }
            BookLine::Enter { link, amount } => {
                line.word(b"enter");
                line.add_name(name_in(Space::Links, basin, link));
                line.add_number(amount);
            }
            BookLine::Keep {
                link,
                amount,
                holder,
            } => {
                line.word(b"keep");
                line.add_name(name_in(Space::Links, basin, link));
                line.add_number(amount);
                line.add_name(name_in(Space::Rights, basin, holder));
            }
            BookLine::Take { right, amount } => {
                line.word(b"take");
                line.add_name(name_in(Space::Rights, basin, right));
                line.add_number(amount);
            }
            BookLine::Sum { amount } => {
                line.word(b"sum");
                line.add_number(amount);
            }
        }
        line.word(b"\n");
    }
}
