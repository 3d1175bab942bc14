//! How a line of an ensemble is spelled.
ghost use Rattle.index_seq.specs.Entries.{IsOfBasin, whole_line};

use crate::entry::EnsembleLine;
use result_text::listing::Spelled;
use water_model::space::{Space, name_in};
use water_model::types::Basin;
use water_text::line::Line;

impl Spelled for EnsembleLine {
    ghost is_of_basin = { IsOfBasin };

    ghost bytes = { whole_line };

    #[tactic(auto, unfolding(crate::specs::Entries::whole_line, crate::specs::Entries::fields_of))]
    fn spell(&self, line: &mut Line, basin: &Basin) {
        match *self {
            EnsembleLine::Ensemble { first, traces } => {
                line.word(b"ensemble");
                line.add_month(first);
                line.add_number(u64::from(traces));
            }
            EnsembleLine::Right { right } => {
                line.word(b"right");
                line.add_name(name_in(Space::Rights, basin, right));
            }
            EnsembleLine::Yearly { amount, count } => {
                line.word(b"yearly");
                line.add_number(amount);
                line.add_number(count);
            }
            EnsembleLine::Done { traces } => {
                line.word(b"done");
                line.add_number(u64::from(traces));
            }
        }
        line.word(b"\n");
    }
}
