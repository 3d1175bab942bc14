//! Days, as a right's date.
ghost use Rattle.std.specs.Prelude.{◌≡◌, codes};
ghost use Rattle.water_text.specs.Days.{read_day, is_date};
ghost use Rattle.water_text.specs.Shapes.{has_shape};

use crate::digits::value_at;
use crate::month::days_in;
use crate::shape::has_shape;

/// A year, a month from 1 and a day from 1. It need not be a date: `is_date` says whether it is.
#[derive(Clone, Copy, Debug, PartialEq, Eq)]
pub struct Day {
    pub year: u16,
    pub month: u8,
    pub day: u8,
}

/// Whether the text is four digits, `-`, two digits, `-` and two digits.
pub fn has_day_shape(text: &[u8]) -> bool
    ensures { result ≡ has_shape (codes "dddd-dd-dd") text.now }
{
    has_shape(b"dddd-dd-dd", text)
}

impl Day {
    /// The numbers of a text of ten bytes `YYYY-MM-DD`, or `None` where it has another shape.
    #[tactic(auto, using(crate::proofs::ShapeLaws::day_text), unfolding(crate::specs::Days::read_day))]
    pub fn read(text: &[u8]) -> Option<Day>
        ensures { result ≡ read_day text.now }
    {
        if !has_day_shape(text) {
            return None;
        }
        Some(Day {
            year: value_at(text, 0, 4),
            month: value_at(text, 5, 7) as u8,
            day: value_at(text, 8, 10) as u8,
        })
    }

    /// Whether the calendar has the day, from the year 1 to 2999.
    #[tactic(auto, unfolding(crate::specs::Days::is_date))]
    pub fn is_date(&self) -> bool
        ensures { result ≡ is_date self.now }
    {
        1 <= self.year
            && self.year <= 2999
            && 1 <= self.month
            && self.month <= 12
            && 1 <= self.day
            && self.day <= days_in(self.year, self.month)
    }
}
