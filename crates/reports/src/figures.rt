//! The figures of a right.
ghost use Rattle.std.specs.Prelude.{ℕ, List, ◌≡◌, ◌+◌, ◌<◌, ◌^◌, ◌++◌, ◌∷◌, [], length, nat_lt, if◌then◌else◌};
ghost use Rattle.water_model.specs.declared.types.MonthRecord.{MonthRecord};
ghost use Rattle.reports.specs.Tallies.{figures_of, HasRoom};

use water_model::types::MonthRecord;
use water_text::month::Month;

/// The figures of a right over the months so far: in how many of them it was short, what it wanted and was delivered in
/// all of them, the greatest shortage of a month, and the first month that had it, or `None` where the right was never
/// short.
#[derive(Clone, Copy)]
pub struct RightFigures {
    pub short_months: u32,
    pub wanted: u64,
    pub delivered: u64,
    pub greatest: u64,
    pub worst: Option<Month>,
}

/// In how many months a right was short, after one month more.
fn short_after(months: u32, want: u64, delivered: u64) -> u32
    requires { months + 1 < 2 ^ 32 }
    ensures { result ≡ months + (if nat_lt delivered want then 1 else 0) }
{
    if delivered < want { months + 1 } else { months }
}

/// The first month of greatest shortage, after one month more. An equal shortage of a later month is not the first.
fn worst_after(figures: &RightFigures, month: Month, shortage: u64) -> Option<Month>
    ensures { result ≡ (if nat_lt figures.now.greatest shortage then Some month else figures.now.worst) }
{
    if figures.greatest < shortage {
        Some(month)
    } else {
        figures.worst
    }
}

impl RightFigures {
    /// The figures before the first month.
    #[tactic(auto, unfolding(crate::specs::Tallies::figures_of))]
    pub fn first() -> RightFigures
        ensures { (right : ℕ) → result ≡ figures_of [] right }
    {
        RightFigures {
            short_months: 0,
            wanted: 0,
            delivered: 0,
            greatest: 0,
            worst: None,
        }
    }

    /// The figures with those of one month more.
    pub fn with_month(&self, month: &MonthRecord, right: usize) -> RightFigures
        requires want { right < length month.now.want }
        requires delivered { right < length month.now.delivered }
        requires room { HasRoom self.now month.now right }
        ensures { (records : List MonthRecord) → self.now ≡ figures_of records right →
            result ≡ figures_of (records ++ month.now ∷ []) right }
    {
        let want = month.want[right];
        let delivered = month.delivered[right];
        let shortage = want.saturating_sub(delivered);
        RightFigures {
            short_months: short_after(self.short_months, want, delivered),
            wanted: self.wanted + want,
            delivered: self.delivered + delivered,
            greatest: self.greatest.max(shortage),
            worst: worst_after(self, month.month, shortage),
        }
    }
}
