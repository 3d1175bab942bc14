//! The water of a run.
ghost use Rattle.std.specs.Prelude.{List, ◌≡◌, ◌+◌, ◌<◌, ◌^◌, ◌++◌, ◌∷◌, [], length, sum, map, slice_index};
ghost use Rattle.std.specs.Prelude.{if◌then◌else◌};
ghost use Rattle.duality.specs.Balance.{diverted};
ghost use Rattle.water_model.specs.History.{FitsBasin};
ghost use Rattle.water_model.specs.Valid.{IsValidBasin, IsSeriesOf, is_diversion};
ghost use Rattle.water_model.specs.declared.types.MonthRecord.{MonthRecord};
ghost use Rattle.reports.specs.Figures.{waters_of};
ghost use Rattle.reports.specs.Tallies.{HasRoomForMonth};

use water_model::types::{Basin, MonthRecord, RightKind, Series};

/// The water of a run: what was stored before its first month, flowed in and came back, and what is stored after its
/// last month, evaporated, was delivered to diversions and flowed out.
#[derive(Clone, Copy)]
pub struct Waters {
    pub opening: u64,
    pub inflows: u64,
    pub returns: u64,
    pub closing: u64,
    pub evaporated: u64,
    pub diverted: u64,
    pub out: u64,
}

/// The sum of some amounts.
fn sum_of(amounts: &[u64]) -> u64
    requires { sum amounts.now < 2 ^ 64 }
    ensures { result ≡ sum amounts.now }
{
    amounts.iter().sum()
}

/// What a right was delivered as a diversion, and 0 where it is none.
fn diverted_by(basin: &Basin, month: &MonthRecord, right: usize) -> u64
    requires right { right < length basin.now.rights }
    requires delivered { right < length month.now.delivered }
    ensures { result ≡ (if is_diversion basin.now right then slice_index month.now.delivered right else 0) }
{
    match basin.rights[right].kind {
        RightKind::Diversion { .. } => month.delivered[right],
        RightKind::Instream { .. } | RightKind::Zone { .. } => 0,
    }
}

/// What a month delivered to all diversions.
#[tactic(auto, using(finite_sums::proofs::Totals::total_start, finite_sums::proofs::Totals::total_more))]
fn diverted(basin: &Basin, month: &MonthRecord) -> u64
    requires delivered { length month.now.delivered ≡ length basin.now.rights }
    requires small { diverted basin.now month.now < 2 ^ 64 }
    ensures { result ≡ diverted basin.now month.now }
{
    let mut sum = 0;
    for right in 0..basin.rights.len() {
        sum += diverted_by(basin, month, right);
    }
    sum
}

/// What all reservoirs hold when the run begins.
#[tactic(auto, using(crate::proofs::Sums::openings_small, std::proofs::lemmas::List::Sums::sum_by_more_le))]
fn opening(basin: &Basin) -> u64
    requires { IsValidBasin basin.now }
    ensures { result ≡ sum (map (λ v. v.opening) basin.now.reservoirs) }
{
    let mut sum = 0;
    for reservoir in basin.reservoirs.as_slice() {
        sum += reservoir.opening;
    }
    sum
}

impl Waters {
    /// The water before the first month.
    #[tactic(auto, unfolding(crate::specs::Figures::waters_of))]
    pub fn first(basin: &Basin) -> Waters
        requires { IsValidBasin basin.now }
        ensures { (series : Series) → result ≡ waters_of basin.now series [] }
    {
        let opening = opening(basin);
        Waters {
            opening,
            inflows: 0,
            returns: 0,
            closing: opening,
            evaporated: 0,
            diverted: 0,
            out: 0,
        }
    }

    /// The water with that of one month more.
    #[tactic(auto, unfolding(crate::specs::Figures::waters_of), using(crate::proofs::Growth::waters_more))]
    pub fn with_month(&self, basin: &Basin, series: &Series, month: &MonthRecord) -> Waters
        requires basin { IsValidBasin basin.now }
        requires series { IsSeriesOf basin.now series.now }
        requires index { month.now.index < basin.now.months }
        requires fits { FitsBasin basin.now month.now }
        requires room { HasRoomForMonth basin.now series.now self.now month.now }
        ensures { (records : List MonthRecord) → self.now ≡ waters_of basin.now series.now records →
            result ≡ waters_of basin.now series.now (records ++ month.now ∷ []) }
    {
        let returned = sum_of(month.returned.as_slice());
        let closing = sum_of(month.closing.as_slice());
        let evaporated = sum_of(month.evaporated.as_slice());
        let diverted = diverted(basin, month);
        let out = sum_of(month.plan.out.as_slice());
        // By the balance of the month, so that no node is looked at.
        let inflow = closing + evaporated + diverted + out
            - sum_of(month.opening.as_slice())
            - returned;
        Waters {
            opening: self.opening,
            inflows: self.inflows + inflow,
            returns: self.returns + returned,
            closing,
            evaporated: self.evaporated + evaporated,
            diverted: self.diverted + diverted,
            out: self.out + out,
        }
    }
}
