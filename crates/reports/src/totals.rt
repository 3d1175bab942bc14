//! Sums over all rights.
ghost use Rattle.std.specs.Prelude.{◌≡◌, sum_by};
ghost use Rattle.reports.specs.Tallies.{AreBounded};

use crate::figures::RightFigures;
use water_model::rows::Rows;

/// Sums over all rights: of the months in which each was short, of what it wanted and of what it was delivered.
#[derive(Clone, Copy)]
pub struct Totals {
    pub short_months: u64,
    pub wanted: u64,
    pub delivered: u64,
}

/// The sums over these rights.
pub fn totals_of(rights: &Rows<RightFigures>) -> Totals
    requires { AreBounded rights.now }
    ensures short_months { result.short_months ≡ sum_by (λ f. f.short_months) rights.now }
    ensures wanted { result.wanted ≡ sum_by (λ f. f.wanted) rights.now }
    ensures delivered { result.delivered ≡ sum_by (λ f. f.delivered) rights.now }
{
    let mut short_months = 0;
    let mut wanted = 0;
    let mut delivered = 0;
    for figures in rights.as_slice() {
        short_months += u64::from(figures.short_months);
        wanted += figures.wanted;
        delivered += figures.delivered;
    }
    Totals {
        short_months,
        wanted,
        delivered,
    }
}
