//! What is counted of the work of runs, for contracts.
ghost use Rattle.std.specs.Prelude.{◌≡◌, ◌<◌};
ghost use Rattle.month_fold.specs.Works.{no_work};

use std::marker::Model;
use std::sync::ledger::{Blank, Ledger};
use steps::Steps;

/// How often searches pushed, and how many months were solved. Only a step of a run counts a month.
///
/// It has no bytes when the program runs, so counting costs nothing.
#[derive(Drop)]
pub struct Work<P: Ledger, M: Ledger> {
    pub(crate) pushes: Steps<P>,
    pub(crate) months: Steps<M>,
}

impl<P: Ledger, M: Ledger> Model for Work<P, M> {
    ghost use Rattle.month_fold.specs.Works.{WorkDone};

    ghost Value = { WorkDone };

    ghost view = { λ w. record { pushes = w.pushes; months = w.months } };
}

impl<P: Ledger, M: Ledger> Work<P, M> {
    /// No work yet, on any two ledgers of which these blanks are.
    pub fn new(pushes: Blank, months: Blank) -> Work<P, M>
        requires pushes_name { pushes.name ≡ P.name }
        requires pushes_parts { pushes.parts ≡ P.parts }
        requires pushes_some { 0 < pushes.parts }
        requires months_name { months.name ≡ M.name }
        requires months_parts { months.parts ≡ M.parts }
        requires months_some { 0 < months.parts }
        ensures { result ≡ no_work }
    {
        Work {
            pushes: Steps::new(pushes),
            months: Steps::new(months),
        }
    }
}
