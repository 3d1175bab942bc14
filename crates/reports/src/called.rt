//! How many right-months had a calling right.
ghost use Rattle.std.specs.Prelude.{List, ◌≡◌, ◌<◌, ◌≤◌, ◌++◌, ◌∷◌, [], length, is_some, if◌then◌else◌, IfOk};
ghost use Rattle.cut_cert.specs.Callers.{AreCallers};
ghost use Rattle.rights_roll.specs.Rolls.{IsRollOf};
ghost use Rattle.water_model.specs.History.{FitsBasin, calling_right};
ghost use Rattle.water_model.specs.Valid.{IsValidBasin};
ghost use Rattle.water_model.specs.declared.types.MonthRecord.{MonthRecord};
ghost use Rattle.reports.specs.Figures.{called_in};
ghost use Rattle.reports.specs.Tallies.{IsTrial};

use crate::months::Kept;
use crate::tally::Tally;
use cut_cert::calls::{callers_by_node, calling_right};
use rights_roll::roll::Roll;
use std::alloc::{AllocError, Global};
use water_model::types::{Basin, MonthRecord, Series};

/// A tally, and how often a right had a calling right in a month.
#[derive(Drop)]
pub struct Trial {
    pub tally: Tally,
    pub called: u64,
}

/// 1 where a right had a calling right in a month, else 0. `callers` has the first caller of each node.
fn called_once(basin: &Basin, callers: &[Option<u32>], month: &MonthRecord, right: u32) -> u64
    requires basin { IsValidBasin basin.now }
    requires callers { AreCallers basin.now month.now callers.now }
    requires month { FitsBasin basin.now month.now }
    requires right { right < length basin.now.rights }
    ensures { result ≡ (if is_some (calling_right basin.now month.now right) then 1 else 0) }
{
    match calling_right(basin, callers, month, right) {
        Some(_) => 1,
        None => 0,
    }
}

/// How many rights had a calling right in a month.
#[tactic(auto, using(crate::proofs::Rights::counts))]
fn called_in(basin: &Basin, roll: &Roll, month: &MonthRecord) -> u64
    requires basin { IsValidBasin basin.now }
    requires roll { IsRollOf basin.now.rights roll.now }
    requires month { FitsBasin basin.now month.now }
    ensures value { result ≡ called_in basin.now month.now }
    ensures bounded { result ≤ length basin.now.rights }
{
    let callers = callers_by_node(basin, roll, month);
    let mut count = 0;
    for right in 0..basin.rights.len() {
        count += called_once(basin, &callers, month, right as u32);
    }
    count
}

impl Kept for Trial {
    ghost is_of = { IsTrial };

    fn open(alloc: Global, basin: &Basin) -> Result<Trial, AllocError> {
        let tally = Tally::open(alloc, basin)?;
        Ok(Trial { tally, called: 0 })
    }

    fn add(&mut self, basin: &Basin, series: &Series, roll: &Roll, month: &MonthRecord) {
        self.called += called_in(basin, roll, month);
        self.tally.add(basin, series, roll, month);
    }
}
