//! The roll of rights.
ghost use Rattle.std.specs.Prelude.{◌≡◌, ◌<◌, ◌≤◌, length, slice_index_or, All, None, OnOk, IfOk, IfErr};
ghost use Rattle.water_model.specs.Rights.{IsSoundRoll};
ghost use Rattle.water_model.specs.Valid.{IsValidBasin};
ghost use Rattle.rights_roll.specs.RollFaults.{roll_fault, IsRollRefusal};
ghost use Rattle.rights_roll.specs.Rolls.{IsRollOf};

use crate::RollRefused;
use crate::faults::{check_dates, check_parts};
use crate::links::chains_of;
use crate::order::order_of;
use crate::zones::check_zones;
use chains::Chains;
use std::alloc::{AllocError, Global};
use std::marker::Model;
use water_model::types::{Basin, ReturnRow, Right};

/// The rights of a basin, without their names: their order by seniority, and the instream rights on each link. Rights
/// and links are numbered from 0.
#[derive(Drop)]
pub struct Roll {
    order: Vec<u32>,
    on_links: Chains,
}

impl Model for Roll {
    ghost use Rattle.rights_roll.specs.RollView.{RollView};

    ghost Value = { RollView };

    ghost view = { λ r. record {
      order = r.order.items;
      first_on = r.on_links.first.items;
      next_on = r.on_links.next.items;
    } };
}

impl Roll {
    /// The roll of the rights, or what is at fault first: of dates, then of seniority, then of zones, then of return
    /// rows. The rows name rights of the list, and their parts are of 10,000. The cost is that of a sort, and
    /// of a table up to the greatest link with an instream right. It takes memory: `OutOfMemory` comes only where it
    /// runs out, and then says nothing of rights and rows.
    pub fn build(
        alloc: Global,
        rights: &[Right],
        returns: &[ReturnRow],
    ) -> Result<Roll, RollRefused>
        requires bounded { length rights.now ≤ 2000 }
        requires rows { All (λ row. row.right < length rights.now) returns.now }
        ensures ok { IfOk result (IsRollOf rights.now) }
        ensures sound { OnOk result (IsSoundRoll rights.now returns.now) }
        ensures faultless { OnOk result (roll_fault rights.now returns.now ≡ None) }
        ensures refused { IfErr result (λ e. IsRollRefusal e rights.now returns.now) }
    {
        check_dates(rights)?;
        let order = order_of(alloc, rights)?;
        check_zones(alloc, rights)?;
        check_parts(alloc, rights, returns)?;
        let on_links = chains_of(alloc, rights)?;
        Ok(Roll { order, on_links })
    }

    /// The roll of the rights of a valid basin, in which none is at fault. AllocError comes where memory is lacking.
    pub fn of_basin(alloc: Global, basin: &Basin) -> Result<Roll, AllocError>
        requires { IsValidBasin basin.now }
        ensures { IfOk result (IsRollOf basin.now.rights) }
    {
        match Roll::build(alloc, basin.rights.as_slice(), basin.returns.as_slice()) {
            Ok(roll) => Ok(roll),
            // Nothing is at fault in a valid basin, so it is memory that is lacking.
            Err(_) => Err(AllocError),
        }
    }

    /// Every right once, seniors first.
    pub fn by_seniority(&self) -> &[u32]
        ensures { result.now ≡ self.now.order }
    {
        self.order.as_slice()
    }

    /// The first instream right on the link, or `None` where there is none.
    pub fn first_on(&self, link: u32) -> Option<u32>
        ensures { result ≡ slice_index_or self.now.first_on link None }
    {
        self.on_links.first_of(link)
    }

    /// The next instream right on the link of an instream right, or `None` where there is none, or the right is no
    /// instream right.
    pub fn next_on(&self, right: u32) -> Option<u32>
        requires { right < length self.now.next_on }
        ensures { result ≡ slice_index_or self.now.next_on right None }
    {
        self.on_links.next_of(right)
    }
}
