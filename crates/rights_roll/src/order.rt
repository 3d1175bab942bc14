//! The order of the rights by seniority.
ghost use Rattle.std.specs.Prelude.{◌≡◌, ◌≤◌, length, None, OnOk, IfOk, IfErr};
ghost use Rattle.std.specs.BTreeMap.{IsOrdered, values};
ghost use Rattle.water_model.specs.Indices.{by_seniority};
ghost use Rattle.rights_roll.specs.Priorities.{priority_cmp};
ghost use Rattle.rights_roll.specs.RollFaults.{same_seniority, IsRefusal};
ghost use Rattle.rights_roll.specs.Tables.{AreRanks};

use crate::RollRefused;
use crate::priority::Priority;
use std::alloc::{AllocError, Global};
use std::collections::BTreeMap;
use water_model::types::Right;

/// The right of each priority. Refuses the first right with the priority of an earlier one.
fn rank(alloc: Global, rights: &[Right]) -> Result<BTreeMap<Priority, u32>, RollRefused>
    requires { length rights.now ≤ 2000 }
    ensures ranks { IfOk result (AreRanks rights.now) }
    ensures none { OnOk result (same_seniority rights.now ≡ None) }
    ensures refused { IfErr result (λ e. IsRefusal e (same_seniority rights.now)) }
{
    let mut ranks = BTreeMap::new(alloc);
    for (at, right) in rights.iter().enumerate() {
        let priority = Priority::of(right);
        if let Some(first) = ranks.get(&priority) {
            return Err(RollRefused::SameSeniority(*first, at as u32));
        }
        ranks.insert(priority, at as u32)?;
    }
    Ok(ranks)
}

/// The ranked rights, in the order of their priorities.
fn ranked(alloc: Global, ranks: &BTreeMap<Priority, u32>) -> Result<Vec<u32>, AllocError>
    ensures ordered { IsOrdered priority_cmp ranks.now }
    ensures rights { IfOk result (λ order. order.items ≡ values ranks.now) }
{
    ranks.values().copied().collect(alloc)
}

/// Every right once, seniors first. Refuses the first right with the priority of an earlier one.
pub fn order_of(alloc: Global, rights: &[Right]) -> Result<Vec<u32>, RollRefused>
    requires { length rights.now ≤ 2000 }
    ensures order { IfOk result (λ order. order.items ≡ by_seniority rights.now) }
    ensures none { OnOk result (same_seniority rights.now ≡ None) }
    ensures refused { IfErr result (λ e. IsRefusal e (same_seniority rights.now)) }
{
    let ranks = rank(alloc, rights)?;
    Ok(ranked(alloc, &ranks)?)
}
