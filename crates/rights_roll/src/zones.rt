//! The zones of reservoirs: what is at fault in their levels and seniority.
ghost use Rattle.std.specs.Prelude.{◌≡◌, ℕ, ◌-◌, ◌≤◌, length, nat_lt, not, ◌&&◌, ◌||◌, List, None, OnOk, IfOk, IfErr};
ghost use Rattle.water_model.specs.Rights.{is_lower, priority};
ghost use Rattle.rights_roll.specs.Priorities.{numbers_of};
ghost use Rattle.rights_roll.specs.RollFaults.{zone_fault, IsRefusal};
ghost use Rattle.rights_roll.specs.Zones.{same_zone, has_senior, AreSeniorZones};

use crate::RollRefused;
use crate::priority::Priority;
use std::alloc::{AllocError, Global};
use std::collections::{HashMap, HashSet};
use water_model::types::{Right, RightKind};

/// The priority of a zone of each reservoir and level: of the most senior one, once all are noted.
type SeniorZones = HashMap<(u32, u8), Priority>;

/// Whether the table has a zone of this reservoir and level that is senior to the priority.
fn has_senior(zones: &SeniorZones, zone: (u32, u8), priority: &Priority) -> bool
    ensures { result ≡ has_senior zones.now zone.0 zone.1 (numbers_of priority.now) }
{
    zones
        .get(&zone)
        .is_some_and(|senior| senior.is_senior_to(priority))
}

/// Notes a zone, unless one that is senior to it has its reservoir and level.
fn note_zone(zones: &mut SeniorZones, zone: (u32, u8), priority: Priority) -> Result<(), AllocError>
    ensures { OnOk result ((reservoir level : ℕ) (key : List ℕ) → has_senior zones.new reservoir level key
        ≡ (has_senior zones.old reservoir level
        key || (same_zone zone (reservoir, level) && is_lower (numbers_of priority) key))) }
{
    if !has_senior(zones, zone, &priority) {
        zones.insert(zone, priority)?;
    }
    Ok(())
}

/// The most senior zone of each reservoir and level.
fn senior_zones(alloc: Global, rights: &[Right]) -> Result<SeniorZones, AllocError>
    ensures { IfOk result (AreSeniorZones rights.now) }
{
    let mut zones = HashMap::new(alloc);
    for right in rights {
        if let RightKind::Zone { reservoir, level } = right.kind {
            note_zone(&mut zones, (reservoir, level), Priority::of(right))?;
        }
    }
    Ok(zones)
}

/// Whether the level is above 1 and no zone of the reservoir one level lower is senior to the priority.
fn lacks_lower_zone(zones: &SeniorZones, reservoir: u32, level: u8, priority: &Priority) -> bool
    ensures { result ≡ (nat_lt 1 level && not (has_senior zones.now reservoir (level - 1) (numbers_of priority.now))) }
{
    level > 1 && !has_senior(zones, (reservoir, level - 1), priority)
}

/// Refuses the first zone at fault.
pub fn check_zones(alloc: Global, rights: &[Right]) -> Result<(), RollRefused>
    requires { length rights.now ≤ 2000 }
    ensures none { OnOk result (zone_fault rights.now ≡ None) }
    ensures refused { IfErr result (λ e. IsRefusal e (zone_fault rights.now)) }
{
    let zones = senior_zones(alloc, rights)?;
    let mut seen = HashSet::new(alloc);
    for (at, right) in rights.iter().enumerate() {
        if let RightKind::Zone { reservoir, level } = right.kind {
            let is_new = seen.insert((reservoir, level))?;
            if !is_new || lacks_lower_zone(&zones, reservoir, level, &Priority::of(right)) {
                return Err(RollRefused::ZoneOrder(at as u32));
            }
        }
    }
    Ok(())
}
