//! The faults as which the network, the rights and the area tables of a basin are refused.
ghost use Rattle.std.specs.Prelude.{◌≡◌, ◌+◌, ◌<◌, take, count_by};
ghost use Rattle.water_model.specs.Lookups.{of_entry};
ghost use Rattle.basin_tree.specs.Entries.{found};
ghost use Rattle.basin_file.specs.BasinFaults.{net_finding, table_of, is_in_table, right_found, roll_finding};
ghost use Rattle.basin_file.specs.BasinFaults.{area_finding};

use basin_tree::fault::BasinFault;
use basin_tree::tables::BasinTable;
use basin_tree::walk::{Finding, found};
use reservoirs::TableRefused;
use rights_roll::RollRefused;
use river_net::NetRefused;
use water_model::types::{Right, RightKind};

/// The fault that a refused network is reported as, or `None` for want of memory.
pub fn net_finding(e: NetRefused) -> Option<Finding>
    ensures { result ≡ net_finding e }
{
    let (fault, table, before) = match e {
        NetRefused::SelfLink(link) => (BasinFault::SelfLink, BasinTable::Link, link),
        NetRefused::LinkFromOutlet(link) => (BasinFault::LinkFromOutlet, BasinTable::Link, link),
        NetRefused::NoRiver(node) => (BasinFault::NoRiver, BasinTable::Node, node),
        NetRefused::DirectedCycle(node) => (BasinFault::DirectedCycle, BasinTable::Node, node),
        NetRefused::OutOfMemory => return None,
    };
    Some(found(fault, table, u64::from(before) + 1))
}

fn table_of(kind: &RightKind) -> BasinTable
    ensures { result ≡ table_of kind.now }
{
    match kind {
        RightKind::Diversion { .. } => BasinTable::Diversion,
        RightKind::Instream { .. } => BasinTable::Instream,
        RightKind::Zone { .. } => BasinTable::Zone,
    }
}

pub fn is_in_table(table: BasinTable, kind: &RightKind) -> bool
    ensures { result ≡ is_in_table table kind.now }
{
    match (table, kind) {
        (BasinTable::Diversion, RightKind::Diversion { .. }) => true,
        (BasinTable::Instream, RightKind::Instream { .. }) => true,
        (BasinTable::Zone, RightKind::Zone { .. }) => true,
        _ => false,
    }
}

fn count_in_table(rights: &[Right], table: BasinTable) -> usize
    ensures { result ≡ count_by (λ r. is_in_table table r.kind) rights.now }
{
    rights
        .iter()
        .filter(|right| is_in_table(table, &right.kind))
        .count()
}

fn table_at(rights: &[Right], at: usize) -> BasinTable
    ensures { result ≡ of_entry rights.now at (λ r. table_of r.kind) BasinTable.Top }
{
    rights
        .get(at)
        .map_or(BasinTable::Top, |right| table_of(&right.kind))
}

/// The rights up to one.
fn prefix(rights: &[Right], at: usize) -> &[Right]
    ensures { result.now ≡ take (at + 1) rights.now }
{
    if at < rights.len() {
        &rights[..=at]
    } else {
        rights
    }
}

fn right_found(fault: BasinFault, rights: &[Right], right: u32) -> Finding
    ensures { result ≡ right_found fault rights.now right }
{
    let table = table_at(rights, right as usize);
    let count = count_in_table(prefix(rights, right as usize), table);
    found(fault, table, count as u64)
}

/// The fault that a refused roll of rights is reported as, or `None` for want of memory.
pub fn roll_finding(rights: &[Right], e: RollRefused) -> Option<Finding>
    ensures { result ≡ roll_finding rights.now e }
{
    match e {
        RollRefused::BadDate(right) => Some(right_found(BasinFault::BadDate, rights, right)),
        RollRefused::SameSeniority(_, later) => Some(right_found(
            BasinFault::SameSeniority,
            rights,
            later,
        )),
        RollRefused::ZoneOrder(right) => Some(right_found(BasinFault::ZoneOrder, rights, right)),
        RollRefused::ReturnParts(right) => Some(right_found(
            BasinFault::ReturnParts,
            rights,
            right,
        )),
        RollRefused::OutOfMemory => None,
    }
}

/// The fault that a refused area table is reported as, by the number of its reservoir, or `None` for want of memory.
pub fn area_finding(number: u64, e: TableRefused) -> Option<Finding>
    ensures { result ≡ area_finding number e }
{
    let fault = match e {
        TableRefused::Empty => BasinFault::TableEmpty,
        TableRefused::FirstNotZero => BasinFault::TableFirst,
        TableRefused::NotRising(_) => BasinFault::TableRising,
        TableRefused::AreaFalls(_) => BasinFault::TableArea,
        TableRefused::OutOfMemory => return None,
    };
    Some(found(fault, BasinTable::Reservoir, number))
}
