//! Reads a basin.
ghost use Rattle.std.specs.Prelude.{◌≡◌, ◌≤◌, length, All, None, Some, IfOk, IfErr, OnOk, option_and_then};
ghost use Rattle.toml.specs.View.{table_view};
ghost use Rattle.water_model.specs.Valid.{IsValidBasin};
ghost use Rattle.river_net.specs.NetFaults.{net_fault};
ghost use Rattle.rights_roll.specs.RollFaults.{roll_fault, IsRollRefusal};
ghost use Rattle.reservoirs.specs.AreaFaults.{table_fault};
ghost use Rattle.basin_tree.specs.Documents.{tree_of};
ghost use Rattle.basin_tree.specs.Order.{tree_fault};
ghost use Rattle.basin_file.specs.Spelled.{basin_of, IsPlain};
ghost use Rattle.basin_file.specs.Sound.{IsSoundBasin};
ghost use Rattle.basin_file.specs.BasinFaults.{area_finding, net_finding, roll_finding, areas_fault, basin_fault};
ghost use Rattle.basin_file.specs.BasinFaults.{document_fault, file_fault, IsRefusalOf, IsFileRefusal, Spells};

use crate::build::basin_of;
use crate::findings::{area_finding, net_finding, roll_finding};
use crate::refused::BasinRefused;
use basin_tree::document::Document;
use basin_tree::fault::BasinFault;
use basin_tree::passes::tree_fault;
use basin_tree::tables::BasinTable;
use basin_tree::walk::Finding;
use reservoirs::table_fault;
use rights_roll::RollRefused;
use rights_roll::roll::Roll;
use river_net::Net;
use std::alloc::{AllocError, Global};
use toml::Table;
use toml_tree::text::document;
use water_model::types::{Basin, Reservoir};

/// The fault of a basin's network, if it has one.
fn network_fault(alloc: Global, basin: &Basin) -> Result<Option<Finding>, AllocError>
    requires { IsSoundBasin basin.now }
    ensures { IfOk result
        (λ fault. fault ≡ option_and_then net_finding (net_fault basin.now.nodes basin.now.links)) }
{
    match Net::build(alloc, basin.nodes.as_slice(), basin.links.as_slice()) {
        Ok(_) => Ok(None),
        Err(e) => net_finding(e).map(Some).ok_or(AllocError),
    }
}

/// Whether a basin's rights are a roll.
fn check_rights(alloc: Global, basin: &Basin) -> Result<(), RollRefused>
    requires { IsSoundBasin basin.now }
    ensures faultless { OnOk result (roll_fault basin.now.rights basin.now.returns ≡ None) }
    ensures refused { IfErr result (λ e. IsRollRefusal e basin.now.rights basin.now.returns) }
{
    Roll::build(alloc, basin.rights.as_slice(), basin.returns.as_slice())?;
    Ok(())
}

/// The fault of a basin's rights, if they have one.
fn rights_fault(alloc: Global, basin: &Basin) -> Result<Option<Finding>, AllocError>
    requires { IsSoundBasin basin.now }
    ensures { IfOk result
        (λ fault. fault ≡ option_and_then (roll_finding basin.now.rights)
        (roll_fault basin.now.rights basin.now.returns)) }
{
    match check_rights(alloc, basin) {
        Ok(()) => Ok(None),
        Err(e) => match roll_finding(basin.rights.as_slice(), e) {
            Some(finding) => Ok(Some(finding)),
            None => Err(AllocError),
        },
    }
}

fn area_fault(number: u64, reservoir: &Reservoir) -> Option<Finding>
    requires { length reservoir.now.area ≤ 64 }
    ensures { result ≡ option_and_then (area_finding number) (table_fault reservoir.now.area) }
{
    table_fault(reservoir.area.as_slice()).and_then(|e| area_finding(number, e))
}

/// The fault of the first reservoir whose area table has one.
fn areas_fault(reservoirs: &[Reservoir]) -> Option<Finding>
    requires { All (λ v. length v.area ≤ 64) reservoirs.now }
    ensures { result ≡ areas_fault 0 reservoirs.now }
{
    for (i, reservoir) in reservoirs.iter().enumerate() {
        if let Some(finding) = area_fault(i as u64 + 1, reservoir) {
            return Some(finding);
        }
    }
    None
}

/// The first fault of a basin by its network, its rights and its area tables.
#[tactic(auto, unfolding(crate::specs::BasinFaults::basin_fault))]
fn basin_fault(alloc: Global, basin: &Basin) -> Result<Option<Finding>, AllocError>
    requires { IsSoundBasin basin.now }
    ensures { IfOk result (λ fault. fault ≡ basin_fault basin.now) }
{
    if let Some(finding) = network_fault(alloc, basin)? {
        return Ok(Some(finding));
    }
    if let Some(finding) = rights_fault(alloc, basin)? {
        return Ok(Some(finding));
    }
    Ok(areas_fault(basin.reservoirs.as_slice()))
}

fn refused(finding: Finding) -> BasinRefused
    ensures { result ≡ BasinRefused.Refused finding.fault finding.table finding.entry }
{
    BasinRefused::Refused {
        fault: finding.fault,
        table: finding.table,
        entry: finding.entry,
    }
}

/// The basin that a document spells, or the first fault that the document has by itself.
fn unchecked_basin(alloc: Global, document: &Document) -> Result<Basin, BasinRefused>
    ensures basin { IfOk result (λ basin. basin ≡ basin_of (tree_of document.now)) }
    ensures plain { IfOk result IsPlain }
    ensures faultless { OnOk result (tree_fault (tree_of document.now) ≡ None) }
    ensures refused { IfErr result (IsRefusalOf (document_fault (Some (tree_of document.now)))) }
{
    if let Some(finding) = tree_fault(document) {
        return Err(refused(finding));
    }
    basin_of(alloc, document).map_err(|_| BasinRefused::OutOfMemory)
}

/// The basin that the top table of a document spells, or the first fault that the document has by itself.
fn tree_basin(alloc: Global, tree: &Table) -> Result<Basin, BasinRefused>
    ensures basin { IfOk result (λ basin. basin ≡ basin_of (table_view tree.now)) }
    ensures sound { IfOk result IsSoundBasin }
    ensures plain { IfOk result IsPlain }
    ensures faultless { OnOk result (tree_fault (table_view tree.now) ≡ None) }
    ensures refused { IfErr result (IsRefusalOf (document_fault (Some (table_view tree.now)))) }
{
    match Document::of(alloc, tree) {
        Ok(document) => {
            let spelled = unchecked_basin(alloc, &document);
            drop(document);
            spelled
        }
        Err(_) => Err(BasinRefused::OutOfMemory),
    }
}

/// Refuses a basin that has a fault by its network, its rights or its area tables.
#[tactic(auto, using(crate::proofs::Faultless::valid_of))]
fn check_basin(alloc: Global, basin: &Basin) -> Result<(), BasinRefused>
    requires { IsSoundBasin basin.now }
    ensures valid { OnOk result (IsValidBasin basin.now) }
    ensures faultless { OnOk result (basin_fault basin.now ≡ None) }
    ensures refused { IfErr result (IsRefusalOf (basin_fault basin.now)) }
{
    match basin_fault(alloc, basin) {
        Ok(None) => Ok(()),
        Ok(Some(finding)) => Err(refused(finding)),
        Err(_) => Err(BasinRefused::OutOfMemory),
    }
}

/// The basin that the top table of a document spells, or the document's first fault.
fn read_tree(alloc: Global, tree: &Table) -> Result<Basin, BasinRefused>
    ensures basin { IfOk result (λ basin. basin ≡ basin_of (table_view tree.now)) }
    ensures valid { IfOk result IsValidBasin }
    ensures plain { IfOk result IsPlain }
    ensures sound { OnOk result (document_fault (Some (table_view tree.now)) ≡ None) }
    ensures refused { IfErr result (IsRefusalOf (document_fault (Some (table_view tree.now)))) }
{
    let basin = tree_basin(alloc, tree)?;
    match check_basin(alloc, &basin) {
        Ok(()) => Ok(basin),
        Err(refusal) => {
            drop(basin);
            Err(refusal)
        }
    }
}

/// The basin that the bytes of a basin file spell, which is valid, or the first fault in them with its table and entry.
///
/// The faults are looked for one after the other, in the order of `BasinFault`, and the four of area tables together.
/// Of the entries with a fault the first in the order of tables and entries is named. A file is refused exactly where
/// there is a fault, but for want of memory, which can come at any file.
pub fn read_basin(alloc: Global, text: &[u8]) -> Result<Basin, BasinRefused>
    ensures spelled { IfOk result (λ basin. Spells text.now basin) }
    ensures valid { IfOk result IsValidBasin }
    ensures plain { IfOk result IsPlain }
    ensures sound { OnOk result (file_fault text.now ≡ None) }
    ensures refused { IfErr result (λ e. IsFileRefusal e text.now) }
{
    let tree = match document(alloc, text) {
        Ok(Some(tree)) => tree,
        Ok(None) => {
            return Err(BasinRefused::Refused {
                fault: BasinFault::Toml,
                table: BasinTable::Top,
                entry: 0,
            });
        }
        Err(_) => return Err(BasinRefused::OutOfMemory),
    };
    let read = read_tree(alloc, &tree);
    drop(tree);
    read
}
