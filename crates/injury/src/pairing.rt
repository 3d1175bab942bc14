//! The rights that two basins have in common.
ghost use Rattle.std.specs.Prelude.{◌≡◌, ◌<◌, ◌≤◌, ◌++◌, length, false, option_to_list, IfOk, OnOk, IsErr};
ghost use Rattle.water_edge.specs.Edge.{HasCause};
ghost use Rattle.water_model.specs.Lookups.{of_entry};
ghost use Rattle.water_model.specs.Indices.{seniors_first};
ghost use Rattle.water_model.specs.Valid.{IsValidBasin};
ghost use Rattle.water_model.specs.declared.space.Space.TheVariants.{Rights};
ghost use Rattle.injury.specs.Common.{pair_of, common_rights, HaveDeliveries};
ghost use Rattle.water_text.specs.Months.{IsMonth};
ghost use Rattle.injury.specs.Injuries.{is_injured, injuries_of, PutsInjuries};

use crate::injuries::{is_injured, put_injury};
use crate::pair::Pair;
use basin_names::SpaceNames;
use rights_roll::roll::Roll;
use std::alloc::{AllocError, Global};
use std::marker::Model;
use water_edge::{Sink, SinkFailed};
use water_model::space::Space;
use water_model::types::{Basin, MonthRecord};

/// A right of the first basin with the right of the second that has its name, if there is one.
fn pair_of(first: &Basin, second: &SpaceNames, right: u32) -> Option<Pair>
    requires right { right < length first.now.rights }
    requires of_rights { second.now.space ≡ Rights }
    ensures { result ≡ pair_of first.now second.now.basin.now right }
{
    match second.named(first.rights[right as usize].name.bytes()) {
        Some(counterpart) => Some(Pair {
            first: right,
            second: counterpart,
        }),
        None => None,
    }
}

/// Appends a pair, if there is one.
fn add_pair(pairs: &mut Vec<Pair>, pair: Option<Pair>) -> Result<(), AllocError>
    ensures { OnOk result (pairs.new.items ≡ pairs.old.items ++ option_to_list pair) }
{
    if let Some(pair) = pair {
        pairs.push(pair)?;
    }
    Ok(())
}

/// The pairs of the first basin's rights, which come in the order of seniority. AllocError comes where memory is
/// lacking.
fn pairs_of(
    alloc: Global,
    first: &Basin,
    second: &SpaceNames,
    rights: &[u32],
) -> Result<Vec<Pair>, AllocError>
    requires rights { rights.now ≡ seniors_first first.now }
    requires of_rights { second.now.space ≡ Rights }
    ensures { IfOk result (λ pairs. pairs.items ≡ common_rights first.now second.now.basin.now) }
{
    let mut pairs = Vec::new(alloc);
    for right in rights {
        add_pair(&mut pairs, pair_of(first, second, *right))?;
    }
    Ok(pairs)
}

/// The rights that two basins have in common.
#[derive(Drop)]
pub struct Pairing {
    pairs: Vec<Pair>,
}

impl Model for Pairing {
    ghost use Rattle.std.specs.Prelude.{List, length, ◌≤◌};
    ghost use Rattle.injury.specs.declared.pair.Pair.{Pair};

    ghost Value = { List Pair };

    ghost view = { λ p. p.pairs.items };

    ghost invariant = { λ p. length p.pairs.items ≤ 2000 };
}

impl Pairing {
    /// The rights that both basins have by their names, in the first's order of seniority. The second's rights are
    /// looked up in a map of their names. AllocError comes where memory is lacking.
    pub fn build(alloc: Global, first: &Basin, second: &Basin) -> Result<Pairing, AllocError>
        requires first { IsValidBasin first.now }
        requires second { IsValidBasin second.now }
        ensures { IfOk result (λ pairing. pairing ≡ common_rights first.now second.now) }
    {
        let roll = Roll::of_basin(alloc, first)?;
        let names = SpaceNames::of(alloc, Space::Rights, second)?;
        let pairs = pairs_of(alloc, first, &names, roll.by_seniority())?;
        Ok(Pairing { pairs })
    }

    /// The pairs of common rights, in the first basin's order of seniority.
    pub fn common(&self) -> &[Pair]
        ensures pairs { result.now ≡ self.now }
        ensures bounded { length result.now ≤ 2000 }
    {
        self.pairs.as_slice()
    }

    /// Whether the pair at an index is injured: its right is delivered less in the second record than in the first.
    pub fn injured(&self, k: usize, first: &MonthRecord, second: &MonthRecord) -> bool
        requires k { k < length self.now }
        requires records { HaveDeliveries self.now first.now second.now }
        ensures { result ≡ of_entry self.now k (is_injured first.now second.now) false }
    {
        is_injured(self.pairs[k], first, second)
    }

    /// Puts a row for each injury of a month, in the order of the pairs, and answers their number. The basin is the
    /// first.
    ///
    /// Each row is one `put`. `SinkFailed` comes only where the sink counted a fault; a prefix of the rows was then
    /// put.
    pub fn put_injured<K: Sink>(
        &self,
        sink: &mut K,
        basin: &Basin,
        first: &MonthRecord,
        second: &MonthRecord,
    ) -> Result<u32, SinkFailed>
        requires basin { IsValidBasin basin.now }
        requires month { IsMonth first.now.month }
        requires fits { length first.now.delivered ≡ length basin.now.rights }
        requires records { HaveDeliveries self.now first.now second.now }
        ensures text { PutsInjuries basin.now (injuries_of self.now first.now second.now) (K.output sink.old)
            (K.output sink.new) result }
        ensures cause { HasCause (K.faults sink.old) (K.faults sink.new) (IsErr result) }
    {
        let pairs = self.common();
        let mut count = 0;
        for pair in pairs {
            count += put_injury(sink, basin, *pair, first, second)?;
        }
        Ok(count)
    }
}
