//! Who is delivered less in the second of two months.
ghost use Rattle.std.specs.Prelude.{◌≡◌, ◌<◌, [], ◌∷◌, length, IsErr};
ghost use Rattle.water_edge.specs.Edge.{HasCause, Puts};
ghost use Rattle.water_model.specs.Valid.{IsValidBasin};
ghost use Rattle.water_text.specs.Months.{IsMonth};
ghost use Rattle.injury.specs.Common.{HaveDeliveries};
ghost use Rattle.injury.specs.Injuries.{is_injured, injury_of, injuries_of, injured_row, compared_row, PutsInjuries};

use crate::pair::Pair;
use water_edge::{Sink, SinkFailed};
use water_model::space::{Space, name_in};
use water_model::types::{Basin, MonthRecord};
use water_text::line::Line;
use water_text::month::Month;

/// A right of the first basin, a month in which it is injured, and what it is delivered then in the first and in the
/// second run.
#[derive(Clone, Copy, Debug, PartialEq, Eq)]
pub struct Injury {
    pub month: Month,
    pub right: u32,
    pub first: u64,
    pub second: u64,
}

/// Whether a common right is delivered less in the second record than in the first.
pub fn is_injured(pair: Pair, first: &MonthRecord, second: &MonthRecord) -> bool
    requires { HaveDeliveries (pair ∷ []) first.now second.now }
    ensures { result ≡ is_injured first.now second.now pair }
{
    second.delivered[pair.second as usize] < first.delivered[pair.first as usize]
}

/// What a common right is delivered in the first record and in the second.
fn injury_of(pair: Pair, first: &MonthRecord, second: &MonthRecord) -> Injury
    requires { HaveDeliveries (pair ∷ []) first.now second.now }
    ensures { result ≡ injury_of first.now second.now pair }
{
    Injury {
        month: first.month,
        right: pair.first,
        first: first.delivered[pair.first as usize],
        second: second.delivered[pair.second as usize],
    }
}

/// Makes the row of an injury.
#[tactic(auto, unfolding(crate::specs::Injuries::row))]
fn spell_injured(line: &mut Line, basin: &Basin, injury: Injury)
    requires empty { line.old ≡ [] }
    requires basin { IsValidBasin basin.now }
    requires month { IsMonth injury.month }
    requires right { injury.right < length basin.now.rights }
    ensures { line.new ≡ injured_row basin.now injury }
{
    line.word(b"injured");
    line.add_month(injury.month);
    line.add_name(name_in(Space::Rights, basin, injury.right));
    line.add_number(injury.first);
    line.add_number(injury.second);
    line.word(b"\n");
}

/// Puts the row of an injury.
fn put_row<K: Sink>(sink: &mut K, basin: &Basin, injury: Injury) -> Result<(), SinkFailed>
    requires basin { IsValidBasin basin.now }
    requires month { IsMonth injury.month }
    requires right { injury.right < length basin.now.rights }
    ensures text { Puts (K.output sink.old) (K.output sink.new) result (injured_row basin.now injury) }
    ensures cause { HasCause (K.faults sink.old) (K.faults sink.new) (IsErr result) }
{
    let mut line = Line::new();
    spell_injured(&mut line, basin, injury);
    sink.put(line.bytes())
}

/// Puts the row of a common right's injury, if there is one, and answers how many rows it put.
pub fn put_injury<K: Sink>(
    sink: &mut K,
    basin: &Basin,
    pair: Pair,
    first: &MonthRecord,
    second: &MonthRecord,
) -> Result<u32, SinkFailed>
    requires basin { IsValidBasin basin.now }
    requires month { IsMonth first.now.month }
    requires right { pair.first < length basin.now.rights }
    requires records { HaveDeliveries (pair ∷ []) first.now second.now }
    ensures text { PutsInjuries basin.now (injuries_of (pair ∷ []) first.now second.now) (K.output sink.old)
        (K.output sink.new) result }
    ensures cause { HasCause (K.faults sink.old) (K.faults sink.new) (IsErr result) }
{
    if !is_injured(pair, first, second) {
        return Ok(0);
    }
    put_row(sink, basin, injury_of(pair, first, second))?;
    Ok(1)
}

/// Makes the row of the counts of common rights and of injuries.
#[tactic(auto, unfolding(crate::specs::Injuries::row))]
fn spell_compared(line: &mut Line, common: u32, injured: u32)
    requires { line.old ≡ [] }
    ensures { line.new ≡ compared_row common injured }
{
    line.word(b"compared");
    line.add_number(u64::from(common));
    line.add_number(u64::from(injured));
    line.word(b"\n");
}

/// Puts the row of the counts of common rights and of injuries, with which a comparison ends.
pub fn put_compared<K: Sink>(sink: &mut K, common: u32, injured: u32) -> Result<(), SinkFailed>
    ensures text { Puts (K.output sink.old) (K.output sink.new) result (compared_row common injured) }
    ensures cause { HasCause (K.faults sink.old) (K.faults sink.new) (IsErr result) }
{
    let mut line = Line::new();
    spell_compared(&mut line, common, injured);
    sink.put(line.bytes())
}
