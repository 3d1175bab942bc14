//! One way to put lines: of what a line says, and of all entries that have lines, part by part.
ghost use Rattle.std.specs.Prelude.{◌≡◌, ℕ, ◌<◌, ◌++◌, ◌∷◌, [], List, IfSome, IsErr};
ghost use Rattle.std.specs.List.{AllByRecursion, flat_map};
ghost use Rattle.std.specs.Option.{option_to_list};
ghost use Rattle.rights_roll.specs.Rolls.{IsRollOf};
ghost use Rattle.water_edge.specs.Edge.{HasCause, Puts};
ghost use Rattle.water_model.specs.Entries.{count_in, in_order};
ghost use Rattle.water_model.specs.Valid.{IsValidBasin};
ghost use Rattle.water_model.specs.declared.space.Space.{Space};
ghost use Rattle.water_model.specs.declared.types.Basin.{Basin};

use rights_roll::roll::Roll;
use water_edge::{Sink, SinkFailed};
use water_model::space::{Space, count_in, entry_at};
use water_model::types::Basin;
use water_text::line::Line;

/// What one line says, with entries as their indices in the basin.
pub trait Spelled: Copy {
    /// It names entries of the basin and months of the calendar.
    ghost is_of_basin: { Basin → Self → Type 0 };

    /// Its bytes, with the line feed, unless the next line goes on with it.
    ghost bytes: { Basin → Self → List ℕ };

    /// Makes its line.
    fn spell(&self, line: &mut Line, basin: &Basin)
        requires empty { line.old ≡ [] }
        requires basin { IsValidBasin basin.now }
        requires named { is_of_basin basin.now self.now }
        ensures { line.new ≡ bytes basin.now self.now };
}

/// Puts a line, by one `put`. `SinkFailed` comes only where the sink counted a fault; a prefix of the line was then
/// put.
pub fn put_line<K: Sink, S: Spelled>(sink: &mut K, basin: &Basin, said: S) -> Result<(), SinkFailed>
    requires basin { IsValidBasin basin.now }
    requires said { S.is_of_basin basin.now said }
    ensures text { Puts (K.output sink.old) (K.output sink.new) result
        (flat_map (S.bytes basin.now) (said ∷ [])) }
    ensures cause { HasCause (K.faults sink.old) (K.faults sink.new) (IsErr result) }
{
    let mut line = Line::new();
    said.spell(&mut line, basin);
    sink.put(line.bytes())
}

/// Puts a line, if there is one, as `put_line` does.
pub fn put_some<K: Sink, S: Spelled>(
    sink: &mut K,
    basin: &Basin,
    said: Option<S>,
) -> Result<(), SinkFailed>
    requires basin { IsValidBasin basin.now }
    requires said { IfSome said (S.is_of_basin basin.now) }
    ensures text { Puts (K.output sink.old) (K.output sink.new) result
        (flat_map (S.bytes basin.now) (option_to_list said)) }
    ensures cause { HasCause (K.faults sink.old) (K.faults sink.new) (IsErr result) }
{
    match said {
        Some(said) => put_line(sink, basin, said),
        None => Ok(()),
    }
}

/// Puts lines, one after another, as `put_line` does each.
pub fn put_lines<K: Sink, S: Spelled>(
    sink: &mut K,
    basin: &Basin,
    lines: &[S],
) -> Result<(), SinkFailed>
    requires basin { IsValidBasin basin.now }
    requires lines { AllByRecursion (S.is_of_basin basin.now) lines.now }
    ensures text { Puts (K.output sink.old) (K.output sink.new) result (flat_map (S.bytes basin.now) lines.now) }
    ensures cause { HasCause (K.faults sink.old) (K.faults sink.new) (IsErr result) }
{
    for said in lines {
        put_line(sink, basin, *said)?;
    }
    Ok(())
}

/// What has lines for the entries of a basin, part by part. Each part goes over the entries of one space.
pub trait Listing {
    type Part: Copy;

    type Said: Spelled;

    /// The basin whose entries have lines.
    ghost of_basin: { Self → Basin };

    /// The space of a part.
    ghost part_space: { Self.Part → Space };

    /// The lines of an entry of a part.
    ghost entry_lines: { Self → Self.Part → ℕ → List Self.Said };

    /// The space whose entries a part goes over.
    fn space(&self, part: Self::Part) -> Space
        ensures { result ≡ part_space part };

    /// Puts the lines of an entry of a part.
    fn put_entry<K: Sink>(
        &self,
        sink: &mut K,
        part: Self::Part,
        entry: u32,
    ) -> Result<(), SinkFailed>
        requires { entry < count_in (part_space part) (of_basin self.now) }
        ensures text { Puts (K.output sink.old) (K.output sink.new) result
            (flat_map (Self.Said.bytes (of_basin self.now)) (entry_lines self.now part entry)) }
        ensures cause { HasCause (K.faults sink.old) (K.faults sink.new) (IsErr result) };
}

/// Puts the lines of a part: rights seniors first, all other entries in the order of the basin.
fn put_part<K: Sink, L: Listing>(
    sink: &mut K,
    listing: &L,
    basin: &Basin,
    roll: &Roll,
    part: L::Part,
) -> Result<(), SinkFailed>
    requires basin { IsValidBasin basin.now }
    requires roll { IsRollOf basin.now.rights roll.now }
    requires same { L.of_basin listing.now ≡ basin.now }
    ensures text { Puts (K.output sink.old) (K.output sink.new) result (flat_map (L.Said.bytes basin.now)
        (flat_map (L.entry_lines listing.now part) (in_order (L.part_space part) basin.now))) }
    ensures cause { HasCause (K.faults sink.old) (K.faults sink.new) (IsErr result) }
{
    let space = listing.space(part);
    let count = count_in(space, basin);
    for index in 0..count {
        let entry = entry_at(space, basin, roll.by_seniority(), index);
        listing.put_entry(sink, part, entry)?;
    }
    Ok(())
}

/// Puts the lines of parts, one part after another.
fn put_parts<K: Sink, L: Listing>(
    sink: &mut K,
    listing: &L,
    basin: &Basin,
    roll: &Roll,
    parts: &[L::Part],
) -> Result<(), SinkFailed>
    requires basin { IsValidBasin basin.now }
    requires roll { IsRollOf basin.now.rights roll.now }
    requires same { L.of_basin listing.now ≡ basin.now }
    ensures text { Puts (K.output sink.old) (K.output sink.new) result (flat_map (L.Said.bytes basin.now)
        (flat_map (λ part. flat_map (L.entry_lines listing.now part)
        (in_order (L.part_space part) basin.now)) parts.now)) }
    ensures cause { HasCause (K.faults sink.old) (K.faults sink.new) (IsErr result) }
{
    for part in parts {
        put_part(sink, listing, basin, roll, *part)?;
    }
    Ok(())
}

/// Puts first lines, the lines of parts, and last lines. Of each part the lines of rights come seniors first, those of
/// all other entries in the order of the basin.
///
/// `SinkFailed` comes only where the sink counted a fault; a prefix of the lines was then put. No memory is taken.
pub fn put_listing<K: Sink, L: Listing>(
    sink: &mut K,
    listing: &L,
    basin: &Basin,
    roll: &Roll,
    first: &[L::Said],
    parts: &[L::Part],
    last: &[L::Said],
) -> Result<(), SinkFailed>
    requires basin { IsValidBasin basin.now }
    requires roll { IsRollOf basin.now.rights roll.now }
    requires same { L.of_basin listing.now ≡ basin.now }
    requires first { AllByRecursion (L.Said.is_of_basin basin.now) first.now }
    requires last { AllByRecursion (L.Said.is_of_basin basin.now) last.now }
    ensures text { Puts (K.output sink.old) (K.output sink.new) result (flat_map (L.Said.bytes basin.now)
        (first.now ++ (flat_map (λ part. flat_map (L.entry_lines listing.now part)
        (in_order (L.part_space part) basin.now)) parts.now ++ last.now))) }
    ensures cause { HasCause (K.faults sink.old) (K.faults sink.new) (IsErr result) }
{
    put_lines(sink, basin, first)?;
    put_parts(sink, listing, basin, roll, parts)?;
    put_lines(sink, basin, last)
}
