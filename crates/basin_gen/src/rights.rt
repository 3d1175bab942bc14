//! Single rights and return rows.
ghost use Rattle.std.specs.Prelude.{◌≡◌, ◌+◌, ◌-◌, ◌≤◌};
ghost use Rattle.basin_gen.specs.Draws.{next, drawn, later};
ghost use Rattle.basin_gen.specs.Entries.{right_of, diversion_at, instream_at, return_at};

use crate::draws::Draws;
use crate::names::numbered;
use water_model::types::{ReturnRow, Right, RightKind, Want};
use water_text::day::Day;
use water_text::name::Name;

/// A right of 1 January of a year, with one want for all months.
pub(crate) fn right(name: Name, kind: RightKind, year: u16, order: u32, want: u64) -> Right
    ensures { result ≡ right_of name kind year order want }
{
    Right {
        name,
        date: Day {
            year,
            month: 1,
            day: 1,
        },
        order,
        kind,
        want: Want::Monthly([want; 12]),
        volume: None,
        used: 0,
        season: [true; 12],
    }
}

/// A right whose year and want are drawn.
fn drawn_right(name: Name, kind: RightKind, order: u32, draws: &mut Draws) -> Right
    ensures value { result ≡ right_of name kind (1850 + drawn draws.old.state 100) order
        (drawn (next draws.old.state) 300) }
    ensures after { draws.new.state ≡ next (next draws.old.state) }
{
    let year = 1850 + draws.draw(100) as u16;
    let want = draws.draw(300);
    right(name, kind, year, order, want)
}

/// The diversion of turn `k`.
#[tactic(auto, unfolding(crate::specs::Draws::later))]
pub(crate) fn diversion(size: u32, k: u32, draws: &mut Draws) -> Right
    requires size { 2 ≤ size }
    ensures value { result ≡ diversion_at size k draws.old.state }
    ensures after { draws.new.state ≡ later draws.old.state 3 }
{
    let node = draws.draw(u64::from(size)) as u32;
    drawn_right(numbered(b'd', k), RightKind::Diversion { node }, k, draws)
}

/// The instream right of turn `k`.
#[tactic(auto, unfolding(crate::specs::Draws::later))]
pub(crate) fn instream(size: u32, k: u32, draws: &mut Draws) -> Right
    requires size { 2 ≤ size }
    ensures value { result ≡ instream_at size k draws.old.state }
    ensures after { draws.new.state ≡ later draws.old.state 3 }
{
    let link = draws.draw(u64::from(size - 1)) as u32;
    drawn_right(numbered(b's', k), RightKind::Instream { link }, k, draws)
}

/// A return row of a right.
#[tactic(auto, unfolding(crate::specs::Draws::later))]
pub(crate) fn return_row(size: u32, right: u32, draws: &mut Draws) -> ReturnRow
    requires size { 2 ≤ size }
    ensures value { result ≡ return_at size right draws.old.state }
    ensures after { draws.new.state ≡ later draws.old.state 3 }
{
    let node = draws.draw(u64::from(size)) as u32;
    let part = 1000 + draws.draw(8000) as u32;
    let lag = 1 + draws.draw(12) as u32;
    ReturnRow {
        right,
        node,
        part,
        lag,
        rest: 0,
    }
}
