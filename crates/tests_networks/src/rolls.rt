ghost use Rattle.std.specs.Prelude.{◌≡◌, ◌<◌, length, All, IsTrue};

use rights_roll::RollRefused;
use rights_roll::roll::Roll;
use std::alloc::{AllocError, Global};
use std::process::Abort;
use water_model::types::{ReturnRow, Right, RightKind, Want};
use water_text::day::Day;
use water_text::name::Name;

const DIVERSION: RightKind = RightKind::Diversion { node: 0 };

const LEVEL_1: RightKind = RightKind::Zone {
    reservoir: 0,
    level: 1,
};

const LEVEL_2: RightKind = RightKind::Zone {
    reservoir: 0,
    level: 2,
};

const ON_LINK_3: RightKind = RightKind::Instream { link: 3 };

const ON_LINK_1: RightKind = RightKind::Instream { link: 1 };

// A right of the second month: its year, its day, its order and its kind.
fn right_of(row: &(u16, u8, u32, RightKind)) -> Right {
    let (year, day, order, kind) = row;
    Right {
        name: Name::dash(),
        date: Day {
            year: *year,
            month: 2,
            day: *day,
        },
        order: *order,
        kind: *kind,
        want: Want::Series,
        volume: None,
        used: 0,
        season: [true; 12],
    }
}

fn rights_of(alloc: Global, rows: &[(u16, u8, u32, RightKind)]) -> Result<Vec<Right>, AllocError> {
    let mut rights = Vec::new(alloc);
    for row in rows {
        rights.push(right_of(row))?;
    }
    Ok(rights)
}

fn are_in_range(returns: &[ReturnRow], rights: usize) -> bool
    ensures { IsTrue result → All (λ row. row.right < rights) returns.now }
{
    returns.iter().all(|row| (row.right as usize) < rights)
}

const RETURNS: [ReturnRow; 3] = [
    ReturnRow {
        right: 0,
        node: 0,
        part: 6_000,
        lag: 1,
        rest: 0,
    },
    ReturnRow {
        right: 1,
        node: 0,
        part: 9_000,
        lag: 1,
        rest: 0,
    },
    ReturnRow {
        right: 0,
        node: 0,
        part: 4_001,
        lag: 1,
        rest: 0,
    },
];

const WHOLE: [ReturnRow; 3] = [
    ReturnRow {
        right: 0,
        node: 0,
        part: 6_000,
        lag: 1,
        rest: 0,
    },
    ReturnRow {
        right: 1,
        node: 0,
        part: 10_000,
        lag: 1,
        rest: 0,
    },
    ReturnRow {
        right: 0,
        node: 0,
        part: 4_000,
        lag: 1,
        rest: 0,
    },
];

// Rights, return rows, and the first fault.
static FAULTS: [(
    &[(u16, u8, u32, RightKind)],
    &[ReturnRow],
    Option<RollRefused>,
); 6] = [
    (
        &[
            (1900, 28, 0, DIVERSION),
            (1900, 29, 0, DIVERSION),
            (1900, 28, 0, DIVERSION),
        ],
        &RETURNS,
        Some(RollRefused::BadDate(1)),
    ),
    (
        &[
            (1900, 28, 0, DIVERSION),
            (1900, 27, 0, LEVEL_2),
            (1900, 28, 0, DIVERSION),
        ],
        &RETURNS,
        Some(RollRefused::SameSeniority(0, 2)),
    ),
    (
        &[
            (1900, 1, 0, DIVERSION),
            (1900, 2, 0, LEVEL_2),
            (1900, 3, 0, LEVEL_1),
        ],
        &RETURNS,
        Some(RollRefused::ZoneOrder(1)),
    ),
    (
        &[
            (1900, 1, 0, LEVEL_1),
            (1900, 2, 0, LEVEL_2),
            (1900, 3, 0, LEVEL_1),
        ],
        &RETURNS,
        Some(RollRefused::ZoneOrder(2)),
    ),
    (
        &[
            (1900, 1, 0, DIVERSION),
            (1900, 3, 0, LEVEL_2),
            (1900, 2, 9, LEVEL_1),
        ],
        &RETURNS,
        Some(RollRefused::ReturnParts(0)),
    ),
    (
        &[
            (1900, 1, 0, DIVERSION),
            (1900, 3, 0, LEVEL_2),
            (1900, 2, 9, LEVEL_1),
        ],
        &WHOLE,
        None,
    ),
];

// What a roll of these rights and return rows is refused for.
fn refusal(
    rt: &impl Abort,
    alloc: Global,
    rights: &[Right],
    returns: &[ReturnRow],
) -> Option<RollRefused> {
    assert!(rt; rights.len() <= 2000);
    assert!(rt; are_in_range(returns, rights.len()));
    Roll::build(alloc, rights, returns).err()
}

#[test]
fn refuses_the_first_fault(rt: HostRuntime) -> Result<(), AllocError> {
    for (rows, returns, refused) in &FAULTS {
        let rights = rights_of(rt.alloc(), rows)?;
        assert_eq!(rt;
            refusal(&rt, rt.alloc(), rights.as_slice(), returns),
            *refused
        );
    }
    Ok(())
}

// Whether the instream rights on links 3 and 1 are those of the four rows below, and other links have none.
fn are_on_links(roll: &Roll) -> bool
    requires { length roll.now.next_on ≡ 4 }
{
    roll.first_on(3) == Some(1)
        && roll.first_on(1) == Some(2)
        && roll.first_on(0).is_none()
        && roll.first_on(4).is_none()
        && roll.next_on(1) == Some(3)
        && roll.next_on(3).is_none()
        && roll.next_on(2).is_none()
}

// Compares a roll of the four rows below.
fn compare(rt: &impl Abort, roll: &Roll)
    requires { length roll.now.next_on ≡ 4 }
{
    assert!(rt; roll.by_seniority() == [3, 1, 2, 0].as_slice());
    assert!(rt; are_on_links(roll));
}

static ROWS: [(u16, u8, u32, RightKind); 4] = [
    (1900, 3, 5, DIVERSION),
    (1890, 4, 1, ON_LINK_3),
    (1900, 3, 4, ON_LINK_1),
    (1890, 2, 9, ON_LINK_3),
];

#[test]
fn seniors_come_first(rt: HostRuntime) -> Result<(), RollRefused> {
    let rights = rights_of(rt.alloc(), &ROWS)?;
    assert!(rt; rights.len() == 4);
    let roll = Roll::build(rt.alloc(), rights.as_slice(), &[])?;
    compare(&rt, &roll);
    Ok(())
}
