//! Basins against a program of its own that follows the description of the generator.
use basin_gen::make;
use std::alloc::AllocError;
use std::process::Abort;
use water_model::types::{
    Basin, Carry, Inflow, Link, Node, Reservoir, ReturnRow, Right, RightKind, Series, Want,
};

/// The sum of all inflows of a year.
fn inflow_of(nodes: &[Node]) -> u64 {
    let mut sum = 0_u64;
    for node in nodes {
        if let Inflow::Monthly(amounts) = &node.inflow {
            for amount in amounts {
                sum = sum.wrapping_add(*amount);
            }
        }
    }
    sum
}

/// The sum of the heads of links, each times its number from 1.
fn heads_of(links: &[Link]) -> u64 {
    let mut sum = 0_u64;
    let mut place = 0_u64;
    for link in links {
        place = place.wrapping_add(1);
        sum = sum.wrapping_add(place.wrapping_mul(u64::from(link.to)));
    }
    sum
}

/// The sum of what canals carry in a day.
fn carry_of(links: &[Link]) -> u64 {
    let mut sum = 0_u64;
    for link in links {
        if let Carry::Canal { per_day, .. } = &link.carry {
            sum = sum.wrapping_add(*per_day);
        }
    }
    sum
}

/// The sums of openings and of January's evaporation.
fn storage_of(reservoirs: &[Reservoir]) -> (u64, u64) {
    let mut opening = 0_u64;
    let mut rate = 0_u64;
    for reservoir in reservoirs {
        opening = opening.wrapping_add(reservoir.opening);
        rate = rate.wrapping_add(reservoir.rate[0]);
    }
    (opening, rate)
}

/// What a right wants in January.
fn january(want: &Want) -> u64 {
    match want {
        Want::Monthly(amounts) => amounts[0],
        Want::Series => 0,
    }
}

/// The sums of January's wants and of years, each times its number from 1.
fn wants_of(rights: &[Right]) -> (u64, u64) {
    let mut want = 0_u64;
    let mut year = 0_u64;
    let mut place = 0_u64;
    for right in rights {
        place = place.wrapping_add(1);
        want = want.wrapping_add(place.wrapping_mul(january(&right.want)));
        year = year.wrapping_add(place.wrapping_mul(u64::from(right.date.year)));
    }
    (want, year)
}

/// The sums of parts and lags.
fn parts_of(returns: &[ReturnRow]) -> (u64, u64) {
    let mut part = 0_u64;
    let mut lag = 0_u64;
    for row in returns {
        part = part.wrapping_add(u64::from(row.part));
        lag = lag.wrapping_add(u64::from(row.lag));
    }
    (part, lag)
}

/// How many nodes, links, reservoirs, rights and return rows there are.
fn counts_of(basin: &Basin) -> [usize; 5] {
    [
        basin.nodes.len(),
        basin.links.len(),
        basin.reservoirs.len(),
        basin.rights.len(),
        basin.returns.len(),
    ]
}

/// All sums: of inflows, of heads and canals, of openings and evaporation, of wants and years, of parts and lags.
fn sums_of(basin: &Basin) -> [u64; 9] {
    let links = basin.links.as_slice();
    let (opening, rate) = storage_of(basin.reservoirs.as_slice());
    let (want, year) = wants_of(basin.rights.as_slice());
    let (part, lag) = parts_of(basin.returns.as_slice());
    [
        inflow_of(basin.nodes.as_slice()),
        heads_of(links),
        carry_of(links),
        opening,
        rate,
        want,
        year,
        part,
        lag,
    ]
}

/// The nodes of the basin of two: name, whether it is an outlet, and inflow.
static NODES: [(&[u8], bool, [u64; 12]); 2] = [
    (
        b"n0",
        false,
        [44, 12, 12, 7, 54, 23, 10, 91, 15, 93, 15, 95],
    ),
    (b"n1", true, [0; 12]),
];

/// Links: the size of the basin, an index, and the name, the ends and what a canal carries in a day.
static LINKS: [(usize, usize, &[u8], u32, u32, Option<u64>); 5] = [
    (2, 0, b"r0", 0, 1, None),
    (85, 0, b"r0", 0, 2, None),
    (85, 1, b"r1", 1, 4, None),
    (85, 102, b"c73", 73, 76, Some(14)),
    (85, 104, b"c81", 81, 82, Some(8)),
];

/// All rights of 85 nodes: name, kind, year, order and want.
static RIGHTS: [(&[u8], RightKind, u16, u32, u64); 8] = [
    (b"d0", RightKind::Diversion { node: 0 }, 1881, 0, 230),
    (b"d1", RightKind::Diversion { node: 40 }, 1882, 1, 98),
    (b"d2", RightKind::Diversion { node: 31 }, 1929, 2, 297),
    (b"s3", RightKind::Instream { link: 57 }, 1925, 3, 279),
    (
        b"z0a",
        RightKind::Zone {
            reservoir: 0,
            level: 1,
        },
        1880,
        10_000,
        249,
    ),
    (
        b"z0b",
        RightKind::Zone {
            reservoir: 0,
            level: 2,
        },
        1940,
        20_000,
        214,
    ),
    (
        b"z1a",
        RightKind::Zone {
            reservoir: 1,
            level: 1,
        },
        1880,
        10_001,
        155,
    ),
    (
        b"z1b",
        RightKind::Zone {
            reservoir: 1,
            level: 2,
        },
        1940,
        20_001,
        95,
    ),
];

/// What a canal carries in a day.
fn per_day(carry: &Carry) -> Option<u64> {
    match carry {
        Carry::River => None,
        Carry::Canal { per_day, .. } => Some(*per_day),
    }
}

/// Whether a node is that of a row.
fn is_node(node: &Node, row: &(&[u8], bool, [u64; 12])) -> bool {
    let (name, outlet, wanted) = row;
    node.name.bytes() == *name
        && node.outlet == *outlet
        && match &node.inflow {
            Inflow::Monthly(amounts) => amounts == wanted,
            Inflow::Gauged => false,
        }
}

/// Whether a link has this name, these ends, and carries this in a day.
fn is_link(link: &Link, name: &[u8], from: u32, to: u32, carry: Option<u64>) -> bool {
    link.name.bytes() == name && link.from == from && link.to == to && per_day(&link.carry) == carry
}

/// Whether a right is that of a row.
fn is_right(right: &Right, row: &(&[u8], RightKind, u16, u32, u64)) -> bool {
    let (name, kind, year, order, want) = row;
    right.name.bytes() == *name
        && right.kind == *kind
        && right.date.year == *year
        && right.order == *order
        && right.want == Want::Monthly([*want; 12])
}

/// Compares the nodes of the basin of two.
fn compare_nodes(rt: &impl Abort, nodes: &[Node]) {
    assert!(rt; nodes.len() == NODES.len());
    for (place, row) in NODES.iter().enumerate() {
        assert!(rt; is_node(&nodes[place], row), "node {place}");
    }
}

/// Compares some links of the basin of a size.
fn compare_links(rt: &impl Abort, size: usize, links: &[Link]) {
    for (among, place, name, from, to, carry) in &LINKS {
        if *among == size {
            assert!(rt; *place < links.len());
            assert!(rt;
                is_link(&links[*place], name, *from, *to, *carry),
                "link {place}"
            );
        }
    }
}

/// Compares the rights of 85 nodes.
fn compare_rights(rt: &impl Abort, rights: &[Right]) {
    assert!(rt; rights.len() == RIGHTS.len());
    for (place, row) in RIGHTS.iter().enumerate() {
        assert!(rt; is_right(&rights[place], row), "right {place}");
    }
}

/// Compares the return row of 85 nodes.
fn compare_returns(rt: &impl Abort, returns: &[ReturnRow]) {
    let row = ReturnRow {
        right: 0,
        node: 18,
        part: 4937,
        lag: 9,
        rest: 0,
    };
    assert!(rt; returns.len() == 1);
    assert_eq!(rt; returns[0], row);
}

/// Whether a reservoir has this node and opening, this rate in every month, and an area at two storages.
fn is_reservoir(reservoir: &Reservoir, node: u32, opening: u64, rate: u64) -> bool {
    reservoir.node == node
        && reservoir.opening == opening
        && reservoir.rate == [rate; 12]
        && reservoir.area.len() == 2
}

/// Compares the reservoirs of 85 nodes.
fn compare_reservoirs(rt: &impl Abort, reservoirs: &[Reservoir]) {
    assert!(rt; reservoirs.len() == 2);
    assert!(rt; is_reservoir(&reservoirs[0], 20, 68, 2));
    assert!(rt; is_reservoir(&reservoirs[1], 60, 486, 173));
}

/// Basins by their sizes: all counts and all sums.
static BASINS: [(u32, [usize; 5], [u64; 9]); 3] = [
    (2, [2, 1, 0, 0, 0], [471, 1, 0, 0, 0, 0, 0, 0, 0]),
    (
        85,
        [85, 105, 2, 8, 1],
        [26_233, 295_499, 196, 554, 175, 6807, 68_852, 4937, 9],
    ),
    (
        2000,
        [2000, 1999 + 500, 50, 100 + 100, 25],
        [
            599_168,
            3_835_197_832,
            4915,
            12_035,
            5248,
            3_677_973,
            38_318_941,
            121_369,
            161,
        ],
    ),
];

/// Compares the series, which are empty.
fn compare_series(rt: &impl Abort, inflows: &Series) {
    assert_eq!(rt; (inflows.gauged.len(), inflows.amount.len()), (0, 0));
}

/// Compares the nodes of two, and what 85 have.
fn compare_parts(rt: &impl Abort, basin: &Basin) {
    match basin.nodes.len() {
        2 => compare_nodes(rt, basin.nodes.as_slice()),
        85 => {
            compare_rights(rt, basin.rights.as_slice());
            compare_returns(rt, basin.returns.as_slice());
            compare_reservoirs(rt, basin.reservoirs.as_slice());
        }
        _ => {}
    }
}

/// Compares a basin's counts, sums and parts.
fn compare_basin(rt: &impl Abort, basin: &Basin, counts: &[usize; 5], sums: &[u64; 9]) {
    let size = basin.nodes.len();
    assert!(rt; counts_of(basin) == *counts, "counts of {size}");
    assert!(rt; sums_of(basin) == *sums, "sums of {size}");
    compare_links(rt, size, basin.links.as_slice());
    compare_parts(rt, basin);
}

#[test]
fn makes_basins(rt: HostRuntime) -> Result<(), AllocError> {
    for (size, counts, sums) in &BASINS {
        assert!(rt; 2 <= *size && *size <= 2000);
        let (basin, inflows) = make(rt.alloc(), 7, *size)?;
        compare_basin(&rt, &basin, counts, sums);
        compare_series(&rt, &inflows);
    }
    Ok(())
}
