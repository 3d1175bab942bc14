//! A basin, its inflows, a plan and a month's record.
//!
//! Water is counted in units of 1,000 cubic metres (or in another unit that fits), areas in hectares, evaporation in millimetres a month. Nodes,
//! links, reservoirs and rights are numbered from 0 in the order of the file, the months of a run from 0. Lists of
//! twelve run from January to December.
use crate::cut_list::CutList;
use crate::rows::Rows;
use water_text::day::Day;
use water_text::month::Month;
use water_text::name::Name;

/// The most nodes that a valid basin has.
pub const MAX_NODES: usize = 2000;

/// As much as a river carries in a month, in units of 1,000 cubic metres: more than a basin ever has.
pub const RIVER_CARRY: u64 = 1_000_000_000_000_000;

/// A point of the basin where water comes together. Water that reaches an outlet leaves the basin.
#[derive(Drop)]
pub struct Node {
    pub name: Name,
    pub outlet: bool,
    pub inflow: Inflow,
}

/// What flows in at a node from outside: an amount for each calendar month, or a gauge's record in the series.
#[derive(Drop)]
pub enum Inflow {
    Monthly([u64; 12]),
    Gauged,
}

/// A river or canal from one node to another.
#[derive(Drop)]
pub struct Link {
    pub name: Name,
    pub from: u32,
    pub to: u32,
    pub carry: Carry,
}

/// What a link can carry: a river any amount, a canal `per_day` each day, and nothing in the calendar months in which
/// it is shut.
#[derive(Drop)]
pub enum Carry {
    River,
    Canal { per_day: u64, shut: [bool; 12] },
}

/// The area of a reservoir's surface, in hectares, at a storage.
#[derive(Clone, Copy, Debug, PartialEq, Eq)]
pub struct AreaPoint {
    pub storage: u64,
    pub area: u64,
}

/// A reservoir at a node: what it holds when the run begins, its areas by rising storage, and for each calendar month
/// how many millimetres evaporate from it.
#[derive(Drop)]
pub struct Reservoir {
    pub node: u32,
    pub opening: u64,
    pub area: Rows<AreaPoint>,
    pub rate: [u64; 12],
}

/// What a right is to: water taken at a node, water left in a link, or water kept in a reservoir up to a level.
#[derive(Clone, Copy, Debug, PartialEq, Eq)]
pub enum RightKind {
    Diversion { node: u32 },
    Instream { link: u32 },
    Zone { reservoir: u32, level: u8 },
}

/// What a right wants: an amount for each calendar month, or its record in the series.
#[derive(Clone, Copy, Debug, PartialEq, Eq)]
pub enum Want {
    Monthly([u64; 12]),
    Series,
}

/// A water right. Of two rights the one with the earlier date is senior, and of one date the one with the lower order.
///
/// A volume bounds what a diversion takes, or what a zone with accounts fills, in a water year; `used` is what was used
/// of it before the run, in the water year of the first month. `season` says of a zone in which calendar months it
/// fills; of every other right it is all twelve. No right of format 1 has a volume or a series, and none below format 3
/// anything used, a season, or a volume that is a zone's.
#[derive(Drop)]
pub struct Right {
    pub name: Name,
    pub date: Day,
    pub order: u32,
    pub kind: RightKind,
    pub want: Want,
    pub volume: Option<u64>,
    pub used: u64,
    pub season: [bool; 12],
}

/// A part of what a diversion takes, in parts of 10,000, which comes back to a node after a lag in months. `rest` is the
/// remainder that the row carries into the run, in parts of 10,000 of a unit.
#[derive(Clone, Copy, Debug, PartialEq, Eq)]
pub struct ReturnRow {
    pub right: u32,
    pub node: u32,
    pub part: u32,
    pub lag: u32,
    pub rest: u32,
}

/// Stored water that belongs to an owner: an account in a zone, which then is an owned zone. It holds at most `space`,
/// and `stored` when the run begins. `zone` is the index of a right.
#[derive(Drop)]
pub struct Account {
    pub name: Name,
    pub zone: u32,
    pub space: u64,
    pub stored: u64,
}

/// What a diversion draws on an account: at most `want` in a calendar month, and at most `volume` in a water year, of
/// which `used` was drawn before the run. The water is taken at `node`. `diversion` is the index of a right.
#[derive(Drop)]
pub struct Draw {
    pub diversion: u32,
    pub account: u32,
    pub node: u32,
    pub want: [u64; 12],
    pub volume: Option<u64>,
    pub used: u64,
}

/// What the amounts of a basin are counted in, as its file says it. No rule depends on it.
#[derive(Clone, Copy, Debug, PartialEq, Eq)]
pub enum Unit {
    CubicMetres,
    AcreFeet,
}

/// A river basin and the months of a run. The rights are all diversions, then all instream rights, then all zones.
/// A water year begins with the calendar month `year_start`. Accounts and draws are numbered from 0 in the order of the
/// file; a basin below format 3 has neither, and no unit. `due` has for each return row what it brings in the first
/// months of the run from diversions before it: an amount for each month, and at most as many as its lag. A row past its
/// end brings nothing.
#[derive(Drop)]
pub struct Basin {
    pub format: u32,
    pub unit: Option<Unit>,
    pub first: Month,
    pub months: u32,
    pub year_start: u8,
    pub nodes: Rows<Node>,
    pub links: Rows<Link>,
    pub reservoirs: Rows<Reservoir>,
    pub rights: Rows<Right>,
    pub returns: Rows<ReturnRow>,
    pub due: Rows<Rows<u64>>,
    pub accounts: Rows<Account>,
    pub draws: Rows<Draw>,
}

/// The series of a run: month by month the amounts of the gauged nodes, listed in `gauged`, and the wants of the rights
/// in `wanted`. The amount of gauge `g` in month `i` stands at `i * gauged.len() + g`, and a want likewise.
#[derive(Drop)]
pub struct Series {
    pub gauged: Rows<u32>,
    pub amount: Rows<u64>,
    pub wanted: Rows<u32>,
    pub want: Rows<u64>,
}

/// What a month does with its water: the flow on each link, what each right takes (0 for an instream right), and what
/// leaves the basin at each node (0 where there is no outlet).
#[derive(Drop)]
pub struct Plan {
    pub flow: Rows<u64>,
    pub take: Rows<u64>,
    pub out: Rows<u64>,
}

/// All that is known of a month of a run. `opening`, `evaporated` and `closing` are indexed by reservoir, `returned`
/// and `supply` by node, `used`, `want`, `delivered` and the sets of `cuts` by right.
#[derive(Drop)]
pub struct MonthRecord {
    pub index: u32,
    pub month: Month,
    pub opening: Rows<u64>,
    pub evaporated: Rows<u64>,
    pub returned: Rows<u64>,
    pub used: Rows<u64>,
    pub supply: Rows<u64>,
    pub want: Rows<u64>,
    pub plan: Plan,
    pub delivered: Rows<u64>,
    pub cuts: CutList,
    pub closing: Rows<u64>,
}
