//! The tables of a basin file and their keys.
ghost use Rattle.std.specs.Prelude.{◌≡◌, ◌≤◌, length, map};
ghost use Rattle.basin_tree.specs.Tables.{row_of, keys_of, table_name};

/// The greatest inflow, want, capacity of a day, and area of a file.
pub const MAX_AMOUNT: u64 = 1_000_000_000;

/// The greatest storage and volume of a file.
pub const MAX_STORED: u64 = 16_000_000_000;

/// The tables of a basin file, in their order. The top table lists the entries of the others.
#[derive(Clone, Copy, Debug, PartialEq, Eq)]
pub enum BasinTable {
    Top,
    Node,
    Link,
    Reservoir,
    Diversion,
    Instream,
    Zone,
    Return,
}

/// What a text can name. Diversions, instream rights and zones have their names in one space; a reservoir is named by
/// its node.
#[derive(Clone, Copy)]
pub enum Space {
    Nodes,
    Links,
    Reservoirs,
    Diversions,
    Rights,
}

/// What a key's value has to be.
#[derive(Clone, Copy)]
pub enum Kind {
    /// A list of tables.
    Tables,
    /// A whole number, from the least to the greatest.
    Integer(u64, u64),
    /// True or false.
    Truth,
    /// A text that is a name.
    Name,
    /// A text that names an entry.
    Refers(Space),
    /// A text `YYYY-MM`.
    MonthText,
    /// A text `YYYY-MM-DD`.
    DateText,
    /// One whole number from 0 to the greatest, or twelve from January to December.
    Monthly(u64),
    /// A right's amount or twelve, or in format 2 the text `series`.
    Want,
    /// A list of calendar months, from 1 for January to 12.
    CalendarMonths,
    /// An amount or twelve, or the text `gauged`.
    Inflow,
    /// A list of pairs of a storage and an area.
    Points,
}

/// A key of a table, and the first format that has it.
#[derive(Clone, Copy)]
pub struct Key {
    pub name: &'static str,
    pub is_required: bool,
    pub kind: Kind,
    pub since: u64,
}

macro_rules! required {
    ($name:literal, $kind:expr) => {
        Key {
            name: $name,
            is_required: true,
            kind: $kind,
            since: 1,
        }
    };
}

macro_rules! optional {
    ($name:literal, $kind:expr) => {
        Key {
            name: $name,
            is_required: false,
            kind: $kind,
            since: 1,
        }
    };
}

macro_rules! second {
    ($name:literal, $kind:expr) => {
        Key {
            name: $name,
            is_required: false,
            kind: $kind,
            since: 2,
        }
    };
}

/// The keys of a table, those of format 2 included.
pub fn keys(table: BasinTable) -> &'static [Key]
    ensures { map row_of result.now ≡ keys_of table }
{
    match table {
        BasinTable::Top => &[
            required!("format", Kind::Integer(1, 2)),
            required!("first_month", Kind::MonthText),
            required!("months", Kind::Integer(1, 1_200)),
            required!("node", Kind::Tables),
            optional!("link", Kind::Tables),
            optional!("reservoir", Kind::Tables),
            optional!("diversion", Kind::Tables),
            optional!("instream", Kind::Tables),
            optional!("zone", Kind::Tables),
            optional!("return", Kind::Tables),
            second!("year_start", Kind::Integer(1, 12)),
        ],
        BasinTable::Node => &[
            required!("name", Kind::Name),
            optional!("outlet", Kind::Truth),
            optional!("inflow", Kind::Inflow),
        ],
        BasinTable::Link => &[
            required!("name", Kind::Name),
            required!("from", Kind::Refers(Space::Nodes)),
            required!("to", Kind::Refers(Space::Nodes)),
            optional!("per_day", Kind::Integer(0, MAX_AMOUNT)),
            second!("closed", Kind::CalendarMonths),
        ],
        BasinTable::Reservoir => &[
            required!("node", Kind::Refers(Space::Nodes)),
            required!("opening", Kind::Integer(0, MAX_STORED)),
            optional!("area", Kind::Points),
            optional!("rate", Kind::Monthly(10_000)),
        ],
        BasinTable::Diversion => &[
            required!("name", Kind::Name),
            required!("node", Kind::Refers(Space::Nodes)),
            required!("date", Kind::DateText),
            required!("want", Kind::Want),
            optional!("order", Kind::Integer(0, 1_000_000)),
            second!("volume", Kind::Integer(0, MAX_STORED)),
        ],
        BasinTable::Instream => &[
            required!("name", Kind::Name),
            required!("link", Kind::Refers(Space::Links)),
            required!("date", Kind::DateText),
            required!("want", Kind::Want),
            optional!("order", Kind::Integer(0, 1_000_000)),
        ],
        BasinTable::Zone => &[
            required!("name", Kind::Name),
            required!("reservoir", Kind::Refers(Space::Reservoirs)),
            required!("level", Kind::Integer(1, 16)),
            required!("date", Kind::DateText),
            required!("want", Kind::Want),
            optional!("order", Kind::Integer(0, 1_000_000)),
        ],
        BasinTable::Return => &[
            required!("diversion", Kind::Refers(Space::Diversions)),
            required!("node", Kind::Refers(Space::Nodes)),
            required!("part", Kind::Integer(1, 10_000)),
            required!("lag", Kind::Integer(1, 120)),
        ],
    }
}

impl BasinTable {
    /// The word for the table, in lower case. The entries of each but the top are listed at this key of the top table.
    pub fn name(&self) -> &'static str
        ensures value { result.now ≡ table_name self.now }
        ensures short { length result.now ≤ 16 }
    {
        match self {
            BasinTable::Top => "top",
            BasinTable::Node => "node",
            BasinTable::Link => "link",
            BasinTable::Reservoir => "reservoir",
            BasinTable::Diversion => "diversion",
            BasinTable::Instream => "instream",
            BasinTable::Zone => "zone",
            BasinTable::Return => "return",
        }
    }
}
