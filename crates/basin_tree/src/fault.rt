//! The faults that a basin file can have.
ghost use Rattle.std.specs.Prelude.{◌≡◌, ◌≤◌, length};
ghost use Rattle.basin_tree.specs.Faults.{fault_name};

/// Why a file is no basin that can be run. The faults are looked for in this order.
#[derive(Clone, Copy, Debug, PartialEq, Eq)]
pub enum BasinFault {
    /// The bytes are no TOML document.
    Toml,
    /// A table has a key that isn't one of its keys.
    UnknownKey,
    /// A key that has to be there is absent, or no node is listed.
    MissingKey,
    /// A value isn't of its key's kind.
    WrongKind,
    /// A number or month is out of its range, or the run ends after 2999-12.
    OutOfRange,
    /// A name isn't 1 to 32 letters, digits, `_` or `-`.
    BadName,
    /// There are more entries than the limit, or more points of a reservoir.
    TooMany,
    /// An earlier entry has the name.
    SameName,
    /// A text that should name an entry names none.
    NoSuchName,
    /// A reservoir stands at an outlet.
    OutletReservoir,
    /// A link leads from a node to itself.
    SelfLink,
    /// A link leaves an outlet.
    LinkFromOutlet,
    /// No river leaves a node that is no outlet.
    NoRiver,
    /// A node reaches itself.
    DirectedCycle,
    /// The date of a right is no day of the calendar.
    BadDate,
    /// An earlier right has the date and the order.
    SameSeniority,
    /// A zone has the level of an earlier one, or none of the level below is senior to it.
    ZoneOrder,
    /// The return rows of a diversion bring more than it takes.
    ReturnParts,
    /// An area table has no point.
    TableEmpty,
    /// An area table doesn't begin at storage 0.
    TableFirst,
    /// A storage of an area table isn't above the one before.
    TableRising,
    /// An area of an area table is below the one before.
    TableArea,
}

impl BasinFault {
    /// The word for the fault, as lines of refusal write it.
    #[tactic(auto, unfolding(crate::specs::Faults::fault_name))]
    pub fn name(&self) -> &'static str
        ensures value { result.now ≡ fault_name self.now }
        ensures short { length result.now ≤ 16 }
    {
        match self {
            BasinFault::Toml => "Toml",
            BasinFault::UnknownKey => "UnknownKey",
            BasinFault::MissingKey => "MissingKey",
            BasinFault::WrongKind => "WrongKind",
            BasinFault::OutOfRange => "OutOfRange",
            BasinFault::BadName => "BadName",
            BasinFault::TooMany => "TooMany",
            BasinFault::SameName => "SameName",
            BasinFault::NoSuchName => "NoSuchName",
            BasinFault::OutletReservoir => "OutletReservoir",
            BasinFault::SelfLink => "SelfLink",
            BasinFault::LinkFromOutlet => "LinkFromOutlet",
            BasinFault::NoRiver => "NoRiver",
            BasinFault::DirectedCycle => "DirectedCycle",
            BasinFault::BadDate => "BadDate",
            BasinFault::SameSeniority => "SameSeniority",
            BasinFault::ZoneOrder => "ZoneOrder",
            BasinFault::ReturnParts => "ReturnParts",
            BasinFault::TableEmpty => "TableEmpty",
            BasinFault::TableFirst => "TableFirst",
            BasinFault::TableRising => "TableRising",
            BasinFault::TableArea => "TableArea",
        }
    }
}
