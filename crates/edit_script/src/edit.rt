//! What a line of a script asks for.

/// A change of a series, or a month to show. A gauge is given by its index in `gauged`, a right by its index in
/// `wanted`, a month by its index.
#[derive(Clone, Copy, Debug, PartialEq, Eq)]
pub enum Edit {
    Inflow { index: u32, gauge: u32, amount: u64 },
    Want { index: u32, place: u32, amount: u64 },
    Show { index: u32 },
}
