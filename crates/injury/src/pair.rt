//! A right that two basins have in common.

/// A right of the first basin and the right of the second that has its name.
#[derive(Clone, Copy, Debug, PartialEq, Eq)]
pub struct Pair {
    pub first: u32,
    pub second: u32,
}
