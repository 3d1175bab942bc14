//! Where a draw takes water, and where it leaves it.

/// The node of the diversion that draws, and that of the reservoir with the account it draws on.
#[derive(Clone, Copy, Debug, PartialEq, Eq)]
pub struct DrawNodes {
    pub diversion: u32,
    pub reservoir: u32,
}
