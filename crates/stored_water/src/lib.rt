//! Stored water that belongs to its owner: accounts and draws, the laws over them, and how an amount is dealt out by
//! weights.
#![tactic(auto)]

pub mod account_laws;
pub mod draw_laws;
pub mod plain_laws;
pub mod share_laws;
pub mod shares;
pub mod step_laws;
