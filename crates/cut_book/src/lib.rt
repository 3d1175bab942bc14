//! The account book of a right that is short: the terms of the bound that its set puts on it, one a line, and their
//! sum.
//!
//! Whatever is supplied in the set and whatever the links that enter it can bring, less what seniors keep on the links
//! that leave it and by takes in it, is the most that the right could get. Where the set is a tight cut, it is what the
//! right got. No call takes memory.
#![tactic(auto)]

mod entry;
mod holder;
pub mod laws;
mod part;
mod shortage;
mod spelling;
mod writer;

pub use entry::BookLine;
pub use writer::{put_account, put_book};
