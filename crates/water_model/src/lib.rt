//! The types of a basin and of a month's record, and the definitions that every contract speaks of.
#![tactic(auto)]

pub mod blank;
pub mod calls;
pub mod copies;
pub mod cut_list;
pub mod rows;
pub mod space;
pub mod types;
