//! The lowest layer of text: names, months, days, amounts, lines and their fields. No call takes memory.
#![tactic(auto)]

pub mod amount;
pub mod day;
mod digits;
pub mod fields;
pub mod line;
pub mod line_in;
pub mod month;
pub mod name;
mod shape;
