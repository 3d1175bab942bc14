//! The result text of a run, written line by line.
//!
//! A text has a head of two lines, for each month its sections of lines, and a tail of one line. A line is a word and
//! its fields with single spaces between them, and ends with a line feed. Amounts are in units of 1,000 cubic metres.
//! No call takes memory.
#![tactic(auto)]

pub mod listing;
mod section;
mod spelling;
mod writer;

pub use result_lines::item::Item;
pub use writer::{put_head, put_month, put_tail};
