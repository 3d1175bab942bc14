//! Reports of a run: a period report for planners, and the summary of a trial.
//!
//! Water is counted in units of 1,000 cubic metres. A report solves all months and keeps sums alone, and no month. So
//! its text is put only once all months are solved.
#![tactic(auto)]

mod called;
mod entry;
mod figures;
pub mod laws;
mod months;
mod period;
mod spelling;
mod stop;
mod tally;
mod texts;
mod totals;
mod trial;
mod waters;

pub use period::period_report;
pub use stop::ReportStop;
pub use trial::trial_report;
