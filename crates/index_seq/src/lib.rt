//! The index-sequential method: the record of a run's gauges is run once from each of its years, wrapped round at its
//! end, and each yearly delivery that came is listed with how often it came.
#![tactic(auto)]

mod begun;
mod ensemble;
mod entry;
pub mod laws;
mod months;
mod spelling;
mod stop;
mod sums;
mod writer;

pub use begun::rotate;
pub use ensemble::ensemble_report;
pub use entry::EnsembleLine;
pub use stop::EnsembleStop;
