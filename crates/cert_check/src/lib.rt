//! A checker of result texts: whether a text is that of a history of a basin and its series, whoever wrote it.
//!
//! The verdict on a text is one function of the list of its lines. Nothing is searched for: each line is compared with
//! what the lines before it say, and each set of nodes that a text gives for a short right is tested as a cut.
#![tactic(auto)]

mod answering;
mod audit;
mod balancing;
pub mod checker;
pub mod compare;
mod entering;
pub mod laws;
pub mod noting;
mod opening;
mod passing;
pub mod pieces;
mod progress;
mod ready;
mod refusing;
mod refuted;
mod state;
mod supplying;
pub mod whole;

pub use checker::Checker;
pub use pieces::PieceChecker;
pub use refuted::{Refuted, RefutedKind};
pub use whole::{audit_text, check_text};
