//! Sessions: months of a run are shown, numbers of its series are changed, and the months before a change are kept. And
//! scripts answered: the months that they show are put, each of the series as it is by then.
#![tactic(auto)]

mod answer;
pub mod laws;
pub mod session;
mod shows;
mod solving;
mod stop;

pub use shows::put_shows;
pub use stop::EditStop;
