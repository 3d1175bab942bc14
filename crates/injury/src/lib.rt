//! Two runs compared: who is delivered less in the second.
#![tactic(auto)]

mod injuries;
pub mod laws;
mod pair;
mod pairing;

pub use injuries::{Injury, put_compared};
pub use pair::Pair;
pub use pairing::Pairing;
