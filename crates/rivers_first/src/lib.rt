//! Rivers before canals: water that rivers can carry as well goes down the rivers, and no delivery changes by it.
#![tactic(auto)]

mod checked;
mod instream;
mod rounds;
mod search;

pub use rounds::Rounds;
