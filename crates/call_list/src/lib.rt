//! The list of a month's calls, for whoever administers them: who is short, whose the next unit of water at each node
//! would be, which right one more unit of carry on each canal would help, and who is curtailed for whom. A finder finds
//! all that of a month. Another finds where one more unit would help one short right, which is printed with the account
//! of its core. A finder takes its memory when it is opened, and no other call takes memory.
#![tactic(auto)]

mod entry;
mod finder;
mod helping;
pub mod laws;
mod month;
mod part;
mod spelling;
mod writer;

pub use entry::Entry;
pub use finder::CallFinder;
pub use helping::{HelpFinder, put_helping};
pub use month::MonthCalls;
pub use writer::{put_head, put_month, put_tail};
