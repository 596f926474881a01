//! Commands of a shell between their turns (XCU 2.9): what their words come to, and what they do then. Nothing here calls a kernel; what a
//! turn asks of one is told by the shell's next place.
#![tactic(auto)]

mod assigning;
mod cases;
mod defining;
mod expanding;
mod found;
mod reading;
mod redirects;
mod series;

pub use assigning::assign_turn;
pub use cases::{case_turn, pattern_turn};
pub use defining::define_turn;
pub use expanding::words_turn;
pub use found::{Found, InputFound};
pub use reading::{find_command, find_input};
pub use redirects::redirects_turn;
pub use series::{Round, give_turn, series_turn};
