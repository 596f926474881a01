//! The two ends of a schedule: the world in which it begins, and what it comes to.
#![tactic(auto)]

mod beginning;
mod fault;
mod found;
mod look;
mod outcome;

pub use beginning::{begin, files_of};
pub use fault::ExploreFault;
pub use found::{Found, join, note, sort};
pub use look::outcome_of;
pub use outcome::{Ending, Outcome, Waiter};
pub use sh_world::{Event, Settings, TurnAction, World};
