//! The signals that processes know, and the conditions of traps.
#![tactic(auto)]

mod condition;
mod signal;

pub use condition::Condition;
pub use signal::{DefaultAction, Signal};
