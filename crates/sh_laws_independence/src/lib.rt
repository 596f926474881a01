//! Laws of independence: requests and turns of different processes that have nothing in common commute.
#![tactic(auto)]

pub mod requests;
pub mod runnable;
pub mod turns;
