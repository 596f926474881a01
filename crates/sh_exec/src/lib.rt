//! The shell machine: its processes, which are shells and the programs of a stock, its states, and its events. One turn of a process is one
//! reduction of what it runs.
#![tactic(auto)]

mod action;
mod event;
pub mod laws;
mod program;
mod script;
mod settings;
mod shell;
mod start;
mod task;
mod turn_action;

pub use event::Event;
pub use settings::{Settings, Source};
pub use start::Started;
pub use task::Task;
pub use turn_action::TurnAction;
