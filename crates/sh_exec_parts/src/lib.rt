//! Of what a shell's process is made: single functions over the commands of a script, the redirections that
//! it does, and what it writes of them. Nothing here knows of processes.
#![tactic(auto)]

pub mod compound;
mod copying;
pub mod declaration;
mod environment;
pub mod message;
mod pipeline;
mod queue;
pub mod redirection;
mod rest;
mod saved;
pub mod simple;
pub mod wanted;

pub use copying::{Copying, copy_all};
pub use environment::script_environment;
pub use pipeline::{commands_of, is_negated};
pub use queue::Queue;
pub use rest::Rest;
pub use saved::{Saved, restore_variables, save};
