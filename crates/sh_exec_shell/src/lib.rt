//! A shell's process: one turn is one reduction of what it runs, by calls of a kernel.
#![tactic(auto)]

mod dropping;
mod forks;
mod interpreter;
mod turn;

pub use interpreter::Interpreter;
pub use sh_exec_turns::{
    drops_before, heed_own_signals, is_called, is_interrupted, pending_signal, release_own_signals,
};
