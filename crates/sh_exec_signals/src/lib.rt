//! What a shell does with signals, and its prompts: what its process does with the signals whose traps are set, the trap that is next, what an
//! interrupt drops, the jobs that are told before a prompt; and what a built-in says when it has acted.
#![tactic(auto)]

mod prompting;
mod read_limit;
mod reporting;
mod signals;

pub use prompting::{input_action, prompt_turn};
pub use read_limit::most_read;
pub use reporting::{behind, reported};
pub use signals::{
    finish_drop, heed_own_signals, heed_traps, is_dropping, is_interrupt_next, pending_action,
    pending_signal, release_own_signals,
};
