//! What a shell's process runs, as a stack of running forms: what a form becomes when what runs inside it is done.
#![tactic(auto)]

mod acting;
mod forms;
mod input;
mod loops;

pub use forms::settle;
pub use input::goes_on_reading;
pub use sh_exec_signals::{
    finish_drop, heed_own_signals, input_action, is_dropping, is_interrupt_next, most_read,
    pending_action, pending_signal, prompt_turn, release_own_signals,
};
