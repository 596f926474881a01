//! The turns of a shell that make no process: it reads a command, takes a trap, does a redirection, writes, reads what a substitution writes,
//! or ends; and what becomes of the group and the signals of a process that it has made.
#![tactic(auto)]

mod collecting;
mod groups;
mod input;
mod output;
mod reading;
mod redirecting;
mod traps;

pub use collecting::collect_turn;
pub use groups::{release, settle_fork};
pub use input::input_turn;
pub use output::{end_turn, write_turn};
pub use reading::read;
pub use redirecting::redirect_turn;
pub use sh_exec_command::{
    Round, assign_turn, case_turn, define_turn, give_turn, pattern_turn, redirects_turn,
    series_turn, words_turn,
};
pub use sh_exec_settling::{
    finish_drop, goes_on_reading, heed_own_signals, pending_signal, prompt_turn,
    release_own_signals, settle,
};
pub use sh_exec_waiting::{answer_turn, ask_turn, job_wait_turn, wait_turn};
pub use traps::{drops_before, interrupt, is_called, is_interrupted, trap, trap_before};
