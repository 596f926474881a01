//! The turns in which a shell waits for what it asked of the kernel: for a process or a job, for a substitution's output, for what a built-in
//! asks; and what follows a write.
#![tactic(auto)]

mod asking;
mod job_wait;
mod sending;
mod waiting;
mod writing;

pub use asking::ask_turn;
pub use job_wait::job_wait_turn;
pub use waiting::{answer_turn, take_terminal_back, wait_turn};
pub use writing::after_write;
