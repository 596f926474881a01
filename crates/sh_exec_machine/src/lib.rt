//! What a shell does with its descriptors, and the processes that it makes, by calls of a kernel.
#![tactic(auto)]

mod ending;
mod fork;
mod redirecting;
mod transfer;
mod undo;
mod undone;
mod waits;

pub use ending::end_process;
pub use fork::{Forked, fork_process, lay_null_input};
pub use redirecting::{Redirected, redirect};
pub use transfer::{ReadOutcome, WriteOutcome, give_bytes, take_bytes};
pub use undo::end_redirections;
pub use undone::Undone;
pub use waits::{last_of, signal_status, wait_status};
