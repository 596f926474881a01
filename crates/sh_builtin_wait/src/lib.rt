//! The built-in utility `wait` (XCU wait) by itself: what its operands name, and how it goes from operand to operand, over a table of jobs.
#![tactic(auto)]

mod command;
mod message;
mod run;
mod target;

pub use command::{WaitStart, wait_of};
pub use run::{Awaited, OperandWait, WaitReport, WaitStep};
pub use sh_builtin_jobs::{ContinuedJob, KillAsk};
pub use target::WaitTarget;
