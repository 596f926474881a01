//! The table of built-in utilities (XCU 1.6, 2.15), how one is run, and what a built-in comes to.
#![tactic(auto)]

mod builtin;
mod command_words;
mod invocation;
pub mod message;
mod outcome;
mod rest;

pub use builtin::Builtin;
pub use command_words::behind_command;
pub use invocation::Invocation;
pub use outcome::{Completion, Leave, Outcome, TextOrigin, TextRun};
pub use rest::{Ask, BuiltinRest, Continuation, JobWait};
pub use sh_builtin_regular::LineReader;
pub use sh_builtin_shell::Functions;
pub use sh_builtin_wait::{
    Awaited, ContinuedJob, KillAsk, OperandWait, WaitStart, WaitStep, WaitTarget, wait_of,
};
