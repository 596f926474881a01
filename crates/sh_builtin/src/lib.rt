//! Built-in utilities (XCU 1.6, 2.15).
#![tactic(auto)]

mod aliases;
mod command;
mod dot;
mod invocation;
mod jobs;
mod leaving;
mod running;
mod testing;

pub use invocation::invoke;
pub use running::run;
pub use sh_builtin_asking::{Answer, resume};
