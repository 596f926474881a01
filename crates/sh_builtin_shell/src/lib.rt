//! A shell: its environment (XCU 2.13), its functions, and the processes and jobs of its asynchronous lists.
#![tactic(auto)]

mod functions;
mod shell;

pub use functions::Functions;
pub use shell::{Shell, own_group};
