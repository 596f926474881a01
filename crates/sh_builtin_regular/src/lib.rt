//! Regular built-in utilities (XCU 1.6) that ask no kernel, each by itself: `test` and `[`, and the line that `read` reads.
#![tactic(auto)]

mod assigning;
mod bracket;
mod conditional;
mod number;
mod reader;

pub use bracket::bracket_operands;
pub use conditional::{Verdict, evaluate};
pub use reader::LineReader;
