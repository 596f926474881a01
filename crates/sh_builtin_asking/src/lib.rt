//! Built-in utilities that ask the kernel something (XCU read, wait, kill, bg, fg): how they begin, and what they do behind the answer.
#![tactic(auto)]

mod answer;
mod continuing;
mod killing;
mod reading;
mod resuming;
mod waiting;

pub use answer::Answer;
pub use continuing::{bg, fg};
pub use killing::kill;
pub use reading::read;
pub use resuming::resume;
pub use waiting::wait;
