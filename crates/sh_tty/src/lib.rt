//! One terminal in canonical mode (XBD 11): its keys, its unread input, and its bytes.
#![tactic(auto)]

mod entry;
mod key;
mod tty;

pub use tty::{Tty, TtyFault};
