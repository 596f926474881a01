//! Aliases (XBD 3.10, XCU 2.3.1): names, each with a value that stands in its place where commands are read.
#![tactic(auto)]

mod alias;
mod table;

pub use alias::Alias;
pub use table::{Aliases, aliases_stay_sorted, what_was_put_is_found, what_was_removed_is_gone};
