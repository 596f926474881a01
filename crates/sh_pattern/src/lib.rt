//! Patterns of the shell (XCU 2.14): whether a pattern matches a text, and which prefixes and suffixes of a
//! text it matches. No call takes memory.
#![tactic(auto)]

mod class;
mod element;
mod item;
mod laws;
mod part;
mod pattern_byte;
mod search;

pub use laws::{matching_is_decided, parts_are_decided};
pub use part::{longest_back, longest_front, shortest_back, shortest_front};
pub use pattern_byte::PatternByte;
pub use search::matches;
