//! What most crates depend on: want of memory, lists and shared values that contracts see as plain data,
//! spans of texts, names, decimal numbers.
#![tactic(auto)]

pub mod decimal;
mod memory;
pub mod name;
pub mod separator;
pub mod sequence;
pub mod shared;
pub mod span;

pub use memory::NoMemory;
