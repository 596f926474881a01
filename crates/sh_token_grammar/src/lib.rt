//! What the grammar of the shell sees of tokens: their classes, and the tables of the grammar for the generic
//! recognizer.
#![tactic(auto)]

pub mod class;
pub mod grammar;
pub mod levels;
mod tables;
