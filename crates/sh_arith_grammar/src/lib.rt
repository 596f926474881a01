//! What arithmetic expressions of the Shell Command Language are made of (IEEE Std 1003.1-2024, XCU 2.6.4).
//!
//! The tokens of a text and the numbers that they write, the operators on integers of 64 bits, the grammar
//! with C's precedences, and a count of the levels that are open in an expression, at most 500. A reader and
//! an evaluator of texts use this crate.
#![tactic(auto)]

mod apply;
mod constants;
mod grammar;
mod integer;
mod laws;
mod levels;
mod numbers;
mod operators;
mod tokens;

pub use apply::truth;
pub use constants::constant_value;
pub use grammar::{Kind, kind_of, tables};
pub use laws::levels_are_nested;
pub use levels::Levels;
pub use numbers::number_of;
pub use operators::{Operator, Role, operator_of, role_of};
pub use tokens::{first_word, head, is_blank};
