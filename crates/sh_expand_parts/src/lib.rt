//! Word expansion (IEEE Std 1003.1-2024, XCU 2.6) of one form of a word at a time: tilde, parameters, command
//! substitution, arithmetic and quotes.
//!
//! The calls `begin_..` begin a form. They give its items, or a word inside it that is to be expanded first,
//! or a fault. [`close`] gives the result of a word inside once it is expanded.
#![tactic(auto)]

mod answer;
mod closing;
mod context;
mod draft;
mod fault;
mod forms;
mod literal;
mod removal;
mod value;

pub use answer::answer_items;
pub use closing::{Closed, ExpandedWord, Purpose, close};
pub use context::Context;
pub use draft::Draft;
pub use fault::{ArithmeticError, Fault};
pub use forms::{Begun, begin_conditional, begin_length, begin_parameter, begin_removal};
pub use literal::{begin_escaped, begin_literal, begin_quoted};
pub use value::Value;
