//! Word expansion (IEEE Std 1003.1-2024, XCU 2.6): from words of a command to fields.
//!
//! [`Expansion::start`] expands words in order: tilde, parameters, command substitutions and arithmetic, from
//! left to right. Then all of them are split into fields, by IFS as it is then, and pathnames are expanded,
//! by the files as they are then. Then quotes are removed. Where the output of a command substitution is
//! needed, the expansion stops with [`Step::Need`], and [`Expansion::resume`] goes on from there. A [`Pending`] keeps an expansion
//! that has stopped, with the answers that come for it, from one turn of a shell to another one.
#![tactic(auto)]

mod expansion;
mod fields;
mod laws;
mod part;
mod pending;
mod place;
mod wanted;
mod words;

pub use expansion::{Expansion, Step};
pub use laws::parts_do_what_their_forms_say;
pub use pending::{PatternProgress, Pending, Progress};
pub use place::Place;
pub use sh_expand_parts::{ArithmeticError, Context, Fault};
pub use wanted::Wanted;
pub use words::WordExpansion;
