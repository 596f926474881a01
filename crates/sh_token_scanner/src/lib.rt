//! The scanner of the Shell Command Language: a machine that is fed the bytes of a text one by one, and stops
//! at the end of the first token (XCU 2.3), or at the end of the body of a here-document (XCU 2.7.4).
//!
//! It is proved that [`scanner::scan`] is the machine of `specs/Machine.antt` and `specs/Run.antt`. The crate
//! above, `sh_token`, proves that what this machine finds are the tokens and the pieces of the definition.
#![tactic(auto)]

mod body;
pub mod scanner;
pub mod state;
mod step;
