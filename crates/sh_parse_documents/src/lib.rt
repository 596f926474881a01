//! The items of a text: its tokens (XCU 2.3), each newline with the bodies of the here-documents that were
//! due at it (XCU 2.7.4), and the bytes of those bodies.
#![tactic(auto)]

pub mod bodies;
mod cut;
pub mod document;
pub mod item;
pub mod items;
mod line;
pub mod waiting;

pub use sh_token::token::TokenKind;
