//! The tokens of the Shell Command Language (XCU 2.3), with every form of a word, and the pieces of the bodies
//! of here-documents (XCU 2.7.4), in one pass over the bytes.
//!
//! It is proved that [`token::next_token`] gives exactly the tokens of `specs/Tokens.antt`, which are lists
//! of pieces of `sh_token_pieces`, and that [`body_pieces::body_pieces`] gives exactly the pieces of
//! `specs/Body.antt`. The machine that finds them is in the crate below, `sh_token_scanner`.
#![tactic(auto)]

pub mod body_pieces;
mod kind;
pub mod token;
