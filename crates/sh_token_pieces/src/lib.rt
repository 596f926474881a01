//! Pieces of texts of the Shell Command Language (XCU 2.2, 2.3, 2.6), and the contexts that they are in.
//!
//! `specs/Pieces.antt` is the definition: how each piece is written, where it may be, and what it opens or
//! closes.
#![tactic(auto)]

pub mod byte;
pub mod character;
pub mod context;
pub mod contexts;
pub mod head;
pub mod here;
pub mod operator;
pub mod pending;
pub mod piece;
