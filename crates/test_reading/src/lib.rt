//! Rows of what reads a script: tokens, pieces, derivations, trees, here-documents, parts of words and whole texts (XCU 2.3, 2.10).
//!
//! The head of each module tells of its kinds of rows. Field 1 of a row is what it has to come to.
#![tactic(auto)]

mod derivations;
mod documents;
mod parts;
mod pieces;
mod reading;
mod texts;
mod tokens;
mod trees;

use std::alloc::Global;
use test_rows::fields::Found;
use test_rows::{Row, by_module, word_grammar};

/// What a row of these kinds, or of those of `word_grammar`, comes to; none where its kind is another.
pub fn found(alloc: Global, row: &Row) -> Found {
    by_module! { alloc, row; reading, texts, documents, parts, tokens, pieces, trees, derivations, word_grammar }
}
