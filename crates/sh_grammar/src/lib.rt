//! Grammars as data, and one recognizer for each grammar that one token of lookahead decides.
//!
//! A user gives the grammar and its parsing table as constants (`Tables`), and proves by computation that
//! they pass a test (`IsPredictive`). Then a `Recognizer` takes a token exactly where the tokens so far and
//! this token begin a text. It may end exactly where its tokens are a whole text, and then it gives their one
//! derivation.
#![tactic(auto)]

mod derivation;
mod laws;
mod lookup;
mod recognize;

pub use derivation::Actions;
pub use laws::{
    awaited_marks_are_around, one_tree, prefix_begins_text, prefix_length_is_longest,
    tree_is_computed, whole_is_text,
};
pub use lookup::Tables;
pub use recognize::Recognizer;

/// A symbol of a grammar, by its number.
#[derive(Clone, Copy, Debug, PartialEq, Eq)]
pub enum Symbol {
    /// A set of classes of token.
    Terminal(u8),
    /// What the productions with this head derive.
    Nonterminal(u8),
}

/// A token, as far as a grammar sees it.
#[derive(Clone, Copy, Debug, PartialEq, Eq)]
pub struct Token {
    /// Its class, which alone decides whether it is taken.
    pub class: u8,
    /// The caller's own number for the token, such as its index in a list.
    pub id: usize,
}

/// A step of a leftmost derivation, in the order of the tree's preorder.
#[derive(Clone, Copy, Debug, PartialEq, Eq)]
pub enum Action {
    /// The production of this number is used: its body comes next.
    Expand(u8),
    /// The token is taken.
    Shift(Token),
}
