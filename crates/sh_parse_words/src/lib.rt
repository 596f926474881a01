//! The trees of words and commands. The parts of a word (XCU 2.2, 2.6) come from its pieces: the flat list
//! that the scanner found becomes the tree of quotes, expansions and substitutions that the shell expands.
//! The syntax tree of commands (XCU 2.10.2) comes from their derivation by the grammar. The recognizer gives
//! it as a list of actions, and each token comes with its leaf, which is what the tree has of the token.
#![tactic(auto)]

pub mod backquotes;
pub mod build;
pub mod fault;
mod laws;
pub mod parameter;
pub mod place;
mod productions;
mod stack;
mod syntax;

pub use laws::{fitting_leaves_have_syntax, kinds_stand_beside_their_productions};
pub use syntax::syntax_tree;
