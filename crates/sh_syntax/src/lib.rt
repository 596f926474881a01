//! Syntax trees of the Shell Command Language, and the text by which a command is shown.
#![tactic(auto)]

pub mod text;
pub mod tree;
