//! What tokens are to the grammar and to the tree: the class of each (XCU 2.10.2), and its leaf, with the parts of
//! its word (XCU 2.2, 2.6).
#![tactic(auto)]

pub mod input;
mod laws;
pub mod leaf;
pub mod source;
pub mod word;

pub use laws::leaves_fit;
