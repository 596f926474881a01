//! What the syntax tree of the shell has for each production of its grammar (XCU 2.10.2): the values of a
//! production's symbols, and what the production makes of them. A leaf is what the tree has of a token.
#![tactic(auto)]

pub mod backward;
pub mod kind;
pub mod leaf;
pub mod make;
pub mod value;
