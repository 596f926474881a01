//! Lists of commands from texts: tokens judged one after another by the grammar (XCU 2.10.2), the parts of
//! each word with the commands of its substitutions (XCU 2.6.3), the parts of the bodies of here-documents
//! (XCU 2.7.4), and the syntax tree of all these.
#![tactic(auto)]

mod body_prefix;
pub mod cut;
mod laws;
pub mod prefix;
mod program;
mod replacing;
mod scope;
pub mod text;

pub use laws::{
    aliases_are_rewritings, items_are_tokens, judged_tokens_have_their_tree,
    no_tokens_have_two_derivations, program_is_the_defined_one, read_text_is_the_defined_one,
    rewriting_ends,
};
