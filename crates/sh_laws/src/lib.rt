//! Laws over the layers: what the reader reads, in the words of the standard; expansions with the output of their command substitutions;
//! what a shell and its turns ask of the kernel, and what those requests change.
#![tactic(auto)]

pub mod aliases;
pub mod files;
pub mod reading;
pub mod requests;
pub mod substitutions;
pub mod turns;
