//! What a kernel keeps of its processes: descriptors, open file descriptions, pipes and files.
#![tactic(auto)]

mod machine;
mod tables;

pub use machine::Machine;
