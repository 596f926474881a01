//! What the files of `sh_files` are made of: nodes, paths with their numbers in the order of their bytes, and the
//! lines of an image.
#![tactic(auto)]

mod block;
mod entry;
mod fields;
mod image_fault;
mod listing;
mod names;
mod node;
mod paths;
mod table;
mod texts;
mod writing;

pub use block::Block;
pub use entry::Entry;
pub use fields::{MAX_IMAGE, behind, count_newlines, file_fields, first, skip, split_line};
pub use image_fault::{FaultKind, ImageFault};
pub use names::is_image_path;
pub use node::{File, Flags, MAX_LENGTH, Node};
pub use paths::{MAX_NAME, MAX_PATH, absolute, names_fit, parent, split_slash, step};
pub use table::Table;
pub use writing::write_blocks;
