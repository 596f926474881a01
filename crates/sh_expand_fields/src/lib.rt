//! Field splitting, quote removal and pathname expansion (XCU 2.6.5 to 2.6.7), on the items of an expanded word; and the fields of a line
//! that `read` takes.
#![tactic(auto)]

mod class;
mod component;
mod item;
mod laws;
mod line;
mod line_fields;
mod pathnames;
mod separators;
mod splitting;
mod text;

pub use item::Item;
pub use laws::{fields_stand_between_delimiters, pathnames_are_computed};
pub use line::split_line;
pub use pathnames::expand_pathnames;
pub use separators::Separators;
pub use splitting::{Fields, split};
pub use text::{pattern_of, remove_quotes};
