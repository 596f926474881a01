//! Built-in utilities that act on a shell's execution environment (XCU 2.13): variables, options, positional parameters, working
//! directory and traps.
#![tactic(auto)]

mod attribute;
mod directory;
mod listing;
mod marking;
mod options;
mod outcome;
mod setting;
mod shifting;
mod trapping;
mod traps;
mod unsetting;
mod variables;

pub use attribute::Attribute;
pub use directory::{cd, pwd};
pub use listing::put_quoted;
pub use marking::{mark, name_in, value_in};
pub use options::parse_options;
pub use outcome::{BuiltinFault, Outcome};
pub use setting::set;
pub use shifting::shift;
pub use trapping::{TrapOutcome, trap};
pub use traps::{Traps, copy_of_action};
pub use unsetting::{functions_to_unset, unset};
pub use variables::{may_set, set_variable};
