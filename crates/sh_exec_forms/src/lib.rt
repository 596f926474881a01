//! The running forms of a shell round the place where it acts, as a stack: what holds inside them, and how commands are entered, inward to
//! their first place.
#![tactic(auto)]

mod bodies;
mod entering;
mod frames;
mod job_text;
mod kinds;
mod moves;
mod step;

pub use bodies::{body_of, list_body, stage};
pub use entering::{enter, enter_command, enter_inside, enter_joined, enter_list};
pub use frames::Frames;
pub use kinds::MOST_LEVELS;
pub use moves::go_to;
pub use step::Step;
