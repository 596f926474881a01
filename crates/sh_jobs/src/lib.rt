//! The jobs of a shell: a table of the groups of processes that it launched, their states, and how they are named and listed.
#![tactic(auto)]

mod fault;
mod ids;
mod job;
mod jobs;
mod laws;
mod line;
mod marks;
mod moments;
mod news;
mod order;
mod stages;
mod state;
mod table;

pub use fault::JobFault;
pub use job::Job;
pub use jobs::Jobs;
pub use laws::{
    bringing_up_twice_is_once, current_is_ahead_of_all, next_changed_is_the_least,
    numbers_stay_apart,
};
pub use line::JobForm;
pub use moments::latest_change;
pub use sh_kernel::Kernel;
pub use stages::state_of;
pub use state::{Ending, JobState};
