//! Worlds: a world stands at a state of the shell machine, an event takes it to the next, and what it shows is what the state shows.
#![tactic(auto)]

mod awake;
mod choice;
mod tasks;
mod turns;
mod world;

pub use sh_exec::{Event, Settings, Source, Task, TurnAction};
pub use sh_jobs::Jobs;
pub use sh_kernel::Status;
pub use world::World;
