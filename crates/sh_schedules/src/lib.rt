//! The schedules of a script: what it comes to by each of them.
#![tactic(auto)]

mod checkpoints;
mod choices;
mod exploring;
mod kept;
mod laws;
mod parting;
mod path;
mod retracing;
mod shard;
mod turns;

pub use exploring::{Bounds, Exploration, explore, explore_shard};
pub use kept::{Kept, join_kept};
pub use laws::{
    as_many_preemptions_as_turns_bound_nothing, different_schedules_part, ends_are_runs,
    joins_are_tallies, kept_shards_are_an_exploration, merged_shards_are_an_exploration,
    ordered_explorations_are_the_same, schedules_are_listed, shards_share_out,
    whole_explorations_agree,
};
pub use parting::{Parting, find_parting};
pub use retracing::retrace;
pub use sh_exec::{Event, Settings, TurnAction};
pub use sh_schedules_outcomes::{Ending, ExploreFault, Found, Outcome, Waiter, join, sort};
pub use shard::Shard;
