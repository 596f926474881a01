//! Laws of pipelines of filters: what one writes is a function of its input, in whatever order its stages take their steps; turns of
//! processes that run the stages are these steps; what others do, keys and ends leave the stages joined, event after event.
#![tactic(auto)]

pub mod events;
pub mod files;
pub mod others;
pub mod pipelines;
pub mod stages;
pub mod turns;
