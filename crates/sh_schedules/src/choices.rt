//! Which processes may take the next turn, in the order in which they are tried.
ghost use Rattle.std.specs.Prelude.{◌≡◌, ◌==◌, ◌<◌, ◌^◌, ◌++◌, IfOk, IfSome, OnOk, length, position};
ghost use Rattle.sh_schedules_outcomes.specs.Schedules.{cost_by, place_of};
ghost use Rattle.sh_schedules_outcomes.specs.Choices.{choices_by, others_below, places_below};

use sh_base::NoMemory;
use std::alloc::Global;

/// The first place of a process among others.
fn position_of(pid: u32, pids: &[u32]) -> Option<usize>
    ensures place { result ≡ position (λ p. p == pid) pids.now }
    ensures within { IfSome result (λ place. place < length pids.now) }
{
    pids.iter().position(|other| *other == pid)
}

/// The place of a process among others, where it is one of them.
pub(crate) fn place_of(pid: Option<u32>, pids: &[u32]) -> Option<u32>
    requires { length pids.now < 2 ^ 32 }
    ensures { result ≡ place_of pid pids.now }
{
    match position_of(pid?, pids) {
        None => None,
        Some(place) => Some(place as u32),
    }
}

/// The places below a number.
fn places_below(alloc: Global, count: u32) -> Result<Vec<u32>, NoMemory>
    ensures { IfOk result (λ places. places.items ≡ places_below count) }
{
    let mut places = Vec::new(alloc);
    'places: for place in 0..count {
        places.push(place)?;
    }
    Ok(places)
}

/// Adds the places below a number but for one.
fn push_others(places: &mut Vec<u32>, here: u32, count: u32) -> Result<(), NoMemory>
    ensures { OnOk result (places.new.items ≡ places.old.items ++ others_below here count) }
{
    'places: for place in 0..count {
        if place != here {
            places.push(place)?;
        }
    }
    Ok(())
}

/// The last process first, and the others where a preemption is left.
fn from_here(alloc: Global, here: u32, count: u32, left: u32) -> Result<Vec<u32>, NoMemory>
    ensures { IfOk result (λ places. places.items ≡ choices_by (Some here) count left) }
{
    let mut places = Vec::new(alloc);
    places.push(here)?;
    if left > 0 {
        push_others(&mut places, here, count)?;
    }
    Ok(places)
}

/// The places to try.
pub(crate) fn choices(
    alloc: Global,
    here: Option<u32>,
    count: u32,
    left: u32,
) -> Result<Vec<u32>, NoMemory>
    ensures { IfOk result (λ places. places.items ≡ choices_by here count left) }
{
    match here {
        None => places_below(alloc, count),
        Some(here) => from_here(alloc, here, count, left),
    }
}

/// Whether a turn is a preemption: 1 where it is one, else 0.
pub(crate) fn cost(here: Option<u32>, place: u32) -> u32
    ensures { result ≡ cost_by here place }
{
    match here {
        None => 0,
        Some(here) if here == place => 0,
        Some(_) => 1,
    }
}
