//! The outcomes that were found.
ghost use Rattle.std.specs.Prelude.{◌≡◌, IsPermutation, IsSortedBy, OnErr, OnOk};
ghost use Rattle.std.specs.Ordering.{is_lt};
ghost use Rattle.sh_schedules_outcomes.specs.Found.{IsAgain, IsPlace, IsSum, Joined, Noted, is_before};
ghost use Rattle.sh_schedules_outcomes.specs.Preference.{comes_before, place_in, precedes};

use crate::outcome::Outcome;
use sh_base::NoMemory;
use sh_base::sequence::Sequence;
use sh_world::Event;
use std::cmp::Ordering;

/// An outcome, and the schedules that come to it.
#[derive(Drop)]
pub struct Found {
    /// The outcome.
    pub outcome: Outcome,
    /// How many of the schedules that were tried come to it.
    pub schedules: u64,
    /// How many preemptions the schedule of `events` has.
    pub preemptions: u32,
    /// A schedule that comes to it, with the fewest preemptions of those that were tried. Of several such it is the first by its places, so
    /// that the order of the trying doesn't matter.
    pub events: Sequence<Event>,
}

/// The place that an event names.
fn place_in(event: Event) -> u32
    ensures { result ≡ place_in event }
{
    match event {
        Event::Run(place) => place,
        Event::Next | Event::Key(_) => 0,
    }
}

/// Whether events come before others, by the first place that differs; a beginning comes before the whole.
fn precedes(events: &[Event], others: &[Event]) -> bool
    ensures { result ≡ precedes events.now others.now }
{
    let mut ones = events;
    let mut twos = others;
    'events: while let Some((two, twos_behind)) = twos.split_first() {
        let Some((one, ones_behind)) = ones.split_first() else {
            return true;
        };
        let place = place_in(*one);
        let other = place_in(*two);
        if place != other {
            return place < other;
        }
        ones = ones_behind;
        twos = twos_behind;
    }
    false
}

/// Whether a schedule comes before another one: it has fewer preemptions, or as many and comes before it by its places.
fn comes_before(preemptions: u32, events: &[Event], others: u32, other: &[Event]) -> bool
    ensures { result ≡ comes_before preemptions events.now others other.now }
{
    if preemptions == others {
        return precedes(events, other);
    }
    preemptions < others
}

impl Found {
    /// Counts one more schedule, and keeps it where it has fewer preemptions, or as many and comes before the one that is kept.
    fn again(&mut self, events: Sequence<Event>, preemptions: u32)
        ensures { IsAgain self.old events preemptions self.new }
    {
        self.schedules = self.schedules.saturating_add(1);
        if comes_before(
            preemptions,
            events.as_slice(),
            self.preemptions,
            self.events.as_slice(),
        ) {
            self.preemptions = preemptions;
            self.events = events;
        }
    }

    /// Whether its schedule has fewer preemptions than that of another, or as many and comes before it by the first place that differs.
    pub fn comes_before(&self, other: &Found) -> bool
        ensures { result ≡ is_before self.now other.now }
    {
        comes_before(
            self.preemptions,
            self.events.as_slice(),
            other.preemptions,
            other.events.as_slice(),
        )
    }

    /// How its schedule stands to that of another, as `comes_before` tells.
    fn order(&self, other: &Found) -> Ordering
        ensures { is_lt result ≡ is_before self.now other.now }
    {
        if self.comes_before(other) {
            return Ordering::Less;
        }
        if other.comes_before(self) {
            Ordering::Greater
        } else {
            Ordering::Equal
        }
    }

    /// Counts the schedules of another one with the same outcome, and keeps its schedule where that comes before.
    fn add(&mut self, other: Found)
        ensures { IsSum self.old other self.new }
    {
        self.schedules = self.schedules.saturating_add(other.schedules);
        if other.comes_before(self) {
            self.preemptions = other.preemptions;
            self.events = other.events;
        }
    }
}

/// How many come before the one with this outcome; their number where there is none.
fn place_of(found: &[Found], outcome: &Outcome) -> usize
    ensures { IsPlace found.now outcome.now result }
{
    let mut place = 0usize;
    let mut rest = found;
    'found: while let Some((first, others)) = rest.split_first() {
        if first.outcome.is_same(outcome) {
            return place;
        }
        place += 1;
        rest = others;
    }
    place
}

/// Counts a schedule to its outcome, which is added where it is a new one. At 2^64 - 1 the count stays. The only error is want of memory: then
/// what was found is as it was.
pub fn note(
    found: &mut Vec<Found>,
    outcome: Outcome,
    events: Sequence<Event>,
    preemptions: u32,
) -> Result<(), NoMemory>
    ensures noted { OnOk result (Noted found.old.items outcome events preemptions found.new.items) }
    ensures lack { OnErr result (found.new.items ≡ found.old.items) }
{
    let place = place_of(found, &outcome);
    if place < found.len() {
        found[place].again(events, preemptions);
        drop(outcome);
        return Ok(());
    }
    found.push(Found {
        outcome,
        schedules: 1,
        preemptions,
        events,
    })?;
    Ok(())
}

/// Adds what was found in a shard to what was found in others: to the one with the same outcome, or as a new one. Where the two counts don't
/// fit in 64 bits the sum is the greatest number. The error is want of memory: then what was found is as it was, and `one` is let go.
pub fn join(found: &mut Vec<Found>, one: Found) -> Result<(), NoMemory>
    ensures joined { OnOk result (Joined found.old.items one found.new.items) }
    ensures lack { OnErr result (found.new.items ≡ found.old.items) }
{
    let place = place_of(found, &one.outcome);
    if place < found.len() {
        found[place].add(one);
        return Ok(());
    }
    found.push(one)?;
    Ok(())
}

/// Puts outcomes in the order of the schedules that are kept of them: those with fewer preemptions first, then by the first place that differs
/// ([`Found::comes_before`]). So it doesn't matter in which order they were found. The error is want of memory, after which they stand as
/// before.
pub fn sort(found: &mut Vec<Found>) -> Result<(), NoMemory>
    ensures permutation { IsPermutation found.old.items found.new.items }
    ensures sorted { OnOk result (IsSortedBy is_before found.new.items) }
    ensures unsorted { OnErr result (found.new.items ≡ found.old.items) }
{
    found.sort_by(|one, other| one.order(other))?;
    Ok(())
}
