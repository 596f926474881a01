//! The parts into which schedules are shared out.
ghost use Rattle.std.specs.Prelude.{◌≡◌, IfOk};
ghost use Rattle.sh_schedules.specs.Shards.{first_by, first_mark, grown, is_dealt, is_first_by, may_reach, next_mark, reaching};

use sh_base::NoMemory;
use std::alloc::Global;

/// A shard: one of the parts into which the schedules of a script are shared out, so that several runs try them. Each schedule is in just
/// one of them. There is one more than come before it and behind it.
#[derive(Clone, Copy, Debug, PartialEq, Eq)]
pub struct Shard {
    /// How many shards come before it.
    pub before: u32,
    /// How many shards come behind it.
    pub behind: u32,
}

/// What tells the shard of a schedule, after some of its turns.
#[derive(Clone, Copy)]
pub(crate) struct Mark {
    /// How many turns that stray still count.
    pub(crate) strays: u32,
    /// A number that depends on the turns so far.
    pub(crate) key: u32,
}

/// The mark before the first turn.
pub(crate) fn first_mark() -> Mark
    ensures { result ≡ first_mark }
{
    Mark { strays: 2, key: 0 }
}

/// Whether a turn at a place is given to the process that is tried first.
fn is_first_by(here: Option<u32>, place: u32) -> bool
    ensures { result ≡ is_first_by here place }
{
    match here {
        None => place == 0,
        Some(here) => place == here,
    }
}

/// The mark after a turn that counts.
fn grown(mark: Mark, is_first: bool, place: u32) -> Mark
    ensures { result ≡ grown mark is_first place }
{
    let number = u64::from(mark.key) + u64::from(place) + 1;
    if is_first {
        return Mark {
            strays: mark.strays,
            key: (number % 4_294_967_296) as u32,
        };
    }
    Mark {
        strays: mark.strays.saturating_sub(1),
        key: (number * 1009 % 4_294_967_296) as u32,
    }
}

/// The mark after a turn at a place, where the process of the last turn has a place or not.
pub(crate) fn next_mark(mark: Mark, here: Option<u32>, place: u32) -> Mark
    ensures { result ≡ next_mark mark (is_first_by here place) place }
{
    if mark.strays == 0 {
        return mark;
    }
    grown(mark, is_first_by(here, place), place)
}

/// Whether a number is dealt to a shard.
fn is_dealt(shard: Shard, key: u32) -> bool
    ensures { result ≡ is_dealt shard key }
{
    let shards = u64::from(shard.before) + u64::from(shard.behind) + 1;
    u64::from(key) % shards == u64::from(shard.before)
}

/// Whether a schedule with this mark is of the shard.
pub(crate) fn is_of(shard: Shard, mark: Mark) -> bool
    ensures { result ≡ is_dealt shard mark.key }
{
    is_dealt(shard, mark.key)
}

/// Whether what begins with this mark may be of the shard.
fn may_reach(shard: Shard, mark: Mark) -> bool
    ensures { result ≡ may_reach shard mark }
{
    if mark.strays == 0 {
        is_dealt(shard, mark.key)
    } else {
        true
    }
}

/// The places that may lead to a schedule of the shard.
pub(crate) fn reaching(
    alloc: Global,
    shard: Shard,
    mark: Mark,
    here: Option<u32>,
    places: &[u32],
) -> Result<Vec<u32>, NoMemory>
    ensures { IfOk result (λ kept. kept.items ≡ reaching shard mark here places.now) }
{
    let mut kept = Vec::new(alloc);
    let mut rest = places;
    'places: while let Some((place, others)) = rest.split_first() {
        if may_reach(shard, next_mark(mark, here, *place)) {
            kept.push(*place)?;
        }
        rest = others;
    }
    Ok(kept)
}
