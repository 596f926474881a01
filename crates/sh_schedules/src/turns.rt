//! The turns of a world by a schedule.
ghost use Rattle.std.specs.Prelude.{◌≡◌, ◌+◌, ◌-◌, ◌<◌, ◌≤◌, ◌^◌, ℕ, IfOk, OnOk, IsTrue, length, take};
ghost use Rattle.sh_schedules_outcomes.specs.World.{WorldStands};
ghost use Rattle.sh_exec.specs.State.{State};
ghost use Rattle.sh_exec.specs.declared.event.Event.TheVariants.{Run};
ghost use Rattle.sh_schedules_outcomes.specs.Schedules.{cost_by, last_place, place_of};
ghost use Rattle.sh_schedules_outcomes.specs.Choices.{choices_by};
ghost use Rattle.sh_schedules.specs.Shards.{first_mark, is_first_by, next_mark};
ghost use Rattle.sh_schedules_outcomes.specs.Shell.{shell};
ghost use Rattle.sh_schedules.specs.Checkpoints.{AreCheckpoints};
ghost use Rattle.sh_schedules.specs.Trying.{HasEnded, HasGone, HasTaken, IsAfter, IsFirstChoice};

use crate::checkpoints::{Checkpoint, keep};
use crate::path::{Turn, first_turn};
use crate::shard::{Mark, Shard};
use crate::{choices, shard};
use sh_base::NoMemory;
use sh_exec::Event;
use sh_schedules_outcomes::World;
use sh_stock::{CopyStock, Stock};
use std::alloc::Global;

/// Who can take a turn: how many processes, and the place of the one that took the last turn, where it is one of them.
#[derive(Clone, Copy)]
struct CanMove {
    count: u32,
    here: Option<u32>,
}

/// How many processes can take a turn, as far as an event can name them by their place.
const MOST_PLACES: usize = 4_294_967_295;

/// The processes that can take a turn.
#[tactic(auto, unfolding(sh_schedules_outcomes::specs::Shell::shell))]
pub(crate) fn runnable<S: Stock>(world: &World<S>) -> Result<Vec<u32>, NoMemory>
    ensures pids { (s : State S) → WorldStands world.now s → IfOk result (λ pids.
        pids.items ≡ (shell S.meaning).runnable s) }
    ensures few { IfOk result (λ pids. length pids.items < 2 ^ 32) }
{
    let mut pids = world.runnable()?;
    pids.truncate(MOST_PLACES);
    Ok(pids)
}

/// Who can take a turn, where these processes can.
fn who_of(last: Option<u32>, pids: &[u32]) -> CanMove
    requires { length pids.now < 2 ^ 32 }
    ensures count { result.count ≡ length pids.now }
    ensures here { result.here ≡ place_of last pids.now }
{
    CanMove {
        count: pids.len() as u32,
        here: choices::place_of(last, pids),
    }
}

/// Who can take a turn of a world.
#[tactic(auto, unfolding(sh_schedules_outcomes::specs::Shell::shell))]
fn who_can<S: Stock>(world: &World<S>) -> Result<CanMove, NoMemory>
    ensures { (s : State S) → WorldStands world.now s → IfOk result (λ who.
        (who.count ≡ length ((shell S.meaning).runnable s)) × (who.here ≡ last_place (shell S.meaning) s)) }
{
    let pids = runnable(world)?;
    Ok(who_of(world.last(), pids.as_slice()))
}

/// The turn that an event gives.
#[tactic(auto, unfolding(sh_schedules_outcomes::specs::Shell::shell))]
pub(crate) fn turn_of<S: Stock>(world: &mut World<S>, event: Event) -> Result<(), NoMemory>
    ensures { (s : State S) → WorldStands world.old s
        → OnOk result (WorldStands world.new ((shell S.meaning).step s event)) }
{
    world.apply(event)
}

/// A turn of the process at a place.
fn turn_at<S: Stock>(world: &mut World<S>, place: u32) -> Result<(), NoMemory>
    ensures { (s : State S) → WorldStands world.old s
        → OnOk result (WorldStands world.new ((shell S.meaning).step s (Run place))) }
{
    turn_of(world, Event::Run(place))
}

/// How things stand after turns.
#[derive(Clone, Copy)]
pub(crate) struct Standing {
    /// How many preemptions are left.
    pub(crate) left: u32,
    /// What tells the shard of a schedule that goes on from there.
    pub(crate) mark: Mark,
}

/// How things stand after a turn at a place.
fn standing_after(standing: Standing, here: Option<u32>, place: u32) -> Standing
    ensures left { result.left ≡ standing.left - cost_by here place }
    ensures mark { result.mark ≡ next_mark standing.mark (is_first_by here place) place }
{
    Standing {
        left: standing.left.saturating_sub(choices::cost(here, place)),
        mark: shard::next_mark(standing.mark, here, place),
    }
}

/// A turn of the process at a place; it answers how things stand after it.
fn take_turn<S: Stock>(
    world: &mut World<S>,
    place: u32,
    standing: Standing,
) -> Result<Standing, NoMemory>
    ensures { (s : State S) → WorldStands world.old s → IfOk result (λ after.
        WorldStands world.new ((shell S.meaning).step s (Run place)) × IsAfter (shell S.meaning) s (Run place) standing after) }
{
    let CanMove { count: _, here } = who_can(world)?;
    turn_at(world, place)?;
    Ok(standing_after(standing, here, place))
}

/// How things stand before the first turn, with so many preemptions.
pub(crate) fn first_standing(most: u32) -> Standing
    ensures left { result.left ≡ most }
    ensures mark { result.mark ≡ first_mark }
{
    Standing {
        left: most,
        mark: shard::first_mark(),
    }
}

/// Takes the turns of a path behind those that were taken already; it answers how things stand after them.
pub(crate) fn take_rest<S: Stock>(
    world: &mut World<S>,
    path: &[Turn],
    taken: usize,
    begun: Standing,
) -> Result<Standing, NoMemory>
    ensures { (k : ℕ) (s : State S) → taken ≤ length path.now → HasTaken world.old (shell S.meaning) k s (take taken path.now) begun
        → IfOk result (λ standing. HasTaken world.new (shell S.meaning) k s path.now standing) }
{
    let mut standing = begun;
    'places: for place in taken..path.len() {
        standing = take_turn(world, path[place].place, standing)?;
    }
    Ok(standing)
}

/// Takes the turns of a path; it answers how things stand after them.
pub(crate) fn replay<S: Stock>(
    world: &mut World<S>,
    path: &[Turn],
    most: u32,
) -> Result<Standing, NoMemory>
    ensures { (s : State S) → WorldStands world.old s → IfOk result (λ standing.
        HasTaken world.new (shell S.meaning) most s path.now standing) }
{
    let standing = take_rest(world, path, 0, first_standing(most))?;
    Ok(standing)
}

/// The next turn, at the first choice, with those of the other choices that may lead to a schedule of the shard; none where there is no choice.
fn first_choice(
    alloc: Global,
    who: CanMove,
    shard: Shard,
    standing: Standing,
) -> Result<Option<Turn>, NoMemory>
    ensures { IfOk result (λ turn. IsFirstChoice shard standing who.here (choices_by who.here who.count standing.left) turn) }
{
    let places = choices::choices(alloc, who.here, who.count, standing.left)?;
    let Some(turn) = first_turn(places) else {
        return Ok(None);
    };
    let others = shard::reaching(
        alloc,
        shard,
        standing.mark,
        who.here,
        turn.others.as_slice(),
    )?;
    Ok(Some(Turn {
        place: turn.place,
        others,
    }))
}

/// Goes on by one turn, at the first choice; it answers whether there is one.
fn go_on<S: Stock>(
    alloc: Global,
    world: &mut World<S>,
    shard: Shard,
    path: &mut Vec<Turn>,
    standing: &mut Standing,
) -> Result<bool, NoMemory>
    ensures gone { (k n : ℕ) (s : State S) → HasTaken world.old (shell S.meaning) k s path.old.items standing.old
        → length path.old.items < n
        → IfOk result (λ more. HasGone world.new (shell S.meaning) k n s shard path.old.items path.new.items standing.new more) }
    ensures longer { IfOk result (λ more.
        IsTrue more → length path.new.items ≡ length path.old.items + 1) }
    ensures extends { IfOk result (λ more. take (length path.old.items) path.new.items ≡ path.old.items) }
{
    let who = who_can(world)?;
    let Some(turn) = first_choice(alloc, who, shard, *standing)? else {
        return Ok(false);
    };
    let place = turn.place;
    path.push(turn)?;
    turn_at(world, place)?;
    *standing = standing_after(*standing, who.here, place);
    Ok(true)
}

/// Goes on at the first choice, until there is none or there were as many turns as may be, and keeps worlds on the way. It answers how
/// things stand then.
pub(crate) fn go_to_end<S: CopyStock>(
    alloc: Global,
    world: &mut World<S>,
    shard: Shard,
    path: &mut Vec<Turn>,
    checkpoints: &mut Vec<Checkpoint<S>>,
    begun: Standing,
    most: usize,
) -> Result<Standing, NoMemory>
    ensures { (k : ℕ) (s : State S) → HasTaken world.old (shell S.meaning) k s path.old.items begun
        → length path.old.items ≤ most → AreCheckpoints (shell S.meaning) k s path.old.items checkpoints.old.items
        → IfOk result (λ standing. HasEnded world.new (shell S.meaning) k most s shard path.old.items path.new.items standing
        × AreCheckpoints (shell S.meaning) k s path.new.items checkpoints.new.items) }
{
    let mut standing = begun;
    'turns: while path.len() < most {
        keep(checkpoints, world, path.len(), standing);
        if !go_on(alloc, world, shard, path, &mut standing)? {
            return Ok(standing);
        }
    }
    Ok(standing)
}
