//! The trying of all schedules.
ghost use Rattle.std.specs.Prelude.{◌≡◌, ◌+◌, ◌<◌, ◌≤◌, ◌^◌, ℕ, List, [], false, IfErr, IfOk, OnOk, Ok};
ghost use Rattle.sh_files.specs.Image.{read_image};
ghost use Rattle.sh_files.specs.Nodes.{FileMap};
ghost use Rattle.sh_schedules_outcomes.specs.World.{WorldStands};
ghost use Rattle.sh_exec.specs.State.{State, start};
ghost use Rattle.sh_schedules.specs.Paths.{events_of};
ghost use Rattle.sh_schedules_outcomes.specs.Found.{Noted};
ghost use Rattle.sh_schedules_outcomes.specs.Refusals.{IsRefusal};
ghost use Rattle.sh_schedules_outcomes.specs.Shell.{outcome_of, shell};
ghost use Rattle.sh_schedules.specs.Checkpoints.{AreCheckpoints, IsCheckpoint};
ghost use Rattle.sh_schedules.specs.declared.path.Turn.{Turn as PathTurn};
ghost use Rattle.sh_schedules.specs.Trying.{AreFewer, HasExplored, HasExploredShard, HasWalked, IsShardExploration, IsTrying, IsUnexplored, IsWithin};

use crate::checkpoints::{Checkpoint, first_checkpoint, forget, last_checkpoint};
use crate::path::{Turn, advance};
use crate::shard::{Shard, is_of};
use crate::turns::{go_to_end, take_rest};
use sh_base::NoMemory;
use sh_base::sequence::Sequence;
use sh_exec::{Event, Settings};
use sh_schedules_outcomes::{ExploreFault, Found, World, begin, files_of, note, outcome_of};
use sh_stock::{CopyStock, Stock};
use std::alloc::Global;

/// Which schedules are tried.
#[derive(Clone, Copy, Debug, PartialEq, Eq)]
pub struct Bounds {
    /// How many preemptions a schedule has at most.
    pub preemptions: u32,
    /// How many turns a schedule has at most.
    pub turns: u32,
    /// How many schedules are tried at most.
    pub schedules: u64,
}

/// What the schedules of a script come to.
#[derive(Drop)]
pub struct Exploration {
    /// The outcomes, in the order in which they were found; no two are the same.
    pub found: Vec<Found>,
    /// How many schedules were tried.
    pub schedules: u64,
    /// Whether these are all that there are within the bounds on preemptions and turns.
    pub is_complete: bool,
}

/// The events of a path.
pub(crate) fn events_of(alloc: Global, path: &[Turn]) -> Result<Sequence<Event>, NoMemory>
    ensures { IfOk result (λ events. events ≡ events_of path.now) }
{
    let mut events = Sequence::new(alloc);
    for turn in path {
        events.push(Event::Run(turn.place))?;
    }
    Ok(events)
}

/// Counts the schedule that a world has come to the end of, with so many preemptions.
fn count<S: Stock>(
    alloc: Global,
    world: &World<S>,
    path: &[Turn],
    preemptions: u32,
    found: &mut Vec<Found>,
) -> Result<(), NoMemory>
    ensures { (s : State S) → WorldStands world.now s → OnOk result
        (Noted found.old.items (outcome_of s) (events_of path.now) preemptions found.new.items) }
{
    let events = events_of(alloc, path)?;
    let outcome = outcome_of(alloc, world)?;
    note(found, outcome, events, preemptions)
}

/// The world in which the next schedule begins: a copy of the last one that is kept, else one before all events.
fn next_checkpoint<S: CopyStock>(
    alloc: Global,
    image: &[u8],
    settings: &Settings,
    most: u32,
    checkpoints: &[Checkpoint<S>],
) -> Result<Checkpoint<S>, ExploreFault>
    ensures stands { (files : FileMap) (path : List PathTurn) → read_image image.now ≡ Ok files
        → AreCheckpoints (shell S.meaning) most (start files settings.now) path checkpoints.now
        → IfOk result (λ checkpoint. IsCheckpoint (shell S.meaning) most (start files settings.now) path checkpoint) }
    ensures refused { IfErr result (λ fault. IsRefusal image.now fault) }
{
    if let Some(checkpoint) = last_checkpoint(checkpoints) {
        return Ok(checkpoint);
    }
    let world = begin::<S>(alloc, image, settings)?;
    Ok(first_checkpoint(world, most))
}

/// Goes to the end of the schedule that comes next, from a world that has taken some of its turns, and counts it if it is of the shard. It
/// answers how many were tried then; none where it is of the shard, but as many were tried as may be.
fn try_next<S: CopyStock>(
    alloc: Global,
    begun: &mut Checkpoint<S>,
    bounds: Bounds,
    shard: Shard,
    tried: u64,
    path: &mut Vec<Turn>,
    checkpoints: &mut Vec<Checkpoint<S>>,
    found: &mut Vec<Found>,
) -> Result<Option<u64>, NoMemory>
    requires { tried ≤ bounds.schedules }
    ensures walked { (s : State S) → IsCheckpoint (shell S.meaning) bounds.preemptions s path.old.items begun.old
        → AreCheckpoints (shell S.meaning) bounds.preemptions s path.old.items checkpoints.old.items
        → IsTrying (shell S.meaning) outcome_of bounds.preemptions bounds.turns s shard path.old.items found.old.items tried
        → IfOk result (λ after. HasWalked (shell S.meaning) outcome_of bounds.preemptions bounds.turns s shard path.new.items found.new.items tried after
        × AreCheckpoints (shell S.meaning) bounds.preemptions s path.new.items checkpoints.new.items
        × AreFewer (shell S.meaning) bounds.preemptions bounds.turns s path.old.items path.new.items) }
    ensures within { IfOk result (λ after. IsWithin bounds.schedules tried after) }
{
    let standing = take_rest(
        &mut begun.world,
        path.as_slice(),
        begun.taken,
        begun.standing,
    )?;
    let standing = go_to_end(
        alloc,
        &mut begun.world,
        shard,
        path,
        checkpoints,
        standing,
        bounds.turns as usize,
    )?;
    if !is_of(shard, standing.mark) {
        return Ok(Some(tried));
    }
    if tried >= bounds.schedules {
        return Ok(None);
    }
    let preemptions = bounds.preemptions.saturating_sub(standing.left);
    count(alloc, &begun.world, path, preemptions, found)?;
    Ok(Some(tried + 1))
}

/// Goes to the end of the schedule that comes next, as `try_next` does.
fn try_one<S: CopyStock>(
    alloc: Global,
    image: &[u8],
    settings: &Settings,
    bounds: Bounds,
    shard: Shard,
    tried: u64,
    path: &mut Vec<Turn>,
    checkpoints: &mut Vec<Checkpoint<S>>,
    found: &mut Vec<Found>,
) -> Result<Option<u64>, ExploreFault>
    requires { tried ≤ bounds.schedules }
    ensures walked { (files : FileMap) → read_image image.now ≡ Ok files
        → AreCheckpoints (shell S.meaning) bounds.preemptions (start files settings.now) path.old.items checkpoints.old.items
        → IsTrying (shell S.meaning) outcome_of bounds.preemptions bounds.turns (start files settings.now) shard path.old.items found.old.items tried
        → IfOk result (λ after. HasWalked (shell S.meaning) outcome_of bounds.preemptions bounds.turns (start files settings.now) shard path.new.items found.new.items tried after
        × AreCheckpoints (shell S.meaning) bounds.preemptions (start files settings.now) path.new.items checkpoints.new.items
        × AreFewer (shell S.meaning) bounds.preemptions bounds.turns (start files settings.now) path.old.items path.new.items) }
    ensures within { IfOk result (λ after. IsWithin bounds.schedules tried after) }
    ensures refused { IfErr result (λ fault. IsRefusal image.now fault) }
{
    let mut begun = next_checkpoint(
        alloc,
        image,
        settings,
        bounds.preemptions,
        checkpoints.as_slice(),
    )?;
    let after = try_next(
        alloc,
        &mut begun,
        bounds,
        shard,
        tried,
        path,
        checkpoints,
        found,
    );
    drop(begun);
    match after {
        Ok(after) => Ok(after),
        Err(lack) => Err(ExploreFault::NoMemory(lack)),
    }
}

/// How many schedules were tried, and whether these are all.
#[derive(Clone, Copy)]
struct Tried {
    schedules: u64,
    is_complete: bool,
}

/// Tries the schedules of a shard in order, with worlds that are kept on the way.
fn try_all<S: CopyStock>(
    alloc: Global,
    image: &[u8],
    settings: &Settings,
    bounds: Bounds,
    shard: Shard,
    checkpoints: &mut Vec<Checkpoint<S>>,
    found: &mut Vec<Found>,
) -> Result<Tried, ExploreFault>
    requires checkpoints { checkpoints.old.items ≡ [] }
    requires found { found.old.items ≡ [] }
    ensures explored { (files : FileMap) → read_image image.now ≡ Ok files → IfOk result (λ tried.
        IsShardExploration (shell S.meaning) outcome_of bounds.preemptions bounds.turns (start files settings.now) shard found.new.items tried.schedules tried.is_complete) }
    ensures within { IfOk result (λ tried. tried.schedules ≤ bounds.schedules) }
    ensures stopped { IfOk result (λ tried. tried.is_complete ≡ false → tried.schedules ≡ bounds.schedules) }
    ensures refused { IfErr result (λ fault. IsUnexplored S.meaning image.now settings.now bounds fault) }
{
    let mut path = Vec::new(alloc);
    let mut tried = 0u64;
    'walks: for _walk in 0..u64::MAX {
        let after = try_one::<S>(
            alloc,
            image,
            settings,
            bounds,
            shard,
            tried,
            &mut path,
            checkpoints,
            found,
        )?;
        let Some(more) = after else {
            return Ok(Tried {
                schedules: tried,
                is_complete: false,
            });
        };
        tried = more;
        if !advance(&mut path)? {
            return Ok(Tried {
                schedules: tried,
                is_complete: true,
            });
        }
        forget(checkpoints, path.len());
    }
    Err(ExploreFault::TooMany)
}

/// Tries the schedules of one shard of a script, over the files of an image, and tells what they come to.
///
/// The schedules are those that `explore` tries. Each is of just one of the shards (`shards_share_out`), which its beginning tells: the
/// turns up to and with the second that is given to another process than the one that would come first. So a shard doesn't run what goes
/// on from the beginnings of others. It tries its own in the order in which `explore` does. After `bounds.schedules` of them the trying
/// ends, but not before, unless these are all of the shard. The error is that the image is refused, want of memory, or that there were
/// 2^64 - 1 runs, and more are to come.
pub fn explore_shard<S: CopyStock>(
    alloc: Global,
    image: &[u8],
    settings: &Settings,
    bounds: Bounds,
    shard: Shard,
) -> Result<Exploration, ExploreFault>
    ensures explored { IfOk result (λ e.
        HasExploredShard S.meaning image.now settings.now bounds shard e.found.items e.schedules e.is_complete) }
    ensures refused { IfErr result (λ fault. IsUnexplored S.meaning image.now settings.now bounds fault) }
{
    let files = files_of(alloc, image)?;
    drop(files);
    let mut checkpoints = Vec::new(alloc);
    let mut found = Vec::new(alloc);
    let tried = try_all::<S>(
        alloc,
        image,
        settings,
        bounds,
        shard,
        &mut checkpoints,
        &mut found,
    );
    drop(checkpoints);
    match tried {
        Ok(tried) => Ok(Exploration {
            found,
            schedules: tried.schedules,
            is_complete: tried.is_complete,
        }),
        Err(fault) => {
            drop(found);
            Err(fault)
        },
    }
}

/// Tries the schedules of a script, over the files of an image, and tells what they come to.
///
/// In each turn one process moves. The one that took the last turn goes on, as long as it can; a turn that is given to another while it
/// can is a preemption. The schedules are those with at most so many preemptions. A schedule ends where no process can take a turn, or
/// after as many turns as the bounds allow. Each is run from a copy of a world on its way, or from the start. After `bounds.schedules` of them the trying ends,
/// but not before, unless these are all. The error is that the image is refused, want of memory, or that there were 2^64 - 1 runs, and more
/// are to come.
pub fn explore<S: CopyStock>(
    alloc: Global,
    image: &[u8],
    settings: &Settings,
    bounds: Bounds,
) -> Result<Exploration, ExploreFault>
    ensures explored { IfOk result (λ e.
        HasExplored S.meaning image.now settings.now bounds e.found.items e.schedules e.is_complete) }
    ensures refused { IfErr result (λ fault. IsUnexplored S.meaning image.now settings.now bounds fault) }
{
    let all = Shard {
        before: 0,
        behind: 0,
    };
    let exploration = explore_shard::<S>(alloc, image, settings, bounds, all)?;
    Ok(exploration)
}
