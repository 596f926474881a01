//! Worlds that are kept on the way of a schedule, so that the next one need not begin at the start.
ghost use Rattle.std.specs.Prelude.{◌≡◌, ℕ, List, IfOk, IfSome, filter, length, nat_lt};
ghost use Rattle.sh_exec.specs.State.{State};
ghost use Rattle.sh_schedules_outcomes.specs.World.{WorldStands};
ghost use Rattle.sh_schedules_outcomes.specs.Shell.{shell};
ghost use Rattle.sh_schedules.specs.Checkpoints.{AreCheckpoints, IsCheckpoint};
ghost use Rattle.sh_schedules.specs.Trying.{HasTaken};
ghost use Rattle.sh_schedules.specs.declared.path.Turn.{Turn as PathTurn};

use crate::turns::{Standing, first_standing};
use sh_base::NoMemory;
use sh_schedules_outcomes::World;
use sh_stock::{CopyStock, Stock};

/// How many worlds are kept at most. If there is one more, the one that has taken the fewest turns goes: it is the one that is wanted last,
/// and the way there is the shortest.
const MOST_CHECKPOINTS: usize = 64;

/// How many turns there are at least between a world that is kept and the next: a copy costs about as much as a turn of a shell.
const STRIDE: usize = 8;

/// A world that has taken the first turns of a path.
#[derive(Drop)]
pub(crate) struct Checkpoint<S: Stock> {
    pub(crate) world: World<S>,
    /// How many turns of the path it has taken.
    pub(crate) taken: usize,
    pub(crate) standing: Standing,
}

/// A world before the first turn of any path.
pub(crate) fn first_checkpoint<S: Stock>(world: World<S>, most: u32) -> Checkpoint<S>
    ensures { (s : State S) (path : List PathTurn) → WorldStands world s → IsCheckpoint (shell S.meaning) most s path result }
{
    Checkpoint {
        world,
        taken: 0,
        standing: first_standing(most),
    }
}

/// A copy of one that is kept.
fn copy<S: CopyStock>(checkpoint: &Checkpoint<S>) -> Result<Checkpoint<S>, NoMemory>
    ensures { (k : ℕ) (s : State S) (path : List PathTurn) → IsCheckpoint (shell S.meaning) k s path checkpoint.now
        → IfOk result (λ copy. IsCheckpoint (shell S.meaning) k s path copy) }
{
    let world = checkpoint.world.copy()?;
    Ok(Checkpoint {
        world,
        taken: checkpoint.taken,
        standing: checkpoint.standing,
    })
}

/// A copy of the last one that is kept; none where there is none, or where there is no memory for a copy.
pub(crate) fn last_checkpoint<S: CopyStock>(checkpoints: &[Checkpoint<S>]) -> Option<Checkpoint<S>>
    ensures { (k : ℕ) (s : State S) (path : List PathTurn) → AreCheckpoints (shell S.meaning) k s path checkpoints.now
        → IfSome result (λ checkpoint. IsCheckpoint (shell S.meaning) k s path checkpoint) }
{
    match checkpoints {
        [] => None,
        [.., last] => match copy(last) {
            Ok(checkpoint) => Some(checkpoint),
            Err(_) => None,
        },
    }
}

/// Forgets those that have taken as many turns as there are, or more.
pub(crate) fn forget<S: Stock>(checkpoints: &mut Vec<Checkpoint<S>>, turns: usize)
    ensures { checkpoints.new.items ≡ filter (λ checkpoint. nat_lt checkpoint.taken turns) checkpoints.old.items }
{
    checkpoints.retain(|checkpoint| checkpoint.taken < turns);
}

/// Whether it is time to keep a world that has taken so many turns.
fn is_due<S: Stock>(checkpoints: &[Checkpoint<S>], taken: usize) -> bool {
    match checkpoints {
        [] => taken >= STRIDE,
        [.., last] => taken.saturating_sub(last.taken) >= STRIDE,
    }
}

/// Lets the one that has taken the fewest turns go, if there are as many as are kept.
fn leave_room<S: Stock>(checkpoints: &mut Vec<Checkpoint<S>>)
    ensures { (k : ℕ) (s : State S) (path : List PathTurn) → AreCheckpoints (shell S.meaning) k s path checkpoints.old.items
        → AreCheckpoints (shell S.meaning) k s path checkpoints.new.items }
{
    if checkpoints.len() >= MOST_CHECKPOINTS {
        drop(checkpoints.remove(0));
    }
}

/// Adds one, if there is memory for that.
fn put<S: Stock>(checkpoints: &mut Vec<Checkpoint<S>>, checkpoint: Checkpoint<S>)
    ensures { (k : ℕ) (s : State S) (path : List PathTurn) → AreCheckpoints (shell S.meaning) k s path checkpoints.old.items
        → IsCheckpoint (shell S.meaning) k s path checkpoint → AreCheckpoints (shell S.meaning) k s path checkpoints.new.items }
{
    match checkpoints.push(checkpoint) {
        Ok(()) => {},
        Err(error) => drop(error),
    }
}

/// Keeps a copy of a world that has taken a whole path, if it is time for that. Where there is no memory for it, none is kept.
pub(crate) fn keep<S: CopyStock>(
    checkpoints: &mut Vec<Checkpoint<S>>,
    world: &World<S>,
    taken: usize,
    standing: Standing,
)
    ensures { (k : ℕ) (s : State S) (path : List PathTurn) → AreCheckpoints (shell S.meaning) k s path checkpoints.old.items
        → taken ≡ length path → HasTaken world.now (shell S.meaning) k s path standing
        → AreCheckpoints (shell S.meaning) k s path checkpoints.new.items }
{
    if !is_due(checkpoints.as_slice(), taken) {
        return;
    }
    match world.copy() {
        Ok(copy) => {
            leave_room(checkpoints);
            let checkpoint = Checkpoint {
                world: copy,
                taken,
                standing,
            };
            put(checkpoints, checkpoint);
        },
        Err(_) => {},
    }
}
