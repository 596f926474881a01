//! What a world shows.
ghost use Rattle.std.specs.Prelude.{◌≡◌, IfOk, map};
ghost use Rattle.sh_files.specs.Writing.{image_text};
ghost use Rattle.sh_world.specs.World.{WorldStands};
ghost use Rattle.sh_world.specs.State.{State, ended_of, files_of, runnables};
ghost use Rattle.sh_schedules_outcomes.specs.Shell.{ending_by, outcome_of, statuses_in, waiter_of, waiters_by};

use crate::outcome::{Ending, Outcome, Waiter};
use sh_base::NoMemory;
use sh_base::sequence::{Sequence, Text};
use sh_kernel_processes::{FIRST_PID, Status};
use sh_stock::Stock;
use sh_world::{Task, World};
use std::alloc::Global;

/// How many processes there may be: their numbers go from 100 to 2147483647.
const MOST_PROCESSES: u32 = 2_147_483_548;

/// The status of each process that ever was.
fn statuses<S: Stock>(alloc: Global, world: &World<S>) -> Result<Sequence<Status>, NoMemory>
    ensures { (s : State S) → WorldStands world.now s → IfOk result (λ statuses.
        statuses ≡ statuses_in s.machine.machine.processes) }
{
    let mut statuses = Sequence::new(alloc);
    'places: for place in 0..MOST_PROCESSES {
        let Some(status) = world.status(FIRST_PID + place) else {
            return Ok(statuses);
        };
        statuses.push(status)?;
    }
    Ok(statuses)
}

/// How a run ended, where these processes can still take a turn.
fn ending_by(runnable: &[u32], status: Option<Status>) -> Ending
    ensures { result ≡ ending_by runnable.now status }
{
    match (runnable, status) {
        ([], None) => Ending::Stuck,
        ([], Some(_)) => Ending::Ended,
        ([_, ..], _) => Ending::Cut,
    }
}

/// How a run ended.
fn ending<S: Stock>(world: &World<S>) -> Result<Ending, NoMemory>
    ensures { (s : State S) → WorldStands world.now s → IfOk result (λ ending.
        ending ≡ ending_by (runnables s) (ended_of s)) }
{
    let runnable = world.runnable()?;
    Ok(ending_by(runnable.as_slice(), world.ended()))
}

/// A process that waits.
fn waiter<S: Stock>(task: &Task<S>) -> Waiter
    ensures { result ≡ waiter_of task.now }
{
    Waiter {
        pid: task.pid(),
        action: task.action(),
    }
}

/// Processes, and what they are about to do.
fn all_waiters<S: Stock>(alloc: Global, tasks: &[Task<S>]) -> Result<Sequence<Waiter>, NoMemory>
    ensures { IfOk result (λ waiters. waiters ≡ map waiter_of tasks.now) }
{
    let mut waiters = Sequence::new(alloc);
    for task in tasks {
        waiters.push(waiter(task))?;
    }
    Ok(waiters)
}

/// The processes that live, where a run is stuck.
fn waiters<S: Stock>(
    alloc: Global,
    world: &World<S>,
    ending: Ending,
) -> Result<Sequence<Waiter>, NoMemory>
    ensures { (s : State S) → WorldStands world.now s → IfOk result (λ waiters.
        waiters ≡ waiters_by ending s.tasks) }
{
    match (ending, world.tasks()) {
        (Ending::Stuck, Some(tasks)) => all_waiters(alloc, tasks),
        _ => Ok(Sequence::new(alloc)),
    }
}

/// The image of the files.
fn image<S: Stock>(alloc: Global, world: &World<S>) -> Result<Text, NoMemory>
    ensures { (s : State S) → WorldStands world.now s → IfOk result (λ image.
        image ≡ image_text (files_of s)) }
{
    let Some(files) = world.files() else {
        return Ok(Text::new(alloc));
    };
    let image = files.write_image()?;
    Ok(Text::from_vec(image))
}

/// What is seen of a world where a run ends. The only error is want of memory, which may have been wanting in the run.
#[tactic(auto, unfolding(crate::specs::Shell::outcome_of))]
pub fn outcome_of<S: Stock>(alloc: Global, world: &World<S>) -> Result<Outcome, NoMemory>
    ensures { (s : State S) → WorldStands world.now s → IfOk result (λ outcome.
        outcome ≡ outcome_of s) }
{
    let ending = ending(world)?;
    let terminal = Text::copy_of(alloc, world.terminal())?;
    let image = image(alloc, world)?;
    let statuses = statuses(alloc, world)?;
    let waiters = waiters(alloc, world, ending)?;
    Ok(Outcome {
        terminal,
        image,
        statuses,
        ending,
        waiters,
    })
}
