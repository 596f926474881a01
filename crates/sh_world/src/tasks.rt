//! The processes that live: which of them can take a turn, and a turn of one.
ghost use Rattle.std.specs.Prelude.{◌≡◌, ◌==◌, ◌++◌, ◌∷◌, [], IfOk, OnOk, find, option_map};
ghost use Rattle.sh_kernel.specs.State.{KernelState, StandsAt};
ghost use Rattle.sh_kernel_processes.specs.Processes.{lives};
ghost use Rattle.sh_tty.specs.Terminal.{Extends};
ghost use Rattle.sh_exec.specs.Actions.{action_of};
ghost use Rattle.sh_world.specs.Awake.{IsChangedAt};
ghost use Rattle.sh_exec.specs.Tasks.{pid_of};
ghost use Rattle.sh_kernel.specs.Turns.{can_do};
ghost use Rattle.sh_exec.specs.Processes.{HaveTurned, living, pid_before, place_of, runnable_pids, turn_among, with_child};

use sh_base::NoMemory;
use sh_exec::Task;
use sh_kernel::Kernel;
use sh_kernel_processes::Status;
use sh_stock::Stock;
use std::alloc::Global;

/// The pids of the processes that can take a turn.
pub(crate) fn runnable_pids<S: Stock>(
    alloc: Global,
    kernel: &Kernel,
    tasks: &[Task<S>],
) -> Result<Vec<u32>, NoMemory>
    ensures { (s : KernelState) → StandsAt kernel.now s → IfOk result (λ pids.
        pids.items ≡ runnable_pids s tasks.now) }
{
    let mut pids = Vec::new(alloc);
    let mut rest = tasks;
    'tasks: while let Some((task, others)) = rest.split_first() {
        if task.is_runnable(kernel) {
            pids.push(task.pid())?;
        }
        rest = others;
    }
    Ok(pids)
}

/// How many processes are before the one of this pid; their number where there is none.
fn place_of<S: Stock>(pid: u32, tasks: &[Task<S>]) -> usize
    ensures { result ≡ place_of pid tasks.now }
{
    let mut place = 0usize;
    let mut rest = tasks;
    'tasks: while let Some((task, others)) = rest.split_first() {
        if task.pid() == pid {
            return place;
        }
        place += 1;
        rest = others;
    }
    place
}

/// A turn of the process of this pid, before which there are so many others.
pub(crate) fn turn_at<S: Stock>(
    alloc: Global,
    kernel: &mut Kernel,
    pid: u32,
    place: usize,
    tasks: &mut [Task<S>],
) -> Result<Option<Task<S>>, NoMemory>
    requires { place_of pid tasks.old ≡ place }
    ensures state { (s : KernelState) → StandsAt kernel.old s → IfOk result (λ child.
        HaveTurned kernel.new tasks.new child (turn_among S.meaning s pid tasks.old)) }
    ensures terminal { Extends kernel.old.terminal.bytes kernel.new.terminal.bytes }
    ensures watch { kernel.new.watch ≡ kernel.old.watch }
    ensures others { IsChangedAt place tasks.old tasks.new }
{
    if place >= tasks.len() {
        return Ok(None);
    }
    let child = tasks[place].turn(alloc, kernel)?;
    Ok(child)
}

/// A turn of the process of this pid.
pub(crate) fn turn_among<S: Stock>(
    alloc: Global,
    kernel: &mut Kernel,
    pid: u32,
    tasks: &mut [Task<S>],
) -> Result<Option<Task<S>>, NoMemory>
    ensures state { (s : KernelState) → StandsAt kernel.old s → IfOk result (λ child.
        HaveTurned kernel.new tasks.new child (turn_among S.meaning s pid tasks.old)) }
    ensures terminal { Extends kernel.old.terminal.bytes kernel.new.terminal.bytes }
{
    let place = place_of(pid, tasks);
    let child = turn_at(alloc, kernel, pid, place, tasks)?;
    Ok(child)
}

/// The process of this pid, where it is one of these.
pub(crate) fn task_among<S: Stock>(tasks: &[Task<S>], pid: u32) -> Option<&Task<S>>
    ensures { option_map (λ task. task.now) result ≡ find (λ task. pid_of task == pid) tasks.now }
{
    tasks.iter().find(|task| task.pid() == pid)
}

/// Adds a process that was made after the others.
pub(crate) fn put_child<S: Stock>(
    tasks: &mut Vec<Task<S>>,
    child: Option<Task<S>>,
) -> Result<(), NoMemory>
    ensures { OnOk result (tasks.new.items ≡ with_child tasks.old.items child) }
{
    let Some(child) = child else {
        return Ok(());
    };
    tasks.push(child)?;
    Ok(())
}

/// Whether a process has not ended.
pub(crate) fn is_living(kernel: &Kernel, pid: u32) -> bool
    ensures { (s : KernelState) → StandsAt kernel.now s → result ≡ lives s.machine.processes pid }
{
    match kernel.status(pid) {
        Some(Status::Running) => true,
        Some(Status::Stopped(_)) => true,
        Some(Status::Exited(_)) => false,
        Some(Status::Signaled(_)) => false,
        None => false,
    }
}

/// Removes the processes that have ended.
pub(crate) fn keep_living<S: Stock>(kernel: &Kernel, tasks: &mut Vec<Task<S>>)
    ensures { (s : KernelState) → StandsAt kernel.now s → tasks.new.items ≡ living s tasks.old.items }
{
    tasks.retain(|task| is_living(kernel, task.pid()));
}
