//! A turn of a process, with what is known of the others.
ghost use Rattle.std.specs.Prelude.{◌≡◌, IfOk, OnOk, true};
ghost use Rattle.sh_kernel.specs.State.{KernelState, StandsAt};
ghost use Rattle.sh_tty.specs.Terminal.{Extends};
ghost use Rattle.sh_world.specs.Awake.{HasTurnedTo, IsAmong, IsKept};
ghost use Rattle.sh_world.specs.Watching.{IsWatched};

use crate::awake::{Awake, awake_place, is_at};
use crate::tasks::{keep_living, put_child, turn_among, turn_at};
use sh_base::NoMemory;
use sh_exec::Task;
use sh_kernel::Kernel;
use sh_stock::Stock;
use std::alloc::Global;

/// A turn of a process. Nothing is known of the processes then.
fn turn_any<S: Stock>(
    alloc: Global,
    kernel: &mut Kernel,
    tasks: &mut Vec<Task<S>>,
    pid: u32,
) -> Result<(), NoMemory>
    ensures turned { (s : KernelState) → StandsAt kernel.old s
        → OnOk result (HasTurnedTo S.meaning s pid tasks.old.items kernel.new tasks.new.items) }
    ensures extends { Extends kernel.old.terminal.bytes kernel.new.terminal.bytes }
{
    let child = turn_among(alloc, kernel, pid, tasks.as_mut_slice())?;
    put_child(tasks, child)?;
    keep_living(kernel, tasks);
    Ok(())
}

/// Whether a turn has left all that is known of the processes as it was: it has made no process, and what was found of the others still holds.
fn is_kept<S: Stock>(
    kernel: &Kernel,
    tasks: &[Task<S>],
    child: &Option<Task<S>>,
    place: usize,
    pid: u32,
) -> bool
    ensures { result ≡ true → IsKept kernel.now tasks.now child.now place pid }
{
    child.is_none() && kernel.is_current() && is_at(tasks, place, pid)
}

/// A turn of a process that is awake. It answers whether what is known of the processes is so still.
fn turn_awake<S: Stock>(
    alloc: Global,
    kernel: &mut Kernel,
    tasks: &mut Vec<Task<S>>,
    places: &[usize],
    pid: u32,
    place: usize,
) -> Result<bool, NoMemory>
    requires watched { IsWatched kernel.old.watch tasks.old.items places.now }
    requires among { IsAmong tasks.old.items places.now pid place }
    ensures turned { (s : KernelState) → StandsAt kernel.old s
        → OnOk result (HasTurnedTo S.meaning s pid tasks.old.items kernel.new tasks.new.items) }
    ensures known { IfOk result (λ known. known ≡ true → IsWatched kernel.new.watch tasks.new.items places.now) }
    ensures extends { Extends kernel.old.terminal.bytes kernel.new.terminal.bytes }
{
    let child = turn_at(alloc, kernel, pid, place, tasks.as_mut_slice())?;
    if is_kept(kernel, tasks.as_slice(), &child, place, pid) {
        drop(child);
        return Ok(true);
    }
    put_child(tasks, child)?;
    keep_living(kernel, tasks);
    Ok(false)
}

/// A turn of a process, with what is known of the processes that live.
pub(crate) fn turn<S: Stock>(
    alloc: Global,
    kernel: &mut Kernel,
    tasks: &mut Vec<Task<S>>,
    awake: &mut Awake,
    pid: u32,
) -> Result<(), NoMemory>
    requires { awake.old.is_known ≡ true → IsWatched kernel.old.watch tasks.old.items awake.old.places.items }
    ensures turned { (s : KernelState) → StandsAt kernel.old s
        → OnOk result (HasTurnedTo S.meaning s pid tasks.old.items kernel.new tasks.new.items) }
    ensures known { awake.new.is_known ≡ true → IsWatched kernel.new.watch tasks.new.items awake.new.places.items }
    ensures extends { Extends kernel.old.terminal.bytes kernel.new.terminal.bytes }
{
    let place = awake_place(tasks.as_slice(), awake, pid);
    awake.is_known = false;
    match place {
        Some(place) => {
            let known = turn_awake(alloc, kernel, tasks, awake.places.as_slice(), pid, place)?;
            awake.is_known = known;
            Ok(())
        },
        None => turn_any(alloc, kernel, tasks, pid),
    }
}
