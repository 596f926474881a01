//! Which processes may take a turn, so that an event asks no process that can't.
ghost use Rattle.std.specs.Prelude.{◌≡◌, [], IfOk, IfSome, OnOk, false, true};
ghost use Rattle.sh_exec.specs.Processes.{runnable_pids};
ghost use Rattle.sh_kernel.specs.State.{KernelState, StandsAt};
ghost use Rattle.sh_world.specs.Awake.{HasLooked, IsAmong, IsNoted, is_at, pid_at, pids_at};
ghost use Rattle.sh_world.specs.Watching.{IsWatched};

use crate::tasks::runnable_pids;
use sh_base::NoMemory;
use sh_exec::Task;
use sh_kernel::{Cause, Kernel};
use sh_stock::Stock;
use std::alloc::Global;

/// So many processes are asked each time: to look at them would cost more.
const FEW: usize = 8;

/// Where a look has served no event, so many events go by before the next one.
const PAUSE: u8 = 7;

/// The places, among the processes that live, of those that may take a turn. The others are blocked: so long as the kernel says that this
/// still holds, nobody has to ask them.
#[derive(Drop)]
pub(crate) struct Awake {
    /// The places, in order.
    pub(crate) places: Vec<usize>,
    /// Whether they are known.
    pub(crate) is_known: bool,
    /// Whether the last look has served an event.
    has_served: bool,
    /// How many events are to go by before the next look.
    pause: u8,
}

impl Awake {
    /// Nothing is known yet. Takes no memory.
    pub(crate) fn new(alloc: Global) -> Self
        ensures places { result.places.items ≡ [] }
        ensures known { result.is_known ≡ false }
    {
        Awake {
            places: Vec::new(alloc),
            is_known: false,
            has_served: true,
            pause: 0,
        }
    }

    /// Whether it is time for a look at so many processes, where nothing is known of them or it doesn't hold any more. Takes no memory.
    fn is_due(&mut self, processes: usize) -> bool
        ensures places { self.new.places ≡ self.old.places }
        ensures known { self.new.is_known ≡ self.old.is_known }
    {
        if self.is_known && !self.has_served {
            self.pause = PAUSE;
        }
        if self.pause > 0 {
            self.pause -= 1;
            return false;
        }
        processes > FEW
    }
}

/// Looks whether a process can't take a turn, which the kernel keeps then.
fn look_at<S: Stock>(kernel: &mut Kernel, task: &Task<S>) -> Result<bool, NoMemory>
    ensures state { (s : KernelState) → StandsAt kernel.old s → StandsAt kernel.new s }
    ensures terminal { kernel.new.terminal ≡ kernel.old.terminal }
    ensures looked { IfOk result (λ blocked. HasLooked kernel.old.watch kernel.new.watch task.now blocked) }
{
    let pid = task.pid();
    if kernel.find_blocked(pid, Cause::Stopped)? {
        return Ok(true);
    }
    match task.cause() {
        Some(cause) => kernel.find_blocked(pid, cause),
        None => Ok(false),
    }
}

/// Looks at the process at a place, which goes behind the other places unless the process is blocked.
fn note_place<S: Stock>(
    kernel: &mut Kernel,
    task: &Task<S>,
    place: usize,
    places: &mut Vec<usize>,
) -> Result<(), NoMemory>
    ensures state { (s : KernelState) → StandsAt kernel.old s → StandsAt kernel.new s }
    ensures terminal { kernel.new.terminal ≡ kernel.old.terminal }
    ensures noted { OnOk result (IsNoted kernel.old.watch kernel.new.watch task.now place places.old.items places.new.items) }
{
    if look_at(kernel, task)? {
        return Ok(());
    }
    places.push(place)?;
    Ok(())
}

/// Looks at each process. It answers whether they were seen: they are, if each lives and has a greater number than the one before it.
fn look<S: Stock>(
    kernel: &mut Kernel,
    tasks: &[Task<S>],
    places: &mut Vec<usize>,
) -> Result<bool, NoMemory>
    ensures state { (s : KernelState) → StandsAt kernel.old s → StandsAt kernel.new s }
    ensures terminal { kernel.new.terminal ≡ kernel.old.terminal }
    ensures known { IfOk result (λ known. known ≡ true → IsWatched kernel.new.watch tasks.now places.new.items) }
{
    kernel.watch_anew();
    places.clear();
    let mut last = 0u32;
    'tasks: for place in 0..tasks.len() {
        let task = &tasks[place];
        let pid = task.pid();
        if pid <= last || !kernel.find_living(pid)? {
            return Ok(false);
        }
        note_place(kernel, task, place, places)?;
        last = pid;
    }
    Ok(true)
}

/// Looks at each process, if it is time for that, and what is known of them doesn't hold any more.
pub(crate) fn look_again<S: Stock>(
    kernel: &mut Kernel,
    tasks: &[Task<S>],
    awake: &mut Awake,
) -> Result<(), NoMemory>
    requires { awake.old.is_known ≡ true → IsWatched kernel.old.watch tasks.now awake.old.places.items }
    ensures state { (s : KernelState) → StandsAt kernel.old s → StandsAt kernel.new s }
    ensures terminal { kernel.new.terminal ≡ kernel.old.terminal }
    ensures known { awake.new.is_known ≡ true → IsWatched kernel.new.watch tasks.now awake.new.places.items }
{
    if awake.is_known && kernel.is_current() {
        awake.has_served = true;
        return Ok(());
    }
    let is_due = awake.is_due(tasks.len());
    awake.is_known = false;
    if !is_due {
        return Ok(());
    }
    let is_known = look(kernel, tasks, &mut awake.places)?;
    awake.is_known = is_known;
    awake.has_served = false;
    Ok(())
}

/// The number of the process at a place, if there is one and it can take a turn.
fn pid_at<S: Stock>(kernel: &Kernel, tasks: &[Task<S>], place: usize) -> Option<u32>
    ensures { (s : KernelState) → StandsAt kernel.now s → result ≡ pid_at s tasks.now place }
{
    let task = tasks.get(place)?;
    if !task.is_runnable(kernel) {
        return None;
    }
    Some(task.pid())
}

/// The numbers of those processes at these places that can take a turn.
fn pids_at<S: Stock>(
    alloc: Global,
    kernel: &Kernel,
    tasks: &[Task<S>],
    places: &[usize],
) -> Result<Vec<u32>, NoMemory>
    ensures { (s : KernelState) → StandsAt kernel.now s → IfOk result (λ pids.
        pids.items ≡ pids_at s tasks.now places.now) }
{
    let mut pids = Vec::new(alloc);
    let mut rest = places;
    'places: while let Some((place, others)) = rest.split_first() {
        if let Some(pid) = pid_at(kernel, tasks, *place) {
            pids.push(pid)?;
        }
        rest = others;
    }
    Ok(pids)
}

/// The numbers of the processes that can take a turn: of those that are awake, if that is known and still holds, else of all.
pub(crate) fn movable_pids<S: Stock>(
    alloc: Global,
    kernel: &Kernel,
    tasks: &[Task<S>],
    awake: &Awake,
) -> Result<Vec<u32>, NoMemory>
    requires { awake.now.is_known ≡ true → IsWatched kernel.now.watch tasks.now awake.now.places.items }
    ensures { (s : KernelState) → StandsAt kernel.now s → IfOk result (λ pids.
        pids.items ≡ runnable_pids s tasks.now) }
{
    if awake.is_known && kernel.is_current() {
        let pids = pids_at(alloc, kernel, tasks, awake.places.as_slice())?;
        return Ok(pids);
    }
    let pids = runnable_pids(alloc, kernel, tasks)?;
    Ok(pids)
}

/// Whether the process at a place has this number.
pub(crate) fn is_at<S: Stock>(tasks: &[Task<S>], place: usize, pid: u32) -> bool
    ensures { result ≡ is_at tasks.now place pid }
{
    match tasks.get(place) {
        Some(task) => task.pid() == pid,
        None => false,
    }
}

/// The place, of these, of the process of this number; none where it is at none of them.
fn place_among<S: Stock>(tasks: &[Task<S>], places: &[usize], pid: u32) -> Option<usize>
    ensures { IfSome result (λ place. IsAmong tasks.now places.now pid place) }
{
    let mut rest = places;
    'places: while let Some((place, others)) = rest.split_first() {
        if is_at(tasks, *place, pid) {
            return Some(*place);
        }
        rest = others;
    }
    None
}

/// The place of the process of this number, where it is known to be awake.
pub(crate) fn awake_place<S: Stock>(tasks: &[Task<S>], awake: &Awake, pid: u32) -> Option<usize>
    ensures known { IfSome result (λ place. awake.now.is_known ≡ true) }
    ensures among { IfSome result (λ place. IsAmong tasks.now awake.now.places.items pid place) }
{
    if !awake.is_known {
        return None;
    }
    place_among(tasks, awake.places.as_slice(), pid)
}
