//! A world: processes over a kernel, moved by events.
ghost use Rattle.std.specs.Prelude.{◌≡◌, ℕ, ◌<◌, List, false, true, OnOk, OnErr, IsErr, IfOk, Option, Some, None, length, take, option_copied, option_map};
ghost use Rattle.sh_kernel.specs.State.{KernelState, StandsAt, starting};
ghost use Rattle.sh_tty.specs.Terminal.{Extends};
ghost use Rattle.std.specs.Option.{option_and_then, option_map_or, unwrap_or};
ghost use Rattle.sh_exec.specs.Choice.{choice};
ghost use Rattle.sh_exec.specs.TurnActions.{drops, takes_trap};
ghost use Rattle.sh_world.specs.Watching.{IsWatched};
ghost use Rattle.sh_world.specs.World.{IsSpent, PartsStand, WorldKept, WorldStands, shown_of};
ghost use Rattle.sh_exec.specs.Tasks.{first_jobs, with_signals_of};
ghost use Rattle.sh_jobs.specs.Moments.{brought_up};
ghost use Rattle.sh_exec.specs.State.{State, after_turn, chosen_turn, end_of, ended_of, files_of, job_lines_of, jobs_of, lines_of, run, runnables, start, start_of, status_of, step, task_of, terminal_of, turn_of, typed};

mod copying;

use crate::awake::{Awake, look_again, movable_pids};
use crate::choice::choose;
use crate::tasks::{is_living, keep_living, runnable_pids, task_among};
use crate::turns::turn;
use sh_base::NoMemory;
use sh_base::sequence::Text;
use sh_builtin_jobs::job_lines;
use sh_exec::{Event, Settings, Task};
use sh_files::Files;
use sh_jobs::{JobForm, Jobs};
use sh_kernel::Kernel;
use sh_kernel_processes::{FIRST_PID, Status};
use sh_stock::Stock;
use std::alloc::Global;
use std::marker::Model;

/// A first shell with its terminal and its files, and the processes that it makes, with the programs of a stock. It stands at a
/// state of the shell machine, and each event takes it to the next one. Once memory was wanting it is spent: it answers `NoMemory`
/// from then on, and shows the terminal's bytes as they were after the last event that was answered `Ok`.
pub struct World<S: Stock> {
    alloc: Global,
    kernel: Kernel,
    tasks: Vec<Task<S>>,
    /// No job; it is lent where there is no first shell.
    no_jobs: Jobs,
    last: Option<u32>,
    shown: usize,
    /// Which processes may take a turn.
    awake: Awake,
    lack: Option<NoMemory>,
}

// It is dropped here, so that no crate above has to prove that of its parts.
impl<S: Stock> Drop for World<S> {
    fn drop(self) {
        let World {
            alloc: _,
            kernel,
            tasks,
            no_jobs,
            last: _,
            shown: _,
            awake,
            lack: _,
        } = self;
        drop(kernel);
        drop(tasks);
        drop(no_jobs);
        drop(awake);
    }
}

impl<S: Stock> Model for World<S> {
    ghost use Rattle.std.specs.Prelude.{◌≡◌, ◌≤◌, is_some, length, true};
    ghost use Rattle.sh_world.specs.Watching.{IsWatched};
    ghost use Rattle.std.specs.Coded.{codes};
    ghost use Rattle.sh_files_image.specs.Codes as paths;
    ghost use Rattle.sh_vars.specs.Codes as variables;
    ghost use Rattle.sh_exec.specs.Codes.{run_code};
    ghost use Rattle.sh_aliases.specs.contracts.alias.Alias as alias_row;
    ghost use Rattle.sh_syntax.specs.contracts.tree.Command as command_row;
    ghost use Rattle.sh_world.specs.World.{WorldKept};

    ghost Value = { WorldKept S };

    ghost coded = { Prim.hlevel (codes, paths.map_code, variables.map_code, alias_row.the_row.coded, command_row.the_row.coded, run_code) };

    ghost view = { λ w. record { kernel = w.kernel; tasks = w.tasks.items; no_jobs = w.no_jobs; last = w.last; shown = w.shown; spent = is_some w.lack } };

    ghost invariant = { λ w. (w.shown ≤ length w.kernel.terminal.bytes)
        × (w.awake.is_known ≡ true → IsWatched w.kernel.watch w.tasks.items w.awake.places.items) };
}

/// The processes that can take a turn: none once the first shell has ended.
fn runnable_of<S: Stock>(
    alloc: Global,
    kernel: &Kernel,
    tasks: &[Task<S>],
) -> Result<Vec<u32>, NoMemory>
    ensures { (s : State S) → StandsAt kernel.now s.machine → tasks.now ≡ s.tasks → IfOk result (λ pids.
        pids.items ≡ runnables s) }
{
    if !is_living(kernel, FIRST_PID) {
        return Ok(Vec::new(alloc));
    }
    runnable_pids(alloc, kernel, tasks)
}

/// The process that an event gives a turn to.
fn chosen_by<S: Stock>(
    alloc: Global,
    event: Event,
    kernel: &Kernel,
    tasks: &[Task<S>],
    last: Option<u32>,
) -> Result<Option<u32>, NoMemory>
    ensures { (s : State S) → PartsStand kernel.now tasks.now last s → IfOk result (λ pid.
        pid ≡ choice event s.last (runnables s)) }
{
    let pids = runnable_of(alloc, kernel, tasks)?;
    Ok(choose(event, last, pids.as_slice()))
}

/// A turn of the process that an event chooses.
fn chosen_turn<S: Stock>(
    alloc: Global,
    event: Event,
    kernel: &mut Kernel,
    tasks: &mut Vec<Task<S>>,
    last: &mut Option<u32>,
    awake: &mut Awake,
) -> Result<(), NoMemory>
    requires { awake.old.is_known ≡ true → IsWatched kernel.old.watch tasks.old.items awake.old.places.items }
    ensures step { (s : State S) → PartsStand kernel.old tasks.old.items last.old s
        → OnOk result (PartsStand kernel.new tasks.new.items last.new (chosen_turn S.meaning s event)) }
    ensures known { awake.new.is_known ≡ true → IsWatched kernel.new.watch tasks.new.items awake.new.places.items }
    ensures extends { Extends kernel.old.terminal.bytes kernel.new.terminal.bytes }
{
    let is_over = !is_living(kernel, FIRST_PID);
    if is_over {
        return Ok(());
    }
    look_again(kernel, tasks.as_slice(), awake)?;
    let pids = movable_pids(alloc, kernel, tasks.as_slice(), awake)?;
    let Some(pid) = choose(event, *last, pids.as_slice()) else {
        return Ok(());
    };
    turn(alloc, kernel, tasks, awake, pid)?;
    *last = Some(pid);
    Ok(())
}

/// A key comes to the terminal.
fn press<S: Stock>(kernel: &mut Kernel, tasks: &mut Vec<Task<S>>, byte: u8) -> Result<(), NoMemory>
    ensures step { (last : Option ℕ) (s : State S) → PartsStand kernel.old tasks.old.items last s
        → OnOk result (PartsStand kernel.new tasks.new.items last (typed s byte)) }
    ensures extends { Extends kernel.old.terminal.bytes kernel.new.terminal.bytes }
{
    if is_living(kernel, FIRST_PID) {
        kernel.key(byte)?;
        keep_living(kernel, tasks);
    }
    Ok(())
}

/// What one event does.
fn happen<S: Stock>(
    alloc: Global,
    event: Event,
    kernel: &mut Kernel,
    tasks: &mut Vec<Task<S>>,
    last: &mut Option<u32>,
    awake: &mut Awake,
) -> Result<(), NoMemory>
    requires { awake.old.is_known ≡ true → IsWatched kernel.old.watch tasks.old.items awake.old.places.items }
    ensures step { (s : State S) → PartsStand kernel.old tasks.old.items last.old s
        → OnOk result (PartsStand kernel.new tasks.new.items last.new (step S.meaning s event)) }
    ensures known { awake.new.is_known ≡ true → IsWatched kernel.new.watch tasks.new.items awake.new.places.items }
    ensures extends { Extends kernel.old.terminal.bytes kernel.new.terminal.bytes }
{
    match event {
        Event::Run(place) => chosen_turn(alloc, Event::Run(place), kernel, tasks, last, awake),
        Event::Next => chosen_turn(alloc, Event::Next, kernel, tasks, last, awake),
        Event::Key(byte) => {
            awake.is_known = false;
            press(kernel, tasks, byte)
        },
    }
}

/// The jobs of the first shell, if this runs it; else these.
fn jobs_in<'a, S: Stock>(task: Option<&'a Task<S>>, others: &'a Jobs) -> &'a Jobs
    ensures { result.now ≡ unwrap_or (option_and_then first_jobs (option_map (λ task. task.now) task.entry)) others.now }
{
    match task {
        Some(task) => match task.jobs() {
            Some(jobs) => jobs,
            None => others,
        },
        None => others,
    }
}

/// The lines of jobs, as `jobs -l` writes them.
fn lines_of(alloc: Global, kernel: &Kernel, jobs: &Jobs) -> Result<Text, NoMemory>
    ensures { (s : KernelState) → StandsAt kernel.now s → IfOk result (λ lines. lines ≡ lines_of s jobs.now) }
{
    let numbers = jobs.numbers(alloc)?;
    let lines = job_lines(alloc, kernel, jobs, JobForm::Long, numbers.as_slice())?;
    Ok(lines)
}

/// The lines of jobs that may have changed.
fn lines_now(alloc: Global, kernel: &Kernel, jobs: &Jobs) -> Result<Text, NoMemory>
    ensures { (s : KernelState) → StandsAt kernel.now s
        → IfOk result (λ lines. lines ≡ lines_of s (brought_up s.changes jobs.now)) }
{
    let mut jobs = jobs.copy(alloc)?;
    jobs.bring_up_to_date(kernel);
    let lines = lines_of(alloc, kernel, &jobs)?;
    Ok(lines)
}

/// The kernel before the first event, in which the first process has set its signals.
fn kernel_at_start<S: Stock>(
    alloc: Global,
    image: Files,
    task: &Task<S>,
) -> Result<Kernel, NoMemory>
    ensures { IfOk result (λ kernel. StandsAt kernel (with_signals_of (starting image) task.now)) }
{
    let mut kernel = Kernel::new(alloc, image)?;
    task.set_signals(&mut kernel);
    Ok(kernel)
}

impl<S: Stock> World<S> {
    /// The world of a kernel and its first process.
    fn at_start(alloc: Global, kernel: Kernel, task: Task<S>) -> Result<Self, NoMemory>
        ensures { (s : KernelState) → StandsAt kernel (with_signals_of s task)
            → IfOk result (λ world. WorldStands world (start_of s task)) }
    {
        let mut tasks = Vec::new(alloc);
        match tasks.push(task) {
            Ok(()) => {},
            Err(error) => {
                drop(kernel);
                return Err(NoMemory::from(error));
            },
        }
        let shown = kernel.terminal().len();
        Ok(World {
            alloc,
            kernel,
            tasks,
            no_jobs: Jobs::new(alloc),
            last: None,
            shown,
            awake: Awake::new(alloc),
            lack: None,
        })
    }

    /// The world before the first event. The only error is want of memory.
    pub fn new(alloc: Global, image: Files, settings: Settings) -> Result<Self, NoMemory>
        ensures { IfOk result (λ world. WorldStands world (start image settings)) }
    {
        let task = Task::new(alloc, &image, settings)?;
        match kernel_at_start(alloc, image, &task) {
            Ok(kernel) => World::at_start(alloc, kernel, task),
            Err(lack) => {
                drop(task);
                Err(lack)
            },
        }
    }

    /// Whether memory was wanting.
    fn is_spent(&self) -> bool
        ensures { result ≡ self.now.spent }
    {
        self.lack.is_some()
    }

    /// One event: what it does is one step of the shell machine. After `NoMemory` the world is spent.
    pub fn apply(&mut self, event: Event) -> Result<(), NoMemory>
        ensures step { (s : State S) → WorldStands self.old s
            → OnOk result (WorldStands self.new (step S.meaning s event)) }
        ensures spent { OnErr result (IsSpent self.new) }
        ensures shown { OnErr result (shown_of self.new ≡ shown_of self.old) }
        ensures still { IsSpent self.old → IsErr result }
    {
        if let Some(lack) = self.lack {
            return Err(lack);
        }
        let happened = happen(
            self.alloc,
            event,
            &mut self.kernel,
            &mut self.tasks,
            &mut self.last,
            &mut self.awake,
        );
        match happened {
            Ok(()) => self.shown = self.kernel.terminal().len(),
            Err(lack) => self.lack = Some(lack),
        }
        happened
    }

    /// Each event in turn, up to the first for which there is no memory; after `NoMemory` the world is spent.
    /// A world that is spent answers an `Err`, and shows what it showed.
    pub fn run(&mut self, events: &[Event]) -> Result<(), NoMemory>
        ensures run { (s : State S) → WorldStands self.old s
            → OnOk result (WorldStands self.new (run S.meaning s events.now)) }
        ensures spent { OnErr result (IsSpent self.new) }
        ensures shown { (s : State S) → WorldStands self.old s → OnErr result
            ((j : ℕ) × (j < length events.now) × (shown_of self.new ≡ terminal_of (run S.meaning s (take j events.now)))) }
        ensures still { IsSpent self.old → IsErr result }
        ensures kept { IsSpent self.old → shown_of self.new ≡ shown_of self.old }
    {
        if let Some(earlier) = self.lack {
            return Err(earlier);
        }
        for event in events {
            self.apply(*event)?;
        }
        Ok(())
    }

    /// The terminal's bytes, as they were after the last event that was answered `Ok`.
    pub fn terminal(&self) -> &[u8]
        ensures shown { result.now ≡ shown_of self.now }
        ensures view { (s : State S) → WorldStands self.now s → result.now ≡ terminal_of s }
    {
        &self.kernel.terminal()[..self.shown]
    }

    /// The files; `None` once memory was wanting.
    pub fn files(&self) -> Option<&Files>
        ensures view { (s : State S) → WorldStands self.now s → option_copied result
            ≡ Some (files_of s) }
        ensures spent { IsSpent self.now → option_copied result ≡ None }
    {
        if self.is_spent() {
            None
        } else {
            Some(self.kernel.files())
        }
    }

    /// The first shell's jobs; none where its process has ended, or runs another program. When each last changed is as it was when the shell
    /// last looked. `None` once memory was wanting. Takes no memory.
    pub fn jobs(&self) -> Option<&Jobs>
        ensures view { (s : State S) → WorldStands self.now s → option_copied result ≡ Some (jobs_of s) }
        ensures spent { IsSpent self.now → option_copied result ≡ None }
    {
        if self.is_spent() {
            None
        } else {
            let first = task_among(self.tasks.as_slice(), FIRST_PID);
            Some(jobs_in(first, &self.no_jobs))
        }
    }

    /// The lines of the first shell's jobs, as `jobs -l` writes them (XCU jobs), the least number first. The only error is want of memory, at
    /// once where memory was wanting before.
    pub fn job_lines(&self) -> Result<Text, NoMemory>
        ensures view { (s : State S) → WorldStands self.now s → IfOk result (λ lines. lines ≡ job_lines_of s) }
        ensures spent { IsSpent self.now → IsErr result }
    {
        if let Some(lack) = self.lack {
            return Err(lack);
        }
        let first = task_among(self.tasks.as_slice(), FIRST_PID);
        let lines = lines_now(self.alloc, &self.kernel, jobs_in(first, &self.no_jobs))?;
        Ok(lines)
    }

    /// Whether a process runs, is stopped or has ended: `Some` for every process that ever was; `None` once
    /// memory was wanting.
    pub fn status(&self, pid: u32) -> Option<Status>
        ensures view { (s : State S) → WorldStands self.now s → result ≡ status_of s pid }
        ensures spent { IsSpent self.now → result ≡ None }
    {
        if self.is_spent() {
            None
        } else {
            self.kernel.status(pid)
        }
    }

    /// The process that took the last turn; `None` before the first turn, and once memory was wanting.
    pub fn last(&self) -> Option<u32>
        ensures view { (s : State S) → WorldStands self.now s → result ≡ s.last }
        ensures spent { IsSpent self.now → result ≡ None }
    {
        if self.is_spent() { None } else { self.last }
    }

    /// The processes that can take a turn, in the order of their numbers: `Event::Run(k)` moves the one at place k, modulo how many there
    /// are. There is none once the first shell has ended. The only error is want of memory, which may have been wanting before.
    pub fn runnable(&self) -> Result<Vec<u32>, NoMemory>
        ensures view { (s : State S) → WorldStands self.now s → IfOk result (λ pids.
            pids.items ≡ runnables s) }
        ensures spent { IsSpent self.now → IsErr result }
    {
        if let Some(lack) = self.lack {
            return Err(lack);
        }
        runnable_of(self.alloc, &self.kernel, self.tasks.as_slice())
    }

    /// The process to which an event gives the next turn; `None` where none can take one, and for a key. The only error is want of memory, which may have been
    /// wanting before.
    pub fn chosen(&self, event: Event) -> Result<Option<u32>, NoMemory>
        ensures view { (s : State S) → WorldStands self.now s → IfOk result (λ pid.
            pid ≡ choice event s.last (runnables s)) }
        ensures spent { IsSpent self.now → IsErr result }
    {
        if let Some(lack) = self.lack {
            return Err(lack);
        }
        let (tasks, last) = (self.tasks.as_slice(), self.last);
        chosen_by(self.alloc, event, &self.kernel, tasks, last)
    }

    /// The processes that live, in the order of their numbers; `None` once memory was wanting. Takes no memory.
    pub fn tasks(&self) -> Option<&[Task<S>]>
        ensures view { (s : State S) → WorldStands self.now s
            → option_map (λ tasks. tasks.now) result ≡ Some s.tasks }
        ensures spent { IsSpent self.now → option_map (λ tasks. tasks.now) result ≡ None }
    {
        if self.is_spent() {
            None
        } else {
            Some(self.tasks.as_slice())
        }
    }

    /// The process of this number, as long as it lives: `Task::action` tells what it does in its next turn. `None` once memory was
    /// wanting. Takes no memory.
    pub fn task(&self, pid: u32) -> Option<&Task<S>>
        ensures view { (s : State S) → WorldStands self.now s
            → option_map (λ task. task.now) result ≡ task_of s pid }
        ensures spent { IsSpent self.now → option_map (λ task. task.now) result ≡ None }
    {
        if self.is_spent() {
            None
        } else {
            task_among(self.tasks.as_slice(), pid)
        }
    }

    /// Whether the process of this number takes a trap on a signal in its next turn, before what `Task::action` tells (XCU 2.12). `false` where no
    /// such process lives, and once memory was wanting. Takes no memory.
    pub fn takes_trap(&self, pid: u32) -> bool
        ensures view { (s : State S) → WorldStands self.now s
            → result ≡ option_map_or (takes_trap s.machine) (task_of s pid) false }
        ensures spent { IsSpent self.now → result ≡ false }
    {
        match self.task(pid) {
            Some(task) => task.takes_trap(&self.kernel),
            None => false,
        }
    }

    /// Whether INT has the shell of this number drop what it does as its next turn begins (XCU sh, "ASYNCHRONOUS EVENTS"); false where no such process
    /// lives. Takes no memory.
    pub fn drops(&self, pid: u32) -> bool
        ensures view { (s : State S) → WorldStands self.now s
            → result ≡ option_map_or (drops s.machine) (task_of s pid) false }
        ensures spent { IsSpent self.now → result ≡ false }
    {
        match self.task(pid) {
            Some(task) => task.drops(&self.kernel),
            None => false,
        }
    }

    /// How the first shell ended, once it did; `None` once memory was wanting.
    pub fn ended(&self) -> Option<Status>
        ensures view { (s : State S) → WorldStands self.now s → result ≡ ended_of s }
        ensures spent { IsSpent self.now → result ≡ None }
    {
        if self.is_spent() {
            None
        } else {
            end_of(self.kernel.status(FIRST_PID))
        }
    }
}

/// How a process ended, if it did.
fn end_of(status: Option<Status>) -> Option<Status>
    ensures { result ≡ end_of status }
{
    match status {
        None => None,
        Some(Status::Running) => None,
        Some(Status::Stopped(_)) => None,
        Some(Status::Exited(status)) => Some(Status::Exited(status)),
        Some(Status::Signaled(signal)) => Some(Status::Signaled(signal)),
    }
}
