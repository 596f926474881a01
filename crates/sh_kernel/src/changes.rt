//! When processes last started, stopped or went on.
ghost use Rattle.std.specs.Prelude.{◌≡◌, ◌-◌, ◌<◌, ℕ, List, IfOk, OnOk, filter, if◌then◌else◌, map, slice_set};
ghost use Rattle.sh_kernel_processes.specs.Processes.{status_at};
ghost use Rattle.sh_kernel_processes.specs.declared.process.Process.{Process};
ghost use Rattle.sh_kernel_processes.specs.Groups.{is_stopped};
ghost use Rattle.sh_kernel_processes.specs.Sending.{pids_of};
ghost use Rattle.sh_kernel.specs.Changes.{goes_on, has_gone_on, is_change, is_stopped_at, moment_of, next_moment, numbered_status, with_changes_in};

use sh_base::NoMemory;
use sh_kernel_machine::Machine;
use sh_kernel_processes::{FIRST_PID, Member, Status, is_running};
use sh_signal::Signal;
use std::alloc::{AllocError, Global};
use std::marker::Model;

/// The number of a process, with its status.
pub(crate) type NumberedStatus = (u32, Option<Status>);

/// When each process last started, stopped or went on, by a clock that each fork, each signal that is sent and each end of a process moves by
/// one.
#[derive(Drop)]
pub(crate) struct Changes {
    clock: u64,
    /// The moment of each process that ever was, by its number from [`FIRST_PID`] on.
    moments: Vec<u64>,
}

impl Model for Changes {
    ghost use Rattle.std.specs.Prelude.{◌-◌, vec_capacity, vec_len};
    ghost use Rattle.sh_kernel.specs.Changes.{ChangesKept};

    ghost Value = { ChangesKept };

    ghost view = { λ c. record {
      changes = record { clock = c.clock; moments = c.moments.items };
      room = vec_capacity c.moments - vec_len c.moments;
    } };
}

/// The moment after a moment.
fn next_moment(clock: u64) -> u64
    ensures { result ≡ next_moment clock }
{
    clock.saturating_add(1)
}

/// The moment of a process.
fn moment_of(moments: &[u64], pid: u32) -> u64
    ensures { result ≡ moment_of moments.now pid }
{
    if pid < FIRST_PID {
        return 0;
    }
    moments
        .get((pid - FIRST_PID) as usize)
        .copied()
        .unwrap_or(0)
}

/// Whether a process that was stopped has gone on where this is its status now.
fn goes_on(status: Status) -> bool
    ensures { result ≡ goes_on status }
{
    match status {
        Status::Running => true,
        Status::Stopped(_) => false,
        Status::Exited(_) => false,
        Status::Signaled(signal) => signal != Signal::Kill.number(),
    }
}

/// The same of a process that may never have been.
fn has_gone_on(status: Option<Status>) -> bool
    ensures { result ≡ has_gone_on status }
{
    status.is_some_and(goes_on)
}

/// Whether a process is stopped.
fn is_stopped(status: Option<Status>) -> bool
    ensures { result ≡ is_stopped status }
{
    matches!(status, Some(Status::Stopped(_)))
}

/// Whether a process has stopped or gone on since it had this status.
fn is_change(before: Option<Status>, after: Option<Status>) -> bool
    ensures { result ≡ is_change before after }
{
    is_running(before) && is_stopped(after) || is_stopped(before) && has_gone_on(after)
}

/// Notes at a moment whether a process has stopped or gone on since it had this status.
fn note_one(moments: &mut Vec<u64>, moment: u64, machine: &Machine, before: NumberedStatus)
    ensures { moments.new.items ≡ (if is_change before.1 (status_at machine.now.processes before.0)
        then slice_set moments.old.items (before.0 - 100) moment else moments.old.items) }
{
    let (pid, status) = before;
    if !is_change(status, machine.status(pid)) {
        return;
    }
    let place = pid.saturating_sub(FIRST_PID) as usize;
    if place < moments.len() {
        moments[place] = moment;
    }
}

/// Notes at a moment which of these processes have stopped or gone on since they had these statuses.
fn note_each(moments: &mut Vec<u64>, moment: u64, machine: &Machine, before: &[NumberedStatus])
    ensures { (ps : List Process) (pids : List ℕ) → before.now ≡ map (numbered_status ps) pids
        → moments.new.items ≡ with_changes_in ps machine.now.processes moment pids moments.old.items }
{
    let mut rest = before;
    'pids: while let Some((first, others)) = rest.split_first() {
        note_one(moments, moment, machine, *first);
        rest = others;
    }
}

/// These processes with their statuses. The only error is want of memory.
pub(crate) fn statuses_of(
    alloc: Global,
    machine: &Machine,
    pids: &[u32],
) -> Result<Vec<NumberedStatus>, NoMemory>
    ensures { IfOk result (λ statuses. statuses.items ≡ map (numbered_status machine.now.processes) pids.now) }
{
    Ok(
        pids.iter()
            .map(|pid| (*pid, machine.status(*pid)))
            .collect(alloc)?,
    )
}

/// The members that are stopped, with their statuses. The only error is want of memory.
pub(crate) fn stopped_of(
    alloc: Global,
    machine: &Machine,
    members: &[Member],
) -> Result<Vec<NumberedStatus>, NoMemory>
    ensures { IfOk result (λ stopped. stopped.items
        ≡ map (numbered_status machine.now.processes) (filter (is_stopped_at machine.now.processes) (pids_of members.now))) }
{
    Ok(
        members
            .iter()
            .map(|member| member.pid)
            .filter(|pid| is_stopped(machine.status(*pid)))
            .map(|pid| (pid, machine.status(pid)))
            .collect(alloc)?,
    )
}

impl Changes {
    ghost use Rattle.sh_kernel.specs.Changes.{changed, changed_at, no_changes, with_start};

    /// The first process alone. The only error is want of memory.
    pub(crate) fn new(alloc: Global) -> Result<Self, AllocError>
        ensures { IfOk result (λ kept. kept.changes ≡ no_changes) }
    {
        let mut moments = Vec::with_capacity(alloc, 1)?;
        moments.push_reserved(0);
        Ok(Changes { clock: 0, moments })
    }

    /// The same moments once more. The only error is want of memory.
    pub(crate) fn copy(&self, alloc: Global) -> Result<Self, AllocError>
        ensures { IfOk result (λ copy. copy.changes ≡ self.now.changes) }
    {
        let moments = self.moments.as_slice().to_vec(alloc)?;
        Ok(Changes {
            clock: self.clock,
            moments,
        })
    }

    /// The moment at which a process last started, stopped or went on; 0 for one that never was. Takes no memory.
    pub(crate) fn at(&self, pid: u32) -> u64
        ensures { result ≡ changed_at self.now.changes pid }
    {
        moment_of(self.moments.as_slice(), pid)
    }

    /// Takes the memory for one more process. The only error is want of memory; nothing has changed, whatever the answer.
    pub(crate) fn reserve(&mut self) -> Result<(), AllocError>
        ensures same { self.new.changes ≡ self.old.changes }
        ensures room { OnOk result (0 < self.new.room) }
    {
        self.moments.reserve(1)
    }

    /// A process starts, whose number is above those of all others. Takes no memory.
    #[tactic(auto, unfolding(crate::specs::Changes::with_start))]
    pub(crate) fn start(&mut self)
        requires { 0 < self.old.room }
        ensures { self.new.changes ≡ with_start self.old.changes }
    {
        self.clock = next_moment(self.clock);
        self.moments.push_reserved(self.clock);
    }

    /// A signal was sent, or a process ended: of these processes some have stopped or gone on since they had these statuses. Takes no
    /// memory.
    #[tactic(auto, unfolding(crate::specs::Changes::changed))]
    pub(crate) fn note(&mut self, machine: &Machine, before: &[NumberedStatus])
        ensures { (ps : List Process) (pids : List ℕ) → before.now ≡ map (numbered_status ps) pids
            → self.new.changes ≡ changed self.old.changes ps machine.now.processes pids }
    {
        self.clock = next_moment(self.clock);
        note_each(&mut self.moments, self.clock, machine, before);
    }
}
