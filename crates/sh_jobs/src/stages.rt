//! The state of a job, by its processes.
ghost use Rattle.std.specs.Prelude.{◌≡◌, option_map};
ghost use Rattle.std.specs.Option.{option_or};
ghost use Rattle.sh_kernel.specs.State.{KernelState, StandsAt};
ghost use Rattle.sh_jobs.specs.States.{any_runs, ending_by, ending_of, last_ending, last_stop, state_of, status_of, stop_of};

use crate::state::{Ending, JobState};
use sh_kernel::{Kernel, Status};
use sh_kernel_processes::is_running;

/// The status of a process. A number that no process ever had counts as an exit with 0.
fn status_of(kernel: &Kernel, pid: u32) -> Status
    ensures { (s : KernelState) → StandsAt kernel.now s → result ≡ status_of s.machine.processes pid }
{
    match kernel.status(pid) {
        Some(status) => status,
        None => Status::Exited(0),
    }
}

/// Whether one of these processes runs.
fn any_runs(kernel: &Kernel, pids: &[u32]) -> bool
    ensures { (s : KernelState) → StandsAt kernel.now s → result ≡ any_runs s.machine.processes pids.now }
{
    let mut rest = pids;
    'processes: while let Some((pid, others)) = rest.split_first() {
        if is_running(kernel.status(*pid)) {
            return true;
        }
        rest = others;
    }
    false
}

/// The signal that stopped a process of this status, or else the earlier one.
fn later_stop(status: Status, earlier: Option<u8>) -> Option<u8>
    ensures { result ≡ option_or (stop_of status) earlier }
{
    match status {
        Status::Running => earlier,
        Status::Stopped(signal) => Some(signal),
        Status::Exited(_) => earlier,
        Status::Signaled(_) => earlier,
    }
}

/// The signal that stopped the last of these processes that is stopped.
fn last_stop(kernel: &Kernel, pids: &[u32]) -> Option<u8>
    ensures { (s : KernelState) → StandsAt kernel.now s → result ≡ last_stop s.machine.processes pids.now }
{
    let mut stop = None;
    let mut rest = pids;
    'processes: while let Some((pid, others)) = rest.split_first() {
        stop = later_stop(status_of(kernel, *pid), stop);
        rest = others;
    }
    stop
}

/// How a process of this status ended.
fn ending_of(status: Status) -> Ending
    ensures { result ≡ ending_of status }
{
    match status {
        Status::Running => Ending::Exited(0),
        Status::Stopped(_) => Ending::Exited(0),
        Status::Exited(status) => Ending::Exited(status),
        Status::Signaled(signal) => Ending::Signaled(signal),
    }
}

/// How the last of these processes ended.
fn last_ending(kernel: &Kernel, pids: &[u32]) -> Ending
    ensures { (s : KernelState) → StandsAt kernel.now s → result ≡ last_ending s.machine.processes pids.now }
{
    match pids.get(pids.len().saturating_sub(1)) {
        Some(pid) => ending_of(status_of(kernel, *pid)),
        None => Ending::Exited(0),
    }
}

/// The state of a job of these processes (XBD chapter 3, Job, XCU jobs). A process that never was counts as one that exited with 0. Takes no
/// memory.
#[tactic(auto, unfolding(crate::specs::States::state_of))]
pub fn state_of(kernel: &Kernel, pids: &[u32]) -> JobState
    ensures { (s : KernelState) → StandsAt kernel.now s → result ≡ state_of s.machine.processes pids.now }
{
    if any_runs(kernel, pids) {
        return JobState::Running;
    }
    match last_stop(kernel, pids) {
        Some(signal) => JobState::Suspended(signal),
        None => JobState::Done(last_ending(kernel, pids)),
    }
}
