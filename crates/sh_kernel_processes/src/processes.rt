//! Processes by their numbers.
ghost use Rattle.std.specs.Prelude.{◌≡◌};
ghost use Rattle.sh_kernel_processes.specs.Processes as processes;

use crate::process::{Process, Status};

/// The number of the first process.
pub const FIRST_PID: u32 = 100;

/// How many processes may live at a time (`CHILD_MAX` of XBD `<limits.h>`).
pub const MAX_LIVE: usize = 1000;

/// The greatest number of a process.
pub const MAX_PID: usize = 2147483647;

/// The process of this number.
fn process_at(all: &[Process], pid: u32) -> Option<Process>
    ensures { result ≡ processes.process_at all.now pid }
{
    if pid < FIRST_PID {
        return None;
    }
    all.get((pid - FIRST_PID) as usize).copied()
}

/// The status of a process; `None` where no process ever had this number.
pub fn status_at(all: &[Process], pid: u32) -> Option<Status>
    ensures { result ≡ processes.status_at all.now pid }
{
    Some(process_at(all, pid)?.status)
}

pub(crate) fn is_live(status: Status) -> bool
    ensures { result ≡ processes.is_live status }
{
    match status {
        Status::Running => true,
        Status::Stopped(_) => true,
        Status::Exited(_) => false,
        Status::Signaled(_) => false,
    }
}

fn is_living(process: &Process) -> bool
    ensures { result ≡ processes.is_living process.now }
{
    is_live(process.status)
}

/// Whether a process lives.
pub fn lives(all: &[Process], pid: u32) -> bool
    ensures { result ≡ processes.lives all.now pid }
{
    process_at(all, pid).is_some_and(|process| is_living(&process))
}

/// The number of the parent of a process; 1 where the process that made it has ended.
pub fn parent_at(all: &[Process], pid: u32) -> Option<u32>
    ensures { result ≡ processes.parent_at all.now pid }
{
    let maker = process_at(all, pid)?.maker;
    if lives(all, maker) {
        return Some(maker);
    }
    Some(1)
}

/// Gives a process a status.
pub(crate) fn set_status(all: &mut Vec<Process>, pid: u32, status: Status)
    ensures { all.new.items ≡ processes.with_status all.old.items pid status }
{
    if pid < FIRST_PID {
        return;
    }
    let place = (pid - FIRST_PID) as usize;
    if place < all.len() {
        let old = all[place];
        all[place] = Process { status, ..old };
    }
}

/// Whether a process is neither stopped nor ended.
pub fn is_running(status: Option<Status>) -> bool
    ensures { result ≡ processes.is_running status }
{
    matches!(status, Some(Status::Running))
}

fn is_child(all: &[Process], pid: u32, child: u32) -> bool
    ensures { result ≡ processes.is_child all.now pid child }
{
    process_at(all, child).is_some_and(|process| process.maker == pid)
}

/// Whether there was a process of this number, and it has ended.
pub fn has_ended(all: &[Process], pid: u32) -> bool
    ensures { result ≡ processes.has_ended all.now pid }
{
    process_at(all, pid).is_some_and(|process| !is_living(&process))
}

/// Whether each of these is a child of the process.
pub fn all_children(all: &[Process], pid: u32, awaited: &[u32]) -> bool
    ensures { result ≡ processes.all_children all.now pid awaited.now }
{
    awaited.iter().all(|child| is_child(all, pid, *child))
}

/// Whether each of these has ended.
pub fn all_ended(all: &[Process], awaited: &[u32]) -> bool
    ensures { result ≡ processes.all_ended all.now awaited.now }
{
    awaited.iter().all(|child| has_ended(all, *child))
}
