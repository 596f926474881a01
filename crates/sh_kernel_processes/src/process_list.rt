//! All processes that ever were, and how many of them live.
ghost use Rattle.std.specs.Prelude.{◌≡◌, ◌<◌, ◌++◌, ◌∷◌, [], ℕ, List, IfOk, OnOk};
ghost use Rattle.sh_kernel_processes.specs.Living.{living_after};
ghost use Rattle.sh_kernel_processes.specs.Processes as processes;

use crate::process::{Process, Status};
use crate::processes::{FIRST_PID, MAX_LIVE, MAX_PID, is_live, set_status, status_at};
use std::alloc::{AllocError, Global};
use std::marker::Model;

/// The processes that ever were, by their numbers from [`FIRST_PID`] on. How many of them live is counted as they come and
/// end, so that a fork doesn't go through those that have ended.
#[derive(Drop)]
pub struct ProcessList {
    all: Vec<Process>,
    living: usize,
}

impl Model for ProcessList {
    ghost use Rattle.std.specs.Prelude.{◌≡◌, ◌-◌, vec_capacity, vec_len};
    ghost use Rattle.sh_kernel_processes.specs.Living.{ProcessesKept};
    ghost use Rattle.sh_kernel_processes.specs.Processes.{live_count};

    ghost Value = { ProcessesKept };

    ghost view = { λ l. record { all = l.all.items; room = vec_capacity l.all - vec_len l.all } };

    ghost invariant = { λ l. l.living ≡ live_count l.all.items };
}

/// How many live, where so many did before one of them got another status.
fn living_after(living: usize, before: bool, after: bool) -> usize
    ensures { result ≡ living_after living before after }
{
    if before && !after {
        return living.saturating_sub(1);
    }
    if after && !before {
        return living.saturating_add(1);
    }
    living
}

impl ProcessList {
    /// The first process alone, which runs, and whose parent is 1. The only error is want of memory.
    pub fn new(alloc: Global) -> Result<Self, AllocError>
        ensures { IfOk result (λ list. list.all ≡ processes.first_process ∷ []) }
    {
        let mut all = Vec::with_capacity(alloc, 1)?;
        all.push_reserved(Process {
            maker: 1,
            status: Status::Running,
        });
        Ok(ProcessList { all, living: 1 })
    }

    /// The same processes once more. The only error is want of memory.
    pub fn copy(&self, alloc: Global) -> Result<Self, AllocError>
        ensures { IfOk result (λ copy. copy.all ≡ self.now.all) }
    {
        let all = self.all.as_slice().to_vec(alloc)?;
        Ok(ProcessList {
            all,
            living: self.living,
        })
    }

    /// The processes, lent. Takes no memory.
    pub fn as_slice(&self) -> &[Process]
        ensures { result.now ≡ self.now.all }
    {
        self.all.as_slice()
    }

    /// Takes the memory for one more process. The only error is want of memory; nothing has changed, whatever the answer.
    pub fn reserve(&mut self) -> Result<(), AllocError>
        ensures same { self.new.all ≡ self.old.all }
        ensures room { OnOk result (0 < self.new.room) }
    {
        self.all.reserve(1)
    }

    /// Whether there may be one more process: fewer than [`MAX_LIVE`] live, and its number is at most [`MAX_PID`]. Takes
    /// no memory, and no more time where many have ended.
    pub fn may_fork(&self) -> bool
        ensures { result ≡ processes.may_fork self.now.all }
    {
        self.living < MAX_LIVE && self.all.len() <= MAX_PID - FIRST_PID as usize
    }

    /// A process starts that another one made. Its number is that of the next. Takes no memory.
    pub fn start(&mut self, maker: u32)
        requires { 0 < self.old.room }
        ensures { self.new.all ≡ self.old.all ++ record { maker = maker; status = Status.Running } ∷ [] }
    {
        let _count = self.all.len();
        self.living = self.living.saturating_add(1);
        self.all.push_reserved(Process {
            maker,
            status: Status::Running,
        });
    }

    /// Gives a process a status; where no process has this number nothing changes. Takes no memory.
    pub fn set_status(&mut self, pid: u32, status: Status)
        ensures { self.new.all ≡ processes.with_status self.old.all pid status }
    {
        let _count = self.all.len();
        let Some(before) = status_at(self.all.as_slice(), pid) else {
            return;
        };
        self.living = living_after(self.living, is_live(before), is_live(status));
        set_status(&mut self.all, pid, status);
    }
}
