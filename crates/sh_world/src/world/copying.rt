//! Copies of worlds.
ghost use Rattle.std.specs.Prelude.{◌≡◌, IfOk, IsErr};
ghost use Rattle.sh_exec.specs.State.{State};
ghost use Rattle.sh_world.specs.World.{IsSpent, WorldStands};

use super::World;
use crate::awake::Awake;
use sh_base::NoMemory;
use sh_exec::Task;
use sh_jobs::Jobs;
use sh_stock::CopyStock;
use std::alloc::Global;

/// Copies of processes, in their order.
fn copies_of<S: CopyStock>(alloc: Global, tasks: &[Task<S>]) -> Result<Vec<Task<S>>, NoMemory>
    ensures { IfOk result (λ copies. copies.items ≡ tasks.now) }
{
    let mut copies = Vec::with_capacity(alloc, tasks.len())?;
    for task in tasks {
        copies.push(task.copy(alloc)?)?;
    }
    Ok(copies)
}

impl<S: CopyStock> World<S> {
    /// A copy, which stands at the same state: from there on each event does to it what it does to this one, and what is done to one of them
    /// doesn't change the other. So one can try several ways to go on. The only error is want of memory, which may have been wanting before;
    /// this world is as it was, whatever the answer.
    pub fn copy(&self) -> Result<World<S>, NoMemory>
        ensures stands { (s : State S) → WorldStands self.now s
            → IfOk result (λ copy. WorldStands copy s) }
        ensures spent { IsSpent self.now → IsErr result }
    {
        if let Some(lack) = self.lack {
            return Err(lack);
        }
        let tasks = copies_of(self.alloc, self.tasks.as_slice())?;
        match self.kernel.copy() {
            Ok(kernel) => Ok(World {
                alloc: self.alloc,
                kernel,
                tasks,
                no_jobs: Jobs::new(self.alloc),
                last: self.last,
                shown: self.shown,
                awake: Awake::new(self.alloc),
                lack: None,
            }),
            Err(lack) => {
                drop(tasks);
                Err(lack)
            },
        }
    }
}
