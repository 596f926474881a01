//! A copy of a whole kernel.
ghost use Rattle.std.specs.Prelude.{◌≡◌, IfOk};

use super::Kernel;
use crate::watch::Watch;
use sh_base::NoMemory;

impl Kernel {
    ghost use Rattle.sh_kernel.specs.State.{KernelState, StandsAt};

    /// A kernel that stands at the same state and whose terminal shows the same bytes. The two share nothing, so no call
    /// on one changes the other. The only error is want of memory.
    pub fn copy(&self) -> Result<Kernel, NoMemory>
        ensures state { (s : KernelState) → StandsAt self.now s → IfOk result (λ copy. StandsAt copy s) }
        ensures terminal { IfOk result (λ copy. copy.terminal ≡ self.now.terminal) }
    {
        let members = self.members.as_slice().to_vec(self.alloc)?;
        let changes = self.changes.copy(self.alloc)?;
        let terminal = self.terminal.copy()?;
        let machine = self.machine.copy()?;
        Ok(Kernel {
            alloc: self.alloc,
            machine,
            members,
            terminal,
            changes,
            watch: Watch::new(self.alloc),
            is_current: false,
        })
    }
}
