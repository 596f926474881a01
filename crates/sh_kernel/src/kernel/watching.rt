//! What a kernel keeps of who lives and who is blocked, so that nobody has to ask each process again.
ghost use Rattle.std.specs.Prelude.{◌≡◌, ◌++◌, ◌∷◌, [], IfOk, IsErr, false, if◌then◌else◌, true};

use super::Kernel;
use crate::next::Next;
use crate::watch::{BlockedProcess, Cause};
use sh_base::NoMemory;

impl Kernel {
    ghost use Rattle.sh_kernel.specs.State.{KernelState, StandsAt};
    ghost use Rattle.sh_kernel.specs.Watching.{AgreesWith, Holds, is_blocked};
    ghost use Rattle.sh_kernel_processes.specs.Processes.{lives};

    /// Whether a process can't take a turn for this cause.
    #[tactic(auto, unfolding(crate::specs::Turns::can_do))]
    fn is_blocked(&self, pid: u32, cause: Cause) -> bool
        ensures { (s : KernelState) → AgreesWith self.now.machine self.now.members self.now.terminal s
            → result ≡ is_blocked s pid cause }
    {
        match cause {
            Cause::Stopped => !self.machine.is_running(pid),
            Cause::Reading(name) => !self.can_move(pid, Next::Read(name)),
            Cause::Writing(number, count) => !self.can_move(pid, Next::Write(number, count)),
        }
    }

    /// Forgets what was found of processes. From then on what is found of them is kept, and whether it still holds
    /// ([`Kernel::is_current`]). Takes no memory.
    pub fn watch_anew(&mut self)
        ensures state { (s : KernelState) → StandsAt self.old s → StandsAt self.new s }
        ensures terminal { self.new.terminal ≡ self.old.terminal }
        ensures watch { self.new.watch ≡ record { living = []; blocked = [] } }
        ensures current { self.new.is_current ≡ true }
    {
        self.watch.clear();
        self.is_current = true;
    }

    /// Whether a process lives; if it does, that is kept. The only error is want of memory: then what was found is not
    /// current any more ([`Kernel::is_current`]), and has to be found anew.
    pub fn find_living(&mut self, pid: u32) -> Result<bool, NoMemory>
        ensures state { (s : KernelState) → StandsAt self.old s → StandsAt self.new s }
        ensures terminal { self.new.terminal ≡ self.old.terminal }
        ensures answer { (s : KernelState) → StandsAt self.old s → IfOk result (λ is_found. is_found ≡ lives s.machine.processes pid) }
        ensures watch { IfOk result (λ is_found. self.new.watch
            ≡ (if is_found then record self.old.watch { living = self.old.watch.living ++ pid ∷ [] } else self.old.watch)) }
        ensures current { IfOk result (λ is_found. self.new.is_current ≡ self.old.is_current) }
        ensures lack { IsErr result → self.new.is_current ≡ false }
    {
        if !self.machine.lives(pid) {
            return Ok(false);
        }
        match self.watch.put_living(pid) {
            Ok(()) => Ok(true),
            Err(lack) => {
                self.is_current = false;
                Err(lack)
            },
        }
    }

    /// Whether a process can't take a turn for this cause; if so, that is kept. The only error is want of memory: then what
    /// was found is not current any more ([`Kernel::is_current`]), and has to be found anew.
    pub fn find_blocked(&mut self, pid: u32, cause: Cause) -> Result<bool, NoMemory>
        ensures state { (s : KernelState) → StandsAt self.old s → StandsAt self.new s }
        ensures terminal { self.new.terminal ≡ self.old.terminal }
        ensures answer { (s : KernelState) → StandsAt self.old s → IfOk result (λ blocked. blocked ≡ is_blocked s pid cause) }
        ensures watch { IfOk result (λ blocked. self.new.watch
            ≡ (if blocked then record self.old.watch { blocked = self.old.watch.blocked ++ (record { pid = pid; cause = cause }) ∷ [] } else self.old.watch)) }
        ensures current { IfOk result (λ blocked. self.new.is_current ≡ self.old.is_current) }
        ensures lack { IsErr result → self.new.is_current ≡ false }
    {
        if !self.is_blocked(pid, cause) {
            return Ok(false);
        }
        match self.watch.put_blocked(BlockedProcess { pid, cause }) {
            Ok(()) => Ok(true),
            Err(lack) => {
                self.is_current = false;
                Err(lack)
            },
        }
    }

    /// Whether all that was found of processes since [`Kernel::watch_anew`] is known to hold still. It is not where the kernel was told anything
    /// since that may change it. A call that only looks, and a write to the terminal, leave this answer as it was. Takes no memory.
    pub fn is_current(&self) -> bool
        ensures current { result ≡ self.now.is_current }
        ensures holds { result ≡ true → (s : KernelState) → StandsAt self.now s → Holds self.now.watch s }
    {
        self.is_current
    }
}
