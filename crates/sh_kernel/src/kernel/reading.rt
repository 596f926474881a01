//! Reads of the terminal.
ghost use Rattle.sh_base.specs.Memory.{no_memory};
ghost use Rattle.std.specs.Prelude.{◌≡◌, ◌≢◌, ◌≤◌, ◌&&◌, ℕ, IfErr, IfOk, IsErr, length, not};

use super::Kernel;
use crate::access::{Access, access_of};
use sh_kernel_descriptors::KernelFault;
use sh_kernel_processes::SignalTarget;
use sh_signal::Signal;
use sh_tty::TtyFault;

impl Kernel {
    ghost use Rattle.sh_kernel_descriptors.specs.Waiting.{waits};
    ghost use Rattle.sh_kernel.specs.Calls.{access, background_read, read_by};
    ghost use Rattle.sh_kernel.specs.Outcomes.{GivesOrLacks, GivesReadOrLacks, LacksWhereRaised};
    ghost use Rattle.sh_kernel.specs.Access.{access_of, is_raising};
    ghost use Rattle.sh_kernel.specs.Watching.{AgreesWith};
    ghost use Rattle.sh_kernel.specs.State.{KernelState, StandsAt};

    /// What the terminal does where a process reads from it.
    fn access(&self, pid: u32) -> Access
        ensures { result ≡ access_of (record { processes = self.now.machine.processes; members = self.now.members }) self.now.terminal.foreground pid }
    {
        access_of(
            self.machine.processes(),
            self.members.as_slice(),
            self.terminal.foreground(),
            pid,
        )
    }

    /// Sends SIGTTIN to a background group, one of whose processes reads from the terminal.
    fn raise_input(&mut self, group: u32) -> Result<usize, KernelFault>
        ensures refused { IsErr result }
        ensures state { (s : KernelState) → StandsAt self.old s
            → GivesOrLacks result self.new s (background_read s group) }
        ensures terminal { self.new.terminal ≡ self.old.terminal }
        ensures watch { self.new.watch ≡ self.old.watch }
    {
        let to = SignalTarget::Group(group);
        match self.send(&to, Signal::TerminalInput) {
            Ok(()) => Err(KernelFault::WouldWait),
            Err(lack) => Err(KernelFault::NoMemory(lack)),
        }
    }

    /// Reads what there is at the terminal. Takes no memory.
    fn take_input(&mut self, buf: &mut [u8]) -> Result<usize, KernelFault>
        ensures memory { IfErr result (λ fault. fault ≢ KernelFault.NoMemory no_memory) }
        ensures state { (s : KernelState) → StandsAt self.old s
            → GivesReadOrLacks result buf.old buf.new self.new s (read_by s (length buf.old) Access.Granted) }
        ensures within { IfOk result (λ n. n ≤ length buf.old) }
        ensures terminal { self.new.terminal.bytes ≡ self.old.terminal.bytes }
        ensures watch { self.new.watch ≡ self.old.watch }
    {
        self.is_current = false;
        match self.terminal.read(buf) {
            Ok(count) => Ok(count),
            Err(TtyFault::WouldWait) => Err(KernelFault::WouldWait),
            Err(TtyFault::NoMemory(lack)) => Err(KernelFault::NoMemory(lack)),
        }
    }

    /// Reads from the terminal.
    pub(super) fn read_terminal(&mut self, pid: u32, buf: &mut [u8]) -> Result<usize, KernelFault>
        ensures state { (s : KernelState) → StandsAt self.old s
            → GivesReadOrLacks result buf.old buf.new self.new s (read_by s (length buf.old) (access s pid)) }
        ensures room { (s : KernelState) → StandsAt self.old s
            → LacksWhereRaised result (is_raising (access s pid)) }
        ensures within { IfOk result (λ n. n ≤ length buf.old) }
        ensures terminal { self.new.terminal.bytes ≡ self.old.terminal.bytes }
        ensures watch { self.new.watch ≡ self.old.watch }
    {
        match self.access(pid) {
            Access::Granted => self.take_input(buf),
            Access::Raises(group) => self.raise_input(group),
            Access::Refused => Err(KernelFault::InputOutput),
        }
    }

    /// Whether a read from the terminal would wait, and send no signal.
    pub(super) fn terminal_waits(&self, pid: u32) -> bool
        ensures { (s : KernelState) → AgreesWith self.now.machine self.now.members self.now.terminal s → (n : ℕ)
            → result ≡ (waits (read_by s n (access s pid)).answer && not (is_raising (access s pid))) }
    {
        match self.access(pid) {
            Access::Granted => !self.terminal.is_readable(),
            Access::Raises(_) => false,
            Access::Refused => false,
        }
    }
}
