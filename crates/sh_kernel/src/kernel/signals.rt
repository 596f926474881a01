//! Signals, process groups and the foreground group.
ghost use Rattle.std.specs.Prelude.{◌≡◌, ℕ, List, IfOk, OnErr, OnOk, map};
ghost use Rattle.sh_tty.specs.Happenings as happenings;
ghost use Rattle.sh_tty.specs.Happenings.{Happening};
ghost use Rattle.sh_tty.specs.Keys.{key_of, signal_of};
ghost use Rattle.sh_tty.specs.Terminal as tty;
ghost use Rattle.sh_tty.specs.Terminal.{Extends};

use super::Kernel;
use crate::changes::{NumberedStatus, statuses_of};
use sh_base::NoMemory;
use sh_kernel_descriptors::KernelFault;
use sh_kernel_processes::{
    Member, SignalAction, SignalTarget, is_any_reached, member_at, set_action, set_group,
    take_signal,
};
use sh_signal::Signal;
use sh_tty::{Tty, TtyFault};

/// A key comes to the terminal; answers the signal that it raises, if it does. The only error is want of memory, after
/// which nothing has changed.
fn type_key(terminal: &mut Tty, byte: u8) -> Result<Option<Signal>, NoMemory>
    ensures stands { (hs : List Happening) → tty.StandsAt terminal.old hs
        → OnOk result (tty.StandsAt terminal.new (happenings.after_key byte hs)) }
    ensures raised { IfOk result (λ raised. raised ≡ signal_of (key_of byte)) }
    ensures foreground { terminal.new.foreground ≡ terminal.old.foreground }
    ensures unchanged { OnErr result (terminal.new ≡ terminal.old) }
    ensures extends { Extends terminal.old.bytes terminal.new.bytes }
{
    match terminal.key(byte) {
        Ok(raised) => Ok(raised),
        Err(TtyFault::NoMemory(lack)) => Err(lack),
        Err(TtyFault::WouldWait) => unreachable!(),
    }
}

impl Kernel {
    ghost use Rattle.sh_kernel_descriptors.specs.Outcomes.{LacksWhereGiven};
    ghost use Rattle.sh_kernel_processes.specs.Changes.{next_pending};
    ghost use Rattle.sh_kernel_processes.specs.Groups as groups;
    ghost use Rattle.sh_kernel_processes.specs.Sending.{reaches};
    ghost use Rattle.std.specs.List.{list_any};
    ghost use Rattle.sh_kernel_processes.specs.Sending as sending;
    ghost use Rattle.sh_kernel.specs.Changes.{numbered_status};
    ghost use Rattle.sh_kernel.specs.Calls.{after_key, after_raising, after_set_action, after_set_foreground, after_set_group, after_take_signal, broken_pipe, kill_call};
    ghost use Rattle.sh_kernel.specs.Outcomes.{GivesOrLacks};
    ghost use Rattle.sh_kernel.specs.Signals.{after_signal};
    ghost use Rattle.sh_kernel.specs.State.{KernelState, StandsAt};

    /// Sends a signal to each process that it reaches. The only error is want of memory, after which nothing has changed.
    pub(super) fn send(&mut self, to: &SignalTarget, signal: Signal) -> Result<(), NoMemory>
        ensures ok { (s : KernelState) → StandsAt self.old s
            → OnOk result (StandsAt self.new (after_signal s to.now signal)) }
        ensures err { (s : KernelState) → StandsAt self.old s
            → OnErr result (StandsAt self.new s) }
        ensures terminal { self.new.terminal ≡ self.old.terminal }
        ensures watch { self.new.watch ≡ self.old.watch }
    {
        let (pids, at_risk) = self.machine.prepare(self.members.as_slice())?;
        let before = statuses_of(self.alloc, &self.machine, pids.as_slice())?;
        self.deliver(
            to,
            signal,
            pids.as_slice(),
            at_risk.as_slice(),
            before.as_slice(),
        );
        Ok(())
    }

    /// Sends a signal to each process that it reaches, and notes which of these processes it has stopped or continued. Takes no memory.
    fn deliver(
        &mut self,
        to: &SignalTarget,
        signal: Signal,
        pids: &[u32],
        at_risk: &[u32],
        before: &[NumberedStatus],
    )
        requires { (pids.now ≡ sending.pids_of self.old.members)
            × (at_risk.now ≡ sending.groups_at_risk (record { processes = self.old.machine.processes; members = self.old.members }))
            × (before.now ≡ map (numbered_status self.old.machine.processes) pids.now) }
        ensures state { (s : KernelState) → StandsAt self.old s
            → StandsAt self.new (after_signal s to.now signal) }
        ensures terminal { self.new.terminal ≡ self.old.terminal }
        ensures watch { self.new.watch ≡ self.old.watch }
    {
        self.is_current = false;
        self.machine
            .send(&mut self.members, to, signal, pids, at_risk);
        self.changes.note(&self.machine, before);
    }

    /// A key comes to the terminal, which takes it into the line that is being typed, and shows it. INTR, QUIT and SUSP
    /// throw the unread input away, and send their signal to the foreground group (XBD 11.1.9). The only error is want
    /// of memory, after which nothing has changed.
    pub fn key(&mut self, byte: u8) -> Result<(), NoMemory>
        ensures ok { (s : KernelState) → StandsAt self.old s
            → OnOk result (StandsAt self.new (after_key s byte)) }
        ensures err { (s : KernelState) → StandsAt self.old s
            → OnErr result (StandsAt self.new s) }
        ensures terminal { Extends self.old.terminal.bytes self.new.terminal.bytes }
        ensures watch { self.new.watch ≡ self.old.watch }
    {
        self.is_current = false;
        let (pids, at_risk) = self.machine.prepare(self.members.as_slice())?;
        let before = statuses_of(self.alloc, &self.machine, pids.as_slice())?;
        let raised = type_key(&mut self.terminal, byte)?;
        self.raise(
            raised,
            pids.as_slice(),
            at_risk.as_slice(),
            before.as_slice(),
        );
        Ok(())
    }

    /// Sends the foreground group the signal that a key raised.
    fn raise(
        &mut self,
        raised: Option<Signal>,
        pids: &[u32],
        at_risk: &[u32],
        before: &[NumberedStatus],
    )
        requires { (pids.now ≡ sending.pids_of self.old.members)
            × (at_risk.now ≡ sending.groups_at_risk (record { processes = self.old.machine.processes; members = self.old.members }))
            × (before.now ≡ map (numbered_status self.old.machine.processes) pids.now) }
        ensures state { (s : KernelState) → StandsAt self.old s
            → StandsAt self.new (after_raising s raised) }
        ensures terminal { self.new.terminal ≡ self.old.terminal }
        ensures watch { self.new.watch ≡ self.old.watch }
    {
        let Some(signal) = raised else {
            return;
        };
        let to = SignalTarget::Group(self.terminal.foreground());
        self.deliver(&to, signal, pids, at_risk, before);
    }

    /// Sends SIGPIPE to the writer to a pipe without a reader, and answers so.
    pub(super) fn break_pipe(&mut self, pid: u32) -> Result<usize, KernelFault>
        ensures state { (s : KernelState) → StandsAt self.old s
            → GivesOrLacks result self.new s (broken_pipe s pid) }
        ensures terminal { self.new.terminal ≡ self.old.terminal }
        ensures watch { self.new.watch ≡ self.old.watch }
    {
        let to = SignalTarget::Process(pid);
        match self.send(&to, Signal::Pipe) {
            Ok(()) => Err(KernelFault::BrokenPipe),
            Err(lack) => Err(KernelFault::NoMemory(lack)),
        }
    }

    /// Sends a signal to the processes that it reaches, the lowest number first (XSH kill). What its default action ends
    /// closes its descriptors; what stops or ends is told to its parent by CHLD; and groups that this leaves orphaned
    /// get HUP and CONT, where they have a stopped member.
    ///
    /// `NoProcess` where it reaches none that lives; else `NoMemory`.
    pub fn kill(&mut self, to: &SignalTarget, signal: Signal) -> Result<(), KernelFault>
        ensures state { (s : KernelState) → StandsAt self.old s
            → GivesOrLacks result self.new s (kill_call s to.now signal) }
        ensures room { (s : KernelState) → StandsAt self.old s
            → LacksWhereGiven result (kill_call s to.now signal) }
        ensures terminal { self.new.terminal ≡ self.old.terminal }
        ensures watch { self.new.watch ≡ self.old.watch }
    {
        if !self.is_any_reached(to) {
            return Err(KernelFault::NoProcess);
        }
        match self.send(to, signal) {
            Ok(()) => Ok(()),
            Err(lack) => Err(KernelFault::NoMemory(lack)),
        }
    }

    /// Whether a signal would reach a process that lives (XSH kill with signal 0). Takes no memory.
    pub fn is_any_reached(&self, to: &SignalTarget) -> bool
        ensures { (s : KernelState) → StandsAt self.now s → result ≡ list_any (reaches to.now) s.members }
    {
        is_any_reached(self.members.as_slice(), to)
    }

    /// Sets what a process does with a signal (XSH sigaction). Nothing changes for KILL and STOP, which can't be caught or
    /// ignored, nor where no such process lives. Takes no memory.
    pub fn set_action(&mut self, pid: u32, signal: Signal, action: SignalAction)
        ensures state { (s : KernelState) → StandsAt self.old s
            → StandsAt self.new (after_set_action s pid signal action) }
        ensures terminal { self.new.terminal ≡ self.old.terminal }
        ensures watch { self.new.watch ≡ self.old.watch }
    {
        self.is_current = false;
        set_action(&mut self.members, pid, signal, action);
    }

    /// Takes the signal that a process caught and hasn't taken yet, the lowest number first; `None` where there is none.
    /// Takes no memory.
    pub fn take_signal(&mut self, pid: u32) -> Option<Signal>
        ensures taken { (s : KernelState) → StandsAt self.old s → result ≡ next_pending s.members pid }
        ensures state { (s : KernelState) → StandsAt self.old s
            → StandsAt self.new (after_take_signal s pid) }
        ensures terminal { self.new.terminal ≡ self.old.terminal }
        ensures watch { self.new.watch ≡ self.old.watch }
    {
        self.is_current = false;
        take_signal(&mut self.members, pid)
    }

    /// Puts a process into a group (XSH setpgid). Nothing changes where no such process lives. Takes no memory.
    pub fn set_group(&mut self, pid: u32, group: u32)
        ensures state { (s : KernelState) → StandsAt self.old s
            → StandsAt self.new (after_set_group s pid group) }
        ensures terminal { self.new.terminal ≡ self.old.terminal }
        ensures watch { self.new.watch ≡ self.old.watch }
    {
        self.is_current = false;
        set_group(&mut self.members, pid, group);
    }

    /// Makes a group the foreground group of the terminal (XSH tcsetpgrp). Takes no memory.
    pub fn set_foreground(&mut self, group: u32)
        ensures state { (s : KernelState) → StandsAt self.old s
            → StandsAt self.new (after_set_foreground s group) }
        ensures terminal { self.new.terminal.bytes ≡ self.old.terminal.bytes }
        ensures watch { self.new.watch ≡ self.old.watch }
    {
        self.is_current = false;
        self.terminal.set_foreground(group);
    }

    /// The foreground group of the terminal (XSH tcgetpgrp). Takes no memory.
    pub fn foreground(&self) -> u32
        ensures { (s : KernelState) → StandsAt self.now s → result ≡ s.foreground }
    {
        self.terminal.foreground()
    }

    /// A process's group and signals; `None` where no such process lives. Takes no memory.
    pub fn member(&self, pid: u32) -> Option<Member>
        ensures { (s : KernelState) → StandsAt self.now s → result ≡ groups.member_at s.members pid }
    {
        member_at(self.members.as_slice(), pid)
    }
}
