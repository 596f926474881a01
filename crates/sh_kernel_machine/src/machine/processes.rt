//! Processes that are made, receive signals and end.
ghost use Rattle.std.specs.Prelude.{◌≡◌, IfOk, List, OnErr, OnOk, true, ℕ};

use super::Machine;
use crate::tables::fork_in;
use sh_base::NoMemory;
use sh_kernel_descriptors::Closing;
use sh_kernel_processes::{
    FIRST_PID, Member, SignalTarget, end, groups_at_risk, has_ended, lives, pids_of, send_prepared,
};
use sh_signal::Signal;
use std::alloc::AllocError;

impl Machine {
    ghost use Rattle.sh_kernel_descriptors.specs.Machine.{MachineState, after_close, after_fork};
    ghost use Rattle.sh_kernel_processes.specs.Processes as processes;
    ghost use Rattle.sh_kernel_descriptors.specs.declared.descriptor.Closing.TheVariants.{Asides};
    ghost use Rattle.sh_kernel_processes.specs.Sending.{after_end, after_send};
    ghost use Rattle.sh_kernel_processes.specs.Sending as sending;
    ghost use Rattle.sh_kernel_machine.specs.Machine.{StandsAt};
    ghost use Rattle.sh_kernel_machine.specs.Signals.{after_ending, after_endings, with_processes};

    /// Whether there is a process of this number that hasn't ended. Takes no memory.
    pub fn lives(&self, pid: u32) -> bool
        ensures { result ≡ processes.lives self.now.processes pid }
    {
        lives(self.processes.as_slice(), pid)
    }

    /// Whether there may be one more process: fewer than [`MAX_LIVE`](sh_kernel_descriptors::MAX_LIVE) live, and the
    /// next number isn't above [`MAX_PID`](sh_kernel_descriptors::MAX_PID). Takes no memory.
    pub fn may_fork(&self) -> bool
        ensures { result ≡ processes.may_fork self.now.processes }
    {
        self.processes.may_fork()
    }

    /// Makes a process (XSH fork), and answers its number, which is above those of all others. The new process has the
    /// descriptors of `pid`, but for those that are set aside. They refer to the same descriptions, so the processes
    /// share offsets. Ask first whether [there may be one more](Machine::may_fork). The only error is want of memory,
    /// after which the machine is as it was.
    pub fn fork(&mut self, pid: u32) -> Result<u32, AllocError>
        requires { processes.may_fork self.old.processes ≡ true }
        ensures number { (s : MachineState) → StandsAt self.old s
            → IfOk result (λ child. child ≡ processes.next_pid s.processes) }
        ensures ok { (s : MachineState) → StandsAt self.old s
            → OnOk result (StandsAt self.new (after_fork s pid)) }
        ensures err { (s : MachineState) → StandsAt self.old s
            → OnErr result (StandsAt self.new s) }
    {
        self.processes.reserve()?;
        let child = FIRST_PID + self.processes.as_slice().len() as u32;
        fork_in(&mut self.held, self.alloc, pid, child, &mut self.entries)?;
        self.processes.start(pid);
        Ok(child)
    }

    /// A process starts a program: what it has set aside is closed (XSH exec, FD_CLOEXEC). Nothing else changes, and
    /// nothing at all where it has set nothing aside. Takes no memory.
    pub fn start_program(&mut self, pid: u32)
        ensures { (s : MachineState) → StandsAt self.old s
            → StandsAt self.new (after_close s pid Asides) }
    {
        self.close_each(pid, Closing::Asides);
    }

    /// Closes all descriptors of a process, if it has ended.
    fn close_ended(&mut self, pid: u32)
        ensures { (s : MachineState) → StandsAt self.old s
            → StandsAt self.new (after_ending s pid) }
    {
        if has_ended(self.processes.as_slice(), pid) {
            self.end_table(pid);
        }
    }

    /// Closes all descriptors of those of these processes that have ended.
    #[tactic(auto, using(crate::proofs::Ending::begins, crate::proofs::Ending::goes_on, crate::proofs::Ending::ends))]
    fn close_all_ended(&mut self, pids: &[u32])
        ensures { (s : MachineState) → StandsAt self.old s
            → StandsAt self.new (after_endings s pids.now) }
    {
        let mut rest = pids;
        'pids: while let Some((pid, others)) = rest.split_first() {
            self.close_ended(*pid);
            rest = others;
        }
    }

    /// Takes the memory for [`Machine::send`] before anything changes: the numbers of the processes that live, which
    /// are these members, and the groups that a signal may leave orphaned. The only error is want of memory.
    pub fn prepare(&self, members: &[Member]) -> Result<(Vec<u32>, Vec<u32>), NoMemory>
        ensures { IfOk result (λ r. (r.0.items ≡ sending.pids_of members.now)
            × (r.1.items ≡ sending.groups_at_risk (record { processes = self.now.processes; members = members.now }))) }
    {
        let pids = pids_of(self.alloc, members)?;
        let at_risk = groups_at_risk(self.alloc, self.processes.as_slice(), members)?;
        Ok((pids, at_risk))
    }

    /// Sends a signal, and leaves what has ended its descriptors.
    fn deliver(
        &mut self,
        members: &mut Vec<Member>,
        to: &SignalTarget,
        signal: Signal,
        pids: &[u32],
        at_risk: &[u32],
    )
        requires { (pids.now ≡ sending.pids_of members.old.items)
            × (at_risk.now ≡ sending.groups_at_risk (record { processes = self.old.processes; members = members.old.items })) }
        ensures state { (s : MachineState) → StandsAt self.old s → StandsAt self.new
            (record s { processes = (after_send (record { processes = s.processes; members = members.old.items }) to.now signal).processes }) }
        ensures left { (s : MachineState) → StandsAt self.old s → members.new.items
            ≡ (after_send (record { processes = s.processes; members = members.old.items }) to.now signal).members }
    {
        send_prepared(&mut self.processes, members, to, signal, pids, at_risk);
    }

    /// Sends a signal to each process that it reaches (XSH kill). Those that it ends close all their descriptors, and
    /// leave the members; what stops or ends is told to its parent by CHLD; and groups that this leaves orphaned get
    /// HUP and CONT, where they have a stopped member. The last two arguments are those that [`Machine::prepare`] gave
    /// for the same processes and members. Takes no memory, and can't be refused.
    pub fn send(
        &mut self,
        members: &mut Vec<Member>,
        to: &SignalTarget,
        signal: Signal,
        pids: &[u32],
        at_risk: &[u32],
    )
        requires { (pids.now ≡ sending.pids_of members.old.items)
            × (at_risk.now ≡ sending.groups_at_risk (record { processes = self.old.processes; members = members.old.items })) }
        ensures state { (s : MachineState) → StandsAt self.old s → StandsAt self.new
            (with_processes s (after_send (record { processes = s.processes; members = members.old.items }) to.now signal).processes (sending.pids_of members.old.items)) }
        ensures left { (s : MachineState) → StandsAt self.old s → members.new.items
            ≡ (after_send (record { processes = s.processes; members = members.old.items }) to.now signal).members }
    {
        self.deliver(members, to, signal, pids, at_risk);
        self.close_all_ended(pids);
    }

    /// Ends a process, and leaves what has ended its descriptors.
    fn exit(&mut self, members: &mut Vec<Member>, pid: u32, status: u8) -> Result<(), NoMemory>
        ensures ok { (s : MachineState) → StandsAt self.old s → OnOk result (StandsAt self.new
            (record s { processes = (after_end (record { processes = s.processes; members = members.old.items }) pid status).processes })) }
        ensures left { (s : MachineState) → StandsAt self.old s → OnOk result (members.new.items
            ≡ (after_end (record { processes = s.processes; members = members.old.items }) pid status).members) }
        ensures err { (s : MachineState) → StandsAt self.old s → OnErr result (StandsAt self.new s) }
        ensures kept { OnErr result (members.new.items ≡ members.old.items) }
    {
        end(self.alloc, &mut self.processes, members, pid, status)
    }

    /// Ends a process with an exit status, by its own call (XSH _exit): it leaves the members, its children have the
    /// parent 1 from then on, and its parent gets CHLD. Where this leaves a group orphaned that has a stopped member,
    /// its members get HUP and CONT. The process, and each that this ends, closes all its descriptors. The only error
    /// is want of memory, after which nothing has changed.
    pub fn end(&mut self, members: &mut Vec<Member>, pid: u32, status: u8) -> Result<(), NoMemory>
        ensures ok { (s : MachineState) → StandsAt self.old s → OnOk result (StandsAt self.new
            (with_processes s (after_end (record { processes = s.processes; members = members.old.items }) pid status).processes (sending.pids_of members.old.items))) }
        ensures left { (s : MachineState) → StandsAt self.old s → OnOk result (members.new.items
            ≡ (after_end (record { processes = s.processes; members = members.old.items }) pid status).members) }
        ensures err { (s : MachineState) → StandsAt self.old s → OnErr result (StandsAt self.new s) }
        ensures kept { OnErr result (members.new.items ≡ members.old.items) }
    {
        let pids = pids_of(self.alloc, members.as_slice())?;
        self.exit(members, pid, status)?;
        self.close_all_ended(pids.as_slice());
        Ok(())
    }
}
