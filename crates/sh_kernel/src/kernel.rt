//! The kernel.
ghost use Rattle.sh_base.specs.Memory.{no_memory};
ghost use Rattle.std.specs.Prelude.{◌≡◌, ◌<◌, ◌≤◌, ◌∷◌, ◌&&◌, ℕ, List, IfErr, IfOk, OnErr, OnOk, length, not, true, vec_capacity, vec_len};
ghost use Rattle.sh_kernel_descriptors.specs.Waiting.{waits};
ghost use Rattle.sh_kernel.specs.Turns.{is_any_running, untraced_answer};
ghost use Rattle.sh_kernel_processes.specs.Changes.{with_fork};
ghost use Rattle.sh_tty.specs.Happenings.{Happening};
ghost use Rattle.sh_tty.specs.Terminal as tty;
ghost use Rattle.sh_tty.specs.Terminal.{Extends};

mod copying;
mod reading;
mod signals;
mod watching;

use crate::changes::{Changes, stopped_of};
use crate::next::Next;
use crate::watch::Watch;
use sh_base::NoMemory;
use sh_files::{Files, Opening};
use sh_kernel_descriptors::{DescriptorRef, Entry, KernelFault};
use sh_kernel_machine::Machine;
use sh_kernel_processes::{
    FIRST_PID, Member, Process, SignalTarget, Status, all_children, is_running, member_at,
    new_member, start_program, status_at,
};
use sh_pipe::Pipe;
use sh_signal::Signal;
use sh_tty::{Tty, TtyFault};
use slab::Slab;
use std::alloc::{AllocError, Global};
use std::marker::Model;

/// Processes with their groups and signals, what they have open, files and one terminal.
///
/// Processes, open file descriptions and pipes have numbers that go up by creation, processes from
/// [`FIRST_PID`](crate::FIRST_PID); none is used again. A description is kept under a key while a descriptor refers to
/// it; the key may be used again then. A process names a descriptor by its number or, where
/// it has set it aside, by the number of its description ([`DescriptorRef`]).
///
/// A kernel stands at a state, and each call is one change of that state by the process that makes the call.
/// After each refusal the kernel stands at the same state as before, but for [`KernelFault::BrokenPipe`],
/// with which the process was sent SIGPIPE, and for a background process that reads from the terminal, whose group was
/// sent SIGTTIN.
#[derive(Drop)]
pub struct Kernel {
    alloc: Global,
    machine: Machine,
    /// The processes that live.
    members: Vec<Member>,
    terminal: Tty,
    /// When each process last started, stopped or went on.
    changes: Changes,
    /// What was found of processes.
    watch: Watch,
    /// Nothing has happened since that may have changed what was found.
    is_current: bool,
}

impl Model for Kernel {
    ghost use Rattle.std.specs.Prelude.{◌≡◌, true};
    ghost use Rattle.sh_kernel.specs.State.{KernelKept, KernelState};
    ghost use Rattle.sh_kernel.specs.Watching.{AgreesWith, Holds};
    ghost use Rattle.sh_files_image.specs.Codes.{map_code};
    ghost use Rattle.std.specs.Coded.{codes};

    ghost Value = { KernelKept };

    ghost coded = { Prim.hlevel (codes, map_code) };

    ghost view = { λ k. record { machine = k.machine; members = k.members.items; terminal = k.terminal; changes = k.changes.changes; watch = k.watch; is_current = k.is_current } };

    ghost invariant = { λ k. k.is_current ≡ true → (s : KernelState) → AgreesWith k.machine k.members.items k.terminal s → Holds k.watch s };
}

/// Adds a process that another one makes to the group of that one.
fn join(members: &mut Vec<Member>, pid: u32, child: u32)
    requires { vec_len members.old < vec_capacity members.old }
    ensures { members.new.items ≡ with_fork members.old.items pid child }
{
    if let Some(member) = member_at(members.as_slice(), pid) {
        members.push_reserved(new_member(member, child));
    }
}

/// Whether a call with this answer would wait.
fn waits(answer: Result<(), KernelFault>) -> bool
    ensures { result ≡ waits answer }
{
    match answer {
        Ok(()) => false,
        Err(fault) => fault.is_wait(),
    }
}

/// Whether one of these processes is neither stopped nor ended.
fn is_any_running(processes: &[Process], awaited: &[u32]) -> bool
    ensures { result ≡ is_any_running processes.now awaited.now }
{
    awaited
        .iter()
        .any(|child| is_running(status_at(processes, *child)))
}

/// Whether each of these children of a process has ended or is stopped.
fn untraced_answer(processes: &[Process], pid: u32, awaited: &[u32]) -> Result<(), KernelFault>
    ensures { result ≡ untraced_answer processes.now pid awaited.now }
{
    if !all_children(processes, pid, awaited) {
        return Err(KernelFault::NoProcess);
    }
    if is_any_running(processes, awaited) {
        return Err(KernelFault::WouldWait);
    }
    Ok(())
}

/// Writes to the terminal.
#[tactic(auto, using(crate::proofs::Extending::unchanged, crate::proofs::Extending::longer))]
fn show(terminal: &mut Tty, bytes: &[u8]) -> Result<usize, KernelFault>
    ensures stands { (hs : List Happening) → tty.StandsAt terminal.old hs
        → OnOk result (tty.StandsAt terminal.new (Happening.Wrote bytes.now ∷ hs)) }
    ensures foreground { terminal.new.foreground ≡ terminal.old.foreground }
    ensures input { terminal.new.entries ≡ terminal.old.entries }
    ensures whole { IfOk result (λ count. count ≡ length bytes.now) }
    ensures memory { IfErr result (λ fault. fault ≡ KernelFault.NoMemory no_memory) }
    ensures unchanged { OnErr result (terminal.new ≡ terminal.old) }
    ensures extends { Extends terminal.old.bytes terminal.new.bytes }
{
    match terminal.write(bytes) {
        Ok(()) => Ok(bytes.len()),
        Err(TtyFault::NoMemory(lack)) => Err(KernelFault::NoMemory(lack)),
        Err(TtyFault::WouldWait) => unreachable!(),
    }
}

impl Kernel {
    ghost use Rattle.std.specs.Prelude.{option_copied};
    ghost use Rattle.sh_kernel_descriptors.specs.Kept.{IsCounted, pipe_at};
    ghost use Rattle.sh_kernel_descriptors.specs.Machine.{wait_answer};
    ghost use Rattle.sh_kernel_processes.specs.Processes.{parent_at, status_at};
    ghost use Rattle.sh_kernel_descriptors.specs.Terminals.{is_terminal, writes_terminal};
    ghost use Rattle.sh_kernel.specs.Changes.{changed_at};
    ghost use Rattle.sh_kernel.specs.Turns.{action_of, action_waits, can_do};
    ghost use Rattle.sh_kernel.specs.Watching.{AgreesWith};
    ghost use Rattle.sh_tty.specs.Happenings.{bytes_of};
    ghost use Rattle.sh_kernel.specs.State.{KernelState, StandsAt, starting};
    ghost use Rattle.sh_kernel_descriptors.specs.Outcomes.{LacksWhereGiven};
    ghost use Rattle.sh_kernel.specs.Outcomes.{Gives, GivesOrLacks, GivesReadOrLacks, LacksWhereDone, LacksWhereRaised};
    ghost use Rattle.sh_kernel.specs.Signals.{after_exit};
    ghost use Rattle.sh_kernel.specs.Calls.{close_call, dup_call, end_call, fork_call, here_call, open_call, pipe_call, put_back_call, raises_input, read_call, set_aside_call, start_call, write_call};

    /// The first process, whose descriptors 0, 1 and 2 refer to one description of the terminal, over these files. Its
    /// process group is the foreground group. The only error is want of memory.
    pub fn new(alloc: Global, files: Files) -> Result<Self, AllocError>
        ensures { IfOk result (λ kernel. StandsAt kernel (starting files)) }
    {
        let machine = Machine::new(alloc, files)?;
        let changes = Changes::new(alloc)?;
        let mut members = Vec::with_capacity(alloc, 1)?;
        members.push(Member::first(FIRST_PID))?;
        Ok(Kernel {
            alloc,
            machine,
            members,
            terminal: Tty::new(alloc, FIRST_PID),
            changes,
            watch: Watch::new(alloc),
            is_current: false,
        })
    }

    /// Closes a descriptor (XSH close); a pipe goes with the last descriptor that refers to one of its ends.
    /// `BadDescriptor` where the process has none of this name. Takes no memory.
    pub fn close(&mut self, pid: u32, name: DescriptorRef) -> Result<(), KernelFault>
        ensures state { (s : KernelState) → StandsAt self.old s
            → Gives result self.new (close_call s pid name) }
        ensures terminal { self.new.terminal ≡ self.old.terminal }
        ensures watch { self.new.watch ≡ self.old.watch }
    {
        self.is_current = false;
        self.machine.close(pid, name)
    }

    /// Makes a number refer to the description to which a descriptor refers (XSH dup2); what the number
    /// referred to is closed first. A number that refers to that description already stays as it is.
    ///
    /// `BadDescriptor` where the process has no descriptor of this name; `TooManyDescriptors` where the number is not
    /// below [`MAX_DESCRIPTORS`](crate::MAX_DESCRIPTORS); else `NoMemory`.
    pub fn dup(&mut self, pid: u32, name: DescriptorRef, to: u8) -> Result<(), KernelFault>
        ensures state { (s : KernelState) → StandsAt self.old s
            → GivesOrLacks result self.new s (dup_call s pid name to) }
        ensures room { (s : KernelState) → StandsAt self.old s
            → LacksWhereGiven result (dup_call s pid name to) }
        ensures terminal { self.new.terminal ≡ self.old.terminal }
        ensures watch { self.new.watch ≡ self.old.watch }
    {
        self.is_current = false;
        self.machine.dup(pid, name, to)
    }

    /// Makes a pipe (XSH pipe) with room for [`CAPACITY`](crate::CAPACITY) bytes. `from` then refers to the
    /// end to read from, and `to` to the end to write to; what these numbers referred to is closed.
    ///
    /// `NoProcess` where no such process lives; `TooManyDescriptors` where a number is too high; else `NoMemory`.
    pub fn pipe(&mut self, pid: u32, from: u8, to: u8) -> Result<(), KernelFault>
        ensures state { (s : KernelState) → StandsAt self.old s
            → GivesOrLacks result self.new s (pipe_call s pid from to) }
        ensures room { (s : KernelState) → StandsAt self.old s
            → LacksWhereGiven result (pipe_call s pid from to) }
        ensures terminal { self.new.terminal ≡ self.old.terminal }
        ensures watch { self.new.watch ≡ self.old.watch }
    {
        self.is_current = false;
        self.machine.pipe(pid, from, to)
    }

    /// Opens what a path names, in a working directory where the path doesn't begin with a slash, and makes a number
    /// refer to it (XSH open); what the number referred to is closed. With `append` each write goes to the file's end
    /// (`O_APPEND`).
    ///
    /// `NoProcess` where no such process lives; `TooManyDescriptors` where the number is too high; then what
    /// [`Files::open`] refuses, in its order, as `File`; `NoMemory` may come at any point.
    pub fn open(
        &mut self,
        pid: u32,
        directory: &[u8],
        path: &[u8],
        how: Opening,
        append: bool,
        number: u8,
    ) -> Result<(), KernelFault>
        ensures state { (s : KernelState) → StandsAt self.old s
            → GivesOrLacks result self.new s
            (open_call s pid directory.now path.now how append number) }
        ensures terminal { self.new.terminal ≡ self.old.terminal }
        ensures watch { self.new.watch ≡ self.old.watch }
    {
        self.is_current = false;
        self.machine.open(pid, directory, path, how, append, number)
    }

    /// Makes a number refer to a here-document (XCU 2.7.4): a new file of these bytes, which no path names, open for
    /// reading alone; what the number referred to is closed.
    ///
    /// `NoProcess` where no such process lives; `TooManyDescriptors` where the number is too high; `File` with `TooLarge`
    /// where there are more than [`MAX_LENGTH`](sh_files::MAX_LENGTH) bytes; else `NoMemory`.
    pub fn here_document(&mut self, pid: u32, bytes: &[u8], number: u8) -> Result<(), KernelFault>
        ensures state { (s : KernelState) → StandsAt self.old s
            → GivesOrLacks result self.new s (here_call s pid bytes.now number) }
        ensures room { (s : KernelState) → StandsAt self.old s
            → LacksWhereGiven result (here_call s pid bytes.now number) }
        ensures terminal { self.new.terminal ≡ self.old.terminal }
        ensures watch { self.new.watch ≡ self.old.watch }
    {
        self.is_current = false;
        self.machine.here_document(pid, bytes, number)
    }

    /// Sets a descriptor aside: it loses its number, and is named by the number of its description, which is
    /// the answer. A fork doesn't copy it, and a program that the process starts doesn't have it.
    ///
    /// `BadDescriptor` where the number refers to nothing. Takes no memory.
    pub fn set_aside(&mut self, pid: u32, number: u8) -> Result<usize, KernelFault>
        ensures state { (s : KernelState) → StandsAt self.old s
            → Gives result self.new (set_aside_call s pid number) }
        ensures terminal { self.new.terminal ≡ self.old.terminal }
        ensures watch { self.new.watch ≡ self.old.watch }
    {
        self.is_current = false;
        self.machine.set_aside(pid, number)
    }

    /// Gives a descriptor that was set aside a number again; what the number referred to is closed.
    ///
    /// `BadDescriptor` where the process has set aside no descriptor of this description; `TooManyDescriptors` where the
    /// number is too high. Takes no memory.
    pub fn put_back(&mut self, pid: u32, aside: usize, number: u8) -> Result<(), KernelFault>
        ensures state { (s : KernelState) → StandsAt self.old s
            → Gives result self.new (put_back_call s pid aside number) }
        ensures terminal { self.new.terminal ≡ self.old.terminal }
        ensures watch { self.new.watch ≡ self.old.watch }
    {
        self.is_current = false;
        self.machine.put_back(pid, aside, number)
    }

    /// Makes a process (XSH fork), and answers its number. The new process has the descriptors of `pid`, but
    /// for those that are set aside. They refer to the same descriptions, so the processes share offsets.
    ///
    /// `NoProcess` where no such process lives; `TooManyProcesses` where [`MAX_LIVE`](crate::MAX_LIVE) live already, or
    /// the number would be above [`MAX_PID`](crate::MAX_PID); else `NoMemory`.
    pub fn fork(&mut self, pid: u32) -> Result<u32, KernelFault>
        ensures state { (s : KernelState) → StandsAt self.old s
            → GivesOrLacks result self.new s (fork_call s pid) }
        ensures room { (s : KernelState) → StandsAt self.old s
            → LacksWhereGiven result (fork_call s pid) }
        ensures terminal { self.new.terminal ≡ self.old.terminal }
        ensures watch { self.new.watch ≡ self.old.watch }
    {
        self.is_current = false;
        if !self.machine.lives(pid) {
            return Err(KernelFault::NoProcess);
        }
        if !self.machine.may_fork() {
            return Err(KernelFault::TooManyProcesses);
        }
        self.members.reserve(1)?;
        self.changes.reserve()?;
        let child = self.machine.fork(pid)?;
        join(&mut self.members, pid, child);
        self.changes.start();
        Ok(child)
    }

    /// Ends a process that lives. That stops no other one, so only those that were stopped before can have changed. The only error is
    /// want of memory, after which nothing has changed.
    fn exit(&mut self, pid: u32, status: u8) -> Result<(), NoMemory>
        ensures ok { (s : KernelState) → StandsAt self.old s
            → OnOk result (StandsAt self.new (after_exit s pid status)) }
        ensures err { (s : KernelState) → StandsAt self.old s
            → OnErr result (StandsAt self.new s) }
        ensures terminal { self.new.terminal ≡ self.old.terminal }
        ensures watch { self.new.watch ≡ self.old.watch }
    {
        self.is_current = false;
        let stopped = stopped_of(self.alloc, &self.machine, self.members.as_slice())?;
        self.machine.end(&mut self.members, pid, status)?;
        self.changes.note(&self.machine, stopped.as_slice());
        Ok(())
    }

    /// Ends a process with an exit status, by its own call (XSH _exit): all its descriptors are closed, its children
    /// have the parent 1 from then on, and its parent gets CHLD. Where this leaves a group orphaned that has a stopped
    /// member, each member of that group gets HUP, and then CONT.
    ///
    /// `NoProcess` where no such process lives; else `NoMemory`.
    pub fn end(&mut self, pid: u32, status: u8) -> Result<(), KernelFault>
        ensures state { (s : KernelState) → StandsAt self.old s
            → GivesOrLacks result self.new s (end_call s pid status) }
        ensures room { (s : KernelState) → StandsAt self.old s
            → LacksWhereGiven result (end_call s pid status) }
        ensures terminal { self.new.terminal ≡ self.old.terminal }
        ensures watch { self.new.watch ≡ self.old.watch }
    {
        if !self.machine.lives(pid) {
            return Err(KernelFault::NoProcess);
        }
        match self.exit(pid, status) {
            Ok(()) => Ok(()),
            Err(lack) => Err(KernelFault::NoMemory(lack)),
        }
    }

    /// A process starts a program: what it has set aside is closed (XSH exec, `FD_CLOEXEC`), and what it caught has its
    /// default action. `NoProcess` where no such process lives. Takes no memory.
    pub fn start_program(&mut self, pid: u32) -> Result<(), KernelFault>
        ensures state { (s : KernelState) → StandsAt self.old s
            → Gives result self.new (start_call s pid) }
        ensures terminal { self.new.terminal ≡ self.old.terminal }
        ensures watch { self.new.watch ≡ self.old.watch }
    {
        self.is_current = false;
        if !self.machine.lives(pid) {
            return Err(KernelFault::NoProcess);
        }
        self.machine.start_program(pid);
        start_program(&mut self.members, pid);
        Ok(())
    }

    /// Reads up to the buffer's length into its front, and says how many bytes these are; 0 is the end of the
    /// file, or an end of file that was typed (XSH read). The offset of a file's description moves by as many
    /// bytes. From the terminal one line is read at most.
    ///
    /// A process of a background group doesn't get what there is at the terminal (XBD 11.1.4): its group is sent SIGTTIN,
    /// which stops a process unless it ignores or catches that, and the read stays to be done. Where the reader ignores
    /// SIGTTIN, or its group is orphaned, the read fails and no signal is sent.
    ///
    /// `BadDescriptor` where the process has no such descriptor, or it isn't open for reading; `WouldWait` at an empty
    /// pipe that has a writer, at a terminal without a line that was handed over, and with SIGTTIN; `InputOutput` where a
    /// background read fails; `NoMemory` only in the place of SIGTTIN. But for SIGTTIN a refusal changes nothing; the
    /// buffer is as it was.
    #[tactic(auto, using(crate::proofs::Lacking::read_takes_no_memory))]
    pub fn read(
        &mut self,
        pid: u32,
        name: DescriptorRef,
        buf: &mut [u8],
    ) -> Result<usize, KernelFault>
        ensures state { (s : KernelState) → StandsAt self.old s
            → GivesReadOrLacks result buf.old buf.new self.new s (read_call s pid name (length buf.old)) }
        ensures room { (s : KernelState) → StandsAt self.old s
            → LacksWhereRaised result (raises_input s pid name) }
        ensures within { IfOk result (λ n. n ≤ length buf.old) }
        ensures terminal { self.new.terminal.bytes ≡ self.old.terminal.bytes }
        ensures watch { self.new.watch ≡ self.old.watch }
    {
        self.is_current = false;
        match self.machine.read(pid, name, buf) {
            Some(given) => given,
            None => self.read_terminal(pid, buf),
        }
    }

    /// Writes what can be written at once, and says how many bytes that is (XSH write). To a file, the null
    /// device or the terminal all bytes go. To a pipe at most `PIPE_BUF` bytes go whole or wait; of a longer
    /// write as many go as there is room for, at least one. A write of no bytes answers 0 and has no other
    /// result.
    ///
    /// `BadDescriptor` where the process has no such descriptor, or it isn't open for writing; `WouldWait` at
    /// a pipe without room; `BrokenPipe` at a pipe without a reader: the process was sent SIGPIPE, which ends it
    /// unless it ignores or catches that; `File` with `TooLarge` where a file would be too long; else `NoMemory`.
    ///
    /// A write to the terminal has no part in which processes can take a turn, so what was found of them goes on
    /// ([`Kernel::is_current`]).
    pub fn write(&mut self, pid: u32, number: u8, bytes: &[u8]) -> Result<usize, KernelFault>
        ensures state { (s : KernelState) → StandsAt self.old s
            → GivesOrLacks result self.new s (write_call s pid number bytes.now) }
        ensures room { (s : KernelState) → StandsAt self.old s
            → LacksWhereDone result (write_call s pid number bytes.now) }
        ensures terminal { Extends self.old.terminal.bytes self.new.terminal.bytes }
        ensures watch { self.new.watch ≡ self.old.watch }
        ensures current { (s : KernelState) → StandsAt self.old s
            → writes_terminal s.machine pid (DescriptorRef.Number number) ≡ true
            → self.new.is_current ≡ self.old.is_current }
    {
        let written = self.machine.write(pid, number, bytes);
        let Some(written) = written else {
            return show(&mut self.terminal, bytes);
        };
        self.is_current = false;
        match written {
            Err(KernelFault::BrokenPipe) => self.break_pipe(pid),
            given => given,
        }
    }

    /// Succeeds where all these children of a process have ended (XSH waitpid); [`Kernel::status`] tells how
    /// each ended. `NoProcess` where one of them is no child of the process; `WouldWait` where one lives.
    /// Takes no memory.
    pub fn wait(&self, pid: u32, awaited: &[u32]) -> Result<(), KernelFault>
        ensures { (s : KernelState) → StandsAt self.now s
            → result ≡ wait_answer s.machine.processes pid awaited.now }
    {
        self.machine.wait(pid, awaited)
    }

    /// Succeeds where each of these children of a process has ended or is stopped (XSH waitpid with WUNTRACED);
    /// [`Kernel::status`] tells which. `NoProcess` where one of them is no child of the process; `WouldWait` where one
    /// runs. Takes no memory.
    pub fn wait_untraced(&self, pid: u32, awaited: &[u32]) -> Result<(), KernelFault>
        ensures { (s : KernelState) → StandsAt self.now s
            → result ≡ untraced_answer s.machine.processes pid awaited.now }
    {
        untraced_answer(self.machine.processes(), pid, awaited)
    }

    /// Whether a process runs, is stopped or has ended; `None` where no process ever had this number. Takes
    /// no memory.
    pub fn status(&self, pid: u32) -> Option<Status>
        ensures { (s : KernelState) → StandsAt self.now s
            → result ≡ status_at s.machine.processes pid }
    {
        self.machine.status(pid)
    }

    /// When a process last started, stopped or went on (XBD chapter 3, Job ID): a greater number is a later one. 0 where no process ever
    /// had this number, and for the first one until it is stopped. Takes no memory.
    pub fn changed(&self, pid: u32) -> u64
        ensures { (s : KernelState) → StandsAt self.now s → result ≡ changed_at s.changes pid }
    {
        self.changes.at(pid)
    }

    /// The number of a process's parent (XSH getppid): 1 where the process that made it has ended; `None`
    /// where no process ever had this number. Takes no memory.
    pub fn parent(&self, pid: u32) -> Option<u32>
        ensures { (s : KernelState) → StandsAt self.now s
            → result ≡ parent_at s.machine.processes pid }
    {
        self.machine.parent(pid)
    }

    /// Whether the descriptor of a number refers to the terminal (XSH isatty); `false` where there is no such
    /// descriptor. Takes no memory.
    pub fn is_terminal(&self, pid: u32, number: u8) -> bool
        ensures { (s : KernelState) → StandsAt self.now s → result ≡ is_terminal s.machine pid
            (DescriptorRef.Number number) }
    {
        self.machine.is_terminal(pid, DescriptorRef::Number(number))
    }

    /// The terminal's bytes: what was written to it, and the echo of the keys. Takes no memory.
    pub fn terminal(&self) -> &[u8]
        ensures view { (s : KernelState) → StandsAt self.now s → result.now ≡ bytes_of s.terminal }
        ensures kept { result.now ≡ self.now.terminal.bytes }
    {
        self.terminal.terminal()
    }

    /// The files. Takes no memory.
    pub fn files(&self) -> &Files
        ensures { (s : KernelState) → StandsAt self.now s → result.now ≡ s.machine.files }
    {
        self.machine.files()
    }

    /// The open file descriptions that are kept, each with the count of the descriptors that refer to it: numbered ones,
    /// and those that are set aside. A description goes with the last of them, and its key may be used again. It is
    /// lent, and takes no memory.
    pub fn descriptions(&self) -> &Slab<Entry>
        ensures kept { result.now ≡ self.now.machine.entries }
        ensures counted { IsCounted result.now self.now.machine.held }
    {
        self.machine.descriptions()
    }

    /// The pipe of which the description at a key is an end; `None` where there is no such description, or it is no end
    /// of a pipe. It is lent, and takes no memory.
    pub fn pipe_of(&self, key: usize) -> Option<&Pipe>
        ensures { option_copied result ≡ pipe_at self.now.machine.entries self.now.machine.pipes key }
    {
        self.machine.pipe_of(key)
    }

    /// Whether a read would wait, and send no signal.
    fn read_waits(&self, pid: u32, name: DescriptorRef) -> bool
        ensures { (s : KernelState) → AgreesWith self.now.machine self.now.members self.now.terminal s → (n : ℕ)
            → result ≡ (waits (read_call s pid name n).answer && not (raises_input s pid name)) }
    {
        match self.machine.read_waits(pid, name) {
            Some(waits) => waits,
            None => self.terminal_waits(pid),
        }
    }

    /// Whether a write of so many bytes would wait.
    fn write_waits(&self, pid: u32, number: u8, count: usize) -> bool
        ensures { (s : KernelState) → AgreesWith self.now.machine self.now.members self.now.terminal s → (bytes : List ℕ) → length bytes ≡ count
            → result ≡ waits (write_call s pid number bytes).answer }
    {
        match self.machine.write_waits(pid, number, count) {
            Some(waits) => waits,
            None => false,
        }
    }

    /// Whether what a process is about to do would wait.
    fn next_waits(&self, pid: u32, next: Next<'_>) -> bool
        ensures { (s : KernelState) → AgreesWith self.now.machine self.now.members self.now.terminal s
            → result ≡ action_waits s pid (action_of next.entry) }
    {
        match next {
            Next::Read(name) => self.read_waits(pid, name),
            Next::Write(number, count) => self.write_waits(pid, number, count),
            Next::Wait(awaited) => waits(self.machine.wait(pid, awaited)),
            Next::WaitUntraced(awaited) => {
                waits(untraced_answer(self.machine.processes(), pid, awaited))
            },
            Next::Other => false,
        }
    }

    /// Whether a process runs, and what it is about to do would not wait.
    #[tactic(auto, unfolding(crate::specs::Turns::can_do))]
    fn can_move(&self, pid: u32, next: Next<'_>) -> bool
        ensures { (s : KernelState) → AgreesWith self.now.machine self.now.members self.now.terminal s
            → result ≡ can_do s pid (action_of next.entry) }
    {
        self.machine.is_running(pid) && !self.next_waits(pid, next)
    }

    /// Whether a process can take a turn: it is neither stopped nor ended, and what it is about to do would not answer
    /// `WouldWait`, unless it is a read that sends SIGTTIN. Takes no memory.
    #[tactic(auto, using(crate::proofs::Watching::agrees))]
    pub fn runnable(&self, pid: u32, next: Next<'_>) -> bool
        ensures { (s : KernelState) → StandsAt self.now s
            → result ≡ can_do s pid (action_of next.entry) }
    {
        self.can_move(pid, next)
    }
}
