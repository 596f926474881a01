//! What can be asked of a machine. Nothing here takes memory.
ghost use Rattle.std.specs.Prelude.{◌≡◌, ℕ, List, Some, length, option_copied, IfNone, IfSome, true, false};

use super::Machine;
use sh_files::Files;
use sh_kernel_descriptors::{
    Description, DescriptorRef, Entry, KernelFault, Target, is_of_terminal, pipe_named,
    read_pipe_waits, write_pipe_waits,
};
use sh_kernel_processes::{
    Process, Status, all_children, all_ended, is_running, parent_at, status_at,
};
use sh_pipe::Pipe;
use slab::Slab;

impl Machine {
    ghost use Rattle.sh_kernel_descriptors.specs.Kept.{IsCounted, description_at, pipe_at};
    ghost use Rattle.sh_kernel_descriptors.specs.Machine.{MachineState, wait_answer};
    ghost use Rattle.sh_kernel_processes.specs.Processes.{parent_at, status_at};
    ghost use Rattle.sh_kernel_descriptors.specs.Reading.{read_call, read_target};
    ghost use Rattle.sh_kernel_descriptors.specs.Terminals.{open_description, is_terminal, reads_terminal, writes_terminal};
    ghost use Rattle.sh_kernel_descriptors.specs.Waiting.{waits};
    ghost use Rattle.sh_kernel_processes.specs.Processes.{is_running};
    ghost use Rattle.sh_kernel_descriptors.specs.Writing.{write_call, write_target};
    ghost use Rattle.sh_kernel_machine.specs.Machine.{StandsAt};

    /// Succeeds where all these children of a process have ended (XSH waitpid); [`Machine::status`] tells how each
    /// ended. `NoProcess` where one of them is no child of the process; `WouldWait` where one lives. Changes nothing,
    /// and takes no memory.
    pub fn wait(&self, pid: u32, awaited: &[u32]) -> Result<(), KernelFault>
        ensures { result ≡ wait_answer self.now.processes pid awaited.now }
    {
        if !all_children(self.processes.as_slice(), pid, awaited) {
            return Err(KernelFault::NoProcess);
        }
        if !all_ended(self.processes.as_slice(), awaited) {
            return Err(KernelFault::WouldWait);
        }
        Ok(())
    }

    /// All processes that ever were, by their numbers from [`FIRST_PID`](sh_kernel_descriptors::FIRST_PID) on. They are
    /// lent; takes no memory.
    pub fn processes(&self) -> &[Process]
        ensures { result.now ≡ self.now.processes }
    {
        self.processes.as_slice()
    }

    /// Whether a process runs, is stopped or has ended; `None` where no process ever had this number. Takes
    /// no memory.
    pub fn status(&self, pid: u32) -> Option<Status>
        ensures { result ≡ status_at self.now.processes pid }
    {
        status_at(self.processes.as_slice(), pid)
    }

    /// The number of a process's parent (XSH getppid): 1 where the process that made it has ended; `None`
    /// where no process ever had this number. Takes no memory.
    pub fn parent(&self, pid: u32) -> Option<u32>
        ensures { result ≡ parent_at self.now.processes pid }
    {
        parent_at(self.processes.as_slice(), pid)
    }

    /// The files, lent. Takes no memory.
    pub fn files(&self) -> &Files
        ensures { result.now ≡ self.now.files }
    {
        &self.files
    }

    /// The open file descriptions that are kept, each under its key with the count of the descriptors that refer to it:
    /// numbered ones, and those that are set aside. A description goes with the last of them, and its key may be used
    /// again. They are lent; takes no memory.
    pub fn descriptions(&self) -> &Slab<Entry>
        ensures kept { result.now ≡ self.now.entries }
        ensures counted { IsCounted self.now.entries self.now.held }
    {
        &self.entries
    }

    /// The pipe of which the description at a key is an end; `None` where there is no such description, or it is no end
    /// of a pipe. It is lent; takes no memory.
    pub fn pipe_of(&self, key: usize) -> Option<&Pipe>
        ensures { option_copied result ≡ pipe_at self.now.entries self.now.pipes key }
    {
        let pipe = pipe_named(&self.entries, key)?;
        match self.pipes.get(&pipe) {
            Some(channel) => Some(channel.pipe()),
            None => None,
        }
    }

    /// The description to which a descriptor refers.
    fn description_of(&self, pid: u32, name: DescriptorRef) -> Option<Description>
        ensures { (s : MachineState) → StandsAt self.now s → result ≡ open_description s pid name }
    {
        match self.look(pid, name) {
            Some(h) => self.description_by(h),
            None => None,
        }
    }

    /// Whether a descriptor refers to the terminal (XSH isatty); `false` where there is none of this name.
    /// Takes no memory.
    pub fn is_terminal(&self, pid: u32, name: DescriptorRef) -> bool
        ensures { (s : MachineState) → StandsAt self.now s → result ≡ is_terminal s pid name }
    {
        match self.description_of(pid, name) {
            Some(description) => is_of_terminal(&description),
            None => false,
        }
    }

    /// Whether a read by the description at a key would wait.
    fn read_target_waits(&self, key: usize, description: Description) -> bool
        ensures { (s : MachineState) → StandsAt self.now s → (n k : ℕ)
            → description_at self.now.entries key ≡ Some description → result
            ≡ waits (read_target s n k description.offset description.target).answer }
    {
        match description.target {
            Target::ReadEnd(pipe) => {
                let writer = self.is_written(pipe, key);
                read_pipe_waits(&self.pipes, pipe, writer)
            },
            Target::File(_) => false,
            Target::Terminal => false,
            Target::Null => false,
            Target::WriteEnd(_) => false,
        }
    }

    /// Whether [`Machine::read`] would answer `WouldWait`, of however many bytes it is; `None` where it would be a read of the terminal. Takes no
    /// memory.
    pub fn read_waits(&self, pid: u32, name: DescriptorRef) -> Option<bool>
        ensures terminal { (s : MachineState) → StandsAt self.now s
            → IfNone result (reads_terminal s pid name ≡ true) }
        ensures waits { (s : MachineState) → StandsAt self.now s → (n : ℕ)
            → IfSome result (λ waiting. (reads_terminal s pid name ≡ false)
            × (waiting ≡ waits (read_call s pid name n).answer)) }
    {
        let Some(h) = self.look(pid, name) else {
            return Some(false);
        };
        let Some(description) = self.description_by(h) else {
            return Some(false);
        };
        if !description.readable {
            return Some(false);
        }
        if is_of_terminal(&description) {
            return None;
        }
        Some(self.read_target_waits(h.key, description))
    }

    /// Whether a write by the description at a key would wait.
    fn write_target_waits(&self, key: usize, description: Description, count: usize) -> bool
        ensures { (s : MachineState) → StandsAt self.now s → (bytes : List ℕ) (k : ℕ)
            → length bytes ≡ count → description_at self.now.entries key ≡ Some description
            → result ≡ waits (write_target s bytes k description description.target).answer }
    {
        match description.target {
            Target::WriteEnd(pipe) => {
                if !self.is_read(pipe, key) {
                    return false;
                }
                write_pipe_waits(&self.pipes, pipe, count)
            },
            Target::File(_) => false,
            Target::Terminal => false,
            Target::Null => false,
            Target::ReadEnd(_) => false,
        }
    }

    /// Whether [`Machine::write`] of so many bytes would answer `WouldWait`, whatever they are; `None` where it would be a write to the terminal.
    /// Takes no memory.
    pub fn write_waits(&self, pid: u32, number: u8, count: usize) -> Option<bool>
        ensures terminal { (s : MachineState) → StandsAt self.now s
            → IfNone result (writes_terminal s pid (DescriptorRef.Number number) ≡ true) }
        ensures waits { (s : MachineState) → StandsAt self.now s → (bytes : List ℕ)
            → length bytes ≡ count → IfSome result (λ waiting. (writes_terminal s pid (DescriptorRef.Number number) ≡ false)
            × (waiting ≡ waits (write_call s pid number bytes).answer)) }
    {
        let Some(h) = self.look(pid, DescriptorRef::Number(number)) else {
            return Some(false);
        };
        let Some(description) = self.description_by(h) else {
            return Some(false);
        };
        if !description.writable {
            return Some(false);
        }
        if is_of_terminal(&description) {
            return None;
        }
        if count == 0 {
            return Some(false);
        }
        Some(self.write_target_waits(h.key, description, count))
    }

    /// Whether a process is neither stopped nor ended; `false` where no process ever had this number. Takes no memory.
    pub fn is_running(&self, pid: u32) -> bool
        ensures { result ≡ is_running (status_at self.now.processes pid) }
    {
        is_running(status_at(self.processes.as_slice(), pid))
    }
}
