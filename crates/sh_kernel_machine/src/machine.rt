//! The machine under the processes of a kernel.
mod asking;
mod copying;
mod processes;

ghost use Rattle.sh_base.specs.Memory.{no_memory};
ghost use Rattle.std.specs.Prelude.{◌≡◌};
ghost use Rattle.std.specs.Prelude.{true, length, ◌+◌, ◌<◌, ◌≤◌, ◌≢◌, IfErr, IfNone, IfOk, IfSome, None, false, OnErr, OnOk, Some, ℕ, List, option_copied, slice_get};

use crate::tables::{
    Tables, add_in, add_pipe_in, close_in, end_in, find_in, first_table, refer_in, rename_in,
    reserve_in,
};
use sh_files::{FileFault, Files, MAX_LENGTH, Opening};
use sh_kernel_descriptors::{
    Channel, Closing, Description, DescriptorRef, Entry, Held, KernelFault, Target, described,
    description_of, fault_of_file, has_reader, has_writer, is_allowed, is_description,
    is_of_terminal, may_share, move_to, read_file, read_pipe, target_of, the_terminal, write_node,
    write_pipe, write_start,
};
use sh_kernel_processes::{ProcessList, lives};
use slab::Slab;
use std::alloc::{AllocError, Global};
use std::collections::BTreeMap;
use std::marker::Model;

/// How a here-document is open.
const FOR_READING: Opening = Opening {
    read: true,
    write: false,
    create: false,
    exclusive: false,
    truncate: false,
};

/// The processes of a kernel and what they have open: descriptors, open file descriptions, pipes and files.
///
/// Processes, descriptions and pipes have numbers that go up by creation, processes from
/// [`FIRST_PID`](sh_kernel_descriptors::FIRST_PID); none is used again. A description goes with the last descriptor that
/// refers to it, and its key may be used again; a pipe goes with the last descriptor that refers to one of its ends.
///
/// The terminal is not here, but its descriptions are: a read or a write of it is refused with `BadDescriptor`, so ask
/// first (the answer `None` of [`Machine::read`] and [`Machine::write`]). Nor are the groups and the signals of the processes
/// that live: these are passed in, as members.
///
/// A machine stands at a state, and each call is one change of that state. After each refusal it stands at the same
/// state as before.
#[derive(Drop)]
pub struct Machine {
    alloc: Global,
    processes: ProcessList,
    /// The descriptors, each process's in a table of its own.
    held: Tables,
    entries: Slab<Entry>,
    /// An element of no size for each description that was ever made. How many there are is the number of the next.
    described: Vec<()>,
    pipes: BTreeMap<usize, Channel>,
    /// The same for each pipe that was ever made.
    piped: Vec<()>,
    files: Files,
}

impl Model for Machine {
    ghost use Rattle.std.specs.Prelude.{vec_len};
    ghost use Rattle.sh_kernel_machine.specs.Machine.{MachineKept};
    ghost use Rattle.sh_kernel_machine.specs.Tables.{AreOwn, held_in};
    ghost use Rattle.sh_kernel_descriptors.specs.Kept.{IsCounted, IsPaired};
    ghost use Rattle.sh_files_image.specs.Codes.{map_code};
    ghost use Rattle.std.specs.Coded.{codes};

    ghost Value = { MachineKept };

    ghost coded = { Prim.hlevel (codes, map_code) };

    ghost view = { λ m. record {
      processes = m.processes.all;
      held = held_in m.held.entries;
      entries = m.entries;
      described = vec_len m.described;
      pipes = m.pipes.entries;
      piped = vec_len m.piped;
      files = m.files;
    } };

    ghost invariant = { λ m. IsCounted m.entries (held_in m.held.entries) × IsPaired (vec_len m.piped) m.entries × AreOwn m.held.entries };
}

impl Machine {
    ghost use Rattle.sh_kernel_descriptors.specs.Naming.{after_renaming, with_number, with_pipe, close_call, dup_call, pipe_call, put_back, put_back_call, set_aside_call};
    ghost use Rattle.sh_kernel_descriptors.specs.Opening.{for_reading, here_call, open_call, open_result};
    ghost use Rattle.sh_files.specs.Nodes.{nameless, opened};
    ghost use Rattle.sh_kernel_descriptors.specs.Starting.{starting};
    ghost use Rattle.sh_kernel_descriptors.specs.Kept.{Among, description_at, target_at};
    ghost use Rattle.sh_kernel_descriptors.specs.Machine.{MachineState, after_close};
    ghost use Rattle.sh_kernel_descriptors.specs.Outcomes.{GivesReadTo, GivesTo, LacksWhereGiven};
    ghost use Rattle.sh_kernel_machine.specs.Machine.{GivesOrLacks, StandsAt};
    ghost use Rattle.sh_kernel_descriptors.specs.Reading.{on_pipes, read_call, read_target};
    ghost use Rattle.sh_kernel_descriptors.specs.Terminals.{reads_terminal, writes_terminal};
    ghost use Rattle.sh_kernel_descriptors.specs.Descriptors as names;
    ghost use Rattle.sh_kernel_descriptors.specs.Counts as counts;
    ghost use Rattle.std.specs.Option.{option_map};
    ghost use Rattle.sh_kernel_descriptors.specs.Writing.{write_call, write_end, write_file, write_pipe, write_target};
    ghost use Rattle.sh_kernel_descriptors.specs.Writing.{write_node as node_written};

    /// The first process, [`FIRST_PID`](sh_kernel_descriptors::FIRST_PID), whose descriptors 0, 1 and 2 refer to one
    /// description of the terminal, over these files. The only error is want of memory, after which the files are gone.
    pub fn new(alloc: Global, files: Files) -> Result<Self, AllocError>
        ensures { IfOk result (λ machine. StandsAt machine (starting files)) }
    {
        let processes = ProcessList::new(alloc)?;
        let mut entries = Slab::with_capacity(alloc, 1)?;
        let mut described = Vec::with_capacity(alloc, 1)?;
        let key = entries.insert_reserved(Entry {
            description: the_terminal(),
            count: 3,
            other: None,
        });
        described.push_reserved(());
        let held = first_table(alloc, key)?;
        Ok(Machine {
            alloc,
            processes,
            held,
            entries,
            described,
            pipes: BTreeMap::new(alloc),
            piped: Vec::new(alloc),
            files,
        })
    }

    /// Reads up to the buffer's length into its front, and says how many bytes these are; 0 is the end (XSH read). The
    /// offset of a file's description moves by as many.
    ///
    /// `None` where it would be a read of the terminal, which the machine doesn't have: then nothing has changed. `BadDescriptor` where the
    /// process has no such descriptor, or it isn't open for reading; `WouldWait` at an empty pipe that has a writer. After a refusal the buffer
    /// and the machine are as they were. Takes no memory.
    pub fn read(
        &mut self,
        pid: u32,
        name: DescriptorRef,
        buf: &mut [u8],
    ) -> Option<Result<usize, KernelFault>>
        ensures terminal { (s : MachineState) → StandsAt self.old s
            → IfNone result ((reads_terminal s pid name ≡ true) × (buf.new ≡ buf.old) × StandsAt self.new s) }
        ensures read { (s : MachineState) → StandsAt self.old s
            → IfSome result (λ given. (reads_terminal s pid name ≡ false)
            × GivesReadTo (StandsAt self.new) given buf.old buf.new (read_call s pid name (length buf.old))) }
        ensures within { IfSome result (λ given. IfOk given (λ n. n ≤ length buf.old)) }
    {
        let Some(h) = self.look(pid, name) else {
            return Some(Err(KernelFault::BadDescriptor));
        };
        let Some(description) = self.description_by(h) else {
            return Some(Err(KernelFault::BadDescriptor));
        };
        if !description.readable {
            return Some(Err(KernelFault::BadDescriptor));
        }
        if is_of_terminal(&description) {
            return None;
        }
        Some(self.read_target(h, description, buf))
    }

    /// Reads by a descriptor that is open for reading.
    fn read_target(
        &mut self,
        h: Held,
        description: Description,
        buf: &mut [u8],
    ) -> Result<usize, KernelFault>
        ensures gives { (s : MachineState) → StandsAt self.old s → Among h self.old.held
            → description_at self.old.entries h.key ≡ Some description
            → GivesReadTo (StandsAt self.new) result buf.old buf.new
            (read_target s (length buf.old) h.descriptor.description description.offset
            description.target) }
        ensures within { IfOk result (λ n. n ≤ length buf.old) }
    {
        match description.target {
            Target::File(node) => read_file(
                &self.files,
                &mut self.entries,
                h,
                node,
                description.offset,
                buf,
            ),
            Target::Terminal => Err(KernelFault::BadDescriptor),
            Target::Null => Ok(0),
            Target::ReadEnd(pipe) => {
                let writer = self.is_written(pipe, h.key);
                read_pipe(&mut self.pipes, pipe, writer, buf)
            },
            Target::WriteEnd(_) => Err(KernelFault::BadDescriptor),
        }
    }

    /// Closes descriptors of a process.
    fn close_each(&mut self, pid: u32, closing: Closing)
        ensures { (s : MachineState) → StandsAt self.old s
            → StandsAt self.new (after_close s pid closing) }
    {
        close_in(
            &mut self.held,
            pid,
            closing,
            &mut self.entries,
            &mut self.pipes,
        );
    }

    /// Closes all descriptors of a process, which keeps no table.
    fn end_table(&mut self, pid: u32)
        ensures { (s : MachineState) → StandsAt self.old s
            → StandsAt self.new (after_close s pid Closing.All) }
    {
        end_in(&mut self.held, pid, &mut self.entries, &mut self.pipes);
    }

    /// Writes to a pipe that has a reader.
    fn fill(&mut self, pipe: usize, bytes: &[u8]) -> Result<usize, KernelFault>
        ensures memory { IfErr result (λ fault. fault ≢ KernelFault.NoMemory no_memory) }
        ensures gives { (s : MachineState) → StandsAt self.old s
            → GivesTo (StandsAt self.new) result (on_pipes s (write_pipe s.pipes pipe bytes.now)) }
    {
        write_pipe(&mut self.pipes, pipe, bytes)
    }

    /// Whether the pipe whose end to write to is at a key has a reader.
    fn is_read(&self, pipe: usize, key: usize) -> bool
        ensures { (s : MachineState) → StandsAt self.now s
            → target_at self.now.entries key ≡ Some (Target.WriteEnd pipe)
            → result ≡ names.has_reader s.descriptors s.descriptions pipe }
    {
        has_reader(&self.entries, pipe, key)
    }

    /// Whether the pipe whose end to read from is at a key has a writer.
    fn is_written(&self, pipe: usize, key: usize) -> bool
        ensures { (s : MachineState) → StandsAt self.now s
            → target_at self.now.entries key ≡ Some (Target.ReadEnd pipe)
            → result ≡ names.has_writer s.descriptors s.descriptions pipe }
    {
        has_writer(&self.entries, pipe, key)
    }

    /// Writes to a pipe whose end to write to is at a key.
    fn write_end(&mut self, pipe: usize, key: usize, bytes: &[u8]) -> Result<usize, KernelFault>
        ensures memory { IfErr result (λ fault. fault ≢ KernelFault.NoMemory no_memory) }
        ensures gives { (s : MachineState) → StandsAt self.old s
            → target_at self.old.entries key ≡ Some (Target.WriteEnd pipe)
            → GivesTo (StandsAt self.new) result (write_end s pipe bytes.now) }
    {
        if self.is_read(pipe, key) {
            return self.fill(pipe, bytes);
        }
        Err(KernelFault::BrokenPipe)
    }

    /// Writes into a file by a descriptor, whose description's offset moves to the end of what was written.
    fn write_file(
        &mut self,
        h: Held,
        node: usize,
        start: usize,
        bytes: &[u8],
    ) -> Result<usize, KernelFault>
        requires { 0 < length bytes.now }
        ensures call { (s : MachineState) → StandsAt self.old s → Among h self.old.held
            → GivesOrLacks result self.new s
            (write_file s h.descriptor.description node bytes.now
            (node_written s.files node start bytes.now)) }
        ensures room { (s : MachineState) → StandsAt self.old s → LacksWhereGiven result
            (write_file s h.descriptor.description node bytes.now
            (node_written s.files node start bytes.now)) }
    {
        match write_node(&mut self.files, node, start, bytes) {
            Ok(end) => {
                move_to(&mut self.entries, h, end);
                Ok(bytes.len())
            },
            Err(fault) => Err(fault),
        }
    }

    /// Writes some bytes by a descriptor that is open for writing.
    fn write_target(
        &mut self,
        h: Held,
        description: Description,
        bytes: &[u8],
    ) -> Result<usize, KernelFault>
        requires { 0 < length bytes.now }
        ensures call { (s : MachineState) → StandsAt self.old s → Among h self.old.held
            → description_at self.old.entries h.key ≡ Some description
            → GivesOrLacks result self.new s
            (write_target s bytes.now h.descriptor.description description description.target) }
        ensures room { (s : MachineState) → StandsAt self.old s → LacksWhereGiven result
            (write_target s bytes.now h.descriptor.description description description.target) }
    {
        match description.target {
            Target::File(node) => {
                let start = write_start(&self.files, node, description.append, description.offset);
                self.write_file(h, node, start, bytes)
            },
            Target::Terminal => Err(KernelFault::BadDescriptor),
            Target::Null => Ok(bytes.len()),
            Target::ReadEnd(_) => Err(KernelFault::BadDescriptor),
            Target::WriteEnd(pipe) => self.write_end(pipe, h.key, bytes),
        }
    }

    /// Writes what can be written at once, and says how many bytes that is (XSH write): all to a file or the null
    /// device; to a pipe at most [`PIPE_BUF`](sh_pipe::PIPE_BUF) bytes go whole or not at all, and of a longer write as
    /// many as there is room for, at least one. A write of no bytes answers 0 and has no other result.
    ///
    /// `None` where it would be a write to the terminal, which the machine doesn't have: then nothing has changed. `BadDescriptor` where the
    /// process has no such descriptor, or it isn't open for writing; `WouldWait` at a pipe without room; `BrokenPipe` at a pipe without a reader, whose writer the caller
    /// then sends SIGPIPE; `File` with `TooLarge` where a file would be longer than [`MAX_LENGTH`] bytes; else
    /// `NoMemory`. After a refusal nothing has changed.
    pub fn write(
        &mut self,
        pid: u32,
        number: u8,
        bytes: &[u8],
    ) -> Option<Result<usize, KernelFault>>
        ensures terminal { (s : MachineState) → StandsAt self.old s
            → IfNone result ((writes_terminal s pid (DescriptorRef.Number number) ≡ true) × StandsAt self.new s) }
        ensures call { (s : MachineState) → StandsAt self.old s
            → IfSome result (λ given. (writes_terminal s pid (DescriptorRef.Number number) ≡ false)
            × GivesOrLacks given self.new s (write_call s pid number bytes.now)) }
        ensures room { (s : MachineState) → StandsAt self.old s
            → IfSome result (λ given. LacksWhereGiven given (write_call s pid number bytes.now)) }
        ensures unchanged { IfNone result (self.new ≡ self.old) }
    {
        let Some(h) = self.look(pid, DescriptorRef::Number(number)) else {
            return Some(Err(KernelFault::BadDescriptor));
        };
        let Some(description) = self.description_by(h) else {
            return Some(Err(KernelFault::BadDescriptor));
        };
        if !description.writable {
            return Some(Err(KernelFault::BadDescriptor));
        }
        if is_of_terminal(&description) {
            return None;
        }
        if bytes.is_empty() {
            return Some(Ok(0));
        }
        Some(self.write_target(h, description, bytes))
    }

    /// Closes a descriptor (XSH close). A description goes with its last descriptor, and a pipe with the last
    /// descriptor that refers to one of its ends. `BadDescriptor` where the process has none of this name; then nothing
    /// has changed. Takes no memory.
    pub fn close(&mut self, pid: u32, name: DescriptorRef) -> Result<(), KernelFault>
        ensures { (s : MachineState) → StandsAt self.old s
            → GivesTo (StandsAt self.new) result (close_call s pid name) }
    {
        let Some(_) = self.number_of(pid, name) else {
            return Err(KernelFault::BadDescriptor);
        };
        self.close_each(pid, Closing::Named(name));
        Ok(())
    }

    /// The process's descriptor of this name.
    fn look(&self, pid: u32, name: DescriptorRef) -> Option<Held>
        ensures none { (s : MachineState) → StandsAt self.now s → IfNone result
            (names.description_number s.descriptors pid name ≡ None) }
        ensures some { (s : MachineState) → StandsAt self.now s → IfSome result (λ h.
            names.description_number s.descriptors pid name ≡ Some h.descriptor.description) }
        ensures among { IfSome result (λ h. Among h self.now.held) }
        ensures found { result ≡ counts.find self.now.held pid name }
    {
        find_in(&self.held, pid, name)
    }

    /// The description to which a descriptor refers, which is kept.
    fn description_by(&self, h: Held) -> Option<Description>
        ensures kept { result ≡ description_at self.now.entries h.key }
        ensures numbered { (s : MachineState) → StandsAt self.now s → Among h self.now.held
            → result ≡ slice_get s.descriptions h.descriptor.description }
    {
        described(&self.entries, h.key)
    }

    /// The number of the description to which a descriptor refers.
    fn number_of(&self, pid: u32, name: DescriptorRef) -> Option<usize>
        ensures found { result ≡ option_map (λ h. h.descriptor.description) (counts.find self.now.held pid name) }
        ensures number { (s : MachineState) → StandsAt self.now s
            → result ≡ names.description_number s.descriptors pid name }
    {
        match self.look(pid, name) {
            Some(h) => Some(h.descriptor.description),
            None => None,
        }
    }

    /// Makes a number refer to the description to which a descriptor refers (XSH dup2); what the number referred to is
    /// closed first. A number that refers to that description already stays as it is.
    ///
    /// `BadDescriptor` where the process has no descriptor of this name; `TooManyDescriptors` where the number is not
    /// below [`MAX_DESCRIPTORS`](sh_kernel_descriptors::MAX_DESCRIPTORS); else `NoMemory`. After a refusal nothing has
    /// changed.
    pub fn dup(&mut self, pid: u32, name: DescriptorRef, to: u8) -> Result<(), KernelFault>
        ensures call { (s : MachineState) → StandsAt self.old s
            → GivesOrLacks result self.new s (dup_call s pid name to) }
        ensures room { (s : MachineState) → StandsAt self.old s
            → LacksWhereGiven result (dup_call s pid name to) }
    {
        let Some(h) = self.look(pid, name) else {
            return Err(KernelFault::BadDescriptor);
        };
        if !is_allowed(to) {
            return Err(KernelFault::TooManyDescriptors);
        }
        let number = self.number_of(pid, DescriptorRef::Number(to));
        if is_description(h.descriptor.description, number) {
            return Ok(());
        }
        self.refer_to(pid, to, h)?;
        Ok(())
    }

    /// Makes a number refer to the description to which a descriptor refers. The only error is want of memory, after
    /// which the machine is as it was.
    fn refer_to(&mut self, pid: u32, to: u8, h: Held) -> Result<(), AllocError>
        requires { Among h self.old.held
            × (counts.stays pid (Closing.Named (DescriptorRef.Number to)) h ≡ true) }
        ensures ok { (s : MachineState) → StandsAt self.old s
            → OnOk result (StandsAt self.new (with_number s pid to h.descriptor.description)) }
        ensures err { (s : MachineState) → StandsAt self.old s
            → OnErr result (StandsAt self.new s) }
    {
        if !may_share(&self.entries, h.key, 1) {
            return Err(AllocError);
        }
        reserve_in(&mut self.held, self.alloc, pid, 1)?;
        refer_in(
            &mut self.held,
            pid,
            to,
            h,
            &mut self.entries,
            &mut self.pipes,
        );
        Ok(())
    }

    /// Makes a pipe (XSH pipe) with room for [`CAPACITY`](sh_kernel_descriptors::CAPACITY) bytes. `from` then refers to
    /// the end to read from, and `to` to the end to write to; what these numbers referred to is closed.
    ///
    /// `NoProcess` where no such process lives; `TooManyDescriptors` where a number is not below
    /// [`MAX_DESCRIPTORS`](sh_kernel_descriptors::MAX_DESCRIPTORS); else `NoMemory`. After a refusal nothing has
    /// changed.
    pub fn pipe(&mut self, pid: u32, from: u8, to: u8) -> Result<(), KernelFault>
        ensures call { (s : MachineState) → StandsAt self.old s
            → GivesOrLacks result self.new s (pipe_call s pid from to) }
        ensures room { (s : MachineState) → StandsAt self.old s
            → LacksWhereGiven result (pipe_call s pid from to) }
    {
        if !lives(self.processes.as_slice(), pid) {
            return Err(KernelFault::NoProcess);
        }
        if !(is_allowed(from) && is_allowed(to)) {
            return Err(KernelFault::TooManyDescriptors);
        }
        self.make_pipe(pid, from, to)?;
        Ok(())
    }

    /// Makes two numbers refer to the ends of a new pipe. The only error is want of memory, after which the machine is
    /// as it was.
    fn make_pipe(&mut self, pid: u32, from: u8, to: u8) -> Result<(), AllocError>
        ensures ok { (s : MachineState) → StandsAt self.old s → OnOk result (StandsAt self.new
            (with_number (with_number (with_pipe s) pid from (length s.descriptions)) pid to
            (length s.descriptions + 1))) }
        ensures err { (s : MachineState) → StandsAt self.old s
            → OnErr result (StandsAt self.new s) }
    {
        reserve_in(&mut self.held, self.alloc, pid, 2)?;
        self.entries.reserve(2)?;
        self.described.reserve(2)?;
        self.piped.reserve(1)?;
        add_pipe_in(
            &mut self.held,
            self.alloc,
            pid,
            from,
            to,
            self.described.len(),
            self.piped.len(),
            &mut self.entries,
            &mut self.pipes,
        )?;
        self.described.push_reserved(());
        self.described.push_reserved(());
        self.piped.push_reserved(());
        Ok(())
    }

    /// Opens what a path names, in a working directory where the path doesn't begin with a slash, and makes a number
    /// refer to it (XSH open); what the number referred to is closed. With `append` each write goes to the file's end
    /// (`O_APPEND`).
    ///
    /// `NoProcess` where no such process lives; `TooManyDescriptors` where the number is not below
    /// [`MAX_DESCRIPTORS`](sh_kernel_descriptors::MAX_DESCRIPTORS); then what [`Files::open`] refuses, in its order, as
    /// `File`; `NoMemory` may come at any point. After a refusal nothing has changed: no file is made or emptied.
    pub fn open(
        &mut self,
        pid: u32,
        directory: &[u8],
        path: &[u8],
        how: Opening,
        append: bool,
        number: u8,
    ) -> Result<(), KernelFault>
        ensures { (s : MachineState) → StandsAt self.old s → GivesOrLacks result self.new s
            (open_call s pid directory.now path.now how append number) }
    {
        if !lives(self.processes.as_slice(), pid) {
            return Err(KernelFault::NoProcess);
        }
        if !is_allowed(number) {
            return Err(KernelFault::TooManyDescriptors);
        }
        self.open_at(pid, directory, path, how, append, number)
    }

    /// Opens what a path names for a process that lives, at a number that is allowed.
    fn open_at(
        &mut self,
        pid: u32,
        directory: &[u8],
        path: &[u8],
        how: Opening,
        append: bool,
        number: u8,
    ) -> Result<(), KernelFault>
        ensures { (s : MachineState) → StandsAt self.old s → GivesOrLacks result self.new s
            (open_result s pid how append number (opened s.files directory.now path.now how)) }
    {
        reserve_in(&mut self.held, self.alloc, pid, 1)?;
        self.entries.reserve(1)?;
        self.described.reserve(1)?;
        let node = match self.files.open(directory, path, how) {
            Ok(node) => node,
            Err(fault) => return Err(fault_of_file(fault)),
        };
        let target = target_of(&self.files, node);
        add_in(
            &mut self.held,
            pid,
            number,
            self.described.len(),
            description_of(target, how, append),
            &mut self.entries,
            &mut self.pipes,
        );
        self.described.push_reserved(());
        Ok(())
    }

    /// Makes a number refer to a here-document (XCU 2.7.4): a new file of these bytes, which no path names, open for
    /// reading alone; what the number referred to is closed.
    ///
    /// `NoProcess` where no such process lives; `TooManyDescriptors` where the number is not below
    /// [`MAX_DESCRIPTORS`](sh_kernel_descriptors::MAX_DESCRIPTORS); `File` with `TooLarge` where there are more than
    /// [`MAX_LENGTH`] bytes; else `NoMemory`. After a refusal nothing has changed.
    pub fn here_document(&mut self, pid: u32, bytes: &[u8], number: u8) -> Result<(), KernelFault>
        ensures call { (s : MachineState) → StandsAt self.old s
            → GivesOrLacks result self.new s (here_call s pid bytes.now number) }
        ensures room { (s : MachineState) → StandsAt self.old s
            → LacksWhereGiven result (here_call s pid bytes.now number) }
    {
        if !lives(self.processes.as_slice(), pid) {
            return Err(KernelFault::NoProcess);
        }
        if !is_allowed(number) {
            return Err(KernelFault::TooManyDescriptors);
        }
        self.here_at(pid, bytes, number)
    }

    /// Makes a number that is allowed refer to a here-document, for a process that lives.
    fn here_at(&mut self, pid: u32, bytes: &[u8], number: u8) -> Result<(), KernelFault>
        ensures call { (s : MachineState) → StandsAt self.old s → GivesOrLacks result self.new s
            (open_result s pid for_reading false number (nameless s.files bytes.now)) }
        ensures room { (s : MachineState) → StandsAt self.old s → LacksWhereGiven result
            (open_result s pid for_reading false number (nameless s.files bytes.now)) }
    {
        if bytes.len() > MAX_LENGTH {
            return Err(KernelFault::File(FileFault::TooLarge));
        }
        reserve_in(&mut self.held, self.alloc, pid, 1)?;
        self.entries.reserve(1)?;
        self.described.reserve(1)?;
        let body = Vec::from_slice(self.alloc, bytes)?;
        let node = match self.files.add_nameless(body) {
            Ok(node) => node,
            Err(fault) => return Err(fault_of_file(fault)),
        };
        let target = target_of(&self.files, node);
        add_in(
            &mut self.held,
            pid,
            number,
            self.described.len(),
            description_of(target, FOR_READING, false),
            &mut self.entries,
            &mut self.pipes,
        );
        self.described.push_reserved(());
        Ok(())
    }

    /// Sets a descriptor aside: it loses its number, and is named by the number of its description, which is the
    /// answer. A fork doesn't copy it, and a program that the process starts doesn't have it. `BadDescriptor` where the
    /// number refers to nothing; then nothing has changed. Takes no memory.
    pub fn set_aside(&mut self, pid: u32, number: u8) -> Result<usize, KernelFault>
        ensures { (s : MachineState) → StandsAt self.old s
            → GivesTo (StandsAt self.new) result (set_aside_call s pid number) }
    {
        let Some(k) = self.number_of(pid, DescriptorRef::Number(number)) else {
            return Err(KernelFault::BadDescriptor);
        };
        self.renumber(pid, DescriptorRef::Number(number), None);
        Ok(k)
    }

    /// Gives the first descriptor of this name another number, or none.
    fn renumber(&mut self, pid: u32, name: DescriptorRef, number: Option<u8>)
        ensures { (s : MachineState) → StandsAt self.old s → StandsAt self.new
            (record s { descriptors = after_renaming s.descriptors pid name number }) }
    {
        rename_in(&mut self.held, pid, name, number);
    }

    /// Gives a descriptor that was set aside a number again; what the number referred to is closed.
    ///
    /// `BadDescriptor` where the process has set aside no descriptor of this description; `TooManyDescriptors` where
    /// the number is not below [`MAX_DESCRIPTORS`](sh_kernel_descriptors::MAX_DESCRIPTORS). After a refusal nothing has
    /// changed. Takes no memory.
    pub fn put_back(&mut self, pid: u32, aside: usize, number: u8) -> Result<(), KernelFault>
        ensures { (s : MachineState) → StandsAt self.old s
            → GivesTo (StandsAt self.new) result (put_back_call s pid aside number) }
    {
        let Some(_) = self.number_of(pid, DescriptorRef::Aside(aside)) else {
            return Err(KernelFault::BadDescriptor);
        };
        if !is_allowed(number) {
            return Err(KernelFault::TooManyDescriptors);
        }
        self.give_back(pid, aside, number);
        Ok(())
    }

    /// Gives the first descriptor of a description that was set aside a number; what the number referred to is closed.
    fn give_back(&mut self, pid: u32, aside: usize, number: u8)
        ensures { (s : MachineState) → StandsAt self.old s
            → StandsAt self.new (put_back s pid aside number) }
    {
        self.close_each(pid, Closing::Named(DescriptorRef::Number(number)));
        self.renumber(pid, DescriptorRef::Aside(aside), Some(number));
    }
}
