//! `calls STEPS ANSWERS`: calls of processes on a kernel with a directory and one file. The first word of a step is the process.
use crate::steps::{count, is, process, say, small, truth, word};
use sh_files::{Files, Opening};
use sh_kernel::{DescriptorRef, Kernel, KernelFault, Next, Status};
use std::alloc::Global;
use test_rows::RowFault;

const IMAGE: &[u8] = b"psh image 1\ndir /bin\nfile /bin/cat --x 1\nc\nfile /f rw- 6\nabcdef\nend\n";

/// How a file is opened that a word of a step names: `r` to read it, `w` to write it anew, `u` to write it as it is, `x` to write one that
/// isn't there yet. `a` is as `u`, and appends.
pub(crate) fn opening(step: &[u8], place: usize) -> Opening {
    let read = is(step, place, "r");
    let exclusive = is(step, place, "x");
    Opening {
        read,
        write: !read,
        create: !read,
        exclusive,
        truncate: exclusive || is(step, place, "w"),
    }
}

/// A kernel, and the description that was set aside last.
#[derive(Drop)]
struct Machine {
    kernel: Kernel,
    aside: usize,
}

/// What a call answers that has nothing to give.
type Done = Result<(), KernelFault>;

impl Machine {
    /// Sets a descriptor aside.
    fn set_aside(&mut self, pid: u32, number: u8) -> Done {
        self.aside = self.kernel.set_aside(pid, number)?;
        Ok(())
    }

    /// Makes a call that changes descriptors, where the step is one.
    fn change(&mut self, step: &[u8]) -> Option<Done> {
        let pid = process(step, 0);
        let number = small(step, 2);
        if is(step, 1, "close") {
            return Some(self.kernel.close(pid, DescriptorRef::Number(number)));
        }
        if is(step, 1, "dup") {
            return Some(
                self.kernel
                    .dup(pid, DescriptorRef::Number(number), small(step, 3)),
            );
        }
        if is(step, 1, "pipe") {
            return Some(self.kernel.pipe(pid, number, small(step, 3)));
        }
        if is(step, 1, "aside") {
            return Some(self.set_aside(pid, number));
        }
        if is(step, 1, "back") {
            return Some(self.kernel.put_back(pid, self.aside, number));
        }
        None
    }

    /// Makes a call that opens something, or of a process as a whole, where the step is one.
    fn begin(&mut self, step: &[u8]) -> Option<Done> {
        let pid = process(step, 0);
        if is(step, 1, "open") {
            let number = small(step, 5);
            let appends = is(step, 4, "a");
            return Some(
                self.kernel.open(
                    pid,
                    word(step, 2),
                    word(step, 3),
                    opening(step, 4),
                    appends,
                    number,
                ),
            );
        }
        if is(step, 1, "here") {
            return Some(
                self.kernel
                    .here_document(pid, word(step, 2), small(step, 3)),
            );
        }
        if is(step, 1, "start") {
            return Some(self.kernel.start_program(pid));
        }
        if is(step, 1, "end") {
            return Some(self.kernel.end(pid, small(step, 2)));
        }
        None
    }

    /// Makes so many processes, and gives the last one's number where they rise one by one.
    fn fork(&mut self, pid: u32, times: usize) -> Result<u32, KernelFault> {
        let mut last = self.kernel.fork(pid)?;
        for _ in 1..times {
            let next = self.kernel.fork(pid)?;
            if next != last.saturating_add(1) {
                return Ok(0);
            }
            last = next;
        }
        Ok(last)
    }
}

/// Says why a call is refused.
fn say_fault(alloc: Global, said: &mut Vec<u8>, fault: KernelFault) -> Result<(), RowFault> {
    if let KernelFault::NoMemory(_) = fault {
        return Err(RowFault::NoMemory);
    }
    let text = format!(in alloc; "{fault}")?;
    say(said, text.as_bytes())?;
    Ok(())
}

/// Says what a call answers that has nothing to give.
fn say_done(alloc: Global, said: &mut Vec<u8>, done: Done) -> Result<(), RowFault> {
    match done {
        Ok(()) => Ok(say(said, b"ok")?),
        Err(fault) => say_fault(alloc, said, fault),
    }
}

/// Says a number, or why there is none.
fn say_number(
    alloc: Global,
    said: &mut Vec<u8>,
    number: Result<usize, KernelFault>,
) -> Result<(), RowFault> {
    match number {
        Ok(number) => {
            let text = format!(in alloc; "{number}")?;
            Ok(say(said, text.as_bytes())?)
        },
        Err(fault) => say_fault(alloc, said, fault),
    }
}

/// Says the bytes that a read of so many gets, or with `many` how many they are where each is `x`.
fn read(
    alloc: Global,
    kernel: &mut Kernel,
    step: &[u8],
    said: &mut Vec<u8>,
) -> Result<(), RowFault> {
    let mut buffer = vec![in alloc; 0u8; count(step, 3)]?;
    let name = DescriptorRef::Number(small(step, 2));
    let got = match kernel.read(process(step, 0), name, &mut buffer) {
        Ok(got) => got,
        Err(fault) => return say_fault(alloc, said, fault),
    };
    let bytes = buffer.get(..got).unwrap_or(b"?");
    if is(step, 4, "many") && bytes.iter().all(|byte| *byte == b'x') {
        return say_number(alloc, said, Ok(got));
    }
    Ok(say(said, bytes)?)
}

/// Says how many bytes a write takes: of a word, or with `many` of so many `x`.
fn write(
    alloc: Global,
    kernel: &mut Kernel,
    step: &[u8],
    said: &mut Vec<u8>,
) -> Result<(), RowFault> {
    let number = small(step, 2);
    let bytes = if is(step, 4, "many") {
        vec![in alloc; b'x'; count(step, 3)]?
    } else {
        word(step, 3).to_vec(alloc)?
    };
    say_number(alloc, said, kernel.write(process(step, 0), number, &bytes))
}

/// What a process would do next: `read N`, `write N SIZE`, `wait PID` or another thing, from a place of the step on.
fn next<'a>(step: &[u8], awaited: &'a [u32]) -> Next<'a> {
    if is(step, 2, "read") {
        return Next::Read(DescriptorRef::Number(small(step, 3)));
    }
    if is(step, 2, "write") {
        return Next::Write(small(step, 3), count(step, 4));
    }
    if is(step, 2, "wait") {
        return Next::Wait(awaited);
    }
    Next::Other
}

/// Says how a process has ended, or that it hasn't.
fn say_status(alloc: Global, said: &mut Vec<u8>, status: Option<Status>) -> Result<(), RowFault> {
    let text = match status {
        None => format!(in alloc; "none")?,
        Some(Status::Running) => format!(in alloc; "running")?,
        Some(Status::Stopped(signal)) => format!(in alloc; "stopped {signal}")?,
        Some(Status::Exited(status)) => format!(in alloc; "exited {status}")?,
        Some(Status::Signaled(signal)) => format!(in alloc; "signaled {signal}")?,
    };
    Ok(say(said, text.as_bytes())?)
}

/// Says what a kernel answers to a question, where the step is one.
fn ask(alloc: Global, kernel: &Kernel, step: &[u8], said: &mut Vec<u8>) -> Result<(), RowFault> {
    let pid = process(step, 0);
    if is(step, 1, "wait") {
        return say_done(alloc, said, kernel.wait(pid, &[process(step, 2)]));
    }
    if is(step, 1, "status") {
        return say_status(alloc, said, kernel.status(pid));
    }
    if is(step, 1, "parent") {
        let parent = kernel.parent(pid).unwrap_or(0);
        let text = format!(in alloc; "{parent}")?;
        return Ok(say(said, text.as_bytes())?);
    }
    if is(step, 1, "is-terminal") {
        return Ok(say(said, truth(kernel.is_terminal(pid, small(step, 2))))?);
    }
    if is(step, 1, "can") {
        let awaited = [process(step, 3)];
        return Ok(say(said, truth(kernel.runnable(pid, next(step, &awaited))))?);
    }
    if is(step, 1, "terminal") {
        return Ok(say(said, kernel.terminal())?);
    }
    let file = kernel.files().read(count(step, 2), 0, 9);
    Ok(say(said, file.unwrap_or(b"no such call"))?)
}

/// Takes a step, and says what comes of it.
fn take(
    alloc: Global,
    machine: &mut Machine,
    step: &[u8],
    said: &mut Vec<u8>,
) -> Result<(), RowFault> {
    if is(step, 1, "read") {
        return read(alloc, &mut machine.kernel, step, said);
    }
    if is(step, 1, "write") {
        return write(alloc, &mut machine.kernel, step, said);
    }
    if is(step, 1, "fork") {
        let made = machine.fork(process(step, 0), count(step, 2));
        return match made {
            Ok(pid) => say_number(alloc, said, Ok(usize::try_from(pid).unwrap_or(0))),
            Err(fault) => say_fault(alloc, said, fault),
        };
    }
    if let Some(done) = machine.change(step) {
        return say_done(alloc, said, done);
    }
    if let Some(done) = machine.begin(step) {
        return say_done(alloc, said, done);
    }
    ask(alloc, &machine.kernel, step, said)
}

/// Takes all steps.
fn take_all(alloc: Global, machine: &mut Machine, steps: &[u8]) -> Result<Vec<u8>, RowFault> {
    let mut said = Vec::new(alloc);
    for step in steps.split(|byte| *byte == b';') {
        take(alloc, machine, step, &mut said)?;
    }
    Ok(said)
}

/// What calls answer, one after another.
pub(crate) fn answers(alloc: Global, steps: &[u8]) -> Result<Vec<u8>, RowFault> {
    let Ok(files) = Files::from_image(alloc, IMAGE) else {
        return Err(RowFault::NoMemory);
    };
    let mut machine = Machine {
        kernel: Kernel::new(alloc, files)?,
        aside: 0,
    };
    let said = take_all(alloc, &mut machine, steps);
    drop(machine);
    said
}
