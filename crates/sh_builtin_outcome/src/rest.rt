//! What a built-in asks of the kernel, and what it has left to do behind the answer.
ghost use Rattle.std.specs.Prelude.{◌≡◌, IfOk};
ghost use Rattle.sh_builtin_outcome.specs.Rests.{ask_of, asker_of};

use crate::builtin::Builtin;
use sh_base::NoMemory;
use sh_base::sequence::{Sequence, Text, copies_of};
use sh_builtin_regular::LineReader;
use sh_builtin_wait::{Awaited, ContinuedJob, KillAsk};
use std::alloc::Global;

/// What a built-in asks of the kernel.
#[derive(Clone, Copy, Debug, PartialEq, Eq)]
pub enum Ask {
    /// Bytes by descriptor 0 (XCU read).
    Read,
    /// The end of processes, or a signal that the shell has caught (XCU wait).
    Wait,
    /// That a signal is sent (XCU kill).
    Signal,
    /// That a job goes on (XCU bg, fg).
    Continue,
}

/// The jobs that `bg` or `fg` continues: each of them is sent CONT in a turn of its own, once their text was written (XCU bg, fg).
#[derive(Debug, Drop)]
pub enum Continuation {
    /// `bg`: these jobs go on in the background. Then these messages are written, each whole, and this is the status.
    Background {
        jobs: Sequence<ContinuedJob>,
        messages: Sequence<Text>,
        status: u8,
    },
    /// `fg`: this job goes on in the foreground. Then the shell waits for it.
    Foreground(ContinuedJob),
}

/// A job that `fg` has brought to the foreground, for which a shell waits (XCU fg).
#[derive(Debug, Drop)]
pub struct JobWait {
    /// The number of the job.
    pub number: usize,
    /// Its processes, the last of which gives the status.
    pub processes: Sequence<u32>,
}

/// What a built-in has left to do behind the kernel's answer to what it asks.
#[derive(Debug, Drop)]
pub enum BuiltinRest {
    /// It asks for bytes of this line. Once the line is whole the variables that it is for have its fields (XCU read).
    Reads(LineReader),
    /// It asks for the end of this (XCU wait).
    Waits(Awaited),
    /// It asks for a signal to what an operand names, and then to what the next ones name (XCU kill).
    Kills(KillAsk),
    /// It asks for these jobs to go on, one after another (XCU bg, fg).
    Continues(Continuation),
}

impl Continuation {
    /// A copy, which is equal. The only error is want of memory.
    pub fn copy(&self, alloc: Global) -> Result<Continuation, NoMemory>
        ensures { IfOk result (λ copy. copy ≡ self.now) }
    {
        match self {
            Continuation::Background {
                jobs,
                messages,
                status,
            } => {
                let jobs = Sequence::copy_of(alloc, jobs.as_slice())?;
                let messages = Sequence::from_vec(copies_of(alloc, messages.as_slice())?);
                Ok(Continuation::Background {
                    jobs,
                    messages,
                    status: *status,
                })
            },
            Continuation::Foreground(job) => Ok(Continuation::Foreground(*job)),
        }
    }
}

impl JobWait {
    /// A copy, which is equal. The only error is want of memory.
    pub fn copy(&self, alloc: Global) -> Result<JobWait, NoMemory>
        ensures { IfOk result (λ copy. copy ≡ self.now) }
    {
        let processes = Sequence::copy_of(alloc, self.processes.as_slice())?;
        Ok(JobWait {
            number: self.number,
            processes,
        })
    }
}

impl BuiltinRest {
    /// What is asked of the kernel. Takes no memory.
    pub fn ask(&self) -> Ask
        ensures { result ≡ ask_of self.now }
    {
        match self {
            BuiltinRest::Reads(_) => Ask::Read,
            BuiltinRest::Waits(_) => Ask::Wait,
            BuiltinRest::Kills(_) => Ask::Signal,
            BuiltinRest::Continues(_) => Ask::Continue,
        }
    }

    /// The built-in that asks. Takes no memory.
    pub fn builtin(&self) -> Builtin
        ensures { result ≡ asker_of self.now }
    {
        match self {
            BuiltinRest::Reads(_) => Builtin::Read,
            BuiltinRest::Waits(_) => Builtin::Wait,
            BuiltinRest::Kills(_) => Builtin::Kill,
            BuiltinRest::Continues(Continuation::Background { .. }) => Builtin::Bg,
            BuiltinRest::Continues(Continuation::Foreground(_)) => Builtin::Fg,
        }
    }

    /// A copy, which is equal. The only error is want of memory.
    pub fn copy(&self, alloc: Global) -> Result<BuiltinRest, NoMemory>
        ensures { IfOk result (λ copy. copy ≡ self.now) }
    {
        match self {
            BuiltinRest::Reads(reader) => Ok(BuiltinRest::Reads(reader.copy(alloc)?)),
            BuiltinRest::Waits(awaited) => Ok(BuiltinRest::Waits(awaited.copy(alloc)?)),
            BuiltinRest::Kills(ask) => Ok(BuiltinRest::Kills(ask.copy(alloc)?)),
            BuiltinRest::Continues(continuation) => {
                Ok(BuiltinRest::Continues(continuation.copy(alloc)?))
            },
        }
    }
}
