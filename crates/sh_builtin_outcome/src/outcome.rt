//! What built-ins come to.
ghost use Rattle.std.specs.Prelude.{◌≡◌, IfOk, option_map};
ghost use Rattle.sh_builtin_outcome.specs.Rests.{ask_of};
ghost use Rattle.sh_builtin_outcome.specs.Outcomes.{continuing, done, failure, foreground, is_error, killing, left, misuse, output, outcome_of, reading, refusal, refused_with, rest_in, running, saying, shell_status, waiting, with_signals};

use crate::builtin::Builtin;
use crate::message::{fault_line, status_of};
use crate::rest::{Ask, BuiltinRest, Continuation, JobWait};
use sh_base::NoMemory;
use sh_base::sequence::{Sequence, Text};
use sh_builtin_environment::BuiltinFault;
use sh_builtin_regular::LineReader;
use sh_builtin_wait::{Awaited, KillAsk};
use sh_kernel_processes::SignalSet;
use std::alloc::Global;

/// How commands are left before their end.
#[derive(Clone, Copy, Debug, PartialEq, Eq)]
pub enum Leave {
    /// The shell is left with this status, by `exit` (XCU 2.15), or by a failure under `set -e`.
    Exit(u8),
    /// An error ends a shell that isn't interactive, with this status (XCU 2.8.1). Its message is written before.
    Fault(u8),
    /// A function is left with this status, by `return` (2.15); outside of a function the shell is left.
    Return(u8),
    /// A loop is left: the one with so many other loops inside it around the place, so 0 is the innermost.
    Break(u64),
    /// A run of a loop's body is left, and the loop goes on: the one with so many other loops inside it.
    Continue(u64),
}

impl Leave {
    /// The status of a shell that is left so; 0 for break and continue, which leave no shell. Takes no memory.
    pub fn shell_status(self) -> u8
        ensures { result ≡ shell_status self }
    {
        match self {
            Leave::Exit(status) => status,
            Leave::Fault(status) => status,
            Leave::Return(status) => status,
            Leave::Break(_) => 0,
            Leave::Continue(_) => 0,
        }
    }
}

/// Where a text comes from that a built-in has run.
#[derive(Clone, Copy, Debug, PartialEq, Eq)]
pub enum TextOrigin {
    /// The operands of `eval` (XCU 2.15).
    Eval,
    /// The file of a dot script, which `return` ends (XCU 2.15 dot, return).
    DotScript,
}

/// How a text is run that a built-in has run in its place.
#[derive(Clone, Copy, Debug, PartialEq, Eq)]
pub struct TextRun {
    /// Where it comes from.
    pub origin: TextOrigin,
    /// Whether a text that is refused ends a shell that isn't interactive (XCU 2.8.1): not where `command` runs the built-in.
    pub is_special: bool,
}

/// How a built-in ends.
#[derive(Debug, Drop)]
pub enum Completion {
    /// It is done with this status.
    Done(u8),
    /// Commands are left.
    Left(Leave),
    /// This text is run in its place, and the built-in has the status of the text's last command (XCU 2.15 dot, eval).
    Runs(TextRun, Text),
    /// It asks something of the kernel first, and this is what it does behind the answer.
    Asks(BuiltinRest),
    /// It has brought this job to the foreground. The shell waits for it, and the built-in has the job's status (XCU fg).
    Foreground(JobWait),
}

/// What a built-in comes to, beside what it changes of the shell. In this order it sets what the process does with `signals`,
/// writes `out`, writes each message of `err`, and ends.
#[derive(Debug, Drop)]
pub struct Outcome {
    /// The signals whose traps it has set: before all else the process is to do with each of them what its trap says (XCU 2.15 trap).
    pub signals: SignalSet,
    /// The bytes that are written to descriptor 1, in one write. Where there are none, nothing is written, also to a closed descriptor.
    pub out: Text,
    /// The messages that are then written to descriptor 2, each in a write of its own. Each is whole, with `psh: ` and a newline.
    pub err: Sequence<Text>,
    /// How it ends.
    pub status: Completion,
}

impl Outcome {
    /// Done with a status.
    pub fn done(alloc: Global, status: u8) -> Outcome
        ensures { result ≡ done status }
    {
        Outcome {
            signals: SignalSet::new(),
            out: Sequence::new(alloc),
            err: Sequence::new(alloc),
            status: Completion::Done(status),
        }
    }

    /// Writes a text, and is done with 0.
    pub fn output(alloc: Global, text: Text) -> Outcome
        ensures { result ≡ output text }
    {
        Outcome {
            signals: SignalSet::new(),
            out: text,
            err: Sequence::new(alloc),
            status: Completion::Done(0),
        }
    }

    /// Writes a text and messages, and is done with a status.
    pub fn saying(out: Text, messages: Sequence<Text>, status: u8) -> Outcome
        ensures { result ≡ saying out messages status }
    {
        Outcome {
            signals: SignalSet::new(),
            out,
            err: messages,
            status: Completion::Done(status),
        }
    }

    /// Leaves commands.
    pub fn left(alloc: Global, leave: Leave) -> Outcome
        ensures { result ≡ left leave }
    {
        Outcome {
            signals: SignalSet::new(),
            out: Sequence::new(alloc),
            err: Sequence::new(alloc),
            status: Completion::Left(leave),
        }
    }

    /// Has a text run in its place.
    pub fn running(alloc: Global, origin: TextOrigin, text: Text) -> Outcome
        ensures { result ≡ running origin text }
    {
        Outcome {
            signals: SignalSet::new(),
            out: Sequence::new(alloc),
            err: Sequence::new(alloc),
            status: Completion::Runs(
                TextRun {
                    origin,
                    is_special: true,
                },
                text,
            ),
        }
    }

    /// Has a line read first.
    pub fn reading(alloc: Global, reader: LineReader) -> Outcome
        ensures { result ≡ reading reader }
    {
        Outcome {
            signals: SignalSet::new(),
            out: Sequence::new(alloc),
            err: Sequence::new(alloc),
            status: Completion::Asks(BuiltinRest::Reads(reader)),
        }
    }

    /// Has the shell wait first.
    pub fn waiting(alloc: Global, awaited: Awaited) -> Outcome
        ensures { result ≡ waiting awaited }
    {
        Outcome {
            signals: SignalSet::new(),
            out: Sequence::new(alloc),
            err: Sequence::new(alloc),
            status: Completion::Asks(BuiltinRest::Waits(awaited)),
        }
    }

    /// Has a signal sent first.
    pub fn killing(alloc: Global, ask: KillAsk) -> Outcome
        ensures { result ≡ killing ask }
    {
        Outcome {
            signals: SignalSet::new(),
            out: Sequence::new(alloc),
            err: Sequence::new(alloc),
            status: Completion::Asks(BuiltinRest::Kills(ask)),
        }
    }

    /// Writes the texts of jobs, and has these continued.
    pub fn continuing(alloc: Global, out: Text, continuation: Continuation) -> Outcome
        ensures { result ≡ continuing out continuation }
    {
        Outcome {
            signals: SignalSet::new(),
            out,
            err: Sequence::new(alloc),
            status: Completion::Asks(BuiltinRest::Continues(continuation)),
        }
    }

    /// Has brought a job to the foreground, for which the shell waits.
    pub fn foreground(alloc: Global, wait: JobWait) -> Outcome
        ensures { result ≡ foreground wait }
    {
        Outcome {
            signals: SignalSet::new(),
            out: Sequence::new(alloc),
            err: Sequence::new(alloc),
            status: Completion::Foreground(wait),
        }
    }

    /// What it does behind the kernel's answer, where it asks something of the kernel. Takes no memory.
    pub fn rest(&self) -> Option<&BuiltinRest>
        ensures { option_map (λ rest. rest.now) result ≡ rest_in self.now.status }
    {
        match &self.status {
            Completion::Asks(rest) => Some(rest),
            Completion::Done(_) => None,
            Completion::Left(_) => None,
            Completion::Runs(_, _) => None,
            Completion::Foreground(_) => None,
        }
    }

    /// What it asks of the kernel: before its output and its messages, but for `bg` and `fg`, whose output comes first. Takes no memory.
    pub fn ask(&self) -> Option<Ask>
        ensures { result ≡ option_map ask_of (rest_in self.now.status) }
    {
        match self.rest() {
            Some(rest) => Some(rest.ask()),
            None => None,
        }
    }

    /// Writes a line in place of what it was to do.
    pub fn refused_with(alloc: Global, line: Text) -> Result<Outcome, NoMemory>
        ensures { IfOk result (λ outcome. outcome ≡ refused_with line) }
    {
        let mut err = Sequence::new(alloc);
        err.push(line)?;
        Ok(Outcome::saying(Sequence::new(alloc), err, 2))
    }

    /// The same, and the traps of these signals were set.
    pub fn with_signals(self, signals: SignalSet) -> Outcome
        ensures { result ≡ with_signals self signals }
    {
        let Outcome {
            out,
            err,
            status,
            ..
        } = self;
        Outcome {
            signals,
            out,
            err,
            status,
        }
    }

    /// Is refused.
    pub fn refusal(
        alloc: Global,
        builtin: Builtin,
        fault: BuiltinFault,
    ) -> Result<Outcome, NoMemory>
        ensures { IfOk result (λ outcome. outcome ≡ refusal builtin fault) }
    {
        let status = status_of(&fault);
        let ends_shell = builtin.is_special() && is_error(&fault);
        let line = fault_line(alloc, builtin.name(), fault)?;
        let mut err = Sequence::new(alloc);
        err.push(line)?;
        Ok(Outcome {
            signals: SignalSet::new(),
            out: Sequence::new(alloc),
            err,
            status: failure(ends_shell, status),
        })
    }

    /// Is refused for its options or operands.
    pub fn misuse(alloc: Global, builtin: Builtin) -> Result<Outcome, NoMemory>
        ensures { IfOk result (λ outcome. outcome ≡ misuse builtin) }
    {
        Outcome::refusal(alloc, builtin, BuiltinFault::Usage)
    }

    /// Comes to what a built-in of `sh_builtin_environment` answers.
    pub fn of(
        alloc: Global,
        builtin: Builtin,
        answer: sh_builtin_environment::Outcome,
    ) -> Result<Outcome, NoMemory>
        ensures { IfOk result (λ outcome. outcome ≡ outcome_of builtin answer) }
    {
        match answer {
            sh_builtin_environment::Outcome::Done(status) => Ok(Outcome::done(alloc, status)),
            sh_builtin_environment::Outcome::Output(text) => Ok(Outcome::output(alloc, text)),
            sh_builtin_environment::Outcome::Fault(fault) => Outcome::refusal(
                alloc, builtin, fault,
            ),
        }
    }
}

/// Whether a special built-in that is refused for this ends a shell (XCU 2.8.1, trap).
fn is_error(fault: &BuiltinFault) -> bool
    ensures { result ≡ is_error fault.now }
{
    !matches!(fault, BuiltinFault::BadCondition(_))
}

/// How a built-in ends that is refused.
fn failure(is_special: bool, status: u8) -> Completion
    ensures { result ≡ failure is_special status }
{
    if is_special {
        return Completion::Left(Leave::Fault(2));
    }
    Completion::Done(status)
}
