//! What follows a write of a shell.
ghost use Rattle.std.specs.Prelude.{◌≡◌, IfOk, drop};
ghost use Rattle.sh_exec_waiting.specs.Writing.{after_writing, continued_with, failed, failed_asking, unwritten, written_by};

use sh_base::NoMemory;
use sh_base::sequence::Text;
use sh_builtin_outcome::{BuiltinRest, Completion, Continuation, Leave};
use sh_exec_actions::{Action, Active, CommandStatus, Finish, Report};
use sh_exec_machine::WriteOutcome;
use sh_exec_parts::message::{Piece, write_error};
use sh_exec_signals::reported;
use std::alloc::Global;

/// What follows a write that is done whole.
fn finished(finish: Finish) -> Active
    ensures { result ≡ after_writing finish }
{
    match finish {
        Finish::Status(status) => Active::Done(CommandStatus::unexcused(status)),
        Finish::Fault(status) => Active::Leaving(Leave::Fault(status)),
        Finish::Messages(report) => reported(report),
        Finish::Output(_, report) => reported(report),
    }
}

/// The jobs that bg or fg continues, where its output couldn't be written.
fn continued_with(status: u8, continuation: Continuation) -> Continuation
    ensures { result ≡ continued_with status continuation }
{
    match continuation {
        Continuation::Background { jobs, messages, .. } => Continuation::Background {
            jobs,
            messages,
            status,
        },
        Continuation::Foreground(job) => Continuation::Foreground(job),
    }
}

/// How a built-in ends whose output couldn't be written, and which was to ask the kernel.
fn failed_asking(rest: BuiltinRest) -> Completion
    ensures { result ≡ failed_asking rest }
{
    match rest {
        BuiltinRest::Reads(_) => Completion::Done(1),
        BuiltinRest::Waits(_) => Completion::Done(1),
        BuiltinRest::Kills(_) => Completion::Done(1),
        BuiltinRest::Continues(continuation) => {
            let continuation = continued_with(1, continuation);
            Completion::Asks(BuiltinRest::Continues(continuation))
        },
    }
}

/// How a built-in ends whose output couldn't be written.
fn failed(status: Completion) -> Completion
    ensures { result ≡ failed status }
{
    match status {
        Completion::Done(_) => Completion::Done(1),
        Completion::Left(_) => Completion::Done(1),
        Completion::Runs(_, _) => Completion::Done(1),
        Completion::Asks(rest) => failed_asking(rest),
        Completion::Foreground(wait) => Completion::Foreground(wait),
    }
}

/// What follows a write that failed.
fn unwritten(alloc: Global, finish: Finish) -> Result<Active, NoMemory>
    ensures { IfOk result (λ active. active ≡ unwritten finish) }
{
    match finish {
        Finish::Status(status) => Ok(Active::Done(CommandStatus::unexcused(status))),
        Finish::Fault(status) => Ok(Active::Leaving(Leave::Fault(status))),
        Finish::Messages(report) => Ok(reported(report)),
        Finish::Output(builtin, report) => {
            let piece = write_error(alloc, builtin.name())?;
            let Report { messages, status } = report;
            let status = failed(status);
            let report = Report { messages, status };
            Ok(Active::Next(Action::Writing(piece, Finish::Messages(report))))
        },
    }
}

/// What is left of a piece after its first bytes.
fn rest_of(alloc: Global, piece: Piece, count: usize) -> Result<Piece, NoMemory>
    ensures { IfOk result (λ rest. rest ≡ record piece { bytes = drop count piece.bytes }) }
{
    let mut bytes = Text::new(alloc);
    let from = count.min(piece.bytes.len());
    bytes.extend_from_slice(&piece.bytes.as_slice()[from..])?;
    Ok(Piece {
        descriptor: piece.descriptor,
        bytes,
    })
}

/// What follows a write of a piece: where only a part went, the write of its rest. A message that can't be written is dropped; a built-in
/// whose output can't be written has the status 1, and a message before its others. The only error is want of memory.
pub fn after_write(
    alloc: Global,
    piece: Piece,
    finish: Finish,
    given: WriteOutcome,
) -> Result<Active, NoMemory>
    ensures { IfOk result (λ active. active ≡ written_by piece finish given) }
{
    match given {
        WriteOutcome::Whole => Ok(finished(finish)),
        WriteOutcome::Part(count) => {
            let rest = rest_of(alloc, piece, count)?;
            Ok(Active::Next(Action::Writing(rest, finish)))
        },
        WriteOutcome::Wait => Ok(Active::Next(Action::Writing(piece, finish))),
        WriteOutcome::Failed => unwritten(alloc, finish),
    }
}
