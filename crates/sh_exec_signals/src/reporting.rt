//! What a built-in says behind its act, and how it ends then.
ghost use Rattle.std.specs.Prelude.{◌≡◌};
ghost use Rattle.sh_exec_signals.specs.Reporting.{at_completion, behind, output_of, reported};

use sh_base::sequence::Text;
use sh_builtin_outcome::{Builtin, Completion, Outcome};
use sh_exec_actions::{Action, Active, CommandStatus, Finish, Report};
use sh_exec_parts::Queue;
use sh_exec_parts::message::Piece;

/// How a built-in ends.
fn at_completion(status: Completion) -> Active
    ensures { result ≡ at_completion status }
{
    match status {
        Completion::Done(status) => Active::Done(CommandStatus::unexcused(status)),
        Completion::Left(leave) => Active::Leaving(leave),
        Completion::Runs(how, text) => Active::Evaluating(how, text),
        Completion::Asks(rest) => Active::Next(Action::Asking(rest)),
        Completion::Foreground(wait) => Active::Next(Action::WaitForJob(wait)),
    }
}

/// What follows where a built-in has still to say something: the next of its messages is written, or it ends. Takes no memory.
pub fn reported(report: Report) -> Active
    ensures { result ≡ reported report }
{
    let Report {
        mut messages,
        status,
    } = report;
    match messages.take() {
        Some(bytes) => {
            let piece = Piece {
                descriptor: 2,
                bytes,
            };
            Active::Next(Action::Writing(piece, Finish::Messages(Report { messages, status })))
        },
        None => at_completion(status),
    }
}

/// What follows when a built-in has output to write: where that is empty, what it has still to say.
fn written(builtin: Builtin, bytes: Text, report: Report) -> Active
    ensures { result ≡ output_of builtin bytes report }
{
    if bytes.is_empty() {
        return reported(report);
    }
    let piece = Piece {
        descriptor: 1,
        bytes,
    };
    Active::Next(Action::Writing(piece, Finish::Output(builtin, report)))
}

/// What follows when a built-in has acted: the write of its output, or of its first message, or how it ends. An empty output takes no turn.
/// Takes no memory.
pub fn behind(builtin: Builtin, outcome: Outcome) -> Active
    ensures { result ≡ behind builtin outcome }
{
    let report = Report {
        messages: Queue::new(outcome.err),
        status: outcome.status,
    };
    written(builtin, outcome.out, report)
}
