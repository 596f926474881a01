//! The built-in read (XCU read).
ghost use Rattle.std.specs.Prelude.{◌≡◌, IfOk};
ghost use Rattle.sh_builtin_asking.specs.BuiltIns.{read_outcome, with_outcome};
ghost use Rattle.sh_builtin_asking.specs.Resuming.{fields_given, line_by, line_ended, line_read, line_resumed};
ghost use Rattle.sh_builtin_regular.specs.Lines.{bytes_taken};
ghost use Rattle.sh_builtin_regular.specs.Operands.{reader_of};

use crate::answer::Answer;
use sh_base::NoMemory;
use sh_base::sequence::Text;
use sh_builtin_environment::BuiltinFault;
use sh_builtin_outcome::{Builtin, Outcome};
use sh_builtin_regular::LineReader;
use sh_builtin_shell::Shell;
use std::alloc::Global;

/// How `read` begins, with its arguments (XCU read): `read [-r] NAME..`. It asks for bytes of a line (`BuiltinRest::Reads`); behind the answer
/// `resume` does the rest. It is over at once, with a message and the status 2, where an option is wrong, where there is no name, or where a word
/// is no name. The only error is want of memory.
pub fn read(alloc: Global, arguments: &[Text]) -> Result<Outcome, NoMemory>
    ensures { IfOk result (λ outcome. outcome ≡ read_outcome (reader_of arguments.now)) }
{
    match LineReader::of(alloc, arguments)? {
        Ok(reader) => Ok(Outcome::reading(alloc, reader)),
        Err(fault) => Outcome::refusal(alloc, Builtin::Read, fault),
    }
}

/// What read comes to where the variables have the line's fields, up to one that was refused.
fn fields_given(alloc: Global, status: u8, refused: Option<Text>) -> Result<Outcome, NoMemory>
    ensures { IfOk result (λ outcome. outcome ≡ fields_given status refused) }
{
    match refused {
        None => Ok(Outcome::done(alloc, status)),
        Some(name) => Outcome::refusal(alloc, Builtin::Read, BuiltinFault::ReadOnly(name)),
    }
}

/// The line is over.
fn line_ended(
    alloc: Global,
    shell: &mut Shell,
    reader: &LineReader,
    status: u8,
) -> Result<Outcome, NoMemory>
    ensures { IfOk result (λ outcome. with_outcome shell.new outcome ≡ line_ended shell.old reader.now status) }
{
    let refused = reader.assign(alloc, &mut shell.vars)?;
    fields_given(alloc, status, refused)
}

/// The line has these bytes more.
fn line_by(
    alloc: Global,
    shell: &mut Shell,
    reader: LineReader,
    bytes: &[u8],
) -> Result<Outcome, NoMemory>
    ensures { IfOk result (λ outcome.
        with_outcome shell.new outcome ≡ line_by shell.old (bytes_taken reader bytes.now)) }
{
    let mut reader = reader;
    if reader.take(bytes)? {
        let outcome = line_ended(alloc, shell, &reader, 0)?;
        return Ok(outcome);
    }
    Ok(Outcome::reading(alloc, reader))
}

/// These bytes were read.
fn line_read(
    alloc: Global,
    shell: &mut Shell,
    reader: LineReader,
    bytes: &[u8],
) -> Result<Outcome, NoMemory>
    ensures { IfOk result (λ outcome. with_outcome shell.new outcome ≡ line_read shell.old reader bytes.now) }
{
    if bytes.len() == 0 {
        let outcome = line_ended(alloc, shell, &reader, 1)?;
        return Ok(outcome);
    }
    let outcome = line_by(alloc, shell, reader, bytes)?;
    Ok(outcome)
}

/// What is left of read behind an answer.
pub(crate) fn resume_read(
    alloc: Global,
    shell: &mut Shell,
    reader: LineReader,
    answer: Answer,
) -> Result<Outcome, NoMemory>
    ensures { IfOk result (λ outcome. with_outcome shell.new outcome ≡ line_resumed shell.old reader answer) }
{
    match answer {
        Answer::Bytes(bytes) => {
            let outcome = line_read(alloc, shell, reader, bytes.as_slice())?;
            Ok(outcome)
        },
        Answer::Ended(_) => Ok(Outcome::reading(alloc, reader)),
        Answer::Caught(_) => Ok(Outcome::reading(alloc, reader)),
        Answer::Sent(_) => Ok(Outcome::reading(alloc, reader)),
        Answer::Continued => Ok(Outcome::reading(alloc, reader)),
    }
}
