//! The messages of the built-ins of jobs.
ghost use Rattle.std.specs.Prelude.{◌≡◌, IfOk};
ghost use Rattle.sh_builtin_jobs.specs.Messages.{fault_text, message, message_about};

use sh_base::NoMemory;
use sh_base::sequence::{Sequence, Text};
use sh_jobs::JobFault;
use std::alloc::Global;

/// The line of a message of a built-in of this name.
pub(crate) fn message(alloc: Global, name: &[u8], text: &[u8]) -> Result<Text, NoMemory>
    ensures { IfOk result (λ line. line ≡ message name.now text.now) }
{
    let mut line = Sequence::new(alloc);
    line.extend_from_slice(b"psh: ")?;
    line.extend_from_slice(name)?;
    line.extend_from_slice(b": ")?;
    line.extend_from_slice(text)?;
    line.push(b'\n')?;
    Ok(line)
}

/// The line of a message about a word.
pub(crate) fn message_about(
    alloc: Global,
    name: &[u8],
    word: &[u8],
    text: &[u8],
) -> Result<Text, NoMemory>
    ensures { IfOk result (λ line. line ≡ message_about name.now word.now text.now) }
{
    let mut about = Text::copy_of(alloc, word)?;
    about.extend_from_slice(b": ")?;
    about.extend_from_slice(text)?;
    message(alloc, name, about.as_slice())
}

/// What is said of a job ID that names no job.
pub(crate) fn fault_text(fault: JobFault) -> &'static [u8]
    ensures { result.now ≡ fault_text fault }
{
    match fault {
        JobFault::NoSuchJob => b"no such job",
        JobFault::Ambiguous => b"ambiguous",
    }
}
