//! The lines of messages, and what is said of a built-in that is refused.
ghost use Rattle.std.specs.Prelude.{◌≡◌, ◌++◌, IfOk, codes};
ghost use Rattle.sh_builtin_outcome.specs.Messages.{fault_text, line_of, status_of};

use sh_base::NoMemory;
use sh_base::sequence::{Sequence, Text};
use sh_builtin_environment::BuiltinFault;
use std::alloc::Global;

/// The line of a message (XCU 2.8.1): `psh: `, a name, what is said of it, and a newline. The only error is want of memory.
pub fn line(alloc: Global, name: &[u8], text: &[u8]) -> Result<Text, NoMemory>
    ensures { IfOk result (λ line. line ≡ line_of (name.now ++ text.now)) }
{
    let mut line = Sequence::new(alloc);
    line.extend_from_slice(b"psh: ")?;
    line.extend_from_slice(name)?;
    line.extend_from_slice(text)?;
    line.push(b'\n')?;
    Ok(line)
}

/// The line of a message about a word of a built-in (XCU 2.8.1): `psh: `, the built-in's name, a colon and a space, the word, what is said of it,
/// and a newline. The only error is want of memory.
pub fn line_about(alloc: Global, name: &[u8], word: &[u8], text: &[u8]) -> Result<Text, NoMemory>
    ensures { IfOk result (λ line.
        line ≡ line_of (name.now ++ codes ": " ++ word.now ++ text.now)) }
{
    let mut about = Sequence::new(alloc);
    about.extend_from_slice(b": ")?;
    about.extend_from_slice(word)?;
    about.extend_from_slice(text)?;
    line(alloc, name, about.as_slice())
}

/// The line of the message of a built-in that is refused.
pub(crate) fn fault_line(alloc: Global, name: &[u8], fault: BuiltinFault) -> Result<Text, NoMemory>
    ensures { IfOk result (λ line. line ≡ line_of (fault_text name.now fault)) }
{
    match fault {
        BuiltinFault::Usage => line(alloc, name, b": usage"),
        BuiltinFault::BadName(word) => line_about(alloc, name, word.as_slice(), b": bad name"),
        BuiltinFault::BadCondition(word) => line_about(alloc, name, word.as_slice(), b": bad name"),
        BuiltinFault::ReadOnly(variable) => line(alloc, variable.as_slice(), b": read only"),
        BuiltinFault::CannotOpen(path) => {
            line_about(alloc, name, path.as_slice(), b": cannot open")
        },
    }
}

/// The status of a built-in that is refused.
pub(crate) fn status_of(fault: &BuiltinFault) -> u8
    ensures { result ≡ status_of fault.now }
{
    match fault {
        BuiltinFault::Usage => 2,
        BuiltinFault::BadName(_) => 2,
        BuiltinFault::BadCondition(_) => 2,
        BuiltinFault::ReadOnly(_) => 2,
        BuiltinFault::CannotOpen(_) => 1,
    }
}
