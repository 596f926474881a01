//! The shell's messages.
ghost use Rattle.std.specs.Prelude.{◌≡◌, ◌++◌, IfOk, OnOk, decimal};
ghost use Rattle.sh_exec_parts.specs.Messages.{arithmetic_text, cannot_execute, cannot_fork, fault_text, file_text, launch_line, line_of, message, not_found, not_redirected, read_only, redirection_text, refusal_text, unset_text, usage, write_error};

use itoa::Buffer;
use sh_base::NoMemory;
use sh_base::sequence::{Sequence, Text};
use sh_expand::{ArithmeticError, Fault};
use sh_files::FileFault;
use sh_kernel_descriptors::KernelFault;
use std::alloc::Global;

/// Bytes that are to be written to a descriptor.
#[derive(Debug, Drop)]
pub struct Piece {
    pub descriptor: u8,
    pub bytes: Text,
}

/// Why a command's text is refused.
#[derive(Clone, Copy, Debug, PartialEq, Eq)]
pub enum Refusal {
    Syntax,
    BadSubstitution,
    TooDeep,
}

/// The line of a message: a name, and what is said of it.
fn line_of(alloc: Global, name: &[u8], text: &[u8]) -> Result<Text, NoMemory>
    ensures { IfOk result (λ line. line ≡ line_of (name.now ++ text.now)) }
{
    let mut line = Sequence::new(alloc);
    line.extend_from_slice(b"psh: ")?;
    line.extend_from_slice(name)?;
    line.extend_from_slice(text)?;
    line.push(b'\n')?;
    Ok(line)
}

/// A message that says something about a name.
#[tactic(auto, unfolding(crate::specs::Messages::message))]
fn about(alloc: Global, name: &[u8], text: &[u8]) -> Result<Piece, NoMemory>
    ensures { IfOk result (λ piece. piece ≡ message (name.now ++ text.now)) }
{
    let bytes = line_of(alloc, name, text)?;
    Ok(Piece {
        descriptor: 2,
        bytes,
    })
}

/// A message of this text.
pub fn message(alloc: Global, text: &[u8]) -> Result<Piece, NoMemory>
    ensures { IfOk result (λ piece. piece ≡ message text.now) }
{
    about(alloc, b"", text)
}

/// The text of a refusal.
fn refusal_text(refusal: Refusal) -> &'static [u8]
    ensures { result.now ≡ refusal_text refusal }
{
    match refusal {
        Refusal::Syntax => b"syntax error",
        Refusal::BadSubstitution => b"bad substitution",
        Refusal::TooDeep => b"too deep",
    }
}

/// The message of a refused command.
pub fn refused(alloc: Global, refusal: Refusal) -> Result<Piece, NoMemory>
    ensures { IfOk result (λ piece. piece ≡ message (refusal_text refusal)) }
{
    about(alloc, b"", refusal_text(refusal))
}

/// One text after another.
fn joined(alloc: Global, first: &[u8], second: &[u8]) -> Result<Text, NoMemory>
    ensures { IfOk result (λ text. text ≡ first.now ++ second.now) }
{
    let mut text = Sequence::new(alloc);
    text.extend_from_slice(first)?;
    text.extend_from_slice(second)?;
    Ok(text)
}

/// What is said of a parameter that isn't set.
fn unset_text(alloc: Global, name: &[u8], word: Option<Text>) -> Result<Text, NoMemory>
    ensures { IfOk result (λ text. text ≡ unset_text name.now word) }
{
    let Some(word) = word else {
        return joined(alloc, name, b": parameter not set");
    };
    let mut text = joined(alloc, name, b": ")?;
    text.extend_from_slice(word.as_slice())?;
    Ok(text)
}

/// What is said of an arithmetic expression without a value.
fn arithmetic_text(error: ArithmeticError) -> &'static [u8]
    ensures { result.now ≡ arithmetic_text error }
{
    match error {
        ArithmeticError::Syntax => b"arithmetic: syntax",
        ArithmeticError::DivisionByZero => b"arithmetic: division by zero",
        ArithmeticError::NotANumber => b"arithmetic: not a number",
        ArithmeticError::TooDeep => b"too deep",
    }
}

/// What is said of words that can't be expanded.
fn fault_text(alloc: Global, fault: Fault) -> Result<Text, NoMemory>
    ensures { IfOk result (λ text. text ≡ fault_text fault) }
{
    match fault {
        Fault::Unset { name, message } => unset_text(alloc, name.as_slice(), message),
        Fault::BadSubstitution => joined(alloc, b"", b"bad substitution"),
        Fault::Arithmetic(error) => joined(alloc, b"", arithmetic_text(error)),
        Fault::ReadOnly { name } => joined(alloc, name.as_slice(), b": read only"),
    }
}

/// The message of words that can't be expanded.
pub fn not_expanded(alloc: Global, fault: Fault) -> Result<Piece, NoMemory>
    ensures { IfOk result (λ piece. piece ≡ message (fault_text fault)) }
{
    let text = fault_text(alloc, fault)?;
    message(alloc, text.as_slice())
}

/// The message of a variable that can't be changed.
pub fn read_only(alloc: Global, name: &[u8]) -> Result<Piece, NoMemory>
    ensures { IfOk result (λ piece. piece ≡ message (read_only name.now)) }
{
    about(alloc, name, b": read only")
}

/// The message of a name that no program has.
pub fn not_found(alloc: Global, name: &[u8]) -> Result<Piece, NoMemory>
    ensures { IfOk result (λ piece. piece ≡ message (not_found name.now)) }
{
    about(alloc, name, b": not found")
}

/// The message of a name whose program can't be run.
pub fn cannot_execute(alloc: Global, name: &[u8]) -> Result<Piece, NoMemory>
    ensures { IfOk result (λ piece. piece ≡ message (cannot_execute name.now)) }
{
    about(alloc, name, b": cannot execute")
}

/// What is said of a file that a redirection can't open.
fn file_text(fault: FileFault) -> &'static [u8]
    ensures { result.now ≡ file_text fault }
{
    match fault {
        FileFault::NoEntry => b": cannot open",
        FileFault::NoAccess => b": cannot open",
        FileFault::IsDirectory => b": cannot open",
        FileFault::NotDirectory => b": cannot open",
        FileFault::Exists => b": file exists",
        FileFault::BadNumber => b": cannot open",
        FileFault::TooLarge => b": cannot open",
        FileFault::NoMemory(_) => b": cannot open",
    }
}

/// What is said of the word of a redirection that can't be done.
fn redirection_text(fault: KernelFault) -> &'static [u8]
    ensures { result.now ≡ redirection_text fault }
{
    match fault {
        KernelFault::BadDescriptor => b": bad descriptor",
        KernelFault::NoProcess => b": cannot open",
        KernelFault::TooManyProcesses => b": cannot open",
        KernelFault::TooManyDescriptors => b": cannot open",
        KernelFault::WouldWait => b": cannot open",
        KernelFault::BrokenPipe => b": cannot open",
        KernelFault::InputOutput => b": cannot open",
        KernelFault::File(fault) => file_text(fault),
        KernelFault::NoMemory(_) => b": cannot open",
    }
}

/// The message of a redirection that can't be done.
pub fn not_redirected(alloc: Global, word: &[u8], fault: KernelFault) -> Result<Piece, NoMemory>
    ensures { IfOk result (λ piece. piece ≡ message (not_redirected word.now fault)) }
{
    about(alloc, word, redirection_text(fault))
}

/// The message of a fork that is refused.
pub fn cannot_fork(alloc: Global) -> Result<Piece, NoMemory>
    ensures { IfOk result (λ piece. piece ≡ message cannot_fork) }
{
    about(alloc, b"", b"cannot fork")
}

/// The message of a built-in with wrong operands.
pub fn usage(alloc: Global, name: &[u8]) -> Result<Piece, NoMemory>
    ensures { IfOk result (λ piece. piece ≡ message (usage name.now)) }
{
    about(alloc, name, b": usage")
}

/// The message of a built-in whose write failed.
pub fn write_error(alloc: Global, name: &[u8]) -> Result<Piece, NoMemory>
    ensures { IfOk result (λ piece. piece ≡ message (write_error name.now)) }
{
    about(alloc, name, b": write error")
}

/// Adds a number's decimal digits to a text.
fn put_number(text: &mut Text, number: u64) -> Result<(), NoMemory>
    ensures { OnOk result (text.new ≡ text.old ++ decimal number) }
{
    let mut buffer = Buffer::new();
    text.extend_from_slice(buffer.format(number).as_bytes())?;
    Ok(())
}

/// What an interactive shell writes of an asynchronous list that it has started (XCU 2.9.3.1): `[N] PID`, with the number of its job and that of
/// its last process. The only error is want of memory.
#[tactic(auto, unfolding(crate::specs::Messages::launch_line))]
pub fn launch_line(alloc: Global, number: usize, pid: u32) -> Result<Piece, NoMemory>
    ensures { IfOk result (λ piece. piece ≡ launch_line number pid) }
{
    let mut bytes = Sequence::new(alloc);
    bytes.push(b'[')?;
    put_number(&mut bytes, number as u64)?;
    bytes.extend_from_slice(b"] ")?;
    put_number(&mut bytes, u64::from(pid))?;
    bytes.push(b'\n')?;
    Ok(Piece {
        descriptor: 2,
        bytes,
    })
}
