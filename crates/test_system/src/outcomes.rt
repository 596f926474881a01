//! Commands of rows as words, and what built-ins come to as a text: a status, what is written, with `;` for a newline, or why it is refused.
use sh_base::NoMemory;
use sh_base::sequence::{Sequence, Text};
use sh_builtin_environment::{BuiltinFault, Outcome};
use std::alloc::Global;

/// The words of a command. `_` is an empty one.
pub(crate) fn words_of(alloc: Global, command: &[u8]) -> Result<Vec<Text>, NoMemory> {
    let mut words = Vec::new(alloc);
    for word in command.split(|byte| *byte == b' ') {
        let bytes = if word == b"_".as_slice() { b"" } else { word };
        words.push(Sequence::from_vec(bytes.to_vec(alloc)?))?;
    }
    Ok(words)
}

/// Puts a text behind another, with `;` for each newline.
fn put(text: &mut Vec<u8>, bytes: &[u8]) -> Result<(), NoMemory> {
    for byte in bytes {
        text.push(if *byte == b'\n' { b';' } else { *byte })?;
    }
    Ok(())
}

/// Puts why a built-in is refused behind a text.
fn put_fault(text: &mut Vec<u8>, fault: &BuiltinFault) -> Result<(), NoMemory> {
    let (why, word): (&str, &[u8]) = match fault {
        BuiltinFault::Usage => ("usage", b""),
        BuiltinFault::BadName(word) => ("bad ", word.as_slice()),
        BuiltinFault::BadCondition(word) => ("bad ", word.as_slice()),
        BuiltinFault::ReadOnly(name) => ("ro ", name.as_slice()),
        BuiltinFault::CannotOpen(path) => ("open ", path.as_slice()),
    };
    put(text, why.as_bytes())?;
    put(text, word)
}

/// Puts what a command came to behind a text.
fn put_outcome(text: &mut Vec<u8>, outcome: &Outcome) -> Result<(), NoMemory> {
    match outcome {
        Outcome::Done(status) => put(text, &[b'0'.saturating_add(*status)]),
        Outcome::Output(bytes) => put(text, bytes.as_slice()),
        Outcome::Fault(fault) => put_fault(text, fault),
    }
}

/// Puts what a command came to behind a text, with `|` behind what stands there, and lets it go.
pub(crate) fn put_next(text: &mut Vec<u8>, place: usize, outcome: Outcome) -> Result<(), NoMemory> {
    if place > 0 {
        text.push(b'|')?;
    }
    let put = put_outcome(text, &outcome);
    drop(outcome);
    put
}
