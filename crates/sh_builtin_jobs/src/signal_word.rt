//! The signals that words of `kill` name.
ghost use Rattle.std.specs.Prelude.{◌≡◌, IfOk, map};
ghost use Rattle.std.specs.Char.{to_ascii_uppercase};
ghost use Rattle.sh_builtin_jobs.specs.SignalWords.{known_signal, sent_attached, sent_by_name, sent_by_number, sent_by_option, sent_by_text, signal_named, signal_of_status};

use sh_base::NoMemory;
use sh_base::decimal::number_of;
use sh_base::sequence::Text;
use sh_builtin_environment::BuiltinFault;
use sh_signal::Signal;
use std::alloc::{AllocError, Global};

/// What is sent: a signal, or nothing where it is 0; or why the word that names it is refused.
pub(crate) type Sent = Result<Option<Signal>, BuiltinFault>;

/// A name in capital letters.
fn in_capitals(alloc: Global, name: &[u8]) -> Result<Vec<u8>, AllocError>
    ensures { IfOk result (λ capitals. capitals.items ≡ map to_ascii_uppercase name.now) }
{
    name.iter()
        .map(|byte| byte.to_ascii_uppercase())
        .collect(alloc)
}

/// The signal of a name in letters of either case.
fn signal_named(alloc: Global, name: &[u8]) -> Result<Option<Signal>, NoMemory>
    ensures { IfOk result (λ signal. signal ≡ signal_named name.now) }
{
    let capitals = in_capitals(alloc, name)?;
    Ok(Signal::from_name(capitals.as_slice()))
}

/// The signal that is sent, if there is one of that name or number.
fn known_signal(alloc: Global, word: &[u8], signal: Option<Signal>) -> Result<Sent, NoMemory>
    ensures { IfOk result (λ sent. sent ≡ known_signal word.now signal) }
{
    match signal {
        Some(signal) => Ok(Ok(Some(signal))),
        None => Ok(Err(BuiltinFault::BadName(Text::copy_of(alloc, word)?))),
    }
}

/// What the argument of `-s` names.
pub(crate) fn sent_by_name(alloc: Global, word: &[u8], name: &[u8]) -> Result<Sent, NoMemory>
    ensures { IfOk result (λ sent. sent ≡ sent_by_name word.now name.now) }
{
    if name == b"0".as_slice() {
        return Ok(Ok(None));
    }
    let signal = signal_named(alloc, name)?;
    known_signal(alloc, word, signal)
}

/// What the number of an option names.
fn sent_by_number(alloc: Global, word: &[u8], number: u64) -> Result<Sent, NoMemory>
    ensures { IfOk result (λ sent. sent ≡ sent_by_number word.now number) }
{
    if number == 0 {
        return Ok(Ok(None));
    }
    known_signal(alloc, word, Signal::from_number(number))
}

/// What the argument of `-s` names that stands in the same word.
fn sent_attached(alloc: Global, word: &[u8], text: &[u8]) -> Result<Sent, NoMemory>
    ensures { IfOk result (λ sent. sent ≡ sent_attached word.now text.now) }
{
    match text.split_first() {
        Some((first, name)) => {
            if *first == b's' {
                return sent_by_name(alloc, word, name);
            }
            known_signal(alloc, word, None)
        },
        None => known_signal(alloc, word, None),
    }
}

/// What the text of an option names that is no number.
fn sent_by_text(alloc: Global, word: &[u8], text: &[u8]) -> Result<Sent, NoMemory>
    ensures { IfOk result (λ sent. sent ≡ sent_by_text word.now text.now (signal_named text.now)) }
{
    match signal_named(alloc, text)? {
        Some(signal) => Ok(Ok(Some(signal))),
        None => sent_attached(alloc, word, text),
    }
}

/// What an option of a hyphen and this text names.
pub(crate) fn sent_by_option(alloc: Global, word: &[u8], text: &[u8]) -> Result<Sent, NoMemory>
    ensures { IfOk result (λ sent. sent ≡ sent_by_option word.now text.now) }
{
    match number_of(text) {
        Some(number) => sent_by_number(alloc, word, number),
        None => sent_by_text(alloc, word, text),
    }
}

/// The signal of this number, or else the one that ended a process whose exit status this is.
pub(crate) fn signal_of_status(status: u64) -> Option<Signal>
    ensures { result ≡ signal_of_status status }
{
    match Signal::from_number(status) {
        Some(signal) => Some(signal),
        None => Signal::from_number(status.saturating_sub(128)),
    }
}
