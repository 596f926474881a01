//! What the arguments of `kill` ask for.
ghost use Rattle.std.specs.Prelude.{◌≡◌, [], IfOk, option_map};
ghost use Rattle.std.specs.List.{list_all};
ghost use Rattle.sh_base.specs.Decimals.{number_of};
ghost use Rattle.sh_builtin_environment.specs.Options.{options_and_operands, some_letters};
ghost use Rattle.sh_builtin_jobs.specs.KillWords.{group_number, is_operand, kill_by, kill_of, kill_with, known_name, name_of_status, names_of, names_parsed, option_text, send_behind, send_named, send_parsed, send_to};

use crate::job_word::is_job_id;
use crate::signal_word::{Sent, sent_by_name, sent_by_option, signal_of_status};
use sh_base::NoMemory;
use sh_base::decimal::number_of;
use sh_base::sequence::{Sequence, Text, copies_of};
use sh_builtin_environment::{BuiltinFault, parse_options};
use sh_signal::Signal;
use std::alloc::Global;

/// A signal that `kill` sends, and the operands that it goes to.
#[derive(Debug, Drop)]
pub struct KillSend {
    /// The signal; `None` is signal 0, which is sent to nothing: it is only looked whether there is a process.
    pub signal: Option<Signal>,
    /// The operands, from the left; at least one, each of which is the number of a process, a minus and the number of a group, or a job ID.
    pub operands: Sequence<Text>,
}

impl KillSend {
    /// A copy, which is equal. The only error is want of memory.
    pub fn copy(&self, alloc: Global) -> Result<KillSend, NoMemory>
        ensures { IfOk result (λ copy. copy ≡ self.now) }
    {
        Ok(KillSend {
            signal: self.signal,
            operands: Sequence::from_vec(copies_of(alloc, self.operands.as_slice())?),
        })
    }
}

/// What `kill` does (XCU kill).
#[derive(Debug, Drop)]
pub enum KillCommand {
    /// It writes the names of all signals, as `kill -l`.
    Names,
    /// It writes the name of this signal, as `kill -l` with an operand.
    Name(Signal),
    /// It sends a signal.
    Send(KillSend),
}

/// What is read, or why it is refused.
type Reading = Result<KillCommand, BuiltinFault>;

/// The number of the group that an operand names by a minus.
pub(crate) fn group_number(word: &[u8]) -> Option<u64>
    ensures { result ≡ group_number word.now }
{
    match word.split_first() {
        Some((first, digits)) => {
            if *first == b'-' {
                return number_of(digits);
            }
            None
        },
        None => None,
    }
}

/// Whether a word may be an operand.
fn is_operand(word: &[u8]) -> bool
    ensures { result ≡ is_operand word.now }
{
    number_of(word).is_some() || group_number(word).is_some() || is_job_id(word)
}

/// Whether each word may be an operand.
fn are_operands(words: &[Text]) -> bool
    ensures { result ≡ list_all is_operand words.now }
{
    words.iter().all(|word| is_operand(word.as_slice()))
}

/// A signal is sent to operands.
fn send_to(alloc: Global, signal: Option<Signal>, operands: &[Text]) -> Result<Reading, NoMemory>
    ensures { IfOk result (λ reading. reading ≡ send_to signal operands.now) }
{
    if operands.is_empty() {
        return Ok(Err(BuiltinFault::Usage));
    }
    if !are_operands(operands) {
        return Ok(Err(BuiltinFault::Usage));
    }
    let operands = Sequence::from_vec(copies_of(alloc, operands)?);
    Ok(Ok(KillCommand::Send(KillSend { signal, operands })))
}

/// A signal is sent to the operands behind its option.
fn send_behind(alloc: Global, sent: Sent, words: &[Text]) -> Result<Reading, NoMemory>
    ensures { IfOk result (λ reading. reading ≡ send_behind sent words.now) }
{
    let signal = match sent {
        Ok(signal) => signal,
        Err(fault) => return Ok(Err(fault)),
    };
    match parse_options(b"", words) {
        Some((_, operands)) => send_to(alloc, signal, operands),
        None => Ok(Err(BuiltinFault::Usage)),
    }
}

/// The signal that the first of these words names is sent to the others.
fn send_named(alloc: Global, words: &[Text]) -> Result<Reading, NoMemory>
    ensures { IfOk result (λ reading. reading ≡ send_named words.now) }
{
    match words.split_first() {
        Some((name, others)) => {
            let sent = sent_by_name(alloc, name.as_slice(), name.as_slice())?;
            send_behind(alloc, sent, others)
        },
        None => Ok(Err(BuiltinFault::Usage)),
    }
}

/// The name of a signal is written, if there is one.
fn known_name(alloc: Global, word: &[u8], signal: Option<Signal>) -> Result<Reading, NoMemory>
    ensures { IfOk result (λ reading. reading ≡ known_name word.now signal) }
{
    match signal {
        Some(signal) => Ok(Ok(KillCommand::Name(signal))),
        None => Ok(Err(BuiltinFault::BadName(Text::copy_of(alloc, word)?))),
    }
}

/// The name of the signal of an exit status is written.
fn name_of_status(alloc: Global, word: &[u8]) -> Result<Reading, NoMemory>
    ensures { IfOk result (λ reading. reading ≡ name_of_status word.now (number_of word.now)) }
{
    match number_of(word) {
        Some(status) => known_name(alloc, word, signal_of_status(status)),
        None => Ok(Err(BuiltinFault::Usage)),
    }
}

/// Names are written: all, or that of an operand.
fn names_of(alloc: Global, operands: &[Text]) -> Result<Reading, NoMemory>
    ensures { IfOk result (λ reading. reading ≡ names_of operands.now) }
{
    match operands {
        [] => Ok(Ok(KillCommand::Names)),
        [word] => name_of_status(alloc, word.as_slice()),
        _ => Ok(Err(BuiltinFault::Usage)),
    }
}

/// Names are written, by the words behind `-l`.
fn names_behind(alloc: Global, words: &[Text]) -> Result<Reading, NoMemory>
    ensures { IfOk result (λ reading. reading ≡ names_parsed (options_and_operands [] words.now)) }
{
    match parse_options(b"", words) {
        Some((_, operands)) => names_of(alloc, operands),
        None => Ok(Err(BuiltinFault::Usage)),
    }
}

/// The text of an option, behind its hyphen; `None` of a word that is no option.
fn option_text(word: &[u8]) -> Option<&[u8]>
    ensures { option_map (λ text. text.now) result ≡ option_text word.now }
{
    if word == b"--".as_slice() {
        return None;
    }
    match word.split_first() {
        Some((b'-', text)) => some_text(text),
        _ => None,
    }
}

/// A text, if it isn't empty.
fn some_text(text: &[u8]) -> Option<&[u8]>
    ensures { option_map (λ text. text.now) result ≡ some_letters text.now }
{
    if text.is_empty() {
        return None;
    }
    Some(text)
}

/// The first word is an option of this text.
fn kill_with(alloc: Global, word: &[u8], text: &[u8], words: &[Text]) -> Result<Reading, NoMemory>
    ensures { IfOk result (λ reading. reading ≡ kill_with word.now text.now words.now) }
{
    if text == b"l".as_slice() {
        return names_behind(alloc, words);
    }
    if text == b"s".as_slice() {
        return send_named(alloc, words);
    }
    let sent = sent_by_option(alloc, word, text)?;
    send_behind(alloc, sent, words)
}

/// What the arguments of `kill` ask for (XCU kill): `kill [-s NAME | -NAME | -N] OPERAND..`, `kill -l [STATUS]`. A name is one without SIG
/// in letters of either case; `-s 0` and `-0` are signal 0; without an option it is TERM. There is one option at most, and `--` may stand
/// before the operands, each of which is the number of a process, a minus and the number of a group, or a job ID. The words are read from
/// the left, and the inner error is the first fault: `BadName` for a name or number of no signal, with its word; `Usage` for any other fault.
/// The outer error is want of memory.
pub fn kill_of(
    alloc: Global,
    arguments: &[Text],
) -> Result<Result<KillCommand, BuiltinFault>, NoMemory>
    ensures { IfOk result (λ reading. reading ≡ kill_of arguments.now) }
{
    let Some((word, words)) = arguments.split_first() else {
        return Ok(Err(BuiltinFault::Usage));
    };
    match option_text(word.as_slice()) {
        Some(text) => kill_with(alloc, word.as_slice(), text, words),
        None => send_behind(alloc, Ok(Some(Signal::Terminate)), arguments),
    }
}
