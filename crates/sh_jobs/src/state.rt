//! The states of jobs, and the words for them.
ghost use Rattle.std.specs.Prelude.{◌≡◌, ◌++◌, decimal, OnOk};
ghost use Rattle.sh_signal.specs.Signals.{name_of};
ghost use Rattle.sh_jobs.specs.Words.{done_word, ending_word, in_parentheses, name_or_number, signal_text, word};

use itoa::Buffer;
use sh_base::NoMemory;
use sh_base::sequence::Text;
use sh_signal::Signal;

/// How a job ended: as its last process did (XCU jobs).
#[derive(Clone, Copy, Debug, PartialEq, Eq)]
pub enum Ending {
    /// The process ended by itself, with this exit status.
    Exited(u8),
    /// The process was ended by the signal of this number.
    Signaled(u8),
}

/// The state of a job (XBD chapter 3, Job, XCU jobs).
#[derive(Clone, Copy, Debug, PartialEq, Eq)]
pub enum JobState {
    /// One of its processes runs.
    Running,
    /// None of its processes runs, and one is stopped. The number is that of the signal that stopped the last such process.
    Suspended(u8),
    /// All of its processes have ended.
    Done(Ending),
}

/// Adds a number's decimal digits to a text.
pub(crate) fn put_number(text: &mut Text, number: u64) -> Result<(), NoMemory>
    ensures { OnOk result (text.new ≡ text.old ++ decimal number) }
{
    let mut buffer = Buffer::new();
    text.extend_from_slice(buffer.format(number).as_bytes())?;
    Ok(())
}

/// Adds the text for a signal, which is there or not, of this number.
fn put_name_or_number(text: &mut Text, number: u8, signal: Option<Signal>) -> Result<(), NoMemory>
    ensures { OnOk result (text.new ≡ text.old ++ name_or_number number signal) }
{
    match signal {
        Some(signal) => {
            text.extend_from_slice(b"SIG")?;
            text.extend_from_slice(signal.name())?;
            Ok(())
        },
        None => put_number(text, u64::from(number)),
    }
}

/// Adds a word, and the text for a signal in parentheses.
fn put_in_parentheses(text: &mut Text, word: &[u8], signal: u8) -> Result<(), NoMemory>
    ensures { OnOk result (text.new ≡ text.old ++ (word.now ++ in_parentheses (signal_text signal))) }
{
    text.extend_from_slice(word)?;
    text.extend_from_slice(b" (")?;
    put_name_or_number(text, signal, Signal::from_number(u64::from(signal)))?;
    text.push(b')')?;
    Ok(())
}

/// Adds the word for a job whose last process ended by itself.
fn put_done(text: &mut Text, status: u8) -> Result<(), NoMemory>
    ensures { OnOk result (text.new ≡ text.old ++ done_word status) }
{
    text.extend_from_slice(b"Done")?;
    if status == 0 {
        return Ok(());
    }
    text.push(b'(')?;
    put_number(text, u64::from(status))?;
    text.push(b')')?;
    Ok(())
}

/// Adds the word for an ending.
fn put_ending(text: &mut Text, ending: Ending) -> Result<(), NoMemory>
    ensures { OnOk result (text.new ≡ text.old ++ ending_word ending) }
{
    match ending {
        Ending::Exited(status) => put_done(text, status),
        Ending::Signaled(signal) => put_in_parentheses(text, b"Terminated", signal),
    }
}

/// Adds the word for a state.
pub(crate) fn put_word(text: &mut Text, state: JobState) -> Result<(), NoMemory>
    ensures { OnOk result (text.new ≡ text.old ++ word state) }
{
    match state {
        JobState::Running => {
            text.extend_from_slice(b"Running")?;
            Ok(())
        },
        JobState::Suspended(signal) => put_in_parentheses(text, b"Stopped", signal),
        JobState::Done(ending) => put_ending(text, ending),
    }
}
