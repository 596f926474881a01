//! The lines by which `kill` lists signals.
ghost use Rattle.std.specs.Prelude.{◌≡◌, ◌++◌, IfOk, OnOk};
ghost use Rattle.sh_builtin_jobs.specs.SignalWords.{line_numbered, lines_below, signal_line, signal_lines};

use sh_base::NoMemory;
use sh_base::sequence::{Sequence, Text};
use sh_signal::Signal;
use std::alloc::Global;

/// Adds the line of a signal.
fn put_line(text: &mut Text, signal: Signal) -> Result<(), NoMemory>
    ensures { OnOk result (text.new ≡ text.old ++ signal_line signal) }
{
    text.extend_from_slice(signal.name())?;
    text.push(b'\n')?;
    Ok(())
}

/// Adds the line of a signal, if there is one.
fn put_numbered(text: &mut Text, signal: Option<Signal>) -> Result<(), NoMemory>
    ensures { OnOk result (text.new ≡ text.old ++ line_numbered signal) }
{
    match signal {
        Some(signal) => put_line(text, signal),
        None => Ok(()),
    }
}

/// The lines of the signals whose numbers are below this one.
fn lines_below(alloc: Global, end: u64) -> Result<Text, NoMemory>
    ensures { IfOk result (λ text. text ≡ lines_below end) }
{
    let mut text = Sequence::new(alloc);
    'numbers: for number in 0..end {
        put_numbered(&mut text, Signal::from_number(number))?;
    }
    Ok(text)
}

/// What `kill -l` writes (XCU kill): the names of all signals without SIG, each in a line, in the order of their numbers. The only error is
/// want of memory.
#[tactic(auto, using(crate::proofs::Numbered::all_below))]
pub fn signal_lines(alloc: Global) -> Result<Text, NoMemory>
    ensures { IfOk result (λ text. text ≡ signal_lines) }
{
    lines_below(alloc, 23)
}

/// What `kill -l` writes for one signal (XCU kill): its name without SIG, and a newline. The only error is want of memory.
pub fn signal_line(alloc: Global, signal: Signal) -> Result<Text, NoMemory>
    ensures { IfOk result (λ text. text ≡ signal_line signal) }
{
    let mut text = Sequence::new(alloc);
    put_line(&mut text, signal)?;
    Ok(text)
}
