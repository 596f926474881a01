//! Keys, echoes and reads of a terminal.
//!
//! - `keys TYPED ANSWER`: what keys are echoed as, the signals that they raise (`C`, `Q`, `Z`), and what reads get, each in brackets, with
//!   `|` between the three. Reads of 1, 2, 3 and 4 bytes get the same in pieces.
//! - `long KEYS ANSWER`: the length of the terminal behind so many keys and a newline, and of the line that is read.
//! - `terminal STEPS ANSWERS`: `write BYTES`, `key BYTES` (answers the signals), `read SIZE` (answers the bytes), `reads SIZE`,
//!   `ready`, `group`, `group NUMBER`, `shown`, one after another.
use crate::steps::{bytes_of, count, is, number_of, process, say, truth, word};
use sh_signal::Signal;
use sh_tty::{Tty, TtyFault};
use std::alloc::Global;
use test_rows::RowFault;

/// The letter of a signal's key; `?` where no key raises the signal.
fn letter(signal: Signal) -> u8 {
    match signal {
        Signal::Interrupt => b'C',
        Signal::Quit => b'Q',
        Signal::TerminalStop => b'Z',
        _ => b'?',
    }
}

/// Presses keys, and gives the letters of the signals that they raise.
fn press(alloc: Global, tty: &mut Tty, typed: &[u8]) -> Result<Vec<u8>, RowFault> {
    let mut raised = Vec::new(alloc);
    for key in typed {
        match tty.key(*key) {
            Ok(None) => {},
            Ok(Some(signal)) => raised.push(letter(signal))?,
            Err(_) => return Err(RowFault::NoMemory),
        }
    }
    Ok(raised)
}

/// What reads of up to `size` bytes get until one would wait, each in brackets.
fn reads(alloc: Global, tty: &mut Tty, size: usize) -> Result<Vec<u8>, RowFault> {
    let mut all = Vec::new(alloc);
    let mut buffer = vec![in alloc; 0u8; size]?;
    for _ in 0..40 {
        let Ok(count) = tty.read(&mut buffer) else {
            return Ok(all);
        };
        all.push(b'[')?;
        all.extend_from_slice(buffer.get(..count).unwrap_or(b"?"))?;
        all.push(b']')?;
    }
    Ok(all)
}

/// What reads of up to `size` bytes get where reads of any length get `whole`: each line in pieces.
fn in_pieces(alloc: Global, whole: &[u8], size: usize) -> Result<Vec<u8>, RowFault> {
    let mut all = Vec::new(alloc);
    let mut held = 0usize;
    for byte in whole {
        if *byte == b'[' {
            held = 0;
        } else if *byte != b']' {
            if held >= size {
                all.extend_from_slice(b"][")?;
                held = 0;
            }
            held = held.saturating_add(1);
        }
        all.push(*byte)?;
    }
    Ok(all)
}

/// What keys come to: the echo, the signals, and what reads of one length get, with a line between each two.
fn acted(alloc: Global, typed: &[u8], size: usize) -> Result<(Vec<u8>, Vec<u8>), RowFault> {
    let mut tty = Tty::new(alloc, 100);
    let raised = press(alloc, &mut tty, typed)?;
    let mut seen = tty.terminal().to_vec(alloc)?;
    let got = reads(alloc, &mut tty, size)?;
    drop(tty);
    seen.push(b'|')?;
    seen.extend_from_slice(&raised)?;
    Ok((seen, got))
}

/// What keys come to, where reads of each length get the pieces of what long ones get; else what those of another length get.
pub(crate) fn keys(alloc: Global, typed: &[u8]) -> Result<Vec<u8>, RowFault> {
    let (mut seen, whole) = acted(alloc, typed, 100)?;
    for size in [1usize, 2, 3, 4] {
        let (_, got) = acted(alloc, typed, size)?;
        if got.as_slice() != in_pieces(alloc, &whole, size)?.as_slice() {
            return Ok(got);
        }
    }
    seen.push(b'|')?;
    seen.extend_from_slice(&whole)?;
    Ok(seen)
}

/// What a line of so many bytes comes to.
pub(crate) fn long(alloc: Global, keys: &[u8]) -> Result<Vec<u8>, RowFault> {
    let mut tty = Tty::new(alloc, 100);
    let typed = vec![in alloc; b'a'; number_of(keys).unwrap_or(0)]?;
    let raised = press(alloc, &mut tty, &typed)?;
    press(alloc, &mut tty, b"\n")?;
    let shown = tty.terminal().len();
    let mut buffer = vec![in alloc; 0u8; 5000]?;
    let read = tty.read(&mut buffer).unwrap_or(0);
    let waits = tty.read(&mut buffer) == Err(TtyFault::WouldWait);
    drop(tty);
    let waits = waits && raised.is_empty();
    Ok(format!(in alloc; "{shown} {read} {waits}")?.into_bytes())
}

/// Says what a read gets.
fn read(alloc: Global, tty: &mut Tty, size: usize, said: &mut Vec<u8>) -> Result<(), RowFault> {
    let mut buffer = vec![in alloc; 0u8; size]?;
    match tty.read(&mut buffer) {
        Ok(count) => Ok(say(said, buffer.get(..count).unwrap_or(b"?"))?),
        Err(TtyFault::WouldWait) => Ok(say(said, b"waits")?),
        Err(TtyFault::NoMemory(_)) => Err(RowFault::NoMemory),
    }
}

/// Takes a step.
fn take(alloc: Global, tty: &mut Tty, step: &[u8], said: &mut Vec<u8>) -> Result<(), RowFault> {
    if is(step, 0, "write") {
        let bytes = bytes_of(alloc, word(step, 1))?;
        return match tty.write(&bytes) {
            Ok(()) => Ok(say(said, b"ok")?),
            Err(_) => Err(RowFault::NoMemory),
        };
    }
    if is(step, 0, "key") {
        let raised = press(alloc, tty, word(step, 1))?;
        return Ok(say(said, &raised)?);
    }
    if is(step, 0, "read") {
        return read(alloc, tty, count(step, 1), said);
    }
    if is(step, 0, "reads") {
        let got = reads(alloc, tty, count(step, 1))?;
        return Ok(say(said, &got)?);
    }
    if is(step, 0, "ready") {
        return Ok(say(said, truth(tty.is_readable()))?);
    }
    if is(step, 0, "group") {
        tty.set_foreground(process(step, 1));
        let text = format!(in alloc; "{}", tty.foreground())?;
        return Ok(say(said, text.as_bytes())?);
    }
    Ok(say(said, tty.terminal())?)
}

/// What steps of a terminal answer.
pub(crate) fn answers(alloc: Global, steps: &[u8]) -> Result<Vec<u8>, RowFault> {
    let mut tty = Tty::new(alloc, 100);
    let mut said = Vec::new(alloc);
    for step in steps.split(|byte| *byte == b';') {
        take(alloc, &mut tty, step, &mut said)?;
    }
    drop(tty);
    Ok(said)
}

/// The numbers of the signals that keys raise; 0 where a key raises none.
pub(crate) fn numbers(alloc: Global) -> Result<Vec<u8>, RowFault> {
    let mut tty = Tty::new(alloc, 100);
    let mut said = Vec::new(alloc);
    for key in [3u8, 28, 26] {
        let number = match tty.key(key) {
            Ok(Some(signal)) => signal.number(),
            Ok(None) => 0,
            Err(_) => return Err(RowFault::NoMemory),
        };
        let text = format!(in alloc; "{number}")?;
        say(&mut said, text.as_bytes())?;
    }
    drop(tty);
    Ok(said)
}
