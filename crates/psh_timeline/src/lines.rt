//! A run as lines.
use crate::names::{put_action, put_fate, put_number};
use crate::record::{Cause, Record, Row, Turn};
use sh_base::NoMemory;
use sh_base::sequence::Text;
use std::alloc::Global;

/// The digits of a byte that isn't shown as it is.
const DIGITS: &[u8; 16] = b"0123456789abcdef";

/// Adds a byte: a printing character of ASCII as it is, others as `\n`, `\t`, `\\` or `\xHH`.
fn put_byte(out: &mut Vec<u8>, byte: u8) -> Result<(), NoMemory> {
    match byte {
        b'\n' => out.extend_from_slice(b"\\n")?,
        b'\t' => out.extend_from_slice(b"\\t")?,
        b'\\' => out.extend_from_slice(b"\\\\")?,
        b' '..=b'~' => out.push(byte)?,
        _ => {
            out.extend_from_slice(b"\\x")?;
            put_digits(out, byte)?;
        },
    }
    Ok(())
}

/// Adds the two hexadecimal digits of a byte.
fn put_digits(out: &mut Vec<u8>, byte: u8) -> Result<(), NoMemory> {
    out.push(DIGITS[usize::from(byte / 16)])?;
    out.push(DIGITS[usize::from(byte % 16)])?;
    Ok(())
}

/// Adds bytes, escaped, so that they stand on one line of ASCII.
pub fn put_escaped(out: &mut Vec<u8>, bytes: &[u8]) -> Result<(), NoMemory> {
    for byte in bytes {
        put_byte(out, *byte)?;
    }
    Ok(())
}

/// Adds words with a space between two.
fn put_words(out: &mut Vec<u8>, words: &[Text]) -> Result<(), NoMemory> {
    let mut is_first = true;
    for word in words {
        if !is_first {
            out.push(b' ')?;
        }
        put_escaped(out, word.as_slice())?;
        is_first = false;
    }
    Ok(())
}

/// Adds what a process runs after so many turns: the words of a program, or `sh` for a shell.
pub fn put_command(out: &mut Vec<u8>, row: &Row, turns: usize) -> Result<(), NoMemory> {
    if row.words.is_empty() || turns < row.started {
        out.extend_from_slice(b"sh")?;
        return Ok(());
    }
    put_words(out, row.words.as_slice())
}

/// Adds the process of a turn: its number and what it runs before it.
fn put_process(out: &mut Vec<u8>, row: Option<&Row>, turns: usize) -> Result<(), NoMemory> {
    let Some(row) = row else {
        return Ok(());
    };
    put_number(out, u64::from(row.pid))?;
    out.push(b'\t')?;
    put_command(out, row, turns)
}

/// Adds the process that a turn made.
fn put_made(out: &mut Vec<u8>, row: Option<&Row>) -> Result<(), NoMemory> {
    let Some(row) = row else {
        return Ok(());
    };
    out.extend_from_slice(b", process ")?;
    put_number(out, u64::from(row.pid))
}

/// Adds the line of a turn, but for its number.
fn put_turn(out: &mut Vec<u8>, record: &Record, turn: &Turn, turns: usize) -> Result<(), NoMemory> {
    match turn.cause {
        Cause::Turn(by) => {
            put_process(out, record.rows.get(by.process), turns)?;
            out.push(b'\t')?;
            put_action(out, by.action)?;
            if let Some(made) = turn.made {
                put_made(out, record.rows.get(made))?;
            }
            put_fate(out, by.status)?;
        },
        Cause::Key(byte) => {
            out.extend_from_slice(b"-\tterminal\tkey ")?;
            put_digits(out, byte)?;
        },
    }
    out.push(b'\t')?;
    put_escaped(out, turn.written.as_slice())?;
    out.push(b'\n')?;
    Ok(())
}

/// A run as lines, one a turn: its number from 1 on, the number of the process, what the process runs, what it does, and what the terminal
/// gets, with tabs between them. A key has a line of its own, with `-` and `terminal` in place of a process.
pub fn lines_of(alloc: Global, record: &Record) -> Result<Vec<u8>, NoMemory> {
    let mut out = Vec::new(alloc);
    let mut turns = 0usize;
    for turn in &record.turns {
        put_number(&mut out, (turns as u64).saturating_add(1))?;
        out.push(b'\t')?;
        put_turn(&mut out, record, turn, turns)?;
        turns = turns.saturating_add(1);
    }
    Ok(out)
}
