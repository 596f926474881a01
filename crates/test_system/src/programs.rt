//! `program WORDS INPUT MOST FAULT NOTES`: the turns of a stock program: its name and operands, with `,` between them; its input; the most
//! bytes that a read gives; `r` or `w` and the number of the read or write that fails, or `.`; and what it asks for: `R` and `r` for a
//! read of 1024 bytes and of one, `S` for a stop, `I` for an idle turn, the bytes of a write in brackets, `E` and the status for the
//! end, `..` behind 20 turns. `twice` is the same of programs with one more beside them. `name WORD` is a word that names no program.
use crate::steps::{number_of, truth};
use crate::twice::WithTwice;
use sh_base::NoMemory;
use sh_stock::{Answer, Ask, Program, Stock, Text};
use std::alloc::Global;
use test_rows::{Row, RowFault};

/// What a program is run on.
#[derive(Drop)]
struct Machine<'a> {
    /// What is left of the input.
    input: &'a [u8],
    /// The most bytes that a read gives.
    most: usize,
    /// The number of the read that fails, counted down.
    failing_read: u8,
    /// The number of the write that fails, counted down.
    failing_write: u8,
}

/// Whether this is the one that fails.
fn fails(left: &mut u8) -> bool {
    let is_last = *left == 1;
    *left = left.saturating_sub(1);
    is_last
}

impl Machine<'_> {
    fn read(&mut self, alloc: Global, n: usize) -> Result<Answer, NoMemory> {
        if fails(&mut self.failing_read) {
            return Ok(Answer::Failed);
        }
        let count = n.min(self.most).min(self.input.len());
        let bytes = self.input.get(..count).unwrap_or(b"");
        self.input = self.input.get(count..).unwrap_or(b"");
        Ok(Answer::Bytes(Text::copy_of(alloc, bytes)?))
    }

    fn write(&mut self) -> Answer {
        if fails(&mut self.failing_write) {
            return Answer::Failed;
        }
        Answer::Done
    }

    /// Answers an ask, and notes it: `R` and `r` for a read of 1024 bytes and of one, `S` for a stop, `I` for an idle
    /// turn, the bytes of a write in brackets, and `E` and the status for the end.
    fn answer(
        &mut self,
        alloc: Global,
        ask: Ask,
        notes: &mut Vec<u8>,
    ) -> Result<Option<Answer>, NoMemory> {
        match ask {
            Ask::Read(n) => {
                let note = if n == 1024 { b"R" } else { b"r" };
                notes.extend_from_slice(if n == 1 || n == 1024 { note } else { b"?" })?;
                Ok(Some(self.read(alloc, n)?))
            },
            Ask::Write(text) => {
                notes.extend_from_slice(b"[")?;
                notes.extend_from_slice(text.as_slice())?;
                notes.extend_from_slice(b"]")?;
                Ok(Some(self.write()))
            },
            Ask::Stop => {
                notes.extend_from_slice(b"S")?;
                Ok(Some(Answer::Done))
            },
            Ask::Idle => {
                notes.extend_from_slice(b"I")?;
                Ok(Some(Answer::Done))
            },
            Ask::End(status) => {
                notes.extend_from_slice(&[b'E', b'0'.saturating_add(status)])?;
                Ok(None)
            },
        }
    }
}

/// The notes of a program's turns, of which there are up to 20.
fn notes<S: Stock>(alloc: Global, program: S, machine: Machine) -> Result<Vec<u8>, NoMemory> {
    let mut program = program;
    let mut machine = machine;
    let mut answer = Answer::Started;
    let mut notes = Vec::new(alloc);
    for _ in 0..20 {
        let ask = program.turn(alloc, answer)?;
        match machine.answer(alloc, ask, &mut notes)? {
            Some(next) => answer = next,
            None => return Ok(notes),
        }
    }
    notes.extend_from_slice(b"..")?;
    Ok(notes)
}

/// A command's words, which have commas between them.
fn words_of(alloc: Global, written: &[u8]) -> Result<Vec<Text>, NoMemory> {
    let mut words = Vec::new(alloc);
    for word in written.split(|byte| *byte == b',') {
        words.push(Text::copy_of(alloc, word)?)?;
    }
    Ok(words)
}

/// The number behind a letter; 0 where the letter is another.
fn failing(letter: u8, fault: &[u8]) -> u8 {
    if fault.first() == Some(&letter) {
        fault.last().unwrap_or(&b'0').saturating_sub(b'0')
    } else {
        0
    }
}

/// The notes of the program that words name.
fn noted<S: Stock>(alloc: Global, words: &[Text], machine: Machine) -> Result<Vec<u8>, NoMemory> {
    let Some((name, operands)) = words.split_first() else {
        return Ok(Vec::new(alloc));
    };
    match S::start(alloc, name.as_slice(), operands)? {
        Some(program) => notes(alloc, program, machine),
        None => Ok(Vec::new(alloc)),
    }
}

/// The notes of a row's program.
pub(crate) fn turns<S: Stock>(alloc: Global, row: &Row) -> Result<Vec<u8>, RowFault> {
    let Ok(words) = words_of(alloc, row.field(1)) else {
        return Err(RowFault::NoMemory);
    };
    let fault = row.field(4);
    let machine = Machine {
        input: row.field(2),
        most: number_of(row.field(3)).unwrap_or(1),
        failing_read: failing(b'r', fault),
        failing_write: failing(b'w', fault),
    };
    match noted::<S>(alloc, &words, machine) {
        Ok(notes) => Ok(notes),
        Err(_) => Err(RowFault::NoMemory),
    }
}

/// The notes of a row's program among the stock's, or with one more beside them.
pub(crate) fn notes_of(alloc: Global, row: &Row) -> Result<Vec<u8>, RowFault> {
    if row.is("twice", 5) {
        return turns::<WithTwice<Program>>(alloc, row);
    }
    turns::<Program>(alloc, row)
}

/// Whether a word names a program.
pub(crate) fn is_name(alloc: Global, word: &[u8]) -> Result<Vec<u8>, RowFault> {
    let operands: [Text; 0] = [];
    match Program::start(alloc, word, &operands) {
        Ok(program) => Ok(truth(program.is_some()).to_vec(alloc)?),
        Err(_) => Err(RowFault::NoMemory),
    }
}
