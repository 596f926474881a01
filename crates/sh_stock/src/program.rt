// The stock programs and their turns.
ghost use Rattle.std.specs.Prelude.{◌≡◌, IfOk, codes};
ghost use Rattle.sh_stock.specs.Programs.{cat_turn, count_read, count_turn, ending_turn, ends, having_ends, having_goes_on, having_read, having_turn, head_of, head_turn, idles, program_turn, reads, reads_one, readstop_read, readstop_turn, spin_turn, writes, writes_any, writing_turn, yes_turn};

use crate::asking::{Answer, Ask, Turn};
use crate::lines::{contains, find_end, has_newline, keep_lines};
use crate::name::Name;
use crate::start::started;
use crate::stock::{Filter, Stock};
use itoa::Buffer;
use sh_base::NoMemory;
use sh_base::sequence::Text;
use std::alloc::Global;
use std::mem;

/// The most bytes that `cat`, `head`, `having` and `count` read at once.
const READ: usize = 1024;

/// What `having` looks for, and what it has read of a line.
#[derive(Drop)]
pub struct Search {
    /// The text that the lines are to contain.
    pub text: Text,
    /// The unfinished line.
    pub line: Text,
    /// Whether a line was written.
    pub found: bool,
}

/// A stock program between two of its turns.
#[derive(Drop)]
pub enum Program {
    /// It ends with this status: `true`, `false`, one with wrong operands, and one that has done its work.
    Ending(u8),
    /// It writes this text, if the text has bytes, and ends with 0: `echo`, and `readstop` when continued.
    Writing(Text),
    /// It writes what it reads.
    Cat,
    /// It writes `y` and a newline for ever.
    Yes,
    /// It is idle for ever.
    Spin,
    /// `head` with this many lines left to write.
    Head(u64),
    /// It writes the lines that contain a text.
    Having(Search),
    /// `count` with the number of bytes so far, or 2^128 - 1 where there are more.
    Count(u128),
    /// `readstop` with the line so far.
    ReadStop(Text),
}

impl Stock for Program {
    ghost use Rattle.sh_stock.specs.Programs.{programs};
    ghost use Rattle.sh_stock.specs.ProgramLaws.{programs-laws};

    ghost meaning = { programs };

    ghost laws = { programs-laws };

    fn start(alloc: Global, name: &[u8], operands: &[Text]) -> Result<Option<Program>, NoMemory> {
        match Name::of(name) {
            Some(name) => Ok(Some(started(alloc, name, operands)?)),
            None => Ok(None),
        }
    }

    fn turn(&mut self, alloc: Global, answer: Answer) -> Result<Ask, NoMemory> {
        let program = mem::replace(self, Program::Ending(1));
        let Turn { program, ask } = step(alloc, program, answer)?;
        *self = program;
        Ok(ask)
    }
}

impl Filter for Program {
    ghost use Rattle.sh_stock.specs.Filters.{filterings};
    ghost use Rattle.sh_stock.specs.FilterLaws.{programs-filter_laws};

    ghost filtering = { filterings };

    ghost filter_laws = { programs-filter_laws };
}

/// A program and its next ask, once its last ask is answered. The only error is want of memory.
fn step(alloc: Global, program: Program, answer: Answer) -> Result<Turn<Program>, NoMemory>
    ensures { IfOk result (λ turn. turn ≡ program_turn program answer) }
{
    match program {
        Program::Ending(status) => Ok(ending_turn(status, answer)),
        Program::Writing(text) => Ok(writing_turn(text, answer)),
        Program::Cat => Ok(cat_turn(answer)),
        Program::Yes => yes_turn(alloc, answer),
        Program::Spin => Ok(spin_turn(answer)),
        Program::Head(lines) => Ok(head_turn(lines, answer)),
        Program::Having(search) => having_turn(alloc, search, answer),
        Program::Count(count) => count_turn(alloc, count, answer),
        Program::ReadStop(line) => readstop_turn(line, answer),
    }
}

/// The turn in which a program ends.
fn ends(status: u8) -> Turn<Program>
    ensures { result ≡ ends status }
{
    Turn {
        program: Program::Ending(status),
        ask: Ask::End(status),
    }
}

/// The turn in which a program asks for a read.
fn reads(program: Program) -> Turn<Program>
    ensures { result ≡ reads program }
{
    Turn {
        program,
        ask: Ask::Read(READ),
    }
}

/// The turn in which a program writes. It ends with 0 where there is nothing to write.
fn writes_any(bytes: Text, next: Program) -> Turn<Program>
    ensures { result ≡ writes_any bytes next }
{
    if bytes.is_empty() {
        return ends(0);
    }
    Turn {
        program: next,
        ask: Ask::Write(bytes),
    }
}

fn ending_turn(status: u8, answer: Answer) -> Turn<Program>
    ensures { result ≡ ending_turn status answer }
{
    match answer {
        Answer::Started => ends(status),
        Answer::Bytes(_) => ends(status),
        Answer::Done => ends(status),
        Answer::Failed => ends(1),
    }
}

fn writing_turn(text: Text, answer: Answer) -> Turn<Program>
    ensures { result ≡ writing_turn text answer }
{
    match answer {
        Answer::Started => writes_any(text, Program::Ending(0)),
        Answer::Bytes(_) => writes_any(text, Program::Ending(0)),
        Answer::Done => writes_any(text, Program::Ending(0)),
        Answer::Failed => ends(1),
    }
}

fn cat_turn(answer: Answer) -> Turn<Program>
    ensures { result ≡ cat_turn answer }
{
    match answer {
        Answer::Started => reads(Program::Cat),
        Answer::Bytes(bytes) => writes_any(bytes, Program::Cat),
        Answer::Done => reads(Program::Cat),
        Answer::Failed => ends(1),
    }
}

/// The turn in which `yes` writes.
fn affirm(alloc: Global) -> Result<Turn<Program>, NoMemory>
    ensures { IfOk result (λ turn. turn ≡ writes (codes "y\n") Program.Yes) }
{
    Ok(Turn {
        program: Program::Yes,
        ask: Ask::Write(Text::copy_of(alloc, b"y\n")?),
    })
}

fn yes_turn(alloc: Global, answer: Answer) -> Result<Turn<Program>, NoMemory>
    ensures { IfOk result (λ turn. turn ≡ yes_turn answer) }
{
    match answer {
        Answer::Started => affirm(alloc),
        Answer::Bytes(_) => affirm(alloc),
        Answer::Done => affirm(alloc),
        Answer::Failed => Ok(ends(1)),
    }
}

/// The turn in which `spin` does nothing.
fn idles() -> Turn<Program>
    ensures { result ≡ idles }
{
    Turn {
        program: Program::Spin,
        ask: Ask::Idle,
    }
}

fn spin_turn(answer: Answer) -> Turn<Program>
    ensures { result ≡ spin_turn answer }
{
    match answer {
        Answer::Started => idles(),
        Answer::Bytes(_) => idles(),
        Answer::Done => idles(),
        Answer::Failed => ends(1),
    }
}

/// `head` with this many lines left to write.
pub(crate) fn head_of(lines: u64) -> Program
    ensures { result ≡ head_of lines }
{
    if lines == 0 {
        return Program::Ending(0);
    }
    Program::Head(lines)
}

fn head_turn(lines: u64, answer: Answer) -> Turn<Program>
    ensures { result ≡ head_turn lines answer }
{
    match answer {
        Answer::Started => reads(Program::Head(lines)),
        Answer::Bytes(mut bytes) => {
            let (len, missing) = find_end(lines, bytes.as_slice());
            bytes.truncate(len);
            writes_any(bytes, head_of(missing))
        },
        Answer::Done => reads(Program::Head(lines)),
        Answer::Failed => ends(1),
    }
}

/// The turn of `having` at end of file.
fn having_ends(search: Search) -> Turn<Program>
    ensures { result ≡ having_ends search }
{
    let Search { text, line, found } = search;
    if !line.is_empty() && contains(text.as_slice(), line.as_slice()) {
        return Turn {
            program: Program::Ending(0),
            ask: Ask::Write(line),
        };
    }
    ends(if found { 0 } else { 1 })
}

/// The turn of `having` with these lines to write. It reads where there are none.
fn having_goes_on(search: Search, kept: Text) -> Turn<Program>
    ensures { result ≡ having_goes_on search kept }
{
    if kept.is_empty() {
        return reads(Program::Having(search));
    }
    let found = true;
    Turn {
        program: Program::Having(Search { found, ..search }),
        ask: Ask::Write(kept),
    }
}

/// The turn of `having` when it has read.
fn having_read(alloc: Global, search: Search, bytes: &[u8]) -> Result<Turn<Program>, NoMemory>
    ensures { IfOk result (λ turn. turn ≡ having_read search bytes.now) }
{
    if bytes.is_empty() {
        return Ok(having_ends(search));
    }
    let Search { text, line, found } = search;
    let mut line = line;
    let kept = keep_lines(alloc, text.as_slice(), &mut line, bytes)?;
    Ok(having_goes_on(Search { text, line, found }, kept))
}

fn having_turn(alloc: Global, search: Search, answer: Answer) -> Result<Turn<Program>, NoMemory>
    ensures { IfOk result (λ turn. turn ≡ having_turn search answer) }
{
    match answer {
        Answer::Started => Ok(reads(Program::Having(search))),
        Answer::Bytes(bytes) => having_read(alloc, search, bytes.as_slice()),
        Answer::Done => Ok(reads(Program::Having(search))),
        Answer::Failed => Ok(ends(1)),
    }
}

/// The turn of `count` when it has read.
fn count_read(alloc: Global, count: u128, bytes: &[u8]) -> Result<Turn<Program>, NoMemory>
    ensures { IfOk result (λ turn. turn ≡ count_read count bytes.now) }
{
    if !bytes.is_empty() {
        let sum = count.saturating_add(bytes.len() as u128);
        return Ok(reads(Program::Count(sum)));
    }
    let mut buffer = Buffer::new();
    let mut text = Text::copy_of(alloc, buffer.format(count).as_bytes())?;
    text.push(b'\n')?;
    Ok(Turn {
        program: Program::Ending(0),
        ask: Ask::Write(text),
    })
}

fn count_turn(alloc: Global, count: u128, answer: Answer) -> Result<Turn<Program>, NoMemory>
    ensures { IfOk result (λ turn. turn ≡ count_turn count answer) }
{
    match answer {
        Answer::Started => Ok(reads(Program::Count(count))),
        Answer::Bytes(bytes) => count_read(alloc, count, bytes.as_slice()),
        Answer::Done => Ok(reads(Program::Count(count))),
        Answer::Failed => Ok(ends(1)),
    }
}

/// The turn of `readstop` in which it asks for the next byte.
fn reads_one(line: Text) -> Turn<Program>
    ensures { result ≡ reads_one (Program.ReadStop line) }
{
    Turn {
        program: Program::ReadStop(line),
        ask: Ask::Read(1),
    }
}

/// The turn of `readstop` when it has read.
fn readstop_read(line: Text, bytes: &[u8]) -> Result<Turn<Program>, NoMemory>
    ensures { IfOk result (λ turn. turn ≡ readstop_read line bytes.now) }
{
    let mut line = line;
    line.extend_from_slice(bytes)?;
    if !bytes.is_empty() && !has_newline(bytes) {
        return Ok(reads_one(line));
    }
    Ok(Turn {
        program: Program::Writing(line),
        ask: Ask::Stop,
    })
}

fn readstop_turn(line: Text, answer: Answer) -> Result<Turn<Program>, NoMemory>
    ensures { IfOk result (λ turn. turn ≡ readstop_turn line answer) }
{
    match answer {
        Answer::Started => Ok(reads_one(line)),
        Answer::Bytes(bytes) => readstop_read(line, bytes.as_slice()),
        Answer::Done => Ok(reads_one(line)),
        Answer::Failed => Ok(ends(1)),
    }
}
