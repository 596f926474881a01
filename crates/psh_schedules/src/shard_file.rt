//! The file of a shard: what was asked for, and what was found.
use crate::PROGRAM;
use crate::shard_words::{behind, number, shard_of};
use crate::telling::{events_text, put_number};
use psh_common::{EventFault, read_events};
use sh_base::NoMemory;
use sh_base::decimal::{all_digits, limited_value};
use sh_schedules::{Event, Exploration, Found, Kept, Shard};
use std::alloc::{AllocError, AllocFailed, Global};

/// What the file of a shard holds.
#[derive(Drop)]
pub struct ShardFile {
    /// Which shard it is.
    pub shard: Shard,
    /// The words of the command line behind those that name the shard.
    pub words: Vec<Vec<u8>>,
    /// The bytes of the image.
    pub image: Vec<u8>,
    /// The number of the line that stands before them.
    pub image_line: u64,
    /// How many schedules were tried.
    pub schedules: u64,
    /// Whether these are all of the shard.
    pub is_complete: bool,
    /// What was found.
    pub kept: Vec<Kept>,
}

/// Why a file is not that of a shard.
#[derive(Drop)]
pub enum ShardFault {
    /// A line isn't as a shard writes it. Lines count from 1.
    BadLine { line: u64 },
    /// No memory was found.
    NoMemory(NoMemory),
}

impl From<NoMemory> for ShardFault {
    fn from(lack: NoMemory) -> Self {
        ShardFault::NoMemory(lack)
    }
}

impl From<AllocError> for ShardFault {
    fn from(error: AllocError) -> Self {
        ShardFault::NoMemory(NoMemory::from(error))
    }
}

impl<T: Drop> From<AllocFailed<T>> for ShardFault {
    fn from(error: AllocFailed<T>) -> Self {
        ShardFault::NoMemory(NoMemory::from(error))
    }
}

// ---- writing

/// Adds a line with a name and a number.
fn put_line(out: &mut Vec<u8>, name: &[u8], number: u64) -> Result<(), NoMemory> {
    out.extend_from_slice(name)?;
    out.push(b' ')?;
    put_number(out, number)?;
    out.push(b'\n')?;
    Ok(())
}

/// Adds bytes with their name and length.
fn put_block(out: &mut Vec<u8>, name: &[u8], bytes: &[u8]) -> Result<(), NoMemory> {
    put_line(out, name, bytes.len() as u64)?;
    out.extend_from_slice(bytes)?;
    out.push(b'\n')?;
    Ok(())
}

/// Adds the line that says which shard it is.
fn put_shard(out: &mut Vec<u8>, shard: Shard) -> Result<(), NoMemory> {
    let number = u64::from(shard.before) + 1;
    out.extend_from_slice(PROGRAM.as_bytes())?;
    out.extend_from_slice(b" shard ")?;
    put_number(out, number)?;
    out.extend_from_slice(b" of ")?;
    put_number(out, number + u64::from(shard.behind))?;
    out.push(b'\n')?;
    Ok(())
}

/// Adds what was asked for.
fn put_asked(out: &mut Vec<u8>, words: &[Vec<u8>], image: &[u8]) -> Result<(), NoMemory> {
    put_line(out, b"words", words.len() as u64)?;
    for word in words {
        put_block(out, b"word", word.as_slice())?;
    }
    put_block(out, b"image", image)
}

/// Adds an outcome: how many schedules come to it, and the events of one.
fn put_found(alloc: Global, out: &mut Vec<u8>, found: &Found) -> Result<(), NoMemory> {
    let events = events_text(alloc, found.events.as_slice())?;
    put_line(out, b"outcome", found.schedules)?;
    put_block(out, b"events", events.as_slice())
}

/// Adds what was found.
fn put_exploration(
    alloc: Global,
    out: &mut Vec<u8>,
    exploration: &Exploration,
) -> Result<(), NoMemory> {
    put_line(out, b"schedules", exploration.schedules)?;
    put_line(out, b"complete", u64::from(exploration.is_complete))?;
    put_line(out, b"outcomes", exploration.found.len() as u64)?;
    for found in &exploration.found {
        put_found(alloc, out, found)?;
    }
    out.extend_from_slice(b"end\n")?;
    Ok(())
}

/// The text of the file of a shard.
pub fn shard_text(
    alloc: Global,
    shard: Shard,
    words: &[Vec<u8>],
    image: &[u8],
    exploration: &Exploration,
) -> Result<Vec<u8>, NoMemory> {
    let mut out = Vec::new(alloc);
    put_shard(&mut out, shard)?;
    put_asked(&mut out, words, image)?;
    put_exploration(alloc, &mut out, exploration)?;
    Ok(out)
}

// ---- reading

/// What is left of a file, and the number of the line where that begins.
#[derive(Drop)]
struct Left<'a> {
    rest: &'a [u8],
    line: u64,
}

/// A line is not as a shard writes it.
fn bad<T>(line: u64) -> Result<T, ShardFault> {
    Err(ShardFault::BadLine { line })
}

/// How many newlines there are.
fn newlines(bytes: &[u8]) -> u64 {
    let mut count = 0u64;
    for byte in bytes {
        if *byte == b'\n' {
            count = count.saturating_add(1);
        }
    }
    count
}

impl<'a> Left<'a> {
    /// So many bytes, and the newline behind them.
    fn bytes(&mut self, length: usize) -> Result<&'a [u8], ShardFault> {
        let line = self.line;
        let rest = self.rest;
        if length >= rest.len() {
            return bad(line);
        }
        let (bytes, following) = rest.split_at(length);
        let Some((newline, others)) = following.split_first() else {
            return bad(line);
        };
        self.line = line.saturating_add(newlines(bytes)).saturating_add(1);
        self.rest = others;
        if *newline != b'\n' {
            return bad(line.saturating_add(newlines(bytes)));
        }
        Ok(bytes)
    }

    /// A line, without its newline.
    fn line(&mut self) -> Result<&'a [u8], ShardFault> {
        match self.rest.iter().position(|byte| *byte == b'\n') {
            Some(length) => self.bytes(length),
            None => bad(self.line),
        }
    }

    /// The number of a line with this name and at most so much.
    fn number(&mut self, name: &[u8], most: u64) -> Result<u64, ShardFault> {
        let at = self.line;
        let line = self.line()?;
        match number_behind(line, name, most) {
            Some(number) => Ok(number),
            None => bad(at),
        }
    }

    /// The bytes whose name and length the next line gives.
    fn block(&mut self, name: &[u8]) -> Result<&'a [u8], ShardFault> {
        let length = self.number(name, 4_294_967_296)?;
        self.bytes(length as usize)
    }
}

/// The number behind a name and a space.
fn number_behind(line: &[u8], name: &[u8], most: u64) -> Option<u64> {
    let (space, digits) = behind(line, name)?.split_first()?;
    if *space != b' ' || digits.is_empty() || digits.len() > 20 || !all_digits(digits) {
        return None;
    }
    limited_value(digits, most)
}

/// The shard that the first line names.
fn shard_line(line: &[u8]) -> Option<Shard> {
    let rest = behind(line, b"psh-schedules shard ")?;
    let place = rest.iter().position(|byte| *byte == b' ')?;
    let (first, others) = rest.split_at(place);
    shard_of(number(first)?, number(behind(others, b" of ")?)?)
}

/// Adds the places of events, which all give turns by places; it answers whether they do.
fn add_places(places: &mut Vec<u32>, event: Event, times: u32) -> Result<bool, NoMemory> {
    let Event::Run(place) = event else {
        return Ok(false);
    };
    for _ in 0..times {
        places.push(place)?;
    }
    Ok(true)
}

/// The places of the events of a text whose first line has this number.
fn places_of(alloc: Global, text: &[u8], line: u64) -> Result<Vec<u32>, ShardFault> {
    let turns = match read_events(alloc, text) {
        Ok(turns) => turns,
        Err(EventFault::BadEvent { line: at }) => return bad(line.saturating_add(at.saturating_sub(
            1,
        ))),
        Err(EventFault::NoMemory(lack)) => return Err(ShardFault::NoMemory(lack)),
    };
    let mut places = Vec::new(alloc);
    for turn in &turns {
        if !add_places(&mut places, turn.event, turn.times)? {
            return bad(line);
        }
    }
    Ok(places)
}

/// Reads what was found of an outcome.
fn read_kept(alloc: Global, left: &mut Left<'_>) -> Result<Kept, ShardFault> {
    let schedules = left.number(b"outcome", u64::MAX)?;
    let line = left.line.saturating_add(1);
    let text = left.block(b"events")?;
    let places = places_of(alloc, text, line)?;
    Ok(Kept { schedules, places })
}

/// Reads what was found of outcomes.
fn read_all_kept(alloc: Global, left: &mut Left<'_>) -> Result<Vec<Kept>, ShardFault> {
    let count = left.number(b"outcomes", 4_294_967_296)?;
    let mut kept = Vec::new(alloc);
    for _ in 0..count {
        kept.push(read_kept(alloc, left)?)?;
    }
    Ok(kept)
}

/// Reads the words.
fn read_words(alloc: Global, left: &mut Left<'_>) -> Result<Vec<Vec<u8>>, ShardFault> {
    let count = left.number(b"words", 4_294_967_296)?;
    let mut words = Vec::new(alloc);
    for _ in 0..count {
        words.push(left.block(b"word")?.to_vec(alloc)?)?;
    }
    Ok(words)
}

/// Reads the end, behind which there is nothing.
fn read_end(left: &mut Left<'_>) -> Result<(), ShardFault> {
    let at = left.line;
    if left.line()? != b"end".as_slice() {
        return bad(at);
    }
    if !left.rest.is_empty() {
        return bad(left.line);
    }
    Ok(())
}

/// What the bytes of a shard's file hold. The error tells the first line that isn't as a shard writes it, or want of memory.
pub fn read_shard(alloc: Global, bytes: &[u8]) -> Result<ShardFile, ShardFault> {
    let mut left = Left {
        rest: bytes,
        line: 1,
    };
    let Some(shard) = shard_line(left.line()?) else {
        return bad(1);
    };
    let words = read_words(alloc, &mut left)?;
    let image_line = left.line;
    let image = left.block(b"image")?.to_vec(alloc)?;
    let schedules = left.number(b"schedules", u64::MAX)?;
    let is_complete = left.number(b"complete", 1)? == 1;
    let kept = read_all_kept(alloc, &mut left)?;
    read_end(&mut left)?;
    Ok(ShardFile {
        shard,
        words,
        image,
        image_line,
        schedules,
        is_complete,
        kept,
    })
}
