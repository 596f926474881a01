//! The terminal.
ghost use Rattle.sh_base.specs.Memory.{no_memory};
ghost use Rattle.std.specs.Prelude.{◌≡◌, ◌≤◌, ◌++◌, ◌∷◌, [], ℕ, List, Some, None, is_some, IfOk, OnOk, OnErr, IfErr, MatchResult, drop, length, take};
ghost use Rattle.sh_tty.specs.Happenings.{Happening, after_key, bytes_of};
ghost use Rattle.sh_tty.specs.Keys.{echo, key_of, read_of, signal_of};
ghost use Rattle.sh_tty.specs.Terminal.{Extends, StandsAt, kept_entries, kept_line};
ghost use Rattle.sh_tty.specs.declared.tty.TtyFault.TheVariants as fault;

use crate::entry::{Entry, Line, copy_entries, copy_first, take_first};
use crate::key::{Key, SignalKey};
use sh_base::NoMemory;
use sh_signal::Signal;
use std::alloc::{AllocError, AllocFailed, Global};
use std::collections::VecDeque;
use std::marker::Model;
use std::mem;
use thiserror::Error;

/// How many bytes a line may have before its newline (`MAX_CANON`); more are dropped without echo.
pub const LINE_LIMIT: usize = 4095;

/// Why a call on a terminal did nothing. The terminal is as it was.
#[derive(Clone, Copy, Debug, PartialEq, Eq, Error)]
pub enum TtyFault {
    /// Nothing was handed over yet.
    #[error("the terminal has no line yet")]
    WouldWait,
    /// No memory was found.
    #[error("{0}")]
    NoMemory(NoMemory),
}

impl From<AllocError> for TtyFault {
    ghost from_gives = { λ _ e. e ≡ fault.NoMemory no_memory };

    fn from(error: AllocError) -> Self {
        TtyFault::NoMemory(NoMemory::from(error))
    }
}

impl<T: Drop> From<AllocFailed<T>> for TtyFault {
    ghost from_gives = { λ _ e. e ≡ fault.NoMemory no_memory };

    fn from(error: AllocFailed<T>) -> Self {
        TtyFault::NoMemory(NoMemory::from(error))
    }
}

/// A terminal in canonical mode, without output processing. It stands at a list of happenings (keys,
/// discards, reads, writes): its bytes, its unread input and the line that is being typed are those that the
/// list makes.
#[derive(Debug, Drop)]
pub struct Tty {
    alloc: Global,
    bytes: Vec<u8>,
    entries: VecDeque<Entry>,
    line: Vec<u8>,
    foreground: u32,
}

impl Model for Tty {
    ghost use Rattle.sh_tty.specs.Terminal.{TtyKept};

    ghost Value = { TtyKept };

    ghost view = { λ t. record { bytes = t.bytes.items; entries = t.entries.items; line = t.line.items; foreground = t.foreground } };
}

/// Ends the line, which is handed over with its newline.
fn end_line(
    alloc: Global,
    bytes: &mut Vec<u8>,
    entries: &mut VecDeque<Entry>,
    line: &mut Vec<u8>,
) -> Result<(), TtyFault>
    ensures bytes { OnOk result
        (bytes.new.items ≡ bytes.old.items ++ echo Key.Newline line.old.items) }
    ensures entries { OnOk result
        (entries.new.items ≡ kept_entries Key.Newline entries.old.items line.old.items) }
    ensures line { OnOk result (line.new.items ≡ kept_line Key.Newline line.old.items) }
    ensures kept { OnErr result
        ((bytes.new.items ≡ bytes.old.items) × (entries.new.items ≡ entries.old.items)
        × (line.new.items ≡ line.old.items)) }
    ensures fault { IfErr result (λ fault. fault ≡ TtyFault.NoMemory no_memory) }
{
    bytes.reserve(1)?;
    entries.reserve(1)?;
    line.push(b'\n')?;
    bytes.push(b'\n')?;
    let whole = mem::replace(line, Vec::new(alloc));
    entries.push_back(Entry::Line(Line::new(whole)))?;
    Ok(())
}

/// Hands over the line so far, or an end of file where that is empty.
fn hand_over(
    alloc: Global,
    entries: &mut VecDeque<Entry>,
    line: &mut Vec<u8>,
) -> Result<(), TtyFault>
    ensures entries { OnOk result
        (entries.new.items ≡ kept_entries Key.EndOfFile entries.old.items line.old.items) }
    ensures line { OnOk result (line.new.items ≡ kept_line Key.EndOfFile line.old.items) }
    ensures kept { OnErr result
        ((entries.new.items ≡ entries.old.items) × (line.new.items ≡ line.old.items)) }
    ensures fault { IfErr result (λ fault. fault ≡ TtyFault.NoMemory no_memory) }
{
    if line.len() == 0 {
        entries.push_back(Entry::EndOfFile)?;
        return Ok(());
    }
    entries.reserve(1)?;
    let whole = mem::replace(line, Vec::new(alloc));
    entries.push_back(Entry::Line(Line::new(whole)))?;
    Ok(())
}

/// Takes back the last byte of the line.
fn erase(bytes: &mut Vec<u8>, line: &mut Vec<u8>) -> Result<(), TtyFault>
    ensures bytes { OnOk result (bytes.new.items ≡ bytes.old.items ++ echo Key.Erase line.old.items) }
    ensures line { OnOk result (line.new.items ≡ kept_line Key.Erase line.old.items) }
    ensures kept { OnErr result
        ((bytes.new.items ≡ bytes.old.items) × (line.new.items ≡ line.old.items)) }
    ensures fault { IfErr result (λ fault. fault ≡ TtyFault.NoMemory no_memory) }
{
    if line.is_empty() {
        return Ok(());
    }
    bytes.extend_from_slice(b"\x08 \x08")?;
    line.truncate(line.len() - 1);
    Ok(())
}

/// Adds a byte of text to the line, and echoes it, unless the line is full.
fn put(byte: u8, bytes: &mut Vec<u8>, line: &mut Vec<u8>) -> Result<(), TtyFault>
    ensures bytes { OnOk result
        (bytes.new.items ≡ bytes.old.items ++ echo (Key.Text byte) line.old.items) }
    ensures line { OnOk result (line.new.items ≡ kept_line (Key.Text byte) line.old.items) }
    ensures kept { OnErr result
        ((bytes.new.items ≡ bytes.old.items) × (line.new.items ≡ line.old.items)) }
    ensures fault { IfErr result (λ fault. fault ≡ TtyFault.NoMemory no_memory) }
{
    if line.len() >= LINE_LIMIT {
        return Ok(());
    }
    bytes.reserve(1)?;
    line.push(byte)?;
    bytes.push(byte)?;
    Ok(())
}

/// Raises a signal, which throws the unread input away.
fn raise(
    key: SignalKey,
    bytes: &mut Vec<u8>,
    entries: &mut VecDeque<Entry>,
    line: &mut Vec<u8>,
) -> Result<(), TtyFault>
    ensures bytes { OnOk result
        (bytes.new.items ≡ bytes.old.items ++ echo (Key.Raise key) line.old.items) }
    ensures entries { OnOk result (entries.new.items ≡ []) }
    ensures line { OnOk result (line.new.items ≡ []) }
    ensures kept { OnErr result
        ((bytes.new.items ≡ bytes.old.items) × (entries.new.items ≡ entries.old.items)
        × (line.new.items ≡ line.old.items)) }
    ensures fault { IfErr result (λ fault. fault ≡ TtyFault.NoMemory no_memory) }
{
    bytes.extend_from_slice(&key.echo())?;
    entries.clear();
    line.clear();
    Ok(())
}

/// What a key does.
fn press(
    key: Key,
    alloc: Global,
    bytes: &mut Vec<u8>,
    entries: &mut VecDeque<Entry>,
    line: &mut Vec<u8>,
) -> Result<(), TtyFault>
    ensures bytes { OnOk result (bytes.new.items ≡ bytes.old.items ++ echo key line.old.items) }
    ensures entries { OnOk result
        (entries.new.items ≡ kept_entries key entries.old.items line.old.items) }
    ensures line { OnOk result (line.new.items ≡ kept_line key line.old.items) }
    ensures kept { OnErr result
        ((bytes.new.items ≡ bytes.old.items) × (entries.new.items ≡ entries.old.items)
        × (line.new.items ≡ line.old.items)) }
    ensures fault { IfErr result (λ fault. fault ≡ TtyFault.NoMemory no_memory) }
{
    match key {
        Key::Newline => end_line(alloc, bytes, entries, line),
        Key::EndOfFile => hand_over(alloc, entries, line),
        Key::Erase => erase(bytes, line),
        Key::Raise(key) => raise(key, bytes, entries, line),
        Key::Text(byte) => put(byte, bytes, line),
        Key::Dropped => Ok(()),
    }
}

impl Tty {
    /// A terminal to which nothing happened yet, with this foreground process group. Takes no memory.
    pub fn new(alloc: Global, foreground: u32) -> Self
        ensures stands { StandsAt result [] }
        ensures foreground { result.foreground ≡ foreground }
    {
        Tty {
            alloc,
            bytes: Vec::new(alloc),
            entries: VecDeque::new(alloc),
            line: Vec::new(alloc),
            foreground,
        }
    }

    /// A copy, which is equal: it has the same bytes, unread input, line that is being typed and foreground process
    /// group, and from here on each of the two changes alone. The only error is want of memory.
    pub fn copy(&self) -> Result<Tty, AllocError>
        ensures { IfOk result (λ copy. copy ≡ self.now) }
    {
        let bytes = Vec::from_slice(self.alloc, &self.bytes)?;
        let entries = copy_entries(self.alloc, &self.entries)?;
        let line = Vec::from_slice(self.alloc, &self.line)?;
        Ok(Tty {
            alloc: self.alloc,
            bytes,
            entries,
            line,
            foreground: self.foreground,
        })
    }

    /// A key is typed. The answer is the signal that the key raises for the foreground group: 03, 1c and 1a
    /// (hexadecimal) raise one, throw unread input away, and are echoed as `^C`, `^\` and `^Z`, each with a
    /// newline. Newline ends the line; 04 hands over the line so far, or an end of file where that is empty;
    /// 7f takes back the last byte; tab and the bytes from 20 up are text; others are dropped. After an
    /// `Err`, which only want of memory gives, nothing happened.
    pub fn key(&mut self, byte: u8) -> Result<Option<Signal>, TtyFault>
        ensures stands { (hs : List Happening) → StandsAt self.old hs
            → OnOk result (StandsAt self.new (after_key byte hs)) }
        ensures signal { IfOk result (λ signal. signal ≡ signal_of (key_of byte)) }
        ensures foreground { self.new.foreground ≡ self.old.foreground }
        ensures unchanged { OnErr result (self.new ≡ self.old) }
        ensures extends { Extends self.old.bytes self.new.bytes }
        ensures fault { IfErr result (λ fault. fault ≡ TtyFault.NoMemory no_memory) }
    {
        let key = Key::of(byte);
        press(
            key,
            self.alloc,
            &mut self.bytes,
            &mut self.entries,
            &mut self.line,
        )?;
        Ok(key.signal())
    }

    /// Reads at most one line, and at most the buffer's length, into the front of the buffer, and says
    /// how many bytes these are; 0 is an end of file, which one read gets. Takes no memory. The one error is
    /// `WouldWait`, where nothing was handed over.
    pub fn read(&mut self, buf: &mut [u8]) -> Result<usize, TtyFault>
        ensures stands { (hs : List Happening) → StandsAt self.old hs
            → OnOk result (StandsAt self.new (Happening.Took (length buf.old) ∷ hs)) }
        ensures bytes { MatchResult result (λ n.
            Some (take n buf.new) ≡ read_of (length buf.old) self.old.entries)
            (λ e. (e ≡ TtyFault.WouldWait) × (read_of (length buf.old) self.old.entries ≡ None)) }
        ensures rest { MatchResult result (λ n. drop n buf.new ≡ drop n buf.old) (λ e.
            buf.new ≡ buf.old) }
        ensures within { IfOk result (λ n. n ≤ length buf.old) }
        ensures terminal { self.new.bytes ≡ self.old.bytes }
        ensures foreground { self.new.foreground ≡ self.old.foreground }
        ensures unchanged { OnErr result (self.new ≡ self.old) }
    {
        let size = buf.len();
        let Some(count) = copy_first(&self.entries, buf) else {
            return Err(TtyFault::WouldWait);
        };
        take_first(&mut self.entries, size);
        Ok(count)
    }

    /// Shows bytes that a process writes. After an `Err`, which only want of memory gives, nothing happened.
    pub fn write(&mut self, bytes: &[u8]) -> Result<(), TtyFault>
        ensures stands { (hs : List Happening) → StandsAt self.old hs
            → OnOk result (StandsAt self.new (Happening.Wrote bytes.now ∷ hs)) }
        ensures terminal { OnOk result (self.new.bytes ≡ self.old.bytes ++ bytes.now) }
        ensures input { self.new.entries ≡ self.old.entries }
        ensures foreground { self.new.foreground ≡ self.old.foreground }
        ensures unchanged { OnErr result (self.new ≡ self.old) }
        ensures fault { IfErr result (λ fault. fault ≡ TtyFault.NoMemory no_memory) }
    {
        self.bytes.extend_from_slice(bytes)?;
        Ok(())
    }

    /// The terminal's bytes: what was written, and the echo of the keys. Takes no memory.
    pub fn terminal(&self) -> &[u8]
        ensures kept { result.now ≡ self.now.bytes }
        ensures view { (hs : List Happening) → StandsAt self.now hs → result.now ≡ bytes_of hs }
    {
        self.bytes.as_slice()
    }

    /// Whether a read need not wait. Takes no memory.
    pub fn is_readable(&self) -> bool
        ensures { (n : ℕ) → result ≡ is_some (read_of n self.now.entries) }
    {
        !self.entries.is_empty()
    }

    /// The number of the foreground process group.
    pub fn foreground(&self) -> u32
        ensures { result ≡ self.now.foreground }
    {
        let Tty { foreground, .. } = self;
        *foreground
    }

    /// Makes a process group the foreground group.
    pub fn set_foreground(&mut self, group: u32)
        ensures { self.new ≡ record self.old { foreground = group } }
    {
        self.foreground = group;
    }
}
