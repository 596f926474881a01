//! Input that was handed over.
ghost use Rattle.std.specs.Prelude.{◌≡◌, ◌≤◌, IfOk, IfSome, MatchOption, drop, length, option_map, take};
ghost use Rattle.sh_tty.specs.Keys.{read_of, entries_after_read};

use std::alloc::{AllocError, Global};
use std::collections::VecDeque;
use std::marker::Model;

/// A line, or what is left of one.
#[derive(Debug, Drop)]
pub struct Line {
    bytes: Vec<u8>,
}

impl Model for Line {
    ghost use Rattle.std.specs.Prelude.{List, ℕ};

    ghost Value = { List ℕ };

    ghost view = { λ l. l.bytes.items };
}

impl Line {
    /// The line of these bytes. Takes no memory.
    pub(crate) fn new(bytes: Vec<u8>) -> Self
        ensures { result ≡ bytes.items }
    {
        Line { bytes }
    }

    /// A copy, which is equal. The only error is want of memory.
    fn copy(&self, alloc: Global) -> Result<Line, AllocError>
        ensures { IfOk result (λ copy. copy ≡ self.now) }
    {
        let bytes = Vec::from_slice(alloc, &self.bytes)?;
        Ok(Line { bytes })
    }

    /// Its bytes.
    fn as_slice(&self) -> &[u8]
        ensures { result.now ≡ self.now }
    {
        self.bytes.as_slice()
    }

    /// Removes its first bytes.
    fn remove_front(&mut self, count: usize)
        requires { count ≤ length self.old }
        ensures { self.new ≡ drop count self.old }
    {
        let rest = self.bytes.len() - count;
        self.bytes.copy_within(count.., 0);
        self.bytes.truncate(rest);
    }
}

/// What a read may get.
#[derive(Debug, Drop)]
pub enum Entry {
    /// A line.
    Line(Line),
    /// An end of file.
    EndOfFile,
}

impl Entry {
    /// A copy, which is equal. The only error is want of memory.
    fn copy(&self, alloc: Global) -> Result<Entry, AllocError>
        ensures { IfOk result (λ copy. copy ≡ self.now) }
    {
        match self {
            Entry::Line(line) => Ok(Entry::Line(line.copy(alloc)?)),
            Entry::EndOfFile => Ok(Entry::EndOfFile),
        }
    }
}

/// Copies of these entries, in order. The only error is want of memory.
pub(crate) fn copy_entries(
    alloc: Global,
    entries: &VecDeque<Entry>,
) -> Result<VecDeque<Entry>, AllocError>
    ensures { IfOk result (λ copies. copies.items ≡ entries.now.items) }
{
    let mut copies = VecDeque::with_capacity(alloc, entries.len())?;
    for entry in entries {
        copies.push_back(entry.copy(alloc)?)?;
    }
    Ok(copies)
}

/// Copies what a read gets from the first entry into the front of a buffer, and says how many bytes these
/// are.
pub(crate) fn copy_first(entries: &VecDeque<Entry>, buf: &mut [u8]) -> Option<usize>
    ensures count { option_map (λ n. take n buf.new) result
        ≡ read_of (length buf.old) entries.now.items }
    ensures rest { MatchOption result (buf.new ≡ buf.old) (λ n. drop n buf.new ≡ drop n buf.old) }
    ensures within { IfSome result (λ n. n ≤ length buf.old) }
{
    match entries.front()? {
        Entry::EndOfFile => Some(0),
        Entry::Line(line) => {
            let bytes = line.as_slice();
            let count = buf.len().min(bytes.len());
            buf[..count].copy_from_slice(&bytes[..count]);
            Some(count)
        },
    }
}

/// Takes from the first entry what a read of up to so many bytes gets.
pub(crate) fn take_first(entries: &mut VecDeque<Entry>, count: usize)
    ensures { entries.new.items ≡ entries_after_read count entries.old.items }
{
    let Some(first) = entries.pop_front() else {
        return;
    };
    let Entry::Line(line) = first else {
        return;
    };
    let mut line = line;
    if line.as_slice().len() <= count {
        return;
    }
    line.remove_front(count);
    let _ = entries.push_front(Entry::Line(line));
}
