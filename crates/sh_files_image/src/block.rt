// Adjacent entries of a table.
ghost use Rattle.std.specs.Prelude.{◌≡◌, ◌++◌, ◌∷◌, ◌≤◌, [], T, IfOk, OnErr, if◌then◌else◌, is_ok, length, option_map, true};
ghost use Rattle.std.specs.Ordering.{nat_cmp};
ghost use Rattle.std.specs.Cmp.Lexicographic.{slice_cmp};
ghost use Rattle.std.specs.FinMap as map;
ghost use Rattle.sh_files_image.specs.Blocks.{head, is_filled, starts_by};
ghost use Rattle.sh_files_image.specs.Listing.{from};
ghost use Rattle.sh_files_image.specs.Places.{IsPlace};

use crate::entry::Entry;
use std::alloc::{AllocError, Global};
use std::marker::Model;

/// Adjacent entries of a table, in the order of their paths.
#[derive(Drop)]
pub struct Block {
    entries: Vec<Entry>,
}

impl Model for Block {
    ghost use Rattle.sh_files_image.specs.Places.{Entries};

    ghost Value = { Entries };

    ghost view = { λ block. block.entries.items };
}

impl Block {
    /// A block of these entries.
    pub(crate) fn new(entries: Vec<Entry>) -> Block
        ensures { result ≡ entries.items }
    {
        Block { entries }
    }

    /// A copy, which is equal. The only error is want of memory.
    pub(crate) fn copy(&self, alloc: Global) -> Result<Block, AllocError>
        ensures { IfOk result (λ copy. copy ≡ self.now) }
    {
        let entries = copy_entries(alloc, &self.entries)?;
        Ok(Block { entries })
    }

    /// Its entries, in the order of their paths' bytes.
    pub fn entries(&self) -> &[Entry]
        ensures { result.now ≡ self.now }
    {
        self.entries.as_slice()
    }

    /// Its first entry.
    pub(crate) fn first(&self) -> Option<&Entry>
        ensures { option_map (λ entry. entry.now) result ≡ head self.now }
    {
        match self.entries() {
            [first, ..] => Some(first),
            [] => None,
        }
    }

    /// Whether it has a first entry, and that entry doesn't come after a path.
    pub(crate) fn starts_by(&self, path: &[u8]) -> bool
        ensures { result ≡ starts_by path.now self.now }
    {
        match self.entries() {
            [first, ..] => !first.is_after(path),
            [] => false,
        }
    }

    /// The number of the node at a path.
    pub(crate) fn find(&self, path: &[u8]) -> Option<usize>
        requires { T (map.is_sorted (slice_cmp nat_cmp) self.now) }
        ensures { result ≡ map.find (slice_cmp nat_cmp) path.now self.now }
    {
        match place(&self.entries, path) {
            Ok(index) => Some(self.entries[index].node()),
            Err(_) => None,
        }
    }

    /// Adds an entry; one of the same path is replaced.
    pub(crate) fn put(&mut self, entry: Entry) -> Result<(), AllocError>
        requires { T (map.is_sorted (slice_cmp nat_cmp) self.old) }
        ensures { self.new
            ≡ (if is_ok result then map.put (slice_cmp nat_cmp) entry.0 entry.1 self.old else
            self.old) }
    {
        match place(&self.entries, entry.path()) {
            Ok(index) => {
                self.entries[index] = entry;
                Ok(())
            }
            Err(index) => {
                self.entries.insert(index, entry)?;
                Ok(())
            }
        }
    }

    /// The entries from the first on that doesn't come before a text.
    pub(crate) fn rest_from(&self, text: &[u8]) -> &[Entry]
        requires { T (map.is_sorted (slice_cmp nat_cmp) self.now) }
        ensures { result.now ≡ from text.now self.now }
    {
        match place(&self.entries, text) {
            Ok(index) => &self.entries[index..],
            Err(index) => &self.entries[index..],
        }
    }

    /// Takes the upper half out.
    pub(crate) fn split(&mut self) -> Result<Block, AllocError>
        requires { 2 ≤ length self.old }
        ensures parts { IfOk result (λ upper. self.new ++ upper ≡ self.old) }
        ensures filled { IfOk result (λ upper.
            (is_filled self.new ≡ true) × (is_filled upper ≡ true)) }
        ensures err { OnErr result (self.new ≡ self.old) }
    {
        let half = self.entries.len() / 2;
        let entries = self.entries.split_off(half)?;
        Ok(Block { entries })
    }
}

/// The place of this path in these entries, or else (`Err`) the place where it belongs.
fn place(entries: &[Entry], path: &[u8]) -> Result<usize, usize>
    requires { T (map.is_sorted (slice_cmp nat_cmp) entries.now) }
    ensures { IsPlace entries.now path.now result }
{
    entries.binary_search_by(|entry| entry.path().cmp(path))
}

/// Copies of these entries, in order. The only error is want of memory.
fn copy_entries(alloc: Global, entries: &[Entry]) -> Result<Vec<Entry>, AllocError>
    ensures { IfOk result (λ copies. copies.items ≡ entries.now) }
{
    let mut copies = Vec::with_capacity(alloc, entries.len())?;
    for entry in entries {
        copies.push(entry.copy(alloc)?)?;
    }
    Ok(copies)
}
