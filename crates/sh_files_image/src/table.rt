// Node numbers by path.
ghost use Rattle.std.specs.Prelude.{◌≡◌, ◌<◌, ◌≤◌, ◌++◌, ◌∷◌, [], IfOk, OnOk, T, if◌then◌else◌, drop, get_or, is_ok, length, option_map, true, false};
ghost use Rattle.std.specs.List.Sorted.{IsPartitionPoint};
ghost use Rattle.std.specs.Ordering.{nat_cmp};
ghost use Rattle.std.specs.Cmp.Lexicographic.{slice_cmp};
ghost use Rattle.std.specs.FinMap as map;
ghost use Rattle.sh_files_image.specs.Blocks.{AreBlocks, IsBlockOf, all_filled, flat, head, starts_by};
ghost use Rattle.sh_files_image.specs.Listing.{from};
ghost use Rattle.sh_files_image.specs.Starting.{starting_paths};

use crate::block::Block;
use crate::entry::Entry;
use std::alloc::{AllocError, Global};
use std::marker::Model;

/// A block of more entries is split.
const MAX_BLOCK: usize = 64;

/// Node numbers by path, each path once. A path is found in a number of steps that grows with the logarithm
/// of their number. To put one in moves at most [`MAX_BLOCK`] entries of its block and, where a block is
/// split, the blocks after it.
#[derive(Drop)]
pub struct Table {
    blocks: Vec<Block>,
}

impl Model for Table {
    ghost use Rattle.std.specs.FinMap as map;
    ghost use Rattle.sh_files_image.specs.Blocks.{AreBlocks, flat};
    ghost use Rattle.sh_files_image.specs.Paths.{PathMap};
    ghost use Rattle.sh_files_image.specs.Codes.{map_code};

    ghost Value = { PathMap };

    ghost coded = { map_code };

    ghost view = { λ table. map.from_sorted (flat table.blocks.items) };

    ghost invariant = { λ table. AreBlocks table.blocks.items };
}

impl Table {
    /// The root directory and the devices.
    #[tactic(auto, unfolding(crate::specs::Starting::starting_paths))]
    pub fn starting(alloc: Global) -> Result<Table, AllocError>
        ensures { IfOk result (λ table. table ≡ starting_paths) }
    {
        let mut entries = Vec::with_capacity(alloc, 4)?;
        add(&mut entries, alloc, b"/", 0)?;
        add(&mut entries, alloc, b"/dev", 1)?;
        add(&mut entries, alloc, b"/dev/null", 2)?;
        add(&mut entries, alloc, b"/dev/tty", 3)?;
        let mut blocks = Vec::with_capacity(alloc, 1)?;
        blocks.push(Block::new(entries))?;
        Ok(Table { blocks })
    }

    /// A copy, which is equal. The only error is want of memory.
    pub fn copy(&self, alloc: Global) -> Result<Table, AllocError>
        ensures { IfOk result (λ copy. copy ≡ self.now) }
    {
        let blocks = copy_blocks(alloc, &self.blocks)?;
        Ok(Table { blocks })
    }

    /// The number of the node at this path.
    pub fn find(&self, path: &[u8]) -> Option<usize>
        ensures { result ≡ map.get self.now path.now }
    {
        let index = block_of(&self.blocks, path);
        self.blocks[index].find(path)
    }

    /// The numbers of the nodes at two paths. Where the paths are near each other in order, that takes less
    /// than two look-ups.
    pub fn find_both(&self, path: &[u8], near: &[u8]) -> (Option<usize>, Option<usize>)
        ensures { result ≡ (map.get self.now path.now, map.get self.now near.now) }
    {
        let index = block_of(&self.blocks, path);
        let number = self.blocks[index].find(path);
        (number, find_near(&self.blocks, index, near))
    }

    /// Adds an entry; one of the same path is replaced. The only error is want of memory, after which nothing
    /// has changed.
    pub fn put(&mut self, entry: Entry) -> Result<(), AllocError>
        ensures { self.new
            ≡ (if is_ok result then map.insert self.old entry.0 entry.1 else self.old) }
    {
        put_entry(&mut self.blocks, entry)
    }

    /// The entries in the order of their paths' bytes, in blocks.
    pub fn blocks(&self) -> &[Block]
        ensures { flat result.now ≡ map.entries self.now }
    {
        self.blocks.as_slice()
    }

    /// The first entry that doesn't come before a text. Where the text belongs in the block numbered `near`,
    /// that block alone is looked through; `near` becomes the number of the text's block.
    pub(crate) fn first_near(&self, near: &mut usize, text: &[u8]) -> Option<&Entry>
        ensures { option_map (λ entry. entry.now) result
            ≡ head (from text.now (map.entries self.now)) }
    {
        let index = block_near(&self.blocks, *near, text);
        *near = index;
        match self.blocks[index].rest_from(text) {
            [first, ..] => Some(first),
            [] => first_behind(&self.blocks, index + 1),
        }
    }
}

/// Adds an entry after the others.
fn add(entries: &mut Vec<Entry>, alloc: Global, path: &[u8], node: usize) -> Result<(), AllocError>
    ensures { OnOk result (entries.new.items ≡ entries.old.items ++ (path.now, node) ∷ []) }
{
    let path = Vec::from_slice(alloc, path)?;
    entries.push(Entry::new(path, node))?;
    Ok(())
}

/// Copies of these blocks, in order. The only error is want of memory.
fn copy_blocks(alloc: Global, blocks: &[Block]) -> Result<Vec<Block>, AllocError>
    ensures { IfOk result (λ copies. copies.items ≡ blocks.now) }
{
    let mut copies = Vec::with_capacity(alloc, blocks.len())?;
    for block in blocks {
        copies.push(block.copy(alloc)?)?;
    }
    Ok(copies)
}

/// How many blocks start at a path or before it.
fn count_started(blocks: &[Block], path: &[u8]) -> usize
    requires { AreBlocks blocks.now }
    ensures bound { result ≤ length blocks.now }
    ensures parts { IsPartitionPoint (λ b. starts_by path.now b ≡ true) (λ b.
        starts_by path.now b ≡ false) blocks.now result }
{
    blocks.partition_point(|block| block.starts_by(path))
}

/// The number of the block that holds a path, or else where it belongs.
fn block_of(blocks: &[Block], path: &[u8]) -> usize
    requires { AreBlocks blocks.now }
    ensures within { result < length blocks.now }
    ensures place { IsBlockOf path.now blocks.now result }
{
    // Where paths come in order, each belongs in the last block.
    let last = blocks.len() - 1;
    if blocks[last].starts_by(path) {
        return last;
    }
    count_started(blocks, path).saturating_sub(1)
}

/// Whether there is a block of this number that starts at a path or before it.
fn is_started(blocks: &[Block], index: usize, path: &[u8]) -> bool
    ensures { result ≡ starts_by path.now (get_or blocks.now index []) }
{
    match blocks.get(index) {
        Some(block) => block.starts_by(path),
        None => false,
    }
}

/// Whether this block is the one that holds a path, or else the one where it belongs.
fn is_block_of(blocks: &[Block], index: usize, path: &[u8]) -> bool
    requires { AreBlocks blocks.now }
    ensures within { result ≡ true → index < length blocks.now }
    ensures place { result ≡ true → IsBlockOf path.now blocks.now index }
{
    if !is_started(blocks, index, path) {
        return false;
    }
    !is_started(blocks, index + 1, path)
}

/// The number of the block that holds a path, or else where it belongs. The block numbered `near` is looked
/// at first.
fn block_near(blocks: &[Block], near: usize, path: &[u8]) -> usize
    requires { AreBlocks blocks.now }
    ensures within { result < length blocks.now }
    ensures place { IsBlockOf path.now blocks.now result }
{
    if is_block_of(blocks, near, path) {
        return near;
    }
    block_of(blocks, path)
}

/// The number of the node at a path, which is looked for in this block first.
fn find_near(blocks: &[Block], index: usize, path: &[u8]) -> Option<usize>
    requires blocks { AreBlocks blocks.now }
    requires within { index < length blocks.now }
    ensures { result ≡ map.find (slice_cmp nat_cmp) path.now (flat blocks.now) }
{
    match blocks[index].find(path) {
        Some(number) => Some(number),
        None => blocks[block_of(blocks, path)].find(path),
    }
}

/// The first entry of the blocks from this one on.
fn first_behind(blocks: &[Block], index: usize) -> Option<&Entry>
    requires { all_filled blocks.now ≡ true }
    ensures { option_map (λ entry. entry.now) result ≡ head (flat (drop index blocks.now)) }
{
    match blocks.get(index) {
        Some(block) => block.first(),
        None => None,
    }
}

/// Puts an entry in the place of the one of its path.
fn put_entry(blocks: &mut Vec<Block>, entry: Entry) -> Result<(), AllocError>
    requires { AreBlocks blocks.old.items }
    ensures blocks { AreBlocks blocks.new.items }
    ensures entries { flat blocks.new.items
        ≡ (if is_ok result then map.put (slice_cmp nat_cmp) entry.0 entry.1
        (flat blocks.old.items) else flat blocks.old.items) }
{
    let index = block_of(blocks, entry.path());
    put_within(blocks, index, entry)?;
    // A block that can't be split for want of memory stays as long as it is.
    let _ = split_long(blocks, index);
    Ok(())
}

/// Adds an entry to the block in which it belongs.
fn put_within(blocks: &mut Vec<Block>, index: usize, entry: Entry) -> Result<(), AllocError>
    requires blocks { AreBlocks blocks.old.items }
    requires within { index < length blocks.old.items }
    requires place { IsBlockOf entry.0 blocks.old.items index }
    ensures blocks { AreBlocks blocks.new.items }
    ensures count { length blocks.new.items ≡ length blocks.old.items }
    ensures entries { flat blocks.new.items
        ≡ (if is_ok result then map.put (slice_cmp nat_cmp) entry.0 entry.1
        (flat blocks.old.items) else flat blocks.old.items) }
{
    blocks[index].put(entry)
}

/// Splits a block that has become too long.
fn split_long(blocks: &mut Vec<Block>, index: usize) -> Result<(), AllocError>
    requires blocks { AreBlocks blocks.old.items }
    requires within { index < length blocks.old.items }
    ensures blocks { AreBlocks blocks.new.items }
    ensures entries { flat blocks.new.items ≡ flat blocks.old.items }
{
    if blocks[index].entries().len() <= MAX_BLOCK {
        return Ok(());
    }
    blocks.reserve(1)?;
    let upper = blocks[index].split()?;
    blocks.insert(index + 1, upper)?;
    Ok(())
}
