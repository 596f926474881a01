// Paths with the numbers of their nodes.
ghost use Rattle.std.specs.Prelude.{◌≡◌, IfOk};
ghost use Rattle.std.specs.Ordering.{is_gt, nat_cmp};
ghost use Rattle.std.specs.Cmp.Lexicographic.{slice_cmp};

use std::alloc::{AllocError, Global};
use std::marker::Model;

/// A path with the number of its node.
#[derive(Drop)]
pub struct Entry {
    path: Vec<u8>,
    node: usize,
}

impl Model for Entry {
    ghost use Rattle.std.specs.Prelude.{List, ℕ};

    ghost Value = { List ℕ × ℕ };

    ghost view = { λ entry. (entry.path.items, entry.node) };
}

impl Entry {
    /// An entry of this path, for the node of this number.
    pub fn new(path: Vec<u8>, node: usize) -> Entry
        ensures { result ≡ (path.items, node) }
    {
        Entry { path, node }
    }

    /// A copy, which is equal. The only error is want of memory.
    pub(crate) fn copy(&self, alloc: Global) -> Result<Entry, AllocError>
        ensures { IfOk result (λ copy. copy ≡ self.now) }
    {
        let path = Vec::from_slice(alloc, &self.path)?;
        Ok(Entry {
            path,
            node: self.node,
        })
    }

    /// Its path, which begins with a slash.
    pub fn path(&self) -> &[u8]
        ensures { result.now ≡ self.now.0 }
    {
        self.path.as_slice()
    }

    /// The number of its node.
    pub fn node(&self) -> usize
        ensures { result ≡ self.now.1 }
    {
        self.node
    }

    /// Whether it comes after a path.
    pub(crate) fn is_after(&self, path: &[u8]) -> bool
        ensures { result ≡ is_gt (slice_cmp nat_cmp self.now.0 path.now) }
    {
        self.path().cmp(path).is_gt()
    }
}
