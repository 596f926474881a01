//! Lists that grow at their beginning.
ghost use Rattle.std.specs.Prelude.{◌≡◌, [], ◌∷◌, IfOk, MatchOption, reverse};

use sh_base::sequence::Sequence;
use std::alloc::{AllocError, Global};
use std::marker::Model;

/// Items in order. Further items are put before them. A contract sees the list of the items.
#[derive(Drop)]
pub struct Backward<T> {
    // the last item first
    items: Vec<T>,
}

impl<T> Model for Backward<T> {
    ghost use Rattle.std.specs.Prelude.{List, reverse};

    ghost Value = { List T };

    ghost view = { λ b. reverse b.items.items };
}

impl<T> Backward<T> {
    /// No items yet. Takes no memory.
    pub fn new(alloc: Global) -> Self
        ensures { result ≡ [] }
    {
        Backward {
            items: Vec::new(alloc),
        }
    }

    /// The items of a vector, from its last to its first. Takes no memory.
    pub fn from_last(items: Vec<T>) -> Self
        ensures { result ≡ reverse items.items }
    {
        Self { items }
    }

    /// The items as a sequence. Takes no memory.
    pub fn into_sequence(self) -> Sequence<T>
        ensures { result ≡ self }
    {
        let Backward { mut items } = self;
        items.reverse();
        Sequence::from_vec(items)
    }
}

impl<T: Drop> Backward<T> {
    /// The first item, and the items after it; `None` where there is no item. Takes no memory.
    pub fn split_first(self) -> Option<(T, Self)>
        ensures { MatchOption result (self ≡ []) (λ split. self ≡ split.0 ∷ split.1) }
    {
        let mut others = self;
        let first = others.items.pop()?;
        Some((first, others))
    }

    /// The items with one more item before them. The only error is want of memory; after it the items are
    /// dropped.
    pub fn with_first(self, first: T) -> Result<Self, AllocError>
        ensures { IfOk result (λ items. items ≡ first ∷ self) }
    {
        let Backward { mut items } = self;
        items.push(first)?;
        Ok(Backward { items })
    }
}
