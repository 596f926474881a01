//! Items that are taken from the front.
ghost use Rattle.std.specs.Prelude.{◌≡◌, ◌∷◌, [], IfOk, MatchOption, OnErr, OnOk, length, nat_eq};

use crate::copying::{Copying, copy_all};
use sh_base::NoMemory;
use sh_base::sequence::Sequence;
use std::alloc::{AllocError, Global};
use std::marker::Model;

/// Items in order, the first of which is taken first.
#[derive(Debug, Drop)]
pub struct Queue<T> {
    // the last item first
    items: Vec<T>,
}

impl<T> Model for Queue<T> {
    ghost use Rattle.std.specs.Prelude.{List, reverse};

    ghost Value = { List T };

    ghost view = { λ q. reverse q.items.items };
}

impl<T> Queue<T> {
    /// The items of a sequence. Takes no memory.
    pub fn new(items: Sequence<T>) -> Self
        ensures { result ≡ items }
    {
        let mut items = items.into_vec();
        items.reverse();
        Queue { items }
    }

    /// Takes the first item.
    pub fn take(&mut self) -> Option<T>
        ensures { MatchOption result ((self.old ≡ []) × (self.new ≡ [])) (λ item.
            self.old ≡ item ∷ self.new) }
    {
        self.items.pop()
    }

    /// The items in order. Takes no memory.
    pub fn into_sequence(self) -> Sequence<T>
        ensures { result ≡ self }
    {
        let mut items = self.items;
        items.reverse();
        Sequence::from_vec(items)
    }

    /// Whether there is none.
    pub fn is_empty(&self) -> bool
        ensures { result ≡ nat_eq (length self.now) 0 }
    {
        self.items.is_empty()
    }
}

impl<T: Drop> Queue<T> {
    /// Puts an item before the others. The only error is want of memory; the queue is as it was then, and the item is gone.
    pub fn put_front(&mut self, item: T) -> Result<(), AllocError>
        ensures ok { OnOk result (self.new ≡ item ∷ self.old) }
        ensures err { OnErr result (self.new ≡ self.old) }
    {
        self.items.push(item)?;
        Ok(())
    }
}

impl<T: Copying> Queue<T> {
    /// Copies of some items, in order. The only error is want of memory.
    pub fn of_copies(alloc: Global, items: &[T]) -> Result<Self, NoMemory>
        ensures { IfOk result (λ queue. queue ≡ items.now) }
    {
        Ok(Queue::new(Sequence::from_vec(copy_all(alloc, items)?)))
    }
}

impl<T: Copying> Copying for Queue<T> {
    fn copy(&self, alloc: Global) -> Result<Queue<T>, NoMemory> {
        Ok(Queue {
            items: copy_all(alloc, self.items.as_slice())?,
        })
    }
}
