//! Copies, which are equal to what they are copies of. Syntax is shared and not copied.
ghost use Rattle.std.specs.Prelude.{◌≡◌, IfOk};

use crate::message::Piece;
use crate::redirection::{Action, Redirection};
use crate::rest::Rest;
use crate::simple::Assignment;
use sh_base::NoMemory;
use sh_base::sequence::Text;
use sh_base::shared::Shared;
use sh_expand::Pending;
use sh_syntax::tree::{Connected, ElseIf, ListItem};
use std::alloc::Global;

/// What can be copied.
pub trait Copying: Drop {
    /// A copy, which is equal. The only error is want of memory.
    fn copy(&self, alloc: Global) -> Result<Self, NoMemory>
        ensures { IfOk result (λ copy. copy ≡ self.now) };
}

/// Copies of some items, in order. The only error is want of memory.
pub fn copy_all<T: Copying>(alloc: Global, items: &[T]) -> Result<Vec<T>, NoMemory>
    ensures { IfOk result (λ copies. copies.items ≡ items.now) }
{
    let mut copies = Vec::with_capacity(alloc, items.len())?;
    for item in items {
        copies.push(item.copy(alloc)?)?;
    }
    Ok(copies)
}

impl Copying for Text {
    fn copy(&self, alloc: Global) -> Result<Text, NoMemory> {
        Ok(Text::copy_of(alloc, self.as_slice())?)
    }
}

impl<T: Drop> Copying for Shared<T> {
    fn copy(&self, _alloc: Global) -> Result<Shared<T>, NoMemory> {
        Ok(self.share()?)
    }
}

impl Copying for ListItem {
    fn copy(&self, _alloc: Global) -> Result<ListItem, NoMemory> {
        Ok(ListItem {
            list: self.list.share()?,
            separator: self.separator,
        })
    }
}

impl Copying for Connected {
    fn copy(&self, _alloc: Global) -> Result<Connected, NoMemory> {
        Ok(Connected {
            connector: self.connector,
            pipeline: self.pipeline.share()?,
        })
    }
}

impl Copying for ElseIf {
    fn copy(&self, _alloc: Global) -> Result<ElseIf, NoMemory> {
        Ok(ElseIf {
            condition: self.condition.share()?,
            body: self.body.share()?,
        })
    }
}

impl Copying for Rest {
    fn copy(&self, alloc: Global) -> Result<Rest, NoMemory> {
        Ok(Rest::new(Text::copy_of(alloc, self.as_slice())?))
    }
}

impl Copying for Pending {
    fn copy(&self, alloc: Global) -> Result<Pending, NoMemory> {
        Ok(self.copy(alloc)?)
    }
}

impl Copying for Piece {
    fn copy(&self, alloc: Global) -> Result<Piece, NoMemory> {
        Ok(Piece {
            descriptor: self.descriptor,
            bytes: self.bytes.copy(alloc)?,
        })
    }
}

impl Copying for Assignment {
    fn copy(&self, alloc: Global) -> Result<Assignment, NoMemory> {
        Ok(Assignment {
            name: self.name.copy(alloc)?,
            value: self.value.share()?,
        })
    }
}

impl Copying for Action {
    fn copy(&self, alloc: Global) -> Result<Action, NoMemory> {
        match self {
            Action::Open { how, append } => Ok(Action::Open {
                how: *how,
                append: *append,
            }),
            Action::Duplicate(descriptor) => Ok(Action::Duplicate(*descriptor)),
            Action::Close => Ok(Action::Close),
            Action::Here(text) => Ok(Action::Here(text.copy(alloc)?)),
        }
    }
}

impl Copying for Redirection {
    fn copy(&self, alloc: Global) -> Result<Redirection, NoMemory> {
        let action = self.action.copy(alloc)?;
        match self.word.copy(alloc) {
            Ok(word) => Ok(Redirection {
                number: self.number,
                action,
                word,
            }),
            Err(lack) => {
                drop(action);
                Err(lack)
            },
        }
    }
}
