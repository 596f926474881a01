// Copies of programs and of what they ask.
ghost use Rattle.std.specs.Prelude.{◌≡◌, IfOk};

use crate::asking::Ask;
use crate::program::{Program, Search};
use crate::stock::Stock;
use sh_base::sequence::Text;
use std::alloc::{AllocError, Global};

/// A kind of program that can be copied between two of its turns.
pub trait CopyStock: Stock {
    /// A copy, which is equal: it asks and answers from there on as this one does. The only error is want of memory.
    fn copy(&self, alloc: Global) -> Result<Self, AllocError>
        ensures { IfOk result (λ program. program ≡ self.now) };
}

impl Ask {
    /// A copy, which is equal. The only error is want of memory.
    pub fn copy(&self, alloc: Global) -> Result<Ask, AllocError>
        ensures { IfOk result (λ ask. ask ≡ self.now) }
    {
        match self {
            Ask::Read(count) => Ok(Ask::Read(*count)),
            Ask::Write(bytes) => Ok(Ask::Write(Text::copy_of(alloc, bytes.as_slice())?)),
            Ask::Stop => Ok(Ask::Stop),
            Ask::Idle => Ok(Ask::Idle),
            Ask::End(status) => Ok(Ask::End(*status)),
        }
    }
}

/// A copy of what `having` looks for and has read.
fn copy_search(alloc: Global, search: &Search) -> Result<Search, AllocError>
    ensures { IfOk result (λ copy. copy ≡ search.now) }
{
    Ok(Search {
        text: Text::copy_of(alloc, search.text.as_slice())?,
        line: Text::copy_of(alloc, search.line.as_slice())?,
        found: search.found,
    })
}

impl CopyStock for Program {
    fn copy(&self, alloc: Global) -> Result<Program, AllocError> {
        match self {
            Program::Ending(status) => Ok(Program::Ending(*status)),
            Program::Writing(text) => {
                Ok(Program::Writing(Text::copy_of(alloc, text.as_slice())?))
            },
            Program::Cat => Ok(Program::Cat),
            Program::Yes => Ok(Program::Yes),
            Program::Spin => Ok(Program::Spin),
            Program::Head(lines) => Ok(Program::Head(*lines)),
            Program::Having(search) => Ok(Program::Having(copy_search(alloc, search)?)),
            Program::Count(count) => Ok(Program::Count(*count)),
            Program::ReadStop(line) => {
                Ok(Program::ReadStop(Text::copy_of(alloc, line.as_slice())?))
            },
        }
    }
}
