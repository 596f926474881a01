//! Why a word has no parts.
ghost use Rattle.sh_base.specs.Memory.{no_memory};

use sh_base::NoMemory;
use std::alloc::{AllocError, AllocFailed};
use thiserror::Error;

/// Why a word has no parts. A place is the number of bytes before it, in the text that has the word.
#[derive(Clone, Copy, Debug, PartialEq, Eq, Error)]
pub enum PartFault {
    /// The `${` at `at` has none of the forms of a parameter expansion (XCU 2.6.2).
    #[error("bad substitution at byte {at}")]
    BadSubstitution { at: usize },
    /// The form at `at` opens a level too many.
    #[error("nested too deep at byte {at}")]
    TooDeep { at: usize },
    /// The text of the command substitution at `at` is no list of commands (XCU 2.6.3).
    #[error("syntax error at byte {at}")]
    Refused { at: usize },
    /// There was not enough memory.
    #[error("{0}")]
    NoMemory(NoMemory),
}

impl From<AllocError> for PartFault {
    ghost use Rattle.std.specs.Prelude.{◌≡◌};
    ghost use Rattle.sh_parse_words.specs.declared.fault.PartFault.TheVariants.{NoMemory};

    ghost from_gives = { λ _ e. e ≡ NoMemory no_memory };

    fn from(error: AllocError) -> Self {
        PartFault::NoMemory(NoMemory::from(error))
    }
}

impl<T: Drop> From<AllocFailed<T>> for PartFault {
    ghost use Rattle.std.specs.Prelude.{◌≡◌};
    ghost use Rattle.sh_parse_words.specs.declared.fault.PartFault.TheVariants.{NoMemory};

    ghost from_gives = { λ _ e. e ≡ NoMemory no_memory };

    fn from(error: AllocFailed<T>) -> Self {
        PartFault::NoMemory(NoMemory::from(error))
    }
}
