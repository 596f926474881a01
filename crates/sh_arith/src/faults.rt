//! Why an arithmetic expression has no value.
ghost use Rattle.sh_base.specs.Memory.{no_memory};
ghost use Rattle.sh_arith.specs.declared.faults.ArithFault.TheVariants.{NoMemory};
ghost use Rattle.std.specs.Prelude.{◌≡◌};

use sh_base::NoMemory;
use std::alloc::AllocError;
use thiserror::Error;

/// Why an arithmetic expression has no value (XCU 2.6.4). A place is how many bytes of the text are before
/// it. After `Syntax` and `TooDeep` no variable has changed; after `NoMemory` it is open which assignments
/// were done; after any other fault, what was assigned before it stays.
#[derive(Clone, Copy, Debug, PartialEq, Eq, Error)]
pub enum ArithFault {
    /// The token at this place is the first that no expression goes on with. The place is the text's length
    /// where the text ends too early.
    #[error("syntax")]
    Syntax {
        /// The place of the token.
        at: usize,
    },
    /// A divisor is 0.
    #[error("division by zero")]
    DivideByZero,
    /// A variable's value is no number, or a number is out of range.
    #[error("not a number")]
    NotANumber,
    /// The variable that is named at this place can't be assigned to.
    #[error("read only")]
    ReadOnly {
        /// The place of the name.
        at: usize,
    },
    /// A token opens level 501, and none up to it is refused.
    #[error("too deep")]
    TooDeep,
    /// There was no memory.
    #[error("{0}")]
    NoMemory(NoMemory),
    /// Under `set -u`: the variable that is named at this place has no value.
    #[error("not set")]
    Unset {
        /// The place of the name.
        at: usize,
    },
}

impl From<AllocError> for ArithFault {
    ghost from_gives = { λ _ fault. fault ≡ NoMemory no_memory };

    fn from(error: AllocError) -> ArithFault {
        ArithFault::NoMemory(NoMemory::from(error))
    }
}
