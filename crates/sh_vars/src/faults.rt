// Refusals.
ghost use Rattle.sh_base.specs.Memory.{no_memory};
ghost use Rattle.sh_vars.specs.declared.faults.VarsFault.TheVariants.{NoMemory};
ghost use Rattle.std.specs.Prelude.{◌≡◌};

use sh_base::NoMemory;
use std::alloc::AllocError;
use thiserror::Error;

/// Why a call on [`Vars`](crate::Vars) was refused. After a refusal nothing has changed.
#[derive(Clone, Copy, Debug, PartialEq, Eq, Error)]
pub enum VarsFault {
    /// The variable is read-only.
    #[error("read only")]
    ReadOnly,
    /// What was given as a name is no name (see [`is_name`](crate::is_name)).
    #[error("bad name")]
    BadName,
    /// There was no memory.
    #[error("{0}")]
    NoMemory(NoMemory),
}

impl From<AllocError> for VarsFault {
    ghost from_gives = { λ _ fault. fault ≡ NoMemory no_memory };

    fn from(error: AllocError) -> VarsFault {
        VarsFault::NoMemory(NoMemory::from(error))
    }
}
