// Refusals.
ghost use Rattle.sh_base.specs.Memory.{no_memory};
ghost use Rattle.sh_files.specs.declared.fault.FileFault.TheVariants.{NoMemory};
ghost use Rattle.std.specs.Prelude.{◌≡◌};

use sh_base::NoMemory;
use std::alloc::AllocError;
use thiserror::Error;

/// Why a call on [`Files`](crate::Files) was refused. After a refusal nothing has changed.
#[derive(Clone, Copy, Debug, PartialEq, Eq, Error)]
pub enum FileFault {
    /// Nothing is there (ENOENT), or the path or a name of it is too long.
    #[error("no such file or directory")]
    NoEntry,
    /// The file's flags don't allow it, or no file can be made there (EACCES).
    #[error("permission denied")]
    NoAccess,
    /// It is a directory (EISDIR).
    #[error("is a directory")]
    IsDirectory,
    /// What is named before a slash is no directory (ENOTDIR).
    #[error("not a directory")]
    NotDirectory,
    /// There is a regular file already (EEXIST).
    #[error("file exists")]
    Exists,
    /// The number is of no file whose bytes are kept here (EBADF).
    #[error("bad file number")]
    BadNumber,
    /// The file would be too long (EFBIG).
    #[error("file too large")]
    TooLarge,
    /// There was no memory.
    #[error("{0}")]
    NoMemory(NoMemory),
}

impl From<AllocError> for FileFault {
    ghost from_gives = { λ _ fault. fault ≡ NoMemory no_memory };

    fn from(error: AllocError) -> FileFault {
        FileFault::NoMemory(NoMemory::from(error))
    }
}
