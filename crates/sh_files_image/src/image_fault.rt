// What is wrong with an image, and where.
ghost use Rattle.sh_base.specs.Memory.{no_memory};
ghost use Rattle.std.specs.Prelude.{◌≡◌};

use sh_base::NoMemory;
use std::alloc::AllocError;
use std::fmt;
use thiserror::Error;

/// What is wrong with an image.
#[derive(Clone, Copy, Debug, PartialEq, Eq)]
pub enum FaultKind {
    /// The first line isn't `psh image 1`.
    BadHeader,
    /// The line isn't of the format, or no newline follows a file's bytes.
    BadLine,
    /// The path isn't one that an image may name.
    BadPath,
    /// The directory that holds it was not named before.
    NoParent,
    /// The path was named before.
    Duplicate,
    /// The image ends before the line `end` and its newline.
    Truncated,
    /// The file, or the image, is too long.
    TooLarge,
    /// Bytes follow the line `end`.
    Trailing,
    /// There was no memory.
    NoMemory(NoMemory),
}

impl FaultKind {
    ghost use Rattle.sh_files_image.specs.Faults.{name_of};

    /// Its name, for a message.
    pub fn name(self) -> &'static str
        ensures { result.now ≡ name_of self }
    {
        match self {
            FaultKind::BadHeader => "BadHeader",
            FaultKind::BadLine => "BadLine",
            FaultKind::BadPath => "BadPath",
            FaultKind::NoParent => "NoParent",
            FaultKind::Duplicate => "Duplicate",
            FaultKind::Truncated => "Truncated",
            FaultKind::TooLarge => "TooLarge",
            FaultKind::Trailing => "Trailing",
            FaultKind::NoMemory(_) => "NoMemory",
        }
    }
}

impl fmt::Display for FaultKind {
    fn fmt<W: fmt::Write>(&self, f: &mut fmt::Formatter<W>) -> fmt::Result {
        f.write_str(self.name())
    }
}

impl From<AllocError> for FaultKind {
    ghost use Rattle.sh_files_image.specs.declared.image_fault.FaultKind.TheVariants.{NoMemory};

    ghost from_gives = { λ _ kind. kind ≡ NoMemory no_memory };

    fn from(error: AllocError) -> FaultKind {
        FaultKind::NoMemory(NoMemory::from(error))
    }
}

/// Why an image is refused, and at which line, counted from 1 over all newline bytes. For want of memory it is the line
/// that was being read.
#[derive(Clone, Copy, Debug, PartialEq, Eq, Error)]
#[error("{kind}: line {line}")]
pub struct ImageFault {
    /// What is wrong.
    pub kind: FaultKind,
    /// The line.
    pub line: usize,
}
