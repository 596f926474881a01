//! Why nothing is explored.
ghost use Rattle.std.specs.Prelude.{◌≡◌, ◌≢◌};
ghost use Rattle.sh_base.specs.Memory.{no_memory};
ghost use Rattle.sh_files_image.specs.declared.image_fault.FaultKind.TheVariants as kind;
ghost use Rattle.sh_files_image.specs.declared.image_fault.ImageFault.{ImageFault};
ghost use Rattle.sh_schedules_outcomes.specs.declared.fault.ExploreFault.TheVariants as reason;

use sh_base::NoMemory;
use sh_files_image::{FaultKind, ImageFault};
use thiserror::Error;

/// Why there is no exploration.
#[derive(Clone, Copy, Debug, PartialEq, Eq, Error)]
pub enum ExploreFault {
    /// The image of the files is refused.
    #[error("the image is refused")]
    Image(ImageFault),
    /// No memory was found.
    #[error("out of memory")]
    NoMemory(NoMemory),
    /// There were 2^64 - 1 runs, and more are to come.
    #[error("too many schedules")]
    TooMany,
}

impl From<NoMemory> for ExploreFault {
    ghost from_gives = { λ lack e. e ≡ reason.NoMemory lack };

    fn from(lack: NoMemory) -> ExploreFault {
        ExploreFault::NoMemory(lack)
    }
}

/// Why there is no exploration, where an image is refused.
pub(crate) fn refusal(fault: ImageFault) -> ExploreFault
    ensures image { (f : ImageFault) → result ≡ reason.Image f
        → (f ≡ fault) × (fault.kind ≢ kind.NoMemory no_memory) }
    ensures not_too_many { result ≢ reason.TooMany }
{
    if let FaultKind::NoMemory(lack) = fault.kind {
        return ExploreFault::NoMemory(lack);
    }
    ExploreFault::Image(fault)
}
