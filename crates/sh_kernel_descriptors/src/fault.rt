//! Refusals.
ghost use Rattle.sh_base.specs.Memory.{no_memory};
ghost use Rattle.std.specs.Prelude.{◌≡◌, ◌≢◌};
ghost use Rattle.sh_kernel_descriptors.specs.Outcomes.{fault_of_file, fault_of_pipe};

use sh_base::NoMemory;
use sh_files::FileFault;
use sh_pipe::PipeFault;
use std::alloc::AllocError;
use thiserror::Error;

/// Why a call on a kernel was refused. After a refusal nothing has changed, but that [`KernelFault::BrokenPipe`] comes with a signal, and
/// [`KernelFault::WouldWait`] may where a background process reads the terminal.
#[derive(Clone, Copy, Debug, PartialEq, Eq, Error)]
pub enum KernelFault {
    /// The process has no such descriptor, or it isn't open for that (EBADF).
    #[error("bad descriptor")]
    BadDescriptor,
    /// There is no such process, or it has ended, or it is no child of the caller (ESRCH).
    #[error("no such process")]
    NoProcess,
    /// There are as many processes as there may be (EAGAIN).
    #[error("too many processes")]
    TooManyProcesses,
    /// A process has no descriptor of so high a number (EMFILE).
    #[error("too many descriptors")]
    TooManyDescriptors,
    /// The call can't be done yet.
    #[error("the call would wait")]
    WouldWait,
    /// The pipe has no reader (EPIPE). The writer was sent SIGPIPE, which ends it unless it ignores or catches that signal.
    #[error("broken pipe")]
    BrokenPipe,
    /// A background process, which SIGTTIN can't stop, reads the terminal (EIO).
    #[error("input/output error")]
    InputOutput,
    /// The files refuse it.
    #[error("{0}")]
    File(FileFault),
    /// There was no memory.
    #[error("{0}")]
    NoMemory(NoMemory),
}

impl KernelFault {
    ghost use Rattle.sh_kernel_descriptors.specs.Waiting.{is_wait};

    /// Whether it is [`KernelFault::WouldWait`].
    pub fn is_wait(self) -> bool
        ensures { result ≡ is_wait self }
    {
        matches!(self, KernelFault::WouldWait)
    }
}

impl From<AllocError> for KernelFault {
    ghost use Rattle.sh_kernel_descriptors.specs.declared.fault.KernelFault.TheVariants.{NoMemory};

    ghost from_gives = { λ _ fault. fault ≡ NoMemory no_memory };

    fn from(error: AllocError) -> KernelFault {
        KernelFault::NoMemory(NoMemory::from(error))
    }
}

/// The refusal of a kernel for a refusal of its files.
pub fn fault_of_file(fault: FileFault) -> KernelFault
    ensures { result ≡ fault_of_file fault }
{
    match fault {
        FileFault::NoMemory(lack) => KernelFault::NoMemory(lack),
        FileFault::BadNumber => KernelFault::BadDescriptor,
        _ => KernelFault::File(fault),
    }
}

/// The refusal of a kernel for a refusal of a pipe.
pub(crate) fn fault_of_pipe(fault: PipeFault) -> KernelFault
    ensures fault { result ≡ fault_of_pipe fault }
    ensures memory { result ≢ KernelFault.NoMemory no_memory }
{
    match fault {
        PipeFault::WouldWait => KernelFault::WouldWait,
        PipeFault::NoReader => KernelFault::BrokenPipe,
    }
}
