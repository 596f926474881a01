//! The end of a process.
ghost use Rattle.std.specs.Prelude.{◌≡◌, ℕ, OnOk};
ghost use Rattle.sh_kernel.specs.Calls.{end_call};
ghost use Rattle.sh_kernel.specs.State.{KernelState, StandsAt};

use sh_base::NoMemory;
use sh_kernel::Kernel;
use sh_kernel_descriptors::KernelFault;

/// Ends a process with a status (XSH _exit). Where none of this number lives nothing happens. The only error is want of
/// memory, after which nothing has happened either.
pub fn end_process(kernel: &mut Kernel, pid: u32, status: u8) -> Result<(), NoMemory>
    ensures state { (s : KernelState) → StandsAt kernel.old s
        → OnOk result (StandsAt kernel.new (end_call s pid status).after) }
    ensures terminal { kernel.new.terminal ≡ kernel.old.terminal }
    ensures watch { kernel.new.watch ≡ kernel.old.watch }
{
    match kernel.end(pid, status) {
        Ok(()) => Ok(()),
        Err(KernelFault::NoMemory(lack)) => Err(lack),
        Err(_) => Ok(()),
    }
}
