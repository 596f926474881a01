//! What `kill` sends.
ghost use Rattle.std.specs.Prelude.{◌≡◌, OnOk, Some, Ok};
ghost use Rattle.sh_exec_waiting.specs.Sending.{after_sending, is_reached};
ghost use Rattle.sh_kernel.specs.State.{KernelState, StandsAt};

use sh_base::NoMemory;
use sh_jobs::JobFault;
use sh_kernel::Kernel;
use sh_kernel_descriptors::KernelFault;
use sh_kernel_processes::SignalTarget;
use sh_signal::Signal;

/// Whether an operand of kill names a process that lives.
pub(crate) fn is_reached(kernel: &Kernel, target: &Result<SignalTarget, JobFault>) -> bool
    ensures { (s : KernelState) → StandsAt kernel.now s → result ≡ is_reached s target.now }
{
    match target {
        Ok(target) => kernel.is_any_reached(target),
        Err(_) => false,
    }
}

/// A signal is sent to what is named; where that is no process nothing happens.
pub(crate) fn send_to(
    kernel: &mut Kernel,
    target: &SignalTarget,
    signal: Signal,
) -> Result<(), NoMemory>
    ensures state { (s : KernelState) → StandsAt kernel.old s
        → OnOk result (StandsAt kernel.new (after_sending s (Some signal) (Ok target.now))) }
    ensures terminal { kernel.new.terminal ≡ kernel.old.terminal }
    ensures watch { kernel.new.watch ≡ kernel.old.watch }
{
    match kernel.kill(target, signal) {
        Ok(()) => Ok(()),
        Err(KernelFault::NoMemory(lack)) => Err(lack),
        Err(_) => Ok(()),
    }
}

/// A signal is sent to what an operand of kill names, if it names anything.
pub(crate) fn send(
    kernel: &mut Kernel,
    target: &Result<SignalTarget, JobFault>,
    signal: Option<Signal>,
) -> Result<(), NoMemory>
    ensures state { (s : KernelState) → StandsAt kernel.old s
        → OnOk result (StandsAt kernel.new (after_sending s signal target.now)) }
    ensures terminal { kernel.new.terminal ≡ kernel.old.terminal }
    ensures watch { kernel.new.watch ≡ kernel.old.watch }
{
    let Some(signal) = signal else {
        return Ok(());
    };
    match target {
        Ok(target) => send_to(kernel, target, signal),
        Err(_) => Ok(()),
    }
}
