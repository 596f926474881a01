//! Waiting for processes.
ghost use Rattle.std.specs.Prelude.{◌≡◌};
ghost use Rattle.sh_kernel.specs.State.{KernelState, StandsAt};
ghost use Rattle.sh_exec_machine.specs.Waits.{last_of, number_of, signal_status, wait_status};

use sh_kernel::Kernel;
use sh_kernel_processes::Status;

/// A process isn't known.
const UNKNOWN: u8 = 127;

/// A process that a signal ended has this and the signal's number.
const SIGNALED: u8 = 128;

/// The exit status by which a shell tells that a signal of this number ended or stopped a process (XCU 2.8.2): 128 and the number. Takes no
/// memory.
pub fn signal_status(signal: u8) -> u8
    ensures { result ≡ signal_status signal }
{
    if signal < SIGNALED {
        SIGNALED + signal
    } else {
        255
    }
}

/// The exit status by which a shell tells whether a process runs, is stopped or has ended.
fn number_of(status: Option<Status>) -> u8
    ensures { result ≡ number_of status }
{
    match status {
        None => UNKNOWN,
        Some(Status::Running) => 0,
        Some(Status::Stopped(signal)) => signal_status(signal),
        Some(Status::Exited(status)) => status,
        Some(Status::Signaled(signal)) => signal_status(signal),
    }
}

/// The last of some processes, 0 where there is none. Takes no memory.
pub fn last_of(children: &[u32]) -> u32
    ensures { result ≡ last_of children.now }
{
    match children.get(children.len().saturating_sub(1)) {
        Some(child) => *child,
        None => 0,
    }
}

/// The exit status of the last of these processes, once all of them have ended (XCU 2.9.2); `None` before that. Where one of them is no child
/// of the process, it is given at once. Takes no memory.
#[tactic(auto, unfolding(crate::specs::Waits::wait_status))]
pub fn wait_status(kernel: &Kernel, pid: u32, children: &[u32]) -> Option<u8>
    ensures { (s : KernelState) → StandsAt kernel.now s → result ≡ wait_status s pid children.now }
{
    let status = number_of(kernel.status(last_of(children)));
    match kernel.wait(pid, children) {
        Ok(()) => Some(status),
        Err(fault) => {
            if fault.is_wait() {
                return None;
            }
            Some(status)
        },
    }
}
