//! Reading lines by descriptor 0.
ghost use Rattle.std.specs.Prelude.{◌≡◌};
ghost use Rattle.sh_kernel.specs.State.{KernelState, StandsAt};
ghost use Rattle.sh_exec_signals.specs.ReadLimit.{most_read};

use sh_kernel::Kernel;

/// The most bytes that one read takes from the terminal, which gives one line at most.
const TERMINAL_READ: usize = 4096;

/// The most bytes that one read takes elsewhere: what is behind the line is left to be read.
const OTHER_READ: usize = 1;

/// The most bytes that one read takes by descriptor 0: one line of the terminal; one byte elsewhere, so that what is behind the line is left to
/// be read. Takes no memory.
pub fn most_read(kernel: &Kernel, pid: u32) -> usize
    ensures { (s : KernelState) → StandsAt kernel.now s → result ≡ most_read s.machine pid }
{
    if kernel.is_terminal(pid, 0) {
        return TERMINAL_READ;
    }
    OTHER_READ
}
