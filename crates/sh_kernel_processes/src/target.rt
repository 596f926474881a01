//! What signals are sent to.
ghost use Rattle.std.specs.Prelude.{◌≡◌, IfOk};

use sh_base::NoMemory;
use sh_base::sequence::Sequence;
use std::alloc::Global;

/// The processes that a signal is sent to (XSH kill, killpg).
#[derive(Debug, Drop)]
pub enum SignalTarget {
    /// The process of this number.
    Process(u32),
    /// Each process of the group of this number.
    Group(u32),
    /// Each of these processes.
    Processes(Sequence<u32>),
}

impl SignalTarget {
    /// A copy, which is equal. The only error is want of memory.
    pub fn copy(&self, alloc: Global) -> Result<SignalTarget, NoMemory>
        ensures { IfOk result (λ copy. copy ≡ self.now) }
    {
        match self {
            SignalTarget::Process(pid) => Ok(SignalTarget::Process(*pid)),
            SignalTarget::Group(group) => Ok(SignalTarget::Group(*group)),
            SignalTarget::Processes(pids) => Ok(SignalTarget::Processes(Sequence::copy_of(
                alloc,
                pids.as_slice(),
            )?)),
        }
    }
}
