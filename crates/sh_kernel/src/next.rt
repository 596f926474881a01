//! What processes are about to do.
use sh_kernel_descriptors::DescriptorRef;

/// What a process does in its next turn, as far as it may have to wait.
#[derive(Clone, Copy, Debug)]
pub enum Next<'a> {
    /// It reads by a descriptor, one byte at least.
    Read(DescriptorRef),
    /// It writes so many bytes by the descriptor of this number.
    Write(u8, usize),
    /// It waits until all these children have ended.
    Wait(&'a [u32]),
    /// It waits until each of these children has ended or is stopped.
    WaitUntraced(&'a [u32]),
    /// It does something that never waits.
    Other,
}
