//! What a process reads and writes in one turn.
ghost use Rattle.std.specs.Prelude.{◌≡◌, ℕ, List, IfOk, length, take};
ghost use Rattle.sh_kernel.specs.Calls.{read_call, write_call};
ghost use Rattle.sh_kernel.specs.State.{KernelState, StandsAt};
ghost use Rattle.sh_tty.specs.Terminal.{Extends};
ghost use Rattle.sh_exec_machine.specs.Transfers.{HasGiven, HasTaken, give_bytes, given_by, refused_by, take_bytes, taken_by};

use sh_base::NoMemory;
use sh_base::sequence::Text;
use sh_kernel::Kernel;
use sh_kernel_descriptors::{DescriptorRef, KernelFault};
use std::alloc::Global;

/// What a read gave.
#[derive(Debug, Drop)]
pub enum ReadOutcome {
    /// These bytes; none at the end of the file.
    Bytes(Text),
    /// Nothing yet.
    Wait,
    /// It failed.
    Failed,
}

/// What a write did.
#[derive(Clone, Copy, Debug, PartialEq, Eq)]
pub enum WriteOutcome {
    /// All bytes went.
    Whole,
    /// So many of them went, at least one.
    Part(usize),
    /// None yet.
    Wait,
    /// It failed; at a pipe without a reader the process was also sent SIGPIPE.
    Failed,
}

/// A refused read.
fn not_taken(fault: KernelFault) -> ReadOutcome
    ensures { result ≡ taken_by (Err fault) }
{
    if fault.is_wait() {
        return ReadOutcome::Wait;
    }
    ReadOutcome::Failed
}

/// Reads up to so many bytes by a descriptor of a process. The only error is want of memory; what of this is
/// done then is left open.
#[tactic(auto, unfolding(crate::specs::Transfers::take_bytes))]
pub fn take_bytes(
    alloc: Global,
    kernel: &mut Kernel,
    pid: u32,
    name: DescriptorRef,
    count: usize,
) -> Result<ReadOutcome, NoMemory>
    ensures state { (s : KernelState) → StandsAt kernel.old s → IfOk result (λ taken.
        HasTaken kernel.new taken (take_bytes s pid name count)) }
    ensures terminal { kernel.new.terminal.bytes ≡ kernel.old.terminal.bytes }
    ensures watch { kernel.new.watch ≡ kernel.old.watch }
{
    let mut buf = vec![in alloc; 0u8; count]?;
    match kernel.read(pid, name, &mut buf) {
        Ok(read) => {
            buf.truncate(read);
            Ok(ReadOutcome::Bytes(Text::from_vec(buf)))
        }
        Err(KernelFault::NoMemory(lack)) => Err(lack),
        Err(fault) => Ok(not_taken(fault)),
    }
}

/// Of so many bytes this many went.
fn counted(total: usize, count: usize) -> WriteOutcome
    ensures { result ≡ given_by total (Ok count) }
{
    if count < total {
        return WriteOutcome::Part(count);
    }
    WriteOutcome::Whole
}

/// A refused write.
fn refused(fault: KernelFault) -> WriteOutcome
    ensures { result ≡ refused_by fault }
{
    match fault {
        KernelFault::BadDescriptor => WriteOutcome::Failed,
        KernelFault::NoProcess => WriteOutcome::Failed,
        KernelFault::TooManyProcesses => WriteOutcome::Failed,
        KernelFault::TooManyDescriptors => WriteOutcome::Failed,
        KernelFault::WouldWait => WriteOutcome::Wait,
        KernelFault::BrokenPipe => WriteOutcome::Failed,
        KernelFault::InputOutput => WriteOutcome::Failed,
        KernelFault::File(_) => WriteOutcome::Failed,
        KernelFault::NoMemory(_) => WriteOutcome::Failed,
    }
}

/// Writes what can be written at once by a descriptor of a process. The only error is want of memory; what of
/// this is done then is left open.
#[tactic(auto, unfolding(crate::specs::Transfers::give_bytes))]
pub fn give_bytes(
    kernel: &mut Kernel,
    pid: u32,
    number: u8,
    bytes: &[u8],
) -> Result<WriteOutcome, NoMemory>
    ensures state { (s : KernelState) → StandsAt kernel.old s → IfOk result (λ given.
        HasGiven kernel.new given (give_bytes s pid number bytes.now)) }
    ensures terminal { Extends kernel.old.terminal.bytes kernel.new.terminal.bytes }
    ensures watch { kernel.new.watch ≡ kernel.old.watch }
{
    match kernel.write(pid, number, bytes) {
        Ok(count) => Ok(counted(bytes.len(), count)),
        Err(KernelFault::NoMemory(lack)) => Err(lack),
        Err(fault) => Ok(refused(fault)),
    }
}
