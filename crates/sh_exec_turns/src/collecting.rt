//! Reading what a command substitution's process writes.
ghost use Rattle.std.specs.Prelude.{◌≡◌, IfOk};
ghost use Rattle.sh_kernel.specs.State.{KernelState, StandsAt};
ghost use Rattle.sh_exec_settling.specs.Forms.{IsActed};
ghost use Rattle.sh_exec_turns.specs.Acting.{collect_by, collect_end, collect_from, collect_turn, after_collection, with_written};
ghost use Rattle.sh_exec_forms.specs.Running.{Run};

use sh_base::NoMemory;
use sh_builtin_shell::Shell;
use sh_exec_actions::{Action, Active, Substitution};
use sh_exec_machine::{ReadOutcome, take_bytes};
use sh_kernel::Kernel;
use sh_kernel_descriptors::DescriptorRef;
use std::alloc::Global;

/// The most bytes that are read at once.
const READ: usize = 1024;

/// A substitution whose process has written more.
fn with_written(substitution: Substitution, bytes: &[u8]) -> Result<Substitution, NoMemory>
    ensures { IfOk result (λ next. next ≡ with_written substitution bytes.now) }
{
    let mut substitution = substitution;
    match substitution.written.extend_from_slice(bytes) {
        Ok(()) => Ok(substitution),
        Err(error) => {
            drop(substitution);
            Err(NoMemory::from(error))
        },
    }
}

/// All that the process writes is there.
#[tactic(auto, unfolding(crate::specs::Acting::after_collection))]
fn collected(kernel: &mut Kernel, shell: &Shell, substitution: Substitution, aside: usize) -> Active
    ensures state { (s : KernelState) → StandsAt kernel.old s
        → IsActed kernel.new shell.now (Run.At result)
        (after_collection s shell.now substitution aside) }
    ensures terminal { kernel.new.terminal.bytes ≡ kernel.old.terminal.bytes }
    ensures watch { kernel.new.watch ≡ kernel.old.watch }
{
    let _closed = kernel.close(shell.pid, DescriptorRef::Aside(aside));
    Active::Next(Action::WaitSubstitution(substitution))
}

/// It goes on with what was read.
fn gathered(substitution: Substitution, bytes: &[u8]) -> Result<Active, NoMemory>
    ensures { IfOk result (λ active.
        active ≡ Active.Next (Action.ReadSubstitution (with_written substitution bytes.now))) }
{
    let next = with_written(substitution, bytes)?;
    Ok(Active::Next(Action::ReadSubstitution(next)))
}

/// A read from its pipe.
#[tactic(auto, unfolding(crate::specs::Acting::collect_from))]
fn collect_from(
    alloc: Global,
    kernel: &mut Kernel,
    shell: &Shell,
    substitution: Substitution,
    aside: usize,
) -> Result<Active, NoMemory>
    ensures state { (s : KernelState) → StandsAt kernel.old s → IfOk result (λ active.
        IsActed kernel.new shell.now (Run.At active)
        (collect_from s shell.now substitution aside)) }
    ensures terminal { kernel.new.terminal.bytes ≡ kernel.old.terminal.bytes }
    ensures watch { kernel.new.watch ≡ kernel.old.watch }
{
    match take_bytes(alloc, kernel, shell.pid, DescriptorRef::Aside(aside), READ) {
        Ok(ReadOutcome::Bytes(bytes)) => {
            if bytes.len() == 0 {
                drop(bytes);
                return Ok(collected(kernel, shell, substitution, aside));
            }
            let active = gathered(substitution, bytes.as_slice());
            drop(bytes);
            active
        },
        Ok(ReadOutcome::Wait) => Ok(Active::Next(Action::ReadSubstitution(substitution))),
        Ok(ReadOutcome::Failed) => Ok(collected(kernel, shell, substitution, aside)),
        Err(lack) => {
            drop(substitution);
            Err(lack)
        },
    }
}

/// The turn in which a shell reads what the process of a command substitution writes (XCU 2.6.3): at most 1024 bytes. At the end of the file, as
/// which a read that fails counts, the end of the pipe is closed, and the shell waits for the process. The only error is want of memory, after
/// which the shell is given up.
#[tactic(auto, unfolding(crate::specs::Acting::collect_turn))]
pub fn collect_turn(
    alloc: Global,
    kernel: &mut Kernel,
    shell: &Shell,
    substitution: Substitution,
) -> Result<Active, NoMemory>
    ensures state { (s : KernelState) → StandsAt kernel.old s → IfOk result (λ active.
        IsActed kernel.new shell.now (Run.At active) (collect_turn s shell.now substitution)) }
    ensures terminal { kernel.new.terminal.bytes ≡ kernel.old.terminal.bytes }
    ensures watch { kernel.new.watch ≡ kernel.old.watch }
{
    let Some(aside) = substitution.aside else {
        return Ok(Active::Next(Action::WaitSubstitution(substitution)));
    };
    let active = collect_from(alloc, kernel, shell, substitution, aside)?;
    Ok(active)
}
