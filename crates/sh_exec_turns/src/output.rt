//! The writes of a shell, and the end of its process.
ghost use Rattle.std.specs.Prelude.{◌≡◌, IfOk};
ghost use Rattle.sh_kernel.specs.State.{KernelState, StandsAt};
ghost use Rattle.sh_tty.specs.Terminal.{Extends};
ghost use Rattle.sh_exec_settling.specs.Forms.{IsActed};
ghost use Rattle.sh_exec_turns.specs.Acting.{end_turn, write_turn};
ghost use Rattle.sh_exec_forms.specs.Running.{Run};
ghost use Rattle.sh_exec_waiting.specs.Writing.{written_by};

use sh_base::NoMemory;
use sh_builtin_shell::Shell;
use sh_exec_actions::{Action, Active, Finish};
use sh_exec_machine::{end_process, give_bytes};
use sh_exec_parts::message::Piece;
use sh_exec_waiting::after_write;
use sh_kernel::Kernel;
use std::alloc::Global;

/// The turn in which a shell writes what stands to be written, as much of it as a pipe takes, and what follows once it is written whole. The only
/// error is want of memory, after which the shell is given up; the terminal's bytes still begin with the earlier ones.
#[tactic(auto, unfolding(crate::specs::Acting::write_turn))]
pub fn write_turn(
    alloc: Global,
    kernel: &mut Kernel,
    shell: &Shell,
    piece: Piece,
    finish: Finish,
) -> Result<Active, NoMemory>
    ensures state { (s : KernelState) → StandsAt kernel.old s → IfOk result (λ active.
        IsActed kernel.new shell.now (Run.At active) (write_turn s shell.now piece finish)) }
    ensures terminal { Extends kernel.old.terminal.bytes kernel.new.terminal.bytes }
    ensures watch { kernel.new.watch ≡ kernel.old.watch }
{
    let given = give_bytes(kernel, shell.pid, piece.descriptor, piece.bytes.as_slice())?;
    let active = after_write(alloc, piece, finish, given)?;
    Ok(active)
}

/// The turn in which the process ends with this status. The only error is want of memory, after which the shell is given up.
#[tactic(auto, unfolding(crate::specs::Acting::end_turn))]
pub fn end_turn(kernel: &mut Kernel, shell: &Shell, status: u8) -> Result<Active, NoMemory>
    ensures state { (s : KernelState) → StandsAt kernel.old s → IfOk result (λ active.
        IsActed kernel.new shell.now (Run.At active) (end_turn s shell.now status)) }
    ensures terminal { kernel.new.terminal.bytes ≡ kernel.old.terminal.bytes }
    ensures watch { kernel.new.watch ≡ kernel.old.watch }
{
    end_process(kernel, shell.pid, status)?;
    Ok(Active::Next(Action::Ending(status)))
}
