//! The redirection turns of a command.
ghost use Rattle.std.specs.Prelude.{◌≡◌, IfOk};
ghost use Rattle.sh_kernel.specs.State.{KernelState, StandsAt};
ghost use Rattle.sh_exec_settling.specs.Forms.{IsActed};
ghost use Rattle.sh_exec_turns.specs.Acting.{in_forms, keeps, with_undo, redirect_by, redirect_from, redirect_one, redirect_turn, undone_by};
ghost use Rattle.sh_exec_forms.specs.Stacks.{run_in, run_of};

use sh_base::NoMemory;
use sh_builtin_shell::Shell;
use sh_exec_actions::{Active, ExpandedCommand, Role, go_ahead, not_done};
use sh_exec_forms::{Frames, go_to};
use sh_exec_machine::{Redirected, Undone, redirect};
use sh_exec_parts::redirection::Redirection;
use sh_kernel::Kernel;
use sh_kernel_descriptors::KernelFault;
use std::alloc::Global;

/// Whether the redirections of a command are undone after it.
fn keeps(role: &Role) -> bool
    ensures { result ≡ keeps role.now }
{
    !matches!(role, Role::Program | Role::Subshell(_))
}

/// A command with one redirection more to be undone.
fn note(prepared: ExpandedCommand, one: Option<Undone>) -> Result<ExpandedCommand, NoMemory>
    ensures { IfOk result (λ next. next ≡ with_undo prepared one) }
{
    let Some(one) = one else {
        return Ok(prepared);
    };
    let mut prepared = prepared;
    match prepared.undo.descriptors.push(one) {
        Ok(()) => Ok(prepared),
        Err(error) => {
            drop(prepared);
            Err(NoMemory::from(error))
        },
    }
}

/// Where a command goes on after a redirection.
fn go_on(
    alloc: Global,
    frames: &mut Frames,
    prepared: ExpandedCommand,
    word: &[u8],
    answer: Result<(), KernelFault>,
    one: Option<Undone>,
) -> Result<Active, NoMemory>
    ensures { IfOk result (λ active.
        run_of frames.new active ≡ run_in frames.old (redirect_by prepared word.now answer one)) }
{
    match answer {
        Ok(()) => {
            let prepared = note(prepared, one)?;
            let to = go_ahead(prepared);
            go_to(alloc, frames, to)
        },
        Err(fault) => {
            let to = not_done(alloc, prepared, word, fault)?;
            go_to(alloc, frames, to)
        },
    }
}

/// One redirection of a command.
#[tactic(auto, unfolding(crate::specs::Acting::redirect_one))]
fn redirect_one(
    alloc: Global,
    kernel: &mut Kernel,
    shell: &Shell,
    frames: &mut Frames,
    prepared: ExpandedCommand,
    redirection: Redirection,
) -> Result<Active, NoMemory>
    ensures state { (s : KernelState) → StandsAt kernel.old s → IfOk result (λ active.
        IsActed kernel.new shell.now (run_of frames.new active)
        (in_forms frames.old (redirect_one s shell.now prepared redirection))) }
    ensures terminal { kernel.new.terminal ≡ kernel.old.terminal }
    ensures watch { kernel.new.watch ≡ kernel.old.watch }
{
    let kept = keeps(&prepared.role);
    match redirect(
        kernel,
        shell.pid,
        shell.vars.directory(),
        &redirection,
        kept,
    ) {
        Ok(Redirected { answer, undone }) => {
            let word = redirection.word.as_slice();
            let active = go_on(alloc, frames, prepared, word, answer, undone);
            drop(redirection);
            active
        },
        Err(lack) => {
            drop(redirection);
            drop(prepared);
            Err(lack)
        },
    }
}

/// The turn of the next redirection of a command (XCU 2.7), and where the command goes on then. One that can't be done has a message, while those
/// before it still hold. The only error is want of memory, after which the shell is given up.
#[tactic(auto, unfolding(crate::specs::Acting::redirect_turn))]
pub fn redirect_turn(
    alloc: Global,
    kernel: &mut Kernel,
    shell: &Shell,
    frames: &mut Frames,
    prepared: ExpandedCommand,
) -> Result<Active, NoMemory>
    ensures state { (s : KernelState) → StandsAt kernel.old s → IfOk result (λ active.
        IsActed kernel.new shell.now (run_of frames.new active)
        (in_forms frames.old (redirect_turn s shell.now prepared))) }
    ensures terminal { kernel.new.terminal ≡ kernel.old.terminal }
    ensures watch { kernel.new.watch ≡ kernel.old.watch }
{
    let mut prepared = prepared;
    let Some(redirection) = prepared.redirections.take() else {
        let to = go_ahead(prepared);
        let active = go_to(alloc, frames, to)?;
        return Ok(active);
    };
    let active = redirect_one(alloc, kernel, shell, frames, prepared, redirection)?;
    Ok(active)
}
