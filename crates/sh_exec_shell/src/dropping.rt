//! INT has an interactive shell drop what it does.
ghost use Rattle.std.specs.Prelude.{◌≡◌, [], IfOk};
ghost use Rattle.sh_exec_turns.specs.Forms.{IsActed};
ghost use Rattle.sh_exec_forms.specs.Stacks.{run_in, run_of};
ghost use Rattle.sh_exec_shell.specs.Reduction.{drop_at, drop_first, dropped_run};
ghost use Rattle.sh_kernel.specs.State.{KernelState, StandsAt};

use crate::interpreter::root;
use sh_base::NoMemory;
use sh_base::sequence::Text;
use sh_builtin_outcome::Leave;
use sh_builtin_shell::Shell;
use sh_exec_actions::{Action, Active, Form};
use sh_exec_forms::Frames;
use sh_exec_turns::{drops_before, finish_drop, settle};
use sh_kernel::Kernel;
use std::alloc::Global;

/// The status of what INT has dropped: 128 and its number (XCU 2.8.2).
const DROPPED: u8 = 130;

/// The command that is dropped is left as by an error. Where none has begun, the text from which the next is read is a form round that. A shell that is
/// to end, ends.
fn drop_command(alloc: Global, frames: &mut Frames, place: Action) -> Result<Active, NoMemory>
    ensures { IfOk result (λ active. run_of frames.new active ≡ run_in frames.old (dropped_run place)) }
{
    let dropped = Active::Leaving(Leave::Fault(DROPPED));
    match place {
        Action::Reading(rest, _) => {
            frames.push(Form::Text(rest))?;
            Ok(dropped)
        },
        Action::ReadInput(beginning) => {
            drop(beginning);
            frames.push(Form::Input(Text::new(alloc)))?;
            Ok(dropped)
        },
        Action::Trapping(status) => Ok(Active::Next(Action::Trapping(status))),
        other => {
            drop(other);
            Ok(dropped)
        },
    }
}

/// What comes before the turn at an action: where INT has come, an interactive shell that has no trap on it drops what it does.
#[tactic(auto, unfolding(crate::specs::Reduction::drop_at))]
fn drop_at(
    alloc: Global,
    kernel: &mut Kernel,
    shell: &mut Shell,
    frames: &mut Frames,
    place: Action,
) -> Result<Active, NoMemory>
    ensures state { (s : KernelState) → StandsAt kernel.old s → IfOk result (λ active.
        IsActed kernel.new shell.new (run_of frames.new active)
        (drop_at s shell.old frames.old place)) }
    ensures terminal { kernel.new.terminal ≡ kernel.old.terminal }
    ensures watch { kernel.new.watch ≡ kernel.old.watch }
{
    if !drops_before(kernel, shell, &place) {
        return Ok(Active::Next(place));
    }
    finish_drop(kernel, shell);
    let active = drop_command(alloc, frames, place)?;
    let active = settle(alloc, kernel, shell, frames, active)?;
    Ok(root(shell, frames, active))
}

/// What comes before a turn: where INT has come, an interactive shell that has no trap on it drops what it does (XCU 2.11). The only error is want of
/// memory, after which the shell is given up.
pub(crate) fn drop_first(
    alloc: Global,
    kernel: &mut Kernel,
    shell: &mut Shell,
    frames: &mut Frames,
    active: Active,
) -> Result<Active, NoMemory>
    ensures state { (s : KernelState) → StandsAt kernel.old s → IfOk result (λ next.
        IsActed kernel.new shell.new (run_of frames.new next)
        (drop_first s shell.old frames.old active)) }
    ensures terminal { kernel.new.terminal ≡ kernel.old.terminal }
    ensures watch { kernel.new.watch ≡ kernel.old.watch }
{
    match active {
        Active::Next(place) => {
            let active = drop_at(alloc, kernel, shell, frames, place)?;
            Ok(active)
        },
        Active::Acting(invocation, fields) => Ok(Active::Acting(invocation, fields)),
        Active::Calling(body, fields) => Ok(Active::Calling(body, fields)),
        Active::Evaluating(how, text) => Ok(Active::Evaluating(how, text)),
        Active::Done(ended) => Ok(Active::Done(ended)),
        Active::Leaving(leave) => Ok(Active::Leaving(leave)),
    }
}
