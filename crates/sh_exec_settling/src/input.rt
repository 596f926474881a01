//! The commands of an interactive shell, which no error ends.
ghost use Rattle.std.specs.Prelude.{◌≡◌};
ghost use Rattle.sh_exec_settling.specs.Forms.{Follows, behind_input, behind_status, goes_on_reading, input_left, place_left, text_left};
ghost use Rattle.sh_kernel.specs.State.{KernelState, StandsAt};

use crate::loops::leave_series;
use sh_base::sequence::Text;
use sh_builtin_outcome::Leave;
use sh_builtin_shell::Shell;
use sh_exec_actions::{Action, Active, Beginning};
use sh_exec_forms::{Frames, Step};
use sh_exec_parts::Rest;
use sh_exec_signals::input_action;
use sh_kernel::Kernel;
use std::alloc::Global;

/// The next command of an interactive shell comes, behind what was read.
pub(crate) fn go_on(
    kernel: &Kernel,
    shell: &mut Shell,
    frames: &Frames,
    rest: Text,
    status: u8,
) -> Step
    ensures { (s : KernelState) → StandsAt kernel.now s → Follows s shell.new frames.now frames.now result
        (behind_input s (behind_status shell.old status) rest) }
{
    shell.vars.set_status(status);
    let beginning = Beginning::not_begun(rest);
    Step::Inward(Active::Next(input_action(kernel, shell, beginning)))
}

/// A command that was read by descriptor 0 is left.
pub(crate) fn leave_input(
    alloc: Global,
    kernel: &Kernel,
    shell: &mut Shell,
    frames: &Frames,
    leave: Leave,
) -> Step
    ensures { (s : KernelState) → StandsAt kernel.now s → Follows s shell.new frames.now frames.now result
        (input_left s shell.old leave) }
{
    match leave {
        Leave::Fault(status) => go_on(kernel, shell, frames, Text::new(alloc), status),
        Leave::Exit(status) => Step::Outward(Active::Leaving(Leave::Exit(status))),
        Leave::Return(status) => Step::Outward(Active::Leaving(Leave::Return(status))),
        Leave::Break(inside) => Step::Outward(Active::Leaving(Leave::Break(inside))),
        Leave::Continue(inside) => Step::Outward(Active::Leaving(Leave::Continue(inside))),
    }
}

/// Whether a shell reads on in its text or script behind an error right inside these forms: an interactive one, whose text that is (XCU 2.8.1). Takes
/// no memory.
pub fn goes_on_reading(shell: &Shell, frames: &Frames) -> bool
    ensures { result ≡ goes_on_reading frames.now shell.now }
{
    match frames.as_slice() {
        [] => shell.is_interactive(),
        [_, ..] => false,
    }
}

/// A command of a text is left.
pub(crate) fn leave_text(shell: &mut Shell, frames: &Frames, rest: Rest, leave: Leave) -> Step
    ensures { (s : KernelState) → Follows s shell.new frames.now frames.now result
        (text_left frames.now s shell.old rest leave) }
{
    if !goes_on_reading(shell, frames) {
        return Step::Outward(Active::Leaving(leave));
    }
    match leave {
        Leave::Fault(status) => {
            shell.vars.set_status(status);
            Step::Inward(Active::Next(Action::Reading(rest, status)))
        },
        Leave::Exit(status) => Step::Outward(Active::Leaving(Leave::Exit(status))),
        Leave::Return(status) => Step::Outward(Active::Leaving(Leave::Return(status))),
        Leave::Break(inside) => Step::Outward(Active::Leaving(Leave::Break(inside))),
        Leave::Continue(inside) => Step::Outward(Active::Leaving(Leave::Continue(inside))),
    }
}

/// The action of a trap that came before this action is left.
pub(crate) fn leave_place(
    alloc: Global,
    kernel: &Kernel,
    shell: &mut Shell,
    frames: &Frames,
    next: Action,
    leave: Leave,
) -> Step
    ensures { (s : KernelState) → StandsAt kernel.now s → Follows s shell.new frames.now frames.now result
        (place_left frames.now s shell.old next leave) }
{
    match next {
        Action::Reading(rest, _) => leave_text(shell, frames, rest, leave),
        Action::ReadInput(beginning) => {
            drop(beginning);
            leave_input(alloc, kernel, shell, frames, leave)
        },
        Action::AssignLoopVariable(series) => leave_series(shell, frames, series, leave),
        other => {
            drop(other);
            Step::Outward(Active::Leaving(leave))
        },
    }
}
