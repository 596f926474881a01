//! Where a command goes on.
ghost use Rattle.std.specs.Prelude.{◌≡◌, IfOk};
ghost use Rattle.sh_exec_forms.specs.Stacks.{run_in, run_of};
ghost use Rattle.sh_exec_forms.specs.Moves.{move_run};

use crate::bodies::body_of;
use crate::entering::{enter_list, enter_redirected};
use crate::frames::Frames;
use sh_base::NoMemory;
use sh_exec_actions::{Active, Form, Move};
use std::alloc::Global;

/// Where a command goes on. The only error is want of memory.
pub fn go_to(alloc: Global, frames: &mut Frames, to: Move) -> Result<Active, NoMemory>
    ensures { IfOk result (λ active. run_of frames.new active ≡ run_in frames.old (move_run to)) }
{
    match to {
        Move::At(active) => Ok(active),
        Move::Held(undo, active) => match frames.push(Form::Restoring(undo)) {
            Ok(()) => Ok(active),
            Err(lack) => {
                drop(active);
                Err(lack)
            },
        },
        Move::Enter(list) => {
            let step = enter_list(alloc, frames, list.get())?;
            Ok(step.into_active())
        },
        Move::Compound(undo, command) => {
            frames.push(Form::Restoring(undo))?;
            let step = enter_redirected(alloc, frames, &command)?;
            Ok(step.into_active())
        },
        Move::Subshell(list) => body_of(alloc, frames, list.get()),
    }
}
