//! What a built-in does behind the kernel's answer.
ghost use Rattle.std.specs.Prelude.{◌≡◌, IfOk};
ghost use Rattle.sh_builtin_asking.specs.BuiltIns.{with_outcome};
ghost use Rattle.sh_builtin_asking.specs.Resuming.{resumed};
ghost use Rattle.sh_kernel.specs.State.{KernelState, StandsAt};

use crate::answer::Answer;
use crate::continuing::resume_continuing;
use crate::killing::resume_kill;
use crate::reading::resume_read;
use crate::waiting::resume_wait;
use sh_base::NoMemory;
use sh_builtin_outcome::{BuiltinRest, Outcome};
use sh_builtin_shell::Shell;
use sh_kernel::Kernel;
use std::alloc::Global;

/// What is left of a built-in that asked the kernel something, and what that comes to; the kernel is as the asking has left it. An answer of
/// another kind than what was asked has the same asked again. The only error is want of memory; what the shell is then is left open.
#[tactic(auto, unfolding(crate::specs::Resuming::resumed))]
pub fn resume(
    alloc: Global,
    kernel: &Kernel,
    shell: &mut Shell,
    rest: BuiltinRest,
    answer: Answer,
) -> Result<Outcome, NoMemory>
    ensures { (s : KernelState) → StandsAt kernel.now s → IfOk result (λ outcome.
        with_outcome shell.new outcome ≡ resumed s shell.old rest answer) }
{
    match rest {
        BuiltinRest::Reads(reader) => resume_read(alloc, shell, reader, answer),
        BuiltinRest::Waits(awaited) => resume_wait(alloc, kernel, shell, awaited, answer),
        BuiltinRest::Kills(ask) => resume_kill(alloc, kernel, shell, ask, answer),
        BuiltinRest::Continues(continuation) => {
            resume_continuing(alloc, shell, continuation, answer)
        },
    }
}
