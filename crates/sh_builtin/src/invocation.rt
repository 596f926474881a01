//! Built-ins as they are run.
ghost use Rattle.std.specs.Prelude.{◌≡◌, IfOk};
ghost use Rattle.sh_builtin.specs.Invocations.{invoked, outcome_as, regular_completion, regular_leave};
ghost use Rattle.sh_builtin_asking.specs.BuiltIns.{with_outcome};
ghost use Rattle.sh_kernel.specs.State.{KernelState, StandsAt};

use crate::running::run;
use sh_base::NoMemory;
use sh_base::sequence::Text;
use sh_builtin_outcome::{Completion, Invocation, Leave, Outcome, TextRun};
use sh_builtin_shell::Shell;
use sh_kernel::Kernel;
use std::alloc::Global;

/// How a built-in that isn't run as a special one ends, where it leaves commands.
fn regular_leave(leave: Leave) -> Completion
    ensures { result ≡ regular_leave leave }
{
    match leave {
        Leave::Fault(status) => Completion::Done(status),
        Leave::Exit(status) => Completion::Left(Leave::Exit(status)),
        Leave::Return(status) => Completion::Left(Leave::Return(status)),
        Leave::Break(inside) => Completion::Left(Leave::Break(inside)),
        Leave::Continue(inside) => Completion::Left(Leave::Continue(inside)),
    }
}

/// How a built-in ends that isn't run as a special one.
fn regular_completion(completion: Completion) -> Completion
    ensures { result ≡ regular_completion completion }
{
    match completion {
        Completion::Done(status) => Completion::Done(status),
        Completion::Left(leave) => regular_leave(leave),
        Completion::Runs(TextRun { origin, .. }, text) => {
            let is_special = false;
            let how = TextRun { origin, is_special };
            Completion::Runs(how, text)
        },
        Completion::Asks(rest) => Completion::Asks(rest),
        Completion::Foreground(wait) => Completion::Foreground(wait),
    }
}

/// What a built-in comes to.
fn outcome_as(is_special: bool, outcome: Outcome) -> Outcome
    ensures { result ≡ outcome_as is_special outcome }
{
    if is_special {
        return outcome;
    }
    let Outcome {
        signals,
        out,
        err,
        status,
    } = outcome;
    Outcome {
        signals,
        out,
        err,
        status: regular_completion(status),
    }
}

/// What a built-in does, as [`run`] says, and what it comes to as it is run: one that isn't run as a special one leaves no shell by an
/// error. The only error is want of memory; what the shell is then is left open.
#[tactic(auto, unfolding(crate::specs::Invocations::invoked))]
pub fn invoke(
    alloc: Global,
    kernel: &Kernel,
    shell: &mut Shell,
    last: u8,
    invocation: Invocation,
    arguments: &[Text],
) -> Result<Outcome, NoMemory>
    ensures { (s : KernelState) → StandsAt kernel.now s → IfOk result (λ outcome.
        with_outcome shell.new outcome ≡ invoked s shell.old last invocation arguments.now) }
{
    let outcome = run(alloc, kernel, shell, last, invocation.builtin, arguments)?;
    Ok(outcome_as(invocation.is_special, outcome))
}
