//! The built-ins test and `[` (XCU test).
ghost use Rattle.std.specs.Prelude.{◌≡◌, IfOk};
ghost use Rattle.sh_builtin.specs.Running.{bracket_outcome, inverted_by, verdict_outcome, terminal_at, test_outcome, truth};
ghost use Rattle.sh_builtin_regular.specs.Brackets.{bracket_operands};
ghost use Rattle.sh_kernel.specs.State.{KernelState, StandsAt};

use sh_base::NoMemory;
use sh_base::sequence::Text;
use sh_builtin_outcome::{Builtin, Outcome};
use sh_builtin_regular::{Verdict, bracket_operands, evaluate};
use sh_builtin_shell::Shell;
use sh_kernel::Kernel;
use std::alloc::Global;

/// The status of a condition.
fn truth(holds: bool) -> u8
    ensures { result ≡ truth holds }
{
    if holds {
        return 0;
    }
    1
}

/// A condition, or its opposite.
fn inverted_by(inverted: bool, holds: bool) -> bool
    ensures { result ≡ inverted_by inverted holds }
{
    if inverted {
        return !holds;
    }
    holds
}

/// Whether a descriptor refers to the terminal.
fn terminal_at(kernel: &Kernel, pid: u32, descriptor: u64) -> bool
    ensures { (s : KernelState) → StandsAt kernel.now s
        → result ≡ terminal_at s.machine pid descriptor }
{
    if descriptor > 255 {
        return false;
    }
    kernel.is_terminal(pid, descriptor as u8)
}

/// The outcome of a verdict.
fn judge(
    alloc: Global,
    kernel: &Kernel,
    pid: u32,
    builtin: Builtin,
    verdict: Verdict,
) -> Result<Outcome, NoMemory>
    ensures { (s : KernelState) → StandsAt kernel.now s → IfOk result (λ outcome.
        outcome ≡ verdict_outcome s.machine pid builtin verdict) }
{
    match verdict {
        Verdict::Is(holds) => Ok(Outcome::done(alloc, truth(holds))),
        Verdict::Terminal {
            descriptor,
            inverted,
        } => {
            let holds = inverted_by(inverted, terminal_at(kernel, pid, descriptor));
            Ok(Outcome::done(alloc, truth(holds)))
        },
        Verdict::Usage => Outcome::misuse(alloc, builtin),
    }
}

/// test with its arguments, by one of its names.
#[tactic(auto, unfolding(crate::specs::Running::test_outcome))]
pub(crate) fn test(
    alloc: Global,
    kernel: &Kernel,
    shell: &Shell,
    builtin: Builtin,
    arguments: &[Text],
) -> Result<Outcome, NoMemory>
    ensures { (s : KernelState) → StandsAt kernel.now s → IfOk result (λ outcome.
        outcome ≡ test_outcome s.machine shell.now builtin arguments.now) }
{
    let verdict = evaluate(kernel.files(), shell.vars.directory(), arguments)?;
    let outcome = judge(alloc, kernel, shell.pid, builtin, verdict)?;
    Ok(outcome)
}

/// `[` with its arguments.
pub(crate) fn bracket(
    alloc: Global,
    kernel: &Kernel,
    shell: &Shell,
    arguments: &[Text],
) -> Result<Outcome, NoMemory>
    ensures { (s : KernelState) → StandsAt kernel.now s → IfOk result (λ outcome.
        outcome ≡ bracket_outcome s.machine shell.now (bracket_operands arguments.now)) }
{
    let Some(operands) = bracket_operands(arguments) else {
        return Outcome::misuse(alloc, Builtin::Bracket);
    };
    let outcome = test(alloc, kernel, shell, Builtin::Bracket, operands)?;
    Ok(outcome)
}
