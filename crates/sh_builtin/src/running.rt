//! Built-in utilities as they act.
ghost use Rattle.std.specs.Prelude.{◌≡◌, ◌++◌, IfOk};
ghost use Rattle.sh_builtin_outcome.specs.Outcomes.{outcome_of, with_signals};
ghost use Rattle.sh_builtin.specs.Running.{built_in, echo_outcome, eval_outcome, joined, option_set, switched_signals, without_functions};
ghost use Rattle.sh_builtin_asking.specs.BuiltIns.{with_outcome};
ghost use Rattle.sh_kernel.specs.State.{KernelState, StandsAt};

use crate::aliases::{alias, unalias};
use crate::command::command;
use crate::dot::dot;
use crate::jobs::jobs;
use crate::leaving::{break_with, continue_with, exit_with, operands_of, return_with};
use crate::testing::{bracket, test};
use sh_base::NoMemory;
use sh_base::sequence::{Sequence, Text};
use sh_builtin_asking::{bg, fg, kill, read, wait};
use sh_builtin_environment::{
    Attribute, TrapOutcome, cd, functions_to_unset, mark, pwd, set, shift, trap, unset,
};
use sh_builtin_outcome::{Builtin, Outcome, TextOrigin};
use sh_builtin_shell::Shell;
use sh_kernel::Kernel;
use sh_kernel_processes::SignalSet;
use sh_signal::Signal;
use std::alloc::Global;

/// What a built-in does with its arguments to a shell, in the shell's process of a kernel, and what it comes to. `exit` and `return` leave with
/// `last` where they have no operand: that is `$?`, or in the action of a trap what it was before. The only error is want of memory;
/// what the shell is then is left open.
#[tactic(auto, unfolding(crate::specs::Running::built_in))]
pub fn run(
    alloc: Global,
    kernel: &Kernel,
    shell: &mut Shell,
    last: u8,
    builtin: Builtin,
    arguments: &[Text],
) -> Result<Outcome, NoMemory>
    ensures { (s : KernelState) → StandsAt kernel.now s → IfOk result (λ outcome.
        with_outcome shell.new outcome ≡ built_in s shell.old last builtin arguments.now) }
{
    match builtin {
        Builtin::Alias => alias(alloc, &mut shell.aliases, arguments),
        Builtin::Bg => bg(alloc, kernel, shell, arguments),
        Builtin::Bracket => bracket(alloc, kernel, shell, arguments),
        Builtin::Break => break_with(alloc, operands_of(arguments)),
        Builtin::Cd => {
            let answer = cd(alloc, kernel.files(), &mut shell.vars, arguments)?;
            Outcome::of(alloc, Builtin::Cd, answer)
        },
        Builtin::Colon => Ok(Outcome::done(alloc, 0)),
        Builtin::Command => command(alloc, kernel.files(), shell, arguments),
        Builtin::Continue => continue_with(alloc, operands_of(arguments)),
        Builtin::Dot => dot(alloc, kernel.files(), &shell.vars, arguments),
        Builtin::Echo => echo(alloc, arguments),
        Builtin::Eval => eval(alloc, arguments),
        Builtin::Exec => Outcome::misuse(alloc, Builtin::Exec),
        Builtin::Exit => exit_with(alloc, last, operands_of(arguments)),
        Builtin::Export => {
            let answer = mark(alloc, Attribute::Export, &mut shell.vars, arguments)?;
            Outcome::of(alloc, Builtin::Export, answer)
        },
        Builtin::False => Ok(Outcome::done(alloc, 1)),
        Builtin::Fg => fg(alloc, kernel, shell, arguments),
        Builtin::Jobs => jobs(alloc, kernel, shell, arguments),
        Builtin::Kill => kill(alloc, kernel, shell, arguments),
        Builtin::Pwd => {
            let answer = pwd(alloc, &shell.vars, arguments)?;
            Outcome::of(alloc, Builtin::Pwd, answer)
        },
        Builtin::Read => read(alloc, arguments),
        Builtin::ReadOnly => {
            let answer = mark(alloc, Attribute::ReadOnly, &mut shell.vars, arguments)?;
            Outcome::of(alloc, Builtin::ReadOnly, answer)
        },
        Builtin::Return => return_with(alloc, last, operands_of(arguments)),
        Builtin::Set => {
            let signals = switched_signals(shell);
            let answer = set(alloc, &mut shell.vars, arguments)?;
            let outcome = Outcome::of(alloc, Builtin::Set, answer)?;
            Ok(outcome.with_signals(signals))
        },
        Builtin::Shift => Outcome::of(alloc, Builtin::Shift, shift(&mut shell.vars, arguments)),
        Builtin::Test => test(alloc, kernel, shell, Builtin::Test, arguments),
        Builtin::Trap => {
            let trapped = trap(alloc, &mut shell.traps, shell.fixed, arguments)?;
            trap_outcome(alloc, trapped)
        },
        Builtin::True => Ok(Outcome::done(alloc, 0)),
        Builtin::Unalias => unalias(alloc, &mut shell.aliases, arguments),
        Builtin::Unset => {
            remove_functions(shell, arguments);
            let answer = unset(alloc, &mut shell.vars, arguments)?;
            Outcome::of(alloc, Builtin::Unset, answer)
        },
        Builtin::Wait => wait(alloc, kernel, shell, arguments),
    }
}

/// The functions that unset is to remove go.
fn remove_functions(shell: &mut Shell, arguments: &[Text])
    ensures { shell.new ≡ without_functions shell.old arguments.now }
{
    if let Some(names) = functions_to_unset(arguments) {
        shell.functions.remove_all(names);
    }
}

/// The signals with which a shell does something else where job control is switched.
fn switched_signals(shell: &Shell) -> SignalSet
    ensures { result ≡ switched_signals shell.now }
{
    let none = SignalSet::new();
    if !shell.is_interactive() {
        return none;
    }
    none.with(Signal::TerminalStop)
        .with(Signal::TerminalInput)
        .with(Signal::TerminalOutput)
}

/// What trap comes to.
fn trap_outcome(alloc: Global, trapped: TrapOutcome) -> Result<Outcome, NoMemory>
    ensures { IfOk result (λ outcome.
        outcome ≡ with_signals (outcome_of Builtin.Trap trapped.outcome) trapped.signals) }
{
    let TrapOutcome { signals, outcome } = trapped;
    let outcome = Outcome::of(alloc, Builtin::Trap, outcome)?;
    Ok(outcome.with_signals(signals))
}

/// echo with its arguments (XCU echo).
fn echo(alloc: Global, arguments: &[Text]) -> Result<Outcome, NoMemory>
    ensures { IfOk result (λ outcome. outcome ≡ echo_outcome arguments.now) }
{
    let mut text = joined(alloc, arguments)?;
    text.push(b'\n')?;
    Ok(Outcome::output(alloc, text))
}

/// eval with its arguments (2.15).
fn eval(alloc: Global, arguments: &[Text]) -> Result<Outcome, NoMemory>
    ensures { IfOk result (λ outcome. outcome ≡ eval_outcome arguments.now) }
{
    let text = joined(alloc, arguments)?;
    Ok(Outcome::running(alloc, TextOrigin::Eval, text))
}

/// Arguments with a space between them.
fn joined(alloc: Global, arguments: &[Text]) -> Result<Text, NoMemory>
    ensures { IfOk result (λ text. text ≡ joined arguments.now) }
{
    let mut text = Sequence::new(alloc);
    let mut rest = arguments;
    'words: while let Some((first, others)) = rest.split_first() {
        text.extend_from_slice(first.as_slice())?;
        if !others.is_empty() {
            text.push(b' ')?;
        }
        rest = others;
    }
    Ok(text)
}
