//! The built-in kill (XCU kill).
ghost use Rattle.std.specs.Prelude.{◌≡◌, IfOk};
ghost use Rattle.sh_builtin_asking.specs.BuiltIns.{control_of, kill_does, kill_outcome, kill_ran, kill_step, with_outcome};
ghost use Rattle.sh_builtin_asking.specs.Resuming.{kill_resumed, next_signal};
ghost use Rattle.sh_builtin_jobs.specs.KillWords.{kill_of};
ghost use Rattle.sh_builtin_shell.specs.Shells.{up_to_date};
ghost use Rattle.sh_kernel.specs.State.{KernelState, StandsAt};

use crate::answer::Answer;
use sh_base::NoMemory;
use sh_base::sequence::{Sequence, Text};
use sh_builtin_jobs::{
    JobControl, KillAsk, KillCommand, KillSend, KillStep, kill_of, kill_start, signal_line,
    signal_lines,
};
use sh_builtin_outcome::{Builtin, Outcome};
use sh_builtin_shell::{Shell, own_group};
use sh_kernel::Kernel;
use std::alloc::Global;

/// Whether a shell has job control, and its group (XCU 2.11).
fn job_control(kernel: &Kernel, shell: &Shell) -> JobControl
    ensures { (s : KernelState) → StandsAt kernel.now s → result ≡ control_of s shell.now }
{
    JobControl {
        is_on: shell.has_job_control(),
        own_group: own_group(kernel, shell.pid),
    }
}

/// What the first operands of kill come to.
fn kill_step(alloc: Global, step: KillStep) -> Outcome
    ensures { result ≡ kill_step step }
{
    match step {
        KillStep::Asks(ask) => Outcome::killing(alloc, ask),
        KillStep::Over(report) => {
            Outcome::saying(Sequence::new(alloc), report.messages, report.status)
        },
    }
}

/// A signal is sent.
fn send(alloc: Global, kernel: &Kernel, shell: &Shell, send: KillSend) -> Result<Outcome, NoMemory>
    ensures { (s : KernelState) → StandsAt kernel.now s
        → IfOk result (λ outcome. outcome ≡ kill_does s shell.now (KillCommand.Send send)) }
{
    let control = job_control(kernel, shell);
    let step = kill_start(alloc, control, kernel, &shell.jobs, send)?;
    Ok(kill_step(alloc, step))
}

/// What kill does.
fn kill_by(
    alloc: Global,
    kernel: &Kernel,
    shell: &Shell,
    command: KillCommand,
) -> Result<Outcome, NoMemory>
    ensures { (s : KernelState) → StandsAt kernel.now s
        → IfOk result (λ outcome. outcome ≡ kill_does s shell.now command) }
{
    match command {
        KillCommand::Names => Ok(Outcome::output(alloc, signal_lines(alloc)?)),
        KillCommand::Name(signal) => Ok(Outcome::output(alloc, signal_line(alloc, signal)?)),
        KillCommand::Send(asked) => {
            let outcome = send(alloc, kernel, shell, asked)?;
            Ok(outcome)
        },
    }
}

/// kill with its arguments.
fn kill_with(
    alloc: Global,
    kernel: &Kernel,
    shell: &Shell,
    arguments: &[Text],
) -> Result<Outcome, NoMemory>
    ensures { (s : KernelState) → StandsAt kernel.now s
        → IfOk result (λ outcome. outcome ≡ kill_outcome s shell.now (kill_of arguments.now)) }
{
    match kill_of(alloc, arguments)? {
        Ok(command) => {
            let outcome = kill_by(alloc, kernel, shell, command)?;
            Ok(outcome)
        },
        Err(fault) => Outcome::refusal(alloc, Builtin::Kill, fault),
    }
}

/// How `kill` begins, with its arguments, in the shell's process of a kernel (XCU kill). It asks that a signal is sent for its first operand
/// (`BuiltinRest::Kills`); behind the answer `resume` does the rest. It is over at once where it lists names of signals, and with a message and
/// the status 2 where its arguments are wrong: all of them are looked at before the first signal. The shell's jobs are brought up to date, and
/// nothing else of it changes. The only error is want of memory; what the shell is then is left open.
pub fn kill(
    alloc: Global,
    kernel: &Kernel,
    shell: &mut Shell,
    arguments: &[Text],
) -> Result<Outcome, NoMemory>
    ensures { (s : KernelState) → StandsAt kernel.now s → IfOk result (λ outcome.
        with_outcome shell.new outcome ≡ kill_ran s (up_to_date s shell.old) arguments.now) }
{
    shell.bring_jobs_up_to_date(kernel);
    let outcome = kill_with(alloc, kernel, shell, arguments)?;
    Ok(outcome)
}

/// The next operand is looked up.
fn next_signal(
    alloc: Global,
    kernel: &Kernel,
    shell: &Shell,
    ask: KillAsk,
    is_reached: bool,
) -> Result<Outcome, NoMemory>
    ensures { (s : KernelState) → StandsAt kernel.now s → IfOk result (λ outcome.
        with_outcome shell.now outcome ≡ next_signal s shell.now ask is_reached) }
{
    let control = job_control(kernel, shell);
    let step = ask.go_on(alloc, control, kernel, &shell.jobs, is_reached)?;
    Ok(kill_step(alloc, step))
}

/// The signal of an operand was sent.
fn sent(
    alloc: Global,
    kernel: &Kernel,
    shell: &mut Shell,
    ask: KillAsk,
    is_reached: bool,
) -> Result<Outcome, NoMemory>
    ensures { (s : KernelState) → StandsAt kernel.now s → IfOk result (λ outcome.
        with_outcome shell.new outcome ≡ next_signal s (up_to_date s shell.old) ask is_reached) }
{
    shell.bring_jobs_up_to_date(kernel);
    let outcome = next_signal(alloc, kernel, shell, ask, is_reached)?;
    Ok(outcome)
}

/// What is left of kill behind an answer.
pub(crate) fn resume_kill(
    alloc: Global,
    kernel: &Kernel,
    shell: &mut Shell,
    ask: KillAsk,
    answer: Answer,
) -> Result<Outcome, NoMemory>
    ensures { (s : KernelState) → StandsAt kernel.now s → IfOk result (λ outcome.
        with_outcome shell.new outcome ≡ kill_resumed s shell.old ask answer) }
{
    match answer {
        Answer::Bytes(_) => Ok(Outcome::killing(alloc, ask)),
        Answer::Ended(_) => Ok(Outcome::killing(alloc, ask)),
        Answer::Caught(_) => Ok(Outcome::killing(alloc, ask)),
        Answer::Sent(is_reached) => {
            let outcome = sent(alloc, kernel, shell, ask, is_reached)?;
            Ok(outcome)
        },
        Answer::Continued => Ok(Outcome::killing(alloc, ask)),
    }
}
