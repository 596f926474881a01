//! The built-in wait (XCU wait).
ghost use Rattle.std.specs.Prelude.{◌≡◌, IfOk};
ghost use Rattle.sh_builtin_asking.specs.BuiltIns.{wait_outcome, wait_ran, wait_start, wait_step, with_outcome};
ghost use Rattle.sh_builtin_asking.specs.Resuming.{next_operand, operand_ended, said_so_far, wait_caught, wait_ended, wait_resumed, without_target};
ghost use Rattle.sh_builtin_shell.specs.Shells.{up_to_date};
ghost use Rattle.sh_builtin_wait.specs.Waits.{wait_of};
ghost use Rattle.sh_kernel.specs.State.{KernelState, StandsAt};

use crate::answer::Answer;
use sh_base::NoMemory;
use sh_base::sequence::{Sequence, Text};
use sh_builtin_outcome::{Builtin, Outcome};
use sh_builtin_shell::Shell;
use sh_builtin_wait::{Awaited, OperandWait, WaitStart, WaitStep, WaitTarget, wait_of};
use sh_kernel::Kernel;
use sh_signal::Signal;
use std::alloc::Global;

/// What the operands of wait come to.
fn wait_step(alloc: Global, step: WaitStep) -> Outcome
    ensures { result ≡ wait_step step }
{
    match step {
        WaitStep::Over(report) => {
            Outcome::saying(Sequence::new(alloc), report.messages, report.status)
        },
        WaitStep::Waits(operand) => Outcome::waiting(alloc, Awaited::Operand(operand)),
    }
}

/// What wait comes to.
fn wait_start(alloc: Global, start: WaitStart) -> Outcome
    ensures { result ≡ wait_start start }
{
    match start {
        WaitStart::All => Outcome::waiting(alloc, Awaited::All),
        WaitStart::Step(step) => wait_step(alloc, step),
    }
}

/// wait with its arguments.
fn wait_with(
    alloc: Global,
    kernel: &Kernel,
    shell: &Shell,
    arguments: &[Text],
) -> Result<Outcome, NoMemory>
    ensures { (s : KernelState) → StandsAt kernel.now s → IfOk result (λ outcome. outcome
        ≡ wait_outcome (wait_of s.machine.processes shell.now.jobs shell.now.known arguments.now)) }
{
    match wait_of(
        alloc,
        kernel,
        &shell.jobs,
        shell.known.as_slice(),
        arguments,
    )? {
        Ok(start) => Ok(wait_start(alloc, start)),
        Err(fault) => Outcome::refusal(alloc, Builtin::Wait, fault),
    }
}

/// How `wait` begins, with its arguments, in the shell's process of a kernel (XCU wait). It asks to wait for the first operand that names a process
/// that the shell knows, or a job, and without operands for all asynchronous lists (`BuiltinRest::Waits`); behind the answer `resume` does the
/// rest. It is over at once, with the status 127 and a message about each job ID, where no operand names one of these, and with a message and the
/// status 2 where its arguments are wrong. The shell's jobs are brought up to date, and nothing else of it changes. The only error is want of
/// memory; what the shell is then is left open.
pub fn wait(
    alloc: Global,
    kernel: &Kernel,
    shell: &mut Shell,
    arguments: &[Text],
) -> Result<Outcome, NoMemory>
    ensures { (s : KernelState) → StandsAt kernel.now s → IfOk result (λ outcome.
        with_outcome shell.new outcome ≡ wait_ran s (up_to_date s shell.old) arguments.now) }
{
    shell.bring_jobs_up_to_date(kernel);
    let outcome = wait_with(alloc, kernel, shell, arguments)?;
    Ok(outcome)
}

/// The shell doesn't know any more what it has waited for.
fn forget(shell: &mut Shell, target: &WaitTarget)
    ensures { shell.new ≡ without_target shell.old target.now }
{
    match target {
        WaitTarget::Process(pid) => shell.forget(*pid),
        WaitTarget::Job { number, processes } => shell.forget_job(*number, processes.as_slice()),
    }
}

/// The next operand is looked up.
fn next_operand(
    alloc: Global,
    kernel: &Kernel,
    shell: &Shell,
    wait: OperandWait,
    status: u8,
) -> Result<Outcome, NoMemory>
    ensures { (s : KernelState) → StandsAt kernel.now s → IfOk result (λ outcome.
        with_outcome shell.now outcome ≡ next_operand s shell.now wait status) }
{
    let step = wait.go_on(alloc, kernel, &shell.jobs, shell.known.as_slice(), status)?;
    Ok(wait_step(alloc, step))
}

/// What an operand names has ended.
fn operand_ended(
    alloc: Global,
    kernel: &Kernel,
    shell: &mut Shell,
    wait: OperandWait,
    status: u8,
) -> Result<Outcome, NoMemory>
    ensures { (s : KernelState) → StandsAt kernel.now s → IfOk result (λ outcome.
        with_outcome shell.new outcome ≡ operand_ended s shell.old wait status) }
{
    forget(shell, &wait.target);
    shell.bring_jobs_up_to_date(kernel);
    let outcome = next_operand(alloc, kernel, shell, wait, status)?;
    Ok(outcome)
}

/// What is waited for has ended.
fn ended(
    alloc: Global,
    kernel: &Kernel,
    shell: &mut Shell,
    awaited: Awaited,
    status: u8,
) -> Result<Outcome, NoMemory>
    ensures { (s : KernelState) → StandsAt kernel.now s → IfOk result (λ outcome.
        with_outcome shell.new outcome ≡ wait_ended s shell.old awaited status) }
{
    match awaited {
        Awaited::All => {
            shell.forget_background();
            Ok(Outcome::done(alloc, 0))
        },
        Awaited::Operand(wait) => {
            let outcome = operand_ended(alloc, kernel, shell, wait, status)?;
            Ok(outcome)
        },
    }
}

/// What is to be said of the operands so far.
fn said_so_far(alloc: Global, awaited: Awaited) -> Sequence<Text>
    ensures { result ≡ said_so_far awaited }
{
    match awaited {
        Awaited::All => Sequence::new(alloc),
        Awaited::Operand(OperandWait { messages, .. }) => messages,
    }
}

/// A signal ends the waiting.
fn caught(alloc: Global, awaited: Awaited, signal: Signal) -> Outcome
    ensures { result ≡ wait_caught awaited signal }
{
    let messages = said_so_far(alloc, awaited);
    Outcome::saying(Sequence::new(alloc), messages, 128 + signal.number())
}

/// What is left of wait behind an answer.
pub(crate) fn resume_wait(
    alloc: Global,
    kernel: &Kernel,
    shell: &mut Shell,
    awaited: Awaited,
    answer: Answer,
) -> Result<Outcome, NoMemory>
    ensures { (s : KernelState) → StandsAt kernel.now s → IfOk result (λ outcome.
        with_outcome shell.new outcome ≡ wait_resumed s shell.old awaited answer) }
{
    match answer {
        Answer::Bytes(_) => Ok(Outcome::waiting(alloc, awaited)),
        Answer::Ended(status) => {
            let outcome = ended(alloc, kernel, shell, awaited, status)?;
            Ok(outcome)
        },
        Answer::Caught(signal) => Ok(caught(alloc, awaited, signal)),
        Answer::Sent(_) => Ok(Outcome::waiting(alloc, awaited)),
        Answer::Continued => Ok(Outcome::waiting(alloc, awaited)),
    }
}
