//! What a shell asks of the kernel for a built-in.
ghost use Rattle.std.specs.Prelude.{◌≡◌, IfOk, OnOk, Some};
ghost use Rattle.sh_exec_waiting.specs.Asking.{after_continuation, after_continue, after_first, ask_by, ask_turn, asked, asked_bytes, awaited_processes, ran_on, read_answer, wait_answer};
ghost use Rattle.sh_exec_signals.specs.Placed.{IsPlaced};
ghost use Rattle.sh_exec_signals.specs.Signals.{pending_signal};
ghost use Rattle.sh_exec_waiting.specs.Sending.{after_sending, is_reached};
ghost use Rattle.sh_builtin_outcome.specs.Rests.{asker_of};
ghost use Rattle.sh_builtin_asking.specs.Resuming.{resumed};
ghost use Rattle.sh_kernel.specs.Calls.{after_set_foreground};
ghost use Rattle.sh_kernel.specs.State.{KernelState, StandsAt};

use crate::sending::{is_reached, send, send_to};
use sh_base::NoMemory;
use sh_base::sequence::Text;
use sh_builtin_asking::{Answer, resume};
use sh_builtin_jobs::{ContinuedJob, KillAsk};
use sh_builtin_outcome::{BuiltinRest, Continuation};
use sh_builtin_shell::Shell;
use sh_builtin_wait::Awaited;
use sh_exec_actions::{Action, Active};
use sh_exec_machine::{ReadOutcome, take_bytes, wait_status};
use sh_exec_signals::{behind, most_read, pending_signal};
use sh_kernel::Kernel;
use sh_kernel_descriptors::DescriptorRef;
use sh_kernel_processes::SignalTarget;
use sh_signal::Signal;
use std::alloc::Global;

/// What a read answers, as soon as it answers.
fn read_answer(alloc: Global, told: ReadOutcome) -> Option<Answer>
    ensures { result ≡ read_answer told }
{
    match told {
        ReadOutcome::Bytes(bytes) => Some(Answer::Bytes(bytes)),
        ReadOutcome::Wait => None,
        ReadOutcome::Failed => Some(Answer::Bytes(Text::new(alloc))),
    }
}

/// Bytes are asked for by descriptor 0.
fn ask_for_bytes(
    alloc: Global,
    kernel: &mut Kernel,
    shell: &Shell,
) -> Result<Option<Answer>, NoMemory>
    ensures state { (s : KernelState) → StandsAt kernel.old s → IfOk result (λ answer.
        StandsAt kernel.new (asked_bytes s shell.now).after) }
    ensures answer { (s : KernelState) → StandsAt kernel.old s → IfOk result (λ answer.
        answer ≡ (asked_bytes s shell.now).answer) }
    ensures terminal { kernel.new.terminal.bytes ≡ kernel.old.terminal.bytes }
    ensures watch { kernel.new.watch ≡ kernel.old.watch }
{
    let count = most_read(kernel, shell.pid);
    let told = take_bytes(alloc, kernel, shell.pid, DescriptorRef::Number(0), count)?;
    Ok(read_answer(alloc, told))
}

/// The processes that are waited for.
fn awaited_processes<'a>(shell: &'a Shell, awaited: &'a Awaited) -> &'a [u32]
    ensures { result.now ≡ awaited_processes shell.now awaited.now }
{
    match awaited {
        Awaited::All => shell.background.as_slice(),
        Awaited::Operand(wait) => wait.processes(),
    }
}

/// The end of processes is asked for.
fn ask_for_end(kernel: &Kernel, shell: &Shell, awaited: &Awaited) -> Option<Answer>
    ensures { (s : KernelState) → StandsAt kernel.now s
        → result ≡ wait_answer s shell.now awaited.now (pending_signal s shell.now) }
{
    if let Some(signal) = pending_signal(kernel, shell) {
        return Some(Answer::Caught(signal));
    }
    match wait_status(kernel, shell.pid, awaited_processes(shell, awaited)) {
        Some(status) => Some(Answer::Ended(status)),
        None => None,
    }
}

/// A signal is sent to what an operand of kill names.
fn ask_for_signal(kernel: &mut Kernel, ask: &KillAsk) -> Result<Option<Answer>, NoMemory>
    ensures state { (s : KernelState) → StandsAt kernel.old s → IfOk result (λ answer.
        StandsAt kernel.new (after_sending s ask.now.send.signal ask.now.target)) }
    ensures answer { (s : KernelState) → StandsAt kernel.old s → IfOk result (λ answer.
        answer ≡ Some (Answer.Sent (is_reached s ask.now.target))) }
    ensures terminal { kernel.new.terminal ≡ kernel.old.terminal }
    ensures watch { kernel.new.watch ≡ kernel.old.watch }
{
    let is_reached = is_reached(kernel, &ask.target);
    send(kernel, &ask.target, ask.send.signal)?;
    Ok(Some(Answer::Sent(is_reached)))
}

/// A group is sent CONT.
fn continue_group(kernel: &mut Kernel, group: u32) -> Result<(), NoMemory>
    ensures state { (s : KernelState) → StandsAt kernel.old s
        → OnOk result (StandsAt kernel.new (after_continue s group)) }
    ensures terminal { kernel.new.terminal ≡ kernel.old.terminal }
    ensures watch { kernel.new.watch ≡ kernel.old.watch }
{
    send_to(kernel, &SignalTarget::Group(group), Signal::Continue)
}

/// The first of these jobs is sent CONT.
fn continue_first(kernel: &mut Kernel, jobs: &[ContinuedJob]) -> Result<(), NoMemory>
    ensures state { (s : KernelState) → StandsAt kernel.old s
        → OnOk result (StandsAt kernel.new (after_first s jobs.now)) }
    ensures terminal { kernel.new.terminal ≡ kernel.old.terminal }
    ensures watch { kernel.new.watch ≡ kernel.old.watch }
{
    match jobs.first() {
        Some(job) => continue_group(kernel, job.group),
        None => Ok(()),
    }
}

/// A group is the foreground group, and then it is sent CONT.
fn continue_in_foreground(kernel: &mut Kernel, group: u32) -> Result<(), NoMemory>
    ensures state { (s : KernelState) → StandsAt kernel.old s
        → OnOk result (StandsAt kernel.new (after_continue (after_set_foreground s group) group)) }
    ensures terminal { kernel.new.terminal.bytes ≡ kernel.old.terminal.bytes }
    ensures watch { kernel.new.watch ≡ kernel.old.watch }
{
    kernel.set_foreground(group);
    continue_group(kernel, group)
}

/// The next job of bg or fg is sent CONT.
fn continue_next(kernel: &mut Kernel, continuation: &Continuation) -> Result<(), NoMemory>
    ensures state { (s : KernelState) → StandsAt kernel.old s
        → OnOk result (StandsAt kernel.new (after_continuation s continuation.now)) }
    ensures terminal { kernel.new.terminal.bytes ≡ kernel.old.terminal.bytes }
    ensures watch { kernel.new.watch ≡ kernel.old.watch }
{
    match continuation {
        Continuation::Background { jobs, .. } => continue_first(kernel, jobs.as_slice()),
        Continuation::Foreground(job) => continue_in_foreground(kernel, job.group),
    }
}

/// It is asked that the next job of bg or fg goes on.
fn ask_for_continuation(
    kernel: &mut Kernel,
    continuation: &Continuation,
) -> Result<Option<Answer>, NoMemory>
    ensures state { (s : KernelState) → StandsAt kernel.old s → IfOk result (λ answer.
        StandsAt kernel.new (after_continuation s continuation.now)) }
    ensures answer { IfOk result (λ answer. answer ≡ Some Answer.Continued) }
    ensures terminal { kernel.new.terminal.bytes ≡ kernel.old.terminal.bytes }
    ensures watch { kernel.new.watch ≡ kernel.old.watch }
{
    continue_next(kernel, continuation)?;
    Ok(Some(Answer::Continued))
}

/// What a built-in asks is asked of the kernel: the answer, as soon as there is one.
fn ask(
    alloc: Global,
    kernel: &mut Kernel,
    shell: &Shell,
    rest: &BuiltinRest,
) -> Result<Option<Answer>, NoMemory>
    ensures state { (s : KernelState) → StandsAt kernel.old s → IfOk result (λ answer.
        StandsAt kernel.new (asked s shell.now rest.now).after) }
    ensures answer { (s : KernelState) → StandsAt kernel.old s → IfOk result (λ answer.
        answer ≡ (asked s shell.now rest.now).answer) }
    ensures terminal { kernel.new.terminal.bytes ≡ kernel.old.terminal.bytes }
    ensures watch { kernel.new.watch ≡ kernel.old.watch }
{
    match rest {
        BuiltinRest::Reads(_) => ask_for_bytes(alloc, kernel, shell),
        BuiltinRest::Waits(awaited) => Ok(ask_for_end(kernel, shell, awaited)),
        BuiltinRest::Kills(ask) => ask_for_signal(kernel, ask),
        BuiltinRest::Continues(continuation) => ask_for_continuation(kernel, continuation),
    }
}

/// The built-in does what is left of it behind an answer.
fn run_on(
    alloc: Global,
    kernel: &Kernel,
    shell: &mut Shell,
    rest: BuiltinRest,
    answer: Answer,
) -> Result<Active, NoMemory>
    ensures { (s : KernelState) → StandsAt kernel.now s → IfOk result (λ active.
        IsPlaced kernel.now shell.new active (ran_on s (asker_of rest) (resumed s shell.old rest answer))) }
{
    let builtin = rest.builtin();
    let outcome = resume(alloc, kernel, shell, rest, answer)?;
    Ok(behind(builtin, outcome))
}

/// The turn in which a built-in asks the kernel (XCU read, wait, kill, bg, fg): behind the answer it does what is left of it. Without one the same
/// is asked in its next turn. A signal may end or stop the shell itself. The only error is want of memory; what the kernel and the shell are
/// then is left open.
#[tactic(auto, unfolding(crate::specs::Asking::ask_turn))]
pub fn ask_turn(
    alloc: Global,
    kernel: &mut Kernel,
    shell: &mut Shell,
    rest: BuiltinRest,
) -> Result<Active, NoMemory>
    ensures state { (s : KernelState) → StandsAt kernel.old s → IfOk result (λ active.
        IsPlaced kernel.new shell.new active (ask_turn s shell.old rest)) }
    ensures terminal { kernel.new.terminal.bytes ≡ kernel.old.terminal.bytes }
    ensures watch { kernel.new.watch ≡ kernel.old.watch }
{
    match ask(alloc, kernel, shell, &rest)? {
        None => Ok(Active::Next(Action::Asking(rest))),
        Some(answer) => {
            let active = run_on(alloc, kernel, shell, rest, answer)?;
            Ok(active)
        },
    }
}
