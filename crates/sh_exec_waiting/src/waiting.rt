//! The turns in which a shell waits for processes.
ghost use Rattle.std.specs.Prelude.{◌≡◌, IfOk};
ghost use Rattle.sh_jobs.specs.States.{state_of};
ghost use Rattle.sh_kernel.specs.State.{KernelState, StandsAt};
ghost use Rattle.sh_exec_signals.specs.Placed.{IsPlaced};
ghost use Rattle.sh_exec_waiting.specs.Waiting.{answer_by, answer_turn, controlled_by, is_brought_back, is_ended_by_interrupt, suspended, terminal_back, told, wait_by, wait_turn, waited, with_next_answer, with_substitution};
ghost use Rattle.sh_exec_machine.specs.Waits.{wait_status};

use sh_base::NoMemory;
use sh_base::sequence::{Sequence, Text};
use sh_builtin_outcome::Leave;
use sh_builtin_shell::{Shell, own_group};
use sh_exec_actions::{
    Action, Active, CommandStatus, Finish, PipelineWait, Substitution, ToExpand,
};
use sh_exec_machine::{last_of, signal_status, wait_status};
use sh_exec_parts::message::Piece;
use sh_expand::Pending;
use sh_jobs::{JobForm, JobState, state_of};
use sh_kernel::Kernel;
use sh_kernel_processes::Status;
use sh_signal::Signal;
use std::alloc::Global;

/// The status of a substitution is kept.
fn with_substitution(wants: ToExpand, status: u8) -> ToExpand
    ensures { result ≡ with_substitution wants status }
{
    match wants {
        ToExpand::Words {
            command,
            in_place,
            ..
        } => ToExpand::Words {
            command,
            in_place,
            status,
        },
        ToExpand::Values(prepared) => {
            let mut prepared = prepared;
            prepared.status = status;
            ToExpand::Values(prepared)
        },
        ToExpand::Redirects(command) => ToExpand::Redirects(command),
        ToExpand::ForWords(command) => ToExpand::ForWords(command),
        ToExpand::CaseWord(command) => ToExpand::CaseWord(command),
        ToExpand::CasePattern(case) => ToExpand::CasePattern(case),
    }
}

/// An expansion with one answer more.
fn with_answer(pending: Pending, answer: Text) -> Result<Pending, NoMemory>
    ensures { IfOk result (λ next. next ≡ with_next_answer pending answer) }
{
    Ok(pending.answer(answer)?)
}

/// The turn of waiting for the process of a command substitution (XCU 2.6.3): once it has ended the expansion goes on, with what it has
/// written as the next answer. The only error is want of memory.
#[tactic(auto, unfolding(crate::specs::Waiting::answer_turn))]
pub fn answer_turn(
    kernel: &Kernel,
    pid: u32,
    substitution: Substitution,
) -> Result<Action, NoMemory>
    ensures { (s : KernelState) → StandsAt kernel.now s → IfOk result (λ place.
        place ≡ answer_turn s pid substitution) }
{
    let Some(status) = wait_status(kernel, pid, substitution.children.as_slice()) else {
        return Ok(Action::WaitSubstitution(substitution));
    };
    let Substitution {
        wants,
        pending,
        written,
        ..
    } = substitution;
    match with_answer(pending, written) {
        Ok(pending) => Ok(Action::Expanding(with_substitution(wants, status), Some(pending))),
        Err(lack) => {
            drop(wants);
            Err(lack)
        },
    }
}

/// Whether a process has ended by INT.
fn is_ended_by_interrupt(status: Option<Status>) -> bool
    ensures { result ≡ is_ended_by_interrupt status }
{
    match status {
        Some(Status::Signaled(signal)) => signal == Signal::Interrupt.number(),
        Some(Status::Running | Status::Stopped(_) | Status::Exited(_)) => false,
        None => false,
    }
}

/// Whether the last of some processes was ended by INT, and brings an interactive shell back to its prompt by that.
fn is_brought_back(kernel: &Kernel, shell: &Shell, children: &[u32]) -> bool
    ensures { (s : KernelState) → StandsAt kernel.now s → result ≡ is_brought_back s shell.now children.now }
{
    if !shell.is_interactive() {
        return false;
    }
    is_ended_by_interrupt(kernel.status(last_of(children)))
}

/// A command is done with the status of these processes, or an interactive shell comes back to its prompt (XCU 2.11). Takes no memory.
pub(crate) fn waited(kernel: &Kernel, shell: &Shell, children: &[u32], status: u8) -> Active
    ensures { (s : KernelState) → StandsAt kernel.now s → result ≡ waited s shell.now children.now status }
{
    if is_brought_back(kernel, shell, children) {
        return Active::Leaving(Leave::Fault(status));
    }
    Active::Done(CommandStatus::unexcused(status))
}

/// Once all processes have ended the command is done.
fn ended(kernel: &Kernel, shell: &Shell, children: Sequence<u32>, job: Option<Text>) -> Active
    ensures { (s : KernelState) → StandsAt kernel.now s
        → result ≡ wait_by s shell.now children job (wait_status s shell.now.pid children) }
{
    match wait_status(kernel, shell.pid, children.as_slice()) {
        Some(status) => waited(kernel, shell, children.as_slice(), status),
        None => Active::Next(Action::Waiting(PipelineWait { children, job })),
    }
}

/// The terminal's foreground group is that of this process again (XCU 2.11). Takes no memory.
pub fn take_terminal_back(kernel: &mut Kernel, pid: u32)
    ensures state { (s : KernelState) → StandsAt kernel.old s
        → StandsAt kernel.new (terminal_back s pid) }
    ensures terminal { kernel.new.terminal.bytes ≡ kernel.old.terminal.bytes }
    ensures watch { kernel.new.watch ≡ kernel.old.watch }
{
    let group = own_group(kernel, pid);
    kernel.set_foreground(group);
}

/// A line is told, and the command is done with a status.
pub(crate) fn told(line: Option<Text>, status: u8) -> Active
    ensures { result ≡ told line status }
{
    match line {
        Some(bytes) => {
            let piece = Piece {
                descriptor: 2,
                bytes,
            };
            Active::Next(Action::Writing(piece, Finish::Status(status)))
        },
        None => Active::Done(CommandStatus::unexcused(status)),
    }
}

/// A pipeline that was suspended becomes a job.
fn suspend(
    alloc: Global,
    kernel: &Kernel,
    shell: &mut Shell,
    children: &[u32],
    text: &[u8],
    signal: u8,
) -> Result<Active, NoMemory>
    ensures { (s : KernelState) → StandsAt kernel.now s → IfOk result (λ active.
        IsPlaced kernel.now shell.new active (suspended s shell.old children.now text.now signal)) }
{
    let number = shell.suspend(alloc, kernel, text, children, JobState::Suspended(signal))?;
    let line = shell.jobs.report(alloc, kernel, number, JobForm::Short)?;
    Ok(told(line, signal_status(signal)))
}

/// A pipeline that was suspended becomes a job, and the terminal is the shell's again.
fn give_way(
    alloc: Global,
    kernel: &mut Kernel,
    shell: &mut Shell,
    children: &[u32],
    text: &[u8],
    signal: u8,
) -> Result<Active, NoMemory>
    ensures state { (s : KernelState) → StandsAt kernel.old s → IfOk result (λ active.
        IsPlaced kernel.new shell.new active
        (controlled_by s shell.old children.now text.now (JobState.Suspended signal))) }
    ensures terminal { kernel.new.terminal.bytes ≡ kernel.old.terminal.bytes }
    ensures watch { kernel.new.watch ≡ kernel.old.watch }
{
    take_terminal_back(kernel, shell.pid);
    shell.bring_jobs_up_to_date(kernel);
    let active = suspend(alloc, kernel, shell, children, text, signal)?;
    Ok(active)
}

/// The processes of a pipeline may have ended, or be stopped, with job control.
fn controlled(
    alloc: Global,
    kernel: &mut Kernel,
    shell: &mut Shell,
    children: Sequence<u32>,
    text: Text,
) -> Result<Active, NoMemory>
    ensures state { (s : KernelState) → StandsAt kernel.old s → IfOk result (λ active.
        IsPlaced kernel.new shell.new active
        (controlled_by s shell.old children text (state_of s.machine.processes children))) }
    ensures terminal { kernel.new.terminal.bytes ≡ kernel.old.terminal.bytes }
    ensures watch { kernel.new.watch ≡ kernel.old.watch }
{
    match state_of(kernel, children.as_slice()) {
        JobState::Running => {
            let job = Some(text);
            Ok(Active::Next(Action::Waiting(PipelineWait { children, job })))
        },
        JobState::Suspended(signal) => {
            let text = text.as_slice();
            let active = give_way(alloc, kernel, shell, children.as_slice(), text, signal)?;
            Ok(active)
        },
        JobState::Done(_) => {
            let active = ended(kernel, shell, children, Some(text));
            take_terminal_back(kernel, shell.pid);
            Ok(active)
        },
    }
}

/// The turn of waiting for the processes of a pipeline (2.9.2): once all have ended the command is done, with the status of the last. With job
/// control it is done also where some are stopped and none runs (2.11): they are a job then, of which a line is written next; and the
/// terminal is the shell's again. The only error is want of memory; what the kernel and the shell are then is left open.
#[tactic(auto, unfolding(crate::specs::Waiting::wait_turn))]
pub fn wait_turn(
    alloc: Global,
    kernel: &mut Kernel,
    shell: &mut Shell,
    wait: PipelineWait,
) -> Result<Active, NoMemory>
    ensures state { (s : KernelState) → StandsAt kernel.old s → IfOk result (λ active.
        IsPlaced kernel.new shell.new active (wait_turn s shell.old wait)) }
    ensures terminal { kernel.new.terminal.bytes ≡ kernel.old.terminal.bytes }
    ensures watch { kernel.new.watch ≡ kernel.old.watch }
{
    let PipelineWait { children, job } = wait;
    match job {
        None => Ok(ended(kernel, shell, children, None)),
        Some(text) => {
            let active = controlled(alloc, kernel, shell, children, text)?;
            Ok(active)
        },
    }
}
