//! Waiting for a job that fg has brought to the foreground (XCU fg).
ghost use Rattle.std.specs.Prelude.{◌≡◌, IfOk};
ghost use Rattle.sh_exec_waiting.specs.JobWaits.{job_ended, job_suspended, job_wait_by, job_wait_turn};
ghost use Rattle.sh_exec_signals.specs.Placed.{IsPlaced};
ghost use Rattle.sh_exec_machine.specs.Waits.{wait_status};
ghost use Rattle.sh_jobs.specs.States.{state_of};
ghost use Rattle.sh_kernel.specs.State.{KernelState, StandsAt};

use crate::waiting::{take_terminal_back, told, waited};
use sh_base::NoMemory;
use sh_builtin_outcome::JobWait;
use sh_builtin_shell::Shell;
use sh_exec_actions::{Action, Active};
use sh_exec_machine::{signal_status, wait_status};
use sh_jobs::{JobForm, JobState, state_of};
use sh_kernel::Kernel;
use std::alloc::Global;

/// A job is told to be suspended, and the shell knows its processes.
fn tell_suspended(
    alloc: Global,
    kernel: &Kernel,
    shell: &mut Shell,
    wait: &JobWait,
    signal: u8,
) -> Result<Active, NoMemory>
    ensures { (s : KernelState) → StandsAt kernel.now s → IfOk result (λ active.
        IsPlaced kernel.now shell.new active (job_suspended s shell.old wait.now signal)) }
{
    shell.known.extend_from_slice(wait.processes.as_slice())?;
    shell.jobs.tell(wait.number, JobState::Suspended(signal));
    let line = shell
        .jobs
        .report(alloc, kernel, wait.number, JobForm::Short)?;
    Ok(told(line, signal_status(signal)))
}

/// The job in the foreground is suspended, and the terminal is the shell's again.
fn job_suspended(
    alloc: Global,
    kernel: &mut Kernel,
    shell: &mut Shell,
    wait: &JobWait,
    signal: u8,
) -> Result<Active, NoMemory>
    ensures state { (s : KernelState) → StandsAt kernel.old s → IfOk result (λ active.
        IsPlaced kernel.new shell.new active (job_wait_by s shell.old wait.now (JobState.Suspended signal))) }
    ensures terminal { kernel.new.terminal.bytes ≡ kernel.old.terminal.bytes }
    ensures watch { kernel.new.watch ≡ kernel.old.watch }
{
    take_terminal_back(kernel, shell.pid);
    shell.bring_jobs_up_to_date(kernel);
    let active = tell_suspended(alloc, kernel, shell, wait, signal)?;
    Ok(active)
}

/// Once all processes of the job have ended, the shell forgets it.
fn job_ended(kernel: &Kernel, shell: &mut Shell, wait: JobWait) -> Active
    ensures { (s : KernelState) → StandsAt kernel.now s → IsPlaced kernel.now shell.new result
        (job_ended s shell.old wait (wait_status s shell.old.pid wait.processes)) }
{
    match wait_status(kernel, shell.pid, wait.processes.as_slice()) {
        Some(status) => {
            let active = waited(kernel, shell, wait.processes.as_slice(), status);
            shell.forget_job(wait.number, wait.processes.as_slice());
            active
        },
        None => Active::Next(Action::WaitForJob(wait)),
    }
}

/// The turn of waiting for a job that is in the foreground (XCU fg): once all its processes have ended the command is done, with the status of
/// the last, and the shell forgets the job. It is done also where some are stopped and none runs (2.11): a line of the job is written next. The
/// terminal is the shell's again. The only error is want of memory; what the kernel and the shell are then is left open.
#[tactic(auto, unfolding(crate::specs::JobWaits::job_wait_turn))]
pub fn job_wait_turn(
    alloc: Global,
    kernel: &mut Kernel,
    shell: &mut Shell,
    wait: JobWait,
) -> Result<Active, NoMemory>
    ensures state { (s : KernelState) → StandsAt kernel.old s → IfOk result (λ active.
        IsPlaced kernel.new shell.new active (job_wait_turn s shell.old wait)) }
    ensures terminal { kernel.new.terminal.bytes ≡ kernel.old.terminal.bytes }
    ensures watch { kernel.new.watch ≡ kernel.old.watch }
{
    match state_of(kernel, wait.processes.as_slice()) {
        JobState::Running => Ok(Active::Next(Action::WaitForJob(wait))),
        JobState::Suspended(signal) => {
            let active = job_suspended(alloc, kernel, shell, &wait, signal)?;
            Ok(active)
        },
        JobState::Done(_) => {
            take_terminal_back(kernel, shell.pid);
            Ok(job_ended(kernel, shell, wait))
        },
    }
}
