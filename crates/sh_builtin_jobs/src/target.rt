//! The processes that an operand of `kill` names.
ghost use Rattle.std.specs.Prelude.{◌≡◌, [], IfOk};
ghost use Rattle.sh_base.specs.Decimals.{at_most};
ghost use Rattle.sh_builtin_jobs.specs.KillTargets.{group_target, group_with, job_target, kill_target, process_target, process_with, target_found, target_of_job};
ghost use Rattle.sh_jobs.specs.Ids.{job_of_id};
ghost use Rattle.sh_jobs.specs.State.{KernelState, StandsAt};

use crate::command::group_number;
use sh_base::NoMemory;
use sh_base::decimal::number_of;
use sh_base::sequence::Sequence;
use sh_jobs::{Job, JobFault, Jobs, Kernel};
use sh_kernel_processes::SignalTarget;
use std::alloc::Global;

/// The job control of a shell (XCU 2.11).
#[derive(Clone, Copy, Debug, PartialEq, Eq)]
pub struct JobControl {
    /// Whether it is on.
    pub is_on: bool,
    /// The number of the shell's own process group.
    pub own_group: u32,
}

/// A number that processes and groups can have.
fn number_within(number: u64) -> Option<u32>
    ensures { result ≡ at_most 4294967295 number }
{
    if number <= 4294967295 {
        return Some(number as u32);
    }
    None
}

/// The process of a number.
fn process_target(alloc: Global, own_group: u32, number: u64) -> SignalTarget
    ensures { result ≡ process_target own_group number }
{
    if number == 0 {
        return SignalTarget::Group(own_group);
    }
    match number_within(number) {
        Some(number) => SignalTarget::Process(number),
        None => SignalTarget::Processes(Sequence::new(alloc)),
    }
}

/// The group of a number.
fn group_target(alloc: Global, own_group: u32, number: u64) -> SignalTarget
    ensures { result ≡ group_target own_group number }
{
    if number == 0 {
        return SignalTarget::Group(own_group);
    }
    match number_within(number) {
        Some(number) => SignalTarget::Group(number),
        None => SignalTarget::Processes(Sequence::new(alloc)),
    }
}

/// The processes of a job.
fn job_target(alloc: Global, is_on: bool, job: &Job) -> Result<SignalTarget, NoMemory>
    ensures { IfOk result (λ target. target ≡ job_target is_on job.now) }
{
    if is_on {
        return Ok(SignalTarget::Group(job.group));
    }
    Ok(SignalTarget::Processes(Sequence::copy_of(alloc, job.pids.as_slice())?))
}

/// The processes of the job that a job ID named.
fn target_found(
    alloc: Global,
    is_on: bool,
    jobs: &Jobs,
    found: Result<usize, JobFault>,
) -> Result<Result<SignalTarget, JobFault>, NoMemory>
    ensures { IfOk result (λ target. target ≡ target_found is_on jobs.now found) }
{
    let number = match found {
        Ok(number) => number,
        Err(fault) => return Ok(Err(fault)),
    };
    match jobs.job(number) {
        Some(job) => {
            let target = job_target(alloc, is_on, job)?;
            Ok(Ok(target))
        },
        None => Ok(Err(JobFault::NoSuchJob)),
    }
}

/// The processes that an operand of `kill` names (XCU kill, OPERANDS): the process of a number, the group of the number behind a minus, and
/// of 0 the shell's own group; of a job ID the job's group or, without job control, its processes. A number that is too great for
/// any process names none. The inner error says why a job ID names no job; the outer one is want of memory.
#[tactic(auto, unfolding(crate::specs::KillTargets::kill_target))]
pub fn kill_target(
    alloc: Global,
    control: JobControl,
    kernel: &Kernel,
    jobs: &Jobs,
    word: &[u8],
) -> Result<Result<SignalTarget, JobFault>, NoMemory>
    ensures { (s : KernelState) → StandsAt kernel.now s
        → IfOk result (λ target. target ≡ kill_target control s.machine.processes jobs.now word.now) }
{
    if let Some(number) = number_of(word) {
        return Ok(Ok(process_target(alloc, control.own_group, number)));
    }
    if let Some(number) = group_number(word) {
        return Ok(Ok(group_target(alloc, control.own_group, number)));
    }
    let target = target_found(alloc, control.is_on, jobs, jobs.find(kernel, word))?;
    Ok(target)
}
