//! What an operand of `wait` names.
ghost use Rattle.std.specs.Prelude.{◌≡◌, ◌==◌, IfOk, find};
ghost use Rattle.sh_builtin_wait.specs.Waits.{named_found, named_of, named_process};
ghost use Rattle.sh_jobs.specs.State.{KernelState, StandsAt};

use sh_base::NoMemory;
use sh_base::decimal::number_of;
use sh_base::sequence::Sequence;
use sh_jobs::{JobFault, Jobs, Kernel};
use std::alloc::Global;

/// What is waited for at an operand of `wait`.
#[derive(Debug, Drop)]
pub enum WaitTarget {
    /// A process that the shell knows.
    Process(u32),
    /// A job.
    Job {
        /// Its number.
        number: usize,
        /// Its processes, in the order of the stages of its pipeline.
        processes: Sequence<u32>,
    },
}

/// What an operand of `wait` names.
#[derive(Debug, Drop)]
pub(crate) enum Named {
    /// What can be waited for.
    Known(WaitTarget),
    /// A process that the shell doesn't know.
    Unknown,
    /// A job ID that names no job.
    NoJob(JobFault),
}

impl WaitTarget {
    /// A copy, which is equal. The only error is want of memory.
    pub(crate) fn copy(&self, alloc: Global) -> Result<WaitTarget, NoMemory>
        ensures { IfOk result (λ copy. copy ≡ self.now) }
    {
        match self {
            WaitTarget::Process(pid) => Ok(WaitTarget::Process(*pid)),
            WaitTarget::Job { number, processes } => {
                let processes = Sequence::copy_of(alloc, processes.as_slice())?;
                Ok(WaitTarget::Job {
                    number: *number,
                    processes,
                })
            },
        }
    }
}

/// What a number names, by the known process that has it.
fn named_process(pid: Option<u32>) -> Named
    ensures { result ≡ named_process pid }
{
    match pid {
        Some(pid) => Named::Known(WaitTarget::Process(pid)),
        None => Named::Unknown,
    }
}

/// The known process of a number.
fn process_numbered(known: &[u32], number: u64) -> Option<u32>
    ensures { result ≡ find (λ pid. pid == number) known.now }
{
    known.iter().copied().find(|pid| u64::from(*pid) == number)
}

/// What a job ID names, by the job that was found.
fn named_found(
    alloc: Global,
    jobs: &Jobs,
    found: Result<usize, JobFault>,
) -> Result<Named, NoMemory>
    ensures { IfOk result (λ named. named ≡ named_found jobs.now found) }
{
    let number = match found {
        Ok(number) => number,
        Err(fault) => return Ok(Named::NoJob(fault)),
    };
    match jobs.job(number) {
        Some(job) => {
            let processes = Sequence::copy_of(alloc, job.pids.as_slice())?;
            Ok(Named::Known(WaitTarget::Job { number, processes }))
        },
        None => Ok(Named::NoJob(JobFault::NoSuchJob)),
    }
}

/// What an operand names. The only error is want of memory.
#[tactic(auto, unfolding(crate::specs::Waits::named_of))]
pub(crate) fn named_of(
    alloc: Global,
    kernel: &Kernel,
    jobs: &Jobs,
    known: &[u32],
    operand: &[u8],
) -> Result<Named, NoMemory>
    ensures { (s : KernelState) → StandsAt kernel.now s
        → IfOk result (λ named. named ≡ named_of s.machine.processes jobs.now known.now operand.now) }
{
    if let Some(number) = number_of(operand) {
        return Ok(named_process(process_numbered(known, number)));
    }
    let found = named_found(alloc, jobs, jobs.find(kernel, operand))?;
    Ok(found)
}
