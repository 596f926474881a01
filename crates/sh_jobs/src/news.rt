//! The jobs whose states have changed, and those of which nothing more is to be told.
ghost use Rattle.std.specs.Prelude.{◌≡◌, Some, if◌then◌else◌};
ghost use Rattle.sh_kernel.specs.State.{KernelState, StandsAt};
ghost use Rattle.sh_jobs.specs.News.{has_changed, is_done, is_over, is_over_in, is_told, lesser, next_changed, without_told};

use crate::job::Job;
use crate::stages::state_of;
use crate::state::JobState;
use sh_kernel::Kernel;

/// Whether a state is the one last told.
fn is_told(now: JobState, told: Option<JobState>) -> bool
    ensures { result ≡ is_told now told }
{
    match told {
        Some(told) => now == told,
        None => false,
    }
}

/// Whether a job's state is not the one last told.
fn has_changed(kernel: &Kernel, job: &Job) -> bool
    ensures { (s : KernelState) → StandsAt kernel.now s → result ≡ has_changed s.machine.processes job.now }
{
    !is_told(state_of(kernel, job.pids.as_slice()), job.told)
}

/// The lesser of two numbers.
fn lesser(number: usize, other: Option<usize>) -> usize
    ensures { result ≡ lesser number other }
{
    match other {
        Some(other) => {
            if other < number {
                return other;
            }
            number
        },
        None => number,
    }
}

/// The least number, with one more job before the others.
fn with_job(kernel: &Kernel, job: &Job, least: Option<usize>) -> Option<usize>
    ensures { (s : KernelState) → StandsAt kernel.now s
        → result ≡ (if has_changed s.machine.processes job.now then Some (lesser job.now.number least) else least) }
{
    if !has_changed(kernel, job) {
        return least;
    }
    Some(lesser(job.number, least))
}

/// The least number of a job that has changed.
pub(crate) fn next_changed(kernel: &Kernel, jobs: &[Job]) -> Option<usize>
    ensures { (s : KernelState) → StandsAt kernel.now s → result ≡ next_changed s.machine.processes jobs.now }
{
    let mut least = None;
    let mut rest = jobs;
    'jobs: while let Some((job, others)) = rest.split_last() {
        least = with_job(kernel, job, least);
        rest = others;
    }
    least
}

/// Whether a job of this state is done.
fn is_done(state: JobState) -> bool
    ensures { result ≡ is_done state }
{
    match state {
        JobState::Running => false,
        JobState::Suspended(_) => false,
        JobState::Done(_) => true,
    }
}

/// Whether a job is done in this state, and has been told so.
fn is_over_in(now: JobState, told: Option<JobState>) -> bool
    ensures { result ≡ is_over_in now told }
{
    is_done(now) && is_told(now, told)
}

/// Whether a job is done, and its state has been told.
fn is_over(kernel: &Kernel, job: &Job) -> bool
    ensures { (s : KernelState) → StandsAt kernel.now s → result ≡ is_over s.machine.processes job.now }
{
    is_over_in(state_of(kernel, job.pids.as_slice()), job.told)
}

/// Removes the jobs that are done and whose states have been told.
pub(crate) fn remove_told(kernel: &Kernel, jobs: &mut Vec<Job>)
    ensures { (s : KernelState) → StandsAt kernel.now s → jobs.new.items ≡ without_told s.machine.processes jobs.old.items }
{
    jobs.retain(|job| !is_over(kernel, job));
}
