//! The current job and the previous one.
ghost use Rattle.std.specs.Prelude.{◌≡◌, Some, map, filter, option_map, if◌then◌else◌};
ghost use Rattle.sh_kernel.specs.State.{KernelState, StandsAt};
ghost use Rattle.sh_jobs.specs.Order.{ahead_by, best, current_of, first_of_two, is_ahead, is_kept, is_later, is_suspended, previous_by, previous_of, rank_of};

use crate::job::Job;
use crate::stages::state_of;
use crate::state::JobState;
use sh_kernel::Kernel;

/// What decides which of two jobs is ahead (XBD chapter 3, Job ID).
#[derive(Clone, Copy, Debug)]
pub(crate) struct Rank {
    /// Whether the job is suspended.
    pub(crate) suspended: bool,
    /// The event of its last change.
    pub(crate) changed: u64,
    /// Its number.
    pub(crate) number: usize,
}

/// Whether a job of this state is suspended.
fn is_suspended(state: JobState) -> bool
    ensures { result ≡ is_suspended state }
{
    match state {
        JobState::Running => false,
        JobState::Suspended(_) => true,
        JobState::Done(_) => false,
    }
}

/// The rank of a job.
fn rank_of(kernel: &Kernel, job: &Job) -> Rank
    ensures { (s : KernelState) → StandsAt kernel.now s → result ≡ rank_of s.machine.processes job.now }
{
    Rank {
        suspended: is_suspended(state_of(kernel, job.pids.as_slice())),
        changed: job.changed,
        number: job.number,
    }
}

/// Whether the first job changed later, or at the same event and has the greater number.
fn is_later(a: Rank, b: Rank) -> bool
    ensures { result ≡ is_later a b }
{
    if a.changed == b.changed {
        return a.number > b.number;
    }
    a.changed > b.changed
}

/// Whether the first job is ahead of the second one.
fn is_ahead(a: Rank, b: Rank) -> bool
    ensures { result ≡ is_ahead a b }
{
    if a.suspended {
        return !b.suspended || is_later(a, b);
    }
    !b.suspended && is_later(a, b)
}

/// The one of two ranks that is ahead.
fn first_of_two(rank: Rank, other: Option<Rank>) -> Rank
    ensures { result ≡ first_of_two rank other }
{
    match other {
        Some(other) => {
            if is_ahead(other, rank) {
                return other;
            }
            rank
        },
        None => rank,
    }
}

/// Whether a job is not the one that is left out.
fn is_kept(job: &Job, left_out: Option<usize>) -> bool
    ensures { result ≡ is_kept left_out job.now }
{
    match left_out {
        Some(number) => job.number != number,
        None => true,
    }
}

/// The first rank, with one more job before the others.
fn with_job(
    kernel: &Kernel,
    job: &Job,
    left_out: Option<usize>,
    first: Option<Rank>,
) -> Option<Rank>
    ensures { (s : KernelState) → StandsAt kernel.now s
        → result ≡ (if is_kept left_out job.now then Some (first_of_two (rank_of s.machine.processes job.now) first) else first) }
{
    if !is_kept(job, left_out) {
        return first;
    }
    Some(first_of_two(rank_of(kernel, job), first))
}

/// The rank that is ahead of all others, where one job may be left out.
fn first_rank(kernel: &Kernel, jobs: &[Job], left_out: Option<usize>) -> Option<Rank>
    ensures { (s : KernelState) → StandsAt kernel.now s
        → result ≡ best first_of_two (map (rank_of s.machine.processes) (filter (is_kept left_out) jobs.now)) }
{
    let mut first = None;
    let mut rest = jobs;
    'jobs: while let Some((job, others)) = rest.split_last() {
        first = with_job(kernel, job, left_out, first);
        rest = others;
    }
    first
}

/// The number of the job of a rank.
fn number_of(rank: Option<Rank>) -> Option<usize>
    ensures { result ≡ option_map (λ rank. rank.number) rank }
{
    match rank {
        Some(rank) => Some(rank.number),
        None => None,
    }
}

/// The number of the current job, if there is a job.
pub(crate) fn current(kernel: &Kernel, jobs: &[Job]) -> Option<usize>
    ensures { (s : KernelState) → StandsAt kernel.now s → result ≡ current_of s.machine.processes jobs.now }
{
    number_of(first_rank(kernel, jobs, None))
}

/// The number of the job that is ahead of all but the current one, if there is a current one.
fn after_current(kernel: &Kernel, jobs: &[Job], current: Option<usize>) -> Option<usize>
    ensures { (s : KernelState) → StandsAt kernel.now s → result ≡ previous_by s.machine.processes jobs.now current }
{
    match current {
        Some(number) => number_of(first_rank(kernel, jobs, Some(number))),
        None => None,
    }
}

/// The number of the previous job, if there are two jobs.
#[tactic(auto, unfolding(crate::specs::Order::previous_of))]
pub(crate) fn previous(kernel: &Kernel, jobs: &[Job]) -> Option<usize>
    ensures { (s : KernelState) → StandsAt kernel.now s → result ≡ previous_of s.machine.processes jobs.now }
{
    after_current(kernel, jobs, current(kernel, jobs))
}
