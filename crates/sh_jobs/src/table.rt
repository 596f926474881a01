//! The table of jobs, as a list.
ghost use Rattle.std.specs.Prelude.{◌≡◌, ◌==◌, not, ◌++◌, ◌≤◌, OnErr, IfOk, OnOk, length, nat_le, option_map, position};
ghost use Rattle.std.specs.List.{list_any};
ghost use Rattle.sh_jobs.specs.Table.{after_note, after_telling, has_number, is_taken, numbers_of, place_of, with_number, without};

use crate::job::Job;
use crate::state::JobState;
use sh_base::NoMemory;
use std::alloc::Global;

/// Whether a job has this number.
pub(crate) fn is_taken(jobs: &[Job], number: usize) -> bool
    ensures { result ≡ is_taken jobs.now number }
{
    jobs.iter().any(|job| job.number == number)
}

/// Each job that has this process has changed at this event.
pub(crate) fn note(jobs: &mut [Job], pid: u32, event: u64)
    ensures { jobs.new ≡ after_note jobs.old pid event }
{
    for job in jobs.iter_mut() {
        job.note(pid, event);
    }
}

/// This state of the job of this number is the one last told.
pub(crate) fn tell(jobs: &mut [Job], number: usize, state: JobState)
    ensures { jobs.new ≡ after_telling jobs.old number state }
{
    for job in jobs.iter_mut() {
        job.tell(number, state);
    }
}

/// Removes the job of this number.
pub(crate) fn remove(jobs: &mut Vec<Job>, number: usize)
    ensures { jobs.new.items ≡ without jobs.old.items number }
{
    jobs.retain(|job| job.number != number);
}

/// The place of the first of these numbers that isn't less than this one.
fn first_not_less(numbers: &[usize], number: usize) -> Option<usize>
    ensures { result ≡ position (λ other. nat_le number other) numbers.now }
{
    numbers.iter().position(|other| *other >= number)
}

/// The place of that number, or else the one behind them all.
fn place_of(numbers: &[usize], number: usize) -> usize
    ensures place { result ≡ place_of numbers.now number }
    ensures bound { result ≤ length numbers.now }
{
    match first_not_less(numbers, number) {
        Some(place) => place,
        None => numbers.len(),
    }
}

/// Puts a number before the first that isn't less.
fn put_number(numbers: &mut Vec<usize>, number: usize) -> Result<(), NoMemory>
    ensures { OnOk result (numbers.new.items ≡ with_number numbers.old.items number) }
{
    let place = place_of(numbers.as_slice(), number);
    numbers.insert(place, number)?;
    Ok(())
}

/// The numbers of all jobs, the least first.
pub(crate) fn numbers_of(alloc: Global, jobs: &[Job]) -> Result<Vec<usize>, NoMemory>
    ensures { IfOk result (λ numbers. numbers.items ≡ numbers_of jobs.now) }
{
    let mut numbers = Vec::new(alloc);
    let mut rest = jobs;
    'jobs: while let Some((job, others)) = rest.split_first() {
        put_number(&mut numbers, job.number)?;
        rest = others;
    }
    Ok(numbers)
}
