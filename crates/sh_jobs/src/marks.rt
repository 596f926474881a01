//! Marks of the numbers that jobs have, by which the number of a new job is found without a look at each job.
ghost use Rattle.std.specs.Prelude.{◌≡◌, ◌==◌, ◌||◌, ◌+◌, ◌*◌, ◌<◌, ◌≤◌, ℕ, [], true, false, IfOk, length, get_or};
ghost use Rattle.sh_jobs.specs.Marks.{AreMarked};
ghost use Rattle.sh_jobs.specs.Table.{IsLeastFree, free_number, is_taken};

use crate::job::Job;
use sh_base::NoMemory;
use std::alloc::Global;

/// What a table remembers of the numbers that are taken. A launch looks at all jobs only where a job has been removed since one last did, or
/// more jobs were launched since than there were then.
#[derive(Debug, Drop)]
pub(crate) struct Marks {
    /// All numbers from 1 to this one are taken.
    pub(crate) filled: usize,
    /// Whether the number of each place is taken; right only for the numbers after those.
    marks: Vec<bool>,
}

/// Marks a number, if it has a mark.
fn mark(marks: &mut [bool], number: usize)
    ensures length { length marks.new ≡ length marks.old }
    ensures marked { (k : ℕ) → k < length marks.old → get_or marks.new k false ≡ (get_or marks.old k false || number == k) }
{
    if number < marks.len() {
        marks[number] = true;
    }
}

/// The marks of all numbers up to twice the count of the jobs and one more. More of them are free than there are jobs, and so many launches
/// need no other marks.
fn marks_of(alloc: Global, jobs: &[Job]) -> Result<Vec<bool>, NoMemory>
    ensures length { IfOk result (λ marks. length jobs.now + 1 ≤ length marks.items) }
    ensures marked { IfOk result (λ marks. (k : ℕ) → k < length marks.items → get_or marks.items k false ≡ is_taken jobs.now k) }
{
    let places = jobs.len().saturating_mul(2).saturating_add(2);
    let mut marks = vec![in alloc; false; places]?;
    let mut rest = jobs;
    'jobs: while let Some((job, others)) = rest.split_first() {
        mark(marks.as_mut_slice(), job.number);
        rest = others;
    }
    Ok(marks)
}

/// The first number from this one on that isn't marked, or else the one after all that have marks.
fn first_unmarked(marks: &[bool], from: usize) -> usize
    ensures from { from ≤ result }
    ensures marked { (k : ℕ) → from ≤ k → k < result → get_or marks.now k false ≡ true }
    ensures unmarked { result < length marks.now → get_or marks.now result false ≡ false }
    ensures bound { from ≤ length marks.now → result ≤ length marks.now }
{
    let mut number = from;
    while number < marks.len() && marks[number] {
        number += 1;
    }
    number
}

impl Marks {
    /// Nothing is known. Takes no memory.
    pub(crate) fn new(alloc: Global) -> Marks
        ensures filled { result.filled ≡ 0 }
        ensures marks { result.marks.items ≡ [] }
    {
        Marks {
            filled: 0,
            marks: Vec::new(alloc),
        }
    }

    /// Nothing is known any more.
    pub(crate) fn forget(&mut self)
        ensures filled { self.new.filled ≡ 0 }
        ensures marks { self.new.marks.items ≡ [] }
    {
        self.filled = 0;
        self.marks.clear();
    }

    /// The least number from 1 on that no job has. The only error is want of memory.
    pub(crate) fn free_number(&mut self, alloc: Global, jobs: &[Job]) -> Result<usize, NoMemory>
        requires { AreMarked jobs.now self.old.marks.items self.old.filled }
        ensures value { IfOk result (λ number. number ≡ free_number jobs.now) }
        ensures least { IfOk result (λ number. IsLeastFree jobs.now number) }
        ensures filled { self.new.filled ≡ self.old.filled }
        ensures marked { AreMarked jobs.now self.new.marks.items self.new.filled }
    {
        let number = first_unmarked(self.marks.as_slice(), self.filled + 1);
        if number < self.marks.len() {
            return Ok(number);
        }
        self.marks = marks_of(alloc, jobs)?;
        Ok(first_unmarked(self.marks.as_slice(), self.filled + 1))
    }
}
