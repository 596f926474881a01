//! What `jobs` lists, and what it tells the user by that.
ghost use Rattle.std.specs.Prelude.{◌≡◌, IfOk};
ghost use Rattle.sh_builtin_jobs.specs.Listing.{after_lines, after_listing, form_of, job_lines, jobs_listed, jobs_named, jobs_of, told_in, told_of_each};
ghost use Rattle.sh_builtin_jobs.specs.JobWords.{state_at};
ghost use Rattle.sh_jobs.specs.State.{KernelState, StandsAt};

use crate::job_word::{Wanted, messages_named, named_status, numbers_named, options_and_ids};
use sh_base::NoMemory;
use sh_base::sequence::{Sequence, Text, copies_of};
use sh_builtin_environment::BuiltinFault;
use sh_jobs::{JobForm, Jobs, Kernel};
use std::alloc::Global;

/// What `jobs` lists (XCU jobs).
#[derive(Debug, Drop)]
pub struct JobsCommand {
    /// The form of the lines.
    pub form: JobForm,
    /// The IDs of the jobs; where there are none, all jobs are listed in the order of their numbers.
    pub ids: Sequence<Text>,
}

/// The jobs that `jobs` lists.
#[derive(Debug, Drop)]
pub struct JobsNamed {
    /// Their numbers, in the order of the operands; without operands the least first.
    pub numbers: Sequence<usize>,
    /// The messages about operands that name none, each of them whole, with `psh: ` and a newline.
    pub messages: Sequence<Text>,
    /// The status of `jobs`: 2 where there is a message, else 0.
    pub status: u8,
}

/// The form that the letter of an option asks for.
fn form_of(letter: Option<u8>) -> JobForm
    ensures { result ≡ form_of letter }
{
    match letter {
        Some(letter) => {
            if letter == b'l' {
                return JobForm::Long;
            }
            JobForm::Group
        },
        None => JobForm::Short,
    }
}

/// What the arguments of `jobs` ask for (XCU jobs): `jobs [-l | -p] [ID..]`; of several options the last one counts. The inner error is
/// `Usage`, for another option and for an operand that doesn't begin with a percent sign. The outer one is want of memory.
#[tactic(auto, unfolding(crate::specs::Listing::jobs_of))]
pub fn jobs_of(
    alloc: Global,
    arguments: &[Text],
) -> Result<Result<JobsCommand, BuiltinFault>, NoMemory>
    ensures { IfOk result (λ command. command ≡ jobs_of arguments.now) }
{
    match options_and_ids(b"lp", arguments) {
        Some((letter, ids)) => {
            let ids = Sequence::from_vec(copies_of(alloc, ids)?);
            Ok(Ok(JobsCommand {
                form: form_of(letter),
                ids,
            }))
        },
        None => Ok(Err(BuiltinFault::Usage)),
    }
}

/// The jobs that these IDs name.
#[tactic(auto, unfolding(crate::specs::Listing::jobs_named))]
fn jobs_named(
    alloc: Global,
    kernel: &Kernel,
    jobs: &Jobs,
    ids: &[Text],
) -> Result<JobsNamed, NoMemory>
    ensures { (s : KernelState) → StandsAt kernel.now s
        → IfOk result (λ named. named ≡ jobs_named s.machine.processes jobs.now ids.now) }
{
    let numbers = numbers_named(alloc, Wanted::Any, kernel, jobs, ids)?;
    let messages = messages_named(alloc, b"jobs", Wanted::Any, kernel, jobs, ids)?;
    let status = named_status(messages.as_slice());
    Ok(JobsNamed {
        numbers,
        messages,
        status,
    })
}

/// The jobs that `jobs` lists by these operands: those that they name, in their order; without operands all jobs, the least number first. The
/// only error is want of memory.
pub fn jobs_listed(
    alloc: Global,
    kernel: &Kernel,
    jobs: &Jobs,
    ids: &[Text],
) -> Result<JobsNamed, NoMemory>
    ensures { (s : KernelState) → StandsAt kernel.now s
        → IfOk result (λ listed. listed ≡ jobs_listed s.machine.processes jobs.now ids.now) }
{
    if ids.is_empty() {
        return Ok(JobsNamed {
            numbers: jobs.numbers(alloc)?,
            messages: Sequence::new(alloc),
            status: 0,
        });
    }
    let named = jobs_named(alloc, kernel, jobs, ids)?;
    Ok(named)
}

/// What `jobs` writes of the jobs of these numbers (XCU jobs): a line for each, in this order; none for a number that no job has. The only
/// error is want of memory.
pub fn job_lines(
    alloc: Global,
    kernel: &Kernel,
    jobs: &Jobs,
    form: JobForm,
    numbers: &[usize],
) -> Result<Text, NoMemory>
    ensures { (s : KernelState) → StandsAt kernel.now s
        → IfOk result (λ lines. lines ≡ job_lines s.machine.processes jobs.now form numbers.now) }
{
    let mut lines = Sequence::new(alloc);
    let mut rest = numbers;
    'numbers: while let Some((number, others)) = rest.split_first() {
        if let Some(line) = jobs.report(alloc, kernel, *number, form)? {
            lines.extend_from_slice(line.as_slice())?;
        }
        rest = others;
    }
    Ok(lines)
}

/// The present state of the job of this number is the one last told.
fn tell(kernel: &Kernel, jobs: &mut Jobs, number: usize)
    ensures { (s : KernelState) → StandsAt kernel.now s
        → jobs.new ≡ told_in jobs.old number (state_at s.machine.processes jobs.old number) }
{
    if let Some(state) = jobs.state(kernel, number) {
        jobs.tell(number, state);
    }
}

/// The present states of the jobs of these numbers are the ones last told.
fn tell_each(kernel: &Kernel, jobs: &mut Jobs, numbers: &[usize])
    ensures { (s : KernelState) → StandsAt kernel.now s
        → jobs.new ≡ told_of_each s.machine.processes jobs.old numbers.now }
{
    let mut rest = numbers;
    'numbers: while let Some((number, others)) = rest.split_first() {
        tell(kernel, jobs, *number);
        rest = others;
    }
}

/// The present states of these jobs are told, and jobs go that are done.
fn tell_lines(kernel: &Kernel, jobs: &mut Jobs, numbers: &[usize])
    ensures { (s : KernelState) → StandsAt kernel.now s
        → jobs.new ≡ after_lines s.machine.processes jobs.old numbers.now }
{
    tell_each(kernel, jobs, numbers);
    jobs.remove_told(kernel);
}

/// `jobs` has listed the jobs of these numbers (XCU jobs, 2.11): their present states are told by that, and jobs that are done go. The form
/// `Group` tells no state, and nothing changes. Takes no memory.
pub fn tell_listed(kernel: &Kernel, jobs: &mut Jobs, form: JobForm, numbers: &[usize])
    ensures { (s : KernelState) → StandsAt kernel.now s
        → jobs.new ≡ after_listing s.machine.processes jobs.old form numbers.now }
{
    match form {
        JobForm::Short => tell_lines(kernel, jobs, numbers),
        JobForm::Long => tell_lines(kernel, jobs, numbers),
        JobForm::Group => {},
    }
}
