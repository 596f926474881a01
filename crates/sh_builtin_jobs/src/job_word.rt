//! The jobs that operands name.
ghost use Rattle.std.specs.Prelude.{◌≡◌, IfOk, option_map};
ghost use Rattle.std.specs.List.{list_all};
ghost use Rattle.sh_builtin_jobs.specs.JobWords.{is_job_id, is_over, job_named, messages_named, named_status, numbers_named, options_and_ids, unless_over};
ghost use Rattle.sh_jobs.specs.State.{KernelState, StandsAt};

use crate::message::{fault_text, message_about};
use sh_base::NoMemory;
use sh_base::sequence::{Sequence, Text};
use sh_builtin_environment::parse_options;
use sh_jobs::{JobFault, JobState, Jobs, Kernel};
use std::alloc::Global;

/// The jobs that a built-in takes.
#[derive(Clone, Copy, Debug)]
pub(crate) enum Wanted {
    /// Each job.
    Any,
    /// Those that aren't done.
    NotDone,
}

/// Whether a word is a job ID.
pub(crate) fn is_job_id(word: &[u8]) -> bool
    ensures { result ≡ is_job_id word.now }
{
    match word.split_first() {
        Some((first, _)) => *first == b'%',
        None => false,
    }
}

/// Whether each word is a job ID.
fn are_job_ids(words: &[Text]) -> bool
    ensures { result ≡ list_all is_job_id words.now }
{
    words.iter().all(|word| is_job_id(word.as_slice()))
}

/// The letter of the last option, and the job IDs; `None` where an option or an operand is wrong.
pub(crate) fn options_and_ids<'a>(
    letters: &[u8],
    arguments: &'a [Text],
) -> Option<(Option<u8>, &'a [Text])>
    ensures { option_map (λ p. (p.0, p.1.now)) result ≡ options_and_ids letters.now arguments.now }
{
    let (letter, ids) = parse_options(letters, arguments)?;
    if !are_job_ids(ids) {
        return None;
    }
    Some((letter, ids))
}

/// Whether a job is done or gone.
fn is_over(state: Option<JobState>) -> bool
    ensures { result ≡ is_over state }
{
    match state {
        Some(JobState::Running) => false,
        Some(JobState::Suspended(_)) => false,
        Some(JobState::Done(_)) => true,
        None => true,
    }
}

/// The job that was found, unless it is done.
fn unless_over(
    kernel: &Kernel,
    jobs: &Jobs,
    found: Result<usize, JobFault>,
) -> Result<usize, JobFault>
    ensures { (s : KernelState) → StandsAt kernel.now s → result ≡ unless_over s.machine.processes jobs.now found }
{
    let number = found?;
    if is_over(jobs.state(kernel, number)) {
        return Err(JobFault::NoSuchJob);
    }
    Ok(number)
}

/// The number of the job that an ID names.
#[tactic(auto, unfolding(crate::specs::JobWords::job_named))]
pub(crate) fn job_named(
    wanted: Wanted,
    kernel: &Kernel,
    jobs: &Jobs,
    id: &[u8],
) -> Result<usize, JobFault>
    ensures { (s : KernelState) → StandsAt kernel.now s → result ≡ job_named wanted s.machine.processes jobs.now id.now }
{
    let found = jobs.find(kernel, id);
    match wanted {
        Wanted::Any => found,
        Wanted::NotDone => unless_over(kernel, jobs, found),
    }
}

/// The numbers of the jobs that IDs name, in the order of the IDs.
pub(crate) fn numbers_named(
    alloc: Global,
    wanted: Wanted,
    kernel: &Kernel,
    jobs: &Jobs,
    ids: &[Text],
) -> Result<Sequence<usize>, NoMemory>
    ensures { (s : KernelState) → StandsAt kernel.now s
        → IfOk result (λ numbers. numbers ≡ numbers_named wanted s.machine.processes jobs.now ids.now) }
{
    let mut numbers = Sequence::new(alloc);
    let mut rest = ids;
    'ids: while let Some((id, others)) = rest.split_first() {
        if let Ok(number) = job_named(wanted, kernel, jobs, id.as_slice()) {
            numbers.push(number)?;
        }
        rest = others;
    }
    Ok(numbers)
}

/// The messages about the IDs that name no job, in the order of the IDs.
pub(crate) fn messages_named(
    alloc: Global,
    name: &[u8],
    wanted: Wanted,
    kernel: &Kernel,
    jobs: &Jobs,
    ids: &[Text],
) -> Result<Sequence<Text>, NoMemory>
    ensures { (s : KernelState) → StandsAt kernel.now s
        → IfOk result (λ messages. messages ≡ messages_named name.now wanted s.machine.processes jobs.now ids.now) }
{
    let mut messages = Sequence::new(alloc);
    let mut rest = ids;
    'ids: while let Some((id, others)) = rest.split_first() {
        if let Err(fault) = job_named(wanted, kernel, jobs, id.as_slice()) {
            messages.push(message_about(alloc, name, id.as_slice(), fault_text(fault))?)?;
        }
        rest = others;
    }
    Ok(messages)
}

/// The status of a built-in with these messages.
pub(crate) fn named_status(messages: &[Text]) -> u8
    ensures { result ≡ named_status messages.now }
{
    if messages.is_empty() {
        return 0;
    }
    2
}
