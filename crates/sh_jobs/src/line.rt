//! The lines by which jobs are listed.
ghost use Rattle.std.specs.Prelude.{◌≡◌, ◌∷◌, [], ◌++◌, decimal, IfOk, OnOk};
ghost use Rattle.sh_kernel.specs.State.{KernelState, StandsAt};
ghost use Rattle.sh_jobs.specs.Lines.{is_number, line, line_of, mark_of, number_and_mark, state_and_text};

use crate::job::Job;
use crate::order::{current, previous};
use crate::stages::state_of;
use crate::state::{JobState, put_number, put_word};
use sh_base::NoMemory;
use sh_base::sequence::{Sequence, Text};
use sh_kernel::Kernel;
use std::alloc::Global;

/// The form in which a job is listed (XCU jobs).
#[derive(Clone, Copy, Debug, PartialEq, Eq)]
pub enum JobForm {
    /// Its number, its state and its text, as by `jobs`.
    Short,
    /// The same with the number of its process group, as by `jobs -l`.
    Long,
    /// The number of its process group alone, as by `jobs -p`.
    Group,
}

/// Whether a number is this one.
fn is_number(number: Option<usize>, wanted: usize) -> bool
    ensures { result ≡ is_number number wanted }
{
    match number {
        Some(number) => number == wanted,
        None => false,
    }
}

/// The mark of the job of a number.
#[tactic(auto, unfolding(crate::specs::Lines::mark_of))]
fn mark_of(kernel: &Kernel, jobs: &[Job], number: usize) -> u8
    ensures { (s : KernelState) → StandsAt kernel.now s → result ≡ mark_of s.machine.processes jobs.now number }
{
    if is_number(current(kernel, jobs), number) {
        return b'+';
    }
    if is_number(previous(kernel, jobs), number) {
        return b'-';
    }
    b' '
}

/// Adds a job's number and its mark.
fn put_number_and_mark(text: &mut Text, number: usize, mark: u8) -> Result<(), NoMemory>
    ensures { OnOk result (text.new ≡ text.old ++ number_and_mark number mark) }
{
    text.push(b'[')?;
    put_number(text, number as u64)?;
    text.extend_from_slice(b"] ")?;
    text.push(mark)?;
    text.push(b' ')?;
    Ok(())
}

/// Adds the number of a process group, and what comes after it.
fn put_group(text: &mut Text, group: u32, end: u8) -> Result<(), NoMemory>
    ensures { OnOk result (text.new ≡ text.old ++ (decimal group ++ end ∷ [])) }
{
    put_number(text, u64::from(group))?;
    text.push(end)?;
    Ok(())
}

/// Adds a job's state and its text.
fn put_state_and_text(text: &mut Text, state: JobState, job: &[u8]) -> Result<(), NoMemory>
    ensures { OnOk result (text.new ≡ text.old ++ state_and_text state job.now) }
{
    put_word(text, state)?;
    text.push(b' ')?;
    text.extend_from_slice(job)?;
    text.push(b'\n')?;
    Ok(())
}

/// The line of a job with this mark, in this state.
fn line(
    alloc: Global,
    form: JobForm,
    mark: u8,
    state: JobState,
    job: &Job,
) -> Result<Text, NoMemory>
    ensures { IfOk result (λ text. text ≡ line form mark state job.now) }
{
    let mut text = Sequence::new(alloc);
    match form {
        JobForm::Short => {
            put_number_and_mark(&mut text, job.number, mark)?;
            put_state_and_text(&mut text, state, job.text.as_slice())?;
            Ok(text)
        },
        JobForm::Long => {
            put_number_and_mark(&mut text, job.number, mark)?;
            put_group(&mut text, job.group, b' ')?;
            put_state_and_text(&mut text, state, job.text.as_slice())?;
            Ok(text)
        },
        JobForm::Group => {
            put_group(&mut text, job.group, b'\n')?;
            Ok(text)
        },
    }
}

/// The line of a job of these.
pub(crate) fn line_of(
    alloc: Global,
    kernel: &Kernel,
    jobs: &[Job],
    form: JobForm,
    job: &Job,
) -> Result<Text, NoMemory>
    ensures { (s : KernelState) → StandsAt kernel.now s
        → IfOk result (λ text. text ≡ line_of s.machine.processes jobs.now form job.now) }
{
    let mark = mark_of(kernel, jobs, job.number);
    let state = state_of(kernel, job.pids.as_slice());
    let text = line(alloc, form, mark, state, job)?;
    Ok(text)
}
