//! What `bg` and `fg` write, and the groups that they send CONT.
ghost use Rattle.std.specs.Prelude.{◌≡◌, ◌++◌, [], IfOk, OnOk, codes, decimal, option_map};
ghost use Rattle.sh_builtin_jobs.specs.Continuing.{after_continuing, background_line, background_lines, background_of, background_parsed, bg_of, continued, continued_jobs, fg_of, foreground, foreground_found, foreground_if_on, foreground_ids, foreground_of, foreground_of_job, ids_or_current, no_job, no_job_control, usage};
ghost use Rattle.sh_jobs.specs.State.{KernelState, StandsAt};

use crate::job_word::{
    Wanted, job_named, messages_named, named_status, numbers_named, options_and_ids,
};
use crate::message::{fault_text, message, message_about};
use itoa::Buffer;
use sh_base::NoMemory;
use sh_base::sequence::{Sequence, Text};
use sh_jobs::{Job, JobFault, JobState, Jobs, Kernel};
use std::alloc::Global;

/// A job that is continued: CONT is sent to its group.
#[derive(Clone, Copy, Debug, PartialEq, Eq)]
pub struct ContinuedJob {
    /// The number of the job.
    pub number: usize,
    /// The number of its process group.
    pub group: u32,
}

/// What `bg` does, in this order: it writes `out`, continues each of the jobs, and writes each message.
#[derive(Debug, Drop)]
pub struct BackgroundJobs {
    /// A line for each job that is continued.
    pub out: Text,
    /// The jobs.
    pub continued: Sequence<ContinuedJob>,
    /// The messages about operands that name none, each of them whole, with `psh: ` and a newline.
    pub messages: Sequence<Text>,
    /// The status: 2 where there is a message, else 0.
    pub status: u8,
}

/// What `fg` does, in this order: it writes `out`, makes the group of the job the foreground group, continues the job, and waits for it.
#[derive(Debug, Drop)]
pub struct ForegroundJob {
    /// The line with the text of the job.
    pub out: Text,
    /// The job.
    pub continued: ContinuedJob,
}

/// What is written by `bg` or `fg` in place of what it was to do.
type Refusal = Text;

/// The message about wrong options or operands.
fn usage(alloc: Global, name: &[u8]) -> Result<Refusal, NoMemory>
    ensures { IfOk result (λ line. line ≡ usage name.now) }
{
    message(alloc, name, b"usage")
}

/// The message about job control that isn't on.
fn no_job_control(alloc: Global, name: &[u8]) -> Result<Refusal, NoMemory>
    ensures { IfOk result (λ line. line ≡ no_job_control name.now) }
{
    message(alloc, name, b"no job control")
}

/// A job that is continued.
fn continued(job: &Job) -> ContinuedJob
    ensures { result ≡ continued job.now }
{
    ContinuedJob {
        number: job.number,
        group: job.group,
    }
}

/// Adds a number's decimal digits to a text.
fn put_number(text: &mut Text, number: u64) -> Result<(), NoMemory>
    ensures { OnOk result (text.new ≡ text.old ++ decimal number) }
{
    let mut buffer = Buffer::new();
    text.extend_from_slice(buffer.format(number).as_bytes())?;
    Ok(())
}

/// Adds the line of a job that goes on in the background.
fn put_line(text: &mut Text, job: &Job) -> Result<(), NoMemory>
    ensures { OnOk result (text.new ≡ text.old ++ background_line job.now) }
{
    text.push(b'[')?;
    put_number(text, job.number as u64)?;
    text.extend_from_slice(b"] ")?;
    text.extend_from_slice(job.text.as_slice())?;
    text.push(b'\n')?;
    Ok(())
}

/// The lines of the jobs of these numbers.
fn background_lines(alloc: Global, jobs: &Jobs, numbers: &[usize]) -> Result<Text, NoMemory>
    ensures { IfOk result (λ lines. lines ≡ background_lines jobs.now numbers.now) }
{
    let mut lines = Sequence::new(alloc);
    let mut rest = numbers;
    'numbers: while let Some((number, others)) = rest.split_first() {
        if let Some(job) = jobs.job(*number) {
            put_line(&mut lines, job)?;
        }
        rest = others;
    }
    Ok(lines)
}

/// The jobs of these numbers, which are continued.
fn continued_jobs(
    alloc: Global,
    jobs: &Jobs,
    numbers: &[usize],
) -> Result<Sequence<ContinuedJob>, NoMemory>
    ensures { IfOk result (λ those. those ≡ continued_jobs jobs.now numbers.now) }
{
    let mut those = Sequence::new(alloc);
    let mut rest = numbers;
    'numbers: while let Some((number, others)) = rest.split_first() {
        if let Some(job) = jobs.job(*number) {
            those.push(continued(job))?;
        }
        rest = others;
    }
    Ok(those)
}

/// The jobs that these IDs name go on in the background.
#[tactic(auto, unfolding(crate::specs::Continuing::background_of))]
fn background_of(
    alloc: Global,
    kernel: &Kernel,
    jobs: &Jobs,
    ids: &[Text],
) -> Result<BackgroundJobs, NoMemory>
    ensures { (s : KernelState) → StandsAt kernel.now s
        → IfOk result (λ background. background ≡ background_of s.machine.processes jobs.now ids.now) }
{
    let numbers = numbers_named(alloc, Wanted::NotDone, kernel, jobs, ids)?;
    let messages = messages_named(alloc, b"bg", Wanted::NotDone, kernel, jobs, ids)?;
    let out = background_lines(alloc, jobs, numbers.as_slice())?;
    let continued = continued_jobs(alloc, jobs, numbers.as_slice())?;
    let status = named_status(messages.as_slice());
    Ok(BackgroundJobs {
        out,
        continued,
        messages,
        status,
    })
}

/// The ID of the current job.
fn current_id(alloc: Global) -> Result<Sequence<Text>, NoMemory>
    ensures { IfOk result (λ ids. ids ≡ ids_or_current []) }
{
    let mut ids = Sequence::new(alloc);
    ids.push(Text::copy_of(alloc, b"%%")?)?;
    Ok(ids)
}

/// The jobs that these IDs name, or else the current one, go on in the background.
fn background_or_current(
    alloc: Global,
    kernel: &Kernel,
    jobs: &Jobs,
    ids: &[Text],
) -> Result<BackgroundJobs, NoMemory>
    ensures { (s : KernelState) → StandsAt kernel.now s
        → IfOk result (λ background. background ≡ background_of s.machine.processes jobs.now (ids_or_current ids.now)) }
{
    if ids.is_empty() {
        let current = current_id(alloc)?;
        let background = background_of(alloc, kernel, jobs, current.as_slice())?;
        return Ok(background);
    }
    let background = background_of(alloc, kernel, jobs, ids)?;
    Ok(background)
}

/// What `bg` does with these arguments (XCU bg): `bg [ID..]`. Each job that is named and isn't done goes on in the background, without an
/// operand the current one. The inner error is the message that is written in place of that, with `psh: ` and a newline, and the status is 2:
/// for an option or an operand that doesn't begin with a percent sign, and else where job control isn't on. The outer error is want of
/// memory.
#[tactic(auto, unfolding(crate::specs::Continuing::bg_of))]
pub fn bg_of(
    alloc: Global,
    is_on: bool,
    kernel: &Kernel,
    jobs: &Jobs,
    arguments: &[Text],
) -> Result<Result<BackgroundJobs, Text>, NoMemory>
    ensures { (s : KernelState) → StandsAt kernel.now s
        → IfOk result (λ answer. answer ≡ bg_of is_on s.machine.processes jobs.now arguments.now) }
{
    let Some((_, ids)) = options_and_ids(b"", arguments) else {
        return Ok(Err(usage(alloc, b"bg")?));
    };
    if !is_on {
        return Ok(Err(no_job_control(alloc, b"bg")?));
    }
    let background = background_or_current(alloc, kernel, jobs, ids)?;
    Ok(Ok(background))
}

/// The job goes on in the foreground.
fn foreground(alloc: Global, job: &Job) -> Result<ForegroundJob, NoMemory>
    ensures { IfOk result (λ it. it ≡ foreground job.now) }
{
    let mut out = Text::copy_of(alloc, job.text.as_slice())?;
    out.push(b'\n')?;
    Ok(ForegroundJob {
        out,
        continued: continued(job),
    })
}

/// The message about an ID that names no job.
fn no_job(alloc: Global, id: &[u8], fault: JobFault) -> Result<Refusal, NoMemory>
    ensures { IfOk result (λ line. line ≡ no_job (codes "fg") id.now fault) }
{
    message_about(alloc, b"fg", id, fault_text(fault))
}

/// The job that was found goes on in the foreground.
fn foreground_found(
    alloc: Global,
    jobs: &Jobs,
    id: &[u8],
    found: Result<usize, JobFault>,
) -> Result<Result<ForegroundJob, Refusal>, NoMemory>
    ensures { IfOk result (λ answer. answer ≡ foreground_found jobs.now id.now found) }
{
    let number = match found {
        Ok(number) => number,
        Err(fault) => return Ok(Err(no_job(alloc, id, fault)?)),
    };
    match jobs.job(number) {
        Some(job) => Ok(Ok(foreground(alloc, job)?)),
        None => Ok(Err(no_job(alloc, id, JobFault::NoSuchJob)?)),
    }
}

/// The job that an ID names goes on in the foreground.
#[tactic(auto, unfolding(crate::specs::Continuing::foreground_of))]
fn foreground_if_on(
    alloc: Global,
    is_on: bool,
    kernel: &Kernel,
    jobs: &Jobs,
    id: &[u8],
) -> Result<Result<ForegroundJob, Refusal>, NoMemory>
    ensures { (s : KernelState) → StandsAt kernel.now s
        → IfOk result (λ answer. answer ≡ foreground_if_on is_on s.machine.processes jobs.now id.now) }
{
    if !is_on {
        return Ok(Err(no_job_control(alloc, b"fg")?));
    }
    let found = job_named(Wanted::NotDone, kernel, jobs, id);
    let answer = foreground_found(alloc, jobs, id, found)?;
    Ok(answer)
}

/// The job that these IDs name goes on in the foreground.
fn foreground_ids(
    alloc: Global,
    is_on: bool,
    kernel: &Kernel,
    jobs: &Jobs,
    ids: &[Text],
) -> Result<Result<ForegroundJob, Refusal>, NoMemory>
    ensures { (s : KernelState) → StandsAt kernel.now s
        → IfOk result (λ answer. answer ≡ foreground_ids is_on s.machine.processes jobs.now ids.now) }
{
    match ids {
        [] => {
            let answer = foreground_if_on(alloc, is_on, kernel, jobs, b"%%")?;
            Ok(answer)
        },
        [id] => {
            let answer = foreground_if_on(alloc, is_on, kernel, jobs, id.as_slice())?;
            Ok(answer)
        },
        _ => Ok(Err(usage(alloc, b"fg")?)),
    }
}

/// What `fg` does with these arguments (XCU fg): `fg [ID]`. The job that is named and isn't done goes on in the foreground, without an operand
/// the current one. The inner error is the message that is written in place of that, with `psh: ` and a newline, and the status is 2: for an
/// option, an operand that doesn't begin with a percent sign or a second one; else where job control isn't on; else where no such job
/// is found. The outer error is want of memory.
#[tactic(auto, unfolding(crate::specs::Continuing::fg_of))]
pub fn fg_of(
    alloc: Global,
    is_on: bool,
    kernel: &Kernel,
    jobs: &Jobs,
    arguments: &[Text],
) -> Result<Result<ForegroundJob, Text>, NoMemory>
    ensures { (s : KernelState) → StandsAt kernel.now s
        → IfOk result (λ answer. answer ≡ fg_of is_on s.machine.processes jobs.now arguments.now) }
{
    let Some((_, ids)) = options_and_ids(b"", arguments) else {
        return Ok(Err(usage(alloc, b"fg")?));
    };
    let answer = foreground_ids(alloc, is_on, kernel, jobs, ids)?;
    Ok(answer)
}

/// The job was continued by `bg` or `fg`: what those wrote has told the user that it runs (XCU 2.11). Nothing changes where it is gone. Takes
/// no memory.
pub fn tell_continued(jobs: &mut Jobs, job: ContinuedJob)
    ensures { jobs.new ≡ after_continuing jobs.old job }
{
    jobs.tell(job.number, JobState::Running);
}
