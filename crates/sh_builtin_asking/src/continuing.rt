//! The built-ins bg and fg (XCU bg, fg).
ghost use Rattle.std.specs.Prelude.{◌≡◌, ◌∷◌, [], IfOk, MatchOption, OnOk};
ghost use Rattle.sh_builtin_asking.specs.BuiltIns.{background_by, background_outcome, bg_ran, fg_ran, foreground_outcome, with_outcome};
ghost use Rattle.sh_builtin_asking.specs.Resuming.{background_continued, background_left, continue_resumed, foreground_continued, job_continued, processes_of, with_continued};
ghost use Rattle.sh_builtin_jobs.specs.Continuing.{bg_of, fg_of};
ghost use Rattle.sh_builtin_outcome.specs.Outcomes.{continuing};
ghost use Rattle.sh_builtin_shell.specs.Shells.{has_job_control, in_background, in_foreground, up_to_date};
ghost use Rattle.sh_kernel.specs.State.{KernelState, StandsAt};

use crate::answer::Answer;
use sh_base::NoMemory;
use sh_base::sequence::{Sequence, Text};
use sh_builtin_jobs::{BackgroundJobs, ContinuedJob, ForegroundJob, bg_of, fg_of, tell_continued};
use sh_builtin_outcome::{Continuation, JobWait, Outcome};
use sh_builtin_shell::Shell;
use sh_jobs::Jobs;
use sh_kernel::Kernel;
use std::alloc::Global;

/// Jobs go on in the background, where there are any.
fn background(alloc: Global, background: BackgroundJobs) -> Outcome
    ensures { result ≡ background_by background background.continued }
{
    let BackgroundJobs {
        out,
        continued,
        messages,
        status,
    } = background;
    if continued.is_empty() {
        return Outcome::saying(out, messages, status);
    }
    let jobs = continued;
    Outcome::continuing(
        alloc,
        out,
        Continuation::Background {
            jobs,
            messages,
            status,
        },
    )
}

/// What bg comes to.
fn background_outcome(
    alloc: Global,
    answer: Result<BackgroundJobs, Text>,
) -> Result<Outcome, NoMemory>
    ensures { IfOk result (λ outcome. outcome ≡ background_outcome answer) }
{
    match answer {
        Ok(jobs) => Ok(background(alloc, jobs)),
        Err(line) => Outcome::refused_with(alloc, line),
    }
}

/// What fg comes to.
fn foreground_outcome(
    alloc: Global,
    answer: Result<ForegroundJob, Text>,
) -> Result<Outcome, NoMemory>
    ensures { IfOk result (λ outcome. outcome ≡ foreground_outcome answer) }
{
    match answer {
        Ok(ForegroundJob { out, continued }) => {
            Ok(Outcome::continuing(alloc, out, Continuation::Foreground(continued)))
        },
        Err(line) => Outcome::refused_with(alloc, line),
    }
}

/// bg with its arguments.
fn bg_with(
    alloc: Global,
    kernel: &Kernel,
    shell: &Shell,
    arguments: &[Text],
) -> Result<Outcome, NoMemory>
    ensures { (s : KernelState) → StandsAt kernel.now s → IfOk result (λ outcome. outcome ≡ background_outcome
        (bg_of (has_job_control shell.now) s.machine.processes shell.now.jobs arguments.now)) }
{
    let answer = bg_of(
        alloc,
        shell.has_job_control(),
        kernel,
        &shell.jobs,
        arguments,
    )?;
    background_outcome(alloc, answer)
}

/// How `bg` begins, with its arguments, in the shell's process of a kernel (XCU bg): `bg [ID..]`. It writes the lines of the jobs that these name,
/// without an operand that of the current one, and asks that they go on, one after the other (`BuiltinRest::Continues`); behind the answer `resume`
/// does the rest. It is over at once, with its messages and the status 2, where they name no job, and with one message and the status 2 where its
/// arguments are wrong, else where job control isn't on. The shell's jobs are brought up to date, and nothing else of it changes. The only error
/// is want of memory; what the shell is then is left open.
pub fn bg(
    alloc: Global,
    kernel: &Kernel,
    shell: &mut Shell,
    arguments: &[Text],
) -> Result<Outcome, NoMemory>
    ensures { (s : KernelState) → StandsAt kernel.now s → IfOk result (λ outcome.
        with_outcome shell.new outcome ≡ bg_ran s (up_to_date s shell.old) arguments.now) }
{
    shell.bring_jobs_up_to_date(kernel);
    let outcome = bg_with(alloc, kernel, shell, arguments)?;
    Ok(outcome)
}

/// fg with its arguments.
fn fg_with(
    alloc: Global,
    kernel: &Kernel,
    shell: &Shell,
    arguments: &[Text],
) -> Result<Outcome, NoMemory>
    ensures { (s : KernelState) → StandsAt kernel.now s → IfOk result (λ outcome. outcome ≡ foreground_outcome
        (fg_of (has_job_control shell.now) s.machine.processes shell.now.jobs arguments.now)) }
{
    let answer = fg_of(
        alloc,
        shell.has_job_control(),
        kernel,
        &shell.jobs,
        arguments,
    )?;
    foreground_outcome(alloc, answer)
}

/// How `fg` begins, with its arguments, in the shell's process of a kernel (XCU fg): `fg [ID]`. It writes the text of the job that this names,
/// without an operand that of the current one, and asks that it goes on (`BuiltinRest::Continues`); behind the answer `resume` does the rest. It is
/// over at once, with a message and the status 2, where its arguments are wrong, else where job control isn't on, else where no job is named. The
/// shell's jobs are brought up to date, and nothing else of it changes. The only error is want of memory; what the shell is then is left open.
pub fn fg(
    alloc: Global,
    kernel: &Kernel,
    shell: &mut Shell,
    arguments: &[Text],
) -> Result<Outcome, NoMemory>
    ensures { (s : KernelState) → StandsAt kernel.now s → IfOk result (λ outcome.
        with_outcome shell.new outcome ≡ fg_ran s (up_to_date s shell.old) arguments.now) }
{
    shell.bring_jobs_up_to_date(kernel);
    let outcome = fg_with(alloc, kernel, shell, arguments)?;
    Ok(outcome)
}

/// The processes of a job.
fn processes_of(alloc: Global, jobs: &Jobs, number: usize) -> Result<Sequence<u32>, NoMemory>
    ensures { IfOk result (λ processes. processes ≡ processes_of jobs.now number) }
{
    match jobs.job(number) {
        Some(job) => Ok(Sequence::copy_of(alloc, job.pids.as_slice())?),
        None => Ok(Sequence::new(alloc)),
    }
}

/// What bg does next, where these jobs are left.
fn background_left(
    alloc: Global,
    jobs: Sequence<ContinuedJob>,
    messages: Sequence<Text>,
    status: u8,
) -> Outcome
    ensures { result ≡ background_left jobs messages status }
{
    let out = Sequence::new(alloc);
    if jobs.is_empty() {
        return Outcome::saying(out, messages, status);
    }
    Outcome::continuing(
        alloc,
        out,
        Continuation::Background {
            jobs,
            messages,
            status,
        },
    )
}

/// A job goes on in the background, and the shell knows its processes.
fn bring_to_background(alloc: Global, shell: &mut Shell, job: ContinuedJob) -> Result<(), NoMemory>
    ensures { OnOk result (shell.new
        ≡ in_background (with_continued shell.old job) (processes_of shell.old.jobs job.number)) }
{
    let processes = processes_of(alloc, &shell.jobs, job.number)?;
    tell_continued(&mut shell.jobs, job);
    shell.bring_to_background(processes.as_slice())
}

/// The first of these jobs, and the others.
fn split_first(jobs: Sequence<ContinuedJob>) -> Option<(ContinuedJob, Sequence<ContinuedJob>)>
    ensures { MatchOption result (jobs ≡ []) (λ split. jobs ≡ split.0 ∷ split.1) }
{
    let mut jobs = jobs.into_vec();
    if jobs.is_empty() {
        return None;
    }
    let first = jobs.remove(0);
    Some((first, Sequence::from_vec(jobs)))
}

/// The first of these jobs goes on in the background.
fn background_continued(
    alloc: Global,
    shell: &mut Shell,
    jobs: Sequence<ContinuedJob>,
    messages: Sequence<Text>,
    status: u8,
) -> Result<Outcome, NoMemory>
    ensures { IfOk result (λ outcome.
        with_outcome shell.new outcome ≡ background_continued shell.old jobs messages status) }
{
    let Some((job, others)) = split_first(jobs) else {
        return Ok(Outcome::saying(Sequence::new(alloc), messages, status));
    };
    match bring_to_background(alloc, shell, job) {
        Ok(()) => Ok(background_left(alloc, others, messages, status)),
        Err(lack) => {
            drop(others);
            drop(messages);
            Err(lack)
        },
    }
}

/// A job goes on in the foreground, and the shell waits for it.
fn foreground_continued(
    alloc: Global,
    shell: &mut Shell,
    job: ContinuedJob,
) -> Result<Outcome, NoMemory>
    ensures { IfOk result (λ outcome. with_outcome shell.new outcome ≡ foreground_continued shell.old job) }
{
    let processes = processes_of(alloc, &shell.jobs, job.number)?;
    tell_continued(&mut shell.jobs, job);
    shell.bring_to_foreground(processes.as_slice());
    let number = job.number;
    Ok(Outcome::foreground(alloc, JobWait { number, processes }))
}

/// A job goes on.
fn continued(
    alloc: Global,
    shell: &mut Shell,
    continuation: Continuation,
) -> Result<Outcome, NoMemory>
    ensures { IfOk result (λ outcome. with_outcome shell.new outcome ≡ job_continued shell.old continuation) }
{
    match continuation {
        Continuation::Background {
            jobs,
            messages,
            status,
        } => background_continued(alloc, shell, jobs, messages, status),
        Continuation::Foreground(job) => foreground_continued(alloc, shell, job),
    }
}

/// What is left of bg or fg behind an answer.
pub(crate) fn resume_continuing(
    alloc: Global,
    shell: &mut Shell,
    continuation: Continuation,
    answer: Answer,
) -> Result<Outcome, NoMemory>
    ensures { IfOk result (λ outcome.
        with_outcome shell.new outcome ≡ continue_resumed shell.old continuation answer) }
{
    match answer {
        Answer::Bytes(_) => Ok(again(alloc, continuation)),
        Answer::Ended(_) => Ok(again(alloc, continuation)),
        Answer::Caught(_) => Ok(again(alloc, continuation)),
        Answer::Sent(_) => Ok(again(alloc, continuation)),
        Answer::Continued => continued(alloc, shell, continuation),
    }
}

/// The same is asked again.
fn again(alloc: Global, continuation: Continuation) -> Outcome
    ensures { result ≡ continuing [] continuation }
{
    Outcome::continuing(alloc, Sequence::new(alloc), continuation)
}
