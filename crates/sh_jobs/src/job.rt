//! A job.
ghost use Rattle.std.specs.Prelude.{◌≡◌, ◌==◌, IfOk, if◌then◌else◌};
ghost use Rattle.std.specs.List.{list_any};
ghost use Rattle.sh_jobs.specs.Table.{after_note, has_process, job_after_note, job_after_telling};

use crate::state::JobState;
use sh_base::NoMemory;
use sh_base::sequence::{Sequence, Text};
use std::alloc::Global;

/// A job of a shell (XBD chapter 3, Job): the processes that it launched together.
#[derive(Debug, Drop)]
pub struct Job {
    /// Its number, from 1 on; no two jobs of a table have one number.
    pub number: usize,
    /// The number of its process group.
    pub group: u32,
    /// The numbers of its processes, in the order of the stages of its pipeline. A job without any counts as done.
    pub pids: Sequence<u32>,
    /// The text of the command.
    pub text: Text,
    /// The state that was last told to the user, if one was.
    pub told: Option<JobState>,
    /// When one of its processes last started, stopped or went on: a number that is greater for a later change, as an event's number or the
    /// kernel's moment.
    pub changed: u64,
}

impl Job {
    /// Whether a process is one of the job's.
    fn has_process(&self, pid: u32) -> bool
        ensures { result ≡ has_process pid self.now }
    {
        self.pids.as_slice().iter().any(|own| *own == pid)
    }

    /// The job has changed at this event, if the process is one of its own.
    pub(crate) fn note(&mut self, pid: u32, event: u64)
        ensures { self.new ≡ job_after_note pid event self.old }
    {
        if self.has_process(pid) {
            self.changed = event;
        }
    }

    /// This state is the one last told, if the number is the job's.
    pub(crate) fn tell(&mut self, number: usize, state: JobState)
        ensures { self.new ≡ job_after_telling number state self.old }
    {
        if self.number == number {
            self.told = Some(state);
        }
    }
}

/// A copy, which is equal.
fn copy(alloc: Global, job: &Job) -> Result<Job, NoMemory>
    ensures { IfOk result (λ copy. copy ≡ job.now) }
{
    let pids = Sequence::copy_of(alloc, job.pids.as_slice())?;
    let text = Text::copy_of(alloc, job.text.as_slice())?;
    Ok(Job {
        number: job.number,
        group: job.group,
        pids,
        text,
        told: job.told,
        changed: job.changed,
    })
}

/// Copies of jobs.
pub(crate) fn copies(alloc: Global, jobs: &[Job]) -> Result<Vec<Job>, NoMemory>
    ensures { IfOk result (λ copies. copies.items ≡ jobs.now) }
{
    let mut copies = Vec::with_capacity(alloc, jobs.len())?;
    for job in jobs {
        copies.push(copy(alloc, job)?)?;
    }
    Ok(copies)
}
