//! The job table of a shell.
ghost use Rattle.std.specs.Prelude.{◌≡◌, [], IfOk, OnErr, OnOk, option_map};
ghost use Rattle.sh_kernel.specs.State.{KernelState, StandsAt};
ghost use Rattle.sh_jobs.specs.Ids.{job_of_id};
ghost use Rattle.sh_jobs.specs.Lines.{report_of};
ghost use Rattle.sh_jobs.specs.Moments.{brought_up};
ghost use Rattle.sh_jobs.specs.News.{next_changed, without_told};
ghost use Rattle.sh_jobs.specs.States.{state_of};
ghost use Rattle.sh_jobs.specs.Table.{IsLeastFree, after_note, after_telling, free_number, job_at, numbers_of, with_launch, without};

use crate::fault::JobFault;
use crate::ids::find;
use crate::job::{Job, copies};
use crate::line::{JobForm, line_of};
use crate::marks::Marks;
use crate::moments::bring_up_to_date;
use crate::news::{next_changed, remove_told};
use crate::stages::state_of;
use crate::state::JobState;
use crate::table::{note, numbers_of, remove, tell};
use sh_base::NoMemory;
use sh_base::sequence::{Sequence, Text};
use sh_kernel::Kernel;
use std::alloc::Global;
use std::marker::Model;

/// The jobs of a shell (XBD chapter 3, Job), in the order in which they were launched.
///
/// What state a job is in is read off the kernel's processes at each call. The table keeps which state was last told, and when the job
/// last changed.
#[derive(Debug, Drop)]
pub struct Jobs {
    jobs: Vec<Job>,
    marks: Marks,
}

impl Model for Jobs {
    ghost use Rattle.std.specs.Prelude.{List};
    ghost use Rattle.sh_jobs.specs.declared.job.Job.{Job};
    ghost use Rattle.sh_jobs.specs.Marks.{AreMarked};

    ghost Value = { List Job };

    ghost view = { λ table. table.jobs.items };

    ghost invariant = { λ table. AreMarked table.jobs.items table.marks.marks.items table.marks.filled };
}

impl Jobs {
    /// No job. Takes no memory.
    pub fn new(alloc: Global) -> Jobs
        ensures { result ≡ [] }
    {
        Jobs {
            jobs: Vec::new(alloc),
            marks: Marks::new(alloc),
        }
    }

    /// Adds a job of these processes, in the order of the stages, and gives its number: the least one from 1 on that no job has (XCU 2.11).
    /// `event` is its last change: a number that is greater for a later change, as an event's number or the kernel's moment. `told` is the
    /// state that the user knows, if any. The only error is want of memory, after which the table is as it was.
    pub fn launch(
        &mut self,
        alloc: Global,
        group: u32,
        pids: &[u32],
        text: &[u8],
        told: Option<JobState>,
        event: u64,
    ) -> Result<usize, NoMemory>
        ensures launched { OnOk result (self.new ≡ with_launch self.old group pids.now text.now told event) }
        ensures number { IfOk result (λ number. number ≡ free_number self.old) }
        ensures least { IfOk result (λ number. IsLeastFree self.old number) }
        ensures unchanged { OnErr result (self.new ≡ self.old) }
    {
        let pids = Sequence::copy_of(alloc, pids)?;
        let text = Text::copy_of(alloc, text)?;
        let number = self.marks.free_number(alloc, self.jobs.as_slice())?;
        self.jobs.push(Job {
            number,
            group,
            pids,
            text,
            told,
            changed: event,
        })?;
        self.marks.filled = number;
        Ok(number)
    }

    /// A process has started, stopped or gone on at this event: each job that has it has its last change then (XCU 2.11). Takes no memory.
    pub fn note(&mut self, pid: u32, event: u64)
        ensures { self.new ≡ after_note self.old pid event }
    {
        note(self.jobs.as_mut_slice(), pid, event);
    }

    /// Each job has its last change at the moment, by the kernel's clock, at which one of its processes last started, stopped or went on (XBD
    /// chapter 3, Job ID). To be called before the current or the previous job is asked for. Takes no memory.
    pub fn bring_up_to_date(&mut self, kernel: &Kernel)
        ensures { (s : KernelState) → StandsAt kernel.now s → self.new ≡ brought_up s.changes self.old }
    {
        bring_up_to_date(kernel, self.jobs.as_mut_slice());
    }

    /// The job of this number, `None` where there is none. Takes no memory.
    pub fn job(&self, number: usize) -> Option<&Job>
        ensures { option_map (λ job. job.now) result ≡ job_at self.now number }
    {
        self.jobs.iter().find(|job| job.number == number)
    }

    /// The numbers of all jobs, the least first. The only error is want of memory.
    pub fn numbers(&self, alloc: Global) -> Result<Sequence<usize>, NoMemory>
        ensures { IfOk result (λ numbers. numbers ≡ numbers_of self.now) }
    {
        Ok(Sequence::from_vec(numbers_of(alloc, self.jobs.as_slice())?))
    }

    /// The state of the job of this number (XCU jobs), `None` where there is none. A process that never was counts as one that exited with
    /// 0. Takes no memory.
    pub fn state(&self, kernel: &Kernel, number: usize) -> Option<JobState>
        ensures { (s : KernelState) → StandsAt kernel.now s
            → result ≡ option_map (λ job. state_of s.machine.processes job.pids) (job_at self.now number) }
    {
        match self.job(number) {
            Some(job) => Some(state_of(kernel, job.pids.as_slice())),
            None => None,
        }
    }

    /// The number of the job that a job ID names (XBD chapter 3, Job ID): `%`, `%%` and `%+` the current job, `%-` the previous one, `%N` the one
    /// of that number, `%?text` the one whose text has this text in it, and any other `%text` the one whose text begins with it.
    /// `NoSuchJob` where there is none, and of a word that doesn't begin with `%`; `Ambiguous` where a text fits two jobs. Takes no memory.
    pub fn find(&self, kernel: &Kernel, id: &[u8]) -> Result<usize, JobFault>
        ensures { (s : KernelState) → StandsAt kernel.now s → result ≡ job_of_id s.machine.processes self.now id.now }
    {
        find(kernel, self.jobs.as_slice(), id)
    }

    /// The line of the job of this number, with its newline (XCU jobs): `[1] + Running spin`, with the number of its group before the state
    /// in the long form; `None` where there is no such job. The only error is want of memory.
    pub fn report(
        &self,
        alloc: Global,
        kernel: &Kernel,
        number: usize,
        form: JobForm,
    ) -> Result<Option<Text>, NoMemory>
        ensures { (s : KernelState) → StandsAt kernel.now s
            → IfOk result (λ line. line ≡ report_of s.machine.processes self.now number form) }
    {
        match self.job(number) {
            Some(job) => {
                let line = line_of(alloc, kernel, self.jobs.as_slice(), form, job)?;
                Ok(Some(line))
            },
            None => Ok(None),
        }
    }

    /// This state of the job of this number is the one last told (XCU 2.11); nothing changes where there is no such job. Takes no memory.
    pub fn tell(&mut self, number: usize, state: JobState)
        ensures { self.new ≡ after_telling self.old number state }
    {
        tell(self.jobs.as_mut_slice(), number, state);
    }

    /// The least number of a job whose state isn't the one last told (XCU 2.11), `None` where each one's is. Takes no memory.
    pub fn next_changed(&self, kernel: &Kernel) -> Option<usize>
        ensures { (s : KernelState) → StandsAt kernel.now s → result ≡ next_changed s.machine.processes self.now }
    {
        next_changed(kernel, self.jobs.as_slice())
    }

    /// Removes the job of this number, if there is one (XCU 2.11). Takes no memory.
    pub fn remove(&mut self, number: usize)
        ensures { self.new ≡ without self.old number }
    {
        remove(&mut self.jobs, number);
        self.marks.forget();
    }

    /// Removes the jobs that are done and whose present states were the ones last told (XCU 2.11, XCU jobs). Takes no memory.
    pub fn remove_told(&mut self, kernel: &Kernel)
        ensures { (s : KernelState) → StandsAt kernel.now s → self.new ≡ without_told s.machine.processes self.old }
    {
        remove_told(kernel, &mut self.jobs);
        self.marks.forget();
    }

    /// A copy, which is equal. The only error is want of memory.
    pub fn copy(&self, alloc: Global) -> Result<Jobs, NoMemory>
        ensures { IfOk result (λ jobs. jobs ≡ self.now) }
    {
        let jobs = copies(alloc, self.jobs.as_slice())?;
        Ok(Jobs {
            jobs,
            marks: Marks::new(alloc),
        })
    }
}
