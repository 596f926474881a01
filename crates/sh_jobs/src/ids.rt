//! Jobs that are found by their job IDs.
ghost use Rattle.std.specs.Prelude.{◌≡◌};
ghost use Rattle.sh_kernel.specs.State.{KernelState, StandsAt};
ghost use Rattle.sh_base.specs.Decimals.{at_most, value_of};
ghost use Rattle.sh_jobs.specs.Ids.{begins_with, fits, has_within, is_current_id, job_of_id, job_of_name, job_of_number, job_of_text, number_or_fault};

use crate::fault::JobFault;
use crate::job::Job;
use crate::order::{current, previous};
use crate::table::is_taken;
use sh_base::decimal::{all_digits, limited_value};
use sh_kernel::Kernel;

/// The number that is there.
fn number_or_fault(number: Option<usize>) -> Result<usize, JobFault>
    ensures { result ≡ number_or_fault number }
{
    match number {
        Some(number) => Ok(number),
        None => Err(JobFault::NoSuchJob),
    }
}

/// Whether the rest of a job ID is that of `%`, `%%` or `%+`.
fn is_current_id(name: &[u8]) -> bool
    ensures { result ≡ is_current_id name.now }
{
    match name.split_first() {
        Some(_) => name == b"%".as_slice() || name == b"+".as_slice(),
        None => true,
    }
}

/// The job of this number.
fn job_of_number(jobs: &[Job], number: Option<u64>) -> Result<usize, JobFault>
    ensures { result ≡ job_of_number jobs.now number }
{
    match number {
        Some(number) => {
            let number = number as usize;
            if is_taken(jobs, number) {
                return Ok(number);
            }
            Err(JobFault::NoSuchJob)
        },
        None => Err(JobFault::NoSuchJob),
    }
}

/// Whether a text begins with a part.
fn begins_with(part: &[u8], text: &[u8]) -> bool
    ensures { result ≡ begins_with part.now text.now }
{
    text.starts_with(part)
}

/// Whether a text has a part in it.
fn has_within(part: &[u8], text: &[u8]) -> bool
    ensures { result ≡ has_within part.now text.now }
{
    let mut rest = text;
    'bytes: while let Some((_, others)) = rest.split_first() {
        if begins_with(part, rest) {
            return true;
        }
        rest = others;
    }
    begins_with(part, rest)
}

/// Whether the text of a job is one that `%text` or `%?text` names.
fn fits(pattern: &[u8], text: &[u8]) -> bool
    ensures { result ≡ fits pattern.now text.now }
{
    match pattern.split_first() {
        Some((first, part)) => {
            if *first == b'?' {
                return has_within(part, text);
            }
            begins_with(pattern, text)
        },
        None => begins_with(pattern, text),
    }
}

/// The one job whose text fits.
fn job_of_text(jobs: &[Job], pattern: &[u8]) -> Result<usize, JobFault>
    ensures { result ≡ job_of_text jobs.now pattern.now }
{
    let mut found = None;
    let mut rest = jobs;
    'jobs: while let Some((job, others)) = rest.split_first() {
        if fits(pattern, job.text.as_slice()) {
            if found.is_some() {
                return Err(JobFault::Ambiguous);
            }
            found = Some(job.number);
        }
        rest = others;
    }
    number_or_fault(found)
}

/// The job that is named by what is after the percent sign.
fn find_after(kernel: &Kernel, jobs: &[Job], name: &[u8]) -> Result<usize, JobFault>
    ensures { (s : KernelState) → StandsAt kernel.now s → result ≡ job_of_name s.machine.processes jobs.now name.now }
{
    if is_current_id(name) {
        return number_or_fault(current(kernel, jobs));
    }
    if name == b"-".as_slice() {
        return number_or_fault(previous(kernel, jobs));
    }
    if all_digits(name) {
        return job_of_number(jobs, limited_value(name, u64::MAX));
    }
    job_of_text(jobs, name)
}

/// The number of the job that a word names.
pub(crate) fn find(kernel: &Kernel, jobs: &[Job], id: &[u8]) -> Result<usize, JobFault>
    ensures { (s : KernelState) → StandsAt kernel.now s → result ≡ job_of_id s.machine.processes jobs.now id.now }
{
    match id.split_first() {
        Some((first, name)) => {
            if *first != b'%' {
                return Err(JobFault::NoSuchJob);
            }
            find_after(kernel, jobs, name)
        },
        None => Err(JobFault::NoSuchJob),
    }
}
