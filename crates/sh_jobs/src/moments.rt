//! When jobs last changed, by the kernel's clock.
ghost use Rattle.std.specs.Prelude.{◌≡◌, ℕ, map, max};
ghost use Rattle.sh_kernel.specs.Changes.{changed_at};
ghost use Rattle.sh_kernel.specs.State.{KernelState, StandsAt};
ghost use Rattle.sh_jobs.specs.Moments.{brought_up, job_brought_up, latest};
ghost use Rattle.sh_jobs.specs.Table.{is_taken};

use crate::job::Job;
use sh_kernel::Kernel;

/// The moment, by the kernel's clock, at which one of these processes last started, stopped or went on (XBD chapter 3, Job ID); 0 without
/// any process. Takes no memory.
pub fn latest_change(kernel: &Kernel, pids: &[u32]) -> u64
    ensures { (s : KernelState) → StandsAt kernel.now s → result ≡ latest s.changes pids.now }
{
    let mut latest = 0;
    let mut rest = pids;
    'processes: while let Some((pid, others)) = rest.split_first() {
        latest = kernel.changed(*pid).max(latest);
        rest = others;
    }
    latest
}

/// A job has its last change when one of its processes last changed.
fn bring_one_up(kernel: &Kernel, job: &mut Job)
    ensures changed { (s : KernelState) → StandsAt kernel.now s → job.new ≡ job_brought_up s.changes job.old }
    ensures number { job.new.number ≡ job.old.number }
{
    job.changed = latest_change(kernel, job.pids.as_slice());
}

/// Each job has its last change when one of its processes last changed.
pub(crate) fn bring_up_to_date(kernel: &Kernel, jobs: &mut [Job])
    ensures changed { (s : KernelState) → StandsAt kernel.now s → jobs.new ≡ brought_up s.changes jobs.old }
    ensures numbers { (k : ℕ) → is_taken jobs.new k ≡ is_taken jobs.old k }
{
    for job in jobs.iter_mut() {
        bring_one_up(kernel, job);
    }
}
