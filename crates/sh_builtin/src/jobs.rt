//! The built-in jobs (XCU jobs).
ghost use Rattle.sh_builtin.specs.Running.{jobs_ran, listed};
ghost use Rattle.sh_builtin_asking.specs.BuiltIns.{with_outcome};
ghost use Rattle.sh_builtin_jobs.specs.Listing.{jobs_listed, jobs_of};
ghost use Rattle.sh_builtin_shell.specs.Shells.{up_to_date};
ghost use Rattle.sh_kernel.specs.State.{KernelState, StandsAt};
ghost use Rattle.std.specs.Prelude.{◌≡◌, IfOk};

use sh_base::NoMemory;
use sh_base::sequence::Text;
use sh_builtin_jobs::{JobsCommand, job_lines, jobs_listed, jobs_of, tell_listed};
use sh_builtin_outcome::{Builtin, Outcome};
use sh_builtin_shell::Shell;
use sh_kernel::Kernel;
use std::alloc::Global;

/// Jobs are listed, and by that they are told.
fn list(
    alloc: Global,
    kernel: &Kernel,
    shell: &mut Shell,
    command: JobsCommand,
) -> Result<Outcome, NoMemory>
    ensures { (s : KernelState) → StandsAt kernel.now s → IfOk result (λ outcome. with_outcome shell.new outcome
        ≡ listed s shell.old command (jobs_listed s.machine.processes shell.old.jobs command.ids)) }
{
    let named = jobs_listed(alloc, kernel, &shell.jobs, command.ids.as_slice())?;
    let numbers = named.numbers.as_slice();
    let out = job_lines(alloc, kernel, &shell.jobs, command.form, numbers)?;
    tell_listed(kernel, &mut shell.jobs, command.form, numbers);
    Ok(Outcome::saying(out, named.messages, named.status))
}

/// jobs with its arguments.
fn list_named(
    alloc: Global,
    kernel: &Kernel,
    shell: &mut Shell,
    arguments: &[Text],
) -> Result<Outcome, NoMemory>
    ensures { (s : KernelState) → StandsAt kernel.now s → IfOk result (λ outcome.
        with_outcome shell.new outcome ≡ jobs_ran s shell.old (jobs_of arguments.now)) }
{
    match jobs_of(alloc, arguments)? {
        Ok(command) => list(alloc, kernel, shell, command),
        Err(fault) => Outcome::refusal(alloc, Builtin::Jobs, fault),
    }
}

/// jobs with its arguments, in a shell whose jobs may have changed.
pub(crate) fn jobs(
    alloc: Global,
    kernel: &Kernel,
    shell: &mut Shell,
    arguments: &[Text],
) -> Result<Outcome, NoMemory>
    ensures { (s : KernelState) → StandsAt kernel.now s → IfOk result (λ outcome.
        with_outcome shell.new outcome ≡ jobs_ran s (up_to_date s shell.old) (jobs_of arguments.now)) }
{
    shell.bring_jobs_up_to_date(kernel);
    list_named(alloc, kernel, shell, arguments)
}
