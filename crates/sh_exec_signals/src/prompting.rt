//! What an interactive shell writes before it reads a command.
ghost use Rattle.std.specs.Prelude.{◌≡◌, IfOk, Some};
ghost use Rattle.sh_exec_signals.specs.Placed.{IsPlaced};
ghost use Rattle.sh_exec_signals.specs.Prompting.{behind_job, has_prompt, input_action, is_waiting, job_to_tell, prompt_by, prompt_name, prompt_of, prompt_turn, tell_job, with_job_told, write_prompt};
ghost use Rattle.sh_kernel.specs.State.{KernelState, StandsAt};
ghost use Rattle.sh_tty.specs.Terminal.{Extends};

use sh_base::NoMemory;
use sh_builtin_jobs::{job_lines, tell_listed};
use sh_builtin_shell::Shell;
use sh_exec_actions::{Action, Active, Beginning};
use sh_exec_machine::{WriteOutcome, give_bytes};
use sh_jobs::JobForm;
use sh_kernel::Kernel;
use sh_vars::Vars;
use std::alloc::Global;

/// The descriptor to which jobs are told, and prompts are written.
const OUTPUT: u8 = 2;

/// The variable that has the prompt behind this beginning of a command.
fn prompt_name(text: &[u8]) -> &'static [u8]
    ensures { result.now ≡ prompt_name text.now }
{
    match text {
        [] => b"PS1",
        [_, ..] => b"PS2",
    }
}

/// The prompt behind this beginning of a command (XCU 2.5.3 PS1, PS2); none where its variable has no value.
fn prompt_of<'a>(vars: &'a Vars, text: &[u8]) -> &'a [u8]
    ensures { result.now ≡ prompt_of vars.now text.now }
{
    match vars.get(prompt_name(text)) {
        Some(prompt) => prompt,
        None => &[],
    }
}

/// The job that is told next.
fn job_to_tell(kernel: &Kernel, shell: &Shell, text: &[u8]) -> Option<usize>
    ensures { (s : KernelState) → StandsAt kernel.now s → result ≡ job_to_tell s shell.now text.now }
{
    match text {
        [] => shell.jobs.next_changed(kernel),
        [_, ..] => None,
    }
}

/// Whether there is something to write.
fn has_prompt(kernel: &Kernel, shell: &Shell, text: &[u8]) -> bool
    ensures { (s : KernelState) → StandsAt kernel.now s → result ≡ has_prompt s shell.now text.now }
{
    match job_to_tell(kernel, shell, text) {
        Some(_) => true,
        None => !prompt_of(&shell.vars, text).is_empty(),
    }
}

/// What an interactive shell does before it reads a command by descriptor 0, or its next line behind this beginning: it tells a job that has
/// changed, or writes a prompt, or reads at once where there is nothing to write (XCU 2.1, 2.5.3). Takes no memory.
#[tactic(auto, unfolding(crate::specs::Prompting::input_action))]
pub fn input_action(kernel: &Kernel, shell: &Shell, beginning: Beginning) -> Action
    ensures { (s : KernelState) → StandsAt kernel.now s → result ≡ input_action s shell.now beginning }
{
    if has_prompt(kernel, shell, beginning.text.as_slice()) {
        return Action::Prompting(beginning);
    }
    Action::ReadInput(beginning)
}

/// Whether a write is to be made again.
fn is_waiting(given: WriteOutcome) -> bool
    ensures { result ≡ is_waiting given }
{
    match given {
        WriteOutcome::Wait => true,
        WriteOutcome::Whole | WriteOutcome::Part(_) | WriteOutcome::Failed => false,
    }
}

/// A job was told, and one that is done goes by that.
fn job_told(kernel: &Kernel, shell: &mut Shell, beginning: Beginning, number: usize) -> Action
    ensures { (s : KernelState) → StandsAt kernel.now s
        → IsPlaced kernel.now shell.new (Active.Next result)
        (behind_job s (with_job_told s shell.old number) beginning) }
{
    tell_listed(kernel, &mut shell.jobs, JobForm::Short, &[number]);
    input_action(kernel, shell, beginning)
}

/// The write of the line of a job, whose table is up to date.
fn tell_job(
    alloc: Global,
    kernel: &mut Kernel,
    shell: &mut Shell,
    beginning: Beginning,
    number: usize,
) -> Result<Active, NoMemory>
    ensures state { (s : KernelState) → StandsAt kernel.old s → IfOk result (λ active.
        IsPlaced kernel.new shell.new active (tell_job s shell.old beginning number)) }
    ensures terminal { Extends kernel.old.terminal.bytes kernel.new.terminal.bytes }
    ensures watch { kernel.new.watch ≡ kernel.old.watch }
{
    let line = job_lines(alloc, kernel, &shell.jobs, JobForm::Short, &[number])?;
    let given = give_bytes(kernel, shell.pid, OUTPUT, line.as_slice())?;
    if is_waiting(given) {
        return Ok(Active::Next(Action::Prompting(beginning)));
    }
    let action = job_told(kernel, shell, beginning, number);
    Ok(Active::Next(action))
}

/// The write of a prompt.
fn write_prompt(
    kernel: &mut Kernel,
    shell: &Shell,
    beginning: Beginning,
) -> Result<Active, NoMemory>
    ensures state { (s : KernelState) → StandsAt kernel.old s → IfOk result (λ active.
        IsPlaced kernel.new shell.now active (write_prompt s shell.now beginning)) }
    ensures terminal { Extends kernel.old.terminal.bytes kernel.new.terminal.bytes }
    ensures watch { kernel.new.watch ≡ kernel.old.watch }
{
    let prompt = prompt_of(&shell.vars, beginning.text.as_slice());
    let given = give_bytes(kernel, shell.pid, OUTPUT, prompt)?;
    if is_waiting(given) {
        return Ok(Active::Next(Action::Prompting(beginning)));
    }
    Ok(Active::Next(Action::ReadInput(beginning)))
}

/// The line of a job is written, after its table was brought up to date.
fn tell(
    alloc: Global,
    kernel: &mut Kernel,
    shell: &mut Shell,
    beginning: Beginning,
    number: usize,
) -> Result<Active, NoMemory>
    ensures state { (s : KernelState) → StandsAt kernel.old s → IfOk result (λ active.
        IsPlaced kernel.new shell.new active (prompt_by s shell.old beginning (Some number))) }
    ensures terminal { Extends kernel.old.terminal.bytes kernel.new.terminal.bytes }
    ensures watch { kernel.new.watch ≡ kernel.old.watch }
{
    shell.bring_jobs_up_to_date(kernel);
    let active = tell_job(alloc, kernel, shell, beginning, number)?;
    Ok(active)
}

/// The write of the line of this job or, where there is none, of the prompt.
fn write_next(
    alloc: Global,
    kernel: &mut Kernel,
    shell: &mut Shell,
    beginning: Beginning,
    job: Option<usize>,
) -> Result<Active, NoMemory>
    ensures state { (s : KernelState) → StandsAt kernel.old s → IfOk result (λ active.
        IsPlaced kernel.new shell.new active (prompt_by s shell.old beginning job)) }
    ensures terminal { Extends kernel.old.terminal.bytes kernel.new.terminal.bytes }
    ensures watch { kernel.new.watch ≡ kernel.old.watch }
{
    match job {
        Some(number) => {
            let active = tell(alloc, kernel, shell, beginning, number)?;
            Ok(active)
        },
        None => {
            let active = write_prompt(kernel, shell, beginning)?;
            Ok(active)
        },
    }
}

/// The turn in which an interactive shell writes to descriptor 2 before it reads a command: the line of a job that has changed (XCU 2.11), or
/// the prompt (2.5.3). Which of the two is decided in this turn. The only error is want of memory, after which the shell is given up; the
/// terminal's bytes still begin with the earlier ones.
#[tactic(auto, unfolding(crate::specs::Prompting::prompt_turn))]
pub fn prompt_turn(
    alloc: Global,
    kernel: &mut Kernel,
    shell: &mut Shell,
    beginning: Beginning,
) -> Result<Active, NoMemory>
    ensures state { (s : KernelState) → StandsAt kernel.old s → IfOk result (λ active.
        IsPlaced kernel.new shell.new active (prompt_turn s shell.old beginning)) }
    ensures terminal { Extends kernel.old.terminal.bytes kernel.new.terminal.bytes }
    ensures watch { kernel.new.watch ≡ kernel.old.watch }
{
    let job = job_to_tell(kernel, shell, beginning.text.as_slice());
    let active = write_next(alloc, kernel, shell, beginning, job)?;
    Ok(active)
}
