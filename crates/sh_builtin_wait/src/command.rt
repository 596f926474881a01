//! The arguments of `wait`.
ghost use Rattle.std.specs.Prelude.{◌≡◌, IfOk};
ghost use Rattle.std.specs.List.{list_all};
ghost use Rattle.sh_builtin_jobs.specs.JobWords.{is_job_id};
ghost use Rattle.sh_builtin_wait.specs.Waits.{first_wait, is_operand, wait_of, wait_with};
ghost use Rattle.sh_jobs.specs.State.{KernelState, StandsAt};

use crate::run::{WaitStep, first_wait};
use sh_base::NoMemory;
use sh_base::decimal::number_of;
use sh_base::sequence::{Sequence, Text, copies_of};
use sh_builtin_environment::{BuiltinFault, parse_options};
use sh_jobs::{Jobs, Kernel};
use std::alloc::Global;

/// What `wait` begins with.
#[derive(Debug, Drop)]
pub enum WaitStart {
    /// There is no operand: all processes that the shell knows are waited for.
    All,
    /// The step to the first operand that names what can be waited for.
    Step(WaitStep),
}

/// Whether a word is a job ID.
fn is_job_id(word: &[u8]) -> bool
    ensures { result ≡ is_job_id word.now }
{
    match word.split_first() {
        Some((first, _)) => *first == b'%',
        None => false,
    }
}

/// Whether a word is an operand of `wait`.
fn is_operand(word: &[u8]) -> bool
    ensures { result ≡ is_operand word.now }
{
    number_of(word).is_some() || is_job_id(word)
}

/// Whether each word is an operand of `wait`.
fn are_operands(words: &[Text]) -> bool
    ensures { result ≡ list_all is_operand words.now }
{
    words.iter().all(|word| is_operand(word.as_slice()))
}

/// What the operands of `wait` ask for.
fn wait_with(
    alloc: Global,
    kernel: &Kernel,
    jobs: &Jobs,
    known: &[u32],
    operands: &[Text],
) -> Result<Result<WaitStart, BuiltinFault>, NoMemory>
    ensures { (s : KernelState) → StandsAt kernel.now s
        → IfOk result (λ answer. answer ≡ wait_with s.machine.processes jobs.now known.now operands.now) }
{
    if operands.is_empty() {
        return Ok(Ok(WaitStart::All));
    }
    if !are_operands(operands) {
        return Ok(Err(BuiltinFault::Usage));
    }
    let operands = Sequence::from_vec(copies_of(alloc, operands)?);
    let step = first_wait(alloc, kernel, jobs, known, operands)?;
    Ok(Ok(WaitStart::Step(step)))
}

/// What the arguments of `wait` ask for (XCU wait), in a shell that knows these processes and has these jobs: `wait [ID or PID..]`. A
/// number names the known process that has it, a job ID (XBD chapter 3, Job ID) a job. The inner error says why the arguments are refused:
/// `Usage` for an option, and for an operand that neither is of 1 to 18 digits nor begins with `%`. All operands are looked at before any
/// waiting. The outer error is want of memory.
#[tactic(auto, unfolding(crate::specs::Waits::wait_of))]
pub fn wait_of(
    alloc: Global,
    kernel: &Kernel,
    jobs: &Jobs,
    known: &[u32],
    arguments: &[Text],
) -> Result<Result<WaitStart, BuiltinFault>, NoMemory>
    ensures { (s : KernelState) → StandsAt kernel.now s
        → IfOk result (λ answer. answer ≡ wait_of s.machine.processes jobs.now known.now arguments.now) }
{
    let Some((_, operands)) = parse_options(b"", arguments) else {
        return Ok(Err(BuiltinFault::Usage));
    };
    let answer = wait_with(alloc, kernel, jobs, known, operands)?;
    Ok(answer)
}
