//! How `wait` goes from operand to operand.
ghost use Rattle.std.specs.Prelude.{◌≡◌, IfOk, drop};
ghost use Rattle.sh_builtin_wait.specs.Waits.{first_wait, next_step, next_wait, processes_of};
ghost use Rattle.sh_jobs.specs.State.{KernelState, StandsAt};

use crate::message::no_job;
use crate::target::{Named, WaitTarget, named_of};
use sh_base::NoMemory;
use sh_base::sequence::{Sequence, Text, copies_of};
use sh_jobs::{Jobs, Kernel};
use std::alloc::Global;
use std::slice;

/// What `wait` waits for (XCU wait).
#[derive(Debug, Drop)]
pub enum Awaited {
    /// All processes that the shell knows.
    All,
    /// What an operand names.
    Operand(OperandWait),
}

/// An operand of `wait` that names what the shell waits for, and all that is known of the others.
#[derive(Debug, Drop)]
pub struct OperandWait {
    /// What is waited for.
    pub target: WaitTarget,
    /// All operands.
    pub operands: Sequence<Text>,
    /// How many of them are done with once the target has ended.
    pub taken: usize,
    /// What is to be said of the operands before it, each message whole, with `psh: ` and a newline.
    pub messages: Sequence<Text>,
}

/// What `wait` comes to.
#[derive(Debug, Drop)]
pub struct WaitReport {
    /// Its messages, each of them whole, with `psh: ` and a newline, in the order of the operands.
    pub messages: Sequence<Text>,
    /// Its status: that of its last operand.
    pub status: u8,
}

/// What follows the operands so far.
#[derive(Debug, Drop)]
pub enum WaitStep {
    /// There is none left to wait for.
    Over(WaitReport),
    /// What a further operand names is waited for.
    Waits(OperandWait),
}

/// The operands behind those that were taken.
fn behind(operands: &[Text], taken: usize) -> &[Text]
    ensures { result.now ≡ drop taken operands.now }
{
    &operands[taken.min(operands.len())..]
}

/// What follows so many operands, with which `wait` has come to this.
fn next_step(
    alloc: Global,
    kernel: &Kernel,
    jobs: &Jobs,
    known: &[u32],
    operands: Sequence<Text>,
    taken: usize,
    report: WaitReport,
) -> Result<WaitStep, NoMemory>
    ensures { (s : KernelState) → StandsAt kernel.now s
        → IfOk result (λ step. step ≡ next_step s.machine.processes jobs.now known.now operands taken report) }
{
    let mut report = report;
    let mut rest = behind(operands.as_slice(), taken);
    'operands: while let Some((operand, others)) = rest.split_first() {
        match named_of(alloc, kernel, jobs, known, operand.as_slice())? {
            Named::Known(target) => {
                let taken = operands.len().saturating_sub(others.len());
                return Ok(WaitStep::Waits(OperandWait {
                    target,
                    operands,
                    taken,
                    messages: report.messages,
                }));
            },
            Named::Unknown => {},
            Named::NoJob(fault) => {
                let message = no_job(alloc, operand.as_slice(), fault)?;
                report.messages.push(message)?;
            },
        }
        report.status = 127;
        rest = others;
    }
    Ok(WaitStep::Over(report))
}

/// The step to the first operand that names what can be waited for.
#[tactic(auto, unfolding(crate::specs::Waits::first_wait))]
pub(crate) fn first_wait(
    alloc: Global,
    kernel: &Kernel,
    jobs: &Jobs,
    known: &[u32],
    operands: Sequence<Text>,
) -> Result<WaitStep, NoMemory>
    ensures { (s : KernelState) → StandsAt kernel.now s
        → IfOk result (λ step. step ≡ first_wait s.machine.processes jobs.now known.now operands) }
{
    let messages = Sequence::new(alloc);
    let report = WaitReport {
        messages,
        status: 0,
    };
    let step = next_step(alloc, kernel, jobs, known, operands, 0, report)?;
    Ok(step)
}

impl OperandWait {
    /// The processes that are waited for: that of a number, or all of a job. The status of the operand is that of the last of them.
    pub fn processes(&self) -> &[u32]
        ensures { result.now ≡ processes_of self.now.target }
    {
        match &self.target {
            WaitTarget::Process(pid) => slice::from_ref(pid),
            WaitTarget::Job { processes, .. } => processes.as_slice(),
        }
    }

    /// What follows once the processes have ended with this status (XCU wait): the next operands are looked up among the jobs and the
    /// processes that the shell still knows. One that names no known process, or no job, takes no waiting, and its status is 127; of the
    /// latter a message tells. The only error is want of memory.
    #[tactic(auto, unfolding(crate::specs::Waits::next_wait))]
    pub fn go_on(
        self,
        alloc: Global,
        kernel: &Kernel,
        jobs: &Jobs,
        known: &[u32],
        status: u8,
    ) -> Result<WaitStep, NoMemory>
        ensures { (s : KernelState) → StandsAt kernel.now s
            → IfOk result (λ step. step ≡ next_wait s.machine.processes jobs.now known.now self status) }
    {
        let OperandWait {
            operands,
            taken,
            messages,
            ..
        } = self;
        let report = WaitReport { messages, status };
        let step = next_step(alloc, kernel, jobs, known, operands, taken, report)?;
        Ok(step)
    }

    /// A copy, which is equal. The only error is want of memory.
    pub fn copy(&self, alloc: Global) -> Result<OperandWait, NoMemory>
        ensures { IfOk result (λ copy. copy ≡ self.now) }
    {
        let target = self.target.copy(alloc)?;
        let operands = Sequence::from_vec(copies_of(alloc, self.operands.as_slice())?);
        let messages = Sequence::from_vec(copies_of(alloc, self.messages.as_slice())?);
        Ok(OperandWait {
            target,
            operands,
            taken: self.taken,
            messages,
        })
    }
}

impl Awaited {
    /// A copy, which is equal. The only error is want of memory.
    pub fn copy(&self, alloc: Global) -> Result<Awaited, NoMemory>
        ensures { IfOk result (λ copy. copy ≡ self.now) }
    {
        match self {
            Awaited::All => Ok(Awaited::All),
            Awaited::Operand(wait) => Ok(Awaited::Operand(wait.copy(alloc)?)),
        }
    }
}
