//! How `kill` goes from operand to operand.
ghost use Rattle.std.specs.Prelude.{◌≡◌, [], drop, IfOk, option_map};
ghost use Rattle.sh_builtin_jobs.specs.KillRuns.{kill_next, kill_start, kill_status, next_step, said_of, with_message};
ghost use Rattle.sh_jobs.specs.State.{KernelState, StandsAt};

use crate::command::KillSend;
use crate::message::{fault_text, message_about};
use crate::target::{JobControl, kill_target};
use sh_base::NoMemory;
use sh_base::sequence::{Sequence, Text, copies_of};
use sh_jobs::{JobFault, Jobs, Kernel};
use sh_kernel_processes::SignalTarget;
use std::alloc::Global;

/// An operand of `kill`, for which the kernel is asked: the signal goes to its target, if there is one, and the answer is whether a process
/// was reached. One that has ended is none.
#[derive(Debug, Drop)]
pub struct KillAsk {
    /// The signal and all operands.
    pub send: KillSend,
    /// How many of the operands are done with once there is an answer.
    pub taken: usize,
    /// The operand.
    pub word: Text,
    /// The processes that it names, or why it names no job: then nothing is sent.
    pub target: Result<SignalTarget, JobFault>,
    /// What is to be said of the operands before it.
    pub messages: Sequence<Text>,
}

/// What `kill` comes to.
#[derive(Debug, Drop)]
pub struct KillReport {
    /// Its messages, each of them whole, with `psh: ` and a newline.
    pub messages: Sequence<Text>,
    /// Its status: 1 where there is a message, else 0.
    pub status: u8,
}

/// What follows the operands so far.
#[derive(Debug, Drop)]
pub enum KillStep {
    /// None is left.
    Over(KillReport),
    /// The kernel is asked for a further one.
    Asks(KillAsk),
}

/// What is said of an operand, if anything is.
fn said_of(target: &Result<SignalTarget, JobFault>, is_reached: bool) -> Option<&'static [u8]>
    ensures { option_map (λ text. text.now) result ≡ said_of target.now is_reached }
{
    match target {
        Ok(_) => {
            if is_reached {
                return None;
            }
            Some(b"no such process")
        },
        Err(fault) => Some(fault_text(*fault)),
    }
}

/// Messages with the one about this operand, if something is said of it.
fn with_message(
    alloc: Global,
    messages: Sequence<Text>,
    word: &[u8],
    said: Option<&[u8]>,
) -> Result<Sequence<Text>, NoMemory>
    ensures { IfOk result (λ more. more ≡ with_message messages word.now (option_map (λ text. text.now) said.entry)) }
{
    let Some(text) = said else {
        return Ok(messages);
    };
    let message = message_about(alloc, b"kill", word, text)?;
    let mut messages = messages;
    messages.push(message)?;
    Ok(messages)
}

/// The status of `kill` with these messages.
fn kill_status(messages: &[Text]) -> u8
    ensures { result ≡ kill_status messages.now }
{
    if messages.is_empty() {
        return 0;
    }
    1
}

/// The operands behind those that were taken.
fn behind(operands: &[Text], taken: usize) -> &[Text]
    ensures { result.now ≡ drop taken operands.now }
{
    &operands[taken.min(operands.len())..]
}

/// The step to the first of the operands that are left.
fn next_step(
    alloc: Global,
    control: JobControl,
    kernel: &Kernel,
    jobs: &Jobs,
    send: KillSend,
    taken: usize,
    messages: Sequence<Text>,
) -> Result<KillStep, NoMemory>
    ensures { (s : KernelState) → StandsAt kernel.now s
        → IfOk result (λ step. step ≡ next_step control s.machine.processes jobs.now send taken messages) }
{
    let rest = behind(send.operands.as_slice(), taken);
    let Some((word, others)) = rest.split_first() else {
        let status = kill_status(messages.as_slice());
        return Ok(KillStep::Over(KillReport { messages, status }));
    };
    let taken = send.operands.len().saturating_sub(others.len());
    let target = kill_target(alloc, control, kernel, jobs, word.as_slice())?;
    let word = Text::copy_of(alloc, word.as_slice())?;
    Ok(KillStep::Asks(KillAsk {
        send,
        taken,
        word,
        target,
        messages,
    }))
}

/// A copy of what an operand names.
fn copy_of_target(
    alloc: Global,
    target: &Result<SignalTarget, JobFault>,
) -> Result<Result<SignalTarget, JobFault>, NoMemory>
    ensures { IfOk result (λ copy. copy ≡ target.now) }
{
    match target {
        Ok(target) => {
            let copy = target.copy(alloc)?;
            Ok(Ok(copy))
        },
        Err(fault) => Ok(Err(*fault)),
    }
}

/// The step to the first operand of `kill`, which is looked up in this table of jobs. The only error is want of memory.
#[tactic(auto, unfolding(crate::specs::KillRuns::kill_start))]
pub fn kill_start(
    alloc: Global,
    control: JobControl,
    kernel: &Kernel,
    jobs: &Jobs,
    send: KillSend,
) -> Result<KillStep, NoMemory>
    ensures { (s : KernelState) → StandsAt kernel.now s
        → IfOk result (λ step. step ≡ kill_start control s.machine.processes jobs.now send) }
{
    let step = next_step(alloc, control, kernel, jobs, send, 0, Sequence::new(alloc))?;
    Ok(step)
}

impl KillAsk {
    /// What follows once the kernel has answered whether a process was reached (XCU kill): an operand that reached none, or names no job, is
    /// told by a message, and the next one is looked up. The only error is want of memory.
    #[tactic(auto, unfolding(crate::specs::KillRuns::kill_next))]
    pub fn go_on(
        self,
        alloc: Global,
        control: JobControl,
        kernel: &Kernel,
        jobs: &Jobs,
        is_reached: bool,
    ) -> Result<KillStep, NoMemory>
        ensures { (s : KernelState) → StandsAt kernel.now s
            → IfOk result (λ step. step ≡ kill_next control s.machine.processes jobs.now self is_reached) }
    {
        let KillAsk {
            send,
            taken,
            word,
            target,
            messages,
        } = self;
        let said = said_of(&target, is_reached);
        let messages = with_message(alloc, messages, word.as_slice(), said)?;
        let step = next_step(alloc, control, kernel, jobs, send, taken, messages)?;
        Ok(step)
    }

    /// A copy, which is equal. The only error is want of memory.
    pub fn copy(&self, alloc: Global) -> Result<KillAsk, NoMemory>
        ensures { IfOk result (λ copy. copy ≡ self.now) }
    {
        let send = self.send.copy(alloc)?;
        let word = Text::copy_of(alloc, self.word.as_slice())?;
        let target = copy_of_target(alloc, &self.target)?;
        let messages = Sequence::from_vec(copies_of(alloc, self.messages.as_slice())?);
        Ok(KillAsk {
            send,
            taken: self.taken,
            word,
            target,
            messages,
        })
    }
}
