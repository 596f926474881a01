//! A turn of a program.
ghost use Rattle.std.specs.Prelude.{◌≡◌, IfOk, OnOk, drop};
ghost use Rattle.sh_kernel.specs.Calls.{kill_call};
ghost use Rattle.sh_kernel.specs.State.{KernelState, StandsAt};
ghost use Rattle.sh_tty.specs.Terminal.{Extends};
ghost use Rattle.sh_exec.specs.Programs.{HasLeft, ask_turn, asking, asks, end_turn, read_by, read_turn, stop_turn, write_by, write_turn};

use sh_base::NoMemory;
use sh_base::sequence::Text;
use sh_exec_machine::{ReadOutcome, WriteOutcome, end_process, give_bytes, take_bytes};
use sh_kernel::Kernel;
use sh_kernel_descriptors::{DescriptorRef, KernelFault};
use sh_kernel_processes::SignalTarget;
use sh_signal::Signal;
use sh_stock::{Answer, Ask, Stock};
use std::alloc::Global;

/// A program takes its answer, and asks next.
pub(crate) fn asking<S: Stock>(
    alloc: Global,
    program: &mut S,
    answer: Answer,
) -> Result<Ask, NoMemory>
    ensures { IfOk result (λ ask.
        asks ask program.new ≡ asking S.meaning program.old answer) }
{
    program.turn(alloc, answer)
}

/// What follows a read.
fn read_by<S: Stock>(
    alloc: Global,
    count: usize,
    program: &mut S,
    taken: ReadOutcome,
) -> Result<Ask, NoMemory>
    ensures { IfOk result (λ ask.
        asks ask program.new ≡ read_by S.meaning count program.old taken) }
{
    match taken {
        ReadOutcome::Bytes(bytes) => asking(alloc, program, Answer::Bytes(bytes)),
        ReadOutcome::Wait => Ok(Ask::Read(count)),
        ReadOutcome::Failed => asking(alloc, program, Answer::Failed),
    }
}

/// A program reads.
#[tactic(auto, unfolding(crate::specs::Programs::read_turn))]
fn read_turn<S: Stock>(
    alloc: Global,
    kernel: &mut Kernel,
    pid: u32,
    count: usize,
    program: &mut S,
) -> Result<Ask, NoMemory>
    ensures state { (s : KernelState) → StandsAt kernel.old s → IfOk result (λ ask.
        HasLeft kernel.new (asks ask program.new)
        (read_turn S.meaning s pid count program.old)) }
    ensures terminal { kernel.new.terminal.bytes ≡ kernel.old.terminal.bytes }
    ensures watch { kernel.new.watch ≡ kernel.old.watch }
{
    let taken = take_bytes(alloc, kernel, pid, DescriptorRef::Number(0), count)?;
    let ask = read_by(alloc, count, program, taken)?;
    Ok(ask)
}

/// What is left of bytes after the first ones.
fn rest_of(alloc: Global, bytes: &[u8], count: usize) -> Result<Text, NoMemory>
    ensures { IfOk result (λ rest. rest ≡ drop count bytes.now) }
{
    let from = count.min(bytes.len());
    let rest = Text::copy_of(alloc, &bytes[from..])?;
    Ok(rest)
}

/// What follows a write.
fn write_by<S: Stock>(
    alloc: Global,
    bytes: Text,
    program: &mut S,
    given: WriteOutcome,
) -> Result<Ask, NoMemory>
    ensures { IfOk result (λ ask.
        asks ask program.new ≡ write_by S.meaning bytes program.old given) }
{
    match given {
        WriteOutcome::Whole => asking(alloc, program, Answer::Done),
        WriteOutcome::Part(count) => {
            let rest = rest_of(alloc, bytes.as_slice(), count)?;
            Ok(Ask::Write(rest))
        },
        WriteOutcome::Wait => Ok(Ask::Write(bytes)),
        WriteOutcome::Failed => asking(alloc, program, Answer::Failed),
    }
}

/// A program writes.
#[tactic(auto, unfolding(crate::specs::Programs::write_turn))]
fn write_turn<S: Stock>(
    alloc: Global,
    kernel: &mut Kernel,
    pid: u32,
    bytes: Text,
    program: &mut S,
) -> Result<Ask, NoMemory>
    ensures state { (s : KernelState) → StandsAt kernel.old s → IfOk result (λ ask.
        HasLeft kernel.new (asks ask program.new)
        (write_turn S.meaning s pid bytes program.old)) }
    ensures terminal { Extends kernel.old.terminal.bytes kernel.new.terminal.bytes }
    ensures watch { kernel.new.watch ≡ kernel.old.watch }
{
    let given = give_bytes(kernel, pid, 1, bytes.as_slice())?;
    let ask = write_by(alloc, bytes, program, given)?;
    Ok(ask)
}

/// A program ends.
#[tactic(auto, unfolding(crate::specs::Programs::end_turn))]
fn end_turn<S: Stock>(
    kernel: &mut Kernel,
    pid: u32,
    status: u8,
    _program: &mut S,
) -> Result<Ask, NoMemory>
    ensures state { (s : KernelState) → StandsAt kernel.old s → IfOk result (λ ask.
        HasLeft kernel.new (asks ask _program.new) (end_turn s pid status _program.old)) }
    ensures terminal { kernel.new.terminal.bytes ≡ kernel.old.terminal.bytes }
    ensures watch { kernel.new.watch ≡ kernel.old.watch }
{
    end_process(kernel, pid, status)?;
    Ok(Ask::End(status))
}

/// Sends a process STOP.
fn stop(kernel: &mut Kernel, pid: u32) -> Result<(), NoMemory>
    ensures state { (s : KernelState) → StandsAt kernel.old s
        → OnOk result (StandsAt kernel.new (kill_call s (SignalTarget.Process pid) Signal.Stop).after) }
    ensures terminal { kernel.new.terminal ≡ kernel.old.terminal }
    ensures watch { kernel.new.watch ≡ kernel.old.watch }
{
    let to = SignalTarget::Process(pid);
    match kernel.kill(&to, Signal::Stop) {
        Ok(()) => Ok(()),
        Err(KernelFault::NoMemory(lack)) => Err(lack),
        Err(_) => Ok(()),
    }
}

/// A program stops itself.
#[tactic(auto, unfolding(crate::specs::Programs::stop_turn))]
fn stop_turn<S: Stock>(
    alloc: Global,
    kernel: &mut Kernel,
    pid: u32,
    program: &mut S,
) -> Result<Ask, NoMemory>
    ensures state { (s : KernelState) → StandsAt kernel.old s → IfOk result (λ ask.
        HasLeft kernel.new (asks ask program.new) (stop_turn S.meaning s pid program.old)) }
    ensures terminal { kernel.new.terminal ≡ kernel.old.terminal }
    ensures watch { kernel.new.watch ≡ kernel.old.watch }
{
    stop(kernel, pid)?;
    let ask = asking(alloc, program, Answer::Done)?;
    Ok(ask)
}

/// One turn of a program in the process `pid`: what it asks is done, and it takes the answer.
#[tactic(auto, using(crate::proofs::Extending::unchanged))]
pub(crate) fn ask_turn<S: Stock>(
    alloc: Global,
    kernel: &mut Kernel,
    pid: u32,
    ask: Ask,
    program: &mut S,
) -> Result<Ask, NoMemory>
    ensures state { (s : KernelState) → StandsAt kernel.old s → IfOk result (λ next.
        HasLeft kernel.new (asks next program.new)
        (ask_turn S.meaning s pid ask program.old)) }
    ensures terminal { Extends kernel.old.terminal.bytes kernel.new.terminal.bytes }
    ensures watch { kernel.new.watch ≡ kernel.old.watch }
{
    match ask {
        Ask::Read(count) => {
            let next = read_turn(alloc, kernel, pid, count, program)?;
            Ok(next)
        },
        Ask::Write(bytes) => {
            let next = write_turn(alloc, kernel, pid, bytes, program)?;
            Ok(next)
        },
        Ask::Stop => {
            let next = stop_turn(alloc, kernel, pid, program)?;
            Ok(next)
        },
        Ask::Idle => {
            let next = asking(alloc, program, Answer::Done)?;
            Ok(next)
        },
        Ask::End(status) => {
            let next = end_turn(kernel, pid, status, program)?;
            Ok(next)
        },
    }
}
