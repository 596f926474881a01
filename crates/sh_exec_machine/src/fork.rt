//! Making a process between pipes.
ghost use Rattle.std.specs.Prelude.{◌≡◌, IfOk, OnOk};
ghost use Rattle.sh_kernel.specs.State.{KernelState, StandsAt};
ghost use Rattle.sh_exec_machine.specs.Forking.{HasForked, HasLaid, after_close, after_null, null_laid, with_pipe_ends, without_aside, after_duplication, fork_between, fork_of, with_child, laid, let_go, after_move, after_pipe, reads_from, set_aside, taken_up, without_child};

use crate::redirecting::open;
use sh_base::NoMemory;
use sh_exec_parts::redirection::TO_READ;
use sh_kernel::Kernel;
use sh_kernel_descriptors::{DescriptorRef, KernelFault};

/// The number at which a new process finds the end of a pipe to read from, until it is moved to 0.
const READ_END: u8 = 10;
/// The number at which it finds the end to write to, until that is moved to 1.
const WRITE_END: u8 = 11;

/// A process that was made.
#[derive(Clone, Copy, Debug, PartialEq, Eq)]
pub struct Forked {
    /// Its number; `None` where no process can be made.
    pub child: Option<u32>,
    /// The end of the new pipe to read from, which is set aside.
    pub aside: Option<usize>,
}

/// Closes a number.
#[tactic(auto, unfolding(crate::specs::Forking::after_close))]
fn close(kernel: &mut Kernel, pid: u32, number: u8)
    ensures state { (s : KernelState) → StandsAt kernel.old s
        → StandsAt kernel.new (after_close s pid number) }
    ensures terminal { kernel.new.terminal ≡ kernel.old.terminal }
    ensures watch { kernel.new.watch ≡ kernel.old.watch }
{
    let _closed = kernel.close(pid, DescriptorRef::Number(number));
}

/// A number refers to what another one refers to.
#[tactic(auto, unfolding(crate::specs::Forking::after_duplication))]
fn duplicate(kernel: &mut Kernel, pid: u32, from: u8, to: u8) -> Result<(), NoMemory>
    ensures state { (s : KernelState) → StandsAt kernel.old s
        → OnOk result (StandsAt kernel.new (after_duplication s pid from to)) }
    ensures terminal { kernel.new.terminal ≡ kernel.old.terminal }
    ensures watch { kernel.new.watch ≡ kernel.old.watch }
{
    match kernel.dup(pid, DescriptorRef::Number(from), to) {
        Err(KernelFault::NoMemory(lack)) => Err(lack),
        _ => Ok(()),
    }
}

/// Moves a descriptor from one number to another.
#[tactic(auto, unfolding(crate::specs::Forking::after_move))]
fn move_over(kernel: &mut Kernel, pid: u32, from: u8, to: u8) -> Result<(), NoMemory>
    ensures state { (s : KernelState) → StandsAt kernel.old s
        → OnOk result (StandsAt kernel.new (after_move s pid from to)) }
    ensures terminal { kernel.new.terminal ≡ kernel.old.terminal }
    ensures watch { kernel.new.watch ≡ kernel.old.watch }
{
    duplicate(kernel, pid, from, to)?;
    close(kernel, pid, from);
    Ok(())
}

/// Makes a pipe.
#[tactic(auto, unfolding(crate::specs::Forking::after_pipe))]
fn pipe(kernel: &mut Kernel, pid: u32) -> Result<(), NoMemory>
    ensures state { (s : KernelState) → StandsAt kernel.old s
        → OnOk result (StandsAt kernel.new (after_pipe s pid)) }
    ensures terminal { kernel.new.terminal ≡ kernel.old.terminal }
    ensures watch { kernel.new.watch ≡ kernel.old.watch }
{
    match kernel.pipe(pid, READ_END, WRITE_END) {
        Err(KernelFault::NoMemory(lack)) => Err(lack),
        _ => Ok(()),
    }
}

/// Sets the end to read from aside.
#[tactic(auto, unfolding(crate::specs::Forking::set_aside))]
fn set_aside(kernel: &mut Kernel, pid: u32) -> Option<usize>
    ensures state { (s : KernelState) → StandsAt kernel.old s
        → HasLaid kernel.new result (set_aside s pid) }
    ensures terminal { kernel.new.terminal ≡ kernel.old.terminal }
    ensures watch { kernel.new.watch ≡ kernel.old.watch }
{
    match kernel.set_aside(pid, READ_END) {
        Ok(aside) => Some(aside),
        Err(_) => None,
    }
}

/// Makes a pipe, where the new process writes to one; its end to read from is set aside.
#[tactic(auto, unfolding(crate::specs::Forking::laid))]
fn lay(kernel: &mut Kernel, pid: u32, writes: bool) -> Result<Option<usize>, NoMemory>
    ensures state { (s : KernelState) → StandsAt kernel.old s → IfOk result (λ aside.
        HasLaid kernel.new aside (laid writes s pid)) }
    ensures terminal { kernel.new.terminal ≡ kernel.old.terminal }
    ensures watch { kernel.new.watch ≡ kernel.old.watch }
{
    if !writes {
        return Ok(None);
    }
    pipe(kernel, pid)?;
    Ok(set_aside(kernel, pid))
}

/// Gives the end of the pipe before a number again.
#[tactic(auto, unfolding(crate::specs::Forking::taken_up))]
fn take_up(kernel: &mut Kernel, pid: u32, before: Option<usize>)
    ensures state { (s : KernelState) → StandsAt kernel.old s
        → StandsAt kernel.new (taken_up before s pid) }
    ensures terminal { kernel.new.terminal ≡ kernel.old.terminal }
    ensures watch { kernel.new.watch ≡ kernel.old.watch }
{
    if let Some(aside) = before {
        let _put_back = kernel.put_back(pid, aside, READ_END);
    }
}

/// Gives the new process its descriptors 0 and 1.
#[tactic(auto, unfolding(crate::specs::Forking::with_pipe_ends))]
fn connect(kernel: &mut Kernel, child: u32, reads: bool, writes: bool) -> Result<(), NoMemory>
    ensures state { (s : KernelState) → StandsAt kernel.old s
        → OnOk result (StandsAt kernel.new (with_pipe_ends reads writes s child)) }
    ensures terminal { kernel.new.terminal ≡ kernel.old.terminal }
    ensures watch { kernel.new.watch ≡ kernel.old.watch }
{
    if reads {
        move_over(kernel, child, READ_END, 0)?;
    }
    if writes {
        move_over(kernel, child, WRITE_END, 1)?;
    }
    Ok(())
}

/// Closes in the shell what only the new process is to have.
#[tactic(auto, unfolding(crate::specs::Forking::let_go))]
fn let_go(kernel: &mut Kernel, pid: u32)
    ensures state { (s : KernelState) → StandsAt kernel.old s → StandsAt kernel.new (let_go s pid) }
    ensures terminal { kernel.new.terminal ≡ kernel.old.terminal }
    ensures watch { kernel.new.watch ≡ kernel.old.watch }
{
    close(kernel, pid, READ_END);
    close(kernel, pid, WRITE_END);
}

/// Closes the end that was set aside, if one was.
#[tactic(auto, unfolding(crate::specs::Forking::without_aside))]
fn drop_aside(kernel: &mut Kernel, pid: u32, aside: Option<usize>)
    ensures state { (s : KernelState) → StandsAt kernel.old s
        → StandsAt kernel.new (without_aside aside s pid) }
    ensures terminal { kernel.new.terminal ≡ kernel.old.terminal }
    ensures watch { kernel.new.watch ≡ kernel.old.watch }
{
    if let Some(aside) = aside {
        let _closed = kernel.close(pid, DescriptorRef::Aside(aside));
    }
}

/// The process is made.
#[tactic(auto, unfolding(crate::specs::Forking::with_child))]
fn join(
    kernel: &mut Kernel,
    pid: u32,
    reads: bool,
    writes: bool,
    aside: Option<usize>,
    child: u32,
) -> Result<Forked, NoMemory>
    ensures state { (s : KernelState) → StandsAt kernel.old s → IfOk result (λ made.
        HasForked kernel.new made.child made.aside (with_child pid reads writes aside child s)) }
    ensures terminal { kernel.new.terminal ≡ kernel.old.terminal }
    ensures watch { kernel.new.watch ≡ kernel.old.watch }
{
    connect(kernel, child, reads, writes)?;
    let_go(kernel, pid);
    Ok(Forked {
        child: Some(child),
        aside,
    })
}

/// No process can be made.
#[tactic(auto, unfolding(crate::specs::Forking::without_child))]
fn give_up(kernel: &mut Kernel, pid: u32, aside: Option<usize>) -> Forked
    ensures state { (s : KernelState) → StandsAt kernel.old s
        → HasForked kernel.new result.child result.aside (without_child pid aside s) }
    ensures terminal { kernel.new.terminal ≡ kernel.old.terminal }
    ensures watch { kernel.new.watch ≡ kernel.old.watch }
{
    let_go(kernel, pid);
    drop_aside(kernel, pid, aside);
    Forked {
        child: None,
        aside: None,
    }
}

/// Makes the process, once its pipes are there.
#[tactic(auto, unfolding(crate::specs::Forking::fork_between))]
fn fork_between(
    kernel: &mut Kernel,
    pid: u32,
    reads: bool,
    writes: bool,
    aside: Option<usize>,
) -> Result<Forked, NoMemory>
    ensures state { (s : KernelState) → StandsAt kernel.old s → IfOk result (λ made.
        HasForked kernel.new made.child made.aside (fork_between s pid reads writes aside)) }
    ensures terminal { kernel.new.terminal ≡ kernel.old.terminal }
    ensures watch { kernel.new.watch ≡ kernel.old.watch }
{
    match kernel.fork(pid) {
        Ok(child) => {
            let forked = join(kernel, pid, reads, writes, aside, child)?;
            Ok(forked)
        }
        Err(KernelFault::NoMemory(lack)) => Err(lack),
        Err(_) => Ok(give_up(kernel, pid, aside)),
    }
}

/// Makes a process (XCU 2.9.2, 2.6.3). Its descriptor 0 is the end of a pipe that the maker has set aside
/// (`before`), if there is one. Where `writes`, its descriptor 1 is the end to write to of a new pipe, whose
/// end to read from is set aside in the maker. The only error is want of memory; what of this is done then is
/// left open.
#[tactic(auto, unfolding(crate::specs::Forking::fork_of))]
pub fn fork_process(
    kernel: &mut Kernel,
    pid: u32,
    before: Option<usize>,
    writes: bool,
) -> Result<Forked, NoMemory>
    ensures state { (s : KernelState) → StandsAt kernel.old s → IfOk result (λ made.
        HasForked kernel.new made.child made.aside (fork_of s pid before writes)) }
    ensures terminal { kernel.new.terminal ≡ kernel.old.terminal }
    ensures watch { kernel.new.watch ≡ kernel.old.watch }
{
    let aside = lay(kernel, pid, writes)?;
    take_up(kernel, pid, before);
    let forked = fork_between(kernel, pid, before.is_some(), writes, aside)?;
    Ok(forked)
}

/// Opens `/dev/null` at the number of an end to read from.
#[tactic(auto, unfolding(crate::specs::Forking::after_null))]
fn open_null(kernel: &mut Kernel, pid: u32, directory: &[u8]) -> Result<(), NoMemory>
    ensures state { (s : KernelState) → StandsAt kernel.old s
        → OnOk result (StandsAt kernel.new (after_null directory.now s pid)) }
    ensures terminal { kernel.new.terminal ≡ kernel.old.terminal }
    ensures watch { kernel.new.watch ≡ kernel.old.watch }
{
    let _told = open(
        kernel,
        pid,
        directory,
        b"/dev/null",
        TO_READ,
        false,
        READ_END,
    )?;
    Ok(())
}

/// Opens `/dev/null`, which the first process of an asynchronous list reads where there is no job control (XCU 2.9.3.1), and sets it aside:
/// [`fork_process`] takes it as the end before. The directory is of no account, since the path is absolute. The only error is want of
/// memory.
#[tactic(auto, unfolding(crate::specs::Forking::null_laid))]
pub fn lay_null_input(
    kernel: &mut Kernel,
    pid: u32,
    directory: &[u8],
) -> Result<Option<usize>, NoMemory>
    ensures state { (s : KernelState) → StandsAt kernel.old s → IfOk result (λ aside.
        HasLaid kernel.new aside (null_laid directory.now s pid)) }
    ensures terminal { kernel.new.terminal ≡ kernel.old.terminal }
    ensures watch { kernel.new.watch ≡ kernel.old.watch }
{
    open_null(kernel, pid, directory)?;
    Ok(set_aside(kernel, pid))
}
