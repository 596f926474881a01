//! One redirection.
ghost use Rattle.std.specs.Prelude.{◌≡◌, IfOk};
ghost use Rattle.sh_kernel.specs.Calls.{dup_call, here_call, open_call};
ghost use Rattle.sh_kernel.specs.State.{KernelState, StandsAt};
ghost use Rattle.sh_kernel_descriptors.specs.declared.descriptor.DescriptorRef.TheVariants.{Number};
ghost use Rattle.sh_exec_machine.specs.Redirecting.{HasAnswered, HasRedirected, beside, close_outcome, is_itself, with_undo, at_number, over, action_outcome, plainly, put_back, redirection_outcome};

use crate::undone::Undone;
use sh_base::NoMemory;
use sh_exec_parts::redirection::{Action, Redirection};
use sh_files::Opening;
use sh_kernel::Kernel;
use sh_kernel_descriptors::{DescriptorRef, KernelFault};

/// What a redirection answers.
#[derive(Clone, Copy, Debug)]
pub struct Redirected {
    /// Why it can't be done, if it can't.
    pub answer: Result<(), KernelFault>,
    /// How it is undone, where it is to be.
    pub undone: Option<Undone>,
}

/// A number refers to what a path names.
pub(crate) fn open(
    kernel: &mut Kernel,
    pid: u32,
    directory: &[u8],
    path: &[u8],
    how: Opening,
    append: bool,
    number: u8,
) -> Result<Result<(), KernelFault>, NoMemory>
    ensures state { (s : KernelState) → StandsAt kernel.old s → IfOk result (λ told.
        HasAnswered kernel.new told (open_call s pid directory.now path.now how append number)) }
    ensures terminal { kernel.new.terminal ≡ kernel.old.terminal }
    ensures watch { kernel.new.watch ≡ kernel.old.watch }
{
    match kernel.open(pid, directory, path, how, append, number) {
        Ok(()) => Ok(Ok(())),
        Err(KernelFault::NoMemory(lack)) => Err(lack),
        Err(fault) => Ok(Err(fault)),
    }
}

/// A number refers to what another one refers to.
fn duplicate(
    kernel: &mut Kernel,
    pid: u32,
    from: u8,
    number: u8,
) -> Result<Result<(), KernelFault>, NoMemory>
    ensures state { (s : KernelState) → StandsAt kernel.old s → IfOk result (λ told.
        HasAnswered kernel.new told (dup_call s pid (Number from) number)) }
    ensures terminal { kernel.new.terminal ≡ kernel.old.terminal }
    ensures watch { kernel.new.watch ≡ kernel.old.watch }
{
    match kernel.dup(pid, DescriptorRef::Number(from), number) {
        Ok(()) => Ok(Ok(())),
        Err(KernelFault::NoMemory(lack)) => Err(lack),
        Err(fault) => Ok(Err(fault)),
    }
}

/// A number refers to a here-document.
fn open_here(
    kernel: &mut Kernel,
    pid: u32,
    bytes: &[u8],
    number: u8,
) -> Result<Result<(), KernelFault>, NoMemory>
    ensures state { (s : KernelState) → StandsAt kernel.old s → IfOk result (λ told.
        HasAnswered kernel.new told (here_call s pid bytes.now number)) }
    ensures terminal { kernel.new.terminal ≡ kernel.old.terminal }
    ensures watch { kernel.new.watch ≡ kernel.old.watch }
{
    match kernel.here_document(pid, bytes, number) {
        Ok(()) => Ok(Ok(())),
        Err(KernelFault::NoMemory(lack)) => Err(lack),
        Err(fault) => Ok(Err(fault)),
    }
}

/// Closes a number, which may refer to nothing.
#[tactic(auto, unfolding(crate::specs::Redirecting::close_outcome))]
fn close(kernel: &mut Kernel, pid: u32, number: u8)
    ensures state { (s : KernelState) → StandsAt kernel.old s
        → HasAnswered kernel.new (Ok tt) (close_outcome s pid number) }
    ensures terminal { kernel.new.terminal ≡ kernel.old.terminal }
    ensures watch { kernel.new.watch ≡ kernel.old.watch }
{
    let _closed = kernel.close(pid, DescriptorRef::Number(number));
}

/// What a number then refers to.
#[tactic(auto, unfolding(crate::specs::Redirecting::action_outcome))]
fn place(
    kernel: &mut Kernel,
    pid: u32,
    directory: &[u8],
    number: u8,
    redirection: &Redirection,
) -> Result<Result<(), KernelFault>, NoMemory>
    ensures state { (s : KernelState) → StandsAt kernel.old s → IfOk result (λ told.
        HasAnswered kernel.new told (action_outcome s pid directory.now number redirection.now)) }
    ensures terminal { kernel.new.terminal ≡ kernel.old.terminal }
    ensures watch { kernel.new.watch ≡ kernel.old.watch }
{
    match &redirection.action {
        Action::Open { how, append } => {
            let path = redirection.word.as_slice();
            let told = open(kernel, pid, directory, path, *how, *append, number)?;
            Ok(told)
        }
        Action::Duplicate(None) => Ok(Err(KernelFault::BadDescriptor)),
        Action::Duplicate(Some(from)) => {
            let told = duplicate(kernel, pid, *from, number)?;
            Ok(told)
        }
        Action::Close => {
            close(kernel, pid, number);
            Ok(Ok(()))
        }
        Action::Here(bytes) => {
            let told = open_here(kernel, pid, bytes.as_slice(), number)?;
            Ok(told)
        }
    }
}

/// A redirection of a number that referred to nothing.
#[tactic(auto, unfolding(crate::specs::Redirecting::beside))]
fn put_beside(
    kernel: &mut Kernel,
    pid: u32,
    directory: &[u8],
    number: u8,
    redirection: &Redirection,
) -> Result<Redirected, NoMemory>
    ensures state { (s : KernelState) → StandsAt kernel.old s → IfOk result (λ r.
        HasRedirected kernel.new r.answer r.undone
        (beside s pid directory.now number redirection.now)) }
    ensures terminal { kernel.new.terminal ≡ kernel.old.terminal }
    ensures watch { kernel.new.watch ≡ kernel.old.watch }
{
    match place(kernel, pid, directory, number, redirection)? {
        Ok(()) => Ok(Redirected {
            answer: Ok(()),
            undone: Some(Undone::Close(number)),
        }),
        Err(fault) => Ok(Redirected {
            answer: Err(fault),
            undone: None,
        }),
    }
}

/// What was set aside comes back.
#[tactic(auto, unfolding(crate::specs::Redirecting::put_back))]
fn put_back(kernel: &mut Kernel, pid: u32, aside: usize, number: u8)
    ensures state { (s : KernelState) → StandsAt kernel.old s
        → StandsAt kernel.new (put_back s pid aside number) }
    ensures terminal { kernel.new.terminal ≡ kernel.old.terminal }
    ensures watch { kernel.new.watch ≡ kernel.old.watch }
{
    let _put_back = kernel.put_back(pid, aside, number);
}

/// A redirection of a number whose description was set aside.
#[tactic(auto, unfolding(crate::specs::Redirecting::over))]
fn put_over(
    kernel: &mut Kernel,
    pid: u32,
    directory: &[u8],
    number: u8,
    redirection: &Redirection,
    aside: usize,
) -> Result<Redirected, NoMemory>
    ensures state { (s : KernelState) → StandsAt kernel.old s → IfOk result (λ r.
        HasRedirected kernel.new r.answer r.undone
        (over s pid directory.now number redirection.now aside)) }
    ensures terminal { kernel.new.terminal ≡ kernel.old.terminal }
    ensures watch { kernel.new.watch ≡ kernel.old.watch }
{
    match place(kernel, pid, directory, number, redirection)? {
        Ok(()) => Ok(Redirected {
            answer: Ok(()),
            undone: Some(Undone::Restore { aside, number }),
        }),
        Err(fault) => {
            put_back(kernel, pid, aside, number);
            Ok(Redirected {
                answer: Err(fault),
                undone: None,
            })
        }
    }
}

/// A redirection that is undone later.
#[tactic(auto, unfolding(crate::specs::Redirecting::with_undo))]
fn keep(
    kernel: &mut Kernel,
    pid: u32,
    directory: &[u8],
    number: u8,
    redirection: &Redirection,
) -> Result<Redirected, NoMemory>
    ensures state { (s : KernelState) → StandsAt kernel.old s → IfOk result (λ r.
        HasRedirected kernel.new r.answer r.undone
        (with_undo s pid directory.now number redirection.now)) }
    ensures terminal { kernel.new.terminal ≡ kernel.old.terminal }
    ensures watch { kernel.new.watch ≡ kernel.old.watch }
{
    match kernel.set_aside(pid, number) {
        Ok(aside) => {
            let redirected = put_over(kernel, pid, directory, number, redirection, aside)?;
            Ok(redirected)
        }
        Err(_) => {
            let redirected = put_beside(kernel, pid, directory, number, redirection)?;
            Ok(redirected)
        }
    }
}

/// Whether an action makes a number refer to what it refers to already.
fn is_itself(number: u8, action: &Action) -> bool
    ensures { result ≡ is_itself number action.now }
{
    match action {
        Action::Open { .. } => false,
        Action::Duplicate(None) => false,
        Action::Duplicate(Some(from)) => *from == number,
        Action::Close => false,
        Action::Here(_) => false,
    }
}

/// The redirection of a number.
#[tactic(auto, unfolding(crate::specs::Redirecting::at_number))]
fn redirect_number(
    kernel: &mut Kernel,
    pid: u32,
    directory: &[u8],
    number: u8,
    redirection: &Redirection,
    keeps: bool,
) -> Result<Redirected, NoMemory>
    ensures state { (s : KernelState) → StandsAt kernel.old s → IfOk result (λ r.
        HasRedirected kernel.new r.answer r.undone
        (at_number keeps s pid directory.now number redirection.now)) }
    ensures terminal { kernel.new.terminal ≡ kernel.old.terminal }
    ensures watch { kernel.new.watch ≡ kernel.old.watch }
{
    if keeps && !is_itself(number, &redirection.action) {
        let redirected = keep(kernel, pid, directory, number, redirection)?;
        return Ok(redirected);
    }
    let answer = place(kernel, pid, directory, number, redirection)?;
    Ok(Redirected {
        answer,
        undone: None,
    })
}

/// One redirection (XCU 2.7) of a process, whose relative paths go from a working directory. Where `keeps`, what its
/// number referred to is set aside, for [`end_redirections`](crate::end_redirections).
///
/// Its answer says why it can't be done: a number above 9, or what is no open descriptor (`BadDescriptor`),
/// or the refusal of a file; what was set aside gets its number back then. The only error is want of memory;
/// what of this is done then is left open.
#[tactic(auto, unfolding(crate::specs::Redirecting::redirection_outcome))]
pub fn redirect(
    kernel: &mut Kernel,
    pid: u32,
    directory: &[u8],
    redirection: &Redirection,
    keeps: bool,
) -> Result<Redirected, NoMemory>
    ensures state { (s : KernelState) → StandsAt kernel.old s → IfOk result (λ r.
        HasRedirected kernel.new r.answer r.undone
        (redirection_outcome keeps s pid directory.now redirection.now)) }
    ensures terminal { kernel.new.terminal ≡ kernel.old.terminal }
    ensures watch { kernel.new.watch ≡ kernel.old.watch }
{
    match redirection.number {
        None => Ok(Redirected {
            answer: Err(KernelFault::BadDescriptor),
            undone: None,
        }),
        Some(number) => {
            let redirected = redirect_number(kernel, pid, directory, number, redirection, keeps)?;
            Ok(redirected)
        }
    }
}
