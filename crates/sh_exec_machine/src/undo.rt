//! The end of redirections.
ghost use Rattle.std.specs.Prelude.{◌≡◌, false, true};
ghost use Rattle.sh_kernel.specs.Calls.{close_call, put_back_call};
ghost use Rattle.sh_kernel.specs.State.{KernelState, StandsAt};
ghost use Rattle.sh_kernel_descriptors.specs.declared.descriptor.DescriptorRef.TheVariants.{Number};
ghost use Rattle.sh_exec_machine.specs.Undoing.{after_redirection, after_redirections, without_aside};

use crate::undone::Undone;
use sh_base::sequence::Sequence;
use sh_kernel::Kernel;
use sh_kernel_descriptors::DescriptorRef;

/// The number that a descriptor has while it is closed. No redirection has a number above 9.
const CLOSING: u8 = 10;

/// What was set aside gets that number.
fn number(kernel: &mut Kernel, pid: u32, aside: usize)
    ensures state { (s : KernelState) → StandsAt kernel.old s
        → StandsAt kernel.new (put_back_call s pid aside 10).after }
    ensures terminal { kernel.new.terminal ≡ kernel.old.terminal }
    ensures watch { kernel.new.watch ≡ kernel.old.watch }
{
    let _numbered = kernel.put_back(pid, aside, CLOSING);
}

/// What has that number is closed.
fn close_numbered(kernel: &mut Kernel, pid: u32)
    ensures state { (s : KernelState) → StandsAt kernel.old s
        → StandsAt kernel.new (close_call s pid (Number 10)).after }
    ensures terminal { kernel.new.terminal ≡ kernel.old.terminal }
    ensures watch { kernel.new.watch ≡ kernel.old.watch }
{
    let _closed = kernel.close(pid, DescriptorRef::Number(CLOSING));
}

/// What was set aside is closed, and nothing else of that description that is set aside.
fn close_aside(kernel: &mut Kernel, pid: u32, aside: usize)
    ensures state { (s : KernelState) → StandsAt kernel.old s
        → StandsAt kernel.new (without_aside s pid aside) }
    ensures terminal { kernel.new.terminal ≡ kernel.old.terminal }
    ensures watch { kernel.new.watch ≡ kernel.old.watch }
{
    number(kernel, pid, aside);
    close_numbered(kernel, pid);
}

/// One redirection that stays: what it had set aside is closed.
fn keep(kernel: &mut Kernel, pid: u32, undone: Undone)
    ensures state { (s : KernelState) → StandsAt kernel.old s
        → StandsAt kernel.new (after_redirection true pid undone s) }
    ensures terminal { kernel.new.terminal ≡ kernel.old.terminal }
    ensures watch { kernel.new.watch ≡ kernel.old.watch }
{
    match undone {
        Undone::Restore { aside, .. } => {
            close_aside(kernel, pid, aside);
        }
        Undone::Close(_) => {}
    }
}

/// Undoes one redirection.
fn restore(kernel: &mut Kernel, pid: u32, undone: Undone)
    ensures state { (s : KernelState) → StandsAt kernel.old s
        → StandsAt kernel.new (after_redirection false pid undone s) }
    ensures terminal { kernel.new.terminal ≡ kernel.old.terminal }
    ensures watch { kernel.new.watch ≡ kernel.old.watch }
{
    match undone {
        Undone::Restore { aside, number } => {
            let _put_back = kernel.put_back(pid, aside, number);
        }
        Undone::Close(number) => {
            let _closed = kernel.close(pid, DescriptorRef::Number(number));
        }
    }
}

/// One redirection ends.
fn end_redirection(kernel: &mut Kernel, pid: u32, undone: Undone, stays: bool)
    ensures state { (s : KernelState) → StandsAt kernel.old s
        → StandsAt kernel.new (after_redirection stays pid undone s) }
    ensures terminal { kernel.new.terminal ≡ kernel.old.terminal }
    ensures watch { kernel.new.watch ≡ kernel.old.watch }
{
    if stays {
        keep(kernel, pid, undone);
    } else {
        restore(kernel, pid, undone);
    }
}

/// Redirections of a process end, the last one first: they are undone (XCU 2.9.1), or where they `stay`, as those of `exec` (2.15), what
/// they had set aside is closed. Takes no memory.
#[tactic(auto, using(crate::proofs::Undoing::begins, crate::proofs::Undoing::goes_on, crate::proofs::Undoing::ends))]
pub fn end_redirections(kernel: &mut Kernel, pid: u32, undone: Sequence<Undone>, stay: bool)
    ensures state { (s : KernelState) → StandsAt kernel.old s
        → StandsAt kernel.new (after_redirections stay pid undone s) }
    ensures terminal { kernel.new.terminal ≡ kernel.old.terminal }
    ensures watch { kernel.new.watch ≡ kernel.old.watch }
{
    let mut undone = undone;
    'undone: while let Some(one) = undone.pop() {
        end_redirection(kernel, pid, one, stay);
    }
}
