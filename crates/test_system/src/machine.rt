//! `machine pipes ANSWER`, `machine redirects ANSWER`: processes between pipes, and a redirection that is undone.
use crate::calls::opening;
use crate::steps::truth;
use sh_base::sequence::Sequence;
use sh_exec_machine::{end_redirections, fork_process, redirect};
use sh_exec_parts::redirection::{Action, Redirection};
use sh_files::Files;
use sh_kernel::{DescriptorRef, Kernel, KernelFault};
use std::alloc::{AllocError, Global};
use test_rows::RowFault;

/// The first process, which is the shell.
const SHELL: u32 = 100;

/// Whether a reader behind a writer waits for it, gets its bytes, and then the end of the file.
fn pipes(kernel: &mut Kernel) -> bool {
    let Ok(writer) = fork_process(kernel, SHELL, None, true) else {
        return false;
    };
    let Ok(reader) = fork_process(kernel, SHELL, writer.aside, false) else {
        return false;
    };
    let mut buffer = [0u8; 4];
    writer.child == Some(101)
        && reader.child == Some(102)
        && reader.aside.is_none()
        && kernel.read(102, DescriptorRef::Number(0), &mut buffer) == Err(KernelFault::WouldWait)
        && kernel.write(101, 1, b"ab") == Ok(2)
        && kernel.end(101, 0) == Ok(())
        && kernel.read(102, DescriptorRef::Number(0), &mut buffer) == Ok(2)
        && kernel.read(102, DescriptorRef::Number(0), &mut buffer) == Ok(0)
}

/// Whether `1>f` in the shell moves its output, and undoing it moves it back.
fn redirects(alloc: Global, kernel: &mut Kernel) -> Result<bool, AllocError> {
    let mut word = Sequence::new(alloc);
    word.extend_from_slice(b"f")?;
    let action = Action::Open {
        how: opening(b"w", 0),
        append: false,
    };
    let redirection = Redirection {
        number: Some(1),
        action,
        word,
    };
    let Ok(redirected) = redirect(kernel, SHELL, b"/", &redirection, true) else {
        return Ok(false);
    };
    let Some(undone) = redirected.undone else {
        return Ok(false);
    };
    let mut all = Sequence::new(alloc);
    all.push(undone)?;
    let moved = !kernel.is_terminal(SHELL, 1);
    end_redirections(kernel, SHELL, all, false);
    Ok(moved && kernel.is_terminal(SHELL, 1))
}

/// What comes of it.
pub(crate) fn outcome(alloc: Global, what: &[u8]) -> Result<Vec<u8>, RowFault> {
    let files = Files::new(alloc)?;
    let mut kernel = Kernel::new(alloc, files)?;
    let right = if what == b"pipes".as_slice() {
        Ok(pipes(&mut kernel))
    } else {
        redirects(alloc, &mut kernel)
    };
    drop(kernel);
    Ok(truth(right?).to_vec(alloc)?)
}
