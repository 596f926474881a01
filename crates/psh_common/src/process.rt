//! The line that tells how a process stands.
ghost use Rattle.std.specs.Prelude.{◌≡◌, ◌++◌, OnOk, decimal};
ghost use Rattle.psh_common.specs.Processes.{process_line, words_of};

use itoa::Buffer;
use sh_base::NoMemory;
use sh_kernel_processes::Status;

/// A word, and a number behind it.
fn put_number(text: &mut Vec<u8>, word: &[u8], number: u8) -> Result<(), NoMemory>
    ensures { OnOk result (text.new.items ≡ text.old.items ++ word.now ++ decimal number) }
{
    let mut digits = Buffer::new();
    text.extend_from_slice(word)?;
    text.extend_from_slice(digits.format(number).as_bytes())?;
    Ok(())
}

/// How a process stands.
fn put_status(text: &mut Vec<u8>, status: Status) -> Result<(), NoMemory>
    ensures { OnOk result (text.new.items ≡ text.old.items ++ words_of status) }
{
    match status {
        Status::Running => {
            text.extend_from_slice(b"running")?;
            Ok(())
        },
        Status::Stopped(signal) => put_number(text, b"stopped ", signal),
        Status::Exited(status) => put_number(text, b"exited ", status),
        Status::Signaled(signal) => put_number(text, b"signaled ", signal),
    }
}

/// Adds the line of a process: `process 101 exited 0`, and a newline. Behind the number stands `running`, `exited` with its status, or `stopped` or
/// `signaled` with the number of the signal. The only error is want of memory, after which a part of the line may have been added.
pub fn put_process(text: &mut Vec<u8>, pid: u32, status: Status) -> Result<(), NoMemory>
    ensures { OnOk result (text.new.items ≡ text.old.items ++ process_line pid status) }
{
    let mut digits = Buffer::new();
    text.extend_from_slice(b"process ")?;
    text.extend_from_slice(digits.format(pid).as_bytes())?;
    text.push(b' ')?;
    put_status(text, status)?;
    text.push(b'\n')?;
    Ok(())
}
