//! The messages of `wait`.
ghost use Rattle.std.specs.Prelude.{◌≡◌, IfOk, codes};
ghost use Rattle.sh_builtin_jobs.specs.Messages.{fault_text, message_about};

use sh_base::NoMemory;
use sh_base::sequence::{Sequence, Text};
use sh_jobs::JobFault;
use std::alloc::Global;

/// What is said of a job ID that names no job.
fn fault_text(fault: JobFault) -> &'static [u8]
    ensures { result.now ≡ fault_text fault }
{
    match fault {
        JobFault::NoSuchJob => b"no such job",
        JobFault::Ambiguous => b"ambiguous",
    }
}

/// The line of a message about an operand that names no job.
pub(crate) fn no_job(alloc: Global, operand: &[u8], fault: JobFault) -> Result<Text, NoMemory>
    ensures { IfOk result (λ line. line ≡ message_about (codes "wait") operand.now (fault_text fault)) }
{
    let mut line = Sequence::new(alloc);
    line.extend_from_slice(b"psh: wait: ")?;
    line.extend_from_slice(operand)?;
    line.extend_from_slice(b": ")?;
    line.extend_from_slice(fault_text(fault))?;
    line.push(b'\n')?;
    Ok(line)
}
