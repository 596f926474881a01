//! What is wrong with a command line.
use crate::text::bytes_of;
use clap::Error;
use clap::error::ErrorKind;
use std::alloc::{AllocError, AllocFailed, Global};

/// Why a program has nothing to do.
#[derive(Drop)]
pub enum UsageFault {
    /// The words are not in order; the text says how they should be, and ends with a newline.
    Usage { text: Vec<u8> },
    /// Help is asked for; this is its text.
    Help { text: Vec<u8> },
    /// No memory was found, by clap or here.
    OutOfMemory,
}

impl From<AllocError> for UsageFault {
    fn from(_error: AllocError) -> Self {
        UsageFault::OutOfMemory
    }
}

impl<T: Drop> From<AllocFailed<T>> for UsageFault {
    fn from(_error: AllocFailed<T>) -> Self {
        UsageFault::OutOfMemory
    }
}

/// The fault of a program's command line that this sentence tells: `psh: bad letters`, and a newline. Without memory it is
/// [`UsageFault::OutOfMemory`].
pub fn usage(alloc: Global, program: &str, sentence: &str) -> UsageFault {
    match line_of(alloc, program, sentence) {
        Ok(text) => UsageFault::Usage { text },
        Err(fault) => fault,
    }
}

/// A line of a program.
fn line_of(alloc: Global, program: &str, sentence: &str) -> Result<Vec<u8>, UsageFault> {
    let mut text = program.as_bytes().to_vec(alloc)?;
    text.extend_from_slice(b": ")?;
    text.extend_from_slice(sentence.as_bytes())?;
    text.push(b'\n')?;
    Ok(text)
}

/// What clap says of words that are not in order.
pub(crate) fn fault_of(alloc: Global, error: &Error) -> UsageFault {
    let text = match error.to_string(alloc) {
        Ok(text) => bytes_of(alloc, text.as_str()),
        Err(_) => return UsageFault::OutOfMemory,
    };
    match (error.kind(), text) {
        (ErrorKind::OutOfMemory, _) | (_, Err(_)) => UsageFault::OutOfMemory,
        (ErrorKind::DisplayHelp, Ok(text)) => UsageFault::Help { text },
        (_, Ok(text)) => UsageFault::Usage { text },
    }
}
