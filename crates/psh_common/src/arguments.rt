//! The words that a program is called with.
use crate::fault::{UsageFault, usage};
use std::env::{Env, FillError};

/// The first size of the space that an argument is read into, in bytes.
const FIRST_SIZE: usize = 4096;

/// An argument of the program, the first being its name; none where there are fewer. It may be any bytes.
fn argument(rt: &HostRuntime, program: &str, place: usize) -> Result<Option<Vec<u8>>, UsageFault> {
    let mut size = FIRST_SIZE;
    for _ in 0..usize::BITS {
        let mut bytes = Vec::new(rt.alloc());
        bytes.resize(size, 0u8)?;
        match rt.arg(place, &mut bytes) {
            Ok(length) => {
                bytes.truncate(length);
                return Ok(Some(bytes));
            },
            Err(FillError::NotPresent) => return Ok(None),
            Err(FillError::TooLong) => size = size.saturating_mul(2),
        }
    }
    Err(usage(rt.alloc(), program, "an argument is too long"))
}

/// The words of the command line after the program's name. Each may be any bytes. The error is that one is too long for the memory's addresses, or want of
/// memory.
pub fn words(rt: &HostRuntime, program: &str) -> Result<Vec<Vec<u8>>, UsageFault> {
    let mut words = Vec::new(rt.alloc());
    for place in 1..usize::MAX {
        match argument(rt, program, place)? {
            Some(word) => words.push(word)?,
            None => break,
        }
    }
    Ok(words)
}
