//! Want of memory: the one refusal that any call which takes memory may answer. No other refusal becomes it.
use std::alloc::{AllocError, AllocFailed};
use thiserror::Error;

/// No memory was found. It is made from an allocator's refusal alone, an [`AllocError`] or an
/// [`AllocFailed`]. A function that answers it hands such a refusal on, except at the few places that
/// `scripts/find_made_refusals.py` lists. What the call was to change is as it was, unless the call says
/// otherwise.
#[derive(Clone, Copy, Debug, PartialEq, Eq, Error)]
#[error("out of memory")]
pub struct NoMemory {
    refusal: AllocError,
}

impl From<AllocError> for NoMemory {
    fn from(refusal: AllocError) -> NoMemory {
        NoMemory { refusal }
    }
}

impl<T: Drop> From<AllocFailed<T>> for NoMemory {
    fn from(failed: AllocFailed<T>) -> NoMemory {
        NoMemory {
            refusal: AllocError::from(failed),
        }
    }
}

impl From<NoMemory> for AllocError {
    fn from(lack: NoMemory) -> AllocError {
        lack.refusal
    }
}
