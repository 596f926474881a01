//! Why no job is found.
use thiserror::Error;

/// Why a word names no job (XBD chapter 3, Job ID).
#[derive(Clone, Copy, Debug, PartialEq, Eq, Error)]
pub enum JobFault {
    /// There is no such job.
    #[error("no such job")]
    NoSuchJob,
    /// The text fits two jobs or more.
    #[error("ambiguous")]
    Ambiguous,
}
