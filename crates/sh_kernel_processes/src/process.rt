//! Processes.

/// Whether a process runs, is stopped or has ended (XCU `wait`, XBD `<sys/wait.h>`).
#[derive(Clone, Copy, Debug, PartialEq, Eq)]
pub enum Status {
    /// It has not ended and is not stopped.
    Running,
    /// It is stopped by the signal of this number.
    Stopped(u8),
    /// It has ended by itself, with this exit status.
    Exited(u8),
    /// It was ended by the signal of this number.
    Signaled(u8),
}

/// A process. Its number is 100 plus its place in the list of all processes that ever were.
#[derive(Clone, Copy, Debug, PartialEq, Eq)]
pub struct Process {
    /// The number of the process that made it.
    pub maker: u32,
    /// Whether it runs, is stopped or has ended.
    pub status: Status,
}
