//! What the kernel answers to a built-in.
use sh_base::sequence::Text;
use sh_signal::Signal;

/// What the kernel answers to what a built-in asks.
#[derive(Debug, Drop)]
pub enum Answer {
    /// These bytes were read. There are none at the end of the file, and where the read failed.
    Bytes(Text),
    /// What is waited for has ended, with this status.
    Ended(u8),
    /// This signal has come, which the shell has caught.
    Caught(Signal),
    /// The signal was sent; whether there was a process that it could reach.
    Sent(bool),
    /// The job was sent CONT.
    Continued,
}
