// Asks and answers.
use sh_base::sequence::Text;

/// What a program asks of the machine that runs it.
#[derive(Drop)]
pub enum Ask {
    /// A read of at most this many bytes from file descriptor 0. The number is at least 1.
    Read(usize),
    /// A write of these bytes, at least one, to file descriptor 1.
    Write(Text),
    /// To be stopped, as by SIGSTOP. A machine may answer at once, as if the program were continued.
    Stop,
    /// Nothing: an idle turn.
    Idle,
    /// The program's end, with this exit status. No turn follows.
    End(u8),
}

/// What the machine answers to an ask.
#[derive(Drop)]
pub enum Answer {
    /// The program starts: its first turn.
    Started,
    /// What a read gave; no bytes at end of file.
    Bytes(Text),
    /// All bytes of a write are written, or an idle turn is over, or a stopped program is continued.
    Done,
    /// A read or a write failed.
    Failed,
}

/// The result of a turn.
#[derive(Drop)]
pub struct Turn<S> {
    /// The program, ready for the answer.
    pub program: S,
    /// What the program asks.
    pub ask: Ask,
}
