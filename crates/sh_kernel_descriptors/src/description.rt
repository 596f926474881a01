//! Open file descriptions.

/// What is open.
#[derive(Clone, Copy, Debug, PartialEq, Eq)]
pub enum Target {
    /// The file whose node has this number.
    File(usize),
    /// The terminal.
    Terminal,
    /// The null device: it is at its end, and takes all that is written to it.
    Null,
    /// The end of the pipe of this number from which its bytes are read.
    ReadEnd(usize),
    /// The end of the pipe of this number to which bytes are written.
    WriteEnd(usize),
}

/// An open file description (XBD 3.243). Descriptors of several processes may refer to one.
#[derive(Clone, Copy, Debug, PartialEq, Eq)]
pub struct Description {
    /// What is open.
    pub target: Target,
    /// Where the next read or write of a file begins, in bytes.
    pub offset: usize,
    /// Whether each write of a file goes to its end (`O_APPEND`).
    pub append: bool,
    /// Whether it is open for reading.
    pub readable: bool,
    /// Whether it is open for writing.
    pub writable: bool,
}
