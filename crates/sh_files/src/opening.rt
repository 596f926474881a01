// How files are opened.

/// What a file is opened for (XSH open). It says nothing of where writes go: one that appends is a write at the file's
/// length.
#[derive(Clone, Copy, Debug, PartialEq, Eq)]
pub struct Opening {
    /// To read it (`O_RDONLY`, `O_RDWR`).
    pub read: bool,
    /// To write it (`O_WRONLY`, `O_RDWR`).
    pub write: bool,
    /// To make a regular file where nothing is there (`O_CREAT`).
    pub create: bool,
    /// To refuse a regular file that is there already, as `>` does under `set -C` (XCU 2.7.2).
    pub exclusive: bool,
    /// To let a regular file's bytes go (`O_TRUNC`), which needs leave to write.
    pub truncate: bool,
}
