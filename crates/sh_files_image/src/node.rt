// Nodes.
ghost use Rattle.std.specs.Prelude.{◌≡◌, ◌+◌, ◌≤◌, ◌^◌, ◌++◌, IfOk, OnOk, OnErr, take, drop, length};
ghost use Rattle.sh_files_image.specs.Contents.{content_after_write};

use std::alloc::{AllocError, Global};
use std::marker::Model;

/// The longest file, in bytes.
pub const MAX_LENGTH: usize = 1 << 30;

/// What may be done with a file (the owner's bits of XBD `<sys/stat.h>`).
#[derive(Clone, Copy, Debug, PartialEq, Eq)]
pub struct Flags {
    /// It may be read.
    pub read: bool,
    /// It may be written.
    pub write: bool,
    /// It may be executed.
    pub execute: bool,
}

/// A regular file: its flags and its bytes.
#[derive(Drop)]
pub struct File {
    flags: Flags,
    bytes: Vec<u8>,
}

impl Model for File {
    ghost use Rattle.sh_files_image.specs.Contents.{Regular};

    ghost Value = { Regular };

    ghost view = { λ file. record { flags = file.flags; bytes = file.bytes.items } };
}

/// What a path names.
#[derive(Drop)]
pub enum Node {
    /// A directory; what it holds are the paths below its own.
    Directory,
    /// A regular file.
    File(File),
    /// The null device: it is always at its end, and takes all that is written to it.
    Null,
    /// The terminal; its bytes aren't kept here.
    Terminal,
}

impl File {
    /// A file of these bytes.
    pub fn new(flags: Flags, bytes: Vec<u8>) -> File
        ensures { result ≡ record { flags = flags; bytes = bytes.items } }
    {
        File { flags, bytes }
    }

    /// A copy, which is equal. The only error is want of memory.
    pub fn copy(&self, alloc: Global) -> Result<File, AllocError>
        ensures { IfOk result (λ copy. copy ≡ self.now) }
    {
        let bytes = Vec::from_slice(alloc, &self.bytes)?;
        Ok(File {
            flags: self.flags,
            bytes,
        })
    }

    /// What may be done with it.
    pub fn flags(&self) -> Flags
        ensures { result ≡ self.now.flags }
    {
        self.flags
    }

    /// Its bytes.
    pub fn bytes(&self) -> &[u8]
        ensures { result.now ≡ self.now.bytes }
    {
        self.bytes.as_slice()
    }

    /// Writes bytes at an offset; where the file ends before it, NUL bytes fill the gap (XSH write). A write
    /// of no bytes changes nothing. The only error is want of memory, after which nothing has changed.
    pub fn write(&mut self, offset: usize, bytes: &[u8]) -> Result<(), AllocError>
        requires { offset + length bytes.now ≤ 2 ^ 30 }
        ensures ok { OnOk result
            (self.new ≡ record self.old
            { bytes = content_after_write self.old.bytes offset bytes.now }) }
        ensures err { OnErr result (self.new ≡ self.old) }
    {
        write_at(&mut self.bytes, offset, bytes)
    }

    /// Cuts the file to a length, if it is longer.
    pub fn truncate(&mut self, length: usize)
        ensures { self.new ≡ record self.old { bytes = take length self.old.bytes } }
    {
        self.bytes.truncate(length);
    }
}

impl Node {
    /// A copy, which is equal. The only error is want of memory.
    pub fn copy(&self, alloc: Global) -> Result<Node, AllocError>
        ensures { IfOk result (λ copy. copy ≡ self.now) }
    {
        match self {
            Node::Directory => Ok(Node::Directory),
            Node::File(file) => Ok(Node::File(file.copy(alloc)?)),
            Node::Null => Ok(Node::Null),
            Node::Terminal => Ok(Node::Terminal),
        }
    }
}

/// Writes these bytes at this place.
fn write_at(content: &mut Vec<u8>, offset: usize, bytes: &[u8]) -> Result<(), AllocError>
    requires { offset + length bytes.now ≤ 2 ^ 30 }
    ensures ok { OnOk result
        (content.new.items ≡ content_after_write content.old.items offset bytes.now) }
    ensures err { OnErr result (content.new.items ≡ content.old.items) }
{
    if bytes.is_empty() {
        return Ok(());
    }
    let end = offset + bytes.len();
    if content.len() < end {
        content.resize(end, 0)?;
    }
    paste(content.as_mut_slice(), offset, bytes);
    Ok(())
}

/// Writes these bytes over those at this place.
fn paste(content: &mut [u8], offset: usize, bytes: &[u8])
    requires { offset + length bytes.now ≤ length content.old }
    ensures { content.new ≡ take offset content.old ++ bytes.now
        ++ drop (offset + length bytes.now) content.old }
{
    content[offset..offset + bytes.len()].copy_from_slice(bytes);
}
