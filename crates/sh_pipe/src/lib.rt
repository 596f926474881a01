//! One pipe: a list of bytes with a capacity, kept in a ring. Only making it takes memory.
#![tactic(auto)]

ghost use Rattle.std.specs.Prelude.{◌≡◌, ◌+◌, ◌++◌, ◌≤◌, [], IfOk, length};
ghost use Rattle.sh_pipe.specs.Pipe.{write_result, after_write, read_result, after_read, read_buffer};

use circular_buffer::HeapCircularBuffer;
use std::alloc::{AllocError, Global};
use std::marker::Model;
use thiserror::Error;

/// Why a call on a pipe did nothing. The pipe is as it was.
#[derive(Clone, Copy, Debug, PartialEq, Eq, Error)]
pub enum PipeFault {
    /// The call can't be done yet: there is nothing to read and a writer is left, or no room to write.
    #[error("the pipe would wait")]
    WouldWait,
    /// No reader is left (the writer is then sent SIGPIPE, or the write fails with EPIPE).
    #[error("the pipe has no reader")]
    NoReader,
}

/// The longest write that goes whole or not at all (`PIPE_BUF` of XBD `<limits.h>`).
pub const PIPE_BUF: usize = 512;

/// The bytes that were written and not yet read, the oldest first, in room for as many as the pipe may hold.
#[derive(Debug, Drop)]
pub struct Pipe {
    ring: HeapCircularBuffer<u8>,
}

impl Model for Pipe {
    ghost use Rattle.std.specs.Prelude.{◌≤◌, length};
    ghost use Rattle.sh_pipe.specs.Pipe.{PipeState};

    ghost Value = { PipeState };

    ghost view = { λ p. record { bytes = p.ring.items; capacity = p.ring.capacity } };

    ghost invariant = { λ p. length p.ring.items ≤ p.ring.capacity };
}

/// Puts bytes that fit behind those of a ring.
fn append(ring: &mut HeapCircularBuffer<u8>, bytes: &[u8])
    requires { length ring.old.items + length bytes.now ≤ ring.old.capacity }
    ensures items { ring.new.items ≡ ring.old.items ++ bytes.now }
    ensures capacity { ring.new.capacity ≡ ring.old.capacity }
{
    ring.fill_from_slice(bytes);
}

impl Pipe {
    /// An empty pipe with room for `capacity` bytes, all of which is taken now: no later call takes memory.
    /// In a pipe of less than `PIPE_BUF` bytes a write of at most `PIPE_BUF` bytes that is longer than the
    /// capacity always waits. The one error is want of memory.
    pub fn new(alloc: Global, capacity: usize) -> Result<Self, AllocError>
        ensures { IfOk result (λ p. p ≡ record { bytes = []; capacity = capacity }) }
    {
        let ring = HeapCircularBuffer::with_capacity(alloc, capacity)?;
        Ok(Pipe { ring })
    }

    /// A pipe with the same bytes and the same capacity. The one error is want of memory.
    pub fn copy(&self, alloc: Global) -> Result<Self, AllocError>
        ensures { IfOk result (λ copy. copy ≡ self.now) }
    {
        let mut ring = HeapCircularBuffer::with_capacity(alloc, self.ring.capacity())?;
        let (front, back) = self.ring.as_slices();
        append(&mut ring, front);
        append(&mut ring, back);
        Ok(Pipe { ring })
    }

    /// The ring that keeps the bytes: its items are the bytes, the oldest first, and its capacity is the pipe's.
    /// It is lent, and takes no memory.
    pub fn ring(&self) -> &HeapCircularBuffer<u8>
        ensures bytes { result.now.items ≡ self.now.bytes }
        ensures capacity { result.now.capacity ≡ self.now.capacity }
    {
        &self.ring
    }

    /// Reads what is there, up to the buffer's length, into the front of the buffer, and says how many bytes
    /// these are; 0 is end of file (XSH read). `has_writer` says whether a writer is left. The one error is
    /// `WouldWait`, where the pipe is empty and a writer is left.
    pub fn read_into(&mut self, buf: &mut [u8], has_writer: bool) -> Result<usize, PipeFault>
        ensures result { result ≡ read_result self.old (length buf.old) has_writer }
        ensures buffer { buf.new ≡ read_buffer self.old buf.old has_writer }
        ensures pipe { self.new ≡ after_read self.old (length buf.old) has_writer }
    {
        if self.ring.is_empty() && has_writer {
            return Err(PipeFault::WouldWait);
        }
        Ok(self.ring.read_into(buf))
    }

    /// Writes, and says how many bytes went: at most `PIPE_BUF` bytes go whole or wait; of a longer write as
    /// many go as there is room for, at least one (XSH write). `has_reader` says whether a reader is left.
    /// `NoReader` where none is left, else `WouldWait` where no byte can go.
    pub fn write(&mut self, bytes: &[u8], has_reader: bool) -> Result<usize, PipeFault>
        ensures result { result ≡ write_result self.old bytes.now has_reader }
        ensures pipe { self.new ≡ after_write self.old bytes.now has_reader }
    {
        if !has_reader {
            return Err(PipeFault::NoReader);
        }
        let free = self.ring.capacity() - self.ring.len();
        if free == 0 && !bytes.is_empty() || bytes.len() <= PIPE_BUF && free < bytes.len() {
            return Err(PipeFault::WouldWait);
        }
        Ok(self.ring.fill_from_slice(bytes))
    }
}
