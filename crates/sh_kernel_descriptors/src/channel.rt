//! Pipes that know how much they hold.
ghost use Rattle.std.specs.Prelude.{◌≡◌, ℕ, List, [], IfOk, length};
ghost use Rattle.sh_pipe.specs.Pipe.{after_read, after_write, read_buffer, read_result, write_result};
ghost use Rattle.sh_kernel_descriptors.specs.Waiting.{pipe_waits};

use sh_pipe::{PIPE_BUF, Pipe, PipeFault};
use std::alloc::{AllocError, Global};
use std::marker::Model;

/// How many bytes a pipe has room for.
pub const CAPACITY: usize = 4096;

/// A pipe, and beside it how many bytes it holds, so that one can ask whether a call would wait.
#[derive(Debug, Drop)]
pub struct Channel {
    pipe: Pipe,
    held: usize,
    capacity: usize,
}

impl Model for Channel {
    ghost use Rattle.std.specs.Prelude.{◌≡◌, length};
    ghost use Rattle.sh_pipe.specs.Pipe.{PipeState};

    ghost Value = { PipeState };

    ghost view = { λ c. c.pipe };

    ghost invariant = { λ c. (c.held ≡ length c.pipe.bytes) × (c.capacity ≡ c.pipe.capacity) };
}

impl Channel {
    /// An empty pipe. The only error is want of memory; no later call takes any.
    pub fn new(alloc: Global) -> Result<Self, AllocError>
        ensures { IfOk result (λ channel. channel ≡ record { bytes = []; capacity = 4096 }) }
    {
        let pipe = Pipe::new(alloc, CAPACITY)?;
        Ok(Channel {
            pipe,
            held: 0,
            capacity: CAPACITY,
        })
    }

    /// A pipe that holds the same bytes. The only error is want of memory; no later call takes any.
    pub fn copy(&self, alloc: Global) -> Result<Self, AllocError>
        ensures { IfOk result (λ copy. copy ≡ self.now) }
    {
        let pipe = self.pipe.copy(alloc)?;
        Ok(Channel {
            pipe,
            held: self.held,
            capacity: self.capacity,
        })
    }

    /// The pipe.
    pub fn pipe(&self) -> &Pipe
        ensures { result.now ≡ self.now }
    {
        &self.pipe
    }

    /// Reads as [`Pipe::read_into`] does.
    pub fn read_into(&mut self, buf: &mut [u8], has_writer: bool) -> Result<usize, PipeFault>
        ensures result { result ≡ read_result self.old (length buf.old) has_writer }
        ensures buffer { buf.new ≡ read_buffer self.old buf.old has_writer }
        ensures pipe { self.new ≡ after_read self.old (length buf.old) has_writer }
    {
        let count = self.pipe.read_into(buf, has_writer)?;
        self.held = self.held.saturating_sub(count);
        Ok(count)
    }

    /// Writes as [`Pipe::write`] does.
    pub fn write(&mut self, bytes: &[u8], has_reader: bool) -> Result<usize, PipeFault>
        ensures result { result ≡ write_result self.old bytes.now has_reader }
        ensures pipe { self.new ≡ after_write self.old bytes.now has_reader }
    {
        let count = self.pipe.write(bytes, has_reader)?;
        self.held += count;
        Ok(count)
    }

    /// Whether a read would wait.
    pub fn waits_to_read(&self, has_writer: bool) -> bool
        ensures { (n : ℕ) → result ≡ pipe_waits (read_result self.now n has_writer) }
    {
        self.held == 0 && has_writer
    }

    /// Whether a write of so many bytes would wait.
    pub fn waits_to_write(&self, count: usize, has_reader: bool) -> bool
        ensures { (bytes : List ℕ) → length bytes ≡ count
            → result ≡ pipe_waits (write_result self.now bytes has_reader) }
    {
        if !has_reader {
            return false;
        }
        let free = self.capacity.saturating_sub(self.held);
        if count <= PIPE_BUF {
            return free < count;
        }
        free == 0
    }
}

impl Clone for Channel {
    ghost is_clone = { λ channel copy. copy ≡ channel };

    fn clone(&self) -> Result<Self, AllocError> {
        self.copy(*self.pipe.ring().allocator())
    }
}
