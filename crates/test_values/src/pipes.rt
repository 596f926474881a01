//! Reads and writes of a pipe.
use crate::steps::{Acted, answers, bracketed, decimal, joined, number, repeated, said};
use sh_pipe::{Pipe, PipeFault};
use std::alloc::Global;
use test_rows::RowFault;

/// A pipe, and the buffer into which its bytes are read.
#[derive(Drop)]
struct Reading {
    pipe: Pipe,
    buffer: Vec<u8>,
}

/// What a read or a write answers.
fn moved(alloc: Global, count: Result<usize, PipeFault>) -> Result<Vec<u8>, RowFault> {
    match count {
        Ok(count) => decimal(alloc, count),
        Err(PipeFault::WouldWait) => said(alloc, "would wait"),
        Err(PipeFault::NoReader) => said(alloc, "no reader"),
    }
}

/// The bytes that a pipe's ring holds, and how many it has room for.
fn held(alloc: Global, pipe: &Pipe) -> Result<Vec<u8>, RowFault> {
    let ring = pipe.ring();
    let bytes = bracketed(alloc, &ring.to_vec(alloc)?)?;
    let room = decimal(alloc, ring.capacity())?;
    joined(alloc, &[&bytes, b" of ".as_slice(), &room])
}

impl Acted for Reading {
    fn act(&mut self, alloc: Global, word: &[u8], rest: &[u8]) -> Result<Vec<u8>, RowFault> {
        if word == b"fill".as_slice() {
            let bytes = repeated(alloc, b"x", number(rest))?;
            return moved(alloc, self.pipe.write(&bytes, true));
        }
        if word == b"write".as_slice() {
            return moved(alloc, self.pipe.write(rest, true));
        }
        if word == b"write-unread".as_slice() {
            return moved(alloc, self.pipe.write(rest, false));
        }
        if word == b"read".as_slice() {
            return moved(alloc, self.pipe.read_into(&mut self.buffer, true));
        }
        if word == b"read-last".as_slice() {
            return moved(alloc, self.pipe.read_into(&mut self.buffer, false));
        }
        if word == b"buffer".as_slice() {
            self.buffer = repeated(alloc, b".", number(rest))?;
            return said(alloc, "done");
        }
        if word == b"ring".as_slice() {
            return held(alloc, &self.pipe);
        }
        Ok(self.buffer.as_slice().to_vec(alloc)?)
    }
}

/// `pipe CAPACITY STEPS`: what the steps answer in a new pipe, or `no pipe`.
pub(crate) fn pipe(alloc: Global, capacity: &[u8], steps: &[u8]) -> Result<Vec<u8>, RowFault> {
    let Ok(pipe) = Pipe::new(alloc, number(capacity)) else {
        return said(alloc, "no pipe");
    };
    let buffer = Vec::new(alloc);
    let mut reading = Reading { pipe, buffer };
    let found = answers(alloc, &mut reading, steps);
    drop(reading);
    found
}
