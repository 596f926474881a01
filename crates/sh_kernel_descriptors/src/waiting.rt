//! Whether calls would wait.
ghost use Rattle.std.specs.Prelude.{◌≡◌, ℕ, List, length, slice_get};
ghost use Rattle.sh_kernel_descriptors.specs.Closings.{Pipes};
ghost use Rattle.sh_kernel_descriptors.specs.Kept.{PipesAgree, pipe_kept};
ghost use Rattle.sh_kernel_descriptors.specs.Reading.{read_pipe, read_slot};
ghost use Rattle.sh_kernel_descriptors.specs.Writing.{write_pipe, write_slot};
ghost use Rattle.sh_kernel_descriptors.specs.Waiting.{waits};

use crate::channel::Channel;
use std::collections::BTreeMap;

fn read_at_waits(pipes: &BTreeMap<usize, Channel>, pipe: usize, writer: bool) -> bool
    ensures { (n : ℕ) → result ≡ waits (read_slot writer n (pipe_kept pipes.now.entries pipe)).answer }
{
    match pipes.get(&pipe) {
        Some(channel) => channel.waits_to_read(writer),
        None => false,
    }
}

/// Whether a read from the pipe of a number would wait.
pub fn read_pipe_waits(pipes: &BTreeMap<usize, Channel>, pipe: usize, writer: bool) -> bool
    ensures { (ps : Pipes) → PipesAgree pipes.now.entries ps → (n : ℕ)
        → result ≡ waits (read_pipe ps pipe writer n).answer }
{
    read_at_waits(pipes, pipe, writer)
}

fn write_to_waits(pipes: &BTreeMap<usize, Channel>, pipe: usize, count: usize) -> bool
    ensures { (bytes : List ℕ) → length bytes ≡ count
        → result ≡ waits (write_slot bytes (pipe_kept pipes.now.entries pipe)).answer }
{
    match pipes.get(&pipe) {
        Some(channel) => channel.waits_to_write(count, true),
        None => false,
    }
}

/// Whether a write of so many bytes to the pipe of a number, which has a reader, would wait.
#[tactic(auto, using(crate::proofs::Slots::write_alike))]
pub fn write_pipe_waits(pipes: &BTreeMap<usize, Channel>, pipe: usize, count: usize) -> bool
    ensures { (ps : Pipes) → PipesAgree pipes.now.entries ps → (bytes : List ℕ)
        → length bytes ≡ count → result ≡ waits (write_pipe ps pipe bytes).answer }
{
    write_to_waits(pipes, pipe, count)
}
