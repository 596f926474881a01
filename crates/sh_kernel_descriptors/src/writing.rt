//! Writes, over the parts that they change.
ghost use Rattle.sh_base.specs.Memory.{no_memory};
ghost use Rattle.std.specs.Prelude.{◌≡◌, ◌≢◌, ◌==◌, ℕ, false, IfErr, ◌<◌, length, slice_get};
ghost use Rattle.sh_kernel_descriptors.specs.Closings.{Pipes};
ghost use Rattle.sh_kernel_descriptors.specs.Kept.{PipesAgree, pipe_kept};
ghost use Rattle.sh_kernel_descriptors.specs.Outcomes.{Gives, GivesOrLacks, GivesTo, LacksWhereGiven};
ghost use Rattle.sh_kernel_descriptors.specs.Writing as writing;

use crate::channel::Channel;
use crate::fault::{KernelFault, fault_of_file, fault_of_pipe};
use sh_files::{FileFault, Files, MAX_LENGTH, Node};
use std::collections::BTreeMap;

/// The length of a file.
fn size_of(files: &Files, node: usize) -> usize
    ensures { result ≡ writing.size_of (slice_get files.now.nodes node) }
{
    match files.node(node) {
        Some(Node::File(file)) => file.bytes().len(),
        _ => 0,
    }
}

/// Where a write begins.
pub fn write_start(files: &Files, node: usize, append: bool, offset: usize) -> usize
    ensures { result ≡ writing.write_start files.now node append offset }
{
    if append {
        return size_of(files, node);
    }
    offset
}

/// Writes bytes into a file, and says where they end. `File` with the files' refusal, else `NoMemory`; the
/// files are as they were then.
pub fn write_node(
    files: &mut Files,
    node: usize,
    start: usize,
    bytes: &[u8],
) -> Result<usize, KernelFault>
    requires { 0 < length bytes.now }
    ensures call { GivesOrLacks result files.old files.new
        (writing.write_node files.old node start bytes.now) }
    ensures room { LacksWhereGiven result (writing.write_node files.old node start bytes.now) }
{
    if bytes.len() > MAX_LENGTH || start > MAX_LENGTH - bytes.len() {
        return Err(fault_of_file(FileFault::TooLarge));
    }
    match files.write(node, start, bytes) {
        Ok(()) => Ok(start + bytes.len()),
        Err(fault) => Err(fault_of_file(fault)),
    }
}

/// Writes to the pipe of a number, which has a reader.
fn write_to(
    pipes: &mut BTreeMap<usize, Channel>,
    pipe: usize,
    bytes: &[u8],
) -> Result<usize, KernelFault>
    ensures memory { IfErr result (λ fault. fault ≢ KernelFault.NoMemory no_memory) }
    ensures gives { Gives result (pipe_kept pipes.new.entries pipe)
        (writing.write_slot bytes.now (pipe_kept pipes.old.entries pipe)) }
    ensures others { (p : ℕ) → (pipe == p) ≡ false
        → pipe_kept pipes.new.entries p ≡ pipe_kept pipes.old.entries p }
{
    let Some(channel) = pipes.get_mut(&pipe) else {
        return Err(KernelFault::BadDescriptor);
    };
    match channel.write(bytes, true) {
        Ok(count) => Ok(count),
        Err(fault) => Err(fault_of_pipe(fault)),
    }
}

/// Writes to the pipe of a number, which has a reader, and says how many bytes went. `BadDescriptor` where
/// there is no such pipe; `WouldWait` where it has no room.
pub fn write_pipe(
    pipes: &mut BTreeMap<usize, Channel>,
    pipe: usize,
    bytes: &[u8],
) -> Result<usize, KernelFault>
    ensures memory { IfErr result (λ fault. fault ≢ KernelFault.NoMemory no_memory) }
    ensures gives { (ps : Pipes) → PipesAgree pipes.old.entries ps
        → GivesTo (PipesAgree pipes.new.entries) result (writing.write_pipe ps pipe bytes.now) }
{
    write_to(pipes, pipe, bytes)
}
