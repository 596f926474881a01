//! Reads, over the parts that they change.
ghost use Rattle.std.specs.Prelude.{IfOk, ◌≡◌, ◌+◌, ◌-◌, ◌≤◌, ◌<◌, ◌++◌, ◌==◌, ℕ, List, false, length, take, drop};
ghost use Rattle.sh_kernel_descriptors.specs.Closings.{Pipes};
ghost use Rattle.sh_kernel_descriptors.specs.Kept.{Among, IsCounted, IsPaired, Linked, PipesAgree, pipe_kept};
ghost use Rattle.sh_kernel_descriptors.specs.Outcomes.{GivesRead, GivesReadTo};
ghost use Rattle.sh_kernel_descriptors.specs.declared.description.Description.{Description as TheDescription};
ghost use Rattle.sh_kernel_descriptors.specs.Reading as reading;

use crate::channel::Channel;
use crate::fault::{KernelFault, fault_of_pipe};
use crate::kept::{Entry, Held, move_to};
use sh_files::{Files, Node};
use slab::Slab;
use std::collections::BTreeMap;

/// Copies the bytes from an offset on, up to the buffer's length, and says how many.
fn copy_out(content: &[u8], offset: usize, buf: &mut [u8]) -> usize
    ensures count { result ≡ length (take (length buf.old) (drop offset content.now)) }
    ensures buffer { buf.new ≡ take (length buf.old) (drop offset content.now)
        ++ drop result buf.old }
    ensures content { offset + result ≤ offset + (length content.now - offset) }
    ensures within { result ≤ length buf.old }
{
    if offset >= content.len() {
        return 0;
    }
    let count = buf.len().min(content.len() - offset);
    buf[..count].copy_from_slice(&content[offset..offset + count]);
    count
}

/// Reads a file from an offset on, and moves the offset by as many bytes.
fn read_content(content: &[u8], offset: &mut usize, buf: &mut [u8]) -> usize
    ensures buffer { buf.new ≡ take (length buf.old) (drop offset.old content.now)
        ++ drop result buf.old }
    ensures count { result ≡ length (take (length buf.old) (drop offset.old content.now)) }
    ensures offset { offset.new ≡ offset.old + result }
    ensures within { result ≤ length buf.old }
{
    let count = copy_out(content, *offset, buf);
    *offset += count;
    count
}

/// Reads a file by the number of its node.
fn read_node(
    files: &Files,
    node: usize,
    offset: &mut usize,
    buf: &mut [u8],
) -> Result<usize, KernelFault>
    ensures gives { GivesRead result buf.old buf.new offset.new
        (reading.read_node files.now node offset.old (length buf.old)) }
    ensures within { IfOk result (λ n. n ≤ length buf.old) }
{
    match files.node(node) {
        Some(Node::File(file)) => Ok(read_content(file.bytes(), offset, buf)),
        Some(Node::Null) => Ok(0),
        _ => Err(KernelFault::BadDescriptor),
    }
}

/// Reads a file from an offset on, and moves the offset of the description to which a descriptor refers by as many bytes.
/// `File` with the files' refusal; nothing has changed then.
pub fn read_file(
    files: &Files,
    entries: &mut Slab<Entry>,
    h: Held,
    node: usize,
    offset: usize,
    buf: &mut [u8],
) -> Result<usize, KernelFault>
    ensures counted { (hs : List Held) → IsCounted entries.old hs → IsCounted entries.new hs }
    ensures paired { (made : ℕ) → IsPaired made entries.old → IsPaired made entries.new }
    ensures gives { (hs : List Held) (es : List TheDescription) → Among h hs → Linked hs entries.old es
        → GivesReadTo (Linked hs entries.new) result buf.old buf.new
        (reading.read_file files.now es h.descriptor.description node offset (length buf.old)) }
    ensures within { IfOk result (λ n. n ≤ length buf.old) }
{
    let mut place = offset;
    let result = read_node(files, node, &mut place, buf);
    move_to(entries, h, place);
    result
}

/// Reads from the pipe of a number.
fn read_at(
    pipes: &mut BTreeMap<usize, Channel>,
    pipe: usize,
    writer: bool,
    buf: &mut [u8],
) -> Result<usize, KernelFault>
    ensures gives { GivesRead result buf.old buf.new (pipe_kept pipes.new.entries pipe)
        (reading.read_slot writer (length buf.old) (pipe_kept pipes.old.entries pipe)) }
    ensures others { (p : ℕ) → (pipe == p) ≡ false
        → pipe_kept pipes.new.entries p ≡ pipe_kept pipes.old.entries p }
    ensures within { IfOk result (λ n. n ≤ length buf.old) }
{
    let Some(channel) = pipes.get_mut(&pipe) else {
        return Err(KernelFault::BadDescriptor);
    };
    match channel.read_into(buf, writer) {
        Ok(count) => Ok(count),
        Err(fault) => Err(fault_of_pipe(fault)),
    }
}

/// Reads from the pipe of a number. `BadDescriptor` where there is no such pipe; `WouldWait` where it is
/// empty and has a writer.
pub fn read_pipe(
    pipes: &mut BTreeMap<usize, Channel>,
    pipe: usize,
    writer: bool,
    buf: &mut [u8],
) -> Result<usize, KernelFault>
    ensures gives { (ps : Pipes) → PipesAgree pipes.old.entries ps
        → GivesReadTo (PipesAgree pipes.new.entries) result buf.old buf.new
        (reading.read_pipe ps pipe writer (length buf.old)) }
    ensures within { IfOk result (λ n. n ≤ length buf.old) }
{
    read_at(pipes, pipe, writer, buf)
}
