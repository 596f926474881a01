//! Finding and closing descriptors.
ghost use Rattle.std.specs.Prelude.{◌≡◌, ◌≤◌, ◌++◌, ℕ, List, None, Some, if◌then◌else◌, vec_len, vec_capacity};
ghost use Rattle.sh_kernel_descriptors.specs.Descriptors as names;
ghost use Rattle.sh_kernel_descriptors.specs.Closings as closings;
ghost use Rattle.sh_kernel_descriptors.specs.Closings.{Pipes};
ghost use Rattle.sh_kernel_descriptors.specs.Counts as counts;
ghost use Rattle.sh_kernel_descriptors.specs.Kept.{IsCounted, IsPaired, Linked, NoneOf, PipesAgree, listed, number_at, pipe_kept, target_at};
ghost use Rattle.sh_kernel_descriptors.specs.Gone.{Gone};
ghost use Rattle.slab.specs.Slab as slab;
ghost use Rattle.sh_kernel_descriptors.specs.declared.description.Description.{Description as TheDescription};

use crate::channel::Channel;
use crate::description::Target;
use crate::descriptor::{Closing, Descriptor, DescriptorRef};
use crate::kept::{Entry, Held, described, is_last, other_of, release};
use slab::Slab;
use std::collections::BTreeMap;

fn is_number(number: u8, of: Option<u8>) -> bool
    ensures { result ≡ names.is_number number of }
{
    of.is_some_and(|n| n == number)
}

/// Whether this is the name of a descriptor in its process.
fn is_called(name: DescriptorRef, d: &Descriptor) -> bool
    ensures { result ≡ names.is_called name d.now }
{
    match name {
        DescriptorRef::Number(number) => is_number(number, d.number),
        DescriptorRef::Aside(description) => d.number.is_none() && d.description == description,
    }
}

/// Whether a descriptor is the process's descriptor of this name.
pub(crate) fn is_named(pid: u32, name: DescriptorRef, d: &Descriptor) -> bool
    ensures { result ≡ names.is_named pid name d.now }
{
    d.pid == pid && is_called(name, d)
}

/// The process's descriptor of this name.
pub fn find(held: &[Held], pid: u32, name: DescriptorRef) -> Option<Held>
    ensures { result ≡ counts.find held.now pid name }
{
    held.iter()
        .find(|h| is_named(pid, name, &h.descriptor))
        .map(|h| *h)
}

/// What is open at a key.
fn target_at(entries: &Slab<Entry>, key: usize) -> Option<Target>
    ensures { result ≡ target_at entries.now key }
{
    Some(described(entries, key)?.target)
}

/// What is open at the other end of the pipe of which an end is at a key.
fn other_target(entries: &Slab<Entry>, key: usize) -> Option<Target>
    ensures { result ≡ counts.other_target entries.now key }
{
    target_at(entries, other_of(entries, key)?)
}

fn is_read_end(pipe: usize, target: Option<Target>) -> bool
    ensures { result ≡ counts.is_read_end pipe target }
{
    match target {
        Some(Target::ReadEnd(p)) => p == pipe,
        _ => false,
    }
}

fn is_write_end(pipe: usize, target: Option<Target>) -> bool
    ensures { result ≡ counts.is_write_end pipe target }
{
    match target {
        Some(Target::WriteEnd(p)) => p == pipe,
        _ => false,
    }
}

/// Whether some descriptor refers to the end to read from of a pipe whose end to write to is at a key. The two ends know
/// each other's keys, so no descriptors are gone through.
pub fn has_reader(entries: &Slab<Entry>, pipe: usize, key: usize) -> bool
    ensures { (made : ℕ) (held : List Held) (es : List TheDescription) → IsPaired made entries.now
        → IsCounted entries.now held → Linked held entries.now es
        → target_at entries.now key ≡ Some (Target.WriteEnd pipe)
        → result ≡ names.has_reader (listed held) es pipe }
{
    is_read_end(pipe, other_target(entries, key))
}

/// Whether some descriptor refers to the end to write to of a pipe whose end to read from is at a key.
pub fn has_writer(entries: &Slab<Entry>, pipe: usize, key: usize) -> bool
    ensures { (made : ℕ) (held : List Held) (es : List TheDescription) → IsPaired made entries.now
        → IsCounted entries.now held → Linked held entries.now es
        → target_at entries.now key ≡ Some (Target.ReadEnd pipe)
        → result ≡ names.has_writer (listed held) es pipe }
{
    is_write_end(pipe, other_target(entries, key))
}

/// Whether a descriptor is closed.
pub(crate) fn goes(pid: u32, closing: Closing, d: &Descriptor) -> bool
    ensures { result ≡ closings.goes pid closing d.now }
{
    match closing {
        Closing::Named(name) => is_named(pid, name, d),
        Closing::Asides => d.pid == pid && d.number.is_none(),
        Closing::All => d.pid == pid,
    }
}

fn stays(pid: u32, closing: Closing, h: &Held) -> bool
    ensures { result ≡ counts.stays pid closing h.now }
{
    !goes(pid, closing, &h.descriptor)
}

fn pipe_of(target: Target) -> Option<usize>
    ensures { result ≡ closings.pipe_of target }
{
    match target {
        Target::ReadEnd(pipe) => Some(pipe),
        Target::WriteEnd(pipe) => Some(pipe),
        _ => None,
    }
}

/// The number by creation of the pipe of which the description at a key is an end.
pub fn pipe_named(entries: &Slab<Entry>, key: usize) -> Option<usize>
    ensures { result ≡ number_at entries.now key }
{
    pipe_of(described(entries, key)?.target)
}

/// The pipe of an end, where the end goes and the other one isn't open.
fn ending_pipe(is_last: bool, is_open: bool, pipe: usize) -> Option<usize>
    ensures { result ≡ counts.ending_pipe is_last is_open pipe }
{
    if is_last && !is_open {
        return Some(pipe);
    }
    None
}

/// The pipe that goes with one descriptor less at a key: it was the last one of an end, and none refers to the other end.
fn ending(entries: &Slab<Entry>, key: usize) -> Option<usize>
    ensures { result ≡ counts.ending entries.now key }
{
    let last = is_last(entries, key);
    let other = other_target(entries, key);
    match target_at(entries, key)? {
        Target::File(_) => None,
        Target::Terminal => None,
        Target::Null => None,
        Target::ReadEnd(pipe) => ending_pipe(last, is_write_end(pipe, other), pipe),
        Target::WriteEnd(pipe) => ending_pipe(last, is_read_end(pipe, other), pipe),
    }
}

/// Removes a pipe, where there is one.
#[tactic(auto, using(crate::proofs::Ends::same_number))]
fn remove(pipes: &mut BTreeMap<usize, Channel>, ending: Option<usize>)
    ensures { (p : ℕ) → pipe_kept pipes.new.entries p ≡ (if counts.is_pipe p ending then None else pipe_kept pipes.old.entries p) }
{
    if let Some(pipe) = ending {
        let _ = pipes.remove(&pipe);
    }
}

/// Closes a descriptor, if it is one of those that go.
fn close_one(
    pid: u32,
    closing: Closing,
    h: &Held,
    entries: &mut Slab<Entry>,
    pipes: &mut BTreeMap<usize, Channel>,
)
    ensures at { (k : ℕ) → slab.get entries.new k
        ≡ (if counts.closes pid closing k h.now then counts.lowered (slab.get entries.old k) else slab.get entries.old k) }
    ensures pipes { (p : ℕ) → pipe_kept pipes.new.entries p
        ≡ (if counts.takes pid closing entries.old p h.now then None else pipe_kept pipes.old.entries p) }
    ensures room { (n : ℕ) → slab.HasRoomFor entries.old n → slab.HasRoomFor entries.new n }
{
    if !goes(pid, closing, &h.descriptor) {
        return;
    }
    remove(pipes, ending(entries, h.key));
    release(entries, h.key);
}

/// Closes those of these descriptors that go, one after another.
#[tactic(auto, using(crate::proofs::Going::begins, crate::proofs::Going::ends))]
fn close_each(
    pid: u32,
    closing: Closing,
    held: &[Held],
    entries: &mut Slab<Entry>,
    pipes: &mut BTreeMap<usize, Channel>,
)
    ensures { Gone pid closing held.now entries.old entries.new pipes.old.entries pipes.new.entries }
{
    let mut rest = held;
    'held: while let Some((h, others)) = rest.split_first() {
        close_one(pid, closing, h, entries, pipes);
        rest = others;
    }
}

/// Removes the closed descriptors from the list.
fn keep(pid: u32, closing: Closing, held: &mut Vec<Held>)
    ensures items { held.new.items ≡ counts.held_left pid closing held.old.items }
    ensures len { vec_len held.new ≤ vec_len held.old }
    ensures capacity { vec_capacity held.new ≡ vec_capacity held.old }
{
    held.retain(|h| stays(pid, closing, h));
}

/// Closes descriptors of a process (XSH close), of which this is the table. An entry goes with the last descriptor that
/// refers to it, and a pipe with the last descriptor that refers to one of its ends, of whatever process: that is known
/// by the counts, and no other table is gone through.
pub fn close(
    pid: u32,
    closing: Closing,
    held: &mut Vec<Held>,
    entries: &mut Slab<Entry>,
    pipes: &mut BTreeMap<usize, Channel>,
)
    ensures held { held.new.items ≡ counts.held_left pid closing held.old.items }
    ensures listed { listed held.new.items ≡ closings.descriptors_left pid closing (listed held.old.items) }
    ensures at { (k : ℕ) → slab.get entries.new k ≡ counts.released pid closing k held.old.items (slab.get entries.old k) }
    ensures counted { (more : List Held) → IsCounted entries.old (more ++ held.old.items)
        → IsCounted entries.new (more ++ held.new.items) }
    ensures linked { (more : List Held) (es : List TheDescription) → IsCounted entries.old (more ++ held.old.items)
        → Linked (more ++ held.old.items) entries.old es → Linked (more ++ held.new.items) entries.new es }
    ensures paired { (made : ℕ) → IsPaired made entries.old → IsPaired made entries.new }
    ensures pipes { (more : List Held) (made : ℕ) (es : List TheDescription) (ps : Pipes) → NoneOf pid more
        → IsPaired made entries.old → IsCounted entries.old (more ++ held.old.items)
        → Linked (more ++ held.old.items) entries.old es → PipesAgree pipes.old.entries ps
        → PipesAgree pipes.new.entries (closings.pipes_left pid closing (listed (more ++ held.old.items)) es ps) }
    ensures room { (n : ℕ) → slab.HasRoomFor entries.old n → slab.HasRoomFor entries.new n }
    ensures len { vec_len held.new ≤ vec_len held.old }
    ensures capacity { vec_capacity held.new ≡ vec_capacity held.old }
{
    close_each(pid, closing, held, entries, pipes);
    keep(pid, closing, held);
}
