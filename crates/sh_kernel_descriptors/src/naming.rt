//! Numbers of descriptors.
ghost use Rattle.std.specs.Prelude.{true, ◌≡◌, ◌==◌, ◌+◌, ◌++◌, ◌∷◌, [], ◌≤◌, ◌<◌, ◌^◌, if◌then◌else◌, ℕ, List, None, OnErr, OnOk, Some, length, position, vec_len, vec_capacity};
ghost use Rattle.slab.specs.Slab as slab;
ghost use Rattle.sh_kernel_descriptors.specs.Closings.{Pipes, descriptors_left, pipe_of, pipes_left};
ghost use Rattle.sh_kernel_descriptors.specs.Counts as counts;
ghost use Rattle.sh_kernel_descriptors.specs.Kept.{Among, IsCounted, IsPaired, Linked, NoneOf, PipesAgree, listed, pipe_kept};
ghost use Rattle.sh_kernel_descriptors.specs.Gone.{Added};
ghost use Rattle.sh_kernel_descriptors.specs.Naming as naming;
ghost use Rattle.sh_kernel_descriptors.specs.declared.description.Description.{Description as TheDescription};
ghost use Rattle.sh_kernel_descriptors.specs.declared.kept.Entry.{Entry as TheEntry};

use crate::channel::Channel;
use crate::closing::{close, is_named};
use crate::description::{Description, Target};
use crate::descriptor::{Closing, Descriptor, DescriptorRef};
use crate::kept::{Entry, Held, join, keep_new, share};
use slab::Slab;
use std::alloc::{AllocError, Global};
use std::collections::BTreeMap;

/// How many numbers of descriptors a process has: they go from 0 up (`OPEN_MAX` of XBD `<limits.h>`).
pub const MAX_DESCRIPTORS: u8 = 32;

/// Whether a descriptor may have this number.
pub fn is_allowed(number: u8) -> bool
    ensures { result ≡ naming.is_allowed number }
{
    number < MAX_DESCRIPTORS
}

/// Whether what was found is this description.
pub fn is_description(k: usize, found: Option<usize>) -> bool
    ensures { result ≡ naming.is_description k found }
{
    found.is_some_and(|j| j == k)
}

/// The description of an end of a pipe, to read from or to write to.
pub fn end_of(target: Target, reading: bool) -> Description
    ensures { result ≡ naming.end_of target reading }
{
    Description {
        target,
        offset: 0,
        append: false,
        readable: reading,
        writable: !reading,
    }
}

/// The place of the first descriptor of a name.
fn place_of(held: &[Held], pid: u32, name: DescriptorRef) -> Option<usize>
    ensures { result ≡ position (counts.is_of_name pid name) held.now }
{
    held.iter().position(|h| is_named(pid, name, &h.descriptor))
}

/// Gives the first descriptor of this name another number, or none.
fn renumber(held: &mut Vec<Held>, pid: u32, name: DescriptorRef, number: Option<u8>)
    ensures { held.new.items ≡ counts.renamed held.old.items pid name number }
{
    let Some(i) = place_of(held, pid, name) else {
        return;
    };
    if i < held.len() {
        let old = held[i];
        let descriptor = Descriptor {
            number,
            ..old.descriptor
        };
        held[i] = Held { descriptor, ..old };
    }
}

/// Gives the first descriptor of this name another number, or none. Where there is no such descriptor nothing
/// changes.
pub fn rename(held: &mut Vec<Held>, pid: u32, name: DescriptorRef, number: Option<u8>)
    ensures listed { listed held.new.items ≡ naming.after_renaming (listed held.old.items) pid name
        number }
    ensures counted { (more : List Held) (entries : slab.Slab TheEntry)
        → IsCounted entries (more ++ held.old.items) → IsCounted entries (more ++ held.new.items) }
    ensures linked { (more : List Held) (entries : slab.Slab TheEntry) (es : List TheDescription)
        → Linked (more ++ held.old.items) entries es → Linked (more ++ held.new.items) entries es }
{
    renumber(held, pid, name, number);
}

/// Makes a number of a process, of which this is the table, refer to the description to which a descriptor of any process
/// refers that isn't closed by that; what the number referred to is closed (XSH dup2). The table has to have room for one
/// more descriptor. Ask first whether [one more can be counted](may_share).
pub fn refer(
    pid: u32,
    number: u8,
    to: Held,
    held: &mut Vec<Held>,
    entries: &mut Slab<Entry>,
    pipes: &mut BTreeMap<usize, Channel>,
)
    requires { vec_len held.old < vec_capacity held.old }
    ensures listed { listed held.new.items
        ≡ descriptors_left pid (Closing.Named (DescriptorRef.Number number)) (listed held.old.items)
        ++ record { pid = pid; number = Some number; description = to.descriptor.description } ∷ [] }
    ensures counted { (more : List Held) → counts.fits 1 (slab.get entries.old to.key) ≡ true
        → Among to (more ++ counts.held_left pid (Closing.Named (DescriptorRef.Number number)) held.old.items)
        → IsCounted entries.old (more ++ held.old.items)
        → IsCounted entries.new (more ++ held.new.items) }
    ensures linked { (more : List Held) (es : List TheDescription)
        → Among to (more ++ counts.held_left pid (Closing.Named (DescriptorRef.Number number)) held.old.items)
        → IsCounted entries.old (more ++ held.old.items) → Linked (more ++ held.old.items) entries.old es
        → Linked (more ++ held.new.items) entries.new es }
    ensures paired { (made : ℕ) → IsPaired made entries.old → IsPaired made entries.new }
    ensures pipes { (more : List Held) (made : ℕ) (es : List TheDescription) (ps : Pipes) → NoneOf pid more
        → IsPaired made entries.old → IsCounted entries.old (more ++ held.old.items)
        → Linked (more ++ held.old.items) entries.old es → PipesAgree pipes.old.entries ps
        → PipesAgree pipes.new.entries
        (pipes_left pid (Closing.Named (DescriptorRef.Number number)) (listed (more ++ held.old.items)) es ps) }
{
    close(
        pid,
        Closing::Named(DescriptorRef::Number(number)),
        held,
        entries,
        pipes,
    );
    share(entries, &to);
    held.push_reserved(Held {
        descriptor: Descriptor {
            pid,
            number: Some(number),
            description: to.descriptor.description,
        },
        key: to.key,
    });
}

/// Makes a number of a process, of which this is the table, refer to a new description; what the number referred to is
/// closed first. Answers the key of the description.
fn add_one(
    pid: u32,
    number: u8,
    k: usize,
    description: Description,
    other: Option<usize>,
    held: &mut Vec<Held>,
    entries: &mut Slab<Entry>,
    pipes: &mut BTreeMap<usize, Channel>,
) -> usize
    requires list { vec_len held.old < vec_capacity held.old }
    requires room { slab.HasRoomFor entries.old 1 }
    ensures items { held.new.items ≡ counts.held_left pid (Closing.Named (DescriptorRef.Number number)) held.old.items
        ++ counts.given pid number k result ∷ [] }
    ensures added { Added pid number held.old.items entries.old entries.new result
        (record { description = description; count = 1; other = other }) }
    ensures counted { (more : List Held) → IsCounted entries.old (more ++ held.old.items)
        → IsCounted entries.new (more ++ held.new.items) }
    ensures linked { (more : List Held) (es : List TheDescription) → k ≡ length es
        → IsCounted entries.old (more ++ held.old.items) → Linked (more ++ held.old.items) entries.old es
        → Linked (more ++ held.new.items) entries.new (es ++ description ∷ []) }
    ensures pipes { (more : List Held) (made : ℕ) (es : List TheDescription) (ps : Pipes) → NoneOf pid more
        → IsPaired made entries.old → IsCounted entries.old (more ++ held.old.items)
        → Linked (more ++ held.old.items) entries.old es → PipesAgree pipes.old.entries ps
        → PipesAgree pipes.new.entries
        (pipes_left pid (Closing.Named (DescriptorRef.Number number)) (listed (more ++ held.old.items)) es ps) }
    ensures room { (n : ℕ) → slab.HasRoomFor entries.old (n + 1) → slab.HasRoomFor entries.new n }
    ensures len { vec_len held.new ≤ vec_len held.old + 1 }
    ensures capacity { vec_capacity held.new ≡ vec_capacity held.old }
{
    close(
        pid,
        Closing::Named(DescriptorRef::Number(number)),
        held,
        entries,
        pipes,
    );
    let key = keep_new(entries, description, other);
    held.push_reserved(Held {
        descriptor: Descriptor {
            pid,
            number: Some(number),
            description: k,
        },
        key,
    });
    key
}

/// Makes a number of a process, of which this is the table, refer to a new description; what the number referred to is
/// closed (XSH open). The number by creation of the description is how many there were; the table and the entries have to
/// have room for one more.
pub fn add(
    pid: u32,
    number: u8,
    k: usize,
    description: Description,
    held: &mut Vec<Held>,
    entries: &mut Slab<Entry>,
    pipes: &mut BTreeMap<usize, Channel>,
)
    requires list { vec_len held.old < vec_capacity held.old }
    requires room { slab.HasRoomFor entries.old 1 }
    ensures listed { listed held.new.items
        ≡ descriptors_left pid (Closing.Named (DescriptorRef.Number number)) (listed held.old.items)
        ++ record { pid = pid; number = Some number; description = k } ∷ [] }
    ensures counted { (more : List Held) → IsCounted entries.old (more ++ held.old.items)
        → IsCounted entries.new (more ++ held.new.items) }
    ensures linked { (more : List Held) (es : List TheDescription) → k ≡ length es
        → IsCounted entries.old (more ++ held.old.items) → Linked (more ++ held.old.items) entries.old es
        → Linked (more ++ held.new.items) entries.new (es ++ description ∷ []) }
    ensures paired { (made : ℕ) → pipe_of description.target ≡ None → IsPaired made entries.old
        → IsPaired made entries.new }
    ensures pipes { (more : List Held) (made : ℕ) (es : List TheDescription) (ps : Pipes) → NoneOf pid more
        → IsPaired made entries.old → IsCounted entries.old (more ++ held.old.items)
        → Linked (more ++ held.old.items) entries.old es → PipesAgree pipes.old.entries ps
        → PipesAgree pipes.new.entries
        (pipes_left pid (Closing.Named (DescriptorRef.Number number)) (listed (more ++ held.old.items))
        (es ++ description ∷ []) ps) }
{
    let _ = add_one(pid, number, k, description, None, held, entries, pipes);
}

/// Keeps a new pipe by its number, which is how many there were. The only error is want of memory, after which the pipes
/// are as they were.
#[tactic(auto, using(crate::proofs::Ends::same_number))]
fn keep_pipe(
    pipes: &mut BTreeMap<usize, Channel>,
    pipe: usize,
    made: Channel,
) -> Result<(), AllocError>
    ensures ok { OnOk result ((p : ℕ) → pipe_kept pipes.new.entries p
        ≡ (if pipe == p then Some made else pipe_kept pipes.old.entries p)) }
    ensures err { OnErr result (pipes.new.entries ≡ pipes.old.entries) }
{
    match pipes.insert(pipe, made) {
        Ok(_) => Ok(()),
        Err(failed) => Err(AllocError::from(failed)),
    }
}

/// Makes two numbers of a process, of which this is the table, refer to new ends of a pipe, to read from and to write to;
/// what they referred to is closed, the first before the second is given. The numbers by creation of the ends are how many
/// descriptions there were, and the next; the table and the entries have to have room for two more.
fn add_ends(
    pid: u32,
    from: u8,
    to: u8,
    k: usize,
    pipe: usize,
    held: &mut Vec<Held>,
    entries: &mut Slab<Entry>,
    pipes: &mut BTreeMap<usize, Channel>,
)
    requires list { vec_len held.old + 2 ≤ vec_capacity held.old }
    requires room { slab.HasRoomFor entries.old 2 }
    requires fits { k + 1 < 2 ^ 64 }
    ensures listed { listed held.new.items ≡ counts.ends_listed pid from to k (listed held.old.items) }
    ensures counted { (more : List Held) → IsCounted entries.old (more ++ held.old.items)
        → IsCounted entries.new (more ++ held.new.items) }
    ensures linked { (more : List Held) (es : List TheDescription) → k ≡ length es
        → IsCounted entries.old (more ++ held.old.items) → Linked (more ++ held.old.items) entries.old es
        → Linked (more ++ held.new.items) entries.new (counts.with_ends pipe es) }
    ensures paired { IsPaired pipe entries.old → IsPaired (pipe + 1) entries.new }
    ensures pipes { (more : List Held) (es : List TheDescription) (ps : Pipes) → NoneOf pid more → k ≡ length es
        → IsPaired pipe entries.old → IsCounted entries.old (more ++ held.old.items)
        → Linked (more ++ held.old.items) entries.old es → PipesAgree pipes.old.entries ps
        → PipesAgree pipes.new.entries (counts.ends_pipes pid from to k (listed (more ++ held.old.items)) (counts.with_ends pipe es) ps) }
{
    let reads = end_of(Target::ReadEnd(pipe), true);
    let first = add_one(pid, from, k, reads, None, held, entries, pipes);
    let writes = end_of(Target::WriteEnd(pipe), false);
    let second = add_one(pid, to, k + 1, writes, Some(first), held, entries, pipes);
    join(entries, first, second);
}

/// Makes two numbers of a process, of which this is the table, refer to the ends of a new pipe, to read from and to write
/// to; what they referred to is closed (XSH pipe). The numbers by creation are how many descriptions and pipes there were;
/// the table and the entries have to have room for two more. The only error is want of memory, after which nothing has
/// changed.
pub fn add_pipe(
    alloc: Global,
    pid: u32,
    from: u8,
    to: u8,
    k: usize,
    pipe: usize,
    held: &mut Vec<Held>,
    entries: &mut Slab<Entry>,
    pipes: &mut BTreeMap<usize, Channel>,
) -> Result<(), AllocError>
    requires list { vec_len held.old + 2 ≤ vec_capacity held.old }
    requires room { slab.HasRoomFor entries.old 2 }
    requires fits { k + 1 < 2 ^ 64 }
    ensures listed { OnOk result (listed held.new.items ≡ counts.ends_listed pid from to k (listed held.old.items)) }
    ensures counted { OnOk result ((more : List Held) → IsCounted entries.old (more ++ held.old.items)
        → IsCounted entries.new (more ++ held.new.items)) }
    ensures linked { OnOk result ((more : List Held) (es : List TheDescription) → k ≡ length es
        → IsCounted entries.old (more ++ held.old.items) → Linked (more ++ held.old.items) entries.old es
        → Linked (more ++ held.new.items) entries.new (counts.with_ends pipe es)) }
    ensures paired { OnOk result (IsPaired pipe entries.old → IsPaired (pipe + 1) entries.new) }
    ensures pipes { OnOk result ((more : List Held) (es : List TheDescription) (ps : Pipes) → NoneOf pid more → k ≡ length es → pipe ≡ length ps
        → IsPaired pipe entries.old → IsCounted entries.old (more ++ held.old.items)
        → Linked (more ++ held.old.items) entries.old es → PipesAgree pipes.old.entries ps
        → PipesAgree pipes.new.entries (counts.ends_pipes pid from to k (listed (more ++ held.old.items)) (counts.with_ends pipe es) (counts.with_new ps))) }
    ensures held { OnErr result (held.new ≡ held.old) }
    ensures entries { OnErr result (entries.new ≡ entries.old) }
    ensures unpiped { OnErr result (pipes.new.entries ≡ pipes.old.entries) }
{
    let made = Channel::new(alloc)?;
    keep_pipe(pipes, pipe, made)?;
    add_ends(pid, from, to, k, pipe, held, entries, pipes);
    Ok(())
}
