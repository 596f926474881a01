//! Descriptors and open file descriptions as they are kept.
ghost use Rattle.std.specs.Prelude.{◌≡◌, ◌≢◌, ◌+◌, ℕ, List, None, Some};
ghost use Rattle.slab.specs.Slab as slab;
ghost use Rattle.sh_kernel_descriptors.specs.Kept.{Among, IsCounted, IsPaired, Linked, description_at, other_at};
ghost use Rattle.sh_kernel_descriptors.specs.Reading.{with_offset};
ghost use Rattle.sh_kernel_descriptors.specs.declared.description.Description.{Description as TheDescription};
ghost use Rattle.sh_kernel_descriptors.specs.Counts.{fits, is_last, joined, lowered, moved, raised, shared};

use crate::description::Description;
use crate::descriptor::Descriptor;
use slab::Slab;

/// A descriptor that is kept, and the key of its open file description.
#[derive(Clone, Copy, Debug, PartialEq, Eq)]
pub struct Held {
    /// The descriptor, which has the number by creation of its description.
    pub descriptor: Descriptor,
    /// The key of the description's entry. It may be used again once no descriptor has it.
    pub key: usize,
}

/// An open file description that is kept.
#[derive(Clone, Copy, Debug, PartialEq, Eq)]
pub struct Entry {
    /// The description. Where it is an end of a pipe, the pipe's number is that of its creation.
    pub description: Description,
    /// How many descriptors refer to it, those that are set aside too: one at least.
    pub count: usize,
    /// Of an end of a pipe the key of the other end, which may have gone; else none.
    pub other: Option<usize>,
}

/// The description at a key.
pub fn described(entries: &Slab<Entry>, key: usize) -> Option<Description>
    ensures { result ≡ description_at entries.now key }
{
    Some(entries.get(key)?.description)
}

/// The key of the other end of the pipe of which an end is at a key.
pub(crate) fn other_of(entries: &Slab<Entry>, key: usize) -> Option<usize>
    ensures { result ≡ other_at entries.now key }
{
    entries.get(key)?.other
}

/// Keeps a description that one descriptor is to name, under a key that none names yet: the answer. The entries have to
/// have room for one more.
pub(crate) fn keep_new(
    entries: &mut Slab<Entry>,
    description: Description,
    other: Option<usize>,
) -> usize
    requires { slab.HasRoomFor entries.old 1 }
    ensures free { slab.get entries.old result ≡ None }
    ensures updates { slab.Updates entries.old entries.new result
        (Some (record { description = description; count = 1; other = other })) }
    ensures len { slab.slab_len entries.new ≡ slab.slab_len entries.old + 1 }
    ensures capacity { entries.new.capacity ≡ entries.old.capacity }
{
    entries.insert_reserved(Entry {
        description,
        count: 1,
        other,
    })
}

/// Tells an end of a pipe the key of the other end.
pub(crate) fn join(entries: &mut Slab<Entry>, key: usize, other: usize)
    ensures at { slab.get entries.new key ≡ joined other (slab.get entries.old key) }
    ensures others { (k : ℕ) → k ≢ key → slab.get entries.new k ≡ slab.get entries.old k }
{
    if let Some(entry) = entries.get_mut(key) {
        entry.other = Some(other);
    }
}

/// Whether so many descriptors more can be counted that name the entry of a key.
pub fn may_share(entries: &Slab<Entry>, key: usize, more: usize) -> bool
    ensures { result ≡ fits more (slab.get entries.now key) }
{
    match entries.get(key) {
        Some(entry) => entry.count <= usize::MAX - more,
        None => true,
    }
}

/// Counts one more descriptor, which names the entry that this one names.
pub(crate) fn share(entries: &mut Slab<Entry>, h: &Held)
    ensures at { slab.get entries.new h.now.key ≡ raised (slab.get entries.old h.now.key) }
    ensures others { (k : ℕ) → k ≢ h.now.key → slab.get entries.new k ≡ slab.get entries.old k }
{
    if let Some(entry) = entries.get_mut(h.key) {
        entry.count = entry.count.saturating_add(1);
    }
}

/// Whether one descriptor at most names the entry of a key.
pub(crate) fn is_last(entries: &Slab<Entry>, key: usize) -> bool
    ensures { result ≡ is_last (slab.get entries.now key) }
{
    match entries.get(key) {
        Some(entry) => entry.count <= 1,
        None => true,
    }
}

/// Counts one descriptor less at a key; the entry goes with the last one.
pub(crate) fn release(entries: &mut Slab<Entry>, key: usize)
    ensures at { slab.get entries.new key ≡ lowered (slab.get entries.old key) }
    ensures others { (k : ℕ) → k ≢ key → slab.get entries.new k ≡ slab.get entries.old k }
    ensures room { (n : ℕ) → slab.HasRoomFor entries.old n → slab.HasRoomFor entries.new n }
{
    if let Some(entry) = entries.get_mut(key) {
        if entry.count > 1 {
            entry.count -= 1;
            return;
        }
    }
    let _ = entries.try_remove(key);
}

/// Counts the descriptors that come with these.
pub(crate) fn share_each(held: &[Held], entries: &mut Slab<Entry>)
    ensures { (k : ℕ) → slab.get entries.new k ≡ shared k held.now (slab.get entries.old k) }
{
    for h in held {
        share(entries, h);
    }
}

/// Gives a description an offset.
fn set_offset(entries: &mut Slab<Entry>, key: usize, offset: usize)
    ensures at { slab.get entries.new key ≡ moved offset (slab.get entries.old key) }
    ensures others { (k : ℕ) → k ≢ key → slab.get entries.new k ≡ slab.get entries.old k }
{
    if let Some(entry) = entries.get_mut(key) {
        let old = entry.description;
        entry.description = Description { offset, ..old };
    }
}

/// Gives the description to which a descriptor refers an offset.
pub fn move_to(entries: &mut Slab<Entry>, h: Held, offset: usize)
    ensures counted { (hs : List Held) → IsCounted entries.old hs → IsCounted entries.new hs }
    ensures paired { (made : ℕ) → IsPaired made entries.old → IsPaired made entries.new }
    ensures linked { (hs : List Held) (es : List TheDescription) → Among h hs → Linked hs entries.old es
        → Linked hs entries.new (with_offset es h.descriptor.description offset) }
{
    set_offset(entries, h.key, offset);
}
