//! What a fork copies.
ghost use Rattle.std.specs.Prelude.{◌≡◌, ◌++◌, ℕ, List, IfOk, true};
ghost use Rattle.sh_kernel_descriptors.specs.Counts as counts;
ghost use Rattle.sh_kernel_descriptors.specs.Kept.{IsCounted, IsPaired, Linked, Within};
ghost use Rattle.sh_kernel_descriptors.specs.declared.description.Description.{Description as TheDescription};

use crate::descriptor::Descriptor;
use crate::kept::{Entry, Held, may_share, share_each};
use slab::Slab;
use std::alloc::{AllocError, Global};

/// The descriptor, as one of another process.
fn of_process(pid: u32, h: &Held) -> Held
    ensures { result ≡ counts.of_process pid h.now }
{
    Held {
        descriptor: Descriptor {
            pid,
            ..h.descriptor
        },
        ..*h
    }
}

fn is_copied(pid: u32, h: &Held) -> bool
    ensures { result ≡ counts.is_copied pid h.now }
{
    h.descriptor.pid == pid && h.descriptor.number.is_some()
}

/// The descriptors of this table that a fork copies, as those of another process.
fn copies(alloc: Global, held: &[Held], pid: u32, child: u32) -> Result<Vec<Held>, AllocError>
    ensures { IfOk result (λ v. v.items ≡ counts.copies held.now pid child) }
{
    held.iter()
        .filter(|h| is_copied(pid, h))
        .map(|h| of_process(child, h))
        .collect(alloc)
}

/// Whether these descriptors can be counted beside those that there are.
fn may_come(entries: &Slab<Entry>, held: &[Held]) -> bool
    ensures { result ≡ counts.may_come entries.now held.now }
{
    let more = held.len();
    held.iter().all(|h| may_share(entries, h.key, more))
}

/// The table of a process that another one makes, of which this is the table (XSH fork): a copy of each descriptor but for
/// those that are set aside. They aren't counted yet; [`share_copies`] does that. The only error is want of memory.
pub fn copy_table(
    alloc: Global,
    held: &[Held],
    entries: &Slab<Entry>,
    pid: u32,
    child: u32,
) -> Result<Vec<Held>, AllocError>
    ensures items { IfOk result (λ v. v.items ≡ counts.copies held.now pid child) }
    ensures room { IfOk result (λ v. counts.may_come entries.now v.items ≡ true) }
{
    let table = copies(alloc, held, pid, child)?;
    if !may_come(entries, table.as_slice()) {
        return Err(AllocError);
    }
    Ok(table)
}

/// Counts the descriptors that a fork copied, where [that can be done](copy_table).
pub fn share_copies(copied: &[Held], entries: &mut Slab<Entry>)
    ensures counted { (all hs : List Held) (pid child : ℕ) → copied.now ≡ counts.copies hs pid child
        → counts.may_come entries.old copied.now ≡ true → Within hs all
        → IsCounted entries.old all → IsCounted entries.new (all ++ copied.now) }
    ensures linked { (all hs : List Held) (pid child : ℕ) (es : List TheDescription) → copied.now ≡ counts.copies hs pid child
        → Within hs all → Linked all entries.old es → Linked (all ++ copied.now) entries.new es }
    ensures paired { (made : ℕ) → IsPaired made entries.old → IsPaired made entries.new }
{
    share_each(copied, entries);
}
