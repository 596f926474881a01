//! The tables of descriptors of the processes.
ghost use Rattle.std.specs.Prelude.{◌≡◌, ◌++◌, ◌∷◌, [], ◌+◌, ◌<◌, ◌^◌, ℕ, List, IfOk, None, OnErr, OnOk, Some, length, true};
ghost use Rattle.slab.specs.Slab as slab;
ghost use Rattle.std.specs.BTreeMap.{is_at};
ghost use Rattle.std.specs.Map.{lookup};
ghost use Rattle.std.specs.Ordering.{nat_cmp};
ghost use Rattle.sh_kernel_descriptors.specs.Closings.{Pipes, descriptors_left, pipe_of, pipes_left};
ghost use Rattle.sh_kernel_descriptors.specs.Counts as counts;
ghost use Rattle.sh_kernel_descriptors.specs.Kept.{Among, IsCounted, IsPaired, Linked, PipesAgree, listed};
ghost use Rattle.sh_kernel_descriptors.specs.Naming as naming;
ghost use Rattle.sh_kernel_descriptors.specs.Copies as fork_copies;
ghost use Rattle.sh_kernel_descriptors.specs.declared.description.Description.{Description as TheDescription};
ghost use Rattle.sh_kernel_descriptors.specs.declared.kept.Entry.{Entry as TheEntry};
ghost use Rattle.sh_kernel_machine.specs.Tables.{AreOwn, Changes, CopiesOf, HasRoom, SameHeld, first_held, held_in, own};

use sh_kernel_descriptors::{
    Channel, Closing, Description, DescriptorRef, Entry, Held, add, add_pipe, close, copy_table,
    find, refer, rename, share_copies, to_terminal,
};
use sh_kernel_processes::FIRST_PID;
use slab::Slab;
use std::alloc::{AllocError, Global};
use std::collections::BTreeMap;

/// The tables of descriptors (XBD 3.141), each under its process's number. A process that has ended has none.
pub(crate) type Tables = BTreeMap<u32, Vec<Held>>;

/// The process's descriptor of this name.
pub(crate) fn find_in(tables: &Tables, pid: u32, name: DescriptorRef) -> Option<Held>
    ensures { AreOwn tables.now.entries → result ≡ counts.find (held_in tables.now.entries) pid name }
{
    let _count = tables.len();
    match tables.get(&pid) {
        Some(table) => find(table.as_slice(), pid, name),
        None => None,
    }
}

/// Closes descriptors of a process.
pub(crate) fn close_in(
    tables: &mut Tables,
    pid: u32,
    closing: Closing,
    entries: &mut Slab<Entry>,
    pipes: &mut BTreeMap<usize, Channel>,
)
    ensures own { AreOwn tables.old.entries → AreOwn tables.new.entries }
    ensures listed { AreOwn tables.old.entries → Changes pid (held_in tables.old.entries) (held_in tables.new.entries)
        (descriptors_left pid closing (own pid (listed (held_in tables.old.entries)))) }
    ensures counted { IsCounted entries.old (held_in tables.old.entries) → IsCounted entries.new (held_in tables.new.entries) }
    ensures linked { (es : List TheDescription) → IsCounted entries.old (held_in tables.old.entries)
        → Linked (held_in tables.old.entries) entries.old es → Linked (held_in tables.new.entries) entries.new es }
    ensures paired { (made : ℕ) → IsPaired made entries.old → IsPaired made entries.new }
    ensures pipes { (made : ℕ) (es : List TheDescription) (ps : Pipes) → AreOwn tables.old.entries
        → IsPaired made entries.old → IsCounted entries.old (held_in tables.old.entries)
        → Linked (held_in tables.old.entries) entries.old es → PipesAgree pipes.old.entries ps
        → PipesAgree pipes.new.entries (pipes_left pid closing (listed (held_in tables.old.entries)) es ps) }
{
    if let Some(table) = tables.get_mut(&pid) {
        close(pid, closing, table, entries, pipes);
    }
}

/// Closes all descriptors of a process, whose table goes.
pub(crate) fn end_in(
    tables: &mut Tables,
    pid: u32,
    entries: &mut Slab<Entry>,
    pipes: &mut BTreeMap<usize, Channel>,
)
    ensures gone { lookup (is_at (nat_cmp pid)) tables.new.entries ≡ None }
    ensures own { AreOwn tables.old.entries → AreOwn tables.new.entries }
    ensures listed { AreOwn tables.old.entries → Changes pid (held_in tables.old.entries) (held_in tables.new.entries)
        (descriptors_left pid Closing.All (own pid (listed (held_in tables.old.entries)))) }
    ensures counted { AreOwn tables.old.entries → IsCounted entries.old (held_in tables.old.entries)
        → IsCounted entries.new (held_in tables.new.entries) }
    ensures linked { (es : List TheDescription) → AreOwn tables.old.entries
        → IsCounted entries.old (held_in tables.old.entries)
        → Linked (held_in tables.old.entries) entries.old es → Linked (held_in tables.new.entries) entries.new es }
    ensures paired { (made : ℕ) → IsPaired made entries.old → IsPaired made entries.new }
    ensures pipes { (made : ℕ) (es : List TheDescription) (ps : Pipes) → AreOwn tables.old.entries
        → IsPaired made entries.old → IsCounted entries.old (held_in tables.old.entries)
        → Linked (held_in tables.old.entries) entries.old es → PipesAgree pipes.old.entries ps
        → PipesAgree pipes.new.entries (pipes_left pid Closing.All (listed (held_in tables.old.entries)) es ps) }
{
    let _count = tables.len();
    if let Some(table) = tables.remove(&pid) {
        let mut table = table;
        close(pid, Closing::All, &mut table, entries, pipes);
    }
}

/// Gives the process's first descriptor of this name another number, or none.
pub(crate) fn rename_in(tables: &mut Tables, pid: u32, name: DescriptorRef, number: Option<u8>)
    ensures own { AreOwn tables.old.entries → AreOwn tables.new.entries }
    ensures listed { AreOwn tables.old.entries → Changes pid (held_in tables.old.entries) (held_in tables.new.entries)
        (naming.after_renaming (own pid (listed (held_in tables.old.entries))) pid name number) }
    ensures counted { (entries : slab.Slab TheEntry) → IsCounted entries (held_in tables.old.entries)
        → IsCounted entries (held_in tables.new.entries) }
    ensures linked { (entries : slab.Slab TheEntry) (es : List TheDescription)
        → Linked (held_in tables.old.entries) entries es → Linked (held_in tables.new.entries) entries es }
{
    if let Some(table) = tables.get_mut(&pid) {
        rename(table, pid, name, number);
    }
}

/// Makes an empty table for a process that has none. The only error is want of memory; the descriptors are the same,
/// whatever the answer.
fn make_table(tables: &mut Tables, alloc: Global, pid: u32) -> Result<(), AllocError>
    ensures own { AreOwn tables.old.entries → AreOwn tables.new.entries }
    ensures held { held_in tables.new.entries ≡ held_in tables.old.entries }
{
    if tables.contains_key(&pid) {
        return Ok(());
    }
    match tables.insert(pid, Vec::new(alloc)) {
        Ok(_) => Ok(()),
        Err(failed) => Err(AllocError::from(failed)),
    }
}

/// Takes the memory for so many more descriptors of a process that has a table. The only error is want of memory; the
/// descriptors are the same, whatever the answer.
fn grow(tables: &mut Tables, pid: u32, more: usize) -> Result<(), AllocError>
    ensures own { AreOwn tables.old.entries → AreOwn tables.new.entries }
    ensures held { held_in tables.new.entries ≡ held_in tables.old.entries }
    ensures room { OnOk result (HasRoom tables.new.entries pid more) }
{
    match tables.get_mut(&pid) {
        Some(table) => table.reserve(more),
        None => Err(AllocError),
    }
}

/// Takes the memory for so many more descriptors of a process. The only error is want of memory; the descriptors are the
/// same, whatever the answer.
pub(crate) fn reserve_in(
    tables: &mut Tables,
    alloc: Global,
    pid: u32,
    more: usize,
) -> Result<(), AllocError>
    ensures own { AreOwn tables.old.entries → AreOwn tables.new.entries }
    ensures held { held_in tables.new.entries ≡ held_in tables.old.entries }
    ensures room { OnOk result (HasRoom tables.new.entries pid more) }
{
    make_table(tables, alloc, pid)?;
    grow(tables, pid, more)
}

/// Makes a number of a process refer to the description to which one of its descriptors refers that isn't closed by that;
/// what the number referred to is closed.
pub(crate) fn refer_in(
    tables: &mut Tables,
    pid: u32,
    number: u8,
    to: Held,
    entries: &mut Slab<Entry>,
    pipes: &mut BTreeMap<usize, Channel>,
)
    requires { HasRoom tables.old.entries pid 1 }
    ensures own { AreOwn tables.old.entries → AreOwn tables.new.entries }
    ensures listed { AreOwn tables.old.entries → Changes pid (held_in tables.old.entries) (held_in tables.new.entries)
        (descriptors_left pid (Closing.Named (DescriptorRef.Number number)) (own pid (listed (held_in tables.old.entries)))
        ++ record { pid = pid; number = Some number; description = to.descriptor.description } ∷ []) }
    ensures counted { counts.fits 1 (slab.get entries.old to.key) ≡ true → Among to (held_in tables.old.entries)
        → counts.stays pid (Closing.Named (DescriptorRef.Number number)) to ≡ true
        → IsCounted entries.old (held_in tables.old.entries) → IsCounted entries.new (held_in tables.new.entries) }
    ensures linked { (es : List TheDescription) → Among to (held_in tables.old.entries)
        → counts.stays pid (Closing.Named (DescriptorRef.Number number)) to ≡ true
        → IsCounted entries.old (held_in tables.old.entries)
        → Linked (held_in tables.old.entries) entries.old es → Linked (held_in tables.new.entries) entries.new es }
    ensures paired { (made : ℕ) → IsPaired made entries.old → IsPaired made entries.new }
    ensures pipes { (made : ℕ) (es : List TheDescription) (ps : Pipes) → AreOwn tables.old.entries
        → IsPaired made entries.old → IsCounted entries.old (held_in tables.old.entries)
        → Linked (held_in tables.old.entries) entries.old es → PipesAgree pipes.old.entries ps
        → PipesAgree pipes.new.entries
        (pipes_left pid (Closing.Named (DescriptorRef.Number number)) (listed (held_in tables.old.entries)) es ps) }
{
    match tables.get_mut(&pid) {
        Some(table) => refer(pid, number, to, table, entries, pipes),
        None => unreachable!(),
    }
}

/// Makes a number of a process refer to a new description; what the number referred to is closed.
pub(crate) fn add_in(
    tables: &mut Tables,
    pid: u32,
    number: u8,
    k: usize,
    description: Description,
    entries: &mut Slab<Entry>,
    pipes: &mut BTreeMap<usize, Channel>,
)
    requires table { HasRoom tables.old.entries pid 1 }
    requires room { slab.HasRoomFor entries.old 1 }
    ensures own { AreOwn tables.old.entries → AreOwn tables.new.entries }
    ensures listed { AreOwn tables.old.entries → Changes pid (held_in tables.old.entries) (held_in tables.new.entries)
        (descriptors_left pid (Closing.Named (DescriptorRef.Number number)) (own pid (listed (held_in tables.old.entries)))
        ++ record { pid = pid; number = Some number; description = k } ∷ []) }
    ensures counted { IsCounted entries.old (held_in tables.old.entries) → IsCounted entries.new (held_in tables.new.entries) }
    ensures linked { (es : List TheDescription) → k ≡ length es → IsCounted entries.old (held_in tables.old.entries)
        → Linked (held_in tables.old.entries) entries.old es
        → Linked (held_in tables.new.entries) entries.new (es ++ description ∷ []) }
    ensures paired { (made : ℕ) → pipe_of description.target ≡ None → IsPaired made entries.old
        → IsPaired made entries.new }
    ensures pipes { (made : ℕ) (es : List TheDescription) (ps : Pipes) → k ≡ length es → AreOwn tables.old.entries
        → IsPaired made entries.old → IsCounted entries.old (held_in tables.old.entries)
        → Linked (held_in tables.old.entries) entries.old es → PipesAgree pipes.old.entries ps
        → PipesAgree pipes.new.entries
        (pipes_left pid (Closing.Named (DescriptorRef.Number number)) (listed (held_in tables.old.entries))
        (es ++ description ∷ []) ps) }
{
    match tables.get_mut(&pid) {
        Some(table) => add(pid, number, k, description, table, entries, pipes),
        None => unreachable!(),
    }
}

/// Makes two numbers of a process refer to the ends of a new pipe; what they referred to is closed. The only error is want
/// of memory, after which nothing has changed.
pub(crate) fn add_pipe_in(
    tables: &mut Tables,
    alloc: Global,
    pid: u32,
    from: u8,
    to: u8,
    k: usize,
    pipe: usize,
    entries: &mut Slab<Entry>,
    pipes: &mut BTreeMap<usize, Channel>,
) -> Result<(), AllocError>
    requires table { HasRoom tables.old.entries pid 2 }
    requires room { slab.HasRoomFor entries.old 2 }
    requires fits { k + 1 < 2 ^ 64 }
    ensures own { AreOwn tables.old.entries → AreOwn tables.new.entries }
    ensures listed { OnOk result (AreOwn tables.old.entries → Changes pid (held_in tables.old.entries) (held_in tables.new.entries)
        (counts.ends_listed pid from to k (own pid (listed (held_in tables.old.entries))))) }
    ensures counted { OnOk result (IsCounted entries.old (held_in tables.old.entries)
        → IsCounted entries.new (held_in tables.new.entries)) }
    ensures linked { OnOk result ((es : List TheDescription) → k ≡ length es → IsCounted entries.old (held_in tables.old.entries)
        → Linked (held_in tables.old.entries) entries.old es
        → Linked (held_in tables.new.entries) entries.new (counts.with_ends pipe es)) }
    ensures paired { OnOk result (IsPaired pipe entries.old → IsPaired (pipe + 1) entries.new) }
    ensures pipes { OnOk result ((es : List TheDescription) (ps : Pipes) → k ≡ length es → pipe ≡ length ps
        → AreOwn tables.old.entries → IsPaired pipe entries.old → IsCounted entries.old (held_in tables.old.entries)
        → Linked (held_in tables.old.entries) entries.old es → PipesAgree pipes.old.entries ps
        → PipesAgree pipes.new.entries (counts.ends_pipes pid from to k (listed (held_in tables.old.entries)) (counts.with_ends pipe es) (counts.with_new ps))) }
    ensures held { OnErr result (held_in tables.new.entries ≡ held_in tables.old.entries) }
    ensures entries { OnErr result (entries.new ≡ entries.old) }
    ensures unpiped { OnErr result (pipes.new.entries ≡ pipes.old.entries) }
{
    match tables.get_mut(&pid) {
        Some(table) => add_pipe(alloc, pid, from, to, k, pipe, table, entries, pipes),
        None => unreachable!(),
    }
}

/// The table that a process passes on to one that it makes. The only error is want of memory.
fn copy_of(
    tables: &Tables,
    alloc: Global,
    pid: u32,
    child: u32,
    entries: &Slab<Entry>,
) -> Result<Vec<Held>, AllocError>
    ensures copies { IfOk result (λ v. AreOwn tables.now.entries → CopiesOf (held_in tables.now.entries) pid child v.items) }
    ensures room { IfOk result (λ v. counts.may_come entries.now v.items ≡ true) }
{
    let _count = tables.len();
    match tables.get(&pid) {
        Some(table) => copy_table(alloc, table.as_slice(), entries, pid, child),
        None => Ok(Vec::new(alloc)),
    }
}

/// Adds descriptors of a process to its table. The only error is want of memory, after which nothing has changed.
fn extend_in(tables: &mut Tables, pid: u32, more: &[Held]) -> Result<(), AllocError>
    ensures own { AreOwn tables.old.entries → own pid (listed more.now) ≡ listed more.now → AreOwn tables.new.entries }
    ensures listed { OnOk result (AreOwn tables.old.entries → own pid (listed more.now) ≡ listed more.now
        → Changes pid (held_in tables.old.entries) (held_in tables.new.entries)
        (own pid (listed (held_in tables.old.entries)) ++ listed more.now)) }
    ensures same { OnOk result (SameHeld (held_in tables.old.entries ++ more.now) (held_in tables.new.entries)) }
    ensures err { OnErr result (held_in tables.new.entries ≡ held_in tables.old.entries) }
{
    match tables.get_mut(&pid) {
        Some(table) => table.extend_from_slice(more),
        None => Err(AllocError),
    }
}

/// A process passes its descriptors on to one that it makes (XSH fork), but for those that are set aside. The only error
/// is want of memory, after which nothing has changed.
pub(crate) fn fork_in(
    tables: &mut Tables,
    alloc: Global,
    pid: u32,
    child: u32,
    entries: &mut Slab<Entry>,
) -> Result<(), AllocError>
    ensures own { AreOwn tables.old.entries → AreOwn tables.new.entries }
    ensures listed { OnOk result (AreOwn tables.old.entries → Changes child (held_in tables.old.entries) (held_in tables.new.entries)
        (own child (listed (held_in tables.old.entries)) ++ fork_copies.copies (own pid (listed (held_in tables.old.entries))) pid child)) }
    ensures counted { OnOk result (AreOwn tables.old.entries → IsCounted entries.old (held_in tables.old.entries)
        → IsCounted entries.new (held_in tables.new.entries)) }
    ensures linked { OnOk result ((es : List TheDescription) → AreOwn tables.old.entries
        → Linked (held_in tables.old.entries) entries.old es → Linked (held_in tables.new.entries) entries.new es) }
    ensures paired { OnOk result ((made : ℕ) → IsPaired made entries.old → IsPaired made entries.new) }
    ensures held { OnErr result (held_in tables.new.entries ≡ held_in tables.old.entries) }
    ensures entries { OnErr result (entries.new ≡ entries.old) }
{
    let copied = copy_of(tables, alloc, pid, child, entries)?;
    make_table(tables, alloc, child)?;
    extend_in(tables, child, copied.as_slice())?;
    share_copies(copied.as_slice(), entries);
    Ok(())
}

/// The table of the first process: its descriptors 0, 1 and 2 refer to the description of the terminal, which has this
/// key. The only error is want of memory.
pub(crate) fn first_table(alloc: Global, key: usize) -> Result<Tables, AllocError>
    ensures own { IfOk result (λ tables. AreOwn tables.entries) }
    ensures held { IfOk result (λ tables. held_in tables.entries ≡ first_held key) }
{
    let mut table = Vec::with_capacity(alloc, 3)?;
    table.push_reserved(Held {
        descriptor: to_terminal(0),
        key,
    });
    table.push_reserved(Held {
        descriptor: to_terminal(1),
        key,
    });
    table.push_reserved(Held {
        descriptor: to_terminal(2),
        key,
    });
    let mut tables = BTreeMap::new(alloc);
    match tables.insert(FIRST_PID, table) {
        Ok(_) => Ok(tables),
        Err(failed) => Err(AllocError::from(failed)),
    }
}
