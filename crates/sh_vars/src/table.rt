// Variables in the order of their names.
ghost use Rattle.std.specs.Prelude.{◌≡◌, true, ◌++◌, ◌∷◌, [], IfOk, OnOk, OnErr, T, if◌then◌else◌, is_ok, option_map, IfSome};
ghost use Rattle.std.specs.Ordering.{nat_cmp};
ghost use Rattle.std.specs.Cmp.Lexicographic.{slice_cmp};
ghost use Rattle.std.specs.FinMap as map;
ghost use Rattle.sh_vars.specs.Environment.{after_assignment, variable_or_absent};
ghost use Rattle.sh_vars.specs.Places.{IsPlace, IsHeld};
ghost use Rattle.sh_vars.specs.Starting.{changeable, starting_variables};

use crate::entries::{Entry, shared_text};
use sh_base::separator::default_separators;
use std::alloc::{AllocError, Global};
use std::marker::Model;

/// Variables, each name once.
#[derive(Drop)]
pub(crate) struct Table {
    entries: Vec<Entry>,
}

impl Model for Table {
    ghost use Rattle.std.specs.Prelude.{T};
    ghost use Rattle.std.specs.Ordering.{nat_cmp};
    ghost use Rattle.std.specs.Cmp.Lexicographic.{slice_cmp};
    ghost use Rattle.std.specs.FinMap as map;
    ghost use Rattle.sh_vars.specs.Environment.{VariableMap};
    ghost use Rattle.sh_vars.specs.Codes.{map_code};

    ghost Value = { VariableMap };

    ghost coded = { map_code };

    ghost view = { λ table. map.from_sorted table.entries.items };

    ghost invariant = { λ table. T (map.is_sorted (slice_cmp nat_cmp) table.entries.items) };
}

impl Table {
    pub(crate) fn new(alloc: Global) -> Table
        ensures { result ≡ map.empty }
    {
        Table {
            entries: Vec::new(alloc),
        }
    }

    /// The variables of the first shell.
    pub(crate) fn starting(alloc: Global) -> Result<Table, AllocError>
        ensures { IfOk result (λ table. table ≡ starting_variables) }
    {
        let mut entries = Vec::with_capacity(alloc, 8)?;
        add(&mut entries, alloc, b"HOME", b"/", true)?;
        add(&mut entries, alloc, b"IFS", default_separators(), false)?;
        add(&mut entries, alloc, b"PATH", b"/bin", true)?;
        add(&mut entries, alloc, b"PPID", b"1", false)?;
        add(&mut entries, alloc, b"PS1", b"$ ", false)?;
        add(&mut entries, alloc, b"PS2", b"> ", false)?;
        add(&mut entries, alloc, b"PS4", b"+ ", false)?;
        add(&mut entries, alloc, b"PWD", b"/", true)?;
        Ok(Table { entries })
    }

    /// The variable of this name.
    pub(crate) fn find(&self, name: &[u8]) -> Option<&Entry>
        ensures found { option_map (λ entry. entry.now.1) result ≡ map.get self.now name.now }
        ensures named { IfSome result (λ entry. entry.now.0 ≡ name.now) }
    {
        match place(&self.entries, name) {
            Ok(index) => Some(&self.entries[index]),
            Err(_) => None,
        }
    }

    /// A copy of the variables.
    pub(crate) fn copy(&self, alloc: Global) -> Result<Table, AllocError>
        ensures { IfOk result (λ table. table ≡ self.now) }
    {
        Ok(Table {
            entries: copy_entries(alloc, &self.entries)?,
        })
    }

    /// Replaces the variable of the entry's name, or adds the entry where there is none.
    pub(crate) fn put(&mut self, entry: Entry) -> Result<(), AllocError>
        ensures { self.new
            ≡ (if is_ok result then map.insert self.old entry.0 entry.1 else self.old) }
    {
        match place(&self.entries, entry.name()) {
            Ok(index) => {
                self.entries[index] = entry;
                Ok(())
            }
            Err(index) => {
                self.entries.insert(index, entry)?;
                Ok(())
            }
        }
    }

    /// The variables in the order of their names' bytes.
    pub(crate) fn entries(&self) -> &[Entry]
        ensures { result.now ≡ map.entries self.now }
    {
        self.entries.as_slice()
    }

    /// Takes the variable of this name out, if there is one.
    pub(crate) fn remove(&mut self, name: &[u8])
        ensures { self.new ≡ map.remove self.old name.now }
    {
        let Ok(index) = place(&self.entries, name) else {
            return;
        };
        self.entries.remove(index);
    }

    /// Makes the variable of this name one that programs inherit.
    pub(crate) fn export(&mut self, alloc: Global, name: &[u8]) -> Result<(), AllocError>
        ensures { self.new
            ≡ (if is_ok result then map.insert self.old name.now
            (record (variable_or_absent self.old name.now) { exported = true }) else self.old) }
    {
        let index = hold(&mut self.entries, alloc, name)?;
        self.entries[index].export();
        Ok(())
    }

    /// Makes the variable of this name one that can't be changed.
    pub(crate) fn make_read_only(&mut self, alloc: Global, name: &[u8]) -> Result<(), AllocError>
        ensures { self.new
            ≡ (if is_ok result then map.insert self.old name.now
            (record (variable_or_absent self.old name.now) { read_only = true }) else self.old) }
    {
        let index = hold(&mut self.entries, alloc, name)?;
        self.entries[index].make_read_only();
        Ok(())
    }

    /// Assigns to the variable of this name, and exports it if asked.
    pub(crate) fn assign(
        &mut self,
        alloc: Global,
        name: &[u8],
        value: &[u8],
        export: bool,
    ) -> Result<(), AllocError>
        ensures { self.new
            ≡ (if is_ok result then map.insert self.old name.now
            (after_assignment (variable_or_absent self.old name.now) value.now export) else
            self.old) }
    {
        let value = shared_text(alloc, value)?;
        let index = hold(&mut self.entries, alloc, name)?;
        self.entries[index].assign(value, export);
        Ok(())
    }
}

/// Adds a variable that can be changed after the others.
fn add(
    entries: &mut Vec<Entry>,
    alloc: Global,
    name: &[u8],
    value: &[u8],
    exported: bool,
) -> Result<(), AllocError>
    ensures { OnOk result
        (entries.new.items ≡ entries.old.items ++ (name.now, changeable value.now exported) ∷ []) }
{
    let entry = Entry::with_value(alloc, name, value, exported)?;
    entries.push(entry)?;
    Ok(())
}

/// The index of the variable of this name. Where there is none, adds one without value and attributes.
fn hold(entries: &mut Vec<Entry>, alloc: Global, name: &[u8]) -> Result<usize, AllocError>
    requires { T (map.is_sorted (slice_cmp nat_cmp) entries.old.items) }
    ensures ok { IfOk result (IsHeld entries.old.items name.now entries.new.items) }
    ensures err { OnErr result (entries.new.items ≡ entries.old.items) }
{
    match place(entries, name) {
        Ok(index) => Ok(index),
        Err(index) => {
            let entry = Entry::absent(alloc, name)?;
            entries.insert(index, entry)?;
            Ok(index)
        }
    }
}

/// `Ok` with the index of the variable of this name, or `Err` with the index where it belongs.
fn place(entries: &[Entry], name: &[u8]) -> Result<usize, usize>
    requires { T (map.is_sorted (slice_cmp nat_cmp) entries.now) }
    ensures { IsPlace entries.now name.now result }
{
    entries.binary_search_by(|entry| entry.name().cmp(name))
}

/// Copies of these entries.
fn copy_entries(alloc: Global, entries: &[Entry]) -> Result<Vec<Entry>, AllocError>
    ensures { IfOk result (λ copies. copies.items ≡ entries.now) }
{
    let mut copies = Vec::with_capacity(alloc, entries.len())?;
    for entry in entries {
        copies.push(entry.copy()?)?;
    }
    Ok(copies)
}
