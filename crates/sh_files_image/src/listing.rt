// The names that a directory holds.
ghost use Rattle.std.specs.Prelude.{◌≡◌, ◌++◌, ◌∷◌, [], IfOk, IfSome, IfNone, OnOk, Some, List, ℕ, map, true, false, take, drop, nat_eq, option_to_list};
ghost use Rattle.std.specs.Borrow.{Bor};
ghost use Rattle.std.specs.List.{starts_with};
ghost use Rattle.std.specs.FinMap as paths;
ghost use Rattle.sh_files_image.specs.Paths.{has_slash};
ghost use Rattle.sh_files_image.specs.Listing.{prefix_of, name_if, names_in};

use crate::fields::{first, skip};
use crate::paths::first_slash;
use crate::table::Table;
use std::alloc::{AllocError, Global};

/// What the paths below a directory begin with.
fn prefix_of(alloc: Global, place: &[u8]) -> Result<Vec<u8>, AllocError>
    ensures { IfOk result (λ prefix. prefix.items ≡ prefix_of place.now) }
{
    let mut prefix = Vec::from_slice(alloc, place)?;
    if place != b"/".as_slice() {
        prefix.push(b'/')?;
    }
    Ok(prefix)
}

/// The place of the first slash at or after a place.
fn slash_behind(path: &[u8], start: usize) -> Option<usize>
    ensures some { IfSome result (λ i.
        starts_with nat_eq path.now (take i path.now ++ 47 ∷ []) ≡ true) }
    ensures slash { IfSome result (λ i. has_slash (drop start (take i path.now ++ 47 ∷ [])) ≡ true) }
    ensures none { IfNone result (has_slash (drop start path.now) ≡ false) }
{
    match first_slash(skip(path, start)) {
        Some(i) => Some(start + i),
        None => None,
    }
}

/// A path with one byte more.
fn longer(alloc: Global, path: &[u8], byte: u8) -> Result<Vec<u8>, AllocError>
    ensures { IfOk result (λ text. text.items ≡ path.now ++ byte ∷ []) }
{
    let mut text = Vec::from_slice(alloc, path)?;
    text.push(byte)?;
    Ok(text)
}

/// Adds what follows a directory's path, if that is a name.
fn add_name<'a>(names: &mut Vec<&'a [u8]>, name: &'a [u8]) -> Result<(), AllocError>
    requires { has_slash name.now ≡ false }
    ensures { OnOk result
        (map (λ (name : Bor (List ℕ)). name.now) names.new.items
        ≡ map (λ (name : Bor (List ℕ)). name.now) names.old.items ++ option_to_list
        (name_if (Some name.now))) }
{
    match name {
        [] => Ok(()),
        [_, ..] => {
            names.push(name)?;
            Ok(())
        }
    }
}

/// The names that a table has in the directory whose paths begin with this prefix.
fn names_of<'a>(alloc: Global, table: &'a Table, prefix: &[u8]) -> Result<Vec<&'a [u8]>, AllocError>
    ensures { IfOk result (λ names.
        map (λ (name : Bor (List ℕ)). name.now) names.items ≡ names_in prefix.now
        (paths.entries table.now)) }
{
    let mut names = Vec::new(alloc);
    let mut text = Vec::from_slice(alloc, prefix)?;
    let mut near = 0;
    'paths: while let Some(entry) = table.first_near(&mut near, &text) {
        let path = entry.path();
        if !path.starts_with(prefix) {
            return Ok(names);
        }
        match slash_behind(path, prefix.len()) {
            // The digit 0 is the next byte after the slash in order, so all of that directory is passed over.
            Some(i) => text = longer(alloc, first(path, i), b'0')?,
            None => {
                add_name(&mut names, skip(path, prefix.len()))?;
                text = longer(alloc, path, 0)?;
            }
        }
    }
    Ok(names)
}

impl Table {
    /// The names that a directory holds, in the order of their bytes. It takes one look-up for the first of
    /// them. For each of the others, and each directory among them, it looks at the neighbours first, and
    /// does a further look-up only where the next name is far away. The only error is want of memory.
    pub fn names_in<'a>(&'a self, alloc: Global, place: &[u8]) -> Result<Vec<&'a [u8]>, AllocError>
        ensures { IfOk result (λ names.
            map (λ (name : Bor (List ℕ)). name.now) names.items ≡ names_in (prefix_of place.now)
            (paths.entries self.now)) }
    {
        let prefix = prefix_of(alloc, place)?;
        let names = names_of(alloc, self, &prefix)?;
        Ok(names)
    }
}
