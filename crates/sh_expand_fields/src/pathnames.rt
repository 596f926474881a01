//! Pathname expansion, which walks directories.
ghost use Rattle.std.specs.Prelude.{◌≡◌, ◌++◌, ◌∷◌, [], List, ℕ, IfOk, OnOk, map, option_map, true, Some, ◌↔◌, IsTrue, false};
ghost use Rattle.std.specs.Borrow.{Bor};
ghost use Rattle.std.specs.List.Sorted.{IsStrictlySortedBy};
ghost use Rattle.std.specs.Ordering.{nat_cmp};
ghost use Rattle.std.specs.Cmp.Lexicographic.{slice_cmp};
ghost use Rattle.sh_expand_fields.specs.Pathnames.{IsExpanded, IsFound, IsIn, IsMatched, IsOne, names_behind, or_here};
ghost use Rattle.sh_expand_fields.specs.Walk.{Adds, Leads, LeadsFrom, Taken, TakenOne};

use crate::component::{bytes_of, has_pattern, is_always_there, is_pattern, split_slash, takes};
use crate::item::Item;
use crate::text::{pattern_of, remove_quotes};
use sh_files::{FileFault, Files};
use sh_pattern::PatternByte;
use std::alloc::{AllocError, Global};

/// A prefix of a path as a path of its own. An empty prefix is the working directory.
fn or_here(before: &[u8]) -> &[u8]
    ensures { result.now ≡ or_here before.now }
{
    if before.is_empty() { b"." } else { before }
}

/// The names in the directory that a prefix of a path names; `None` where it can't be listed.
fn names_behind<'a>(
    files: &'a Files,
    directory: &[u8],
    before: &[u8],
) -> Result<Option<Vec<&'a [u8]>>, AllocError>
    ensures { IfOk result (λ found.
        option_map (λ names. map (λ (name : Bor (List ℕ)). name.now) names.items) found
        ≡ names_behind files.now directory.now before.now) }
{
    match files.list(directory, or_here(before)) {
        Ok(names) => Ok(Some(names)),
        Err(FileFault::NoMemory(lack)) => Err(AllocError::from(lack)),
        Err(_) => Ok(None),
    }
}

/// Adds the path that is `before`, `name` and `end` one after another.
fn add_path(
    alloc: Global,
    paths: &mut Vec<Vec<u8>>,
    before: &[u8],
    name: &[u8],
    end: &[u8],
) -> Result<(), AllocError>
    ensures { OnOk result
        (map (λ path. path.items) paths.new.items ≡ map (λ path. path.items) paths.old.items
        ++ (before.now ++ (name.now ++ end.now)) ∷ []) }
{
    let mut path = Vec::from_slice(alloc, before)?;
    path.extend_from_slice(name)?;
    path.extend_from_slice(end)?;
    paths.push(path)?;
    Ok(())
}

/// Adds the path of a name, if a pattern takes it.
fn add_if_taken(
    alloc: Global,
    paths: &mut Vec<Vec<u8>>,
    before: &[u8],
    end: &[u8],
    component: &[PatternByte],
    name: &[u8],
) -> Result<(), AllocError>
    ensures { OnOk result
        (Adds (map (λ path. path.items) paths.old.items)
        (TakenOne before.now end.now component.now name.now)
        (map (λ path. path.items) paths.new.items)) }
{
    if takes(component, name) {
        add_path(alloc, paths, before, name, end)?;
    }
    Ok(())
}

/// Adds the paths of the names that a pattern takes.
fn add_taken(
    alloc: Global,
    paths: &mut Vec<Vec<u8>>,
    before: &[u8],
    end: &[u8],
    component: &[PatternByte],
    names: &[&[u8]],
) -> Result<(), AllocError>
    ensures { OnOk result
        (Adds (map (λ path. path.items) paths.old.items)
        (Taken before.now end.now component.now
        (map (λ (name : Bor (List ℕ)). name.now) names.now))
        (map (λ path. path.items) paths.new.items)) }
{
    'names: for name in names {
        add_if_taken(alloc, paths, before, end, component, name)?;
    }
    Ok(())
}

/// Adds the prefixes that a component leads to after the prefix `before`, each with a slash at its end.
fn add_prefixes(
    alloc: Global,
    files: &Files,
    directory: &[u8],
    prefixes: &mut Vec<Vec<u8>>,
    before: &[u8],
    component: &[PatternByte],
) -> Result<(), AllocError>
    ensures { OnOk result
        (Adds (map (λ path. path.items) prefixes.old.items)
        (Leads false files.now directory.now before.now component.now)
        (map (λ path. path.items) prefixes.new.items)) }
{
    if !is_pattern(component) {
        let name = bytes_of(alloc, component)?;
        add_path(alloc, prefixes, before, &name, b"/")?;
        return Ok(());
    }
    let Some(names) = names_behind(files, directory, before)? else {
        return Ok(());
    };
    add_taken(alloc, prefixes, before, b"/", component, &names)?;
    Ok(())
}

/// Whether a name is one of these.
fn is_one(names: &[&[u8]], name: &[u8]) -> bool
    ensures { IsTrue result ↔ IsOne name.now (map (λ (name : Bor (List ℕ)). name.now) names.now) }
{
    'names: for other in names {
        if *other == name {
            return true;
        }
    }
    false
}

/// Whether a directory with these names has a name.
fn has_name(names: &[&[u8]], name: &[u8]) -> bool
    ensures { IsTrue result ↔ IsIn (Some (map (λ (name : Bor (List ℕ)). name.now) names.now))
        name.now }
{
    is_always_there(name) || is_one(names, name)
}

/// Adds the paths that the last component leads to after the prefix `before`.
fn add_last(
    alloc: Global,
    files: &Files,
    directory: &[u8],
    paths: &mut Vec<Vec<u8>>,
    before: &[u8],
    component: &[PatternByte],
) -> Result<(), AllocError>
    ensures { OnOk result
        (Adds (map (λ path. path.items) paths.old.items)
        (Leads true files.now directory.now before.now component.now)
        (map (λ path. path.items) paths.new.items)) }
{
    let Some(names) = names_behind(files, directory, before)? else {
        return Ok(());
    };
    if is_pattern(component) {
        add_taken(alloc, paths, before, b"", component, &names)?;
        return Ok(());
    }
    let name = bytes_of(alloc, component)?;
    if has_name(&names, &name) {
        add_path(alloc, paths, before, &name, b"")?;
        return Ok(());
    }
    Ok(())
}

/// Adds what a component leads to after the prefix `before`.
fn add_behind(
    last: bool,
    alloc: Global,
    files: &Files,
    directory: &[u8],
    paths: &mut Vec<Vec<u8>>,
    before: &[u8],
    component: &[PatternByte],
) -> Result<(), AllocError>
    ensures { OnOk result
        (Adds (map (λ path. path.items) paths.old.items)
        (Leads last files.now directory.now before.now component.now)
        (map (λ path. path.items) paths.new.items)) }
{
    if last {
        add_last(alloc, files, directory, paths, before, component)?;
        return Ok(());
    }
    add_prefixes(alloc, files, directory, paths, before, component)?;
    Ok(())
}

/// What a component leads to after each of the prefixes.
fn lead(
    last: bool,
    alloc: Global,
    files: &Files,
    directory: &[u8],
    prefixes: &[Vec<u8>],
    component: &[PatternByte],
) -> Result<Vec<Vec<u8>>, AllocError>
    ensures { IfOk result (λ paths.
        Adds [] (LeadsFrom last files.now directory.now (map (λ path. path.items) prefixes.now)
        component.now) (map (λ path. path.items) paths.items)) }
{
    let mut paths = Vec::new(alloc);
    let mut rest = prefixes;
    'prefixes: while let Some((prefix, behind)) = rest.split_first() {
        add_behind(last, alloc, files, directory, &mut paths, prefix, component)?;
        rest = behind;
    }
    Ok(paths)
}

/// The paths that match a pattern, in no order.
fn find(
    alloc: Global,
    files: &Files,
    directory: &[u8],
    pattern: &[PatternByte],
) -> Result<Vec<Vec<u8>>, AllocError>
    ensures { IfOk result (λ paths.
        (t : List ℕ) → IsOne t (map (λ path. path.items) paths.items)
        ↔ IsFound files.now directory.now pattern.now t) }
{
    let mut prefixes = Vec::new(alloc);
    prefixes.push(Vec::new(alloc))?;
    let mut rest = pattern;
    'components: while let Some((component, behind)) = split_slash(rest) {
        prefixes = lead(false, alloc, files, directory, &prefixes, component)?;
        rest = behind;
    }
    let paths = lead(true, alloc, files, directory, &prefixes, rest)?;
    Ok(paths)
}

/// Puts paths in the order of their bytes, each once.
fn sort(paths: &mut Vec<Vec<u8>>)
    ensures rising { IsStrictlySortedBy (slice_cmp nat_cmp)
        (map (λ path. path.items) paths.new.items) }
    ensures same { (t : List ℕ) → IsOne t (map (λ path. path.items) paths.new.items)
        ↔ IsOne t (map (λ path. path.items) paths.old.items) }
{
    paths.sort_unstable();
    paths.dedup();
}

/// The paths that match a pattern, in the order of their bytes, each once; none where no component is a pattern.
fn find_in_order(
    alloc: Global,
    files: &Files,
    directory: &[u8],
    pattern: &[PatternByte],
) -> Result<Vec<Vec<u8>>, AllocError>
    ensures rising { IfOk result (λ paths.
        IsStrictlySortedBy (slice_cmp nat_cmp) (map (λ path. path.items) paths.items)) }
    ensures found { IfOk result (λ paths.
        (t : List ℕ) → IsOne t (map (λ path. path.items) paths.items)
        ↔ IsMatched files.now directory.now pattern.now t) }
{
    if !has_pattern(pattern) {
        return Ok(Vec::new(alloc));
    }
    let mut paths = find(alloc, files, directory, pattern)?;
    sort(&mut paths);
    Ok(paths)
}

/// The paths that match a field (XCU 2.6.6, 2.14.3), each once, in the order of their bytes. Where there is
/// none, or no component of the field is a pattern, it is the field itself without its quotes.
///
/// A path that doesn't begin with a slash starts at `directory`. Each path has the slashes of the field, and
/// the components that are no pattern, without their quotes. A pattern matches neither dot nor dot-dot. It
/// matches a name that begins with a period only where the pattern begins with one too. What is before a
/// slash at the end is a directory. Only directories that the field names are looked at; no clause says so.
/// The only error is want of memory.
pub fn expand_pathnames(
    alloc: Global,
    files: &Files,
    directory: &[u8],
    field: &[Item],
) -> Result<Vec<Vec<u8>>, AllocError>
    ensures { IfOk result (λ paths.
        IsExpanded files.now directory.now field.now (map (λ path. path.items) paths.items)) }
{
    let pattern = pattern_of(alloc, field)?;
    let mut paths = find_in_order(alloc, files, directory, &pattern)?;
    if !paths.is_empty() {
        return Ok(paths);
    }
    let text = remove_quotes(alloc, field)?;
    paths.push(text)?;
    Ok(paths)
}
