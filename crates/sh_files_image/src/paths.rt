// Paths as bytes.
ghost use Rattle.std.specs.Prelude.{◌≡◌, ◌==◌, ◌++◌, ◌∷◌, ◌<◌, ◌≤◌, IfOk, OnOk, IfSome, length, option_map, position};
ghost use Rattle.sh_files_image.specs.Paths.{absolute, begins_at_root, components, path_in, last_slash, names_fit, parent, path_split, next_place};

use std::alloc::{AllocError, Global};

/// The longest path, in bytes (`PATH_MAX`).
pub const MAX_PATH: usize = 1024;

/// The longest name, in bytes (`NAME_MAX`).
pub const MAX_NAME: usize = 255;

/// The place of the first slash.
pub(crate) fn first_slash(bytes: &[u8]) -> Option<usize>
    ensures place { result ≡ position (λ b. b == 47) bytes.now }
    ensures within { IfSome result (λ i. i < length bytes.now) }
{
    bytes.iter().position(|byte| *byte == b'/')
}

/// What is before the first slash, and what is after it; `None` where there is no slash.
pub fn split_slash(path: &[u8]) -> Option<(&[u8], &[u8])>
    ensures parts { option_map (λ parts. (parts.0.now, parts.1.now)) result ≡ path_split path.now }
    ensures shorter { IfSome result (λ parts. length parts.1.now < length path.now) }
{
    match first_slash(path) {
        Some(i) => Some((&path[..i], &path[i + 1..])),
        None => None,
    }
}

/// The absolute path of what a path names in a directory, whose own path is absolute: `p` is `/p` in `/`, and
/// `/d/p` in `/d`. A path that begins with a slash stays as it is. The only error is want of memory.
pub fn absolute(alloc: Global, directory: &[u8], path: &[u8]) -> Result<Vec<u8>, AllocError>
    ensures { IfOk result (λ whole. whole.items ≡ absolute directory.now path.now) }
{
    if begins_at_root(path) {
        return Vec::from_slice(alloc, path);
    }
    let mut whole = Vec::from_slice(alloc, directory)?;
    join(&mut whole, path)?;
    Ok(whole)
}

/// Whether a path begins with a slash.
pub fn begins_at_root(path: &[u8]) -> bool
    ensures { result ≡ begins_at_root path.now }
{
    match path.first() {
        Some(byte) => *byte == b'/',
        None => false,
    }
}

/// Whether no name of a path is longer than [`MAX_NAME`].
pub fn names_fit(path: &[u8]) -> bool
    ensures { result ≡ names_fit (components path.now) }
{
    let mut rest = path;
    'names: while let Some((name, behind)) = split_slash(rest) {
        if name.len() > MAX_NAME {
            return false;
        }
        rest = behind;
    }
    rest.len() <= MAX_NAME
}

/// The place of the last slash, 0 where there is none.
fn last_slash(path: &[u8]) -> usize
    ensures place { result ≡ last_slash path.now }
    ensures within { result ≤ length path.now }
{
    let mut rest = path;
    'bytes: while let Some((byte, prefix)) = rest.split_last() {
        if *byte == b'/' {
            return prefix.len();
        }
        rest = prefix;
    }
    0
}

/// The path of the directory that holds a path. The root holds itself.
pub fn parent(path: &[u8]) -> &[u8]
    ensures { result.now ≡ parent path.now }
{
    let length = last_slash(path).max(1);
    &path[..length.min(path.len())]
}

/// Goes up to the directory that holds a path.
fn go_up(place: &mut Vec<u8>)
    ensures { place.new.items ≡ parent place.old.items }
{
    let length = last_slash(place.as_slice()).max(1);
    place.truncate(length);
}

/// Goes from a directory to what a component names there: dot and an empty one stay there, dot-dot goes up.
/// The only error is want of memory.
pub fn step(place: &mut Vec<u8>, name: &[u8]) -> Result<(), AllocError>
    ensures { OnOk result (place.new.items ≡ next_place place.old.items name.now) }
{
    if name.is_empty() || name == b".".as_slice() {
        return Ok(());
    }
    if name == b"..".as_slice() {
        go_up(place);
        return Ok(());
    }
    join(place, name)
}

/// Goes from a directory to a name in it.
fn join(place: &mut Vec<u8>, name: &[u8]) -> Result<(), AllocError>
    ensures { OnOk result (place.new.items ≡ path_in place.old.items name.now) }
{
    if place.as_slice() != b"/".as_slice() {
        place.push(b'/')?;
    }
    place.extend_from_slice(name)
}
