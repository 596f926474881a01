//! Lines of bodies.
ghost use Rattle.std.specs.Prelude.{◌≡◌, ◌<◌, ◌≤◌, ◌-◌, IfSome, suc, length, drop, take, position, nat_eq};
ghost use Rattle.sh_token_pieces.specs.Here.{without_tabs};
ghost use Rattle.sh_parse_documents.specs.Documents.{body_line, between};

use sh_token_pieces::here::{Delimiter, Tabs};

/// The place of the first newline.
pub(crate) fn first_newline(bytes: &[u8]) -> Option<usize>
    ensures place { result ≡ position (λ b. nat_eq b 10) bytes.now }
    ensures inside { IfSome result (λ place. place < length bytes.now) }
{
    bytes.iter().position(|b| *b == b'\n')
}

/// The first so many bytes.
pub(crate) fn prefix(bytes: &[u8], count: usize) -> &[u8]
    ensures { result.now ≡ take count bytes.now }
{
    if count <= bytes.len() {
        &bytes[..count]
    } else {
        bytes
    }
}

/// What is left after so many bytes.
fn behind(bytes: &[u8], count: usize) -> &[u8]
    ensures { result.now ≡ drop count bytes.now }
{
    if count <= bytes.len() {
        &bytes[count..]
    } else {
        &[]
    }
}

/// The bytes up to and with the one at a place.
pub(crate) fn up_to(bytes: &[u8], place: usize) -> &[u8]
    ensures { result.now ≡ take (suc place) bytes.now }
{
    if place < bytes.len() {
        &bytes[..place + 1]
    } else {
        bytes
    }
}

/// The bytes after the one at a place.
pub(crate) fn behind_place(bytes: &[u8], place: usize) -> &[u8]
    ensures { result.now ≡ drop (suc place) bytes.now }
{
    if place < bytes.len() {
        &bytes[place + 1..]
    } else {
        &[]
    }
}

/// The bytes from one place up to another.
pub(crate) fn between(text: &[u8], start: usize, stop: usize) -> &[u8]
    ensures value { result.now ≡ between start stop text.now }
    ensures inside { length result.now ≤ length text.now - start }
{
    prefix(behind(text, start), stop.saturating_sub(start))
}

/// A line without the tabs at its beginning.
fn without_tabs(line: &[u8]) -> &[u8]
    ensures value { result.now ≡ without_tabs line.now }
    ensures shorter { length result.now ≤ length line.now }
{
    let mut rest = line;
    while let Some((first, after)) = rest.split_first() {
        if *first != b'\t' {
            return rest;
        }
        rest = after;
    }
    rest
}

/// What a body takes of a line; `joined`: the line before is joined with it.
pub(crate) fn kept<'t>(delimiter: &Delimiter, joined: bool, line: &'t [u8]) -> &'t [u8]
    ensures value { result.now ≡ body_line delimiter.now joined line.now }
    ensures shorter { length result.now ≤ length line.now }
{
    if joined {
        return line;
    }
    match delimiter.tabs {
        Tabs::Kept => line,
        Tabs::Stripped => without_tabs(line),
    }
}
