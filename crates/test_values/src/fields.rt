//! Fields, and the paths that they stand for.
use crate::steps::{bracketed, said};
use sh_expand_fields::{
    Fields, Item, Separators, expand_pathnames, pattern_of, remove_quotes, split,
};
use sh_files::Files;
use std::alloc::{AllocError, Global};
use test_rows::RowFault;

/// How the next bytes of a word are meant.
#[derive(Clone, Copy)]
enum Meant {
    Expanded,
    Quoted,
    Literal,
}

/// A byte as an item.
fn item(meant: Meant, byte: u8) -> Item {
    match meant {
        Meant::Expanded => Item::Expanded(byte),
        Meant::Quoted => Item::Quoted(byte),
        Meant::Literal => Item::Literal(byte),
    }
}

/// The items of a word: `"` stands round quoted bytes, `<` and `>` round literal ones, `|` between two parameters; the other bytes are
/// from an expansion.
fn items(alloc: Global, word: &[u8]) -> Result<Vec<Item>, AllocError> {
    let mut all = Vec::new(alloc);
    let mut meant = Meant::Expanded;
    for byte in word {
        match *byte {
            b'"' => {
                if let Meant::Expanded = meant {
                    all.push(Item::Null)?;
                    meant = Meant::Quoted;
                } else {
                    meant = Meant::Expanded;
                }
            },
            b'<' => meant = Meant::Literal,
            b'>' => meant = Meant::Expanded,
            b'|' => all.push(Item::Break)?,
            other => all.push(item(meant, other))?,
        }
    }
    Ok(all)
}

/// Fields without their quotes, each between brackets.
fn shown(alloc: Global, fields: &Fields) -> Result<Vec<u8>, AllocError> {
    let mut text = Vec::new(alloc);
    for field in fields.as_slice() {
        text.push(b'[')?;
        text.extend_from_slice(&remove_quotes(alloc, field)?)?;
        text.push(b']')?;
    }
    Ok(text)
}

/// IFS, as a field of a row has it: `none` where it isn't set, `default` for a blank, a tab and a newline, else its bytes.
pub(crate) fn ifs_of(field: &[u8]) -> Option<&[u8]> {
    match field {
        b"none" => None,
        b"default" => Some(b" \t\n"),
        bytes => Some(bytes),
    }
}

/// The separators of IFS.
fn separators_of(field: &[u8]) -> Separators<'_> {
    match ifs_of(field) {
        Some(bytes) => Separators::Set(bytes),
        None => Separators::Unset,
    }
}

/// `fields IFS WORD`: the fields of the word, each between brackets.
pub(crate) fn fields(alloc: Global, ifs: &[u8], word: &[u8]) -> Result<Vec<u8>, RowFault> {
    let word = items(alloc, word)?;
    let fields = split(alloc, separators_of(ifs), &word)?;
    let text = shown(alloc, &fields);
    drop(fields);
    Ok(text?)
}

/// `joiner IFS`: the byte that joins fields, between brackets, or `none`.
pub(crate) fn joiner(alloc: Global, ifs: &[u8]) -> Result<Vec<u8>, RowFault> {
    match separators_of(ifs).joiner() {
        Some(byte) => bracketed(alloc, &[byte]),
        None => said(alloc, "none"),
    }
}

/// `marks WORD`: the pattern that the word is, `L` before each literal byte and `-` before each other.
pub(crate) fn marks(alloc: Global, word: &[u8]) -> Result<Vec<u8>, RowFault> {
    let word = items(alloc, word)?;
    let pattern = pattern_of(alloc, &word)?;
    let mut text = Vec::new(alloc);
    for mark in pattern.as_slice() {
        text.push(if mark.literal { b'L' } else { b'-' })?;
        text.push(mark.byte)?;
    }
    Ok(text)
}

/// The files among which paths are sought.
const IMAGE: &[u8] = b"psh image 1\n\
dir /bin\n\
dir /d\n\
file /d/.x rw- 0\n\
\n\
file /d/a rw- 0\n\
\n\
file /d/b rw- 0\n\
\n\
dir /d-e\n\
file /d-e/a rw- 0\n\
\n\
file /d/a[ rw- 0\n\
\n\
dir /d/s\n\
file /d/s/a rw- 0\n\
\n\
file /.c rw- 0\n\
\n\
file /a.c rw- 0\n\
\n\
file /b.c rw- 0\n\
\n\
file /*x rw- 0\n\
\n\
end\n";

/// The paths that a field stands for among files, each between brackets.
fn paths_among(
    alloc: Global,
    files: &Files,
    directory: &[u8],
    word: &[u8],
) -> Result<Vec<u8>, AllocError> {
    let field = items(alloc, word)?;
    let paths = expand_pathnames(alloc, files, directory, &field)?;
    let mut text = Vec::new(alloc);
    for path in paths.as_slice() {
        text.push(b'[')?;
        text.extend_from_slice(path)?;
        text.push(b']')?;
    }
    Ok(text)
}

/// `paths DIRECTORY WORD`: the paths that the word stands for in the directory, each between brackets.
pub(crate) fn paths(alloc: Global, directory: &[u8], word: &[u8]) -> Result<Vec<u8>, RowFault> {
    let Ok(files) = Files::from_image(alloc, IMAGE) else {
        return Err(RowFault::NoMemory);
    };
    let text = paths_among(alloc, &files, directory, word);
    drop(files);
    Ok(text?)
}
