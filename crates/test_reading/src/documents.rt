//! Bodies of here-documents, cut of the lines behind their operators.
//!
//! DUE is a list of delimiters with commas between them: `E`, quoted as `'E'`; `-E` behind `<<-`, quoted as `-'E'`.
//!
//! `cut WANTED DUE TEXT`: the bodies that stand first in a text, each with a `|` behind it.
//!
//! `places WANTED DUE TEXT START STOP`: of the last body that is cut of a text from START up to STOP, the places of its bytes, and that at
//! which it ends. Offsets behind its end have that place too; where they don't, `unlike` stands behind.
//!
//! `quoted WANTED DUE TEXT`: for each body `quoted` or `expanded`, by its delimiter.
use sh_base::NoMemory;
use sh_base::sequence::Text;
use sh_parse_documents::document::{Document, documents};
use sh_token_pieces::here::{Delimiter, Tabs};
use std::alloc::{AllocError, Global};
use test_rows::fields::{Found, number};
use test_rows::show::{put_place, put_word};
use test_rows::{Row, by_kind};

/// The delimiter that a piece of DUE writes.
fn delimiter(alloc: Global, written: &[u8]) -> Result<Delimiter, AllocError> {
    let (tabs, word) = match written {
        [b'-', rest @ ..] => (Tabs::Stripped, rest),
        _ => (Tabs::Kept, written),
    };
    let (is_quoted, text) = match word {
        [b'\'', text @ .., b'\''] => (true, text),
        _ => (false, word),
    };
    let text = Text::from_vec(text.to_vec(alloc)?);
    Ok(Delimiter {
        text,
        is_quoted,
        tabs,
    })
}

/// The delimiters that DUE writes.
fn delimiters(alloc: Global, due: &[u8]) -> Result<Vec<Delimiter>, AllocError> {
    let mut delimiters = Vec::new(alloc);
    for written in due.split(|byte| *byte == b',') {
        if !written.is_empty() {
            delimiters.push(delimiter(alloc, written)?)?;
        }
    }
    Ok(delimiters)
}

/// The bodies that are cut of a text from one place up to another.
fn cut(alloc: Global, row: &Row, start: usize, stop: usize) -> Result<Vec<Document>, AllocError> {
    let due = delimiters(alloc, row.field(2))?;
    let found = documents(alloc, &due, row.field(3), start, stop);
    drop(due);
    found
}

/// Writes bodies, each with a `|` behind it.
fn put_bodies(shown: &mut Vec<u8>, bodies: &[Document]) -> Result<(), AllocError> {
    for body in bodies {
        shown.extend_from_slice(body.text.as_slice())?;
        shown.push(b'|')?;
    }
    Ok(())
}

/// Writes whether bodies are quoted.
fn put_quoted(shown: &mut Vec<u8>, bodies: &[Document]) -> Result<(), AllocError> {
    for body in bodies {
        put_word(
            shown,
            if body.is_quoted {
                b"quoted"
            } else {
                b"expanded"
            },
        )?;
    }
    Ok(())
}

/// Writes the places of the last body.
fn put_places(shown: &mut Vec<u8>, bodies: &[Document]) -> Result<(), AllocError> {
    let Some(last) = bodies.last() else {
        return Ok(());
    };
    for offset in 0..=last.text.len() {
        put_place(shown, last.place(offset))?;
    }
    if last.place(1000) == last.end {
        return Ok(());
    }
    put_word(shown, b"unlike")
}

/// `cut` and `quoted`.
fn bodies_of(alloc: Global, row: &Row, is_cut: bool) -> Result<Vec<u8>, NoMemory> {
    let bodies = cut(alloc, row, 0, row.field(3).len())?;
    let mut shown = Vec::new(alloc);
    let put = if is_cut {
        put_bodies(&mut shown, &bodies)
    } else {
        put_quoted(&mut shown, &bodies)
    };
    drop(bodies);
    put?;
    Ok(shown)
}

/// `places`.
fn places_of(alloc: Global, row: &Row) -> Result<Vec<u8>, NoMemory> {
    let bodies = cut(alloc, row, number(row.field(4)), number(row.field(5)))?;
    let mut shown = Vec::new(alloc);
    let put = put_places(&mut shown, &bodies);
    drop(bodies);
    put?;
    Ok(shown)
}

/// What a row comes to; none where its kind is none of these.
pub(crate) fn found(alloc: Global, row: &Row) -> Found {
    by_kind! { row;
        "cut", 3 => bodies_of(alloc, row, true);
        "quoted", 3 => bodies_of(alloc, row, false);
        "places", 5 => places_of(alloc, row);
    }
}
