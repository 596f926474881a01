//! What the fields of rows mean, and what rows come to by their kinds.
use crate::row::Row;
use sh_base::NoMemory;
use std::alloc::{AllocError, Global};

/// What a row comes to; none where its kind isn't known, or has other fields.
pub type Found = Option<Result<Vec<u8>, NoMemory>>;

/// What a row comes to by a table of kinds, each with the number of fields behind it.
#[macro_export]
macro_rules! by_kind {
    ($row:ident; $($kind:literal, $fields:literal => $found:expr;)*) => {{
        $(if $row.is($kind, $fields) {
            return Some($found);
        })*
        None
    }};
}

/// What a row comes to by the first of some modules that knows its kind. Each has a function `found`.
#[macro_export]
macro_rules! by_module {
    ($alloc:ident, $row:ident; $($module:ident),*) => {{
        $(if let Some(found) = $module::found($alloc, $row) {
            return Some(found);
        })*
        None
    }};
}

/// The number that digits write.
pub fn number(digits: &[u8]) -> usize {
    digits.iter().fold(0usize, |number, digit| {
        number
            .saturating_mul(10)
            .saturating_add(usize::from(digit.saturating_sub(b'0')))
    })
}

/// The pieces of a field that stand between blanks, those with nothing in them left out.
pub fn pieces<'f>(alloc: Global, field: &'f [u8]) -> Result<Vec<&'f [u8]>, AllocError> {
    let mut pieces = Vec::new(alloc);
    for piece in field.split(|byte| *byte == b' ') {
        if !piece.is_empty() {
            pieces.push(piece)?;
        }
    }
    Ok(pieces)
}

/// A text without the `^` in it, and the place that this marks; that of its end where there is none.
pub fn marked(alloc: Global, field: &[u8]) -> Result<(Vec<u8>, usize), AllocError> {
    let mut text = Vec::new(alloc);
    let mut mark = None;
    for byte in field {
        if *byte == b'^' {
            mark = Some(text.len());
        } else {
            text.push(*byte)?;
        }
    }
    let place = mark.unwrap_or(text.len());
    Ok((text, place))
}

/// Writes bytes so many times.
fn put_times(text: &mut Vec<u8>, count: usize, bytes: &[u8]) -> Result<(), AllocError> {
    for _ in 0..count {
        text.extend_from_slice(bytes)?;
    }
    Ok(())
}

/// The text of the six fields `COUNT BEFORE FRONT MIDDLE BACK BEHIND`, of which COUNT says how many times FRONT and BACK stand in it.
pub fn built(alloc: Global, row: &Row) -> Result<Vec<u8>, AllocError> {
    let count = number(row.field(2));
    let mut text = Vec::new(alloc);
    text.extend_from_slice(row.field(3))?;
    put_times(&mut text, count, row.field(4))?;
    text.extend_from_slice(row.field(5))?;
    put_times(&mut text, count, row.field(6))?;
    text.extend_from_slice(row.field(7))?;
    Ok(text)
}
