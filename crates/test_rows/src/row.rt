//! The file of rows.
ghost use Rattle.std.specs.Prelude.{◌<◌, length};

use std::alloc::{AllocError, AllocFailed, Global};
use thiserror::Error;

/// A row: its fields. The first field says what kind of row it is.
#[derive(Drop)]
pub struct Row {
    /// The number of its line in the file; the first line is 1.
    pub line: usize,
    fields: Vec<Vec<u8>>,
}

impl Row {
    /// The bytes of a field; field 0 is the kind. Empty where the row has fewer fields.
    pub fn field(&self, place: usize) -> &[u8] {
        match self.fields.get(place) {
            Some(field) => field.as_slice(),
            None => &[],
        }
    }

    /// The bytes of the last field.
    pub fn last(&self) -> &[u8] {
        self.field(self.fields.len().saturating_sub(1))
    }

    /// Whether the row is of a kind, with so many fields after it.
    pub fn is(&self, kind: &str, fields: usize) -> bool {
        self.field(0) == kind.as_bytes() && self.fields.len().saturating_sub(1) == fields
    }
}

/// Why rows aren't judged.
#[derive(Debug, Drop, Error)]
pub enum RowFault {
    /// A line is no row. Lines count from 1.
    #[error("line {line} is no row")]
    NoRow { line: usize },
    /// A file can't be read.
    #[error("a file can't be read")]
    NoFile,
    /// No memory was found.
    #[error("out of memory")]
    NoMemory,
}

impl From<AllocError> for RowFault {
    fn from(_error: AllocError) -> Self {
        RowFault::NoMemory
    }
}

impl<T: Drop> From<AllocFailed<T>> for RowFault {
    fn from(_error: AllocFailed<T>) -> Self {
        RowFault::NoMemory
    }
}

/// The bytes before the first `separator`, and the bytes after it. Without a separator, all bytes and none.
fn cut(bytes: &[u8], separator: u8) -> (&[u8], &[u8])
    ensures { 0 < length bytes.now → length result.1.now < length bytes.now }
{
    match bytes.iter().position(|byte| *byte == separator) {
        Some(i) => (&bytes[..i], &bytes[i + 1..]),
        None => (bytes, &[]),
    }
}

/// The value of a hexadecimal digit; 0 for any other byte.
fn digit(byte: u8) -> u8 {
    match byte {
        b'0'..=b'9' => byte.saturating_sub(b'0'),
        b'a'..=b'f' => byte.saturating_sub(b'a').saturating_add(10),
        _ => 0,
    }
}

/// What the bytes of a field so far mean for the next byte.
#[derive(Clone, Copy)]
enum Held {
    Nothing,
    Backslash,
    HalfByte,
    HighDigit(u8),
}

/// Takes a byte of a field: `\n`, `\t`, `\\` and `\xHH` stand for one byte each.
fn take(text: &mut Vec<u8>, held: Held, byte: u8) -> Result<Held, AllocError> {
    match held {
        Held::Nothing if byte == b'\\' => return Ok(Held::Backslash),
        Held::Nothing => text.push(byte)?,
        Held::Backslash if byte == b'x' => return Ok(Held::HalfByte),
        Held::Backslash if byte == b'n' => text.push(b'\n')?,
        Held::Backslash if byte == b't' => text.push(b'\t')?,
        Held::Backslash => text.push(byte)?,
        Held::HalfByte => return Ok(Held::HighDigit(digit(byte))),
        Held::HighDigit(high) => text.push((high << 4) | digit(byte))?,
    }
    Ok(Held::Nothing)
}

/// The text of a field.
fn text_of(alloc: Global, field: &[u8]) -> Result<Vec<u8>, RowFault> {
    let mut text = Vec::new(alloc);
    let mut held = Held::Nothing;
    for byte in field {
        held = take(&mut text, held, *byte)?;
    }
    Ok(text)
}

/// The fields of a line, which are separated by tabs.
fn fields_of(alloc: Global, line: &[u8]) -> Result<Vec<Vec<u8>>, RowFault> {
    let mut fields = Vec::new(alloc);
    for field in line.split(|byte| *byte == b'\t') {
        fields.push(text_of(alloc, field)?)?;
    }
    Ok(fields)
}

/// The rows of a file's bytes, a line each. Empty lines and lines that begin with `#` are no rows.
///
/// In fields `\n`, `\t`, `\\` and `\x` with two hexadecimal digits stand for one byte each.
///
/// # Errors
///
/// [`RowFault::NoMemory`].
pub fn read_rows(alloc: Global, bytes: &[u8]) -> Result<Vec<Row>, RowFault> {
    let mut rows = Vec::new(alloc);
    let mut number = 0usize;
    let mut rest = bytes;
    'lines: while !rest.is_empty() {
        let (line, behind) = cut(rest, b'\n');
        number = number.saturating_add(1);
        if !line.is_empty() && !line.starts_with(b"#") {
            let fields = fields_of(alloc, line)?;
            rows.push(Row {
                line: number,
                fields,
            })?;
        }
        rest = behind;
    }
    Ok(rows)
}
