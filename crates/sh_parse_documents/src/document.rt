//! The bodies of here-documents (XCU 2.7.4).
ghost use Rattle.std.specs.Prelude.{◌≡◌, IfOk};
ghost use Rattle.sh_parse_documents.specs.Documents.{documents, between, place_at};

use crate::cut::cut_body;
use crate::line::between;
use sh_base::sequence::{Sequence, Text};
use sh_token_pieces::here::Delimiter;
use std::alloc::{AllocError, Global};

/// The body of a here-document, and its places in the text that it was cut from. A place is a number of bytes
/// before it.
#[derive(Debug, Drop)]
pub struct Document {
    /// Whether a part of its delimiter is quoted: then the body isn't expanded.
    pub is_quoted: bool,
    /// Its lines, each with its newline; with `<<-` without the tabs at their beginnings.
    pub text: Text,
    /// The place of each of its bytes in the text.
    pub places: Sequence<usize>,
    /// The place at which it ends: the place of its end line, or, without one, the end of the bytes that it
    /// was cut from.
    pub end: usize,
}

impl Document {
    /// The place in the text of the byte at an offset of the body; where the body has no such byte, the place
    /// at which it ends.
    #[tactic(auto, unfolding(crate::specs::Documents::place_at))]
    pub fn place(&self, offset: usize) -> usize
        ensures { result ≡ place_at self.now offset }
    {
        match self.places.as_slice().get(offset) {
            Some(place) => *place,
            None => self.end,
        }
    }
}

/// The bodies of the here-documents with these delimiters, in order, in the bytes of the text from `start` up
/// to, not including, `stop`. The only error is want of memory.
///
/// A body has the lines up to, not including, its end line. That is the first line that is its delimiter
/// alone and that isn't joined to the line before; it ends with a newline, or where the bytes end. Without an
/// end line all bytes are the body, and the bodies after it are empty. After `<<-` the tabs at the beginning
/// of a line are dropped, unless the line is joined to the line before. Time and memory are linear in the
/// bytes and the delimiters (XCU 2.7.4).
pub fn documents(
    alloc: Global,
    due: &[Delimiter],
    text: &[u8],
    start: usize,
    stop: usize,
) -> Result<Vec<Document>, AllocError>
    ensures { IfOk result (λ found.
        found.items ≡ documents due.now start (between start stop text.now)) }
{
    let bytes = between(text, start, stop);
    let end = start + bytes.len();
    let mut found = Vec::new(alloc);
    let mut due = due;
    let mut rest = bytes;
    while let Some((delimiter, others)) = due.split_first() {
        let body = cut_body(alloc, delimiter, rest, end)?;
        rest = body.rest;
        found.push(Document {
            is_quoted: delimiter.is_quoted,
            text: Sequence::from_vec(body.text),
            places: Sequence::from_vec(body.places),
            end: body.end,
        })?;
        due = others;
    }
    Ok(found)
}
