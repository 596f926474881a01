//! Parts of texts.
ghost use Rattle.std.specs.Prelude.{◌≡◌, IfOk, suc, take, drop};
ghost use Rattle.sh_parse_leaves.specs.Sources.{text_between, inside, backquotes_text, digits_in, behind_pieces};

use sh_parse_words::backquotes::unescaped;
use sh_parse_words::place::behind_piece;
use sh_token_pieces::piece::Piece;
use std::alloc::{AllocError, Global};

/// The bytes from a place on.
pub fn text_from(text: &[u8], start: usize) -> &[u8]
    ensures { result.now ≡ drop start text.now }
{
    if start <= text.len() {
        &text[start..]
    } else {
        &[]
    }
}

/// The first `size` bytes.
pub fn first_bytes(bytes: &[u8], size: usize) -> &[u8]
    ensures { result.now ≡ take size bytes.now }
{
    if size <= bytes.len() {
        &bytes[..size]
    } else {
        bytes
    }
}

/// The bytes from a place up to another.
pub fn text_between(text: &[u8], start: usize, end: usize) -> &[u8]
    ensures { result.now ≡ text_between text.now start end }
{
    first_bytes(text_from(text, start), end.saturating_sub(start))
}

/// The bytes without the first and the last.
fn inside(bytes: &[u8]) -> &[u8]
    ensures { result.now ≡ inside bytes.now }
{
    first_bytes(text_from(bytes, 1), bytes.len().saturating_sub(2))
}

/// The text of the commands between backquotes, from the bytes with both backquotes; `is_quoted`: they are in
/// double quotes.
pub fn backquoted(alloc: Global, is_quoted: bool, bytes: &[u8]) -> Result<Vec<u8>, AllocError>
    ensures { IfOk result (λ text. text.items ≡ backquotes_text is_quoted bytes.now) }
{
    let text = unescaped(alloc, is_quoted, inside(bytes))?;
    Ok(text)
}

/// The digits among the bytes.
pub fn digits_in(alloc: Global, bytes: &[u8]) -> Result<Vec<u8>, AllocError>
    ensures { IfOk result (λ digits. digits.items ≡ digits_in bytes.now) }
{
    let mut digits = Vec::new(alloc);
    let mut rest = bytes;
    while let Some((b, others)) = rest.split_first() {
        if b.is_ascii_digit() {
            digits.push(*b)?;
        }
        rest = others;
    }
    Ok(digits)
}

/// What comes after pieces with which the bytes begin.
pub fn behind_pieces<'t>(pieces: &[Piece], bytes: &'t [u8]) -> &'t [u8]
    ensures { result.now ≡ behind_pieces pieces.now bytes.now }
{
    let mut left = bytes;
    let mut rest = pieces;
    while let Some((piece, others)) = rest.split_first() {
        left = behind_piece(piece, left);
        rest = others;
    }
    left
}

/// The pieces after the one at a place.
pub fn pieces_behind(pieces: &[Piece], place: usize) -> &[Piece]
    ensures { result.now ≡ drop (suc place) pieces.now }
{
    if place < pieces.len() {
        &pieces[place + 1..]
    } else {
        &[]
    }
}

/// The pieces up to and with the one at a place.
pub fn pieces_through(pieces: &[Piece], place: usize) -> &[Piece]
    ensures { result.now ≡ take (suc place) pieces.now }
{
    if place < pieces.len() {
        &pieces[..place + 1]
    } else {
        pieces
    }
}

/// The bytes up to and with the one at a place.
pub fn bytes_through(bytes: &[u8], place: usize) -> &[u8]
    ensures { result.now ≡ take (suc place) bytes.now }
{
    if place < bytes.len() {
        &bytes[..place + 1]
    } else {
        bytes
    }
}
