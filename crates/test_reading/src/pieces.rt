//! Pieces of the bodies of here-documents.
//!
//! `pieces WANTED BODY`: the pieces of a body with blanks between them, each a sign and its bytes, in which a newline is shown as `~` and
//! a space as `_`. A byte for itself is `.` and the byte, an escaped one `\`, one behind a backslash for itself `/`; `'` and a backquote
//! stand before what is between two of them; a name has `$`, a short parameter `@`, a head `{`, an operator `;`, bodies `&`, a blank `b`,
//! a comment `#`. Or `open PLACE`: where the form begins that isn't closed; or `deep PLACE`.
//!
//! With a body of six fields (`fields::built`): `closed` in place of the pieces.
use sh_base::NoMemory;
use sh_token::body_pieces::{BodyFault, body_pieces};
use sh_token_pieces::piece::Piece;
use std::alloc::{AllocError, Global};
use test_rows::fields::{Found, built};
use test_rows::show::{put_place, put_word};
use test_rows::{Row, by_kind};

/// How many levels may be open in a body.
const LEVELS: usize = 500;

/// Writes a piece: its sign and its bytes.
fn put(shown: &mut Vec<u8>, sign: &[u8], bytes: &[u8]) -> Result<(), AllocError> {
    put_word(shown, sign)?;
    for byte in bytes {
        shown.push(match *byte {
            b'\n' => b'~',
            b' ' => b'_',
            other => other,
        })?;
    }
    Ok(())
}

/// Writes a piece.
fn put_piece(shown: &mut Vec<u8>, piece: &Piece) -> Result<(), AllocError> {
    match piece {
        Piece::Byte(byte) => put(shown, b".", &[*byte]),
        Piece::Escaped(byte) => put(shown, b"\\", &[*byte]),
        Piece::Backslash(byte) => put(shown, b"/", &[*byte]),
        Piece::SingleQuoted(text) => put(shown, b"'", text.as_slice()),
        Piece::DoubleQuotesOpen => put(shown, b"\"(", b""),
        Piece::DoubleQuotesClose => put(shown, b"\")", b""),
        Piece::Dollar => put(shown, b"$", b""),
        Piece::Variable(text) => put(shown, b"$", text.as_slice()),
        Piece::Parameter(byte) => put(shown, b"@", &[*byte]),
        Piece::BraceOpen(text) => put(shown, b"{", text.as_slice()),
        Piece::BraceClose => put(shown, b"}", b""),
        Piece::ArithmeticOpen => put(shown, b"((", b""),
        Piece::ArithmeticClose => put(shown, b"))", b""),
        Piece::CommandsOpen => put(shown, b"(", b""),
        Piece::CommandsClose => put(shown, b")", b""),
        Piece::Backquoted(text) => put(shown, b"`", text.as_slice()),
        Piece::WordOpen => put(shown, b"[", b""),
        Piece::WordClose(_) => put(shown, b"]", b""),
        Piece::Blank(byte) => put(shown, b"b", &[*byte]),
        Piece::Comment(text) => put(shown, b"#", text.as_slice()),
        Piece::Bodies(text) => put(shown, b"&", text.as_slice()),
        Piece::Operator(operator) => put(shown, b";", operator.text()),
    }
}

/// Writes the pieces of a body.
fn put_pieces(shown: &mut Vec<u8>, pieces: &[Piece]) -> Result<(), AllocError> {
    for piece in pieces {
        put_piece(shown, piece)?;
    }
    Ok(())
}

/// Writes why a body has no pieces.
fn put_fault(shown: &mut Vec<u8>, fault: BodyFault) -> Result<(), AllocError> {
    let (word, at) = match fault {
        BodyFault::Open { at } => (b"open", at),
        BodyFault::TooDeep { at } => (b"deep", at),
        BodyFault::NoMemory(lack) => return Err(AllocError::from(lack)),
    };
    put_word(shown, word)?;
    put_place(shown, at)
}

/// `pieces` of a written body.
fn pieces_of(alloc: Global, body: &[u8]) -> Result<Vec<u8>, NoMemory> {
    let mut shown = Vec::new(alloc);
    match body_pieces(alloc, body, LEVELS) {
        Ok(pieces) => {
            let put = put_pieces(&mut shown, pieces.as_slice());
            drop(pieces);
            put?;
        },
        Err(fault) => put_fault(&mut shown, fault)?,
    }
    Ok(shown)
}

/// `pieces` of a built body.
fn fault_of(alloc: Global, row: &Row) -> Result<Vec<u8>, NoMemory> {
    let body = built(alloc, row)?;
    let mut shown = Vec::new(alloc);
    match body_pieces(alloc, &body, LEVELS) {
        Ok(pieces) => {
            drop(pieces);
            put_word(&mut shown, b"closed")?;
        },
        Err(fault) => put_fault(&mut shown, fault)?,
    }
    Ok(shown)
}

/// What a row comes to; none where its kind is none of these.
pub(crate) fn found(alloc: Global, row: &Row) -> Found {
    by_kind! { row;
        "pieces", 2 => pieces_of(alloc, row.field(2));
        "pieces", 7 => fault_of(alloc, row);
    }
}
