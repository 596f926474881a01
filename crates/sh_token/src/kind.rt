//! The kind of a token by its pieces.
ghost use Rattle.std.specs.Prelude.{◌≡◌, IfOk, drop, suc, length, reverse, position};
ghost use Rattle.sh_token.specs.Found.{is_of_token, place_or, gap_length, kind_by, kind_of};
ghost use Rattle.sh_token.specs.Tokens.{is_number, word_kind};

use crate::token::TokenKind;
use sh_base::sequence::Sequence;
use sh_token_grammar::class::TokenClass;
use sh_token_pieces::piece::{Piece, word_class};
use std::alloc::{AllocError, Global};

/// Whether a piece belongs to a token.
fn is_of_token(piece: &Piece) -> bool
    ensures { result ≡ is_of_token piece.now }
{
    match piece {
        Piece::Blank(_) | Piece::Comment(_) => false,
        _ => true,
    }
}

/// How many pieces are before the token.
fn gap_length(pieces: &[Piece]) -> usize
    ensures { result ≡ gap_length pieces.now }
{
    match token_place(pieces) {
        Some(place) => place,
        None => pieces.len(),
    }
}

/// Where the token begins.
fn token_place(pieces: &[Piece]) -> Option<usize>
    ensures { result ≡ position is_of_token pieces.now }
{
    pieces.iter().position(|piece| is_of_token(piece))
}

/// Whether a word is the number of a file descriptor; `redirection`: `<` or `>` follows it.
fn is_number(alloc: Global, redirection: bool, pieces: &[Piece]) -> Result<bool, AllocError>
    ensures { IfOk result (λ number. number ≡ is_number redirection pieces.now) }
{
    let class = word_class(alloc, redirection, pieces)?;
    Ok(class.number() == TokenClass::Number.number())
}

/// The pieces after the first `count + 1`.
fn behind(mut pieces: Vec<Piece>, count: usize) -> Result<Vec<Piece>, AllocError>
    ensures { IfOk result (λ rest. rest.items ≡ drop (suc count) pieces.items) }
{
    if count < pieces.len() {
        let rest = pieces.split_off(count + 1)?;
        return Ok(rest);
    }
    pieces.clear();
    Ok(pieces)
}

fn word_kind(alloc: Global, redirection: bool, word: Vec<Piece>) -> Result<TokenKind, AllocError>
    ensures { IfOk result (λ kind. kind ≡ word_kind redirection word.items) }
{
    if is_number(alloc, redirection, word.as_slice())? {
        return Ok(TokenKind::Number);
    }
    Ok(TokenKind::Word(Sequence::from_vec(word)))
}

/// The kind of the token whose last piece is `last`, after the other `pieces`.
fn kind_behind(alloc: Global, last: Piece, pieces: Vec<Piece>) -> Result<TokenKind, AllocError>
    ensures { IfOk result (λ kind. kind ≡ kind_by last pieces.items) }
{
    match last {
        Piece::Operator(operator) => Ok(TokenKind::Operator(operator)),
        Piece::WordClose(redirection) => {
            let gap = gap_length(pieces.as_slice());
            let word = behind(pieces, gap)?;
            let kind = word_kind(alloc, redirection, word)?;
            Ok(kind)
        },
        _ => Ok(TokenKind::End),
    }
}

/// The kind of the token that these pieces are.
pub(crate) fn kind(alloc: Global, mut pieces: Vec<Piece>) -> Result<TokenKind, AllocError>
    ensures { IfOk result (λ kind. kind ≡ kind_of pieces.items) }
{
    let Some(last) = pieces.pop() else {
        return Ok(TokenKind::End);
    };
    let kind = kind_behind(alloc, last, pieces)?;
    Ok(kind)
}
