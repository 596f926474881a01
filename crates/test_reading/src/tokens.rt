//! Tokens.
//!
//! `token WANTED TEXT`: the first token of a text where the input goes on: `token` or, for the number of a descriptor, `number`, with its
//! first place and the place behind it; or `unfinished`, `deep PLACE`. With a text of six fields (`fields::built`) too.
//!
//! `last-token WANTED TEXT`: the same where the text's end is that of the input.
//!
//! `token-fronts SIGNS TEXT`, `last-token-fronts SIGNS TEXT`: what stands first in the fronts of a text, from the empty one on, a sign
//! each: `t` a token that is the whole prefix, `u` one that is unfinished. `?` is anything else.
use sh_base::NoMemory;
use sh_token::token::{Token, TokenFault, TokenKind, next_token};
use std::alloc::{AllocError, Global};
use test_rows::fields::{Found, built};
use test_rows::show::{put_place, put_word};
use test_rows::{Row, by_kind};

/// What stands first in a text. Places are numbers of bytes.
#[derive(Clone, Copy)]
enum First {
    Number(usize, usize),
    Token(usize, usize),
    Unfinished,
    TooDeep(usize),
}

/// Where a token stands, and whether it is the number of a descriptor.
fn first_of(token: Token) -> First {
    let Token { kind, span } = token;
    let is_number = matches!(kind, TokenKind::Number);
    drop(kind);
    if is_number {
        return First::Number(span.start, span.end);
    }
    First::Token(span.start, span.end)
}

/// What stands first in a text.
fn first_token(alloc: Global, text: &[u8], at_end: bool) -> Result<First, NoMemory> {
    match next_token(alloc, text, 0, at_end) {
        Ok(token) => Ok(first_of(token)),
        Err(TokenFault::Unfinished) => Ok(First::Unfinished),
        Err(TokenFault::TooDeep { at }) => Ok(First::TooDeep(at)),
        Err(TokenFault::NoMemory(lack)) => Err(lack),
    }
}

/// Writes a word and places.
fn put(shown: &mut Vec<u8>, word: &[u8], places: &[usize]) -> Result<(), AllocError> {
    put_word(shown, word)?;
    for place in places {
        put_place(shown, *place)?;
    }
    Ok(())
}

/// `token` and `last-token`.
fn shown_of(alloc: Global, text: &[u8], at_end: bool) -> Result<Vec<u8>, NoMemory> {
    let first = first_token(alloc, text, at_end)?;
    let mut shown = Vec::new(alloc);
    match first {
        First::Number(start, end) => put(&mut shown, b"number", &[start, end])?,
        First::Token(start, end) => put(&mut shown, b"token", &[start, end])?,
        First::Unfinished => put(&mut shown, b"unfinished", &[])?,
        First::TooDeep(at) => put(&mut shown, b"deep", &[at])?,
    }
    Ok(shown)
}

/// `token` of a built text.
fn shown_of_built(alloc: Global, row: &Row) -> Result<Vec<u8>, NoMemory> {
    let text = built(alloc, row)?;
    shown_of(alloc, &text, false)
}

/// The sign of a prefix of so many bytes.
fn sign_of(first: First, size: usize) -> u8 {
    match first {
        First::Token(0, end) if end == size => b't',
        First::Unfinished => b'u',
        _ => b'?',
    }
}

/// The signs of the prefixes of a text.
fn signs(alloc: Global, text: &[u8], at_end: bool) -> Result<Vec<u8>, NoMemory> {
    let mut signs = Vec::new(alloc);
    for size in 0..=text.len() {
        let prefix = text.get(..size).unwrap_or(b"");
        let first = first_token(alloc, prefix, at_end)?;
        signs.push(sign_of(first, size))?;
    }
    Ok(signs)
}

/// What a row comes to; none where its kind is none of these.
pub(crate) fn found(alloc: Global, row: &Row) -> Found {
    let text = row.field(2);
    by_kind! { row;
        "token", 2 => shown_of(alloc, text, false);
        "token", 7 => shown_of_built(alloc, row);
        "last-token", 2 => shown_of(alloc, text, true);
        "token-fronts", 2 => signs(alloc, text, false);
        "last-token-fronts", 2 => signs(alloc, text, true);
    }
}
