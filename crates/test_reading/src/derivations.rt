//! Derivations by the grammar of commands. The tokens of a TEXT stand between blanks; a newline is one too.
//!
//! `command WANTED TEXT`: whether the tokens are a complete command: `whole`, or `front` where they begin one; or `refused` and how many
//! tokens stand before the first that nothing follows up. `substitution WANTED TEXT`: the same for the text of a command substitution.
//!
//! `open WANTED TEXT`: how many compound commands are open before the first token of a command and behind each. A token that is refused
//! has a `!`. `open-substituted`: the same for the text of a command substitution. `awaited`: how many ends of compound commands the
//! recognizer of a command awaits there.
//!
//! `name WANTED BYTES`: whether bytes are a name: `yes` or `no`.
use sh_base::NoMemory;
use sh_base::name::is_name;
use sh_grammar::{Recognizer, Token};
use sh_token_grammar::class::TokenClass;
use sh_token_grammar::grammar::{complete_command, substituted};
use sh_token_grammar::levels::{end_of_compound, open_compounds};
use std::alloc::{AllocError, Global};
use test_rows::fields::{Found, pieces};
use test_rows::show::{put_number, put_place, put_word, word_of};
use test_rows::{Row, by_kind};

/// What a text is read as.
#[derive(Clone, Copy)]
pub enum Start {
    Command,
    Substitution,
}

impl Start {
    /// What reads the tokens of such a text.
    pub fn recognizer(self, alloc: Global) -> Result<Recognizer<'static>, AllocError> {
        match self {
            Start::Command => Recognizer::new(alloc, complete_command()),
            Start::Substitution => Recognizer::new(alloc, substituted()),
        }
    }
}

/// The class of a token.
pub fn class_of(token: &[u8]) -> TokenClass {
    match token {
        b";" => TokenClass::Semicolon,
        b"&" => TokenClass::And,
        b"&&" => TokenClass::AndIf,
        b"||" => TokenClass::OrIf,
        b"|" => TokenClass::Pipe,
        b"(" => TokenClass::LeftParenthesis,
        b")" => TokenClass::RightParenthesis,
        b";;" => TokenClass::DoubleSemicolon,
        b"\n" => TokenClass::Newline,
        b">" | b"<" | b"<<" => TokenClass::Redirection,
        b"2" | b"3" => TokenClass::Number,
        b"x=1" | b"y=2" => TokenClass::Assignment,
        text => TokenClass::of_text(text),
    }
}

/// How many tokens are taken, up to the first that is refused.
fn take_all(recognizer: &mut Recognizer<'_>, tokens: &[&[u8]]) -> Result<usize, AllocError> {
    for (id, token) in tokens.iter().enumerate() {
        let class = class_of(token).number();
        if !recognizer.take(Token { class, id })? {
            return Ok(id);
        }
    }
    Ok(tokens.len())
}

/// `command` and `substitution`.
fn text_of(alloc: Global, text: &[u8], start: Start) -> Result<Vec<u8>, NoMemory> {
    let mut recognizer = start.recognizer(alloc)?;
    let tokens = pieces(alloc, text)?;
    let taken = take_all(&mut recognizer, &tokens)?;
    if taken == tokens.len() {
        return word_of(
            alloc,
            if recognizer.may_end() {
                b"whole"
            } else {
                b"front"
            },
        );
    }
    let mut shown = Vec::new(alloc);
    put_word(&mut shown, b"refused")?;
    put_place(&mut shown, taken)?;
    Ok(shown)
}

/// Writes how many compound commands are open, or how many ends of them are awaited.
fn put_level(
    shown: &mut Vec<u8>,
    recognizer: &Recognizer<'_>,
    is_awaited: bool,
) -> Result<(), AllocError> {
    let level = if is_awaited {
        recognizer.awaits(end_of_compound())
    } else {
        open_compounds(recognizer)
    };
    put_number(shown, level)
}

/// `open`, `open-substituted` and `awaited`.
fn levels_of(
    alloc: Global,
    text: &[u8],
    start: Start,
    is_awaited: bool,
) -> Result<Vec<u8>, NoMemory> {
    let mut recognizer = start.recognizer(alloc)?;
    let tokens = pieces(alloc, text)?;
    let mut shown = Vec::new(alloc);
    put_level(&mut shown, &recognizer, is_awaited)?;
    for (id, token) in tokens.iter().enumerate() {
        let class = class_of(token).number();
        if !recognizer.take(Token { class, id })? {
            shown.push(b'!')?;
        }
        put_level(&mut shown, &recognizer, is_awaited)?;
    }
    Ok(shown)
}

/// `name`.
fn name_of(alloc: Global, bytes: &[u8]) -> Result<Vec<u8>, NoMemory> {
    if is_name(bytes) {
        return word_of(alloc, b"yes");
    }
    word_of(alloc, b"no")
}

/// What a row comes to; none where its kind is none of these.
pub(crate) fn found(alloc: Global, row: &Row) -> Found {
    let text = row.field(2);
    by_kind! { row;
        "command", 2 => text_of(alloc, text, Start::Command);
        "substitution", 2 => text_of(alloc, text, Start::Substitution);
        "open", 2 => levels_of(alloc, text, Start::Command, false);
        "open-substituted", 2 => levels_of(alloc, text, Start::Substitution, false);
        "awaited", 2 => levels_of(alloc, text, Start::Command, true);
        "name", 2 => name_of(alloc, text);
    }
}
