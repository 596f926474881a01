//! Here-documents (XCU 2.7.4): their delimiters, and where their bodies end.
ghost use Rattle.std.specs.Prelude.{◌≡◌, ◌++◌, ◌∷◌, [], IfOk, OnOk};
ghost use Rattle.std.specs.List.{list_any};
ghost use Rattle.sh_token_pieces.specs.Here.{source, without_quotes, is_quoting, delimiter_text, tabs_of, delimiter_of, without_tabs, line_in, is_end_line, ends_escaped, joins_next};

use crate::operator::Operator;
use crate::piece::Piece;
use sh_base::sequence::{Sequence, Text};
use std::alloc::{AllocError, Global};

/// What is done with the tabs at the beginning of a body's lines, its end line included.
#[derive(Clone, Copy, Debug, PartialEq, Eq)]
pub enum Tabs {
    /// After `<<`.
    Kept,
    /// After `<<-`.
    Stripped,
}

/// What ends the body of a here-document.
#[derive(Debug, Drop)]
pub struct Delimiter {
    /// The word, its quotes removed (XCU 2.6.7).
    pub text: Text,
    /// Whether a part of the word is quoted: then the body isn't expanded.
    pub is_quoted: bool,
    pub tabs: Tabs,
}

impl Tabs {
    /// What the operator of a here-document says of the tabs; `None` for any other operator.
    pub fn of_operator(operator: Operator) -> Option<Self>
        ensures { result ≡ tabs_of operator }
    {
        match operator {
            Operator::DoubleLess => Some(Tabs::Kept),
            Operator::DoubleLessDash => Some(Tabs::Stripped),
            _ => None,
        }
    }

    /// A line of a body, as the shell takes it.
    fn line(self, line: &[u8]) -> &[u8]
        ensures { result.now ≡ line_in self line.now }
    {
        match self {
            Tabs::Kept => line,
            Tabs::Stripped => without_tabs(line),
        }
    }
}

/// A line without the tabs at its beginning.
fn without_tabs(line: &[u8]) -> &[u8]
    ensures { result.now ≡ without_tabs line.now }
{
    let mut rest = line;
    while let Some((first, after)) = rest.split_first() {
        if *first != b'\t' {
            return rest;
        }
        rest = after;
    }
    rest
}

/// Whether the line ends with a backslash that no other backslash quotes.
fn ends_escaped(line: &[u8]) -> bool
    ensures { result ≡ ends_escaped line.now }
{
    let mut rest = line;
    while let Some((first, after)) = rest.split_first() {
        let Some((_, behind)) = after.split_first() else {
            return *first == b'\\';
        };
        if *first == b'\\' {
            rest = behind;
        } else {
            rest = after;
        }
    }
    false
}

impl Delimiter {
    /// The delimiter that a word of these pieces makes. The only error is want of memory.
    pub fn new(alloc: Global, tabs: Tabs, pieces: &[Piece]) -> Result<Self, AllocError>
        ensures { IfOk result (λ delimiter. delimiter ≡ delimiter_of tabs pieces.now) }
    {
        let text = delimiter_text(alloc, pieces)?;
        Ok(Delimiter {
            text: Sequence::from_vec(text),
            is_quoted: are_quoting(pieces),
            tabs,
        })
    }

    /// Whether the line, which has no newline, ends the body.
    pub fn is_end_line(&self, line: &[u8]) -> bool
        ensures { result ≡ is_end_line self.now line.now }
    {
        self.tabs.line(line) == self.text.as_slice()
    }

    /// Whether the line, which is no end line, is joined with the next one.
    pub fn joins_next(&self, line: &[u8]) -> bool
        ensures { result ≡ joins_next self.now line.now }
    {
        !self.is_quoted && ends_escaped(line)
    }
}

/// The text of a delimiter.
fn delimiter_text(alloc: Global, pieces: &[Piece]) -> Result<Vec<u8>, AllocError>
    ensures { IfOk result (λ text. text.items ≡ delimiter_text pieces.now) }
{
    let mut text = Vec::new(alloc);
    let mut rest = pieces;
    while let Some((first, after)) = rest.split_first() {
        push_unquoted(&mut text, first)?;
        rest = after;
    }
    Ok(text)
}

/// Whether a part of a delimiter is quoted.
fn are_quoting(pieces: &[Piece]) -> bool
    ensures { result ≡ list_any is_quoting pieces.now }
{
    pieces.iter().any(|piece| is_quoting(piece))
}

fn is_quoting(piece: &Piece) -> bool
    ensures { result ≡ is_quoting piece.now }
{
    match piece {
        Piece::Escaped(_) => true,
        Piece::SingleQuoted(_) => true,
        Piece::DoubleQuotesOpen => true,
        _ => false,
    }
}

/// Appends a piece to a text, its quotes removed.
fn push_unquoted(text: &mut Vec<u8>, piece: &Piece) -> Result<(), AllocError>
    ensures { OnOk result (text.new.items ≡ text.old.items ++ without_quotes piece.now) }
{
    match piece {
        Piece::Escaped(b) => {
            text.push(*b)?;
            Ok(())
        },
        Piece::SingleQuoted(bytes) => text.extend_from_slice(bytes.as_slice()),
        Piece::DoubleQuotesOpen => Ok(()),
        Piece::DoubleQuotesClose => Ok(()),
        _ => push_source(text, piece),
    }
}

/// Appends a piece to a text, as it is written.
#[tactic(auto, using(crate::proofs::Sources::plain_bytes, crate::proofs::Sources::raw_bytes, crate::proofs::Sources::raw_before))]
fn push_source(text: &mut Vec<u8>, piece: &Piece) -> Result<(), AllocError>
    ensures { OnOk result (text.new.items ≡ text.old.items ++ source piece.now) }
{
    match piece {
        Piece::Byte(b) | Piece::Blank(b) => push(text, *b),
        Piece::Escaped(b) | Piece::Backslash(b) => push_behind(text, b'\\', *b),
        Piece::SingleQuoted(bytes) => push_between(text, b'\'', bytes.as_slice()),
        Piece::DoubleQuotesOpen | Piece::DoubleQuotesClose => push(text, b'"'),
        Piece::Dollar => push(text, b'$'),
        Piece::Variable(bytes) => push_after(text, b"$", bytes.as_slice()),
        Piece::Parameter(b) => push_behind(text, b'$', *b),
        Piece::BraceOpen(bytes) => push_after(text, b"${", bytes.as_slice()),
        Piece::BraceClose => push(text, b'}'),
        Piece::ArithmeticOpen => text.extend_from_slice(b"$(("),
        Piece::ArithmeticClose => text.extend_from_slice(b"))"),
        Piece::CommandsOpen => text.extend_from_slice(b"$("),
        Piece::CommandsClose => push(text, b')'),
        Piece::Backquoted(bytes) => push_between(text, b'`', bytes.as_slice()),
        Piece::WordOpen | Piece::WordClose(_) => Ok(()),
        Piece::Comment(bytes) => push_after(text, b"#", bytes.as_slice()),
        Piece::Bodies(bytes) => push_after(text, b"\n", bytes.as_slice()),
        Piece::Operator(operator) => text.extend_from_slice(operator.text()),
    }
}

fn push(text: &mut Vec<u8>, b: u8) -> Result<(), AllocError>
    ensures { OnOk result (text.new.items ≡ text.old.items ++ b ∷ []) }
{
    text.push(b)?;
    Ok(())
}

fn push_behind(text: &mut Vec<u8>, prefix: u8, b: u8) -> Result<(), AllocError>
    ensures { OnOk result (text.new.items ≡ text.old.items ++ prefix ∷ b ∷ []) }
{
    text.push(prefix)?;
    push(text, b)
}

fn push_after(text: &mut Vec<u8>, prefix: &[u8], bytes: &[u8]) -> Result<(), AllocError>
    ensures { OnOk result (text.new.items ≡ text.old.items ++ (prefix.now ++ bytes.now)) }
{
    text.extend_from_slice(prefix)?;
    text.extend_from_slice(bytes)
}

fn push_between(text: &mut Vec<u8>, quote: u8, bytes: &[u8]) -> Result<(), AllocError>
    ensures { OnOk result (text.new.items ≡ text.old.items ++ quote ∷ (bytes.now ++ quote ∷ [])) }
{
    text.push(quote)?;
    text.extend_from_slice(bytes)?;
    push(text, quote)
}
