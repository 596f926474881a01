//! What a text is made of, piece by piece.
ghost use Rattle.std.specs.Prelude.{◌≡◌, IfOk, ℕ, drop, suc, ◌++◌, nat_eq, Option, IfSome, ◌<◌, length};
ghost use Rattle.std.specs.List.{list_all};
ghost use Rattle.std.specs.Char.{is_ascii_digit};
ghost use Rattle.sh_token_pieces.specs.TokenClasses.{literal_prefix, is_byte, is_name_before, assigns, class_of_literal, class_of_word, class_of_operator, equals_place};

use crate::operator::Operator;
use sh_base::name::is_name;
use sh_base::sequence::Text;
use sh_token_grammar::class::TokenClass;
use std::alloc::{AllocError, Global};

/// A piece of a text, joined lines left out (XCU 2.2, 2.3, 2.6). What is between an opening piece and its
/// closing one is inside that form.
#[derive(Debug, Drop)]
pub enum Piece {
    /// A byte that stands for itself.
    Byte(u8),
    /// A byte that a backslash quotes.
    Escaped(u8),
    /// A backslash that stands for itself, and the byte after it.
    Backslash(u8),
    /// Single quotes, with the bytes between them (XCU 2.2.2).
    SingleQuoted(Text),
    /// `"`, before and after what is between double quotes (XCU 2.2.3).
    DoubleQuotesOpen,
    DoubleQuotesClose,
    /// A `$` that stands for itself.
    Dollar,
    /// `$NAME`.
    Variable(Text),
    /// `$` and a special parameter or one digit.
    Parameter(u8),
    /// `${`, with the parameter and the operator after it (XCU 2.6.2), and its `}`.
    BraceOpen(Text),
    BraceClose,
    /// `$((` and its `))` (XCU 2.6.4).
    ArithmeticOpen,
    ArithmeticClose,
    /// `$(` and its `)` (XCU 2.6.3).
    CommandsOpen,
    CommandsClose,
    /// Backquotes, with the bytes between them as they are written (XCU 2.6.3).
    Backquoted(Text),
    /// The beginning and the end of a word, without bytes of their own. `<` or `>` follows the word if true.
    WordOpen,
    WordClose(bool),
    /// A blank between tokens.
    Blank(u8),
    /// `#` and the bytes of a comment.
    Comment(Text),
    /// A newline, and the bytes of the bodies of all here-documents that are due (XCU 2.7.4), with their end lines.
    Bodies(Text),
    /// An operator.
    Operator(Operator),
}

/// The pieces of a word that began after so many pieces, without its `WordOpen`.
pub(crate) fn pieces_behind(pieces: &[Piece], begin: usize) -> &[Piece]
    ensures { result.now ≡ drop (suc begin) pieces.now }
{
    if begin < pieces.len() {
        &pieces[begin + 1..]
    } else {
        &[]
    }
}

fn is_byte(piece: &Piece) -> bool
    ensures { result ≡ is_byte piece.now }
{
    match piece {
        Piece::Byte(_) => true,
        _ => false,
    }
}

/// Whether each piece is a byte that stands for itself: nothing in the word is quoted or expanded.
pub fn are_bytes(pieces: &[Piece]) -> bool
    ensures { result ≡ list_all is_byte pieces.now }
{
    pieces.iter().all(|piece| is_byte(piece))
}

/// The bytes at the beginning of a word that stand for themselves. The only error is want of memory.
pub fn literal_prefix(alloc: Global, pieces: &[Piece]) -> Result<Vec<u8>, AllocError>
    ensures { IfOk result (λ bytes. bytes.items ≡ literal_prefix pieces.now) }
{
    let mut bytes = Vec::new(alloc);
    let mut rest = pieces;
    while let Some((first, after)) = rest.split_first() {
        let Piece::Byte(b) = first else {
            return Ok(bytes);
        };
        bytes.push(*b)?;
        rest = after;
    }
    Ok(bytes)
}

/// Whether the bytes begin with a name and `=`. A word that begins so is an assignment (XCU 2.10.2 rule 7).
pub fn begins_with_name(bytes: &[u8]) -> bool
    ensures { result ≡ assigns bytes.now }
{
    match equals_at(bytes) {
        Some(place) => is_name(&bytes[..place]),
        None => false,
    }
}

/// How many bytes are before the first `=`; `None` where there is no `=`.
pub fn equals_at(bytes: &[u8]) -> Option<usize>
    ensures value { result ≡ equals_place bytes.now }
    ensures inside { IfSome result (λ place. place < length bytes.now) }
{
    bytes.iter().position(|b| *b == b'=')
}

fn are_digits(bytes: &[u8]) -> bool
    ensures { result ≡ list_all is_ascii_digit bytes.now }
{
    bytes.iter().all(|b| b.is_ascii_digit())
}

fn literal_class(redirection: bool, bytes: &[u8]) -> TokenClass
    ensures { result ≡ class_of_literal redirection bytes.now }
{
    if redirection && are_digits(bytes) {
        TokenClass::Number
    } else if begins_with_name(bytes) {
        TokenClass::Assignment
    } else {
        TokenClass::of_text(bytes)
    }
}

/// The class of a word by its pieces; `redirection`: `<` or `>` follows it. The only error is want of memory.
pub fn word_class(
    alloc: Global,
    redirection: bool,
    pieces: &[Piece],
) -> Result<TokenClass, AllocError>
    ensures { IfOk result (λ class. class ≡ class_of_word redirection pieces.now) }
{
    let prefix = literal_prefix(alloc, pieces)?;
    if are_bytes(pieces) {
        return Ok(literal_class(redirection, prefix.as_slice()));
    }
    if begins_with_name(prefix.as_slice()) {
        return Ok(TokenClass::Assignment);
    }
    Ok(TokenClass::Other)
}

impl Operator {
    /// The class of the operator.
    pub fn class(self) -> TokenClass
        ensures { result ≡ class_of_operator self }
    {
        match self {
            Operator::And => TokenClass::And,
            Operator::Semicolon => TokenClass::Semicolon,
            Operator::Pipe => TokenClass::Pipe,
            Operator::LeftParenthesis => TokenClass::LeftParenthesis,
            Operator::RightParenthesis => TokenClass::RightParenthesis,
            Operator::Newline => TokenClass::Newline,
            Operator::AndIf => TokenClass::AndIf,
            Operator::OrIf => TokenClass::OrIf,
            Operator::DoubleSemicolon => TokenClass::DoubleSemicolon,
            Operator::Less
            | Operator::Great
            | Operator::DoubleLess
            | Operator::DoubleGreat
            | Operator::LessAnd
            | Operator::GreatAnd
            | Operator::LessGreat
            | Operator::DoubleLessDash
            | Operator::Clobber => TokenClass::Redirection,
        }
    }
}
