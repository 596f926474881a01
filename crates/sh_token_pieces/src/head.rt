//! What is between `${` and the word of a parameter expansion (XCU 2.6.2).
ghost use Rattle.std.specs.Prelude.{◌≡◌};
ghost use Rattle.sh_token_pieces.specs.Heads.{grown_head, grown_start, grown_hash, behind_parameter, reads_bare};

use crate::byte;
use sh_base::name::{begins_name, continues_name};

/// How much of the parameter and the operator of a `${` has been read.
#[derive(Clone, Copy, Debug, PartialEq, Eq)]
pub enum Head {
    /// Directly after `${`.
    Start,
    /// After `#`, which is the parameter or asks for a length.
    Hash,
    /// In a name.
    Name,
    /// In a positional parameter's number.
    Number,
    /// After a special parameter other than `#`.
    Special,
    /// In a name after `${#`, which asks for a length.
    LengthName,
    /// In a positional parameter's number after `${#`.
    LengthNumber,
    /// After a special parameter after `${#`: no byte may follow.
    Length,
    /// After `##`: the length of `$#`, or `$#` without a prefix.
    HashPound,
    /// After `:`.
    Colon,
    /// After one of `- = ? +`.
    Word,
    /// After `%`.
    Percent,
    /// After `%%`.
    DoublePercent,
    /// After `#` as an operator.
    Pound,
    /// After `##` as an operator.
    DoublePound,
}

impl Head {
    /// The head with one more byte, where it takes this byte.
    pub fn grown(self, b: u8) -> Option<Head>
        ensures { result ≡ grown_head self b }
    {
        match self {
            Head::Start => grown_start(b),
            Head::Hash => grown_hash(b),
            Head::Name => {
                if continues_name(b) {
                    Some(Head::Name)
                } else {
                    behind_parameter(b)
                }
            },
            Head::Number => {
                if b.is_ascii_digit() {
                    Some(Head::Number)
                } else {
                    behind_parameter(b)
                }
            },
            Head::Special => behind_parameter(b),
            Head::LengthName if continues_name(b) => Some(Head::LengthName),
            Head::LengthNumber if b.is_ascii_digit() => Some(Head::LengthNumber),
            Head::HashPound if b == b'#' => Some(Head::DoublePound),
            Head::Colon if byte::is_word_operator(b) => Some(Head::Word),
            Head::Percent if b == b'%' => Some(Head::DoublePercent),
            Head::Pound if b == b'#' => Some(Head::DoublePound),
            _ => None,
        }
    }

    /// Whether the word after it is read as outside of double quotes even where the `${` is between them.
    pub fn reads_bare(self) -> bool
        ensures { result ≡ reads_bare self }
    {
        match self {
            Head::HashPound
            | Head::Percent
            | Head::DoublePercent
            | Head::Pound
            | Head::DoublePound => true,
            _ => false,
        }
    }
}

fn grown_start(b: u8) -> Option<Head>
    ensures { result ≡ grown_start b }
{
    if b == b'#' {
        Some(Head::Hash)
    } else if begins_name(b) {
        Some(Head::Name)
    } else if b.is_ascii_digit() {
        Some(Head::Number)
    } else if byte::is_special(b) {
        Some(Head::Special)
    } else {
        None
    }
}

fn grown_hash(b: u8) -> Option<Head>
    ensures { result ≡ grown_hash b }
{
    if begins_name(b) {
        Some(Head::LengthName)
    } else if b.is_ascii_digit() {
        Some(Head::LengthNumber)
    } else if b == b'#' {
        Some(Head::HashPound)
    } else if byte::is_special(b) {
        Some(Head::Length)
    } else {
        behind_parameter(b)
    }
}

fn behind_parameter(b: u8) -> Option<Head>
    ensures { result ≡ behind_parameter b }
{
    if b == b':' {
        Some(Head::Colon)
    } else if byte::is_word_operator(b) {
        Some(Head::Word)
    } else if b == b'%' {
        Some(Head::Percent)
    } else if b == b'#' {
        Some(Head::Pound)
    } else {
        None
    }
}
