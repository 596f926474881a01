//! Elements of a pattern.
ghost use Rattle.std.specs.Prelude.{◌≡◌, ◌≤◌, ◌<◌, ◌^◌, length, take};
ghost use Rattle.sh_pattern.specs.Match.{bare_kind, bare_skip, bracket_kind, bracket_skip, is_star, one_of, read_kind, read_skip};

use crate::item::{find_close, takes_byte};
use crate::pattern_byte::PatternByte;

/// What an element of a pattern is.
#[derive(Clone, Copy, Debug, PartialEq, Eq)]
pub(crate) enum Kind {
    /// `*`: any number of bytes.
    Star,
    /// `?`: any byte.
    Any,
    /// This byte.
    Byte(u8),
    /// A byte that a bracket list takes.
    Bracket,
}

/// An element, and how many bytes of the pattern after its first one belong to it.
#[derive(Clone, Copy, Debug, PartialEq, Eq)]
pub(crate) struct Found {
    pub kind: Kind,
    pub skip: usize,
}

/// The element that begins with `[`, where `close` bytes of the pattern are between it and its `]`.
fn bracket(close: Option<usize>) -> Found
    requires { bracket_skip close < 2 ^ 63 }
    ensures kind { result.kind ≡ bracket_kind close }
    ensures skip { result.skip ≡ bracket_skip close }
{
    match close {
        None => Found {
            kind: Kind::Byte(b'['),
            skip: 0,
        },
        Some(place) => Found {
            kind: Kind::Bracket,
            skip: place + 1,
        },
    }
}

/// The element that begins with an unquoted byte. `behind` is the pattern after that byte.
fn read_bare(byte: u8, behind: &[PatternByte]) -> Found
    ensures kind { result.kind ≡ bare_kind byte behind.now }
    ensures skip { result.skip ≡ bare_skip byte behind.now }
    ensures within { result.skip ≤ length behind.now }
{
    if byte == b'*' {
        return Found {
            kind: Kind::Star,
            skip: 0,
        };
    }
    if byte == b'?' {
        return Found {
            kind: Kind::Any,
            skip: 0,
        };
    }
    if byte == b'[' {
        return bracket(find_close(behind));
    }
    Found {
        kind: Kind::Byte(byte),
        skip: 0,
    }
}

/// The element that begins with the byte `mark`. `behind` is the pattern after that byte.
pub(crate) fn read(mark: PatternByte, behind: &[PatternByte]) -> Found
    ensures kind { result.kind ≡ read_kind mark behind.now }
    ensures skip { result.skip ≡ read_skip mark behind.now }
    ensures within { result.skip ≤ length behind.now }
{
    if mark.literal {
        return Found {
            kind: Kind::Byte(mark.byte),
            skip: 0,
        };
    }
    read_bare(mark.byte, behind)
}

impl Kind {
    /// Whether it is `*`.
    pub fn is_star(self) -> bool
        ensures { result ≡ is_star self }
    {
        match self {
            Kind::Star => true,
            Kind::Any => false,
            Kind::Byte(_) => false,
            Kind::Bracket => false,
        }
    }
}

impl Found {
    /// Whether the element takes this one byte. `behind` is the pattern after the element's first byte.
    pub fn takes(self, behind: &[PatternByte], byte: u8) -> bool
        requires { self.skip ≤ length behind.now }
        ensures { result ≡ one_of self.kind (take self.skip behind.now) byte }
    {
        match self.kind {
            Kind::Star => false,
            Kind::Any => true,
            Kind::Byte(own) => byte == own,
            Kind::Bracket => takes_byte(&behind[..self.skip], byte),
        }
    }
}
