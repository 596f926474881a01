//! Pieces that a scanner has begun to read and can't tell yet.
ghost use Rattle.sh_token_pieces.specs.Pendings.{is_raw, is_gap_pending};
ghost use Rattle.std.specs.Prelude.{◌≡◌};

use crate::head::Head;
use crate::operator::Operator;

/// A piece that has begun; its further bytes are kept beside it.
#[derive(Clone, Copy, Debug, PartialEq, Eq)]
pub enum Pending {
    Nothing,
    /// After a `$`.
    Dollar,
    /// After `$(`.
    DollarParenthesis,
    /// In the name after a `$`.
    Name,
    /// After `${`.
    Head(Head),
    /// Between single quotes.
    Single,
    /// Between backquotes; and there, after a backslash.
    Backquotes,
    BackquotesEscape,
    /// After a `)` that may end arithmetic.
    Parenthesis,
    /// In an operator that may grow.
    Operator(Operator),
    /// In a comment, after its `#`.
    Comment,
    /// In the bodies of here-documents. The line began after `line` bytes of them and after `bodies` whole
    /// bodies; it is joined to the line before if `joined`.
    Body {
        line: usize,
        bodies: usize,
        joined: bool,
    },
}

impl Pending {
    /// Whether a backslash is a byte like any other here.
    pub fn is_raw(self) -> bool
        ensures { result ≡ is_raw self }
    {
        match self {
            Pending::Single => true,
            Pending::Backquotes => true,
            Pending::BackquotesEscape => true,
            Pending::Comment => true,
            Pending::Body { .. } => true,
            _ => false,
        }
    }

    /// Whether it may be before a token: no token has begun.
    pub fn is_gap(self) -> bool
        ensures { result ≡ is_gap_pending self }
    {
        match self {
            Pending::Nothing | Pending::Comment => true,
            _ => false,
        }
    }
}
