//! Operators (XCU 2.10.2).
ghost use Rattle.std.specs.Prelude.{◌≡◌, Option, Some, None};
ghost use Rattle.sh_token_pieces.specs.Growth.{longer_operator, may_grow, operator_of};
ghost use Rattle.sh_token_pieces.specs.Operators.{operator_text};

/// An operator, by the standard's name where it has one.
#[derive(Clone, Copy, Debug, PartialEq, Eq)]
pub enum Operator {
    /// `&`
    And,
    /// `;`
    Semicolon,
    /// `|`
    Pipe,
    /// `<`
    Less,
    /// `>`
    Great,
    /// `(`
    LeftParenthesis,
    /// `)`
    RightParenthesis,
    /// A newline.
    Newline,
    /// `&&`
    AndIf,
    /// `||`
    OrIf,
    /// `;;`
    DoubleSemicolon,
    /// `<<`
    DoubleLess,
    /// `>>`
    DoubleGreat,
    /// `<&`
    LessAnd,
    /// `>&`
    GreatAnd,
    /// `<>`
    LessGreat,
    /// `<<-`
    DoubleLessDash,
    /// `>|`
    Clobber,
}

impl Operator {
    /// The operator of one byte; the newline for each byte that is no operator.
    pub fn of_byte(b: u8) -> Self
        ensures { result ≡ operator_of b }
    {
        match b {
            b'&' => Operator::And,
            b';' => Operator::Semicolon,
            b'|' => Operator::Pipe,
            b'<' => Operator::Less,
            b'>' => Operator::Great,
            b'(' => Operator::LeftParenthesis,
            b')' => Operator::RightParenthesis,
            _ => Operator::Newline,
        }
    }

    /// How it is written.
    pub fn text(self) -> &'static [u8]
        ensures { result.now ≡ operator_text self }
    {
        match self {
            Operator::And => b"&",
            Operator::Semicolon => b";",
            Operator::Pipe => b"|",
            Operator::Less => b"<",
            Operator::Great => b">",
            Operator::LeftParenthesis => b"(",
            Operator::RightParenthesis => b")",
            Operator::Newline => b"\n",
            Operator::AndIf => b"&&",
            Operator::OrIf => b"||",
            Operator::DoubleSemicolon => b";;",
            Operator::DoubleLess => b"<<",
            Operator::DoubleGreat => b">>",
            Operator::LessAnd => b"<&",
            Operator::GreatAnd => b">&",
            Operator::LessGreat => b"<>",
            Operator::DoubleLessDash => b"<<-",
            Operator::Clobber => b">|",
        }
    }

    /// The operator that this one makes with one more byte, if they make one.
    pub fn grown(self, b: u8) -> Option<Self>
        ensures { result ≡ longer_operator self b }
    {
        match (self, b) {
            (Operator::And, b'&') => Some(Operator::AndIf),
            (Operator::Semicolon, b';') => Some(Operator::DoubleSemicolon),
            (Operator::Pipe, b'|') => Some(Operator::OrIf),
            (Operator::Less, b'<') => Some(Operator::DoubleLess),
            (Operator::Less, b'&') => Some(Operator::LessAnd),
            (Operator::Less, b'>') => Some(Operator::LessGreat),
            (Operator::Great, b'>') => Some(Operator::DoubleGreat),
            (Operator::Great, b'&') => Some(Operator::GreatAnd),
            (Operator::Great, b'|') => Some(Operator::Clobber),
            (Operator::DoubleLess, b'-') => Some(Operator::DoubleLessDash),
            _ => None,
        }
    }

    /// Whether some byte after it makes a longer operator.
    pub fn may_grow(self) -> bool
        ensures { result ≡ may_grow self }
    {
        match self {
            Operator::And
            | Operator::Semicolon
            | Operator::Pipe
            | Operator::Less
            | Operator::Great
            | Operator::DoubleLess => true,
            _ => false,
        }
    }
}
