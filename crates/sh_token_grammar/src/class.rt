//! Classes of tokens.
ghost use Rattle.std.specs.Prelude.{◌≡◌};
ghost use Rattle.std.specs.List.{list_any};
ghost use Rattle.std.specs.Str.{bytes_eq};
ghost use Rattle.sh_token_grammar.specs.Classes.{class_number, class_of_text, is_reserved, is_special_name, reserved_class, control_class, conditional_class, loop_class};
ghost use Rattle.sh_base.specs.Names.{is_name};

use sh_base::name::is_name;

/// What a token is to the grammar (XCU 2.10.2). A word that is spelled like a reserved word has its class in
/// every place; the grammar says in which places it is one.
#[derive(Clone, Copy, Debug, PartialEq, Eq)]
pub enum TokenClass {
    /// `;`
    Semicolon,
    /// `&`
    And,
    /// `&&`
    AndIf,
    /// `||`
    OrIf,
    /// `|`
    Pipe,
    /// `(`
    LeftParenthesis,
    /// `)`
    RightParenthesis,
    /// `;;`
    DoubleSemicolon,
    /// A newline.
    Newline,
    /// `<`, `>`, `>|`, `>>`, `<&`, `>&`, `<>`, `<<` or `<<-` (XCU 2.7).
    Redirection,
    /// A descriptor number before a redirection operator.
    Number,
    /// `!`
    Bang,
    /// `{`
    LeftBrace,
    /// `}`
    RightBrace,
    /// `if`
    If,
    /// `then`
    Then,
    /// `elif`
    Elif,
    /// `else`
    Else,
    /// `fi`
    Fi,
    /// `while`
    While,
    /// `until`
    Until,
    /// `do`
    Do,
    /// `done`
    Done,
    /// `for`
    For,
    /// `in`
    In,
    /// `case`
    Case,
    /// `esac`
    Esac,
    /// A name (XBD 3.216) that is neither a reserved word nor the name of a special built-in.
    Name,
    /// The name of a special built-in (XCU 2.15), which no function may have.
    SpecialName,
    /// A word that begins with an unquoted name and `=`.
    Assignment,
    /// Every other word.
    Other,
    /// The name of a command, whatever it is. No token has this class: where the grammar takes it, the name of a
    /// simple command may stand (XCU 2.9.1.1), and an alias is replaced (XCU 2.3.1).
    CommandName,
    /// The end of the tokens.
    End,
}

/// The special built-ins whose names are names in the sense of XBD 3.216.
const SPECIAL_NAMES: [&[u8]; 13] = [
    b"break",
    b"continue",
    b"eval",
    b"exec",
    b"exit",
    b"export",
    b"readonly",
    b"return",
    b"set",
    b"shift",
    b"times",
    b"trap",
    b"unset",
];

impl TokenClass {
    /// The class's number in the tables of the grammar.
    pub fn number(self) -> u8
        ensures { result ≡ class_number self }
    {
        match self {
            TokenClass::Semicolon => 0,
            TokenClass::And => 1,
            TokenClass::AndIf => 2,
            TokenClass::OrIf => 3,
            TokenClass::Pipe => 4,
            TokenClass::LeftParenthesis => 5,
            TokenClass::RightParenthesis => 6,
            TokenClass::DoubleSemicolon => 7,
            TokenClass::Newline => 8,
            TokenClass::Redirection => 9,
            TokenClass::Number => 10,
            TokenClass::Bang => 11,
            TokenClass::LeftBrace => 12,
            TokenClass::RightBrace => 13,
            TokenClass::If => 14,
            TokenClass::Then => 15,
            TokenClass::Elif => 16,
            TokenClass::Else => 17,
            TokenClass::Fi => 18,
            TokenClass::While => 19,
            TokenClass::Until => 20,
            TokenClass::Do => 21,
            TokenClass::Done => 22,
            TokenClass::For => 23,
            TokenClass::In => 24,
            TokenClass::Case => 25,
            TokenClass::Esac => 26,
            TokenClass::Name => 27,
            TokenClass::SpecialName => 28,
            TokenClass::Assignment => 29,
            TokenClass::Other => 30,
            TokenClass::CommandName => 31,
            TokenClass::End => 32,
        }
    }

    /// The class of a word that is no assignment and whose bytes are all literal, none of them quoted.
    pub fn of_text(text: &[u8]) -> Self
        ensures { result ≡ class_of_text text.now }
    {
        if let Some(class) = reserved(text) {
            return class;
        }
        if is_special_name(text) {
            TokenClass::SpecialName
        } else if is_name(text) {
            TokenClass::Name
        } else {
            TokenClass::Other
        }
    }
}

/// The class of a reserved word (XCU 2.4).
fn reserved(text: &[u8]) -> Option<TokenClass>
    ensures { result ≡ reserved_class text.now }
{
    if let Some(class) = control(text) {
        return Some(class);
    }
    if let Some(class) = conditional(text) {
        return Some(class);
    }
    looping(text)
}

/// Whether a text is a reserved word (XCU 2.4). Takes no memory.
pub fn is_reserved(text: &[u8]) -> bool
    ensures { result ≡ is_reserved text.now }
{
    reserved(text).is_some()
}

fn control(text: &[u8]) -> Option<TokenClass>
    ensures { result ≡ control_class text.now }
{
    match text {
        b"!" => Some(TokenClass::Bang),
        b"{" => Some(TokenClass::LeftBrace),
        b"}" => Some(TokenClass::RightBrace),
        b"case" => Some(TokenClass::Case),
        b"esac" => Some(TokenClass::Esac),
        _ => None,
    }
}

fn conditional(text: &[u8]) -> Option<TokenClass>
    ensures { result ≡ conditional_class text.now }
{
    match text {
        b"if" => Some(TokenClass::If),
        b"then" => Some(TokenClass::Then),
        b"elif" => Some(TokenClass::Elif),
        b"else" => Some(TokenClass::Else),
        b"fi" => Some(TokenClass::Fi),
        _ => None,
    }
}

fn looping(text: &[u8]) -> Option<TokenClass>
    ensures { result ≡ loop_class text.now }
{
    match text {
        b"while" => Some(TokenClass::While),
        b"until" => Some(TokenClass::Until),
        b"do" => Some(TokenClass::Do),
        b"done" => Some(TokenClass::Done),
        b"for" => Some(TokenClass::For),
        b"in" => Some(TokenClass::In),
        _ => None,
    }
}

fn is_special_name(text: &[u8]) -> bool
    ensures { result ≡ is_special_name text.now }
{
    is_among(&SPECIAL_NAMES, text)
}

fn is_among(texts: &[&[u8]], text: &[u8]) -> bool
    ensures { result ≡ list_any (λ t. bytes_eq t.now text.now) texts.now }
{
    texts.iter().any(|t| *t == text)
}
