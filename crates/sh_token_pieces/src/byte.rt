//! What single bytes are (XCU 2.2, 2.3, 2.5, 2.6).
ghost use Rattle.std.specs.Prelude.{◌≡◌, true};
ghost use Rattle.sh_token_pieces.specs.Bytes.{is_blank, is_operator_byte, is_end, is_redirection, is_special, is_short_parameter, is_word_operator, is_quoted_escape};
ghost use Rattle.std.specs.Char.{is_ascii_digit};

/// Space or tab.
pub fn blank(b: u8) -> bool
    ensures { result ≡ is_blank b }
{
    b == b' ' || b == b'\t'
}

/// The first byte of an operator.
pub fn begins_operator(b: u8) -> bool
    ensures { result ≡ is_operator_byte b }
{
    b == b'&'
        || b == b';'
        || b == b'|'
        || b == b'<'
        || b == b'>'
        || b == b'('
        || b == b')'
        || b == b'\n'
}

/// What ends a word where it isn't quoted.
pub fn ends_word(b: u8) -> bool
    ensures { result ≡ is_end b }
{
    blank(b) || begins_operator(b)
}

/// `<` or `>`.
pub fn begins_redirection(b: u8) -> bool
    ensures { result ≡ is_redirection b }
{
    b == b'<' || b == b'>'
}

/// A special parameter other than `#`.
pub(crate) fn is_special(b: u8) -> bool
    ensures { result ≡ is_special b }
{
    b == b'@' || b == b'*' || b == b'?' || b == b'-' || b == b'$' || b == b'!'
}

/// A parameter that one byte after a `$` names: a special parameter or a digit.
pub fn is_short_parameter(b: u8) -> bool
    ensures { result ≡ is_short_parameter b }
{
    is_special(b) || b == b'#' || b.is_ascii_digit()
}

/// An operator of a parameter expansion that may come after a colon.
pub(crate) fn is_word_operator(b: u8) -> bool
    ensures { result ≡ is_word_operator b }
{
    b == b'-' || b == b'=' || b == b'?' || b == b'+'
}

/// What a backslash quotes in double quotes and in arithmetic.
pub(crate) fn is_quoted_escape(b: u8) -> bool
    ensures { result ≡ is_quoted_escape b }
{
    b == b'$' || b == b'`' || b == b'\\'
}
