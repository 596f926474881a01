//! Character classes.
ghost use Rattle.std.specs.Prelude.{◌≡◌};
ghost use Rattle.sh_pattern.specs.Classes.{has, is_between, is_letter};

/// A character class of the POSIX locale (XBD 7.3.1).
#[derive(Clone, Copy, Debug, PartialEq, Eq)]
pub enum Class {
    Alnum,
    Alpha,
    Blank,
    Cntrl,
    Digit,
    Graph,
    Lower,
    Print,
    Punct,
    Space,
    Upper,
    Xdigit,
}

/// Whether a byte is in a range, both ends included.
pub(crate) fn is_between(low: u8, high: u8, byte: u8) -> bool
    ensures { result ≡ is_between low high byte }
{
    low <= byte && byte <= high
}

/// Whether a byte is a letter.
pub(crate) fn is_letter(byte: u8) -> bool
    ensures { result ≡ is_letter byte }
{
    is_between(b'A', b'Z', byte) || is_between(b'a', b'z', byte)
}

impl Class {
    /// Whether the class has a byte. Bytes from 128 up are in none.
    pub fn has(self, byte: u8) -> bool
        ensures { result ≡ has self byte }
    {
        match self {
            Class::Alnum => is_letter(byte) || is_between(b'0', b'9', byte),
            Class::Alpha => is_letter(byte),
            Class::Blank => byte == b' ' || byte == b'\t',
            Class::Cntrl => byte <= 31 || byte == 127,
            Class::Digit => is_between(b'0', b'9', byte),
            Class::Graph => is_between(33, 126, byte),
            Class::Lower => is_between(b'a', b'z', byte),
            Class::Print => is_between(32, 126, byte),
            Class::Punct => {
                is_between(33, 126, byte) && !(is_letter(byte) || is_between(b'0', b'9', byte))
            },
            Class::Space => is_between(9, 13, byte) || byte == b' ',
            Class::Upper => is_between(b'A', b'Z', byte),
            Class::Xdigit => {
                is_between(b'0', b'9', byte)
                    || (is_between(b'A', b'F', byte) || is_between(b'a', b'f', byte))
            },
        }
    }
}
