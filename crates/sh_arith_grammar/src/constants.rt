//! Integer constants (XCU 2.6.4, C 6.4.4.1).
ghost use Rattle.std.specs.Prelude.{◌≡◌, ◌≤◌};
ghost use Rattle.std.specs.List.{list_all};
ghost use Rattle.sh_arith_grammar.specs.Constants.{number_in_bounds, constant_value, digit_value, is_constant, is_digit, number_after, numeral};

/// A word's radix and digits.
#[derive(Clone, Copy)]
struct Digits<'t> {
    radix: u8,
    digits: &'t [u8],
}

/// The radix and the digits of a word, whether or not the word is a constant.
fn digits_of<'t>(word: &'t [u8]) -> Digits<'t>
    ensures radix { result.radix ≡ (numeral word.now).radix }
    ensures digits { result.digits.now ≡ (numeral word.now).digits }
    ensures positive { 1 ≤ result.radix }
    ensures small { result.radix ≤ 16 }
{
    let Some((first, others)) = word.split_first() else {
        return Digits {
            radix: 10,
            digits: word,
        };
    };
    if *first != b'0' {
        return Digits {
            radix: 10,
            digits: word,
        };
    }
    let Some((second, digits)) = others.split_first() else {
        return Digits {
            radix: 8,
            digits: word,
        };
    };
    if *second == b'x' || *second == b'X' {
        return Digits { radix: 16, digits };
    }
    Digits {
        radix: 8,
        digits: others,
    }
}

/// The value of a byte as a digit; 16 for a byte that is no digit.
fn digit_value(byte: u8) -> u8
    ensures value { result ≡ digit_value byte }
    ensures small { result ≤ 16 }
{
    if byte >= b'0' && byte <= b'9' {
        byte - b'0'
    } else if byte >= b'a' && byte <= b'f' {
        byte - 87
    } else if byte >= b'A' && byte <= b'F' {
        byte - 55
    } else {
        16
    }
}

fn is_digit(radix: u8, byte: u8) -> bool
    ensures { result ≡ is_digit radix byte }
{
    digit_value(byte) < radix
}

fn are_digits(radix: u8, bytes: &[u8]) -> bool
    ensures { result ≡ list_all (is_digit radix) bytes.now }
{
    bytes.iter().all(|byte| is_digit(radix, *byte))
}

/// Whether a word is a constant.
pub(crate) fn is_constant(word: &[u8]) -> bool
    ensures { result ≡ is_constant word.now }
{
    let Digits { radix, digits } = digits_of(word);
    !digits.is_empty() && are_digits(radix, digits)
}

/// The number that the digits write; `None` where it is above 2^63.
fn number_of(radix: u8, digits: &[u8]) -> Option<u64>
    requires positive { 1 ≤ radix }
    requires small { radix ≤ 16 }
    ensures { result ≡ number_in_bounds (number_after radix 0 digits.now) }
{
    let mut number: u128 = 0;
    let mut left = digits;
    while let Some((first, others)) = left.split_first() {
        number = number * u128::from(radix) + u128::from(digit_value(*first));
        if number > 0x8000_0000_0000_0000 {
            return None;
        }
        left = others;
    }
    Some(number as u64)
}

/// The number that a constant writes: octal after 0, hexadecimal after 0x or 0X, otherwise decimal (C
/// 6.4.4.1). `None` where it is above 2^63. For a word that is no constant, the number means nothing.
pub fn constant_value(word: &[u8]) -> Option<u64>
    ensures { result ≡ number_in_bounds (constant_value word.now) }
{
    let Digits { radix, digits } = digits_of(word);
    number_of(radix, digits)
}
