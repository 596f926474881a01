//! The number that a variable's value writes.
ghost use Rattle.std.specs.Prelude.{◌≡◌, None, if◌then◌else◌};
ghost use Rattle.std.specs.List.{list_all};
ghost use Rattle.sh_arith_grammar.specs.Constants.{number_in_bounds, constant_value};
ghost use Rattle.sh_arith_grammar.specs.Lexical.{first_word};
ghost use Rattle.sh_arith_grammar.specs.Numbers.{is_magnitude, is_value_blank, negative, number_of, positive, signed_number, without_blanks};

use crate::constants::{constant_value, is_constant};
use crate::tokens::word_length;

/// Whether a byte may be before or after a number: space, tab.
fn is_value_blank(byte: u8) -> bool
    ensures { result ≡ is_value_blank byte }
{
    byte == b' ' || byte == b'\t'
}

fn are_value_blanks(bytes: &[u8]) -> bool
    ensures { result ≡ list_all is_value_blank bytes.now }
{
    bytes.iter().all(|byte| is_value_blank(*byte))
}

/// The bytes after the leading blanks.
fn without_blanks(bytes: &[u8]) -> &[u8]
    ensures { result.now ≡ without_blanks bytes.now }
{
    let mut left = bytes;
    while let Some((first, others)) = left.split_first() {
        if !is_value_blank(*first) {
            return left;
        }
        left = others;
    }
    left
}

/// The number that a constant with blanks after it writes, if it is at most 2^63.
fn magnitude(bytes: &[u8]) -> Option<u64>
    ensures { result ≡
        (if is_magnitude bytes.now then number_in_bounds (constant_value (first_word bytes.now))
        else None) }
{
    let length = word_length(bytes);
    let word = &bytes[..length];
    if !is_constant(word) {
        return None;
    }
    if !are_value_blanks(&bytes[length..]) {
        return None;
    }
    constant_value(word)
}

/// The number of a constant and blanks, without a minus sign.
fn positive(bytes: &[u8]) -> Option<i64>
    ensures { result ≡ positive bytes.now }
{
    match magnitude(bytes) {
        Some(number) => {
            if number < 0x8000_0000_0000_0000 {
                Some(number as i64)
            } else {
                None
            }
        },
        None => None,
    }
}

/// The number of a constant and blanks, with `-` before them.
fn negative(bytes: &[u8]) -> Option<i64>
    ensures { result ≡ negative bytes.now }
{
    match magnitude(bytes) {
        Some(number) => {
            if number < 0x8000_0000_0000_0000 {
                Some(-(number as i64))
            } else {
                Some(i64::MIN)
            }
        },
        None => None,
    }
}

/// The number of an optional sign, a constant and blanks.
fn signed(bytes: &[u8]) -> Option<i64>
    ensures { result ≡ signed_number bytes.now }
{
    match bytes.split_first() {
        None => None,
        Some((first, others)) => {
            if *first == b'-' {
                negative(others)
            } else if *first == b'+' {
                positive(others)
            } else {
                positive(bytes)
            }
        },
    }
}

/// The number that a variable's value writes (XCU 2.6.4): spaces and tabs, an optional sign, a constant,
/// spaces and tabs. An empty value is 0. `None` where the value is no such number, or the number isn't in 64
/// bits with a sign. After `-` the constant may be 9223372036854775808.
pub fn number_of(bytes: &[u8]) -> Option<i64>
    ensures { result ≡ number_of bytes.now }
{
    if bytes.is_empty() {
        return Some(0);
    }
    signed(without_blanks(bytes))
}
