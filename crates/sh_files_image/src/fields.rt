// Lines of an image, and their fields.
ghost use Rattle.std.specs.Prelude.{◌≡◌, ◌+◌, ◌≤◌, ◌<◌, ◌==◌, IfSome, length, option_map, drop, take, position};
ghost use Rattle.sh_files_image.specs.Fields.{begins_well, behind, file_fields, length_field, fields_of, flag_of, flags_of, is_decimal, last_space, line_of, newlines, small};
ghost use Rattle.sh_base.specs.Decimals.{value_of};

use crate::node::Flags;
use sh_base::decimal::{all_digits, limited_value};

/// The longest image, and the longest file in one, in bytes.
pub const MAX_IMAGE: usize = 1 << 28;

/// The place of the first newline.
fn first_newline(bytes: &[u8]) -> Option<usize>
    ensures place { result ≡ position (λ b. b == 10) bytes.now }
    ensures within { IfSome result (λ i. i < length bytes.now) }
{
    bytes.iter().position(|byte| *byte == b'\n')
}

/// The first line without its newline, and what comes after it; `None` where there is no newline.
pub fn split_line(bytes: &[u8]) -> Option<(&[u8], &[u8])>
    ensures parts { option_map (λ line. (line.0.now, line.1.now)) result ≡ line_of bytes.now }
    ensures shorter { IfSome result (λ line. length line.1.now < length bytes.now) }
{
    match first_newline(bytes) {
        Some(i) => Some((&bytes[..i], &bytes[i + 1..])),
        None => None,
    }
}

/// What follows a word that a line begins with; `None` where the line doesn't begin with it.
pub fn behind<'a>(line: &'a [u8], word: &[u8]) -> Option<&'a [u8]>
    ensures { option_map (λ rest. rest.now) result ≡ behind word.now line.now }
{
    if line.starts_with(word) {
        return Some(skip(line, word.len()));
    }
    None
}

/// What is left after so many bytes.
pub fn skip(bytes: &[u8], count: usize) -> &[u8]
    ensures value { result.now ≡ drop count bytes.now }
    ensures shorter { length result.now ≤ length bytes.now }
{
    &bytes[count.min(bytes.len())..]
}

/// The first so many bytes.
pub fn first(bytes: &[u8], count: usize) -> &[u8]
    ensures value { result.now ≡ take count bytes.now }
    ensures short { length result.now ≤ count }
{
    &bytes[..count.min(bytes.len())]
}

/// The place of the last space.
fn last_space(line: &[u8]) -> Option<usize>
    ensures place { result ≡ last_space line.now }
    ensures within { IfSome result (λ i. i < length line.now) }
{
    let mut rest = line;
    'bytes: while let Some((byte, prefix)) = rest.split_last() {
        if *byte == b' ' {
            return Some(prefix.len());
        }
        rest = prefix;
    }
    None
}

/// What is before the last space, and what is after it.
fn split_field(line: &[u8]) -> Option<(&[u8], &[u8])>
    ensures { option_map (λ parts. (parts.0.now, parts.1.now)) result ≡ fields_of line.now }
{
    match last_space(line) {
        Some(i) => Some((&line[..i], &line[i + 1..])),
        None => None,
    }
}

/// A flag: its letter, or a hyphen.
fn flag_of(letter: u8, byte: u8) -> Option<bool>
    ensures { result ≡ flag_of letter byte }
{
    if byte == letter {
        return Some(true);
    }
    if byte == b'-' {
        return Some(false);
    }
    None
}

/// The flags of a file.
fn flags_of(bytes: &[u8]) -> Option<Flags>
    ensures { result ≡ flags_of bytes.now }
{
    let [r, w, x] = bytes else {
        return None;
    };
    let read = flag_of(b'r', *r)?;
    let write = flag_of(b'w', *w)?;
    let execute = flag_of(b'x', *x)?;
    Some(Flags {
        read,
        write,
        execute,
    })
}

/// Whether there is a digit, and no zero before another.
fn begins_well(digits: &[u8]) -> bool
    ensures { result ≡ begins_well digits.now }
{
    match digits {
        [] => false,
        [_] => true,
        [first, _, ..] => *first != b'0',
    }
}

/// Whether digits are a number without leading zeros.
fn is_decimal(digits: &[u8]) -> bool
    ensures { result ≡ is_decimal digits.now }
{
    all_digits(digits) && begins_well(digits)
}

/// The value of decimal digits, if it is at most [`MAX_IMAGE`].
fn small_value(digits: &[u8]) -> Option<usize>
    ensures { result ≡ small (value_of digits.now) }
{
    let value = limited_value(digits, 268_435_456)?;
    Some(value as usize)
}

/// A length: `Some(None)` where it is too large, `None` where it is no decimal number.
fn length_field(digits: &[u8]) -> Option<Option<usize>>
    ensures { result ≡ length_field digits.now }
{
    if !is_decimal(digits) {
        return None;
    }
    Some(small_value(digits))
}

/// The fields of a file's line: its path, its flags, and its length, which is `None` where it is above
/// [`MAX_IMAGE`].
pub fn file_fields(line: &[u8]) -> Option<(&[u8], (Flags, Option<usize>))>
    ensures { option_map (λ fields. (fields.0.now, fields.1)) result ≡ file_fields line.now }
{
    let (prefix, digits) = split_field(line)?;
    let (path, flags) = split_field(prefix)?;
    let flags = flags_of(flags)?;
    let length = length_field(digits)?;
    Some((path, (flags, length)))
}

/// The number of newlines.
pub fn count_newlines(bytes: &[u8]) -> usize
    ensures value { result ≡ newlines bytes.now }
    ensures within { result ≤ length bytes.now }
{
    let mut count = 0usize;
    let mut rest = bytes;
    'bytes: while let Some((byte, behind)) = rest.split_first() {
        if *byte == b'\n' {
            count += 1;
        }
        rest = behind;
    }
    count
}
