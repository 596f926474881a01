//! Fields of a line, and what delimits them.
ghost use Rattle.std.specs.Prelude.{◌≡◌, ◌==◌, IfOk};
ghost use Rattle.std.specs.List.{list_any};
ghost use Rattle.sh_expand_fields.specs.Lines.{before_white, behind, behind_delimiter, behind_field, behind_white, bytes_of, delimits, field, is_space, is_white};

use sh_base::NoMemory;
use sh_base::sequence::{Sequence, Text};
use sh_pattern::PatternByte;
use std::alloc::Global;

/// Whether a byte is in IFS.
fn is_in(ifs: &[u8], byte: u8) -> bool
    ensures { result ≡ list_any (λ b. b == byte) ifs.now }
{
    ifs.iter().any(|it| *it == byte)
}

/// Whether a byte is a space, a tab or a newline.
fn is_space(byte: u8) -> bool
    ensures { result ≡ is_space byte }
{
    byte == b' ' || byte == b'\t' || byte == b'\n'
}

/// Whether a byte of a line delimits.
fn delimits(ifs: &[u8], mark: PatternByte) -> bool
    ensures { result ≡ delimits ifs.now mark }
{
    !mark.literal && is_in(ifs, mark.byte)
}

/// Whether a byte of a line is IFS white space that delimits.
fn is_white(ifs: &[u8], mark: PatternByte) -> bool
    ensures { result ≡ is_white ifs.now mark }
{
    delimits(ifs, mark) && is_space(mark.byte)
}

/// The line after the white space at its beginning.
pub(crate) fn behind_white<'a>(ifs: &[u8], line: &'a [PatternByte]) -> &'a [PatternByte]
    ensures { result.now ≡ behind_white ifs.now line.now }
{
    let mut rest = line;
    'marks: while let Some((mark, others)) = rest.split_first() {
        if !is_white(ifs, *mark) {
            return rest;
        }
        rest = others;
    }
    rest
}

/// The line before the white space at its end.
pub(crate) fn before_white<'a>(ifs: &[u8], line: &'a [PatternByte]) -> &'a [PatternByte]
    ensures { result.now ≡ before_white ifs.now line.now }
{
    let mut rest = line;
    'marks: while let Some((mark, prefix)) = rest.split_last() {
        if !is_white(ifs, *mark) {
            return rest;
        }
        rest = prefix;
    }
    rest
}

/// The line after the field that it begins with.
fn behind_field<'a>(ifs: &[u8], line: &'a [PatternByte]) -> &'a [PatternByte]
    ensures { result.now ≡ behind_field ifs.now line.now }
{
    let mut rest = line;
    'marks: while let Some((mark, others)) = rest.split_first() {
        if delimits(ifs, *mark) {
            return rest;
        }
        rest = others;
    }
    rest
}

/// The line after a delimiter at its beginning and the white space after that; the line itself without one.
fn behind_delimiter<'a>(ifs: &[u8], line: &'a [PatternByte]) -> &'a [PatternByte]
    ensures { result.now ≡ behind_delimiter ifs.now line.now }
{
    match line.split_first() {
        Some((mark, others)) => {
            if delimits(ifs, *mark) {
                return behind_white(ifs, others);
            }
            line
        },
        None => line,
    }
}

/// The line after the field that it begins with, and after what delimits that field.
#[tactic(auto, unfolding(crate::specs::Lines::behind))]
pub(crate) fn behind<'a>(ifs: &[u8], line: &'a [PatternByte]) -> &'a [PatternByte]
    ensures { result.now ≡ behind ifs.now line.now }
{
    behind_delimiter(ifs, behind_white(ifs, behind_field(ifs, line)))
}

/// The field that a line begins with. The only error is want of memory.
pub(crate) fn field(alloc: Global, ifs: &[u8], line: &[PatternByte]) -> Result<Text, NoMemory>
    ensures { IfOk result (λ text. text ≡ field ifs.now line.now) }
{
    let mut text = Sequence::new(alloc);
    let mut rest = line;
    'marks: while let Some((mark, others)) = rest.split_first() {
        if delimits(ifs, *mark) {
            return Ok(text);
        }
        text.push(mark.byte)?;
        rest = others;
    }
    Ok(text)
}

/// The bytes of a part of a line.
pub(crate) fn bytes_of(alloc: Global, marks: &[PatternByte]) -> Result<Text, NoMemory>
    ensures { IfOk result (λ text. text ≡ bytes_of marks.now) }
{
    let mut text = Sequence::new(alloc);
    let mut rest = marks;
    'marks: while let Some((mark, others)) = rest.split_first() {
        text.push(mark.byte)?;
        rest = others;
    }
    Ok(text)
}
