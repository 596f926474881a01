//! Patterns, what they match, and the parts of texts that they match.
use crate::steps::{decimal, number, repeated, yes_or_no};
use sh_pattern::{
    PatternByte, longest_back, longest_front, matches, shortest_back, shortest_front,
};
use std::alloc::Global;
use test_rows::RowFault;

/// The marks of a pattern in which a backslash makes the next byte literal.
fn marks(alloc: Global, pattern: &[u8]) -> Result<Vec<PatternByte>, RowFault> {
    let mut all = Vec::new(alloc);
    let mut literal = false;
    for byte in pattern {
        let escapes = *byte == b'\\' && !literal;
        if !escapes {
            all.push(PatternByte {
                byte: *byte,
                literal,
            })?;
        }
        literal = escapes;
    }
    Ok(all)
}

/// `match PATTERN TEXT`: whether the pattern matches the text.
pub(crate) fn is_matched(alloc: Global, pattern: &[u8], text: &[u8]) -> Result<Vec<u8>, RowFault> {
    let pattern = marks(alloc, pattern)?;
    yes_or_no(alloc, matches(&pattern, text))
}

/// `repeated PATTERN UNIT TIMES`: whether the pattern matches the text that is so many units.
pub(crate) fn is_repeated_matched(
    alloc: Global,
    pattern: &[u8],
    unit: &[u8],
    times: &[u8],
) -> Result<Vec<u8>, RowFault> {
    let text = repeated(alloc, unit, number(times))?;
    is_matched(alloc, pattern, &text)
}

/// `parts PATTERN TEXT`: the lengths of the shortest and longest prefix and the shortest and longest back that the pattern matches,
/// `none` where it matches none.
pub(crate) fn parts(alloc: Global, pattern: &[u8], text: &[u8]) -> Result<Vec<u8>, RowFault> {
    let marks = marks(alloc, pattern)?;
    let parts = [
        shortest_front(&marks, text),
        longest_front(&marks, text),
        shortest_back(&marks, text),
        longest_back(&marks, text),
    ];
    let mut all = Vec::new(alloc);
    for part in &parts {
        if !all.is_empty() {
            all.push(b' ')?;
        }
        match part {
            Some(length) => all.extend_from_slice(&decimal(alloc, *length)?)?,
            None => all.extend_from_slice(b"none")?,
        }
    }
    Ok(all)
}
