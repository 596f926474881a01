//! Steps of a row: `;` stands between them, and a space between the words of one. In a word `_` stands for a space.
use std::alloc::{AllocError, Global};
use std::str;

/// The word of a step at a place; none where it has fewer.
pub(crate) fn word(step: &[u8], place: usize) -> &[u8] {
    step.split(|byte| *byte == b' ').nth(place).unwrap_or(b"")
}

/// Whether the word of a step at a place is this.
pub(crate) fn is(step: &[u8], place: usize, text: &str) -> bool {
    word(step, place) == text.as_bytes()
}

/// The bytes that a word of a step stands for.
pub(crate) fn bytes_of(alloc: Global, word: &[u8]) -> Result<Vec<u8>, AllocError> {
    let mut bytes = word.to_vec(alloc)?;
    for byte in &mut bytes {
        if *byte == b'_' {
            *byte = b' ';
        }
    }
    Ok(bytes)
}

/// The number that decimal digits write.
pub(crate) fn number_of(digits: &[u8]) -> Option<usize> {
    str::from_utf8(digits).ok()?.parse().ok()
}

/// The number that a word of a step is; 0 where it is none.
pub(crate) fn count(step: &[u8], place: usize) -> usize {
    number_of(word(step, place)).unwrap_or(0)
}

/// The number of a process that a word of a step is; 0 where it is none.
pub(crate) fn process(step: &[u8], place: usize) -> u32 {
    u32::try_from(count(step, place)).unwrap_or(0)
}

/// The number of a descriptor or a status that a word of a step is; 255 where it is none.
pub(crate) fn small(step: &[u8], place: usize) -> u8 {
    u8::try_from(count(step, place)).unwrap_or(255)
}

/// Puts a text behind others, with `;` behind each.
pub(crate) fn say(said: &mut Vec<u8>, text: &[u8]) -> Result<(), AllocError> {
    said.extend_from_slice(text)?;
    said.push(b';')?;
    Ok(())
}

/// The text of a truth.
pub(crate) fn truth(holds: bool) -> &'static [u8] {
    if holds { b"yes" } else { b"no" }
}
