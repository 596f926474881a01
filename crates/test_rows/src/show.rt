//! What is written of what a row comes to.
use itoa::Buffer;
use sh_base::NoMemory;
use std::alloc::{AllocError, Global};

/// Writes a number.
pub fn put_number(shown: &mut Vec<u8>, number: usize) -> Result<(), AllocError> {
    let mut buffer = Buffer::new();
    shown.extend_from_slice(buffer.format(number).as_bytes())
}

/// Writes a word, with a blank before it if something stands there.
pub fn put_word(shown: &mut Vec<u8>, word: &[u8]) -> Result<(), AllocError> {
    if !shown.is_empty() {
        shown.push(b' ')?;
    }
    shown.extend_from_slice(word)
}

/// Writes a number as a word.
pub fn put_place(shown: &mut Vec<u8>, place: usize) -> Result<(), AllocError> {
    put_word(shown, b"")?;
    put_number(shown, place)
}

/// A word alone.
pub fn word_of(alloc: Global, word: &[u8]) -> Result<Vec<u8>, NoMemory> {
    let word = Vec::from_slice(alloc, word)?;
    Ok(word)
}
