//! Words of any bytes as texts, for clap reads only these.
use std::alloc::{AllocError, Global};

/// A word as the text that clap reads: a word may be any bytes, and each byte becomes the character of its
/// number, as in ISO 8859-1.
fn text_of(alloc: Global, word: &[u8]) -> Result<String, AllocError> {
    let mut text = String::new(alloc);
    for byte in word {
        text.push(char::from(*byte))?;
    }
    Ok(text)
}

/// Words as the texts that clap reads: a word may be any bytes, and each byte becomes the character of its number, as in
/// ISO 8859-1. The only error is want of memory.
pub fn texts_of(alloc: Global, words: &[Vec<u8>]) -> Result<Vec<String>, AllocError> {
    let mut texts = Vec::new(alloc);
    for word in words {
        texts.push(text_of(alloc, word)?)?;
    }
    Ok(texts)
}

/// The bytes of such a text. A character that is no byte's becomes a question mark.
pub(crate) fn bytes_of(alloc: Global, text: &str) -> Result<Vec<u8>, AllocError> {
    let mut bytes = Vec::new(alloc);
    for character in text.chars() {
        bytes.push(u8::try_from(character).unwrap_or(b'?'))?;
    }
    Ok(bytes)
}
