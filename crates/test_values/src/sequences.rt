//! Lists of the crates' own.
use crate::steps::{Acted, answers, bracketed, decimal, parts, said, yes_or_no};
use sh_base::sequence::{Sequence, Text};
use std::alloc::Global;
use test_rows::RowFault;

impl Acted for Text {
    fn act(&mut self, alloc: Global, word: &[u8], rest: &[u8]) -> Result<Vec<u8>, RowFault> {
        if word == b"empty".as_slice() {
            return yes_or_no(alloc, self.is_empty());
        }
        if word == b"length".as_slice() {
            return decimal(alloc, self.len());
        }
        if word == b"pop".as_slice() {
            let mut popped = Vec::new(alloc);
            if let Some(byte) = self.pop() {
                popped.push(byte)?;
            }
            return Ok(popped);
        }
        if word == b"push".as_slice() {
            self.push(rest.first().copied().unwrap_or(b'-'))?;
        } else if word == b"extend".as_slice() {
            self.extend_from_slice(rest)?;
        }
        bracketed(alloc, self.as_slice())
    }
}

/// What the steps answer, and the bytes in the end.
fn answers_and_bytes(alloc: Global, text: Text, steps: &[u8]) -> Result<Vec<u8>, RowFault> {
    let mut text = text;
    let mut found = answers(alloc, &mut text, steps)?;
    found.extend_from_slice(b"; ")?;
    found.extend_from_slice(text.into_vec().as_slice())?;
    Ok(found)
}

/// `bytes STEPS`: what the steps answer on an empty text, and its bytes in the end.
pub(crate) fn bytes(alloc: Global, steps: &[u8]) -> Result<Vec<u8>, RowFault> {
    answers_and_bytes(alloc, Sequence::new(alloc), steps)
}

/// The texts between blanks.
fn texts_of(alloc: Global, words: &[u8]) -> Result<Sequence<Text>, RowFault> {
    let mut texts = Sequence::new(alloc);
    for word in parts(alloc, words, b' ')? {
        texts.push(Sequence::from_vec(word))?;
    }
    Ok(texts)
}

/// `texts WORDS`: how many texts stand between blanks, the last of them, and the others as `Debug` shows them.
pub(crate) fn texts(alloc: Global, words: &[u8]) -> Result<Vec<u8>, RowFault> {
    let mut texts = texts_of(alloc, words)?;
    let count = texts.len();
    let last = match texts.pop() {
        Some(text) => bracketed(alloc, text.as_slice())?,
        None => said(alloc, "none")?,
    };
    let mut found = decimal(alloc, count)?;
    found.push(b' ')?;
    found.extend_from_slice(&last)?;
    found.extend_from_slice(format!(in alloc; " {texts:?}")?.as_bytes())?;
    Ok(found)
}
