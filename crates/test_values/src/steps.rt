//! Series of steps on one value, and what each answers.
use itoa::Buffer;
use std::alloc::Global;
use test_rows::RowFault;

/// A value on which steps act.
pub(crate) trait Acted {
    /// Does a step, which is a word and what stands behind it, and says what it answers.
    ///
    /// # Errors
    ///
    /// [`RowFault::NoMemory`].
    fn act(&mut self, alloc: Global, word: &[u8], rest: &[u8]) -> Result<Vec<u8>, RowFault>;
}

/// The bytes before the first blank, and those behind it; all and none where none is.
pub(crate) fn cut(bytes: &[u8]) -> (&[u8], &[u8]) {
    match bytes.iter().position(|byte| *byte == b' ') {
        Some(i) => (&bytes[..i], &bytes[i + 1..]),
        None => (bytes, &[]),
    }
}

/// The number that decimal digits write, or the greatest one there is.
pub(crate) fn number(digits: &[u8]) -> usize {
    let mut value = 0usize;
    for digit in digits {
        value = value
            .saturating_mul(10)
            .saturating_add(usize::from(digit.saturating_sub(b'0')));
    }
    value
}

/// A number in decimal digits.
pub(crate) fn decimal(alloc: Global, number: usize) -> Result<Vec<u8>, RowFault> {
    Ok(Buffer::new().format(number).as_bytes().to_vec(alloc)?)
}

/// So many of a text, one behind another.
pub(crate) fn repeated(alloc: Global, unit: &[u8], times: usize) -> Result<Vec<u8>, RowFault> {
    let mut text = Vec::new(alloc);
    for _ in 0..times {
        text.extend_from_slice(unit)?;
    }
    Ok(text)
}

/// What stands between separators.
pub(crate) fn parts(alloc: Global, bytes: &[u8], separator: u8) -> Result<Vec<Vec<u8>>, RowFault> {
    let mut parts = Vec::new(alloc);
    let mut part = Vec::new(alloc);
    for byte in bytes {
        if *byte == separator {
            parts.push(part)?;
            part = Vec::new(alloc);
        } else {
            part.push(*byte)?;
        }
    }
    parts.push(part)?;
    Ok(parts)
}

/// An answer.
pub(crate) fn said(alloc: Global, text: &str) -> Result<Vec<u8>, RowFault> {
    Ok(text.as_bytes().to_vec(alloc)?)
}

/// Texts, one behind another.
pub(crate) fn joined(alloc: Global, texts: &[&[u8]]) -> Result<Vec<u8>, RowFault> {
    let mut all = Vec::new(alloc);
    for text in texts {
        all.extend_from_slice(text)?;
    }
    Ok(all)
}

/// A text between brackets.
pub(crate) fn bracketed(alloc: Global, text: &[u8]) -> Result<Vec<u8>, RowFault> {
    joined(alloc, &[b"[".as_slice(), text, b"]".as_slice()])
}

/// `yes` or `no`.
pub(crate) fn yes_or_no(alloc: Global, is_so: bool) -> Result<Vec<u8>, RowFault> {
    said(alloc, if is_so { "yes" } else { "no" })
}

/// What the steps of a series answer, in order; `; ` stands between steps, and between answers.
pub(crate) fn answers(
    alloc: Global,
    value: &mut impl Acted,
    steps: &[u8],
) -> Result<Vec<u8>, RowFault> {
    let mut text = Vec::new(alloc);
    for step in parts(alloc, steps, b';')?.as_slice() {
        let step = step.as_slice();
        let (word, rest) = cut(step.strip_prefix(b" ".as_slice()).unwrap_or(step));
        let answer = value.act(alloc, word, rest)?;
        if !text.is_empty() {
            text.extend_from_slice(b"; ")?;
        }
        text.extend_from_slice(&answer)?;
    }
    Ok(text)
}
