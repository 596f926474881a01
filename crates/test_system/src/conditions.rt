//! `test WORDS ANSWER`: what comes of the utility `test`: `0` where the condition holds, `1` where it doesn't, `2` where the operands are
//! wrong, `terminal N` where a descriptor is asked about, and `no terminal N` where that is negated. A space stands before each word.
use crate::outcomes::words_of;
use sh_builtin_regular::{Verdict, evaluate};
use sh_files::Files;
use std::alloc::Global;
use test_rows::RowFault;

/// A directory, a file with bytes, an empty one that may only be read, a program, and one that nobody may touch.
const IMAGE: &[u8] =
    b"psh image 1\ndir /d\nfile /d/f rw- 1\na\nfile /e r-- 0\n\nfile /n --- 1\na\nfile /p r-x 1\na\nend\n";

/// The text of a verdict.
fn text_of(alloc: Global, verdict: Verdict) -> Result<Vec<u8>, RowFault> {
    let text: &[u8] = match verdict {
        Verdict::Is(true) => b"0",
        Verdict::Is(false) => b"1",
        Verdict::Usage => b"2",
        Verdict::Terminal {
            descriptor,
            inverted,
        } => {
            let no = if inverted { "no " } else { "" };
            return Ok(format!(in alloc; "{no}terminal {descriptor}")?.into_bytes());
        },
    };
    Ok(text.to_vec(alloc)?)
}

/// What comes of the words of a row.
pub(crate) fn outcome(alloc: Global, words: &[u8]) -> Result<Vec<u8>, RowFault> {
    let Ok(files) = Files::from_image(alloc, IMAGE) else {
        return Err(RowFault::NoMemory);
    };
    let Ok(words) = words_of(alloc, words) else {
        drop(files);
        return Err(RowFault::NoMemory);
    };
    let verdict = evaluate(&files, b"/", words.get(1..).unwrap_or(&[]));
    drop(files);
    match verdict {
        Ok(verdict) => text_of(alloc, verdict),
        Err(_) => Err(RowFault::NoMemory),
    }
}
