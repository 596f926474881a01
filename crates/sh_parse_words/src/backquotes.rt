//! The commands between backquotes.
ghost use Rattle.std.specs.Prelude.{◌≡◌, IfOk};
ghost use Rattle.sh_token_pieces.specs.Bytes.{is_quoted_escape};
ghost use Rattle.sh_parse_words.specs.Backquotes.{is_escape, without_escapes};

use std::alloc::{AllocError, Global};

fn is_quoted_escape(b: u8) -> bool
    ensures { result ≡ is_quoted_escape b }
{
    b == b'$' || b == b'`' || b == b'\\'
}

/// Whether a backslash before the byte is left out.
fn is_escape(is_quoted: bool, b: u8) -> bool
    ensures { result ≡ is_escape is_quoted b }
{
    is_quoted_escape(b) || (is_quoted && b == b'"')
}

/// The text of the commands between backquotes (XCU 2.6.3): these bytes without each backslash before a `$`,
/// a backquote or a backslash. In double quotes (`is_quoted`) each backslash before a `"` is left out too
/// (XCU 2.2.3). The only error is want of memory.
#[tactic(auto, unfolding(crate::specs::Backquotes::without_escapes))]
pub fn unescaped(alloc: Global, is_quoted: bool, bytes: &[u8]) -> Result<Vec<u8>, AllocError>
    ensures { IfOk result (λ text. text.items ≡ without_escapes is_quoted bytes.now) }
{
    let mut text = Vec::new(alloc);
    let mut rest = bytes;
    while let Some((first, after)) = rest.split_first() {
        let Some((second, behind)) = after.split_first() else {
            text.push(*first)?;
            return Ok(text);
        };
        if *first == b'\\' && is_escape(is_quoted, *second) {
            text.push(*second)?;
            rest = behind;
            continue;
        }
        text.push(*first)?;
        rest = after;
    }
    Ok(text)
}
