//! Answers to command substitutions (XCU 2.6.3).
ghost use Rattle.std.specs.Prelude.{◌≡◌, ◌++◌, ◌∷◌, [], IfOk, List, ℕ};
ghost use Rattle.std.specs.List.{filter};
ghost use Rattle.sh_expand_parts.specs.Answers.{answer_text, is_kept, without_end_newlines};
ghost use Rattle.sh_expand_parts.specs.Drafts.{plain, text_items};

use crate::context::Context;
use crate::draft::{Draft, text_draft};
use std::alloc::{AllocError, Global};

/// The bytes other than NUL.
fn kept(alloc: Global, answer: &[u8]) -> Result<Vec<u8>, AllocError>
    ensures { IfOk result (λ text. text.items ≡ filter is_kept answer.now) }
{
    answer
        .iter()
        .copied()
        .filter(|byte| *byte != 0)
        .collect(alloc)
}

/// A text without the newlines at its end.
#[tactic(auto, using(crate::proofs::Trims::newline_goes, crate::proofs::Trims::other_stays))]
fn trimmed(text: &[u8]) -> &[u8]
    ensures { result.now ≡ without_end_newlines text.now }
{
    let mut rest = text;
    'bytes: while let Some((byte, prefix)) = rest.split_last() {
        if *byte != b'\n' {
            return rest;
        }
        rest = prefix;
    }
    rest
}

/// The items of a command substitution (XCU 2.6.3), where `answer` is what its commands wrote: its bytes
/// without NUL, then without the newlines at the end. The only error is want of memory.
pub fn answer_items(alloc: Global, context: Context, answer: &[u8]) -> Result<Draft, AllocError>
    ensures { IfOk result (λ d. d ≡ plain (text_items context (answer_text answer.now))) }
{
    let text = kept(alloc, answer)?;
    text_draft(alloc, context, trimmed(text.as_slice()))
}
