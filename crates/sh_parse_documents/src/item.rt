//! The tokens of a text with the bodies of here-documents after them.
ghost use Rattle.std.specs.Prelude.{◌≡◌, ◌≤◌, IfOk, length, drop};
ghost use Rattle.sh_parse_documents.specs.Places.{IsItemPlaced};
ghost use Rattle.sh_parse_documents.specs.Items.{GivesItem, item_at, first_item};

use crate::bodies::bodies_size;
use crate::waiting::Waiting;
use sh_token::token::{Token, TokenFault, next_token_within};
use std::alloc::Global;

/// A token; with a newline, also the bodies of the here-documents that were due.
#[derive(Debug, Drop)]
pub struct Item {
    pub token: Token,
    /// The place after the bodies, which begin where the token ends. Without bodies this is where the token
    /// ends.
    pub end: usize,
}

/// The first token of the text from the byte at `at` on, with the bodies after it; `waiting` is what is
/// awaited there. `at_end`: the end of the text is the end of the input, which cuts off a body that isn't
/// over. `levels`: how many levels may be open in the token; a text never opens more levels than it has
/// bytes. The faults are the faults of a token; `Unfinished` also where a body isn't over and the input goes
/// on.
#[tactic(auto, unfolding(crate::specs::Items::first_item))]
pub fn next_item(
    alloc: Global,
    text: &[u8],
    at: usize,
    at_end: bool,
    levels: usize,
    waiting: &Waiting,
) -> Result<Item, TokenFault>
    ensures answers { GivesItem result
        (item_at at (first_item at_end levels waiting.now (drop at text.now))) }
    ensures placed { IfOk result (λ item. IsItemPlaced at (length text.now) item) }
{
    let token = next_token_within(alloc, text, at, at_end, levels)?;
    let bytes = bytes_from(text, token.span.end);
    let due = waiting.due_at(&token.kind);
    let Some(size) = bodies_size(bytes, due, at_end) else {
        return Err(TokenFault::Unfinished);
    };
    let end = token.span.end + size;
    Ok(Item { token, end })
}

/// The text from a place on. It is empty past the end of the text.
fn bytes_from(text: &[u8], at: usize) -> &[u8]
    ensures { result.now ≡ drop at text.now }
{
    if at <= text.len() { &text[at..] } else { &[] }
}
