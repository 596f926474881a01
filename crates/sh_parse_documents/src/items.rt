//! All tokens of a text with the bodies of here-documents after them.
ghost use Rattle.std.specs.Prelude.{◌≡◌, IfOk};
ghost use Rattle.sh_parse_documents.specs.Stream.{items_of};
ghost use Rattle.sh_parse_documents.specs.Scanned.{all_items};

use crate::item::{Item, next_item};
use crate::waiting::Waiting;
use sh_token::token::{TokenFault, TokenKind};
use std::alloc::{AllocError, Global};

/// The tokens of a text.
#[derive(Debug, Drop)]
pub struct Items {
    /// The tokens, without the end of the input.
    pub items: Vec<Item>,
    /// The place after the last item, where what comes next isn't finished; `None` where the end of the input
    /// comes next.
    pub cut: Option<usize>,
}

/// The tokens of a text (XCU 2.3), each newline with the bodies of the here-documents that are due at it (XCU
/// 2.7.4), up to the end of the input or to what isn't finished. `at_end`: the end of the text is the end of
/// the input. The only error is want of memory. Time and memory are linear in the text.
pub fn scan_items(alloc: Global, text: &[u8], at_end: bool) -> Result<Items, AllocError>
    ensures { IfOk result (λ found. items_of at_end text.now ≡ all_items found) }
{
    let mut items = Vec::new(alloc);
    let mut waiting = Waiting::new(alloc);
    let mut at = 0;
    loop {
        match next_item(alloc, text, at, at_end, text.len(), &waiting) {
            Ok(item) => {
                if let TokenKind::End = item.token.kind {
                    return Ok(Items { items, cut: None });
                }
                waiting.pass(&item.token.kind)?;
                at = item.end;
                items.push(item)?;
            },
            Err(TokenFault::NoMemory(lack)) => return Err(AllocError::from(lack)),
            Err(_) => {
                return Ok(Items {
                    items,
                    cut: Some(at),
                });
            },
        }
    }
}
