//! Where the tokens of a text break off.
ghost use Rattle.std.specs.Prelude.{◌≡◌, IfOk};
ghost use Rattle.sh_parse_commands.specs.Cuts.{cut_fault};

use sh_parse_documents::item::next_item;
use sh_parse_documents::waiting::Waiting;
use sh_parse_words::fault::PartFault;
use sh_token::token::TokenFault;
use std::alloc::{AllocError, Global};

/// Why no token is found at the place `at` of a text that ends with the input, where `waiting` is awaited and
/// `left` levels may open. It is a level too many that opens there, or `None` where only the end of the text
/// comes too early. The only error is want of memory.
#[tactic(auto, unfolding(crate::specs::Cuts::cut_fault), using(crate::proofs::Cutting::none_told, crate::proofs::Cutting::unfinished_told, crate::proofs::Cutting::deep_told))]
pub fn cut_fault(
    alloc: Global,
    left: usize,
    text: &[u8],
    waiting: &Waiting,
    at: usize,
) -> Result<Option<PartFault>, AllocError>
    ensures { IfOk result (λ told. told ≡ cut_fault left text.now waiting.now at) }
{
    match next_item(alloc, text, at, true, left, waiting) {
        Ok(_) => Ok(None),
        Err(TokenFault::Unfinished) => Ok(None),
        Err(TokenFault::TooDeep { at }) => Ok(Some(PartFault::TooDeep { at })),
        Err(TokenFault::NoMemory(lack)) => Err(AllocError::from(lack)),
    }
}
