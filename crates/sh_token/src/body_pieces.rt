//! The bodies of here-documents that are expanded (XCU 2.7.4).
ghost use Rattle.sh_base.specs.Memory.{no_memory};
ghost use Rattle.std.specs.Prelude.{◌≡◌, ◌↔◌, ℕ, List, length};
ghost use Rattle.sh_token_pieces.specs.declared.context.Context.TheVariants.{Body};
ghost use Rattle.sh_token.specs.Body.{BodyPieces, IsBody, body_answer, GivesPieces};
ghost use Rattle.sh_token.specs.Found.{pieces_of_body};

use sh_base::NoMemory;
use sh_base::sequence::Sequence;
use sh_token_pieces::context::Context;
use sh_token_pieces::piece::Piece;
use sh_token_scanner::scanner::{Outcome, scan};
use std::alloc::{AllocError, Global};
use thiserror::Error;

/// Why a body has no pieces.
#[derive(Clone, Copy, Debug, PartialEq, Eq, Error)]
pub enum BodyFault {
    /// The form that begins with the `$` or the backquote at byte `at` is open at the end of the body, and is
    /// in no other form.
    #[error("unfinished expansion at byte {at}")]
    Open { at: usize },
    /// The piece at byte `at` of the body, or the compound command that begins there, opens a level too many.
    #[error("too deep at byte {at}")]
    TooDeep { at: usize },
    /// There was not enough memory.
    #[error("{0}")]
    NoMemory(NoMemory),
}

impl From<AllocError> for BodyFault {
    ghost use Rattle.std.specs.Prelude.{◌≡◌};
    ghost use Rattle.sh_token.specs.declared.body_pieces.BodyFault.TheVariants.{NoMemory};

    ghost from_gives = { λ _ e. e ≡ NoMemory no_memory };

    fn from(error: AllocError) -> Self {
        BodyFault::NoMemory(NoMemory::from(error))
    }
}

/// The pieces of a body, joined lines left out: parameter, command and arithmetic expansions, and what a
/// backslash quotes: `$`, a backquote and a backslash (XCU 2.7.4). Quotes outside of the expansions are bytes
/// like any others, and so are NULs. `levels`: how many levels may be open, counted from the body on. A place
/// in a fault is the number of bytes of the body before it.
#[tactic(auto, unfolding(crate::specs::Found::pieces_of_body))]
pub fn body_pieces(alloc: Global, body: &[u8], levels: usize) -> Result<Sequence<Piece>, BodyFault>
    // The answer is the value of `pieces_of_body`, or memory ran out.
    ensures { GivesPieces result (body_answer (pieces_of_body levels body.now)) }
{
    match scan(alloc, Context::Body, body, true, levels)? {
        Outcome::Ended(state, _, _) => Ok(Sequence::from_vec(state.into_pieces())),
        Outcome::Deep(rest) => Err(BodyFault::TooDeep {
            at: body.len().saturating_sub(rest.len()),
        }),
        Outcome::Open(form) => Err(BodyFault::Open {
            at: body.len().saturating_sub(form.len()),
        }),
    }
}

/// Law: `pieces_of_body` gives an answer exactly where the body has this answer by the definition. So each
/// body has its pieces, or a form that it doesn't close, or a level too many.
pub fn body_is_the_defined_one()
    ensures { (levels : ℕ) (bytes : List ℕ) (answer : BodyPieces)
        → (pieces_of_body levels bytes ≡ answer) ↔ IsBody levels bytes answer }
{}
