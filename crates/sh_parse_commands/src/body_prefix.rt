//! What the bodies of here-documents need.
ghost use Rattle.std.specs.Prelude.{◌≡◌, [], IfOk};
ghost use Rattle.sh_parse_words.specs.Building.{with_literal, parts_of};
ghost use Rattle.sh_parse_documents.specs.Documents.{place_at};
ghost use Rattle.sh_parse_leaves.specs.Results.{at_other_place};
ghost use Rattle.sh_token.specs.Body.{body_answer};
ghost use Rattle.sh_token.specs.Found.{pieces_of_body};
ghost use Rattle.sh_parse_commands.specs.Documents.{closed_pieces, prefix_of, pieces_or_none, unless};

use sh_base::sequence::{Sequence, Text};
use sh_parse_documents::document::Document;
use sh_parse_leaves::source::text_between;
use sh_parse_words::fault::PartFault;
use sh_syntax::tree::{Part, Parts};
use sh_token::body_pieces::{BodyFault, body_pieces};
use sh_token_pieces::piece::Piece;
use std::alloc::{AllocError, Global};

/// The pieces of a body up to a form that it doesn't close, or up to a level too many, with the fault there.
#[derive(Drop)]
pub(crate) struct BodyPrefix {
    pub(crate) pieces: Sequence<Piece>,
    pub(crate) fault: Option<PartFault>,
}

/// The pieces of bytes; none where the bytes don't close a form.
fn pieces_or_none(alloc: Global, bytes: &[u8], levels: usize) -> Result<Sequence<Piece>, AllocError>
    ensures { IfOk result (λ pieces.
        pieces ≡ pieces_or_none (body_answer (pieces_of_body levels bytes.now))) }
{
    match body_pieces(alloc, bytes, levels) {
        Ok(pieces) => Ok(pieces),
        Err(BodyFault::NoMemory(lack)) => Err(AllocError::from(lack)),
        Err(_) => Ok(Sequence::new(alloc)),
    }
}

/// The pieces of bytes before the first form that they don't close.
#[tactic(auto, unfolding(crate::specs::Documents::closed_pieces))]
fn closed_pieces(alloc: Global, bytes: &[u8]) -> Result<Sequence<Piece>, AllocError>
    ensures { IfOk result (λ pieces. pieces ≡ closed_pieces bytes.now) }
{
    match body_pieces(alloc, bytes, bytes.len()) {
        Ok(pieces) => Ok(pieces),
        Err(BodyFault::Open { at }) => pieces_or_none(
            alloc,
            text_between(bytes, 0, at),
            bytes.len(),
        ),
        Err(BodyFault::TooDeep { .. }) => Ok(Sequence::new(alloc)),
        Err(BodyFault::NoMemory(lack)) => Err(AllocError::from(lack)),
    }
}

/// The prefix of a body that is judged: the whole body, where it closes each form that it opens.
#[tactic(auto, unfolding(crate::specs::Documents::prefix_of))]
pub(crate) fn prefix_of(alloc: Global, body: &[u8]) -> Result<BodyPrefix, AllocError>
    ensures { IfOk result (λ prefix. prefix ≡ prefix_of body.now) }
{
    match body_pieces(alloc, body, body.len()) {
        Ok(pieces) => Ok(BodyPrefix {
            pieces,
            fault: None,
        }),
        Err(BodyFault::Open { at }) => {
            let pieces = closed_pieces(alloc, text_between(body, 0, at))?;
            let fault = Some(PartFault::Refused { at });
            Ok(BodyPrefix { pieces, fault })
        },
        Err(BodyFault::TooDeep { at }) => {
            let pieces = closed_pieces(alloc, text_between(body, 0, at))?;
            let fault = Some(PartFault::TooDeep { at });
            Ok(BodyPrefix { pieces, fault })
        },
        Err(BodyFault::NoMemory(lack)) => Err(AllocError::from(lack)),
    }
}

/// The parts, unless there is a fault after them.
pub(crate) fn unless(fault: Option<PartFault>, parts: Parts) -> Result<Parts, PartFault>
    ensures { result ≡ unless fault parts }
{
    match fault {
        Some(fault) => Err(fault),
        None => Ok(parts),
    }
}

/// A fault in a body as a fault of the text around it.
pub(crate) fn fault_at(document: &Document, fault: PartFault) -> PartFault
    ensures { result ≡ at_other_place (λ at. place_at document.now at) fault }
{
    match fault {
        PartFault::BadSubstitution { at } => PartFault::BadSubstitution {
            at: document.place(at),
        },
        PartFault::TooDeep { at } => PartFault::TooDeep {
            at: document.place(at),
        },
        PartFault::Refused { at } => PartFault::Refused {
            at: document.place(at),
        },
        PartFault::NoMemory(lack) => PartFault::NoMemory(lack),
    }
}

/// The parts of a body that isn't expanded.
pub(crate) fn literal_parts(alloc: Global, text: &Text) -> Result<Parts, AllocError>
    ensures { IfOk result (λ parts. parts ≡ parts_of (with_literal [] text.now)) }
{
    let mut items = Vec::new(alloc);
    if !text.is_empty() {
        let bytes = text.as_slice().to_vec(alloc)?;
        items.push(Part::Literal(Sequence::from_vec(bytes)))?;
    }
    Ok(Parts {
        items: Sequence::from_vec(items),
    })
}
