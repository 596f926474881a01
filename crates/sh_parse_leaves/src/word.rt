//! What the parts of a word need: places, and the texts of substitutions.
ghost use Rattle.std.specs.Prelude.{◌≡◌, IfOk, Ok, length};
ghost use Rattle.sh_parse_words.specs.Places.{place_of};
ghost use Rattle.sh_parse_leaves.specs.Results.{at_other_place};
ghost use Rattle.sh_parse_leaves.specs.Words.{text_of, place_in, refused_or_deep, level_fault, at_its_level, closes_braces, begins_closed};

use crate::source::{backquoted, text_between};
use sh_parse_words::build::{Request, Substitution};
use sh_parse_words::fault::PartFault;
use sh_syntax::tree::CompoundList;
use sh_token_pieces::piece::Piece;
use std::alloc::{AllocError, Global};

/// The place in a text of so many bytes from which these are left.
pub fn place_of(size: usize, bytes: &[u8]) -> usize
    ensures { result ≡ place_of size bytes.now }
{
    size.saturating_sub(bytes.len())
}

/// The text of a substitution.
#[tactic(auto, unfolding(crate::specs::Words::text_of))]
pub fn text_of(alloc: Global, request: &Request, text: &[u8]) -> Result<Vec<u8>, AllocError>
    ensures { IfOk result (λ inner. inner.items ≡ text_of request.now text.now) }
{
    let bytes = text_between(text, request.start, request.end);
    match request.form {
        Substitution::Commands => bytes.to_vec(alloc),
        Substitution::Backquotes => backquoted(alloc, false, bytes),
        Substitution::QuotedBackquotes => backquoted(alloc, true, bytes),
    }
}

/// The place in the text around a substitution of a fault at a place of the substitution's text.
#[tactic(auto, unfolding(crate::specs::Words::place_in))]
fn place_in(request: &Request, at: usize) -> usize
    ensures { result ≡ place_in request.now at }
{
    match request.form {
        Substitution::Commands => request.start.saturating_add(at),
        Substitution::Backquotes => request.place,
        Substitution::QuotedBackquotes => request.place,
    }
}

/// A fault in a substitution as a fault of the text around it.
pub fn fault_in(request: &Request, fault: PartFault) -> PartFault
    ensures { result ≡ at_other_place (λ at. place_in request.now at) fault }
{
    match fault {
        PartFault::BadSubstitution { at } => PartFault::BadSubstitution {
            at: place_in(request, at),
        },
        PartFault::TooDeep { at } => PartFault::TooDeep {
            at: place_in(request, at),
        },
        PartFault::Refused { at } => PartFault::Refused {
            at: place_in(request, at),
        },
        PartFault::NoMemory(lack) => PartFault::NoMemory(lack),
    }
}

/// The fault of backquotes at a place that open a level too many, where their text has this fault.
fn refused_or_deep(place: usize, fault: PartFault) -> PartFault
    ensures { result ≡ refused_or_deep place fault }
{
    match fault {
        PartFault::Refused { at } => PartFault::Refused { at },
        PartFault::TooDeep { .. } => PartFault::TooDeep { at: place },
        PartFault::BadSubstitution { .. } => PartFault::TooDeep { at: place },
        PartFault::NoMemory(lack) => PartFault::NoMemory(lack),
    }
}

/// The fault of a substitution whose text has this fault.
pub fn level_fault(request: &Request, fault: PartFault) -> PartFault
    ensures { result ≡ level_fault request.now fault }
{
    if request.is_too_deep {
        refused_or_deep(request.place, fault)
    } else {
        fault
    }
}

/// The commands of a substitution, if it doesn't open a level too many.
pub fn at_its_level(request: &Request, program: CompoundList) -> Result<CompoundList, PartFault>
    ensures { result ≡ at_its_level request.now (Ok program) }
{
    if request.is_too_deep {
        drop(program);
        return Err(PartFault::TooDeep { at: request.place });
    }
    Ok(program)
}

fn closes_braces(piece: &Piece) -> bool
    ensures { result ≡ closes_braces piece.now }
{
    match piece {
        Piece::BraceClose => true,
        _ => false,
    }
}

/// Whether a `}` comes first.
pub fn begins_closed(pieces: &[Piece]) -> bool
    ensures { result ≡ begins_closed pieces.now }
{
    match pieces.split_first() {
        Some((piece, _)) => closes_braces(piece),
        None => false,
    }
}
