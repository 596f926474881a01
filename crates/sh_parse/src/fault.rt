//! Faults of tokens as faults of a text.
ghost use Rattle.std.specs.Prelude.{◌≡◌};
ghost use Rattle.sh_parse.specs.Turns.{fault_with_nul};
ghost use Rattle.sh_parse.specs.Reading.{fault_of, stands_before};

use crate::ParseFault;
use sh_parse_words::fault::PartFault;

/// A fault of the tokens before a decision place as a fault of the text; `used`: how many bytes there are up
/// to and with that place.
pub(crate) fn fault_of(used: usize, fault: PartFault) -> ParseFault
    ensures { result ≡ fault_of used fault }
{
    match fault {
        PartFault::BadSubstitution { at } => ParseFault::BadSubstitution { at, used },
        PartFault::TooDeep { at } => ParseFault::TooDeep { at, used },
        PartFault::Refused { at } => ParseFault::Refused { at, used },
        PartFault::NoMemory(lack) => ParseFault::NoMemory(lack),
    }
}

/// Whether a fault is told rather than a NUL at this place.
fn stands_before(fault: ParseFault, nul: usize) -> bool
    ensures { result ≡ stands_before fault nul }
{
    match fault {
        ParseFault::Refused { at, .. } => at < nul,
        ParseFault::Unclosed { at } => at < nul,
        ParseFault::BadSubstitution { at, .. } => at < nul,
        ParseFault::TooDeep { at, .. } => at < nul,
        ParseFault::NoMemory(_) => true,
    }
}

/// The fault that is told where a NUL is at `nul` and the tokens alone have `fault`: the one at the lesser
/// place.
pub(crate) fn fault_with_nul(fault: Option<ParseFault>, nul: usize, used: usize) -> ParseFault
    ensures { result ≡ fault_with_nul fault nul used }
{
    match fault {
        Some(fault) => {
            if stands_before(fault, nul) {
                fault
            } else {
                ParseFault::Refused { at: nul, used }
            }
        },
        None => ParseFault::Refused { at: nul, used },
    }
}
