//! Reading the next command of a text (XCU 2.1, 2.3, 2.10): where it ends and its syntax tree, with the
//! bodies of its here-documents (XCU 2.7.4), or the place of a fault.
//!
//! The text is cut into tokens. Each token is judged as it comes: the grammar takes it, its levels are
//! counted, and its parts are put together with the commands of its substitutions. The reading is decided at
//! a newline or at the end of the input.
#![tactic(auto)]

ghost use Rattle.sh_base.specs.Memory.{no_memory};
ghost use Rattle.sh_parse.specs.Reading.{Answers, reading};

mod fault;
mod laws;
mod nul;
mod turn;

pub use laws::{
    items_are_inside, no_text_has_two_readings, reading_is_the_defined_one, readings_are_inside,
};
pub use sh_aliases::Aliases;
use sh_base::NoMemory;
use sh_parse_commands::prefix::Prefix;
use sh_parse_commands::text::CommandText;
use sh_parse_documents::waiting::Waiting;
use sh_syntax::tree;
use std::alloc::{AllocError, Global};
use thiserror::Error;
use turn::{Turn, next_turn};

/// What a text reads as.
#[derive(Drop)]
pub enum Reading {
    /// A complete command (XCU 2.10.2). `used` is how many bytes of the text it takes: up to and with the
    /// newline that ends it and the bodies after that newline, or the whole text where the input ends.
    Complete {
        tree: tree::CompoundList,
        used: usize,
    },
    /// No token up to a newline, or up to the end of the input. `used` is how many bytes that is, with the
    /// newline.
    Blank {
        used: usize,
    },
    /// The text decides nothing yet: more has to be read before the answer is known. It is never the answer
    /// at the end of the input.
    More,
}

/// Why a text is refused. A place is the number of bytes before it. Of two faults at one place `Refused` is
/// told rather than `TooDeep`, and `TooDeep` rather than `BadSubstitution`. `used` is how many bytes of the
/// text the reading takes: up to and with the newline at which the fault is told and the bodies after it, or
/// the whole text where the input ends. The next reading may begin after these bytes.
#[derive(Clone, Copy, Debug, PartialEq, Eq, Error)]
pub enum ParseFault {
    /// The token at `at` can't be there, whatever comes after it (XCU 2.10). Or the byte at `at` is a NUL,
    /// which no script may have, not even in a comment or a body. Or the text in the backquotes at `at` is no
    /// list of commands (XCU 2.6.3). Or the body of a here-document doesn't close the form at `at` (XCU
    /// 2.7.4).
    #[error("syntax error at byte {at}")]
    Refused { at: usize, used: usize },
    /// The input ends within a token or a command. `at` is the length of the text, all of which is read.
    #[error("end of input at byte {at}, within a command")]
    Unclosed { at: usize },
    /// The `${` at `at` has none of the forms of a parameter expansion (XCU 2.6.2).
    #[error("bad substitution at byte {at}")]
    BadSubstitution { at: usize, used: usize },
    /// The token or part at `at` opens level 501: compound commands, `${`, `$(`, `$((` and backquotes are
    /// levels. In a word or a body that has 501 levels by itself, `at` is the place of the part that opens
    /// one too many.
    #[error("nested too deep at byte {at}")]
    TooDeep { at: usize, used: usize },
    /// There was not enough memory.
    #[error("{0}")]
    NoMemory(NoMemory),
}

impl From<AllocError> for ParseFault {
    ghost use Rattle.std.specs.Prelude.{◌≡◌};
    ghost use Rattle.sh_parse.specs.declared.ParseFault.TheVariants.{NoMemory};

    ghost from_gives = { λ _ e. e ≡ NoMemory no_memory };

    fn from(error: AllocError) -> Self {
        ParseFault::NoMemory(NoMemory::from(error))
    }
}

/// Reads the first complete command of a text (XCU 2.3, 2.10), or says why there is none. `at_end`: the end
/// of the text is the end of the input, which cuts off the body of a here-document that isn't over. `aliases`
/// are those that are defined when the reading begins (XCU 2.3.1): the unquoted word of a command name that is one of them
/// is read as its value's tokens, but not within its own value; a word that is spelled like a reserved word isn't. Behind a
/// value that ends in a blank the next word is looked at too, in whatever place it is. A fault in a value is told at the
/// place of the word.
///
/// A decision place is a newline token with the bodies after it, or the end of the input. The reading is
/// decided at the first decision place before which there is no token, a complete command, a fault or a NUL.
/// The fault of the first token with a fault is told; of this fault and a NUL, the one at the lesser place. A
/// NUL is a byte of its token, comment or body like any other, so that `a`, a NUL, `b` and a newline are
/// `Refused { at: 1 }` at that newline. A word that isn't finished is no token. The only fault that is told
/// of such a word is a level too many, counted from the command on as all levels are.
///
/// After `Complete` or `Blank` the next reading begins `used` bytes further on. So it does after a fault, if
/// the caller goes on: `if )`, newline, `a`, newline is `Refused { at: 3, used: 5 }`, and `a` is read next.
/// After `Unclosed` nothing is left. After `More` the next reading begins at the same byte, in a longer text
/// or at the end of the input. After want of memory it is open what the text reads as. Time and memory are
/// linear in the text for each of the 500 levels that substitutions may have. Delimiters of here-documents
/// that hold substitutions with such delimiters cost as much once more for each such delimiter around
/// another.
#[tactic(auto, using(crate::proofs::Turning::fails))]
pub fn read_command(
    alloc: Global,
    text: &[u8],
    at_end: bool,
    aliases: &Aliases,
) -> Result<Reading, ParseFault>
    // The answer is the value of `reading`, or memory ran out.
    ensures { Answers result (reading aliases.now at_end text.now) }
{
    let prefix = Prefix::of_command(alloc)?;
    let command = CommandText::new(aliases, text);
    let mut judged = Ok(prefix);
    let mut waiting = Waiting::new(alloc);
    let mut at = 0;
    let mut nul = None;
    loop {
        let turn = match next_turn(alloc, &command, at_end, judged, waiting, at, nul) {
            Ok(turn) => turn,
            Err(fault) => return Err(fault),
        };
        match turn {
            Turn::On(next, left, place, first) => {
                judged = next;
                waiting = left;
                at = place;
                nul = first;
            },
            Turn::Read(reading) => return Ok(reading),
        }
    }
}
