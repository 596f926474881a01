//! Tokens (XCU 2.3).
ghost use Rattle.sh_base.specs.Memory.{no_memory};
ghost use Rattle.std.specs.Prelude.{◌≡◌, ◌↔◌, ℕ, Bool, List, IfOk, drop, length};
ghost use Rattle.sh_token.specs.Found.{first_token};
ghost use Rattle.sh_token.specs.FirstToken.{FirstToken, IsFirst, answer_at, Gives};
ghost use Rattle.sh_token.specs.Placed.{IsPlaced};

use crate::kind::kind;
use sh_base::NoMemory;
use sh_base::sequence::Sequence;
use sh_base::span::Span;
use sh_token_pieces::context::Context;
use sh_token_pieces::operator::Operator;
use sh_token_pieces::piece::Piece;
use sh_token_scanner::scanner::{Outcome, scan};
use std::alloc::{AllocError, Global};
use thiserror::Error;

/// What a token is.
#[derive(Debug, Drop)]
pub enum TokenKind {
    Operator(Operator),
    /// The number of a file descriptor: digits directly before `<` or `>`.
    Number,
    /// A word, by its pieces.
    Word(Sequence<Piece>),
    /// The end of the input.
    End,
}

/// A token and its place in the text: from its first byte to its last.
#[derive(Debug, Drop)]
pub struct Token {
    pub kind: TokenKind,
    pub span: Span,
}

/// Why there is no token.
#[derive(Clone, Copy, Debug, PartialEq, Eq, Error)]
pub enum TokenFault {
    /// The text ends within the token, or the token might go on after the text.
    #[error("unfinished token")]
    Unfinished,
    /// The piece at byte `at` of the text, or the compound command that begins there, opens a level too many.
    #[error("too deep at byte {at}")]
    TooDeep { at: usize },
    /// There was not enough memory.
    #[error("{0}")]
    NoMemory(NoMemory),
}

impl From<AllocError> for TokenFault {
    ghost use Rattle.std.specs.Prelude.{◌≡◌};
    ghost use Rattle.sh_token.specs.declared.token.TokenFault.TheVariants.{NoMemory};

    ghost from_gives = { λ _ e. e ≡ NoMemory no_memory };

    fn from(error: AllocError) -> Self {
        TokenFault::NoMemory(NoMemory::from(error))
    }
}

/// How many levels may be open in a token.
const LEVELS: usize = 500;

/// The first token of the text from the byte at `at` on (XCU 2.3), or the fault because of which there is
/// none. `at_end`: the end of the text is the end of the input. An `at` past the end of the text gives `End`,
/// or `Unfinished` where the input goes on. The bodies of here-documents inside a command substitution belong
/// to the word (XCU 2.7.4); a here-document that is still due where the substitution ends has an empty body.
/// The caller takes the bodies of here-documents of the text itself. In the token 500 levels may be open:
/// `${`, `$(`, `$((` and backquotes are levels. So are the compound commands inside a `$(`, each open from
/// its first token to its last. A NUL is a byte like any other: refusing it is up to the caller.
pub fn next_token(alloc: Global, text: &[u8], at: usize, at_end: bool) -> Result<Token, TokenFault>
    // The answer is the value of `first_token`, or memory ran out.
    ensures answers { Gives result (answer_at at (first_token at_end 500 (drop at text.now))) }
    ensures placed { IfOk result (λ token. IsPlaced at (length text.now) token) }
{
    next_token_within(alloc, text, at, at_end, LEVELS)
}

/// The same as `next_token`, where `levels` levels may be open in the token. A text never opens more levels
/// than it has bytes.
#[tactic(auto, unfolding(crate::specs::Found::first_token))]
pub fn next_token_within(
    alloc: Global,
    text: &[u8],
    at: usize,
    at_end: bool,
    levels: usize,
) -> Result<Token, TokenFault>
    ensures answers { Gives result (answer_at at (first_token at_end levels (drop at text.now))) }
    ensures placed { IfOk result (λ token. IsPlaced at (length text.now) token) }
{
    let bytes = bytes_from(text, at);
    match scan(alloc, Context::Top, bytes, at_end, levels)? {
        Outcome::Ended(state, prefix, rest) => {
            let start = bytes.len().saturating_sub(prefix.len());
            let end = bytes.len().saturating_sub(rest.len());
            let kind = kind(alloc, state.into_pieces())?;
            let span = Span {
                start: at + start,
                end: at + end,
            };
            Ok(Token { kind, span })
        },
        Outcome::Deep(rest) => {
            let end = bytes.len().saturating_sub(rest.len());
            Err(TokenFault::TooDeep { at: at + end })
        },
        Outcome::Open(_) => Err(TokenFault::Unfinished),
    }
}

/// The text from a place on. It is empty past the end of the text.
fn bytes_from(text: &[u8], at: usize) -> &[u8]
    ensures { result.now ≡ drop at text.now }
{
    if at <= text.len() { &text[at..] } else { &[] }
}

/// Law: `first_token` gives an answer exactly where the text has this answer by the definition of tokens. So
/// each text has one token, or the end of the input, or one of the faults.
pub fn first_token_is_the_defined_one()
    ensures { (e : Bool) (levels : ℕ) (bytes : List ℕ) (answer : FirstToken)
        → (first_token e levels bytes ≡ answer) ↔ IsFirst e levels bytes answer }
{}
