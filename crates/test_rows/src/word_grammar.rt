//! A grammar of words and parentheses, where only a guard says that words in a row belong together. CLASSES are those of tokens: `0` a
//! word, `1` and `2` parentheses; `3`, the end, and what is above are none of a token.
//!
//! `words WANTED CLASSES`: how many tokens are taken, up to the first that isn't, and whether a text may end there, `yes` or `no`; `unlike`
//! where the recognizer takes one that it says it wouldn't, or the other way round.
//!
//! `derivation WANTED CLASSES`: the actions of the derivation of tokens that are numbered from 7 on: the number of a production, or a `t`
//! with the token's class and number; `none` where there is no derivation.
//!
//! `awaits WANTED CLASSES NONTERMINAL`: a `t` for each token that is taken and an `r` for one that is refused, and then how many of a
//! nonterminal are still to come.
ghost use Rattle.sh_grammar.specs.Passes.{IsPredictive};
ghost use Rattle.sh_grammar.specs.Tabulation.{tabulation_of};

use crate::by_kind;
use crate::fields::{Found, number, pieces};
use crate::row::Row;
use crate::show::{put_number, put_place, put_word, word_of};
use sh_base::NoMemory;
use sh_grammar::Symbol::{Nonterminal, Terminal};
use sh_grammar::{Action, Recognizer, Symbol, Tables, Token};
use std::alloc::{AllocError, Global};

const HEADS: [u8; 6] = [0, 0, 1, 1, 2, 2];

const BODIES: [&[Symbol]; 6] = [
    // Items ->
    &[],
    // Items -> Item Items
    &[Nonterminal(1), Nonterminal(0)],
    // Item -> word Words
    &[Terminal(0), Nonterminal(2)],
    // Item -> ( Items )
    &[Terminal(1), Nonterminal(0), Terminal(2)],
    // Words ->, where no word comes next
    &[],
    // Words -> word Words
    &[Terminal(0), Nonterminal(2)],
];

const GUARDS: [u64; 6] = [0b1111, 0b1111, 0b1111, 0b1111, 0b1110, 0b1111];

const TERMINALS: [u64; 3] = [0b0001, 0b0010, 0b0100];

const FIRSTS: [u64; 3] = [0b0011, 0b0011, 0b0001];

const NULLABLES: [u64; 3] = [0b1111, 0b0000, 0b1110];

const PREDICTS: [u8; 12] = [1, 1, 0, 0, 2, 3, 0, 0, 5, 4, 4, 4];

/// The grammar.
fn tables() -> Tables<'static>
    ensures { IsPredictive (tabulation_of result) }
{
    Tables {
        heads: &HEADS,
        bodies: &BODIES,
        guards: &GUARDS,
        terminals: &TERMINALS,
        ending: 3,
        start: 0,
        firsts: &FIRSTS,
        nullables: &NULLABLES,
        predicts: &PREDICTS,
    }
}

/// The number of a class or a nonterminal.
fn small(digits: &[u8]) -> u8 {
    u8::try_from(number(digits)).unwrap_or(u8::MAX)
}

/// The tokens of classes, numbered from 7 on.
fn tokens(alloc: Global, classes: &[u8]) -> Result<Vec<Token>, AllocError> {
    let mut tokens = Vec::new(alloc);
    let mut id = 7usize;
    for class in pieces(alloc, classes)?.as_slice() {
        let class = small(class);
        tokens.push(Token { class, id })?;
        id = id.saturating_add(1);
    }
    Ok(tokens)
}

/// How many tokens are taken, up to the first that isn't; none where the recognizer doesn't do as it says.
fn take_all(
    recognizer: &mut Recognizer<'_>,
    tokens: &[Token],
) -> Result<Option<usize>, AllocError> {
    for (place, token) in tokens.iter().enumerate() {
        let is_accepted = recognizer.accepts(token.class);
        let is_taken = recognizer.take(*token)?;
        if is_accepted != is_taken {
            return Ok(None);
        }
        if !is_taken {
            return Ok(Some(place));
        }
    }
    Ok(Some(tokens.len()))
}

/// `words`.
fn words_of(alloc: Global, classes: &[u8]) -> Result<Vec<u8>, NoMemory> {
    let mut recognizer = Recognizer::new(alloc, tables())?;
    let tokens = tokens(alloc, classes)?;
    let taken = take_all(&mut recognizer, &tokens)?;
    let mut shown = Vec::new(alloc);
    match taken {
        Some(taken) => put_number(&mut shown, taken)?,
        None => put_word(&mut shown, b"unlike")?,
    }
    if recognizer.may_end() {
        put_word(&mut shown, b"yes")?;
    } else {
        put_word(&mut shown, b"no")?;
    }
    Ok(shown)
}

/// Writes an action.
fn put_action(shown: &mut Vec<u8>, action: Action) -> Result<(), AllocError> {
    match action {
        Action::Expand(production) => put_place(shown, usize::from(production)),
        Action::Shift(token) => {
            put_word(shown, b"t")?;
            put_number(shown, usize::from(token.class))?;
            shown.push(b'.')?;
            put_number(shown, token.id)
        },
    }
}

/// `derivation`.
fn derivation_of(alloc: Global, classes: &[u8]) -> Result<Vec<u8>, NoMemory> {
    let mut recognizer = Recognizer::new(alloc, tables())?;
    let tokens = tokens(alloc, classes)?;
    let taken = take_all(&mut recognizer, &tokens)?;
    if taken != Some(tokens.len()) {
        return word_of(alloc, b"refused");
    }
    let Some(actions) = recognizer.finish()? else {
        return word_of(alloc, b"none");
    };
    let mut shown = Vec::new(alloc);
    for action in actions.as_slice() {
        put_action(&mut shown, *action)?;
    }
    Ok(shown)
}

/// Writes which tokens are taken.
fn put_taken(
    shown: &mut Vec<u8>,
    recognizer: &mut Recognizer<'_>,
    tokens: &[Token],
) -> Result<(), AllocError> {
    for token in tokens {
        let is_taken = recognizer.take(*token)?;
        shown.push(if is_taken { b't' } else { b'r' })?;
    }
    Ok(())
}

/// `awaits`.
fn awaits_of(alloc: Global, classes: &[u8], nonterminal: &[u8]) -> Result<Vec<u8>, NoMemory> {
    let mut recognizer = Recognizer::new(alloc, tables())?;
    let tokens = tokens(alloc, classes)?;
    let mut shown = Vec::new(alloc);
    put_taken(&mut shown, &mut recognizer, &tokens)?;
    put_place(&mut shown, recognizer.awaits(small(nonterminal)))?;
    Ok(shown)
}

/// What a row comes to; none where its kind is none of these.
pub fn found(alloc: Global, row: &Row) -> Found {
    let classes = row.field(2);
    by_kind! { row;
        "words", 2 => words_of(alloc, classes);
        "derivation", 2 => derivation_of(alloc, classes);
        "awaits", 3 => awaits_of(alloc, classes, row.field(3));
    }
}
