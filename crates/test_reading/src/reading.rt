//! What texts read as.
//!
//! `read WANTED TEXT`: what a text reads as where the input goes on: `complete`, with the lists of its tree behind a colon; `blank`,
//! `more`, `refused`, `unclosed`, `bad` for a bad substitution, or `deep`. A `^` in TEXT, which is left out, marks the place of the
//! fault, or up to where is read; without one this is the end. A place that isn't so marked is written behind the word.
//!
//! `last WANTED TEXT`: the same where the text's end is that of the input.
//!
//! `fronts SIGNS TEXT`, `last-fronts SIGNS TEXT`: what the prefixes of a text read as, from the empty one on, a sign each: `m` more is
//! needed; `b`, `c`, `u` it is blank, complete or unclosed as a whole; `l` it is refused at its last byte; `r`, `s`, `d` it is refused,
//! a bad substitution or too deep at the place that `^` marks. `?` is anything else.
//!
//! `used WANTED TEXT`, `last-used WANTED TEXT`: how many bytes of a text its reading takes, behind which the next one begins; `more`
//! where nothing is decided yet.
//!
//! The first four with a text of six fields (`fields::built`): the tree isn't shown, and like signs in a row are counted, as `u1000`.
use sh_base::NoMemory;
use sh_parse::{Aliases, ParseFault, Reading, read_command};
use sh_syntax::text::command_text;
use sh_syntax::tree::{CompoundList, ListItem, Separator};
use std::alloc::{AllocError, Global};
use test_rows::fields::{Found, built, marked};
use test_rows::show::{put_number, put_place, put_word};
use test_rows::{Row, by_kind};

/// What a text reads as, its tree left out. A place is a number of bytes.
#[derive(Clone, Copy)]
pub enum Outcome {
    Complete(usize),
    Blank(usize),
    More,
    Refused(usize),
    Unclosed(usize),
    BadSubstitution(usize),
    TooDeep(usize),
}

/// The outcome that a fault is.
fn outcome_of(fault: ParseFault) -> Result<Outcome, NoMemory> {
    match fault {
        ParseFault::Refused { at, .. } => Ok(Outcome::Refused(at)),
        ParseFault::Unclosed { at } => Ok(Outcome::Unclosed(at)),
        ParseFault::BadSubstitution { at, .. } => Ok(Outcome::BadSubstitution(at)),
        ParseFault::TooDeep { at, .. } => Ok(Outcome::TooDeep(at)),
        ParseFault::NoMemory(lack) => Err(lack),
    }
}

/// What a text reads as, and its tree.
pub(crate) fn read(
    alloc: Global,
    text: &[u8],
    at_end: bool,
) -> Result<(Outcome, Option<CompoundList>), NoMemory> {
    match read_command(alloc, text, at_end, &Aliases::new(alloc)) {
        Ok(Reading::Complete { tree, used }) => Ok((Outcome::Complete(used), Some(tree))),
        Ok(Reading::Blank { used }) => Ok((Outcome::Blank(used), None)),
        Ok(Reading::More) => Ok((Outcome::More, None)),
        Err(fault) => match outcome_of(fault) {
            Ok(outcome) => Ok((outcome, None)),
            Err(fault) => Err(fault),
        },
    }
}

/// What a text reads as.
fn read_outcome(alloc: Global, text: &[u8], at_end: bool) -> Result<Outcome, NoMemory> {
    let (outcome, tree) = read(alloc, text, at_end)?;
    drop(tree);
    Ok(outcome)
}

/// Writes a word, and a place that isn't the marked one.
fn put_at(shown: &mut Vec<u8>, word: &[u8], place: usize, mark: usize) -> Result<(), AllocError> {
    put_word(shown, word)?;
    if place == mark {
        return Ok(());
    }
    put_place(shown, place)
}

/// Writes an outcome.
fn put_outcome(shown: &mut Vec<u8>, outcome: Outcome, mark: usize) -> Result<(), AllocError> {
    match outcome {
        Outcome::Complete(used) => put_at(shown, b"complete", used, mark),
        Outcome::Blank(used) => put_at(shown, b"blank", used, mark),
        Outcome::More => put_word(shown, b"more"),
        Outcome::Refused(at) => put_at(shown, b"refused", at, mark),
        Outcome::Unclosed(at) => put_at(shown, b"unclosed", at, mark),
        Outcome::BadSubstitution(at) => put_at(shown, b"bad", at, mark),
        Outcome::TooDeep(at) => put_at(shown, b"deep", at, mark),
    }
}

/// Writes an AND-OR list with `;` or `&` behind it.
fn put_list(alloc: Global, shown: &mut Vec<u8>, item: &ListItem) -> Result<(), NoMemory> {
    let text = command_text(alloc, item.list.get())?;
    put_word(shown, text.as_slice())?;
    let sign = match item.separator {
        Separator::Sequential => b';',
        Separator::Asynchronous => b'&',
    };
    put_word(shown, &[sign])?;
    Ok(())
}

/// The AND-OR lists of a tree.
fn lists(alloc: Global, tree: &CompoundList) -> Result<Vec<u8>, NoMemory> {
    let mut shown = Vec::new(alloc);
    for item in tree.items.as_slice() {
        put_list(alloc, &mut shown, item)?;
    }
    Ok(shown)
}

/// The AND-OR lists of what a text reads as.
fn lists_of(alloc: Global, tree: Option<CompoundList>) -> Result<Vec<u8>, NoMemory> {
    let Some(tree) = tree else {
        return Ok(Vec::new(alloc));
    };
    let shown = lists(alloc, &tree);
    drop(tree);
    shown
}

/// `read` and `last` of a written text.
fn with_tree(alloc: Global, field: &[u8], at_end: bool) -> Result<Vec<u8>, NoMemory> {
    let (text, mark) = marked(alloc, field)?;
    let (outcome, tree) = read(alloc, &text, at_end)?;
    let lists = lists_of(alloc, tree)?;
    let mut shown = Vec::new(alloc);
    put_outcome(&mut shown, outcome, mark)?;
    if !lists.is_empty() {
        shown.push(b':')?;
        put_word(&mut shown, &lists)?;
    }
    Ok(shown)
}

/// `read` and `last` of a built text.
fn without_tree(alloc: Global, row: &Row, at_end: bool) -> Result<Vec<u8>, NoMemory> {
    let text = built(alloc, row)?;
    let outcome = read_outcome(alloc, &text, at_end)?;
    let mut shown = Vec::new(alloc);
    put_outcome(&mut shown, outcome, text.len())?;
    Ok(shown)
}

/// The sign where something is as it says.
fn sign_if(is_so: bool, sign: u8) -> u8 {
    if is_so { sign } else { b'?' }
}

/// The sign of a prefix of so many bytes.
fn sign_of(outcome: Outcome, size: usize, mark: usize) -> u8 {
    match outcome {
        Outcome::Complete(used) => sign_if(used == size, b'c'),
        Outcome::Blank(used) => sign_if(used == size, b'b'),
        Outcome::More => b'm',
        Outcome::Refused(at) if at == mark => b'r',
        Outcome::Refused(at) => sign_if(at.saturating_add(1) == size, b'l'),
        Outcome::Unclosed(at) => sign_if(at == size, b'u'),
        Outcome::BadSubstitution(at) => sign_if(at == mark, b's'),
        Outcome::TooDeep(at) => sign_if(at == mark, b'd'),
    }
}

/// The signs of the prefixes of a text in which a place may be marked.
fn signs(alloc: Global, field: &[u8], at_end: bool) -> Result<Vec<u8>, NoMemory> {
    let (text, mark) = marked(alloc, field)?;
    let mut signs = Vec::new(alloc);
    for size in 0..=text.len() {
        let prefix = text.as_slice().get(..size).unwrap_or(b"");
        let outcome = read_outcome(alloc, prefix, at_end)?;
        signs.push(sign_of(outcome, size, mark))?;
    }
    Ok(signs)
}

/// The signs of the prefixes of a built text, counted.
fn runs(alloc: Global, row: &Row, at_end: bool) -> Result<Vec<u8>, NoMemory> {
    let text = built(alloc, row)?;
    let signs = signs(alloc, &text, at_end)?;
    let mut shown = Vec::new(alloc);
    for run in signs.as_slice().chunk_by(|one, other| *one == *other) {
        put_word(&mut shown, run.get(..1).unwrap_or(b""))?;
        put_number(&mut shown, run.len())?;
    }
    Ok(shown)
}

/// How many bytes a reading takes; none where nothing is decided yet.
fn used_of(alloc: Global, text: &[u8], at_end: bool) -> Result<Option<usize>, NoMemory> {
    match read_command(alloc, text, at_end, &Aliases::new(alloc)) {
        Ok(Reading::Complete { tree, used }) => {
            drop(tree);
            Ok(Some(used))
        },
        Ok(Reading::Blank { used }) => Ok(Some(used)),
        Ok(Reading::More) => Ok(None),
        Err(ParseFault::Refused { used, .. }) => Ok(Some(used)),
        Err(ParseFault::Unclosed { at }) => Ok(Some(at)),
        Err(ParseFault::BadSubstitution { used, .. }) => Ok(Some(used)),
        Err(ParseFault::TooDeep { used, .. }) => Ok(Some(used)),
        Err(ParseFault::NoMemory(lack)) => Err(lack),
    }
}

/// `used` and `last-used`.
fn used(alloc: Global, text: &[u8], at_end: bool) -> Result<Vec<u8>, NoMemory> {
    let used = used_of(alloc, text, at_end)?;
    let mut shown = Vec::new(alloc);
    match used {
        Some(used) => put_number(&mut shown, used)?,
        None => put_word(&mut shown, b"more")?,
    }
    Ok(shown)
}

/// What a row comes to; none where its kind is none of these.
pub(crate) fn found(alloc: Global, row: &Row) -> Found {
    let text = row.field(2);
    by_kind! { row;
        "read", 2 => with_tree(alloc, text, false);
        "last", 2 => with_tree(alloc, text, true);
        "fronts", 2 => signs(alloc, text, false);
        "last-fronts", 2 => signs(alloc, text, true);
        "used", 2 => used(alloc, text, false);
        "last-used", 2 => used(alloc, text, true);
        "read", 7 => without_tree(alloc, row, false);
        "last", 7 => without_tree(alloc, row, true);
        "fronts", 7 => runs(alloc, row, false);
        "last-fronts", 7 => runs(alloc, row, true);
    }
}
