//! A scanner for one token, which is fed byte by byte.
ghost use Rattle.sh_token_pieces.specs.Pieces.{top_of};
ghost use Rattle.std.specs.Prelude.{◌≡◌, IfOk, Option, Some, None, length};
ghost use Rattle.sh_token_scanner.specs.Machine.{step, same, word_out, operator_out};
ghost use Rattle.sh_token_scanner.specs.Run.{Places, Scanned, Ended, Deep, Open, byte_step, is_gap_state, begins_in, begins_form, word_ended, gap_ended, ended_in, word_end, last_token, last_places, last_step, with_next_prefix, with_prefix, last, after_character, after_wait, run, start, scanned_in};
ghost use Rattle.sh_token_scanner.specs.Steps.{with_state, event, outcome, places, ending};

use crate::state::State;
use crate::step::{Step, take};
use sh_token_pieces::character::Character;
use sh_token_pieces::context::Context;
use sh_token_pieces::contexts::Contexts;
use sh_token_pieces::pending::Pending;
use sh_token_pieces::piece::Piece;
use std::alloc::{AllocError, Global};

/// What a byte has done.
#[derive(Clone, Copy)]
pub(crate) enum Event {
    /// The byte waits for the next one if true; else it was the end of a joined line.
    Waits(bool),
    Takes(Step),
}

/// What the end of the input ends.
#[derive(Clone, Copy)]
pub(crate) enum Ending {
    /// A token.
    Ended,
    /// A word of a substitution that opens a level too many.
    TooDeep,
    /// Neither.
    Open,
}

/// What a scan of a text finds: a token or a body, or why there is none. A place in the text is given by the rest
/// of the text from there on.
#[derive(Drop)]
pub enum Outcome<'a> {
    /// A token or a body: the state at its end, the text from its first byte on, and the text after it. The end
    /// of the input, which has no bytes, is found too.
    Ended(State, &'a [u8], &'a [u8]),
    /// The text from the place where a level too many opens.
    Deep(&'a [u8]),
    /// No token or body, since the text ends first. The text from the place where a form of a body began last;
    /// of a token this place says nothing.
    Open(&'a [u8]),
}

/// Ends of the text that are kept. `prefix`: from the token's first byte on. `previous`: from the first byte
/// of the last character on. `behind`: after that character. `next`: from the first byte of the next
/// character on. `form`: from the last byte on with which a form of a body may begin. `word`: from the first
/// byte on of the word of a substitution that began last.
#[derive(Clone, Copy)]
pub(crate) struct Marked<'a> {
    prefix: &'a [u8],
    previous: &'a [u8],
    behind: &'a [u8],
    next: &'a [u8],
    form: &'a [u8],
    word: &'a [u8],
}

/// Takes one byte; `held`: a backslash came before it.
#[tactic(auto, unfolding(crate::specs::Run::byte_step))]
fn feed(state: &mut State, held: bool, b: u8) -> Result<Event, AllocError>
    ensures { IfOk result (λ w.
        byte_step (record { state = state.old; held = held }) b ≡ event w state.new) }
{
    if held {
        if b == b'\n' {
            return Ok(Event::Waits(false));
        }
        let step = take(state, Character::Quoted(b))?;
        return Ok(Event::Takes(step));
    }
    if state.pending().is_raw() {
        let step = take(state, Character::Raw(b))?;
        return Ok(Event::Takes(step));
    }
    if b == b'\\' {
        return Ok(Event::Waits(true));
    }
    let step = take(state, Character::Plain(b))?;
    Ok(Event::Takes(step))
}

/// Whether no token has begun.
fn is_in_gap(state: &State) -> bool
    ensures { result ≡ is_gap_state state.now }
{
    state.pending().is_gap() && state.contexts().is_text()
}

/// Whether a form of a body may have begun with the last character.
fn is_at_form(state: &State) -> bool
    ensures { result ≡ begins_form state.now }
{
    state.contexts().is_body() && state.begins()
}

/// What the end of the input ends, where it ended a word; `begins`: a compound command may begin with the
/// word.
fn end_of_word(begins: bool, state: &State) -> Ending
    ensures { word_end begins state.now ≡ ending result state.now }
{
    if state.contexts().is_text() {
        return Ending::Ended;
    }
    if begins && state.is_over_full() {
        return Ending::TooDeep;
    }
    Ending::Open
}

/// Ends a body or a word at the end of the input, if one is open.
fn end_word(state: &mut State) -> Result<Ending, AllocError>
    ensures { IfOk result (λ e. word_ended state.old ≡ ending e state.new) }
{
    if state.contexts().is_body() {
        return Ok(Ending::Ended);
    }
    if !state.contexts().is_word() {
        return Ok(Ending::Open);
    }
    let begins = state.word_begins_compound(false)?;
    state.close_word(false)?;
    Ok(end_of_word(begins, state))
}

/// What the end of the input ends, where no piece has begun.
fn end_gap(state: &mut State) -> Result<Ending, AllocError>
    ensures { IfOk result (λ e. gap_ended state.old ≡ ending e state.new) }
{
    if state.contexts().is_text() {
        return Ok(Ending::Ended);
    }
    let end = end_word(state)?;
    Ok(end)
}

/// What the end of the input ends.
fn end(state: &mut State) -> Result<Ending, AllocError>
    ensures { IfOk result (λ e. ended_in state.old.pending state.old ≡ ending e state.new) }
{
    match state.pending() {
        Pending::Nothing => {
            let end = end_gap(state)?;
            Ok(end)
        },
        Pending::Comment => {
            let bytes = state.take_bytes();
            state.same(Piece::Comment(bytes))?;
            let end = end_gap(state)?;
            Ok(end)
        },
        Pending::Dollar => {
            state.same(Piece::Dollar)?;
            let end = end_word(state)?;
            Ok(end)
        },
        Pending::Name => {
            state.close_name()?;
            let end = end_word(state)?;
            Ok(end)
        },
        Pending::Operator(operator) => {
            if !state.contexts().is_text() {
                return Ok(Ending::Open);
            }
            state.operator_out(operator)?;
            Ok(Ending::Ended)
        },
        Pending::DollarParenthesis => Ok(Ending::Open),
        Pending::Head(_) => Ok(Ending::Open),
        Pending::Single => Ok(Ending::Open),
        Pending::Backquotes => Ok(Ending::Open),
        Pending::BackquotesEscape => Ok(Ending::Open),
        Pending::Parenthesis => Ok(Ending::Open),
        Pending::Body { .. } => Ok(Ending::Open),
    }
}

/// The end of the input.
fn end_at<'a>(mut state: State, at: Marked<'a>) -> Result<Outcome<'a>, AllocError>
    ensures { IfOk result (λ r. last_places state (places at.entry) ≡ outcome r) }
{
    let ended = end(&mut state)?;
    Ok(end_outcome(ended, state, at))
}

fn end_outcome<'a>(end: Ending, state: State, at: Marked<'a>) -> Outcome<'a>
    ensures { last_token (ending end state) (places at.entry) ≡ outcome result }
{
    match end {
        Ending::Ended => Outcome::Ended(state, at.prefix, at.behind),
        Ending::TooDeep => Outcome::Deep(at.word),
        Ending::Open => Outcome::Open(at.form),
    }
}

/// The end of the input, directly after a character.
fn finish_at<'a>(state: State, at: Marked<'a>) -> Result<Outcome<'a>, AllocError>
    ensures { IfOk result (λ r. last_places state (with_prefix state (places at.entry)) ≡ outcome r) }
{
    let here = at.with_prefix(is_in_gap(&state));
    end_at(state, here)
}

/// The end of the input; `held`: a backslash waits, which then stands for itself.
fn finish<'a>(held: bool, mut state: State, at: Marked<'a>) -> Result<Outcome<'a>, AllocError>
    ensures { IfOk result (λ r. last held state (places at.entry) ≡ outcome r) }
{
    if !held {
        return end_at(state, at);
    }
    match take(&mut state, Character::Plain(b'\\'))? {
        Step::On => {
            let begins = is_at_form(&state);
            let word = state.begins_word();
            let outcome = finish_at(state, at.moved(begins, word, &[]))?;
            Ok(outcome)
        },
        Step::Before => Ok(Outcome::Ended(state, at.prefix, at.behind)),
        Step::After => Ok(Outcome::Ended(state, at.prefix, &[])),
        Step::TooDeep => Ok(Outcome::Deep(at.next)),
        Step::DollarTooDeep => Ok(Outcome::Deep(at.previous)),
        Step::WordTooDeep => Ok(Outcome::Deep(at.word)),
    }
}

impl<'a> Marked<'a> {
    /// Where no token has begun, the token begins with the next character.
    fn with_prefix(self, in_gap: bool) -> Self
        ensures { places result ≡ with_next_prefix in_gap (places self.entry) }
    {
        if in_gap {
            Marked {
                prefix: self.next,
                behind: self.next,
                ..self
            }
        } else {
            self
        }
    }

    /// After a byte that waits, or a joined line.
    fn waited(self, held: bool, after: &'a [u8]) -> Self
        ensures { places result ≡ after_wait held after.now (places self.entry) }
    {
        if held {
            self
        } else {
            Marked {
                next: after,
                ..self
            }
        }
    }

    /// After a character that was taken. `begins`: a form of a body may begin with it; `word`: a word of a
    /// substitution may.
    fn moved(self, begins: bool, word: bool, after: &'a [u8]) -> Self
        ensures { places result ≡ after_character begins word after.now (places self.entry) }
    {
        Marked {
            prefix: self.prefix,
            previous: self.next,
            behind: after,
            next: after,
            form: if begins { self.next } else { self.form },
            word: if word { self.next } else { self.word },
        }
    }
}

/// Scans a text byte by byte, up to the end of what begins in the context `ground`: the first token in
/// `Context::Top` (XCU 2.3), the body of a here-document in `Context::Body` (XCU 2.7.4). `at_end`: the end of the
/// text is the end of the input; else the token may go on after the text, and nothing ends there. At most `limit`
/// levels may be open: `${`, `$(`, `$((`, backquotes, and the compound commands inside a `$(`. Each byte is read
/// once. An `AllocError` says that an allocator refused memory; then nothing is left of the scan, and the text is
/// as it was.
pub fn scan<'a>(
    alloc: Global,
    ground: Context,
    text: &'a [u8],
    at_end: bool,
    limit: usize,
) -> Result<Outcome<'a>, AllocError>
    ensures { IfOk result (λ r. scanned_in ground at_end limit text.now ≡ outcome r) }
{
    let mut state = State::new(alloc, ground, limit)?;
    let mut held = false;
    let mut at = Marked {
        prefix: text,
        previous: text,
        behind: text,
        next: text,
        form: text,
        word: text,
    };
    let mut left = text;
    while let Some((b, after)) = left.split_first() {
        let here = at.with_prefix(is_in_gap(&state));
        match feed(&mut state, held, *b)? {
            Event::Waits(waits) => {
                held = waits;
                at = here.waited(waits, after);
                left = after;
                continue;
            },
            Event::Takes(Step::On) => {
                held = false;
                at = here.moved(is_at_form(&state), state.begins_word(), after);
                left = after;
                continue;
            },
            Event::Takes(Step::Before) => return Ok(Outcome::Ended(
                state,
                here.prefix,
                here.behind,
            )),
            Event::Takes(Step::After) => return Ok(Outcome::Ended(state, here.prefix, after)),
            Event::Takes(Step::TooDeep) => return Ok(Outcome::Deep(here.next)),
            Event::Takes(Step::DollarTooDeep) => return Ok(Outcome::Deep(here.previous)),
            Event::Takes(Step::WordTooDeep) => return Ok(Outcome::Deep(here.word)),
        }
    }
    if !at_end {
        return Ok(Outcome::Open(at.form));
    }
    let here = at.with_prefix(is_in_gap(&state));
    let outcome = finish(held, state, here)?;
    Ok(outcome)
}
