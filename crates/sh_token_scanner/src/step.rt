//! What a character does to a scanner.
ghost use Rattle.sh_token_pieces.specs.Pieces.{top_of};
ghost use Rattle.sh_token_pieces.specs.Growth.{operator_of, may_grow};
ghost use Rattle.std.specs.Prelude.{◌≡◌, IfOk, Option, Some, None};
ghost use Rattle.sh_token_pieces.specs.Growth.{longer_operator};
ghost use Rattle.sh_token_pieces.specs.Heads.{grown_head};
ghost use Rattle.sh_token_scanner.specs.Machine.{inner_byte, word_byte, grow, between, after_word, end_word, plain_byte, escape, quoted_byte, act, form_byte, after_dollar, after_parenthesis, in_name, head_byte, in_head, in_single, in_backquotes, in_escape, at_parenthesis, then_act, grow_to, in_operator, in_comment, step_in, step, opens, at_dollar, over};
ghost use Rattle.sh_token_scanner.specs.Steps.{with_state};

use crate::body::take_in_body;
use crate::state::State;
use sh_base::name::{begins_name, continues_name};
use sh_token_pieces::byte;
use sh_token_pieces::character::Character;
use sh_token_pieces::context::Context;
use sh_token_pieces::head::Head;
use sh_token_pieces::operator::Operator;
use sh_token_pieces::pending::Pending;
use sh_token_pieces::piece::Piece;
use std::alloc::AllocError;

/// What a character has done.
#[derive(Clone, Copy)]
pub(crate) enum Step {
    On,
    /// A token of the text itself ended before the character.
    Before,
    /// A token of the text itself ends with the character.
    After,
    /// A level too many would open with the character.
    TooDeep,
    /// A level too many would open with the `$` before it.
    DollarTooDeep,
    /// The word of a substitution that ended before the character has opened a level too many.
    WordTooDeep,
}

/// Takes a byte of a word or of a part of one that doesn't end the word.
#[tactic(auto, unfolding(crate::specs::Machine::word_byte))]
fn take_word_byte(state: &mut State, b: u8) -> Result<Step, AllocError>
    ensures { IfOk result (λ w.
        word_byte (top_of state.old.contexts) state.old b ≡ with_state w state.new) }
{
    if b == b'\'' && state.contexts().has_single_quotes() {
        state.pend(Pending::Single);
        return Ok(Step::On);
    }
    if b == b'"' && state.contexts().has_double_quotes() {
        state.into(Context::Quotes, Piece::DoubleQuotesOpen)?;
        return Ok(Step::On);
    }
    if b == b'"' && state.contexts().is_quotes() {
        state.out(Piece::DoubleQuotesClose)?;
        return Ok(Step::On);
    }
    if b == b'}' && state.contexts().is_braces() {
        state.out_level(Piece::BraceClose)?;
        return Ok(Step::On);
    }
    if b == b'$' {
        state.pend(Pending::Dollar);
        return Ok(Step::On);
    }
    if b == b'`' {
        return Ok(state.open(Pending::Backquotes));
    }
    let step = take_inner_byte(state, b)?;
    Ok(step)
}

/// Takes a byte of a word that is no quote, brace, dollar or backquote there.
#[tactic(auto, unfolding(crate::specs::Machine::inner_byte))]
fn take_inner_byte(state: &mut State, b: u8) -> Result<Step, AllocError>
    ensures { IfOk result (λ w.
        inner_byte (top_of state.old.contexts) state.old b ≡ with_state w state.new) }
{
    if b == b')' && state.contexts().is_arithmetic() {
        state.pend(Pending::Parenthesis);
        return Ok(Step::On);
    }
    if b == b')' && state.contexts().is_parenthesis() {
        state.out(Piece::Byte(b))?;
        return Ok(Step::On);
    }
    if b == b'(' && (state.contexts().is_arithmetic() || state.contexts().is_parenthesis()) {
        state.into(Context::Parenthesis, Piece::Byte(b))?;
        return Ok(Step::On);
    }
    state.same(Piece::Byte(b))?;
    Ok(Step::On)
}

/// Takes the operator read so far: it waits for a byte more, or it is over.
fn take_operator(state: &mut State, operator: Operator) -> Result<Step, AllocError>
    ensures { IfOk result (λ w. grow operator state.old ≡ with_state w state.new) }
{
    if operator.may_grow() {
        state.pend(Pending::Operator(operator));
        return Ok(Step::On);
    }
    state.operator_out(operator)?;
    if state.contexts().is_text() {
        return Ok(Step::After);
    }
    if operator.class().begins_compound() && state.is_over_full() {
        return Ok(Step::TooDeep);
    }
    Ok(Step::On)
}

/// Takes a byte between tokens.
#[tactic(auto, unfolding(crate::specs::Machine::between))]
fn take_between(state: &mut State, b: u8) -> Result<Step, AllocError>
    ensures { IfOk result (λ w. between state.old b ≡ with_state w state.new) }
{
    if byte::blank(b) {
        state.same(Piece::Blank(b))?;
        return Ok(Step::On);
    }
    if b == b'#' {
        state.pend(Pending::Comment);
        return Ok(Step::On);
    }
    if b == b')' && state.contexts().may_close() {
        state.out_level(Piece::CommandsClose)?;
        return Ok(Step::On);
    }
    if b == b'\n' && !state.contexts().due().is_empty() {
        state.pend(Pending::Body {
            line: 0,
            bodies: 0,
            joined: false,
        });
        return Ok(Step::On);
    }
    if byte::begins_operator(b) {
        let step = take_operator(state, Operator::of_byte(b))?;
        return Ok(step);
    }
    state.open_word()?;
    let step = take_word_byte(state, b)?;
    Ok(step)
}

/// Takes a byte after a word; `begins`: a compound command may begin with the word.
fn take_after_word(begins: bool, state: &mut State, b: u8) -> Result<Step, AllocError>
    ensures { IfOk result (λ w. after_word begins state.old b ≡ with_state w state.new) }
{
    if state.contexts().is_text() {
        return Ok(Step::Before);
    }
    if begins && state.is_over_full() {
        return Ok(Step::WordTooDeep);
    }
    let step = take_between(state, b)?;
    Ok(step)
}

/// Takes a byte that ends a word; `redirection`: the byte is `<` or `>`.
fn take_word_end(redirection: bool, state: &mut State, b: u8) -> Result<Step, AllocError>
    ensures { IfOk result (λ w. end_word redirection state.old b ≡ with_state w state.new) }
{
    let begins = state.word_begins_compound(redirection)?;
    state.close_word(redirection)?;
    let step = take_after_word(begins, state, b)?;
    Ok(step)
}

/// Takes a byte where no piece has begun.
#[tactic(auto, unfolding(crate::specs::Machine::plain_byte))]
fn take_plain_byte(state: &mut State, b: u8) -> Result<Step, AllocError>
    ensures { IfOk result (λ w. plain_byte state.old b ≡ with_state w state.new) }
{
    if state.contexts().is_between_tokens() {
        let step = take_between(state, b)?;
        return Ok(step);
    }
    if state.contexts().is_word() && byte::ends_word(b) {
        let step = take_word_end(byte::begins_redirection(b), state, b)?;
        return Ok(step);
    }
    let step = take_word_byte(state, b)?;
    Ok(step)
}

/// Takes a byte after a backslash, in a word or a part of one.
fn take_escape(state: &mut State, b: u8) -> Result<Step, AllocError>
    ensures { IfOk result (λ w.
        escape (top_of state.old.contexts) state.old b ≡ with_state w state.new) }
{
    if state.contexts().quotes(b) {
        state.same(Piece::Escaped(b))?;
    } else {
        state.same(Piece::Backslash(b))?;
    }
    Ok(Step::On)
}

/// Takes a byte after a backslash, where no piece has begun.
#[tactic(auto, unfolding(crate::specs::Machine::quoted_byte))]
fn take_quoted_byte(state: &mut State, b: u8) -> Result<Step, AllocError>
    ensures { IfOk result (λ w. quoted_byte state.old b ≡ with_state w state.new) }
{
    if state.contexts().is_between_tokens() {
        state.open_word()?;
    }
    let step = take_escape(state, b)?;
    Ok(step)
}

/// Takes a character where no piece has begun.
fn act(state: &mut State, c: Character) -> Result<Step, AllocError>
    ensures { IfOk result (λ w. act state.old c ≡ with_state w state.new) }
{
    match c {
        Character::Plain(b) => {
            let step = take_plain_byte(state, b)?;
            Ok(step)
        },
        Character::Quoted(b) => {
            let step = take_quoted_byte(state, b)?;
            Ok(step)
        },
        Character::Raw(_) => Ok(Step::On),
    }
}

/// Begins a piece that opens a level with the `$` before it.
fn open_form(state: &mut State, pending: Pending) -> Step
    ensures { at_dollar (opens pending state.old) ≡ with_state result state.new }
{
    match state.open(pending) {
        Step::On => Step::On,
        Step::Before => Step::Before,
        Step::After => Step::After,
        Step::TooDeep => Step::DollarTooDeep,
        Step::DollarTooDeep => Step::DollarTooDeep,
        Step::WordTooDeep => Step::WordTooDeep,
    }
}

/// Takes a byte after a `$`.
fn take_form_byte(state: &mut State, b: u8) -> Result<Step, AllocError>
    ensures { IfOk result (λ w. form_byte state.old b ≡ with_state w state.new) }
{
    if begins_name(b) {
        state.pend(Pending::Name);
        state.keep(Pending::Name, b)?;
        return Ok(Step::On);
    }
    if byte::is_short_parameter(b) {
        state.same(Piece::Parameter(b))?;
        return Ok(Step::On);
    }
    if b == b'{' {
        return Ok(open_form(state, Pending::Head(Head::Start)));
    }
    if b == b'(' {
        return Ok(open_form(state, Pending::DollarParenthesis));
    }
    state.same(Piece::Dollar)?;
    let step = take_plain_byte(state, b)?;
    Ok(step)
}

/// Takes a character after a `$`.
#[tactic(auto, unfolding(crate::specs::Machine::after_dollar))]
fn take_after_dollar(state: &mut State, c: Character) -> Result<Step, AllocError>
    ensures { IfOk result (λ w. after_dollar state.old c ≡ with_state w state.new) }
{
    match c {
        Character::Plain(b) => {
            let step = take_form_byte(state, b)?;
            Ok(step)
        },
        Character::Quoted(b) => {
            state.same(Piece::Dollar)?;
            let step = take_quoted_byte(state, b)?;
            Ok(step)
        },
        Character::Raw(_) => Ok(Step::On),
    }
}

/// Takes a character after `$(`.
#[tactic(auto, unfolding(crate::specs::Machine::after_parenthesis))]
fn take_after_parenthesis(state: &mut State, c: Character) -> Result<Step, AllocError>
    ensures { IfOk result (λ w. after_parenthesis state.old c ≡ with_state w state.new) }
{
    match c {
        Character::Plain(b) => {
            if b == b'(' {
                state.into(Context::Arithmetic, Piece::ArithmeticOpen)?;
                return Ok(Step::On);
            }
            state.open_commands()?;
            let step = take_plain_byte(state, b)?;
            Ok(step)
        },
        Character::Quoted(b) => {
            state.open_commands()?;
            let step = take_quoted_byte(state, b)?;
            Ok(step)
        },
        Character::Raw(_) => Ok(Step::On),
    }
}

/// Takes a character in the name after a `$`, or after this name.
#[tactic(auto, unfolding(crate::specs::Machine::in_name))]
fn take_in_name(state: &mut State, c: Character) -> Result<Step, AllocError>
    ensures { IfOk result (λ w. in_name state.old c ≡ with_state w state.new) }
{
    match c {
        Character::Plain(b) => {
            if continues_name(b) {
                state.keep(Pending::Name, b)?;
                return Ok(Step::On);
            }
            state.close_name()?;
            let step = take_plain_byte(state, b)?;
            Ok(step)
        },
        Character::Quoted(b) => {
            state.close_name()?;
            let step = take_quoted_byte(state, b)?;
            Ok(step)
        },
        Character::Raw(_) => Ok(Step::On),
    }
}

/// Takes a byte after `${`.
fn take_head_byte(head: Head, state: &mut State, b: u8) -> Result<Step, AllocError>
    ensures { IfOk result (λ w.
        head_byte head state.old b (grown_head head b) ≡ with_state w state.new) }
{
    if let Some(longer) = head.grown(b) {
        state.keep(Pending::Head(longer), b)?;
        return Ok(Step::On);
    }
    state.close_head(head)?;
    let step = take_plain_byte(state, b)?;
    Ok(step)
}

/// Takes a character after `${`.
#[tactic(auto, unfolding(crate::specs::Machine::in_head))]
fn take_in_head(head: Head, state: &mut State, c: Character) -> Result<Step, AllocError>
    ensures { IfOk result (λ w. in_head head state.old c ≡ with_state w state.new) }
{
    match c {
        Character::Plain(b) => {
            let step = take_head_byte(head, state, b)?;
            Ok(step)
        },
        Character::Quoted(b) => {
            state.close_head(head)?;
            let step = take_quoted_byte(state, b)?;
            Ok(step)
        },
        Character::Raw(_) => Ok(Step::On),
    }
}

/// Takes a character between single quotes.
#[tactic(auto, unfolding(crate::specs::Machine::in_single))]
fn take_in_single(state: &mut State, c: Character) -> Result<Step, AllocError>
    ensures { IfOk result (λ w. in_single state.old c ≡ with_state w state.new) }
{
    match c {
        Character::Raw(b) => {
            if b == b'\'' {
                let bytes = state.take_bytes();
                state.same(Piece::SingleQuoted(bytes))?;
                return Ok(Step::On);
            }
            state.keep(Pending::Single, b)?;
            Ok(Step::On)
        },
        Character::Plain(_) => Ok(Step::On),
        Character::Quoted(_) => Ok(Step::On),
    }
}

/// Takes a character between backquotes.
#[tactic(auto, unfolding(crate::specs::Machine::in_backquotes))]
fn take_in_backquotes(state: &mut State, c: Character) -> Result<Step, AllocError>
    ensures { IfOk result (λ w. in_backquotes state.old c ≡ with_state w state.new) }
{
    match c {
        Character::Raw(b) => {
            if b == b'`' {
                let bytes = state.take_bytes();
                state.level_over(Piece::Backquoted(bytes))?;
                return Ok(Step::On);
            }
            if b == b'\\' {
                state.keep(Pending::BackquotesEscape, b)?;
                return Ok(Step::On);
            }
            state.keep(Pending::Backquotes, b)?;
            Ok(Step::On)
        },
        Character::Plain(_) => Ok(Step::On),
        Character::Quoted(_) => Ok(Step::On),
    }
}

/// Takes a character between backquotes, after a backslash.
fn take_in_escape(state: &mut State, c: Character) -> Result<Step, AllocError>
    ensures { IfOk result (λ w. in_escape state.old c ≡ with_state w state.new) }
{
    match c {
        Character::Raw(b) => {
            state.keep(Pending::Backquotes, b)?;
            Ok(Step::On)
        },
        Character::Plain(_) => Ok(Step::On),
        Character::Quoted(_) => Ok(Step::On),
    }
}

/// Takes a character after a `)` that may end arithmetic.
#[tactic(auto, unfolding(crate::specs::Machine::at_parenthesis))]
fn take_at_parenthesis(state: &mut State, c: Character) -> Result<Step, AllocError>
    ensures { IfOk result (λ w. at_parenthesis state.old c ≡ with_state w state.new) }
{
    match c {
        Character::Plain(b) => {
            if b == b')' {
                state.out_level(Piece::ArithmeticClose)?;
                return Ok(Step::On);
            }
            state.same(Piece::Byte(b')'))?;
            let step = take_plain_byte(state, b)?;
            Ok(step)
        },
        Character::Quoted(b) => {
            state.same(Piece::Byte(b')'))?;
            let step = take_quoted_byte(state, b)?;
            Ok(step)
        },
        Character::Raw(_) => Ok(Step::On),
    }
}

/// Takes a character after an operator.
fn then_act(state: &mut State, c: Character) -> Result<Step, AllocError>
    ensures { IfOk result (λ w. then_act state.old c ≡ with_state w state.new) }
{
    if state.contexts().is_text() {
        return Ok(Step::Before);
    }
    let step = act(state, c)?;
    Ok(step)
}

/// Takes a byte in an operator, or after it.
fn grow_operator(operator: Operator, state: &mut State, b: u8) -> Result<Step, AllocError>
    ensures { IfOk result (λ w.
        grow_to operator (longer_operator operator b) state.old b ≡ with_state w state.new) }
{
    if let Some(longer) = operator.grown(b) {
        let step = take_operator(state, longer)?;
        return Ok(step);
    }
    state.operator_out(operator)?;
    let step = then_act(state, Character::Plain(b))?;
    Ok(step)
}

/// Takes a character in an operator, or after it.
#[tactic(auto, unfolding(crate::specs::Machine::in_operator))]
fn take_in_operator(operator: Operator, state: &mut State, c: Character) -> Result<Step, AllocError>
    ensures { IfOk result (λ w. in_operator operator state.old c ≡ with_state w state.new) }
{
    match c {
        Character::Plain(b) => {
            let step = grow_operator(operator, state, b)?;
            Ok(step)
        },
        Character::Quoted(_) => {
            state.operator_out(operator)?;
            let step = then_act(state, c)?;
            Ok(step)
        },
        Character::Raw(_) => Ok(Step::On),
    }
}

/// Takes a character in a comment, or after it.
#[tactic(auto, unfolding(crate::specs::Machine::in_comment))]
fn take_in_comment(state: &mut State, c: Character) -> Result<Step, AllocError>
    ensures { IfOk result (λ w. in_comment state.old c ≡ with_state w state.new) }
{
    match c {
        Character::Raw(b) => {
            if b == b'\n' {
                let bytes = state.take_bytes();
                state.same(Piece::Comment(bytes))?;
                let step = take_plain_byte(state, b)?;
                return Ok(step);
            }
            state.keep(Pending::Comment, b)?;
            Ok(Step::On)
        },
        Character::Plain(_) => Ok(Step::On),
        Character::Quoted(_) => Ok(Step::On),
    }
}

/// Takes one character.
pub(crate) fn take(state: &mut State, c: Character) -> Result<Step, AllocError>
    ensures { IfOk result (λ w. step state.old c ≡ with_state w state.new) }
{
    let step = take_in(state.pending(), state, c)?;
    Ok(step)
}

fn take_in(pending: Pending, state: &mut State, c: Character) -> Result<Step, AllocError>
    ensures { IfOk result (λ w. step_in pending state.old c ≡ with_state w state.new) }
{
    match pending {
        Pending::Nothing => act(state, c),
        Pending::Dollar => take_after_dollar(state, c),
        Pending::DollarParenthesis => take_after_parenthesis(state, c),
        Pending::Name => take_in_name(state, c),
        Pending::Head(head) => take_in_head(head, state, c),
        Pending::Single => take_in_single(state, c),
        Pending::Backquotes => take_in_backquotes(state, c),
        Pending::BackquotesEscape => take_in_escape(state, c),
        Pending::Parenthesis => take_at_parenthesis(state, c),
        Pending::Operator(operator) => take_in_operator(operator, state, c),
        Pending::Comment => take_in_comment(state, c),
        Pending::Body {
            line,
            bodies,
            joined,
        } => take_in_body(line, bodies, joined, state, c),
    }
}
