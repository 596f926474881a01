//! One turn of a reading: the next token, and what it decides.
ghost use Rattle.std.specs.Prelude.{◌≡◌, ◌≤◌, ℕ, Bool, List, true, length, take, drop, IfOk, IfErr};
ghost use Rattle.sh_parse_documents.specs.Stream.{AtEnd, Cut};
ghost use Rattle.sh_parse_documents.specs.Waiting.{Waiting};
ghost use Rattle.sh_parse_leaves.specs.Results.{and_then};
ghost use Rattle.sh_parse_commands.specs.Documents.{bodies_of};
ghost use Rattle.sh_parse_commands.specs.Judging.{are_whole};
ghost use Rattle.sh_parse_commands.specs.Replacing.{with_token as taken};
ghost use Rattle.sh_parse_commands.specs.Programs.{inside_of, outermost, read_text};
ghost use Rattle.sh_base.specs.Memory.{no_memory};
ghost use Rattle.sh_parse.specs.declared.ParseFault.TheVariants.{NoMemory};
ghost use Rattle.sh_parse.specs.Reading.{Answer, Answers, answer_at_newline, at_cut, at_end, at_last, complete_answer, is_newline, nul_in, source, standing, stands_behind, unless_nul};
ghost use Rattle.sh_parse.specs.Turns.{GoesOn, Takes, Tells, Turns, fault_in, turn_of};

use crate::fault::{fault_of, fault_with_nul};
use crate::nul::first_nul;
use crate::{ParseFault, Reading};
use sh_parse_commands::cut::cut_fault;
use sh_parse_commands::prefix::Prefix;
use sh_parse_commands::text::{CommandText, LEVELS};
use sh_parse_documents::item::{Item, next_item};
use sh_parse_documents::waiting::Waiting;
use sh_parse_words::fault::PartFault;
use sh_token::token::{TokenFault, TokenKind};
use sh_token_pieces::here::Delimiter;
use sh_token_pieces::operator::Operator;
use std::alloc::Global;

/// What a token does to a reading.
#[derive(Drop)]
pub(crate) enum Turn {
    /// The reading goes on: after these tokens, or with their first fault; with what is awaited; from this
    /// place of the text; and with the place of the first NUL before it.
    On(Result<Prefix, PartFault>, Waiting, usize, Option<usize>),
    /// The reading is decided.
    Read(Reading),
}

/// Takes the token at the place `at`, which is not past the end of the text; `nul` is the place of the first
/// NUL before it.
pub(crate) fn next_turn(
    alloc: Global,
    command: &CommandText<'_>,
    at_end: bool,
    judged: Result<Prefix, PartFault>,
    waiting: Waiting,
    at: usize,
    nul: Option<usize>,
) -> Result<Turn, ParseFault>
    requires inside { at ≤ length command.now.text }
    requires nul { nul ≡ nul_in (take at command.now.text) }
    ensures { Turns (source command.now.aliases at_end command.now.text) (standing judged waiting) at result }
{
    let text = command.text();
    match next_item(alloc, text, at, at_end, text.len(), &waiting) {
        Ok(item) => {
            let TokenKind::End = item.token.kind else {
                let nul = first_nul(text, nul, at, item.end);
                return take(alloc, command, judged, waiting, item, nul);
            };
            let nul = first_nul(text, nul, at, text.len());
            turn_of(end(text, judged, nul))
        },
        Err(TokenFault::NoMemory(lack)) => Err(ParseFault::NoMemory(lack)),
        Err(TokenFault::Unfinished) => {
            let nul = first_nul(text, nul, at, text.len());
            turn_of(cut(alloc, text, at_end, judged, &waiting, at, nul))
        },
        Err(TokenFault::TooDeep { .. }) => {
            let nul = first_nul(text, nul, at, text.len());
            turn_of(cut(alloc, text, at_end, judged, &waiting, at, nul))
        },
    }
}

/// The turn that decides on this reading.
fn turn_of(reading: Result<Reading, ParseFault>) -> Result<Turn, ParseFault>
    ensures { result ≡ turn_of reading }
{
    match reading {
        Ok(reading) => Ok(Turn::Read(reading)),
        Err(fault) => Err(fault),
    }
}

/// Judges a token after others, or keeps their first fault.
fn judge_next(
    alloc: Global,
    command: &CommandText<'_>,
    judged: Result<Prefix, PartFault>,
    due: &[Delimiter],
    item: &Item,
) -> Result<Result<Prefix, PartFault>, ParseFault>
    ensures judged { IfOk result (λ next.
        next ≡ and_then judged (λ j.
        taken command.now.aliases (inside_of command.now.aliases) (outermost command.now) due.now item.now j)) }
    ensures memory { IfErr result (λ fault. fault ≡ NoMemory no_memory) }
{
    let mut prefix = match judged {
        Ok(prefix) => prefix,
        Err(fault) => return Ok(Err(fault)),
    };
    match command.judge(alloc, due, item, &mut prefix) {
        Ok(()) => Ok(Ok(prefix)),
        Err(PartFault::NoMemory(lack)) => Err(ParseFault::NoMemory(lack)),
        Err(fault) => Ok(Err(fault)),
    }
}

/// Takes a token after others, and decides at a newline; `nul` is the place of the first NUL before the
/// token's end.
fn take(
    alloc: Global,
    command: &CommandText<'_>,
    judged: Result<Prefix, PartFault>,
    waiting: Waiting,
    item: Item,
    nul: Option<usize>,
) -> Result<Turn, ParseFault>
    requires { nul ≡ nul_in (take item.«end» command.now.text) }
    ensures { (e : Bool) → Takes (source command.now.aliases e command.now.text) (standing judged waiting) item nul result }
{
    if ends_line(&item.token.kind) {
        return end_line(alloc, command, judged, waiting, item, nul);
    }
    go_on(alloc, command, judged, waiting, item, nul)
}

/// Goes on after a token that decides nothing.
fn go_on(
    alloc: Global,
    command: &CommandText<'_>,
    judged: Result<Prefix, PartFault>,
    waiting: Waiting,
    item: Item,
    nul: Option<usize>,
) -> Result<Turn, ParseFault>
    ensures { GoesOn (stands_behind command.now.aliases command.now.text (standing judged waiting) item) item.«end» nul
        result }
{
    let after = item.end;
    let mut left = waiting;
    let due = left.due_at(&item.token.kind);
    let next = judge_next(alloc, command, judged, due, &item)?;
    left.pass(&item.token.kind)?;
    Ok(Turn::On(next, left, after, nul))
}

/// Decides at a newline, if that is a decision place of these tokens, or has a NUL before its end.
fn end_line(
    alloc: Global,
    command: &CommandText<'_>,
    judged: Result<Prefix, PartFault>,
    waiting: Waiting,
    newline: Item,
    nul: Option<usize>,
) -> Result<Turn, ParseFault>
    requires line { is_newline newline.token.kind ≡ true }
    requires nul { nul ≡ nul_in (take newline.«end» command.now.text) }
    ensures { (e : Bool) → Takes (source command.now.aliases e command.now.text) (standing judged waiting) newline nul
        result }
{
    let used = newline.end;
    let told = tell(alloc, command, judged, waiting, newline, nul);
    match nul {
        Some(at) => Err(fault_with_nul(fault_in_turn(told), at, used)),
        None => told,
    }
}

/// What the tokens before a newline say there.
fn tell(
    alloc: Global,
    command: &CommandText<'_>,
    judged: Result<Prefix, PartFault>,
    waiting: Waiting,
    newline: Item,
    nul: Option<usize>,
) -> Result<Turn, ParseFault>
    ensures { Tells (answer_at_newline command.now.aliases command.now.text waiting newline judged)
        (stands_behind command.now.aliases command.now.text (standing judged waiting) newline) newline.«end» nul
        result }
{
    let used = newline.end;
    let prefix = match judged {
        Ok(prefix) => prefix,
        Err(fault) => return Err(fault_of(used, fault)),
    };
    if prefix.is_none() {
        return Ok(Turn::Read(Reading::Blank { used }));
    }
    if prefix.is_whole() {
        let due = waiting.due_at(&newline.token.kind);
        return turn_of(complete(alloc, command, prefix, due, &newline));
    }
    match go_on(alloc, command, Ok(prefix), waiting, newline, nul)? {
        Turn::On(Err(fault), _, _, _) => Err(fault_of(used, fault)),
        turn => Ok(turn),
    }
}

/// The tokens are a complete command, and the bodies after the newline belong to it.
fn complete(
    alloc: Global,
    command: &CommandText<'_>,
    prefix: Prefix,
    due: &[Delimiter],
    newline: &Item,
) -> Result<Reading, ParseFault>
    requires { are_whole prefix ≡ true }
    ensures { Answers result
        (complete_answer prefix newline.now.«end»
        (bodies_of (read_text command.now.aliases) 500 command.now.text due.now newline.now)) }
{
    let used = newline.end;
    let bodies = match command.bodies_of(alloc, due, newline) {
        Ok(bodies) => bodies,
        Err(fault) => return Err(fault_of(used, fault)),
    };
    let mut prefix = prefix;
    prefix.put_bodies(bodies)?;
    match prefix.into_tree()? {
        Some(tree) => Ok(Reading::Complete { tree, used }),
        None => Err(ParseFault::Unclosed { at: used }),
    }
}

/// The fault of a turn, if it has one.
fn fault_in_turn(turn: Result<Turn, ParseFault>) -> Option<ParseFault>
    ensures { result ≡ fault_in turn }
{
    match turn {
        Ok(turn) => {
            drop(turn);
            None
        },
        Err(fault) => Some(fault),
    }
}

/// The fault of a reading, if it has one.
fn fault_in_reading(reading: Result<Reading, ParseFault>) -> Option<ParseFault>
    ensures { result ≡ fault_in reading }
{
    match reading {
        Ok(reading) => {
            drop(reading);
            None
        },
        Err(fault) => Some(fault),
    }
}

/// What is read up to a decision place, where `used` bytes come up to and with this place and `nul` is the
/// place of the first NUL among them.
#[tactic(auto, using(crate::proofs::Nuls::nul_answers))]
fn unless_nul(
    reading: Result<Reading, ParseFault>,
    nul: Option<usize>,
    used: usize,
) -> Result<Reading, ParseFault>
    ensures { (known : Answer) → Answers reading known → Answers result (unless_nul nul used known) }
{
    match nul {
        Some(at) => Err(fault_with_nul(fault_in_reading(reading), at, used)),
        None => reading,
    }
}

/// Decides at the end of the input; `nul` is the place of the first NUL of the text.
fn end(
    text: &[u8],
    judged: Result<Prefix, PartFault>,
    nul: Option<usize>,
) -> Result<Reading, ParseFault>
    requires { nul ≡ nul_in text.now }
    ensures { (e : Bool) (w : Waiting) → Answers result (at_last e text.now w judged AtEnd) }
{
    unless_nul(tell_end(text.len(), judged), nul, text.len())
}

/// What the tokens say at the end of the input.
fn tell_end(size: usize, judged: Result<Prefix, PartFault>) -> Result<Reading, ParseFault>
    ensures { (text : List ℕ) → length text ≡ size → Answers result (at_end text judged) }
{
    let prefix = match judged {
        Ok(prefix) => prefix,
        Err(fault) => return Err(fault_of(size, fault)),
    };
    if prefix.is_none() {
        return Ok(Reading::Blank { used: size });
    }
    match prefix.into_tree()? {
        Some(tree) => Ok(Reading::Complete { tree, used: size }),
        None => Err(ParseFault::Unclosed { at: size }),
    }
}

/// Decides where no token is found after these, from the place `at` on; `nul` is the place of the first NUL
/// of the text.
fn cut(
    alloc: Global,
    text: &[u8],
    at_end: bool,
    judged: Result<Prefix, PartFault>,
    waiting: &Waiting,
    at: usize,
    nul: Option<usize>,
) -> Result<Reading, ParseFault>
    requires { nul ≡ nul_in text.now }
    ensures { Answers result (at_last at_end text.now waiting.now judged (Cut at)) }
{
    if !at_end {
        return Ok(Reading::More);
    }
    let told = tell_cut(alloc, text, judged, waiting, at);
    unless_nul(told, nul, text.len())
}

/// What the tokens say where the end of the input cuts off what comes after them, from the place `at` on.
fn tell_cut(
    alloc: Global,
    text: &[u8],
    judged: Result<Prefix, PartFault>,
    waiting: &Waiting,
    at: usize,
) -> Result<Reading, ParseFault>
    ensures { Answers result (at_cut text.now waiting.now judged at) }
{
    let size = text.len();
    let prefix = match judged {
        Ok(prefix) => prefix,
        Err(fault) => return Err(fault_of(size, fault)),
    };
    let left = LEVELS.saturating_sub(prefix.open());
    match cut_fault(alloc, left, text, waiting, at)? {
        Some(fault) => Err(fault_of(size, fault)),
        None => Err(ParseFault::Unclosed { at: text.len() }),
    }
}

fn ends_line(kind: &TokenKind) -> bool
    ensures { result ≡ is_newline kind.now }
{
    match kind {
        TokenKind::Operator(Operator::Newline) => true,
        _ => false,
    }
}
