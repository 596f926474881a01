//! The bodies of here-documents of a substitution (XCU 2.7.4), byte by byte.
ghost use Rattle.sh_token_pieces.specs.Pieces.{top_of, due_in};
ghost use Rattle.std.specs.Prelude.{◌≡◌, IfOk, drop};
ghost use Rattle.sh_token_scanner.specs.Machine.{body_end, line_at, line_over, line_of, in_body};
ghost use Rattle.sh_token_scanner.specs.Steps.{with_state};

use crate::state::State;
use crate::step::Step;
use sh_token_pieces::character::Character;
use sh_token_pieces::here::Delimiter;
use sh_token_pieces::pending::Pending;
use std::alloc::AllocError;

/// What a finished line of a body is.
#[derive(Clone, Copy)]
enum LineEnd {
    /// No body was awaited.
    Unawaited,
    /// The end line of the last body.
    LastBody,
    /// The end line of another body; so many bodies are over with it.
    Body(usize),
    /// A line of the body; it is joined with the next line if true.
    Line(bool),
}

/// The end line of a body, where `all` bodies are due and the bodies of `others` come after this one.
fn body_end(all: usize, others: &[Delimiter]) -> LineEnd
    ensures { result ≡ body_end all others.now }
{
    if others.is_empty() {
        LineEnd::LastBody
    } else {
        LineEnd::Body(all.saturating_sub(others.len()))
    }
}

/// The bodies from this one on.
fn awaited(due: &[Delimiter], bodies: usize) -> &[Delimiter]
    ensures { result.now ≡ drop bodies due.now }
{
    if bodies < due.len() {
        &due[bodies..]
    } else {
        &[]
    }
}

/// What the line is, after so many of the bodies that are due; `joined`: the line before is joined with it.
fn line_end(due: &[Delimiter], bodies: usize, joined: bool, line: &[u8]) -> LineEnd
    ensures { result ≡ line_at due.now bodies joined line.now }
{
    let Some((delimiter, others)) = awaited(due, bodies).split_first() else {
        return LineEnd::Unawaited;
    };
    if !joined && delimiter.is_end_line(line) {
        body_end(due.len(), others)
    } else {
        LineEnd::Line(delimiter.joins_next(line))
    }
}

/// Ends a line, after so many bodies.
fn end_line(state: &mut State, line: usize, bodies: usize, joined: bool) -> Result<Step, AllocError>
    ensures { IfOk result (λ w.
        line_over
        (line_at (due_in (top_of state.old.contexts)) bodies joined (line_of line state.old))
        bodies state.old ≡ with_state w state.new) }
{
    match line_end(state.contexts().due(), bodies, joined, state.line(line)) {
        LineEnd::Unawaited => Ok(Step::On),
        LineEnd::LastBody => {
            state.bodies_out()?;
            Ok(Step::On)
        },
        LineEnd::Body(over) => {
            state.keep_line(over, false)?;
            Ok(Step::On)
        },
        LineEnd::Line(joins) => {
            state.keep_line(bodies, joins)?;
            Ok(Step::On)
        },
    }
}

/// Takes a character in the bodies of here-documents. Its line began after `line` bytes of them and after
/// `bodies` bodies.
#[tactic(auto, unfolding(crate::specs::Machine::in_body))]
pub(crate) fn take_in_body(
    line: usize,
    bodies: usize,
    joined: bool,
    state: &mut State,
    c: Character,
) -> Result<Step, AllocError>
    ensures { IfOk result (λ w. in_body line bodies joined state.old c ≡ with_state w state.new) }
{
    match c {
        Character::Raw(b) => {
            if b == b'\n' {
                let step = end_line(state, line, bodies, joined)?;
                return Ok(step);
            }
            state.keep(
                Pending::Body {
                    line,
                    bodies,
                    joined,
                },
                b,
            )?;
            Ok(Step::On)
        },
        Character::Plain(_) => Ok(Step::On),
        Character::Quoted(_) => Ok(Step::On),
    }
}
