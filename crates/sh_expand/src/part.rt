//! How each part of a word begins.
ghost use Rattle.std.specs.Prelude.{◌≡◌, ◌<◌, ◌+◌, IfOk, OnOk};
ghost use Rattle.sh_vars.specs.Environment.{Environment};
ghost use Rattle.sh_expand_parts.specs.Drafts.{concatenation};
ghost use Rattle.sh_expand.specs.Expansion.{State, begins, begins_alone, is_end};
ghost use Rattle.sh_expand.specs.Parts.{parts_of, pieces, run_part};
ghost use Rattle.sh_expand.specs.WordProgress.{act_weight, outcome_at};
ghost use Rattle.sh_expand.specs.Weights.{part_weight, parts_weight};

use crate::place::Place;
use sh_base::shared::Shared;
use sh_expand_parts::{
    Begun, Context, Draft, Fault, Purpose, begin_conditional, begin_escaped, begin_length,
    begin_literal, begin_parameter, begin_quoted, begin_removal,
};
use sh_syntax::tree::{CompoundList, Part, Parts};
use sh_vars::Vars;
use std::alloc::{AllocError, Global};

/// What the beginning of a part gives.
#[derive(Drop)]
pub(crate) enum Act {
    /// The part is done.
    Went,
    /// A word inside the part is expanded first.
    Enter {
        word: Shared<Parts>,
        purpose: Purpose,
        context: Context,
    },
    /// The output of a program is needed first.
    Ask {
        program: Shared<CompoundList>,
        context: Context,
    },
    /// The part can't be expanded.
    Fail(Fault),
}

/// Appends items to the word.
fn add(draft: &mut Draft, more: &Draft) -> Result<Act, AllocError>
    ensures went { IfOk result (λ a. a ≡ Act.Went) }
    ensures draft { OnOk result (draft.new ≡ concatenation draft.old more.now) }
{
    draft.append(more)?;
    Ok(Act::Went)
}

/// Goes on with a form that has no word inside.
fn settle(draft: &mut Draft, begun: Begun) -> Result<Act, AllocError>
    ensures run { IfOk result (λ a.
        (s : State) → s.draft ≡ draft.old → begins_alone begun s
        ≡ outcome_at a (record s { draft = draft.new })) }
    ensures weight { IfOk result (λ a. act_weight a ≡ 0) }
{
    match begun {
        Begun::Adds(more) => {
            let act = add(draft, &more)?;
            Ok(act)
        }
        Begun::Enters { .. } => Ok(Act::Fail(Fault::BadSubstitution)),
        Begun::Fails(fault) => Ok(Act::Fail(fault)),
    }
}

/// Goes on with a form that may have a word inside.
fn enter(draft: &mut Draft, begun: Begun, word: &Shared<Parts>) -> Result<Act, AllocError>
    ensures run { IfOk result (λ a.
        (s : State) → s.draft ≡ draft.old → begins begun (pieces (parts_of word.now)) s
        ≡ outcome_at a (record s { draft = draft.new })) }
    ensures weight { IfOk result (λ a. act_weight a < 2 + parts_weight (parts_of word.now)) }
{
    match begun {
        Begun::Adds(more) => {
            let act = add(draft, &more)?;
            Ok(act)
        }
        Begun::Enters { purpose, context } => Ok(Act::Enter {
            word: word.share()?,
            purpose,
            context,
        }),
        Begun::Fails(fault) => Ok(Act::Fail(fault)),
    }
}

/// Whether a word has no part.
fn has_no_part(word: &Parts) -> bool
    ensures { result ≡ is_end (pieces (parts_of word.now)) }
{
    match word.items.as_slice() {
        [] => true,
        [_, ..] => false,
    }
}

/// Begins a part: appends its items, or tells what has to be done for it first.
pub(crate) fn begin(
    alloc: Global,
    part: &Part,
    place: Place,
    draft: &mut Draft,
    vars: &Vars,
) -> Result<Act, AllocError>
    ensures run { IfOk result (λ a.
        (s : State) → s.env ≡ vars.now → s.draft ≡ draft.old → run_part part.now place s
        ≡ outcome_at a (record s { draft = draft.new })) }
    ensures weight { IfOk result (λ a. act_weight a < part_weight part.now) }
{
    match part {
        Part::Literal(text) => {
            let more = begin_literal(
                alloc,
                vars,
                place.context,
                place.first,
                place.last,
                text.as_slice(),
            )?;
            let act = add(draft, &more)?;
            Ok(act)
        }
        Part::Escaped(byte) => {
            let more = begin_escaped(alloc, *byte)?;
            let act = add(draft, &more)?;
            Ok(act)
        }
        Part::SingleQuoted(text) => {
            let more = begin_quoted(alloc, text.as_slice())?;
            let act = add(draft, &more)?;
            Ok(act)
        }
        Part::DoubleQuoted(word) => Ok(Act::Enter {
            word: word.share()?,
            purpose: Purpose::Quotes,
            context: place.context.inside_quotes(),
        }),
        Part::Parameter(parameter) => {
            let begun = begin_parameter(alloc, vars, place.context, parameter)?;
            let act = settle(draft, begun)?;
            Ok(act)
        }
        Part::Length(parameter) => {
            let begun = begin_length(alloc, vars, place.context, parameter)?;
            let act = settle(draft, begun)?;
            Ok(act)
        }
        Part::Conditional {
            parameter,
            absence,
            action,
            word,
        } => {
            let no_word = has_no_part(word.get());
            let begun = begin_conditional(
                alloc,
                vars,
                place.context,
                parameter,
                *absence,
                *action,
                no_word,
            )?;
            let act = enter(draft, begun, word)?;
            Ok(act)
        }
        Part::Removal {
            parameter,
            affix,
            extent,
            pattern,
        } => {
            let begun = begin_removal(alloc, vars, place.context, parameter, *affix, *extent)?;
            let act = enter(draft, begun, pattern)?;
            Ok(act)
        }
        Part::Substitution(program) => Ok(Act::Ask {
            program: program.share()?,
            context: place.context,
        }),
        Part::Backquoted(program) => Ok(Act::Ask {
            program: program.share()?,
            context: place.context,
        }),
        Part::Arithmetic(word) => Ok(Act::Enter {
            word: word.share()?,
            purpose: Purpose::Compute {
                context: place.context,
            },
            context: Context::QuotedSingle,
        }),
    }
}
