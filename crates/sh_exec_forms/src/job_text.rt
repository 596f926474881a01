//! The text of the job that a pipeline becomes when it is suspended.
ghost use Rattle.std.specs.Prelude.{◌≡◌, ◌∷◌, [], IfOk, option_map, reverse};
ghost use Rattle.sh_exec_forms.specs.Frames.{forms_in};
ghost use Rattle.sh_syntax.specs.declared.tree.Command.TheViews as view;
ghost use Rattle.sh_exec_forms.specs.JobTexts.{called_by, caller_in, command_of, is_negated_in, is_negation, job_text, pipeline_text};

use crate::kinds::is_call;
use sh_base::NoMemory;
use sh_base::sequence::{Sequence, Text};
use sh_base::shared::Shared;
use sh_exec_actions::{Form, Frame};
use sh_exec_parts::copy_all;
use sh_syntax::text;
use sh_syntax::tree::{Command, Pipeline};
use std::alloc::Global;
use std::slice;

/// Whether it is a pipeline behind `!`.
fn is_negation(form: &Form) -> bool
    ensures { result ≡ is_negation form.now }
{
    matches!(form, Form::Negated)
}

/// The command after which what it changed is undone.
fn command_of(form: &Form) -> Option<&Shared<Command>>
    ensures { option_map (λ command. command.now) result ≡ command_of form.now }
{
    match form {
        Form::Restoring(undo) => Some(&undo.command),
        _ => None,
    }
}

/// Whether a pipeline directly inside some forms, of which the last is the innermost, is behind a `!`.
#[tactic(auto, using(crate::proofs::Framed::innermost))]
fn is_negated_in(frames: &[Frame]) -> bool
    ensures { result ≡ is_negated_in (forms_in (reverse frames.now)) }
{
    match frames.split_last() {
        Some((frame, _)) => is_negation(&frame.form),
        None => false,
    }
}

/// The command that called the function whose call is the innermost thing inside some forms, and the forms round it.
#[tactic(auto, using(crate::proofs::Framed::innermost))]
fn called_by(frames: &[Frame]) -> Option<(&Shared<Command>, &[Frame])>
    ensures { option_map (λ caller. (caller.0.now, forms_in (reverse caller.1.now))) result
        ≡ called_by (forms_in (reverse frames.now)) }
{
    match frames.split_last() {
        Some((frame, around)) => match command_of(&frame.form) {
            Some(command) => Some((command, around)),
            None => None,
        },
        None => None,
    }
}

/// The command that called the function whose body is directly inside some forms, and the forms round it.
#[tactic(auto, using(crate::proofs::Framed::innermost))]
fn caller_in(frames: &[Frame]) -> Option<(&Shared<Command>, &[Frame])>
    ensures { option_map (λ caller. (caller.0.now, forms_in (reverse caller.1.now))) result
        ≡ caller_in (forms_in (reverse frames.now)) }
{
    match frames.split_last() {
        Some((frame, around)) => {
            if is_call(&frame.form) {
                return called_by(around);
            }
            None
        },
        None => None,
    }
}

/// These commands as a pipeline.
fn pipeline_of(
    alloc: Global,
    is_negated: bool,
    first: &Shared<Command>,
    others: &[Shared<Command>],
) -> Result<Pipeline, NoMemory>
    ensures { IfOk result (λ pipeline. pipeline
        ≡ view.roll-Pipeline (record { is_negated = is_negated; first = first.now; rest = others.now })) }
{
    let first = first.share()?;
    match copy_all(alloc, others) {
        Ok(rest) => Ok(Pipeline {
            is_negated,
            first,
            rest: Sequence::from_vec(rest),
        }),
        Err(lack) => {
            drop(first);
            Err(lack)
        },
    }
}

/// The tokens of these commands as a pipeline.
fn pipeline_text(
    alloc: Global,
    is_negated: bool,
    commands: &[Shared<Command>],
) -> Result<Text, NoMemory>
    ensures { IfOk result (λ text. text ≡ pipeline_text is_negated commands.now) }
{
    match commands.split_first() {
        Some((first, others)) => {
            let pipeline = pipeline_of(alloc, is_negated, first, others)?;
            let text = text::pipeline_text(alloc, &pipeline);
            drop(pipeline);
            text
        },
        None => Ok(Text::new(alloc)),
    }
}

/// The text of the pipeline of these commands, directly inside some forms, of which the last is the innermost.
#[tactic(auto, unfolding(crate::specs::JobTexts::job_text))]
pub(crate) fn job_text(
    alloc: Global,
    frames: &[Frame],
    commands: &[Shared<Command>],
) -> Result<Text, NoMemory>
    ensures { IfOk result (λ text. text ≡ job_text (forms_in (reverse frames.now)) commands.now) }
{
    match caller_in(frames) {
        Some((caller, around)) => {
            pipeline_text(alloc, is_negated_in(around), slice::from_ref(caller))
        },
        None => pipeline_text(alloc, is_negated_in(frames), commands),
    }
}
