//! Commands for which a process is made (XCU 2.12).
ghost use Rattle.std.specs.Prelude.{◌≡◌, IfOk, None, option_map};
ghost use Rattle.sh_exec_actions.specs.Statuses.{unexcused};
ghost use Rattle.sh_exec_forms.specs.Bodies.{body_of, own_compound, own_form, sole_and_or, sole_item, sole_pipeline, stage_run};
ghost use Rattle.sh_exec_forms.specs.Entering.{and_or_run, command_run, items_run};
ghost use Rattle.sh_exec_forms.specs.Stacks.{run_in, run_of};

use crate::entering::{enter, enter_and_or, enter_command, redirected};
use crate::frames::Frames;
use sh_base::NoMemory;
use sh_base::shared::Shared;
use sh_exec_actions::{Action, Active, CommandStatus, first_place};
use sh_exec_parts::{Queue, is_negated};
use sh_syntax::tree::{
    AndOr, Command, Compound, CompoundForm, CompoundList, ListItem, Pipeline, Separator,
};
use std::alloc::Global;

/// A command that is entered as it would be in a shell of which it isn't all.
fn enter_whole(
    alloc: Global,
    frames: &mut Frames,
    command: &Shared<Command>,
) -> Result<Active, NoMemory>
    ensures { IfOk result (λ active.
        run_of frames.new active ≡ run_in frames.old (command_run command.now)) }
{
    let step = enter_command(alloc, frames, command)?;
    Ok(step.into_active())
}

/// The form of a compound command that is all that its process runs.
#[cycle(bodies)]
fn own_form(
    alloc: Global,
    frames: &mut Frames,
    form: &CompoundForm,
    command: &Shared<Command>,
) -> Result<Active, NoMemory>
    ensures { IfOk result (λ active.
        run_of frames.new active ≡ run_in frames.old (own_form form.now command.now)) }
{
    match form {
        CompoundForm::Group(_) => enter_whole(alloc, frames, command),
        CompoundForm::Subshell(list) => body_of(alloc, frames, list.get()),
        CompoundForm::If { .. } => enter_whole(alloc, frames, command),
        CompoundForm::Loop { .. } => enter_whole(alloc, frames, command),
        CompoundForm::For { .. } => enter_whole(alloc, frames, command),
        CompoundForm::ForParameters { .. } => enter_whole(alloc, frames, command),
        CompoundForm::Case { .. } => enter_whole(alloc, frames, command),
    }
}

/// A compound command that is all that its process runs.
#[cycle(bodies)]
fn own_compound(
    alloc: Global,
    frames: &mut Frames,
    compound: &Compound,
    command: &Shared<Command>,
) -> Result<Active, NoMemory>
    ensures { IfOk result (λ active.
        run_of frames.new active ≡ run_in frames.old (own_compound compound.now command.now)) }
{
    match compound.redirects.as_slice() {
        [] => own_form(alloc, frames, &compound.form, command),
        [_, ..] => redirected(command),
    }
}

/// A stage of a pipeline (2.9.2), or a subshell, for which a process is made. The only error is want of memory.
#[cycle(bodies)]
#[tactic(auto, unfolding(crate::specs::Bodies::stage_run))]
pub fn stage(
    alloc: Global,
    frames: &mut Frames,
    command: &Shared<Command>,
) -> Result<Active, NoMemory>
    ensures { IfOk result (λ active.
        run_of frames.new active ≡ run_in frames.old (stage_run command.now)) }
{
    match command.get() {
        Command::Simple(_) => {
            let place = first_place(alloc, true, command.share()?)?;
            Ok(Active::Next(place))
        },
        Command::Compound(compound) => own_compound(alloc, frames, compound.get(), command),
        Command::Function { .. } => enter_whole(alloc, frames, command),
    }
}

/// The command of a pipeline that has no other, and no `!`.
#[cycle(bodies)]
fn sole_pipeline(
    alloc: Global,
    frames: &mut Frames,
    pipeline: &Pipeline,
) -> Result<Option<Active>, NoMemory>
    ensures run { IfOk result (λ active. option_map (run_of frames.new) active
        ≡ option_map (run_in frames.old) (sole_pipeline pipeline.now)) }
    ensures none { IfOk result (λ active. active ≡ None → frames.new ≡ frames.old) }
{
    if is_negated(pipeline) {
        return Ok(None);
    }
    match pipeline.rest.as_slice() {
        [] => {
            let active = stage(alloc, frames, &pipeline.first)?;
            Ok(Some(active))
        },
        [_, ..] => Ok(None),
    }
}

/// The command of an AND-OR list that has no other, and no `!`.
#[cycle(bodies)]
fn sole_and_or(alloc: Global, frames: &mut Frames, list: &AndOr) -> Result<Option<Active>, NoMemory>
    ensures run { IfOk result (λ active. option_map (run_of frames.new) active
        ≡ option_map (run_in frames.old) (sole_and_or list.now)) }
    ensures none { IfOk result (λ active. active ≡ None → frames.new ≡ frames.old) }
{
    match list.rest.as_slice() {
        [] => sole_pipeline(alloc, frames, list.first.get()),
        [_, ..] => Ok(None),
    }
}

/// The command of a list that has no other, and no `!`.
#[cycle(bodies)]
fn sole_item(
    alloc: Global,
    frames: &mut Frames,
    item: &ListItem,
) -> Result<Option<Active>, NoMemory>
    ensures run { IfOk result (λ active. option_map (run_of frames.new) active
        ≡ option_map (run_in frames.old) (sole_item item.now)) }
    ensures none { IfOk result (λ active. active ≡ None → frames.new ≡ frames.old) }
{
    match item.separator {
        Separator::Sequential => sole_and_or(alloc, frames, item.list.get()),
        Separator::Asynchronous => Ok(None),
    }
}

/// Copies of AND-OR lists, entered.
fn enter_copies(alloc: Global, frames: &mut Frames, items: &[ListItem]) -> Result<Active, NoMemory>
    ensures { IfOk result (λ active.
        run_of frames.new active ≡ run_in frames.old (items_run items.now (unexcused 0))) }
{
    let items = Queue::of_copies(alloc, items)?;
    let step = enter(alloc, frames, items, CommandStatus::unexcused(0))?;
    Ok(step.into_active())
}

/// The commands of a command substitution, for which a process is made: it ends at once, with 0, where there
/// are none; where a simple command or a subshell is all that they are, no other process is made for it. The
/// only error is want of memory.
#[cycle(bodies)]
pub fn body_of(alloc: Global, frames: &mut Frames, list: &CompoundList) -> Result<Active, NoMemory>
    ensures { IfOk result (λ active. run_of frames.new active ≡ run_in frames.old (body_of list.now)) }
{
    let items = list.items.as_slice();
    match items {
        [] => Ok(Active::Next(Action::Ending(0))),
        [item] => match sole_item(alloc, frames, item)? {
            Some(active) => Ok(active),
            None => enter_copies(alloc, frames, items),
        },
        [_, _, ..] => enter_copies(alloc, frames, items),
    }
}

/// An asynchronous list (2.9.3.1) for which one process is made. The only error is want of memory.
pub fn list_body(alloc: Global, frames: &mut Frames, list: &AndOr) -> Result<Active, NoMemory>
    ensures { IfOk result (λ active. run_of frames.new active ≡ run_in frames.old (and_or_run list.now)) }
{
    let step = enter_and_or(alloc, frames, list)?;
    Ok(step.into_active())
}
