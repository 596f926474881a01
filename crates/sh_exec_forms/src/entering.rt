//! Commands are entered.
ghost use Rattle.std.specs.Prelude.{◌≡◌, ◌∷◌, [], IfOk, OnOk, None, option_map};
ghost use Rattle.sh_exec_parts.specs.Pipelines.{commands_of};
ghost use Rattle.sh_exec_actions.specs.Statuses.{unexcused};
ghost use Rattle.sh_exec_forms.specs.Entering.{and_or_run, command_run, commands_run, compound_entry, form_entry, form_run, in_background, is_subshell, item_run, items_run, list_run, pipeline_run, staging, with_others};
ghost use Rattle.sh_exec_forms.specs.Running.{Run};
ghost use Rattle.sh_exec_forms.specs.Stacks.{Goes};
ghost use Rattle.sh_syntax.specs.declared.tree.Command.TheViews as view;

use crate::frames::Frames;
use crate::step::Step;
use sh_base::NoMemory;
use sh_base::sequence::Sequence;
use sh_base::shared::Shared;
use sh_exec_actions::{
    Action, Active, Branches, CommandStatus, Form, Launch, Loop, Stages, ToExpand, first_place,
};
use sh_exec_parts::{Queue, commands_of, is_negated};
use sh_syntax::tree::{
    AndOr, Command, Compound, CompoundForm, CompoundList, Connected, ElseIf, ListItem, LoopKind,
    Pipeline, Separator,
};
use std::alloc::Global;

/// Processes are to be made for these commands.
fn staging(alloc: Global, launch: Launch, commands: Sequence<Shared<Command>>) -> Action
    ensures { result ≡ staging launch commands }
{
    Action::ForkStage(Stages {
        commands: Queue::new(commands),
        aside: None,
        children: Sequence::new(alloc),
        launch,
    })
}

/// A subshell, for which a process is to be made.
fn subshell(alloc: Global, command: &Shared<Command>) -> Result<Active, NoMemory>
    ensures { IfOk result (λ active. active ≡ Active.Next (staging (Launch.Foreground None) (command.now ∷ []))) }
{
    let mut commands = Sequence::new(alloc);
    commands.push(command.share()?)?;
    Ok(Active::Next(staging(alloc, Launch::Foreground(None), commands)))
}

/// What an `if` runs after its condition.
fn branches_of(
    alloc: Global,
    body: &Shared<CompoundList>,
    else_ifs: &[ElseIf],
    else_body: Option<&Shared<CompoundList>>,
) -> Result<Branches, NoMemory>
    ensures { IfOk result (λ branches.
        branches
        ≡ record {
          body = body.now;
          else_ifs = else_ifs.now;
          else_body = option_map (λ list.
              list.now) else_body.entry;
        }) }
{
    let else_body = match else_body {
        Some(list) => Some(list.share()?),
        None => None,
    };
    let body = body.share()?;
    let else_ifs = Queue::of_copies(alloc, else_ifs)?;
    Ok(Branches {
        body,
        else_ifs,
        else_body,
    })
}

/// The form of an `if` whose condition is to be entered.
fn push_if(
    alloc: Global,
    frames: &mut Frames,
    body: &Shared<CompoundList>,
    else_ifs: &[ElseIf],
    else_body: Option<&Shared<CompoundList>>,
) -> Result<(), NoMemory>
    ensures { OnOk result (frames.new ≡ Form.If
        (record {
          body = body.now;
          else_ifs = else_ifs.now;
          else_body = option_map (λ list.
              list.now) else_body.entry;
        }) ∷ frames.old) }
{
    let branches = branches_of(alloc, body, else_ifs, else_body)?;
    frames.push(Form::If(branches))
}

/// A loop.
fn loop_of(
    kind: LoopKind,
    condition: &Shared<CompoundList>,
    body: &Shared<CompoundList>,
) -> Result<Loop, NoMemory>
    ensures { IfOk result (λ looping.
        looping ≡ record { kind = kind; condition = condition.now; body = body.now }) }
{
    let condition = condition.share()?;
    let body = body.share()?;
    Ok(Loop {
        kind,
        condition,
        body,
    })
}

/// The form of a loop whose condition is to be entered.
fn push_loop(
    frames: &mut Frames,
    kind: LoopKind,
    condition: &Shared<CompoundList>,
    body: &Shared<CompoundList>,
) -> Result<(), NoMemory>
    ensures { OnOk result (frames.new ≡ Form.Condition
        (record { kind = kind; condition = condition.now; body = body.now }) (unexcused 0) ∷ frames.old) }
{
    let looping = loop_of(kind, condition, body)?;
    frames.push(Form::Condition(looping, CommandStatus::unexcused(0)))
}

/// A `for`, whose words are to be expanded.
fn series(command: &Shared<Command>) -> Result<Active, NoMemory>
    ensures { IfOk result (λ active.
        active ≡ Active.Next (Action.Expanding (ToExpand.ForWords command.now) None)) }
{
    let command = command.share()?;
    Ok(Active::Next(Action::Expanding(ToExpand::ForWords(command), None)))
}

/// A `case`, whose word is to be expanded.
fn case(command: &Shared<Command>) -> Result<Active, NoMemory>
    ensures { IfOk result (λ active.
        active ≡ Active.Next (Action.Expanding (ToExpand.CaseWord command.now) None)) }
{
    let command = command.share()?;
    Ok(Active::Next(Action::Expanding(ToExpand::CaseWord(command), None)))
}

/// A function definition.
fn definition(command: &Shared<Command>) -> Result<Active, NoMemory>
    ensures { IfOk result (λ active. active ≡ Active.Next (Action.Defining command.now)) }
{
    let command = command.share()?;
    Ok(Active::Next(Action::Defining(command)))
}

/// A compound command, the words of whose redirections are to be expanded.
pub(crate) fn redirected(command: &Shared<Command>) -> Result<Active, NoMemory>
    ensures { IfOk result (λ active.
        active ≡ Active.Next (Action.Expanding (ToExpand.Redirects command.now) None)) }
{
    let command = command.share()?;
    Ok(Active::Next(Action::Expanding(ToExpand::Redirects(command), None)))
}

/// Whether a compound command is a subshell.
fn is_subshell(form: &CompoundForm) -> bool
    ensures { result ≡ is_subshell (view.out-CompoundForm form.now) }
{
    matches!(form, CompoundForm::Subshell(_))
}

/// The form of a compound command.
#[cycle(entering)]
fn enter_form(
    alloc: Global,
    frames: &mut Frames,
    form: &CompoundForm,
    command: &Shared<Command>,
) -> Result<Step, NoMemory>
    ensures { IfOk result (λ step.
        Goes step frames.new frames.old (form_entry form.now command.now)) }
{
    match form {
        CompoundForm::Group(list) => enter_list(alloc, frames, list.get()),
        CompoundForm::Subshell(_) => Ok(Step::Inward(subshell(alloc, command)?)),
        CompoundForm::If {
            condition,
            body,
            else_ifs,
            else_body,
        } => {
            push_if(alloc, frames, body, else_ifs.as_slice(), else_body.as_ref())?;
            let step = enter_list(alloc, frames, condition.get())?;
            Ok(step.inside())
        },
        CompoundForm::Loop {
            kind,
            condition,
            body,
        } => {
            push_loop(frames, *kind, condition, body)?;
            let step = enter_list(alloc, frames, condition.get())?;
            Ok(step.inside())
        },
        CompoundForm::For { .. } => Ok(Step::Inward(series(command)?)),
        CompoundForm::ForParameters { .. } => Ok(Step::Inward(series(command)?)),
        CompoundForm::Case { .. } => Ok(Step::Inward(case(command)?)),
    }
}

/// A compound command.
#[cycle(entering)]
fn enter_compound(
    alloc: Global,
    frames: &mut Frames,
    compound: &Compound,
    command: &Shared<Command>,
) -> Result<Step, NoMemory>
    ensures { IfOk result (λ step.
        Goes step frames.new frames.old (compound_entry compound.now command.now)) }
{
    if is_subshell(&compound.form) {
        return enter_form(alloc, frames, &compound.form, command);
    }
    match compound.redirects.as_slice() {
        [] => enter_form(alloc, frames, &compound.form, command),
        [_, ..] => Ok(Step::Inward(redirected(command)?)),
    }
}

/// A command that is alone in its pipeline, in the shell that runs it. The only error is want of memory.
#[cycle(entering)]
pub fn enter_command(
    alloc: Global,
    frames: &mut Frames,
    command: &Shared<Command>,
) -> Result<Step, NoMemory>
    ensures { IfOk result (λ step. Goes step frames.new frames.old (command_run command.now)) }
{
    match command.get() {
        Command::Simple(_) => {
            let place = first_place(alloc, false, command.share()?)?;
            Ok(Step::Inward(Active::Next(place)))
        },
        Command::Compound(compound) => enter_compound(alloc, frames, compound.get(), command),
        Command::Function { .. } => Ok(Step::Inward(definition(command)?)),
    }
}

/// A compound command whose redirections are done.
#[tactic(auto, unfolding(crate::specs::Entering::form_run))]
pub(crate) fn enter_redirected(
    alloc: Global,
    frames: &mut Frames,
    command: &Shared<Command>,
) -> Result<Step, NoMemory>
    ensures { IfOk result (λ step. Goes step frames.new frames.old (form_run command.now)) }
{
    match command.get() {
        Command::Simple(_) => Ok(Step::Outward(Active::Done(CommandStatus::unexcused(0)))),
        Command::Compound(compound) => enter_form(alloc, frames, &compound.get().form, command),
        Command::Function { .. } => Ok(Step::Outward(Active::Done(CommandStatus::unexcused(0)))),
    }
}

/// The commands of a pipeline of several.
fn stages(alloc: Global, pipeline: &Pipeline) -> Result<Step, NoMemory>
    ensures { IfOk result (λ step.
        step ≡ Step.Inward (Active.Next (staging (Launch.Foreground None) (commands_of pipeline.now)))) }
{
    let commands = commands_of(alloc, pipeline)?;
    Ok(Step::Inward(Active::Next(staging(alloc, Launch::Foreground(None), commands))))
}

/// The commands of a pipeline.
#[cycle(entering)]
fn enter_commands(alloc: Global, frames: &mut Frames, pipeline: &Pipeline) -> Result<Step, NoMemory>
    ensures { IfOk result (λ step. Goes step frames.new frames.old (commands_run pipeline.now)) }
{
    match pipeline.rest.as_slice() {
        [] => enter_command(alloc, frames, &pipeline.first),
        [_, ..] => stages(alloc, pipeline),
    }
}

/// A pipeline.
#[cycle(entering)]
pub(crate) fn enter_pipeline(
    alloc: Global,
    frames: &mut Frames,
    pipeline: &Pipeline,
) -> Result<Step, NoMemory>
    ensures { IfOk result (λ step. Goes step frames.new frames.old (pipeline_run pipeline.now)) }
{
    if is_negated(pipeline) {
        frames.push(Form::Negated)?;
        let step = enter_commands(alloc, frames, pipeline)?;
        return Ok(step.inside());
    }
    enter_commands(alloc, frames, pipeline)
}

/// A pipeline, with those that are joined to it by `&&` and `||`. The only error is want of memory.
#[cycle(entering)]
pub fn enter_joined(
    alloc: Global,
    frames: &mut Frames,
    first: &Pipeline,
    others: Queue<Connected>,
) -> Result<Step, NoMemory>
    ensures { IfOk result (λ step.
        Goes step frames.new frames.old (with_others others (pipeline_run first.now))) }
{
    if others.is_empty() {
        return enter_pipeline(alloc, frames, first);
    }
    frames.push(Form::Joined(others))?;
    let step = enter_pipeline(alloc, frames, first)?;
    Ok(step.inside())
}

/// An AND-OR list.
#[cycle(entering)]
pub(crate) fn enter_and_or(
    alloc: Global,
    frames: &mut Frames,
    list: &AndOr,
) -> Result<Step, NoMemory>
    ensures { IfOk result (λ step. Goes step frames.new frames.old (and_or_run list.now)) }
{
    let others = Queue::of_copies(alloc, list.rest.as_slice())?;
    enter_joined(alloc, frames, list.first.get(), others)
}

/// An asynchronous list (2.9.3.1), for which processes are to be made.
fn in_background(alloc: Global, list: &Shared<AndOr>) -> Result<Active, NoMemory>
    ensures { IfOk result (λ active. active ≡ Active.Next (in_background list.now)) }
{
    let pipeline = list.get().first.get();
    if is_negated(pipeline) {
        return Ok(Active::Next(Action::ForkList(list.share()?)));
    }
    if let Some(_) = list.get().rest.as_slice().split_first() {
        return Ok(Active::Next(Action::ForkList(list.share()?)));
    }
    let launch = Launch::Background(list.share()?);
    match commands_of(alloc, pipeline) {
        Ok(commands) => Ok(Active::Next(staging(alloc, launch, commands))),
        Err(lack) => {
            drop(launch);
            Err(lack)
        },
    }
}

/// An AND-OR list of a list.
#[cycle(entering)]
fn enter_item(alloc: Global, frames: &mut Frames, item: &ListItem) -> Result<Step, NoMemory>
    ensures { IfOk result (λ step. Goes step frames.new frames.old (item_run item.now)) }
{
    match item.separator {
        Separator::Sequential => enter_and_or(alloc, frames, item.list.get()),
        Separator::Asynchronous => Ok(Step::Inward(in_background(alloc, &item.list)?)),
    }
}

/// Copies of AND-OR lists that come after one.
fn push_items(alloc: Global, frames: &mut Frames, items: &[ListItem]) -> Result<(), NoMemory>
    ensures { OnOk result (frames.new ≡ Form.Commands items.now ∷ frames.old) }
{
    let items = Queue::of_copies(alloc, items)?;
    frames.push(Form::Commands(items))
}

/// A list of commands that is inside a command. The only error is want of memory.
#[cycle(entering)]
pub fn enter_list(alloc: Global, frames: &mut Frames, list: &CompoundList) -> Result<Step, NoMemory>
    ensures { IfOk result (λ step. Goes step frames.new frames.old (list_run list.now)) }
{
    let Some((item, others)) = list.items.as_slice().split_first() else {
        return Ok(Step::Outward(Active::Done(CommandStatus::unexcused(0))));
    };
    push_items(alloc, frames, others)?;
    let step = enter_item(alloc, frames, item)?;
    Ok(step.inside())
}

/// AND-OR lists one after another, entered after a command that ended so. The only error is want of memory.
pub fn enter(
    alloc: Global,
    frames: &mut Frames,
    items: Queue<ListItem>,
    status: CommandStatus,
) -> Result<Step, NoMemory>
    ensures { IfOk result (λ step. Goes step frames.new frames.old (items_run items status)) }
{
    let mut items = items;
    let Some(item) = items.take() else {
        return Ok(Step::Outward(Active::Done(status)));
    };
    match frames.push(Form::Commands(items)) {
        Ok(()) => {},
        Err(lack) => {
            drop(item);
            return Err(lack);
        },
    }
    let entered = enter_item(alloc, frames, &item);
    drop(item);
    match entered {
        Ok(step) => Ok(step.inside()),
        Err(lack) => Err(lack),
    }
}

/// A list that is entered inside a form. The only error is want of memory.
pub fn enter_inside(
    alloc: Global,
    frames: &mut Frames,
    form: Form,
    list: &Shared<CompoundList>,
) -> Result<Step, NoMemory>
    ensures { IfOk result (λ step. Goes step frames.new frames.old (Run.In form (list_run list.now))) }
{
    frames.push(form)?;
    let step = enter_list(alloc, frames, list.get())?;
    Ok(step.inside())
}
