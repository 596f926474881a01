//! What a form becomes when what runs inside it is done, or leaves it.
ghost use Rattle.std.specs.Prelude.{◌≡◌, [], IfOk};
ghost use Rattle.sh_kernel.specs.State.{KernelState, StandsAt};
ghost use Rattle.sh_syntax.specs.declared.tree.Command.TheViews as view;
ghost use Rattle.sh_exec_forms.specs.Entering.{list_run, pipeline_run, with_others};
ghost use Rattle.sh_exec_settling.specs.Forms.{Acted, Follows, HasGone, IsActed, IsOnWay, after_call, after_leave, after_status, after_text, at_action, branch, connected_run, goes_on, negation, otherwise, outward, undone, with_run};
ghost use Rattle.sh_exec_forms.specs.Stacks.{Goes, IsFewer, Leaves, run_of};
ghost use Rattle.sh_exec_forms.specs.Frames.{has_loop};
ghost use Rattle.sh_exec_forms.specs.Running.{Run};

use crate::acting::perform;
use crate::input::{go_on, leave_input, leave_place, leave_text};
use crate::loops::{end_within, leave_loop, leave_series, next_value, repeat, test, within};
use sh_base::NoMemory;
use sh_base::shared::Shared;
use sh_builtin_outcome::{Leave, TextOrigin};
use sh_builtin_shell::Shell;
use sh_exec_actions::{Action, Active, Branches, CommandStatus, Form, Undo};
use sh_exec_forms::{Frames, Step, enter, enter_inside, enter_joined, enter_list};
use sh_exec_machine::end_redirections;
use sh_exec_parts::{Queue, restore_variables};
use sh_kernel::Kernel;
use sh_syntax::tree::{CompoundList, Connected, Connector, ElseIf};
use std::alloc::Global;

/// How a pipeline after `!` ends. A failure that this makes of a success is excused (2.15, set -e).
fn negation(ended: CommandStatus) -> CommandStatus
    ensures { result ≡ negation ended.status }
{
    if ended.status != 0 {
        return CommandStatus::unexcused(0);
    }
    CommandStatus {
        status: 1,
        excused: true,
    }
}

/// Whether what is after a connector is run after this status (2.9.3).
fn goes_on(connector: Connector, status: u8) -> bool
    ensures { result ≡ goes_on connector status }
{
    match connector {
        Connector::And => status == 0,
        Connector::Or => status != 0,
    }
}

/// A pipeline of an AND-OR list that is run, with those after it.
fn enter_next(
    alloc: Global,
    frames: &mut Frames,
    next: Connected,
    others: Queue<Connected>,
) -> Result<Step, NoMemory>
    ensures { IfOk result (λ step. Goes step frames.new frames.old
        (with_others others (pipeline_run (view.out-Connected next).pipeline))) }
{
    let entered = enter_joined(alloc, frames, next.pipeline.get(), others);
    drop(next);
    entered
}

/// The first of some pipelines that is run after this status, and those after it.
fn connect(
    alloc: Global,
    frames: &mut Frames,
    others: Queue<Connected>,
    ended: CommandStatus,
) -> Result<Step, NoMemory>
    ensures { IfOk result (λ step. Goes step frames.new frames.old (connected_run others ended)) }
{
    let mut others = others;
    'others: while let Some(next) = others.take() {
        if goes_on(next.connector, ended.status) {
            return enter_next(alloc, frames, next, others);
        }
    }
    Ok(Step::Outward(Active::Done(ended)))
}

/// What an `if` goes on with after a condition that failed.
fn otherwise(
    alloc: Global,
    frames: &mut Frames,
    else_ifs: Queue<ElseIf>,
    else_body: Option<Shared<CompoundList>>,
) -> Result<Step, NoMemory>
    ensures { IfOk result (λ step. Goes step frames.new frames.old (otherwise else_ifs else_body)) }
{
    let mut else_ifs = else_ifs;
    match else_ifs.take() {
        Some(next) => {
            let ElseIf { condition, body } = next;
            let branches = Branches {
                body,
                else_ifs,
                else_body,
            };
            let step = enter_inside(alloc, frames, Form::If(branches), &condition);
            drop(condition);
            step
        },
        None => match else_body {
            Some(list) => enter_list(alloc, frames, list.get()),
            None => Ok(Step::Outward(Active::Done(CommandStatus::unexcused(0)))),
        },
    }
}

/// What an `if` goes on with after a condition with this status.
#[tactic(auto, unfolding(crate::specs::Forms::branch))]
fn branch(
    alloc: Global,
    frames: &mut Frames,
    branches: Branches,
    status: u8,
) -> Result<Step, NoMemory>
    ensures { IfOk result (λ step. Goes step frames.new frames.old (branch branches status)) }
{
    let Branches {
        body,
        else_ifs,
        else_body,
    } = branches;
    if status == 0 {
        drop(else_ifs);
        drop(else_body);
        return enter_list(alloc, frames, body.get());
    }
    drop(body);
    otherwise(alloc, frames, else_ifs, else_body)
}

/// What a command changed is undone.
#[tactic(auto, unfolding(crate::specs::Forms::undone))]
fn undo(
    kernel: &mut Kernel,
    shell: &mut Shell,
    undo: Undo,
    active: Active,
) -> Result<Active, NoMemory>
    ensures state { (s : KernelState) → StandsAt kernel.old s → IfOk result (λ next.
        IsActed kernel.new shell.new (Run.At next) (undone undo s shell.old (Run.At active))) }
    ensures terminal { kernel.new.terminal ≡ kernel.old.terminal }
    ensures watch { kernel.new.watch ≡ kernel.old.watch }
{
    let Undo {
        descriptors,
        variables,
        redirections_stay,
        ..
    } = undo;
    end_redirections(kernel, shell.pid, descriptors, redirections_stay);
    match restore_variables(&mut shell.vars, variables) {
        Ok(()) => Ok(active),
        Err(refusal) => {
            drop(active);
            Err(refusal)
        },
    }
}

/// What a function comes to whose body is left.
fn leave_call(frames: &Frames, shell: &Shell, leave: Leave) -> Active
    ensures { result ≡ after_call frames.now leave shell.now }
{
    match leave {
        Leave::Exit(status) => Active::Leaving(Leave::Exit(status)),
        Leave::Fault(status) => Active::Leaving(Leave::Fault(status)),
        Leave::Return(status) => {
            let errexit = shell.vars.options().exit_on_error;
            end_within(frames, errexit, CommandStatus::unexcused(status))
        },
        Leave::Break(inside) => Active::Leaving(Leave::Break(inside)),
        Leave::Continue(inside) => Active::Leaving(Leave::Continue(inside)),
    }
}

/// What a text comes to that is left: a dot script is ended by `return`.
fn leave_evaluation(frames: &Frames, shell: &Shell, origin: TextOrigin, leave: Leave) -> Active
    ensures { result ≡ after_text frames.now origin leave shell.now }
{
    match origin {
        TextOrigin::Eval => Active::Leaving(leave),
        TextOrigin::DotScript => leave_call(frames, shell, leave),
    }
}

/// A form in which all is done.
#[tactic(auto, using(crate::proofs::Outward::leaves))]
fn end_form(
    alloc: Global,
    kernel: &mut Kernel,
    shell: &mut Shell,
    frames: &mut Frames,
    form: Form,
    ended: CommandStatus,
) -> Result<Step, NoMemory>
    ensures state { (s : KernelState) → StandsAt kernel.old s → IfOk result (λ step.
        HasGone kernel.new shell.new frames.new frames.old step
        (after_status frames.old form s shell.old ended)) }
    ensures kept { IfOk result (λ step. Leaves step frames.new frames.old) }
    ensures terminal { kernel.new.terminal ≡ kernel.old.terminal }
    ensures watch { kernel.new.watch ≡ kernel.old.watch }
{
    match form {
        Form::Text(rest) => Ok(Step::Inward(Active::Next(Action::Reading(rest, ended.status)))),
        Form::Input(rest) => Ok(go_on(kernel, shell, frames, rest, ended.status)),
        Form::Commands(items) => {
            shell.vars.set_status(ended.status);
            let step = enter(alloc, frames, items, ended)?;
            Ok(step)
        },
        Form::Joined(others) => {
            shell.vars.set_status(ended.status);
            let step = connect(alloc, frames, others, ended)?;
            Ok(step)
        },
        Form::Negated => Ok(Step::Outward(Active::Done(negation(ended)))),
        Form::Restoring(change) => {
            let active = undo(kernel, shell, change, Active::Done(ended))?;
            Ok(Step::Outward(active))
        },
        Form::If(branches) => {
            shell.vars.set_status(ended.status);
            let step = branch(alloc, frames, branches, ended.status)?;
            Ok(step)
        },
        Form::Condition(looping, last) => {
            shell.vars.set_status(ended.status);
            let step = test(alloc, frames, looping, last, ended.status)?;
            Ok(step)
        },
        Form::Body(looping) => {
            shell.vars.set_status(ended.status);
            let step = repeat(alloc, frames, looping, ended)?;
            Ok(step)
        },
        Form::ForBody(series) => {
            shell.vars.set_status(ended.status);
            Ok(next_value(series, ended))
        },
        Form::Call(positional) => {
            let errexit = shell.vars.options().exit_on_error;
            shell.vars.set_positional(positional.into_vec());
            let ended = CommandStatus::unexcused(ended.status);
            Ok(Step::Outward(end_within(frames, errexit, ended)))
        },
        Form::Evaluation(_) => Ok(Step::Outward(Active::Done(ended))),
        Form::Trapped(status) => Ok(Step::Inward(Active::Next(Action::Ending(status)))),
        Form::Interruption(status, next) => {
            shell.vars.set_status(status);
            Ok(Step::Inward(Active::Next(next.into_inner())))
        },
        Form::FailuresIgnored => Ok(Step::Outward(Active::Done(ended))),
    }
}

/// A form that is left before its end.
#[tactic(auto, using(crate::proofs::Outward::leaves))]
fn leave_form(
    alloc: Global,
    kernel: &mut Kernel,
    shell: &mut Shell,
    frames: &mut Frames,
    form: Form,
    leave: Leave,
) -> Result<Step, NoMemory>
    ensures state { (s : KernelState) → StandsAt kernel.old s → IfOk result (λ step.
        HasGone kernel.new shell.new frames.new frames.old step
        (after_leave frames.old form s shell.old leave)) }
    ensures kept { IfOk result (λ step. Leaves step frames.new frames.old) }
    ensures terminal { kernel.new.terminal ≡ kernel.old.terminal }
    ensures watch { kernel.new.watch ≡ kernel.old.watch }
{
    match form {
        Form::Text(rest) => Ok(leave_text(shell, frames, rest, leave)),
        Form::Input(_) => Ok(leave_input(alloc, kernel, shell, frames, leave)),
        Form::Commands(_) => Ok(Step::Outward(Active::Leaving(leave))),
        Form::Joined(_) => Ok(Step::Outward(Active::Leaving(leave))),
        Form::Negated => Ok(Step::Outward(Active::Leaving(leave))),
        Form::Restoring(change) => {
            let active = undo(kernel, shell, change, Active::Leaving(leave))?;
            Ok(Step::Outward(active))
        },
        Form::If(_) => Ok(Step::Outward(Active::Leaving(leave))),
        Form::Condition(looping, last) => {
            let step = leave_loop(alloc, shell, frames, looping, last, leave)?;
            Ok(step)
        },
        Form::Body(looping) => {
            let ended = CommandStatus::unexcused(0);
            let step = leave_loop(alloc, shell, frames, looping, ended, leave)?;
            Ok(step)
        },
        Form::ForBody(series) => Ok(leave_series(shell, frames, series, leave)),
        Form::Call(positional) => {
            let active = leave_call(frames, shell, leave);
            shell.vars.set_positional(positional.into_vec());
            Ok(Step::Outward(active))
        },
        Form::Evaluation(how) => {
            Ok(Step::Outward(leave_evaluation(frames, shell, how.origin, leave)))
        },
        Form::Trapped(_) => {
            Ok(Step::Inward(Active::Next(Action::Ending(leave.shell_status()))))
        },
        Form::Interruption(_, next) => {
            Ok(leave_place(alloc, kernel, shell, frames, next.into_inner(), leave))
        },
        Form::FailuresIgnored => Ok(Step::Outward(Active::Leaving(leave))),
    }
}

/// What is over goes to the innermost form.
#[tactic(auto, using(crate::proofs::Outward::ended_on_way, crate::proofs::Outward::left_on_way, crate::proofs::Outward::fewer))]
fn go_outward(
    alloc: Global,
    kernel: &mut Kernel,
    shell: &mut Shell,
    frames: &mut Frames,
    active: Active,
) -> Result<Step, NoMemory>
    ensures state { (s : KernelState) → StandsAt kernel.old s → IfOk result (λ step.
        IsOnWay kernel.new shell.new frames.new step
        (outward frames.old (with_run s shell.old (Run.At active)))) }
    ensures fewer { IfOk result (λ step. IsFewer step frames.new frames.old) }
    ensures terminal { kernel.new.terminal ≡ kernel.old.terminal }
    ensures watch { kernel.new.watch ≡ kernel.old.watch }
{
    match active {
        Active::Next(place) => Ok(Step::Inward(Active::Next(place))),
        Active::Acting(invocation, fields) => Ok(Step::Inward(Active::Acting(invocation, fields))),
        Active::Calling(body, fields) => Ok(Step::Inward(Active::Calling(body, fields))),
        Active::Evaluating(how, text) => Ok(Step::Inward(Active::Evaluating(how, text))),
        Active::Done(ended) => match frames.pop() {
            Some(form) => end_form(alloc, kernel, shell, frames, form, ended),
            None => Ok(Step::Inward(Active::Done(ended))),
        },
        Active::Leaving(leave) => match frames.pop() {
            Some(form) => leave_form(alloc, kernel, shell, frames, form, leave),
            None => Ok(Step::Inward(Active::Leaving(leave))),
        },
    }
}

/// What is over goes outward from form to form, up to one that goes on.
fn settle_outward(
    alloc: Global,
    kernel: &mut Kernel,
    shell: &mut Shell,
    frames: &mut Frames,
    active: Active,
) -> Result<Active, NoMemory>
    ensures state { (s : KernelState) → StandsAt kernel.old s → IfOk result (λ next.
        IsActed kernel.new shell.new (run_of frames.new next)
        (outward frames.old (with_run s shell.old (Run.At active)))) }
    ensures terminal { kernel.new.terminal ≡ kernel.old.terminal }
    ensures watch { kernel.new.watch ≡ kernel.old.watch }
{
    let mut active = active;
    'outward: loop {
        match go_outward(alloc, kernel, shell, frames, active)? {
            Step::Inward(next) => return Ok(next),
            Step::Outward(next) => {
                active = next;
            },
        }
    }
}

/// A built-in acts where one is to, a text that it runs is entered, and statuses go outward until the place is an action. The only error
/// is want of memory, after which the shell is given up.
pub fn settle(
    alloc: Global,
    kernel: &mut Kernel,
    shell: &mut Shell,
    frames: &mut Frames,
    active: Active,
) -> Result<Active, NoMemory>
    ensures state { (s : KernelState) → StandsAt kernel.old s → IfOk result (λ next.
        IsActed kernel.new shell.new (run_of frames.new next)
        (at_action [] s shell.old (run_of frames.old active))) }
    ensures terminal { kernel.new.terminal ≡ kernel.old.terminal }
    ensures watch { kernel.new.watch ≡ kernel.old.watch }
{
    match perform(alloc, kernel, shell, frames, active)? {
        Step::Inward(active) => Ok(active),
        Step::Outward(active) => {
            let errexit = shell.vars.options().exit_on_error;
            let active = within(frames, errexit, active);
            let active = settle_outward(alloc, kernel, shell, frames, active)?;
            Ok(active)
        },
    }
}
