//! Loops, break and continue in them, and failures that are ignored.
ghost use Rattle.std.specs.Prelude.{◌≡◌, IfOk, List};
ghost use Rattle.sh_exec_actions.specs.declared.form.Form.{Form};
ghost use Rattle.sh_exec_actions.specs.Statuses.{unexcused};
ghost use Rattle.sh_exec_actions.specs.ForLoops.{rest_of_series};
ghost use Rattle.sh_exec_settling.specs.Forms.{Acted, Follows, behind_condition, beyond, condition_run, ended_within, left_within, loop_left, onward, onward_by, runs, within};
ghost use Rattle.sh_exec_forms.specs.Stacks.{Goes, Leaves};
ghost use Rattle.sh_exec_forms.specs.Frames.{ends_action, has_loop, is_failure_ignored, may_return};
ghost use Rattle.sh_exec_forms.specs.Running.{Run};
ghost use Rattle.sh_kernel.specs.State.{KernelState};

use sh_base::NoMemory;
use sh_builtin_outcome::Leave;
use sh_builtin_shell::Shell;
use sh_exec_actions::{Active, CommandStatus, ForLoop, Form, Loop, rest_of_series};
use sh_exec_forms::{Frames, Step, enter_inside};
use sh_syntax::tree::LoopKind;
use std::alloc::Global;

/// Where a loop goes on that is left.
pub(crate) enum Onward {
    /// The shell is left, or a loop around this one.
    Left(Leave),
    /// The loop is done.
    Over,
    /// It goes on with its next run.
    On,
}

/// A command that ended: a failure is excused where failures are ignored, and else ends the shell if `set -e` says so (XCU 2.15,
/// set).
fn end_where(ignored: bool, errexit: bool, ended: CommandStatus) -> Active
    ensures { result ≡ ended_within errexit ignored ended }
{
    if ended.status == 0 {
        return Active::Done(ended);
    }
    if ignored {
        return Active::Done(CommandStatus {
            status: ended.status,
            excused: true,
        });
    }
    if errexit && !ended.excused {
        return Active::Leaving(Leave::Exit(ended.status));
    }
    Active::Done(ended)
}

/// A command that ended inside forms.
pub(crate) fn end_within(frames: &Frames, errexit: bool, ended: CommandStatus) -> Active
    ensures { result ≡ ended_within errexit (is_failure_ignored frames.now) ended }
{
    end_where(frames.is_failure_ignored(), errexit, ended)
}

/// break and continue do nothing where no loop is around, and return is exit where neither a function nor a dot script is.
fn leave_within(frames: &Frames, leave: Leave) -> Active
    ensures { result ≡ left_within (may_return frames.now) (has_loop frames.now) leave }
{
    match leave {
        Leave::Exit(status) => Active::Leaving(Leave::Exit(status)),
        Leave::Fault(status) => Active::Leaving(Leave::Fault(status)),
        Leave::Return(status) => {
            if frames.may_return() {
                return Active::Leaving(Leave::Return(status));
            }
            Active::Leaving(Leave::Exit(status))
        },
        Leave::Break(inside) => {
            if frames.has_loop() {
                return Active::Leaving(Leave::Break(inside));
            }
            Active::Done(CommandStatus::unexcused(0))
        },
        Leave::Continue(inside) => {
            if frames.has_loop() {
                return Active::Leaving(Leave::Continue(inside));
            }
            Active::Done(CommandStatus::unexcused(0))
        },
    }
}

/// What a place comes to inside the forms that are around it, with or without `set -e`.
pub(crate) fn within(frames: &Frames, errexit: bool, active: Active) -> Active
    ensures { result ≡ within errexit frames.now active }
{
    match active {
        Active::Acting(invocation, fields) => Active::Acting(invocation, fields),
        Active::Calling(body, fields) => Active::Calling(body, fields),
        Active::Evaluating(how, text) => Active::Evaluating(how, text),
        Active::Next(place) => Active::Next(place),
        Active::Done(ended) => {
            let ignored = frames.is_failure_ignored() || frames.ends_action();
            end_where(ignored, errexit, ended)
        },
        Active::Leaving(leave) => leave_within(frames, leave),
    }
}

/// From outside of a loop that is left: how many loops are inside the one that is meant, if it isn't this one.
fn beyond(frames: &Frames, inside: u64) -> Option<u64>
    ensures { result ≡ beyond (has_loop frames.now) inside }
{
    if inside == 0 || !frames.has_loop() {
        return None;
    }
    Some(inside - 1)
}

/// Where a loop goes on that is left, with these forms around it.
fn where_to(frames: &Frames, leave: Leave) -> Onward
    ensures { result ≡ onward (has_loop frames.now) leave }
{
    match leave {
        Leave::Exit(status) => Onward::Left(Leave::Exit(status)),
        Leave::Fault(status) => Onward::Left(Leave::Fault(status)),
        Leave::Return(status) => Onward::Left(Leave::Return(status)),
        Leave::Break(inside) => match beyond(frames, inside) {
            Some(inside) => Onward::Left(Leave::Break(inside)),
            None => Onward::Over,
        },
        Leave::Continue(inside) => match beyond(frames, inside) {
            Some(inside) => Onward::Left(Leave::Continue(inside)),
            None => Onward::On,
        },
    }
}

/// A `while` or `until` loop that is left, whose body had this status.
pub(crate) fn leave_loop(
    alloc: Global,
    shell: &mut Shell,
    frames: &mut Frames,
    looping: Loop,
    last: CommandStatus,
    leave: Leave,
) -> Result<Step, NoMemory>
    ensures follows { (s : KernelState) → IfOk result (λ step. Follows s shell.new frames.new frames.old step
        (loop_left s shell.old (condition_run looping last) (onward (has_loop frames.old) leave))) }
    ensures kept { IfOk result (λ step. Leaves step frames.new frames.old) }
{
    match where_to(frames, leave) {
        Onward::Left(leave) => Ok(Step::Outward(Active::Leaving(leave))),
        Onward::Over => Ok(Step::Outward(Active::Done(CommandStatus::unexcused(0)))),
        Onward::On => {
            shell.vars.set_status(0);
            let step = repeat(alloc, frames, looping, last)?;
            Ok(step)
        },
    }
}

/// A `for` that is left.
pub(crate) fn leave_series(
    shell: &mut Shell,
    frames: &Frames,
    series: ForLoop,
    leave: Leave,
) -> Step
    ensures { (s : KernelState) → Follows s shell.new frames.now frames.now result
        (loop_left s shell.old (Run.At (rest_of_series series (unexcused 0))) (onward (has_loop frames.now) leave)) }
{
    match where_to(frames, leave) {
        Onward::Left(leave) => Step::Outward(Active::Leaving(leave)),
        Onward::Over => Step::Outward(Active::Done(CommandStatus::unexcused(0))),
        Onward::On => {
            shell.vars.set_status(0);
            next_value(series, CommandStatus::unexcused(0))
        },
    }
}

/// A `for` goes on with its next value, or is done with this status where none is left.
pub(crate) fn next_value(series: ForLoop, status: CommandStatus) -> Step
    ensures { (forms : List Form) → Goes result forms forms (Run.At (rest_of_series series status)) }
{
    match rest_of_series(series, status) {
        Active::Next(place) => Step::Inward(Active::Next(place)),
        active => Step::Outward(active),
    }
}

/// Whether a loop runs its body behind a condition with this status.
fn runs(kind: LoopKind, status: u8) -> bool
    ensures { result ≡ runs kind status }
{
    match kind {
        LoopKind::While => status == 0,
        LoopKind::Until => status != 0,
    }
}

/// What a loop goes on with after its condition.
#[tactic(auto, unfolding(crate::specs::Forms::behind_condition))]
pub(crate) fn test(
    alloc: Global,
    frames: &mut Frames,
    looping: Loop,
    last: CommandStatus,
    status: u8,
) -> Result<Step, NoMemory>
    ensures { IfOk result (λ step.
        Goes step frames.new frames.old (behind_condition looping last status)) }
{
    if !runs(looping.kind, status) {
        return Ok(Step::Outward(Active::Done(last)));
    }
    let body = looping.body.share()?;
    enter_inside(alloc, frames, Form::Body(looping), &body)
}

/// What a loop goes on with after its body.
#[tactic(auto, unfolding(crate::specs::Forms::condition_run))]
pub(crate) fn repeat(
    alloc: Global,
    frames: &mut Frames,
    looping: Loop,
    last: CommandStatus,
) -> Result<Step, NoMemory>
    ensures { IfOk result (λ step. Goes step frames.new frames.old (condition_run looping last)) }
{
    let condition = looping.condition.share()?;
    enter_inside(alloc, frames, Form::Condition(looping, last), &condition)
}
