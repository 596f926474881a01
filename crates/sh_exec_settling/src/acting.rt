//! Built-ins act, and functions and texts are entered.
ghost use Rattle.std.specs.Prelude.{◌≡◌, ◌∷◌, IfOk, OnOk, drop};
ghost use Rattle.sh_exec_actions.specs.Preparing.{fatal};
ghost use Rattle.sh_exec_settling.specs.Builtins.{builtin_effect, builtin_machine, call, effect_at, evaluation, machine_at, performed, with_parameters};
ghost use Rattle.sh_exec_settling.specs.Forms.{HasPerformed};
ghost use Rattle.sh_exec_forms.specs.Frames.{last_for, levels_left};
ghost use Rattle.sh_exec_signals.specs.Reporting.{behind};
ghost use Rattle.sh_exec_parts.specs.Messages.{refusal_text};
ghost use Rattle.sh_exec_parts.specs.declared.message.Refusal.TheVariants as refusal;
ghost use Rattle.sh_kernel.specs.State.{KernelState, StandsAt};

use sh_base::NoMemory;
use sh_base::sequence::{Sequence, Text, copies_of};
use sh_base::shared::Shared;
use sh_builtin::invoke;
use sh_builtin_outcome::{Invocation, TextRun};
use sh_builtin_shell::Shell;
use sh_exec_actions::{Action, Active, Form, fatal_message};
use sh_exec_forms::{Frames, Step, enter_command};
use sh_exec_parts::Rest;
use sh_exec_parts::message::{Refusal, refused};
use sh_exec_signals::{behind, heed_traps};
use sh_kernel::Kernel;
use sh_syntax::tree::Command;
use std::alloc::Global;

/// The arguments after a built-in's name.
fn arguments_of(fields: &[Text]) -> &[Text]
    ensures { result.now ≡ drop 1 fields.now }
{
    match fields.split_first() {
        Some((_, arguments)) => arguments,
        None => fields,
    }
}

/// What is nested too deep is refused.
fn too_deep(alloc: Global) -> Result<Step, NoMemory>
    ensures { IfOk result (λ step.
        step ≡ Step.Inward (fatal (refusal_text refusal.TooDeep))) }
{
    let piece = refused(alloc, Refusal::TooDeep)?;
    Ok(Step::Inward(fatal_message(piece)))
}

/// A text is entered, unless it is nested too deep.
fn evaluate(
    alloc: Global,
    shell: &Shell,
    frames: &mut Frames,
    how: TextRun,
    text: Text,
) -> Result<Step, NoMemory>
    ensures { IfOk result (λ step. HasPerformed shell.now frames.new frames.old step
        (evaluation (levels_left frames.old) shell.now how text)) }
{
    if frames.levels_left() == 0 {
        drop(text);
        return too_deep(alloc);
    }
    match frames.push(Form::Evaluation(how)) {
        Ok(()) => Ok(Step::Inward(Active::Next(Action::Reading(Rest::new(text), 0)))),
        Err(lack) => {
            drop(text);
            Err(lack)
        },
    }
}

/// The positional parameters of a function take the place of those of its caller.
fn push_call(
    alloc: Global,
    shell: &mut Shell,
    frames: &mut Frames,
    arguments: &[Text],
) -> Result<(), NoMemory>
    ensures frames { OnOk result (frames.new ≡ Form.Call shell.old.vars.positional ∷ frames.old) }
    ensures shell { OnOk result (shell.new ≡ with_parameters shell.old arguments.now) }
{
    let callers = Sequence::from_vec(copies_of(alloc, shell.vars.positional())?);
    let parameters = match copies_of(alloc, arguments) {
        Ok(parameters) => parameters,
        Err(error) => {
            drop(callers);
            return Err(NoMemory::from(error));
        },
    };
    match frames.push(Form::Call(callers)) {
        Ok(()) => {
            shell.vars.set_positional(parameters);
            Ok(())
        },
        Err(lack) => {
            drop(parameters);
            Err(lack)
        },
    }
}

/// A function is entered, unless it is nested too deep.
fn call(
    alloc: Global,
    shell: &mut Shell,
    frames: &mut Frames,
    body: &Shared<Command>,
    arguments: &[Text],
) -> Result<Step, NoMemory>
    ensures { IfOk result (λ step. HasPerformed shell.new frames.new frames.old step
        (call (levels_left frames.old) shell.old body.now arguments.now)) }
{
    if frames.levels_left() == 0 {
        return too_deep(alloc);
    }
    push_call(alloc, shell, frames, arguments)?;
    let step = enter_command(alloc, frames, body)?;
    Ok(step.inside())
}

/// Where a shell goes on from a place at which no built-in acts.
fn step_at(
    alloc: Global,
    shell: &mut Shell,
    frames: &mut Frames,
    active: Active,
) -> Result<Step, NoMemory>
    ensures { IfOk result (λ step. HasPerformed shell.new frames.new frames.old step
        (performed (levels_left frames.old) shell.old active)) }
{
    match active {
        Active::Acting(invocation, fields) => {
            Ok(Step::Inward(Active::Acting(invocation, fields)))
        },
        Active::Calling(body, fields) => {
            let arguments = arguments_of(fields.as_slice());
            let step = call(alloc, shell, frames, &body, arguments)?;
            Ok(step)
        },
        Active::Evaluating(how, text) => evaluate(alloc, shell, frames, how, text),
        Active::Next(place) => Ok(Step::Inward(Active::Next(place))),
        Active::Done(ended) => Ok(Step::Outward(Active::Done(ended))),
        Active::Leaving(leave) => Ok(Step::Outward(Active::Leaving(leave))),
    }
}

/// A built-in acts.
#[tactic(auto, unfolding(crate::specs::Builtins::builtin_effect, crate::specs::Builtins::builtin_machine))]
fn act_builtin(
    alloc: Global,
    kernel: &mut Kernel,
    shell: &mut Shell,
    frames: &mut Frames,
    invocation: Invocation,
    fields: &[Text],
) -> Result<Step, NoMemory>
    ensures performed { (s : KernelState) → StandsAt kernel.old s → IfOk result (λ step.
        HasPerformed shell.new frames.new frames.old step
        (builtin_effect frames.old s shell.old invocation fields.now)) }
    ensures state { (s : KernelState) → StandsAt kernel.old s → OnOk result
        (StandsAt kernel.new (builtin_machine frames.old s shell.old invocation fields.now)) }
    ensures terminal { kernel.new.terminal ≡ kernel.old.terminal }
    ensures watch { kernel.new.watch ≡ kernel.old.watch }
{
    let last = frames.last_for(invocation.builtin, shell.vars.status());
    let outcome = invoke(alloc, kernel, shell, last, invocation, arguments_of(fields))?;
    heed_traps(kernel, shell, outcome.signals);
    let step = step_at(alloc, shell, frames, behind(invocation.builtin, outcome))?;
    Ok(step)
}

/// Where a shell goes on from its active place, where a built-in has acted and a text is entered if one is to.
pub(crate) fn perform(
    alloc: Global,
    kernel: &mut Kernel,
    shell: &mut Shell,
    frames: &mut Frames,
    active: Active,
) -> Result<Step, NoMemory>
    ensures performed { (s : KernelState) → StandsAt kernel.old s → IfOk result (λ step.
        HasPerformed shell.new frames.new frames.old step
        (effect_at frames.old s shell.old active)) }
    ensures state { (s : KernelState) → StandsAt kernel.old s → OnOk result
        (StandsAt kernel.new (machine_at frames.old s shell.old active)) }
    ensures terminal { kernel.new.terminal ≡ kernel.old.terminal }
    ensures watch { kernel.new.watch ≡ kernel.old.watch }
{
    match active {
        Active::Acting(invocation, fields) => {
            let step = act_builtin(alloc, kernel, shell, frames, invocation, fields.as_slice())?;
            Ok(step)
        },
        other => {
            let step = step_at(alloc, shell, frames, other)?;
            Ok(step)
        },
    }
}
