//! One turn: inward to the active place, the action there, and outward again.
ghost use Rattle.std.specs.Prelude.{◌≡◌, [], IfOk};
ghost use Rattle.sh_kernel.specs.State.{KernelState, StandsAt};
ghost use Rattle.sh_tty.specs.Terminal.{Extends};
ghost use Rattle.sh_exec_turns.specs.Forms.{IsActed};
ghost use Rattle.sh_exec_turns.specs.Series.{give_turn};
ghost use Rattle.sh_exec_turns.specs.Acting.{defined, expand_turn, given_round, in_forms, round_run};
ghost use Rattle.sh_exec_shell.specs.Forks.{IsTurned, inheriting, inside};
ghost use Rattle.sh_exec_shell.specs.Reduction.{act_at, act_behind, act_place, expanded_by, expansion, plain, reduce};
ghost use Rattle.sh_exec_turns.specs.Traps.{trap_before};
ghost use Rattle.sh_exec_forms.specs.Running.{Run};
ghost use Rattle.sh_exec_forms.specs.Stacks.{run_in, run_of};
ghost use Rattle.sh_exec_forms.specs.Frames.{is_failure_ignored};

use crate::forks::{fork_turn, list_turn, stage_turn, substitute_turn};
use crate::interpreter::Interpreter;
use sh_base::NoMemory;
use sh_base::shared::Shared;
use sh_builtin_shell::{Functions, Shell};
use sh_exec_actions::{Action, Active, Boxed, CommandStatus, Expanded, ForLoop, Form, ToExpand};
use sh_exec_forms::{Frames, enter_list, go_to};
use sh_exec_turns::{
    Round, answer_turn, ask_turn, assign_turn, case_turn, collect_turn, define_turn, end_turn,
    give_turn, goes_on_reading, input_turn, interrupt, job_wait_turn, pattern_turn, prompt_turn,
    read, redirect_turn, redirects_turn, series_turn, settle, trap, trap_before, wait_turn,
    words_turn, write_turn,
};
use sh_expand::Pending;
use sh_files::Files;
use sh_kernel::Kernel;
use sh_syntax::tree::Command;
use sh_vars::Vars;
use std::alloc::Global;

/// An expansion turn.
fn expand(
    alloc: Global,
    wants: ToExpand,
    pending: Option<Pending>,
    vars: &mut Vars,
    functions: &Functions,
    files: &Files,
) -> Result<Expanded, NoMemory>
    ensures { IfOk result (λ e.
        record { environment = vars.new; outcome = e } ≡ expand_turn files.now vars.old
        functions.now wants pending) }
{
    match wants {
        ToExpand::Words {
            command,
            in_place,
            status,
        } => words_turn(
            alloc, command, in_place, status, pending, vars, functions, files,
        ),
        ToExpand::Values(prepared) => assign_turn(alloc, prepared, pending, vars, files),
        ToExpand::Redirects(command) => redirects_turn(alloc, command, pending, vars, files),
        ToExpand::ForWords(command) => series_turn(alloc, command, pending, vars, files),
        ToExpand::CaseWord(command) => case_turn(alloc, command, pending, vars, files),
        ToExpand::CasePattern(case) => pattern_turn(alloc, case, pending, vars, files),
    }
}

/// What follows an expansion.
fn expanded(
    alloc: Global,
    kernel: &mut Kernel,
    shell: &Shell,
    frames: &mut Frames,
    expanded: Expanded,
) -> Result<(Active, Option<Boxed<Interpreter>>), NoMemory>
    ensures state { (s : KernelState) → StandsAt kernel.old s → IfOk result (λ r.
        IsTurned kernel.new shell.now (run_of frames.new r.0) r.1
        (inside frames.old (inheriting (is_failure_ignored frames.old)
        (expanded_by s shell.now expanded)))) }
    ensures terminal { kernel.new.terminal ≡ kernel.old.terminal }
    ensures watch { kernel.new.watch ≡ kernel.old.watch }
{
    match expanded {
        Expanded::Need {
            program,
            wants,
            pending,
        } => {
            let (active, child) = substitute_turn(
                alloc, kernel, shell, frames, program, wants, pending,
            )?;
            Ok((active, child))
        },
        Expanded::Go(to) => {
            let active = go_to(alloc, frames, to)?;
            Ok((active, None))
        },
    }
}

/// An expansion turn, and what follows it.
fn expand_place(
    alloc: Global,
    kernel: &mut Kernel,
    shell: &mut Shell,
    frames: &mut Frames,
    wants: ToExpand,
    pending: Option<Pending>,
) -> Result<(Active, Option<Boxed<Interpreter>>), NoMemory>
    ensures state { (s : KernelState) → StandsAt kernel.old s → IfOk result (λ r.
        IsTurned kernel.new shell.new (run_of frames.new r.0) r.1
        (inside frames.old (inheriting (is_failure_ignored frames.old)
        (expansion s shell.old (expand_turn s.machine.files shell.old.vars shell.old.functions wants pending))))) }
    ensures terminal { kernel.new.terminal ≡ kernel.old.terminal }
    ensures watch { kernel.new.watch ≡ kernel.old.watch }
{
    let outcome = expand(
        alloc,
        wants,
        pending,
        &mut shell.vars,
        &shell.functions,
        kernel.files(),
    )?;
    let (active, child) = expanded(alloc, kernel, shell, frames, outcome)?;
    Ok((active, child))
}

/// What follows where a `for` gives its variable a value.
fn enter_round(alloc: Global, frames: &mut Frames, round: Round) -> Result<Active, NoMemory>
    ensures { IfOk result (λ active. run_of frames.new active ≡ run_in frames.old (round_run round)) }
{
    match round {
        Round::Body(series) => {
            let body = match series.body.share() {
                Ok(body) => body,
                Err(error) => {
                    drop(series);
                    return Err(NoMemory::from(error));
                },
            };
            frames.push(Form::ForBody(series))?;
            let step = enter_list(alloc, frames, body.get())?;
            Ok(step.into_active())
        },
        Round::Over(active) => Ok(active),
    }
}

/// The turn in which the variable of a `for` has its next value (XCU 2.9.4.2).
fn give(
    alloc: Global,
    kernel: &Kernel,
    shell: &mut Shell,
    frames: &mut Frames,
    series: ForLoop,
) -> Result<Active, NoMemory>
    ensures { (s : KernelState) → StandsAt kernel.now s → IfOk result (λ active.
        IsActed kernel.now shell.new (run_of frames.new active)
        (in_forms frames.old (given_round s shell.old (give_turn shell.old.vars series)))) }
{
    let round = give_turn(alloc, series, &mut shell.vars)?;
    let active = enter_round(alloc, frames, round)?;
    Ok(active)
}

/// The turn of a function definition.
fn define(
    alloc: Global,
    kernel: &Kernel,
    shell: &mut Shell,
    definition: Shared<Command>,
) -> Result<Active, NoMemory>
    ensures { (s : KernelState) → StandsAt kernel.now s → IfOk result (λ active.
        IsActed kernel.now shell.new (Run.At active) (defined s shell.old definition)) }
{
    define_turn(alloc, definition, &mut shell.functions)?;
    Ok(Active::Done(CommandStatus::unexcused(0)))
}

/// The action at a place.
fn act_place(
    alloc: Global,
    kernel: &mut Kernel,
    shell: &mut Shell,
    frames: &mut Frames,
    place: Action,
) -> Result<(Active, Option<Boxed<Interpreter>>), NoMemory>
    ensures state { (s : KernelState) → StandsAt kernel.old s → IfOk result (λ r.
        IsTurned kernel.new shell.new (run_of frames.new r.0) r.1
        (inside frames.old (inheriting (is_failure_ignored frames.old)
        (act_place frames.old s shell.old place)))) }
    ensures terminal { Extends kernel.old.terminal.bytes kernel.new.terminal.bytes }
    ensures watch { kernel.new.watch ≡ kernel.old.watch }
{
    match place {
        Action::Reading(rest, status) => {
            let reads_on = goes_on_reading(shell, frames);
            let active = read(alloc, frames, rest, status, reads_on, shell)?;
            Ok((active, None))
        },
        Action::Prompting(beginning) => {
            let active = prompt_turn(alloc, kernel, shell, beginning)?;
            Ok((active, None))
        },
        Action::ReadInput(beginning) => {
            let active = input_turn(alloc, kernel, shell, frames, beginning)?;
            Ok((active, None))
        },
        Action::Expanding(wants, pending) => {
            let (active, child) = expand_place(alloc, kernel, shell, frames, wants, pending)?;
            Ok((active, child))
        },
        Action::ReadSubstitution(substitution) => {
            let active = collect_turn(alloc, kernel, shell, substitution)?;
            Ok((active, None))
        },
        Action::WaitSubstitution(substitution) => {
            let place = answer_turn(kernel, shell.pid, substitution)?;
            Ok((Active::Next(place), None))
        },
        Action::Asking(rest) => {
            let active = ask_turn(alloc, kernel, shell, rest)?;
            Ok((active, None))
        },
        Action::WaitForJob(wait) => {
            let active = job_wait_turn(alloc, kernel, shell, wait)?;
            Ok((active, None))
        },
        Action::Redirecting(prepared) => {
            let active = redirect_turn(alloc, kernel, shell, frames, prepared)?;
            Ok((active, None))
        },
        Action::Forking(prepared) => {
            let (active, child) = fork_turn(alloc, kernel, shell, frames, prepared)?;
            Ok((active, child))
        },
        Action::Starting(start) => Ok((Active::Next(Action::Starting(start)), None)),
        Action::ForkStage(stages) => {
            let (active, child) = stage_turn(alloc, kernel, shell, frames, stages)?;
            Ok((active, child))
        },
        Action::ForkList(list) => {
            let (active, child) = list_turn(
                alloc,
                kernel,
                shell,
                frames.is_failure_ignored(),
                list,
            )?;
            Ok((active, child))
        },
        Action::AssignLoopVariable(series) => {
            let active = give(alloc, kernel, shell, frames, series)?;
            Ok((active, None))
        },
        Action::Defining(definition) => {
            let active = define(alloc, kernel, shell, definition)?;
            Ok((active, None))
        },
        Action::Waiting(wait) => {
            let active = wait_turn(alloc, kernel, shell, wait)?;
            Ok((active, None))
        },
        Action::Writing(piece, finish) => {
            let active = write_turn(alloc, kernel, shell, piece, finish)?;
            Ok((active, None))
        },
        Action::Trapping(status) => {
            let active = trap(alloc, kernel, shell, frames, status)?;
            Ok((active, None))
        },
        Action::Ending(status) => {
            let active = end_turn(kernel, shell, status)?;
            Ok((active, None))
        },
    }
}

/// The action at a place, or that of a trap before it.
fn act_next(
    alloc: Global,
    kernel: &mut Kernel,
    shell: &mut Shell,
    frames: &mut Frames,
    place: Action,
) -> Result<(Active, Option<Boxed<Interpreter>>), NoMemory>
    ensures state { (s : KernelState) → StandsAt kernel.old s → IfOk result (λ r.
        IsTurned kernel.new shell.new (run_of frames.new r.0) r.1
        (inside frames.old (inheriting (is_failure_ignored frames.old)
        (act_behind frames.old s shell.old place (trap_before s shell.old place))))) }
    ensures terminal { Extends kernel.old.terminal.bytes kernel.new.terminal.bytes }
    ensures watch { kernel.new.watch ≡ kernel.old.watch }
{
    match trap_before(alloc, kernel, shell, &place) {
        Ok(Some(text)) => {
            let active = interrupt(alloc, kernel, shell, frames, place, text)?;
            Ok((active, None))
        },
        Ok(None) => {
            let (active, child) = act_place(alloc, kernel, shell, frames, place)?;
            Ok((active, child))
        },
        Err(lack) => {
            drop(place);
            Err(lack)
        },
    }
}

/// The action of an active place.
fn act(
    alloc: Global,
    kernel: &mut Kernel,
    shell: &mut Shell,
    frames: &mut Frames,
    active: Active,
) -> Result<(Active, Option<Boxed<Interpreter>>), NoMemory>
    ensures state { (s : KernelState) → StandsAt kernel.old s → IfOk result (λ r.
        IsTurned kernel.new shell.new (run_of frames.new r.0) r.1
        (inside frames.old (inheriting (is_failure_ignored frames.old)
        (act_at frames.old s shell.old active)))) }
    ensures terminal { Extends kernel.old.terminal.bytes kernel.new.terminal.bytes }
    ensures watch { kernel.new.watch ≡ kernel.old.watch }
{
    match active {
        Active::Next(place) => {
            let (active, child) = act_next(alloc, kernel, shell, frames, place)?;
            Ok((active, child))
        },
        Active::Acting(invocation, fields) => Ok((Active::Acting(invocation, fields), None)),
        Active::Calling(body, fields) => Ok((Active::Calling(body, fields), None)),
        Active::Evaluating(how, text) => Ok((Active::Evaluating(how, text), None)),
        Active::Done(ended) => Ok((Active::Done(ended), None)),
        Active::Leaving(leave) => Ok((Active::Leaving(leave), None)),
    }
}

/// The action at the active place, and statuses outward from what it left.
pub(crate) fn reduce(
    alloc: Global,
    kernel: &mut Kernel,
    shell: &mut Shell,
    frames: &mut Frames,
    active: Active,
) -> Result<(Active, Option<Boxed<Interpreter>>), NoMemory>
    ensures state { (s : KernelState) → StandsAt kernel.old s → IfOk result (λ r.
        IsTurned kernel.new shell.new (run_of frames.new r.0) r.1
        (reduce s shell.old [] (run_of frames.old active))) }
    ensures terminal { Extends kernel.old.terminal.bytes kernel.new.terminal.bytes }
    ensures watch { kernel.new.watch ≡ kernel.old.watch }
{
    let (active, child) = act(alloc, kernel, shell, frames, active)?;
    match settle(alloc, kernel, shell, frames, active) {
        Ok(active) => Ok((active, child)),
        Err(refusal) => {
            drop(child);
            Err(refusal)
        },
    }
}
