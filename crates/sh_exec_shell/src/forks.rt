//! The turns of a shell that make a process.
ghost use Rattle.std.specs.Prelude.{◌≡◌, ◌++◌, ◌∷◌, [], IfOk, List, None, OnOk, true};
ghost use Rattle.sh_kernel.specs.State.{KernelState, StandsAt};
ghost use Rattle.sh_builtin_shell.specs.Shells.{forked_shell, has_job_control};
ghost use Rattle.sh_exec_parts.specs.Messages as messages;
ghost use Rattle.sh_exec_actions.specs.Preparing.{fatal};
ghost use Rattle.sh_exec_actions.specs.Preparing.{ahead};
ghost use Rattle.sh_exec_actions.specs.Statuses.{unexcused};
ghost use Rattle.sh_exec_machine.specs.Forking.{HasForked, HasLaid, fork_of, null_laid};
ghost use Rattle.sh_exec_shell.specs.Forks.{IsTurned, begun_substitution, child_of, background_input, launched, launched_by, place_of_none, fork_turn, in_process, inherited, inheriting, inside, is_foreground, is_more, job_of, launch_by, list_by, list_turn, made_place, made_shell, program_by, stage_by, stage_from, stage_input, stage_one, stage_shell, stage_turn, stage_place, substitute_turn, substitution_by, with_child, with_job, fork_failure};
ghost use Rattle.sh_exec_turns.specs.Groups.{behind_fork, released_fork};
ghost use Rattle.sh_exec_forms.specs.Bodies.{body_of, stage_run};
ghost use Rattle.sh_exec_forms.specs.Entering.{and_or_run};
ghost use Rattle.sh_exec_forms.specs.Moves.{move_run};
ghost use Rattle.sh_exec_forms.specs.Running.{Run};
ghost use Rattle.sh_exec_forms.specs.Stacks.{run_in, run_of};
ghost use Rattle.sh_exec_forms.specs.Frames.{is_failure_ignored, root_forms};
ghost use Rattle.sh_exec_turns.specs.Waiting.{waiting};
ghost use Rattle.sh_jobs.specs.Table.{free_number};

use crate::interpreter::{Interpreter, interpreter_of};
use sh_base::NoMemory;
use sh_base::sequence::{Sequence, Text};
use sh_base::shared::Shared;
use sh_builtin_shell::Shell;
use sh_exec_actions::{
    Action, Active, Boxed, CommandStatus, ExpandedCommand, Finish, Launch, Move, PipelineWait,
    Stages, Substitution, ToExpand, fatal_message, go_ahead,
};
use sh_exec_forms::{Frames, body_of, go_to, list_body, stage};
use sh_exec_machine::{Forked, fork_process, lay_null_input};
use sh_exec_parts::message::{cannot_fork, launch_line};
use sh_exec_parts::{Copying, Queue};
use sh_exec_turns::{release, settle_fork};
use sh_expand::Pending;
use sh_kernel::Kernel;
use sh_syntax::text::command_text;
use sh_syntax::tree::{AndOr, Command, CompoundList};
use std::alloc::Global;
use std::slice;

/// No process can be made.
fn refused(alloc: Global) -> Result<Active, NoMemory>
    ensures { IfOk result (λ active. active ≡ fatal messages.cannot_fork) }
{
    let piece = cannot_fork(alloc)?;
    Ok(fatal_message(piece))
}

/// Some processes, and one more.
fn one_more(children: Sequence<u32>, child: u32) -> Result<Sequence<u32>, NoMemory>
    ensures { IfOk result (λ all. all ≡ children ++ child ∷ []) }
{
    let mut children = children;
    children.push(child)?;
    Ok(children)
}

/// What runs in a process that a shell made, with a copy of its environment.
fn with_copy(
    alloc: Global,
    child: u32,
    shell: &Shell,
    frames: Frames,
    active: Active,
) -> Result<Boxed<Interpreter>, NoMemory>
    ensures { IfOk result (λ made.
        made ≡ record {
          shell = forked_shell child shell.now;
          run = run_of frames active;
        }) }
{
    match shell.fork(alloc, child) {
        Ok(forked) => Boxed::new(alloc, interpreter_of(forked, frames, active)),
        Err(lack) => {
            drop(frames);
            drop(active);
            Err(lack)
        },
    }
}

/// A program's process is made.
fn put_program(
    alloc: Global,
    shell: &Shell,
    ignores_failure: bool,
    prepared: ExpandedCommand,
    child: u32,
) -> Result<Boxed<Interpreter>, NoMemory>
    ensures { IfOk result (λ made.
        made ≡ record {
          shell = forked_shell child shell.now;
          run = in_process ignores_failure (move_run (ahead prepared));
        }) }
{
    let mut frames = match Frames::of_process(alloc, ignores_failure) {
        Ok(frames) => frames,
        Err(lack) => {
            drop(prepared);
            return Err(lack);
        },
    };
    let to = go_ahead(prepared);
    let active = go_to(alloc, &mut frames, to)?;
    with_copy(alloc, child, shell, frames, active)
}

/// With job control the text of the job that a pipeline becomes when it is suspended.
fn job_of(
    alloc: Global,
    shell: &Shell,
    frames: &Frames,
    commands: &[Shared<Command>],
) -> Result<Option<Text>, NoMemory>
    ensures { IfOk result (λ job. job ≡ job_of shell.now frames.now commands.now) }
{
    if shell.has_job_control() {
        return Ok(Some(frames.job_text(alloc, commands)?));
    }
    Ok(None)
}

/// What the shell waits for that has made a program's process.
fn program_wait(
    alloc: Global,
    shell: &Shell,
    frames: &Frames,
    command: &Shared<Command>,
    child: u32,
) -> Result<Active, NoMemory>
    ensures { IfOk result (λ active. active ≡ waiting (child ∷ []) (job_of shell.now frames.now (command.now ∷ []))) }
{
    let job = job_of(alloc, shell, frames, slice::from_ref(command))?;
    match one_more(Sequence::new(alloc), child) {
        Ok(children) => Ok(Active::Next(Action::Waiting(PipelineWait { children, job }))),
        Err(refusal) => {
            drop(job);
            Err(refusal)
        },
    }
}

/// A program's process is made, and the shell is to wait for it.
fn begin_program(
    alloc: Global,
    shell: &Shell,
    frames: &Frames,
    prepared: ExpandedCommand,
    child: u32,
) -> Result<(Active, Boxed<Interpreter>), NoMemory>
    ensures wait { IfOk result (λ begun.
        begun.0 ≡ waiting (child ∷ []) (job_of shell.now frames.now (prepared.undo.command ∷ []))) }
    ensures made { IfOk result (λ begun.
        begun.1 ≡ record {
          shell = forked_shell child shell.now;
          run = in_process (is_failure_ignored frames.now) (move_run (ahead prepared));
        }) }
{
    let wait = match program_wait(alloc, shell, frames, &prepared.undo.command, child) {
        Ok(wait) => wait,
        Err(lack) => {
            drop(prepared);
            return Err(lack);
        },
    };
    match put_program(alloc, shell, frames.is_failure_ignored(), prepared, child) {
        Ok(made) => Ok((wait, made)),
        Err(refusal) => {
            drop(wait);
            Err(refusal)
        },
    }
}

/// The turn in which a program's process is made (XCU 2.9.1.6).
#[tactic(auto, unfolding(crate::specs::Forks::fork_turn))]
pub(crate) fn fork_turn(
    alloc: Global,
    kernel: &mut Kernel,
    shell: &Shell,
    frames: &Frames,
    prepared: ExpandedCommand,
) -> Result<(Active, Option<Boxed<Interpreter>>), NoMemory>
    ensures state { (s : KernelState) → StandsAt kernel.old s → IfOk result (λ r.
        IsTurned kernel.new shell.now (Run.At r.0) r.1
        (inheriting (is_failure_ignored frames.now) (fork_turn frames.now s shell.now prepared))) }
    ensures terminal { kernel.new.terminal.bytes ≡ kernel.old.terminal.bytes }
    ensures watch { kernel.new.watch ≡ kernel.old.watch }
{
    let forked = match fork_process(kernel, shell.pid, None, false) {
        Ok(forked) => forked,
        Err(lack) => {
            drop(prepared);
            return Err(lack);
        },
    };
    settle_fork(kernel, shell, true, &[], forked.child);
    match forked.child {
        Some(child) => {
            let (wait, made) = begin_program(alloc, shell, frames, prepared, child)?;
            Ok((wait, Some(made)))
        },
        None => {
            drop(prepared);
            let active = refused(alloc)?;
            Ok((active, None))
        },
    }
}

/// The processes of an asynchronous list are a job of the shell.
fn put_job(
    alloc: Global,
    kernel: &Kernel,
    shell: &mut Shell,
    list: &AndOr,
    children: &[u32],
) -> Result<usize, NoMemory>
    ensures shell { (s : KernelState) → StandsAt kernel.now s
        → OnOk result (shell.new ≡ with_job s shell.old list.now children.now) }
    ensures number { IfOk result (λ number. number ≡ free_number shell.old.jobs) }
{
    let text = command_text(alloc, list)?;
    shell.launch(alloc, kernel, text.as_slice(), children)
}

/// Where a shell goes on that has started an asynchronous list.
fn launched(
    alloc: Global,
    is_interactive: bool,
    number: usize,
    children: &[u32],
) -> Result<Active, NoMemory>
    ensures { IfOk result (λ active. active ≡ launched_by is_interactive number children.now) }
{
    if !is_interactive {
        return Ok(Active::Done(CommandStatus::unexcused(0)));
    }
    let piece = launch_line(alloc, number, children.last().copied().unwrap_or(0))?;
    Ok(Active::Next(Action::Writing(piece, Finish::Status(0))))
}

/// Where a pipeline goes on once all its commands have a process.
fn made(
    alloc: Global,
    kernel: &Kernel,
    shell: &mut Shell,
    launch: Launch,
    children: Sequence<u32>,
) -> Result<Active, NoMemory>
    ensures place { IfOk result (λ active. active ≡ made_place shell.old launch children) }
    ensures shell { (s : KernelState) → StandsAt kernel.now s
        → OnOk result (shell.new ≡ made_shell s launch shell.old children) }
{
    match launch {
        Launch::Foreground(job) => Ok(Active::Next(Action::Waiting(PipelineWait {
            children,
            job,
        }))),
        Launch::Background(list) => {
            let is_interactive = shell.is_interactive();
            let number = put_job(alloc, kernel, shell, list.get(), children.as_slice())?;
            launched(alloc, is_interactive, number, children.as_slice())
        },
    }
}

/// Where a pipeline goes on after one of its processes.
fn staged(
    alloc: Global,
    kernel: &Kernel,
    shell: &mut Shell,
    stages: Stages,
) -> Result<Active, NoMemory>
    ensures place { IfOk result (λ active.
        active ≡ stage_place shell.old stages.launch stages.commands stages.aside stages.children) }
    ensures shell { (s : KernelState) → StandsAt kernel.now s
        → OnOk result (shell.new ≡ stage_shell s stages.launch stages.commands shell.old stages.children) }
{
    if stages.commands.is_empty() {
        let Stages {
            commands,
            children,
            launch,
            ..
        } = stages;
        drop(commands);
        return made(alloc, kernel, shell, launch, children);
    }
    Ok(Active::Next(Action::ForkStage(stages)))
}

/// Where a pipeline goes on after a process that was made.
fn next_stage(
    alloc: Global,
    kernel: &Kernel,
    shell: &mut Shell,
    stages: Stages,
    child: u32,
) -> Result<Active, NoMemory>
    ensures place { IfOk result (λ active.
        active ≡ stage_place shell.old stages.launch stages.commands stages.aside (stages.children ++ child ∷ [])) }
    ensures shell { (s : KernelState) → StandsAt kernel.now s → OnOk result
        (shell.new ≡ stage_shell s stages.launch stages.commands shell.old (stages.children ++ child ∷ [])) }
{
    let Stages {
        commands,
        aside,
        children,
        launch,
    } = stages;
    match one_more(children, child) {
        Ok(children) => staged(
            alloc,
            kernel,
            shell,
            Stages {
                commands,
                aside,
                children,
                launch,
            },
        ),
        Err(refusal) => {
            drop(commands);
            drop(launch);
            Err(refusal)
        },
    }
}

/// What the first process of an asynchronous list reads, as it is set aside: nothing without job control.
fn background_input(kernel: &mut Kernel, shell: &Shell) -> Result<Option<usize>, NoMemory>
    ensures state { (s : KernelState) → StandsAt kernel.old s → IfOk result (λ input.
        HasLaid kernel.new input (background_input (has_job_control shell.now) s shell.now)) }
    ensures terminal { kernel.new.terminal ≡ kernel.old.terminal }
    ensures watch { kernel.new.watch ≡ kernel.old.watch }
{
    if shell.has_job_control() {
        return Ok(None);
    }
    lay_null_input(kernel, shell.pid, shell.vars.directory())
}

/// What the process of a stage reads, as it is set aside.
fn stage_input(
    kernel: &mut Kernel,
    shell: &Shell,
    launch: &Launch,
    before: &[u32],
    aside: Option<usize>,
) -> Result<Option<usize>, NoMemory>
    ensures state { (s : KernelState) → StandsAt kernel.old s → IfOk result (λ input.
        HasLaid kernel.new input (stage_input launch.now before.now aside shell.now s)) }
    ensures terminal { kernel.new.terminal ≡ kernel.old.terminal }
    ensures watch { kernel.new.watch ≡ kernel.old.watch }
{
    match launch {
        Launch::Foreground(_) => Ok(aside),
        Launch::Background(_) => match before {
            [] => background_input(kernel, shell),
            [_, ..] => Ok(aside),
        },
    }
}

/// Whether the shell waits for a pipeline.
fn is_foreground(launch: &Launch) -> bool
    ensures { result ≡ is_foreground launch.now }
{
    match launch {
        Launch::Foreground(_) => true,
        Launch::Background(_) => false,
    }
}

/// The process of a stage is made.
fn put_stage(
    alloc: Global,
    shell: &Shell,
    ignores_failure: bool,
    command: Shared<Command>,
    child: u32,
) -> Result<Boxed<Interpreter>, NoMemory>
    ensures { IfOk result (λ made.
        made ≡ record {
          shell = forked_shell child shell.now;
          run = in_process ignores_failure (stage_run command);
        }) }
{
    let mut frames = match Frames::of_process(alloc, ignores_failure) {
        Ok(frames) => frames,
        Err(lack) => {
            drop(command);
            return Err(lack);
        },
    };
    let active = stage(alloc, &mut frames, &command);
    drop(command);
    let active = active?;
    with_copy(alloc, child, shell, frames, active)
}

/// The process of the next stage.
#[tactic(auto, unfolding(crate::specs::Forks::stage_one))]
fn stage_one(
    alloc: Global,
    kernel: &mut Kernel,
    shell: &mut Shell,
    ignores_failure: bool,
    command: Shared<Command>,
    stages: Stages,
) -> Result<(Active, Option<Boxed<Interpreter>>), NoMemory>
    ensures state { (s : KernelState) → StandsAt kernel.old s → IfOk result (λ r.
        IsTurned kernel.new shell.new (Run.At r.0) r.1
        (inheriting ignores_failure (stage_one s shell.old command stages))) }
    ensures terminal { kernel.new.terminal.bytes ≡ kernel.old.terminal.bytes }
    ensures watch { kernel.new.watch ≡ kernel.old.watch }
{
    let mut stages = stages;
    let before = stages.children.as_slice();
    let input = match stage_input(kernel, shell, &stages.launch, before, stages.aside) {
        Ok(input) => input,
        Err(lack) => {
            drop(command);
            drop(stages);
            return Err(lack);
        },
    };
    let forked = match fork_process(kernel, shell.pid, input, !stages.commands.is_empty()) {
        Ok(forked) => forked,
        Err(lack) => {
            drop(command);
            drop(stages);
            return Err(lack);
        },
    };
    settle_fork(
        kernel,
        shell,
        is_foreground(&stages.launch),
        stages.children.as_slice(),
        forked.child,
    );
    match forked.child {
        Some(child) => {
            let made = match put_stage(alloc, shell, ignores_failure, command, child) {
                Ok(made) => made,
                Err(refusal) => {
                    drop(stages);
                    return Err(refusal);
                },
            };
            stages.aside = forked.aside;
            match next_stage(alloc, kernel, shell, stages, child) {
                Ok(active) => Ok((active, Some(made))),
                Err(refusal) => {
                    drop(made);
                    Err(refusal)
                },
            }
        },
        None => {
            drop(command);
            drop(stages);
            let active = refused(alloc)?;
            Ok((active, None))
        },
    }
}

/// With job control the text of the job that a pipeline becomes none of whose commands has a process yet.
fn pipeline_job(
    alloc: Global,
    shell: &Shell,
    frames: &Frames,
    commands: &Queue<Shared<Command>>,
) -> Result<Option<Text>, NoMemory>
    ensures { IfOk result (λ job. job ≡ job_of shell.now frames.now commands.now) }
{
    let commands = commands.copy(alloc)?.into_sequence();
    let job = job_of(alloc, shell, frames, commands.as_slice());
    drop(commands);
    job
}

/// How a pipeline was begun: with the first process comes the text of the job that it may become.
fn launch_by(
    alloc: Global,
    shell: &Shell,
    frames: &Frames,
    commands: &Queue<Shared<Command>>,
    before: &[u32],
    launch: Launch,
) -> Result<Launch, NoMemory>
    ensures { IfOk result (λ begun. begun ≡ launch_by frames.now shell.now commands.now before.now launch) }
{
    match before {
        [] => match launch {
            Launch::Foreground(_) => {
                Ok(Launch::Foreground(pipeline_job(alloc, shell, frames, commands)?))
            },
            Launch::Background(list) => Ok(Launch::Background(list)),
        },
        [_, ..] => Ok(launch),
    }
}

/// A pipeline none of whose commands is left without a process.
fn stage_done(stages: Stages) -> Active
    ensures { result ≡ place_of_none stages.launch stages.children }
{
    let Stages {
        children,
        launch,
        ..
    } = stages;
    match launch {
        Launch::Foreground(job) => Active::Next(Action::Waiting(PipelineWait { children, job })),
        Launch::Background(_) => Active::Done(CommandStatus::unexcused(0)),
    }
}

/// The process of the next stage, if there is one.
fn stage_from(
    alloc: Global,
    kernel: &mut Kernel,
    shell: &mut Shell,
    ignores_failure: bool,
    stages: Stages,
) -> Result<(Active, Option<Boxed<Interpreter>>), NoMemory>
    ensures state { (s : KernelState) → StandsAt kernel.old s → IfOk result (λ r.
        IsTurned kernel.new shell.new (Run.At r.0) r.1
        (inheriting ignores_failure (stage_from s shell.old stages stages.commands))) }
    ensures terminal { kernel.new.terminal.bytes ≡ kernel.old.terminal.bytes }
    ensures watch { kernel.new.watch ≡ kernel.old.watch }
{
    let mut stages = stages;
    let Some(command) = stages.commands.take() else {
        return Ok((stage_done(stages), None));
    };
    let (active, child) = stage_one(alloc, kernel, shell, ignores_failure, command, stages)?;
    Ok((active, child))
}

/// The turn in which the process of a pipeline's next stage is made (XCU 2.9.2).
#[tactic(auto, unfolding(crate::specs::Forks::stage_turn))]
pub(crate) fn stage_turn(
    alloc: Global,
    kernel: &mut Kernel,
    shell: &mut Shell,
    frames: &Frames,
    stages: Stages,
) -> Result<(Active, Option<Boxed<Interpreter>>), NoMemory>
    ensures state { (s : KernelState) → StandsAt kernel.old s → IfOk result (λ r.
        IsTurned kernel.new shell.new (Run.At r.0) r.1
        (inheriting (is_failure_ignored frames.now) (stage_turn frames.now s shell.old stages))) }
    ensures terminal { kernel.new.terminal.bytes ≡ kernel.old.terminal.bytes }
    ensures watch { kernel.new.watch ≡ kernel.old.watch }
{
    let Stages {
        commands,
        aside,
        children,
        launch,
    } = stages;
    let launch = launch_by(alloc, shell, frames, &commands, children.as_slice(), launch);
    match launch {
        Ok(launch) => {
            let stages = Stages {
                commands,
                aside,
                children,
                launch,
            };
            let (active, child) = stage_from(
                alloc,
                kernel,
                shell,
                frames.is_failure_ignored(),
                stages,
            )?;
            Ok((active, child))
        },
        Err(lack) => {
            drop(commands);
            drop(children);
            Err(lack)
        },
    }
}

/// The process of an asynchronous list is made.
fn put_list(
    alloc: Global,
    shell: &Shell,
    ignores_failure: bool,
    list: &AndOr,
    child: u32,
) -> Result<Boxed<Interpreter>, NoMemory>
    ensures { IfOk result (λ made.
        made ≡ record {
          shell = forked_shell child shell.now;
          run = in_process ignores_failure (and_or_run list.now);
        }) }
{
    let mut frames = Frames::of_process(alloc, ignores_failure)?;
    let active = list_body(alloc, &mut frames, list)?;
    with_copy(alloc, child, shell, frames, active)
}

/// The shell goes on beside the process of an asynchronous list.
fn go_on_beside(
    alloc: Global,
    kernel: &Kernel,
    shell: &mut Shell,
    list: &AndOr,
    child: u32,
) -> Result<Active, NoMemory>
    ensures shell { (s : KernelState) → StandsAt kernel.now s
        → OnOk result (shell.new ≡ with_job s shell.old list.now (child ∷ [])) }
    ensures place { IfOk result (λ active. active ≡ launched shell.old (child ∷ [])) }
{
    let is_interactive = shell.is_interactive();
    let number = put_job(alloc, kernel, shell, list, slice::from_ref(&child))?;
    launched(alloc, is_interactive, number, slice::from_ref(&child))
}

/// The turn in which the process of an asynchronous list is made (XCU 2.9.3.1), where that has one.
#[tactic(auto, unfolding(crate::specs::Forks::list_turn))]
pub(crate) fn list_turn(
    alloc: Global,
    kernel: &mut Kernel,
    shell: &mut Shell,
    ignores_failure: bool,
    list: Shared<AndOr>,
) -> Result<(Active, Option<Boxed<Interpreter>>), NoMemory>
    ensures state { (s : KernelState) → StandsAt kernel.old s → IfOk result (λ r.
        IsTurned kernel.new shell.new (Run.At r.0) r.1
        (inheriting ignores_failure (list_turn s shell.old list))) }
    ensures terminal { kernel.new.terminal.bytes ≡ kernel.old.terminal.bytes }
    ensures watch { kernel.new.watch ≡ kernel.old.watch }
{
    let input = match background_input(kernel, shell) {
        Ok(input) => input,
        Err(lack) => {
            drop(list);
            return Err(lack);
        },
    };
    let forked = match fork_process(kernel, shell.pid, input, false) {
        Ok(forked) => forked,
        Err(lack) => {
            drop(list);
            return Err(lack);
        },
    };
    settle_fork(kernel, shell, false, &[], forked.child);
    match forked.child {
        Some(child) => {
            let made = put_list(alloc, shell, ignores_failure, list.get(), child)?;
            match go_on_beside(alloc, kernel, shell, list.get(), child) {
                Ok(active) => Ok((active, Some(made))),
                Err(refusal) => {
                    drop(made);
                    Err(refusal)
                },
            }
        },
        None => {
            drop(list);
            let active = refused(alloc)?;
            Ok((active, None))
        },
    }
}

/// Where a command goes on when no process can be made for its substitution.
fn unforked(alloc: Global, wants: ToExpand) -> Result<Move, NoMemory>
    ensures { IfOk result (λ to. to ≡ fork_failure wants) }
{
    let active = match refused(alloc) {
        Ok(active) => active,
        Err(lack) => {
            drop(wants);
            return Err(lack);
        },
    };
    match wants {
        ToExpand::Words { .. } => Ok(Move::At(active)),
        ToExpand::Values(prepared) => Ok(Move::Held(prepared.undo, active)),
        ToExpand::Redirects(_) => Ok(Move::At(active)),
        ToExpand::ForWords(_) => Ok(Move::At(active)),
        ToExpand::CaseWord(_) => Ok(Move::At(active)),
        ToExpand::CasePattern(_) => Ok(Move::At(active)),
    }
}

/// The process of a substitution is made.
fn put_substitution(
    alloc: Global,
    shell: &Shell,
    ignores_failure: bool,
    program: &CompoundList,
    child: u32,
) -> Result<Boxed<Interpreter>, NoMemory>
    ensures { IfOk result (λ made.
        made ≡ record {
          shell = forked_shell child shell.now;
          run = in_process ignores_failure (body_of program.now);
        }) }
{
    let mut frames = Frames::of_process(alloc, ignores_failure)?;
    let active = body_of(alloc, &mut frames, program)?;
    with_copy(alloc, child, shell, frames, active)
}

/// A command waits for what a process writes.
fn collecting(
    alloc: Global,
    wants: ToExpand,
    pending: Pending,
    aside: Option<usize>,
    child: u32,
) -> Result<Action, NoMemory>
    ensures { IfOk result (λ place.
        place ≡ Action.ReadSubstitution
        (record {
          wants = wants;
          pending = pending;
          written = [];
          aside = aside;
          children = child
              ∷ [];
        })) }
{
    let children = match one_more(Sequence::new(alloc), child) {
        Ok(children) => children,
        Err(lack) => {
            drop(wants);
            drop(pending);
            return Err(lack);
        },
    };
    Ok(Action::ReadSubstitution(Substitution {
        wants,
        pending,
        written: Text::new(alloc),
        aside,
        children,
    }))
}

/// The process of a substitution, which writes to a pipe.
fn fork_released(kernel: &mut Kernel, shell: &Shell) -> Result<Forked, NoMemory>
    ensures state { (s : KernelState) → StandsAt kernel.old s → IfOk result (λ made.
        HasForked kernel.new made.child made.aside (released_fork shell.now (fork_of s shell.now.pid None true))) }
    ensures terminal { kernel.new.terminal ≡ kernel.old.terminal }
    ensures watch { kernel.new.watch ≡ kernel.old.watch }
{
    let forked = fork_process(kernel, shell.pid, None, true)?;
    release(kernel, shell, forked.child);
    Ok(forked)
}

/// The turn in which a command substitution's process is made (XCU 2.6.3).
#[tactic(auto, unfolding(crate::specs::Forks::substitute_turn))]
pub(crate) fn substitute_turn(
    alloc: Global,
    kernel: &mut Kernel,
    shell: &Shell,
    frames: &mut Frames,
    program: Shared<CompoundList>,
    wants: ToExpand,
    pending: Pending,
) -> Result<(Active, Option<Boxed<Interpreter>>), NoMemory>
    ensures state { (s : KernelState) → StandsAt kernel.old s → IfOk result (λ r.
        IsTurned kernel.new shell.now (run_of frames.new r.0) r.1
        (inside frames.old (inheriting (is_failure_ignored frames.old)
        (substitute_turn s shell.now program wants pending)))) }
    ensures terminal { kernel.new.terminal ≡ kernel.old.terminal }
    ensures watch { kernel.new.watch ≡ kernel.old.watch }
{
    let forked = match fork_released(kernel, shell) {
        Ok(forked) => forked,
        Err(lack) => {
            drop(program);
            drop(wants);
            drop(pending);
            return Err(lack);
        },
    };
    match forked.child {
        Some(child) => {
            let ignores_failure = frames.is_failure_ignored();
            let made = put_substitution(alloc, shell, ignores_failure, program.get(), child);
            drop(program);
            let made = match made {
                Ok(made) => made,
                Err(refusal) => {
                    drop(wants);
                    drop(pending);
                    return Err(refusal);
                },
            };
            match collecting(alloc, wants, pending, forked.aside, child) {
                Ok(place) => Ok((Active::Next(place), Some(made))),
                Err(refusal) => {
                    drop(made);
                    Err(refusal)
                },
            }
        },
        None => {
            drop(program);
            drop(pending);
            let to = unforked(alloc, wants)?;
            let active = go_to(alloc, frames, to)?;
            Ok((active, None))
        },
    }
}
