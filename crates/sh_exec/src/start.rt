//! A program's start in the process of a shell.
ghost use Rattle.std.specs.Prelude.{◌≡◌, ℕ, IfOk, List};
ghost use Rattle.sh_exec_actions.specs.Preparing.{failing};
ghost use Rattle.sh_exec_actions.specs.Statuses as statuses;
ghost use Rattle.sh_kernel.specs.Calls.{start_call};
ghost use Rattle.sh_kernel.specs.State.{KernelState, StandsAt};
ghost use Rattle.sh_exec_parts.specs.Messages as messages;
ghost use Rattle.sh_exec.specs.Programs.{HasLeft, asking};
ghost use Rattle.sh_exec.specs.Starting.{begun, ignored_by, located_for, parent_of, program_in, script_shell, script_start, start_named, start_turn, started_by, stock_start};

use crate::program::asking;
use crate::task::Task;
use sh_aliases::Aliases;
use sh_base::NoMemory;
use sh_base::sequence::{Sequence, Text};
use sh_builtin_environment::Traps;
use sh_builtin_shell::{Functions, Shell};
use sh_exec_actions::status::{CANNOT_EXECUTE, NOT_FOUND};
use sh_exec_actions::{Action, ProgramStart, failing};
use sh_exec_parts::message::{cannot_execute, not_found};
use sh_exec_parts::script_environment;
use sh_exec_shell::{Interpreter, release_own_signals};
use sh_files::{Files, Located, locate};
use sh_jobs::Jobs;
use sh_kernel::Kernel;
use sh_kernel_processes::SignalSet;
use sh_stock::{Answer, Stock};
use sh_vars::Vars;
use std::alloc::Global;

/// What comes of a program's start in the process of a shell.
#[derive(Drop)]
pub enum Started<S: Stock> {
    /// This takes the place of the shell in its process.
    Becomes(Task<S>),
    /// There is no program: the shell does this next.
    Refused(Action),
}

/// No program has this name.
fn missing(alloc: Global, name: &[u8], ends_shell: bool) -> Result<Action, NoMemory>
    ensures { IfOk result (λ place.
        place ≡ Action.Writing (messages.message (messages.not_found name.now)) (failing ends_shell statuses.not_found)) }
{
    let piece = not_found(alloc, name)?;
    Ok(Action::Writing(piece, failing(ends_shell, NOT_FOUND)))
}

/// It can't be run.
fn unfit(alloc: Global, name: &[u8], ends_shell: bool) -> Result<Action, NoMemory>
    ensures { IfOk result (λ place.
        place ≡ Action.Writing (messages.message (messages.cannot_execute name.now)) (failing ends_shell statuses.cannot_execute)) }
{
    let piece = cannot_execute(alloc, name)?;
    Ok(Action::Writing(piece, failing(ends_shell, CANNOT_EXECUTE)))
}

/// What the shell had set aside is closed, and the process doesn't ignore what an interactive shell ignores by itself.
fn leave_shell(kernel: &mut Kernel, shell: &Shell)
    ensures state { (s : KernelState) → StandsAt kernel.old s
        → StandsAt kernel.new (begun s shell.now) }
    ensures terminal { kernel.new.terminal ≡ kernel.old.terminal }
    ensures watch { kernel.new.watch ≡ kernel.old.watch }
{
    let _started = kernel.start_program(shell.pid);
    release_own_signals(kernel, shell, shell.pid);
}

/// A program takes its first turn.
fn begin<S: Stock>(alloc: Global, pid: u32, program: S) -> Result<Task<S>, NoMemory>
    ensures { IfOk result (λ task. task ≡ program_in pid (asking S.meaning program Answer.Started)) }
{
    let mut program = program;
    let ask = asking(alloc, &mut program, Answer::Started)?;
    Ok(Task::Asks { pid, ask, program })
}

/// A program of the stock.
fn start_stock<S: Stock>(
    alloc: Global,
    kernel: &mut Kernel,
    shell: &Shell,
    name: &[u8],
    ends_shell: bool,
    program: Option<S>,
) -> Result<Started<S>, NoMemory>
    ensures state { (s : KernelState) → StandsAt kernel.old s → (operands : List (List ℕ)) → IfOk result (λ started.
        HasLeft kernel.new started (stock_start S.meaning s shell.now (record { name = name.now; operands = operands; ends_shell = ends_shell }) program)) }
    ensures terminal { kernel.new.terminal ≡ kernel.old.terminal }
    ensures watch { kernel.new.watch ≡ kernel.old.watch }
{
    match program {
        Some(program) => {
            let task = begin(alloc, shell.pid, program)?;
            leave_shell(kernel, shell);
            Ok(Started::Becomes(task))
        },
        None => {
            let place = unfit(alloc, name, ends_shell)?;
            Ok(Started::Refused(place))
        },
    }
}

/// The number of a process's parent.
fn parent_of(kernel: &Kernel, pid: u32) -> u32
    ensures { (s : KernelState) → StandsAt kernel.now s → result ≡ parent_of s pid }
{
    match kernel.parent(pid) {
        Some(parent) => parent,
        None => 1,
    }
}

/// The signals that a process ignores.
fn ignored_by(kernel: &Kernel, pid: u32) -> SignalSet
    ensures { (s : KernelState) → StandsAt kernel.now s → result ≡ ignored_by s pid }
{
    match kernel.member(pid) {
        Some(member) => member.ignored,
        None => SignalSet::new(),
    }
}

/// A script.
fn start_script<S: Stock>(
    alloc: Global,
    kernel: &mut Kernel,
    shell: &Shell,
    path: &[u8],
    text: Text,
    operands: &[Text],
) -> Result<Started<S>, NoMemory>
    ensures state { (s : KernelState) → StandsAt kernel.old s → IfOk result (λ started.
        HasLeft kernel.new started (script_start s shell.now path.now text operands.now)) }
    ensures terminal { kernel.new.terminal ≡ kernel.old.terminal }
    ensures watch { kernel.new.watch ≡ kernel.old.watch }
{
    let pid = shell.pid;
    let parent = parent_of(kernel, pid);
    let vars = script_environment(alloc, &shell.vars, path, operands, pid, parent)?;
    let traps = Traps::new(alloc)?;
    leave_shell(kernel, shell);
    let fixed = ignored_by(kernel, pid);
    let shell = Shell {
        pid,
        vars,
        functions: Functions::new(alloc),
        aliases: Aliases::new(alloc),
        traps,
        known: Sequence::new(alloc),
        background: Sequence::new(alloc),
        jobs: Jobs::new(alloc),
        is_first: false,
        fixed,
    };
    Ok(Started::Becomes(Task::Runs(Interpreter::reading(alloc, shell, text))))
}

/// What was found is started.
fn start_located<S: Stock>(
    alloc: Global,
    kernel: &mut Kernel,
    shell: &Shell,
    name: &[u8],
    operands: &[Text],
    ends_shell: bool,
    located: Located,
) -> Result<Started<S>, NoMemory>
    ensures state { (s : KernelState) → StandsAt kernel.old s → IfOk result (λ started.
        HasLeft kernel.new started
        (started_by S.meaning s shell.now (record { name = name.now; operands = operands.now; ends_shell = ends_shell }) located)) }
    ensures terminal { kernel.new.terminal ≡ kernel.old.terminal }
    ensures watch { kernel.new.watch ≡ kernel.old.watch }
{
    match located {
        Located::Missing => {
            let place = missing(alloc, name, ends_shell)?;
            Ok(Started::Refused(place))
        },
        Located::Unfit => {
            let place = unfit(alloc, name, ends_shell)?;
            Ok(Started::Refused(place))
        },
        Located::Stock(program) => {
            let program = S::start(alloc, program.as_slice(), operands)?;
            let started = start_stock(alloc, kernel, shell, name, ends_shell, program)?;
            Ok(started)
        },
        Located::Script { path, text } => {
            let started = start_script(alloc, kernel, shell, path.as_slice(), text, operands)?;
            Ok(started)
        },
    }
}

/// What a command's name leads to, where these are the files and the variables.
fn find_program(alloc: Global, files: &Files, vars: &Vars, name: &[u8]) -> Result<Located, NoMemory>
    ensures { IfOk result (λ located. located ≡ located_for files.now vars.now name.now) }
{
    locate(alloc, files, vars.directory(), vars.get(b"PATH"), name)
}

/// The program of a command name.
#[tactic(auto, unfolding(crate::specs::Starting::start_named))]
fn start_named<S: Stock>(
    alloc: Global,
    kernel: &mut Kernel,
    shell: &Shell,
    name: &[u8],
    operands: &[Text],
    ends_shell: bool,
) -> Result<Started<S>, NoMemory>
    ensures state { (s : KernelState) → StandsAt kernel.old s → IfOk result (λ started.
        HasLeft kernel.new started (start_named S.meaning s shell.now (record { name = name.now; operands = operands.now; ends_shell = ends_shell }))) }
    ensures terminal { kernel.new.terminal ≡ kernel.old.terminal }
    ensures watch { kernel.new.watch ≡ kernel.old.watch }
{
    let located = find_program(alloc, kernel.files(), &shell.vars, name)?;
    let started = start_located(alloc, kernel, shell, name, operands, ends_shell, located)?;
    Ok(started)
}

/// The turn in which a shell's process starts a program (XCU 2.9.1.4, 2.9.1.6).
pub(crate) fn start_turn<S: Stock>(
    alloc: Global,
    kernel: &mut Kernel,
    shell: &Shell,
    start: ProgramStart,
) -> Result<Started<S>, NoMemory>
    ensures state { (s : KernelState) → StandsAt kernel.old s → IfOk result (λ started.
        HasLeft kernel.new started (start_turn S.meaning s shell.now start)) }
    ensures terminal { kernel.new.terminal ≡ kernel.old.terminal }
    ensures watch { kernel.new.watch ≡ kernel.old.watch }
{
    let Some((name, operands)) = start.fields.as_slice().split_first() else {
        return Ok(Started::Refused(Action::Starting(start)));
    };
    let ends_shell = start.ends_shell;
    let started = start_named(alloc, kernel, shell, name.as_slice(), operands, ends_shell)?;
    Ok(started)
}
