//! Processes.
ghost use Rattle.std.specs.Prelude.{◌≡◌, IfOk, None, Some, option_map};
ghost use Rattle.sh_kernel.specs.State.{KernelState, StandsAt};
ghost use Rattle.sh_kernel.specs.Turns as next;
ghost use Rattle.sh_kernel.specs.Turns.{can_do};
ghost use Rattle.sh_tty.specs.Terminal.{Extends};
ghost use Rattle.sh_exec_shell.specs.Reduction.{shell_turn};
ghost use Rattle.sh_exec.specs.Actions.{action_of, cause_of};
ghost use Rattle.sh_exec.specs.Tasks.{first_jobs, first_place, first_task, options_of, with_signals_of, AreRound, frames_of, jobs_of_first, pid_of};
ghost use Rattle.sh_exec.specs.TurnActions.{drops, starting_words, takes_trap, turn_action_of};
ghost use Rattle.sh_exec.specs.Turns.{IsTurned, by_shell, made_task, runs_by, task_behind, turn};

use crate::action::{asked, cause_for, shell_action};
use crate::program::ask_turn;
use crate::script::script_place;
use crate::settings::{Settings, Source};
use crate::shell::starting_of;
use crate::start::{Started, start_turn};
use crate::turn_action::{
    TurnAction, drops_in, takes_trap_in, turn_action_for, turn_action_in, words_in,
};
use sh_aliases::Aliases;
use sh_base::NoMemory;
use sh_base::sequence::{Sequence, Text};
use sh_builtin_environment::Traps;
use sh_builtin_shell::{Functions, Shell};
use sh_exec_actions::{Action, Beginning, Frame, ProgramStart};
use sh_exec_parts::Rest;
use sh_exec_shell::{Interpreter, heed_own_signals};
use sh_files::Files;
use sh_jobs::Jobs;
use sh_kernel::{Cause, Kernel, Next};
use sh_kernel_processes::{FIRST_PID, SignalSet};
use sh_stock::{Ask, CopyStock, Stock};
use sh_vars::{Options, Vars};
use std::alloc::Global;
use std::mem;

/// A process that lives, and what it runs.
pub enum Task<S: Stock> {
    /// A shell.
    Runs(Interpreter),
    /// A program of the stock, and what it asks.
    Asks {
        /// The number of the process.
        pid: u32,
        ask: Ask,
        program: S,
    },
}

// It is dropped here, so that no crate above has to prove that of its parts.
impl<S: Stock> Drop for Task<S> {
    fn drop(self) {
        match self {
            Task::Runs(interpreter) => drop(interpreter),
            Task::Asks {
                pid: _,
                ask,
                program,
            } => {
                drop(ask);
                drop(program);
            }
        }
    }
}

/// The first place of the first shell.
fn first_place(alloc: Global, image: &Files, source: Source) -> Result<Action, NoMemory>
    ensures { IfOk result (λ place. place ≡ first_place image.now source) }
{
    match source {
        Source::Text(text) => Ok(Action::Reading(Rest::new(text), 0)),
        Source::Script(path) => script_place(alloc, image, path.as_slice()),
        Source::Terminal => Ok(Action::Prompting(Beginning::not_begun(Text::new(alloc)))),
    }
}

/// The options of a shell that is started so: one that reads the terminal is interactive.
fn options_of(source: &Source, options: Options) -> Options
    ensures { result ≡ options_of source.now options }
{
    match source {
        Source::Text(_) => options,
        Source::Script(_) => options,
        Source::Terminal => Options {
            interactive: true,
            ..options
        },
    }
}

/// The process that a shell made.
fn made<S: Stock>(child: Option<Interpreter>) -> Option<Task<S>>
    ensures { result ≡ option_map made_task child }
{
    match child {
        None => None,
        Some(interpreter) => Some(Task::Runs(interpreter)),
    }
}

/// A turn of a shell that is about to start nothing.
fn shell_turn<S: Stock>(
    alloc: Global,
    kernel: &mut Kernel,
    interpreter: &mut Interpreter,
) -> Result<Option<Task<S>>, NoMemory>
    ensures state { (s : KernelState) → StandsAt kernel.old s → IfOk result (λ child.
        IsTurned kernel.new (Task.Runs interpreter.new) child
        (by_shell (shell_turn s interpreter.old))) }
    ensures terminal { Extends kernel.old.terminal.bytes kernel.new.terminal.bytes }
    ensures watch { kernel.new.watch ≡ kernel.old.watch }
{
    let child = interpreter.turn(alloc, kernel)?;
    Ok(made(child))
}

/// The turn in which a shell's process starts a program: what takes the shell's place, if that can be started; else the shell
/// goes on with a message, inside its forms.
fn start_in<S: Stock>(
    alloc: Global,
    kernel: &mut Kernel,
    interpreter: &mut Interpreter,
    start: ProgramStart,
) -> Result<Option<Task<S>>, NoMemory>
    ensures state { (s : KernelState) → StandsAt kernel.old s → IfOk result (λ next.
        IsTurned kernel.new (task_behind interpreter.new next) None
        (runs_by S.meaning s interpreter.old (Some start))) }
    ensures terminal { kernel.new.terminal ≡ kernel.old.terminal }
    ensures watch { kernel.new.watch ≡ kernel.old.watch }
{
    match start_turn(alloc, kernel, interpreter.shell(), start)? {
        Started::Becomes(task) => Ok(Some(task)),
        Started::Refused(place) => {
            interpreter.go_to(place);
            Ok(None)
        },
    }
}

/// The jobs of a shell, if it is the first one.
fn first_jobs(shell: &Shell) -> Option<&Jobs>
    ensures { option_map (λ jobs. jobs.now) result ≡ jobs_of_first shell.now }
{
    if shell.is_first {
        return Some(&shell.jobs);
    }
    None
}

impl<S: Stock> Task<S> {
    /// The first shell before its first action, started as the settings say, over the files of an image. The only error is
    /// want of memory.
    pub fn new(alloc: Global, image: &Files, settings: Settings) -> Result<Self, NoMemory>
        ensures { IfOk result (λ task. task ≡ first_task image.now settings) }
    {
        let Settings {
            source,
            zero,
            args,
            options,
        } = settings;
        let mut vars = Vars::new(alloc)?;
        vars.set_zero(zero);
        vars.set_positional(args.into_vec());
        vars.set_options(options_of(&source, options));
        let traps = Traps::new(alloc)?;
        let place = first_place(alloc, image, source)?;
        let shell = Shell {
            pid: FIRST_PID,
            vars,
            functions: Functions::new(alloc),
            aliases: Aliases::new(alloc),
            traps,
            known: Sequence::new(alloc),
            background: Sequence::new(alloc),
            jobs: Jobs::new(alloc),
            is_first: true,
            fixed: SignalSet::new(),
        };
        Ok(Task::Runs(Interpreter::at(alloc, shell, place)))
    }

    /// The signals of the first shell's process before its first turn (XCU 2.11): an interactive shell catches INT, and ignores QUIT and TERM, and
    /// with job control TSTP, TTIN and TTOU. Takes no memory.
    pub fn set_signals(&self, kernel: &mut Kernel)
        ensures state { (s : KernelState) → StandsAt kernel.old s → StandsAt kernel.new (with_signals_of s self.now) }
        ensures terminal { kernel.new.terminal ≡ kernel.old.terminal }
        ensures watch { kernel.new.watch ≡ kernel.old.watch }
    {
        if let Task::Runs(interpreter) = self {
            let shell = interpreter.shell();
            if shell.is_interactive() {
                heed_own_signals(kernel, shell);
            }
        }
    }

    /// The jobs of the first shell, if that is what runs. Takes no memory.
    pub fn jobs(&self) -> Option<&Jobs>
        ensures { option_map (λ jobs. jobs.now) result ≡ first_jobs self.now }
    {
        match self {
            Task::Runs(interpreter) => first_jobs(interpreter.shell()),
            Task::Asks { .. } => None,
        }
    }

    /// The number of the process. Takes no memory.
    pub fn pid(&self) -> u32
        ensures { result ≡ pid_of self.now }
    {
        match self {
            Task::Runs(interpreter) => interpreter.shell().pid,
            Task::Asks { pid, .. } => *pid,
        }
    }

    /// One turn of the process, and the process that it made, if it made one. The only error is want of memory, after which
    /// the process is given up.
    #[tactic(auto, using(crate::proofs::Extending::unchanged))]
    pub fn turn(&mut self, alloc: Global, kernel: &mut Kernel) -> Result<Option<Task<S>>, NoMemory>
        ensures state { (s : KernelState) → StandsAt kernel.old s → IfOk result (λ child.
            IsTurned kernel.new self.new child (turn S.meaning s self.old)) }
        ensures terminal { Extends kernel.old.terminal.bytes kernel.new.terminal.bytes }
        ensures watch { kernel.new.watch ≡ kernel.old.watch }
    {
        match self {
            Task::Runs(interpreter) => match starting_of(alloc, interpreter.active())? {
                Some(start) => {
                    if let Some(next) = start_in(alloc, kernel, interpreter, start)? {
                        drop(mem::replace(self, next));
                    }
                    Ok(None)
                },
                None => {
                    let child = shell_turn(alloc, kernel, interpreter)?;
                    Ok(child)
                },
            },
            Task::Asks { pid, ask, program } => {
                let last = mem::replace(ask, Ask::Idle);
                let next = ask_turn(alloc, kernel, *pid, last, program)?;
                *ask = next;
                Ok(None)
            },
        }
    }

    /// The running forms of a shell round the place where it acts, the outermost first, each with whether a failure inside it is ignored;
    /// none of a program. With that place they are the whole of what the shell runs. Takes no memory.
    pub fn frames(&self) -> &[Frame]
        ensures frames { result.now ≡ frames_of self.now }
        ensures tree { AreRound result.now self.now }
    {
        match self {
            Task::Runs(interpreter) => interpreter.frames(),
            Task::Asks { .. } => &[],
        }
    }

    /// What the process does in its next turn, for those who look on, unless [a trap](Task::takes_trap) on a signal comes before that, or
    /// INT has the shell [drop](Task::drops) what it does. After each
    /// turn a process stands before an action, so it is `Some` for each process of a world. Takes no memory.
    pub fn action(&self) -> Option<TurnAction>
        ensures { result ≡ turn_action_of self.now }
    {
        match self {
            Task::Runs(interpreter) => turn_action_in(interpreter.active()),
            Task::Asks { ask, .. } => Some(turn_action_for(ask)),
        }
    }

    /// Whether the process takes a trap on a signal in its next turn (XCU 2.12): it reads the first command of the trap's action, and does what
    /// [`Task::action`] tells after the whole action. Takes no memory.
    pub fn takes_trap(&self, kernel: &Kernel) -> bool
        ensures { (s : KernelState) → StandsAt kernel.now s → result ≡ takes_trap s self.now }
    {
        match self {
            Task::Runs(interpreter) => {
                takes_trap_in(kernel, interpreter.shell(), interpreter.active())
            },
            Task::Asks { .. } => false,
        }
    }

    /// Whether INT has an interactive shell drop what it does as its next turn begins (XCU sh, "ASYNCHRONOUS EVENTS"): then it does what comes next for
    /// it, and not what [`Task::action`] tells. Takes no memory.
    pub fn drops(&self, kernel: &Kernel) -> bool
        ensures { (s : KernelState) → StandsAt kernel.now s → result ≡ drops s self.now }
    {
        match self {
            Task::Runs(interpreter) => {
                drops_in(kernel, interpreter.shell(), interpreter.active())
            },
            Task::Asks { .. } => false,
        }
    }

    /// The words of the program that the process starts in its next turn, its name first; `None` where it does something else. Takes no
    /// memory.
    pub fn starting(&self) -> Option<&[Text]>
        ensures { option_map (λ words. words.now) result ≡ starting_words self.now }
    {
        match self {
            Task::Runs(interpreter) => words_in(interpreter.active()),
            Task::Asks { .. } => None,
        }
    }

    /// What the process does in its next turn.
    fn next(&self, kernel: &Kernel) -> Next<'_>
        ensures { (s : KernelState) → StandsAt kernel.now s → next.action_of result ≡ action_of s self.now }
    {
        match self {
            Task::Runs(interpreter) => {
                shell_action(kernel, interpreter.shell(), interpreter.active())
            },
            Task::Asks { ask, .. } => asked(ask),
        }
    }

    /// What the process would be blocked at in its next turn (XBD chapter 3, Blocked Process): the read or the write of a program. `None` where its
    /// next action never waits, and of a shell, which may have a trap to take before that. Takes no memory.
    pub fn cause(&self) -> Option<Cause>
        ensures { result ≡ cause_of self.now }
    {
        match self {
            Task::Runs(_) => None,
            Task::Asks { ask, .. } => cause_for(ask),
        }
    }

    /// Whether it can take a turn: it is neither stopped nor ended, and its next action need not wait. Takes no memory.
    pub fn is_runnable(&self, kernel: &Kernel) -> bool
        ensures { (s : KernelState) → StandsAt kernel.now s
            → result ≡ can_do s (pid_of self.now) (action_of s self.now) }
    {
        kernel.runnable(self.pid(), self.next(kernel))
    }
}

/// A copy of a program and of what it asks, in the process of this number.
fn copy_program<S: CopyStock>(
    alloc: Global,
    pid: u32,
    ask: &Ask,
    program: &S,
) -> Result<Task<S>, NoMemory>
    ensures { IfOk result (λ task. task ≡ Task.Asks pid ask.now program.now) }
{
    let program = program.copy(alloc)?;
    match ask.copy(alloc) {
        Ok(ask) => Ok(Task::Asks { pid, ask, program }),
        Err(error) => {
            drop(program);
            Err(NoMemory::from(error))
        },
    }
}

impl<S: CopyStock> Task<S> {
    /// A copy, which is equal: the same process at the same place. The only error is want of memory.
    pub fn copy(&self, alloc: Global) -> Result<Task<S>, NoMemory>
        ensures { IfOk result (λ task. task ≡ self.now) }
    {
        match self {
            Task::Runs(interpreter) => Ok(Task::Runs(interpreter.copy(alloc)?)),
            Task::Asks { pid, ask, program } => copy_program(alloc, *pid, ask, program),
        }
    }
}
