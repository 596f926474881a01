//! What interprets commands in a process.
ghost use Rattle.std.specs.Prelude.{◌≡◌, IfOk, OnOk, reverse};
ghost use Rattle.sh_kernel.specs.State.{KernelState, StandsAt};
ghost use Rattle.sh_tty.specs.Terminal.{Extends};
ghost use Rattle.sh_exec_turns.specs.Acting.{ending};
ghost use Rattle.sh_exec_shell.specs.Forks.{IsTurned};
ghost use Rattle.sh_exec_shell.specs.Reduction.{at_root, reduce, shell_turn, with_root};
ghost use Rattle.sh_exec_forms.specs.Stacks.{frames_of, path_of, run_of};
ghost use Rattle.sh_exec_forms.specs.Frames.{forms_in, framed};
ghost use Rattle.sh_exec_forms.specs.Running.{Run, active_of, with_active};

use crate::dropping::drop_first;
use crate::turn::reduce;
use sh_base::NoMemory;
use sh_base::sequence::Text;
use sh_builtin_shell::Shell;
use sh_exec_actions::{Action, Active, Boxed, CommandStatus, Frame};
use sh_exec_forms::Frames;
use sh_exec_parts::{Copying, Rest};
use sh_kernel::Kernel;
use sh_signal::Condition;
use std::alloc::Global;
use std::marker::Model;
use std::mem;

/// A shell (XCU 2.13) in its process, and what it runs there.
pub struct Interpreter {
    shell: Shell,
    frames: Frames,
    active: Active,
}

// It is dropped here, so that no crate above has to prove that of its parts.
impl Drop for Interpreter {
    fn drop(self) {
        let Interpreter {
            shell,
            frames,
            active,
        } = self;
        drop(shell);
        drop(frames);
        drop(active);
    }
}

impl Model for Interpreter {
    ghost use Rattle.std.specs.Coded.{codes};
    ghost use Rattle.sh_vars.specs.Codes.{map_code};
    ghost use Rattle.sh_exec_forms.specs.Codes.{run_code};
    ghost use Rattle.sh_exec_forms.specs.Running.{InterpreterState};
    ghost use Rattle.sh_exec_forms.specs.Stacks.{run_of};
    ghost use Rattle.sh_aliases.specs.contracts.alias.Alias as alias_row;
    ghost use Rattle.sh_syntax.specs.contracts.tree.Command as command_row;

    ghost Value = { InterpreterState };

    ghost coded = { Prim.hlevel (codes, map_code, alias_row.the_row.coded, command_row.the_row.coded, run_code) };

    ghost view = { λ t. record { shell = t.shell; run = run_of t.frames t.active } };
}

/// What a shell does where it is to end with a status: its trap on EXIT comes first, if it has an action (XCU 2.15 trap).
fn ending(shell: &Shell, status: u8) -> Action
    ensures { result ≡ ending shell.now status }
{
    match shell.traps.action(Condition::Exit) {
        Some([_, ..]) => Action::Trapping(status),
        Some([]) => Action::Ending(status),
        None => Action::Ending(status),
    }
}

/// With no form around it what leaves the shell, or is done, becomes its end.
fn at_end(shell: &Shell, active: Active) -> Active
    ensures { Run.At result ≡ at_root shell.now (Run.At active) }
{
    match active {
        Active::Leaving(leave) => Active::Next(ending(shell, leave.shell_status())),
        Active::Done(ended) => Active::Next(ending(shell, ended.status)),
        Active::Next(place) => Active::Next(place),
        Active::Acting(invocation, fields) => Active::Acting(invocation, fields),
        Active::Calling(body, fields) => Active::Calling(body, fields),
        Active::Evaluating(how, text) => Active::Evaluating(how, text),
    }
}

/// At the root what leaves the shell becomes its end.
pub(crate) fn root(shell: &Shell, frames: &Frames, active: Active) -> Active
    ensures { run_of frames.now result ≡ at_root shell.now (run_of frames.now active) }
{
    match frames.as_slice() {
        [] => at_end(shell, active),
        [_, ..] => active,
    }
}

/// A shell with these running forms and this active place.
pub(crate) fn interpreter_of(shell: Shell, frames: Frames, active: Active) -> Interpreter
    ensures { result ≡ record { shell = shell; run = run_of frames active } }
{
    Interpreter {
        shell,
        frames,
        active,
    }
}

/// What runs in a process that was made, if one was.
fn unboxed(child: Option<Boxed<Interpreter>>) -> Option<Interpreter>
    ensures { result ≡ child }
{
    match child {
        Some(made) => Some(made.into_inner()),
        None => None,
    }
}

impl Interpreter {
    /// A shell that is about to read its text.
    pub fn reading(alloc: Global, shell: Shell, text: Text) -> Self
        ensures { result ≡ record { shell = shell; run = Run.At (Active.Next (Action.Reading text 0)) } }
    {
        Interpreter::at(alloc, shell, Action::Reading(Rest::new(text), 0))
    }

    /// A shell that is about to do this alone.
    pub fn at(alloc: Global, shell: Shell, place: Action) -> Self
        ensures { result ≡ record { shell = shell; run = Run.At (Active.Next place) } }
    {
        interpreter_of(shell, Frames::new(alloc), Active::Next(place))
    }

    /// The shell: its environment, and the number of its process.
    pub fn shell(&self) -> &Shell
        ensures { result.now ≡ self.now.shell }
    {
        &self.shell
    }

    /// Its active place: what it is about to do.
    #[tactic(auto, using(crate::proofs::Frames::active_within))]
    pub fn active(&self) -> &Active
        ensures { result.now ≡ active_of self.now.run }
    {
        &self.active
    }

    /// The running forms round its active place, the outermost first, each with whether a failure inside it is ignored. With
    /// that place they are the whole of what it runs. Takes no memory.
    #[tactic(auto, using(crate::proofs::Frames::path_within))]
    pub fn frames(&self) -> &[Frame]
        ensures frames { result.now ≡ frames_of self.now.run }
        ensures tree { run_of (forms_in (reverse result.now)) (active_of self.now.run) ≡ self.now.run }
    {
        self.frames.as_slice()
    }

    /// It goes on at this action, inside the forms that it is in.
    #[tactic(auto, using(crate::proofs::Frames::placed_within))]
    pub fn go_to(&mut self, place: Action)
        ensures { self.new ≡ record self.old { run = with_active self.old.run (Active.Next place) } }
    {
        drop(mem::replace(&mut self.active, Active::Next(place)));
    }

    /// A copy, which is equal: the same shell at the same place of the same tree. The only error is want of memory.
    pub fn copy(&self, alloc: Global) -> Result<Interpreter, NoMemory>
        ensures { IfOk result (λ interpreter. interpreter ≡ self.now) }
    {
        let active = self.active.copy(alloc)?;
        let frames = match self.frames.copy(alloc) {
            Ok(frames) => frames,
            Err(lack) => {
                drop(active);
                return Err(lack);
            },
        };
        match self.shell.copy(alloc) {
            Ok(shell) => Ok(interpreter_of(shell, frames, active)),
            Err(lack) => {
                drop(frames);
                drop(active);
                Err(lack)
            },
        }
    }

    /// One turn, and what runs in the process that it made, if it made one. The only error is want of memory, after which
    /// the shell is given up.
    pub fn turn(
        &mut self,
        alloc: Global,
        kernel: &mut Kernel,
    ) -> Result<Option<Interpreter>, NoMemory>
        ensures state { (s : KernelState) → StandsAt kernel.old s → IfOk result (λ child.
            IsTurned kernel.new self.new.shell self.new.run child (shell_turn s self.old)) }
        ensures terminal { Extends kernel.old.terminal.bytes kernel.new.terminal.bytes }
        ensures watch { kernel.new.watch ≡ kernel.old.watch }
    {
        let active = mem::replace(&mut self.active, Active::Done(CommandStatus::unexcused(0)));
        let active = drop_first(alloc, kernel, &mut self.shell, &mut self.frames, active)?;
        let (next, child) = reduce(alloc, kernel, &mut self.shell, &mut self.frames, active)?;
        drop(mem::replace(&mut self.active, root(&self.shell, &self.frames, next)));
        Ok(unboxed(child))
    }
}
