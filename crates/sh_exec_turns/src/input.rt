//! Reading the next command of an interactive shell.
ghost use Rattle.std.specs.Prelude.{◌≡◌, ◌++◌, [], Bool, IfOk};
ghost use Rattle.sh_aliases.specs.Aliases.{AliasTable};
ghost use Rattle.sh_builtin_shell.specs.declared.shell.Shell.{Shell};
ghost use Rattle.sh_exec_command.specs.Reading.{input_found};
ghost use Rattle.sh_exec_command.specs.declared.found.InputFound.TheVariants as found;
ghost use Rattle.sh_exec_settling.specs.Forms.{IsActed};
ghost use Rattle.sh_exec_forms.specs.Stacks.{run_in, run_of};
ghost use Rattle.sh_exec_machine.specs.declared.transfer.ReadOutcome.TheVariants as taken;
ghost use Rattle.sh_exec_turns.specs.Acting.{in_forms};
ghost use Rattle.sh_exec_turns.specs.Input.{behind_beginning, behind_blank, ends_line, input_read, input_run, input_taken, input_turn};
ghost use Rattle.sh_kernel.specs.State.{KernelState, StandsAt};

use crate::reading::refuse;
use sh_aliases::Aliases;
use sh_base::NoMemory;
use sh_base::sequence::Text;
use sh_builtin_shell::Shell;
use sh_exec_actions::{Action, Active, Beginning, CommandStatus, Form};
use sh_exec_command::{InputFound, find_input};
use sh_exec_forms::{Frames, enter};
use sh_exec_machine::{ReadOutcome, take_bytes};
use sh_exec_parts::Queue;
use sh_exec_parts::message::Refusal;
use sh_exec_settling::{input_action, most_read};
use sh_kernel::Kernel;
use sh_kernel_descriptors::DescriptorRef;
use sh_syntax::tree::CompoundList;
use std::alloc::Global;

/// Whether a text ends behind a newline.
fn ends_line(text: &[u8]) -> bool
    ensures { result ≡ ends_line text.now }
{
    match text.get(text.len().saturating_sub(1)) {
        Some(byte) => *byte == b'\n',
        None => false,
    }
}

/// What follows the beginning of a command.
fn behind_beginning(kernel: &Kernel, shell: &Shell, beginning: Beginning) -> Action
    ensures { (s : KernelState) → StandsAt kernel.now s → result ≡ behind_beginning s shell.now beginning }
{
    if ends_line(beginning.text.as_slice()) {
        return input_action(kernel, shell, beginning);
    }
    Action::ReadInput(beginning)
}

/// What follows lines without a command.
fn behind_blank(kernel: &Kernel, shell: &Shell, rest: Text, is_end: bool) -> Active
    ensures { (s : KernelState) → StandsAt kernel.now s
        → run_of [] result ≡ behind_blank is_end s shell.now rest }
{
    if is_end {
        return Active::Done(CommandStatus::unexcused(shell.vars.status()));
    }
    let beginning = Beginning::not_begun(rest);
    Active::Next(input_action(kernel, shell, beginning))
}

/// A command is entered.
fn enter_input(
    alloc: Global,
    shell: &Shell,
    frames: &mut Frames,
    tree: CompoundList,
    rest: Text,
) -> Result<Active, NoMemory>
    ensures { (s : KernelState) → (is_end : Bool) → (aliases : AliasTable) → IfOk result (λ active.
        run_of frames.new active
        ≡ run_in frames.old (input_run is_end s shell.now aliases (found.Command tree rest))) }
{
    let items = Queue::new(tree.into_items());
    match frames.push(Form::Input(rest)) {
        Ok(()) => {},
        Err(lack) => {
            drop(items);
            return Err(lack);
        },
    }
    let ended = CommandStatus::unexcused(shell.vars.status());
    let step = enter(alloc, frames, items, ended)?;
    Ok(step.into_active())
}

/// What was read is refused.
fn refuse_input(alloc: Global, frames: &mut Frames, why: Refusal) -> Result<Active, NoMemory>
    ensures { (s : KernelState) → (shell : Shell) → (is_end : Bool) → (aliases : AliasTable) → IfOk result (λ active.
        run_of frames.new active
        ≡ run_in frames.old (input_run is_end s shell aliases (found.Fault why))) }
{
    frames.push(Form::Input(Text::new(alloc)))?;
    refuse(alloc, true, why)
}

/// What follows what was read so far, by these aliases.
fn read_so_far(
    alloc: Global,
    kernel: &Kernel,
    shell: &Shell,
    frames: &mut Frames,
    aliases: Aliases,
    text: Text,
    is_end: bool,
) -> Result<Active, NoMemory>
    ensures { (s : KernelState) → StandsAt kernel.now s → IfOk result (λ active.
        IsActed kernel.now shell.now (run_of frames.new active)
        (in_forms frames.old (input_read is_end s shell.now aliases text))) }
{
    let found = match find_input(alloc, &aliases, text, is_end) {
        Ok(found) => found,
        Err(lack) => {
            drop(aliases);
            return Err(lack);
        },
    };
    match found {
        InputFound::Command(tree, rest) => {
            drop(aliases);
            let active = enter_input(alloc, shell, frames, tree, rest)?;
            Ok(active)
        },
        InputFound::Blank(rest) => {
            drop(aliases);
            Ok(behind_blank(kernel, shell, rest, is_end))
        },
        InputFound::More(text) => {
            let beginning = Beginning::begun(aliases, text);
            Ok(Active::Next(behind_beginning(kernel, shell, beginning)))
        },
        InputFound::Fault(why) => {
            drop(aliases);
            let active = refuse_input(alloc, frames, why)?;
            Ok(active)
        },
    }
}

/// What follows a read of some bytes.
fn read_bytes(
    alloc: Global,
    kernel: &Kernel,
    shell: &Shell,
    frames: &mut Frames,
    beginning: Beginning,
    bytes: &[u8],
) -> Result<Active, NoMemory>
    ensures { (s : KernelState) → StandsAt kernel.now s → IfOk result (λ active.
        IsActed kernel.now shell.now (run_of frames.new active)
        (in_forms frames.old (input_taken s shell.now beginning (taken.Bytes bytes.now)))) }
{
    let (aliases, mut text) = beginning.into_parts(alloc, &shell.aliases)?;
    let is_end = bytes.is_empty();
    match text.extend_from_slice(bytes) {
        Ok(()) => {},
        Err(error) => {
            drop(text);
            drop(aliases);
            return Err(NoMemory::from(error));
        },
    }
    let active = read_so_far(alloc, kernel, shell, frames, aliases, text, is_end)?;
    Ok(active)
}

/// What follows a read that failed, as at the end of the file.
fn read_nothing(
    alloc: Global,
    kernel: &Kernel,
    shell: &Shell,
    frames: &mut Frames,
    beginning: Beginning,
) -> Result<Active, NoMemory>
    ensures { (s : KernelState) → StandsAt kernel.now s → IfOk result (λ active.
        IsActed kernel.now shell.now (run_of frames.new active)
        (in_forms frames.old (input_taken s shell.now beginning taken.Failed))) }
{
    let (aliases, text) = beginning.into_parts(alloc, &shell.aliases)?;
    let active = read_so_far(alloc, kernel, shell, frames, aliases, text, true)?;
    Ok(active)
}

/// What follows a read.
fn read_by(
    alloc: Global,
    kernel: &Kernel,
    shell: &Shell,
    frames: &mut Frames,
    beginning: Beginning,
    told: ReadOutcome,
) -> Result<Active, NoMemory>
    ensures { (s : KernelState) → StandsAt kernel.now s → IfOk result (λ active.
        IsActed kernel.now shell.now (run_of frames.new active)
        (in_forms frames.old (input_taken s shell.now beginning told))) }
{
    match told {
        ReadOutcome::Bytes(bytes) => {
            let active = read_bytes(alloc, kernel, shell, frames, beginning, bytes.as_slice())?;
            Ok(active)
        },
        ReadOutcome::Wait => Ok(Active::Next(Action::ReadInput(beginning))),
        ReadOutcome::Failed => {
            let active = read_nothing(alloc, kernel, shell, frames, beginning)?;
            Ok(active)
        },
    }
}

/// The turn in which an interactive shell reads its next command by descriptor 0 (XCU 2.1), behind the beginning that it has read so far: a line of
/// the terminal, or one byte elsewhere. Once a command is complete it is entered inside the forms. Where more is needed the next line is prompted
/// for. What is refused has a message, and is dropped. At the end of the file the shell ends, with the status of its last command, if no command
/// has begun. The only error is want of memory, after which the shell is given up.
#[tactic(auto, unfolding(crate::specs::Input::input_turn))]
pub fn input_turn(
    alloc: Global,
    kernel: &mut Kernel,
    shell: &Shell,
    frames: &mut Frames,
    beginning: Beginning,
) -> Result<Active, NoMemory>
    ensures state { (s : KernelState) → StandsAt kernel.old s → IfOk result (λ active.
        IsActed kernel.new shell.now (run_of frames.new active)
        (in_forms frames.old (input_turn s shell.now beginning))) }
    ensures terminal { kernel.new.terminal.bytes ≡ kernel.old.terminal.bytes }
    ensures watch { kernel.new.watch ≡ kernel.old.watch }
{
    let count = most_read(kernel, shell.pid);
    match take_bytes(alloc, kernel, shell.pid, DescriptorRef::Number(0), count) {
        Ok(told) => {
            let active = read_by(alloc, kernel, shell, frames, beginning, told)?;
            Ok(active)
        },
        Err(lack) => {
            drop(beginning);
            Err(lack)
        },
    }
}
