//! The reading of the next command of a text.
ghost use Rattle.std.specs.Prelude.{◌≡◌, IfOk};
ghost use Rattle.sh_exec_command.specs.Reading.{next_command};
ghost use Rattle.sh_exec_forms.specs.Stacks.{run_in, run_of};
ghost use Rattle.sh_exec_forms.specs.Frames.{ends_shell};
ghost use Rattle.sh_exec_turns.specs.Acting.{after_refusal, is_fatal, read_turn};

use sh_base::NoMemory;
use sh_builtin_shell::Shell;
use sh_exec_actions::status::ERROR;
use sh_exec_actions::{Action, Active, CommandStatus, Form, failing};
use sh_exec_command::{Found, find_command};
use sh_exec_forms::{Frames, enter};
use sh_exec_parts::message::{Refusal, refused};
use sh_exec_parts::{Queue, Rest};
use std::alloc::Global;

/// Whether a text that is refused ends the shell, where one that `command` has run may not.
fn is_fatal(ends_shell: bool, why: Refusal) -> bool
    ensures { result ≡ is_fatal ends_shell why }
{
    match why {
        Refusal::Syntax => ends_shell,
        Refusal::BadSubstitution => ends_shell,
        Refusal::TooDeep => true,
    }
}

/// A text is refused.
pub(crate) fn refuse(alloc: Global, ends_shell: bool, why: Refusal) -> Result<Active, NoMemory>
    ensures { IfOk result (λ active. active ≡ after_refusal ends_shell why) }
{
    let finish = failing(is_fatal(ends_shell, why), ERROR);
    let piece = refused(alloc, why)?;
    Ok(Active::Next(Action::Writing(piece, finish)))
}

/// A reading turn (XCU 2.1): the next complete command of the rest of a text, by the shell's aliases (XCU 2.3.1), is entered inside the forms; where none follows the text is done with
/// `status`, that of its last command. What is refused has a message, which may end the shell (2.8.1); where `reads_on` what follows that is read
/// then. The only error is want of memory, after
/// which the shell is given up.
pub fn read(
    alloc: Global,
    frames: &mut Frames,
    rest: Rest,
    status: u8,
    reads_on: bool,
    shell: &Shell,
) -> Result<Active, NoMemory>
    ensures { IfOk result (λ active. run_of frames.new active
        ≡ run_in frames.old (read_turn (ends_shell frames.old) reads_on shell.now.vars status (next_command shell.now.aliases rest))) }
{
    match find_command(alloc, &shell.aliases, rest)? {
        Found::Nothing => Ok(Active::Done(CommandStatus::unexcused(status))),
        Found::Command(tree, rest) => {
            let items = Queue::new(tree.into_items());
            match frames.push(Form::Text(rest)) {
                Ok(()) => {},
                Err(lack) => {
                    drop(items);
                    return Err(lack);
                },
            }
            let step = enter(
                alloc,
                frames,
                items,
                CommandStatus::unexcused(shell.vars.status()),
            )?;
            Ok(step.into_active())
        },
        Found::Fault(why, rest) => {
            let ends_shell = frames.ends_shell();
            if reads_on {
                frames.push(Form::Text(rest))?;
            }
            refuse(alloc, ends_shell, why)
        },
    }
}
