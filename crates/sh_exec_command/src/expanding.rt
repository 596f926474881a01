//! The expansion turn of a simple command's words.
ghost use Rattle.std.specs.Prelude.{◌≡◌, IfOk};
ghost use Rattle.sh_exec_parts.specs.Messages.{fault_text};
ghost use Rattle.sh_exec_parts.specs.Simple.{items_of};
ghost use Rattle.sh_exec_parts.specs.Wants.{wanted_of};
ghost use Rattle.sh_exec_command.specs.Expanding.{start_of, words_turn};
ghost use Rattle.sh_exec_actions.specs.Preparing.{fatal, first_move, prepared_of};
ghost use Rattle.sh_expand.specs.Answers.{fields_in};
ghost use Rattle.sh_expand.specs.Pendings.{IsKept, result_of};

use sh_base::NoMemory;
use sh_base::sequence::{Sequence, Text};
use sh_base::shared::Shared;
use sh_builtin_shell::Functions;
use sh_exec_actions::{
    Action, Active, Expanded, Move, ToExpand, begin_command, fatal_message, prepare,
};
use sh_exec_parts::message::not_expanded;
use sh_exec_parts::simple::items_of;
use sh_exec_parts::wanted::wanted_of;
use sh_expand::{Pending, Progress, Wanted};
use sh_expand_parts::Fault;
use sh_files::Files;
use sh_syntax::tree::Command;
use sh_vars::Vars;
use std::alloc::Global;

/// Words are expanded to fields from where their expansion waits, or from the first one on where none waits.
pub(crate) fn expand(
    alloc: Global,
    wanted: Sequence<Wanted>,
    pending: Option<Pending>,
    vars: &mut Vars,
    files: &Files,
) -> Result<Progress, NoMemory>
    ensures result { IfOk result (λ p.
        result_of p vars.new ≡ fields_in files.now (start_of vars.old wanted pending)) }
    ensures kept { IfOk result (λ p. IsKept p (start_of vars.old wanted pending)) }
{
    match pending {
        Some(waiting) => Ok(waiting.resume(alloc, vars, files)?),
        None => Ok(Pending::begin(alloc, wanted, vars, files)?),
    }
}

/// What the words of a command and of its redirections come to.
fn expand_words(
    alloc: Global,
    command: &Command,
    pending: Option<Pending>,
    vars: &mut Vars,
    files: &Files,
) -> Result<Progress, NoMemory>
    ensures result { IfOk result (λ p.
        result_of p vars.new ≡ fields_in files.now
        (start_of vars.old (wanted_of (items_of command.now)) pending)) }
    ensures kept { IfOk result (λ p.
        IsKept p (start_of vars.old (wanted_of (items_of command.now)) pending)) }
{
    match pending {
        Some(pending) => Ok(pending.resume(alloc, vars, files)?),
        None => {
            let wanted = wanted_of(alloc, items_of(command))?;
            Ok(Pending::begin(alloc, wanted, vars, files)?)
        },
    }
}

/// What follows the fields that the words came to.
fn begin(
    alloc: Global,
    command: Shared<Command>,
    in_place: bool,
    status: u8,
    fields: Sequence<Text>,
    vars: &Vars,
    functions: &Functions,
) -> Result<Expanded, NoMemory>
    ensures { IfOk result (λ e.
        e ≡ Expanded.Go
        (first_move in_place (prepared_of vars.now functions.now command fields status))) }
{
    let prepared = prepare(alloc, vars, functions, &command, fields.as_slice(), status);
    drop(fields);
    drop(command);
    let next = begin_command(in_place, prepared?);
    Ok(Expanded::Go(next))
}

/// The turn is over with a fault of the words.
pub(crate) fn fail(alloc: Global, fault: Fault) -> Result<Expanded, NoMemory>
    ensures { IfOk result (λ e. e ≡ Expanded.Go (Move.At (fatal (fault_text fault)))) }
{
    let piece = not_expanded(alloc, fault)?;
    Ok(Expanded::Go(Move::At(fatal_message(piece))))
}

/// The expansion turn of the words of a simple command and of its redirections (XCU 2.9.1.1), with the answers so
/// far, in a shell with these functions. The only error is want of memory; what the variables are then is left open.
#[tactic(auto, unfolding(crate::specs::Expanding::words_turn))]
pub fn words_turn(
    alloc: Global,
    command: Shared<Command>,
    in_place: bool,
    status: u8,
    pending: Option<Pending>,
    vars: &mut Vars,
    functions: &Functions,
    files: &Files,
) -> Result<Expanded, NoMemory>
    ensures { IfOk result (λ e.
        record { environment = vars.new; outcome = e } ≡ words_turn files.now vars.old functions.now
        command in_place status pending) }
{
    match expand_words(alloc, command.get(), pending, vars, files)? {
        Progress::Need { program, pending } => Ok(Expanded::Need {
            program,
            wants: ToExpand::Words {
                command,
                in_place,
                status,
            },
            pending,
        }),
        Progress::Fields(fields) => {
            begin(alloc, command, in_place, status, fields, vars, functions)
        },
        Progress::Fault(fault) => fail(alloc, fault),
    }
}
