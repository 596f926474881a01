//! A simple command from its tree to its first place, and from its expanded words to what it does.
ghost use Rattle.std.specs.Prelude.{◌≡◌, IfOk, [], option_map};
ghost use Rattle.sh_builtin_environment.specs.Options.{options_and_operands};
ghost use Rattle.sh_exec_actions.specs.Statuses as statuses;
ghost use Rattle.sh_exec_actions.specs.Preparing.{ahead, command_role, exec_role, fields_of, fields_run, first_move, failing, failing_of, first_place, forks, nameless, no_undo, not_done, final_move, prepared_of, role_behind, role_by, role_run, role_of, staying, wants_of};

use crate::action::{
    Action, Active, ExpandedCommand, Finish, Move, ProgramStart, Role, ToExpand, Undo,
};
use crate::status::{CommandStatus, ERROR};
use sh_base::NoMemory;
use sh_base::sequence::{Sequence, Text, copies_of};
use sh_base::shared::Shared;
use sh_builtin_environment::parse_options;
use sh_builtin_outcome::{Builtin, Functions, Invocation, behind_command};
use sh_exec_parts::Queue;
use sh_exec_parts::message::{Piece, not_redirected};
use sh_exec_parts::redirection::prepared_redirections;
use sh_exec_parts::simple::{
    assignments_of, has_redirects, has_words, items_of, redirect_count, split_fields,
};
use sh_kernel_descriptors::KernelFault;
use sh_syntax::tree::Command;
use sh_vars::Vars;
use std::alloc::Global;

/// An error that ends the shell (XCU 2.8.1), whose message is this. Takes no memory.
pub fn fatal_message(piece: Piece) -> Active
    ensures { result ≡ Active.Next (Action.Writing piece (Finish.Fault statuses.error)) }
{
    Active::Next(Action::Writing(piece, Finish::Fault(ERROR)))
}

/// A command that has changed nothing yet. Takes no memory.
pub fn no_undo(alloc: Global, command: Shared<Command>) -> Undo
    ensures { result ≡ no_undo command }
{
    Undo {
        command,
        descriptors: Sequence::new(alloc),
        variables: Sequence::new(alloc),
        redirections_stay: false,
    }
}

/// What `exec` changed, whose redirections stay.
fn staying(undo: Undo) -> Undo
    ensures { result ≡ staying undo }
{
    let mut undo = undo;
    undo.redirections_stay = true;
    undo
}

/// A command of assignments alone.
#[tactic(auto, unfolding(crate::specs::Preparing::nameless))]
fn nameless(alloc: Global, command: Shared<Command>) -> Result<ExpandedCommand, NoMemory>
    ensures { IfOk result (λ p. p ≡ nameless command) }
{
    let assignments = match assignments_of(alloc, items_of(command.get())) {
        Ok(assignments) => assignments,
        Err(lack) => {
            drop(command);
            return Err(lack);
        },
    };
    Ok(ExpandedCommand {
        role: Role::NoCommandName,
        fields: Sequence::new(alloc),
        redirections: Queue::new(Sequence::new(alloc)),
        assignments: Queue::new(assignments),
        undo: no_undo(alloc, command),
        status: 0,
        has_words: false,
    })
}

/// What of a command is expanded first.
fn wants_of(alloc: Global, in_place: bool, command: Shared<Command>) -> Result<ToExpand, NoMemory>
    ensures { IfOk result (λ wants. wants ≡ wants_of in_place command) }
{
    if has_words(items_of(command.get())) || has_redirects(items_of(command.get())) {
        return Ok(ToExpand::Words {
            command,
            in_place,
            status: 0,
        });
    }
    let prepared = nameless(alloc, command)?;
    Ok(ToExpand::Values(prepared))
}

/// The first place of a simple command; the process is there for it alone if `in_place`.
#[tactic(auto, unfolding(crate::specs::Preparing::first_place))]
pub fn first_place(
    alloc: Global,
    in_place: bool,
    command: Shared<Command>,
) -> Result<Action, NoMemory>
    ensures { IfOk result (λ place. place ≡ first_place in_place command) }
{
    let wants = wants_of(alloc, in_place, command)?;
    Ok(Action::Expanding(wants, None))
}

/// What runs the command of a name.
fn role_by(builtin: Option<Builtin>, body: Option<&Shared<Command>>) -> Result<Role, NoMemory>
    ensures { IfOk result (λ role.
        role ≡ role_by builtin (option_map (λ body. body.now) body.entry)) }
{
    match builtin {
        Some(builtin) => match body {
            Some(body) => {
                if builtin.is_special() {
                    return Ok(Role::Builtin(Invocation::by_name(builtin)));
                }
                Ok(Role::Function(body.share()?))
            },
            None => Ok(Role::Builtin(Invocation::by_name(builtin))),
        },
        None => match body {
            Some(body) => Ok(Role::Function(body.share()?)),
            None => Ok(Role::Program),
        },
    }
}

/// What runs the command of a name behind `command`.
fn command_role(builtin: Option<Builtin>) -> Role
    ensures { result ≡ command_role builtin }
{
    match builtin {
        Some(builtin) => Role::Builtin(Invocation::by_command(builtin)),
        None => Role::Program,
    }
}

/// What runs `exec` with these arguments.
fn exec_role(exec: Invocation, arguments: &[Text]) -> Role
    ensures { result ≡ exec_role exec (options_and_operands [] arguments.now) }
{
    match parse_options(b"", arguments) {
        Some((_, operands)) => Role::Exec {
            is_command: !operands.is_empty(),
            is_special: exec.is_special,
        },
        None => Role::Builtin(exec),
    }
}

/// The name of the command that is run, and its arguments.
fn fields_of(words: &[Text]) -> &[Text]
    ensures { result.now ≡ fields_of words.now }
{
    match words.split_first() {
        Some((name, arguments)) => {
            if !Builtin::Exec.is_named(name.as_slice()) {
                return words;
            }
            match parse_options(b"", arguments) {
                Some((_, operands)) => operands,
                None => words,
            }
        },
        None => words,
    }
}

/// What runs the command of these fields.
fn role_of(functions: &Functions, fields: &[Text]) -> Result<Role, NoMemory>
    ensures { IfOk result (λ role. role ≡ role_of functions.now fields.now) }
{
    match fields.split_first() {
        Some((name, arguments)) => {
            if Builtin::Exec.is_named(name.as_slice()) {
                return Ok(exec_role(Invocation::by_name(Builtin::Exec), arguments));
            }
            role_by(
                Builtin::of(name.as_slice()),
                functions.body(name.as_slice()),
            )
        },
        None => Ok(Role::NoCommandName),
    }
}

/// What runs the command of these fields behind `command`.
fn role_behind(fields: &[Text]) -> Role
    ensures { result ≡ role_behind fields.now }
{
    match fields.split_first() {
        Some((name, arguments)) => {
            if Builtin::Exec.is_named(name.as_slice()) {
                return exec_role(Invocation::by_command(Builtin::Exec), arguments);
            }
            command_role(Builtin::of(name.as_slice()))
        },
        None => Role::NoCommandName,
    }
}

/// What runs the words of a simple command, where `command` is before those behind it.
fn role_run(
    functions: &Functions,
    words: &[Text],
    behind: Option<&[Text]>,
) -> Result<Role, NoMemory>
    ensures { IfOk result (λ role.
        role ≡ role_run functions.now words.now (option_map (λ words. words.now) behind.entry)) }
{
    match behind {
        Some(behind) => Ok(role_behind(behind)),
        None => role_of(functions, words),
    }
}

/// The fields of the command that is run.
fn fields_run<'a>(words: &'a [Text], behind: Option<&'a [Text]>) -> &'a [Text]
    ensures { result.now ≡ fields_run words.now (option_map (λ words. words.now) behind.entry) }
{
    match behind {
        Some(behind) => fields_of(behind),
        None => fields_of(words),
    }
}

/// A command whose words came to these fields.
#[tactic(auto, unfolding(crate::specs::Preparing::prepared_of))]
pub fn prepare(
    alloc: Global,
    vars: &Vars,
    functions: &Functions,
    command: &Shared<Command>,
    fields: &[Text],
    status: u8,
) -> Result<ExpandedCommand, NoMemory>
    ensures { IfOk result (λ p.
        p ≡ prepared_of vars.now functions.now command.now fields.now status) }
{
    let items = items_of(command.get());
    let (words, redirects) = split_fields(fields, redirect_count(items));
    let redirections = prepared_redirections(alloc, items, redirects, vars.options().no_clobber)?;
    let assignments = assignments_of(alloc, items)?;
    let behind = behind_command(functions, words);
    let role = role_run(functions, words, behind)?;
    let fields = copies_of(alloc, fields_run(words, behind))?;
    Ok(ExpandedCommand {
        role,
        fields: Sequence::from_vec(fields),
        redirections,
        assignments: Queue::new(assignments),
        undo: no_undo(alloc, command.share()?),
        status,
        has_words: true,
    })
}

/// What follows the message of an error (XCU 2.8.1): the shell ends with this status, or the command has it. Takes no memory.
pub fn failing(ends_shell: bool, status: u8) -> Finish
    ensures { result ≡ failing ends_shell status }
{
    if ends_shell {
        return Finish::Fault(status);
    }
    Finish::Status(status)
}

/// What follows the message of a redirection that can't be done.
fn failing_of(role: Role) -> Finish
    ensures { result ≡ failing_of role }
{
    match role {
        Role::NoCommandName => Finish::Status(ERROR),
        Role::Builtin(invocation) => failing(invocation.is_special, ERROR),
        Role::Function(_) => Finish::Status(ERROR),
        Role::Program => Finish::Fault(ERROR),
        Role::Exec { is_special, .. } => failing(is_special, ERROR),
        Role::Compound(_) => Finish::Status(ERROR),
        Role::Subshell(_) => Finish::Status(ERROR),
    }
}

/// A program is started next.
fn starting(fields: Sequence<Text>, ends_shell: bool) -> Active
    ensures { result ≡ Active.Next (Action.Starting (record { fields = fields; ends_shell = ends_shell })) }
{
    Active::Next(Action::Starting(ProgramStart { fields, ends_shell }))
}

/// What a command does, once all else is done.
#[tactic(auto, unfolding(crate::specs::Preparing::final_move))]
pub fn perform(prepared: ExpandedCommand) -> Move
    ensures { result ≡ final_move prepared }
{
    let ExpandedCommand {
        role,
        fields,
        undo,
        status,
        ..
    } = prepared;
    match role {
        Role::NoCommandName => Move::Held(undo, Active::Done(CommandStatus::unexcused(status))),
        Role::Builtin(invocation) => Move::Held(undo, Active::Acting(invocation, fields)),
        Role::Function(body) => Move::Held(undo, Active::Calling(body, fields)),
        Role::Program => Move::At(starting(fields, true)),
        Role::Exec {
            is_command: true,
            is_special,
        } => Move::Held(staying(undo), starting(fields, is_special)),
        Role::Exec {
            is_command: false,
            ..
        } => {
            let done = Active::Done(CommandStatus::unexcused(0));
            Move::Held(staying(undo), done)
        },
        Role::Compound(command) => Move::Compound(undo, command),
        Role::Subshell(list) => Move::Subshell(list),
    }
}

/// Where a command goes on once its words are expanded, or a redirection is done: first its redirections,
/// then its assignments. Takes no memory.
#[tactic(auto, unfolding(crate::specs::Preparing::ahead))]
pub fn go_ahead(prepared: ExpandedCommand) -> Move
    ensures { result ≡ ahead prepared }
{
    if !prepared.redirections.is_empty() {
        return Move::At(Active::Next(Action::Redirecting(prepared)));
    }
    if !prepared.assignments.is_empty() {
        let wants = ToExpand::Values(prepared);
        return Move::At(Active::Next(Action::Expanding(wants, None)));
    }
    perform(prepared)
}

/// Whether a command runs in a process that is made for it.
fn forks(role: &Role, in_place: bool) -> bool
    ensures { result ≡ forks role.now in_place }
{
    match role {
        Role::NoCommandName => false,
        Role::Builtin(_) => false,
        Role::Function(_) => false,
        Role::Program => !in_place,
        Role::Exec { .. } => false,
        Role::Compound(_) => false,
        Role::Subshell(_) => false,
    }
}

/// Where a command whose words are expanded goes on.
#[tactic(auto, unfolding(crate::specs::Preparing::first_move))]
pub fn begin_command(in_place: bool, prepared: ExpandedCommand) -> Move
    ensures { result ≡ first_move in_place prepared }
{
    if forks(&prepared.role, in_place) {
        return Move::At(Active::Next(Action::Forking(prepared)));
    }
    go_ahead(prepared)
}

/// Where a command goes on after a redirection that can't be done, which a message names by this word.
#[tactic(auto, unfolding(crate::specs::Preparing::not_done))]
pub fn not_done(
    alloc: Global,
    prepared: ExpandedCommand,
    word: &[u8],
    fault: KernelFault,
) -> Result<Move, NoMemory>
    ensures { IfOk result (λ m. m ≡ not_done prepared word.now fault) }
{
    let ExpandedCommand { role, undo, .. } = prepared;
    let piece = not_redirected(alloc, word, fault)?;
    let active = Active::Next(Action::Writing(piece, failing_of(role)));
    Ok(Move::Held(undo, active))
}
