//! The assignment turn of a simple command.
ghost use Rattle.std.specs.Prelude.{◌≡◌, ◌∷◌, [], IfOk, IsTrue, OnOk};
ghost use Rattle.sh_builtin_environment.specs.Variables.{may_set};
ghost use Rattle.sh_exec_actions.specs.Statuses as statuses;
ghost use Rattle.sh_exec_command.specs.Assigning.{assign_turn, assignments_turn, assigned_by, assigned_one, is_passing, is_undone, with_saved_variable, fatal_step, text_of, undo_with, value_start, value_step, with_assigned};
ghost use Rattle.sh_exec_parts.specs.Messages.{fault_text};
ghost use Rattle.sh_exec_actions.specs.Preparing.{fatal};
ghost use Rattle.sh_expand.specs.Answers.{fields_in};
ghost use Rattle.sh_expand.specs.Pendings.{IsKept, result_of};

use crate::expanding::expand;
use sh_base::NoMemory;
use sh_base::sequence::{Sequence, Text};
use sh_base::shared::Shared;
use sh_builtin_environment::{may_set, set_variable};
use sh_exec_actions::{
    Action, Active, Expanded, ExpandedCommand, Finish, Move, Role, ToExpand, Undo, fatal_message,
    perform,
};
use sh_exec_parts::message::{Piece, not_expanded, read_only};
use sh_exec_parts::save;
use sh_exec_parts::simple::Assignment;
use sh_expand::{Pending, Progress, Wanted};
use sh_expand_parts::{Context, Fault};
use sh_files::Files;
use sh_syntax::tree::{CompoundList, Parts};
use sh_vars::{Vars, VarsFault};
use std::alloc::Global;

/// What one assignment comes to.
#[derive(Drop)]
pub(crate) enum Assigned {
    /// It is done, and the command goes on.
    On(ExpandedCommand),
    /// The turn is over.
    Over(Expanded),
}

/// Whether the variables that are set for a command are exported.
fn is_passing(role: &Role) -> bool
    ensures { result ≡ is_passing role.now }
{
    match role {
        Role::NoCommandName => false,
        Role::Builtin(invocation) => !invocation.is_special,
        Role::Function(_) => true,
        Role::Program => true,
        Role::Exec {
            is_command,
            is_special,
        } => *is_command || !*is_special,
        Role::Compound(_) => false,
        Role::Subshell(_) => false,
    }
}

/// Whether they are brought back after the command.
fn is_undone(role: &Role) -> bool
    ensures { result ≡ is_undone role.now }
{
    match role {
        Role::NoCommandName => false,
        Role::Builtin(invocation) => !invocation.is_special,
        Role::Function(_) => true,
        Role::Program => false,
        Role::Exec { is_special, .. } => !*is_special,
        Role::Compound(_) => false,
        Role::Subshell(_) => false,
    }
}

/// Sets a variable that may be set, for a command.
#[tactic(auto, unfolding(crate::specs::Assigning::with_assigned))]
fn set(vars: &mut Vars, role: &Role, name: &[u8], value: &[u8]) -> Result<(), NoMemory>
    requires { IsTrue (may_set vars.old name.now) }
    ensures { OnOk result (vars.new ≡ with_assigned role.now vars.old name.now value.now) }
{
    set_variable(vars, name, value)?;
    if is_passing(role) {
        return match vars.export(name) {
            Ok(()) => Ok(()),
            Err(VarsFault::NoMemory(lack)) => Err(lack),
            Err(_) => unreachable!(),
        };
    }
    Ok(())
}

/// How an assignment is undone, beside those before it.
#[tactic(auto, unfolding(crate::specs::Assigning::undo_with))]
fn undo_with(
    alloc: Global,
    role: &Role,
    vars: &Vars,
    undo: Undo,
    name: &[u8],
) -> Result<Undo, NoMemory>
    ensures { IfOk result (λ next. next ≡ undo_with role.now vars.now undo name.now) }
{
    if !is_undone(role) {
        return Ok(undo);
    }
    let mut undo = undo;
    undo.variables.push(save(alloc, vars, name)?)?;
    Ok(undo)
}

/// A command with one assignment more to be undone.
fn note(
    alloc: Global,
    prepared: ExpandedCommand,
    vars: &Vars,
    name: &[u8],
) -> Result<ExpandedCommand, NoMemory>
    ensures { IfOk result (λ next. next ≡ with_saved_variable prepared vars.now name.now) }
{
    let ExpandedCommand {
        role,
        fields,
        redirections,
        assignments,
        undo,
        status,
        has_words,
    } = prepared;
    let undo = undo_with(alloc, &role, vars, undo, name)?;
    Ok(ExpandedCommand {
        role,
        fields,
        redirections,
        assignments,
        undo,
        status,
        has_words,
    })
}

/// The turn is over with a fault, whose message is this.
fn stop(prepared: ExpandedCommand, piece: Piece) -> Assigned
    ensures { result ≡ Assigned.Over
        (Expanded.Go
        (Move.Held prepared.undo (Active.Next (Action.Writing piece (Finish.Fault statuses.error))))) }
{
    let ExpandedCommand { undo, .. } = prepared;
    Assigned::Over(Expanded::Go(Move::Held(undo, fatal_message(piece))))
}

/// The assignment of a value.
#[tactic(auto, unfolding(crate::specs::Assigning::value_step))]
fn assign(
    alloc: Global,
    prepared: ExpandedCommand,
    name: &[u8],
    value: &[u8],
    vars: &mut Vars,
) -> Result<Assigned, NoMemory>
    ensures { IfOk result (λ a.
        record { environment = vars.new; outcome = a } ≡ value_step prepared vars.old name.now
        value.now) }
{
    if !may_set(vars, name) {
        let piece = match read_only(alloc, name) {
            Ok(piece) => piece,
            Err(lack) => {
                drop(prepared);
                return Err(lack);
            },
        };
        return Ok(stop(prepared, piece));
    }
    let prepared = note(alloc, prepared, vars, name)?;
    match set(vars, &prepared.role, name, value) {
        Ok(()) => Ok(Assigned::On(prepared)),
        Err(lack) => {
            drop(prepared);
            Err(lack)
        },
    }
}

/// The one text that a value comes to.
pub(crate) fn text_of(fields: &[Text]) -> &[u8]
    ensures { result.now ≡ text_of fields.now }
{
    match fields.first() {
        Some(text) => text.as_slice(),
        None => b"",
    }
}

/// What a value comes to.
fn expand_value(
    alloc: Global,
    assignment: &Assignment,
    pending: Option<Pending>,
    vars: &mut Vars,
    files: &Files,
) -> Result<Progress, NoMemory>
    ensures result { IfOk result (λ p.
        result_of p vars.new ≡ fields_in files.now (value_start vars.old assignment.now pending)) }
    ensures kept { IfOk result (λ p. IsKept p (value_start vars.old assignment.now pending)) }
{
    let mut wanted = Sequence::new(alloc);
    wanted.push(Wanted {
        parts: assignment.value.share()?,
        context: Context::Assignment,
    })?;
    expand(alloc, wanted, pending, vars, files)
}

/// A command whose next assignment is this one again.
fn put_again(prepared: ExpandedCommand, assignment: Assignment) -> Result<ExpandedCommand, NoMemory>
    ensures { IfOk result (λ next.
        next ≡ record prepared { assignments = assignment ∷ prepared.assignments }) }
{
    let mut prepared = prepared;
    prepared.assignments.put_front(assignment)?;
    Ok(prepared)
}

/// An assignment whose value needs a program first is the next one again.
fn wait(
    prepared: ExpandedCommand,
    assignment: Assignment,
    program: Shared<CompoundList>,
    pending: Pending,
) -> Result<Assigned, NoMemory>
    ensures { IfOk result (λ next.
        next ≡ Assigned.Over
        (Expanded.Need program
        (ToExpand.Values (record prepared { assignments = assignment ∷ prepared.assignments }))
        pending)) }
{
    let again = match put_again(prepared, assignment) {
        Ok(again) => again,
        Err(lack) => {
            drop(program);
            drop(pending);
            return Err(lack);
        },
    };
    Ok(Assigned::Over(Expanded::Need {
        program,
        wants: ToExpand::Values(again),
        pending,
    }))
}

/// The assignment of what its value came to.
fn assign_fields(
    alloc: Global,
    prepared: ExpandedCommand,
    assignment: Assignment,
    fields: Sequence<Text>,
    vars: &mut Vars,
) -> Result<Assigned, NoMemory>
    ensures { IfOk result (λ a.
        record { environment = vars.new; outcome = a }
        ≡ value_step prepared vars.old assignment.name (text_of fields)) }
{
    let name = assignment.name.as_slice();
    let next = assign(alloc, prepared, name, text_of(fields.as_slice()), vars);
    drop(fields);
    drop(assignment);
    next
}

/// The turn is over with the fault of a value.
fn fail(alloc: Global, prepared: ExpandedCommand, fault: Fault) -> Result<Assigned, NoMemory>
    ensures { IfOk result (λ a.
        a ≡ Assigned.Over (Expanded.Go (Move.Held prepared.undo (fatal (fault_text fault))))) }
{
    let piece = match not_expanded(alloc, fault) {
        Ok(piece) => piece,
        Err(lack) => {
            drop(prepared);
            return Err(lack);
        },
    };
    Ok(stop(prepared, piece))
}

/// The next assignment of a command, which has those after it.
#[tactic(auto, unfolding(crate::specs::Assigning::assigned_one))]
fn assign_one(
    alloc: Global,
    prepared: ExpandedCommand,
    assignment: Assignment,
    pending: Option<Pending>,
    vars: &mut Vars,
    files: &Files,
) -> Result<Assigned, NoMemory>
    ensures { IfOk result (λ a.
        record { environment = vars.new; outcome = a } ≡ assigned_one files.now vars.old prepared
        assignment pending) }
{
    match expand_value(alloc, &assignment, pending, vars, files)? {
        Progress::Need { program, pending } => wait(prepared, assignment, program, pending),
        Progress::Fields(fields) => assign_fields(alloc, prepared, assignment, fields, vars),
        Progress::Fault(fault) => fail(alloc, prepared, fault),
    }
}

/// The turn of a command's assignments (XCU 2.9.1.2), from left to right, each seeing those before it; the answers so far are
/// for the first of them. The only error is want of memory; what the variables are then is left open.
#[tactic(auto, unfolding(crate::specs::Assigning::assign_turn))]
pub fn assign_turn(
    alloc: Global,
    prepared: ExpandedCommand,
    pending: Option<Pending>,
    vars: &mut Vars,
    files: &Files,
) -> Result<Expanded, NoMemory>
    ensures { IfOk result (λ e.
        record { environment = vars.new; outcome = e } ≡ assign_turn files.now vars.old prepared
        pending) }
{
    let mut prepared = prepared;
    let mut pending = pending;
    'assignments: while let Some(assignment) = prepared.assignments.take() {
        match assign_one(alloc, prepared, assignment, pending, vars, files)? {
            Assigned::On(next) => {
                prepared = next;
                pending = None;
            },
            Assigned::Over(expanded) => return Ok(expanded),
        }
    }
    let next = perform(prepared);
    Ok(Expanded::Go(next))
}
