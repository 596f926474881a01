//! The redirections of a compound command.
ghost use Rattle.std.specs.Prelude.{◌≡◌, IfOk, map};
ghost use Rattle.sh_exec_command.specs.Expanding.{start_of};
ghost use Rattle.sh_exec_actions.specs.Preparing.{ahead};
ghost use Rattle.sh_exec_command.specs.Redirects.{compound_role, redirected, redirects_by, redirects_turn, role_in, role_of_command};
ghost use Rattle.sh_exec_parts.specs.Simple.{compound_redirects, redirect_wanted};
ghost use Rattle.sh_expand.specs.Answers.{fields_in};
ghost use Rattle.sh_expand.specs.Pendings.{IsKept, result_of};
ghost use Rattle.sh_syntax.specs.declared.tree.Command.TheViews as view;

use crate::expanding::fail;
use sh_base::NoMemory;
use sh_base::sequence::{Sequence, Text};
use sh_base::shared::Shared;
use sh_exec_actions::{Expanded, ExpandedCommand, Role, ToExpand, go_ahead, no_undo};
use sh_exec_parts::Queue;
use sh_exec_parts::compound::{compound_redirects, redirections_of, redirects_wanted};
use sh_expand::{Pending, Progress};
use sh_files::Files;
use sh_syntax::tree::{Command, CompoundForm};
use sh_vars::Vars;
use std::alloc::Global;

/// What runs a compound command of this form.
fn role_in(command: &Shared<Command>, form: &CompoundForm) -> Result<Role, NoMemory>
    ensures { IfOk result (λ role. role ≡ role_in command.now (view.out-CompoundForm form.now)) }
{
    match form {
        CompoundForm::Group(_) => Ok(Role::Compound(command.share()?)),
        CompoundForm::Subshell(list) => Ok(Role::Subshell(list.share()?)),
        CompoundForm::If { .. } => Ok(Role::Compound(command.share()?)),
        CompoundForm::Loop { .. } => Ok(Role::Compound(command.share()?)),
        CompoundForm::For { .. } => Ok(Role::Compound(command.share()?)),
        CompoundForm::ForParameters { .. } => Ok(Role::Compound(command.share()?)),
        CompoundForm::Case { .. } => Ok(Role::Compound(command.share()?)),
    }
}

/// What runs a compound command.
#[tactic(auto, unfolding(crate::specs::Redirects::compound_role))]
fn compound_role(command: &Shared<Command>) -> Result<Role, NoMemory>
    ensures { IfOk result (λ role. role ≡ compound_role command.now) }
{
    match command.get() {
        Command::Simple(_) => Ok(Role::NoCommandName),
        Command::Compound(compound) => role_in(command, &compound.get().form),
        Command::Function { .. } => Ok(Role::NoCommandName),
    }
}

/// A compound command the words of whose redirections came to these fields.
#[tactic(auto, unfolding(crate::specs::Redirects::redirected))]
fn redirected(
    alloc: Global,
    command: &Shared<Command>,
    fields: &[Text],
    vars: &Vars,
) -> Result<ExpandedCommand, NoMemory>
    ensures { IfOk result (λ p. p ≡ redirected vars.now command.now fields.now) }
{
    let redirects = compound_redirects(command.get());
    let redirections = redirections_of(alloc, redirects, fields, vars.options().no_clobber)?;
    let role = compound_role(command)?;
    Ok(ExpandedCommand {
        role,
        fields: Sequence::new(alloc),
        redirections,
        assignments: Queue::new(Sequence::new(alloc)),
        undo: no_undo(alloc, command.share()?),
        status: 0,
        has_words: true,
    })
}

/// The words of the redirections are expanded.
fn expand_words(
    alloc: Global,
    command: &Command,
    pending: Option<Pending>,
    vars: &mut Vars,
    files: &Files,
) -> Result<Progress, NoMemory>
    ensures result { IfOk result (λ p.
        result_of p vars.new ≡ fields_in files.now
        (start_of vars.old (map redirect_wanted (compound_redirects command.now)) pending)) }
    ensures kept { IfOk result (λ p.
        IsKept p (start_of vars.old (map redirect_wanted (compound_redirects command.now)) pending)) }
{
    match pending {
        Some(pending) => Ok(pending.resume(alloc, vars, files)?),
        None => {
            let wanted = redirects_wanted(alloc, compound_redirects(command))?;
            Ok(Pending::begin(alloc, wanted, vars, files)?)
        },
    }
}

/// What follows the fields that the words came to.
fn begin(
    alloc: Global,
    command: Shared<Command>,
    fields: Sequence<Text>,
    vars: &Vars,
) -> Result<Expanded, NoMemory>
    ensures { IfOk result (λ e. e ≡ Expanded.Go (ahead (redirected vars.now command fields))) }
{
    let prepared = redirected(alloc, &command, fields.as_slice(), vars);
    drop(fields);
    drop(command);
    let next = go_ahead(prepared?);
    Ok(Expanded::Go(next))
}

/// The turn of the words of a compound command's redirections (XCU 2.9.4), with the answers so far. The only error is want of
/// memory; what the variables are then is left open.
#[tactic(auto, unfolding(crate::specs::Redirects::redirects_turn))]
pub fn redirects_turn(
    alloc: Global,
    command: Shared<Command>,
    pending: Option<Pending>,
    vars: &mut Vars,
    files: &Files,
) -> Result<Expanded, NoMemory>
    ensures { IfOk result (λ e.
        record { environment = vars.new; outcome = e } ≡ redirects_turn files.now vars.old command
        pending) }
{
    match expand_words(alloc, command.get(), pending, vars, files)? {
        Progress::Need { program, pending } => Ok(Expanded::Need {
            program,
            wants: ToExpand::Redirects(command),
            pending,
        }),
        Progress::Fields(fields) => begin(alloc, command, fields, vars),
        Progress::Fault(fault) => fail(alloc, fault),
    }
}
