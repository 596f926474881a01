//! Copies of places and of what they hold, which are equal to what they are copies of.
ghost use Rattle.std.specs.Prelude.{◌≡◌, IfOk};

use crate::action::{
    Action, Active, Case, CaseBranch, ExpandedCommand, Finish, ForLoop, Launch, PipelineWait,
    ProgramStart, Report, Role, Stages, Substitution, ToExpand, Undo,
};
use sh_base::NoMemory;
use sh_base::sequence::{Sequence, Text, copies_of};
use sh_base::shared::Shared;
use sh_builtin_outcome::Completion;
use sh_exec_machine::Undone;
use sh_exec_parts::message::Piece;
use sh_exec_parts::{Copying, Queue, Saved, copy_all};
use sh_expand::Pending;
use sh_syntax::tree::Command;
use std::alloc::Global;

impl Copying for Role {
    fn copy(&self, alloc: Global) -> Result<Role, NoMemory> {
        match self {
            Role::NoCommandName => Ok(Role::NoCommandName),
            Role::Builtin(invocation) => Ok(Role::Builtin(*invocation)),
            Role::Function(body) => Ok(Role::Function(body.copy(alloc)?)),
            Role::Program => Ok(Role::Program),
            Role::Exec {
                is_command,
                is_special,
            } => Ok(Role::Exec {
                is_command: *is_command,
                is_special: *is_special,
            }),
            Role::Compound(command) => Ok(Role::Compound(command.copy(alloc)?)),
            Role::Subshell(list) => Ok(Role::Subshell(list.copy(alloc)?)),
        }
    }
}

/// Copies of what a command changed.
fn copy_changes(alloc: Global, undo: &Undo) -> Result<(Sequence<Undone>, Sequence<Saved>), NoMemory>
    ensures { IfOk result (λ copies. (copies.0 ≡ undo.now.descriptors) × (copies.1 ≡ undo.now.variables)) }
{
    let descriptors = Sequence::copy_of(alloc, undo.descriptors.as_slice())?;
    match copy_all(alloc, undo.variables.as_slice()) {
        Ok(variables) => Ok((descriptors, Sequence::from_vec(variables))),
        Err(lack) => {
            drop(descriptors);
            Err(lack)
        },
    }
}

impl Copying for Undo {
    fn copy(&self, alloc: Global) -> Result<Undo, NoMemory> {
        let command = self.command.copy(alloc)?;
        match copy_changes(alloc, self) {
            Ok((descriptors, variables)) => Ok(Undo {
                command,
                descriptors,
                variables,
                redirections_stay: self.redirections_stay,
            }),
            Err(lack) => {
                drop(command);
                Err(lack)
            },
        }
    }
}

/// Copies of some texts.
fn copy_texts(alloc: Global, texts: &[Text]) -> Result<Sequence<Text>, NoMemory>
    ensures { IfOk result (λ copies. copies ≡ texts.now) }
{
    Ok(Sequence::from_vec(copies_of(alloc, texts)?))
}

impl Copying for ProgramStart {
    fn copy(&self, alloc: Global) -> Result<ProgramStart, NoMemory> {
        let fields = copy_texts(alloc, self.fields.as_slice())?;
        Ok(ProgramStart {
            fields,
            ends_shell: self.ends_shell,
        })
    }
}

impl Copying for ExpandedCommand {
    fn copy(&self, alloc: Global) -> Result<ExpandedCommand, NoMemory> {
        let fields = copy_texts(alloc, self.fields.as_slice())?;
        let redirections = match self.redirections.copy(alloc) {
            Ok(redirections) => redirections,
            Err(lack) => {
                drop(fields);
                return Err(lack);
            },
        };
        let assignments = match self.assignments.copy(alloc) {
            Ok(assignments) => assignments,
            Err(lack) => {
                drop(redirections);
                drop(fields);
                return Err(lack);
            },
        };
        let undo = match self.undo.copy(alloc) {
            Ok(undo) => undo,
            Err(lack) => {
                drop(assignments);
                drop(redirections);
                drop(fields);
                return Err(lack);
            },
        };
        match self.role.copy(alloc) {
            Ok(role) => Ok(ExpandedCommand {
                role,
                fields,
                redirections,
                assignments,
                undo,
                status: self.status,
                has_words: self.has_words,
            }),
            Err(lack) => {
                drop(undo);
                drop(assignments);
                drop(redirections);
                drop(fields);
                Err(lack)
            },
        }
    }
}

impl Copying for ForLoop {
    fn copy(&self, alloc: Global) -> Result<ForLoop, NoMemory> {
        let name = self.name.copy(alloc)?;
        let values = match self.values.copy(alloc) {
            Ok(values) => values,
            Err(lack) => {
                drop(name);
                return Err(lack);
            },
        };
        match self.body.copy(alloc) {
            Ok(body) => Ok(ForLoop { name, values, body }),
            Err(lack) => {
                drop(values);
                drop(name);
                Err(lack)
            },
        }
    }
}

impl Copying for CaseBranch {
    fn copy(&self, alloc: Global) -> Result<CaseBranch, NoMemory> {
        let pattern = self.pattern.copy(alloc)?;
        match self.body.copy(alloc) {
            Ok(body) => Ok(CaseBranch { pattern, body }),
            Err(lack) => {
                drop(pattern);
                Err(lack)
            },
        }
    }
}

impl Copying for Case {
    fn copy(&self, alloc: Global) -> Result<Case, NoMemory> {
        let word = self.word.copy(alloc)?;
        match self.branches.copy(alloc) {
            Ok(branches) => Ok(Case { word, branches }),
            Err(lack) => {
                drop(word);
                Err(lack)
            },
        }
    }
}

impl Copying for ToExpand {
    fn copy(&self, alloc: Global) -> Result<ToExpand, NoMemory> {
        match self {
            ToExpand::Words {
                command,
                in_place,
                status,
            } => Ok(ToExpand::Words {
                command: command.copy(alloc)?,
                in_place: *in_place,
                status: *status,
            }),
            ToExpand::Values(command) => Ok(ToExpand::Values(command.copy(alloc)?)),
            ToExpand::Redirects(command) => Ok(ToExpand::Redirects(command.copy(alloc)?)),
            ToExpand::ForWords(command) => Ok(ToExpand::ForWords(command.copy(alloc)?)),
            ToExpand::CaseWord(command) => Ok(ToExpand::CaseWord(command.copy(alloc)?)),
            ToExpand::CasePattern(case) => Ok(ToExpand::CasePattern(case.copy(alloc)?)),
        }
    }
}

/// A copy of an expansion that needs answers, if there is one.
fn copy_pending(alloc: Global, pending: &Option<Pending>) -> Result<Option<Pending>, NoMemory>
    ensures { IfOk result (λ copy. copy ≡ pending.now) }
{
    match pending {
        Some(pending) => Ok(Some(Copying::copy(pending, alloc)?)),
        None => Ok(None),
    }
}

impl Copying for Substitution {
    fn copy(&self, alloc: Global) -> Result<Substitution, NoMemory> {
        let written = self.written.copy(alloc)?;
        let children = match Sequence::copy_of(alloc, self.children.as_slice()) {
            Ok(children) => children,
            Err(error) => {
                drop(written);
                return Err(NoMemory::from(error));
            },
        };
        let wants = match self.wants.copy(alloc) {
            Ok(wants) => wants,
            Err(lack) => {
                drop(children);
                drop(written);
                return Err(lack);
            },
        };
        match Copying::copy(&self.pending, alloc) {
            Ok(pending) => Ok(Substitution {
                wants,
                pending,
                written,
                aside: self.aside,
                children,
            }),
            Err(lack) => {
                drop(wants);
                drop(children);
                drop(written);
                Err(lack)
            },
        }
    }
}

/// A copy of the text of a job, if there is one.
fn copy_job(alloc: Global, job: &Option<Text>) -> Result<Option<Text>, NoMemory>
    ensures { IfOk result (λ copy. copy ≡ job.now) }
{
    match job {
        Some(text) => Ok(Some(text.copy(alloc)?)),
        None => Ok(None),
    }
}

impl Copying for Launch {
    fn copy(&self, alloc: Global) -> Result<Launch, NoMemory> {
        match self {
            Launch::Foreground(job) => Ok(Launch::Foreground(copy_job(alloc, job)?)),
            Launch::Background(list) => Ok(Launch::Background(list.copy(alloc)?)),
        }
    }
}

/// Copies of the commands of a pipeline that have no process yet, and of how the shell goes on then.
fn copy_rest(alloc: Global, stages: &Stages) -> Result<(Queue<Shared<Command>>, Launch), NoMemory>
    ensures { IfOk result (λ copies. (copies.0 ≡ stages.now.commands) × (copies.1 ≡ stages.now.launch)) }
{
    let launch = stages.launch.copy(alloc)?;
    match stages.commands.copy(alloc) {
        Ok(commands) => Ok((commands, launch)),
        Err(lack) => {
            drop(launch);
            Err(lack)
        },
    }
}

impl Copying for Stages {
    fn copy(&self, alloc: Global) -> Result<Stages, NoMemory> {
        let children = Sequence::copy_of(alloc, self.children.as_slice())?;
        match copy_rest(alloc, self) {
            Ok((commands, launch)) => Ok(Stages {
                commands,
                aside: self.aside,
                children,
                launch,
            }),
            Err(lack) => {
                drop(children);
                Err(lack)
            },
        }
    }
}

impl Copying for PipelineWait {
    fn copy(&self, alloc: Global) -> Result<PipelineWait, NoMemory> {
        let children = Sequence::copy_of(alloc, self.children.as_slice())?;
        match copy_job(alloc, &self.job) {
            Ok(job) => Ok(PipelineWait { children, job }),
            Err(lack) => {
                drop(children);
                Err(lack)
            },
        }
    }
}

/// A copy of how a built-in ends.
fn copy_completion(alloc: Global, status: &Completion) -> Result<Completion, NoMemory>
    ensures { IfOk result (λ copy. copy ≡ status.now) }
{
    match status {
        Completion::Done(status) => Ok(Completion::Done(*status)),
        Completion::Left(leave) => Ok(Completion::Left(*leave)),
        Completion::Runs(origin, text) => Ok(Completion::Runs(*origin, text.copy(alloc)?)),
        Completion::Asks(rest) => Ok(Completion::Asks(rest.copy(alloc)?)),
        Completion::Foreground(wait) => Ok(Completion::Foreground(wait.copy(alloc)?)),
    }
}

impl Copying for Report {
    fn copy(&self, alloc: Global) -> Result<Report, NoMemory> {
        let messages = self.messages.copy(alloc)?;
        match copy_completion(alloc, &self.status) {
            Ok(status) => Ok(Report { messages, status }),
            Err(lack) => {
                drop(messages);
                Err(lack)
            },
        }
    }
}

impl Copying for Finish {
    fn copy(&self, alloc: Global) -> Result<Finish, NoMemory> {
        match self {
            Finish::Status(status) => Ok(Finish::Status(*status)),
            Finish::Fault(status) => Ok(Finish::Fault(*status)),
            Finish::Messages(report) => Ok(Finish::Messages(report.copy(alloc)?)),
            Finish::Output(builtin, report) => Ok(Finish::Output(*builtin, report.copy(alloc)?)),
        }
    }
}

/// A copy of the action that expands.
fn copy_expanding(
    alloc: Global,
    wants: &ToExpand,
    pending: &Option<Pending>,
) -> Result<Action, NoMemory>
    ensures { IfOk result (λ action. action ≡ Action.Expanding wants.now pending.now) }
{
    let wants = wants.copy(alloc)?;
    match copy_pending(alloc, pending) {
        Ok(pending) => Ok(Action::Expanding(wants, pending)),
        Err(lack) => {
            drop(wants);
            Err(lack)
        },
    }
}

/// A copy of the action that writes.
fn copy_writing(alloc: Global, piece: &Piece, finish: &Finish) -> Result<Action, NoMemory>
    ensures { IfOk result (λ action. action ≡ Action.Writing piece.now finish.now) }
{
    let piece = piece.copy(alloc)?;
    match finish.copy(alloc) {
        Ok(finish) => Ok(Action::Writing(piece, finish)),
        Err(lack) => {
            drop(piece);
            Err(lack)
        },
    }
}

impl Copying for Action {
    fn copy(&self, alloc: Global) -> Result<Action, NoMemory> {
        match self {
            Action::Reading(rest, status) => Ok(Action::Reading(rest.copy(alloc)?, *status)),
            Action::Prompting(beginning) => Ok(Action::Prompting(beginning.copy(alloc)?)),
            Action::ReadInput(beginning) => Ok(Action::ReadInput(beginning.copy(alloc)?)),
            Action::Expanding(wants, pending) => copy_expanding(alloc, wants, pending),
            Action::ReadSubstitution(substitution) => {
                Ok(Action::ReadSubstitution(substitution.copy(alloc)?))
            },
            Action::WaitSubstitution(substitution) => {
                Ok(Action::WaitSubstitution(substitution.copy(alloc)?))
            },
            Action::Asking(rest) => Ok(Action::Asking(rest.copy(alloc)?)),
            Action::WaitForJob(wait) => Ok(Action::WaitForJob(wait.copy(alloc)?)),
            Action::Redirecting(command) => Ok(Action::Redirecting(command.copy(alloc)?)),
            Action::Forking(command) => Ok(Action::Forking(command.copy(alloc)?)),
            Action::Starting(start) => { Ok(Action::Starting(start.copy(alloc)?)) },
            Action::ForkStage(stages) => Ok(Action::ForkStage(stages.copy(alloc)?)),
            Action::ForkList(list) => Ok(Action::ForkList(list.copy(alloc)?)),
            Action::AssignLoopVariable(series) => {
                Ok(Action::AssignLoopVariable(series.copy(alloc)?))
            },
            Action::Defining(command) => Ok(Action::Defining(command.copy(alloc)?)),
            Action::Waiting(wait) => Ok(Action::Waiting(wait.copy(alloc)?)),
            Action::Writing(piece, finish) => copy_writing(alloc, piece, finish),
            Action::Trapping(status) => Ok(Action::Trapping(*status)),
            Action::Ending(status) => Ok(Action::Ending(*status)),
        }
    }
}

impl Copying for Active {
    fn copy(&self, alloc: Global) -> Result<Active, NoMemory> {
        match self {
            Active::Next(action) => Ok(Active::Next(action.copy(alloc)?)),
            Active::Acting(invocation, fields) => {
                let fields = copy_texts(alloc, fields.as_slice())?;
                Ok(Active::Acting(*invocation, fields))
            },
            Active::Calling(body, fields) => {
                let fields = copy_texts(alloc, fields.as_slice())?;
                match body.copy(alloc) {
                    Ok(body) => Ok(Active::Calling(body, fields)),
                    Err(lack) => {
                        drop(fields);
                        Err(lack)
                    },
                }
            },
            Active::Evaluating(how, text) => Ok(Active::Evaluating(*how, text.copy(alloc)?)),
            Active::Done(status) => Ok(Active::Done(*status)),
            Active::Leaving(leave) => Ok(Active::Leaving(*leave)),
        }
    }
}
