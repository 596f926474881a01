//! Running forms. A copy of one is equal to it.
ghost use Rattle.std.specs.Prelude.{◌≡◌, IfOk};

use crate::action::{Action, ForLoop, Undo};
use crate::boxed::Boxed;
use crate::status::CommandStatus;
use sh_base::NoMemory;
use sh_base::sequence::{Sequence, Text, copies_of};
use sh_base::shared::Shared;
use sh_builtin_outcome::TextRun;
use sh_exec_parts::{Copying, Queue, Rest};
use sh_syntax::tree::{CompoundList, Connected, ElseIf, ListItem, LoopKind};
use std::alloc::Global;

/// What an `if` runs after its condition (XCU 2.9.4.4).
#[derive(Drop)]
pub struct Branches {
    /// Where the condition succeeds.
    pub body: Shared<CompoundList>,
    /// Else the first of these whose condition succeeds.
    pub else_ifs: Queue<ElseIf>,
    /// Else this, where there is one.
    pub else_body: Option<Shared<CompoundList>>,
}

/// One more owner of a list, if there is one.
fn copy_list(
    alloc: Global,
    list: &Option<Shared<CompoundList>>,
) -> Result<Option<Shared<CompoundList>>, NoMemory>
    ensures { IfOk result (λ copy. copy ≡ list.now) }
{
    match list {
        Some(list) => Ok(Some(list.copy(alloc)?)),
        None => Ok(None),
    }
}

impl Copying for Branches {
    fn copy(&self, alloc: Global) -> Result<Branches, NoMemory> {
        let body = self.body.copy(alloc)?;
        let else_ifs = match self.else_ifs.copy(alloc) {
            Ok(else_ifs) => else_ifs,
            Err(lack) => {
                drop(body);
                return Err(lack);
            },
        };
        match copy_list(alloc, &self.else_body) {
            Ok(else_body) => Ok(Branches {
                body,
                else_ifs,
                else_body,
            }),
            Err(lack) => {
                drop(else_ifs);
                drop(body);
                Err(lack)
            },
        }
    }
}

/// A `while` or `until` loop (2.9.4.5, 2.9.4.6).
#[derive(Drop)]
pub struct Loop {
    pub kind: LoopKind,
    pub condition: Shared<CompoundList>,
    pub body: Shared<CompoundList>,
}

impl Copying for Loop {
    fn copy(&self, alloc: Global) -> Result<Loop, NoMemory> {
        let condition = self.condition.copy(alloc)?;
        match self.body.copy(alloc) {
            Ok(body) => Ok(Loop {
                kind: self.kind,
                condition,
                body,
            }),
            Err(lack) => {
                drop(condition);
                Err(lack)
            },
        }
    }
}

/// A running form round what is done in it.
#[derive(Drop)]
pub enum Form {
    /// A command of a text, with what comes after it (XCU 2.1).
    Text(Rest),
    /// A command that an interactive shell has read by descriptor 0 (2.1), with what was read behind it.
    Input(Text),
    /// One of some AND-OR lists (2.9.3), with those after it.
    Commands(Queue<ListItem>),
    /// A pipeline of an AND-OR list (2.9.3) that isn't its last, with those after it.
    Joined(Queue<Connected>),
    /// A pipeline after `!` (2.9.2).
    Negated,
    /// A command after which what it changed is undone (2.9.1).
    Restoring(Undo),
    /// A condition of an `if`.
    If(Branches),
    /// The condition of a loop, and how its body's last run ended: with 0 before the first.
    Condition(Loop, CommandStatus),
    /// The body of such a loop.
    Body(Loop),
    /// The body of a `for` (2.9.4.2), with the values that its variable is still to have.
    ForBody(ForLoop),
    /// The body of a function (2.9.5), with the positional parameters of its caller.
    Call(Sequence<Text>),
    /// A text that `eval` or `.` runs (2.15).
    Evaluation(TextRun),
    /// The action of a trap on EXIT (2.15 trap), in a shell that ends with this status after it.
    Trapped(u8),
    /// The action of a trap on a signal (2.15 trap): what `$?` was before it, and the action of the shell that comes after it.
    Interruption(u8, Boxed<Action>),
    /// All of a process that was made where failures are ignored: they are ignored there too (2.15, set -e).
    FailuresIgnored,
}

/// A copy of the action of a trap on a signal.
fn copy_interruption(alloc: Global, status: u8, next: &Action) -> Result<Form, NoMemory>
    ensures { IfOk result (λ form. form ≡ Form.Interruption status next.now) }
{
    let next = next.copy(alloc)?;
    Ok(Form::Interruption(status, Boxed::new(alloc, next)?))
}

impl Copying for Form {
    fn copy(&self, alloc: Global) -> Result<Form, NoMemory> {
        match self {
            Form::Text(rest) => Ok(Form::Text(rest.copy(alloc)?)),
            Form::Input(rest) => Ok(Form::Input(rest.copy(alloc)?)),
            Form::Commands(items) => Ok(Form::Commands(items.copy(alloc)?)),
            Form::Joined(others) => Ok(Form::Joined(others.copy(alloc)?)),
            Form::Negated => Ok(Form::Negated),
            Form::Restoring(undo) => Ok(Form::Restoring(undo.copy(alloc)?)),
            Form::If(branches) => Ok(Form::If(branches.copy(alloc)?)),
            Form::Condition(looping, status) => {
                Ok(Form::Condition(looping.copy(alloc)?, *status))
            },
            Form::Body(looping) => Ok(Form::Body(looping.copy(alloc)?)),
            Form::ForBody(series) => Ok(Form::ForBody(series.copy(alloc)?)),
            Form::Call(positional) => {
                Ok(Form::Call(Sequence::from_vec(copies_of(alloc, positional.as_slice())?)))
            },
            Form::Evaluation(how) => Ok(Form::Evaluation(*how)),
            Form::Trapped(status) => Ok(Form::Trapped(*status)),
            Form::Interruption(status, next) => copy_interruption(alloc, *status, next.get()),
            Form::FailuresIgnored => Ok(Form::FailuresIgnored),
        }
    }
}

/// A running form, and what holds of all that runs inside it.
#[derive(Drop)]
pub struct Frame {
    pub form: Form,
    /// Whether `set -e` takes no notice of a failure inside it (2.15, set), because of this form or of one around it.
    pub ignores_failure: bool,
    /// How many more texts and calls of functions there may be inside it, one in another. With none around there may be 1000.
    pub levels_left: u16,
}

impl Copying for Frame {
    fn copy(&self, alloc: Global) -> Result<Frame, NoMemory> {
        Ok(Frame {
            form: self.form.copy(alloc)?,
            ignores_failure: self.ignores_failure,
            levels_left: self.levels_left,
        })
    }
}
