//! The running forms of a shell.
ghost use Rattle.std.specs.Prelude.{◌≡◌, ◌∷◌, [], IfOk, MatchOption, OnOk, reverse};
ghost use Rattle.sh_exec_forms.specs.JobTexts.{job_text};
ghost use Rattle.sh_exec_forms.specs.Frames.{before_action, ends_action, ends_shell, forms_in, framed, has_loop, is_failure_ignored, last_for, levels_left, may_return, root_forms};

use crate::job_text::job_text;
use crate::kinds::{
    MOST_LEVELS, before_trap, ignores_failure, is_call, is_loop, levels_inside, refusal_ends,
    takes_return,
};
use sh_base::NoMemory;
use sh_base::sequence::Text;
use sh_base::shared::Shared;
use sh_builtin_outcome::Builtin;
use sh_exec_actions::{Form, Frame};
use sh_exec_parts::copy_all;
use sh_syntax::tree::Command;
use std::alloc::Global;
use std::marker::Model;

/// The running forms round the place where a shell acts, the outermost first. Contracts see them with the innermost first.
#[derive(Drop)]
pub struct Frames {
    frames: Vec<Frame>,
}

impl Model for Frames {
    ghost use Rattle.std.specs.Prelude.{◌≡◌, List, reverse};
    ghost use Rattle.std.specs.Coded.{codes};
    ghost use Rattle.sh_exec_forms.specs.FormCodes.{forms_code};
    ghost use Rattle.sh_exec_forms.specs.Frames.{forms_in, framed};
    ghost use Rattle.sh_exec_actions.specs.declared.form.Form.{Form};

    ghost Value = { List Form };

    ghost coded = { Prim.hlevel (codes, forms_code) };

    ghost view = { λ f. forms_in (reverse f.frames.items) };

    ghost invariant = { λ f. reverse f.frames.items ≡ framed (forms_in (reverse f.frames.items)) };
}

impl Frames {
    /// No form.
    pub fn new(alloc: Global) -> Self
        ensures { result ≡ [] }
    {
        Frames {
            frames: Vec::new(alloc),
        }
    }

    /// The forms with which a process begins, which ignores failures if it was made where they are ignored (XCU 2.15, set -e).
    /// The only error is want of memory.
    pub fn of_process(alloc: Global, ignores_failure: bool) -> Result<Self, NoMemory>
        ensures { IfOk result (λ frames. frames ≡ root_forms ignores_failure) }
    {
        let mut frames = Frames::new(alloc);
        if ignores_failure {
            frames.push(Form::FailuresIgnored)?;
        }
        Ok(frames)
    }

    /// A form inside all others. The only error is want of memory; the form is gone then.
    pub fn push(&mut self, form: Form) -> Result<(), NoMemory>
        ensures { OnOk result (self.new ≡ form ∷ self.old) }
    {
        let ignores_failure = ignores_failure(&form) || self.is_failure_ignored();
        let levels_left = levels_inside(&form, self.levels_left());
        self.frames.push(Frame {
            form,
            ignores_failure,
            levels_left,
        })?;
        Ok(())
    }

    /// Takes the innermost form.
    pub fn pop(&mut self) -> Option<Form>
        ensures { MatchOption result ((self.old ≡ []) × (self.new ≡ [])) (λ form.
            self.old ≡ form ∷ self.new) }
    {
        match self.frames.pop() {
            Some(frame) => Some(frame.form),
            None => None,
        }
    }

    /// The forms, the outermost first, each with what holds inside it.
    pub fn as_slice(&self) -> &[Frame]
        ensures { result.now ≡ reverse (framed self.now) }
    {
        self.frames.as_slice()
    }

    /// A copy, which is equal. The only error is want of memory.
    pub fn copy(&self, alloc: Global) -> Result<Frames, NoMemory>
        ensures { IfOk result (λ frames. frames ≡ self.now) }
    {
        Ok(Frames {
            frames: copy_all(alloc, self.frames.as_slice())?,
        })
    }

    /// Whether a loop is among them that `break` and `continue` may mean (2.15): a function doesn't see those of its caller.
    pub fn has_loop(&self) -> bool
        ensures { result ≡ has_loop self.now }
    {
        is_loop_among(self.frames.as_slice())
    }

    /// Whether the body of a function or a dot script is among them, which `return` may end (2.15 return).
    pub fn may_return(&self) -> bool
        ensures { result ≡ may_return self.now }
    {
        may_return_from(self.frames.as_slice())
    }

    /// Whether `set -e` takes no notice of a failure inside them. Looks at the innermost one only.
    pub fn is_failure_ignored(&self) -> bool
        ensures { result ≡ is_failure_ignored self.now }
    {
        match self.frames.last() {
            Some(frame) => frame.ignores_failure,
            None => false,
        }
    }

    /// The status with which a built-in leaves inside them where it has no operand (2.15 exit, return): `$?`, which is `last`, but in the
    /// action of a trap what `$?` was before it. `return` in a function that the action calls, or in a dot script of it, is a return from
    /// that.
    pub fn last_for(&self, builtin: Builtin, last: u8) -> u8
        ensures { result ≡ last_for self.now builtin last }
    {
        match builtin {
            Builtin::Exit => before_action(self.frames.as_slice(), false).unwrap_or(last),
            Builtin::Return => before_action(self.frames.as_slice(), true).unwrap_or(last),
            _ => last,
        }
    }

    /// Whether a text that is refused right inside them ends a shell that isn't interactive (2.8.1). Looks at the innermost one only.
    pub fn ends_shell(&self) -> bool
        ensures { result ≡ ends_shell self.now }
    {
        ends_shell(self.frames.as_slice())
    }

    /// Whether what is done right inside them is the action of a trap as a whole. Looks at the innermost one only.
    pub fn ends_action(&self) -> bool
        ensures { result ≡ ends_action self.now }
    {
        ends_action(self.frames.as_slice())
    }

    /// The text of the job that the pipeline of these commands becomes when it is suspended directly inside them (XCU jobs, STDOUT): its tokens,
    /// with its `!`. A subshell that is the body of a function has the text of the pipeline that called the function. The only error is want
    /// of memory.
    pub fn job_text(&self, alloc: Global, commands: &[Shared<Command>]) -> Result<Text, NoMemory>
        ensures { IfOk result (λ text. text ≡ job_text self.now commands.now) }
    {
        job_text(alloc, self.frames.as_slice(), commands)
    }

    /// How many more texts and calls of functions there may be inside them, one in another. Looks at the innermost one only.
    pub fn levels_left(&self) -> u16
        ensures { result ≡ levels_left self.now }
    {
        match self.frames.last() {
            Some(frame) => frame.levels_left,
            None => MOST_LEVELS,
        }
    }
}

/// Whether a loop is among some forms, of which the last is the innermost.
#[tactic(auto, using(crate::proofs::Framed::innermost))]
fn is_loop_among(frames: &[Frame]) -> bool
    ensures { result ≡ has_loop (forms_in (reverse frames.now)) }
{
    let mut rest = frames;
    'frames: while let Some((frame, others)) = rest.split_last() {
        if is_loop(&frame.form) {
            return true;
        }
        if is_call(&frame.form) {
            return false;
        }
        rest = others;
    }
    false
}

/// Whether the body of a function or a dot script is among some forms, of which the last is the innermost.
#[tactic(auto, using(crate::proofs::Framed::innermost))]
fn may_return_from(frames: &[Frame]) -> bool
    ensures { result ≡ may_return (forms_in (reverse frames.now)) }
{
    let mut rest = frames;
    'frames: while let Some((frame, others)) = rest.split_last() {
        if takes_return(&frame.form) {
            return true;
        }
        rest = others;
    }
    false
}

/// What `$?` was before the innermost action of a trap among some forms, of which the last is the innermost. Where only its `own` ones
/// count, a call or a dot script hides those around it.
#[tactic(auto, using(crate::proofs::Framed::innermost))]
fn before_action(frames: &[Frame], own: bool) -> Option<u8>
    ensures { result ≡ before_action own (forms_in (reverse frames.now)) }
{
    let mut rest = frames;
    'frames: while let Some((frame, others)) = rest.split_last() {
        if own && takes_return(&frame.form) {
            return None;
        }
        if let Some(status) = before_trap(&frame.form) {
            return Some(status);
        }
        rest = others;
    }
    None
}

/// Whether a text that is refused right inside the innermost of some forms, which is the last, ends the shell.
#[tactic(auto, using(crate::proofs::Framed::innermost))]
fn ends_shell(frames: &[Frame]) -> bool
    ensures { result ≡ ends_shell (forms_in (reverse frames.now)) }
{
    match frames.split_last() {
        Some((frame, _)) => refusal_ends(&frame.form),
        None => true,
    }
}

/// Whether the innermost of some forms, which is the last, is the action of a trap.
#[tactic(auto, using(crate::proofs::Framed::innermost))]
fn ends_action(frames: &[Frame]) -> bool
    ensures { result ≡ ends_action (forms_in (reverse frames.now)) }
{
    match frames.split_last() {
        Some((frame, _)) => before_trap(&frame.form).is_some(),
        None => false,
    }
}
