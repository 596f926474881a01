//! The traps of a shell.
ghost use Rattle.std.specs.Prelude.{◌≡◌, ◌++◌, IfOk, OnOk, None, option_map, replicate};
ghost use Rattle.sh_builtin_environment.specs.TrapMaps.{action_of, subshell_action, in_subshell, line, lines, trap_listing, none_set, with_action};
ghost use Rattle.sh_signal.specs.Conditions.{conditions};

use crate::listing::put_quoted;
use sh_base::NoMemory;
use sh_base::sequence::{Sequence, Text};
use sh_signal::{Condition, Signal};
use std::alloc::Global;
use std::marker::Model;

/// What a shell does on conditions (XCU 2.15 trap).
#[derive(Debug, Drop)]
pub struct Traps {
    actions: Vec<Option<Text>>,
}

impl Model for Traps {
    ghost use Rattle.sh_builtin_environment.specs.TrapMaps.{TrapMap};

    ghost Value = { TrapMap };

    ghost view = { λ traps. traps.actions.items };
}

/// How many numbers there are of conditions, from 0 on.
const NUMBERS: usize = 23;

/// The conditions in the order in which they are listed.
const CONDITIONS: [Condition; 17] = [
    Condition::Exit,
    Condition::Caught(Signal::Hangup),
    Condition::Caught(Signal::Interrupt),
    Condition::Caught(Signal::Quit),
    Condition::Caught(Signal::Abort),
    Condition::Caught(Signal::Kill),
    Condition::Caught(Signal::User1),
    Condition::Caught(Signal::User2),
    Condition::Caught(Signal::Pipe),
    Condition::Caught(Signal::Alarm),
    Condition::Caught(Signal::Terminate),
    Condition::Caught(Signal::Child),
    Condition::Caught(Signal::Continue),
    Condition::Caught(Signal::Stop),
    Condition::Caught(Signal::TerminalStop),
    Condition::Caught(Signal::TerminalInput),
    Condition::Caught(Signal::TerminalOutput),
];

/// No actions.
fn no_actions(alloc: Global) -> Result<Vec<Option<Text>>, NoMemory>
    ensures { IfOk result (λ actions. actions.items ≡ none_set) }
{
    let mut actions = Vec::with_capacity(alloc, NUMBERS)?;
    'numbers: for _ in 0..NUMBERS {
        actions.push(None)?;
    }
    Ok(actions)
}

/// What a subshell does in place of an action.
fn ignored(alloc: Global, action: &Option<Text>) -> Option<Text>
    ensures { result ≡ subshell_action action.now }
{
    match action {
        Some(action) => {
            if action.is_empty() {
                return Some(Sequence::new(alloc));
            }
            None
        },
        None => None,
    }
}

/// What a subshell does in place of these actions.
fn all_ignored(alloc: Global, actions: &[Option<Text>]) -> Result<Vec<Option<Text>>, NoMemory>
    ensures { IfOk result (λ left. left.items ≡ in_subshell actions.now) }
{
    let mut left = Vec::with_capacity(alloc, actions.len())?;
    let mut rest = actions;
    'actions: while let Some((action, others)) = rest.split_first() {
        left.push(ignored(alloc, action))?;
        rest = others;
    }
    Ok(left)
}

/// Adds the line of a condition to a text, if the condition has an action.
fn put_line(text: &mut Text, condition: Condition, action: Option<&[u8]>) -> Result<(), NoMemory>
    ensures { OnOk result
        (text.new ≡ text.old ++ line condition (option_map (λ action. action.now) action.entry)) }
{
    match action {
        Some(action) => {
            text.extend_from_slice(b"trap -- ")?;
            put_quoted(text, action)?;
            text.push(b' ')?;
            text.extend_from_slice(condition.name())?;
            text.push(b'\n')?;
            Ok(())
        },
        None => Ok(()),
    }
}

/// A copy of an action, which is equal. The only error is want of memory.
pub fn copy_of_action(alloc: Global, action: Option<&[u8]>) -> Result<Option<Text>, NoMemory>
    ensures { IfOk result (λ copy. copy ≡ option_map (λ action. action.now) action.entry) }
{
    match action {
        Some(action) => {
            let copy = Text::copy_of(alloc, action)?;
            Ok(Some(copy))
        },
        None => Ok(None),
    }
}

/// Copies of actions.
fn copies(alloc: Global, actions: &[Option<Text>]) -> Result<Vec<Option<Text>>, NoMemory>
    ensures { IfOk result (λ copies. copies.items ≡ actions.now) }
{
    let mut copies = Vec::with_capacity(alloc, actions.len())?;
    for action in actions {
        let copy = match action {
            Some(action) => copy_of_action(alloc, Some(action.as_slice()))?,
            None => None,
        };
        copies.push(copy)?;
    }
    Ok(copies)
}

impl Traps {
    /// No traps: the default is done on each condition. The only error is want of memory.
    pub fn new(alloc: Global) -> Result<Traps, NoMemory>
        ensures { IfOk result (λ traps. traps ≡ none_set) }
    {
        let actions = no_actions(alloc)?;
        Ok(Traps { actions })
    }

    /// The action of a condition: `None` where the default is done; an empty one ignores a signal. Takes no memory.
    pub fn action(&self, condition: Condition) -> Option<&[u8]>
        ensures { option_map (λ action. action.now) result ≡ action_of self.now condition }
    {
        match self.actions.get(usize::from(condition.number())) {
            Some(Some(action)) => Some(action.as_slice()),
            Some(None) => None,
            None => None,
        }
    }

    /// Gives a condition an action, or the default. Takes no memory.
    pub fn set(&mut self, condition: Condition, action: Option<Text>)
        ensures { self.new ≡ with_action self.old condition action }
    {
        if let Some(place) = self.actions.get_mut(usize::from(condition.number())) {
            *place = action;
        }
    }

    /// A copy, which is equal. The only error is want of memory.
    pub fn copy(&self, alloc: Global) -> Result<Traps, NoMemory>
        ensures { IfOk result (λ traps. traps ≡ self.now) }
    {
        let actions = copies(alloc, self.actions.as_slice())?;
        Ok(Traps { actions })
    }

    /// The traps of a subshell of this shell (XCU 2.13): what is ignored, and no other. The only error is want of memory.
    pub fn for_subshell(&self, alloc: Global) -> Result<Traps, NoMemory>
        ensures { IfOk result (λ traps. traps ≡ in_subshell self.now) }
    {
        let actions = all_ignored(alloc, self.actions.as_slice())?;
        Ok(Traps { actions })
    }

    /// The lines of these conditions.
    fn lines(&self, alloc: Global, conditions: &[Condition]) -> Result<Text, NoMemory>
        ensures { IfOk result (λ text. text ≡ lines self.now conditions.now) }
    {
        let mut text = Sequence::new(alloc);
        let mut rest = conditions;
        'conditions: while let Some((condition, others)) = rest.split_first() {
            put_line(&mut text, *condition, self.action(*condition))?;
            rest = others;
        }
        Ok(text)
    }

    /// The traps as `trap` lists them: a line for each that has an action, which a shell can read again, the exit first and signals by
    /// their numbers. The only error is want of memory.
    pub fn list(&self, alloc: Global) -> Result<Text, NoMemory>
        ensures { IfOk result (λ text. text ≡ trap_listing self.now) }
    {
        self.lines(alloc, &CONDITIONS)
    }
}
