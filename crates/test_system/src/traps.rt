//! `trap COMMANDS ANSWERS`: commands, with `|` between them, and what comes of each. `sub` makes the traps those of a subshell, `action`
//! tells the action of a condition. `default SIGNAL ACTION`: what a signal does by default.
use crate::outcomes::{put_next, words_of};
use sh_base::NoMemory;
use sh_base::sequence::{Sequence, Text};
use sh_builtin_environment::{Outcome, Traps, trap};
use sh_kernel_processes::SignalSet;
use sh_signal::{Condition, DefaultAction, Signal};
use std::alloc::Global;
use test_rows::RowFault;

/// The action of the condition that a word names.
fn action_of(alloc: Global, traps: &Traps, word: &[u8]) -> Result<Outcome, NoMemory> {
    let action = match Condition::of(word) {
        Some(condition) => traps.action(condition),
        None => None,
    };
    let mut text = Sequence::new(alloc);
    text.extend_from_slice(action.unwrap_or(b"none"))?;
    Ok(Outcome::Output(text))
}

/// What a command comes to.
fn run(alloc: Global, traps: &mut Traps, words: &[Text]) -> Result<Outcome, NoMemory> {
    let Some((name, arguments)) = words.split_first() else {
        return Ok(Outcome::Done(0));
    };
    if name.as_slice() == b"sub".as_slice() {
        *traps = traps.for_subshell(alloc)?;
        return Ok(Outcome::Done(0));
    }
    if name.as_slice() == b"action".as_slice() {
        let word = arguments
            .first()
            .map_or(b"".as_slice(), |word| word.as_slice());
        return action_of(alloc, traps, word);
    }
    let trapped = trap(alloc, traps, SignalSet::new(), arguments)?;
    Ok(trapped.outcome)
}

/// What commands come to, one after another.
fn run_all(alloc: Global, traps: &mut Traps, commands: &[u8]) -> Result<Vec<u8>, NoMemory> {
    let mut text = Vec::new(alloc);
    for (place, command) in commands.split(|byte| *byte == b'|').enumerate() {
        let words = words_of(alloc, command)?;
        let outcome = run(alloc, traps, &words)?;
        put_next(&mut text, place, outcome)?;
    }
    Ok(text)
}

/// What the commands of a row come to.
pub(crate) fn answers(alloc: Global, commands: &[u8]) -> Result<Vec<u8>, RowFault> {
    let Ok(mut traps) = Traps::new(alloc) else {
        return Err(RowFault::NoMemory);
    };
    let text = run_all(alloc, &mut traps, commands);
    drop(traps);
    text.map_err(|_| RowFault::NoMemory)
}

/// What a signal does by default.
pub(crate) fn default_action(alloc: Global, name: &[u8]) -> Result<Vec<u8>, RowFault> {
    let text: &[u8] = match Signal::from_name(name).map(Signal::default_action) {
        Some(DefaultAction::End) => b"end",
        Some(DefaultAction::Ignore) => b"ignore",
        Some(DefaultAction::Stop) => b"stop",
        Some(DefaultAction::Continue) => b"continue",
        None => b"no signal",
    };
    Ok(text.to_vec(alloc)?)
}
