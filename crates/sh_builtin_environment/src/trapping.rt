//! The built-in trap (XCU 2.15).
ghost use Rattle.std.specs.Prelude.{◌≡◌, IfOk, option_map};
ghost use Rattle.sh_kernel_processes.specs.Sets.{no_signals};
ghost use Rattle.sh_builtin_environment.specs.Trapping.{action_in, after_setting, is_fixed, none_changed, set_all, set_behind, trap_ran, trap_with, trapped_by, with_condition};

use crate::options::parse_options;
use crate::outcome::{BuiltinFault, Outcome};
use crate::traps::{Traps, copy_of_action};
use sh_base::NoMemory;
use sh_base::decimal::number_of;
use sh_base::sequence::Text;
use sh_kernel_processes::SignalSet;
use sh_signal::Condition;
use std::alloc::Global;

/// What `trap` comes to, beside the traps.
#[derive(Debug, Drop)]
pub struct TrapOutcome {
    /// The signals whose traps it set: the process is to do with each of them what its trap says.
    pub signals: SignalSet,
    pub outcome: Outcome,
}

/// Nothing was set.
fn unchanged(outcome: Outcome) -> TrapOutcome
    ensures { result ≡ record { signals = no_signals; outcome = outcome } }
{
    TrapOutcome {
        signals: SignalSet::new(),
        outcome,
    }
}

/// Whether a condition is one of these signals.
fn is_fixed(fixed: SignalSet, condition: Condition) -> bool
    ensures { result ≡ is_fixed fixed condition }
{
    match condition {
        Condition::Exit => false,
        Condition::Caught(signal) => fixed.has(signal),
    }
}

/// These signals, and that of a condition.
fn with_condition(signals: SignalSet, condition: Condition) -> SignalSet
    ensures { result ≡ with_condition signals condition }
{
    match condition {
        Condition::Exit => signals,
        Condition::Caught(signal) => signals.with(signal),
    }
}

/// Gives a condition an action, or the default, unless it is fixed.
fn set_one(
    alloc: Global,
    traps: &mut Traps,
    fixed: SignalSet,
    signals: SignalSet,
    action: Option<&[u8]>,
    condition: Condition,
) -> Result<SignalSet, NoMemory>
    ensures { IfOk result (λ after.
        record { traps = traps.new; signals = after } ≡ after_setting fixed
        (record { traps = traps.old; signals = signals })
        (option_map (λ action. action.now) action.entry) condition) }
{
    if is_fixed(fixed, condition) {
        return Ok(signals);
    }
    let copy = copy_of_action(alloc, action)?;
    traps.set(condition, copy);
    Ok(with_condition(signals, condition))
}

/// Gives conditions an action, or the default, up to a word that is no condition.
fn set_all(
    alloc: Global,
    traps: &mut Traps,
    fixed: SignalSet,
    action: Option<&[u8]>,
    words: &[Text],
) -> Result<TrapOutcome, NoMemory>
    ensures { IfOk result (λ trapped.
        trapped_by traps.new trapped ≡ set_all fixed (none_changed traps.old)
        (option_map (λ action. action.now) action.entry) words.now) }
{
    let mut signals = SignalSet::new();
    let mut rest = words;
    'words: while let Some((word, others)) = rest.split_first() {
        let Some(condition) = Condition::of(word.as_slice()) else {
            let word = Text::copy_of(alloc, word.as_slice())?;
            return Ok(TrapOutcome {
                signals,
                outcome: Outcome::Fault(BuiltinFault::BadCondition(word)),
            });
        };
        signals = set_one(alloc, traps, fixed, signals, action, condition)?;
        rest = others;
    }
    Ok(TrapOutcome {
        signals,
        outcome: Outcome::Done(0),
    })
}

/// The action that a word gives; `None` for `-`, which means the default.
fn action_in(word: &[u8]) -> Option<&[u8]>
    ensures { option_map (λ action. action.now) result ≡ action_in word.now }
{
    if word == b"-".as_slice() {
        return None;
    }
    Some(word)
}

/// Gives the conditions after an action that action.
fn set_behind(
    alloc: Global,
    traps: &mut Traps,
    fixed: SignalSet,
    action: &[u8],
    words: &[Text],
) -> Result<TrapOutcome, NoMemory>
    ensures { IfOk result (λ trapped.
        trapped_by traps.new trapped ≡ set_behind fixed traps.old action.now words.now) }
{
    if words.is_empty() {
        return Ok(unchanged(Outcome::Fault(BuiltinFault::Usage)));
    }
    set_all(alloc, traps, fixed, action_in(action), words)
}

/// trap with its operands.
fn trap_with(
    alloc: Global,
    traps: &mut Traps,
    fixed: SignalSet,
    operands: &[Text],
) -> Result<TrapOutcome, NoMemory>
    ensures { IfOk result (λ trapped.
        trapped_by traps.new trapped ≡ trap_with fixed traps.old operands.now) }
{
    let Some((first, others)) = operands.split_first() else {
        let text = traps.list(alloc)?;
        return Ok(unchanged(Outcome::Output(text)));
    };
    if number_of(first.as_slice()).is_some() {
        return set_all(alloc, traps, fixed, None, operands);
    }
    set_behind(alloc, traps, fixed, first.as_slice(), others)
}

/// `trap` with its arguments (XCU 2.15). The first operand becomes the action of the conditions after it,
/// from left to right; `-` brings back the default, and an empty action ignores a signal. Where the first
/// operand is a number, all operands are conditions, and get the default. A condition is `EXIT` or a signal's
/// name without SIG, in capital letters, or its number, 0 for the exit. A trap on KILL or STOP is kept and
/// never taken. The signals of `fixed` were ignored when a shell that isn't interactive started: they can't be
/// trapped or reset, and nothing is said of that. Without operands the traps are listed. Refused are options, an
/// action alone, and a word that is no condition; the conditions before that word have the action. The only error
/// is want of memory; what the traps are then is left open.
#[tactic(auto, unfolding(crate::specs::Trapping::trap_ran))]
pub fn trap(
    alloc: Global,
    traps: &mut Traps,
    fixed: SignalSet,
    arguments: &[Text],
) -> Result<TrapOutcome, NoMemory>
    ensures { IfOk result (λ trapped.
        trapped_by traps.new trapped ≡ trap_ran fixed traps.old arguments.now) }
{
    let Some((_, operands)) = parse_options(b"", arguments) else {
        return Ok(unchanged(Outcome::Fault(BuiltinFault::Usage)));
    };
    trap_with(alloc, traps, fixed, operands)
}
