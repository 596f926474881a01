//! Values: of constants, variables and operators (XCU 2.6.4).
ghost use Rattle.sh_base.specs.Memory.{no_memory};
ghost use Rattle.std.specs.Prelude.{◌≡◌, ◌≢◌, Some, None, IfOk, MatchResult, string_bytes};
ghost use Rattle.std.specs.Fmt.{signed_decimal};
ghost use Rattle.sh_vars.specs.Environment.{Environment};
ghost use Rattle.sh_arith_grammar.specs.Lexical.{word_at};
ghost use Rattle.sh_arith_grammar.specs.Numbers.{number_of};
ghost use Rattle.sh_arith.specs.Outcome.{Gives, Stops};
ghost use Rattle.sh_arith.specs.Value.{before, constant, decides, assignment, variable_value, operation};

use crate::faults::ArithFault;
use sh_arith_grammar::{Operator, constant_value, first_word, number_of};
use sh_vars::{Vars, VarsFault};
use std::alloc::{AllocError, Global};

/// The word at a place of a text.
fn word_at(text: &[u8], place: usize) -> &[u8]
    ensures { result.now ≡ word_at text.now place }
{
    match text.get(place..) {
        Some(rest) => first_word(rest),
        None => &[],
    }
}

/// The value of a constant.
#[tactic(auto, unfolding(crate::specs::Value::constant))]
pub(crate) fn constant(text: &[u8], place: usize) -> Result<i64, ArithFault>
    ensures { MatchResult result (λ r.
        (env : Environment) → constant text.now place env ≡ Gives r env)
        (λ f. (f ≢ ArithFault.NoMemory no_memory)
        × ((env : Environment) → constant text.now place env ≡ Stops f env)) }
{
    match constant_value(word_at(text, place)) {
        Some(number) => {
            if number < 0x8000_0000_0000_0000 {
                Ok(number as i64)
            } else {
                Err(ArithFault::NotANumber)
            }
        },
        None => Err(ArithFault::NotANumber),
    }
}

/// The number that a variable's value writes.
fn number_or_fault(bytes: &[u8]) -> Result<i64, ArithFault>
    ensures { MatchResult result (λ r. number_of bytes.now ≡ Some r) (λ f.
        (f ≡ ArithFault.NotANumber) × (number_of bytes.now ≡ None)) }
{
    match number_of(bytes) {
        Some(number) => Ok(number),
        None => Err(ArithFault::NotANumber),
    }
}

/// The value of the variable that is named at a place.
#[tactic(auto, unfolding(crate::specs::Value::variable_value))]
pub(crate) fn taken(text: &[u8], place: usize, vars: &Vars) -> Result<i64, ArithFault>
    ensures { MatchResult result (λ r. variable_value text.now place vars.now ≡ Gives r vars.now)
        (λ f. (f ≢ ArithFault.NoMemory no_memory)
        × (variable_value text.now place vars.now ≡ Stops f vars.now)) }
{
    match vars.get(word_at(text, place)) {
        Some(bytes) => number_or_fault(bytes),
        None => {
            if vars.options().no_unset {
                Err(ArithFault::Unset { at: place })
            } else {
                Ok(0)
            }
        },
    }
}

/// A number in decimal.
fn decimal(alloc: Global, number: i64) -> Result<String, AllocError>
    ensures { IfOk result (λ text. string_bytes text ≡ signed_decimal number) }
{
    format!(in alloc; "{number}")
}

/// Assigns a number to the variable that is named at a place.
#[tactic(auto, unfolding(crate::specs::Value::assignment))]
pub(crate) fn store(
    alloc: Global,
    text: &[u8],
    place: usize,
    number: i64,
    vars: &mut Vars,
) -> Result<i64, ArithFault>
    ensures { MatchResult result (λ r.
        assignment text.now place number vars.old ≡ Gives r vars.new)
        (λ f. f ≢ ArithFault.NoMemory no_memory → assignment text.now place number vars.old
        ≡ Stops f vars.new) }
{
    let digits = decimal(alloc, number)?;
    match vars.set(word_at(text, place), digits.as_bytes()) {
        Ok(()) => Ok(number),
        Err(VarsFault::NoMemory(lack)) => Err(ArithFault::NoMemory(lack)),
        Err(VarsFault::ReadOnly) => Err(ArithFault::ReadOnly { at: place }),
        Err(VarsFault::BadName) => Err(ArithFault::ReadOnly { at: place }),
    }
}

/// The result of an operator between two operands.
#[tactic(auto, unfolding(crate::specs::Value::operation))]
pub(crate) fn worked(op: Operator, v: i64, w: i64) -> Result<i64, ArithFault>
    ensures { MatchResult result (λ r. (env : Environment) → operation op v w env ≡ Gives r env)
        (λ f. (f ≢ ArithFault.NoMemory no_memory)
        × ((env : Environment) → operation op v w env ≡ Stops f env)) }
{
    match op.apply(v, w) {
        Some(value) => Ok(value),
        None => Err(ArithFault::DivideByZero),
    }
}

/// Whether the left operand of `&&` or `||` decides, so that the right one is skipped.
#[tactic(auto, unfolding(crate::specs::Value::decides))]
pub(crate) fn decides(op: Operator, v: i64) -> bool
    ensures { result ≡ decides op v }
{
    match op {
        Operator::BothTrue => v == 0,
        _ => v != 0,
    }
}

/// The value that a variable has before an assignment to it. It is not needed for `=`, which gives 0 here.
#[tactic(auto, unfolding(crate::specs::Value::before))]
pub(crate) fn before(
    text: &[u8],
    op: Operator,
    place: usize,
    vars: &Vars,
) -> Result<i64, ArithFault>
    ensures { MatchResult result (λ r. before text.now op place vars.now ≡ Gives r vars.now) (λ f.
        (f ≢ ArithFault.NoMemory no_memory)
        × (before text.now op place vars.now ≡ Stops f vars.now)) }
{
    match op {
        Operator::Assign => Ok(0),
        _ => taken(text, place, vars),
    }
}
