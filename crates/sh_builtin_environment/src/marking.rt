//! The built-ins export and readonly (XCU 2.15).
ghost use Rattle.std.specs.Prelude.{◌≡◌, ◌<◌, IfOk, IfSome, IsTrue, OnOk, length, option_map};
ghost use Rattle.sh_builtin_environment.specs.Marking.{equals_in, mark_listed, mark_ran, with_attribute, marked_all, marked_one, marked_with, name_in, value_in};
ghost use Rattle.sh_builtin_environment.specs.Outcomes.{with_outcome, with_fault};
ghost use Rattle.sh_base.specs.Names as names;

use crate::attribute::Attribute;
use crate::listing::{Listing, list};
use crate::options::parse_options;
use crate::outcome::{BuiltinFault, Outcome};
use crate::variables::{is_read_only, set_value};
use sh_base::NoMemory;
use sh_base::name::is_name;
use sh_base::sequence::Text;
use sh_vars::{Vars, VarsFault};
use std::alloc::Global;

/// The place of the first `=` in an operand.
fn equals_in(operand: &[u8]) -> Option<usize>
    ensures place { result ≡ equals_in operand.now }
    ensures within { IfSome result (λ i. i < length operand.now) }
{
    operand.iter().position(|byte| *byte == b'=')
}

/// The name in an operand `NAME[=VALUE]`: what stands before its first `=`, and all of it where it has none. Takes no memory.
pub fn name_in(operand: &[u8]) -> &[u8]
    ensures { result.now ≡ name_in operand.now }
{
    match equals_in(operand) {
        Some(i) => &operand[..i],
        None => operand,
    }
}

/// The value in an operand `NAME[=VALUE]`: what stands behind its first `=`; `None` where it has none. Takes no memory.
pub fn value_in(operand: &[u8]) -> Option<&[u8]>
    ensures { option_map (λ value. value.now) result ≡ value_in operand.now }
{
    match equals_in(operand) {
        Some(i) => Some(&operand[i + 1..]),
        None => None,
    }
}

/// Marks a variable.
fn mark_name(attribute: Attribute, vars: &mut Vars, name: &[u8]) -> Result<(), NoMemory>
    requires { IsTrue (names.is_name name.now) }
    ensures { OnOk result (vars.new ≡ with_attribute attribute vars.old name.now) }
{
    match attribute {
        Attribute::Export => match vars.export(name) {
            Ok(()) => Ok(()),
            Err(VarsFault::NoMemory(lack)) => Err(lack),
            Err(_) => unreachable!(),
        },
        Attribute::ReadOnly => match vars.make_readonly(name) {
            Ok(()) => Ok(()),
            Err(VarsFault::NoMemory(lack)) => Err(lack),
            Err(_) => unreachable!(),
        },
    }
}

/// Gives a variable a value, if there is one, and marks it.
fn mark_with(
    alloc: Global,
    attribute: Attribute,
    vars: &mut Vars,
    name: &[u8],
    value: Option<&[u8]>,
) -> Result<Option<BuiltinFault>, NoMemory>
    requires { IsTrue (names.is_name name.now) }
    ensures { IfOk result (λ why.
        with_fault vars.new why ≡ marked_with attribute vars.old name.now
        (option_map (λ value. value.now) value.entry)) }
{
    let Some(value) = value else {
        mark_name(attribute, vars, name)?;
        return Ok(None);
    };
    if is_read_only(vars, name) {
        let name = Text::copy_of(alloc, name)?;
        return Ok(Some(BuiltinFault::ReadOnly(name)));
    }
    set_value(vars, name, value)?;
    mark_name(attribute, vars, name)?;
    Ok(None)
}

/// Marks the variable of one operand.
#[tactic(auto, unfolding(crate::specs::Marking::marked_one))]
fn mark_one(
    alloc: Global,
    attribute: Attribute,
    vars: &mut Vars,
    operand: &[u8],
) -> Result<Option<BuiltinFault>, NoMemory>
    ensures { IfOk result (λ why.
        with_fault vars.new why ≡ marked_one attribute vars.old operand.now) }
{
    let name = name_in(operand);
    if !is_name(name) {
        let operand = Text::copy_of(alloc, operand)?;
        return Ok(Some(BuiltinFault::BadName(operand)));
    }
    mark_with(alloc, attribute, vars, name, value_in(operand))
}

/// Marks the variables of operands, up to an operand that is refused.
fn mark_all(
    alloc: Global,
    attribute: Attribute,
    vars: &mut Vars,
    operands: &[Text],
) -> Result<Outcome, NoMemory>
    ensures { IfOk result (λ outcome.
        with_outcome vars.new outcome ≡ marked_all attribute vars.old operands.now) }
{
    let mut rest = operands;
    'operands: while let Some((operand, others)) = rest.split_first() {
        if let Some(fault) = mark_one(alloc, attribute, vars, operand.as_slice())? {
            return Ok(Outcome::Fault(fault));
        }
        rest = others;
    }
    Ok(Outcome::Done(0))
}

/// The variables that are marked.
fn list_marked(alloc: Global, attribute: Attribute, vars: &Vars) -> Result<Outcome, NoMemory>
    ensures { IfOk result (λ outcome.
        with_outcome vars.now outcome ≡ mark_listed attribute vars.now) }
{
    let text = list(alloc, Listing::Marked(attribute), vars)?;
    Ok(Outcome::Output(text))
}

/// `export` and `readonly` with their arguments (XCU 2.15). Operands are `NAME` or `NAME=VALUE`. From left to
/// right, the variable of each is given the value, if there is one, and marked. `-p`, and no operand, lists
/// the variables that are marked. Refused are other options, operands after `-p`, and an operand without a
/// name or with a value for a read-only variable; the operands before that one stay done. The only error is
/// want of memory; what the variables are then is left open.
#[tactic(auto, unfolding(crate::specs::Marking::mark_ran))]
pub fn mark(
    alloc: Global,
    attribute: Attribute,
    vars: &mut Vars,
    arguments: &[Text],
) -> Result<Outcome, NoMemory>
    ensures { IfOk result (λ outcome.
        with_outcome vars.new outcome ≡ mark_ran attribute vars.old arguments.now) }
{
    let Some((last, operands)) = parse_options(b"p", arguments) else {
        return Ok(Outcome::Fault(BuiltinFault::Usage));
    };
    if operands.is_empty() {
        return list_marked(alloc, attribute, vars);
    }
    if last.is_some() {
        return Ok(Outcome::Fault(BuiltinFault::Usage));
    }
    mark_all(alloc, attribute, vars, operands)
}
