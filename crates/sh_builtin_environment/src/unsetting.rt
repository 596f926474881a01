//! The built-in unset (XCU 2.15).
ghost use Rattle.std.specs.Prelude.{◌≡◌, IfOk, option_map};
ghost use Rattle.sh_builtin_environment.specs.Outcomes.{with_outcome, with_fault};
ghost use Rattle.sh_builtin_environment.specs.Unsetting.{functions_to_unset, kind_unset, names_functions, unset_all, unset_one, unset_ran};

use crate::options::parse_options;
use crate::outcome::{BuiltinFault, Outcome};
use crate::variables::is_read_only;
use sh_base::NoMemory;
use sh_base::name::is_name;
use sh_base::sequence::Text;
use sh_vars::Vars;
use std::alloc::Global;

/// Unsets a variable, or a function.
fn unset_kind(
    alloc: Global,
    functions: bool,
    vars: &mut Vars,
    name: &[u8],
) -> Result<Option<BuiltinFault>, NoMemory>
    ensures { IfOk result (λ why. with_fault vars.new why ≡ kind_unset functions vars.old name.now) }
{
    if functions {
        return Ok(None);
    }
    if is_read_only(vars, name) {
        let name = Text::copy_of(alloc, name)?;
        return Ok(Some(BuiltinFault::ReadOnly(name)));
    }
    vars.forget(name);
    Ok(None)
}

/// Unsets one operand.
#[tactic(auto, unfolding(crate::specs::Unsetting::unset_one))]
fn unset_one(
    alloc: Global,
    functions: bool,
    vars: &mut Vars,
    name: &[u8],
) -> Result<Option<BuiltinFault>, NoMemory>
    ensures { IfOk result (λ why. with_fault vars.new why ≡ unset_one functions vars.old name.now) }
{
    if !is_name(name) {
        let name = Text::copy_of(alloc, name)?;
        return Ok(Some(BuiltinFault::BadName(name)));
    }
    unset_kind(alloc, functions, vars, name)
}

/// Unsets operands, up to one that is refused.
fn unset_all(
    alloc: Global,
    functions: bool,
    vars: &mut Vars,
    names: &[Text],
) -> Result<Outcome, NoMemory>
    ensures { IfOk result (λ outcome.
        with_outcome vars.new outcome ≡ unset_all functions vars.old names.now) }
{
    let mut rest = names;
    'names: while let Some((name, others)) = rest.split_first() {
        if let Some(fault) = unset_one(alloc, functions, vars, name.as_slice())? {
            return Ok(Outcome::Fault(fault));
        }
        rest = others;
    }
    Ok(Outcome::Done(0))
}

/// Whether functions are meant, by the last of the options.
fn names_functions(last: Option<u8>) -> bool
    ensures { result ≡ names_functions last }
{
    match last {
        Some(letter) => letter == b'f',
        None => false,
    }
}

/// `unset` with its arguments (XCU 2.15): removes the variables of these names, from left to right, with
/// value and attributes; a name without a variable is no error. `-f` means functions, see `functions_to_unset`,
/// and leaves variables alone; of `-f` and `-v` the last counts. Refused are other options, no operand, and an operand that is no
/// name or names a read-only variable; the operands before that one stay unset. The only error is want of
/// memory; what the variables are then is left open.
#[tactic(auto, unfolding(crate::specs::Unsetting::unset_ran))]
pub fn unset(alloc: Global, vars: &mut Vars, arguments: &[Text]) -> Result<Outcome, NoMemory>
    ensures { IfOk result (λ outcome.
        with_outcome vars.new outcome ≡ unset_ran vars.old arguments.now) }
{
    let Some((last, operands)) = parse_options(b"fv", arguments) else {
        return Ok(Outcome::Fault(BuiltinFault::Usage));
    };
    if operands.is_empty() {
        return Ok(Outcome::Fault(BuiltinFault::Usage));
    }
    unset_all(alloc, names_functions(last), vars, operands)
}

/// The operands of `unset` as names of functions, where `-f` says that functions are meant; `None` where it doesn't, or where the
/// options are wrong. Takes no memory.
pub fn functions_to_unset(arguments: &[Text]) -> Option<&[Text]>
    ensures { option_map (λ names. names.now) result ≡ functions_to_unset arguments.now }
{
    let (last, operands) = parse_options(b"fv", arguments)?;
    if names_functions(last) {
        return Some(operands);
    }
    None
}
