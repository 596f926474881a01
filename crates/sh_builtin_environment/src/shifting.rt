//! The built-in shift (XCU 2.15).
ghost use Rattle.std.specs.Prelude.{◌≡◌};
ghost use Rattle.sh_builtin_environment.specs.Outcomes.{with_outcome};
ghost use Rattle.sh_builtin_environment.specs.Shifting.{shift_number, shift_ran, shift_with, shifted_by};

use crate::options::parse_options;
use crate::outcome::{BuiltinFault, Outcome};
use sh_base::decimal::number_of;
use sh_base::sequence::Text;
use sh_vars::Vars;

/// Removes so many positional parameters, if there are as many.
fn shift_by(vars: &mut Vars, count: u64) -> Outcome
    ensures { with_outcome vars.new result ≡ shifted_by vars.old count }
{
    if count > vars.positional().len() as u64 {
        return Outcome::Done(1);
    }
    vars.shift(count as usize);
    Outcome::Done(0)
}

/// shift with its operands.
fn shift_with(vars: &mut Vars, operands: &[Text]) -> Outcome
    ensures { with_outcome vars.new result ≡ shift_with vars.old operands.now }
{
    match operands {
        [] => shift_by(vars, 1),
        [operand] => match number_of(operand.as_slice()) {
            Some(count) => shift_by(vars, count),
            None => Outcome::Fault(BuiltinFault::Usage),
        },
        _ => Outcome::Fault(BuiltinFault::Usage),
    }
}

/// `shift` with its arguments (XCU 2.15): removes as many positional parameters as its operand says, or one
/// without an operand. Where there are fewer, none is removed and the status is 1. Options, two operands, and
/// an operand that isn't of 1 to 18 digits, are refused. Takes no memory.
#[tactic(auto, unfolding(crate::specs::Shifting::shift_ran))]
pub fn shift(vars: &mut Vars, arguments: &[Text]) -> Outcome
    ensures { with_outcome vars.new result ≡ shift_ran vars.old arguments.now }
{
    let Some((_, operands)) = parse_options(b"", arguments) else {
        return Outcome::Fault(BuiltinFault::Usage);
    };
    shift_with(vars, operands)
}
