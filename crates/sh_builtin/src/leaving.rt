//! The built-ins that leave commands (XCU 2.15 break, continue, exit, return).
ghost use Rattle.std.specs.Prelude.{◌≡◌, IfOk};
ghost use Rattle.sh_builtin.specs.Loops.{leave_with, loop_with, operands_of, status_in};

use sh_base::NoMemory;
use sh_base::decimal::number_of;
use sh_base::sequence::Text;
use sh_builtin_outcome::{Builtin, Leave, Outcome};
use std::alloc::Global;

/// The operands, after a `--` if there is one.
pub(crate) fn operands_of(arguments: &[Text]) -> &[Text]
    ensures { result.now ≡ operands_of arguments.now }
{
    match arguments.split_first() {
        Some((first, others)) => {
            if first.as_slice() == b"--".as_slice() {
                return others;
            }
            arguments
        },
        None => arguments,
    }
}

/// The status that an operand says, from 0 to 255.
fn status_in(operand: &[u8]) -> Option<u8>
    ensures { result ≡ status_in operand.now }
{
    match number_of(operand) {
        Some(status) => {
            if status <= 255 {
                return Some(status as u8);
            }
            None
        },
        None => None,
    }
}

/// exit, with its operands.
pub(crate) fn exit_with(alloc: Global, last: u8, operands: &[Text]) -> Result<Outcome, NoMemory>
    ensures { IfOk result (λ outcome.
        outcome ≡ leave_with Builtin.Exit Leave.Exit last operands.now) }
{
    match operands {
        [] => Ok(Outcome::left(alloc, Leave::Exit(last))),
        [operand] => match status_in(operand.as_slice()) {
            Some(status) => Ok(Outcome::left(alloc, Leave::Exit(status))),
            None => Outcome::misuse(alloc, Builtin::Exit),
        },
        _ => Outcome::misuse(alloc, Builtin::Exit),
    }
}

/// return, with its operands.
pub(crate) fn return_with(alloc: Global, last: u8, operands: &[Text]) -> Result<Outcome, NoMemory>
    ensures { IfOk result (λ outcome.
        outcome ≡ leave_with Builtin.Return Leave.Return last operands.now) }
{
    match operands {
        [] => Ok(Outcome::left(alloc, Leave::Return(last))),
        [operand] => match status_in(operand.as_slice()) {
            Some(status) => Ok(Outcome::left(alloc, Leave::Return(status))),
            None => Outcome::misuse(alloc, Builtin::Return),
        },
        _ => Outcome::misuse(alloc, Builtin::Return),
    }
}

/// break, with its operands.
pub(crate) fn break_with(alloc: Global, operands: &[Text]) -> Result<Outcome, NoMemory>
    ensures { IfOk result (λ outcome.
        outcome ≡ loop_with Builtin.Break Leave.Break operands.now) }
{
    match operands {
        [] => Ok(Outcome::left(alloc, Leave::Break(0))),
        [operand] => match number_of(operand.as_slice()) {
            Some(0) => Outcome::misuse(alloc, Builtin::Break),
            Some(number) => Ok(Outcome::left(alloc, Leave::Break(number - 1))),
            None => Outcome::misuse(alloc, Builtin::Break),
        },
        _ => Outcome::misuse(alloc, Builtin::Break),
    }
}

/// continue, with its operands.
pub(crate) fn continue_with(alloc: Global, operands: &[Text]) -> Result<Outcome, NoMemory>
    ensures { IfOk result (λ outcome.
        outcome ≡ loop_with Builtin.Continue Leave.Continue operands.now) }
{
    match operands {
        [] => Ok(Outcome::left(alloc, Leave::Continue(0))),
        [operand] => match number_of(operand.as_slice()) {
            Some(0) => Outcome::misuse(alloc, Builtin::Continue),
            Some(number) => Ok(Outcome::left(alloc, Leave::Continue(number - 1))),
            None => Outcome::misuse(alloc, Builtin::Continue),
        },
        _ => Outcome::misuse(alloc, Builtin::Continue),
    }
}
