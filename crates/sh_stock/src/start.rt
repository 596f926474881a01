// The programs before their first turn, by name and operands.
ghost use Rattle.std.specs.Prelude.{◌≡◌, IfOk};
ghost use Rattle.sh_stock.specs.Programs.{alone, echo_text, head_started, head_started_by, having_started, usage_error, program_of};

use crate::name::Name;
use crate::program::{Program, Search, head_of};
use sh_base::NoMemory;
use sh_base::decimal::number_of;
use sh_base::sequence::Text;
use std::alloc::Global;

/// The program of a name with its operands.
pub(crate) fn started(alloc: Global, name: Name, operands: &[Text]) -> Result<Program, NoMemory>
    ensures { IfOk result (λ program. program ≡ program_of name operands.now) }
{
    match name {
        Name::Cat => Ok(alone(Program::Cat, operands)),
        Name::Echo => Ok(Program::Writing(echo_text(alloc, operands)?)),
        Name::True => Ok(alone(Program::Ending(0), operands)),
        Name::False => Ok(alone(Program::Ending(1), operands)),
        Name::Yes => Ok(alone(Program::Yes, operands)),
        Name::Spin => Ok(alone(Program::Spin, operands)),
        Name::Head => Ok(head_started(operands)),
        Name::Having => having_started(alloc, operands),
        Name::Count => Ok(alone(Program::Count(0), operands)),
        Name::ReadStop => Ok(alone(Program::ReadStop(Text::new(alloc)), operands)),
    }
}

/// The program that wrong operands give.
fn misused() -> Program
    ensures { result ≡ usage_error }
{
    Program::Ending(2)
}

/// A program that takes no operands, started with these.
fn alone(program: Program, operands: &[Text]) -> Program
    ensures { result ≡ alone program operands.now }
{
    if operands.is_empty() {
        return program;
    }
    misused()
}

/// The operands with a space between each two, and a newline at the end.
fn echo_text(alloc: Global, operands: &[Text]) -> Result<Text, NoMemory>
    ensures { IfOk result (λ text. text ≡ echo_text operands.now) }
{
    let mut text = Text::new(alloc);
    let mut rest = operands;
    'operands: while let Some((first, others)) = rest.split_first() {
        text.extend_from_slice(first.as_slice())?;
        if !others.is_empty() {
            text.push(b' ')?;
        }
        rest = others;
    }
    text.push(b'\n')?;
    Ok(text)
}

/// `head` with an option and its number.
fn head_started_by(option: &[u8], number: &[u8]) -> Program
    ensures { result ≡ head_started_by option.now number.now }
{
    if option != b"-n".as_slice() {
        return misused();
    }
    match number_of(number) {
        Some(lines) => head_of(lines),
        None => misused(),
    }
}

/// `head` with its operands.
fn head_started(operands: &[Text]) -> Program
    ensures { result ≡ head_started operands.now }
{
    match operands {
        [option, number] => head_started_by(option.as_slice(), number.as_slice()),
        _ => misused(),
    }
}

/// `having` with its operands.
fn having_started(alloc: Global, operands: &[Text]) -> Result<Program, NoMemory>
    ensures { IfOk result (λ program. program ≡ having_started operands.now) }
{
    match operands {
        [text] => Ok(Program::Having(Search {
            text: Text::copy_of(alloc, text.as_slice())?,
            line: Text::new(alloc),
            found: false,
        })),
        _ => Ok(misused()),
    }
}
