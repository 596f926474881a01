//! Reading the next command of a text.
ghost use Rattle.std.specs.Prelude.{◌≡◌, IfOk, drop, true};
ghost use Rattle.sh_parse.specs.Reading.{reading};
ghost use Rattle.sh_exec_command.specs.Reading.{answer_of, input_by, input_found, next_command};

use crate::found::{Answer, Found, InputFound};
use sh_aliases::Aliases;
use sh_base::NoMemory;
use sh_base::sequence::Text;
use sh_exec_parts::Rest;
use sh_exec_parts::message::Refusal;
use sh_parse::{ParseFault, Reading, read_command};
use std::alloc::Global;

/// One reading of a text that is there whole.
fn read_once(alloc: Global, aliases: &Aliases, text: &[u8]) -> Result<Answer, NoMemory>
    ensures { IfOk result (λ answer. answer ≡ answer_of (reading aliases.now true text.now)) }
{
    match read_command(alloc, text, true, aliases) {
        Ok(Reading::Complete { tree, used }) => Ok(Answer::Command(tree, used)),
        Ok(Reading::Blank { used }) => Ok(Answer::Blank(used)),
        Ok(Reading::More) => Ok(Answer::Fault(Refusal::Syntax, 0)),
        Err(ParseFault::Refused { used, .. }) => Ok(Answer::Fault(Refusal::Syntax, used)),
        Err(ParseFault::Unclosed { .. }) => Ok(Answer::Unclosed),
        Err(ParseFault::BadSubstitution { used, .. }) => {
            Ok(Answer::Fault(Refusal::BadSubstitution, used))
        },
        Err(ParseFault::TooDeep { used, .. }) => Ok(Answer::Fault(Refusal::TooDeep, used)),
        Err(ParseFault::NoMemory(lack)) => Err(lack),
    }
}

/// The next complete command of a text that is there whole, by these aliases (XCU 2.3.1), and what is left after it.
pub fn find_command(alloc: Global, aliases: &Aliases, text: Rest) -> Result<Found, NoMemory>
    ensures { IfOk result (λ found. found ≡ next_command aliases.now text) }
{
    let mut rest = text;
    'lines: while !rest.as_slice().is_empty() {
        match read_once(alloc, aliases, rest.as_slice())? {
            Answer::Command(tree, used) => {
                rest.skip(used);
                return Ok(Found::Command(tree, rest));
            },
            Answer::Blank(used) => {
                if used == 0 {
                    return Ok(Found::Nothing);
                }
                rest.skip(used);
            },
            Answer::Fault(refusal, used) => {
                rest.skip(used);
                return Ok(Found::Fault(refusal, rest));
            },
            Answer::Unclosed => {
                drop(rest);
                return Ok(Found::Fault(Refusal::Syntax, Rest::new(Text::new(alloc))));
            },
        }
    }
    Ok(Found::Nothing)
}

/// What is behind the first bytes of a text.
fn text_behind(alloc: Global, text: Text, used: usize) -> Result<Text, NoMemory>
    ensures { IfOk result (λ rest. rest ≡ drop used text) }
{
    let mut rest = Rest::new(text);
    rest.skip(used);
    Ok(Text::copy_of(alloc, rest.as_slice())?)
}

/// The next complete command of what an interactive shell has read so far by descriptor 0 (XCU 2.1), by these aliases: at the end of the file no
/// more follows. The only error is want of memory.
pub fn find_input(
    alloc: Global,
    aliases: &Aliases,
    text: Text,
    is_end: bool,
) -> Result<InputFound, NoMemory>
    ensures { IfOk result (λ found. found ≡ input_found aliases.now is_end text) }
{
    match read_command(alloc, text.as_slice(), is_end, aliases) {
        Ok(Reading::Complete { tree, used }) => match text_behind(alloc, text, used) {
            Ok(rest) => Ok(InputFound::Command(tree, rest)),
            Err(lack) => {
                drop(tree);
                Err(lack)
            },
        },
        Ok(Reading::Blank { used }) => Ok(InputFound::Blank(text_behind(alloc, text, used)?)),
        Ok(Reading::More) => Ok(InputFound::More(text)),
        Err(ParseFault::Refused { .. }) => Ok(InputFound::Fault(Refusal::Syntax)),
        Err(ParseFault::Unclosed { .. }) => Ok(InputFound::Fault(Refusal::Syntax)),
        Err(ParseFault::BadSubstitution { .. }) => Ok(InputFound::Fault(Refusal::BadSubstitution)),
        Err(ParseFault::TooDeep { .. }) => Ok(InputFound::Fault(Refusal::TooDeep)),
        Err(ParseFault::NoMemory(lack)) => Err(lack),
    }
}
