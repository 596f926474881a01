//! The words of the command that the built-in `command` runs (XCU command).
ghost use Rattle.std.specs.Prelude.{◌≡◌, codes, option_map};
ghost use Rattle.sh_builtin_outcome.specs.CommandWords.{behind_command, last_behind, words_behind, words_run};
ghost use Rattle.sh_builtin_environment.specs.Options.{options_and_operands};

use crate::builtin::Builtin;
use sh_base::sequence::Text;
use sh_builtin_environment::parse_options;
use sh_builtin_shell::Functions;

/// The words that `command` runs with these arguments.
fn words_run(arguments: &[Text]) -> Option<&[Text]>
    ensures { option_map (λ words. words.now) result
        ≡ words_run (options_and_operands (codes "v") arguments.now) }
{
    match parse_options(b"v", arguments) {
        Some((None, operands)) => match operands.split_first() {
            Some(_) => Some(operands),
            None => None,
        },
        _ => None,
    }
}

/// The words of the command that these words have `command` run.
fn words_behind(words: &[Text]) -> Option<&[Text]>
    ensures { option_map (λ words. words.now) result ≡ words_behind words.now }
{
    match words.split_first() {
        Some((name, arguments)) => {
            if !Builtin::Command.is_named(name.as_slice()) {
                return None;
            }
            words_run(arguments)
        },
        None => None,
    }
}

/// The words behind at most so many `command` that run another command.
fn last_behind<'a>(at_most: &[Text], words: &'a [Text]) -> &'a [Text]
    ensures { result.now ≡ last_behind at_most.now words.now }
{
    let mut left = at_most;
    let mut rest = words;
    'commands: while let Some((_, others)) = left.split_first() {
        let Some(behind) = words_behind(rest) else {
            return rest;
        };
        rest = behind;
        left = others;
    }
    rest
}

/// The words of the command that `command` runs, where these are the words of a simple command: behind the last `command`, if it runs
/// another one. `None` where the words don't begin with `command`, or have an option or no operand behind it: then it is a built-in like
/// any other. `None` too where a function has that name, which is found before it. Takes no memory.
pub fn behind_command<'a>(functions: &Functions, words: &'a [Text]) -> Option<&'a [Text]>
    ensures { option_map (λ words. words.now) result ≡ behind_command functions.now words.now }
{
    if functions.body(Builtin::Command.name()).is_some() {
        return None;
    }
    match words_behind(words) {
        Some(behind) => Some(last_behind(words, behind)),
        None => None,
    }
}
