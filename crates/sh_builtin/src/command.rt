//! The built-in `command` (XCU command).
ghost use Rattle.std.specs.Prelude.{◌≡◌, IfOk, codes};
ghost use Rattle.sh_aliases.specs.Aliases.{alias_named};
ghost use Rattle.sh_builtin.specs.Commands.{alias_text, command_found, command_outcome, description, description_by, is_own, program_path, told, told_of};
ghost use Rattle.sh_builtin_environment.specs.Options.{options_and_operands};
ghost use Rattle.sh_files_image.specs.Paths.{absolute};

use crate::aliases::put_definition;
use sh_aliases::Alias;
use sh_base::NoMemory;
use sh_base::sequence::Text;
use sh_builtin_environment::parse_options;
use sh_builtin_outcome::{Builtin, Outcome};
use sh_builtin_shell::Shell;
use sh_files::{Files, executable_path};
use sh_files_image::absolute;
use sh_token_grammar::class::is_reserved;
use std::alloc::Global;

/// Whether a name is one of a function or a built-in.
fn is_own(shell: &Shell, name: &[u8]) -> bool
    ensures { result ≡ is_own shell.now name.now }
{
    shell.functions.body(name).is_some() || Builtin::of(name).is_some()
}

/// A path from the root.
fn from_root(alloc: Global, directory: &[u8], path: &[u8]) -> Result<Text, NoMemory>
    ensures { IfOk result (λ text. text ≡ absolute directory.now path.now) }
{
    Ok(Text::from_vec(absolute(alloc, directory, path)?))
}

/// The path of the program of a name.
fn program_path(
    alloc: Global,
    files: &Files,
    shell: &Shell,
    name: &[u8],
) -> Result<Option<Text>, NoMemory>
    ensures { IfOk result (λ path. path ≡ program_path files.now shell.now name.now) }
{
    let directory = shell.vars.directory();
    match executable_path(alloc, files, directory, shell.vars.get(b"PATH"), name)? {
        Some(path) => Ok(Some(from_root(alloc, directory, path.as_slice())?)),
        None => Ok(None),
    }
}

/// How the shell would run a command of a name.
fn command_found(
    alloc: Global,
    files: &Files,
    shell: &Shell,
    name: &[u8],
) -> Result<Option<Text>, NoMemory>
    ensures { IfOk result (λ text. text ≡ command_found files.now shell.now name.now) }
{
    if is_own(shell, name) {
        let name = Text::copy_of(alloc, name)?;
        return Ok(Some(name));
    }
    program_path(alloc, files, shell, name)
}

/// The command that defines an alias.
fn alias_text(alloc: Global, alias: &Alias) -> Result<Text, NoMemory>
    ensures { IfOk result (λ text. text ≡ alias_text alias.now) }
{
    let mut text = Text::new(alloc);
    text.extend_from_slice(b"alias ")?;
    put_definition(&mut text, alias)?;
    Ok(text)
}

/// How the shell would take a name that is no reserved word.
fn unreserved(
    alloc: Global,
    files: &Files,
    shell: &Shell,
    name: &[u8],
) -> Result<Option<Text>, NoMemory>
    ensures { IfOk result (λ text.
        text ≡ description_by files.now shell.now name.now (alias_named shell.now.aliases name.now)) }
{
    match shell.aliases.get(name) {
        Some(alias) => {
            let text = alias_text(alloc, alias)?;
            Ok(Some(text))
        },
        None => command_found(alloc, files, shell, name),
    }
}

/// How the shell would take a name.
fn description(
    alloc: Global,
    files: &Files,
    shell: &Shell,
    name: &[u8],
) -> Result<Option<Text>, NoMemory>
    ensures { IfOk result (λ text. text ≡ description files.now shell.now name.now) }
{
    if is_reserved(name) {
        let name = Text::copy_of(alloc, name)?;
        return Ok(Some(name));
    }
    unreserved(alloc, files, shell, name)
}

/// What is told of a name.
fn tell(alloc: Global, files: &Files, shell: &Shell, name: &[u8]) -> Result<Outcome, NoMemory>
    ensures { IfOk result (λ outcome. outcome ≡ told (description files.now shell.now name.now)) }
{
    match description(alloc, files, shell, name)? {
        Some(text) => {
            let mut line = text;
            line.push(b'\n')?;
            Ok(Outcome::output(alloc, line))
        },
        None => Ok(Outcome::done(alloc, 1)),
    }
}

/// `command -v` with its operands.
fn tell_of(
    alloc: Global,
    files: &Files,
    shell: &Shell,
    operands: &[Text],
) -> Result<Outcome, NoMemory>
    ensures { IfOk result (λ outcome. outcome ≡ told_of files.now shell.now operands.now) }
{
    match operands {
        [name] => tell(alloc, files, shell, name.as_slice()),
        _ => Outcome::misuse(alloc, Builtin::Command),
    }
}

/// `command` with its arguments, where it runs no other command.
pub(crate) fn command(
    alloc: Global,
    files: &Files,
    shell: &Shell,
    arguments: &[Text],
) -> Result<Outcome, NoMemory>
    ensures { IfOk result (λ outcome.
        outcome ≡ command_outcome files.now shell.now (options_and_operands (codes "v") arguments.now)) }
{
    match parse_options(b"v", arguments) {
        Some((Some(_), operands)) => tell_of(alloc, files, shell, operands),
        _ => Outcome::misuse(alloc, Builtin::Command),
    }
}
