//! The built-ins cd and pwd (XCU cd, pwd).
ghost use Rattle.std.specs.Prelude.{◌≡◌, [], IfOk, OnOk, codes, false};
ghost use Rattle.sh_builtin_environment.specs.Directories.{arrival, back, cd_ran, cd_with, directory_at, directory_change, is_directory, line, environment_at, new_name, old_name, pwd_outcome, cd_outcome};
ghost use Rattle.sh_builtin_environment.specs.Walks.{through};
ghost use Rattle.sh_builtin_environment.specs.Outcomes.{with_outcome};
ghost use Rattle.sh_files.specs.Nodes.{node_of_path};
ghost use Rattle.sh_files_image.specs.Paths.{absolute, components};
ghost use Rattle.sh_vars.specs.Environment.{is_read_only, value_of};

use crate::options::parse_options;
use crate::outcome::{BuiltinFault, Outcome};
use crate::variables::{is_read_only, set_value};
use sh_base::NoMemory;
use sh_base::sequence::{Sequence, Text};
use sh_files::Files;
use sh_files_image::{Node, absolute, split_slash, step};
use sh_vars::Vars;
use std::alloc::Global;

/// Where the components of a path lead from the root by their text.
fn go_through(alloc: Global, path: &[u8]) -> Result<Text, NoMemory>
    ensures { IfOk result (λ place. place ≡ through (codes "/") (components path.now)) }
{
    let mut place = Vec::from_slice(alloc, b"/".as_slice())?;
    let mut rest = path;
    'names: while let Some((name, behind)) = split_slash(rest) {
        step(&mut place, name)?;
        rest = behind;
    }
    step(&mut place, rest)?;
    Ok(Sequence::from_vec(place))
}

/// A line with a directory.
fn line(alloc: Global, place: &[u8]) -> Result<Text, NoMemory>
    ensures { IfOk result (λ text. text ≡ line place.now) }
{
    let mut text = Text::copy_of(alloc, place)?;
    text.push(b'\n')?;
    Ok(text)
}

/// What `cd` writes on arriving.
fn shown(alloc: Global, shows: bool, place: &[u8]) -> Result<Outcome, NoMemory>
    ensures { IfOk result (λ outcome. outcome ≡ cd_outcome shows place.now) }
{
    if !shows {
        return Ok(Outcome::Done(0));
    }
    let text = line(alloc, place)?;
    Ok(Outcome::Output(text))
}

/// The shell's directory is this one from now on.
fn move_to(alloc: Global, vars: &mut Vars, place: &[u8]) -> Result<(), NoMemory>
    requires old { is_read_only vars.old old_name ≡ false }
    requires new { is_read_only vars.old new_name ≡ false }
    ensures { OnOk result (vars.new ≡ environment_at vars.old place.now) }
{
    let directory = Text::copy_of(alloc, place)?;
    let old = Text::copy_of(alloc, vars.directory())?;
    set_value(vars, b"OLDPWD", old.as_slice())?;
    set_value(vars, b"PWD", place)?;
    vars.set_directory(directory);
    Ok(())
}

/// A refusal that names a variable.
fn read_only(alloc: Global, name: &[u8]) -> Result<Outcome, NoMemory>
    ensures { IfOk result (λ outcome. outcome ≡ Outcome.Fault (BuiltinFault.ReadOnly name.now)) }
{
    let name = Text::copy_of(alloc, name)?;
    Ok(Outcome::Fault(BuiltinFault::ReadOnly(name)))
}

/// A refusal that names the word by which a path was asked for.
fn cannot_open(alloc: Global, word: &[u8]) -> Result<Outcome, NoMemory>
    ensures { IfOk result (λ outcome. outcome ≡ Outcome.Fault (BuiltinFault.CannotOpen word.now)) }
{
    let word = Text::copy_of(alloc, word)?;
    Ok(Outcome::Fault(BuiltinFault::CannotOpen(word)))
}

/// Arrives at a directory: OLDPWD and PWD are set, unless one of them is read-only.
fn arrive(alloc: Global, shows: bool, vars: &mut Vars, place: &[u8]) -> Result<Outcome, NoMemory>
    ensures { IfOk result (λ outcome.
        with_outcome vars.new outcome ≡ arrival shows vars.old place.now) }
{
    if is_read_only(vars, b"OLDPWD") {
        return read_only(alloc, b"OLDPWD");
    }
    if is_read_only(vars, b"PWD") {
        return read_only(alloc, b"PWD");
    }
    let outcome = shown(alloc, shows, place)?;
    move_to(alloc, vars, place)?;
    Ok(outcome)
}

/// Where a path leads by its text.
fn place_of(alloc: Global, directory: &[u8], path: &[u8]) -> Result<Text, NoMemory>
    ensures { IfOk result (λ place.
        place ≡ through (codes "/") (components (absolute directory.now path.now))) }
{
    let whole = absolute(alloc, directory, path)?;
    go_through(alloc, whole.as_slice())
}

/// Whether a path leads to a directory.
fn leads_to_directory(files: &Files, directory: &[u8], path: &[u8]) -> Result<bool, NoMemory>
    ensures { IfOk result (λ leads.
        leads ≡ is_directory (node_of_path files.now directory.now path.now)) }
{
    match files.find(directory, path)? {
        Some(Node::Directory) => Ok(true),
        Some(Node::File(_)) => Ok(false),
        Some(Node::Null) => Ok(false),
        Some(Node::Terminal) => Ok(false),
        None => Ok(false),
    }
}

/// The absolute path of the directory that a path leads to, if it leads to one.
fn find_directory(
    alloc: Global,
    files: &Files,
    directory: &[u8],
    path: &[u8],
) -> Result<Option<Text>, NoMemory>
    ensures { IfOk result (λ place. place ≡ directory_at files.now directory.now path.now) }
{
    if !leads_to_directory(files, directory, path)? {
        return Ok(None);
    }
    let place = place_of(alloc, directory, path)?;
    Ok(Some(place))
}

/// Goes to the directory that a path leads to. A refusal names the word by which the path was asked for.
#[tactic(auto, unfolding(crate::specs::Directories::directory_change))]
fn go(
    alloc: Global,
    shows: bool,
    files: &Files,
    vars: &mut Vars,
    word: &[u8],
    path: &[u8],
) -> Result<Outcome, NoMemory>
    ensures { IfOk result (λ outcome.
        with_outcome vars.new outcome ≡ directory_change shows files.now vars.old word.now
        path.now) }
{
    match find_directory(alloc, files, vars.directory(), path)? {
        Some(place) => arrive(alloc, shows, vars, place.as_slice()),
        None => cannot_open(alloc, word),
    }
}

/// A copy of a variable's value.
fn value_of(alloc: Global, vars: &Vars, name: &[u8]) -> Result<Option<Text>, NoMemory>
    ensures { IfOk result (λ value. value ≡ value_of vars.now name.now) }
{
    match vars.get(name) {
        Some(value) => {
            let value = Text::copy_of(alloc, value)?;
            Ok(Some(value))
        },
        None => Ok(None),
    }
}

/// Goes back to the directory of OLDPWD.
fn go_back(alloc: Global, files: &Files, vars: &mut Vars) -> Result<Outcome, NoMemory>
    ensures { IfOk result (λ outcome.
        with_outcome vars.new outcome ≡ back files.now vars.old (value_of vars.old old_name)) }
{
    let Some(path) = value_of(alloc, vars, b"OLDPWD")? else {
        return cannot_open(alloc, b"-");
    };
    if path.is_empty() {
        return cannot_open(alloc, b"-");
    }
    go(alloc, true, files, vars, b"-", path.as_slice())
}

/// Goes to the directory of HOME.
fn go_home(alloc: Global, files: &Files, vars: &mut Vars) -> Result<Outcome, NoMemory>
    ensures { IfOk result (λ outcome. with_outcome vars.new outcome ≡ cd_with files.now vars.old []) }
{
    match value_of(alloc, vars, b"HOME")? {
        Some(home) => go(alloc, false, files, vars, home.as_slice(), home.as_slice()),
        None => go(alloc, false, files, vars, b"", b""),
    }
}

/// cd with its operands.
fn cd_with(
    alloc: Global,
    files: &Files,
    vars: &mut Vars,
    operands: &[Text],
) -> Result<Outcome, NoMemory>
    ensures { IfOk result (λ outcome.
        with_outcome vars.new outcome ≡ cd_with files.now vars.old operands.now) }
{
    match operands {
        [] => go_home(alloc, files, vars),
        [operand] => {
            if operand.as_slice() == b"-".as_slice() {
                return go_back(alloc, files, vars);
            }
            go(
                alloc,
                false,
                files,
                vars,
                operand.as_slice(),
                operand.as_slice(),
            )
        },
        _ => Ok(Outcome::Fault(BuiltinFault::Usage)),
    }
}

/// `cd` with its arguments (XCU cd). The working directory becomes the one that the operand leads to. Without
/// an operand it becomes the one of HOME, with `-` the one of OLDPWD, which is then written. OLDPWD is then
/// the directory before, and PWD the new one. Dot and dot-dot are resolved by the path's text, and each part
/// of the path has to be a directory. `-L` and `-P` do the same, as there are no symbolic links. Refused are
/// other options, two operands, a path that leads to no directory, and a read-only OLDPWD or PWD; nothing has
/// changed then. The refusal of a path names the operand or, without one, HOME's value. The only error is
/// want of memory; what the variables are then is left open.
#[tactic(auto, unfolding(crate::specs::Directories::cd_ran))]
pub fn cd(
    alloc: Global,
    files: &Files,
    vars: &mut Vars,
    arguments: &[Text],
) -> Result<Outcome, NoMemory>
    ensures { IfOk result (λ outcome.
        with_outcome vars.new outcome ≡ cd_ran files.now vars.old arguments.now) }
{
    let Some((_, operands)) = parse_options(b"LP", arguments) else {
        return Ok(Outcome::Fault(BuiltinFault::Usage));
    };
    cd_with(alloc, files, vars, operands)
}

/// pwd with its arguments (XCU pwd): the working directory is written; `-L` and `-P` do the same. Other
/// options and operands are refused. The only error is want of memory.
#[tactic(auto, unfolding(crate::specs::Directories::pwd_outcome))]
pub fn pwd(alloc: Global, vars: &Vars, arguments: &[Text]) -> Result<Outcome, NoMemory>
    ensures { IfOk result (λ outcome. outcome ≡ pwd_outcome vars.now arguments.now) }
{
    let Some((_, operands)) = parse_options(b"LP", arguments) else {
        return Ok(Outcome::Fault(BuiltinFault::Usage));
    };
    if !operands.is_empty() {
        return Ok(Outcome::Fault(BuiltinFault::Usage));
    }
    let text = line(alloc, vars.directory())?;
    Ok(Outcome::Output(text))
}
