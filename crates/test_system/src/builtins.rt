//! `builtin COMMANDS ANSWERS`: commands, with `|` between them, and what comes of each, on a directory and a file in it. There are no
//! variables at first. `args` writes the positional parameters, `flags` the options' letters.
use crate::outcomes::{put_next, words_of};
use sh_base::NoMemory;
use sh_base::sequence::{Sequence, Text};
use sh_builtin_environment::{Attribute, Outcome, cd, mark, pwd, set, shift, unset};
use sh_files::Files;
use sh_vars::{Options, Vars};
use std::alloc::Global;
use test_rows::RowFault;

/// A directory, and a file in it.
const IMAGE: &[u8] = b"psh image 1\ndir /d\nfile /d/f rw- 1\na\nend\n";

/// The positional parameters, with a comma between them.
fn parameters(alloc: Global, vars: &Vars) -> Result<Outcome, NoMemory> {
    let mut text = Sequence::new(alloc);
    for (place, parameter) in vars.positional().iter().enumerate() {
        if place > 0 {
            text.push(b',')?;
        }
        text.extend_from_slice(parameter.as_slice())?;
    }
    Ok(Outcome::Output(text))
}

/// The letters of the options that are on.
fn flags(alloc: Global, options: Options) -> Result<Outcome, NoMemory> {
    Ok(Outcome::Output(options.letters(alloc)?))
}

/// What a command comes to.
fn run(alloc: Global, files: &Files, vars: &mut Vars, words: &[Text]) -> Result<Outcome, NoMemory> {
    let Some((name, arguments)) = words.split_first() else {
        return Ok(Outcome::Done(0));
    };
    match name.as_slice() {
        b"args" => parameters(alloc, vars),
        b"cd" => cd(alloc, files, vars, arguments),
        b"export" => mark(alloc, Attribute::Export, vars, arguments),
        b"flags" => flags(alloc, vars.options()),
        b"pwd" => pwd(alloc, vars, arguments),
        b"readonly" => mark(alloc, Attribute::ReadOnly, vars, arguments),
        b"set" => set(alloc, vars, arguments),
        b"shift" => Ok(shift(vars, arguments)),
        _ => unset(alloc, vars, arguments),
    }
}

/// What commands come to, one after another.
fn run_all(
    alloc: Global,
    files: &Files,
    vars: &mut Vars,
    commands: &[u8],
) -> Result<Vec<u8>, NoMemory> {
    let words = words_of(alloc, b"PATH HOME PWD IFS PS1 PS2 PS4 PPID")?;
    drop(unset(alloc, vars, &words)?);
    let mut text = Vec::new(alloc);
    for (place, command) in commands.split(|byte| *byte == b'|').enumerate() {
        let words = words_of(alloc, command)?;
        let outcome = run(alloc, files, vars, &words)?;
        put_next(&mut text, place, outcome)?;
    }
    Ok(text)
}

/// What the commands of a row come to.
pub(crate) fn answers(alloc: Global, commands: &[u8]) -> Result<Vec<u8>, RowFault> {
    let Ok(files) = Files::from_image(alloc, IMAGE) else {
        return Err(RowFault::NoMemory);
    };
    let mut vars = Vars::new(alloc)?;
    let text = run_all(alloc, &files, &mut vars, commands);
    drop(vars);
    drop(files);
    text.map_err(|_| RowFault::NoMemory)
}
