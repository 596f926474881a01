//! Variables, parameters and options of a shell.
use crate::arithmetic;
use crate::steps::{
    Acted, answers, bracketed, cut, decimal, joined, number, parts, said, yes_or_no,
};
use sh_arith::ArithFault;
use sh_vars::{Entry, Options, ShellOption, Text, Vars, VarsFault, is_name};
use std::alloc::Global;
use test_rows::RowFault;

/// A fault's text.
fn text_of(alloc: Global, fault: VarsFault) -> Result<Vec<u8>, RowFault> {
    Ok(format!(in alloc; "{fault}")?.into_bytes())
}

/// What a change answers.
fn done(alloc: Global, change: Result<(), VarsFault>) -> Result<Vec<u8>, RowFault> {
    match change {
        Ok(()) => said(alloc, "done"),
        Err(VarsFault::NoMemory(_)) => Err(RowFault::NoMemory),
        Err(fault) => text_of(alloc, fault),
    }
}

/// The texts between blanks.
fn operands(alloc: Global, words: &[u8]) -> Result<Vec<Text>, RowFault> {
    let mut operands = Vec::new(alloc);
    for operand in parts(alloc, words, b' ')?.as_slice() {
        operands.push(Text::copy_of(alloc, operand)?)?;
    }
    Ok(operands)
}

/// Puts a copy in the place of the variables.
fn replace(vars: &mut Vars) -> Result<(), RowFault> {
    *vars = vars.copy()?;
    Ok(())
}

/// Puts a variable's name, its value where it has one, and its attributes behind a text.
fn put_entry(text: &mut Vec<u8>, entry: &Entry) -> Result<(), RowFault> {
    text.push(b'[')?;
    text.extend_from_slice(entry.name())?;
    if let Some(value) = entry.value() {
        text.push(b'=')?;
        text.extend_from_slice(value)?;
    }
    if entry.is_exported() {
        text.extend_from_slice(b" exported")?;
    }
    if entry.is_read_only() {
        text.extend_from_slice(b" read-only")?;
    }
    text.push(b']')?;
    Ok(())
}

/// All variables, in order.
fn all(alloc: Global, vars: &Vars) -> Result<Vec<u8>, RowFault> {
    let mut text = Vec::new(alloc);
    for entry in vars.variables() {
        put_entry(&mut text, entry)?;
    }
    Ok(text)
}

/// A variable as `all` shows it; `none` where there is none.
fn shown(alloc: Global, vars: &Vars, name: &[u8]) -> Result<Vec<u8>, RowFault> {
    let mut text = Vec::new(alloc);
    match vars.variable(name) {
        Some(entry) => put_entry(&mut text, entry)?,
        None => text.extend_from_slice(b"none")?,
    }
    Ok(text)
}

/// A variable's value between brackets; `unset` where it has none.
pub(crate) fn value_of(alloc: Global, vars: &Vars, name: &[u8]) -> Result<Vec<u8>, RowFault> {
    match vars.get(name) {
        Some(value) => bracketed(alloc, value),
        None => said(alloc, "unset"),
    }
}

/// `$$`, `$?` and `$!`.
fn numbers(alloc: Global, vars: &Vars) -> Result<Vec<u8>, RowFault> {
    let process = decimal(alloc, vars.process() as usize)?;
    let status = decimal(alloc, usize::from(vars.status()))?;
    let background = match vars.background() {
        Some(process) => decimal(alloc, process as usize)?,
        None => said(alloc, "none")?,
    };
    let blank = b" ".as_slice();
    joined(alloc, &[&process, blank, &status, blank, &background])
}

/// `$$`, `$?`, `$!`, `$0`, the directory, `$-` and the positional parameters.
fn parameters(alloc: Global, vars: &Vars) -> Result<Vec<u8>, RowFault> {
    let numbers = numbers(alloc, vars)?;
    let letters = vars.options().letters(alloc)?;
    let blank = b" ".as_slice();
    let mut text = joined(
        alloc,
        &[
            &numbers,
            blank,
            vars.zero(),
            blank,
            vars.directory(),
            b" -".as_slice(),
            letters.as_slice(),
        ],
    )?;
    for operand in vars.positional() {
        text.push(b' ')?;
        text.extend_from_slice(operand.as_slice())?;
    }
    Ok(text)
}

/// Does a step that changes a variable. Answers nothing where the step is none.
fn change(vars: &mut Vars, word: &[u8], rest: &[u8]) -> Option<Result<(), VarsFault>> {
    if word == b"set".as_slice() {
        let (name, value) = cut(rest);
        return Some(vars.set(name, value));
    }
    if word == b"unset".as_slice() {
        return Some(vars.unset(rest));
    }
    if word == b"export".as_slice() {
        return Some(vars.export(rest));
    }
    if word == b"readonly".as_slice() {
        return Some(vars.make_readonly(rest));
    }
    None
}

/// Gives a variable an empty value and both attributes for a time, and puts it back.
fn undo(alloc: Global, vars: &mut Vars, name: &[u8]) -> Result<(), RowFault> {
    let Some(entry) = vars.variable(name) else {
        return Ok(());
    };
    let before = entry.copy()?;
    for word in ["set", "export", "readonly"] {
        if let Some(Err(_)) = change(vars, word.as_bytes(), name) {
            drop(before);
            return Err(RowFault::NoMemory);
        }
    }
    vars.put(before)?;
    Ok(())
}

/// Does a step that sets a number of the shell, or an option. Answers whether the step is one.
fn set_number(vars: &mut Vars, word: &[u8], rest: &[u8]) -> bool {
    let value = u32::try_from(number(rest)).unwrap_or(0);
    if word == b"status".as_slice() {
        vars.set_status(u8::try_from(value).unwrap_or(0));
    } else if word == b"background".as_slice() {
        vars.set_background(value);
    } else if word == b"process".as_slice() {
        vars.set_process(value);
    } else if word == b"shift".as_slice() {
        vars.shift(number(rest).min(vars.positional().len()));
    } else if word == b"option".as_slice() {
        vars.set_options(with(vars.options(), rest));
    } else {
        return false;
    }
    true
}

/// Does a step that sets a text of the shell, or forgets a variable. Answers whether the step is one.
fn set_text(alloc: Global, vars: &mut Vars, word: &[u8], rest: &[u8]) -> Result<bool, RowFault> {
    if word == b"zero".as_slice() {
        vars.set_zero(Text::copy_of(alloc, rest)?);
    } else if word == b"directory".as_slice() {
        vars.set_directory(Text::from_vec(rest.to_vec(alloc)?));
    } else if word == b"operands".as_slice() {
        vars.set_positional(operands(alloc, rest)?);
    } else if word == b"copy".as_slice() {
        replace(vars)?;
    } else if word == b"undo".as_slice() {
        undo(alloc, vars, rest)?;
    } else if word == b"forget".as_slice() {
        vars.forget(rest);
    } else {
        return Ok(false);
    }
    Ok(true)
}

/// What a step that changes nothing answers.
fn ask(alloc: Global, vars: &mut Vars, word: &[u8], rest: &[u8]) -> Result<Vec<u8>, RowFault> {
    if word == b"get".as_slice() {
        return value_of(alloc, vars, rest);
    }
    if word == b"show".as_slice() {
        return shown(alloc, vars, rest);
    }
    if word == b"all".as_slice() {
        return all(alloc, vars);
    }
    if word == b"parameters".as_slice() {
        return parameters(alloc, vars);
    }
    if word == b"value".as_slice() {
        return arithmetic::answer(alloc, vars, rest);
    }
    said(alloc, "no step")
}

impl Acted for Vars {
    fn act(&mut self, alloc: Global, word: &[u8], rest: &[u8]) -> Result<Vec<u8>, RowFault> {
        if let Some(changed) = change(self, word, rest) {
            return done(alloc, changed);
        }
        if set_number(self, word, rest) || set_text(alloc, self, word, rest)? {
            return done(alloc, Ok(()));
        }
        ask(alloc, self, word, rest)
    }
}

/// `variables STEPS`: what the steps answer, from the variables of the first shell on.
pub(crate) fn variables(alloc: Global, steps: &[u8]) -> Result<Vec<u8>, RowFault> {
    let mut vars = Vars::new(alloc)?;
    let found = answers(alloc, &mut vars, steps);
    drop(vars);
    found
}

/// `name TEXT`: whether the text is a name.
pub(crate) fn name(alloc: Global, text: &[u8]) -> Result<Vec<u8>, RowFault> {
    yes_or_no(alloc, is_name(text))
}

/// Options with those of some letters too.
fn with(options: Options, letters: &[u8]) -> Options {
    let mut options = options;
    for letter in letters {
        if let Some(option) = ShellOption::from_letter(*letter) {
            options = options.switched(option, true);
        }
    }
    options
}

/// `option LETTER`: the name and the letter of the option that has this letter, or `none`.
pub(crate) fn option(alloc: Global, letters: &[u8]) -> Result<Vec<u8>, RowFault> {
    let letter = letters.first().copied().unwrap_or(b' ');
    let Some(option) = ShellOption::from_letter(letter) else {
        return said(alloc, "none");
    };
    let mut text = said(alloc, option.name())?;
    if let Some(letter) = option.letter() {
        text.extend_from_slice(b" -")?;
        text.push(letter)?;
    }
    Ok(text)
}

/// `options LETTERS`: for each letter, one option after another being switched on, whether its option is on before and behind that, and
/// last `$-`.
pub(crate) fn options(alloc: Global, letters: &[u8]) -> Result<Vec<u8>, RowFault> {
    let mut text = Vec::new(alloc);
    let mut options = Options::default();
    for letter in letters {
        if let Some(option) = ShellOption::from_letter(*letter) {
            text.push(if options.is_on(option) { b'+' } else { b'-' })?;
            options = options.switched(option, true);
            text.push(if options.is_on(option) { b'+' } else { b'-' })?;
        }
    }
    text.extend_from_slice(&bracketed(alloc, options.letters(alloc)?.as_slice())?)?;
    Ok(text)
}

/// `copy TEXT`: the bytes of a copy of a copy.
pub(crate) fn copy(alloc: Global, bytes: &[u8]) -> Result<Vec<u8>, RowFault> {
    let text = Text::copy_of(alloc, bytes)?;
    let copy = Text::copy_of(alloc, text.as_slice())?;
    Ok(copy.into_vec())
}

/// `memory CRATE`: the text of the fault that is want of memory, of `variables` and of `arithmetic`, for more bytes than there can be.
pub(crate) fn memory(alloc: Global, of: &[u8]) -> Result<Vec<u8>, RowFault> {
    match Vec::<u8>::with_capacity(alloc, usize::MAX) {
        Ok(_) => Err(RowFault::NoMemory),
        Err(refusal) if of == b"variables".as_slice() => text_of(alloc, VarsFault::from(refusal)),
        Err(refusal) => arithmetic::text_of(alloc, ArithFault::from(refusal)),
    }
}
