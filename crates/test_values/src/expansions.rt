//! Words, what they are expanded with and what they come to.
use crate::fields::ifs_of;
use crate::steps::{answers, joined, parts, said};
use crate::variables::value_of;
use crate::words;
use sh_base::sequence::{Sequence, Text};
use sh_expand::{ArithmeticError, Context, Expansion, Fault, Step, Wanted};
use sh_files::Files;
use sh_pattern::PatternByte;
use sh_vars::{Options, Vars, VarsFault};
use std::alloc::{AllocError, Global};
use test_rows::RowFault;

/// The steps before a row, as those of `variables`.
const BEFORE: &[u8] =
    b"set HOME /h; set x a b; set e ; set p a.b.c; set s *.c; set c :a::b:; set n 3; set q \\*.c; set r old; \
readonly r; readonly k";

/// The files among which paths are sought.
const IMAGE: &[u8] = b"psh image 1\n\
dir /bin\n\
dir /h\n\
file /b.c rw- 0\n\
\n\
file /a.c rw- 0\n\
\n\
file /.c rw- 0\n\
\n\
end\n";

/// Words, and what they are expanded with.
#[derive(Clone, Copy)]
struct Case<'a> {
    /// IFS or an option, as [`set_shell`] has it.
    shell: &'a [u8],
    /// The positional parameters, between `&`; `empty` is a single one, which is empty.
    operands: &'a [u8],
    context: Context,
    words: &'a [u8],
    /// The answer to each command substitution.
    answer: &'a [u8],
    /// The variables that are shown in the end, between blanks.
    names: &'a [u8],
}

/// The words of a case, and what they are expanded with.
#[derive(Drop)]
struct Ready {
    words: Sequence<Wanted>,
    vars: Vars,
    files: Files,
}

/// A command's words, in the usual shell.
fn command(words: &[u8]) -> Case<'_> {
    Case {
        shell: b"default",
        operands: b"",
        context: Context::Fields,
        words,
        answer: b"",
        names: b"",
    }
}

/// The positional parameters of a case.
fn operands_of(alloc: Global, column: &[u8]) -> Result<Vec<Text>, RowFault> {
    let mut operands = Vec::new(alloc);
    if column.is_empty() {
        return Ok(operands);
    }
    if column == b"empty".as_slice() {
        operands.push(Text::copy_of(alloc, b"")?)?;
        return Ok(operands);
    }
    for operand in parts(alloc, column, b'&')?.as_slice() {
        operands.push(Text::copy_of(alloc, operand)?)?;
    }
    Ok(operands)
}

/// Sets or unsets IFS.
fn set_ifs(vars: &mut Vars, ifs: Option<&[u8]>) -> Result<(), VarsFault> {
    match ifs {
        Some(ifs) => vars.set(b"IFS", ifs),
        None => vars.unset(b"IFS"),
    }
}

/// Sets IFS, or an option. IFS is as [`ifs_of`] has it; `-u` and `-f` are the usual one under that option.
fn set_shell(vars: &mut Vars, shell: &[u8]) -> Result<(), RowFault> {
    let mut options = vars.options();
    options.no_unset = shell == b"-u".as_slice();
    options.no_glob = shell == b"-f".as_slice();
    if options != Options::default() {
        vars.set_options(options);
    } else if set_ifs(vars, ifs_of(shell)).is_err() {
        return Err(RowFault::NoMemory);
    }
    Ok(())
}

/// Sets what a shell has before a case.
fn furnish(alloc: Global, vars: &mut Vars, case: &Case) -> Result<(), RowFault> {
    drop(answers(alloc, vars, BEFORE)?);
    set_shell(vars, case.shell)?;
    vars.set_positional(operands_of(alloc, case.operands)?);
    Ok(())
}

/// The shell of a case.
fn shell(alloc: Global, case: &Case) -> Result<Vars, RowFault> {
    let mut vars = Vars::new(alloc)?;
    match furnish(alloc, &mut vars, case) {
        Ok(()) => Ok(vars),
        Err(fault) => {
            drop(vars);
            Err(fault)
        },
    }
}

/// Reads the words of a case and makes the shell and the files.
fn prepare(alloc: Global, case: &Case) -> Result<Ready, RowFault> {
    let words = words::read(alloc, case.context, case.words)?;
    match shell(alloc, case) {
        Ok(vars) => with_files(alloc, words, vars),
        Err(fault) => {
            drop(words);
            Err(fault)
        },
    }
}

/// Makes the files.
fn with_files(alloc: Global, words: Sequence<Wanted>, vars: Vars) -> Result<Ready, RowFault> {
    match Files::from_image(alloc, IMAGE) {
        Ok(files) => Ok(Ready { words, vars, files }),
        Err(_) => {
            drop(words);
            drop(vars);
            Err(RowFault::NoMemory)
        },
    }
}

fn put(text: &mut Vec<u8>, more: &[u8]) -> Result<(), AllocError> {
    text.extend_from_slice(more)
}

fn put_fields(text: &mut Vec<u8>, fields: &[Text]) -> Result<(), AllocError> {
    for field in fields {
        text.push(b'[')?;
        text.extend_from_slice(field.as_slice())?;
        text.push(b']')?;
    }
    Ok(())
}

fn put_fault(text: &mut Vec<u8>, fault: &Fault) -> Result<(), AllocError> {
    match fault {
        Fault::Unset { name, message } => {
            put(text, name.as_slice())?;
            put(text, b": ")?;
            match message {
                Some(message) => put(text, message.as_slice()),
                None => put(text, b"parameter not set"),
            }
        },
        Fault::BadSubstitution => put(text, b"bad substitution"),
        Fault::Arithmetic(ArithmeticError::Syntax) => put(text, b"arithmetic: syntax"),
        Fault::Arithmetic(ArithmeticError::DivisionByZero) => {
            put(text, b"arithmetic: division by zero")
        },
        Fault::Arithmetic(ArithmeticError::NotANumber) => put(text, b"arithmetic: not a number"),
        Fault::Arithmetic(ArithmeticError::TooDeep) => put(text, b"too deep"),
        Fault::ReadOnly { name } => {
            put(text, name.as_slice())?;
            put(text, b": read only")
        },
    }
}

/// One more answer, where it is needed.
fn answered(
    alloc: Global,
    expansion: &mut Expansion,
    step: Step,
    vars: &mut Vars,
    files: &Files,
    answer: &[u8],
) -> Result<Step, AllocError> {
    match step {
        Step::Need(_) => expansion.resume(alloc, answer, vars, files),
        Step::Fields(fields) => Ok(Step::Fields(fields)),
        Step::Fault(fault) => Ok(Step::Fault(fault)),
    }
}

/// What words come to, each command substitution being answered by `answer`.
fn expanded(
    alloc: Global,
    words: Sequence<Wanted>,
    vars: &mut Vars,
    files: &Files,
    answer: &[u8],
) -> Result<Step, AllocError> {
    let (mut expansion, mut step) = Expansion::start(alloc, words, vars, files)?;
    for _ in 0..9 {
        step = answered(alloc, &mut expansion, step, vars, files, answer)?;
    }
    Ok(step)
}

/// The fields of a step between brackets, or the message of its fault.
fn shown(alloc: Global, step: &Step) -> Result<Vec<u8>, AllocError> {
    let mut text = Vec::new(alloc);
    match step {
        Step::Need(_) => put(&mut text, b"need")?,
        Step::Fields(fields) => put_fields(&mut text, fields.as_slice())?,
        Step::Fault(fault) => put_fault(&mut text, fault)?,
    }
    Ok(text)
}

/// What a case comes to whose expansion ended so. `refused` says that a call found no memory: whatever comes to it, it isn't wrong.
fn outcome(alloc: Global, step: Result<Step, AllocError>) -> Result<Vec<u8>, RowFault> {
    let Ok(step) = step else {
        return said(alloc, "refused");
    };
    let text = shown(alloc, &step);
    drop(step);
    Ok(text?)
}

/// The values of variables, each with its name.
fn values(alloc: Global, vars: &Vars, names: &[u8]) -> Result<Vec<u8>, RowFault> {
    let mut text = Vec::new(alloc);
    if names.is_empty() {
        return Ok(text);
    }
    for name in parts(alloc, names, b' ')?.as_slice() {
        let value = value_of(alloc, vars, name)?;
        text = joined(
            alloc,
            &[&text, b"; ".as_slice(), name, b" ".as_slice(), &value],
        )?;
    }
    Ok(text)
}

/// What a case comes to.
fn comes_to(alloc: Global, case: &Case) -> Result<Vec<u8>, RowFault> {
    let Ready {
        words,
        mut vars,
        files,
    } = prepare(alloc, case)?;
    let step = expanded(alloc, words, &mut vars, &files, case.answer);
    let values = values(alloc, &vars, case.names);
    drop(vars);
    drop(files);
    let text = outcome(alloc, step)?;
    let values = values?;
    joined(alloc, &[&text, &values])
}

/// `words SHELL OPERANDS WORDS`: the fields of a command's words, each between brackets, or the message of their fault.
pub(crate) fn words(
    alloc: Global,
    shell: &[u8],
    operands: &[u8],
    words: &[u8],
) -> Result<Vec<u8>, RowFault> {
    let case = Case {
        shell,
        operands,
        ..command(words)
    };
    comes_to(alloc, &case)
}

/// What a word is expanded for.
fn context_of(field: &[u8]) -> Context {
    match field {
        b"assignment" => Context::Assignment,
        b"operand" => Context::Operand,
        b"document" => Context::QuotedSingle,
        _ => Context::Single,
    }
}

/// `text CONTEXT WORD`: the text of a word that gives one; IFS is `:`, the positional parameters are `a b`, an empty one and `c`.
pub(crate) fn text(alloc: Global, context: &[u8], word: &[u8]) -> Result<Vec<u8>, RowFault> {
    let case = Case {
        shell: b":",
        operands: b"a b&&c",
        context: context_of(context),
        ..command(word)
    };
    comes_to(alloc, &case)
}

/// `answered WORDS ANSWER`: as `words`, each command substitution being answered so.
pub(crate) fn answered_words(
    alloc: Global,
    words: &[u8],
    answer: &[u8],
) -> Result<Vec<u8>, RowFault> {
    let case = Case {
        answer,
        ..command(words)
    };
    comes_to(alloc, &case)
}

/// `assigned WORDS NAMES`: as `words`, and behind it what these variables are then.
pub(crate) fn assigned(alloc: Global, words: &[u8], names: &[u8]) -> Result<Vec<u8>, RowFault> {
    let case = Case {
        names,
        ..command(words)
    };
    comes_to(alloc, &case)
}

/// The pattern that words are.
fn pattern_of(
    alloc: Global,
    words: Sequence<Wanted>,
    vars: &mut Vars,
    files: &Files,
) -> Result<Vec<PatternByte>, AllocError> {
    let (expansion, step) = Expansion::start(alloc, words, vars, files)?;
    drop(step);
    let pattern = expansion.pattern(alloc);
    drop(expansion);
    pattern
}

fn put_pattern(text: &mut Vec<u8>, marks: &[PatternByte]) -> Result<(), AllocError> {
    for mark in marks {
        if mark.literal {
            text.push(b'\\')?;
        }
        text.push(mark.byte)?;
    }
    Ok(())
}

/// `pattern WORD`: the word as a pattern, each literal byte behind a `\`.
pub(crate) fn pattern(alloc: Global, word: &[u8]) -> Result<Vec<u8>, RowFault> {
    let case = Case {
        context: Context::Single,
        ..command(word)
    };
    let Ready {
        words,
        mut vars,
        files,
    } = prepare(alloc, &case)?;
    let marks = pattern_of(alloc, words, &mut vars, &files);
    drop(vars);
    drop(files);
    let mut text = Vec::new(alloc);
    put_pattern(&mut text, marks?.as_slice())?;
    Ok(text)
}
