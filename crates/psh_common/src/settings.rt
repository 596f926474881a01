//! How the first shell is started.
use crate::fault::{UsageFault, usage};
use crate::text::bytes_of;
use clap::ArgMatches;
use sh_base::sequence::{Sequence, Text};
use sh_exec::{Settings, Source};
use sh_vars::{Options, ShellOption};
use std::alloc::{AllocError, Global};

/// Where the commands come from: a text, or the script that the first word names, or the terminal.
fn source_of(alloc: Global, text: Option<&str>, words: &[&str]) -> Result<Source, AllocError> {
    match (text, words) {
        (Some(text), _) => Ok(Source::Text(Sequence::from_vec(bytes_of(alloc, text)?))),
        (None, [script, ..]) => Ok(Source::Script(Sequence::from_vec(bytes_of(alloc, script)?))),
        (None, []) => Ok(Source::Terminal),
    }
}

/// The positional parameters.
fn parameters(alloc: Global, words: &[&str]) -> Result<Sequence<Text>, AllocError> {
    let mut args = Vec::new(alloc);
    for word in words {
        args.push(Text::from_vec(bytes_of(alloc, word)?))?;
    }
    Ok(Sequence::from_vec(args))
}

/// The options that are on at the start: letters of `set`, but for `m`. None where one is no such letter.
fn options_of(letters: &str) -> Option<Options> {
    let mut options = Options::default();
    for letter in letters.as_bytes() {
        match ShellOption::from_letter(*letter)? {
            ShellOption::Interactive | ShellOption::Monitor => return None,
            option => options = options.switched(option, true),
        }
    }
    Some(options)
}

/// A start: the first word is `$0`, the others are `$1` and so on.
fn started(
    alloc: Global,
    text: Option<&str>,
    words: &[&str],
    options: Options,
) -> Result<Settings, AllocError> {
    let (first, rest) = match words {
        [first, rest @ ..] => (*first, rest),
        [] => ("psh", words),
    };
    let zero = Text::from_vec(bytes_of(alloc, first)?);
    let args = parameters(alloc, rest)?;
    let source = source_of(alloc, text, words)?;
    Ok(Settings {
        source,
        zero,
        args,
        options,
    })
}

/// How the shell is started that the words ask for, which clap found by the options `text`, `letters`,
/// `interactive` and `monitor` and the operands `words`. An interactive shell has job control (XCU sh, 2.11).
/// The error is `bad letters`, or want of memory.
pub fn settings_of(
    alloc: Global,
    program: &str,
    matches: &ArgMatches,
) -> Result<Settings, UsageFault> {
    let Some(options) = options_of(matches.get_str("letters").unwrap_or("")) else {
        return Err(usage(alloc, program, "bad letters"));
    };
    let text = matches.get_str("text");
    let words = matches.get_strs("words").unwrap_or(&[]);
    let is_interactive = matches.get_flag("interactive") || (text.is_none() && words.is_empty());
    let has_job_control = matches.get_flag("monitor") || is_interactive;
    let options = options
        .switched(ShellOption::Interactive, is_interactive)
        .switched(ShellOption::Monitor, has_job_control);
    let settings = started(alloc, text, words, options)?;
    Ok(settings)
}
