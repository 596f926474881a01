//! The options and operands that say which script is run.
use crate::fault::{UsageFault, fault_of, usage};
use crate::text::bytes_of;
use clap::{Arg, ArgAction, ArgMatches, Command};
use std::alloc::{AllocError, Global};

/// The option `-c TEXT` with the commands to run; its id is `text`.
pub fn text_option<'a>(alloc: Global) -> Arg<'a> {
    Arg::new(alloc, "text")
        .short('c')
        .value_name("TEXT")
        .help("The commands to run, in place of a script's")
        .allow_hyphen_values(true)
}

/// The option `--set LETTERS` with the letters of the shell's options; its id is `letters`.
pub fn letters_option<'a>(alloc: Global) -> Arg<'a> {
    Arg::new(alloc, "letters")
        .long("set")
        .value_name("LETTERS")
        .help("The options of `set` that are on from the start: letters of aCefu")
        .allow_hyphen_values(true)
}

/// The option `-m`, by which the shell has job control from the start (XCU sh, 2.11); its id is `monitor`.
pub fn monitor_option<'a>(alloc: Global) -> Arg<'a> {
    Arg::new(alloc, "monitor")
        .short('m')
        .action(ArgAction::SetTrue)
        .help("Job control from the start, as by `set -m`")
}

/// The option `-i`, by which the shell is interactive (XCU sh, 2.1); its id is `interactive`.
pub fn interactive_option<'a>(alloc: Global) -> Arg<'a> {
    Arg::new(alloc, "interactive")
        .short('i')
        .action(ArgAction::SetTrue)
        .help("An interactive shell, as without TEXT and SCRIPT; that has job control too")
}

/// A required operand that names a file, with its id, the word that help shows and what it is.
pub fn file_operand<'a>(alloc: Global, id: &'a str, shown: &'a str, help: &'a str) -> Arg<'a> {
    Arg::new(alloc, id)
        .value_name(shown)
        .help(help)
        .required(true)
}

/// The operands after the files: the script and the positional parameters; their id is `words`. Without `-c` and without one the shell is
/// interactive, and reads its commands from the terminal.
pub fn words_operand<'a>(alloc: Global) -> Arg<'a> {
    Arg::new(alloc, "words")
        .value_name("WORDS")
        .help("The script's path in the image, or with -c $0; and the positional parameters")
        .num_args(0..)
}

/// What clap finds in the words, or what it says of words that are not in order.
pub fn matches_of<'a>(
    alloc: Global,
    command: Command<'a>,
    texts: &'a [String],
) -> Result<ArgMatches<'a>, UsageFault> {
    match command.try_get_matches_from(texts) {
        Ok(matches) => Ok(matches),
        Err(error) => {
            let fault = fault_of(alloc, &error);
            drop(error);
            Err(fault)
        },
    }
}

/// The path of a file, which an operand names. It is UTF-8, since the standard library opens no others; `fault` is the sentence for another
/// one.
pub fn path_of(
    alloc: Global,
    program: &str,
    text: Option<&str>,
    fault: &str,
) -> Result<String, UsageFault> {
    let bytes = bytes_of(alloc, text.unwrap_or(""))?;
    match String::from_utf8(bytes) {
        Ok(path) => Ok(path),
        Err(_) => Err(usage(alloc, program, fault)),
    }
}
