//! The command line.
use crate::PROGRAM;
use crate::usage::Asked;
use clap::{Arg, ArgAction, ArgMatches, Command};
use psh_common::{
    UsageFault, file_operand, interactive_option, letters_option, matches_of, monitor_option,
    path_of, settings_of, text_option, texts_of, words_operand,
};
use std::alloc::{AllocError, Global};

/// The option that asks for lines.
fn lines_option<'a>(alloc: Global) -> Arg<'a> {
    Arg::new(alloc, "lines")
        .long("text")
        .action(ArgAction::SetTrue)
        .help("Write a line for each turn, in place of a picture")
}

/// The options and operands of psh-timeline but for its words.
fn command_without_words<'a>(alloc: Global) -> Result<Command<'a>, AllocError> {
    Command::new(alloc, PROGRAM)
        .about("Shows what the processes of a shell script do, turn by turn, as a picture (SVG)")
        .no_binary_name(true)
        .arg(lines_option(alloc))?
        .arg(text_option(alloc))?
        .arg(letters_option(alloc))?
        .arg(interactive_option(alloc))?
        .arg(monitor_option(alloc))?
        .arg(file_operand(alloc, "image", "IMAGE", "The file with the image of files"))?
        .arg(file_operand(
            alloc,
            "events",
            "EVENTS",
            "The file with the events, a line each",
        ))
}

/// The options and operands of psh-timeline.
fn command<'a>(alloc: Global) -> Result<Command<'a>, AllocError> {
    let words = words_operand(alloc);
    match command_without_words(alloc) {
        Ok(command) => command.arg(words),
        Err(error) => {
            drop(words);
            Err(error)
        },
    }
}

/// What a command line that is in order asks for.
fn asked_by(alloc: Global, matches: &ArgMatches) -> Result<Asked, UsageFault> {
    let settings = settings_of(alloc, PROGRAM, matches)?;
    let image = matches.get_str("image");
    let image = path_of(alloc, PROGRAM, image, "the path of the image is not UTF-8")?;
    let events = matches.get_str("events");
    let events = path_of(
        alloc,
        PROGRAM,
        events,
        "the path of the events is not UTF-8",
    )?;
    Ok(Asked {
        settings,
        is_text: matches.get_flag("lines"),
        image,
        events,
    })
}

/// What the words after the program's name ask for. They may be any bytes, but for the two paths, which are
/// UTF-8.
pub fn asked(alloc: Global, words: &[Vec<u8>]) -> Result<Asked, UsageFault> {
    let texts = texts_of(alloc, words)?;
    let matches = matches_of(alloc, command(alloc)?, texts.as_slice())?;
    let asked = asked_by(alloc, &matches);
    drop(matches);
    asked
}
