//! The command line.
use crate::PROGRAM;
use crate::usage::Asked;
use clap::{Arg, ArgAction, ArgMatches, Command};
use psh_common::{
    UsageFault, file_operand, interactive_option, letters_option, matches_of, monitor_option,
    path_of, settings_of, text_option, texts_of, words_operand,
};
use std::alloc::{AllocError, Global};

/// What help says behind the options: what the two files hold, an example of each, and what the exit statuses mean.
const HELP_ON_FILES: &str =
    "IMAGE has the files of the machine. Its lines are `dir PATH` and `file PATH FLAGS LENGTH`;
that many bytes and a newline follow:
  psh image 1
  dir /tmp
  file /bin/cat r-x 12
  #!stock cat

  end

EVENTS says who moves, and what is typed:
  next 20   20 turns, each of the next process that can take one
  run 0 3   3 turns of the first of the processes that can take one
  key 03    the key with this byte, in hexadecimal: ^C
  type ls   a key for each byte

Example:
  printf 'psh image 1\\nend\\n' >image; echo 'next 20' >events
  psh -c 'echo hello' image events

Exit status: 0 done, 1 IMAGE or EVENTS is refused, 2 wrong usage, 3 out of memory,
4 a file can't be read or written. How the script ended --report tells.";

/// The option that asks for a report.
fn report_option<'a>(alloc: Global) -> Arg<'a> {
    Arg::new(alloc, "report")
        .long("report")
        .action(ArgAction::SetTrue)
        .help("Tell of each process, of the jobs and of the files, behind the terminal's bytes")
}

/// The options and operands of psh but for its words.
fn command_without_words<'a>(alloc: Global) -> Result<Command<'a>, AllocError> {
    Command::new(alloc, PROGRAM)
        .about(
            "Runs a shell script over a modelled machine, by stated turns of its processes and stated keys",
        )
        .no_binary_name(true)
        .after_help(HELP_ON_FILES)
        .arg(text_option(alloc))?
        .arg(letters_option(alloc))?
        .arg(interactive_option(alloc))?
        .arg(monitor_option(alloc))?
        .arg(report_option(alloc))?
        .arg(file_operand(alloc, "image", "IMAGE", "The file with the image of files"))?
        .arg(file_operand(
            alloc,
            "events",
            "EVENTS",
            "The file with the events, a line each",
        ))
}

/// The options and operands of psh.
fn command<'a>(alloc: Global) -> Result<Command<'a>, AllocError> {
    let words = words_operand(alloc);
    match command_without_words(alloc) {
        Ok(command) => command.arg(words),
        Err(error) => {
            drop(words);
            Err(error)
        },
    }
}

/// What a command line that is in order asks for.
fn asked_by(alloc: Global, matches: &ArgMatches) -> Result<Asked, UsageFault> {
    let settings = settings_of(alloc, PROGRAM, matches)?;
    let image = matches.get_str("image");
    let image = path_of(alloc, PROGRAM, image, "the path of the image is not UTF-8")?;
    let events = matches.get_str("events");
    let events = path_of(
        alloc,
        PROGRAM,
        events,
        "the path of the events is not UTF-8",
    )?;
    Ok(Asked {
        settings,
        report: matches.get_flag("report"),
        image,
        events,
    })
}

/// What the words after the program's name ask for. They may be any bytes, but for the two paths, which are
/// UTF-8.
pub fn asked(alloc: Global, words: &[Vec<u8>]) -> Result<Asked, UsageFault> {
    let texts = texts_of(alloc, words)?;
    let matches = matches_of(alloc, command(alloc)?, texts.as_slice())?;
    let asked = asked_by(alloc, &matches);
    drop(matches);
    asked
}
