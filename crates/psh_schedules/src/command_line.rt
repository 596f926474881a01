//! The command line.
use crate::PROGRAM;
use crate::usage::Asked;
use clap::{Arg, ArgAction, ArgMatches, Command};
use psh_common::{
    UsageFault, file_operand, interactive_option, letters_option, matches_of, monitor_option,
    path_of, settings_of, text_option, texts_of, usage, words_operand,
};
use sh_base::decimal::{all_digits, limited_value};
use sh_schedules::Bounds;
use std::alloc::{AllocError, Global};

/// How many preemptions a schedule has at most, where no word says it.
const PREEMPTIONS: u32 = 2;

/// How many turns a schedule has at most, where no word says it.
const TURNS: u32 = 10_000;

/// How many schedules are tried at most, where no word says it.
const SCHEDULES: u32 = 1_000_000;

/// The greatest number that a word may have.
const MOST: u32 = 2_147_483_647;

/// An option with a value.
fn value_option<'a>(alloc: Global, id: &'a str, shown: &'a str, help: &'a str) -> Arg<'a> {
    Arg::new(alloc, id).long(id).value_name(shown).help(help)
}

/// The options that say which schedules are tried.
fn with_bounds<'a>(alloc: Global, command: Command<'a>) -> Result<Command<'a>, AllocError> {
    command
        .arg(value_option(
            alloc,
            "preemptions",
            "K",
            "How often at most a process gives way that could go on: 2 where not given",
        ))?
        .arg(
            Arg::new(alloc, "all")
                .long("all")
                .action(ArgAction::SetTrue)
                .help("However often a process gives way that could go on"),
        )?
        .arg(value_option(
            alloc,
            "turns",
            "N",
            "How many turns a schedule has at most: 10000 where not given",
        ))?
        .arg(value_option(
            alloc,
            "schedules",
            "M",
            "How many schedules are tried at most: 1000000 where not given",
        ))
}

/// The options and operands of psh-schedules but for its words.
fn command_without_words<'a>(alloc: Global) -> Result<Command<'a>, AllocError> {
    let command = Command::new(alloc, PROGRAM)
        .about("Runs a shell script over a modelled machine by each schedule of its processes")
        .no_binary_name(true);
    with_bounds(alloc, command)?
        .arg(value_option(
            alloc,
            "shard",
            "I/N",
            "As the first option: try the I-th of N parts of the schedules, and write its file, for `psh-schedules merge FILE..`",
        ))?
        .arg(value_option(
            alloc,
            "keep",
            "FOLDER",
            "Write a file of events for each outcome into this folder, by which psh shows it again",
        ))?
        .arg(text_option(alloc))?
        .arg(letters_option(alloc))?
        .arg(interactive_option(alloc))?
        .arg(monitor_option(alloc))?
        .arg(file_operand(alloc, "image", "IMAGE", "The file with the image of files"))
}

/// The options and operands of psh-schedules.
fn command<'a>(alloc: Global) -> Result<Command<'a>, AllocError> {
    let words = words_operand(alloc).required_unless_present("text")?;
    match command_without_words(alloc) {
        Ok(command) => command.arg(words),
        Err(error) => {
            drop(words);
            Err(error)
        },
    }
}

/// A number from 0 to 2147483647, or the other where no word says one.
fn number_of(alloc: Global, text: Option<&str>, other: u32) -> Result<u32, UsageFault> {
    let Some(text) = text else {
        return Ok(other);
    };
    let digits = text.as_bytes();
    if digits.is_empty() || digits.len() > 10 || !all_digits(digits) {
        return Err(usage(alloc, PROGRAM, "bad number"));
    }
    match limited_value(digits, u64::from(MOST)) {
        Some(value) => Ok(value as u32),
        None => Err(usage(alloc, PROGRAM, "bad number")),
    }
}

/// How many preemptions a schedule has at most that has at most so many turns. `--all` allows one in each turn, so that they bound nothing.
fn preemptions_of(alloc: Global, matches: &ArgMatches, turns: u32) -> Result<u32, UsageFault> {
    let text = matches.get_str("preemptions");
    if !matches.get_flag("all") {
        return number_of(alloc, text, PREEMPTIONS);
    }
    if text.is_some() {
        return Err(usage(alloc, PROGRAM, "--all allows any number of preemptions"));
    }
    Ok(turns)
}

/// The bounds that the words say.
fn bounds_of(alloc: Global, matches: &ArgMatches) -> Result<Bounds, UsageFault> {
    let turns = number_of(alloc, matches.get_str("turns"), TURNS)?;
    let preemptions = preemptions_of(alloc, matches, turns)?;
    let schedules = number_of(alloc, matches.get_str("schedules"), SCHEDULES)?;
    Ok(Bounds {
        preemptions,
        turns,
        schedules: u64::from(schedules),
    })
}

/// The path of the folder that gets files of events, where one is asked for.
fn folder_of(alloc: Global, matches: &ArgMatches) -> Result<Option<String>, UsageFault> {
    let folder = matches.get_str("keep");
    if folder.is_none() {
        return Ok(None);
    }
    let path = path_of(
        alloc,
        PROGRAM,
        folder,
        "the path of the folder is not UTF-8",
    )?;
    Ok(Some(path))
}

/// What a command line that is in order asks for.
fn asked_by(alloc: Global, matches: &ArgMatches) -> Result<Asked, UsageFault> {
    if matches.get_str("shard").is_some() {
        return Err(usage(alloc, PROGRAM, "--shard has to be the first option"));
    }
    let bounds = bounds_of(alloc, matches)?;
    let settings = settings_of(alloc, PROGRAM, matches)?;
    let folder = folder_of(alloc, matches)?;
    let image = matches.get_str("image");
    let image = path_of(alloc, PROGRAM, image, "the path of the image is not UTF-8")?;
    Ok(Asked {
        settings,
        bounds,
        folder,
        image,
    })
}

/// What the words after the program's name ask for, or after those that name a shard. They may be any bytes, but for the paths of the image and of the folder,
/// which are UTF-8.
pub fn asked(alloc: Global, words: &[Vec<u8>]) -> Result<Asked, UsageFault> {
    let texts = texts_of(alloc, words)?;
    let matches = matches_of(alloc, command(alloc)?, texts.as_slice())?;
    let asked = asked_by(alloc, &matches);
    drop(matches);
    asked
}
