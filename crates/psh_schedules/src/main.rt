//! `psh-schedules`: what a shell script does by each schedule of its processes.
//!
//! `psh-schedules -c TEXT IMAGE` tries TEXT, on the files of the image IMAGE. `psh-schedules IMAGE SCRIPT` tries
//! a script of the image. It tells the outcomes, for each after the first the events by which psh shows it, and where the first two part. With
//! `--keep FOLDER` it writes a file of events for each outcome.
//!
//! `psh-schedules --shard I/N ..` tries one of N parts of the schedules, and writes what it found as a file. `psh-schedules merge FILE..` puts the
//! files of all parts together, and tells what a run without `--shard` tells.
#![tactic(auto)]

mod command_line;
mod keeping;
mod merging;
mod shard_file;
mod shard_words;
mod telling;
mod usage;

use crate::command_line::asked;
use crate::keeping::keep;
use crate::merging::{Named, joined, read_all};
use crate::shard_file::shard_text;
use crate::shard_words::shard_first;
use crate::telling::{is_settled, told};
use crate::usage::Asked;
use psh_common::{lack, read, tell, words, write};
use sh_schedules::{
    Exploration, ExploreFault, Parting, Shard, explore, explore_shard, find_parting, sort,
};
use sh_stock::Program;
use std::process::ExitCode;

/// The program's name, in what it says.
const PROGRAM: &str = "psh-schedules";

/// Says why there is no exploration, and answers the program's exit status.
fn refuse(rt: &HostRuntime, fault: ExploreFault) -> u8 {
    match fault {
        ExploreFault::Image(fault) => {
            let _ = eprintln!(rt; "{PROGRAM}: {}: line {}", fault.kind.name(), fault.line);
            1
        },
        ExploreFault::NoMemory(_) => lack(rt, PROGRAM),
        ExploreFault::TooMany => {
            let _ = eprintln!(rt; "{PROGRAM}: too many schedules");
            1
        },
    }
}

/// Where the events of the first two outcomes part, where there are two.
fn parting_of(
    rt: &HostRuntime,
    asked: &Asked,
    image: &[u8],
    exploration: &Exploration,
) -> Result<Option<Parting>, ExploreFault> {
    let [first, second, ..] = exploration.found.as_slice() else {
        return Ok(None);
    };
    find_parting::<Program>(
        rt.alloc(),
        image,
        &asked.settings,
        first.events.as_slice(),
        second.events.as_slice(),
    )
}

/// Tells of an exploration, and answers the program's exit status.
fn show(rt: &HostRuntime, exploration: &Exploration, parting: Option<Parting>) -> u8 {
    let status = if is_settled(exploration) { 0 } else { 1 };
    match told(rt.alloc(), exploration, parting) {
        Ok(text) => write(rt, PROGRAM, &text, status),
        Err(_) => lack(rt, PROGRAM),
    }
}

/// Keeps the events of an exploration where a folder is named, tells of it, and answers the program's exit status.
fn show_all(rt: &HostRuntime, asked: &Asked, image: &[u8], exploration: &Exploration) -> u8 {
    if let Some(folder) = &asked.folder {
        if let Err(status) = keep(rt, folder.as_str(), exploration.found.as_slice()) {
            return status;
        }
    }
    match parting_of(rt, asked, image, exploration) {
        Ok(parting) => show(rt, exploration, parting),
        Err(fault) => refuse(rt, fault),
    }
}

/// Puts the outcomes of an exploration in order, tells of them, and answers the program's exit status.
fn conclude(rt: &HostRuntime, asked: &Asked, image: &[u8], mut exploration: Exploration) -> u8 {
    let status = match sort(&mut exploration.found) {
        Ok(()) => show_all(rt, asked, image, &exploration),
        Err(_) => lack(rt, PROGRAM),
    };
    drop(exploration);
    status
}

/// Tries the schedules over an image, tells of them, and answers the program's exit status.
fn serve(rt: &HostRuntime, asked: &Asked, image: &[u8]) -> u8 {
    match explore::<Program>(rt.alloc(), image, &asked.settings, asked.bounds) {
        Ok(exploration) => conclude(rt, asked, image, exploration),
        Err(fault) => refuse(rt, fault),
    }
}

/// Tries the schedules of a shard over an image, writes its file, and answers the program's exit status.
fn serve_shard(
    rt: &HostRuntime,
    asked: &Asked,
    shard: Shard,
    words: &[Vec<u8>],
    image: &[u8],
) -> u8 {
    let explored = explore_shard::<Program>(
        rt.alloc(),
        image,
        &asked.settings,
        asked.bounds,
        shard,
    );
    match explored {
        Ok(exploration) => {
            let text = shard_text(rt.alloc(), shard, words, image, &exploration);
            drop(exploration);
            match text {
                Ok(text) => write(rt, PROGRAM, &text, 0),
                Err(_) => lack(rt, PROGRAM),
            }
        },
        Err(fault) => refuse(rt, fault),
    }
}

/// Does what a command line that is in order asks for, and answers the program's exit status.
fn run(rt: &HostRuntime, asked: &Asked, shard: Option<Shard>, words: &[Vec<u8>]) -> u8 {
    match (read(rt, PROGRAM, asked.image.as_str()), shard) {
        (Ok(image), None) => serve(rt, asked, &image),
        (Ok(image), Some(shard)) => serve_shard(rt, asked, shard, words, &image),
        (Err(status), _) => status,
    }
}

/// Does what words ask for that stand behind those which name a shard, and answers the program's exit status.
fn run_words(rt: &HostRuntime, shard: Option<Shard>, words: &[Vec<u8>]) -> u8 {
    match asked(rt.alloc(), words) {
        Ok(asked) => {
            let status = run(rt, &asked, shard, words);
            drop(asked);
            status
        },
        Err(fault) => tell(rt, PROGRAM, fault),
    }
}

/// Puts the files of shards together, tells what they found, and answers the program's exit status.
fn merge_by(rt: &HostRuntime, asked: &Asked, files: &[Named<'_>]) -> u8 {
    let Some(first) = files.first() else {
        return 2;
    };
    let image = first.file.image.as_slice();
    match joined::<Program>(rt, image, files, &asked.settings) {
        Ok(exploration) => conclude(rt, asked, image, exploration),
        Err(status) => status,
    }
}

/// Puts the files of shards together, and answers the program's exit status.
fn merge(rt: &HostRuntime, files: &[Named<'_>]) -> u8 {
    let Some(first) = files.first() else {
        return 2;
    };
    match asked(rt.alloc(), first.file.words.as_slice()) {
        Ok(asked) => {
            let status = merge_by(rt, &asked, files);
            drop(asked);
            status
        },
        Err(fault) => tell(rt, PROGRAM, fault),
    }
}

/// Puts the shards together whose files these words name, and answers the program's exit status.
fn merge_words(rt: &HostRuntime, words: &[Vec<u8>]) -> u8 {
    match read_all(rt, words) {
        Ok(files) => {
            let status = merge(rt, files.as_slice());
            drop(files);
            status
        },
        Err(status) => status,
    }
}

/// Does what the words of the command line ask for, and answers the program's exit status.
fn start(rt: &HostRuntime, words: &[Vec<u8>]) -> u8 {
    if let Some((first, rest)) = words.split_first() {
        if first.as_slice() == b"merge".as_slice() {
            return merge_words(rt, rest);
        }
    }
    match shard_first(rt.alloc(), words) {
        Ok(Some((shard, rest))) => run_words(rt, Some(shard), rest),
        Ok(None) => run_words(rt, None, words),
        Err(fault) => tell(rt, PROGRAM, fault),
    }
}

/// Reads the command line, and does what it asks.
fn main(rt: HostRuntime) -> ExitCode {
    match words(&rt, PROGRAM) {
        Ok(words) => ExitCode::from(start(&rt, words.as_slice())),
        Err(fault) => ExitCode::from(tell(&rt, PROGRAM, fault)),
    }
}
