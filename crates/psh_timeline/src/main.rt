//! `psh-timeline`: what the processes of a shell script do, turn by turn, when they take turns in a stated way.
//!
//! `psh-timeline -c TEXT IMAGE EVENTS` runs TEXT by the events of the file EVENTS, on the files of the image IMAGE, as `psh` does, and writes a
//! picture: a row for each process, a column for each turn. With `--text` it writes a line for each turn.
#![tactic(auto)]

mod command_line;
mod lines;
mod names;
mod picture;
mod record;
mod svg;
mod usage;

use crate::command_line::asked;
use crate::lines::lines_of;
use crate::picture::picture_of;
use crate::record::{Record, note_events};
use crate::usage::Asked;
use psh_common::{EventFault, Turns, lack, read, read_events, tell, words, write};
use sh_base::NoMemory;
use sh_files::Files;
use sh_files_image::{FaultKind, ImageFault};
use sh_stock::Program;
use sh_world::{Settings, World};
use std::process::ExitCode;

/// The program's name, in what it says.
const PROGRAM: &str = "psh-timeline";

/// Says why an image is refused, and answers the program's exit status.
fn refuse_image(rt: &HostRuntime, fault: ImageFault) -> u8 {
    if let FaultKind::NoMemory(_) = fault.kind {
        return lack(rt, PROGRAM);
    }
    let _ = eprintln!(rt; "{PROGRAM}: {}: line {}", fault.kind.name(), fault.line);
    1
}

/// Says why events are refused, and answers the program's exit status.
fn refuse_events(rt: &HostRuntime, fault: EventFault) -> u8 {
    match fault {
        EventFault::NoMemory(_) => lack(rt, PROGRAM),
        EventFault::BadEvent { line } => {
            let _ = eprintln!(rt; "{PROGRAM}: BadEvent: line {line}");
            1
        },
    }
}

/// What happens in a world by these events. Those that do nothing are left out; of a line that says an event several times, those
/// after the first that does nothing would do nothing either.
fn record_in(
    rt: &HostRuntime,
    world: &mut World<Program>,
    all: &[Turns],
) -> Result<Record, NoMemory> {
    let mut record = Record::new(rt.alloc())?;
    for turns in all {
        let _all = note_events(rt.alloc(), world, turns.event, turns.times, &mut record)?;
    }
    Ok(record)
}

/// What happens in a run.
fn recorded(
    rt: &HostRuntime,
    files: Files,
    settings: Settings,
    all: &[Turns],
) -> Result<Record, NoMemory> {
    let mut world = World::<Program>::new(rt.alloc(), files, settings)?;
    let record = record_in(rt, &mut world, all);
    drop(world);
    record
}

/// Writes what happened, and answers the program's exit status.
fn show(rt: &HostRuntime, record: &Record, is_text: bool) -> u8 {
    let text = if is_text {
        lines_of(rt.alloc(), record)
    } else {
        picture_of(rt.alloc(), record)
    };
    match text {
        Ok(text) => write(rt, PROGRAM, &text, 0),
        Err(_) => lack(rt, PROGRAM),
    }
}

/// Runs a shell on these files, writes what happened, and answers the program's exit status.
fn serve(rt: &HostRuntime, settings: Settings, is_text: bool, files: Files, events: &[u8]) -> u8 {
    let all = match read_events(rt.alloc(), events) {
        Ok(all) => all,
        Err(fault) => return refuse_events(rt, fault),
    };
    match recorded(rt, files, settings, &all) {
        Ok(record) => {
            let status = show(rt, &record, is_text);
            drop(record);
            status
        },
        Err(_) => lack(rt, PROGRAM),
    }
}

/// Does what a command line that is in order asks for, and answers the program's exit status.
fn run(rt: &HostRuntime, asked: Asked) -> Result<u8, u8> {
    let image = read(rt, PROGRAM, asked.image.as_str())?;
    let events = read(rt, PROGRAM, asked.events.as_str())?;
    match Files::from_image(rt.alloc(), &image) {
        Ok(files) => Ok(serve(rt, asked.settings, asked.is_text, files, &events)),
        Err(fault) => Err(refuse_image(rt, fault)),
    }
}

/// Reads the command line, and does what it asks.
fn main(rt: HostRuntime) -> ExitCode {
    let asked = match words(&rt, PROGRAM) {
        Ok(words) => asked(rt.alloc(), &words),
        Err(fault) => Err(fault),
    };
    match asked {
        Ok(asked) => ExitCode::from(run(&rt, asked).unwrap_or_else(|status| status)),
        Err(fault) => ExitCode::from(tell(&rt, PROGRAM, fault)),
    }
}
