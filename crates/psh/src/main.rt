//! `psh`: what a shell script does when its processes take turns in a stated way.
//!
//! `psh -c TEXT IMAGE EVENTS` runs TEXT by the events of the file EVENTS, on the files of the image IMAGE,
//! and writes the bytes that the terminal then has. `psh IMAGE EVENTS SCRIPT` runs a script of the image. With
//! `--report` the processes and the files follow.
#![tactic(auto)]

mod command_line;
mod report;
mod serving;
mod usage;

use crate::command_line::asked;
use crate::serving::serve;
use crate::usage::Asked;
use psh_common::{read, tell, words, write};
use sh_exec::Settings;
use sh_stock::Program;
use std::io::Write;
use std::process::ExitCode;

/// The program's name, in what it says.
const PROGRAM: &str = "psh";

/// The bytes of the image and of the events. On an `Err`, which is the program's exit status, standard error
/// has been told why there are none.
fn read_both(rt: &HostRuntime, image: &str, events: &str) -> Result<(Vec<u8>, Vec<u8>), u8> {
    let image = read(rt, PROGRAM, image)?;
    let events = read(rt, PROGRAM, events)?;
    Ok((image, events))
}

/// Runs a shell, writes what comes of it, and answers the program's exit status.
fn serve_to(rt: &HostRuntime, settings: Settings, report: bool, image: &[u8], events: &[u8]) -> u8 {
    let mut out = Vec::new(rt.alloc());
    let mut err = Vec::new(rt.alloc());
    let status = serve::<Program>(
        rt.alloc(),
        settings,
        report,
        image,
        events,
        &mut out,
        &mut err,
    );
    let _ = rt.stderr().write_all(&err);
    write(rt, PROGRAM, &out, status)
}

/// Does what a command line that is in order asks for, and answers the program's exit status.
fn run(rt: &HostRuntime, asked: Asked) -> u8 {
    match read_both(rt, asked.image.as_str(), asked.events.as_str()) {
        Ok((image, events)) => serve_to(rt, asked.settings, asked.report, &image, &events),
        Err(status) => {
            drop(asked);
            status
        },
    }
}

/// Reads the command line, and does what it asks.
fn main(rt: HostRuntime) -> ExitCode {
    let asked = match words(&rt, PROGRAM) {
        Ok(words) => asked(rt.alloc(), &words),
        Err(fault) => Err(fault),
    };
    match asked {
        Ok(asked) => ExitCode::from(run(&rt, asked)),
        Err(fault) => ExitCode::from(tell(&rt, PROGRAM, fault)),
    }
}
