//! Files of events, by which psh shows outcomes again.
use crate::PROGRAM;
use crate::telling::events_text;
use itoa::Buffer;
use psh_common::lack;
use sh_base::NoMemory;
use sh_schedules::Found;
use std::alloc::{AllocError, Global};
use std::fs;

/// The path of the file of an outcome's events: `FOLDER/outcome-1.events`.
fn path_of(alloc: Global, folder: &str, number: u64) -> Result<String, AllocError> {
    let mut digits = Buffer::new();
    let mut path = String::new(alloc);
    path.push_str(folder)?;
    path.push_str("/outcome-")?;
    path.push_str(digits.format(number))?;
    path.push_str(".events")?;
    Ok(path)
}

/// The path and the text of the file of an outcome's events.
fn file_of(
    alloc: Global,
    folder: &str,
    number: u64,
    found: &Found,
) -> Result<(String, Vec<u8>), NoMemory> {
    let path = path_of(alloc, folder, number)?;
    let text = events_text(alloc, found.events.as_slice())?;
    Ok((path, text))
}

/// Writes the file of an outcome's events. On an `Err`, which is the program's exit status, standard error has been told why it isn't there.
fn keep_one(rt: &HostRuntime, folder: &str, number: u64, found: &Found) -> Result<(), u8> {
    let Ok((path, text)) = file_of(rt.alloc(), folder, number, found) else {
        return Err(lack(rt, PROGRAM));
    };
    if fs::write(rt, path.as_str(), text.as_slice()).is_err() {
        let _ = eprintln!(rt; "{PROGRAM}: cannot write: {path}");
        return Err(4);
    }
    Ok(())
}

/// Writes a file of events for each outcome into a folder, over files of the same names. On an `Err`, which is the program's exit status, standard error has been told why
/// one isn't there.
pub fn keep(rt: &HostRuntime, folder: &str, found: &[Found]) -> Result<(), u8> {
    let mut number = 1u64;
    for one in found {
        keep_one(rt, folder, number, one)?;
        number = number.saturating_add(1);
    }
    Ok(())
}
