//! `run EVENTS SCRIPT ANSWER`: how the first shell stands after the events, the process that took the last turn, or `none`, how many jobs
//! the shell has, and the terminal in brackets, with `; ` between them. The files of its world are the stock program `cat`. An event is `next` or the
//! place of a process; `next*N` or `PLACE*N` is N of them.
//! `deeper EVENTS SCRIPT EVENTS SCRIPT ANSWER`: whether behind the second events the first shell, with the second script, is inside more forms
//! than behind the first: `yes` or `no`.
use sh_base::NoMemory;
use sh_base::sequence::Sequence;
use sh_files::Files;
use sh_stock::Program;
use sh_vars::{Options, Text};
use sh_world::{Event, Settings, Source, Status, World};
use std::alloc::{AllocError, Global};
use std::str;
use test_rows::{Row, RowFault, by_kind};

/// The first shell's process.
const FIRST_PID: u32 = 100;

/// The files.
const IMAGE: &[u8] = b"psh image 1\ndir /bin\nfile /bin/cat r-x 12\n#!stock cat\n\nend\n";

/// A number; 0 where it is none.
fn number(digits: &[u8]) -> u32 {
    match str::from_utf8(digits) {
        Ok(digits) => digits.parse().unwrap_or(0),
        Err(_) => 0,
    }
}

/// Adds the event of a word, so often as it says.
fn push_events(events: &mut Vec<Event>, word: &[u8]) -> Result<(), AllocError> {
    let mut parts = word.split(|byte| *byte == b'*');
    let event = match parts.next() {
        Some(b"next") => Event::Next,
        Some(place) => Event::Run(number(place)),
        None => return Ok(()),
    };
    let times = match parts.next() {
        Some(times) => number(times),
        None => 1,
    };
    for _ in 0..times {
        events.push(event)?;
    }
    Ok(())
}

/// The events of a field, with blanks between its words.
fn events_of(alloc: Global, field: &[u8]) -> Result<Vec<Event>, AllocError> {
    let mut events = Vec::new(alloc);
    for word in field.split(|byte| *byte == b' ') {
        push_events(&mut events, word)?;
    }
    Ok(events)
}

/// The settings of a shell that runs a text.
fn settings_of(alloc: Global, script: &[u8]) -> Result<Settings, AllocError> {
    Ok(Settings {
        source: Source::Text(Sequence::from_vec(script.to_vec(alloc)?)),
        zero: Text::copy_of(alloc, b"psh")?,
        args: Sequence::new(alloc),
        options: Options::default(),
    })
}

/// How a process stands.
fn state_of(alloc: Global, status: Option<Status>) -> Result<String, AllocError> {
    match status {
        None => String::from_str(alloc, "none"),
        Some(Status::Running) => String::from_str(alloc, "running"),
        Some(Status::Stopped(signal)) => format!(in alloc; "stopped {signal}"),
        Some(Status::Exited(status)) => format!(in alloc; "exited {status}"),
        Some(Status::Signaled(signal)) => format!(in alloc; "signaled {signal}"),
    }
}

/// How many jobs the first shell has.
fn jobs_of(alloc: Global, world: &World<Program>) -> Result<usize, NoMemory> {
    match world.jobs() {
        Some(jobs) => Ok(jobs.numbers(alloc)?.len()),
        None => Ok(0),
    }
}

/// What is seen of a world.
fn seen(alloc: Global, world: &World<Program>) -> Result<Vec<u8>, NoMemory> {
    let state = state_of(alloc, world.status(FIRST_PID))?;
    let last = match world.last() {
        Some(pid) => format!(in alloc; "{pid}")?,
        None => String::from_str(alloc, "none")?,
    };
    let jobs = jobs_of(alloc, world)?;
    let mut text = format!(in alloc; "{state}; {last}; {jobs}; [")?.into_bytes();
    text.extend_from_slice(world.terminal())?;
    text.push(b']')?;
    Ok(text)
}

/// A world whose first shell runs a script.
fn world_of(alloc: Global, script: &[u8]) -> Result<World<Program>, RowFault> {
    let settings = settings_of(alloc, script)?;
    let Ok(files) = Files::from_image(alloc, IMAGE) else {
        drop(settings);
        return Err(RowFault::NoFile);
    };
    World::<Program>::new(alloc, files, settings).map_err(|_| RowFault::NoMemory)
}

/// Runs events.
fn run(alloc: Global, world: &mut World<Program>, events: &[u8]) -> Result<(), NoMemory> {
    let events = events_of(alloc, events)?;
    world.run(&events)
}

/// `run`.
fn answer(alloc: Global, events: &[u8], script: &[u8]) -> Result<Vec<u8>, RowFault> {
    let mut world = world_of(alloc, script)?;
    let seen = match run(alloc, &mut world, events) {
        Ok(()) => seen(alloc, &world),
        Err(lack) => Err(lack),
    };
    drop(world);
    seen.map_err(|_| RowFault::NoMemory)
}

/// How many forms the first shell is inside behind events; none where it has ended.
fn depth(alloc: Global, events: &[u8], script: &[u8]) -> Result<Option<usize>, RowFault> {
    let mut world = world_of(alloc, script)?;
    let depth = match run(alloc, &mut world, events) {
        Ok(()) => Ok(world.task(FIRST_PID).map(|task| task.frames().len())),
        Err(_) => Err(RowFault::NoMemory),
    };
    drop(world);
    depth
}

/// `deeper`.
fn is_deeper(alloc: Global, row: &Row) -> Result<Vec<u8>, RowFault> {
    let first = depth(alloc, row.field(1), row.field(2))?;
    let second = depth(alloc, row.field(3), row.field(4))?;
    let answer = match (first, second) {
        (Some(first), Some(second)) if second > first => b"yes".as_slice(),
        (Some(_), Some(_)) => b"no",
        _ => b"ended",
    };
    Ok(answer.to_vec(alloc)?)
}

/// What a row of this kind comes to; none where its kind is another.
pub(crate) fn found(alloc: Global, row: &Row) -> Option<Result<Vec<u8>, RowFault>> {
    by_kind! { row;
        "run", 3 => answer(alloc, row.field(1), row.field(2));
        "deeper", 5 => is_deeper(alloc, row);
    }
}
