//! What is told of an exploration.
use itoa::Buffer;
use psh_common::put_process;
use sh_base::NoMemory;
use sh_kernel_processes::{FIRST_PID, Status};
use sh_schedules::{Ending, Event, Exploration, Found, Outcome, Parting, TurnAction, Waiter};
use std::alloc::Global;

/// Adds a number.
pub fn put_number(out: &mut Vec<u8>, number: u64) -> Result<(), NoMemory> {
    let mut digits = Buffer::new();
    out.extend_from_slice(digits.format(number).as_bytes())?;
    Ok(())
}

/// Adds a count of things: `1 byte`, `2 bytes`.
fn put_count(out: &mut Vec<u8>, count: u64, thing: &[u8]) -> Result<(), NoMemory> {
    put_number(out, count)?;
    out.push(b' ')?;
    out.extend_from_slice(thing)?;
    if count != 1 {
        out.push(b's')?;
    }
    Ok(())
}

/// The digits of a byte.
const DIGITS: &[u8; 16] = b"0123456789abcdef";

/// Adds the line of a key, but for its newline.
fn put_key(out: &mut Vec<u8>, byte: u8) -> Result<(), NoMemory> {
    out.extend_from_slice(b"key ")?;
    out.push(DIGITS[usize::from(byte / 16)])?;
    out.push(DIGITS[usize::from(byte % 16)])?;
    Ok(())
}

/// Adds the lines of events, as psh reads them.
fn put_events(out: &mut Vec<u8>, events: &[Event]) -> Result<(), NoMemory> {
    for event in events {
        match event {
            Event::Run(place) => {
                out.extend_from_slice(b"run ")?;
                put_number(out, u64::from(*place))?;
            },
            Event::Next => out.extend_from_slice(b"next")?,
            Event::Key(byte) => put_key(out, *byte)?,
        }
        out.push(b'\n')?;
    }
    Ok(())
}

/// The lines of events, as psh reads them.
pub fn events_text(alloc: Global, events: &[Event]) -> Result<Vec<u8>, NoMemory> {
    let mut out = Vec::new(alloc);
    put_events(&mut out, events)?;
    Ok(out)
}

/// How a run ended, in a word.
fn ending_text(ending: Ending) -> &'static str {
    match ending {
        Ending::Ended => "ended",
        Ending::Stuck => "stuck",
        Ending::Cut => "cut",
    }
}

/// Adds the line of an outcome, the terminal's bytes, and a newline.
fn put_outcome(out: &mut Vec<u8>, number: u64, found: &Found) -> Result<(), NoMemory> {
    out.extend_from_slice(b"outcome ")?;
    put_number(out, number)?;
    out.extend_from_slice(b": ")?;
    put_count(out, found.schedules, b"schedule")?;
    out.extend_from_slice(b", ")?;
    out.extend_from_slice(ending_text(found.outcome.ending).as_bytes())?;
    out.extend_from_slice(b", ")?;
    put_count(out, found.outcome.terminal.len() as u64, b"byte")?;
    out.push(b'\n')?;
    out.extend_from_slice(found.outcome.terminal.as_slice())?;
    out.push(b'\n')?;
    Ok(())
}

/// Adds a line for each process: how it stands.
fn put_statuses(out: &mut Vec<u8>, statuses: &[Status]) -> Result<(), NoMemory> {
    let mut pid = FIRST_PID;
    for status in statuses {
        put_process(out, pid, *status)?;
        pid = pid.saturating_add(1);
    }
    Ok(())
}

/// What a process waits to do, in words.
fn wait_text(action: Option<TurnAction>) -> &'static str {
    match action {
        Some(TurnAction::Wait) => "waits for processes",
        Some(TurnAction::ReadSubstitution) => "waits to read a substitution",
        Some(TurnAction::Read) => "waits to read by 0",
        Some(TurnAction::Write { .. }) => "waits to write",
        _ => "waits",
    }
}

/// Adds a line for each process that waits where a run is stuck: what it is about to do.
fn put_waiters(out: &mut Vec<u8>, waiters: &[Waiter]) -> Result<(), NoMemory> {
    for waiter in waiters {
        out.extend_from_slice(b"process ")?;
        put_number(out, u64::from(waiter.pid))?;
        out.push(b' ')?;
        out.extend_from_slice(wait_text(waiter.action).as_bytes())?;
        if let Some(TurnAction::Write { descriptor, .. }) = waiter.action {
            out.extend_from_slice(b" by ")?;
            put_number(out, u64::from(descriptor))?;
        }
        out.push(b'\n')?;
    }
    Ok(())
}

/// Adds, where the files of an outcome are others than those of the first one, a line that says so.
fn put_files(out: &mut Vec<u8>, first: &Outcome, other: &Outcome) -> Result<(), NoMemory> {
    if first.image.as_slice() != other.image.as_slice() {
        out.extend_from_slice(b"files: not those of outcome 1\n")?;
    }
    Ok(())
}

/// Adds the outcomes, each with the processes; each after the first with the events that show it.
fn put_outcomes(out: &mut Vec<u8>, found: &[Found]) -> Result<(), NoMemory> {
    let Some(first) = found.first() else {
        return Ok(());
    };
    let mut number = 1u64;
    for one in found {
        put_outcome(out, number, one)?;
        put_statuses(out, one.outcome.statuses.as_slice())?;
        put_waiters(out, one.outcome.waiters.as_slice())?;
        put_files(out, &first.outcome, &one.outcome)?;
        if number > 1 {
            out.extend_from_slice(b"events\n")?;
            put_events(out, one.events.as_slice())?;
        }
        number = number.saturating_add(1);
    }
    Ok(())
}

/// Adds the line that tells where the events of the first two outcomes part.
fn put_parting(out: &mut Vec<u8>, parting: Parting) -> Result<(), NoMemory> {
    out.extend_from_slice(b"outcomes 1 and 2 part after ")?;
    put_count(out, parting.common as u64, b"turn")?;
    out.extend_from_slice(b": process ")?;
    put_number(out, u64::from(parting.first))?;
    out.extend_from_slice(b" moves, or process ")?;
    put_number(out, u64::from(parting.second))?;
    out.push(b'\n')?;
    Ok(())
}

/// The text that tells of an exploration, and of where its first two outcomes part.
pub fn told(
    alloc: Global,
    exploration: &Exploration,
    parting: Option<Parting>,
) -> Result<Vec<u8>, NoMemory> {
    let mut out = Vec::new(alloc);
    out.extend_from_slice(b"schedules ")?;
    put_number(&mut out, exploration.schedules)?;
    if !exploration.is_complete {
        out.extend_from_slice(b", and more were not tried")?;
    }
    out.extend_from_slice(b"\noutcomes ")?;
    put_number(&mut out, exploration.found.len() as u64)?;
    out.push(b'\n')?;
    put_outcomes(&mut out, exploration.found.as_slice())?;
    if let Some(parting) = parting {
        put_parting(&mut out, parting)?;
    }
    Ok(out)
}

/// Whether all schedules were tried and come to one outcome, which is not cut.
pub fn is_settled(exploration: &Exploration) -> bool {
    if !exploration.is_complete {
        return false;
    }
    match exploration.found.as_slice() {
        [one] => one.outcome.ending != Ending::Cut,
        _ => false,
    }
}
