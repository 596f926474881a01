//! One run of the program, over what its files hold.
ghost use Rattle.sh_base.specs.Memory.{no_memory};
ghost use Rattle.std.specs.Prelude.{◌≡◌, ◌≢◌, ◌⊎◌, ◌++◌, ◌<◌, ℕ, OnOk, OnErr, codes, replicate, take};
ghost use Rattle.sh_files_image.specs.Faults.{name_of};
ghost use Rattle.sh_files_image.specs.declared.image_fault.FaultKind.TheVariants as kind;
ghost use Rattle.sh_world.specs.World.{WorldStands, shown_of};
ghost use Rattle.sh_exec.specs.State.{State, run, terminal_of};
ghost use Rattle.psh_common.specs.Events.{each_event};
ghost use Rattle.psh.specs.Report.{shown_text};
ghost use Rattle.psh.specs.Serving.{SaysLack, Shows, ShowsSome, WasCut, WasRefused, WasRun, refusal};

use crate::report::put_report;
use itoa::Buffer;
use psh_common::{EventFault, Turns, read_events};
use sh_base::NoMemory;
use sh_exec::Settings;
use sh_files::Files;
use sh_files_image::{FaultKind, ImageFault};
use sh_stock::Stock;
use sh_world::World;
use std::alloc::Global;

/// Tells what is wrong with an input, and in which line. After an `Err` nothing is told.
fn tell(alloc: Global, err: &mut Vec<u8>, name: &str, line: u64) -> Result<(), NoMemory>
    ensures told { OnOk result (err.new.items ≡ err.old.items ++ refusal name.now line) }
    ensures kept { OnErr result (err.new.items ≡ err.old.items) }
{
    let mut digits = Buffer::new();
    let mut text = Vec::from_slice(alloc, b"psh: ")?;
    text.extend_from_slice(name.as_bytes())?;
    text.extend_from_slice(b": line ")?;
    text.extend_from_slice(digits.format(line).as_bytes())?;
    text.push(b'\n')?;
    err.extend_from_slice(&text)?;
    Ok(())
}

/// Says that memory is wanting, and gives the status for it. A line that can't be written is dropped.
fn lack(err: &mut Vec<u8>) -> u8
    ensures status { result ≡ 3 }
    ensures said { SaysLack err.old.items err.new.items }
{
    match err.extend_from_slice(b"psh: out of memory\n") {
        Ok(()) => 3,
        Err(_) => 3,
    }
}

/// Says why an input is refused, and gives the status for it, or that memory is wanting to say so.
fn refuse(alloc: Global, err: &mut Vec<u8>, name: &str, line: u64) -> u8
    ensures statuses { (result ≡ 1) ⊎ (result ≡ 3) }
    ensures told { result ≡ 1 → err.new.items ≡ err.old.items ++ refusal name.now line }
    ensures lacks { result ≡ 3 → SaysLack err.old.items err.new.items }
{
    match tell(alloc, err, name, line) {
        Ok(()) => 1,
        Err(_) => lack(err),
    }
}

/// The same for an image.
fn refuse_image(alloc: Global, err: &mut Vec<u8>, fault: ImageFault) -> u8
    ensures statuses { (result ≡ 1) ⊎ (result ≡ 3) }
    ensures told { result ≡ 1 → (fault.kind ≢ kind.NoMemory no_memory)
        × (err.new.items ≡ err.old.items ++ refusal (name_of fault.kind) fault.line) }
    ensures lacks { result ≡ 3 → SaysLack err.old.items err.new.items }
{
    if let FaultKind::NoMemory(_) = fault.kind {
        return lack(err);
    }
    refuse(alloc, err, fault.kind.name(), fault.line as u64)
}

/// The same for events.
fn refuse_events(alloc: Global, err: &mut Vec<u8>, fault: EventFault) -> u8
    ensures statuses { (result ≡ 1) ⊎ (result ≡ 3) }
    ensures told { result ≡ 1 → (line : ℕ) × (fault ≡ EventFault.BadEvent line)
        × (err.new.items ≡ err.old.items ++ refusal (codes "BadEvent") line) }
    ensures lacks { result ≡ 3 → SaysLack err.old.items err.new.items }
{
    match fault {
        EventFault::NoMemory(_) => lack(err),
        EventFault::BadEvent { line } => refuse(alloc, err, "BadEvent", line),
    }
}

/// Gives a world the events of one line.
fn drive_line<S: Stock>(world: &mut World<S>, turns: Turns) -> Result<(), NoMemory>
    ensures run { (s : State S) → WorldStands world.old s
        → OnOk result
        (WorldStands world.new (run S.meaning s (replicate turns.times turns.event))) }
    ensures shown { (s : State S) → WorldStands world.old s → OnErr result
        ((j : ℕ) × (j < turns.times) × (shown_of world.new ≡ terminal_of (run S.meaning s (replicate j turns.event)))) }
{
    'times: for done in 0..turns.times {
        world.apply(turns.event)?;
    }
    Ok(())
}

/// Gives a world its turns.
fn drive<S: Stock>(world: &mut World<S>, all: &[Turns]) -> Result<(), NoMemory>
    ensures run { (s : State S) → WorldStands world.old s
        → OnOk result (WorldStands world.new (run S.meaning s (each_event all.now))) }
    ensures shown { (s : State S) → WorldStands world.old s → OnErr result
        ((j : ℕ) × (shown_of world.new ≡ terminal_of (run S.meaning s (take j (each_event all.now))))) }
{
    for turns in all {
        drive_line(world, *turns)?;
    }
    Ok(())
}

/// Shows a world's terminal. After an `Err` nothing is shown.
fn show<S: Stock>(world: &World<S>, out: &mut Vec<u8>) -> Result<(), NoMemory>
    ensures shown { OnOk result (out.new.items ≡ out.old.items ++ shown_of world.now) }
    ensures view { (s : State S) → WorldStands world.now s
        → OnOk result (out.new.items ≡ out.old.items ++ terminal_of s) }
    ensures kept { OnErr result (out.new.items ≡ out.old.items) }
{
    out.extend_from_slice(world.terminal())?;
    Ok(())
}

/// Shows a world's terminal, and the report on it where that is asked for. After an `Err` the terminal alone may be shown.
fn show_all<S: Stock>(
    alloc: Global,
    report: bool,
    world: &World<S>,
    out: &mut Vec<u8>,
) -> Result<(), NoMemory>
    ensures view { (s : State S) → WorldStands world.now s
        → OnOk result (out.new.items ≡ out.old.items ++ shown_text report s) }
    ensures cut { (s : State S) → WorldStands world.now s → OnErr result
        ((out.new.items ≡ out.old.items) ⊎ (out.new.items ≡ out.old.items ++ terminal_of s)) }
{
    show(world, out)?;
    if report {
        put_report(alloc, world, out)?;
    }
    Ok(())
}

/// Gives a world its turns, and shows its terminal, and the report on it where that is asked for.
fn lead<S: Stock>(
    alloc: Global,
    report: bool,
    mut world: World<S>,
    all: &[Turns],
    out: &mut Vec<u8>,
    err: &mut Vec<u8>,
) -> u8
    ensures statuses { (result ≡ 0) ⊎ (result ≡ 3) }
    ensures done { (s : State S) → WorldStands world s → result ≡ 0 → out.new.items ≡ out.old.items
        ++ shown_text report (run S.meaning s (each_event all.now)) }
    ensures cut { (s : State S) → WorldStands world s → result ≡ 3 →
        (out.new.items ≡ out.old.items) ⊎ ((j : ℕ) × (out.new.items ≡ out.old.items ++ terminal_of (run S.meaning s (take j (each_event all.now))))) }
    ensures silent { result ≡ 0 → err.new.items ≡ err.old.items }
    ensures lacks { result ≡ 3 → SaysLack err.old.items err.new.items }
{
    match drive(&mut world, all) {
        Ok(()) => {
            let shown = show_all(alloc, report, &world, out);
            drop(world);
            match shown {
                Ok(()) => 0,
                Err(_) => lack(err),
            }
        },
        Err(_) => {
            let _shown = show(&world, out);
            drop(world);
            lack(err)
        },
    }
}

/// Runs a shell on these files by these turns.
fn run<S: Stock>(
    alloc: Global,
    settings: Settings,
    report: bool,
    files: Files,
    all: &[Turns],
    out: &mut Vec<u8>,
    err: &mut Vec<u8>,
) -> u8
    ensures statuses { (result ≡ 0) ⊎ (result ≡ 3) }
    ensures done { result ≡ 0 → Shows S.meaning report files settings all.now out.old.items
        out.new.items }
    ensures cut { result ≡ 3 → ShowsSome S.meaning files settings all.now out.old.items
        out.new.items }
    ensures silent { result ≡ 0 → err.new.items ≡ err.old.items }
    ensures lacks { result ≡ 3 → SaysLack err.old.items err.new.items }
{
    match World::<S>::new(alloc, files, settings) {
        Ok(world) => lead(alloc, report, world, all, out, err),
        Err(_) => lack(err),
    }
}

/// Runs a shell on the files of `image` by the turns of `events`, both given whole, with the programs of a stock. The image is
/// checked first, then all events, before any event happens. `out` gets the terminal's bytes after the last
/// event, and behind them the report on the world then where `report`; `err` gets what the program says itself.
///
/// It answers the program's exit status: 0 where the run is done; 1 where the image or the events are refused
/// (`psh: NAME: line N` in `err`, nothing in `out`); 3 where memory was wanting (`psh: out of memory` in
/// `err`, or nothing where there is no memory for that, and in `out` the terminal's bytes of the events that
/// went through, or nothing). At 0 nothing is said in `err`.
pub fn serve<S: Stock>(
    alloc: Global,
    settings: Settings,
    report: bool,
    image: &[u8],
    events: &[u8],
    out: &mut Vec<u8>,
    err: &mut Vec<u8>,
) -> u8
    ensures statuses { (result ≡ 0) ⊎ ((result ≡ 1) ⊎ (result ≡ 3)) }
    ensures done { result ≡ 0 → WasRun S.meaning report image.now events.now settings
        out.old.items out.new.items }
    ensures refused { result ≡ 1 → (out.new.items ≡ out.old.items)
        × WasRefused image.now events.now err.old.items err.new.items }
    ensures cut { result ≡ 3 → WasCut S.meaning image.now events.now settings out.old.items
        out.new.items }
    ensures silent { result ≡ 0 → err.new.items ≡ err.old.items }
    ensures lacks { result ≡ 3 → SaysLack err.old.items err.new.items }
{
    let files = match Files::from_image(alloc, image) {
        Ok(files) => files,
        Err(fault) => {
            drop(settings);
            return refuse_image(alloc, err, fault);
        },
    };
    match read_events(alloc, events) {
        Ok(all) => run::<S>(alloc, settings, report, files, &all, out, err),
        Err(fault) => {
            drop(settings);
            drop(files);
            refuse_events(alloc, err, fault)
        },
    }
}
