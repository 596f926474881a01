//! What happens in a run, turn by turn.
use sh_base::NoMemory;
use sh_base::sequence::{Sequence, Text, copies_of};
use sh_kernel_processes::{FIRST_PID, Status};
use sh_stock::Stock;
use sh_world::{Event, TurnAction, World};
use std::alloc::Global;

/// A turn of a process.
#[derive(Clone, Copy)]
pub struct Move {
    /// The place of the process, among all that ever were.
    pub process: usize,
    /// What it did.
    pub action: TurnAction,
    /// How the process stood after it.
    pub status: Status,
}

/// What an event was.
#[derive(Clone, Copy)]
pub enum Cause {
    /// A turn of a process.
    Turn(Move),
    /// A key, with its byte.
    Key(u8),
}

/// What one event did.
#[derive(Drop)]
pub struct Turn {
    /// What the event was.
    pub cause: Cause,
    /// The place of the process that it made, if it made one.
    pub made: Option<usize>,
    /// What the terminal got.
    pub written: Text,
}

/// A process.
#[derive(Drop)]
pub struct Row {
    /// Its number.
    pub pid: u32,
    /// The words of the program that it started last; none of a shell that has started none.
    pub words: Sequence<Text>,
    /// How many turns there were before it was made.
    pub made: usize,
    /// How many turns there were once it had started that program.
    pub started: usize,
    /// How many turns there were once it had ended, if it has.
    pub ended: Option<usize>,
}

/// What happened in a run.
#[derive(Drop)]
pub struct Record {
    /// The turns and keys in their order.
    pub turns: Vec<Turn>,
    /// The processes in the order of their numbers.
    pub rows: Vec<Row>,
}

impl Record {
    /// A run in which nothing has happened yet: there is the first shell.
    pub fn new(alloc: Global) -> Result<Record, NoMemory> {
        let mut rows = Vec::new(alloc);
        rows.push(Row::new(alloc, FIRST_PID, 0))?;
        Ok(Record {
            turns: Vec::new(alloc),
            rows,
        })
    }

    /// The place of the process that was made last, if the world has one that isn't here yet; it is added.
    fn add_made<S: Stock>(
        &mut self,
        alloc: Global,
        world: &World<S>,
    ) -> Result<Option<usize>, NoMemory> {
        let place = self.rows.len();
        let pid = FIRST_PID.saturating_add(u32::try_from(place).unwrap_or(u32::MAX));
        if world.status(pid).is_none() {
            return Ok(None);
        }
        let made = self.turns.len();
        self.rows.push(Row::new(alloc, pid, made))?;
        Ok(Some(place))
    }

    /// The process of this place started a program of these words in the last turn.
    fn start(&mut self, process: usize, words: Sequence<Text>) {
        let turns = self.turns.len();
        if let Some(row) = self.rows.get_mut(process) {
            row.words = words;
            row.started = turns;
        }
    }

    /// Notes which processes the last turn, or a key, has ended.
    fn note_ends<S: Stock>(&mut self, world: &World<S>) {
        let turns = self.turns.len();
        for row in self.rows.iter_mut() {
            if row.ended.is_none() && has_ended(world.status(row.pid)) {
                row.ended = Some(turns);
            }
        }
    }
}

/// Whether a process with this status has ended.
fn has_ended(status: Option<Status>) -> bool {
    match status {
        Some(Status::Exited(_) | Status::Signaled(_)) => true,
        Some(Status::Running | Status::Stopped(_)) | None => false,
    }
}

impl Row {
    /// A process that was made after so many turns.
    fn new(alloc: Global, pid: u32, made: usize) -> Row {
        Row {
            pid,
            words: Sequence::new(alloc),
            made,
            started: 0,
            ended: None,
        }
    }
}

/// What a process is about to do.
#[derive(Drop)]
struct Prospect {
    action: TurnAction,
    words: Option<Sequence<Text>>,
}

/// What the process of this number is about to do.
fn prospect_of<S: Stock>(alloc: Global, world: &World<S>, pid: u32) -> Result<Prospect, NoMemory> {
    let Some(task) = world.task(pid) else {
        return Ok(Prospect {
            action: TurnAction::Idle,
            words: None,
        });
    };
    let action = if world.takes_trap(pid) {
        TurnAction::TakeTrap
    } else if world.drops(pid) {
        TurnAction::Drop
    } else {
        task.action().unwrap_or(TurnAction::Idle)
    };
    let words = match task.starting() {
        Some(words) => Some(Sequence::from_vec(copies_of(alloc, words)?)),
        None => None,
    };
    Ok(Prospect { action, words })
}

/// What a terminal got since it showed so many bytes.
fn written_since<S: Stock>(
    alloc: Global,
    world: &World<S>,
    shown: usize,
) -> Result<Text, NoMemory> {
    Ok(Text::copy_of(alloc, world.terminal().get(shown..).unwrap_or(&[]))?)
}

impl Record {
    /// Notes a key behind which a world stands, whose terminal showed so many bytes before it.
    fn note_key<S: Stock>(
        &mut self,
        alloc: Global,
        world: &World<S>,
        byte: u8,
        shown: usize,
    ) -> Result<(), NoMemory> {
        let written = written_since(alloc, world, shown)?;
        self.turns.push(Turn {
            cause: Cause::Key(byte),
            made: None,
            written,
        })?;
        self.note_ends(world);
        Ok(())
    }

    /// Notes the turn of a process behind which a world stands, whose terminal showed so many bytes before it.
    fn note_turn<S: Stock>(
        &mut self,
        alloc: Global,
        world: &World<S>,
        pid: u32,
        prospect: Prospect,
        shown: usize,
    ) -> Result<(), NoMemory> {
        let Prospect { action, words } = prospect;
        let process = pid.saturating_sub(FIRST_PID) as usize;
        let made = self.add_made(alloc, world)?;
        let written = written_since(alloc, world, shown)?;
        let status = world.status(pid).unwrap_or(Status::Running);
        let cause = Cause::Turn(Move {
            process,
            action,
            status,
        });
        self.turns.push(Turn {
            cause,
            made,
            written,
        })?;
        if let Some(words) = words {
            self.start(process, words);
        }
        self.note_ends(world);
        Ok(())
    }
}

/// Gives a world an event. The answer is how many bytes the terminal had before it.
fn apply_event<S: Stock>(world: &mut World<S>, event: Event) -> Result<usize, NoMemory> {
    let shown = world.terminal().len();
    world.apply(event)?;
    Ok(shown)
}

/// Gives a world a key, and notes what it did. The answer is whether the first shell lived.
fn press<S: Stock>(
    alloc: Global,
    world: &mut World<S>,
    byte: u8,
    record: &mut Record,
) -> Result<bool, NoMemory> {
    if world.ended().is_some() {
        return Ok(false);
    }
    let shown = apply_event(world, Event::Key(byte))?;
    record.note_key(alloc, world, byte, shown)?;
    Ok(true)
}

/// Gives a world the event that moves this process, and notes the turn.
fn take_turn<S: Stock>(
    alloc: Global,
    world: &mut World<S>,
    event: Event,
    pid: u32,
    record: &mut Record,
) -> Result<(), NoMemory> {
    let prospect = prospect_of(alloc, world, pid)?;
    let shown = apply_event(world, event)?;
    record.note_turn(alloc, world, pid, prospect, shown)
}

/// Gives a world one event, and notes what it did. The answer is whether it did something: whether a process moved, or a key came
/// while the first shell lived.
fn note_event<S: Stock>(
    alloc: Global,
    world: &mut World<S>,
    event: Event,
    record: &mut Record,
) -> Result<bool, NoMemory> {
    if let Event::Key(byte) = event {
        return press(alloc, world, byte, record);
    }
    let Some(pid) = world.chosen(event)? else {
        return Ok(false);
    };
    take_turn(alloc, world, event, pid, record)?;
    Ok(true)
}

/// Gives a world an event so often, and notes what it did. The answer is whether it did something each time.
pub fn note_events<S: Stock>(
    alloc: Global,
    world: &mut World<S>,
    event: Event,
    times: u32,
    record: &mut Record,
) -> Result<bool, NoMemory> {
    for _ in 0..times {
        if !note_event(alloc, world, event, record)? {
            return Ok(false);
        }
    }
    Ok(true)
}
