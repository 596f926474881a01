//! A run as a picture: a row for each process, a column for each turn, in bands one below the other.
use crate::lines::{put_command, put_escaped};
use crate::names::{LEGEND, letter, put_number};
use crate::record::{Cause, Record, Row, Turn};
use crate::svg::{self, Point};
use sh_base::NoMemory;
use std::alloc::Global;

/// How many turns stand side by side.
const BAND: usize = 60;

/// The width of a turn.
const COLUMN: u64 = 18;

/// The height of a process.
const ROW: u64 = 26;

/// The size of the box of a turn.
const BOX: u64 = 16;

/// The width of what stands before the first turn: the number of a process, and what it runs.
const LABEL: u64 = 230;

/// How many characters of a label, and of what the terminal gets in a turn, are shown.
const LABEL_CHARACTERS: usize = 30;

const WRITTEN_CHARACTERS: usize = 16;

/// The height of the numbers of turns above a band, and of what the terminal gets below it.
const ABOVE: u64 = 24;

const BELOW: u64 = 142;

/// The height of a line of the legend, and the width of its longest one.
const LEGEND_LINE: u64 = 18;

const LEGEND_WIDTH: u64 = 790;

/// A part of a run that is drawn side by side: its first turn, and the turn behind its last one.
#[derive(Clone, Copy)]
struct Band {
    from: usize,
    to: usize,
}

impl Band {
    /// The bands of so many turns: this one, where there are so many.
    fn at(number: usize, turns: usize) -> Band {
        let from = number.saturating_mul(BAND);
        let to = from.saturating_add(BAND);
        Band {
            from,
            to: if to < turns { to } else { turns },
        }
    }

    /// Whether a process lives somewhere in it.
    fn has(self, row: &Row) -> bool {
        let begins_before = row.made < self.to || row.made == 0;
        match row.ended {
            Some(ended) => begins_before && ended > self.from,
            None => begins_before,
        }
    }
}

/// Cuts a text that is too long, which is told by a tilde.
fn cut(text: &mut Vec<u8>, most: usize) -> Result<(), NoMemory> {
    if text.len() > most {
        text.truncate(most);
        text.push(b'~')?;
    }
    Ok(())
}

/// The label of a process: its number, and what it runs in the end.
fn label_of(alloc: Global, row: &Row) -> Result<Vec<u8>, NoMemory> {
    let mut text = Vec::new(alloc);
    put_number(&mut text, u64::from(row.pid))?;
    text.push(b' ')?;
    put_command(&mut text, row, usize::MAX)?;
    cut(&mut text, LABEL_CHARACTERS)?;
    Ok(text)
}

/// Where the middle of a turn is, in a band that begins here.
fn column_of(band: Band, corner: Point, turn: usize) -> Point {
    let columns = turn.saturating_sub(band.from) as u64;
    corner.off(LABEL.saturating_add(columns.saturating_mul(COLUMN)), 0)
}

/// The place of a process's row in a band: how many processes before it are in the band.
fn place_in(record: &Record, band: Band, process: usize) -> u64 {
    let mut place = 0u64;
    for row in record.rows.iter().take(process) {
        if band.has(row) {
            place = place.saturating_add(1);
        }
    }
    place
}

/// The height of the middle of a process's row.
fn height_of(record: &Record, band: Band, process: usize) -> u64 {
    let place = place_in(record, band, process);
    ABOVE
        .saturating_add(place.saturating_mul(ROW))
        .saturating_add(ROW / 2)
}

/// How many processes are in a band.
fn rows_in(record: &Record, band: Band) -> u64 {
    place_in(record, band, record.rows.len())
}

/// The height of a band.
fn height_in(record: &Record, band: Band) -> u64 {
    rows_in(record, band)
        .saturating_mul(ROW)
        .saturating_add(ABOVE)
        .saturating_add(BELOW)
}

/// Adds the label and the line of a process.
fn put_row(
    alloc: Global,
    out: &mut Vec<u8>,
    record: &Record,
    band: Band,
    corner: Point,
    process: usize,
    row: &Row,
) -> Result<(), NoMemory> {
    let below = height_of(record, band, process);
    let label = label_of(alloc, row)?;
    svg::put_text(out, corner.off(4, below.saturating_add(4)), false, &label)?;
    let ended = row.ended.unwrap_or(usize::MAX);
    let from = if row.made > band.from {
        row.made
    } else {
        band.from
    };
    let to = if ended < band.to { ended } else { band.to };
    let left = column_of(band, corner, from).off(0, below);
    let right = column_of(band, corner, to).off(0, below);
    svg::put_line(out, left, right)
}

/// Adds the labels and lines of the processes in a band.
fn put_rows(
    alloc: Global,
    out: &mut Vec<u8>,
    record: &Record,
    band: Band,
    corner: Point,
) -> Result<(), NoMemory> {
    let mut process = 0usize;
    for row in &record.rows {
        if band.has(row) {
            put_row(alloc, out, record, band, corner, process, row)?;
        }
        process = process.saturating_add(1);
    }
    Ok(())
}

/// Adds the number of a turn, for every fifth one.
fn put_turn_number(
    out: &mut Vec<u8>,
    alloc: Global,
    middle: Point,
    turn: usize,
) -> Result<(), NoMemory> {
    let number = (turn as u64).saturating_add(1);
    if number % 5 != 0 && number != 1 {
        return Ok(());
    }
    let mut text = Vec::new(alloc);
    put_number(&mut text, number)?;
    svg::put_text(out, middle.off(0, 14), true, &text)
}

/// Adds what the terminal gets in a turn.
fn put_written(out: &mut Vec<u8>, alloc: Global, at: Point, turn: &Turn) -> Result<(), NoMemory> {
    if turn.written.is_empty() {
        return Ok(());
    }
    let mut text = Vec::new(alloc);
    put_escaped(&mut text, turn.written.as_slice())?;
    cut(&mut text, WRITTEN_CHARACTERS)?;
    svg::put_text_down(out, at, &text)
}

/// Adds the line from a turn of a process to the process that it made.
fn put_made(
    out: &mut Vec<u8>,
    record: &Record,
    band: Band,
    middle: Point,
    process: usize,
    made: Option<usize>,
) -> Result<(), NoMemory> {
    let Some(made) = made else {
        return Ok(());
    };
    let from = middle.off(0, height_of(record, band, process));
    let to = middle.off(0, height_of(record, band, made));
    svg::put_line(out, from, to)
}

/// Adds the mark of a turn: its box with its letter, and the line to the process that it made. A key has none.
fn put_mark(
    out: &mut Vec<u8>,
    record: &Record,
    band: Band,
    middle: Point,
    turn: &Turn,
) -> Result<(), NoMemory> {
    let Cause::Turn(by) = turn.cause else {
        return Ok(());
    };
    put_made(out, record, band, middle, by.process, turn.made)?;
    let below = height_of(record, band, by.process);
    let box_corner = Point {
        x: middle.x.saturating_sub(BOX / 2),
        y: middle.y.saturating_add(below).saturating_sub(BOX / 2),
    };
    svg::put_box(out, box_corner, BOX, BOX, !turn.written.is_empty())?;
    svg::put_text(
        out,
        middle.off(0, below.saturating_add(4)),
        true,
        letter(by.action).as_bytes(),
    )
}

/// Adds a turn: its number, its mark, and what the terminal gets.
fn put_turn(
    alloc: Global,
    out: &mut Vec<u8>,
    record: &Record,
    band: Band,
    corner: Point,
    number: usize,
    turn: &Turn,
) -> Result<(), NoMemory> {
    let middle = column_of(band, corner, number).off(COLUMN / 2, 0);
    put_turn_number(out, alloc, middle, number)?;
    put_mark(out, record, band, middle, turn)?;
    let rows = rows_in(record, band)
        .saturating_mul(ROW)
        .saturating_add(ABOVE);
    let written = Point {
        x: middle.x.saturating_sub(4),
        y: middle.y.saturating_add(rows).saturating_add(6),
    };
    put_written(out, alloc, written, turn)
}

/// Adds the turns of a band.
fn put_turns(
    alloc: Global,
    out: &mut Vec<u8>,
    record: &Record,
    band: Band,
    corner: Point,
) -> Result<(), NoMemory> {
    let mut number = band.from;
    for turn in record.turns.iter().skip(band.from).take(BAND) {
        put_turn(alloc, out, record, band, corner, number, turn)?;
        number = number.saturating_add(1);
    }
    Ok(())
}

/// How many bands a run has.
fn bands_of(record: &Record) -> usize {
    let whole = record.turns.len() / BAND;
    if record.turns.len() % BAND == 0 && whole > 0 {
        whole
    } else {
        whole.saturating_add(1)
    }
}

/// The width of a picture, in which the legend has room too.
fn width_of(record: &Record) -> u64 {
    let columns = record.turns.len().min(BAND) as u64;
    let width = LABEL.saturating_add(columns.saturating_mul(COLUMN));
    width.max(LEGEND_WIDTH).saturating_add(10)
}

/// The height of all bands.
fn height_of_all(record: &Record) -> u64 {
    let mut height = 0u64;
    for number in 0..bands_of(record) {
        let band = Band::at(number, record.turns.len());
        height = height.saturating_add(height_in(record, band));
    }
    height
}

/// Adds all bands.
fn put_bands(alloc: Global, out: &mut Vec<u8>, record: &Record) -> Result<(), NoMemory> {
    let mut corner = Point { x: 0, y: 0 };
    for number in 0..bands_of(record) {
        let band = Band::at(number, record.turns.len());
        put_rows(alloc, out, record, band, corner)?;
        put_turns(alloc, out, record, band, corner)?;
        corner = corner.off(0, height_in(record, band));
    }
    Ok(())
}

/// Adds the lines that say what the letters mean.
fn put_legend(out: &mut Vec<u8>, top: u64) -> Result<(), NoMemory> {
    let mut at = Point { x: 4, y: top };
    for line in LEGEND {
        svg::put_text(out, at, false, line.as_bytes())?;
        at = at.off(0, LEGEND_LINE);
    }
    Ok(())
}

/// A run as a picture (SVG).
pub fn picture_of(alloc: Global, record: &Record) -> Result<Vec<u8>, NoMemory> {
    let mut out = Vec::new(alloc);
    let height = height_of_all(record);
    let legend = (LEGEND.len() as u64).saturating_mul(LEGEND_LINE);
    svg::begin(&mut out, width_of(record), height.saturating_add(legend))?;
    put_bands(alloc, &mut out, record)?;
    put_legend(&mut out, height.saturating_add(LEGEND_LINE / 2))?;
    svg::end(&mut out)?;
    Ok(out)
}
