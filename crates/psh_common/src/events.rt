//! The file of events: lines `run K [N]`, `next [N]`, `key HH` and `type TEXT`.
ghost use Rattle.sh_base.specs.Memory.{no_memory};
ghost use Rattle.std.specs.Prelude.{◌≡◌, ◌≢◌, ◌==◌, ◌+◌, ◌^◌, ◌<◌, ◌≤◌, ◌∷◌, ◌++◌, IfNone, IfOk, IfErr, IfSome, OnOk, OnErr, None, Some, Ok, Err, length, option_map, position};
ghost use Rattle.psh_common.specs.Lines.{further_parts, parts};
ghost use Rattle.psh_common.specs.Events.{digit_of, events_of, is_typed, key_of, key_once, key_turns, key_with, line_turns, named_line, next_turns, number, place_of, run_turns, size_of, so_often, times_of, turns_of, typed_turns};
ghost use Rattle.psh_common.specs.declared.events.EventFault.TheVariants as fault;

use sh_base::NoMemory;
use sh_base::decimal::{all_digits, limited_value};
use sh_exec::Event;
use std::alloc::{AllocError, AllocFailed, Global};

/// How many bytes of events are read; the line of the first byte beyond is refused.
pub const MOST_BYTES: usize = 268_435_456;

/// How often a line's event may come.
const MOST_TIMES: u32 = 1_000_000;

/// The greatest place that a line may name.
const MOST_PLACE: u32 = 2_147_483_647;

/// One event, so many times in a row.
#[derive(Clone, Copy)]
pub struct Turns {
    /// The event.
    pub event: Event,
    /// How often it comes, from 1 on.
    pub times: u32,
}

/// Why events are refused.
#[derive(Debug, Drop)]
pub enum EventFault {
    /// A line is no event. Lines count from 1.
    BadEvent { line: u64 },
    /// No memory was found.
    NoMemory(NoMemory),
}

impl From<AllocError> for EventFault {
    ghost from_gives = { λ _ e. e ≡ fault.NoMemory no_memory };

    fn from(error: AllocError) -> Self {
        EventFault::NoMemory(NoMemory::from(error))
    }
}

impl<T: Drop> From<AllocFailed<T>> for EventFault {
    ghost from_gives = { λ _ e. e ≡ fault.NoMemory no_memory };

    fn from(error: AllocFailed<T>) -> Self {
        EventFault::NoMemory(NoMemory::from(error))
    }
}

/// The place of the first such byte.
fn first(bytes: &[u8], byte: u8) -> Option<usize>
    ensures place { result ≡ position (λ b. b == byte) bytes.now }
    ensures within { IfSome result (λ i. i < length bytes.now) }
{
    bytes.iter().position(|it| *it == byte)
}

/// The bytes up to the first separator, and those after it, if there is one.
fn cut(bytes: &[u8], separator: u8) -> (&[u8], Option<&[u8]>)
    ensures parts { parts separator bytes.now ≡ result.0.now ∷ further_parts separator
        (option_map (λ rest. rest.now) result.1) }
    ensures size { IfSome result.1 (λ rest.
        length result.0.now + 1 + length rest.now ≡ length bytes.now) }
    ensures whole { IfNone result.1 (result.0.now ≡ bytes.now) }
{
    match first(bytes, separator) {
        Some(i) => (&bytes[..i], Some(&bytes[i + 1..])),
        None => (bytes, None),
    }
}

/// A number of one to ten decimal digits, of at most this value.
fn number(digits: &[u8], most: u32) -> Option<u32>
    ensures { result ≡ number most digits.now }
{
    if digits.is_empty() || digits.len() > 10 || !all_digits(digits) {
        return None;
    }
    let value = limited_value(digits, u64::from(most))?;
    Some(value as u32)
}

/// Which place: a number from 0 to 2147483647.
fn place(digits: &[u8]) -> Option<u32>
    ensures { result ≡ place_of digits.now }
{
    number(digits, MOST_PLACE)
}

/// How often: a number from 1 to 1000000.
fn times(digits: &[u8]) -> Option<u32>
    ensures { result ≡ times_of digits.now }
{
    match number(digits, MOST_TIMES) {
        None => None,
        Some(0) => None,
        Some(times) => Some(times),
    }
}

/// An event, so often.
fn so_often(event: Event, times: Option<u32>) -> Option<Turns>
    ensures { result ≡ so_often event times }
{
    match times {
        None => None,
        Some(times) => Some(Turns { event, times }),
    }
}

/// What follows `run`: `K [N]`.
fn run_turns(words: Option<&[u8]>) -> Option<Turns>
    ensures { result ≡ run_turns (further_parts 32 (option_map (λ rest. rest.now) words.entry)) }
{
    let (first, rest) = cut(words?, b' ');
    let event = Event::Run(place(first)?);
    let Some(rest) = rest else {
        return so_often(event, Some(1));
    };
    match cut(rest, b' ') {
        (last, None) => so_often(event, times(last)),
        (_, Some(_)) => None,
    }
}

/// What follows `next`: `[N]`.
fn next_turns(words: Option<&[u8]>) -> Option<Turns>
    ensures { result ≡ next_turns (further_parts 32 (option_map (λ rest. rest.now) words.entry)) }
{
    let Some(words) = words else {
        return so_often(Event::Next, Some(1));
    };
    match cut(words, b' ') {
        (last, None) => so_often(Event::Next, times(last)),
        (_, Some(_)) => None,
    }
}

/// What a hexadecimal digit of either case stands for.
fn digit_of(digit: u8) -> Option<u8>
    ensures value { result ≡ digit_of digit }
    ensures small { IfSome result (λ value. value < 16) }
{
    match digit {
        b'0'..=b'9' => Some(digit - b'0'),
        b'a'..=b'f' => Some(digit - b'a' + 10),
        b'A'..=b'F' => Some(digit - b'A' + 10),
        _ => None,
    }
}

/// A key, once.
fn key_once(byte: u8) -> Turns
    ensures { result ≡ key_once byte }
{
    Turns {
        event: Event::Key(byte),
        times: 1,
    }
}

/// A key of these two digits.
fn key_of(digits: &[u8]) -> Option<Turns>
    ensures { result ≡ key_of digits.now }
{
    let [high, low] = digits else {
        return None;
    };
    let high = digit_of(*high)?;
    let low = digit_of(*low)?;
    Some(key_once(16 * high + low))
}

/// What follows `key`: `HH`.
fn key_turns(words: Option<&[u8]>) -> Option<Turns>
    ensures { result ≡ key_turns (further_parts 32 (option_map (λ rest. rest.now) words.entry)) }
{
    match cut(words?, b' ') {
        (digits, None) => key_of(digits),
        (_, Some(_)) => None,
    }
}

/// The event of a line, and how often it comes.
fn turns_of(line: &[u8]) -> Option<Turns>
    ensures { result ≡ turns_of line.now }
{
    let (name, words) = cut(line, b' ');
    if name == b"run".as_slice() {
        return run_turns(words);
    }
    if name == b"next".as_slice() {
        return next_turns(words);
    }
    if name == b"key".as_slice() {
        return key_turns(words);
    }
    None
}

/// Whether a line is `type`, one space and what is typed.
fn is_typed(line: &[u8]) -> bool
    ensures { result ≡ is_typed line.now }
{
    line.starts_with(b"type ")
}

/// Adds a key for each byte that is typed.
fn add_typed(all: &mut Vec<Turns>, text: &[u8]) -> Result<(), EventFault>
    ensures ok { OnOk result (all.new.items ≡ all.old.items ++ typed_turns text.now) }
    ensures refused { IfErr result (λ fault. fault ≡ EventFault.NoMemory no_memory) }
{
    let mut rest = text;
    'bytes: while let Some((byte, others)) = rest.split_first() {
        all.push(key_once(*byte))?;
        rest = others;
    }
    Ok(())
}

/// Adds the event of a line that isn't empty, or the keys that it types.
fn add_named(all: &mut Vec<Turns>, text: &[u8], line: u64) -> Result<(), EventFault>
    ensures ok { OnOk result
        (option_map (λ turns. all.old.items ++ turns) (named_line text.now) ≡ Some all.new.items) }
    ensures refused { IfErr result (λ fault.
        fault ≢ EventFault.NoMemory no_memory → (fault ≡ EventFault.BadEvent line)
        × (named_line text.now ≡ None)) }
{
    if is_typed(text) {
        return add_typed(all, &text[5..]);
    }
    let Some(turns) = turns_of(text) else {
        return Err(EventFault::BadEvent { line });
    };
    all.push(turns)?;
    Ok(())
}

/// Adds the event of a line, if it has one, after the others.
fn add_line(all: &mut Vec<Turns>, text: &[u8], line: u64) -> Result<(), EventFault>
    ensures ok { OnOk result
        (option_map (λ turns. all.old.items ++ turns) (line_turns text.now) ≡ Some all.new.items) }
    ensures refused { IfErr result (λ fault.
        fault ≢ EventFault.NoMemory no_memory → (fault ≡ EventFault.BadEvent line)
        × (line_turns text.now ≡ None)) }
{
    if text.is_empty() {
        return Ok(());
    }
    add_named(all, text, line)
}

/// How many bytes a line has, with its newline where something follows it.
fn size_of(text: &[u8], behind: Option<&[u8]>) -> usize
    requires { IfSome behind (λ rest. length text.now + 1 + length rest.now < 2 ^ 64) }
    ensures { result ≡ size_of text.now
        (further_parts 10 (option_map (λ rest. rest.now) behind.entry)) }
{
    match behind {
        Some(_) => text.len() + 1,
        None => text.len(),
    }
}

/// The events of a file's bytes. Empty lines are skipped, and the last newline may be missing. The first line
/// that is no event is refused, and the line of the first byte after [`MOST_BYTES`], if no line before it is
/// refused.
pub fn read_events(alloc: Global, bytes: &[u8]) -> Result<Vec<Turns>, EventFault>
    ensures ok { IfOk result (λ all. events_of bytes.now ≡ Ok all.items) }
    ensures refused { IfErr result (λ fault.
        fault ≢ EventFault.NoMemory no_memory → events_of bytes.now ≡ Err fault) }
{
    let mut all = Vec::new(alloc);
    let mut line = 0u64;
    let mut place = 0usize;
    let mut left = Some(bytes);
    'lines: while let Some(rest) = left {
        let (text, behind) = cut(rest, b'\n');
        line += 1;
        place += size_of(text, behind);
        if place > MOST_BYTES {
            return Err(EventFault::BadEvent { line });
        }
        add_line(&mut all, text, line)?;
        left = behind;
    }
    Ok(all)
}
