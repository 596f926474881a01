//! The search for a match: greedy, with the last `*` to go back to.
ghost use Rattle.std.specs.Prelude.{◌≡◌, ◌+◌, ◌≤◌, ◌<◌, ◌↔◌, IsTrue, length, drop, []};
ghost use Rattle.sh_pattern.specs.Match.{AreMatched, Matches};
ghost use Rattle.sh_pattern.specs.Place.{IsPlaced, Reached, from, work};

use crate::element::read;
use crate::pattern_byte::PatternByte;

/// The state of the search. `star` is the index in the pattern after the last `*`, and `from` the index in
/// the text from which the pattern after that `*` is tried. `at` and `byte` are the indices reached in the
/// pattern and in the text.
#[derive(Clone, Copy, Debug, PartialEq, Eq)]
pub(crate) struct Place {
    pub star: usize,
    pub from: usize,
    pub at: usize,
    pub byte: usize,
}

/// One step: a `*` is remembered, a byte is taken, or what follows the last `*` is tried one byte later.
fn step(pattern: &[PatternByte], text: &[u8], place: Place) -> Place
    requires inside { place.byte < length text.now }
    requires placed { IsPlaced pattern.now text.now place }
    ensures placed { IsPlaced pattern.now text.now result }
    ensures same { Reached pattern.now text.now place ↔ Reached pattern.now text.now result }
    ensures smaller { work pattern.now text.now result < work pattern.now text.now place }
{
    if place.at >= pattern.len() {
        return Place {
            star: place.star,
            from: place.from + 1,
            at: place.star,
            byte: place.from + 1,
        };
    }
    let behind = &pattern[place.at + 1..];
    let found = read(pattern[place.at], behind);
    let next = place.at + 1 + found.skip;
    if found.kind.is_star() {
        return Place {
            star: next,
            from: place.byte,
            at: next,
            byte: place.byte,
        };
    }
    if found.takes(behind, text[place.byte]) {
        return Place {
            star: place.star,
            from: place.from,
            at: next,
            byte: place.byte + 1,
        };
    }
    Place {
        star: place.star,
        from: place.from + 1,
        at: place.star,
        byte: place.from + 1,
    }
}

/// Whether the pattern from `start` on matches the empty text.
fn vanishes(pattern: &[PatternByte], start: usize) -> bool
    requires { start ≤ length pattern.now }
    ensures { IsTrue result ↔ AreMatched (from pattern.now start) [] }
{
    let mut at = start;
    while at < pattern.len() {
        let found = read(pattern[at], &pattern[at + 1..]);
        if !found.kind.is_star() {
            return false;
        }
        at = at + 1 + found.skip;
    }
    true
}

/// Whether a `*` followed by the pattern from `star` on matches the text from `start` on.
fn matches_behind(pattern: &[PatternByte], text: &[u8], star: usize, start: usize) -> bool
    requires star { star ≤ length pattern.now }
    requires start { start ≤ length text.now }
    ensures { IsTrue result
        ↔ Reached pattern.now text.now
        (record { star = star; from = start; at = star; byte = start }) }
{
    let mut place = Place {
        star,
        from: start,
        at: star,
        byte: start,
    };
    while place.byte < text.len() {
        place = step(pattern, text, place);
    }
    vanishes(pattern, place.at)
}

/// Whether a pattern matches a whole text (XCU 2.14). Takes no memory. The number of steps grows at most with
/// the text's length times the pattern's; no clause says so.
pub fn matches(pattern: &[PatternByte], text: &[u8]) -> bool
    ensures { IsTrue result ↔ Matches pattern.now text.now }
{
    let mut at = 0;
    let mut byte = 0;
    while at < pattern.len() {
        let behind = &pattern[at + 1..];
        let found = read(pattern[at], behind);
        let next = at + 1 + found.skip;
        if found.kind.is_star() {
            return matches_behind(pattern, text, next, byte);
        }
        if byte >= text.len() {
            return false;
        }
        if !found.takes(behind, text[byte]) {
            return false;
        }
        at = next;
        byte += 1;
    }
    byte == text.len()
}
