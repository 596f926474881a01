//! Prefixes and suffixes of a text that a pattern matches (XCU 2.6.2: `#`, `##`, `%` and `%%`).
ghost use Rattle.std.specs.Prelude.{◌≡◌, length};
ghost use Rattle.sh_pattern.specs.Match.{IsLongest, IsShortest, suffix, prefix};

use crate::pattern_byte::PatternByte;
use crate::search::matches;

/// How many bytes the shortest prefix has that the pattern matches, as `${x#p}` needs (XCU 2.6.2). It is
/// `None` where the pattern matches no prefix.
pub fn shortest_front(pattern: &[PatternByte], text: &[u8]) -> Option<usize>
    ensures { IsShortest pattern.now (prefix text.now) (length text.now) result }
{
    let mut n = 0;
    while n < text.len() {
        if matches(pattern, &text[..n]) {
            return Some(n);
        }
        n += 1;
    }
    if matches(pattern, text) {
        Some(n)
    } else {
        None
    }
}

/// How many bytes the longest prefix has that the pattern matches, as `${x##p}` needs (XCU 2.6.2). It is
/// `None` where the pattern matches no prefix.
pub fn longest_front(pattern: &[PatternByte], text: &[u8]) -> Option<usize>
    ensures { IsLongest pattern.now (prefix text.now) (length text.now) result }
{
    let mut n = text.len();
    while n > 0 {
        if matches(pattern, &text[..n]) {
            return Some(n);
        }
        n -= 1;
    }
    if matches(pattern, &text[..n]) {
        Some(n)
    } else {
        None
    }
}

/// How many bytes the shortest suffix has that the pattern matches, as `${x%p}` needs (XCU 2.6.2). It is
/// `None` where the pattern matches no suffix.
pub fn shortest_back(pattern: &[PatternByte], text: &[u8]) -> Option<usize>
    ensures { IsShortest pattern.now (suffix text.now) (length text.now) result }
{
    let mut bytes = 0;
    while bytes < text.len() {
        if matches(pattern, &text[text.len() - bytes..]) {
            return Some(bytes);
        }
        bytes += 1;
    }
    if matches(pattern, text) {
        Some(bytes)
    } else {
        None
    }
}

/// How many bytes the longest suffix has that the pattern matches, as `${x%%p}` needs (XCU 2.6.2). It is
/// `None` where the pattern matches no suffix.
pub fn longest_back(pattern: &[PatternByte], text: &[u8]) -> Option<usize>
    ensures { IsLongest pattern.now (suffix text.now) (length text.now) result }
{
    let mut bytes = text.len();
    while bytes > 0 {
        if matches(pattern, &text[text.len() - bytes..]) {
            return Some(bytes);
        }
        bytes -= 1;
    }
    if matches(pattern, &text[text.len()..]) {
        Some(bytes)
    } else {
        None
    }
}
