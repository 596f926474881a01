//! The components of a pattern for paths, and the names that they match.
ghost use Rattle.std.specs.Prelude.{◌≡◌, ◌↔◌, ◌<◌, IfOk, IfSome, IsTrue, length, map, option_map, position};
ghost use Rattle.sh_pattern.specs.Items.{byte_of, is_bare};
ghost use Rattle.std.specs.List.{list_any};
ghost use Rattle.sh_expand_fields.specs.Pathnames.{begins_with_dot, begins_with_dot_mark, has_bracket, components_of, is_always_there, is_closing, is_pattern, is_slash, is_wildcard, may_match};
ghost use Rattle.sh_expand_fields.specs.Walk.{IsTaken, pattern_split};

use sh_pattern::{PatternByte, matches};
use std::alloc::{AllocError, Global};

/// Whether a byte of a pattern is a slash. A quoted slash separates components too.
fn is_slash(mark: &PatternByte) -> bool
    ensures { result ≡ is_slash mark.now }
{
    mark.byte == b'/'
}

/// The index of the first slash.
fn first_slash(pattern: &[PatternByte]) -> Option<usize>
    ensures place { result ≡ position is_slash pattern.now }
    ensures within { IfSome result (λ place. place < length pattern.now) }
{
    pattern.iter().position(|mark| is_slash(mark))
}

/// What is before the first slash of a pattern, and what is after it; `None` where there is no slash.
pub(crate) fn split_slash(pattern: &[PatternByte]) -> Option<(&[PatternByte], &[PatternByte])>
    ensures parts { option_map (λ parts. (parts.0.now, parts.1.now)) result
        ≡ pattern_split pattern.now }
    ensures shorter { IfSome result (λ parts. length parts.1.now < length pattern.now) }
{
    match first_slash(pattern) {
        Some(place) => Some((&pattern[..place], &pattern[place + 1..])),
        None => None,
    }
}

/// Whether `mark` is this byte, unquoted.
fn is_bare(byte: u8, mark: PatternByte) -> bool
    ensures { result ≡ is_bare byte mark }
{
    !mark.literal && mark.byte == byte
}

/// Whether `mark` is an unquoted `*` or `?`.
fn is_wildcard(mark: &PatternByte) -> bool
    ensures { result ≡ is_wildcard mark.now }
{
    is_bare(b'*', *mark) || is_bare(b'?', *mark)
}

/// Whether `mark` is an unquoted `]`.
fn is_closing(mark: &PatternByte) -> bool
    ensures { result ≡ is_closing mark.now }
{
    is_bare(b']', *mark)
}

/// Whether a component has an unquoted `*` or `?`.
fn has_wildcard(component: &[PatternByte]) -> bool
    ensures { result ≡ list_any is_wildcard component.now }
{
    component.iter().any(|mark| is_wildcard(mark))
}

/// Whether a component has an unquoted `]`.
fn has_closing(component: &[PatternByte]) -> bool
    ensures { result ≡ list_any is_closing component.now }
{
    component.iter().any(|mark| is_closing(mark))
}

/// Whether a component has an unquoted `[` and an unquoted `]` after it.
fn has_bracket(component: &[PatternByte]) -> bool
    ensures { result ≡ has_bracket component.now }
{
    let mut rest = component;
    'marks: while let Some((mark, behind)) = rest.split_first() {
        if is_bare(b'[', *mark) {
            return has_closing(behind);
        }
        rest = behind;
    }
    false
}

/// Whether a component is a pattern: whether it has an unquoted `*`, `?` or bracket.
pub(crate) fn is_pattern(component: &[PatternByte]) -> bool
    ensures { result ≡ is_pattern component.now }
{
    has_wildcard(component) || has_bracket(component)
}

/// Whether some component is a pattern.
pub(crate) fn has_pattern(pattern: &[PatternByte]) -> bool
    ensures { result ≡ list_any is_pattern (components_of pattern.now) }
{
    let mut rest = pattern;
    'components: while let Some((component, behind)) = split_slash(rest) {
        if is_pattern(component) {
            return true;
        }
        rest = behind;
    }
    is_pattern(rest)
}

/// Whether a component begins with a period.
fn begins_with_dot_mark(component: &[PatternByte]) -> bool
    ensures { result ≡ begins_with_dot_mark component.now }
{
    match component.first() {
        Some(mark) => mark.byte == b'.',
        None => false,
    }
}

/// Whether a name begins with a period.
fn begins_with_dot(name: &[u8]) -> bool
    ensures { result ≡ begins_with_dot name.now }
{
    match name.first() {
        Some(byte) => *byte == b'.',
        None => false,
    }
}

/// Whether every directory has the name: whether the name is empty, dot or dot-dot.
pub(crate) fn is_always_there(name: &[u8]) -> bool
    ensures { result ≡ is_always_there name.now }
{
    name.is_empty() || name == b".".as_slice() || name == b"..".as_slice()
}

/// Whether a pattern may match a name. None matches dot, dot-dot, an empty name or one with a slash. A name
/// that begins with a period needs a pattern that begins with one too.
fn may_match(component: &[PatternByte], name: &[u8]) -> bool
    ensures { result ≡ may_match component.now name.now }
{
    !is_always_there(name)
        && !name.contains(&b'/')
        && (!begins_with_dot(name) || begins_with_dot_mark(component))
}

/// Whether a pattern takes a name.
pub(crate) fn takes(component: &[PatternByte], name: &[u8]) -> bool
    ensures { IsTrue result ↔ IsTaken component.now name.now }
{
    may_match(component, name) && matches(component, name)
}

/// The bytes of a component.
pub(crate) fn bytes_of(alloc: Global, component: &[PatternByte]) -> Result<Vec<u8>, AllocError>
    ensures { IfOk result (λ bytes. bytes.items ≡ map byte_of component.now) }
{
    let mut bytes = Vec::with_capacity(alloc, component.len())?;
    let mut rest = component;
    'marks: while let Some((mark, behind)) = rest.split_first() {
        bytes.push(mark.byte)?;
        rest = behind;
    }
    Ok(bytes)
}
