//! Values without what a pattern matches (XCU 2.6.2).
ghost use Rattle.std.specs.Prelude.{◌≡◌, ◌-◌, ◌≤◌, List, ℕ, IfOk, MatchOption, drop, length, map, take, option_map, Some, None};
ghost use Rattle.sh_expand_parts.specs.Closings.{shorter_value};
ghost use Rattle.sh_expand_parts.specs.Removals.{match_length, without_length, without_match};

use crate::value::Value;
use sh_base::sequence::{Sequence, Text};
use sh_pattern::{PatternByte, longest_back, longest_front, shortest_back, shortest_front};
use sh_syntax::tree::{Affix, Extent};
use std::alloc::{AllocError, Global};

/// How many bytes the prefix or suffix has that a pattern matches; `None` where it matches none.
fn matched(affix: Affix, extent: Extent, pattern: &[PatternByte], text: &[u8]) -> Option<usize>
    ensures length { result ≡ match_length affix extent pattern.now text.now }
    ensures within { MatchOption result (Unit {0}) (λ n. n ≤ length text.now) }
{
    match affix {
        Affix::Prefix => match extent {
            Extent::Smallest => shortest_front(pattern, text),
            Extent::Largest => longest_front(pattern, text),
        },
        Affix::Suffix => match extent {
            Extent::Smallest => shortest_back(pattern, text),
            Extent::Largest => longest_back(pattern, text),
        },
    }
}

/// A text without its prefix or suffix of this length; the whole text where there is no length.
fn without_length(affix: Affix, text: &[u8], count: Option<usize>) -> &[u8]
    requires { MatchOption count (Unit {0}) (λ n. n ≤ length text.now) }
    ensures { result.now ≡ without_length affix text.now count }
{
    let Some(count) = count else { return text };
    match affix {
        Affix::Prefix => &text[count..],
        Affix::Suffix => &text[..text.len() - count],
    }
}

/// A text without the prefix or suffix that a pattern matches.
#[tactic(auto, unfolding(crate::specs::Removals::without_match))]
fn without_match(
    alloc: Global,
    affix: Affix,
    extent: Extent,
    pattern: &[PatternByte],
    text: &[u8],
) -> Result<Text, AllocError>
    ensures { IfOk result (λ t. t ≡ without_match affix extent pattern.now text.now) }
{
    let count = matched(affix, extent, pattern, text);
    let rest = Text::copy_of(alloc, without_length(affix, text, count))?;
    Ok(rest)
}

/// Each of the texts without what a pattern matches.
fn all_without_match(
    alloc: Global,
    affix: Affix,
    extent: Extent,
    pattern: &[PatternByte],
    texts: &[Text],
) -> Result<Sequence<Text>, AllocError>
    ensures { IfOk result (λ all. all ≡ map (without_match affix extent pattern.now) texts.now) }
{
    let mut all = Sequence::new(alloc);
    for text in texts {
        all.push(without_match(alloc, affix, extent, pattern, text.as_slice())?)?;
    }
    Ok(all)
}

/// A value without what a pattern matches, each of several parameters by itself.
pub(crate) fn removed(
    alloc: Global,
    affix: Affix,
    extent: Extent,
    pattern: &[PatternByte],
    value: &Value,
) -> Result<Value, AllocError>
    ensures { IfOk result (λ v.
        v ≡ shorter_value (without_match affix extent pattern.now) value.now) }
{
    match value {
        Value::Unset => Ok(Value::Unset),
        Value::Scalar(text) => {
            let rest = without_match(alloc, affix, extent, pattern, text.as_slice())?;
            Ok(Value::Scalar(rest))
        }
        Value::Each(texts) => {
            let rests = all_without_match(alloc, affix, extent, pattern, texts.as_slice())?;
            Ok(Value::Each(rests))
        }
        Value::Joined(texts) => {
            let rests = all_without_match(alloc, affix, extent, pattern, texts.as_slice())?;
            Ok(Value::Joined(rests))
        }
    }
}
