//! A line as texts for variables.
ghost use Rattle.std.specs.Prelude.{◌≡◌, IfOk};
ghost use Rattle.sh_expand_fields.specs.Lines.{behind_white, last_text, line_split, texts};

use crate::line_fields::{before_white, behind, behind_white, bytes_of, field};
use sh_base::NoMemory;
use sh_base::separator::default_separators;
use sh_base::sequence::{Sequence, Text};
use sh_pattern::PatternByte;
use sh_vars::Vars;
use std::alloc::Global;

/// The last text: what is left of a line.
#[tactic(auto, unfolding(crate::specs::Lines::last_text))]
fn left(alloc: Global, ifs: &[u8], line: &[PatternByte]) -> Result<Text, NoMemory>
    ensures { IfOk result (λ text. text ≡ last_text ifs.now line.now) }
{
    if behind(ifs, line).is_empty() {
        return field(alloc, ifs, line);
    }
    bytes_of(alloc, before_white(ifs, line))
}

/// `count` texts of a line.
fn texts(
    alloc: Global,
    ifs: &[u8],
    count: usize,
    line: &[PatternByte],
) -> Result<Sequence<Text>, NoMemory>
    ensures { IfOk result (λ found. found ≡ texts ifs.now count line.now) }
{
    let mut found = Sequence::new(alloc);
    let mut rest = line;
    let mut more = count;
    'fields: while more > 1 {
        found.push(field(alloc, ifs, rest)?)?;
        rest = behind(ifs, rest);
        more -= 1;
    }
    if more == 1 {
        found.push(left(alloc, ifs, rest)?)?;
    }
    Ok(found)
}

/// A line as `count` texts, where the bytes of `ifs` delimit.
fn split_by(
    alloc: Global,
    ifs: &[u8],
    count: usize,
    line: &[PatternByte],
) -> Result<Sequence<Text>, NoMemory>
    ensures { IfOk result (λ found. found ≡ texts ifs.now count (behind_white ifs.now line.now)) }
{
    texts(alloc, ifs, count, behind_white(ifs, line))
}

/// A line as `count` texts, as the utility `read` gives them to that many variables (XCU 3, `read`). Unquoted
/// bytes of IFS delimit fields as in field splitting; a literal byte never does. The last text is what is
/// left after the other fields, without IFS white space at its ends. Where that is one field, the delimiter
/// after it goes too. Where there are fewer fields than texts, the other texts are empty. The only error is
/// want of memory.
#[tactic(auto, unfolding(crate::specs::Lines::line_split))]
pub fn split_line(
    alloc: Global,
    vars: &Vars,
    line: &[PatternByte],
    count: usize,
) -> Result<Sequence<Text>, NoMemory>
    ensures { IfOk result (λ found. found ≡ line_split vars.now count line.now) }
{
    match vars.get(b"IFS") {
        Some(ifs) => split_by(alloc, ifs, count, line),
        None => split_by(alloc, default_separators(), count, line),
    }
}
