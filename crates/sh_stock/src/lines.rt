// Lines of bytes.
ghost use Rattle.std.specs.Prelude.{◌≡◌, ◌-◌, IfOk, OnOk, take};
ghost use Rattle.sh_stock.specs.Lines.{contains, first_lines, is_newline, kept_lines, newlines, unfinished_line};
ghost use Rattle.std.specs.List.{list_any};

use sh_base::NoMemory;
use sh_base::sequence::Text;
use std::alloc::Global;

/// Whether a newline is among the bytes.
pub(crate) fn has_newline(bytes: &[u8]) -> bool
    ensures { result ≡ list_any is_newline bytes.now }
{
    bytes.iter().any(|byte| is_newline(*byte))
}

fn is_newline(byte: u8) -> bool
    ensures { result ≡ is_newline byte }
{
    byte == b'\n'
}

/// How many bytes the first `lines` lines take, and how many of these lines are missing.
pub(crate) fn find_end(lines: u64, bytes: &[u8]) -> (usize, u64)
    ensures prefix { take result.0 bytes.now ≡ first_lines lines bytes.now }
    ensures missing { result.1 ≡ lines - newlines bytes.now }
{
    let mut missing = lines;
    'bytes: for (len, byte) in bytes.iter().enumerate() {
        if missing == 0 {
            return (len, 0);
        }
        if is_newline(*byte) {
            missing -= 1;
        }
    }
    (bytes.len(), missing)
}

/// Whether a text is somewhere in a line.
pub(crate) fn contains(text: &[u8], line: &[u8]) -> bool
    ensures { result ≡ contains text.now line.now }
{
    let mut rest = line;
    'places: while let Some((_, others)) = rest.split_first() {
        if rest.starts_with(text) {
            return true;
        }
        rest = others;
    }
    text.is_empty()
}

/// Adds bytes to an unfinished line. It gives the lines that are whole now and contain a text, with their
/// newlines. After an error, which only want of memory gives, the line is left open.
pub(crate) fn keep_lines(
    alloc: Global,
    text: &[u8],
    line: &mut Text,
    bytes: &[u8],
) -> Result<Text, NoMemory>
    ensures kept { IfOk result (λ kept. kept ≡ kept_lines text.now line.old bytes.now) }
    ensures line { OnOk result (line.new ≡ unfinished_line line.old bytes.now) }
{
    let mut kept = Text::new(alloc);
    'bytes: for byte in bytes {
        if is_newline(*byte) {
            if contains(text, line.as_slice()) {
                kept.extend_from_slice(line.as_slice())?;
                kept.push(b'\n')?;
            }
            line.clear();
        } else {
            line.push(*byte)?;
        }
    }
    Ok(kept)
}
