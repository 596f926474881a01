//! `line IFS COUNT LINE TEXTS`: the texts that a line is split into for so many variables, with `|` between them. IFS is `-` where it is
//! unset, `_` where it is empty. A backslash quotes the byte behind it.
use sh_base::NoMemory;
use sh_expand_fields::split_line;
use sh_pattern::PatternByte;
use sh_vars::Vars;
use std::alloc::Global;
use test_rows::RowFault;

/// The bytes of a line.
fn marks_of(alloc: Global, line: &[u8]) -> Result<Vec<PatternByte>, NoMemory> {
    let mut marks = Vec::new(alloc);
    let mut literal = false;
    for byte in line {
        if *byte == b'\\' && !literal {
            literal = true;
        } else {
            marks.push(PatternByte {
                byte: *byte,
                literal,
            })?;
            literal = false;
        }
    }
    Ok(marks)
}

/// Gives variables this IFS.
fn separate(vars: &mut Vars, ifs: &[u8]) {
    vars.forget(b"IFS");
    if ifs != b"-".as_slice() {
        let value = if ifs == b"_".as_slice() { b"" } else { ifs };
        let _ = vars.set(b"IFS", value);
    }
}

/// The texts of a line.
fn split(alloc: Global, vars: &Vars, count: usize, line: &[u8]) -> Result<Vec<u8>, NoMemory> {
    let marks = marks_of(alloc, line)?;
    let texts = split_line(alloc, vars, &marks, count)?;
    let mut joined = Vec::new(alloc);
    for (place, text) in texts.as_slice().iter().enumerate() {
        if place > 0 {
            joined.push(b'|')?;
        }
        joined.extend_from_slice(text.as_slice())?;
    }
    Ok(joined)
}

/// What a row's line is split into.
pub(crate) fn texts(
    alloc: Global,
    ifs: &[u8],
    count: usize,
    line: &[u8],
) -> Result<Vec<u8>, RowFault> {
    let mut vars = Vars::new(alloc)?;
    separate(&mut vars, ifs);
    let texts = split(alloc, &vars, count, line);
    drop(vars);
    texts.map_err(|_| RowFault::NoMemory)
}
