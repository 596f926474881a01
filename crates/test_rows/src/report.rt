//! What a program of rows tells of its rows.
use crate::row::{Row, RowFault, read_rows};
use std::alloc::Global;
use std::{env, fs, io};

/// The result of a row.
#[derive(Drop)]
pub enum Verdict {
    /// The answer is the wanted one.
    Well,
    /// The answer is another one.
    Wrong {
        /// The answer that was found.
        found: Vec<u8>,
    },
}

impl Verdict {
    /// `Well` where what was found is what is wanted, else `Wrong`.
    pub fn of(found: Vec<u8>, wanted: &[u8]) -> Self {
        if found.as_slice() == wanted {
            return Verdict::Well;
        }
        Verdict::Wrong { found }
    }
}

/// What judges the rows of a file.
pub trait Judge {
    /// Tells whether the answer of a row is the wanted one.
    ///
    /// # Errors
    ///
    /// [`RowFault::NoRow`] where the kind of the row isn't known, and [`RowFault::NoMemory`].
    fn judge(&self, alloc: Global, row: &Row) -> Result<Verdict, RowFault>;
}

/// Prints the answer of a row, which isn't the wanted one.
fn tell(rt: &HostRuntime, file: &str, line: usize, found: &[u8]) {
    let found = found.escape_ascii();
    let _ = println!(rt; "{file}: line {line} comes to {found}");
}

/// Judges the rows of a file, and counts the wrong ones. It prints a line for each of them.
fn count_wrong(
    rt: &HostRuntime,
    judge: &impl Judge,
    file: &str,
    rows: &[Row],
) -> Result<usize, RowFault> {
    let mut wrong = 0usize;
    for row in rows {
        if let Verdict::Wrong { found } = judge.judge(rt.alloc(), row)? {
            wrong = wrong.saturating_add(1);
            tell(rt, file, row.line, &found);
        }
    }
    Ok(wrong)
}

/// Judges the rows of a file, and prints which are wrong, and how many rows it has. Answers whether all are well.
///
/// # Errors
///
/// [`RowFault::NoFile`] where the file can't be read, [`RowFault::NoRow`] where a line is no row, and [`RowFault::NoMemory`].
pub fn judge_file(rt: &HostRuntime, judge: &impl Judge, file: &str) -> Result<bool, RowFault> {
    let Ok(bytes) = fs::read(rt, file) else {
        return Err(RowFault::NoFile);
    };
    let rows = read_rows(rt.alloc(), &bytes)?;
    let wrong = count_wrong(rt, judge, file, &rows);
    let all = rows.len();
    drop(rows);
    let wrong = wrong?;
    let _ = println!(rt; "{file}: {all} rows, {wrong} wrong");
    Ok(wrong == 0)
}

/// The words of the command line after the program's name.
///
/// # Errors
///
/// That no memory was found.
pub fn words(rt: &HostRuntime) -> io::Result<Vec<String>> {
    let mut words = Vec::new(rt.alloc());
    for word in env::args(rt)?.skip(1) {
        words.push(word)?;
    }
    Ok(words)
}
