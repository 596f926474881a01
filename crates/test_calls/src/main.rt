//! Calls and what they answer: tests of single layers, and of worlds, over their public functions.
//!
//! `test_calls LAYER FILE ..` judges each row of the files, and says which come to something else. LAYER says whose calls the rows of the files
//! behind it make, up to the next one: `reading`, `values`, `system` or `worlds`.
#![tactic(auto)]

mod worlds;

use std::alloc::Global;
use std::process::ExitCode;
use test_rows::{Judge, Row, RowFault, Verdict, judge_file, words};

/// Whose calls rows make.
#[derive(Clone, Copy)]
enum Layer {
    Reading,
    Values,
    System,
    Worlds,
}

impl Layer {
    /// The layer that a word names.
    fn of(word: &str) -> Option<Layer> {
        match word {
            "reading" => Some(Layer::Reading),
            "values" => Some(Layer::Values),
            "system" => Some(Layer::System),
            "worlds" => Some(Layer::Worlds),
            _ => None,
        }
    }

    /// What a row comes to; none where its kind isn't one of the layer's.
    fn found(self, alloc: Global, row: &Row) -> Option<Result<Vec<u8>, RowFault>> {
        match self {
            Layer::Reading => match test_reading::found(alloc, row) {
                Some(Ok(found)) => Some(Ok(found)),
                Some(Err(_)) => Some(Err(RowFault::NoMemory)),
                None => None,
            },
            Layer::Values => test_values::found(alloc, row),
            Layer::System => test_system::found(alloc, row),
            Layer::Worlds => worlds::found(alloc, row),
        }
    }

    /// What a row has to come to: of the reader's its first field, of others the last one.
    fn wanted(self, row: &Row) -> &[u8] {
        match self {
            Layer::Reading => row.field(1),
            Layer::Values | Layer::System | Layer::Worlds => row.last(),
        }
    }
}

impl Judge for Layer {
    fn judge(&self, alloc: Global, row: &Row) -> Result<Verdict, RowFault> {
        match self.found(alloc, row) {
            Some(found) => Ok(Verdict::of(found?, self.wanted(row))),
            None => Err(RowFault::NoRow { line: row.line }),
        }
    }
}

/// Judges the files that words name, each by the layer before it, and answers the program's exit status.
fn judge_all(rt: &HostRuntime, first: Layer, words: &[String]) -> u8 {
    let mut layer = first;
    let mut status = 0;
    for word in words {
        if let Some(next) = Layer::of(word.as_str()) {
            layer = next;
            continue;
        }
        match judge_file(rt, &layer, word.as_str()) {
            Ok(true) => {},
            Ok(false) => status = 1,
            Err(fault) => {
                let _ = eprintln!(rt; "{word}: {fault}");
                return 3;
            },
        }
    }
    status
}

/// Judges the rows of the files that the command line names.
fn main(rt: HostRuntime) -> ExitCode {
    let Ok(words) = words(&rt) else {
        let _ = eprintln!(rt; "test_calls: out of memory");
        return ExitCode::from(3);
    };
    let first = match words.first() {
        Some(word) => Layer::of(word.as_str()),
        None => None,
    };
    match first {
        Some(first) => ExitCode::from(judge_all(&rt, first, &words)),
        None => {
            let _ = eprintln!(rt; "usage: test_calls LAYER FILE ..");
            ExitCode::from(2)
        },
    }
}
