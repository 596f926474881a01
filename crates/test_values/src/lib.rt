//! Rows of values: lists, variables, arithmetic, patterns, fields, paths, pipes and expansions, and what they come to. Tests of `sh_base`,
//! `sh_vars`, `sh_arith`, `sh_pattern`, `sh_expand_fields`, `sh_pipe` and, over words that `sh_parse` reads, `sh_expand`.
//!
//! The function that serves a kind of row says what its fields are. The last one is what the row has to come to.
#![tactic(auto)]

mod arithmetic;
mod expansions;
mod fields;
mod lines;
mod patterns;
mod pipes;
mod sequences;
mod steps;
mod variables;
mod words;

use std::alloc::Global;
use test_rows::{Row, RowFault, by_kind};

/// What a row comes to; none where its kind isn't known, or has other fields.
type Found = Option<Result<Vec<u8>, RowFault>>;

fn found_of_arithmetic(alloc: Global, row: &Row) -> Found {
    by_kind! { row;
        "value", 2 => arithmetic::value(alloc, row.field(1));
        "nested", 5 => arithmetic::nested(alloc, row);
        "laws", 1 => arithmetic::laws(alloc);
    }
}

fn found_of_variables(alloc: Global, row: &Row) -> Found {
    let asked = row.field(1);
    by_kind! { row;
        "variables", 2 => variables::variables(alloc, asked);
        "name", 2 => variables::name(alloc, asked);
        "option", 2 => variables::option(alloc, asked);
        "options", 2 => variables::options(alloc, asked);
        "copy", 2 => variables::copy(alloc, asked);
        "memory", 2 => variables::memory(alloc, asked);
    }
}

fn found_of_lists(alloc: Global, row: &Row) -> Found {
    by_kind! { row;
        "pipe", 3 => pipes::pipe(alloc, row.field(1), row.field(2));
        "bytes", 2 => sequences::bytes(alloc, row.field(1));
        "texts", 2 => sequences::texts(alloc, row.field(1));
    }
}

fn found_of_patterns(alloc: Global, row: &Row) -> Found {
    let [pattern, text] = [row.field(1), row.field(2)];
    by_kind! { row;
        "match", 3 => patterns::is_matched(alloc, pattern, text);
        "repeated", 4 => patterns::is_repeated_matched(alloc, pattern, text, row.field(3));
        "parts", 3 => patterns::parts(alloc, pattern, text);
    }
}

fn found_of_fields(alloc: Global, row: &Row) -> Found {
    let [asked, further] = [row.field(1), row.field(2)];
    by_kind! { row;
        "fields", 3 => fields::fields(alloc, asked, further);
        "joiner", 2 => fields::joiner(alloc, asked);
        "marks", 2 => fields::marks(alloc, asked);
        "paths", 3 => fields::paths(alloc, asked, further);
        "line", 4 => lines::texts(alloc, asked, steps::number(further), row.field(3));
    }
}

fn found_of_expansions(alloc: Global, row: &Row) -> Found {
    let [asked, further] = [row.field(1), row.field(2)];
    by_kind! { row;
        "words", 4 => expansions::words(alloc, asked, further, row.field(3));
        "text", 3 => expansions::text(alloc, asked, further);
        "answered", 3 => expansions::answered_words(alloc, asked, further);
        "assigned", 3 => expansions::assigned(alloc, asked, further);
        "pattern", 2 => expansions::pattern(alloc, asked);
    }
}

/// What a row of these kinds comes to; none where its kind is another. The only fault is want of memory.
pub fn found(alloc: Global, row: &Row) -> Option<Result<Vec<u8>, RowFault>> {
    if let Some(found) = found_of_arithmetic(alloc, row) {
        return Some(found);
    }
    if let Some(found) = found_of_variables(alloc, row) {
        return Some(found);
    }
    if let Some(found) = found_of_lists(alloc, row) {
        return Some(found);
    }
    if let Some(found) = found_of_patterns(alloc, row) {
        return Some(found);
    }
    if let Some(found) = found_of_fields(alloc, row) {
        return Some(found);
    }
    found_of_expansions(alloc, row)
}
