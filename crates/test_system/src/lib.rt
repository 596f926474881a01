//! Rows of calls and what they answer: files, a terminal and a kernel, the stock programs, what shells do by calls of a kernel, and built-ins
//! by themselves. Tests of `sh_files`, `sh_tty`, `sh_kernel`, `sh_stock`, `sh_exec_machine`, `sh_builtin_regular`,
//! `sh_builtin_environment` and `sh_signal`.
//!
//! The head of each module tells of its kinds of rows. The last field of a row is what it has to come to.
#![tactic(auto)]

mod builtins;
mod calls;
mod conditions;
mod files;
mod machine;
mod outcomes;
mod programs;
mod steps;
mod terminal;
mod traps;
mod twice;

use std::alloc::Global;
use test_rows::{Row, RowFault, by_kind};

/// What a row comes to; none where its kind isn't known, or has other fields.
type Found = Option<Result<Vec<u8>, RowFault>>;

/// What a row of the kernel's, the files' or the terminal's comes to.
fn found_of_system(alloc: Global, row: &Row) -> Found {
    let [asked, further] = [row.field(1), row.field(2)];
    by_kind! { row;
        "calls", 2 => calls::answers(alloc, asked);
        "image", 2 => files::image(alloc, asked);
        "nested", 2 => files::nested(alloc, asked);
        "large", 2 => files::large(alloc, asked);
        "files", 3 => files::answers(alloc, asked, further);
        "made", 3 => files::made(alloc, asked, further);
        "many", 3 => files::many(alloc, asked, further);
        "keys", 2 => terminal::keys(alloc, asked);
        "long", 2 => terminal::long(alloc, asked);
        "terminal", 2 => terminal::answers(alloc, asked);
        "numbers", 2 => terminal::numbers(alloc);
    }
}

/// What a row of a process comes to.
fn found_of_processes(alloc: Global, row: &Row) -> Found {
    let asked = row.field(1);
    by_kind! { row;
        "builtin", 2 => builtins::answers(alloc, asked);
        "trap", 2 => traps::answers(alloc, asked);
        "default", 2 => traps::default_action(alloc, asked);
        "test", 2 => conditions::outcome(alloc, asked);
        "machine", 2 => machine::outcome(alloc, asked);
        "name", 2 => programs::is_name(alloc, asked);
        "program", 5 => programs::notes_of(alloc, row);
        "twice", 5 => programs::notes_of(alloc, row);
    }
}

/// What a row of these kinds comes to; none where its kind is another. The only fault is want of memory.
pub fn found(alloc: Global, row: &Row) -> Option<Result<Vec<u8>, RowFault>> {
    if let Some(found) = found_of_system(alloc, row) {
        return Some(found);
    }
    found_of_processes(alloc, row)
}
