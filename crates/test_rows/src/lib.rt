//! Rows of tests: each is a line of a file that a program reads, with what is asked and what has to be the
//! answer.
//!
//! A program of rows implements [`Judge`] and hands each of its files to [`judge_file`]. A row costs no proof; a
//! call in a test does. Rows of a small grammar are judged here too, by [`word_grammar`].
#![tactic(auto)]

pub mod fields;
mod report;
mod row;
pub mod show;
pub mod word_grammar;

pub use crate::report::{Judge, Verdict, judge_file, words};
pub use crate::row::{Row, RowFault, read_rows};
