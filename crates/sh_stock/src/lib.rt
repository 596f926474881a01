//! The stock programs of a modelled machine, and which of them are filters.
//!
//! A program is a state machine: each turn takes the answer to its last ask and gives its next ask. [`Stock`]
//! is what a machine needs to know of a kind of program, and [`Filter`] what a proof about pipelines needs to
//! know: a filter's output and status are functions of its input alone, however the input is cut into reads.
//! [`Program`] has the programs `cat`, `echo`, `true`, `false`, `yes`, `spin`, `head`, `having`, `count` and
//! `readstop`; `specs/Programs.antt` is the table of their turns, and `specs/Filters.antt` says which are
//! filters.
#![tactic(auto)]

mod asking;
mod copying;
mod laws;
mod lines;
mod name;
mod program;
mod start;
mod stock;

pub use asking::{Answer, Ask, Turn};
pub use copying::CopyStock;
pub use laws::laws_of_lines;
pub use program::{Program, Search};
pub use sh_base::sequence::Text;
pub use stock::{Filter, Stock};
