//! The built-in utilities `kill`, `jobs`, `fg` and `bg` (XCU 2.11) by themselves: what they read from their arguments, what they write, and
//! what they ask of a kernel, over a table of jobs.
#![tactic(auto)]

mod command;
mod continuing;
mod job_word;
mod laws;
mod listing;
mod message;
mod names;
mod run;
mod signal_word;
mod target;

pub use command::{KillCommand, KillSend, kill_of};
pub use continuing::{BackgroundJobs, ContinuedJob, ForegroundJob, bg_of, fg_of, tell_continued};
pub use laws::{each_operand_is_served, names_and_statuses_name_signals};
pub use listing::{JobsCommand, JobsNamed, job_lines, jobs_listed, jobs_of, tell_listed};
pub use names::{signal_line, signal_lines};
pub use run::{KillAsk, KillReport, KillStep, kill_start};
pub use target::{JobControl, kill_target};
