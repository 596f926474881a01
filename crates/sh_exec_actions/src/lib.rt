//! What a shell runs: the forms round the place where it acts, and the action that comes next there, with all that each needs. They are
//! values; nothing here does one. The statuses that a shell itself gives are here too (XCU 2.8.1, 2.8.2).
#![tactic(auto)]

mod action;
mod beginning;
mod boxed;
mod copying;
mod for_loop;
mod form;
mod preparing;
pub mod status;

pub use action::{
    Action, Active, Case, CaseBranch, Expanded, ExpandedCommand, Finish, ForLoop, Launch, Move,
    PipelineWait, ProgramStart, Report, Role, Stages, Substitution, ToExpand, Undo,
};
pub use beginning::Beginning;
pub use boxed::Boxed;
pub use for_loop::rest_of_series;
pub use form::{Branches, Form, Frame, Loop};
pub use preparing::{
    begin_command, failing, fatal_message, first_place, go_ahead, no_undo, not_done, perform,
    prepare,
};
pub use status::CommandStatus;
