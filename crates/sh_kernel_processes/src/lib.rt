//! The processes of a kernel: all that ever were, by their numbers, each with its maker and its status; and the signals of those that live
//! and of their groups (XSH 2.4): what a signal does to a process, to a group, and to a group that the end of a process orphans.
#![tactic(auto)]

mod changes;
mod delivery;
mod groups;
mod laws;
mod member;
mod process;
mod process_list;
mod processes;
mod sending;
mod set;
mod target;

pub use changes::{add_fork, new_member, set_action, set_group, start_program, take_signal};
pub use groups::{is_orphaned, member_at};
pub use laws::signals_change_only_statuses;
pub use member::{Member, SignalAction};
pub use process::{Process, Status};
pub use process_list::ProcessList;
pub use processes::{
    FIRST_PID, MAX_LIVE, MAX_PID, all_children, all_ended, has_ended, is_running, lives, parent_at,
    status_at,
};
pub use sending::{end, groups_at_risk, is_any_reached, pids_of, send, send_prepared};
pub use set::SignalSet;
pub use target::SignalTarget;
