//! A kernel: processes, descriptors, open file descriptions, pipes, files and one terminal.
#![tactic(auto)]

mod access;
mod changes;
mod kernel;
mod laws;
mod next;
mod watch;

pub use kernel::Kernel;
pub use laws::{
    numbers_only_grow, owned_stays_owned, requests_change_what_is_reached, requests_reach_no_more,
    the_terminal_is_reached, the_terminal_only_grows,
};
pub use next::Next;
pub use sh_kernel_descriptors::{CAPACITY, DescriptorRef, Entry, KernelFault, MAX_DESCRIPTORS};
pub use sh_kernel_processes::{FIRST_PID, MAX_LIVE, MAX_PID, Status};
pub use watch::{BlockedProcess, Cause};
