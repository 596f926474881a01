//! The parts of a kernel that processes share: descriptors in tables, open file descriptions by key, and pipes by number.
#![tactic(auto)]

mod channel;
mod closing;
mod copying;
mod description;
mod descriptor;
mod fault;
mod kept;
mod naming;
mod opening;
mod reading;
mod waiting;
mod writing;

pub use channel::{CAPACITY, Channel};
pub use closing::{close, find, has_reader, has_writer, pipe_named};
pub use copying::{copy_table, share_copies};
pub use description::{Description, Target};
pub use descriptor::{Closing, Descriptor, DescriptorRef};
pub use fault::{KernelFault, fault_of_file};
pub use kept::{Entry, Held, described, may_share, move_to};
pub use naming::{MAX_DESCRIPTORS, add, add_pipe, is_allowed, is_description, refer, rename};
pub use opening::{description_of, is_of_terminal, target_of, the_terminal, to_terminal};
pub use reading::{read_file, read_pipe};
pub use waiting::{read_pipe_waits, write_pipe_waits};
pub use writing::{write_node, write_pipe, write_start};
