//! What was found of processes: which live, and which can't take a turn.
ghost use Rattle.std.specs.Prelude.{◌≡◌, ◌++◌, ◌∷◌, [], OnOk};

use sh_base::NoMemory;
use sh_kernel_descriptors::DescriptorRef;
use std::alloc::Global;
use std::marker::Model;

/// Why a process can't take a turn.
#[derive(Clone, Copy, Debug, PartialEq, Eq)]
pub enum Cause {
    /// It is stopped, or has ended.
    Stopped,
    /// It would wait at a read by this descriptor.
    Reading(DescriptorRef),
    /// It would wait at a write of so many bytes by the descriptor of this number.
    Writing(u8, usize),
}

/// A process that can't take a turn (XBD chapter 3, Blocked Process), and why.
#[derive(Clone, Copy, Debug, PartialEq, Eq)]
pub struct BlockedProcess {
    /// The number of the process.
    pub pid: u32,
    /// Why it can't take one.
    pub cause: Cause,
}

/// The processes that were found to live, and those that were found to be blocked, each in the order in which they were looked at.
#[derive(Drop)]
pub(crate) struct Watch {
    living: Vec<u32>,
    blocked: Vec<BlockedProcess>,
}

impl Model for Watch {
    ghost use Rattle.sh_kernel.specs.State.{WatchKept};

    ghost Value = { WatchKept };

    ghost view = { λ w. record { living = w.living.items; blocked = w.blocked.items } };
}

impl Watch {
    /// Nothing was found. Takes no memory.
    pub(crate) fn new(alloc: Global) -> Self
        ensures { result ≡ record { living = []; blocked = [] } }
    {
        Watch {
            living: Vec::new(alloc),
            blocked: Vec::new(alloc),
        }
    }

    /// Forgets what was found. Takes no memory.
    pub(crate) fn clear(&mut self)
        ensures { self.new ≡ record { living = []; blocked = [] } }
    {
        self.living.clear();
        self.blocked.clear();
    }

    /// A process lives. The only error is want of memory.
    pub(crate) fn put_living(&mut self, pid: u32) -> Result<(), NoMemory>
        ensures { OnOk result (self.new ≡ record self.old { living = self.old.living ++ pid ∷ [] }) }
    {
        self.living.push(pid)?;
        Ok(())
    }

    /// A process is blocked. The only error is want of memory.
    pub(crate) fn put_blocked(&mut self, blocked: BlockedProcess) -> Result<(), NoMemory>
        ensures { OnOk result (self.new ≡ record self.old { blocked = self.old.blocked ++ blocked ∷ [] }) }
    {
        self.blocked.push(blocked)?;
        Ok(())
    }
}
