//! Processes as members of groups.
ghost use Rattle.std.specs.Prelude.{◌≡◌, true, false};
ghost use Rattle.sh_kernel_processes.specs.Changes.{first_member};
ghost use Rattle.sh_kernel_processes.specs.Delivery.{action_by, action_of};

use crate::set::SignalSet;
use sh_signal::Signal;

/// What a process does with a signal (XSH sigaction).
#[derive(Clone, Copy, Debug, PartialEq, Eq)]
pub enum SignalAction {
    /// The default of the signal.
    Default,
    /// Nothing.
    Ignored,
    /// It takes note of the signal, and does itself what is to be done.
    Caught,
}

/// A process that lives, with its group and its signals.
#[derive(Clone, Copy, Debug, PartialEq, Eq)]
pub struct Member {
    /// The number of the process.
    pub pid: u32,
    /// The number of its process group.
    pub group: u32,
    /// The signals that it ignores.
    pub ignored: SignalSet,
    /// The signals that it catches.
    pub caught: SignalSet,
    /// The signals that it caught and hasn't taken yet.
    pub pending: SignalSet,
    /// The signals that were sent to it while it was stopped.
    pub kept: SignalSet,
}

fn action_by(is_ignored: bool, is_caught: bool) -> SignalAction
    ensures { result ≡ action_by is_ignored is_caught }
{
    if is_ignored {
        return SignalAction::Ignored;
    }
    if is_caught {
        return SignalAction::Caught;
    }
    SignalAction::Default
}

impl Member {
    /// The first process of a session: its group is its own (XSH setsid). It ignores and catches nothing, and no signal has been sent to it.
    pub fn first(pid: u32) -> Member
        ensures { result ≡ first_member pid }
    {
        Member {
            pid,
            group: pid,
            ignored: SignalSet::new(),
            caught: SignalSet::new(),
            pending: SignalSet::new(),
            kept: SignalSet::new(),
        }
    }

    /// What the process does with a signal.
    pub fn action(&self, signal: Signal) -> SignalAction
        ensures { result ≡ action_of self.now signal }
    {
        action_by(self.ignored.has(signal), self.caught.has(signal))
    }
}
