//! What a run comes to.
ghost use Rattle.std.specs.Prelude.{◌≡◌, ◌↔◌, IsTrue};

use sh_base::sequence::{Sequence, Text};
use sh_kernel_processes::Status;
use sh_world::TurnAction;

/// How a run ends.
#[derive(Clone, Copy, Debug, PartialEq, Eq)]
pub enum Ending {
    /// No process can take a turn, and the first shell has ended.
    Ended,
    /// No process can take a turn, and the first shell has not ended: each process waits for another, or for what never comes.
    Stuck,
    /// A process can take a turn, but there were as many turns as may be.
    Cut,
}

/// A process that waits where no process can take a turn.
#[derive(Clone, Copy, Debug, PartialEq, Eq)]
pub struct Waiter {
    /// Its number.
    pub pid: u32,
    /// What it is about to do once it can.
    pub action: Option<TurnAction>,
}

/// What can be seen after a run.
#[derive(Drop)]
pub struct Outcome {
    /// The terminal's bytes.
    pub terminal: Text,
    /// The image of the files, as `Files::write_image` of `sh_files` gives it.
    pub image: Text,
    /// The status of each process that ever was, in order of their numbers, the first shell's first.
    pub statuses: Sequence<Status>,
    /// How the run ended.
    pub ending: Ending,
    /// Where the run is stuck, each process that lives, in the order of their numbers, and what it is about to do; else none.
    pub waiters: Sequence<Waiter>,
}

/// Whether bytes are the same.
fn are_bytes(left: &[u8], right: &[u8]) -> bool
    ensures { IsTrue result ↔ (left.now ≡ right.now) }
{
    left == right
}

/// Whether two statuses are the same.
fn is_status(left: Status, right: Status) -> bool
    ensures { IsTrue result ↔ (left ≡ right) }
{
    left == right
}

/// Whether statuses are the same.
fn are_statuses(left: &[Status], right: &[Status]) -> bool
    ensures { IsTrue result ↔ (left.now ≡ right.now) }
{
    let mut lefts = left;
    let mut rights = right;
    'statuses: while let Some((one, more)) = lefts.split_first() {
        let Some((other, others)) = rights.split_first() else {
            return false;
        };
        if !is_status(*one, *other) {
            return false;
        }
        lefts = more;
        rights = others;
    }
    rights.is_empty()
}

/// Whether two processes that wait are the same, and about to do the same.
fn is_waiter(left: Waiter, right: Waiter) -> bool
    ensures { IsTrue result ↔ (left ≡ right) }
{
    left == right
}

/// Whether the same processes are about to do the same.
fn are_waiters(left: &[Waiter], right: &[Waiter]) -> bool
    ensures { IsTrue result ↔ (left.now ≡ right.now) }
{
    let mut lefts = left;
    let mut rights = right;
    'waiters: while let Some((one, more)) = lefts.split_first() {
        let Some((other, others)) = rights.split_first() else {
            return false;
        };
        if !is_waiter(*one, *other) {
            return false;
        }
        lefts = more;
        rights = others;
    }
    rights.is_empty()
}

/// Whether runs end in the same way.
fn is_ending(left: Ending, right: Ending) -> bool
    ensures { IsTrue result ↔ (left ≡ right) }
{
    left == right
}

impl Outcome {
    /// Whether two runs come to the same.
    pub fn is_same(&self, other: &Outcome) -> bool
        ensures { IsTrue result ↔ (self.now ≡ other.now) }
    {
        if !is_ending(self.ending, other.ending) {
            return false;
        }
        if !are_statuses(self.statuses.as_slice(), other.statuses.as_slice()) {
            return false;
        }
        if !are_waiters(self.waiters.as_slice(), other.waiters.as_slice()) {
            return false;
        }
        if !are_bytes(self.terminal.as_slice(), other.terminal.as_slice()) {
            return false;
        }
        are_bytes(self.image.as_slice(), other.image.as_slice())
    }
}
