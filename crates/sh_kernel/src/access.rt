//! Which processes may read the terminal.
ghost use Rattle.std.specs.Prelude.{◌≡◌};
ghost use Rattle.sh_kernel.specs.Access.{access_of, background_access, is_ignored, is_in_background, may_not_read};

use sh_kernel_processes::{Member, Process, SignalAction, is_orphaned, member_at};
use sh_signal::Signal;

/// What the terminal does where a process reads from it (XBD 11.1.4).
#[derive(Clone, Copy)]
pub(crate) enum Access {
    /// The process gets what there is.
    Granted,
    /// The process's group, which has this number, gets SIGTTIN, and the read stays to be done.
    Raises(u32),
    /// The read fails.
    Refused,
}

/// Whether a signal that has this action is ignored.
fn is_ignored(action: SignalAction) -> bool
    ensures { result ≡ is_ignored action }
{
    match action {
        SignalAction::Default => false,
        SignalAction::Ignored => true,
        SignalAction::Caught => false,
    }
}

/// Whether the group of a process isn't the foreground group.
fn is_in_background(foreground: u32, member: &Member) -> bool
    ensures { result ≡ is_in_background foreground member.now }
{
    member.group != foreground
}

/// Whether a process of a background group fails to read.
fn may_not_read(processes: &[Process], members: &[Member], member: &Member) -> bool
    ensures { result ≡ may_not_read (record { processes = processes.now; members = members.now }) member.now }
{
    is_ignored(member.action(Signal::TerminalInput))
        || is_orphaned(processes, members, member.group)
}

/// What the terminal does where a process of a background group reads.
fn background_access(processes: &[Process], members: &[Member], member: &Member) -> Access
    ensures { result ≡ background_access (record { processes = processes.now; members = members.now }) member.now }
{
    if may_not_read(processes, members, member) {
        return Access::Refused;
    }
    Access::Raises(member.group)
}

/// What the terminal does where a process reads from it. Takes no memory.
#[tactic(auto, unfolding(crate::specs::Access::access_of))]
pub(crate) fn access_of(
    processes: &[Process],
    members: &[Member],
    foreground: u32,
    pid: u32,
) -> Access
    ensures { result ≡ access_of (record { processes = processes.now; members = members.now }) foreground pid }
{
    match member_at(members, pid) {
        Some(member) if is_in_background(foreground, &member) => {
            background_access(processes, members, &member)
        },
        Some(_) => Access::Granted,
        None => Access::Granted,
    }
}
