//! Process groups.
ghost use Rattle.std.specs.Prelude.{◌≡◌, find};
ghost use Rattle.std.specs.List.{list_any};
ghost use Rattle.sh_kernel_processes.specs.Groups.{has_parent_outside, has_pid, has_stopped, is_orphaned, is_outside, is_stopped, is_stopped_in, member_at, ties};

use crate::member::Member;
use crate::{Process, Status, lives, parent_at, status_at};

/// Whether the member has this number.
pub(crate) fn has_pid(pid: u32, member: &Member) -> bool
    ensures { result ≡ has_pid pid member.now }
{
    member.pid == pid
}

/// The member with this number; `None` where no such process lives. Takes no memory.
pub fn member_at(members: &[Member], pid: u32) -> Option<Member>
    ensures { result ≡ member_at members.now pid }
{
    let mut rest = members;
    'members: while let Some((member, others)) = rest.split_first() {
        if has_pid(pid, member) {
            return Some(*member);
        }
        rest = others;
    }
    None
}

/// Whether the member is in another group.
fn is_outside(group: u32, member: Option<Member>) -> bool
    ensures { result ≡ is_outside group member }
{
    match member {
        Some(member) => member.group != group,
        None => false,
    }
}

/// Whether the parent of a process is in another group.
fn has_parent_outside(processes: &[Process], members: &[Member], group: u32, pid: u32) -> bool
    ensures { result ≡ has_parent_outside (record { processes = processes.now; members = members.now }) group pid }
{
    match parent_at(processes, pid) {
        Some(parent) => is_outside(group, member_at(members, parent)),
        None => false,
    }
}

/// Whether a member keeps the group from being orphaned.
fn ties(processes: &[Process], members: &[Member], group: u32, member: &Member) -> bool
    ensures { result ≡ ties (record { processes = processes.now; members = members.now }) group member.now }
{
    member.group == group
        && lives(processes, member.pid)
        && has_parent_outside(processes, members, group, member.pid)
}

/// Whether a member keeps the group from being orphaned, of these.
fn is_tied(processes: &[Process], members: &[Member], group: u32) -> bool
    ensures { result ≡ list_any (ties (record { processes = processes.now; members = members.now }) group) members.now }
{
    members
        .iter()
        .any(|member| ties(processes, members, group, member))
}

/// Whether a process group is orphaned (XBD chapter 3, Orphaned Process Group): the parent of each of its members is in it too, or isn't of the
/// session. A group without members is orphaned. Takes no memory.
#[tactic(auto, unfolding(crate::specs::Groups::is_orphaned))]
pub fn is_orphaned(processes: &[Process], members: &[Member], group: u32) -> bool
    ensures { result ≡ is_orphaned (record { processes = processes.now; members = members.now }) group }
{
    !is_tied(processes, members, group)
}

/// Whether a process is stopped.
pub(crate) fn is_stopped(status: Option<Status>) -> bool
    ensures { result ≡ is_stopped status }
{
    match status {
        Some(Status::Running) => false,
        Some(Status::Stopped(_)) => true,
        Some(Status::Exited(_)) => false,
        Some(Status::Signaled(_)) => false,
        None => false,
    }
}

/// Whether this is a member of the group that is stopped.
fn is_stopped_in(processes: &[Process], group: u32, member: &Member) -> bool
    ensures { result ≡ is_stopped_in processes.now group member.now }
{
    member.group == group && is_stopped(status_at(processes, member.pid))
}

/// Whether a member of the group is stopped.
#[tactic(auto, unfolding(crate::specs::Groups::has_stopped))]
pub(crate) fn has_stopped(processes: &[Process], members: &[Member], group: u32) -> bool
    ensures { result ≡ has_stopped (record { processes = processes.now; members = members.now }) group }
{
    members
        .iter()
        .any(|member| is_stopped_in(processes, group, member))
}
