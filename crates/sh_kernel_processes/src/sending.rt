//! Signals that are sent to processes and groups, and the end of a process.
ghost use Rattle.std.specs.Prelude.{◌≡◌, ◌==◌, ◌<◌, IfOk, IfSome, OnErr, OnOk, filter, find, length, map, position};
ghost use Rattle.std.specs.List.{list_any};
ghost use Rattle.sh_kernel_processes.specs.Groups.{ProcessTable, has_pid};
ghost use Rattle.sh_kernel_processes.specs.Sending.{after_end, after_hang_up, after_hang_ups, after_notice, after_orphaning, after_receipt, after_send, after_signal_to, after_signal_to_each, groups_at_risk, is_abandoned, is_alive, is_at_risk, is_news, is_reached, members_left, pids_of, reaches, stays, with_exit, with_member, with_recipient};

use crate::delivery::{Recipient, after_signal};
use crate::groups::{has_pid, has_stopped, is_orphaned, is_stopped, member_at};
use crate::member::Member;
use crate::target::SignalTarget;
use crate::{Process, ProcessList, Status, is_running, lives, parent_at, status_at};
use sh_base::NoMemory;
use sh_signal::Signal;
use std::alloc::Global;

/// The place of the member with this number.
fn place_of(members: &[Member], pid: u32) -> Option<usize>
    ensures place { result ≡ position (has_pid pid) members.now }
    ensures within { IfSome result (λ i. i < length members.now) }
{
    members.iter().position(|member| has_pid(pid, member))
}

/// Puts a member in the place of the one with its number.
pub(crate) fn put_member(members: &mut Vec<Member>, member: Member)
    ensures { members.new.items ≡ with_member members.old.items member }
{
    if let Some(place) = place_of(members.as_slice(), member.pid) {
        members[place] = member;
    }
}

/// Puts a process back to which a signal was sent.
fn put_recipient(processes: &mut ProcessList, members: &mut Vec<Member>, to: Recipient)
    ensures { record { processes = processes.new.all; members = members.new.items }
        ≡ with_recipient (record { processes = processes.old.all; members = members.old.items }) to }
{
    processes.set_status(to.member.pid, to.status);
    put_member(members, to.member);
}

/// A process receives a signal.
#[tactic(auto, unfolding(crate::specs::Sending::after_receipt))]
fn receive(processes: &mut ProcessList, members: &mut Vec<Member>, signal: Signal, pid: u32)
    ensures { record { processes = processes.new.all; members = members.new.items }
        ≡ after_receipt (record { processes = processes.old.all; members = members.old.items }) signal pid }
{
    let Some(status) = status_at(processes.as_slice(), pid) else {
        return;
    };
    let Some(member) = member_at(members.as_slice(), pid) else {
        return;
    };
    let is_orphaned = is_orphaned(processes.as_slice(), members.as_slice(), member.group);
    let after = after_signal(is_orphaned, Recipient { status, member }, signal);
    put_recipient(processes, members, after);
}

/// Whether a process lives that has this status.
fn is_alive(status: Option<Status>) -> bool
    ensures { result ≡ is_alive status }
{
    match status {
        Some(Status::Running) => true,
        Some(Status::Stopped(_)) => true,
        Some(Status::Exited(_)) => false,
        Some(Status::Signaled(_)) => false,
        None => false,
    }
}

/// Whether a process has ended or stopped meanwhile.
fn is_news(before: Option<Status>, after: Option<Status>) -> bool
    ensures { result ≡ is_news before after }
{
    is_alive(before) && !is_alive(after) || is_running(before) && !is_running(after)
}

/// Tells the parent of a process, if that has ended or stopped since it had this status.
#[tactic(auto, unfolding(crate::specs::Sending::after_notice))]
fn tell_parent(
    processes: &mut ProcessList,
    members: &mut Vec<Member>,
    pid: u32,
    before: Option<Status>,
)
    ensures { record { processes = processes.new.all; members = members.new.items }
        ≡ after_notice (record { processes = processes.old.all; members = members.old.items }) pid before }
{
    if !is_news(before, status_at(processes.as_slice(), pid)) {
        return;
    }
    if let Some(parent) = parent_at(processes.as_slice(), pid) {
        receive(processes, members, Signal::Child, parent);
    }
}

/// Sends a signal to a process.
#[tactic(auto, unfolding(crate::specs::Sending::after_signal_to))]
fn send_to(processes: &mut ProcessList, members: &mut Vec<Member>, signal: Signal, pid: u32)
    ensures { record { processes = processes.new.all; members = members.new.items }
        ≡ after_signal_to (record { processes = processes.old.all; members = members.old.items }) signal pid }
{
    let before = status_at(processes.as_slice(), pid);
    receive(processes, members, signal, pid);
    tell_parent(processes, members, pid, before);
}

/// Whether a number is one of these.
fn is_one_of(pids: &[u32], pid: u32) -> bool
    ensures { result ≡ list_any (λ other. pid == other) pids.now }
{
    pids.iter().any(|other| pid == *other)
}

/// Whether a signal reaches a member.
fn reaches(to: &SignalTarget, member: &Member) -> bool
    ensures { result ≡ reaches to.now member.now }
{
    match to {
        SignalTarget::Process(pid) => member.pid == *pid,
        SignalTarget::Group(group) => member.group == *group,
        SignalTarget::Processes(pids) => is_one_of(pids.as_slice(), member.pid),
    }
}

/// Whether a signal reaches the process of a number.
fn is_reached(to: &SignalTarget, member: Option<Member>) -> bool
    ensures { result ≡ is_reached to.now member }
{
    match member {
        Some(member) => reaches(to, &member),
        None => false,
    }
}

/// Sends a signal to those of these processes that it reaches.
fn send_each(
    processes: &mut ProcessList,
    members: &mut Vec<Member>,
    to: &SignalTarget,
    signal: Signal,
    pids: &[u32],
)
    ensures { record { processes = processes.new.all; members = members.new.items }
        ≡ after_signal_to_each (record { processes = processes.old.all; members = members.old.items }) to.now signal pids.now }
{
    let mut rest = pids;
    'pids: while let Some((pid, others)) = rest.split_first() {
        if is_reached(to, member_at(members.as_slice(), *pid)) {
            send_to(processes, members, signal, *pid);
        }
        rest = others;
    }
}

/// The numbers of these members, in their order. The only error is want of memory.
pub fn pids_of(alloc: Global, members: &[Member]) -> Result<Vec<u32>, NoMemory>
    ensures { IfOk result (λ pids. pids.items ≡ pids_of members.now) }
{
    Ok(members.iter().map(|member| member.pid).collect(alloc)?)
}

/// Whether the end of another process may orphan the group of this stopped member.
fn is_at_risk(processes: &[Process], members: &[Member], member: &Member) -> bool
    ensures { result ≡ is_at_risk (record { processes = processes.now; members = members.now }) member.now }
{
    is_stopped(status_at(processes, member.pid)) && !is_orphaned(processes, members, member.group)
}

/// The groups that a signal, or the end of a process, may leave orphaned with a stopped member: those of stopped members, which aren't
/// orphaned yet. The only error is want of memory.
pub fn groups_at_risk(
    alloc: Global,
    processes: &[Process],
    members: &[Member],
) -> Result<Vec<u32>, NoMemory>
    ensures { IfOk result (λ groups.
        groups.items ≡ groups_at_risk (record { processes = processes.now; members = members.now })) }
{
    Ok(
        members
            .iter()
            .filter(|member| is_at_risk(processes, members, member))
            .map(|member| member.group)
            .collect(alloc)?,
    )
}

/// Whether a group is orphaned and has a stopped member.
fn is_abandoned(processes: &[Process], members: &[Member], group: u32) -> bool
    ensures { result ≡ is_abandoned (record { processes = processes.now; members = members.now }) group }
{
    is_orphaned(processes, members, group) && has_stopped(processes, members, group)
}

/// The first of these groups that is orphaned and has a stopped member.
fn first_abandoned(processes: &[Process], members: &[Member], groups: &[u32]) -> Option<u32>
    ensures { result ≡ find (is_abandoned (record { processes = processes.now; members = members.now })) groups.now }
{
    let mut rest = groups;
    'groups: while let Some((group, others)) = rest.split_first() {
        if is_abandoned(processes, members, *group) {
            return Some(*group);
        }
        rest = others;
    }
    None
}

/// Sends HUP and then CONT to a group.
#[tactic(auto, unfolding(crate::specs::Sending::after_hang_up))]
fn hang_up(processes: &mut ProcessList, members: &mut Vec<Member>, pids: &[u32], group: u32)
    ensures { record { processes = processes.new.all; members = members.new.items }
        ≡ after_hang_up (record { processes = processes.old.all; members = members.old.items }) pids.now group }
{
    let to = SignalTarget::Group(group);
    send_each(processes, members, &to, Signal::Hangup, pids);
    send_each(processes, members, &to, Signal::Continue, pids);
}

/// Hangs up the groups that are orphaned now.
fn hang_up_each(
    processes: &mut ProcessList,
    members: &mut Vec<Member>,
    pids: &[u32],
    at_risk: &[u32],
)
    ensures { record { processes = processes.new.all; members = members.new.items }
        ≡ after_hang_ups (record { processes = processes.old.all; members = members.old.items }) pids.now at_risk.now at_risk.now }
{
    let mut at_most = at_risk;
    'groups: while let Some((_, others)) = at_most.split_first() {
        let Some(group) = first_abandoned(processes.as_slice(), members.as_slice(), at_risk) else {
            return;
        };
        hang_up(processes, members, pids, group);
        at_most = others;
    }
}

/// Whether a member lives.
fn stays(processes: &[Process], member: &Member) -> bool
    ensures { result ≡ stays processes.now member.now }
{
    lives(processes, member.pid)
}

/// Takes the members away that have ended.
fn leave(processes: &[Process], members: &mut Vec<Member>)
    ensures { members.new.items ≡ members_left (record { processes = processes.now; members = members.old.items }) }
{
    members.retain(|member| stays(processes, member));
}

/// What signals have left behind: groups that they orphaned, and processes that have ended.
#[tactic(auto, unfolding(crate::specs::Sending::after_orphaning))]
fn settle(processes: &mut ProcessList, members: &mut Vec<Member>, pids: &[u32], at_risk: &[u32])
    ensures { record { processes = processes.new.all; members = members.new.items }
        ≡ after_orphaning (record { processes = processes.old.all; members = members.old.items }) pids.now at_risk.now }
{
    hang_up_each(processes, members, pids, at_risk);
    leave(processes.as_slice(), members);
}

/// Whether a signal would reach a process that lives. Takes no memory.
pub fn is_any_reached(members: &[Member], to: &SignalTarget) -> bool
    ensures { result ≡ list_any (reaches to.now) members.now }
{
    members.iter().any(|member| reaches(to, member))
}

/// Sends a signal as [`send`] does, where the numbers of the members and the groups at risk were found before. Takes no memory.
#[tactic(auto, unfolding(crate::specs::Sending::after_send))]
pub fn send_prepared(
    processes: &mut ProcessList,
    members: &mut Vec<Member>,
    to: &SignalTarget,
    signal: Signal,
    pids: &[u32],
    at_risk: &[u32],
)
    requires { (pids.now ≡ pids_of members.old.items)
        × (at_risk.now ≡ groups_at_risk (record { processes = processes.old.all; members = members.old.items })) }
    ensures { record { processes = processes.new.all; members = members.new.items }
        ≡ after_send (record { processes = processes.old.all; members = members.old.items }) to.now signal }
{
    send_each(processes, members, to, signal, pids);
    settle(processes, members, pids, at_risk);
}

/// Sends a signal to all processes that it reaches (XSH kill), in the order of the members (`add_fork` puts a new one behind the others,
/// so that is the order of their numbers). A parent gets CHLD where a process ends or stops. Where this leaves a group orphaned that has a
/// stopped member, each of its members gets HUP, and then CONT (XSH _exit). Members that have ended leave the list. The only error is want
/// of memory, after which nothing has changed.
pub fn send(
    alloc: Global,
    processes: &mut ProcessList,
    members: &mut Vec<Member>,
    to: &SignalTarget,
    signal: Signal,
) -> Result<(), NoMemory>
    ensures ok { OnOk result (record { processes = processes.new.all; members = members.new.items }
        ≡ after_send (record { processes = processes.old.all; members = members.old.items }) to.now signal) }
    ensures processes { OnErr result (processes.new.all ≡ processes.old.all) }
    ensures members { OnErr result (members.new.items ≡ members.old.items) }
{
    let pids = pids_of(alloc, members.as_slice())?;
    let at_risk = groups_at_risk(alloc, processes.as_slice(), members.as_slice())?;
    send_prepared(
        processes,
        members,
        to,
        signal,
        pids.as_slice(),
        at_risk.as_slice(),
    );
    Ok(())
}

/// A process ends by itself, and its parent gets CHLD.
fn exit(processes: &mut ProcessList, members: &mut Vec<Member>, pid: u32, status: u8)
    ensures { record { processes = processes.new.all; members = members.new.items }
        ≡ with_exit (record { processes = processes.old.all; members = members.old.items }) pid status }
{
    let before = status_at(processes.as_slice(), pid);
    processes.set_status(pid, Status::Exited(status));
    tell_parent(processes, members, pid, before);
}

/// A process ends by itself, with an exit status (XSH _exit): its parent gets CHLD. Where this leaves a group orphaned that has a stopped
/// member, each of its members gets HUP, and then CONT. Members that have ended leave the list. The only error is want of memory, after
/// which nothing has changed.
#[tactic(auto, unfolding(crate::specs::Sending::after_end))]
pub fn end(
    alloc: Global,
    processes: &mut ProcessList,
    members: &mut Vec<Member>,
    pid: u32,
    status: u8,
) -> Result<(), NoMemory>
    ensures ok { OnOk result (record { processes = processes.new.all; members = members.new.items }
        ≡ after_end (record { processes = processes.old.all; members = members.old.items }) pid status) }
    ensures processes { OnErr result (processes.new.all ≡ processes.old.all) }
    ensures members { OnErr result (members.new.items ≡ members.old.items) }
{
    let pids = pids_of(alloc, members.as_slice())?;
    let at_risk = groups_at_risk(alloc, processes.as_slice(), members.as_slice())?;
    exit(processes, members, pid, status);
    settle(processes, members, pids.as_slice(), at_risk.as_slice());
    Ok(())
}
