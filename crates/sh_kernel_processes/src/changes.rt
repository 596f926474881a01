//! What a process changes of its signals and its group.
ghost use Rattle.std.specs.Prelude.{◌≡◌, OnErr, OnOk};
ghost use Rattle.sh_kernel_processes.specs.Changes.{after_start, after_taking, is_fixed, new_member, next_pending, with_action, with_action_by, with_change, with_fork, with_group};
ghost use Rattle.sh_kernel_processes.specs.Groups.{member_at};
ghost use Rattle.sh_kernel_processes.specs.Sets.{lowest};

use crate::delivery::is_same;
use crate::groups::member_at;
use crate::member::{Member, SignalAction};
use crate::sending::put_member;
use crate::set::SignalSet;
use sh_base::NoMemory;
use sh_signal::Signal;

/// Whether a signal can be neither caught nor ignored.
fn is_fixed(signal: Signal) -> bool
    ensures { result ≡ is_fixed signal }
{
    is_same(signal, Signal::Kill) || is_same(signal, Signal::Stop)
}

/// A member that has this action for a signal.
fn with_action_by(member: Member, signal: Signal, action: SignalAction) -> Member
    ensures { result ≡ with_action_by member signal action }
{
    match action {
        SignalAction::Default => Member {
            ignored: member.ignored.without(signal),
            caught: member.caught.without(signal),
            pending: member.pending.without(signal),
            ..member
        },
        SignalAction::Ignored => Member {
            ignored: member.ignored.with(signal),
            caught: member.caught.without(signal),
            pending: member.pending.without(signal),
            ..member
        },
        SignalAction::Caught => Member {
            ignored: member.ignored.without(signal),
            caught: member.caught.with(signal),
            ..member
        },
    }
}

/// A member that has this action for a signal, where that may be.
fn with_action(member: Member, signal: Signal, action: SignalAction) -> Member
    ensures { result ≡ with_action member signal action }
{
    if is_fixed(signal) {
        return member;
    }
    with_action_by(member, signal, action)
}

/// Sets what a process does with a signal (XSH sigaction). KILL and STOP can't be caught or ignored: nothing changes then, nor where no
/// such process lives. A signal that isn't caught any more isn't pending either. Takes no memory.
pub fn set_action(members: &mut Vec<Member>, pid: u32, signal: Signal, action: SignalAction)
    ensures { members.new.items ≡ with_change members.old.items pid (λ m. with_action m signal action) }
{
    if let Some(member) = member_at(members.as_slice(), pid) {
        put_member(members, with_action(member, signal, action));
    }
}

/// The signal that a process caught and hasn't taken yet, the lowest number first, is taken; `None` where there is none. Takes no memory.
pub fn take_signal(members: &mut Vec<Member>, pid: u32) -> Option<Signal>
    ensures taken { result ≡ next_pending members.old.items pid }
    ensures left { members.new.items ≡ after_taking members.old.items pid }
{
    let Some(member) = member_at(members.as_slice(), pid) else {
        return None;
    };
    let Some(signal) = member.pending.lowest() else {
        return None;
    };
    put_member(
        members,
        Member {
            pending: member.pending.without(signal),
            ..member
        },
    );
    Some(signal)
}

/// Puts a process into a group (XSH setpgid). Nothing changes where no such process lives. Takes no memory.
pub fn set_group(members: &mut Vec<Member>, pid: u32, group: u32)
    ensures { members.new.items ≡ with_change members.old.items pid (λ m. with_group m group) }
{
    if let Some(member) = member_at(members.as_slice(), pid) {
        put_member(members, Member { group, ..member });
    }
}

/// A process starts a program (XSH exec): what it caught has its default action, what it ignored is ignored. Takes no memory.
pub fn start_program(members: &mut Vec<Member>, pid: u32)
    ensures { members.new.items ≡ with_change members.old.items pid after_start }
{
    if let Some(member) = member_at(members.as_slice(), pid) {
        put_member(
            members,
            Member {
                caught: SignalSet::new(),
                pending: SignalSet::new(),
                ..member
            },
        );
    }
}

/// The process that a process makes (XSH fork): it is in the same group, and ignores the same signals. What its maker catches has the
/// default action, as in a subshell (XCU 2.13). No signal has been sent to it.
pub fn new_member(member: Member, child: u32) -> Member
    ensures { result ≡ new_member member child }
{
    Member {
        group: member.group,
        ignored: member.ignored,
        ..Member::first(child)
    }
}

/// Adds the process that a process makes, as [`new_member`] has it, behind the others (XSH fork). Nothing changes where no such maker lives.
/// The only error is want of memory, after which nothing has changed.
pub fn add_fork(members: &mut Vec<Member>, pid: u32, child: u32) -> Result<(), NoMemory>
    ensures ok { OnOk result (members.new.items ≡ with_fork members.old.items pid child) }
    ensures err { OnErr result (members.new.items ≡ members.old.items) }
{
    if let Some(member) = member_at(members.as_slice(), pid) {
        members.push(new_member(member, child))?;
    }
    Ok(())
}
