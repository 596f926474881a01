//! What one signal does to one process.
ghost use Rattle.std.specs.Prelude.{◌≡◌, ℕ, [], ◌∷◌};
ghost use Rattle.sh_kernel_processes.specs.Delivery.{after_action, after_continuing, after_default, after_delivery, after_each_kept, after_keeping, after_kept, after_kept_by, after_signal, after_signal_by, is_same, may_stop, running_again, with_kept, with_pending};
ghost use Rattle.sh_signal.specs.Signals.{signals};

use crate::Status;
use crate::member::{Member, SignalAction};
use crate::set::SignalSet;
use sh_signal::{DefaultAction, Signal};

/// A process that a signal is sent to.
#[derive(Clone, Copy)]
pub(crate) struct Recipient {
    /// Whether it runs, is stopped or has ended.
    pub status: Status,
    /// Its group and its signals.
    pub member: Member,
}

/// Whether two signals are the same.
pub(crate) fn is_same(one: Signal, other: Signal) -> bool
    ensures { result ≡ is_same one other }
{
    one.number() == other.number()
}

/// A process that has caught a signal.
fn with_pending(to: Recipient, signal: Signal) -> Recipient
    ensures { result ≡ with_pending to signal }
{
    let mut to = to;
    to.member.pending = to.member.pending.with(signal);
    to
}

/// A process for which a signal is kept.
fn with_kept(to: Recipient, signal: Signal) -> Recipient
    ensures { result ≡ with_kept to signal }
{
    let mut to = to;
    to.member.kept = to.member.kept.with(signal);
    to
}

/// Whether a stop signal stops a process that doesn't catch or ignore it.
fn may_stop(is_orphaned: bool, signal: Signal) -> bool
    ensures { result ≡ may_stop is_orphaned signal }
{
    !is_orphaned || is_same(signal, Signal::Stop)
}

/// A process after the default action of a signal.
fn after_default(
    is_orphaned: bool,
    to: Recipient,
    signal: Signal,
    action: DefaultAction,
) -> Recipient
    ensures { result ≡ after_default is_orphaned to signal action }
{
    let mut to = to;
    match action {
        DefaultAction::End => {
            to.status = Status::Signaled(signal.number());
            to
        },
        DefaultAction::Ignore => to,
        DefaultAction::Continue => to,
        DefaultAction::Stop => {
            if may_stop(is_orphaned, signal) {
                to.status = Status::Stopped(signal.number());
            }
            to
        },
    }
}

/// A process after its action for a signal.
fn after_action(is_orphaned: bool, to: Recipient, signal: Signal, action: SignalAction) -> Recipient
    ensures { result ≡ after_action is_orphaned to signal action }
{
    match action {
        SignalAction::Default => after_default(is_orphaned, to, signal, signal.default_action()),
        SignalAction::Ignored => to,
        SignalAction::Caught => with_pending(to, signal),
    }
}

/// A process that runs, after a signal is delivered to it.
fn after_delivery(is_orphaned: bool, to: Recipient, signal: Signal) -> Recipient
    ensures { result ≡ after_delivery is_orphaned to signal }
{
    after_action(is_orphaned, to, signal, to.member.action(signal))
}

/// A process that was continued, after a signal that was kept is delivered to it.
fn after_kept(is_orphaned: bool, kept: SignalSet, to: Recipient, signal: Signal) -> Recipient
    ensures { result ≡ after_kept is_orphaned kept to signal }
{
    if !kept.has(signal) {
        return to;
    }
    match to.status {
        Status::Running => after_delivery(is_orphaned, to, signal),
        Status::Stopped(_) => to,
        Status::Exited(_) => to,
        Status::Signaled(_) => to,
    }
}

/// A process that was continued, after the signals that were kept are delivered to it.
fn after_each_kept(
    is_orphaned: bool,
    kept: SignalSet,
    signals: &[Signal],
    to: Recipient,
) -> Recipient
    ensures { result ≡ after_each_kept is_orphaned kept signals.now to }
{
    let mut to = to;
    let mut rest = signals;
    'signals: while let Some((signal, others)) = rest.split_first() {
        to = after_kept(is_orphaned, kept, to, *signal);
        rest = others;
    }
    to
}

/// A stopped process that runs again.
fn running_again(to: Recipient) -> Recipient
    ensures { result ≡ running_again to }
{
    let mut to = to;
    to.status = Status::Running;
    to.member.kept = SignalSet::new();
    to
}

/// A stopped process after CONT.
fn after_continuing(is_orphaned: bool, to: Recipient) -> Recipient
    ensures { result ≡ after_continuing is_orphaned to }
{
    let running = after_delivery(is_orphaned, running_again(to), Signal::Continue);
    after_each_kept(is_orphaned, to.member.kept, &Signal::all(), running)
}

/// A stopped process after a signal that does this by default.
fn after_keeping(
    is_orphaned: bool,
    to: Recipient,
    signal: Signal,
    action: DefaultAction,
) -> Recipient
    ensures { result ≡ after_keeping is_orphaned to signal action }
{
    match action {
        DefaultAction::End => {
            if is_same(signal, Signal::Kill) {
                let mut to = to;
                to.status = Status::Signaled(Signal::Kill.number());
                return to;
            }
            with_kept(to, signal)
        },
        DefaultAction::Ignore => with_kept(to, signal),
        DefaultAction::Continue => after_continuing(is_orphaned, to),
        DefaultAction::Stop => to,
    }
}

/// A process after a signal, where its group is orphaned or not.
pub(crate) fn after_signal(is_orphaned: bool, to: Recipient, signal: Signal) -> Recipient
    ensures { result ≡ after_signal is_orphaned to signal }
{
    match to.status {
        Status::Running => after_delivery(is_orphaned, to, signal),
        Status::Stopped(_) => after_keeping(is_orphaned, to, signal, signal.default_action()),
        Status::Exited(_) => to,
        Status::Signaled(_) => to,
    }
}
