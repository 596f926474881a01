//! The signals of a shell's process.
ghost use Rattle.std.specs.Prelude.{◌≡◌, [], OnOk, option_map};
ghost use Rattle.sh_builtin_environment.specs.TrapMaps.{action_of};
ghost use Rattle.sh_exec_signals.specs.Signals.{after_drop, after_own_signals, after_release, after_releases, after_start_of, after_trap_in, after_trap_set, after_traps, after_traps_in, interactive_action, is_dropping, is_interrupt, is_interrupt_next, is_interrupt_pending, own_action, own_ignored, own_signals, pending_action, pending_signal, released_action, signal_action};
ghost use Rattle.sh_kernel.specs.State.{KernelState, StandsAt};
ghost use Rattle.sh_signal.specs.declared.condition.Condition.TheVariants as condition;

use sh_base::NoMemory;
use sh_builtin_shell::Shell;
use sh_kernel::Kernel;
use sh_kernel_processes::{SignalAction, SignalSet};
use sh_signal::{Condition, Signal};

/// What an interactive shell does by itself with a signal.
fn interactive_action(control: bool, signal: Signal) -> SignalAction
    ensures { result ≡ interactive_action control signal }
{
    match signal {
        Signal::Interrupt => SignalAction::Caught,
        Signal::Quit | Signal::Terminate => SignalAction::Ignored,
        Signal::TerminalStop | Signal::TerminalInput | Signal::TerminalOutput => {
            if control {
                SignalAction::Ignored
            } else {
                SignalAction::Default
            }
        },
        Signal::Hangup
        | Signal::Abort
        | Signal::Kill
        | Signal::User1
        | Signal::User2
        | Signal::Pipe
        | Signal::Alarm
        | Signal::Child
        | Signal::Continue
        | Signal::Stop => SignalAction::Default,
    }
}

/// What a shell does by itself with a signal on which it has no trap.
fn own_action(shell: &Shell, signal: Signal) -> SignalAction
    ensures { result ≡ own_action shell.now signal }
{
    if shell.is_interactive() {
        return interactive_action(shell.has_job_control(), signal);
    }
    SignalAction::Default
}

/// What a process does with a signal whose trap has this action.
fn signal_action(own: SignalAction, action: Option<&[u8]>) -> SignalAction
    ensures { result ≡ signal_action own (option_map (λ action. action.now) action.entry) }
{
    match action {
        Some([]) => SignalAction::Ignored,
        Some([_, ..]) => SignalAction::Caught,
        None => own,
    }
}

/// The trap of a signal may have been set.
fn set_action(kernel: &mut Kernel, shell: &Shell, set: SignalSet, signal: Signal)
    ensures state { (s : KernelState) → StandsAt kernel.old s
        → StandsAt kernel.new (after_trap_in set s shell.now signal) }
    ensures terminal { kernel.new.terminal ≡ kernel.old.terminal }
    ensures watch { kernel.new.watch ≡ kernel.old.watch }
{
    if set.has(signal) {
        let own = own_action(shell, signal);
        let action = signal_action(own, shell.traps.action(Condition::Caught(signal)));
        kernel.set_action(shell.pid, signal, action);
    }
}

/// The traps of those of these signals that are in a set were set.
#[tactic(auto, using(crate::proofs::Heeding::begins, crate::proofs::Heeding::ends))]
fn set_actions(kernel: &mut Kernel, shell: &Shell, set: SignalSet, signals: &[Signal])
    ensures state { (s : KernelState) → StandsAt kernel.old s
        → StandsAt kernel.new (after_traps_in set s shell.now signals.now) }
    ensures terminal { kernel.new.terminal ≡ kernel.old.terminal }
    ensures watch { kernel.new.watch ≡ kernel.old.watch }
{
    let mut rest = signals;
    'signals: while let Some((signal, others)) = rest.split_first() {
        set_action(kernel, shell, set, *signal);
        rest = others;
    }
}

/// The traps of these signals were set in a shell: its process catches those with an action, and ignores those with an empty one (XCU 2.15
/// trap). Without a trap an interactive shell catches INT, and ignores QUIT and TERM, and with job control TSTP, TTIN and TTOU (2.11); any
/// other has the default. Takes no memory.
#[tactic(auto, unfolding(crate::specs::Signals::after_traps))]
pub fn heed_traps(kernel: &mut Kernel, shell: &Shell, set: SignalSet)
    ensures state { (s : KernelState) → StandsAt kernel.old s
        → StandsAt kernel.new (after_traps s shell.now set) }
    ensures terminal { kernel.new.terminal ≡ kernel.old.terminal }
    ensures watch { kernel.new.watch ≡ kernel.old.watch }
{
    set_actions(kernel, shell, set, &Signal::all());
}

/// The signals with which an interactive shell may do something by itself.
fn own_signals() -> SignalSet
    ensures { result ≡ own_signals }
{
    SignalSet::new()
        .with(Signal::Interrupt)
        .with(Signal::Quit)
        .with(Signal::Terminate)
        .with(Signal::TerminalStop)
        .with(Signal::TerminalInput)
        .with(Signal::TerminalOutput)
}

/// An interactive shell starts: it catches INT, and ignores QUIT and TERM, and with job control TSTP, TTIN and TTOU (XCU 2.11). Takes no memory.
pub fn heed_own_signals(kernel: &mut Kernel, shell: &Shell)
    ensures state { (s : KernelState) → StandsAt kernel.old s
        → StandsAt kernel.new (after_start_of s shell.now) }
    ensures terminal { kernel.new.terminal ≡ kernel.old.terminal }
    ensures watch { kernel.new.watch ≡ kernel.old.watch }
{
    heed_traps(kernel, shell, own_signals());
}

/// What a process that a shell has made does with a signal whose trap has this action in the shell.
fn released_action(action: Option<&[u8]>) -> SignalAction
    ensures { result ≡ released_action (option_map (λ action. action.now) action.entry) }
{
    match action {
        Some([]) => SignalAction::Ignored,
        Some([_, ..]) => SignalAction::Default,
        None => SignalAction::Default,
    }
}

/// A process ignores a signal only where the shell that has made it ignores that by a trap.
fn release(kernel: &mut Kernel, shell: &Shell, pid: u32, signal: Signal)
    ensures state { (s : KernelState) → StandsAt kernel.old s
        → StandsAt kernel.new (after_release s shell.now pid signal) }
    ensures terminal { kernel.new.terminal ≡ kernel.old.terminal }
    ensures watch { kernel.new.watch ≡ kernel.old.watch }
{
    let action = released_action(shell.traps.action(Condition::Caught(signal)));
    kernel.set_action(pid, signal, action);
}

/// The same of all signals that an interactive shell may ignore by itself.
fn release_all(kernel: &mut Kernel, shell: &Shell, pid: u32)
    ensures state { (s : KernelState) → StandsAt kernel.old s
        → StandsAt kernel.new (after_releases s shell.now pid own_ignored) }
    ensures terminal { kernel.new.terminal ≡ kernel.old.terminal }
    ensures watch { kernel.new.watch ≡ kernel.old.watch }
{
    release(kernel, shell, pid, Signal::Quit);
    release(kernel, shell, pid, Signal::Terminate);
    release(kernel, shell, pid, Signal::TerminalStop);
    release(kernel, shell, pid, Signal::TerminalInput);
    release(kernel, shell, pid, Signal::TerminalOutput);
}

/// A process that an interactive shell has made, or in which a program takes its place, doesn't ignore what the shell ignored by itself (XCU 2.11).
/// What it ignores by a trap stays ignored. Takes no memory.
pub fn release_own_signals(kernel: &mut Kernel, shell: &Shell, pid: u32)
    ensures state { (s : KernelState) → StandsAt kernel.old s
        → StandsAt kernel.new (after_own_signals s shell.now pid) }
    ensures terminal { kernel.new.terminal ≡ kernel.old.terminal }
    ensures watch { kernel.new.watch ≡ kernel.old.watch }
{
    if shell.is_interactive() {
        release_all(kernel, shell, pid);
    }
}

/// The signal that the shell has caught, and for which it hasn't done its action; of several the one with the lowest number. Takes no memory.
pub fn pending_signal(kernel: &Kernel, shell: &Shell) -> Option<Signal>
    ensures { (s : KernelState) → StandsAt kernel.now s → result ≡ pending_signal s shell.now }
{
    match kernel.member(shell.pid) {
        Some(member) => member.pending.lowest(),
        None => None,
    }
}

/// The action that the shell does for that signal, if it has one. Takes no memory.
#[tactic(auto, unfolding(crate::specs::Signals::pending_action))]
pub fn pending_action<'a>(kernel: &Kernel, shell: &'a Shell) -> Option<&'a [u8]>
    ensures { (s : KernelState) → StandsAt kernel.now s
        → option_map (λ action. action.now) result ≡ pending_action s shell.now }
{
    match pending_signal(kernel, shell) {
        Some(signal) => shell.traps.action(Condition::Caught(signal)),
        None => None,
    }
}

/// Whether INT is pending.
fn is_interrupt_pending(kernel: &Kernel, shell: &Shell) -> bool
    ensures { (s : KernelState) → StandsAt kernel.now s → result ≡ is_interrupt_pending s shell.now }
{
    match kernel.member(shell.pid) {
        Some(member) => member.pending.has(Signal::Interrupt),
        None => false,
    }
}

/// Whether an interactive shell is to drop what it does, since INT has come and it has no trap on it (XCU sh, "ASYNCHRONOUS EVENTS"). Takes no memory.
pub fn is_dropping(kernel: &Kernel, shell: &Shell) -> bool
    ensures { (s : KernelState) → StandsAt kernel.now s → result ≡ is_dropping s shell.now }
{
    if !shell.is_interactive() || !is_interrupt_pending(kernel, shell) {
        return false;
    }
    match shell.traps.action(Condition::Caught(Signal::Interrupt)) {
        Some(_) => false,
        None => true,
    }
}

/// Whether a signal is INT.
fn is_interrupt(signal: Option<Signal>) -> bool
    ensures { result ≡ is_interrupt signal }
{
    match signal {
        Some(signal) => signal.number() == Signal::Interrupt.number(),
        None => false,
    }
}

/// Whether INT is the pending signal with the lowest number. Takes no memory.
pub fn is_interrupt_next(kernel: &Kernel, shell: &Shell) -> bool
    ensures { (s : KernelState) → StandsAt kernel.now s → result ≡ is_interrupt_next s shell.now }
{
    is_interrupt(pending_signal(kernel, shell))
}

/// INT is done with, by which a shell has dropped what it did, and it catches the next one. Takes no memory.
#[tactic(auto, unfolding(crate::specs::Signals::after_drop))]
pub fn finish_drop(kernel: &mut Kernel, shell: &Shell)
    ensures state { (s : KernelState) → StandsAt kernel.old s → StandsAt kernel.new (after_drop s shell.now) }
    ensures terminal { kernel.new.terminal ≡ kernel.old.terminal }
    ensures watch { kernel.new.watch ≡ kernel.old.watch }
{
    kernel.set_action(shell.pid, Signal::Interrupt, SignalAction::Default);
    kernel.set_action(shell.pid, Signal::Interrupt, SignalAction::Caught);
}
