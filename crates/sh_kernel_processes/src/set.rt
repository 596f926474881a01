//! Sets of signals.
ghost use Rattle.std.specs.Prelude.{◌≡◌, find};
ghost use Rattle.sh_kernel_processes.specs.Sets.{bit_of, has, lowest, no_signals, with_signal, without_signal};
ghost use Rattle.sh_signal.specs.Signals.{signals};

use sh_signal::Signal;

/// A set of signals (XBD signal.h, sigset_t).
#[derive(Clone, Copy, Debug, PartialEq, Eq)]
pub struct SignalSet {
    bits: u32,
}

/// The bit of a signal.
fn bit_of(signal: Signal) -> u32
    ensures { result ≡ bit_of signal }
{
    match signal {
        Signal::Hangup => 2,
        Signal::Interrupt => 4,
        Signal::Quit => 8,
        Signal::Abort => 64,
        Signal::Kill => 512,
        Signal::User1 => 1024,
        Signal::User2 => 4096,
        Signal::Pipe => 8192,
        Signal::Alarm => 16384,
        Signal::Terminate => 32768,
        Signal::Child => 131072,
        Signal::Continue => 262144,
        Signal::Stop => 524288,
        Signal::TerminalStop => 1048576,
        Signal::TerminalInput => 2097152,
        Signal::TerminalOutput => 4194304,
    }
}

/// The first of these signals that is in the set.
fn first_of(set: SignalSet, signals: &[Signal]) -> Option<Signal>
    ensures { result ≡ find (has set) signals.now }
{
    let mut rest = signals;
    'signals: while let Some((signal, others)) = rest.split_first() {
        if set.has(*signal) {
            return Some(*signal);
        }
        rest = others;
    }
    None
}

impl SignalSet {
    /// No signals.
    pub fn new() -> SignalSet
        ensures { result ≡ no_signals }
    {
        SignalSet { bits: 0 }
    }

    /// Whether a signal is in it.
    pub fn has(self, signal: Signal) -> bool
        ensures { result ≡ has self signal }
    {
        self.bits & bit_of(signal) != 0
    }

    /// These signals and this one.
    pub fn with(self, signal: Signal) -> SignalSet
        ensures { result ≡ with_signal self signal }
    {
        SignalSet {
            bits: self.bits | bit_of(signal),
        }
    }

    /// These signals without this one.
    pub fn without(self, signal: Signal) -> SignalSet
        ensures { result ≡ without_signal self signal }
    {
        if self.has(signal) {
            return SignalSet {
                bits: self.bits ^ bit_of(signal),
            };
        }
        self
    }

    /// The signal with the lowest number; `None` where there is none.
    pub fn lowest(self) -> Option<Signal>
        ensures { result ≡ lowest self }
    {
        first_of(self, &Signal::all())
    }
}
