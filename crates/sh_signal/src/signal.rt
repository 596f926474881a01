//! Signals.
ghost use Rattle.std.specs.Prelude.{◌≡◌};
ghost use Rattle.sh_signal.specs.Signals.{default_of, name_of, signal_with_name, number_of, signal_with_number, signals};

/// A signal (XBD 13, signal.h).
#[derive(Clone, Copy, Debug, PartialEq, Eq)]
pub enum Signal {
    /// SIGHUP
    Hangup,
    /// SIGINT
    Interrupt,
    /// SIGQUIT
    Quit,
    /// SIGABRT
    Abort,
    /// SIGKILL
    Kill,
    /// SIGUSR1
    User1,
    /// SIGUSR2
    User2,
    /// SIGPIPE
    Pipe,
    /// SIGALRM
    Alarm,
    /// SIGTERM
    Terminate,
    /// SIGCHLD
    Child,
    /// SIGCONT
    Continue,
    /// SIGSTOP
    Stop,
    /// SIGTSTP
    TerminalStop,
    /// SIGTTIN
    TerminalInput,
    /// SIGTTOU
    TerminalOutput,
}

/// What a signal does to a process that neither catches nor ignores it (XSH 2.4.3).
#[derive(Clone, Copy, Debug, PartialEq, Eq)]
pub enum DefaultAction {
    /// The process ends.
    End,
    /// Nothing happens.
    Ignore,
    /// A stopped process goes on.
    Continue,
    /// The process stops.
    Stop,
}

/// All of them, by their numbers.
const SIGNALS: [Signal; 16] = [
    Signal::Hangup,
    Signal::Interrupt,
    Signal::Quit,
    Signal::Abort,
    Signal::Kill,
    Signal::User1,
    Signal::User2,
    Signal::Pipe,
    Signal::Alarm,
    Signal::Terminate,
    Signal::Child,
    Signal::Continue,
    Signal::Stop,
    Signal::TerminalStop,
    Signal::TerminalInput,
    Signal::TerminalOutput,
];

impl Signal {
    /// All signals, in the order of their numbers.
    pub fn all() -> [Signal; 16]
        ensures { result ≡ signals }
    {
        SIGNALS
    }

    /// Its number, from 1 to 22.
    pub fn number(self) -> u8
        ensures { result ≡ number_of self }
    {
        match self {
            Signal::Hangup => 1,
            Signal::Interrupt => 2,
            Signal::Quit => 3,
            Signal::Abort => 6,
            Signal::Kill => 9,
            Signal::User1 => 10,
            Signal::User2 => 12,
            Signal::Pipe => 13,
            Signal::Alarm => 14,
            Signal::Terminate => 15,
            Signal::Child => 17,
            Signal::Continue => 18,
            Signal::Stop => 19,
            Signal::TerminalStop => 20,
            Signal::TerminalInput => 21,
            Signal::TerminalOutput => 22,
        }
    }

    /// Its name, without SIG.
    pub fn name(self) -> &'static [u8]
        ensures { result.now ≡ name_of self }
    {
        match self {
            Signal::Hangup => b"HUP",
            Signal::Interrupt => b"INT",
            Signal::Quit => b"QUIT",
            Signal::Abort => b"ABRT",
            Signal::Kill => b"KILL",
            Signal::User1 => b"USR1",
            Signal::User2 => b"USR2",
            Signal::Pipe => b"PIPE",
            Signal::Alarm => b"ALRM",
            Signal::Terminate => b"TERM",
            Signal::Child => b"CHLD",
            Signal::Continue => b"CONT",
            Signal::Stop => b"STOP",
            Signal::TerminalStop => b"TSTP",
            Signal::TerminalInput => b"TTIN",
            Signal::TerminalOutput => b"TTOU",
        }
    }

    /// What it does by default.
    pub fn default_action(self) -> DefaultAction
        ensures { result ≡ default_of self }
    {
        match self {
            Signal::Hangup => DefaultAction::End,
            Signal::Interrupt => DefaultAction::End,
            Signal::Quit => DefaultAction::End,
            Signal::Abort => DefaultAction::End,
            Signal::Kill => DefaultAction::End,
            Signal::User1 => DefaultAction::End,
            Signal::User2 => DefaultAction::End,
            Signal::Pipe => DefaultAction::End,
            Signal::Alarm => DefaultAction::End,
            Signal::Terminate => DefaultAction::End,
            Signal::Child => DefaultAction::Ignore,
            Signal::Continue => DefaultAction::Continue,
            Signal::Stop => DefaultAction::Stop,
            Signal::TerminalStop => DefaultAction::Stop,
            Signal::TerminalInput => DefaultAction::Stop,
            Signal::TerminalOutput => DefaultAction::Stop,
        }
    }

    /// The signal of a number, `None` where there is none.
    pub fn from_number(number: u64) -> Option<Signal>
        ensures { result ≡ signal_with_number number }
    {
        match number {
            1 => Some(Signal::Hangup),
            2 => Some(Signal::Interrupt),
            3 => Some(Signal::Quit),
            6 => Some(Signal::Abort),
            9 => Some(Signal::Kill),
            10 => Some(Signal::User1),
            12 => Some(Signal::User2),
            13 => Some(Signal::Pipe),
            14 => Some(Signal::Alarm),
            15 => Some(Signal::Terminate),
            17 => Some(Signal::Child),
            18 => Some(Signal::Continue),
            19 => Some(Signal::Stop),
            20 => Some(Signal::TerminalStop),
            21 => Some(Signal::TerminalInput),
            22 => Some(Signal::TerminalOutput),
            _ => None,
        }
    }

    /// The signal of a name without SIG, in capital letters, `None` where there is none.
    pub fn from_name(name: &[u8]) -> Option<Signal>
        ensures { result ≡ signal_with_name name.now }
    {
        if name == b"HUP".as_slice() {
            return Some(Signal::Hangup);
        }
        if name == b"INT".as_slice() {
            return Some(Signal::Interrupt);
        }
        if name == b"QUIT".as_slice() {
            return Some(Signal::Quit);
        }
        if name == b"ABRT".as_slice() {
            return Some(Signal::Abort);
        }
        if name == b"KILL".as_slice() {
            return Some(Signal::Kill);
        }
        if name == b"USR1".as_slice() {
            return Some(Signal::User1);
        }
        if name == b"USR2".as_slice() {
            return Some(Signal::User2);
        }
        if name == b"PIPE".as_slice() {
            return Some(Signal::Pipe);
        }
        if name == b"ALRM".as_slice() {
            return Some(Signal::Alarm);
        }
        if name == b"TERM".as_slice() {
            return Some(Signal::Terminate);
        }
        if name == b"CHLD".as_slice() {
            return Some(Signal::Child);
        }
        if name == b"CONT".as_slice() {
            return Some(Signal::Continue);
        }
        if name == b"STOP".as_slice() {
            return Some(Signal::Stop);
        }
        if name == b"TSTP".as_slice() {
            return Some(Signal::TerminalStop);
        }
        if name == b"TTIN".as_slice() {
            return Some(Signal::TerminalInput);
        }
        if name == b"TTOU".as_slice() {
            return Some(Signal::TerminalOutput);
        }
        None
    }
}
