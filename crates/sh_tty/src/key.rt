//! Keys.
ghost use Rattle.std.specs.Prelude.{◌≡◌};
ghost use Rattle.sh_tty.specs.Keys.{key_of, raised_by, signal_echo, signal_of, text_or_dropped};

use sh_signal::Signal;

/// A key that raises a signal for the foreground process group (XBD 11.1.9).
#[derive(Clone, Copy, Debug, PartialEq, Eq)]
pub(crate) enum SignalKey {
    /// INTR, key 03.
    Interrupt,
    /// QUIT, key 1c.
    Quit,
    /// SUSP, key 1a.
    Suspend,
}

impl SignalKey {
    /// The signal that it raises: INT, QUIT or TSTP.
    pub fn signal(self) -> Signal
        ensures { result ≡ raised_by self }
    {
        match self {
            SignalKey::Interrupt => Signal::Interrupt,
            SignalKey::Quit => Signal::Quit,
            SignalKey::Suspend => Signal::TerminalStop,
        }
    }

    /// What the terminal shows of it.
    pub fn echo(self) -> [u8; 3]
        ensures { result ≡ signal_echo self }
    {
        match self {
            SignalKey::Interrupt => *b"^C\n",
            SignalKey::Quit => *b"^\\\n",
            SignalKey::Suspend => *b"^Z\n",
        }
    }
}

/// What a key is.
#[derive(Clone, Copy, Debug, PartialEq, Eq)]
pub(crate) enum Key {
    /// It ends the line.
    Newline,
    /// It hands over the line so far, or an end of file where that is empty.
    EndOfFile,
    /// It takes back the last byte of the line.
    Erase,
    /// It raises a signal.
    Raise(SignalKey),
    /// It is a byte of the line.
    Text(u8),
    /// It does nothing.
    Dropped,
}

/// A key that isn't special.
fn plain(byte: u8) -> Key
    ensures { result ≡ text_or_dropped byte }
{
    if byte == b'\t' || 32 <= byte {
        Key::Text(byte)
    } else {
        Key::Dropped
    }
}

impl Key {
    /// The key of a byte.
    pub fn of(byte: u8) -> Key
        ensures { result ≡ key_of byte }
    {
        if byte == b'\n' {
            return Key::Newline;
        }
        if byte == 4 {
            return Key::EndOfFile;
        }
        if byte == 127 {
            return Key::Erase;
        }
        if byte == 3 {
            return Key::Raise(SignalKey::Interrupt);
        }
        if byte == 28 {
            return Key::Raise(SignalKey::Quit);
        }
        if byte == 26 {
            return Key::Raise(SignalKey::Suspend);
        }
        plain(byte)
    }

    /// The signal that it raises.
    pub fn signal(self) -> Option<Signal>
        ensures { result ≡ signal_of self }
    {
        match self {
            Key::Newline => None,
            Key::EndOfFile => None,
            Key::Erase => None,
            Key::Raise(key) => Some(key.signal()),
            Key::Text(_) => None,
            Key::Dropped => None,
        }
    }
}
