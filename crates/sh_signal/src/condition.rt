//! The conditions of traps.
ghost use Rattle.std.specs.Prelude.{◌≡◌};
ghost use Rattle.sh_signal.specs.Conditions.{caught, condition_of, name_of, condition_by_name, condition_by_number, place_of};

use crate::signal::Signal;
use sh_base::decimal::number_of;

/// What a trap waits for (XCU 2.15 trap).
#[derive(Clone, Copy, Debug, PartialEq, Eq)]
pub enum Condition {
    /// The shell's exit.
    Exit,
    /// A signal.
    Caught(Signal),
}

/// The condition of a signal, if there is one.
fn caught(signal: Option<Signal>) -> Option<Condition>
    ensures { result ≡ caught signal }
{
    match signal {
        Some(signal) => Some(Condition::Caught(signal)),
        None => None,
    }
}

/// The condition of a number.
fn numbered(number: u64) -> Option<Condition>
    ensures { result ≡ condition_by_number number }
{
    if number == 0 {
        return Some(Condition::Exit);
    }
    caught(Signal::from_number(number))
}

/// The condition of a name.
fn named(word: &[u8]) -> Option<Condition>
    ensures { result ≡ condition_by_name word.now }
{
    if word == b"EXIT".as_slice() {
        return Some(Condition::Exit);
    }
    caught(Signal::from_name(word))
}

impl Condition {
    /// Its number: 0 for the exit, else the signal's.
    pub fn number(self) -> u8
        ensures { result ≡ place_of self }
    {
        match self {
            Condition::Exit => 0,
            Condition::Caught(signal) => signal.number(),
        }
    }

    /// Its name: `EXIT`, or the signal's without SIG.
    pub fn name(self) -> &'static [u8]
        ensures { result.now ≡ name_of self }
    {
        match self {
            Condition::Exit => b"EXIT",
            Condition::Caught(signal) => signal.name(),
        }
    }

    /// The condition of an operand, which is a name, in capital letters, or a number of one to 18 digits; `None` of any other.
    pub fn of(word: &[u8]) -> Option<Condition>
        ensures { result ≡ condition_of word.now }
    {
        match number_of(word) {
            Some(number) => numbered(number),
            None => named(word),
        }
    }
}
