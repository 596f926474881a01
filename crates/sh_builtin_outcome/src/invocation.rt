//! How a built-in is run.
ghost use Rattle.std.specs.Prelude.{◌≡◌};
ghost use Rattle.sh_builtin_outcome.specs.Invocations.{by_command, by_name};

use crate::builtin::Builtin;

/// A built-in utility as it is run.
#[derive(Clone, Copy, Debug, PartialEq, Eq)]
pub struct Invocation {
    pub builtin: Builtin,
    /// Whether it is run as a special built-in (XCU 2.15): its errors end a shell that isn't interactive, and assignments before it stay.
    /// None is that `command` runs.
    pub is_special: bool,
}

impl Invocation {
    /// A built-in that is run by its name. Takes no memory.
    pub fn by_name(builtin: Builtin) -> Self
        ensures { result ≡ by_name builtin }
    {
        Invocation {
            builtin,
            is_special: builtin.is_special(),
        }
    }

    /// A built-in that `command` runs (XCU command). Takes no memory.
    pub fn by_command(builtin: Builtin) -> Self
        ensures { result ≡ by_command builtin }
    {
        Invocation {
            builtin,
            is_special: false,
        }
    }
}
