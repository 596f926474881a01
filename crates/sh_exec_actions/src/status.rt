//! How commands end, and the exit statuses that a shell itself gives (XCU 2.8.1, 2.8.2).
ghost use Rattle.std.specs.Prelude.{◌≡◌};
ghost use Rattle.sh_exec_actions.specs.Statuses.{unexcused};

/// An error that ends a shell.
pub const ERROR: u8 = 2;

/// A command was found and can't be executed.
pub const CANNOT_EXECUTE: u8 = 126;

/// A command isn't found.
pub const NOT_FOUND: u8 = 127;

/// How a command ended.
#[derive(Clone, Copy, Debug, PartialEq, Eq)]
pub struct CommandStatus {
    /// Its exit status (2.8.2).
    pub status: u8,
    /// Whether `set -e` takes no notice of it (2.15, set): it is a failure that came where failures are ignored.
    pub excused: bool,
}

impl CommandStatus {
    /// This status, not excused.
    pub fn unexcused(status: u8) -> Self
        ensures { result ≡ unexcused status }
    {
        CommandStatus {
            status,
            excused: false,
        }
    }
}
