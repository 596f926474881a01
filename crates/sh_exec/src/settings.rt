//! How a shell is started.
use sh_base::sequence::{Sequence, Text};
use sh_vars::Options;

/// Where the first shell's commands come from (the page of sh, "Operands").
#[derive(Debug, Drop)]
pub enum Source {
    /// A text that is there whole, as of `sh -c`.
    Text(Text),
    /// The file of this path in the image, as of `sh SCRIPT`. Where there is no such file, the shell says
    /// that it is not found, and ends with 127. Where the file can't be read, the shell says that it can't be
    /// executed, and ends with 126.
    Script(Text),
    /// What an interactive shell reads by its descriptor 0, the terminal (the page of sh, "STDIN"). The option `-i` is on then.
    Terminal,
}

/// How the first shell is started.
#[derive(Drop)]
pub struct Settings {
    /// Where its commands come from.
    pub source: Source,
    /// The name of the shell or script, `$0`.
    pub zero: Text,
    /// The positional parameters from `$1` on.
    pub args: Sequence<Text>,
    /// The options that are on (XCU 2.15 `set`). With `-m` it has job control (2.11).
    pub options: Options,
}
