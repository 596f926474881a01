// Options of `set` (XCU 2.15).
ghost use Rattle.std.specs.Prelude.{◌≡◌, IfOk};
ghost use Rattle.std.specs.List.{filter, filter_map};
ghost use Rattle.sh_vars.specs.ShellOptions.{is_on, letter_of};

use sh_base::sequence::Text;
use std::alloc::{AllocError, Global};

/// Which options are on (XCU 2.15 `set`). By default none is.
#[derive(Clone, Copy, Debug, PartialEq, Eq, Default)]
pub struct Options {
    /// `-a`: each variable that is assigned to is exported.
    pub all_export: bool,
    /// `-C`: `>` doesn't overwrite a regular file.
    pub no_clobber: bool,
    /// `-e`: a command that fails ends the shell.
    pub exit_on_error: bool,
    /// `-f`: no pathname expansion.
    pub no_glob: bool,
    /// `-i`: the shell is interactive.
    pub interactive: bool,
    /// `-m`: job control.
    pub monitor: bool,
    /// `-u`: to expand an unset parameter is an error.
    pub no_unset: bool,
}

/// An option by its name (XCU 2.15 `set`).
#[derive(Clone, Copy, Debug, PartialEq, Eq)]
pub enum ShellOption {
    /// `-a`, `allexport`.
    AllExport,
    /// `-C`, `noclobber`.
    NoClobber,
    /// `-e`, `errexit`.
    ExitOnError,
    /// `-f`, `noglob`.
    NoGlob,
    /// `-i`; `set` can't change it.
    Interactive,
    /// `-m`, `monitor`.
    Monitor,
    /// `-u`, `nounset`.
    NoUnset,
}

impl ShellOption {
    ghost use Rattle.sh_vars.specs.ShellOptions.{letter_of, name_of, option_with_letter};

    /// The options in the order in which `$-` shows them.
    pub const ALL: [ShellOption; 7] = [
        ShellOption::AllExport,
        ShellOption::NoClobber,
        ShellOption::ExitOnError,
        ShellOption::NoGlob,
        ShellOption::Interactive,
        ShellOption::Monitor,
        ShellOption::NoUnset,
    ];

    /// The letter after `-`, such as `b'a'`; `None` for an option without a letter.
    pub fn letter(self) -> Option<u8>
        ensures { result ≡ letter_of self }
    {
        match self {
            ShellOption::AllExport => Some(b'a'),
            ShellOption::NoClobber => Some(b'C'),
            ShellOption::ExitOnError => Some(b'e'),
            ShellOption::NoGlob => Some(b'f'),
            ShellOption::Interactive => Some(b'i'),
            ShellOption::Monitor => Some(b'm'),
            ShellOption::NoUnset => Some(b'u'),
        }
    }

    /// The name after `-o`.
    pub fn name(self) -> &'static str
        ensures { result.now ≡ name_of self }
    {
        match self {
            ShellOption::AllExport => "allexport",
            ShellOption::NoClobber => "noclobber",
            ShellOption::ExitOnError => "errexit",
            ShellOption::NoGlob => "noglob",
            ShellOption::Interactive => "interactive",
            ShellOption::Monitor => "monitor",
            ShellOption::NoUnset => "nounset",
        }
    }

    /// The option with this letter, `None` where there is none.
    pub fn from_letter(letter: u8) -> Option<ShellOption>
        ensures { result ≡ option_with_letter letter }
    {
        match letter {
            b'a' => Some(ShellOption::AllExport),
            b'C' => Some(ShellOption::NoClobber),
            b'e' => Some(ShellOption::ExitOnError),
            b'f' => Some(ShellOption::NoGlob),
            b'i' => Some(ShellOption::Interactive),
            b'm' => Some(ShellOption::Monitor),
            b'u' => Some(ShellOption::NoUnset),
            _ => None,
        }
    }
}

impl Options {
    ghost use Rattle.sh_vars.specs.ShellOptions.{is_on, letters_of, with_option};

    /// Whether this option is on.
    pub fn is_on(self, option: ShellOption) -> bool
        ensures { result ≡ is_on self option }
    {
        match option {
            ShellOption::AllExport => self.all_export,
            ShellOption::NoClobber => self.no_clobber,
            ShellOption::ExitOnError => self.exit_on_error,
            ShellOption::NoGlob => self.no_glob,
            ShellOption::Interactive => self.interactive,
            ShellOption::Monitor => self.monitor,
            ShellOption::NoUnset => self.no_unset,
        }
    }

    /// The options with this one on or off.
    pub fn switched(self, option: ShellOption, on: bool) -> Options
        ensures { result ≡ with_option self option on }
    {
        match option {
            ShellOption::AllExport => Options {
                all_export: on,
                ..self
            },
            ShellOption::NoClobber => Options {
                no_clobber: on,
                ..self
            },
            ShellOption::ExitOnError => Options {
                exit_on_error: on,
                ..self
            },
            ShellOption::NoGlob => Options {
                no_glob: on,
                ..self
            },
            ShellOption::Interactive => Options {
                interactive: on,
                ..self
            },
            ShellOption::Monitor => Options {
                monitor: on,
                ..self
            },
            ShellOption::NoUnset => Options {
                no_unset: on,
                ..self
            },
        }
    }

    /// The letters of the options that are on, `$-` (XCU 2.5.2). The only error is want of memory.
    pub fn letters(self, alloc: Global) -> Result<Text, AllocError>
        ensures { IfOk result (λ text. text ≡ letters_of self) }
    {
        let letters = letters_among(alloc, self, &ShellOption::ALL)?;
        Ok(Text::from_vec(letters))
    }
}

/// The letters of the options in `among` that are on, in their order there.
fn letters_among(
    alloc: Global,
    options: Options,
    among: &[ShellOption],
) -> Result<Vec<u8>, AllocError>
    ensures { IfOk result (λ letters.
        letters.items ≡ filter_map letter_of (filter (is_on options) among.now)) }
{
    among
        .iter()
        .filter(|option| options.is_on(**option))
        .filter_map(|option| option.letter())
        .collect(alloc)
}
