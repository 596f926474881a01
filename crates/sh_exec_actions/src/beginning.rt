//! What an interactive shell has read so far of its next command.
ghost use Rattle.std.specs.Prelude.{◌≡◌, IfOk};
ghost use Rattle.sh_exec_actions.specs.Beginnings.{aliases_of, begun, not_begun};

use sh_aliases::Aliases;
use sh_base::NoMemory;
use sh_base::sequence::Text;
use sh_exec_parts::Copying;
use std::alloc::Global;

/// What an interactive shell has read so far of its next command by descriptor 0 (XCU 2.1).
pub struct Beginning {
    /// What was read.
    pub text: Text,
    /// The aliases by which the command is read: those that the shell had when the command began (2.3.1). `None` before a command has begun.
    pub aliases: Option<Aliases>,
}

// It is dropped here, so that no crate above has to prove that of its parts.
impl Drop for Beginning {
    fn drop(self) {
        let Beginning { text, aliases } = self;
        drop(text);
        drop(aliases);
    }
}

impl Beginning {
    /// A text in which no command has begun yet.
    pub fn not_begun(text: Text) -> Beginning
        ensures { result ≡ not_begun text }
    {
        let aliases = None;
        Beginning { text, aliases }
    }

    /// The beginning of a command that is read by these aliases.
    pub fn begun(aliases: Aliases, text: Text) -> Beginning
        ensures { result ≡ begun aliases text }
    {
        Beginning {
            text,
            aliases: Some(aliases),
        }
    }

    /// The aliases by which the command is read, which are copies of these where it hasn't begun, and what was read of it. The only error is want
    /// of memory.
    pub fn into_parts(self, alloc: Global, now: &Aliases) -> Result<(Aliases, Text), NoMemory>
        ensures aliases { IfOk result (λ parts. parts.0 ≡ aliases_of now.now self) }
        ensures text { IfOk result (λ parts. parts.1 ≡ self.text) }
    {
        let Beginning { text, aliases } = self;
        if let Some(aliases) = aliases {
            return Ok((aliases, text));
        }
        match now.copy(alloc) {
            Ok(aliases) => Ok((aliases, text)),
            Err(lack) => {
                drop(text);
                Err(lack)
            },
        }
    }
}

/// A copy of the aliases of a command, if it has begun.
fn copy_aliases(alloc: Global, aliases: &Option<Aliases>) -> Result<Option<Aliases>, NoMemory>
    ensures { IfOk result (λ copy. copy ≡ aliases.now) }
{
    match aliases {
        Some(aliases) => Ok(Some(aliases.copy(alloc)?)),
        None => Ok(None),
    }
}

impl Copying for Beginning {
    fn copy(&self, alloc: Global) -> Result<Beginning, NoMemory> {
        let text = self.text.copy(alloc)?;
        match copy_aliases(alloc, &self.aliases) {
            Ok(aliases) => Ok(Beginning { text, aliases }),
            Err(lack) => {
                drop(text);
                Err(lack)
            },
        }
    }
}
