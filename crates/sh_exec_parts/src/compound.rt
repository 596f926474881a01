//! The redirections of a compound command in its tree (XCU 2.9.4), and what they are once their words are expanded.
ghost use Rattle.std.specs.Prelude.{◌≡◌, IfOk, map};
ghost use Rattle.sh_exec_parts.specs.Redirections.{redirections_of};
ghost use Rattle.sh_exec_parts.specs.Simple.{compound_redirects, redirect_wanted};

use crate::queue::Queue;
use crate::redirection::{Redirection, redirection_of};
use crate::simple::redirect_wanted;
use sh_base::NoMemory;
use sh_base::sequence::{Sequence, Text};
use sh_expand::Wanted;
use sh_syntax::tree::{Command, Redirect};
use std::alloc::Global;

/// The redirections of a compound command; a command of another form has none.
pub fn compound_redirects(command: &Command) -> &[Redirect]
    ensures { result.now ≡ compound_redirects command.now }
{
    match command {
        Command::Simple(_) => &[],
        Command::Compound(compound) => compound.get().redirects.as_slice(),
        Command::Function { .. } => &[],
    }
}

/// What of each redirection is expanded: its word, of a here-document its body. The only error is want of memory.
pub fn redirects_wanted(alloc: Global, redirects: &[Redirect]) -> Result<Sequence<Wanted>, NoMemory>
    ensures { IfOk result (λ wanted. wanted ≡ map redirect_wanted redirects.now) }
{
    let mut wanted = Sequence::new(alloc);
    let mut rest = redirects;
    'redirects: while let Some((redirect, others)) = rest.split_first() {
        wanted.push(redirect_wanted(redirect)?)?;
        rest = others;
    }
    Ok(wanted)
}

/// Redirections, each with its field, in order. One without a field is left out. The only error is want of memory.
pub fn redirections_of(
    alloc: Global,
    redirects: &[Redirect],
    fields: &[Text],
    no_clobber: bool,
) -> Result<Queue<Redirection>, NoMemory>
    ensures { IfOk result (λ queue. queue ≡ redirections_of no_clobber redirects.now fields.now) }
{
    let mut done = Sequence::new(alloc);
    let mut rest = redirects;
    let mut left = fields;
    'redirects: while let Some((redirect, others)) = rest.split_first() {
        let Some((field, behind)) = left.split_first() else {
            return Ok(Queue::new(done));
        };
        done.push(redirection_of(alloc, redirect, field.as_slice(), no_clobber)?)?;
        rest = others;
        left = behind;
    }
    Ok(Queue::new(done))
}
