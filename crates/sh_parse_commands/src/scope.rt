//! How what is inside of a token is read.
ghost use Rattle.std.specs.Prelude.{◌≡◌, ◌++◌, ◌∷◌, [], IfOk};

use sh_aliases::Aliases;
use sh_base::sequence::Text;
use std::alloc::{AllocError, Global};

/// By which aliases what is inside of a token is read, and how deep texts and values may nest in it.
#[derive(Clone, Copy)]
pub(crate) struct Scope<'a> {
    /// The aliases of the command.
    pub aliases: &'a Aliases,
    /// The names of those from which the token came; they aren't replaced in it.
    pub from: &'a [Text],
    pub depth: u128,
}

/// These names and one more.
pub(crate) fn with_name(alloc: Global, names: &[Text], name: &[u8]) -> Result<Vec<Text>, AllocError>
    ensures { IfOk result (λ all. all.items ≡ names.now ++ name.now ∷ []) }
{
    let mut all = copies(alloc, names)?;
    all.push(Text::copy_of(alloc, name)?)?;
    Ok(all)
}

/// Copies of names.
fn copies(alloc: Global, names: &[Text]) -> Result<Vec<Text>, AllocError>
    ensures { IfOk result (λ copies. copies.items ≡ names.now) }
{
    let mut copies = Vec::with_capacity(alloc, names.len())?;
    for name in names {
        copies.push(Text::copy_of(alloc, name.as_slice())?)?;
    }
    Ok(copies)
}
