//! Words that are to be expanded.
use sh_base::shared::Shared;
use sh_expand_parts::Context;
use sh_syntax::tree::Parts;

/// A word that is to be expanded.
#[derive(Drop)]
pub struct Wanted {
    /// The parts of the word.
    pub parts: Shared<Parts>,
    /// What the word is expanded for.
    pub context: Context,
}
