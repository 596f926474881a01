//! The place of a part in its word.
use sh_expand_parts::Context;

/// The place of a part in its word.
#[derive(Clone, Copy, Debug, PartialEq, Eq)]
pub struct Place {
    /// What the word is expanded for.
    pub context: Context,
    /// Whether the part is the word's first.
    pub first: bool,
    /// Whether the part is the word's last.
    pub last: bool,
}
