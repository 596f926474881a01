//! How redirections are undone.

/// How a descriptor that a redirection changed is brought back.
#[derive(Clone, Copy, Debug, PartialEq, Eq)]
pub enum Undone {
    /// What was set aside gets its number back.
    Restore {
        /// The description that was set aside.
        aside: usize,
        /// Its number.
        number: u8,
    },
    /// The number referred to nothing, and does so again.
    Close(u8),
}
