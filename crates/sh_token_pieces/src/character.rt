//! Characters of a text.

/// What a text has once its joined lines (XCU 2.2.1) are taken out.
#[derive(Clone, Copy)]
pub enum Character {
    /// A byte.
    Plain(u8),
    /// A byte after a backslash.
    Quoted(u8),
    /// A byte between single quotes or in a comment, where a backslash is a byte like any other.
    Raw(u8),
}
