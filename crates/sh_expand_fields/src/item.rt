//! The items of an expanded word.

/// An item of a word whose tilde, parameters, substitutions and arithmetic are expanded (XCU 2.6): a byte and where it
/// is from, or a mark between bytes.
#[derive(Clone, Copy, Debug, PartialEq, Eq)]
pub enum Item {
    /// An unquoted byte of the word itself. It never ends a field, and may be a byte of a pattern's syntax.
    Literal(u8),
    /// A quoted byte, also one of an expansion in double quotes. It never ends a field, and is literal in a
    /// pattern.
    Quoted(u8),
    /// An unquoted byte that an expansion gave. It may end a field, and may be a byte of a pattern's syntax.
    Expanded(u8),
    /// The start of a quoted text such as `""`, or of a parameter of `"$@"`: it makes a field even where that
    /// is empty.
    Null,
    /// The boundary between two parameters of `$@` or `$*`.
    Break,
}
