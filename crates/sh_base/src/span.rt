//! Places of a text.

/// A range of a text: from the byte at `start` up to, not including, the one at `end`.
#[derive(Clone, Copy, Debug, PartialEq, Eq)]
pub struct Span {
    pub start: usize,
    pub end: usize,
}
