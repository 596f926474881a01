//! The bytes of a pattern.
ghost use Rattle.std.specs.Prelude.{◌≡◌};
ghost use Rattle.sh_pattern.specs.Items.{is_bare};

/// A byte of a pattern. A literal byte matches itself, as a quoted byte does. Any other byte may be special,
/// such as `*` (XCU 2.14).
#[derive(Clone, Copy, Debug, PartialEq, Eq)]
pub struct PatternByte {
    /// The byte itself.
    pub byte: u8,
    /// Whether the byte matches only itself.
    pub literal: bool,
}

/// Whether `mark` is this byte, unquoted.
pub(crate) fn is_bare(byte: u8, mark: PatternByte) -> bool
    ensures { result ≡ is_bare byte mark }
{
    !mark.literal && mark.byte == byte
}
