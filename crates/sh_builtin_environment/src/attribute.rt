//! How built-ins mark variables.

/// How a built-in marks variables (XCU 2.15 `export`, `readonly`).
#[derive(Clone, Copy, Debug, PartialEq, Eq)]
pub enum Attribute {
    /// `export`: programs inherit it.
    Export,
    /// `readonly`: it can't be assigned to or unset.
    ReadOnly,
}
