//! The bytes that separate fields.
ghost use Rattle.std.specs.Prelude.{◌≡◌};
ghost use Rattle.sh_expand_fields.specs.Classes.{bytes_of, first_of};

use sh_base::separator::default_separators;

/// The variable IFS (XCU 2.5.3). Each of its bytes that is a space, a tab or a newline is IFS white space.
#[derive(Clone, Copy, Debug)]
pub enum Separators<'a> {
    /// IFS is unset, which is as if it were a space, a tab and a newline.
    Unset,
    /// The value of IFS. Where it is empty, nothing is split.
    Set(&'a [u8]),
}

impl<'a> Separators<'a> {
    /// The bytes of IFS, or its default where it is unset.
    pub(crate) fn bytes(self) -> &'a [u8]
        ensures { result.now ≡ bytes_of self.entry }
    {
        match self {
            Separators::Unset => default_separators(),
            Separators::Set(bytes) => bytes,
        }
    }

    /// The byte that joins the parameters in `"$*"` (XCU 2.5.2): the first one of IFS, a space where IFS is unset, none
    /// where it is empty.
    pub fn joiner(self) -> Option<u8>
        ensures { result ≡ first_of (bytes_of self.entry) }
    {
        self.bytes().first().copied()
    }
}
