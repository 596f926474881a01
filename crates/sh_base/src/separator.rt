//! Field separators (XCU 2.5.3).
ghost use Rattle.std.specs.Prelude.{◌≡◌};
ghost use Rattle.sh_base.specs.Separators.{default_separators};

/// The field separators where IFS is unset: a space, a tab and a newline. They are also the value of IFS in
/// the first shell.
pub fn default_separators() -> &'static [u8]
    ensures { result.now ≡ default_separators }
{
    b" \t\n"
}
