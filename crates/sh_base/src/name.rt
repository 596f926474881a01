//! Names (XBD 3.216): a letter or an underscore, then letters, digits and underscores.
ghost use Rattle.std.specs.Prelude.{◌≡◌};
ghost use Rattle.std.specs.List.{list_all};
ghost use Rattle.sh_base.specs.Names.{begins_name, continues_name, is_name};

/// Whether a byte may begin a name: a letter or an underscore.
pub fn begins_name(byte: u8) -> bool
    ensures { result ≡ begins_name byte }
{
    byte.is_ascii_lowercase() || byte.is_ascii_uppercase() || byte == b'_'
}

/// Whether a byte may be in a name after the first byte: a letter, an underscore or a digit.
pub fn continues_name(byte: u8) -> bool
    ensures { result ≡ continues_name byte }
{
    begins_name(byte) || byte.is_ascii_digit()
}

/// Whether each byte may be in a name after the first byte.
fn continue_name(bytes: &[u8]) -> bool
    ensures { result ≡ list_all continues_name bytes.now }
{
    bytes.iter().all(|byte| continues_name(*byte))
}

/// Whether a text is a name (XBD 3.216), as variables, functions and aliases have them.
pub fn is_name(text: &[u8]) -> bool
    ensures { result ≡ is_name text.now }
{
    match text.split_first() {
        Some((first, others)) => begins_name(*first) && continue_name(others),
        None => false,
    }
}
