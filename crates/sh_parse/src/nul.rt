//! NULs, which no script may have.
ghost use Rattle.std.specs.Prelude.{◌≡◌, ◌≤◌, length, take, drop};
ghost use Rattle.sh_parse.specs.Reading.{nul_in};

/// The place of the first NUL of the text before `to`, where `nul` is the place of the first NUL before
/// `from`.
#[tactic(auto, using(crate::proofs::Nuls::nul_stays))]
pub(crate) fn first_nul(text: &[u8], nul: Option<usize>, from: usize, to: usize) -> Option<usize>
    requires nul { nul ≡ nul_in (take from text.now) }
    requires ordered { from ≤ to }
    requires inside { to ≤ length text.now }
    ensures { result ≡ nul_in (take to text.now) }
{
    match nul {
        Some(place) => Some(place),
        None => match nul_among(between(text, from, to)) {
            Some(place) => Some(from + place),
            None => None,
        },
    }
}

/// The bytes from one place up to another.
fn between(text: &[u8], from: usize, to: usize) -> &[u8]
    requires ordered { from ≤ to }
    requires inside { to ≤ length text.now }
    ensures { result.now ≡ drop from (take to text.now) }
{
    let prefix = &text[..to];
    &prefix[from..]
}

/// The place of the first NUL of these bytes.
fn nul_among(bytes: &[u8]) -> Option<usize>
    ensures { result ≡ nul_in bytes.now }
{
    bytes.iter().position(|b| *b == 0)
}
