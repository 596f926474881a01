//! Options before operands (XBD 12.2).
ghost use Rattle.std.specs.Prelude.{◌≡◌, None, option_map, option_to_list};
ghost use Rattle.sh_builtin_environment.specs.Options.{are_among, is_among, last_letter, letters_of, options_and_operands, some_letters};

use sh_base::sequence::Text;

/// Letters, if there are any.
pub(crate) fn some_letters(letters: &[u8]) -> Option<&[u8]>
    ensures { option_map (λ letters. letters.now) result ≡ some_letters letters.now }
{
    if letters.is_empty() {
        return None;
    }
    Some(letters)
}

/// The letters of a word of options.
fn letters_of(word: &[u8]) -> Option<&[u8]>
    ensures { option_map (λ letters. letters.now) result ≡ letters_of word.now }
{
    match word.split_first() {
        Some((b'-', letters)) => some_letters(letters),
        _ => None,
    }
}

/// Whether a letter is among these.
fn is_among(allowed: &[u8], letter: u8) -> bool
    ensures { result ≡ is_among allowed.now letter }
{
    allowed.iter().any(|it| *it == letter)
}

/// Whether letters are among these.
fn are_among(allowed: &[u8], letters: &[u8]) -> bool
    ensures { result ≡ are_among allowed.now letters.now }
{
    letters.iter().all(|letter| is_among(allowed, *letter))
}

/// The last of these letters or, where there is none, the last letter before them.
fn last_letter(last: Option<u8>, letters: &[u8]) -> Option<u8>
    ensures { result ≡ last_letter last letters.now }
{
    let mut last = last;
    'letters: for letter in letters {
        last = Some(*letter);
    }
    last
}

/// Reads the options before a built-in's operands (XBD 12.2): words of a hyphen and letters, up to a word
/// `--`, which is dropped, or to the first other word; a hyphen alone is an operand. The answer is the letter
/// of the last option, and the operands; `None` where a letter isn't among those allowed. Takes no memory.
pub fn parse_options<'a>(allowed: &[u8], arguments: &'a [Text]) -> Option<(Option<u8>, &'a [Text])>
    ensures { option_map (λ p. (p.0, p.1.now)) result
        ≡ options_and_operands allowed.now arguments.now }
{
    let mut last = None;
    let mut rest = arguments;
    'words: while let Some((word, others)) = rest.split_first() {
        if word.as_slice() == b"--".as_slice() {
            return Some((last, others));
        }
        let Some(letters) = letters_of(word.as_slice()) else {
            return Some((last, rest));
        };
        if !are_among(allowed, letters) {
            return None;
        }
        last = last_letter(last, letters);
        rest = others;
    }
    Some((last, rest))
}
