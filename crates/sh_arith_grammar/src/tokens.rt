//! The tokens of an arithmetic text (XCU 2.6.4, C 6.4).
ghost use Rattle.std.specs.Prelude.{◌≡◌, ◌<◌, ◌≤◌, map, length, IfSome};
ghost use Rattle.sh_arith_grammar.specs.Lexical.{begins_with, begins_with_digit, first_spelling, first_word, head, is_blank, word_class, word_length};

use crate::constants::is_constant;
use sh_base::name::continues_name;

/// The class of a constant.
const NUMBER: u8 = 0;

/// The class of a name.
const NAME: u8 = 1;

/// The class of the first operator.
const FIRST_OPERATOR: u8 = 2;

/// The class of a token that no expression has.
const UNKNOWN: u8 = 37;

/// The operators in the order of their classes, longer ones first.
const SPELLINGS: [&[u8]; 35] = [
    b"<<=", b">>=", b"<<", b">>", b"<=", b">=", b"==", b"!=", b"&&", b"||", b"+=", b"-=", b"*=",
    b"/=", b"%=", b"&=", b"^=", b"|=", b"+", b"-", b"~", b"!", b"*", b"/", b"%", b"<", b">", b"&",
    b"^", b"|", b"?", b":", b"=", b"(", b")",
];

/// Whether a byte separates tokens: space, tab, newline.
pub fn is_blank(byte: u8) -> bool
    ensures { result ≡ is_blank byte }
{
    byte == b' ' || byte == b'\t' || byte == b'\n'
}

/// How many letters, digits and underscores a text begins with.
pub(crate) fn word_length(text: &[u8]) -> usize
    ensures counts { result ≡ word_length text.now }
    ensures fits { result ≤ length text.now }
{
    let mut left = text;
    let mut count: usize = 0;
    while let Some((first, others)) = left.split_first() {
        if !continues_name(*first) {
            return count;
        }
        left = others;
        count += 1;
    }
    count
}

/// The letters, digits and underscores that a text begins with.
pub fn first_word(text: &[u8]) -> &[u8]
    ensures { result.now ≡ first_word text.now }
{
    &text[..word_length(text)]
}

fn begins_with(spelling: &[u8], text: &[u8]) -> bool
    ensures { result ≡ begins_with spelling.now text.now }
{
    let mut spelled = spelling;
    let mut left = text;
    while let Some((first, others)) = spelled.split_first() {
        let Some((byte, more)) = left.split_first() else {
            return false;
        };
        if *byte != *first {
            return false;
        }
        spelled = others;
        left = more;
    }
    true
}

/// The first of the spellings that a text begins with: its number and its length.
fn first_spelling(spellings: &[&[u8]], text: &[u8]) -> Option<(usize, usize)>
    ensures found { result ≡ first_spelling 0 (map (λ s. s.now) spellings.now) text.now }
    ensures number { IfSome result (λ r. r.0 < length spellings.now) }
{
    for (number, spelling) in spellings.iter().enumerate() {
        if begins_with(spelling, text) {
            return Some((number, spelling.len()));
        }
    }
    None
}

fn begins_with_digit(word: &[u8]) -> bool
    ensures { result ≡ begins_with_digit word.now }
{
    match word.split_first() {
        Some((first, _)) => first.is_ascii_digit(),
        None => false,
    }
}

/// The class of a word.
fn word_class(word: &[u8]) -> u8
    ensures { result ≡ word_class word.now }
{
    if !begins_with_digit(word) {
        return NAME;
    }
    if is_constant(word) { NUMBER } else { UNKNOWN }
}

/// The class and the length in bytes of the longest token that a text begins with (C 6.4): a constant, a name
/// or an operator. A word that begins with a digit and is no constant is a token that no expression has. So
/// is a byte that begins no other token, also a blank. An empty text gives the same answer as such a byte.
#[tactic(auto, unfolding(crate::specs::Lexical::head))]
pub fn head(text: &[u8]) -> (u8, usize)
    ensures { result ≡ head text.now }
{
    let length = word_length(text);
    if length > 0 {
        return (word_class(&text[..length]), length);
    }
    match first_spelling(&SPELLINGS, text) {
        Some((number, length)) => (FIRST_OPERATOR + number as u8, length),
        None => (UNKNOWN, 1),
    }
}
