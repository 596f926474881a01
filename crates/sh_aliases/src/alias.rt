//! One alias.
ghost use Rattle.std.specs.Prelude.{◌≡◌, IfOk};
ghost use Rattle.std.specs.List.{list_all};
ghost use Rattle.sh_aliases.specs.Aliases.{alias_of, alias_with, are_whole, ends_in_blank, fits, has_nul, is_alias_byte, is_alias_name, is_alias_sign, operator_fits, token_fits};
ghost use Rattle.sh_parse_documents.specs.Scanned.{all_items};

use sh_base::NoMemory;
use sh_base::sequence::{Sequence, Text};
use sh_parse_documents::TokenKind;
use sh_parse_documents::item::Item;
use sh_parse_documents::items::{Items, scan_items};
use sh_token_pieces::byte::blank;
use sh_token_pieces::operator::Operator;
use std::alloc::Global;

/// An alias (XBD 3.10): a name for which a value stands where commands are read (XCU 2.3.1). The value is whole by itself: none of its tokens
/// goes on past its end or is a newline, and it has no here-document.
pub struct Alias {
    /// Its name.
    pub name: Text,
    /// Its value as it was given.
    pub value: Text,
    /// The tokens of the value, each with its place in the value.
    pub items: Sequence<Item>,
}

// It is dropped here, so that no crate above has to prove that of its parts.
impl Drop for Alias {
    fn drop(self) {
        let Alias { name, value, items } = self;
        drop(name);
        drop(value);
        drop(items);
    }
}

impl Alias {
    /// The alias of a name and a value, `None` where the name is none of an alias (XBD 3.10), or the value isn't whole by itself: it ends
    /// within a token, or it has a newline that isn't quoted, `<<`, `<<-` or a NUL byte. The only error is want of memory. Time and memory
    /// are linear in the value.
    #[tactic(auto, unfolding(crate::specs::Aliases::alias_of))]
    pub fn of(alloc: Global, name: &[u8], value: &[u8]) -> Result<Option<Alias>, NoMemory>
        ensures { IfOk result (λ alias. alias ≡ alias_of name.now value.now) }
    {
        if !is_alias_name(name) || has_nul(value) {
            return Ok(None);
        }
        let found = scan_items(alloc, value, true)?;
        alias_with(alloc, name, value, found)
    }

    /// Whether the value ends in a blank: then the word after the name may be an alias too (XCU 2.3.1). Takes no memory.
    pub fn ends_in_blank(&self) -> bool
        ensures { result ≡ ends_in_blank self.now.value }
    {
        match self.value.as_slice().last() {
            Some(byte) => blank(*byte),
            None => false,
        }
    }
}

/// Whether a byte that is no letter and no digit may be in the name of an alias.
fn is_alias_sign(byte: u8) -> bool
    ensures { result ≡ is_alias_sign byte }
{
    byte == b'!' || byte == b'%' || byte == b',' || byte == b'-' || byte == b'@' || byte == b'_'
}

/// Whether a byte may be in the name of an alias.
fn is_alias_byte(byte: u8) -> bool
    ensures { result ≡ is_alias_byte byte }
{
    byte.is_ascii_lowercase()
        || byte.is_ascii_uppercase()
        || byte.is_ascii_digit()
        || is_alias_sign(byte)
}

/// Whether each byte may be in the name of an alias.
fn are_alias_bytes(bytes: &[u8]) -> bool
    ensures { result ≡ list_all is_alias_byte bytes.now }
{
    bytes.iter().all(|byte| is_alias_byte(*byte))
}

/// Whether a text is the name of an alias (XBD 3.10).
fn is_alias_name(text: &[u8]) -> bool
    ensures { result ≡ is_alias_name text.now }
{
    match text.split_first() {
        Some((first, others)) => is_alias_byte(*first) && are_alias_bytes(others),
        None => false,
    }
}

/// Whether a value has a NUL byte.
fn has_nul(value: &[u8]) -> bool
    ensures { result ≡ has_nul value.now }
{
    value.iter().any(|byte| *byte == 0)
}

/// Whether an operator may be in a value.
fn operator_fits(operator: Operator) -> bool
    ensures { result ≡ operator_fits operator }
{
    match operator {
        Operator::Newline => false,
        Operator::DoubleLess => false,
        Operator::DoubleLessDash => false,
        _ => true,
    }
}

/// Whether a token may be in a value.
fn token_fits(kind: &TokenKind) -> bool
    ensures { result ≡ token_fits kind.now }
{
    match kind {
        TokenKind::Operator(operator) => operator_fits(*operator),
        TokenKind::Word(_) => true,
        TokenKind::Number => true,
        TokenKind::End => true,
    }
}

/// Whether each token may be in a value.
fn all_fit(items: &[Item]) -> bool
    ensures { result ≡ list_all fits items.now }
{
    items.iter().all(|item| token_fits(&item.token.kind))
}

/// Whether tokens are those of a value that is whole by itself.
fn are_whole(found: &Items) -> bool
    ensures { result ≡ are_whole (all_items found.now) }
{
    found.cut.is_none() && all_fit(&found.items)
}

/// The alias of a name and a value with these tokens.
fn alias_with(
    alloc: Global,
    name: &[u8],
    value: &[u8],
    found: Items,
) -> Result<Option<Alias>, NoMemory>
    ensures { IfOk result (λ alias. alias ≡ alias_with name.now value.now (all_items found)) }
{
    if !are_whole(&found) {
        return Ok(None);
    }
    let Items { items, .. } = found;
    let items = Sequence::from_vec(items);
    let name = Text::copy_of(alloc, name)?;
    let value = Text::copy_of(alloc, value)?;
    Ok(Some(Alias { name, value, items }))
}
