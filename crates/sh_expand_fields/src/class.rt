//! What items are to splitting.
ghost use Rattle.std.specs.Prelude.{◌≡◌};
ghost use Rattle.sh_expand_fields.specs.Classes.{class_of, expanded_class, is_in, is_white_space};

use crate::item::Item;

/// What an item is to splitting (XCU 2.6.5).
#[derive(Clone, Copy, Debug, PartialEq, Eq)]
pub(crate) enum Class {
    /// IFS white space that an expansion gave.
    White,
    /// Another byte of IFS that an expansion gave.
    Hard,
    /// The end of one of several parameters.
    Between,
    /// What stays in its field.
    Keep(Item),
}

/// Whether a byte is a space, a tab or a newline.
fn is_white_space(byte: u8) -> bool
    ensures { result ≡ is_white_space byte }
{
    byte == b' ' || byte == b'\t' || byte == b'\n'
}

/// Whether a byte is in IFS.
fn is_in(ifs: &[u8], byte: u8) -> bool
    ensures { result ≡ is_in ifs.now byte }
{
    ifs.iter().any(|other| *other == byte)
}

/// The class of a byte that an expansion gave.
fn expanded_class(delimits: bool, white_space: bool, byte: u8) -> Class
    ensures { result ≡ expanded_class delimits white_space byte }
{
    if !delimits {
        return Class::Keep(Item::Expanded(byte));
    }
    if white_space {
        Class::White
    } else {
        Class::Hard
    }
}

impl Class {
    /// The class of an item, by the bytes of IFS.
    pub(crate) fn of(ifs: &[u8], item: Item) -> Class
        ensures { result ≡ class_of ifs.now item }
    {
        match item {
            Item::Literal(byte) => Class::Keep(Item::Literal(byte)),
            Item::Quoted(byte) => Class::Keep(Item::Quoted(byte)),
            Item::Null => Class::Keep(Item::Null),
            Item::Break => Class::Between,
            Item::Expanded(byte) => expanded_class(is_in(ifs, byte), is_white_space(byte), byte),
        }
    }
}
