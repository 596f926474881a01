//! Unquoted bytes of a word, with tilde expansion (XCU 2.6.1).
ghost use Rattle.std.specs.Prelude.{◌≡◌, ◌++◌, ◌∷◌, [], OnOk, IfOk, map, option_map};
ghost use Rattle.sh_expand_fields.specs.declared.item.Item.TheVariants as item;
ghost use Rattle.sh_expand_parts.specs.Drafts.{field_items, plain};
ghost use Rattle.sh_expand_parts.specs.Tildes.{byte_items, literal_begun, literal_items, prefixes_in};

use crate::context::Context;
use crate::draft::{Draft, push_field, push_quoted};
use sh_base::sequence::Sequence;
use sh_expand_fields::Item;
use sh_vars::Vars;
use std::alloc::{AllocError, Global};

/// Where a tilde prefix may begin (XCU 2.6.1).
#[derive(Clone, Copy, Debug, PartialEq, Eq)]
pub(crate) struct Prefixes {
    /// At the next byte.
    pub(crate) here: bool,
    /// After each `:` that follows.
    pub(crate) behind_colon: bool,
    /// After the first `=` that follows.
    pub(crate) behind_equals: bool,
}

impl Prefixes {
    ghost use Rattle.sh_expand_parts.specs.Tildes.{ends_prefix, is_prefix, next_prefixes, prefixes, prefixes_in};

    fn new(here: bool, behind_colon: bool, behind_equals: bool) -> Prefixes
        ensures { result ≡ prefixes here behind_colon behind_equals }
    {
        Prefixes {
            here,
            behind_colon,
            behind_equals,
        }
    }

    /// Where prefixes may begin in a part of a word.
    fn of(context: Context, first: bool) -> Prefixes
        ensures { result ≡ prefixes_in context first }
    {
        match context {
            Context::Fields => Prefixes::new(first, false, false),
            Context::Inner => Prefixes::new(first, false, false),
            Context::Quoted => Prefixes::new(false, false, false),
            Context::Single => Prefixes::new(first, false, false),
            Context::Assignment => Prefixes::new(first, true, false),
            Context::Operand => Prefixes::new(false, true, first),
            Context::QuotedSingle => Prefixes::new(false, false, false),
        }
    }

    /// Where prefixes may begin after this byte.
    fn behind(self, byte: u8) -> Prefixes
        ensures { result ≡ next_prefixes self byte }
    {
        Prefixes {
            here: (self.behind_colon && byte == b':') || (self.behind_equals && byte == b'='),
            behind_colon: self.behind_colon,
            behind_equals: self.behind_equals && byte != b'=',
        }
    }

    /// Whether a prefix ends before the bytes `behind`. `last` is whether the word ends with them.
    fn end_before(self, last: bool, behind: &[u8]) -> bool
        ensures { result ≡ ends_prefix self last behind.now }
    {
        match behind {
            [] => last,
            [byte, ..] => *byte == b'/' || (self.behind_colon && *byte == b':'),
        }
    }

    /// Whether this byte, with `behind` after it, is a tilde prefix.
    fn is_one(self, last: bool, byte: u8, behind: &[u8]) -> bool
        ensures { result ≡ is_prefix self last byte behind.now }
    {
        self.here && byte == b'~' && self.end_before(last, behind)
    }
}

/// Appends one byte of the word, or HOME in its place.
fn push_byte(
    items: &mut Sequence<Item>,
    context: Context,
    home: Option<&[u8]>,
    is_prefix: bool,
    byte: u8,
) -> Result<(), AllocError>
    ensures { OnOk result
        (items.new ≡ items.old ++ byte_items context (option_map (λ h. h.now) home.entry)
        is_prefix byte) }
{
    let Some(home) = home else {
        items.push(context.literal_item(byte))?;
        return Ok(());
    };
    if !is_prefix {
        items.push(context.literal_item(byte))?;
        return Ok(());
    }
    items.push(Item::Null)?;
    push_quoted(items, home)?;
    Ok(())
}

/// The items of a run of unquoted bytes.
fn literal_items(
    alloc: Global,
    context: Context,
    home: Option<&[u8]>,
    first: bool,
    last: bool,
    bytes: &[u8],
) -> Result<Sequence<Item>, AllocError>
    ensures { IfOk result (λ items.
        items ≡ literal_items context (option_map (λ h. h.now) home.entry) last
        (prefixes_in context first) bytes.now) }
{
    let mut items = Sequence::new(alloc);
    let mut prefixes = Prefixes::of(context, first);
    let mut rest = bytes;
    'bytes: while let Some((byte, behind)) = rest.split_first() {
        let is_prefix = prefixes.is_one(last, *byte, behind);
        push_byte(&mut items, context, home, is_prefix, *byte)?;
        prefixes = prefixes.behind(*byte);
        rest = behind;
    }
    Ok(items)
}

/// A run of unquoted bytes of a word, with tilde expansion (XCU 2.6.1). `first` and `last` say whether they
/// are the word's first part and its last. The only error is want of memory.
pub fn begin_literal(
    alloc: Global,
    vars: &Vars,
    context: Context,
    first: bool,
    last: bool,
    bytes: &[u8],
) -> Result<Draft, AllocError>
    ensures { IfOk result (λ d. d ≡ literal_begun context vars.now first last bytes.now) }
{
    let items = literal_items(alloc, context, vars.get(b"HOME"), first, last, bytes)?;
    Ok(Draft::plain(items))
}

/// Bytes between single quotes (XCU 2.2.2). They make a field also where there are none. The only error is
/// want of memory.
pub fn begin_quoted(alloc: Global, bytes: &[u8]) -> Result<Draft, AllocError>
    ensures { IfOk result (λ d. d ≡ plain (field_items bytes.now)) }
{
    let mut items = Sequence::new(alloc);
    push_field(&mut items, bytes)?;
    Ok(Draft::plain(items))
}

/// A byte after a backslash (XCU 2.2.1). The only error is want of memory.
pub fn begin_escaped(alloc: Global, byte: u8) -> Result<Draft, AllocError>
    ensures { IfOk result (λ d. d ≡ plain (item.Quoted byte ∷ [])) }
{
    let mut items = Sequence::new(alloc);
    items.push(Item::Quoted(byte))?;
    Ok(Draft::plain(items))
}
