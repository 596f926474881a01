//! Variables as built-ins list them.
ghost use Rattle.std.specs.Prelude.{◌≡◌, ◌++◌, IfOk, OnOk};
ghost use Rattle.sh_builtin_environment.specs.Listing.{is_listed, line, lines, listing_text, in_quotes, quoted_byte, quoted_bytes, value_text, word_of};

use crate::attribute::Attribute;
use sh_base::NoMemory;
use sh_base::sequence::{Sequence, Text};
use sh_vars::{Entry, Vars};
use std::alloc::Global;

/// What is listed.
#[derive(Clone, Copy, Debug, PartialEq, Eq)]
pub(crate) enum Listing {
    /// Variables that are set, with their values.
    Values,
    /// Variables that are marked.
    Marked(Attribute),
}

impl Listing {
    /// What a line begins with.
    fn word(self) -> &'static [u8]
        ensures { result.now ≡ word_of self }
    {
        match self {
            Listing::Values => b"",
            Listing::Marked(Attribute::Export) => b"export ",
            Listing::Marked(Attribute::ReadOnly) => b"readonly ",
        }
    }

    /// Whether a variable is listed.
    fn shows(self, entry: &Entry) -> bool
        ensures { result ≡ is_listed self entry.now.1 }
    {
        match self {
            Listing::Values => entry.value().is_some(),
            Listing::Marked(Attribute::Export) => entry.is_exported(),
            Listing::Marked(Attribute::ReadOnly) => entry.is_read_only(),
        }
    }
}

/// Adds a byte of a value to a text.
fn put_byte(text: &mut Text, byte: u8) -> Result<(), NoMemory>
    ensures { OnOk result (text.new ≡ text.old ++ quoted_byte byte) }
{
    if byte == b'\'' {
        text.extend_from_slice(b"'\\''")?;
        return Ok(());
    }
    text.push(byte)?;
    Ok(())
}

/// Adds the bytes of a value to a text.
fn put_bytes(text: &mut Text, value: &[u8]) -> Result<(), NoMemory>
    ensures { OnOk result (text.new ≡ text.old ++ quoted_bytes value.now) }
{
    let mut rest = value;
    'bytes: while let Some((byte, others)) = rest.split_first() {
        put_byte(text, *byte)?;
        rest = others;
    }
    Ok(())
}

/// Adds a value in single quotes to a text, so that a shell can read it again; each single quote in it
/// becomes `'\''` (XCU 2.2.1, 2.2.2). The only error is want of memory; what the text is then is left open.
pub fn put_quoted(text: &mut Text, value: &[u8]) -> Result<(), NoMemory>
    ensures { OnOk result (text.new ≡ text.old ++ in_quotes value.now) }
{
    text.push(b'\'')?;
    put_bytes(text, value)?;
    text.push(b'\'')?;
    Ok(())
}

/// Adds a variable's value to a text, if the variable is set.
fn put_value(text: &mut Text, entry: &Entry) -> Result<(), NoMemory>
    ensures { OnOk result (text.new ≡ text.old ++ value_text entry.now.1.value) }
{
    match entry.value() {
        Some(value) => {
            text.push(b'=')?;
            put_quoted(text, value)
        },
        None => Ok(()),
    }
}

/// Adds a variable's line to a text.
#[tactic(auto, unfolding(crate::specs::Listing::line))]
fn put_line(text: &mut Text, how: Listing, entry: &Entry) -> Result<(), NoMemory>
    ensures { OnOk result (text.new ≡ text.old ++ line how entry.now.0 entry.now.1) }
{
    text.extend_from_slice(how.word())?;
    text.extend_from_slice(entry.name())?;
    put_value(text, entry)?;
    text.push(b'\n')?;
    Ok(())
}

/// The lines of these variables.
fn lines(alloc: Global, how: Listing, entries: &[Entry]) -> Result<Text, NoMemory>
    ensures { IfOk result (λ text. text ≡ lines how entries.now) }
{
    let mut text = Sequence::new(alloc);
    let mut rest = entries;
    'entries: while let Some((entry, others)) = rest.split_first() {
        if how.shows(entry) {
            put_line(&mut text, how, entry)?;
        }
        rest = others;
    }
    Ok(text)
}

/// The variables that are listed.
pub(crate) fn list(alloc: Global, how: Listing, vars: &Vars) -> Result<Text, NoMemory>
    ensures { IfOk result (λ text. text ≡ listing_text how vars.now) }
{
    lines(alloc, how, vars.variables())
}
