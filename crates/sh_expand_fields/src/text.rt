//! Fields as text and as patterns.
ghost use Rattle.std.specs.Prelude.{◌≡◌, ◌++◌, ◌∷◌, List, IfOk, OnOk, [], false, option_to_list};
ghost use Rattle.sh_expand_fields.specs.Text.{mark, marks, marks_of, text_of};

use crate::item::Item;
use sh_pattern::PatternByte;
use std::alloc::{AllocError, Global};

/// The byte of an item, if it has one.
fn byte_of(item: Item) -> Option<u8>
    ensures { (rest : List Item) → text_of (item ∷ rest) ≡ option_to_list result ++ text_of rest }
{
    match item {
        Item::Literal(byte) => Some(byte),
        Item::Quoted(byte) => Some(byte),
        Item::Expanded(byte) => Some(byte),
        Item::Null => None,
        Item::Break => None,
    }
}

/// The text of a field when its quotes are removed (XCU 2.6.7). The only error is want of memory.
pub fn remove_quotes(alloc: Global, field: &[Item]) -> Result<Vec<u8>, AllocError>
    ensures { IfOk result (λ text. text.items ≡ text_of field.now) }
{
    let mut text = Vec::with_capacity(alloc, field.len())?;
    let mut rest = field;
    'items: while let Some((item, behind)) = rest.split_first() {
        if let Some(byte) = byte_of(*item) {
            text.push(byte)?;
        }
        rest = behind;
    }
    Ok(text)
}

/// The bytes of the pattern so far, and whether a backslash that an expansion gave comes right before the
/// next.
#[derive(Drop)]
pub(crate) struct Marker {
    marks: Vec<PatternByte>,
    escaped: bool,
}

impl Marker {
    /// Adds a byte of the pattern.
    fn add(&mut self, byte: u8, literal: bool) -> Result<(), AllocError>
        ensures marks { OnOk result
            (self.new.marks.items ≡ self.old.marks.items ++ mark byte literal ∷ []) }
        ensures escaped { OnOk result (self.new.escaped ≡ false) }
    {
        self.marks.push(PatternByte { byte, literal })?;
        self.escaped = false;
        Ok(())
    }

    /// Takes one more item.
    fn take(&mut self, item: Item) -> Result<(), AllocError>
        ensures { OnOk result
            ((rest : List Item) → self.new.marks.items ++ marks self.new.escaped rest
            ≡ self.old.marks.items ++ marks self.old.escaped (item ∷ rest)) }
    {
        match item {
            Item::Literal(byte) => {
                self.add(byte, self.escaped)?;
                Ok(())
            }
            Item::Quoted(byte) => {
                self.add(byte, true)?;
                Ok(())
            }
            Item::Expanded(byte) => {
                if !self.escaped && byte == b'\\' {
                    self.escaped = true;
                    return Ok(());
                }
                self.add(byte, self.escaped)?;
                Ok(())
            }
            Item::Null => Ok(()),
            Item::Break => Ok(()),
        }
    }

    /// The pattern. A backslash that no byte follows is a literal byte at its end.
    fn finish(mut self) -> Result<Vec<PatternByte>, AllocError>
        ensures { IfOk result (λ all. all.items ≡ self.marks.items ++ marks self.escaped []) }
    {
        if self.escaped {
            self.add(b'\\', true)?;
        }
        Ok(self.marks)
    }
}

/// A field as a pattern (XCU 2.14.1). Quoted bytes are literal. A backslash that an expansion gave makes the
/// byte after it literal; where no byte follows, the backslash itself is a literal byte. The only error is
/// want of memory.
pub fn pattern_of(alloc: Global, field: &[Item]) -> Result<Vec<PatternByte>, AllocError>
    ensures { IfOk result (λ pattern. pattern.items ≡ marks_of field.now) }
{
    let mut marker = Marker {
        marks: Vec::with_capacity(alloc, field.len())?,
        escaped: false,
    };
    let mut rest = field;
    'items: while let Some((item, behind)) = rest.split_first() {
        marker.take(*item)?;
        rest = behind;
    }
    let marks = marker.finish()?;
    Ok(marks)
}
