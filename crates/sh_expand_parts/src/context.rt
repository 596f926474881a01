//! What a word is expanded for.
ghost use Rattle.std.specs.Prelude.{◌≡◌};
ghost use Rattle.sh_expand_parts.specs.Contexts.{value_item};

use sh_expand_fields::Item;

/// What a word is expanded for, or the place of a word inside another one (XCU 2.6).
#[derive(Clone, Copy, Debug, PartialEq, Eq)]
pub enum Context {
    /// A word of a command: it is split into fields afterwards (XCU 2.6.5).
    Fields,
    /// The word of an unquoted `${p-w}` in such a word: its own bytes are split too.
    Inner,
    /// Between double quotes in such a word.
    Quoted,
    /// A word that gives one text: the word of a redirection or of `case`, a pattern, what `${p=w}` assigns.
    Single,
    /// The value of an assignment: one text, with a tilde prefix also after each `:`.
    Assignment,
    /// A word `NAME=value` of `export` or `readonly`, as an assignment.
    Operand,
    /// The body of a here-document, an arithmetic expression, and what is between double quotes in a word
    /// that gives one text.
    QuotedSingle,
}

impl Context {
    ghost use Rattle.sh_expand_parts.specs.Contexts.{inside_default, inside_quotes, inside_text, literal_item, value_item};

    /// The item of a byte of the word itself, outside inner quotes.
    pub(crate) fn literal_item(self, byte: u8) -> Item
        ensures { result ≡ literal_item self byte }
    {
        match self {
            Context::Fields => Item::Literal(byte),
            Context::Inner => Item::Expanded(byte),
            Context::Quoted => Item::Quoted(byte),
            Context::Single => Item::Literal(byte),
            Context::Assignment => Item::Literal(byte),
            Context::Operand => Item::Literal(byte),
            Context::QuotedSingle => Item::Quoted(byte),
        }
    }

    /// The item of a byte that an expansion gives here.
    pub(crate) fn value_item(self, byte: u8) -> Item
        ensures { result ≡ value_item self byte }
    {
        match self {
            Context::Fields => Item::Expanded(byte),
            Context::Inner => Item::Expanded(byte),
            Context::Quoted => Item::Quoted(byte),
            Context::Single => Item::Expanded(byte),
            Context::Assignment => Item::Expanded(byte),
            Context::Operand => Item::Expanded(byte),
            Context::QuotedSingle => Item::Quoted(byte),
        }
    }

    /// The context between double quotes here.
    pub fn inside_quotes(self) -> Context
        ensures { result ≡ inside_quotes self }
    {
        match self {
            Context::Fields => Context::Quoted,
            Context::Inner => Context::Quoted,
            Context::Quoted => Context::Quoted,
            Context::Single => Context::QuotedSingle,
            Context::Assignment => Context::QuotedSingle,
            Context::Operand => Context::QuotedSingle,
            Context::QuotedSingle => Context::QuotedSingle,
        }
    }

    /// The context of the word in a `${p-w}` or `${p+w}` here.
    pub(crate) fn inside_default(self) -> Context
        ensures { result ≡ inside_default self }
    {
        match self {
            Context::Fields => Context::Inner,
            Context::Inner => Context::Inner,
            Context::Quoted => Context::Quoted,
            Context::Single => Context::Single,
            Context::Assignment => Context::Single,
            Context::Operand => Context::Single,
            Context::QuotedSingle => Context::QuotedSingle,
        }
    }

    /// The context of the word in a `${p=w}` or `${p?w}` here.
    pub(crate) fn inside_text(self) -> Context
        ensures { result ≡ inside_text self }
    {
        match self {
            Context::Fields => Context::Single,
            Context::Inner => Context::Single,
            Context::Quoted => Context::QuotedSingle,
            Context::Single => Context::Single,
            Context::Assignment => Context::Single,
            Context::Operand => Context::Single,
            Context::QuotedSingle => Context::QuotedSingle,
        }
    }
}
