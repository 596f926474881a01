//! The items of a word so far, and what values and quotes put there.
ghost use Rattle.std.specs.Prelude.{◌≡◌, ◌++◌, ◌∷◌, [], OnOk, IfOk, map};
ghost use Rattle.sh_expand_fields.specs.declared.item.Item.TheVariants as item;
ghost use Rattle.sh_expand_parts.specs.Contexts.{value_item};
ghost use Rattle.sh_expand_parts.specs.Drafts.{all_parameters, apart, between_bytes, between_items, each_parameter, field_items, joiner, plain, nothing, quoted_each, quoted_if, value_draft, text_items, text_of_all};

use crate::context::Context;
use crate::value::Value;
use sh_base::sequence::{Sequence, Text};
use sh_expand_fields::Item;
use sh_vars::Vars;
use std::alloc::{AllocError, Global};

/// The items of a word so far.
#[derive(Debug, Drop)]
pub struct Draft {
    /// The items, in order.
    pub items: Sequence<Item>,
    /// Whether a `"$@"` came that gave no field, as there were no positional parameters.
    pub void: bool,
}

impl Draft {
    ghost use Rattle.sh_expand_parts.specs.Drafts.{concatenation, nothing, plain, quoted_draft};

    /// No item yet. Takes no memory.
    pub fn new(alloc: Global) -> Draft
        ensures { result ≡ nothing }
    {
        Draft {
            items: Sequence::new(alloc),
            void: false,
        }
    }

    /// A copy. The only error is want of memory.
    pub fn copy(&self, alloc: Global) -> Result<Draft, AllocError>
        ensures { IfOk result (λ copy. copy ≡ self.now) }
    {
        Ok(Draft {
            items: Sequence::copy_of(alloc, self.items.as_slice())?,
            void: self.void,
        })
    }

    /// A draft of these items.
    pub(crate) fn plain(items: Sequence<Item>) -> Draft
        ensures { result ≡ plain items }
    {
        Draft { items, void: false }
    }

    /// Appends another draft. The only error is want of memory, after which the contents of this draft are
    /// left open.
    pub fn append(&mut self, other: &Draft) -> Result<(), AllocError>
        ensures { OnOk result (self.new ≡ concatenation self.old other.now) }
    {
        self.items.extend_from_slice(other.items.as_slice())?;
        self.void = self.void || other.void;
        Ok(())
    }

    /// The draft of double quotes with this draft between them.
    pub(crate) fn quoted(&self, alloc: Global) -> Result<Draft, AllocError>
        ensures { IfOk result (λ d. d ≡ quoted_draft self.now) }
    {
        if self.void && self.items.is_empty() {
            return Ok(Draft::new(alloc));
        }
        let mut items = Sequence::new(alloc);
        items.push(Item::Null)?;
        items.extend_from_slice(self.items.as_slice())?;
        Ok(Draft::plain(items))
    }
}

/// Appends bytes that are quoted.
pub(crate) fn push_quoted(items: &mut Sequence<Item>, bytes: &[u8]) -> Result<(), AllocError>
    ensures { OnOk result (items.new ≡ items.old ++ map item.Quoted bytes.now) }
{
    for byte in bytes {
        items.push(Item::Quoted(*byte))?;
    }
    Ok(())
}

/// Appends the bytes of a value, as the context has them.
pub(crate) fn push_text(
    items: &mut Sequence<Item>,
    context: Context,
    bytes: &[u8],
) -> Result<(), AllocError>
    ensures { OnOk result (items.new ≡ items.old ++ text_items context bytes.now) }
{
    for byte in bytes {
        items.push(context.value_item(*byte))?;
    }
    Ok(())
}

/// One text as a draft.
pub(crate) fn text_draft(alloc: Global, context: Context, bytes: &[u8]) -> Result<Draft, AllocError>
    ensures { IfOk result (λ d. d ≡ plain (text_items context bytes.now)) }
{
    let mut items = Sequence::new(alloc);
    push_text(&mut items, context, bytes)?;
    Ok(Draft::plain(items))
}

/// Appends a parameter that is a field also where it is empty.
pub(crate) fn push_field(items: &mut Sequence<Item>, bytes: &[u8]) -> Result<(), AllocError>
    ensures { OnOk result (items.new ≡ items.old ++ field_items bytes.now) }
{
    items.push(Item::Null)?;
    push_quoted(items, bytes)?;
    Ok(())
}

/// The byte between joined parameters (XCU 2.5.2).
fn joiner(vars: &Vars) -> Option<u8>
    ensures { result ≡ joiner vars.now }
{
    match vars.get(b"IFS") {
        None => Some(b' '),
        Some(ifs) => ifs.first().copied(),
    }
}

/// The texts joined, with the byte `between` between each two, if there is one.
fn text_of_all(alloc: Global, between: Option<u8>, texts: &[Text]) -> Result<Vec<u8>, AllocError>
    ensures { IfOk result (λ all. all.items ≡ text_of_all between texts.now) }
{
    let mut all = Vec::new(alloc);
    let mut rest = texts;
    'texts: while let Some((text, others)) = rest.split_first() {
        all.extend_from_slice(text.as_slice())?;
        push_between(&mut all, between, others)?;
        rest = others;
    }
    Ok(all)
}

/// Appends the byte between texts, if further texts follow.
fn push_between(all: &mut Vec<u8>, between: Option<u8>, others: &[Text]) -> Result<(), AllocError>
    ensures { OnOk result (all.new.items ≡ all.old.items ++ between_bytes between others.now) }
{
    let Some(byte) = between else { return Ok(()) };
    if others.is_empty() {
        return Ok(());
    }
    all.push(byte)?;
    Ok(())
}

/// Appends the break between texts, if further texts follow.
fn push_break(items: &mut Sequence<Item>, others: &[Text]) -> Result<(), AllocError>
    ensures { OnOk result (items.new ≡ items.old ++ between_items others.now) }
{
    if others.is_empty() {
        return Ok(());
    }
    items.push(Item::Break)?;
    Ok(())
}

/// The texts with a break between each two.
fn apart(alloc: Global, context: Context, texts: &[Text]) -> Result<Sequence<Item>, AllocError>
    ensures { IfOk result (λ items. items ≡ apart (text_items context) texts.now) }
{
    let mut items = Sequence::new(alloc);
    let mut rest = texts;
    'texts: while let Some((text, others)) = rest.split_first() {
        push_text(&mut items, context, text.as_slice())?;
        push_break(&mut items, others)?;
        rest = others;
    }
    Ok(items)
}

/// The texts, each a field, with a break between each two.
fn fields_apart(alloc: Global, texts: &[Text]) -> Result<Sequence<Item>, AllocError>
    ensures { IfOk result (λ items. items ≡ apart field_items texts.now) }
{
    let mut items = Sequence::new(alloc);
    let mut rest = texts;
    'texts: while let Some((text, others)) = rest.split_first() {
        push_field(&mut items, text.as_slice())?;
        push_break(&mut items, others)?;
        rest = others;
    }
    Ok(items)
}

/// `"$@"`.
fn quoted_each(alloc: Global, texts: &[Text]) -> Result<Draft, AllocError>
    ensures { IfOk result (λ d. d ≡ quoted_each texts.now) }
{
    if texts.is_empty() {
        return Ok(Draft {
            items: Sequence::new(alloc),
            void: true,
        });
    }
    Ok(Draft::plain(fields_apart(alloc, texts)?))
}

/// The texts joined, as the bytes of one value.
fn one_text(
    alloc: Global,
    context: Context,
    between: Option<u8>,
    texts: &[Text],
) -> Result<Draft, AllocError>
    ensures { IfOk result (λ d. d ≡ plain (text_items context (text_of_all between texts.now))) }
{
    let text = text_of_all(alloc, between, texts)?;
    text_draft(alloc, context, text.as_slice())
}

/// `$@` (XCU 2.5.2).
fn each_parameter(alloc: Global, context: Context, texts: &[Text]) -> Result<Draft, AllocError>
    ensures { IfOk result (λ d. d ≡ each_parameter context texts.now) }
{
    match context {
        Context::Fields => Ok(Draft::plain(apart(alloc, context, texts)?)),
        Context::Inner => Ok(Draft::plain(apart(alloc, context, texts)?)),
        Context::Quoted => quoted_each(alloc, texts),
        Context::Single => one_text(alloc, context, Some(b' '), texts),
        Context::Assignment => one_text(alloc, context, Some(b' '), texts),
        Context::Operand => one_text(alloc, context, Some(b' '), texts),
        Context::QuotedSingle => one_text(alloc, context, Some(b' '), texts),
    }
}

/// `$*` (XCU 2.5.2).
fn all_parameters(
    alloc: Global,
    context: Context,
    between: Option<u8>,
    texts: &[Text],
) -> Result<Draft, AllocError>
    ensures { IfOk result (λ d. d ≡ all_parameters context between texts.now) }
{
    match context {
        Context::Fields => Ok(Draft::plain(apart(alloc, context, texts)?)),
        Context::Inner => Ok(Draft::plain(apart(alloc, context, texts)?)),
        Context::Quoted => one_text(alloc, context, between, texts),
        Context::Single => one_text(alloc, context, between, texts),
        Context::Assignment => one_text(alloc, context, between, texts),
        Context::Operand => one_text(alloc, context, between, texts),
        Context::QuotedSingle => one_text(alloc, context, between, texts),
    }
}

/// The items of a value (XCU 2.5.2).
pub(crate) fn shown(
    alloc: Global,
    context: Context,
    vars: &Vars,
    value: &Value,
) -> Result<Draft, AllocError>
    ensures { IfOk result (λ d. d ≡ value_draft context (joiner vars.now) value.now) }
{
    match value {
        Value::Unset => Ok(Draft::new(alloc)),
        Value::Scalar(text) => text_draft(alloc, context, text.as_slice()),
        Value::Each(texts) => each_parameter(alloc, context, texts.as_slice()),
        Value::Joined(texts) => all_parameters(alloc, context, joiner(vars), texts.as_slice()),
    }
}
