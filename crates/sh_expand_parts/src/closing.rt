//! The result of a word once it is expanded.
ghost use Rattle.sh_base.specs.Memory.{no_memory};
ghost use Rattle.std.specs.Prelude.{◌≡◌, ◌≢◌, IfOk, IfErr, OnOk, MatchResult};
ghost use Rattle.std.specs.Fmt.{signed_decimal};
ghost use Rattle.sh_vars.specs.Environment.{is_read_only};
ghost use Rattle.sh_base.specs.Names.{is_name};
ghost use Rattle.sh_arith.specs.Evaluated.{evaluation};
ghost use Rattle.sh_arith.specs.Outcome.{Gives, Stops};
ghost use Rattle.sh_arith_grammar.specs.Lexical.{word_at};
ghost use Rattle.sh_expand_fields.specs.Text.{marks_of, text_of};
ghost use Rattle.sh_expand_parts.specs.Closings.{Closing, assignment_closing, behind, closing_for, closing, arithmetic_closing, fault_of, shorter_value};
ghost use Rattle.sh_expand_parts.specs.Drafts.{concatenation, plain, quoted_draft, text_items};
ghost use Rattle.sh_expand_parts.specs.Removals.{without_match};

use crate::context::Context;
use crate::draft::{Draft, shown, text_draft};
use crate::fault::{ArithmeticError, Fault};
use crate::removal::removed;
use crate::value::{Value, signed_decimal};
use sh_arith::{ArithFault, evaluate};
use sh_arith_grammar::first_word;
use sh_base::sequence::{Sequence, Text};
use sh_expand_fields::{Item, pattern_of, remove_quotes};
use sh_syntax::tree::{Affix, Extent};
use sh_vars::{Vars, VarsFault};
use std::alloc::{AllocError, Global};

/// What a word, or a word inside another one, is expanded for.
#[derive(Debug, Drop)]
pub enum Purpose {
    /// It is a word of its own, expanded for this context.
    Word {
        context: Context,
    },
    /// It replaces its form, as in `${p-w}` and `${p+w}`.
    Default,
    /// It is between double quotes.
    Quotes,
    /// `${x=w}`: it is assigned.
    Assign {
        name: Text,
        context: Context,
    },
    /// `${p?w}`: it is the message of a fault.
    Report {
        name: Text,
    },
    /// `${p%w}` and the like: it is a pattern.
    Remove {
        value: Value,
        affix: Affix,
        extent: Extent,
        context: Context,
    },
    /// `$((w))`: it is an arithmetic expression.
    Compute {
        context: Context,
    },
}

impl Purpose {
    /// A copy. The only error is want of memory.
    pub fn copy(&self, alloc: Global) -> Result<Purpose, AllocError>
        ensures { IfOk result (λ copy. copy ≡ self.now) }
    {
        match self {
            Purpose::Word { context } => Ok(Purpose::Word { context: *context }),
            Purpose::Default => Ok(Purpose::Default),
            Purpose::Quotes => Ok(Purpose::Quotes),
            Purpose::Assign { name, context } => Ok(Purpose::Assign {
                name: Text::copy_of(alloc, name.as_slice())?,
                context: *context,
            }),
            Purpose::Report { name } => Ok(Purpose::Report {
                name: Text::copy_of(alloc, name.as_slice())?,
            }),
            Purpose::Remove {
                value,
                affix,
                extent,
                context,
            } => Ok(Purpose::Remove {
                value: value.copy(alloc)?,
                affix: *affix,
                extent: *extent,
                context: *context,
            }),
            Purpose::Compute { context } => Ok(Purpose::Compute { context: *context }),
        }
    }
}

/// A word that is expanded up to its items: what is left is field splitting, pathname expansion and quote removal.
#[derive(Debug, Drop)]
pub struct ExpandedWord {
    /// What the word was expanded for.
    pub context: Context,
    /// The items of the word, in order.
    pub items: Sequence<Item>,
}

impl ExpandedWord {
    /// A copy. The only error is want of memory.
    pub fn copy(&self, alloc: Global) -> Result<ExpandedWord, AllocError>
        ensures { IfOk result (λ copy. copy ≡ self.now) }
    {
        Ok(ExpandedWord {
            context: self.context,
            items: Sequence::copy_of(alloc, self.items.as_slice())?,
        })
    }
}

/// The result of a word once it is expanded.
#[derive(Debug, Drop)]
pub enum Closed {
    /// It was inside another word: this is that word so far.
    Goes(Draft),
    /// It was a word of its own, which is complete.
    Ends(ExpandedWord),
    /// A fault.
    Fails(Fault),
}

/// The word so far, with a value after it.
fn behind(
    alloc: Global,
    vars: &Vars,
    context: Context,
    mut saved: Draft,
    value: &Value,
) -> Result<Closed, AllocError>
    ensures { IfOk result (λ c. closing c vars.now ≡ behind saved context vars.now value.now) }
{
    let items = shown(alloc, context, vars, value)?;
    saved.append(&items)?;
    Ok(Closed::Goes(saved))
}

/// `${x=w}`.
fn assign(
    alloc: Global,
    vars: &mut Vars,
    name: Text,
    context: Context,
    saved: Draft,
    text: Text,
) -> Result<Closed, AllocError>
    ensures { IfOk result (λ c.
        closing c vars.new ≡ assignment_closing (is_name name) (is_read_only vars.old name) name
        context saved text vars.old) }
{
    match vars.set(name.as_slice(), text.as_slice()) {
        Ok(()) => {
            let closed = behind(alloc, vars, context, saved, &Value::Scalar(text))?;
            Ok(closed)
        }
        Err(VarsFault::ReadOnly) => Ok(Closed::Fails(Fault::ReadOnly { name })),
        Err(VarsFault::BadName) => Ok(Closed::Fails(Fault::BadSubstitution)),
        Err(VarsFault::NoMemory(lack)) => Err(AllocError::from(lack)),
    }
}

/// The word at a place of a text.
fn word_at(text: &[u8], place: usize) -> &[u8]
    ensures { result.now ≡ word_at text.now place }
{
    match text.get(place..) {
        Some(rest) => first_word(rest),
        None => &[],
    }
}

/// The fault for an expression without a value. `NoMemory` becomes want of memory, which is the only error.
fn fault_of(alloc: Global, text: &[u8], fault: ArithFault) -> Result<Fault, AllocError>
    ensures ok { IfOk result (λ f. f ≡ fault_of text.now fault) }
    ensures memory { OnOk result (fault ≢ ArithFault.NoMemory no_memory) }
{
    match fault {
        ArithFault::Syntax { at: _ } => Ok(Fault::Arithmetic(ArithmeticError::Syntax)),
        ArithFault::DivideByZero => Ok(Fault::Arithmetic(ArithmeticError::DivisionByZero)),
        ArithFault::NotANumber => Ok(Fault::Arithmetic(ArithmeticError::NotANumber)),
        ArithFault::ReadOnly { at } => Ok(Fault::ReadOnly {
            name: Text::copy_of(alloc, word_at(text, at))?,
        }),
        ArithFault::TooDeep => Ok(Fault::Arithmetic(ArithmeticError::TooDeep)),
        ArithFault::NoMemory(lack) => Err(AllocError::from(lack)),
        ArithFault::Unset { at } => Ok(Fault::Unset {
            name: Text::copy_of(alloc, word_at(text, at))?,
            message: None,
        }),
    }
}

/// The word so far, with a number after it.
fn number_behind(
    alloc: Global,
    context: Context,
    mut saved: Draft,
    number: i64,
) -> Result<Closed, AllocError>
    ensures { IfOk result (λ c.
        c ≡ Closed.Goes
        (concatenation saved (plain (text_items context (signed_decimal number))))) }
{
    let digits = signed_decimal(alloc, number)?;
    let items = text_draft(alloc, context, digits.as_slice())?;
    saved.append(&items)?;
    Ok(Closed::Goes(saved))
}

/// The value of an expression.
fn value_of(alloc: Global, text: &[u8], vars: &mut Vars) -> Result<i64, ArithFault>
    ensures value { IfOk result (λ v. evaluation text.now vars.old ≡ Gives v vars.new) }
    ensures fault { IfErr result (λ f.
        f ≢ ArithFault.NoMemory no_memory → evaluation text.now vars.old ≡ Stops f vars.new) }
{
    evaluate(alloc, text, vars)
}

/// `$((w))`.
fn compute(
    alloc: Global,
    vars: &mut Vars,
    context: Context,
    saved: Draft,
    text: &[u8],
) -> Result<Closed, AllocError>
    ensures { IfOk result (λ r.
        closing r vars.new ≡ arithmetic_closing context saved text.now
        (evaluation text.now vars.old)) }
{
    match value_of(alloc, text, vars) {
        Ok(number) => {
            let closed = number_behind(alloc, context, saved, number)?;
            Ok(closed)
        }
        Err(fault) => {
            let fault = fault_of(alloc, text, fault)?;
            Ok(Closed::Fails(fault))
        }
    }
}

/// The text of a word.
fn text_of(alloc: Global, items: &Sequence<Item>) -> Result<Text, AllocError>
    ensures { IfOk result (λ text. text ≡ text_of items.now) }
{
    let bytes = remove_quotes(alloc, items.as_slice())?;
    Ok(Text::from_vec(bytes))
}

/// `${p%w}` and the like.
fn remove(
    alloc: Global,
    vars: &Vars,
    value: &Value,
    affix: Affix,
    extent: Extent,
    context: Context,
    saved: Draft,
    pattern: &Sequence<Item>,
) -> Result<Closed, AllocError>
    ensures { IfOk result (λ r.
        closing r vars.now ≡ behind saved context vars.now
        (shorter_value (without_match affix extent (marks_of pattern.now)) value.now)) }
{
    let marks = pattern_of(alloc, pattern.as_slice())?;
    let rest = removed(alloc, affix, extent, marks.as_slice(), value)?;
    let closed = behind(alloc, vars, context, saved, &rest)?;
    Ok(closed)
}

/// The text of the word inside a form. Its draft is dropped.
fn inner_text(alloc: Global, inner: Draft) -> Result<Text, AllocError>
    ensures { IfOk result (λ text. text ≡ text_of inner.items) }
{
    let text = text_of(alloc, &inner.items);
    drop(inner);
    text
}

/// The word so far, with what is inside a form after it.
fn joined(saved: Draft, inner: Draft) -> Result<Closed, AllocError>
    ensures { IfOk result (λ r. r ≡ Closed.Goes (concatenation saved inner)) }
{
    let mut all = saved;
    let appended = all.append(&inner);
    drop(inner);
    match appended {
        Ok(()) => Ok(Closed::Goes(all)),
        Err(error) => {
            drop(all);
            Err(error)
        },
    }
}

/// The word so far, with what is between double quotes after it.
fn quote(alloc: Global, saved: Draft, inner: Draft) -> Result<Closed, AllocError>
    ensures { IfOk result (λ r. r ≡ Closed.Goes (concatenation saved (quoted_draft inner))) }
{
    let quoted = inner.quoted(alloc);
    drop(inner);
    match quoted {
        Ok(quoted) => joined(saved, quoted),
        Err(error) => {
            drop(saved);
            Err(error)
        },
    }
}

/// Ends a word that is expanded (XCU 2.2.3, 2.6.2, 2.6.4). `inner` has its items, and `saved` has what is
/// before it in the word around it.
///
/// `${x=w}` sets the variable, and fails where the variable is read-only. `$((w))` evaluates; what it
/// assigned stays where it fails. `${p?w}` always fails. The only error is want of memory, after which the
/// variables are left open.
pub fn close(
    alloc: Global,
    vars: &mut Vars,
    purpose: Purpose,
    saved: Draft,
    inner: Draft,
) -> Result<Closed, AllocError>
    ensures { IfOk result (λ r. closing r vars.new ≡ closing_for purpose saved inner vars.old) }
{
    match purpose {
        Purpose::Word { context } => {
            drop(saved);
            Ok(Closed::Ends(ExpandedWord {
                context,
                items: inner.items,
            }))
        },
        Purpose::Default => joined(saved, inner),
        Purpose::Quotes => quote(alloc, saved, inner),
        Purpose::Assign { name, context } => match inner_text(alloc, inner) {
            Ok(text) => assign(alloc, vars, name, context, saved, text),
            Err(error) => {
                drop(name);
                drop(saved);
                Err(error)
            },
        },
        Purpose::Report { name } => {
            drop(saved);
            match inner_text(alloc, inner) {
                Ok(text) => Ok(Closed::Fails(Fault::Unset {
                    name,
                    message: Some(text),
                })),
                Err(error) => {
                    drop(name);
                    Err(error)
                },
            }
        },
        Purpose::Remove {
            value,
            affix,
            extent,
            context,
        } => {
            let pattern = &inner.items;
            let closed = remove(alloc, vars, &value, affix, extent, context, saved, pattern);
            drop(inner);
            drop(value);
            closed
        },
        Purpose::Compute { context } => match inner_text(alloc, inner) {
            Ok(text) => {
                let closed = compute(alloc, vars, context, saved, text.as_slice());
                drop(text);
                closed
            },
            Err(error) => {
                drop(saved);
                Err(error)
            },
        },
    }
}
