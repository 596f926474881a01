//! The parts of a simple command in its tree (XCU 2.9.1).
ghost use Rattle.std.specs.Prelude.{◌≡◌, ◌++◌, [], IfOk, OnOk, length, option_map};
ghost use Rattle.std.specs.List.{list_any};
ghost use Rattle.sh_exec_parts.specs.Simple.{assignment_of, assignments_of, before, is_redirect, is_word, items_of, redirect_fields, redirect_of, redirect_wanted, redirects_of, simple_items, to_assign, word_fields, word_of};

use sh_base::NoMemory;
use sh_base::sequence::{Sequence, Text};
use sh_base::shared::Shared;
use sh_expand::{Context, Wanted};
use sh_syntax::tree::{Command, Parts, Redirect, SimpleItem, Target};
use std::alloc::Global;

/// An assignment that a command does (XCU 2.9.1).
#[derive(Drop)]
pub struct Assignment {
    pub name: Text,
    pub value: Shared<Parts>,
}

/// The items of a simple command; `None` for a command of another form.
pub fn simple_items(command: &Command) -> Option<&[SimpleItem]>
    ensures { option_map (λ items. items.now) result ≡ simple_items command.now }
{
    match command {
        Command::Simple(items) => Some(items.as_slice()),
        Command::Compound(_) => None,
        Command::Function { .. } => None,
    }
}

/// The items of a command; a command of another form has none.
pub fn items_of(command: &Command) -> &[SimpleItem]
    ensures { result.now ≡ items_of command.now }
{
    match simple_items(command) {
        Some(items) => items,
        None => &[],
    }
}

/// The parts of an item that is a word.
pub fn word_of(item: &SimpleItem) -> Option<&Shared<Parts>>
    ensures { option_map (λ parts. parts.now) result ≡ word_of item.now }
{
    match item {
        SimpleItem::Assignment { .. } => None,
        SimpleItem::Word(word) => Some(&word.parts),
        SimpleItem::Redirect(_) => None,
    }
}

/// The name and the value of an item that is an assignment.
pub fn assignment_of(item: &SimpleItem) -> Option<(&Text, &Shared<Parts>)>
    ensures { option_map (λ a. (a.0.now, a.1.now)) result ≡ assignment_of item.now }
{
    match item {
        SimpleItem::Assignment { name, value, .. } => Some((name, value)),
        SimpleItem::Word(_) => None,
        SimpleItem::Redirect(_) => None,
    }
}

/// The redirection that an item is.
pub fn redirect_of(item: &SimpleItem) -> Option<&Redirect>
    ensures { option_map (λ redirect. redirect.now) result ≡ redirect_of item.now }
{
    match item {
        SimpleItem::Assignment { .. } => None,
        SimpleItem::Word(_) => None,
        SimpleItem::Redirect(redirect) => Some(redirect),
    }
}

/// Whether an item is a word.
pub fn is_word(item: &SimpleItem) -> bool
    ensures { result ≡ is_word item.now }
{
    word_of(item).is_some()
}

/// Whether an item is a redirection.
pub fn is_redirect(item: &SimpleItem) -> bool
    ensures { result ≡ is_redirect item.now }
{
    redirect_of(item).is_some()
}

/// Whether a command has a word.
pub fn has_words(items: &[SimpleItem]) -> bool
    ensures { result ≡ list_any is_word items.now }
{
    items.iter().any(|item| is_word(item))
}

/// Whether a command has a redirection.
pub fn has_redirects(items: &[SimpleItem]) -> bool
    ensures { result ≡ list_any is_redirect items.now }
{
    items.iter().any(|item| is_redirect(item))
}

/// How many redirections a command has.
pub fn redirect_count(items: &[SimpleItem]) -> usize
    ensures { result ≡ length (redirects_of items.now) }
{
    let mut count = 0;
    let mut rest = items;
    'items: while let Some((item, others)) = rest.split_first() {
        if is_redirect(item) {
            count += 1;
        }
        rest = others;
    }
    count
}

/// What of a redirection is expanded.
pub(crate) fn redirect_wanted(redirect: &Redirect) -> Result<Wanted, NoMemory>
    ensures { IfOk result (λ wanted. wanted ≡ redirect_wanted redirect.now) }
{
    match &redirect.target {
        Target::Named { word, .. } => Ok(Wanted {
            parts: word.parts.share()?,
            context: Context::Single,
        }),
        Target::Here { body, .. } => Ok(Wanted {
            parts: body.share()?,
            context: Context::QuotedSingle,
        }),
    }
}

/// Splits the fields of a command with this many redirections: first those of its words, then those of its
/// redirections, one for each.
pub fn split_fields(fields: &[Text], redirections: usize) -> (&[Text], &[Text])
    ensures words { result.0.now ≡ word_fields fields.now redirections }
    ensures redirects { result.1.now ≡ redirect_fields fields.now redirections }
{
    fields.split_at(fields.len().saturating_sub(redirections))
}

/// Adds an item that is an assignment after the others.
fn put_assignment(
    alloc: Global,
    assignments: &mut Sequence<Assignment>,
    item: &SimpleItem,
) -> Result<(), NoMemory>
    ensures { OnOk result
        (assignments.new ≡ assignments.old ++ before
        (option_map to_assign (assignment_of item.now)) []) }
{
    let Some((name, value)) = assignment_of(item) else {
        return Ok(());
    };
    let mut copy = Text::new(alloc);
    copy.extend_from_slice(name.as_slice())?;
    assignments.push(Assignment {
        name: copy,
        value: value.share()?,
    })?;
    Ok(())
}

/// The assignments of a command, in order.
pub fn assignments_of(alloc: Global, items: &[SimpleItem]) -> Result<Sequence<Assignment>, NoMemory>
    ensures { IfOk result (λ assignments. assignments ≡ assignments_of items.now) }
{
    let mut assignments = Sequence::new(alloc);
    let mut rest = items;
    'items: while let Some((item, others)) = rest.split_first() {
        put_assignment(alloc, &mut assignments, item)?;
        rest = others;
    }
    Ok(assignments)
}
