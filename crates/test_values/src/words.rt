//! Words as a command has them, each for what it is to be expanded for.
use crate::steps::joined;
use sh_base::sequence::Sequence;
use sh_base::shared::Shared;
use sh_expand::{Context, Wanted};
use sh_parse::{Aliases, ParseFault, Reading, read_command};
use sh_syntax::tree::{Command, CompoundList, Parts, SimpleItem, Target};
use std::alloc::Global;
use test_rows::RowFault;

/// A command with these words behind its name, or with a here-document that has them as its body.
fn command_of(alloc: Global, context: Context, words: &[u8]) -> Result<Vec<u8>, RowFault> {
    let (prefix, back) = match context {
        Context::QuotedSingle => (b": <<E\n".as_slice(), b"\nE\n".as_slice()),
        _ => (b": ".as_slice(), b"\n".as_slice()),
    };
    joined(alloc, &[prefix, words, back])
}

/// The items of a simple command; none of any other.
fn simple_items(tree: &CompoundList) -> &[SimpleItem] {
    let Some(item) = tree.items.as_slice().first() else {
        return &[];
    };
    match item.list.get().first.get().first.get() {
        Command::Simple(items) => items.as_slice(),
        _ => &[],
    }
}

/// The parts of a word, or of a here-document's body.
fn parts_of(item: &SimpleItem) -> Option<&Shared<Parts>> {
    match item {
        SimpleItem::Word(word) => Some(&word.parts),
        SimpleItem::Redirect(redirect) => match &redirect.target {
            Target::Here { body, .. } => Some(body),
            Target::Named { .. } => None,
        },
        SimpleItem::Assignment { .. } => None,
    }
}

/// The words of a command, or its here-document's body.
fn words_of(
    alloc: Global,
    context: Context,
    tree: &CompoundList,
) -> Result<Sequence<Wanted>, RowFault> {
    let mut words = Sequence::new(alloc);
    for item in simple_items(tree).iter().skip(1) {
        if let Some(parts) = parts_of(item) {
            let parts = parts.share()?;
            words.push(Wanted { parts, context })?;
        }
    }
    Ok(words)
}

/// The words of a text, or its here-document's body; none where the text is no command.
pub(crate) fn read(
    alloc: Global,
    context: Context,
    text: &[u8],
) -> Result<Sequence<Wanted>, RowFault> {
    let command = command_of(alloc, context, text)?;
    match read_command(alloc, command.as_slice(), true, &Aliases::new(alloc)) {
        Ok(Reading::Complete { tree, .. }) => {
            let words = words_of(alloc, context, &tree);
            drop(tree);
            words
        },
        Err(ParseFault::NoMemory(_)) => Err(RowFault::NoMemory),
        _ => Ok(Sequence::new(alloc)),
    }
}
