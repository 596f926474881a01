//! Trees of derivations. The tokens of a TEXT stand between blanks; a newline is one too.
//!
//! `tree WANTED TEXT`: the text of the one AND-OR list of a command: a `;` or `&` behind each AND-OR list inside, `;` for what separates
//! the words of a for from its do, no other newline. With a text of six fields (`fields::built`) how long it is.
//!
//! `lists WANTED TEXT`: of each AND-OR list of a command what stands behind it, `;` or `&`, and how many pipelines stand behind its first,
//! if any do. With a text of six fields how many lists there are. `substituted-lists WANTED TEXT`: the same for the text of a command
//! substitution.
//!
//! `items WANTED TEXT`: the items of the simple command with which the one list begins: `assignment`, `word`, `redirection`.
//!
//! `actions WANTED ACTIONS`: whether actions without a leaf make a tree: a number expands the production that has it, `t` takes a token
//! of class 0.
//!
//! `leaves WANTED TEXT OTHERS`: the text of the tree of a TEXT's derivation over the leaves of other tokens, `none` where they don't fit.
//!
//! What has no such tree comes to `none`.
use crate::derivations::{Start, class_of};
use sh_base::NoMemory;
use sh_base::name::is_name;
use sh_base::sequence::{Sequence, Text};
use sh_base::shared::Shared;
use sh_grammar::{Action, Actions, Token};
use sh_parse_actions::leaf::Leaf;
use sh_parse_words::syntax_tree;
use sh_syntax::text::command_text;
use sh_syntax::tree::{
    Command, CompoundList, HereDocumentOperator, Parts, RedirectOperator, Separator, SimpleItem,
    Word,
};
use std::alloc::{AllocError, Global};
use test_rows::fields::{Found, built, number, pieces};
use test_rows::show::{put_number, put_word, word_of};
use test_rows::{Row, by_kind};

/// Bytes as a text.
fn bytes(alloc: Global, source: &[u8]) -> Result<Text, NoMemory> {
    Ok(Text::from_vec(source.to_vec(alloc)?))
}

/// No parts.
fn no_parts(alloc: Global) -> Result<Shared<Parts>, NoMemory> {
    Ok(Shared::new(
        alloc,
        Parts {
            items: Sequence::new(alloc),
        },
    )?)
}

/// A word without parts.
fn word(alloc: Global, source: &[u8]) -> Result<Word, NoMemory> {
    Ok(Word {
        parts: no_parts(alloc)?,
        source: bytes(alloc, source)?,
    })
}

/// The operator of a here-document with an empty body.
fn here_document(alloc: Global) -> Result<Leaf, NoMemory> {
    Ok(Leaf::HereDocument {
        operator: HereDocumentOperator::AsWritten,
        body: no_parts(alloc)?,
    })
}

/// An assignment to `x`.
fn assignment(alloc: Global, token: &[u8]) -> Result<Leaf, NoMemory> {
    let word = word(alloc, token)?;
    let name = bytes(alloc, b"x")?;
    Ok(Leaf::Assignment {
        word,
        name,
        value: no_parts(alloc)?,
    })
}

/// A word, a name or not.
fn word_leaf(alloc: Global, token: &[u8]) -> Result<Leaf, NoMemory> {
    let word = word(alloc, token)?;
    if !is_name(token) {
        return Ok(Leaf::Word(word));
    }
    let name = bytes(alloc, token)?;
    Ok(Leaf::Name { word, name })
}

/// What a token is to the tree.
fn leaf(alloc: Global, token: &[u8]) -> Result<Leaf, NoMemory> {
    match token {
        b"<<" => here_document(alloc),
        b">" => Ok(Leaf::Redirection(RedirectOperator::Output)),
        b"2" => Ok(Leaf::Number(bytes(alloc, token)?)),
        b"x=1" | b"y=2" => assignment(alloc, token),
        b";" | b"&" | b"&&" | b"||" | b"|" | b"(" | b")" | b";;" | b"\n" => Ok(Leaf::Operator),
        text => word_leaf(alloc, text),
    }
}

/// Puts the leaves of tokens behind others.
fn put_leaves(alloc: Global, leaves: &mut Vec<Leaf>, tokens: &[&[u8]]) -> Result<(), NoMemory> {
    for token in tokens {
        leaves.push(leaf(alloc, token)?)?;
    }
    Ok(())
}

/// The leaves of tokens.
fn leaves_of(alloc: Global, tokens: &[&[u8]]) -> Result<Vec<Leaf>, NoMemory> {
    let mut leaves = Vec::new(alloc);
    match put_leaves(alloc, &mut leaves, tokens) {
        Ok(()) => Ok(leaves),
        Err(fault) => {
            drop(leaves);
            Err(fault)
        },
    }
}

/// The derivation of tokens, if they have one.
fn actions_of(
    alloc: Global,
    tokens: &[&[u8]],
    start: Start,
) -> Result<Option<Actions>, AllocError> {
    let mut recognizer = start.recognizer(alloc)?;
    for (id, token) in tokens.iter().enumerate() {
        let class = class_of(token).number();
        if !recognizer.take(Token { class, id })? {
            return Ok(None);
        }
    }
    recognizer.finish()
}

/// The tree of a text over the leaves of these tokens, if it has one.
fn tree_over(
    alloc: Global,
    text: &[u8],
    leaves: &[&[u8]],
    start: Start,
) -> Result<Option<CompoundList>, NoMemory> {
    let Some(actions) = actions_of(alloc, &pieces(alloc, text)?, start)? else {
        return Ok(None);
    };
    let leaves = leaves_of(alloc, leaves)?;
    let tree = syntax_tree(alloc, actions.as_slice(), leaves)?;
    Ok(tree)
}

/// The tree of a text, if it has one.
fn tree_of(alloc: Global, text: &[u8], start: Start) -> Result<Option<CompoundList>, NoMemory> {
    let tokens = pieces(alloc, text)?;
    tree_over(alloc, text, &tokens, start)
}

/// What is shown of a tree.
#[derive(Clone, Copy)]
enum Shown {
    Text,
    Size,
    Lists,
    Count,
    Items,
}

/// Writes the text of the one list of a tree, or how long it is.
fn put_text(
    alloc: Global,
    shown: &mut Vec<u8>,
    tree: &CompoundList,
    is_whole: bool,
) -> Result<(), NoMemory> {
    let [item] = tree.items.as_slice() else {
        put_word(shown, b"none")?;
        return Ok(());
    };
    let text = command_text(alloc, item.list.get())?;
    if is_whole {
        put_word(shown, text.as_slice())?;
    } else {
        put_number(shown, text.len())?;
    }
    Ok(())
}

/// Writes what stands behind each list, and how many pipelines each has behind its first.
fn put_lists(shown: &mut Vec<u8>, tree: &CompoundList) -> Result<(), NoMemory> {
    for item in tree.items.as_slice() {
        let sign = match item.separator {
            Separator::Sequential => b';',
            Separator::Asynchronous => b'&',
        };
        put_word(shown, &[sign])?;
        let rest = item.list.get().rest.len();
        if rest > 0 {
            put_number(shown, rest)?;
        }
    }
    Ok(())
}

/// Writes what the items of a simple command are.
fn put_items(shown: &mut Vec<u8>, command: &Command) -> Result<(), NoMemory> {
    let Command::Simple(items) = command else {
        put_word(shown, b"none")?;
        return Ok(());
    };
    for item in items.as_slice() {
        match item {
            SimpleItem::Assignment { .. } => put_word(shown, b"assignment")?,
            SimpleItem::Word(_) => put_word(shown, b"word")?,
            SimpleItem::Redirect(_) => put_word(shown, b"redirection")?,
        }
    }
    Ok(())
}

/// Writes what is shown of a tree.
fn put_tree(
    alloc: Global,
    shown: &mut Vec<u8>,
    tree: &CompoundList,
    what: Shown,
) -> Result<(), NoMemory> {
    match what {
        Shown::Text => put_text(alloc, shown, tree, true),
        Shown::Size => put_text(alloc, shown, tree, false),
        Shown::Lists => put_lists(shown, tree),
        Shown::Count => Ok(put_number(shown, tree.items.len())?),
        Shown::Items => match tree.items.as_slice() {
            [item] => put_items(shown, item.list.get().first.get().first.get()),
            _ => Ok(put_word(shown, b"none")?),
        },
    }
}

/// What is shown of a text.
fn shown_of(alloc: Global, text: &[u8], start: Start, what: Shown) -> Result<Vec<u8>, NoMemory> {
    let Some(tree) = tree_of(alloc, text, start)? else {
        return word_of(alloc, b"none");
    };
    let mut shown = Vec::new(alloc);
    let put = put_tree(alloc, &mut shown, &tree, what);
    drop(tree);
    put?;
    Ok(shown)
}

/// The text of the tree of a text over the leaves of others.
fn shown_over(alloc: Global, text: &[u8], others: &[u8]) -> Result<Vec<u8>, NoMemory> {
    let leaves = pieces(alloc, others)?;
    let Some(tree) = tree_over(alloc, text, &leaves, Start::Command)? else {
        return word_of(alloc, b"none");
    };
    let mut shown = Vec::new(alloc);
    let put = put_tree(alloc, &mut shown, &tree, Shown::Text);
    drop(tree);
    put?;
    Ok(shown)
}

/// What is shown of a built text.
fn shown_of_built(alloc: Global, row: &Row, what: Shown) -> Result<Vec<u8>, NoMemory> {
    let text = built(alloc, row)?;
    shown_of(alloc, &text, Start::Command, what)
}

/// The actions that a field writes.
fn written_actions(alloc: Global, field: &[u8]) -> Result<Vec<Action>, AllocError> {
    let mut actions = Vec::new(alloc);
    for piece in pieces(alloc, field)?.as_slice() {
        if piece.starts_with(b"t") {
            actions.push(Action::Shift(Token { class: 0, id: 0 }))?;
        } else {
            let production = u8::try_from(number(piece)).unwrap_or(u8::MAX);
            actions.push(Action::Expand(production))?;
        }
    }
    Ok(actions)
}

/// `actions`.
fn tree_of_actions(alloc: Global, field: &[u8]) -> Result<Vec<u8>, NoMemory> {
    let actions = written_actions(alloc, field)?;
    let tree = syntax_tree(alloc, &actions, Vec::new(alloc))?;
    let is_none = tree.is_none();
    drop(tree);
    word_of(alloc, if is_none { b"none" } else { b"tree" })
}

/// What a row comes to; none where its kind is none of these.
pub(crate) fn found(alloc: Global, row: &Row) -> Found {
    let text = row.field(2);
    by_kind! { row;
        "tree", 2 => shown_of(alloc, text, Start::Command, Shown::Text);
        "lists", 2 => shown_of(alloc, text, Start::Command, Shown::Lists);
        "substituted-lists", 2 => shown_of(alloc, text, Start::Substitution, Shown::Lists);
        "items", 2 => shown_of(alloc, text, Start::Command, Shown::Items);
        "actions", 2 => tree_of_actions(alloc, text);
        "leaves", 3 => shown_over(alloc, text, row.field(3));
        "tree", 7 => shown_of_built(alloc, row, Shown::Size);
        "lists", 7 => shown_of_built(alloc, row, Shown::Count);
    }
}
