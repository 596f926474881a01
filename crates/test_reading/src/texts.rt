//! What is shown of the trees of whole texts.
//!
//! `list WANTED TEXT`: the text of the first AND-OR list. With a text of six fields (`fields::built`) `itself`, where that is the text
//! itself, or else how long it is.
//!
//! `pipeline WANTED TEXT`: the text of the first pipeline.
//!
//! `bodies WANTED TEXT`: the bodies of the here-documents of the simple commands with which the lists begin, each with a `|` behind it,
//! and a `?` for a part that isn't literal.
//!
//! What isn't complete comes to `none`.
use crate::reading::read;
use sh_base::NoMemory;
use sh_syntax::text::{command_text, pipeline_text};
use sh_syntax::tree::{AndOr, Command, CompoundList, Part, Parts, SimpleItem, Target};
use std::alloc::{AllocError, Global};
use test_rows::fields::{Found, built};
use test_rows::show::{put_number, word_of};
use test_rows::{Row, by_kind};

/// What is shown of a tree.
#[derive(Clone, Copy)]
enum Shown {
    List,
    Pipeline,
    Bodies,
}

/// Writes a body.
fn put_body(shown: &mut Vec<u8>, body: &Parts) -> Result<(), AllocError> {
    for part in body.items.as_slice() {
        match part {
            Part::Literal(text) => shown.extend_from_slice(text.as_slice())?,
            _ => shown.push(b'?')?,
        }
    }
    shown.push(b'|')?;
    Ok(())
}

/// Writes the bodies of the simple command with which a list begins.
fn put_bodies(shown: &mut Vec<u8>, list: &AndOr) -> Result<(), AllocError> {
    let Command::Simple(items) = list.first.get().first.get() else {
        return Ok(());
    };
    for item in items.as_slice() {
        if let SimpleItem::Redirect(redirect) = item
            && let Target::Here { body, .. } = &redirect.target
        {
            put_body(shown, body.get())?;
        }
    }
    Ok(())
}

/// The bodies of the lists of a tree.
fn bodies(alloc: Global, tree: &CompoundList) -> Result<Vec<u8>, NoMemory> {
    let mut shown = Vec::new(alloc);
    for item in tree.items.as_slice() {
        put_bodies(&mut shown, item.list.get())?;
    }
    Ok(shown)
}

/// The first AND-OR list of a tree, or its first pipeline, as a text.
fn first(alloc: Global, tree: &CompoundList, is_whole: bool) -> Result<Vec<u8>, NoMemory> {
    let Some(item) = tree.items.as_slice().first() else {
        return Ok(Vec::new(alloc));
    };
    let list = item.list.get();
    let text = if is_whole {
        command_text(alloc, list)?
    } else {
        pipeline_text(alloc, list.first.get())?
    };
    Ok(text.into_vec())
}

/// What is shown of a text.
fn shown_of(alloc: Global, text: &[u8], what: Shown) -> Result<Vec<u8>, NoMemory> {
    let (_, tree) = read(alloc, text, true)?;
    let Some(tree) = tree else {
        return word_of(alloc, b"none");
    };
    let shown = match what {
        Shown::List => first(alloc, &tree, true),
        Shown::Pipeline => first(alloc, &tree, false),
        Shown::Bodies => bodies(alloc, &tree),
    };
    drop(tree);
    shown
}

/// `list` of a built text.
fn measured(alloc: Global, row: &Row) -> Result<Vec<u8>, NoMemory> {
    let text = built(alloc, row)?;
    let list = shown_of(alloc, &text, Shown::List)?;
    let mut shown = Vec::new(alloc);
    if list.as_slice() == text.as_slice() {
        shown.extend_from_slice(b"itself")?;
    } else {
        put_number(&mut shown, list.len())?;
    }
    Ok(shown)
}

/// What a row comes to; none where its kind is none of these.
pub(crate) fn found(alloc: Global, row: &Row) -> Found {
    let text = row.field(2);
    by_kind! { row;
        "list", 2 => shown_of(alloc, text, Shown::List);
        "list", 7 => measured(alloc, row);
        "pipeline", 2 => shown_of(alloc, text, Shown::Pipeline);
        "bodies", 2 => shown_of(alloc, text, Shown::Bodies);
    }
}
