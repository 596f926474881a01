//! What of a simple command is expanded first (XCU 2.9.1.1).
ghost use Rattle.std.specs.Prelude.{◌≡◌, ◌++◌, [], IfOk, OnOk, option_map};
ghost use Rattle.sh_exec_parts.specs.Simple.{before, redirect_of, redirect_wanted, word_of};
ghost use Rattle.sh_exec_parts.specs.Wants.{argument_wanted, redirects_wanted, wanted_of, words_wanted};

use crate::declaration::{declares, word_context};
use crate::simple::{redirect_of, redirect_wanted, word_of};
use sh_base::NoMemory;
use sh_base::sequence::Sequence;
use sh_expand::Wanted;
use sh_syntax::tree::SimpleItem;
use std::alloc::Global;

/// Adds an item that is a word after the others.
fn put_word(
    wanted: &mut Sequence<Wanted>,
    item: &SimpleItem,
    declares: bool,
) -> Result<(), NoMemory>
    ensures { OnOk result
        (wanted.new ≡ wanted.old ++ before (option_map (argument_wanted declares) (word_of item.now)) []) }
{
    let Some(parts) = word_of(item) else {
        return Ok(());
    };
    wanted.push(Wanted {
        parts: parts.share()?,
        context: word_context(declares, parts.get()),
    })?;
    Ok(())
}

/// Adds what is expanded of an item that is a redirection after the others.
fn put_redirect(wanted: &mut Sequence<Wanted>, item: &SimpleItem) -> Result<(), NoMemory>
    ensures { OnOk result
        (wanted.new ≡ wanted.old ++ before (option_map redirect_wanted (redirect_of item.now)) []) }
{
    let Some(redirect) = redirect_of(item) else {
        return Ok(());
    };
    wanted.push(redirect_wanted(redirect)?)?;
    Ok(())
}

/// Adds the words of a command after the others.
fn put_words(
    wanted: &mut Sequence<Wanted>,
    items: &[SimpleItem],
    declares: bool,
) -> Result<(), NoMemory>
    ensures { OnOk result (wanted.new ≡ wanted.old ++ words_wanted declares items.now) }
{
    let mut rest = items;
    'items: while let Some((item, others)) = rest.split_first() {
        put_word(wanted, item, declares)?;
        rest = others;
    }
    Ok(())
}

/// Adds what is expanded of a command's redirections after the others.
fn put_redirects(wanted: &mut Sequence<Wanted>, items: &[SimpleItem]) -> Result<(), NoMemory>
    ensures { OnOk result (wanted.new ≡ wanted.old ++ redirects_wanted items.now) }
{
    let mut rest = items;
    'items: while let Some((item, others)) = rest.split_first() {
        put_redirect(wanted, item)?;
        rest = others;
    }
    Ok(())
}

/// What of a command is expanded before its redirections are done: its words, and after them the word of each
/// redirection, of a here-document its body.
#[tactic(auto, unfolding(crate::specs::Wants::wanted_of))]
pub fn wanted_of(alloc: Global, items: &[SimpleItem]) -> Result<Sequence<Wanted>, NoMemory>
    ensures { IfOk result (λ wanted. wanted ≡ wanted_of items.now) }
{
    let mut wanted = Sequence::new(alloc);
    put_words(&mut wanted, items, declares(items))?;
    put_redirects(&mut wanted, items)?;
    Ok(wanted)
}
