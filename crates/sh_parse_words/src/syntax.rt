//! The syntax tree of a derivation.
ghost use Rattle.std.specs.Prelude.{◌≡◌, IfOk};
ghost use Rattle.std.specs.Option.{is_some};
ghost use Rattle.sh_token_grammar.specs.Shell.{complete, substitution};
ghost use Rattle.sh_parse_words.specs.Meaning.{IsSyntaxWhere, whole_list, only};
ghost use Rattle.sh_parse_words.specs.Stack.{whole_tree, made_all};

use crate::stack::{Making, run};
use sh_grammar::Action;
use sh_parse_actions::backward::Backward;
use sh_parse_actions::leaf::Leaf;
use sh_parse_actions::value::Value;
use sh_syntax::tree::CompoundList;
use std::alloc::{AllocError, Global};

/// The list of commands of a derivation, which the recognizer gives as its actions. The derivation is one of
/// a complete command (XCU 2.10.2), or of the text of a command substitution (XCU 2.6.3); of newlines alone
/// the list has no item. `leaves` has a leaf for each token, in the same order. An operator or a newline has
/// `Operator`, a redirection operator `Redirection` or `HereDocument`, a number `Number`, an assignment
/// `Assignment`, a word that is a name, reserved or not, `Name`, and every other word `Word`.
///
/// `None` where the leaves are more or fewer than the tokens, or where a leaf lacks what the tree needs of
/// its token. The answer for actions that are no derivation is left open. The only error is want of memory.
pub fn syntax_tree(
    alloc: Global,
    actions: &[Action],
    leaves: Vec<Leaf>,
) -> Result<Option<CompoundList>, AllocError>
    ensures command { IfOk result (λ found. IsSyntaxWhere complete actions.now leaves.items found) }
    ensures substitution { IfOk result (λ found.
        IsSyntaxWhere substitution actions.now leaves.items found) }
{
    let found = make_all(alloc, actions, leaves)?;
    Ok(found)
}

/// The list of commands that actions make with the leaves of their tokens.
fn make_all(
    alloc: Global,
    actions: &[Action],
    leaves: Vec<Leaf>,
) -> Result<Option<CompoundList>, AllocError>
    ensures { IfOk result (λ found. found ≡ made_all actions.now leaves.items) }
{
    let Some(making) = run(alloc, actions, leaves)? else {
        return Ok(None);
    };
    Ok(finish(alloc, making))
}

/// The list of commands that was made; `None` where a leaf is left.
fn finish(alloc: Global, making: Making) -> Option<CompoundList>
    ensures { result ≡ whole_tree making }
{
    let Making { leaves, values } = making;
    if was_some(leaves.split_first()) {
        drop(values);
        return None;
    }
    let value = only_value(values)?;
    compound_list_of(alloc, value)
}

/// Whether there is something, which is dropped.
fn was_some<T: Drop>(found: Option<T>) -> bool
    ensures { result ≡ is_some found }
{
    found.is_some()
}

/// The one value that there is.
fn only_value(values: Backward<Value>) -> Option<Value>
    ensures { result ≡ only values }
{
    let (value, others) = values.split_first()?;
    if was_some(others.split_first()) {
        drop(value);
        return None;
    }
    Some(value)
}

fn compound_list_of(alloc: Global, value: Value) -> Option<CompoundList>
    ensures { result ≡ whole_list value }
{
    let items = value.into_list(alloc)?;
    Some(CompoundList {
        items: items.into_sequence(),
    })
}
