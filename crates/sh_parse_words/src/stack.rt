//! The making of a tree, from the last action of its derivation back to the first.
ghost use Rattle.std.specs.Prelude.{◌≡◌, IfOk, reverse};
ghost use Rattle.sh_parse_words.specs.Stack.{after_expansion, children_and_rest, made_on, with_value, run_from, after_shift, at_start, after_action};

use crate::productions::{kept, kind};
use sh_grammar::Action;
use sh_parse_actions::backward::Backward;
use sh_parse_actions::kind::Kind;
use sh_parse_actions::leaf::Leaf;
use sh_parse_actions::make::make;
use sh_parse_actions::value::{Children, Value};
use std::alloc::{AllocError, Global};

/// A tree that is being made.
#[derive(Drop)]
pub(crate) struct Making {
    /// The leaves of the tokens that are still to come, which are the tokens further left; the last one is
    /// taken first.
    pub(crate) leaves: Backward<Leaf>,
    /// The values of the symbols to the right, the leftmost first.
    pub(crate) values: Backward<Value>,
}

/// Puts a value before the children if it matters, else drops it.
fn put(
    keeps: bool,
    value: Value,
    children: Children,
    values: Backward<Value>,
) -> Option<(Children, Backward<Value>)>
    ensures { result ≡ with_value keeps value (children, values) }
{
    if keeps {
        let children = children.with_first(value)?;
        return Some((children, values));
    }
    drop(value);
    Some((children, values))
}

/// Takes off the values of a production's symbols. It gives the values that matter, and the values of the
/// other symbols to the right.
fn gather(values: Backward<Value>, kept: &[bool]) -> Option<(Children, Backward<Value>)>
    ensures { result ≡ children_and_rest kept.now values }
{
    let Some((keeps, others)) = kept.split_first() else {
        return Some((Children::None, values));
    };
    let (value, values) = values.split_first()?;
    let Some((children, values)) = gather(values, others) else {
        drop(value);
        return None;
    };
    put(*keeps, value, children, values)
}

/// Puts what a kind makes of the children before the other values.
fn make_on(
    alloc: Global,
    kind: Kind,
    children: Children,
    values: Backward<Value>,
) -> Result<Option<Backward<Value>>, AllocError>
    ensures { IfOk result (λ found. found ≡ made_on kind (children, values)) }
{
    let Some(value) = make(alloc, kind, children)? else {
        return Ok(None);
    };
    let values = values.with_first(value)?;
    Ok(Some(values))
}

/// Replaces the values of a production's symbols with the value of the production.
fn expand(
    alloc: Global,
    production: u8,
    values: Backward<Value>,
) -> Result<Option<Backward<Value>>, AllocError>
    ensures { IfOk result (λ found. found ≡ after_expansion production values) }
{
    let Some(kind) = kind(production) else {
        return Ok(None);
    };
    let Some((children, others)) = gather(values, kept(production)) else {
        return Ok(None);
    };
    let found = make_on(alloc, kind, children, others)?;
    Ok(found)
}

/// Puts a token before the other values, with the last of the leaves.
fn shift(
    class: u8,
    leaves: Backward<Leaf>,
    values: Backward<Value>,
) -> Result<Option<Making>, AllocError>
    ensures { IfOk result (λ found. found ≡ after_shift class leaves values) }
{
    let Some((leaf, leaves)) = leaves.split_first() else {
        return Ok(None);
    };
    let values = values.with_first(Value::Token { class, leaf })?;
    Ok(Some(Making { leaves, values }))
}

/// Does what an action asks for.
fn step(alloc: Global, action: Action, making: Making) -> Result<Option<Making>, AllocError>
    ensures { IfOk result (λ found. found ≡ after_action action making) }
{
    let Making { leaves, values } = making;
    match action {
        Action::Expand(production) => {
            let Some(values) = expand(alloc, production, values)? else {
                return Ok(None);
            };
            Ok(Some(Making { leaves, values }))
        },
        Action::Shift(token) => {
            let found = shift(token.class, leaves, values)?;
            Ok(found)
        },
    }
}

/// What actions make with the leaves of their tokens.
pub(crate) fn run(
    alloc: Global,
    actions: &[Action],
    leaves: Vec<Leaf>,
) -> Result<Option<Making>, AllocError>
    ensures { IfOk result (λ found. found ≡ run_from (reverse actions.now) (at_start leaves.items)) }
{
    let mut making = Making {
        leaves: Backward::from_last(leaves),
        values: Backward::new(alloc),
    };
    let mut rest = actions;
    while let Some((last, prefix)) = rest.split_last() {
        let Some(next) = step(alloc, *last, making)? else {
            return Ok(None);
        };
        making = next;
        rest = prefix;
    }
    Ok(Some(making))
}
