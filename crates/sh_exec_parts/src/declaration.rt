//! Declaration utilities (XCU 2.9.1.1): `export` and `readonly`, whose operands are expanded as assignments.
ghost use Rattle.std.specs.Prelude.{◌≡◌, ◌==◌, ◌<◌, IfSome, length, option_map, position};
ghost use Rattle.sh_exec_parts.specs.Declarations.{assigns, assigns_by, declares, declares_by, first_literal, is_command, is_declaration, literal_name, literal_of, named_by, whole_literal, word_context};

use crate::simple::word_of;
use sh_base::name::is_name;
use sh_expand::Context;
use sh_syntax::tree::{Part, Parts, SimpleItem};

/// The text of a part that is unquoted text.
fn literal_of(part: &Part) -> Option<&[u8]>
    ensures { option_map (λ text. text.now) result ≡ literal_of part.now }
{
    match part {
        Part::Literal(text) => Some(text.as_slice()),
        _ => None,
    }
}

/// The text of a word that is one part of unquoted text.
fn whole_literal(parts: &[Part]) -> Option<&[u8]>
    ensures { option_map (λ text. text.now) result ≡ whole_literal parts.now }
{
    match parts {
        [part] => literal_of(part),
        _ => None,
    }
}

/// The unquoted text with which a word begins.
fn first_literal(parts: &[Part]) -> Option<&[u8]>
    ensures { option_map (λ text. text.now) result ≡ first_literal parts.now }
{
    match parts.split_first() {
        Some((part, _)) => literal_of(part),
        None => None,
    }
}

/// Whether a command name is that of a declaration utility.
fn is_declaration(name: Option<&[u8]>) -> bool
    ensures { result ≡ is_declaration (option_map (λ name. name.now) name.entry) }
{
    match name {
        Some(name) => name == b"export".as_slice() || name == b"readonly".as_slice(),
        None => false,
    }
}

/// Whether a command name is `command`.
fn is_command(name: Option<&[u8]>) -> bool
    ensures { result ≡ is_command (option_map (λ name. name.now) name.entry) }
{
    match name {
        Some(name) => name == b"command".as_slice(),
        None => false,
    }
}

/// The unquoted text that a word is.
fn literal_name(name: &Parts) -> Option<&[u8]>
    ensures { option_map (λ text. text.now) result ≡ literal_name name.now }
{
    whole_literal(name.items.as_slice())
}

/// Whether the first word of a simple command is the name of a declaration utility, unquoted; a word `command` before it doesn't matter.
#[tactic(auto, unfolding(crate::specs::Declarations::declares))]
pub fn declares(items: &[SimpleItem]) -> bool
    ensures { result ≡ declares items.now }
{
    let mut rest = items;
    'items: while let Some((item, others)) = rest.split_first() {
        if let Some(name) = word_of(item) {
            let name = literal_name(name.get());
            if !is_command(name) {
                return is_declaration(name);
            }
        }
        rest = others;
    }
    false
}

/// The place of the first `=` in a text.
fn equals_in(text: &[u8]) -> Option<usize>
    ensures place { result ≡ position (λ b. b == 61) text.now }
    ensures within { IfSome result (λ i. i < length text.now) }
{
    text.iter().position(|byte| *byte == b'=')
}

/// Whether a text begins with a name and `=`.
fn begins_with_name(text: &[u8]) -> bool
    ensures { result ≡ named_by text.now (position (λ b. b == 61) text.now) }
{
    match equals_in(text) {
        Some(place) => is_name(&text[..place]),
        None => false,
    }
}

/// Whether a word begins with a name and `=`, unquoted.
#[tactic(auto, unfolding(crate::specs::Declarations::assigns))]
fn assigns(word: &Parts) -> bool
    ensures { result ≡ assigns word.now }
{
    match first_literal(word.items.as_slice()) {
        Some(text) => begins_with_name(text),
        None => false,
    }
}

/// For what a word of a simple command is expanded, whose name may be that of a declaration utility.
pub(crate) fn word_context(declares: bool, word: &Parts) -> Context
    ensures { result ≡ word_context declares word.now }
{
    if declares && assigns(word) {
        return Context::Operand;
    }
    Context::Fields
}
