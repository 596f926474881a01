//! Which words are replaced by the values of aliases (XCU 2.3.1).
ghost use Rattle.std.specs.Prelude.{◌≡◌, ◌==◌, IfOk, option_map};
ghost use Rattle.std.specs.List.{list_any};
ghost use Rattle.std.specs.Str.{bytes_eq};
ghost use Rattle.sh_parse_leaves.specs.Results.{at_other_place};
ghost use Rattle.sh_parse_commands.specs.Replacing.{alias_at, alias_of_word, alias_outside, is_eligible, unquoted_text};

use crate::prefix::Prefix;
use crate::scope::Scope;
use sh_aliases::Alias;
use sh_base::sequence::Text;
use sh_parse_documents::item::Item;
use sh_parse_words::fault::PartFault;
use sh_token::token::TokenKind;
use sh_token_grammar::class::is_reserved;
use sh_token_pieces::piece::{are_bytes, literal_prefix};
use std::alloc::{AllocError, Global};

/// The text of a word of which nothing is quoted or expanded.
fn unquoted_text(alloc: Global, kind: &TokenKind) -> Result<Option<Text>, AllocError>
    ensures { IfOk result (λ text. text ≡ unquoted_text kind.now) }
{
    match kind {
        TokenKind::Operator(_) => Ok(None),
        TokenKind::Number => Ok(None),
        TokenKind::Word(pieces) => {
            if !are_bytes(pieces.as_slice()) {
                return Ok(None);
            }
            let text = literal_prefix(alloc, pieces.as_slice())?;
            Ok(Some(Text::from_vec(text)))
        },
        TokenKind::End => Ok(None),
    }
}

/// Whether a word of this text may be replaced behind these tokens.
fn is_eligible(prefix: &Prefix, text: &[u8]) -> bool
    ensures { result ≡ is_eligible prefix.now text.now }
{
    prefix.is_behind_blank() || (!is_reserved(text) && prefix.may_name_command())
}

/// Whether a name is among others.
fn is_among(names: &[Text], name: &[u8]) -> bool
    ensures { result ≡ list_any (λ other. bytes_eq other name.now) names.now }
{
    names.iter().any(|other| other.as_slice() == name)
}

/// The alias of a name, unless the token came from it.
fn alias_outside<'a>(scope: Scope<'a>, name: &[u8]) -> Option<&'a Alias>
    ensures { option_map (λ alias. alias.now) result ≡ alias_outside scope.entry.aliases.now scope.entry.from.now name.now }
{
    if is_among(scope.from, name) {
        None
    } else {
        scope.aliases.get(name)
    }
}

/// The alias that a word of this text is replaced by, if it is a word of which nothing is quoted.
fn alias_of_word<'a>(scope: Scope<'a>, prefix: &Prefix, text: Option<Text>) -> Option<&'a Alias>
    ensures { option_map (λ alias. alias.now) result ≡ alias_of_word scope.entry.aliases.now scope.entry.from.now prefix.now text }
{
    let Some(text) = text else {
        return None;
    };
    if !is_eligible(prefix, text.as_slice()) {
        return None;
    }
    alias_outside(scope, text.as_slice())
}

/// The alias that a token is replaced by, behind these tokens. The only error is want of memory.
#[tactic(auto, unfolding(crate::specs::Replacing::alias_at))]
pub(crate) fn alias_at<'a>(
    alloc: Global,
    scope: Scope<'a>,
    prefix: &Prefix,
    item: &Item,
) -> Result<Option<&'a Alias>, AllocError>
    ensures { IfOk result (λ found. option_map (λ alias. alias.now) found
        ≡ alias_at scope.entry.aliases.now scope.entry.from.now prefix.now item.now) }
{
    let text = unquoted_text(alloc, &item.token.kind)?;
    Ok(alias_of_word(scope, prefix, text))
}

/// A fault in an alias's value, told at the place of the word that it replaces.
pub(crate) fn fault_of_value(place: usize, fault: PartFault) -> PartFault
    ensures { result ≡ at_other_place (λ at. place) fault }
{
    match fault {
        PartFault::BadSubstitution { .. } => PartFault::BadSubstitution { at: place },
        PartFault::TooDeep { .. } => PartFault::TooDeep { at: place },
        PartFault::Refused { .. } => PartFault::Refused { at: place },
        PartFault::NoMemory(lack) => PartFault::NoMemory(lack),
    }
}
