//! Redirections, once their words are expanded (XCU 2.7).
ghost use Rattle.std.specs.Prelude.{◌≡◌, ◌++◌, [], option_map, IfOk, OnOk};
ghost use Rattle.sh_base.specs.Decimals.{at_most, value_of};
ghost use Rattle.sh_exec_parts.specs.Redirections.{action_by, default_number, delimiter_shown, duplicate_action, fields_behind, item_prepared, kind_text, named_descriptor, number_or, redirections_of, redirection_of, to_append, to_read, to_read_and_write, to_write};
ghost use Rattle.sh_exec_parts.specs.Simple.{redirect_of, redirects_of};

use crate::queue::Queue;
use crate::simple::redirect_of;
use sh_base::NoMemory;
use sh_base::decimal::{all_digits, limited_value};
use sh_base::sequence::{Sequence, Text};
use sh_files::Opening;
use sh_syntax::tree::{Redirect, RedirectOperator, SimpleItem, Target};
use sh_token::token::{TokenFault, TokenKind, next_token};
use sh_token_pieces::here::{Delimiter, Tabs};
use std::alloc::Global;

/// What a redirection puts in a descriptor's place.
#[derive(Debug, Drop)]
pub enum Action {
    /// The file that the word names; each write goes to its end if `append`.
    Open { how: Opening, append: bool },
    /// What another descriptor refers to; `None` where the word names no descriptor from 0 to 9.
    Duplicate(Option<u8>),
    /// Nothing: the descriptor is closed.
    Close,
    /// A file without a name that holds this text.
    Here(Text),
}

/// A redirection that is about to be done.
#[derive(Debug, Drop)]
pub struct Redirection {
    /// The descriptor; `None` where its number is above 9.
    pub number: Option<u8>,
    pub action: Action,
    /// What a message names: the expanded word, of a here-document its delimiter without quotes.
    pub word: Text,
}

/// The descriptor of an operator without a number.
fn default_number(operator: RedirectOperator) -> u8
    ensures { result ≡ default_number operator }
{
    match operator {
        RedirectOperator::Input => 0,
        RedirectOperator::Output => 1,
        RedirectOperator::Clobber => 1,
        RedirectOperator::Append => 1,
        RedirectOperator::DuplicateInput => 0,
        RedirectOperator::DuplicateOutput => 1,
        RedirectOperator::ReadWrite => 0,
    }
}

/// The descriptor that digits name, if it is at most 9.
fn small_value(digits: &[u8]) -> Option<u8>
    ensures { result ≡ at_most 9 (value_of digits.now) }
{
    let value = limited_value(digits, 9)?;
    Some(value as u8)
}

/// The descriptor by its digits, or without them this one.
fn number_or(default: u8, digits: Option<&Text>) -> Option<u8>
    ensures { result ≡ number_or default (option_map (λ digits. digits.now) digits.entry) }
{
    match digits {
        Some(digits) => small_value(digits.as_slice()),
        None => Some(default),
    }
}

/// To read a file.
pub const TO_READ: Opening = Opening {
    read: true,
    write: false,
    create: false,
    exclusive: false,
    truncate: false,
};

/// To write a file from its end on.
const TO_APPEND: Opening = Opening {
    read: false,
    write: true,
    create: true,
    exclusive: false,
    truncate: false,
};

/// To read and write a file.
const TO_READ_AND_WRITE: Opening = Opening {
    read: true,
    write: true,
    create: true,
    exclusive: false,
    truncate: false,
};

/// To write a file from its start on.
fn to_write(exclusive: bool) -> Opening
    ensures { result ≡ to_write exclusive }
{
    Opening {
        read: false,
        write: true,
        create: true,
        exclusive,
        truncate: true,
    }
}

/// The descriptor that a word names.
fn named_descriptor(word: &[u8]) -> Option<u8>
    ensures { result ≡ named_descriptor word.now }
{
    if 1 <= word.len() && all_digits(word) {
        return small_value(word);
    }
    None
}

/// What `<&` and `>&` do with their word.
fn duplicated(word: &[u8]) -> Action
    ensures { result ≡ duplicate_action word.now }
{
    if word == b"-".as_slice() {
        return Action::Close;
    }
    Action::Duplicate(named_descriptor(word))
}

/// What an operator does with its word.
fn action_by(no_clobber: bool, operator: RedirectOperator, word: &[u8]) -> Action
    ensures { result ≡ action_by no_clobber operator word.now }
{
    match operator {
        RedirectOperator::Input => Action::Open {
            how: TO_READ,
            append: false,
        },
        RedirectOperator::Output => Action::Open {
            how: to_write(no_clobber),
            append: false,
        },
        RedirectOperator::Clobber => Action::Open {
            how: to_write(false),
            append: false,
        },
        RedirectOperator::Append => Action::Open {
            how: TO_APPEND,
            append: true,
        },
        RedirectOperator::DuplicateInput => duplicated(word),
        RedirectOperator::DuplicateOutput => duplicated(word),
        RedirectOperator::ReadWrite => Action::Open {
            how: TO_READ_AND_WRITE,
            append: false,
        },
    }
}

/// The text of the word of which this is the source, without its quotes.
#[tactic(auto, unfolding(crate::specs::Redirections::delimiter_shown))]
fn delimiter_shown(alloc: Global, source: &[u8]) -> Result<Text, NoMemory>
    ensures { IfOk result (λ text. text ≡ delimiter_shown source.now) }
{
    let token = match next_token(alloc, source, 0, true) {
        Ok(token) => token,
        Err(TokenFault::NoMemory(lack)) => return Err(lack),
        Err(_) => return Ok(Text::copy_of(alloc, source)?),
    };
    kind_text(alloc, source, &token.kind)
}

/// What is shown of a token of this kind that has this source.
fn kind_text(alloc: Global, source: &[u8], kind: &TokenKind) -> Result<Text, NoMemory>
    ensures { IfOk result (λ text. text ≡ kind_text source.now kind.now) }
{
    match kind {
        TokenKind::Word(pieces) => {
            let delimiter = Delimiter::new(alloc, Tabs::Kept, pieces.as_slice())?;
            Ok(delimiter.text)
        },
        _ => Ok(Text::copy_of(alloc, source)?),
    }
}

/// A redirection whose word was expanded to this field; of a here-document the field is its text.
#[tactic(auto, unfolding(crate::specs::Redirections::redirection_of))]
pub fn redirection_of(
    alloc: Global,
    redirect: &Redirect,
    field: &[u8],
    no_clobber: bool,
) -> Result<Redirection, NoMemory>
    ensures { IfOk result (λ redirection.
        redirection ≡ redirection_of no_clobber redirect.now field.now) }
{
    match &redirect.target {
        Target::Named { operator, .. } => Ok(Redirection {
            number: number_or(default_number(*operator), redirect.number.as_ref()),
            action: action_by(no_clobber, *operator, field),
            word: Text::copy_of(alloc, field)?,
        }),
        Target::Here { delimiter, .. } => Ok(Redirection {
            number: number_or(0, redirect.number.as_ref()),
            action: Action::Here(Text::copy_of(alloc, field)?),
            word: delimiter_shown(alloc, delimiter.source.as_slice())?,
        }),
    }
}

/// Adds an item that is a redirection, with its field, after the others, and gives the fields that are left.
fn put_prepared<'a>(
    alloc: Global,
    done: &mut Sequence<Redirection>,
    item: &SimpleItem,
    fields: &'a [Text],
    no_clobber: bool,
) -> Result<&'a [Text], NoMemory>
    ensures put { OnOk result
        (done.new ≡ done.old ++ item_prepared no_clobber (redirect_of item.now) fields.now) }
    ensures left { IfOk result (λ left. left.now ≡ fields_behind (redirect_of item.now) fields.now) }
{
    let Some(redirect) = redirect_of(item) else {
        return Ok(fields);
    };
    let Some((field, others)) = fields.split_first() else {
        return Ok(fields);
    };
    done.push(redirection_of(alloc, redirect, field.as_slice(), no_clobber)?)?;
    Ok(others)
}

/// The redirections of a command, each with its field, in order. A redirection without a field is left out.
pub fn prepared_redirections(
    alloc: Global,
    items: &[SimpleItem],
    fields: &[Text],
    no_clobber: bool,
) -> Result<Queue<Redirection>, NoMemory>
    ensures { IfOk result (λ queue.
        queue ≡ redirections_of no_clobber (redirects_of items.now) fields.now) }
{
    let mut done = Sequence::new(alloc);
    let mut rest = items;
    let mut left = fields;
    'items: while let Some((item, others)) = rest.split_first() {
        left = put_prepared(alloc, &mut done, item, left, no_clobber)?;
        rest = others;
    }
    Ok(Queue::new(done))
}
