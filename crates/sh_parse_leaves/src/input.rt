//! What the grammar sees of tokens.
ghost use Rattle.std.specs.Prelude.{◌≡◌, IfOk};
ghost use Rattle.sh_parse_leaves.specs.Inputs.{class_of_kind, input_of};

use sh_grammar::Token as Input;
use sh_parse_documents::item::Item;
use sh_token::token::TokenKind;
use sh_token_grammar::class::TokenClass;
use sh_token_pieces::piece::word_class;
use std::alloc::{AllocError, Global};

/// The class of a token.
fn class(alloc: Global, kind: &TokenKind) -> Result<TokenClass, AllocError>
    ensures { IfOk result (λ class. class ≡ class_of_kind kind.now) }
{
    match kind {
        TokenKind::Operator(operator) => Ok(operator.class()),
        TokenKind::Number => Ok(TokenClass::Number),
        TokenKind::Word(pieces) => word_class(alloc, false, pieces.as_slice()),
        TokenKind::End => Ok(TokenClass::End),
    }
}

/// A token as the grammar sees it: its class, and its place in the text.
pub fn input(alloc: Global, item: &Item) -> Result<Input, AllocError>
    ensures { IfOk result (λ input. input ≡ input_of item.now) }
{
    let class = class(alloc, &item.token.kind)?;
    Ok(Input {
        class: class.number(),
        id: item.token.span.start,
    })
}
