//! Here-documents between their operator and their body (XCU 2.7.4).
ghost use Rattle.std.specs.Prelude.{◌≡◌, [], OnErr, OnOk};
ghost use Rattle.sh_token_pieces.specs.TokenClasses.{with_delimiter};
ghost use Rattle.sh_parse_documents.specs.Waiting.{nothing, behind_token, due_at};

use sh_token::token::TokenKind;
use sh_token_pieces::here::{Delimiter, Tabs};
use sh_token_pieces::operator::Operator;
use sh_token_pieces::piece::Piece;
use std::alloc::{AllocError, Global};
use std::marker::Model;

/// What is awaited after some tokens: a delimiter, or bodies at the next newline.
#[derive(Drop)]
pub struct Waiting {
    alloc: Global,
    expected: Option<Tabs>,
    due: Vec<Delimiter>,
}

impl Model for Waiting {
    ghost use Rattle.sh_parse_documents.specs.Waiting.{Waiting};

    ghost Value = { Waiting };

    ghost view = { λ w. record { expected = w.expected; due = w.due.items } };
}

impl Waiting {
    /// Nothing is awaited. Takes no memory.
    pub fn new(alloc: Global) -> Self
        ensures { result ≡ nothing }
    {
        Waiting {
            alloc,
            expected: None,
            due: Vec::new(alloc),
        }
    }

    /// The here-documents whose bodies come directly after a token.
    pub fn due_at(&self, kind: &TokenKind) -> &[Delimiter]
        ensures { result.now ≡ due_at kind.now self.now }
    {
        match kind {
            TokenKind::Operator(Operator::Newline) => self.due.as_slice(),
            _ => &[],
        }
    }

    /// Passes a token, and the bodies that come with it. The one error is want of memory, which leaves
    /// everything as it was.
    pub fn pass(&mut self, kind: &TokenKind) -> Result<(), AllocError>
        ensures passed { OnOk result (self.new ≡ behind_token kind.now self.old) }
        ensures kept { OnErr result (self.new ≡ self.old) }
    {
        match kind {
            TokenKind::Operator(Operator::Newline) => {
                self.expected = None;
                self.due.clear();
                Ok(())
            },
            TokenKind::Operator(operator) => {
                self.expected = Tabs::of_operator(*operator);
                Ok(())
            },
            TokenKind::Word(pieces) => {
                add_delimiter(self.alloc, &mut self.due, self.expected, pieces.as_slice())?;
                self.expected = None;
                Ok(())
            },
            TokenKind::Number => {
                self.expected = None;
                Ok(())
            },
            TokenKind::End => Ok(()),
        }
    }
}

/// If a delimiter is expected, this word is it: then one more here-document is due. The one error is want of
/// memory, which leaves everything as it was.
fn add_delimiter(
    alloc: Global,
    due: &mut Vec<Delimiter>,
    expected: Option<Tabs>,
    pieces: &[Piece],
) -> Result<(), AllocError>
    ensures added { OnOk result (due.new.items ≡ with_delimiter expected pieces.now due.old.items) }
    ensures kept { OnErr result (due.new.items ≡ due.old.items) }
{
    let Some(tabs) = expected else {
        return Ok(());
    };
    let delimiter = Delimiter::new(alloc, tabs, pieces)?;
    due.push(delimiter)?;
    Ok(())
}
