//! The open contexts of a text, one inside the other.
ghost use Rattle.std.specs.Prelude.{◌≡◌, ◌∷◌, [], OnOk, OnErr, IfOk, MatchOption};
ghost use Rattle.sh_token_pieces.specs.Pieces.{top_of, with_token, with_class, class_behind, word_over, is_text, is_body, between_tokens, is_word, is_quotes, is_braces, is_arithmetic, is_parenthesis, quotes, has_single_quotes, has_double_quotes, is_quoted, may_close, compounds_in, around_of, word_begins, word_place, due_in};
ghost use Rattle.sh_token_pieces.specs.TokenClasses.{OfOperator, OfWord, OfBodies};

use crate::context::Context;
use crate::here::Delimiter;
use crate::operator::Operator;
use crate::piece::{Piece, pieces_behind, word_class};
use std::alloc::{AllocError, Global};
use std::marker::Model;

/// Contexts, the last one innermost. The one error of the calls is want of memory; after it nothing is
/// promised of the contexts.
#[derive(Drop)]
pub struct Contexts {
    alloc: Global,
    items: Vec<Context>,
}

impl Model for Contexts {
    ghost use Rattle.std.specs.Prelude.{List, reverse};
    ghost use Rattle.sh_token_pieces.specs.declared.context.Context.{Context};

    ghost Value = { List Context };

    ghost view = { λ c. reverse c.items.items };
}

impl Contexts {
    /// One context, with nothing open in it. The one error is want of memory.
    pub fn new(alloc: Global, ground: Context) -> Result<Self, AllocError>
        ensures { IfOk result (λ c. c ≡ ground ∷ []) }
    {
        let mut items = Vec::new(alloc);
        items.push(ground)?;
        Ok(Contexts { alloc, items })
    }

    /// Opens a context inside the innermost one.
    pub fn push(&mut self, context: Context) -> Result<(), AllocError>
        ensures { OnOk result (self.new ≡ context ∷ self.old) }
    {
        self.items.push(context)?;
        Ok(())
    }

    /// Leaves the innermost context and gives it; `None` where there is none.
    pub fn pop(&mut self) -> Option<Context>
        ensures { MatchOption result ((self.old ≡ []) × (self.new ≡ [])) (λ c. self.old ≡ c ∷ self.new) }
    {
        self.items.pop()
    }

    /// How many compound commands are open in the innermost context.
    pub fn open_compounds(&self) -> usize
        ensures { result ≡ compounds_in (top_of self.now) }
    {
        match self.items.last() {
            Some(context) => context.open_compounds(),
            None => 0,
        }
    }

    /// How many compound commands are open in the context around the innermost one.
    pub fn compounds_around(&self) -> usize
        ensures { result ≡ compounds_in (around_of self.now) }
    {
        let Some((_, below)) = self.items.split_last() else {
            return 0;
        };
        match below.last() {
            Some(context) => context.open_compounds(),
            None => 0,
        }
    }

    /// Whether a compound command may begin with the word that ends after these pieces of a text;
    /// `redirection`: `<` or `>` follows the word. It is false where the innermost context is no word.
    pub fn word_begins_compound(
        &self,
        redirection: bool,
        pieces: &[Piece],
    ) -> Result<bool, AllocError>
        ensures { IfOk result (λ begins.
            begins ≡ word_begins redirection pieces.now (top_of self.now)) }
    {
        let Some(Context::Word(begin)) = self.items.last() else {
            return Ok(false);
        };
        let class = word_class(self.alloc, redirection, pieces_behind(pieces, *begin))?;
        Ok(class.begins_compound())
    }

    /// Between tokens.
    pub fn is_between_tokens(&self) -> bool
        ensures { result ≡ between_tokens (top_of self.now) }
    {
        match self.items.last() {
            Some(Context::Top) => true,
            Some(Context::Commands(_)) => true,
            None => true,
            _ => false,
        }
    }

    /// In the text itself.
    pub fn is_text(&self) -> bool
        ensures { result ≡ is_text (top_of self.now) }
    {
        matches!(self.items.last(), Some(Context::Top) | None)
    }

    /// In the body of a here-document, no form being open in it.
    pub fn is_body(&self) -> bool
        ensures { result ≡ is_body (top_of self.now) }
    {
        matches!(self.items.last(), Some(Context::Body))
    }

    /// In a word of commands.
    pub fn is_word(&self) -> bool
        ensures { result ≡ is_word (top_of self.now) }
    {
        matches!(self.items.last(), Some(Context::Word(_)))
    }

    /// The number of pieces before the word, where the innermost context is one.
    pub fn word(&self) -> Option<usize>
        ensures { result ≡ word_place (top_of self.now) }
    {
        match self.items.last() {
            Some(Context::Word(begin)) => Some(*begin),
            _ => None,
        }
    }

    /// In double quotes.
    pub fn is_quotes(&self) -> bool
        ensures { result ≡ is_quotes (top_of self.now) }
    {
        matches!(self.items.last(), Some(Context::Quotes))
    }

    /// In the word of a `${`.
    pub fn is_braces(&self) -> bool
        ensures { result ≡ is_braces (top_of self.now) }
    {
        matches!(self.items.last(), Some(Context::Braces(_)))
    }

    /// In arithmetic, no inner parenthesis being open.
    pub fn is_arithmetic(&self) -> bool
        ensures { result ≡ is_arithmetic (top_of self.now) }
    {
        matches!(self.items.last(), Some(Context::Arithmetic))
    }

    /// In inner parentheses of arithmetic.
    pub fn is_parenthesis(&self) -> bool
        ensures { result ≡ is_parenthesis (top_of self.now) }
    {
        matches!(self.items.last(), Some(Context::Parenthesis))
    }

    /// Whether `'` quotes here.
    pub fn has_single_quotes(&self) -> bool
        ensures { result ≡ has_single_quotes (top_of self.now) }
    {
        match self.items.last() {
            Some(Context::Word(_)) => true,
            Some(Context::Braces(quoted)) => !*quoted,
            _ => false,
        }
    }

    /// Whether `"` opens double quotes here.
    pub fn has_double_quotes(&self) -> bool
        ensures { result ≡ has_double_quotes (top_of self.now) }
    {
        match self.items.last() {
            Some(Context::Word(_)) => true,
            Some(Context::Braces(_)) => true,
            _ => false,
        }
    }

    /// Whether the word of a `${` here is read as between double quotes.
    pub fn is_quoted(&self) -> bool
        ensures { result ≡ is_quoted (top_of self.now) }
    {
        match self.items.last() {
            Some(Context::Quotes) => true,
            Some(Context::Arithmetic) => true,
            Some(Context::Parenthesis) => true,
            Some(Context::Body) => true,
            Some(Context::Braces(quoted)) => *quoted,
            _ => false,
        }
    }

    /// Whether a command substitution may end here.
    pub fn may_close(&self) -> bool
        ensures { result ≡ may_close (top_of self.now) }
    {
        match self.items.last() {
            Some(context) => context.may_close(),
            None => false,
        }
    }

    /// Whether a backslash quotes a byte here.
    pub fn quotes(&self, b: u8) -> bool
        ensures { result ≡ quotes (top_of self.now) b }
    {
        match self.items.last() {
            Some(context) => context.quotes(b),
            None => false,
        }
    }

    /// The here-documents whose bodies come after the next newline.
    pub fn due(&self) -> &[Delimiter]
        ensures { result.now ≡ due_in (top_of self.now) }
    {
        match self.items.last() {
            Some(context) => context.due(),
            None => &[],
        }
    }

    /// Takes an operator, where the innermost context has tokens.
    pub fn take_operator(&mut self, operator: Operator) -> Result<(), AllocError>
        ensures { OnOk result (self.new ≡ with_token (OfOperator operator) self.old) }
    {
        let Some(mut context) = self.items.pop() else {
            return Ok(());
        };
        context.take_operator(operator)?;
        self.items.push(context)?;
        Ok(())
    }

    /// Takes a newline, with the bodies of the here-documents that were due, where the innermost context has
    /// tokens.
    pub fn take_bodies(&mut self) -> Result<(), AllocError>
        ensures { OnOk result (self.new ≡ with_token OfBodies self.old) }
    {
        let Some(mut context) = self.items.pop() else {
            return Ok(());
        };
        context.take_bodies()?;
        self.items.push(context)?;
        Ok(())
    }

    /// Takes a word, where the innermost context has tokens.
    fn take_word(&mut self, redirection: bool, pieces: &[Piece]) -> Result<(), AllocError>
        ensures { OnOk result (self.new ≡ with_token (OfWord redirection pieces.now) self.old) }
    {
        let Some(mut context) = self.items.pop() else {
            return Ok(());
        };
        context.take_word(redirection, pieces)?;
        self.items.push(context)?;
        Ok(())
    }

    /// Ends the word that is open after these pieces of a text; `redirection`: `<` or `>` follows it.
    pub fn close_word(&mut self, redirection: bool, pieces: &[Piece]) -> Result<(), AllocError>
        ensures { OnOk result (self.new ≡ word_over redirection pieces.now self.old) }
    {
        let Some(context) = self.pop() else {
            return Ok(());
        };
        self.leave(&context, redirection, pieces)?;
        Ok(())
    }

    /// If the context that was left is a word, the context around it takes this word as a token.
    fn leave(
        &mut self,
        context: &Context,
        redirection: bool,
        pieces: &[Piece],
    ) -> Result<(), AllocError>
        ensures { OnOk result (self.new ≡ class_behind redirection pieces.now context.now self.old) }
    {
        let Context::Word(begin) = context else {
            return Ok(());
        };
        self.take_word(redirection, pieces_behind(pieces, *begin))
    }
}
