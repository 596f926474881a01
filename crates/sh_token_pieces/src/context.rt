//! What the pieces of a text are in.
ghost use Rattle.std.specs.Prelude.{◌≡◌, ◌++◌, ◌∷◌, [], IfOk, OnOk, OnErr, if◌then◌else◌};
ghost use Rattle.sh_grammar.specs.Computed.{is_whole, is_prefix};
ghost use Rattle.sh_token_grammar.specs.Shell.{substitution};
ghost use Rattle.sh_token_pieces.specs.Taken.{followed_by, token_of};
ghost use Rattle.sh_token_pieces.specs.Nested.{none_yet, open_in};
ghost use Rattle.sh_token_pieces.specs.TokenClasses.{OfOperator, OfWord, OfBodies, with_told, with_delimiter, class_of};
ghost use Rattle.sh_token_pieces.specs.Pieces.{is_word, is_quotes, is_braces, is_arithmetic, quotes, has_single_quotes, has_double_quotes, is_quoted, may_close, between_tokens, is_parenthesis, is_text, with_class, compounds_in, due_in, has_due};

use crate::byte;
use crate::here::{Delimiter, Tabs};
use crate::operator::Operator;
use crate::piece::{Piece, word_class};
use sh_grammar::{Recognizer, Token};
use sh_token_grammar::class::TokenClass;
use sh_token_grammar::grammar::substituted;
use sh_token_grammar::levels::{keep_open_compounds, open_compounds};
use std::alloc::{AllocError, Global};
use std::marker::Model;

/// The tokens of a command substitution so far.
#[derive(Drop)]
pub struct Tokens {
    recognizer: Recognizer<'static>,
    /// The first token that can't continue a compound list. No token after it counts.
    refused: Option<Token>,
}

impl Model for Tokens {
    ghost use Rattle.std.specs.Prelude.{List, ◌++◌, ◌≡◌, true, option_to_list};
    ghost use Rattle.sh_grammar.specs.declared.Token.{Token};
    ghost use Rattle.sh_grammar.specs.Computed.{is_prefix};
    ghost use Rattle.sh_token_grammar.specs.Shell.{substitution};
    ghost use Rattle.sh_token_pieces.specs.Taken.{Refuses};

    ghost Value = { List Token };

    ghost view = { λ t. t.recognizer.tokens ++ option_to_list t.refused };

    ghost invariant = { λ t. (t.recognizer.grammar ≡ substitution) × (is_prefix substitution t.recognizer.tokens ≡ true) × Refuses t.recognizer.tokens t.refused };
}

impl Tokens {
    /// No tokens yet. The one error is want of memory.
    pub fn new(alloc: Global) -> Result<Self, AllocError>
        ensures { IfOk result (λ t. t ≡ []) }
    {
        let mut recognizer = Recognizer::new(alloc, substituted())?;
        keep_open_compounds(&mut recognizer);
        Ok(Tokens {
            recognizer,
            refused: None,
        })
    }

    /// Takes one more token. After a refused token this changes nothing.
    pub(crate) fn take(&mut self, class: TokenClass) -> Result<(), AllocError>
        ensures { OnOk result (self.new ≡ followed_by class self.old) }
    {
        if self.refused.is_some() {
            return Ok(());
        }
        let token = Token {
            class: class.number(),
            id: 0,
        };
        if !accept(&mut self.recognizer, token)? {
            self.refused = Some(token);
        }
        Ok(())
    }

    /// How many compound commands are open after the tokens; 0 where one was refused.
    #[tactic(auto, using(crate::proofs::Tokens::none_open))]
    fn open_compounds(&self) -> usize
        ensures { result ≡ open_in self.now }
    {
        if self.refused.is_some() {
            return 0;
        }
        open_behind(&self.recognizer)
    }

    /// Whether the tokens are a compound list, or newlines alone.
    pub(crate) fn may_end(&self) -> bool
        ensures { result ≡ is_whole substitution self.now }
    {
        if self.refused.is_some() {
            return false;
        }
        is_list(&self.recognizer)
    }
}

/// Whether the tokens taken are a compound list, or newlines alone.
fn is_list(recognizer: &Recognizer<'static>) -> bool
    requires { recognizer.now.grammar ≡ substitution }
    ensures { result ≡ is_whole substitution recognizer.now.tokens }
{
    recognizer.may_end()
}

/// How many compound commands are open after the tokens taken.
#[tactic(auto, unfolding(crate::specs::Nested::open_in))]
fn open_behind(recognizer: &Recognizer<'static>) -> usize
    requires { recognizer.now.grammar ≡ substitution }
    ensures { result ≡ open_in recognizer.now.tokens }
{
    open_compounds(recognizer)
}

/// Takes a token, or refuses it.
fn accept(recognizer: &mut Recognizer<'static>, token: Token) -> Result<bool, AllocError>
    requires { recognizer.old.grammar ≡ substitution }
    ensures told { IfOk result (λ taken.
        taken ≡ is_prefix substitution (recognizer.old.tokens ++ token ∷ [])) }
    ensures ok { IfOk result (λ taken.
        recognizer.new.tokens
        ≡ (if taken then recognizer.old.tokens ++ token ∷ [] else recognizer.old.tokens)) }
    ensures err { OnErr result (recognizer.new ≡ recognizer.old) }
    ensures grammar { recognizer.new.grammar ≡ substitution }
{
    let taken = recognizer.take(token)?;
    Ok(taken)
}

/// A command substitution after some of its tokens.
#[derive(Drop)]
pub struct Nested {
    alloc: Global,
    tokens: Tokens,
    expected: Option<Tabs>,
    due: Vec<Delimiter>,
}

impl Model for Nested {
    ghost use Rattle.sh_token_pieces.specs.Nested.{Nested};

    ghost Value = { Nested };

    ghost view = { λ n. record { tokens = n.tokens; expected = n.expected; due = n.due.items } };
}

impl Nested {
    /// A command substitution before its first token. The one error is want of memory.
    pub fn new(alloc: Global) -> Result<Self, AllocError>
        ensures { IfOk result (λ n. n ≡ none_yet) }
    {
        let tokens = Tokens::new(alloc)?;
        Ok(Nested {
            alloc,
            tokens,
            expected: None,
            due: Vec::new(alloc),
        })
    }

    /// The here-documents that are due.
    fn due(&self) -> &[Delimiter]
        ensures { result.now ≡ self.now.due }
    {
        self.due.as_slice()
    }

    /// Takes one more token, an operator.
    fn take_operator(&mut self, operator: Operator) -> Result<(), AllocError>
        ensures { OnOk result (self.new ≡ with_told (OfOperator operator) self.old) }
    {
        self.tokens.take(operator.class())?;
        self.expected = Tabs::of_operator(operator);
        Ok(())
    }

    /// Takes one more token, a word; `redirection`: `<` or `>` follows it.
    fn take_word(&mut self, redirection: bool, pieces: &[Piece]) -> Result<(), AllocError>
        ensures { OnOk result (self.new ≡ with_told (OfWord redirection pieces.now) self.old) }
    {
        let class = word_class(self.alloc, redirection, pieces)?;
        add_delimiter(self.alloc, &mut self.due, self.expected, pieces)?;
        self.tokens.take(class)?;
        self.expected = None;
        Ok(())
    }

    /// Takes one more token, a newline, with the bodies of the here-documents that were due.
    fn take_bodies(&mut self) -> Result<(), AllocError>
        ensures { OnOk result (self.new ≡ with_told OfBodies self.old) }
    {
        self.tokens.take(TokenClass::Newline)?;
        self.expected = None;
        self.due.clear();
        Ok(())
    }
}

/// If a delimiter is expected, this word is it: then one more here-document is due.
fn add_delimiter(
    alloc: Global,
    due: &mut Vec<Delimiter>,
    expected: Option<Tabs>,
    pieces: &[Piece],
) -> Result<(), AllocError>
    ensures { OnOk result (due.new.items ≡ with_delimiter expected pieces.now due.old.items) }
{
    let Some(tabs) = expected else {
        return Ok(());
    };
    let delimiter = Delimiter::new(alloc, tabs, pieces)?;
    due.push(delimiter)?;
    Ok(())
}

/// What the next piece is in.
#[derive(Drop)]
pub enum Context {
    /// The text itself, between tokens.
    Top,
    /// A command substitution, between its tokens.
    Commands(Nested),
    /// A word of commands, which began after so many pieces.
    Word(usize),
    /// Double quotes.
    Quotes,
    /// The word of a `${`, read as between double quotes if true.
    Braces(bool),
    /// Arithmetic.
    Arithmetic,
    /// Inner parentheses of arithmetic.
    Parenthesis,
    /// The body of a here-document that is expanded (XCU 2.7.4).
    Body,
}

impl Context {
    /// Whether a backslash quotes a byte here.
    pub(crate) fn quotes(&self, b: u8) -> bool
        ensures { result ≡ quotes self.now b }
    {
        match self {
            Context::Top | Context::Commands(_) => false,
            Context::Word(_) => true,
            Context::Quotes => byte::is_quoted_escape(b) || b == b'"',
            Context::Braces(false) => true,
            Context::Braces(true) => byte::is_quoted_escape(b) || b == b'"' || b == b'}',
            Context::Arithmetic | Context::Parenthesis | Context::Body => byte::is_quoted_escape(b),
        }
    }

    /// Whether a command substitution may end here.
    pub(crate) fn may_close(&self) -> bool
        ensures { result ≡ may_close self.now }
    {
        match self {
            Context::Commands(nested) => nested.tokens.may_end(),
            _ => false,
        }
    }

    /// How many compound commands are open in this context.
    pub(crate) fn open_compounds(&self) -> usize
        ensures { result ≡ compounds_in self.now }
    {
        match self {
            Context::Commands(nested) => nested.tokens.open_compounds(),
            _ => 0,
        }
    }

    /// The here-documents whose bodies come after the next newline.
    pub(crate) fn due(&self) -> &[Delimiter]
        ensures { result.now ≡ due_in self.now }
    {
        match self {
            Context::Commands(nested) => nested.due(),
            _ => &[],
        }
    }

    /// Takes an operator, where this context has tokens.
    pub(crate) fn take_operator(&mut self, operator: Operator) -> Result<(), AllocError>
        ensures { OnOk result (self.new ≡ with_class (OfOperator operator) self.old) }
    {
        match self {
            Context::Commands(nested) => nested.take_operator(operator),
            _ => Ok(()),
        }
    }

    /// Takes a word, where this context has tokens.
    pub(crate) fn take_word(
        &mut self,
        redirection: bool,
        pieces: &[Piece],
    ) -> Result<(), AllocError>
        ensures { OnOk result (self.new ≡ with_class (OfWord redirection pieces.now) self.old) }
    {
        match self {
            Context::Commands(nested) => nested.take_word(redirection, pieces),
            _ => Ok(()),
        }
    }

    /// Takes a newline with the bodies that were due, where this context has tokens.
    pub(crate) fn take_bodies(&mut self) -> Result<(), AllocError>
        ensures { OnOk result (self.new ≡ with_class OfBodies self.old) }
    {
        match self {
            Context::Commands(nested) => nested.take_bodies(),
            _ => Ok(()),
        }
    }
}
