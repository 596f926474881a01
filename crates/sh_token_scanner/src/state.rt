//! A scanner between two characters.
ghost use Rattle.sh_token_pieces.specs.Pieces.{top_of};
ghost use Rattle.std.specs.Prelude.{◌≡◌, ◌++◌, ◌∷◌, [], OnOk, IfOk, length, drop, suc, Some, ◌+◌, ◌-◌};
ghost use Rattle.sh_token_pieces.specs.declared.context.Context.TheVariants.{Word, Commands};
ghost use Rattle.sh_token_pieces.specs.declared.pending.Pending.{Pending};
ghost use Rattle.sh_token_pieces.specs.declared.piece.Piece.TheVariants.{WordOpen, CommandsOpen, Variable, BraceOpen};
ghost use Rattle.sh_token_pieces.specs.Pieces.{between_tokens, is_word, is_quotes, is_braces, is_arithmetic, is_parenthesis, quotes, has_single_quotes, has_double_quotes, is_quoted, may_close, braces_of, compounds_in, word_begins};
ghost use Rattle.sh_token_pieces.specs.Nested.{none_yet};
ghost use Rattle.sh_token_scanner.specs.Steps.{with_state};
ghost use Rattle.sh_token_scanner.specs.Run.{start, begins_in, begins_word};
ghost use Rattle.sh_token_scanner.specs.Machine.{same, into, out, pend, keep, opens, out_level, level_over, word_out, operator_out, bodies_out, line_of, is_over_full};

use crate::step::Step;
use sh_base::sequence::{Sequence, Text};
use sh_token_pieces::context::{Context, Nested};
use sh_token_pieces::contexts::Contexts;
use sh_token_pieces::head::Head;
use sh_token_pieces::operator::Operator;
use sh_token_pieces::pending::Pending;
use sh_token_pieces::piece::Piece;
use std::alloc::{AllocError, Global};
use std::marker::Model;
use std::mem;

/// What a scanner knows between two characters: the open contexts, the pieces so far, a piece that has begun and
/// its bytes; how many levels are open, and how many may be open. A caller gets one from `scan`, and takes the
/// pieces out of it.
#[derive(Drop)]
pub struct State {
    alloc: Global,
    contexts: Contexts,
    done: Vec<Piece>,
    pending: Pending,
    bytes: Vec<u8>,
    levels: usize,
    limit: usize,
}

impl Model for State {
    ghost use Rattle.sh_token_scanner.specs.Machine.{State};

    ghost Value = { State };

    ghost view = { λ s. record { contexts = s.contexts; done = s.done.items; pending = s.pending; bytes = s.bytes.items; levels = s.levels; limit = s.limit } };
}

impl State {
    /// The state at the beginning of a text, in this context, where at most `limit` levels may be open.
    pub(crate) fn new(alloc: Global, ground: Context, limit: usize) -> Result<Self, AllocError>
        ensures { IfOk result (λ s. s ≡ start ground limit) }
    {
        let contexts = Contexts::new(alloc, ground)?;
        Ok(State {
            alloc,
            contexts,
            done: Vec::new(alloc),
            pending: Pending::Nothing,
            bytes: Vec::new(alloc),
            levels: 0,
            limit,
        })
    }

    pub(crate) fn contexts(&self) -> &Contexts
        ensures { result.now ≡ self.now.contexts }
    {
        &self.contexts
    }

    pub(crate) fn pending(&self) -> Pending
        ensures { result ≡ self.now.pending }
    {
        self.pending
    }

    /// Whether a piece has begun with the last character, and may be a form of a body.
    pub(crate) fn begins(&self) -> bool
        ensures { result ≡ begins_in self.now.pending self.now.bytes }
    {
        match self.pending {
            Pending::Dollar => true,
            Pending::Backquotes => self.bytes.is_empty(),
            _ => false,
        }
    }

    /// Takes out the bytes of the piece that has begun.
    pub(crate) fn take_bytes(&mut self) -> Text
        ensures taken { result ≡ self.old.bytes }
        ensures left { self.new ≡ record self.old { bytes = [] } }
    {
        let empty = Vec::new(self.alloc);
        Sequence::from_vec(mem::replace(&mut self.bytes, empty))
    }

    /// Adds a finished piece. The contexts stay as they are.
    fn push(&mut self, piece: Piece) -> Result<(), AllocError>
        ensures { OnOk result (self.new ≡ same piece self.old) }
    {
        self.done.push(piece)?;
        self.pending = Pending::Nothing;
        self.bytes.clear();
        Ok(())
    }

    /// Adds a piece that changes no context.
    pub(crate) fn same(&mut self, piece: Piece) -> Result<(), AllocError>
        ensures { OnOk result (self.new ≡ same piece self.old) }
    {
        self.push(piece)
    }

    /// Adds a piece that opens a context.
    pub(crate) fn into(&mut self, context: Context, piece: Piece) -> Result<(), AllocError>
        ensures { OnOk result (self.new ≡ into context piece self.old) }
    {
        self.contexts.push(context)?;
        self.push(piece)
    }

    /// Adds a piece that closes a context.
    pub(crate) fn out(&mut self, piece: Piece) -> Result<(), AllocError>
        ensures { OnOk result (self.new ≡ out piece self.old) }
    {
        self.contexts.pop();
        self.push(piece)
    }

    /// Adds a piece that closes a context which is a level. The compound commands in the context are closed
    /// with it.
    pub(crate) fn out_level(&mut self, piece: Piece) -> Result<(), AllocError>
        ensures { OnOk result (self.new ≡ out_level piece self.old) }
    {
        let compounds = self.contexts.open_compounds();
        self.contexts.pop();
        self.levels = self.levels.saturating_sub(compounds);
        self.level_over(piece)
    }

    /// Counts the open compound commands of the innermost context anew; there were `before` of them.
    fn replace_compounds(&mut self, before: usize) -> Result<(), AllocError>
        ensures { OnOk result
            (self.new ≡ record self.old
            { levels = (self.old.levels - before) + compounds_in (top_of self.old.contexts) }) }
    {
        let others = self.levels.saturating_sub(before);
        let Some(levels) = others.checked_add(self.contexts.open_compounds()) else {
            return Err(AllocError);
        };
        self.levels = levels;
        Ok(())
    }

    /// Whether too many levels are open.
    pub(crate) fn is_over_full(&self) -> bool
        ensures { result ≡ is_over_full self.now }
    {
        self.limit < self.levels
    }

    /// Whether a compound command may begin with the word that ends here; `redirection`: `<` or `>` follows
    /// it.
    pub(crate) fn word_begins_compound(&self, redirection: bool) -> Result<bool, AllocError>
        ensures { IfOk result (λ begins.
            begins ≡ word_begins redirection self.now.done (top_of self.now.contexts)) }
    {
        self.contexts
            .word_begins_compound(redirection, self.done.as_slice())
    }

    /// Whether a word of a substitution may have begun with the last character.
    pub(crate) fn begins_word(&self) -> bool
        ensures { result ≡ begins_word self.now }
    {
        let Some(begin) = self.contexts.word() else {
            return false;
        };
        if begin >= self.done.len() {
            return false;
        }
        matches!(self.pending, Pending::Nothing) && self.done.len() - begin == 2
    }

    /// Adds a piece that was a level by itself, which is closed.
    pub(crate) fn level_over(&mut self, piece: Piece) -> Result<(), AllocError>
        ensures { OnOk result (self.new ≡ level_over piece self.old) }
    {
        self.levels = self.levels.saturating_sub(1);
        self.push(piece)
    }

    /// Begins a piece.
    pub(crate) fn pend(&mut self, pending: Pending)
        ensures { self.new ≡ pend pending self.old }
    {
        self.pending = pending;
        self.bytes.clear();
    }

    /// Adds a byte to the piece that has begun.
    pub(crate) fn keep(&mut self, pending: Pending, b: u8) -> Result<(), AllocError>
        ensures { OnOk result (self.new ≡ keep pending b self.old) }
    {
        self.bytes.push(b)?;
        self.pending = pending;
        Ok(())
    }

    /// Adds a newline to the bodies of here-documents, which ends a line of them.
    pub(crate) fn keep_line(&mut self, bodies: usize, joined: bool) -> Result<(), AllocError>
        ensures { OnOk result
            (self.new ≡ keep (Pending.Body (suc (length self.old.bytes)) bodies joined) 10
            self.old) }
    {
        self.bytes.push(b'\n')?;
        self.pending = Pending::Body {
            line: self.bytes.len(),
            bodies,
            joined,
        };
        Ok(())
    }

    /// Begins a piece that opens a level, unless this level is one too many.
    pub(crate) fn open(&mut self, pending: Pending) -> Step
        ensures { opens pending self.old ≡ with_state result self.new }
    {
        if self.levels >= self.limit {
            return Step::TooDeep;
        }
        self.levels += 1;
        self.pend(pending);
        Step::On
    }

    /// Begins a word.
    pub(crate) fn open_word(&mut self) -> Result<(), AllocError>
        ensures { OnOk result (self.new ≡ into (Word (length self.old.done)) WordOpen self.old) }
    {
        let begin = self.done.len();
        self.into(Context::Word(begin), Piece::WordOpen)
    }

    /// Ends a word; `redirection`: `<` or `>` follows it.
    pub(crate) fn close_word(&mut self, redirection: bool) -> Result<(), AllocError>
        ensures { OnOk result (self.new ≡ word_out redirection self.old) }
    {
        let compounds = self.contexts.compounds_around();
        self.contexts.close_word(redirection, self.done.as_slice())?;
        self.replace_compounds(compounds)?;
        self.push(Piece::WordClose(redirection))
    }

    /// Ends an operator.
    pub(crate) fn operator_out(&mut self, operator: Operator) -> Result<(), AllocError>
        ensures { OnOk result (self.new ≡ operator_out operator self.old) }
    {
        let compounds = self.contexts.open_compounds();
        self.contexts.take_operator(operator)?;
        self.replace_compounds(compounds)?;
        self.push(Piece::Operator(operator))
    }

    /// Ends the bodies of the here-documents that were due, with a newline.
    pub(crate) fn bodies_out(&mut self) -> Result<(), AllocError>
        ensures { OnOk result (self.new ≡ bodies_out self.old) }
    {
        let compounds = self.contexts.open_compounds();
        self.contexts.take_bodies()?;
        self.replace_compounds(compounds)?;
        self.bytes.push(b'\n')?;
        let bytes = self.take_bytes();
        self.push(Piece::Bodies(bytes))
    }

    /// The line that began after so many bytes of the bodies.
    pub(crate) fn line(&self, line: usize) -> &[u8]
        ensures { result.now ≡ line_of line self.now }
    {
        if line < self.bytes.len() {
            &self.bytes[line..]
        } else {
            &[]
        }
    }

    /// Begins the tokens of a command substitution.
    pub(crate) fn open_commands(&mut self) -> Result<(), AllocError>
        ensures { OnOk result (self.new ≡ into (Commands none_yet) CommandsOpen self.old) }
    {
        let nested = Nested::new(self.alloc)?;
        self.into(Context::Commands(nested), Piece::CommandsOpen)
    }

    /// Ends the name after a `$`.
    pub(crate) fn close_name(&mut self) -> Result<(), AllocError>
        ensures { OnOk result (self.new ≡ same (Variable self.old.bytes) self.old) }
    {
        let bytes = self.take_bytes();
        self.same(Piece::Variable(bytes))
    }

    /// Ends what is between `${` and its word.
    pub(crate) fn close_head(&mut self, head: Head) -> Result<(), AllocError>
        ensures { OnOk result
            (self.new ≡ into (braces_of (is_quoted (top_of self.old.contexts)) (Some head))
            (BraceOpen self.old.bytes) self.old) }
    {
        let quoted = self.contexts.is_quoted() && !head.reads_bare();
        let bytes = self.take_bytes();
        self.into(Context::Braces(quoted), Piece::BraceOpen(bytes))
    }

    /// The pieces that were found, in the order of the text; joined lines are left out. For a token (XCU 2.3) they
    /// are the blanks and comments before it, and then its own pieces.
    pub fn into_pieces(self) -> Vec<Piece>
        ensures { result.items ≡ self.done }
    {
        let State { done, .. } = self;
        done
    }
}
