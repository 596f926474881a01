//! The recognizer: a stack of the symbols that are still to come.
ghost use Rattle.std.specs.Prelude.{◌≡◌, ◌+◌, ◌↔◌, drop, ◌++◌, ◌∷◌, [], List, reverse, Some, if◌then◌else◌, true, IsTrue, IfOk, OnOk, OnErr, MatchOption, take};
ghost use Rattle.sh_grammar.specs.declared.Symbol.{Symbol};
ghost use Rattle.sh_grammar.specs.declared.Token.{Token};
ghost use Rattle.sh_grammar.specs.Grammar.{Tree};
ghost use Rattle.sh_grammar.specs.Leftmost.{preorder, tokens_of};
ghost use Rattle.sh_grammar.specs.Tabulation.{tabulation_of, grammar_of};
ghost use Rattle.sh_grammar.specs.Table.{table_of, first_of, nullable_of};
ghost use Rattle.sh_grammar.specs.Passes.{IsPredictive};
ghost use Rattle.sh_grammar.specs.Text.{IsTreeOf, IsText, BeginsText};
ghost use Rattle.sh_grammar.specs.Computed.{next_stack};
ghost use Rattle.std.specs.List.{count_by};
ghost use Rattle.sh_grammar.specs.Awaited.{awaited_count, is_nonterminal};
ghost use Rattle.sh_grammar.specs.Reach.{Stands, Begins, Ended, Any, Extends, Keeps};
ghost use Rattle.sh_grammar.specs.Recognized.{Recognized};

use crate::Symbol::{Nonterminal, Terminal};
use crate::lookup::{begins, body, count, may_vanish, predicted};
use crate::{Action, Actions, Symbol, Tables, Token};
use std::alloc::{AllocError, Global};
use std::marker::Model;

/// Puts a production's symbols on a stack, the first one on top.
fn push_all(stack: &mut Vec<Symbol>, symbols: &[Symbol]) -> Result<(), AllocError>
    ensures { OnOk result (reverse stack.new.items ≡ symbols.now ++ reverse stack.old.items) }
{
    let mut rest = symbols;
    while let Some((last, prefix)) = rest.split_last() {
        stack.push(*last)?;
        rest = prefix;
    }
    Ok(())
}

/// Takes the top symbol of a stack, which is `kept` with `above` on it. The result is that symbol and what is
/// left of `kept`.
fn pop_either<'s>(kept: &'s [Symbol], above: &mut Vec<Symbol>) -> Option<(Symbol, &'s [Symbol])>
    ensures top { MatchOption result (kept.now ++ above.old.items ≡ []) (λ r.
        kept.now ++ above.old.items ≡ (r.1.now ++ above.new.items) ++ r.0 ∷ []) }
    ensures kept { MatchOption result (above.new.items ≡ above.old.items) (λ r.
        (gone : List Symbol) × (kept.now ≡ r.1.now ++ gone)) }
{
    if let Some(top) = above.pop() {
        return Some((top, kept));
    }
    let Some((top, below)) = kept.split_last() else {
        return None;
    };
    Some((*top, below))
}

/// Uses the productions that lead to a token with which the stack may begin, and takes this token. Then the
/// new stack is the first symbols of the old one, as many as the result says, with `above` on them.
fn lead(
    tables: &Tables<'_>,
    stack: &[Symbol],
    above: &mut Vec<Symbol>,
    done: &mut Vec<Action>,
    token: Token,
) -> Result<usize, AllocError>
    requires stands { Stands (tabulation_of tables.now) (Begins token) done.old.items
        (reverse stack.now) }
    requires begins { first_of (grammar_of (tabulation_of tables.now))
        (table_of (tabulation_of tables.now)) (reverse stack.now) token.class ≡ true }
    ensures stands { IfOk result (λ kept.
        Stands (tabulation_of tables.now) Any done.new.items
        (reverse (take kept stack.now ++ above.new.items))) }
    ensures taken { OnOk result (tokens_of done.new.items ≡ tokens_of done.old.items ++ token ∷ []) }
    ensures extended { Extends done.old.items done.new.items }
    ensures computed { IfOk result (λ kept.
        next_stack (grammar_of (tabulation_of tables.now)) (table_of (tabulation_of tables.now))
        (reverse stack.now) token.class ≡ Some (reverse (take kept stack.now ++ above.new.items))) }
{
    above.clear();
    let mut kept = stack;
    while let Some((top, below)) = pop_either(kept, above) {
        kept = below;
        match top {
            Terminal(_) => {
                done.push(Action::Shift(token))?;
                return Ok(kept.len());
            },
            Nonterminal(name) => {
                let rule = predicted(tables, name, token.class);
                done.push(Action::Expand(rule))?;
                push_all(above, body(tables, rule))?;
            },
        }
    }
    prove!(false);
    Ok(0)
}

/// How often a nonterminal is on a stack, past the first `kept` symbols.
fn count_above(stack: &[Symbol], kept: usize, nonterminal: u8) -> usize
    ensures { result ≡ count_by (is_nonterminal nonterminal) (drop kept stack.now) }
{
    match stack.get(kept..) {
        Some(above) => count(above, nonterminal),
        None => 0,
    }
}

/// Keeps the first `kept` symbols of a stack, and replaces the others with `above`. An `Err` changes nothing.
fn replace_top(stack: &mut Vec<Symbol>, kept: usize, above: &[Symbol]) -> Result<(), AllocError>
    ensures ok { OnOk result (stack.new.items ≡ take kept stack.old.items ++ above.now) }
    ensures err { OnErr result (stack.new.items ≡ stack.old.items) }
{
    stack.reserve(above.len())?;
    stack.truncate(kept);
    stack.extend_from_slice(above)
}

/// How often a nonterminal is on a stack.
#[derive(Clone, Copy)]
struct Counted {
    nonterminal: u8,
    times: usize,
}

/// Takes a token with which the stack may begin, and tells how often the counted nonterminal is on the stack
/// then. After an `Err` the stack is as it was, but `done` may have more actions.
fn advance(
    tables: &Tables<'_>,
    stack: &mut Vec<Symbol>,
    above: &mut Vec<Symbol>,
    done: &mut Vec<Action>,
    token: Token,
    counted: Counted,
) -> Result<usize, AllocError>
    requires counted { counted.times ≡ count_by (is_nonterminal counted.nonterminal) stack.old.items }
    requires stands { Stands (tabulation_of tables.now) (Begins token) done.old.items
        (reverse stack.old.items) }
    requires begins { first_of (grammar_of (tabulation_of tables.now))
        (table_of (tabulation_of tables.now)) (reverse stack.old.items) token.class ≡ true }
    ensures stands { OnOk result
        (Stands (tabulation_of tables.now) Any done.new.items (reverse stack.new.items)) }
    ensures taken { OnOk result (tokens_of done.new.items ≡ tokens_of done.old.items ++ token ∷ []) }
    ensures extended { Extends done.old.items done.new.items }
    ensures computed { OnOk result
        (next_stack (grammar_of (tabulation_of tables.now)) (table_of (tabulation_of tables.now))
        (reverse stack.old.items) token.class ≡ Some (reverse stack.new.items)) }
    ensures counted { IfOk result (λ times.
        times ≡ count_by (is_nonterminal counted.nonterminal) stack.new.items) }
    ensures err { OnErr result (stack.new.items ≡ stack.old.items) }
{
    let kept = lead(tables, stack, above, done, token)?;
    let stay = counted.times - count_above(stack, kept, counted.nonterminal);
    replace_top(stack, kept, above)?;
    Ok(stay + count(above, counted.nonterminal))
}

/// Uses the productions by which the symbols of a stack derive no token at the end.
fn conclude(
    tables: &Tables<'_>,
    stack: &mut Vec<Symbol>,
    done: &mut Vec<Action>,
) -> Result<(), AllocError>
    requires stands { Stands (tabulation_of tables.now) Ended done.old.items
        (reverse stack.old.items) }
    requires vanishes { nullable_of (grammar_of (tabulation_of tables.now))
        (table_of (tabulation_of tables.now)) (reverse stack.old.items) tables.now.ending ≡ true }
    ensures stands { OnOk result (Stands (tabulation_of tables.now) Ended done.new.items []) }
    ensures taken { OnOk result (tokens_of done.new.items ≡ tokens_of done.old.items) }
{
    while let Some(top) = stack.pop() {
        match top {
            Terminal(_) => {
                prove!(false);
            },
            Nonterminal(name) => {
                let rule = predicted(tables, name, tables.ending);
                done.push(Action::Expand(rule))?;
                push_all(stack, body(tables, rule))?;
            },
        }
    }
    Ok(())
}

/// A reader of tokens, one after another, by a grammar. Contracts see the grammar and the tokens taken so
/// far.
#[derive(Drop)]
pub struct Recognizer<'t> {
    tables: Tables<'t>,
    stack: Vec<Symbol>,
    done: Vec<Action>,
    // room for the symbols that come on the stack
    above: Vec<Symbol>,
    // so that the stack isn't walked through for this nonterminal
    counted: Counted,
}

impl<'t> Model for Recognizer<'t> {
    ghost Value = { Recognized };

    ghost view = { λ r. record { grammar = tabulation_of r.tables; tokens = tokens_of r.done.items } };

    ghost invariant = { λ r. Keeps (tabulation_of r.tables) r.done.items (reverse r.stack.items) × (r.counted.times ≡ count_by (is_nonterminal r.counted.nonterminal) r.stack.items) };
}

impl<'t> Recognizer<'t> {
    /// A recognizer of the texts of `tables`, which has taken no token yet. The only error is want of memory.
    pub fn new(alloc: Global, tables: Tables<'t>) -> Result<Self, AllocError>
        requires { IsPredictive (tabulation_of tables) }
        ensures { IfOk result (λ recognizer.
            recognizer ≡ record { grammar = tabulation_of tables.entry; tokens = [] }) }
    {
        let mut stack = Vec::new(alloc);
        stack.push(Nonterminal(tables.start))?;
        Ok(Recognizer {
            tables,
            stack,
            done: Vec::new(alloc),
            above: Vec::new(alloc),
            counted: Counted {
                nonterminal: tables.start,
                times: 1,
            },
        })
    }

    /// Makes the recognizer keep the count of a nonterminal, so that `awaits` tells this count at once. A
    /// recognizer keeps one count, at first the one of the start symbol. It takes no memory.
    pub fn keep_count(&mut self, nonterminal: u8)
        ensures { self.new ≡ self.old }
    {
        self.counted = Counted {
            nonterminal,
            times: count(&self.stack, nonterminal),
        };
    }

    /// Whether `take` would take a token of a class now. It takes no memory.
    pub fn accepts(&self, class: u8) -> bool
        ensures { (token : Token) → token.class ≡ class → IsTrue result
            ↔ BeginsText self.now.grammar (self.now.tokens ++ token ∷ []) }
    {
        begins(&self.tables, &self.stack, class)
    }

    /// Whether the tokens so far are a whole text. It takes no memory.
    pub fn may_end(&self) -> bool
        ensures { IsTrue result ↔ IsText self.now.grammar self.now.tokens }
    {
        may_vanish(&self.tables, &self.stack)
    }

    /// How often the nonterminal of a number is still to come after the tokens so far: a production with it
    /// in its body has begun, but the nonterminal itself hasn't. For a nonterminal that ends a production,
    /// this is how often that production has begun and isn't over. It is 0 for a number that no nonterminal
    /// has. It takes no memory. The time grows with the symbols that are still to come, except for the
    /// nonterminal of `keep_count`.
    pub fn awaits(&self, nonterminal: u8) -> usize
        ensures { result ≡ awaited_count self.now.grammar nonterminal self.now.tokens }
    {
        if nonterminal == self.counted.nonterminal {
            return self.counted.times;
        }
        count(&self.stack, nonterminal)
    }

    /// Takes a token (`true`) or refuses it (`false`). It is refused exactly where the tokens so far and this
    /// token begin no text. A refusal changes nothing, nor does an `Err`, which is want of memory.
    pub fn take(&mut self, token: Token) -> Result<bool, AllocError>
        ensures prefix { IfOk result (λ taken.
            IsTrue taken ↔ BeginsText self.old.grammar (self.old.tokens ++ token ∷ [])) }
        ensures ok { IfOk result (λ taken.
            self.new
            ≡ (if taken then record self.old { tokens = self.old.tokens ++ token ∷ [] } else
            self.old)) }
        ensures err { OnErr result (self.new ≡ self.old) }
    {
        if !begins(&self.tables, &self.stack, token.class) {
            return Ok(false);
        }
        let before = self.done.len();
        let advanced = advance(
            &self.tables,
            &mut self.stack,
            &mut self.above,
            &mut self.done,
            token,
            self.counted,
        );
        match advanced {
            Ok(times) => {
                self.counted.times = times;
                Ok(true)
            },
            Err(error) => {
                self.done.truncate(before);
                Err(error)
            },
        }
    }

    /// The one derivation of the tokens, or `None` where they are no whole text. The only error is want of
    /// memory.
    pub fn finish(self) -> Result<Option<Actions>, AllocError>
        ensures { IfOk result (λ found.
            MatchOption found (IsText self.entry.grammar self.entry.tokens → ⊥) (λ actions.
            (tree : Tree) × IsTreeOf self.entry.grammar self.entry.tokens tree
            × (preorder tree ≡ actions))) }
    {
        let Recognizer {
            tables,
            mut stack,
            mut done,
            ..
        } = self;
        if !may_vanish(&tables, &stack) {
            return Ok(None);
        }
        conclude(&tables, &mut stack, &mut done)?;
        Ok(Some(Actions::new(done)))
    }
}
