//! How many levels of an expression are open while it is read.
ghost use Rattle.std.specs.Prelude.{◌≡◌, ◌≤◌, ◌∷◌, false, reverse, OnOk, OnErr};
ghost use Rattle.sh_arith_grammar.specs.Levels.{Open, between, after_closing, after_operand, is_deep, none_open, opened, opens_assignment, opens_choice, opens_parenthesis};
ghost use Rattle.sh_arith_grammar.specs.Stack.{rest, top};
ghost use Rattle.sh_arith_grammar.specs.Roles.{role_of};

use crate::operators::{Role, role_of};
use std::alloc::{AllocError, Global};
use std::marker::Model;

/// How many levels may be open.
const LIMIT: usize = 500;

/// The levels that are open in an expression, after the tokens so far. Each parenthesis, prefix operator, `?`
/// and assignment operator opens a level; operators between operands open none. Contracts see a `Levels` as
/// the record `Open` of `specs/Levels.antt`.
#[derive(Drop)]
pub struct Levels {
    open: usize,
    // the prefix operators that have no operand yet
    prefixes: usize,
    // how many levels are open after each `)` and `:` that is still to come, the innermost last
    behind: Vec<usize>,
    // whether an operand came last
    operand: bool,
}

impl Model for Levels {
    ghost Value = { Open };

    ghost view = { λ l. record { levels = l.open; prefixes = l.prefixes; behind = reverse l.behind.items; operand = l.operand } };

    ghost invariant = { λ l. l.prefixes ≤ l.open };
}

/// Puts a count on a stack. An `Err` changes nothing.
fn push_count(stack: &mut Vec<usize>, count: usize) -> Result<(), AllocError>
    ensures ok { OnOk result (reverse stack.new.items ≡ count ∷ reverse stack.old.items) }
    ensures err { OnErr result (stack.new.items ≡ stack.old.items) }
{
    stack.push(count)?;
    Ok(())
}

/// Takes the count from the top of a stack; 0 where none is left.
fn pop_count(stack: &mut Vec<usize>) -> usize
    ensures top { result ≡ top 0 (reverse stack.old.items) }
    ensures rest { reverse stack.new.items ≡ rest (reverse stack.old.items) }
{
    match stack.pop() {
        Some(count) => count,
        None => 0,
    }
}

impl Levels {
    /// No level is open: the count before the first token. Takes no memory.
    pub fn new(alloc: Global) -> Self
        ensures { result ≡ none_open }
    {
        Levels {
            open: 0,
            prefixes: 0,
            behind: Vec::new(alloc),
            operand: false,
        }
    }

    /// Whether more than 500 levels are open.
    pub fn are_too_many(&self) -> bool
        ensures { result ≡ is_deep self.now }
    {
        self.open > LIMIT
    }

    /// Takes the next token, by its class. Before it at most 500 levels may be open. The only error is want
    /// of memory, after which the count is as it was.
    pub fn take(&mut self, class: u8) -> Result<(), AllocError>
        requires { is_deep self.old ≡ false }
        ensures ok { OnOk result (self.new ≡ opened (role_of class) self.old) }
        ensures err { OnErr result (self.new ≡ self.old) }
    {
        match role_of(class) {
            Role::Number => self.complete(),
            Role::Name => self.complete(),
            Role::Operator => self.take_operator(),
            Role::Logic => self.go_on(),
            Role::Question => return self.open_choice(),
            Role::Colon => self.close(false),
            Role::Assign => self.open_assignment(),
            Role::Opening => return self.open_parenthesis(),
            Role::Closing => self.close(true),
            Role::Nothing => {},
        }
        Ok(())
    }

    /// An operand is complete, and so are the prefix operators before it.
    fn complete(&mut self)
        ensures { self.new ≡ after_operand self.old }
    {
        self.open = self.open.saturating_sub(self.prefixes);
        self.prefixes = 0;
        self.operand = true;
    }

    /// Another operand follows.
    fn go_on(&mut self)
        ensures { self.new ≡ between self.old }
    {
        self.prefixes = 0;
        self.operand = false;
    }

    /// Takes an operator, before its operand or between two.
    fn take_operator(&mut self)
        requires { is_deep self.old ≡ false }
        ensures { self.new ≡ opened Role.Operator self.old }
    {
        if self.operand {
            self.go_on();
        } else {
            self.open += 1;
            self.prefixes += 1;
        }
    }

    fn open_assignment(&mut self)
        requires { is_deep self.old ≡ false }
        ensures { self.new ≡ opens_assignment self.old }
    {
        self.open += 1;
        self.go_on();
    }

    fn open_choice(&mut self) -> Result<(), AllocError>
        requires { is_deep self.old ≡ false }
        ensures ok { OnOk result (self.new ≡ opens_choice self.old) }
        ensures err { OnErr result (self.new ≡ self.old) }
    {
        push_count(&mut self.behind, self.open + 1)?;
        self.open_assignment();
        Ok(())
    }

    fn open_parenthesis(&mut self) -> Result<(), AllocError>
        requires { is_deep self.old ≡ false }
        ensures ok { OnOk result (self.new ≡ opens_parenthesis self.old) }
        ensures err { OnErr result (self.new ≡ self.old) }
    {
        let outside = self.open.saturating_sub(self.prefixes);
        push_count(&mut self.behind, outside)?;
        self.open_assignment();
        Ok(())
    }

    /// Takes `)`, which completes an operand, or `:`, which doesn't.
    fn close(&mut self, operand: bool)
        ensures { self.new ≡ after_closing self.old.behind operand }
    {
        self.open = pop_count(&mut self.behind);
        self.prefixes = 0;
        self.operand = operand;
    }
}
