//! Arithmetic expressions of the Shell Command Language (IEEE Std 1003.1-2024, XCU 2.6.4).
//!
//! `evaluate` reads a whole text and gives its value in 64 bits with a sign, with the variables of a shell.
//! An expression may have decimal, octal and hexadecimal constants, variables, parentheses and C's integer
//! operators other than `++`, `--`, `sizeof` and the comma. It has C's precedences, and at most 500 levels.
#![tactic(auto)]

ghost use Rattle.sh_base.specs.Memory.{no_memory};
ghost use Rattle.std.specs.Prelude.{◌≡◌, ◌≢◌, ◌↔◌, ℕ, ℤ, List, true, IfOk, IfErr};
ghost use Rattle.sh_arith.specs.declared.faults.ArithFault.{ArithFault};
ghost use Rattle.sh_vars.specs.Environment.{Environment};
ghost use Rattle.sh_arith.specs.Evaluated.{evaluation};
ghost use Rattle.sh_arith.specs.Evaluation.{HasFault, Says};
ghost use Rattle.sh_arith.specs.Expression.{Expression};
ghost use Rattle.sh_arith.specs.Outcome.{Gives, Stops};
ghost use Rattle.sh_arith.specs.Value.{value};
ghost use Rattle.sh_arith.specs.Written.{IsWritten};
ghost use Rattle.sh_arith_grammar.specs.Levels.{are_shallow, none_open};
ghost use Rattle.sh_arith_grammar.specs.Lexical.{tokens_of};

mod examples;
mod faults;
mod machine;
mod read;
mod values;

pub use examples::{
    operators_are_spelled_as_in_c, operators_bind_as_in_c, operators_group_as_in_c,
};
pub use faults::ArithFault;
use sh_vars::Vars;
use std::alloc::Global;

/// Law: a text says at most one expression.
pub fn says_one_expression()
    ensures { (text : List ℕ) (x y : Expression) → Says text x → Says text y → x ≡ y }
{
    sh_grammar::one_tree();
}

/// Law: a text says the expression that its tokens write by C's grammar, in at most 500 levels. The table of
/// operators has their precedence and grouping. A blank text says 0.
pub fn texts_are_read_as_in_c()
    ensures { (text : List ℕ) (e : Expression) → Says text e
        ↔ (IsWritten (tokens_of text) e × (are_shallow none_open (tokens_of text) ≡ true)) }
{}

/// Law: the function `evaluation` gives the value of what a text says, or the fault of a text without a
/// value, and nothing else.
pub fn evaluation_is_computed()
    ensures value { (text : List ℕ) (v : ℤ) (before after : Environment)
        → ((e : Expression) × Says text e × (value text e before ≡ Gives v after))
        ↔ (evaluation text before ≡ Gives v after) }
    ensures fault { (text : List ℕ) (f : ArithFault) (before after : Environment)
        → HasFault text before f after ↔ (evaluation text before ≡ Stops f after) }
{}

/// The value of an arithmetic expression (XCU 2.6.4). A blank text is 0.
///
/// Values have 64 bits and a sign, and wrap: the least value divided by -1 is itself, and its remainder is 0.
/// Division rounds towards zero. Shift counts are taken modulo 64, and a right shift keeps the sign. Operands
/// are evaluated from left to right. An operator such as `+=` reads its variable before its right side is
/// evaluated. What `&&`, `||` and `?:` skip is not evaluated.
///
/// A variable's value is a constant, with an optional sign before it and blanks around; an empty or unset
/// value is 0.
///
/// Each parenthesis, prefix operator, `?` and assignment operator opens a level, and 500 may be open.
/// Operators between two operands open none. Both parts of a choice are inside the level of its `?`, and the
/// right side of an assignment is inside the level of its operator.
///
/// Errors: `Syntax` for a text that is no expression, and `TooDeep` where level 501 opens before any token is
/// refused. After these two no variable has changed. `DivideByZero` is for `/` and `%`. `NotANumber` is for a
/// constant above 9223372036854775807 that is evaluated, or for a variable's value that is no number.
/// `ReadOnly` is for an assignment to a read-only variable. `Unset` is for an unset variable whose value is
/// needed under `set -u`. What was assigned before such an error stays. `NoMemory` may come at any place, and
/// leaves open which of the text's assignments were done.
pub fn evaluate(alloc: Global, text: &[u8], vars: &mut Vars) -> Result<i64, ArithFault>
    ensures value { IfOk result (λ v.
        (e : Expression) × Says text.now e × (value text.now e vars.old ≡ Gives v vars.new)) }
    ensures fault { IfErr result (λ f.
        f ≢ ArithFault.NoMemory no_memory → HasFault text.now vars.old f vars.new) }
{
    let actions = match read::read(alloc, text) {
        Ok(actions) => actions,
        Err(fault) => return Err(fault),
    };
    machine::value_of(alloc, text, actions.as_slice(), vars)
}
