//! Why words can't be expanded.
use sh_base::sequence::Text;

/// Why words can't be expanded (XCU 2.8.1), with what the shell's message prints.
#[derive(Debug, Drop)]
pub enum Fault {
    /// `${p?w}` where the parameter isn't set, or, under `set -u`, a parameter that isn't set is expanded.
    Unset {
        /// The parameter as it is written after the `$`.
        name: Text,
        /// What `w` expands to; `None` where there is no word, and under `set -u`.
        message: Option<Text>,
    },
    /// `=` on a parameter that isn't a variable, or the length of `@` or `*`.
    BadSubstitution,
    /// An arithmetic expression has no value.
    Arithmetic(ArithmeticError),
    /// An assignment to a variable that is read-only.
    ReadOnly {
        /// The variable.
        name: Text,
    },
}

/// Why an arithmetic expression has no value (XCU 2.6.4).
#[derive(Clone, Copy, Debug, PartialEq, Eq)]
pub enum ArithmeticError {
    /// It is no expression.
    Syntax,
    /// A divisor is 0.
    DivisionByZero,
    /// A constant is too large, or a variable's value is no number.
    NotANumber,
    /// It has more than 500 levels.
    TooDeep,
}
