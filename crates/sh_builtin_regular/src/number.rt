//! Whole numbers as operands.
ghost use Rattle.std.specs.Prelude.{◌≡◌};
ghost use Rattle.sh_base.specs.Decimals.{number_of};
ghost use Rattle.sh_builtin_regular.specs.Integers.{is_equal, is_less, negative, positive, whole_of};

use sh_base::decimal::number_of;

/// A whole number, as the difference of two natural numbers.
#[derive(Clone, Copy, Debug)]
pub(crate) struct Whole {
    /// The number from which the other is taken.
    pub(crate) plus: u64,
    /// The number that is taken from it.
    pub(crate) minus: u64,
}

impl Whole {
    /// The number of an operand, which may have a sign.
    pub(crate) fn of(operand: &[u8]) -> Option<Whole>
        ensures { result ≡ whole_of operand.now }
    {
        match operand.split_first() {
            Some((b'-', digits)) => negative(number_of(digits)),
            Some((b'+', digits)) => positive(number_of(digits)),
            Some(_) => positive(number_of(operand)),
            None => None,
        }
    }

    /// Whether it is less than another.
    pub(crate) fn is_less(self, other: Whole) -> bool
        ensures { result ≡ is_less self other }
    {
        u128::from(self.plus) + u128::from(other.minus)
            < u128::from(other.plus) + u128::from(self.minus)
    }

    /// Whether it is equal to another.
    pub(crate) fn is_equal(self, other: Whole) -> bool
        ensures { result ≡ is_equal self other }
    {
        u128::from(self.plus) + u128::from(other.minus)
            == u128::from(other.plus) + u128::from(self.minus)
    }
}

/// A number as a whole number.
fn positive(number: Option<u64>) -> Option<Whole>
    ensures { result ≡ positive number }
{
    let plus = number?;
    Some(Whole { plus, minus: 0 })
}

/// A number after a minus sign as a whole number.
fn negative(number: Option<u64>) -> Option<Whole>
    ensures { result ≡ negative number }
{
    let minus = number?;
    Some(Whole { plus: 0, minus })
}
