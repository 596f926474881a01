//! Integers of 64 bits with a sign, which wrap on overflow (XCU 2.6.4).
ghost use Rattle.std.specs.Prelude.{◌≡◌, ◌≢◌, pos};
ghost use Rattle.sh_arith_grammar.specs.Integers.{product_of, sum_of, difference_of, shifted_left, shifted_right, quotient, remainder, joined_and, joined_or, joined_xor, complement, negation};

/// The product.
pub(crate) fn multiply(x: i64, y: i64) -> i64
    ensures { result ≡ product_of x y }
{
    x.wrapping_mul(y)
}

/// The sum.
pub(crate) fn add(x: i64, y: i64) -> i64
    ensures { result ≡ sum_of x y }
{
    x.wrapping_add(y)
}

/// The difference.
pub(crate) fn subtract(x: i64, y: i64) -> i64
    ensures { result ≡ difference_of x y }
{
    x.wrapping_sub(y)
}

/// The negated number.
pub(crate) fn negate(x: i64) -> i64
    ensures { result ≡ negation x }
{
    x.wrapping_neg()
}

/// Shifted left, the count taken modulo 64.
pub(crate) fn shift_left(x: i64, y: i64) -> i64
    ensures { result ≡ shifted_left x y }
{
    x.wrapping_shl(y.rem_euclid(64) as u32)
}

/// Shifted right with the sign kept, the count taken modulo 64.
pub(crate) fn shift_right(x: i64, y: i64) -> i64
    ensures { result ≡ shifted_right x y }
{
    x.wrapping_shr(y.rem_euclid(64) as u32)
}

/// The quotient, rounded towards zero.
pub(crate) fn divide(x: i64, y: i64) -> i64
    requires { y ≢ pos 0 }
    ensures { result ≡ quotient x y }
{
    x.wrapping_div(y)
}

/// The remainder, with the dividend's sign.
pub(crate) fn remain(x: i64, y: i64) -> i64
    requires { y ≢ pos 0 }
    ensures { result ≡ remainder x y }
{
    x.wrapping_rem(y)
}

/// The bits that both have.
pub(crate) fn bit_and(x: i64, y: i64) -> i64
    ensures { result ≡ joined_and x y }
{
    x & y
}

/// The bits that at least one of them has.
pub(crate) fn bit_or(x: i64, y: i64) -> i64
    ensures { result ≡ joined_or x y }
{
    x | y
}

/// The bits that exactly one of them has.
pub(crate) fn bit_xor(x: i64, y: i64) -> i64
    ensures { result ≡ joined_xor x y }
{
    x ^ y
}

/// Each bit inverted.
pub(crate) fn invert(x: i64) -> i64
    ensures { result ≡ complement x }
{
    !x
}
