//! The results of the operators (XCU 2.6.4).
ghost use Rattle.std.specs.Prelude.{◌≡◌};
ghost use Rattle.sh_arith_grammar.specs.Operators.{binary_result, truth, unary_result};

use crate::integer;
use crate::operators::Operator;

/// 1 for true, 0 for false.
pub fn truth(holds: bool) -> i64
    ensures { result ≡ truth holds }
{
    if holds { 1 } else { 0 }
}

impl Operator {
    /// The result of the operator between two operands (C 6.5); `None` for `/` or `%` by 0. An operator that
    /// isn't applied to two operands gives the second, as `=` does.
    #[tactic(auto, unfolding(crate::specs::Operators::binary_result))]
    pub fn apply(self, v: i64, w: i64) -> Option<i64>
        ensures { result ≡ binary_result self v w }
    {
        match self {
            Operator::Divide => {
                if w == 0 {
                    None
                } else {
                    Some(integer::divide(v, w))
                }
            },
            Operator::Remainder => {
                if w == 0 {
                    None
                } else {
                    Some(integer::remain(v, w))
                }
            },
            Operator::Times => Some(integer::multiply(v, w)),
            Operator::Plus => Some(integer::add(v, w)),
            Operator::Minus => Some(integer::subtract(v, w)),
            Operator::ShiftLeft => Some(integer::shift_left(v, w)),
            Operator::ShiftRight => Some(integer::shift_right(v, w)),
            Operator::Less => Some(truth(v < w)),
            Operator::LessOrEqual => Some(truth(!(w < v))),
            Operator::Greater => Some(truth(w < v)),
            Operator::GreaterOrEqual => Some(truth(!(v < w))),
            Operator::Equal => Some(truth(v == w)),
            Operator::Unequal => Some(truth(v != w)),
            Operator::And => Some(integer::bit_and(v, w)),
            Operator::Xor => Some(integer::bit_xor(v, w)),
            Operator::Or => Some(integer::bit_or(v, w)),
            _ => Some(w),
        }
    }

    /// The result of the operator before one operand (C 6.5.3.3). An operator that isn't applied to one
    /// operand gives the operand unchanged, as `+` does.
    #[tactic(auto, unfolding(crate::specs::Operators::unary_result))]
    pub fn turn(self, v: i64) -> i64
        ensures { result ≡ unary_result self v }
    {
        match self {
            Operator::Minus => integer::negate(v),
            Operator::Complement => integer::invert(v),
            Operator::Not => truth(v == 0),
            _ => v,
        }
    }
}
