//! The operators, and the role and the operator of each class of tokens.
ghost use Rattle.std.specs.Prelude.{◌≡◌, slice_index_or};
ghost use Rattle.sh_arith_grammar.specs.Roles.{operator_of, role_of};

/// An operator of arithmetic expressions (XCU 2.6.4).
#[derive(Clone, Copy)]
pub enum Operator {
    /// `*`.
    Times,
    /// `/`.
    Divide,
    /// `%`.
    Remainder,
    /// `+`, before one operand or between two.
    Plus,
    /// `-`, before one operand or between two.
    Minus,
    /// `<<`.
    ShiftLeft,
    /// `>>`.
    ShiftRight,
    /// `<`.
    Less,
    /// `<=`.
    LessOrEqual,
    /// `>`.
    Greater,
    /// `>=`.
    GreaterOrEqual,
    /// `==`.
    Equal,
    /// `!=`.
    Unequal,
    /// `&`.
    And,
    /// `^`.
    Xor,
    /// `|`.
    Or,
    /// `~`.
    Complement,
    /// `!`.
    Not,
    /// `&&`.
    BothTrue,
    /// `||`.
    EitherTrue,
    /// `=`.
    Assign,
}

/// What a token is to its expression.
#[derive(Clone, Copy)]
pub enum Role {
    /// A constant.
    Number,
    /// A name.
    Name,
    /// An operator with one operand, or with two that are both evaluated.
    Operator,
    /// `&&` or `||`.
    Logic,
    /// `?`.
    Question,
    /// `:`.
    Colon,
    /// An operator that assigns.
    Assign,
    /// `(`.
    Opening,
    /// `)`.
    Closing,
    /// A token that no expression has, or the end.
    Nothing,
}

/// The role of each class of tokens.
const ROLES: [Role; 39] = [
    Role::Number, // a constant
    Role::Name, // a name
    Role::Assign, // `<<=`
    Role::Assign, // `>>=`
    Role::Operator, // `<<`
    Role::Operator, // `>>`
    Role::Operator, // `<=`
    Role::Operator, // `>=`
    Role::Operator, // `==`
    Role::Operator, // `!=`
    Role::Logic, // `&&`
    Role::Logic, // `||`
    Role::Assign, // `+=`
    Role::Assign, // `-=`
    Role::Assign, // `*=`
    Role::Assign, // `/=`
    Role::Assign, // `%=`
    Role::Assign, // `&=`
    Role::Assign, // `^=`
    Role::Assign, // `|=`
    Role::Operator, // `+`
    Role::Operator, // `-`
    Role::Operator, // `~`
    Role::Operator, // `!`
    Role::Operator, // `*`
    Role::Operator, // `/`
    Role::Operator, // `%`
    Role::Operator, // `<`
    Role::Operator, // `>`
    Role::Operator, // `&`
    Role::Operator, // `^`
    Role::Operator, // `|`
    Role::Question, // `?`
    Role::Colon, // `:`
    Role::Assign, // `=`
    Role::Opening, // `(`
    Role::Closing, // `)`
    Role::Nothing, // no token
    Role::Nothing, // the end
];

/// The operator of each class of tokens; for `+=` it is `+`.
const OPERATORS: [Operator; 39] = [
    Operator::Assign, // a constant
    Operator::Assign, // a name
    Operator::ShiftLeft, // `<<=`
    Operator::ShiftRight, // `>>=`
    Operator::ShiftLeft, // `<<`
    Operator::ShiftRight, // `>>`
    Operator::LessOrEqual, // `<=`
    Operator::GreaterOrEqual, // `>=`
    Operator::Equal, // `==`
    Operator::Unequal, // `!=`
    Operator::BothTrue, // `&&`
    Operator::EitherTrue, // `||`
    Operator::Plus, // `+=`
    Operator::Minus, // `-=`
    Operator::Times, // `*=`
    Operator::Divide, // `/=`
    Operator::Remainder, // `%=`
    Operator::And, // `&=`
    Operator::Xor, // `^=`
    Operator::Or, // `|=`
    Operator::Plus, // `+`
    Operator::Minus, // `-`
    Operator::Complement, // `~`
    Operator::Not, // `!`
    Operator::Times, // `*`
    Operator::Divide, // `/`
    Operator::Remainder, // `%`
    Operator::Less, // `<`
    Operator::Greater, // `>`
    Operator::And, // `&`
    Operator::Xor, // `^`
    Operator::Or, // `|`
    Operator::Assign, // `?`
    Operator::Assign, // `:`
    Operator::Assign, // `=`
    Operator::Assign, // `(`
    Operator::Assign, // `)`
    Operator::Assign, // no token
    Operator::Assign, // the end
];

fn role_in(roles: &[Role], place: usize) -> Role
    ensures { result ≡ slice_index_or roles.now place Role.Nothing }
{
    match roles.get(place) {
        Some(role) => *role,
        None => Role::Nothing,
    }
}

/// The role of a class of tokens. Past the last class it is `Nothing`.
#[tactic(auto, using(crate::proofs::Tied::role_is))]
pub fn role_of(class: u8) -> Role
    ensures { result ≡ role_of class }
{
    role_in(&ROLES, usize::from(class))
}

fn operator_in(operators: &[Operator], place: usize) -> Operator
    ensures { result ≡ slice_index_or operators.now place Operator.Assign }
{
    match operators.get(place) {
        Some(operator) => *operator,
        None => Operator::Assign,
    }
}

/// The operator of a class of tokens; for `+=` it is `Plus`. `Assign` where the class is no operator.
#[tactic(auto, using(crate::proofs::Tied::operator_is))]
pub fn operator_of(class: u8) -> Operator
    ensures { result ≡ operator_of class }
{
    operator_in(&OPERATORS, usize::from(class))
}
