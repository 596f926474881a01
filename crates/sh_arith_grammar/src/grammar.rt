//! The grammar of arithmetic expressions (XCU 2.6.4; the operators and precedences of C's integer expressions), and its
//! parsing table. Symbols and classes are numbers; a set of classes has a bit for each.
ghost use Rattle.std.specs.Prelude.{◌≡◌, slice_index_or};
ghost use Rattle.sh_arith_grammar.specs.Grammar.{arithmetic};
ghost use Rattle.sh_arith_grammar.specs.Roles.{kind_of};
ghost use Rattle.sh_grammar.specs.Passes.{IsPredictive};
ghost use Rattle.sh_grammar.specs.Tabulation.{tabulation_of};

use sh_grammar::Symbol::{self, Nonterminal, Terminal};
use sh_grammar::Tables;

/// What a production means. Those from `Load` on have empty bodies: there something is done.
#[derive(Clone, Copy)]
pub enum Kind {
    /// An operand, and operators that may follow it.
    Chain,
    /// Operators that may follow an operand.
    Rest,
    /// An expression in parentheses.
    Within,
    /// What follows a name whose value is needed.
    Takes,
    /// A blank text.
    Zero,
    /// A name, and what follows it.
    Named,
    /// A constant.
    Number,
    /// An operator before its operand.
    Prefix,
    /// An operator between its operands.
    Binary,
    /// `&&` or `||`.
    Logic,
    /// `?` with `:`.
    Chooses,
    /// An assignment.
    Assigns,
    /// The value of a name is read.
    Load,
    /// The operator before an operand is applied.
    Turn,
    /// The operator between two operands is applied.
    Do,
    /// `&&` or `||` has its result.
    Decide,
    /// `?` with `:` has its result.
    Join,
    /// The assignment is done.
    Store,
}

/// The head of each production.
const HEADS: [u8; 51] = [
    0, 0, 1, 1, 2, 2, 3, 4, 5, 5, 6, 7, 7, 8, 9, 9, 10, 11, 11, 12, 13, 13, 14, 15, 15, 16, 17, 17,
    18, 19, 19, 20, 21, 21, 22, 23, 23, 24, 25, 25, 26, 26, 27, 27, 27, 28, 29, 30, 31, 32, 33,
];

/// The classes that may come next where a production is used: all.
const GUARDS: [u64; 51] = [
    549755813887,
    549755813887,
    549755813887,
    549755813887,
    549755813887,
    549755813887,
    549755813887,
    549755813887,
    549755813887,
    549755813887,
    549755813887,
    549755813887,
    549755813887,
    549755813887,
    549755813887,
    549755813887,
    549755813887,
    549755813887,
    549755813887,
    549755813887,
    549755813887,
    549755813887,
    549755813887,
    549755813887,
    549755813887,
    549755813887,
    549755813887,
    549755813887,
    549755813887,
    549755813887,
    549755813887,
    549755813887,
    549755813887,
    549755813887,
    549755813887,
    549755813887,
    549755813887,
    549755813887,
    549755813887,
    549755813887,
    549755813887,
    549755813887,
    549755813887,
    549755813887,
    549755813887,
    549755813887,
    549755813887,
    549755813887,
    549755813887,
    549755813887,
    549755813887,
];

/// The body of each production.
const BODIES: [&[Symbol]; 51] = [
    // Whole ->
    &[],
    // Whole -> Assign
    &[Nonterminal(1)],
    // Assign -> name AfterName
    &[Terminal(1), Nonterminal(2)],
    // Assign -> Other Tail
    &[Nonterminal(27), Nonterminal(3)],
    // AfterName -> assign Assign Store
    &[Terminal(14), Nonterminal(1), Nonterminal(28)],
    // AfterName -> Load Tail
    &[Nonterminal(29), Nonterminal(3)],
    // Tail -> MulRest AddRest ShiftRest RelRest EqRest AmpRest CaretRest BarRest AndRest OrRest CondRest
    &[
        Nonterminal(25),
        Nonterminal(23),
        Nonterminal(21),
        Nonterminal(19),
        Nonterminal(17),
        Nonterminal(15),
        Nonterminal(13),
        Nonterminal(11),
        Nonterminal(9),
        Nonterminal(7),
        Nonterminal(5),
    ],
    // Cond -> Or CondRest
    &[Nonterminal(6), Nonterminal(5)],
    // CondRest ->
    &[],
    // CondRest -> question Assign colon Cond Join
    &[
        Terminal(13),
        Nonterminal(1),
        Terminal(15),
        Nonterminal(4),
        Nonterminal(30),
    ],
    // Or -> And OrRest
    &[Nonterminal(8), Nonterminal(7)],
    // OrRest ->
    &[],
    // OrRest -> or_if And Decide OrRest
    &[
        Terminal(12),
        Nonterminal(8),
        Nonterminal(31),
        Nonterminal(7),
    ],
    // And -> Bar AndRest
    &[Nonterminal(10), Nonterminal(9)],
    // AndRest ->
    &[],
    // AndRest -> and_if Bar Decide AndRest
    &[
        Terminal(11),
        Nonterminal(10),
        Nonterminal(31),
        Nonterminal(9),
    ],
    // Bar -> Caret BarRest
    &[Nonterminal(12), Nonterminal(11)],
    // BarRest ->
    &[],
    // BarRest -> bar Caret Do BarRest
    &[
        Terminal(10),
        Nonterminal(12),
        Nonterminal(32),
        Nonterminal(11),
    ],
    // Caret -> Amp CaretRest
    &[Nonterminal(14), Nonterminal(13)],
    // CaretRest ->
    &[],
    // CaretRest -> caret Amp Do CaretRest
    &[
        Terminal(9),
        Nonterminal(14),
        Nonterminal(32),
        Nonterminal(13),
    ],
    // Amp -> Eq AmpRest
    &[Nonterminal(16), Nonterminal(15)],
    // AmpRest ->
    &[],
    // AmpRest -> amp Eq Do AmpRest
    &[
        Terminal(8),
        Nonterminal(16),
        Nonterminal(32),
        Nonterminal(15),
    ],
    // Eq -> Rel EqRest
    &[Nonterminal(18), Nonterminal(17)],
    // EqRest ->
    &[],
    // EqRest -> eq Rel Do EqRest
    &[
        Terminal(7),
        Nonterminal(18),
        Nonterminal(32),
        Nonterminal(17),
    ],
    // Rel -> Shift RelRest
    &[Nonterminal(20), Nonterminal(19)],
    // RelRest ->
    &[],
    // RelRest -> rel Shift Do RelRest
    &[
        Terminal(6),
        Nonterminal(20),
        Nonterminal(32),
        Nonterminal(19),
    ],
    // Shift -> Add ShiftRest
    &[Nonterminal(22), Nonterminal(21)],
    // ShiftRest ->
    &[],
    // ShiftRest -> shift Add Do ShiftRest
    &[
        Terminal(5),
        Nonterminal(22),
        Nonterminal(32),
        Nonterminal(21),
    ],
    // Add -> Mul AddRest
    &[Nonterminal(24), Nonterminal(23)],
    // AddRest ->
    &[],
    // AddRest -> add Mul Do AddRest
    &[
        Terminal(4),
        Nonterminal(24),
        Nonterminal(32),
        Nonterminal(23),
    ],
    // Mul -> Unary MulRest
    &[Nonterminal(26), Nonterminal(25)],
    // MulRest ->
    &[],
    // MulRest -> mul Unary Do MulRest
    &[
        Terminal(3),
        Nonterminal(26),
        Nonterminal(32),
        Nonterminal(25),
    ],
    // Unary -> name Load
    &[Terminal(1), Nonterminal(29)],
    // Unary -> Other
    &[Nonterminal(27)],
    // Other -> number
    &[Terminal(0)],
    // Other -> lparen Assign rparen
    &[Terminal(16), Nonterminal(1), Terminal(17)],
    // Other -> prefix Unary Turn
    &[Terminal(2), Nonterminal(26), Nonterminal(33)],
    // Store ->
    &[],
    // Load ->
    &[],
    // Join ->
    &[],
    // Decide ->
    &[],
    // Do ->
    &[],
    // Turn ->
    &[],
];

/// The classes of each terminal.
const TERMINALS: [u64; 18] = [
    1,
    2,
    15728640,
    117440512,
    3145728,
    48,
    402653376,
    768,
    536870912,
    1073741824,
    2147483648,
    1024,
    2048,
    4294967296,
    17180913676,
    8589934592,
    34359738368,
    68719476736,
];

/// The class of the end, after the last token.
const ENDING: u8 = 38;

/// The nonterminal of a whole text.
const START: u8 = 0;

/// The classes with which each nonterminal may begin.
const FIRSTS: [u64; 34] = [
    34375467011,
    34375467011,
    25757220860,
    8576307184,
    34375467011,
    4294967296,
    34375467011,
    2048,
    34375467011,
    1024,
    34375467011,
    2147483648,
    34375467011,
    1073741824,
    34375467011,
    536870912,
    34375467011,
    768,
    34375467011,
    402653376,
    34375467011,
    48,
    34375467011,
    3145728,
    34375467011,
    117440512,
    34375467011,
    34375467009,
    0,
    0,
    0,
    0,
    0,
    0,
];

/// The classes before which each nonterminal may be empty.
const NULLABLES: [u64; 34] = [
    549755813887,
    0,
    549755813887,
    549755813887,
    0,
    549755813887,
    0,
    549755813887,
    0,
    549755813887,
    0,
    549755813887,
    0,
    549755813887,
    0,
    549755813887,
    0,
    549755813887,
    0,
    549755813887,
    0,
    549755813887,
    0,
    549755813887,
    0,
    549755813887,
    0,
    0,
    549755813887,
    549755813887,
    549755813887,
    549755813887,
    549755813887,
    549755813887,
];

/// The production to use, by nonterminal and class.
const PREDICTS: [u8; 1326] = [
    1, 1, 0, 0, 0, 0, 0, 0, 0, 0, 0, 0, 0, 0, 0, 0, 0, 0, 0, 0, 1, 1, 1, 1, 0, 0, 0, 0, 0, 0, 0, 0,
    0, 0, 0, 1, 0, 0, 0, 3, 2, 0, 0, 0, 0, 0, 0, 0, 0, 0, 0, 0, 0, 0, 0, 0, 0, 0, 0, 3, 3, 3, 3, 0,
    0, 0, 0, 0, 0, 0, 0, 0, 0, 0, 3, 0, 0, 0, 0, 0, 4, 4, 5, 5, 5, 5, 5, 5, 5, 5, 4, 4, 4, 4, 4, 4,
    4, 4, 5, 5, 0, 0, 5, 5, 5, 5, 5, 5, 5, 5, 5, 5, 4, 0, 5, 0, 5, 0, 0, 0, 0, 6, 6, 6, 6, 6, 6, 6,
    6, 0, 0, 0, 0, 0, 0, 0, 0, 6, 6, 0, 0, 6, 6, 6, 6, 6, 6, 6, 6, 6, 6, 0, 0, 6, 0, 6, 7, 7, 0, 0,
    0, 0, 0, 0, 0, 0, 0, 0, 0, 0, 0, 0, 0, 0, 0, 0, 7, 7, 7, 7, 0, 0, 0, 0, 0, 0, 0, 0, 0, 0, 0, 7,
    0, 0, 0, 0, 0, 0, 0, 0, 0, 0, 0, 0, 0, 0, 0, 0, 0, 0, 0, 0, 0, 0, 0, 0, 0, 0, 0, 0, 0, 0, 0, 0,
    0, 0, 0, 9, 8, 0, 0, 8, 0, 8, 10, 10, 0, 0, 0, 0, 0, 0, 0, 0, 0, 0, 0, 0, 0, 0, 0, 0, 0, 0, 10,
    10, 10, 10, 0, 0, 0, 0, 0, 0, 0, 0, 0, 0, 0, 10, 0, 0, 0, 0, 0, 0, 0, 0, 0, 0, 0, 0, 0, 0, 12,
    0, 0, 0, 0, 0, 0, 0, 0, 0, 0, 0, 0, 0, 0, 0, 0, 0, 0, 0, 0, 11, 11, 0, 0, 11, 0, 11, 13, 13, 0,
    0, 0, 0, 0, 0, 0, 0, 0, 0, 0, 0, 0, 0, 0, 0, 0, 0, 13, 13, 13, 13, 0, 0, 0, 0, 0, 0, 0, 0, 0,
    0, 0, 13, 0, 0, 0, 0, 0, 0, 0, 0, 0, 0, 0, 0, 0, 15, 14, 0, 0, 0, 0, 0, 0, 0, 0, 0, 0, 0, 0, 0,
    0, 0, 0, 0, 0, 0, 0, 14, 14, 0, 0, 14, 0, 14, 16, 16, 0, 0, 0, 0, 0, 0, 0, 0, 0, 0, 0, 0, 0, 0,
    0, 0, 0, 0, 16, 16, 16, 16, 0, 0, 0, 0, 0, 0, 0, 0, 0, 0, 0, 16, 0, 0, 0, 0, 0, 0, 0, 0, 0, 0,
    0, 0, 0, 17, 17, 0, 0, 0, 0, 0, 0, 0, 0, 0, 0, 0, 0, 0, 0, 0, 0, 0, 0, 0, 18, 17, 17, 0, 0, 17,
    0, 17, 19, 19, 0, 0, 0, 0, 0, 0, 0, 0, 0, 0, 0, 0, 0, 0, 0, 0, 0, 0, 19, 19, 19, 19, 0, 0, 0,
    0, 0, 0, 0, 0, 0, 0, 0, 19, 0, 0, 0, 0, 0, 0, 0, 0, 0, 0, 0, 0, 0, 20, 20, 0, 0, 0, 0, 0, 0, 0,
    0, 0, 0, 0, 0, 0, 0, 0, 0, 0, 0, 21, 20, 20, 20, 0, 0, 20, 0, 20, 22, 22, 0, 0, 0, 0, 0, 0, 0,
    0, 0, 0, 0, 0, 0, 0, 0, 0, 0, 0, 22, 22, 22, 22, 0, 0, 0, 0, 0, 0, 0, 0, 0, 0, 0, 22, 0, 0, 0,
    0, 0, 0, 0, 0, 0, 0, 0, 0, 0, 23, 23, 0, 0, 0, 0, 0, 0, 0, 0, 0, 0, 0, 0, 0, 0, 0, 0, 0, 24,
    23, 23, 23, 23, 0, 0, 23, 0, 23, 25, 25, 0, 0, 0, 0, 0, 0, 0, 0, 0, 0, 0, 0, 0, 0, 0, 0, 0, 0,
    25, 25, 25, 25, 0, 0, 0, 0, 0, 0, 0, 0, 0, 0, 0, 25, 0, 0, 0, 0, 0, 0, 0, 0, 0, 0, 0, 27, 27,
    26, 26, 0, 0, 0, 0, 0, 0, 0, 0, 0, 0, 0, 0, 0, 0, 0, 0, 0, 26, 26, 26, 26, 26, 0, 0, 26, 0, 26,
    28, 28, 0, 0, 0, 0, 0, 0, 0, 0, 0, 0, 0, 0, 0, 0, 0, 0, 0, 0, 28, 28, 28, 28, 0, 0, 0, 0, 0, 0,
    0, 0, 0, 0, 0, 28, 0, 0, 0, 0, 0, 0, 0, 0, 0, 30, 30, 29, 29, 29, 29, 0, 0, 0, 0, 0, 0, 0, 0,
    0, 0, 0, 0, 0, 0, 0, 30, 30, 29, 29, 29, 29, 29, 0, 0, 29, 0, 29, 31, 31, 0, 0, 0, 0, 0, 0, 0,
    0, 0, 0, 0, 0, 0, 0, 0, 0, 0, 0, 31, 31, 31, 31, 0, 0, 0, 0, 0, 0, 0, 0, 0, 0, 0, 31, 0, 0, 0,
    0, 0, 0, 0, 33, 33, 32, 32, 32, 32, 32, 32, 0, 0, 0, 0, 0, 0, 0, 0, 0, 0, 0, 0, 0, 0, 0, 32,
    32, 32, 32, 32, 32, 32, 0, 0, 32, 0, 32, 34, 34, 0, 0, 0, 0, 0, 0, 0, 0, 0, 0, 0, 0, 0, 0, 0,
    0, 0, 0, 34, 34, 34, 34, 0, 0, 0, 0, 0, 0, 0, 0, 0, 0, 0, 34, 0, 0, 0, 0, 0, 0, 0, 35, 35, 35,
    35, 35, 35, 35, 35, 0, 0, 0, 0, 0, 0, 0, 0, 36, 36, 0, 0, 0, 0, 0, 35, 35, 35, 35, 35, 35, 35,
    0, 0, 35, 0, 35, 37, 37, 0, 0, 0, 0, 0, 0, 0, 0, 0, 0, 0, 0, 0, 0, 0, 0, 0, 0, 37, 37, 37, 37,
    0, 0, 0, 0, 0, 0, 0, 0, 0, 0, 0, 37, 0, 0, 0, 0, 0, 0, 0, 38, 38, 38, 38, 38, 38, 38, 38, 0, 0,
    0, 0, 0, 0, 0, 0, 38, 38, 0, 0, 39, 39, 39, 38, 38, 38, 38, 38, 38, 38, 0, 0, 38, 0, 38, 41,
    40, 0, 0, 0, 0, 0, 0, 0, 0, 0, 0, 0, 0, 0, 0, 0, 0, 0, 0, 41, 41, 41, 41, 0, 0, 0, 0, 0, 0, 0,
    0, 0, 0, 0, 41, 0, 0, 0, 42, 0, 0, 0, 0, 0, 0, 0, 0, 0, 0, 0, 0, 0, 0, 0, 0, 0, 0, 0, 44, 44,
    44, 44, 0, 0, 0, 0, 0, 0, 0, 0, 0, 0, 0, 43, 0, 0, 0, 0, 0, 0, 0, 0, 0, 0, 0, 0, 0, 0, 0, 0, 0,
    0, 0, 0, 0, 0, 0, 0, 0, 0, 0, 0, 0, 0, 0, 0, 0, 0, 0, 0, 45, 0, 0, 45, 0, 45, 0, 0, 0, 0, 46,
    46, 46, 46, 46, 46, 46, 46, 0, 0, 0, 0, 0, 0, 0, 0, 46, 46, 0, 0, 46, 46, 46, 46, 46, 46, 46,
    46, 46, 46, 0, 0, 46, 0, 46, 0, 0, 0, 0, 0, 0, 0, 0, 0, 0, 0, 0, 0, 0, 0, 0, 0, 0, 0, 0, 0, 0,
    0, 0, 0, 0, 0, 0, 0, 0, 0, 0, 0, 47, 0, 0, 47, 0, 47, 0, 0, 0, 0, 0, 0, 0, 0, 0, 0, 48, 48, 0,
    0, 0, 0, 0, 0, 0, 0, 0, 0, 0, 0, 0, 0, 0, 0, 0, 0, 0, 0, 48, 48, 0, 0, 48, 0, 48, 0, 0, 0, 0,
    49, 49, 49, 49, 49, 49, 49, 49, 0, 0, 0, 0, 0, 0, 0, 0, 49, 49, 0, 0, 49, 49, 49, 49, 49, 49,
    49, 49, 49, 49, 0, 0, 49, 0, 49, 0, 0, 0, 0, 50, 50, 50, 50, 50, 50, 50, 50, 0, 0, 0, 0, 0, 0,
    0, 0, 50, 50, 0, 0, 50, 50, 50, 50, 50, 50, 50, 50, 50, 50, 0, 0, 50, 0, 50,
];

/// What each production means.
const KINDS: [Kind; 51] = [
    Kind::Zero,
    Kind::Chain,
    Kind::Named,
    Kind::Chain,
    Kind::Assigns,
    Kind::Takes,
    Kind::Rest,
    Kind::Chain,
    Kind::Rest,
    Kind::Chooses,
    Kind::Chain,
    Kind::Rest,
    Kind::Logic,
    Kind::Chain,
    Kind::Rest,
    Kind::Logic,
    Kind::Chain,
    Kind::Rest,
    Kind::Binary,
    Kind::Chain,
    Kind::Rest,
    Kind::Binary,
    Kind::Chain,
    Kind::Rest,
    Kind::Binary,
    Kind::Chain,
    Kind::Rest,
    Kind::Binary,
    Kind::Chain,
    Kind::Rest,
    Kind::Binary,
    Kind::Chain,
    Kind::Rest,
    Kind::Binary,
    Kind::Chain,
    Kind::Rest,
    Kind::Binary,
    Kind::Chain,
    Kind::Rest,
    Kind::Binary,
    Kind::Named,
    Kind::Chain,
    Kind::Number,
    Kind::Within,
    Kind::Prefix,
    Kind::Store,
    Kind::Load,
    Kind::Join,
    Kind::Decide,
    Kind::Do,
    Kind::Turn,
];

/// The grammar with its parsing table. One token of lookahead decides.
pub fn tables() -> Tables<'static>
    ensures grammar { tabulation_of result ≡ arithmetic }
    ensures passes { IsPredictive (tabulation_of result) }
{
    Tables {
        heads: &HEADS,
        bodies: &BODIES,
        guards: &GUARDS,
        terminals: &TERMINALS,
        ending: ENDING,
        start: START,
        firsts: &FIRSTS,
        nullables: &NULLABLES,
        predicts: &PREDICTS,
    }
}

fn kind_in(kinds: &[Kind], place: usize) -> Kind
    ensures { result ≡ slice_index_or kinds.now place Kind.Rest }
{
    match kinds.get(place) {
        Some(kind) => *kind,
        None => Kind::Rest,
    }
}

/// What a production means, by its number. Past the last production it is `Rest`.
#[tactic(auto, using(crate::proofs::Tied::kind_is))]
pub fn kind_of(rule: u8) -> Kind
    ensures { result ≡ kind_of rule }
{
    kind_in(&KINDS, usize::from(rule))
}
