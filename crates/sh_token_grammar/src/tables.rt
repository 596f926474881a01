//! The numbers of the shell's grammar and of its parsing table, as `scripts/shell_tables.py` computes them.
use sh_grammar::Symbol;
use sh_grammar::Symbol::{Nonterminal, Terminal};

/// The head of each production.
pub(crate) const HEADS: [u8; 73] = [
    0, 1, 1, 1, 2, 2, 3, 4, 4, 4, 5, 5, 6, 6, 7, 7, 7, 7, 7, 8, 8, 9, 9, 9, 9, 10, 10, 10, 11, 11,
    12, 12, 13, 13, 14, 15, 15, 15, 15, 16, 16, 17, 17, 17, 17, 17, 17, 18, 18, 18, 19, 19, 19, 19,
    20, 20, 21, 21, 21, 22, 22, 22, 23, 23, 24, 25, 25, 26, 26, 27, 28, 28, 29,
];

/// What each production stands for.
pub(crate) const BODIES: [&[Symbol]; 73] = [
    // complete_command -> and_or others
    &[Nonterminal(3), Nonterminal(1)],
    // others ->
    &[],
    // others -> Semicolon behind_separator
    &[Terminal(0), Nonterminal(2)],
    // others -> And behind_separator
    &[Terminal(1), Nonterminal(2)],
    // behind_separator ->
    &[],
    // behind_separator -> and_or others
    &[Nonterminal(3), Nonterminal(1)],
    // and_or -> pipeline more_pipelines
    &[Nonterminal(5), Nonterminal(4)],
    // more_pipelines ->
    &[],
    // more_pipelines -> AndIf newlines pipeline more_pipelines
    &[Terminal(2), Nonterminal(13), Nonterminal(5), Nonterminal(4)],
    // more_pipelines -> OrIf newlines pipeline more_pipelines
    &[Terminal(3), Nonterminal(13), Nonterminal(5), Nonterminal(4)],
    // pipeline -> Bang command more_commands
    &[Terminal(11), Nonterminal(7), Nonterminal(6)],
    // pipeline -> command more_commands
    &[Nonterminal(7), Nonterminal(6)],
    // more_commands ->
    &[],
    // more_commands -> Pipe newlines command more_commands
    &[Terminal(4), Nonterminal(13), Nonterminal(7), Nonterminal(6)],
    // command -> compound redirects
    &[Nonterminal(17), Nonterminal(11)],
    // command -> function_name behind_name
    &[Terminal(28), Nonterminal(8)],
    // command -> other_word arguments
    &[Terminal(30), Nonterminal(10)],
    // command -> assignment prefix
    &[Terminal(32), Nonterminal(9)],
    // command -> redirect prefix
    &[Nonterminal(12), Nonterminal(9)],
    // behind_name -> LeftParenthesis RightParenthesis newlines compound redirects
    &[
        Terminal(5),
        Terminal(6),
        Nonterminal(13),
        Nonterminal(17),
        Nonterminal(11),
    ],
    // behind_name -> arguments
    &[Nonterminal(10)],
    // prefix ->
    &[],
    // prefix -> assignment prefix
    &[Terminal(32), Nonterminal(9)],
    // prefix -> redirect prefix
    &[Nonterminal(12), Nonterminal(9)],
    // prefix -> command_word arguments
    &[Terminal(31), Nonterminal(10)],
    // arguments ->
    &[],
    // arguments -> any_word arguments
    &[Terminal(27), Nonterminal(10)],
    // arguments -> redirect arguments
    &[Nonterminal(12), Nonterminal(10)],
    // redirects ->
    &[],
    // redirects -> redirect redirects
    &[Nonterminal(12), Nonterminal(11)],
    // redirect -> Number Redirection any_word
    &[Terminal(10), Terminal(9), Terminal(27)],
    // redirect -> Redirection any_word
    &[Terminal(9), Terminal(27)],
    // newlines ->
    &[],
    // newlines -> Newline newlines
    &[Terminal(8), Nonterminal(13)],
    // compound_list -> newlines and_or more_and_ors
    &[Nonterminal(13), Nonterminal(3), Nonterminal(15)],
    // more_and_ors ->
    &[],
    // more_and_ors -> Semicolon newlines last_and_ors
    &[Terminal(0), Nonterminal(13), Nonterminal(16)],
    // more_and_ors -> And newlines last_and_ors
    &[Terminal(1), Nonterminal(13), Nonterminal(16)],
    // more_and_ors -> Newline newlines last_and_ors
    &[Terminal(8), Nonterminal(13), Nonterminal(16)],
    // last_and_ors ->
    &[],
    // last_and_ors -> and_or more_and_ors
    &[Nonterminal(3), Nonterminal(15)],
    // compound -> LeftBrace compound_list RightBrace compound_end
    &[Terminal(12), Nonterminal(14), Terminal(13), Nonterminal(29)],
    // compound -> LeftParenthesis compound_list RightParenthesis compound_end
    &[Terminal(5), Nonterminal(14), Terminal(6), Nonterminal(29)],
    // compound -> If compound_list Then compound_list else_part Fi compound_end
    &[
        Terminal(14),
        Nonterminal(14),
        Terminal(15),
        Nonterminal(14),
        Nonterminal(18),
        Terminal(18),
        Nonterminal(29),
    ],
    // compound -> loop compound_list Do compound_list Done compound_end
    &[
        Terminal(34),
        Nonterminal(14),
        Terminal(21),
        Nonterminal(14),
        Terminal(22),
        Nonterminal(29),
    ],
    // compound -> For variable_name behind_variable compound_end
    &[Terminal(23), Terminal(29), Nonterminal(19), Nonterminal(29)],
    // compound -> Case any_word newlines In newlines items Esac compound_end
    &[
        Terminal(25),
        Terminal(27),
        Nonterminal(13),
        Terminal(24),
        Nonterminal(13),
        Nonterminal(22),
        Terminal(26),
        Nonterminal(29),
    ],
    // else_part ->
    &[],
    // else_part -> Elif compound_list Then compound_list else_part
    &[
        Terminal(16),
        Nonterminal(14),
        Terminal(15),
        Nonterminal(14),
        Nonterminal(18),
    ],
    // else_part -> Else compound_list
    &[Terminal(17), Nonterminal(14)],
    // behind_variable -> Do compound_list Done
    &[Terminal(21), Nonterminal(14), Terminal(22)],
    // behind_variable -> Semicolon newlines Do compound_list Done
    &[
        Terminal(0),
        Nonterminal(13),
        Terminal(21),
        Nonterminal(14),
        Terminal(22),
    ],
    // behind_variable -> Newline newlines for_lines
    &[Terminal(8), Nonterminal(13), Nonterminal(20)],
    // behind_variable -> In values
    &[Terminal(24), Nonterminal(21)],
    // for_lines -> Do compound_list Done
    &[Terminal(21), Nonterminal(14), Terminal(22)],
    // for_lines -> In values
    &[Terminal(24), Nonterminal(21)],
    // values -> any_word values
    &[Terminal(27), Nonterminal(21)],
    // values -> Semicolon newlines Do compound_list Done
    &[
        Terminal(0),
        Nonterminal(13),
        Terminal(21),
        Nonterminal(14),
        Terminal(22),
    ],
    // values -> Newline newlines Do compound_list Done
    &[
        Terminal(8),
        Nonterminal(13),
        Terminal(21),
        Nonterminal(14),
        Terminal(22),
    ],
    // items ->
    &[],
    // items -> LeftParenthesis any_word more_patterns RightParenthesis item_body
    &[
        Terminal(5),
        Terminal(27),
        Nonterminal(23),
        Terminal(6),
        Nonterminal(24),
    ],
    // items -> pattern_word more_patterns RightParenthesis item_body
    &[Terminal(33), Nonterminal(23), Terminal(6), Nonterminal(24)],
    // more_patterns ->
    &[],
    // more_patterns -> Pipe any_word more_patterns
    &[Terminal(4), Terminal(27), Nonterminal(23)],
    // item_body -> newlines item_list
    &[Nonterminal(13), Nonterminal(25)],
    // item_list -> item_end
    &[Nonterminal(26)],
    // item_list -> and_or more_and_ors item_end
    &[Nonterminal(3), Nonterminal(15), Nonterminal(26)],
    // item_end ->
    &[],
    // item_end -> DoubleSemicolon newlines items
    &[Terminal(7), Nonterminal(13), Nonterminal(22)],
    // substituted -> newlines substituted_list
    &[Nonterminal(13), Nonterminal(28)],
    // substituted_list ->
    &[],
    // substituted_list -> and_or more_and_ors
    &[Nonterminal(3), Nonterminal(15)],
    // compound_end ->
    &[],
];

/// The classes that may come next where a production is used.
pub(crate) const GUARDS: [u64; 73] = [
    0x1ffffffff,
    0x1ffffffff,
    0x1ffffffff,
    0x1ffffffff,
    0x1ffffffff,
    0x1ffffffff,
    0x1ffffffff,
    0x1ffffffff,
    0x1ffffffff,
    0x1ffffffff,
    0x1ffffffff,
    0x1ffffffff,
    0x1ffffffff,
    0x1ffffffff,
    0x1ffffffff,
    0x1ffffffff,
    0x1ffffffff,
    0x1ffffffff,
    0x1ffffffff,
    0x1ffffffff,
    0x1ffffffff,
    0x1000007ff,
    0x1ffffffff,
    0x1ffffffff,
    0x1ffffffff,
    0x1000007ff,
    0x1ffffffff,
    0x1ffffffff,
    0x1ffffffff,
    0x1ffffffff,
    0x1ffffffff,
    0x1ffffffff,
    0x1ffffffff,
    0x1ffffffff,
    0x1ffffffff,
    0x1ffffffff,
    0x1ffffffff,
    0x1ffffffff,
    0x1ffffffff,
    0x1ffffffff,
    0x1ffffffff,
    0x1ffffffff,
    0x1ffffffff,
    0x1ffffffff,
    0x1ffffffff,
    0x1ffffffff,
    0x1ffffffff,
    0x1ffffffff,
    0x1ffffffff,
    0x1ffffffff,
    0x1ffffffff,
    0x1ffffffff,
    0x1ffffffff,
    0x1ffffffff,
    0x1ffffffff,
    0x1ffffffff,
    0x1ffffffff,
    0x1ffffffff,
    0x1ffffffff,
    0x1ffffffff,
    0x1ffffffff,
    0x1ffffffff,
    0x1ffffffff,
    0x1ffffffff,
    0x1ffffffff,
    0x1ffffffff,
    0x1ffffffff,
    0x1ffffffff,
    0x1ffffffff,
    0x1ffffffff,
    0x1ffffffff,
    0x1ffffffff,
    0x1ffffffff,
];

/// The classes of each terminal.
pub(crate) const TERMINALS: [u64; 35] = [
    0x1, 0x2, 0x4, 0x8, 0x10, 0x20, 0x40, 0x80, 0x100, 0x200, 0x400, 0x800, 0x1000, 0x2000, 0x4000,
    0x8000, 0x10000, 0x20000, 0x40000, 0x80000, 0x100000, 0x200000, 0x400000, 0x800000, 0x1000000,
    0x2000000, 0x4000000, 0x7ffff800, 0x8000000, 0x1fffc000, 0xd0000000, 0xdffff800, 0x20000000,
    0x7bfff800, 0x180000,
];

/// The classes with which a nonterminal may begin.
pub(crate) const FIRSTS: [u64; 30] = [
    0xfa985e20, 0x3, 0xfa985e20, 0xfa985e20, 0xc, 0xfa985e20, 0x10, 0xfa985620, 0x7ffffe20,
    0xfffffe00, 0x7ffffe00, 0x600, 0x600, 0x100, 0xfa985f20, 0x103, 0xfa985e20, 0x2985020, 0x30000,
    0x1200101, 0x1200000, 0x7ffff901, 0x7bfff820, 0x10, 0xfa985fa0, 0xfa985ea0, 0x80, 0xfa985f20,
    0xfa985e20, 0x0,
];

/// The classes before which a nonterminal may stand for nothing.
pub(crate) const NULLABLES: [u64; 30] = [
    0x0,
    0x1ffffffff,
    0x1ffffffff,
    0x0,
    0x1ffffffff,
    0x0,
    0x1ffffffff,
    0x0,
    0x1000007ff,
    0x1000007ff,
    0x1000007ff,
    0x1ffffffff,
    0x0,
    0x1ffffffff,
    0x0,
    0x1ffffffff,
    0x1ffffffff,
    0x0,
    0x1ffffffff,
    0x0,
    0x0,
    0x0,
    0x1ffffffff,
    0x1ffffffff,
    0x1ffffffff,
    0x1ffffffff,
    0x1ffffffff,
    0x1ffffffff,
    0x1ffffffff,
    0x1ffffffff,
];

/// The production to use, by nonterminal and class.
pub(crate) const PREDICTS: [u8; 990] = [
    0, 0, 0, 0, 0, 0, 0, 0, 0, 0, 0, 0, 0, 0, 0, 0, 0, 0, 0, 0, 0, 0, 0, 0, 0, 0, 0, 0, 0, 0, 0, 0,
    0, 2, 3, 0, 0, 0, 0, 0, 0, 0, 0, 0, 0, 0, 0, 0, 0, 0, 0, 0, 0, 0, 0, 0, 0, 0, 0, 0, 0, 0, 0, 0,
    0, 1, 0, 0, 0, 0, 0, 5, 0, 0, 0, 5, 5, 5, 5, 0, 5, 0, 0, 0, 0, 5, 5, 0, 0, 5, 0, 5, 0, 5, 5, 5,
    5, 5, 4, 0, 0, 0, 0, 0, 6, 0, 0, 0, 6, 6, 6, 6, 0, 6, 0, 0, 0, 0, 6, 6, 0, 0, 6, 0, 6, 0, 6, 6,
    6, 6, 6, 0, 7, 7, 8, 9, 0, 0, 7, 7, 7, 0, 0, 0, 0, 7, 0, 7, 7, 7, 7, 0, 0, 7, 7, 0, 0, 0, 7, 0,
    0, 0, 0, 0, 7, 0, 0, 0, 0, 0, 11, 0, 0, 0, 11, 11, 10, 11, 0, 11, 0, 0, 0, 0, 11, 11, 0, 0, 11,
    0, 11, 0, 11, 11, 11, 11, 11, 0, 12, 12, 12, 12, 13, 0, 12, 12, 12, 0, 0, 0, 0, 12, 0, 12, 12,
    12, 12, 0, 0, 12, 12, 0, 0, 0, 12, 0, 0, 0, 0, 0, 12, 0, 0, 0, 0, 0, 14, 0, 0, 0, 18, 18, 0,
    14, 0, 14, 0, 0, 0, 0, 14, 14, 0, 0, 14, 0, 14, 0, 15, 16, 17, 16, 16, 0, 20, 20, 20, 20, 20,
    19, 20, 20, 20, 20, 20, 20, 20, 20, 20, 20, 20, 20, 20, 20, 20, 20, 20, 20, 20, 20, 20, 20, 20,
    20, 20, 0, 20, 21, 21, 21, 21, 21, 0, 21, 21, 21, 23, 23, 24, 24, 24, 24, 24, 24, 24, 24, 24,
    24, 24, 24, 24, 24, 24, 24, 24, 24, 22, 24, 24, 21, 25, 25, 25, 25, 25, 0, 25, 25, 25, 27, 27,
    26, 26, 26, 26, 26, 26, 26, 26, 26, 26, 26, 26, 26, 26, 26, 26, 26, 26, 26, 26, 0, 25, 28, 28,
    28, 28, 28, 0, 28, 28, 28, 29, 29, 0, 0, 28, 0, 28, 28, 28, 28, 0, 0, 28, 28, 0, 0, 0, 28, 0,
    0, 0, 0, 0, 28, 0, 0, 0, 0, 0, 0, 0, 0, 0, 31, 30, 0, 0, 0, 0, 0, 0, 0, 0, 0, 0, 0, 0, 0, 0, 0,
    0, 0, 0, 0, 0, 0, 0, 0, 0, 0, 0, 0, 32, 32, 32, 33, 32, 32, 32, 32, 32, 32, 32, 32, 32, 32, 32,
    32, 32, 32, 32, 32, 32, 32, 32, 32, 32, 32, 32, 32, 0, 0, 0, 0, 0, 34, 0, 0, 34, 34, 34, 34,
    34, 0, 34, 0, 0, 0, 0, 34, 34, 0, 0, 34, 0, 34, 0, 34, 34, 34, 34, 34, 0, 36, 37, 0, 0, 0, 0,
    35, 35, 38, 0, 0, 0, 0, 35, 0, 35, 35, 35, 35, 0, 0, 35, 35, 0, 0, 0, 35, 0, 0, 0, 0, 0, 35, 0,
    0, 0, 0, 0, 40, 39, 39, 0, 40, 40, 40, 40, 39, 40, 39, 39, 39, 39, 40, 40, 39, 39, 40, 0, 40,
    39, 40, 40, 40, 40, 40, 39, 0, 0, 0, 0, 0, 42, 0, 0, 0, 0, 0, 0, 41, 0, 43, 0, 0, 0, 0, 44, 44,
    0, 0, 45, 0, 46, 0, 0, 0, 0, 0, 0, 0, 0, 0, 0, 0, 0, 0, 0, 0, 0, 0, 0, 0, 0, 0, 0, 0, 48, 49,
    47, 0, 0, 0, 0, 0, 0, 0, 0, 0, 0, 0, 0, 0, 0, 51, 0, 0, 0, 0, 0, 0, 0, 52, 0, 0, 0, 0, 0, 0, 0,
    0, 0, 0, 0, 0, 50, 0, 0, 53, 0, 0, 0, 0, 0, 0, 0, 0, 0, 0, 0, 0, 0, 0, 0, 0, 0, 0, 0, 0, 0, 0,
    0, 0, 0, 0, 0, 0, 0, 54, 0, 0, 55, 0, 0, 0, 0, 0, 0, 0, 0, 57, 0, 0, 0, 0, 0, 0, 0, 58, 0, 0,
    56, 56, 56, 56, 56, 56, 56, 56, 56, 56, 56, 56, 56, 56, 56, 56, 56, 56, 56, 56, 0, 0, 0, 0, 0,
    0, 0, 60, 0, 0, 0, 0, 0, 61, 61, 61, 61, 61, 61, 61, 61, 61, 61, 61, 61, 61, 61, 61, 59, 61,
    61, 61, 61, 0, 0, 0, 0, 0, 0, 63, 0, 62, 0, 0, 0, 0, 0, 0, 0, 0, 0, 0, 0, 0, 0, 0, 0, 0, 0, 0,
    0, 0, 0, 0, 0, 0, 0, 0, 0, 0, 0, 0, 0, 64, 0, 64, 64, 64, 64, 64, 64, 0, 64, 0, 0, 0, 0, 64,
    64, 0, 0, 64, 0, 64, 64, 64, 64, 64, 64, 64, 0, 0, 0, 0, 0, 0, 66, 0, 65, 0, 66, 66, 66, 66, 0,
    66, 0, 0, 0, 0, 66, 66, 0, 0, 66, 0, 66, 65, 66, 66, 66, 66, 66, 0, 0, 0, 0, 0, 0, 0, 0, 68, 0,
    0, 0, 0, 0, 0, 0, 0, 0, 0, 0, 0, 0, 0, 0, 0, 0, 0, 67, 0, 0, 0, 0, 0, 0, 0, 0, 0, 0, 0, 69, 0,
    0, 69, 69, 69, 69, 69, 0, 69, 0, 0, 0, 0, 69, 69, 0, 0, 69, 0, 69, 0, 69, 69, 69, 69, 69, 69,
    0, 0, 0, 0, 0, 71, 0, 0, 0, 71, 71, 71, 71, 0, 71, 0, 0, 0, 0, 71, 71, 0, 0, 71, 0, 71, 0, 71,
    71, 71, 71, 71, 70, 72, 72, 72, 72, 72, 0, 72, 72, 72, 72, 72, 0, 0, 72, 0, 72, 72, 72, 72, 0,
    0, 72, 72, 0, 0, 0, 72, 0, 0, 0, 0, 0, 72,
];

/// The start symbol `complete_command`.
pub(crate) const COMPLETE_COMMAND: u8 = 0;

/// The start symbol `substituted`.
pub(crate) const SUBSTITUTED: u8 = 27;

/// The end of a compound command.
pub(crate) const COMPOUND_END: u8 = 29;

/// The class of the end.
pub(crate) const ENDING: u8 = 32;
