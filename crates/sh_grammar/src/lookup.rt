//! A grammar and its parsing table, and what is looked up there.
ghost use Rattle.std.specs.Prelude.{◌≡◌, reverse, slice_index, slice_index_or, map, []};
ghost use Rattle.sh_grammar.specs.Tabulation.{tabulation_of, grammar_of, in_set, has, prediction};
ghost use Rattle.std.specs.List.{count_by};
ghost use Rattle.sh_grammar.specs.Table.{table_of, first_of, nullable_of};
ghost use Rattle.sh_grammar.specs.Awaited.{is_nonterminal};

use crate::Symbol;
use crate::Symbol::{Nonterminal, Terminal};

/// A grammar and its parsing table. Symbols, productions and classes are numbers; a set of classes is a
/// number with a bit for each class, so that no class is above 63. A number past the end of its list has an
/// empty set or an empty body, and an entry past the end of `predicts` is 0. So any tables are safe, and
/// `IsPredictive` says which are right.
///
/// `heads` and `guards` say what grammar the table is for; a recognizer never reads them.
#[derive(Clone, Copy, Debug)]
pub struct Tables<'t> {
    /// The head of each production, a nonterminal.
    pub heads: &'t [u8],
    /// The body of each production: the symbols that its head may be replaced by.
    pub bodies: &'t [&'t [Symbol]],
    /// The guard of each production: the classes that may come next where it is used.
    pub guards: &'t [u64],
    /// The classes of each terminal.
    pub terminals: &'t [u64],
    /// The class of what is after the last token. It is the greatest class.
    pub ending: u8,
    /// The nonterminal that a text derives from.
    pub start: u8,
    /// The classes with which each nonterminal may begin.
    pub firsts: &'t [u64],
    /// The classes before which each nonterminal may derive no token.
    pub nullables: &'t [u64],
    /// The production to use, by nonterminal and class: `ending + 1` entries for each nonterminal.
    pub predicts: &'t [u8],
}

/// Whether a class is in a set.
#[tactic(auto, using(crate::proofs::Bits::none_past))]
fn is_in_set(set: u64, class: u8) -> bool
    ensures { result ≡ in_set set class }
{
    class < 64 && (set >> class) % 2 == 1
}

/// Whether the set of a number has a class; false for a class above `ending`.
fn has_class(ending: u8, sets: &[u64], number: u8, class: u8) -> bool
    ensures { result ≡ has ending sets.now number class }
{
    match sets.get(usize::from(number)) {
        Some(set) => class <= ending && is_in_set(*set, class),
        None => false,
    }
}

/// The number at a place, and 0 past the end.
fn number_at(numbers: &[u8], place: usize) -> u8
    ensures { result ≡ slice_index numbers.now place }
{
    match numbers.get(place) {
        Some(number) => *number,
        None => 0,
    }
}

/// The symbols at a place, and none past the end.
fn symbols_at<'t>(bodies: &[&'t [Symbol]], place: usize) -> &'t [Symbol]
    ensures { result.now ≡ slice_index_or (map (λ b. b.now) bodies.now) place [] }
{
    match bodies.get(place) {
        Some(body) => body,
        None => &[],
    }
}

/// The production to use for a nonterminal where a class comes next.
pub(crate) fn predicted(tables: &Tables<'_>, name: u8, class: u8) -> u8
    ensures { result ≡ prediction (tabulation_of tables.now) name class }
{
    number_at(
        tables.predicts,
        usize::from(name) * (usize::from(tables.ending) + 1) + usize::from(class),
    )
}

/// The body of a production.
pub(crate) fn body<'t>(tables: &Tables<'t>, rule: u8) -> &'t [Symbol]
    ensures { result.now ≡ slice_index_or (tabulation_of tables.now).bodies rule [] }
{
    symbols_at(tables.bodies, usize::from(rule))
}

/// Whether the symbols of a stack, the last one on top, may begin with a token of a class.
pub(crate) fn begins(tables: &Tables<'_>, stack: &[Symbol], class: u8) -> bool
    ensures { result ≡ first_of (grammar_of (tabulation_of tables.now))
        (table_of (tabulation_of tables.now)) (reverse stack.now) class }
{
    let mut rest = stack;
    while let Some((top, below)) = rest.split_last() {
        match *top {
            Terminal(kind) => return has_class(tables.ending, tables.terminals, kind, class),
            Nonterminal(name) => {
                if has_class(tables.ending, tables.firsts, name, class) {
                    return true;
                }
                if !has_class(tables.ending, tables.nullables, name, class) {
                    return false;
                }
            },
        }
        rest = below;
    }
    false
}

/// Whether the symbols of a stack, the last one on top, may derive no token before the end.
pub(crate) fn may_vanish(tables: &Tables<'_>, stack: &[Symbol]) -> bool
    ensures { result ≡ nullable_of (grammar_of (tabulation_of tables.now))
        (table_of (tabulation_of tables.now)) (reverse stack.now) tables.now.ending }
{
    let mut rest = stack;
    while let Some((top, below)) = rest.split_last() {
        match *top {
            Terminal(_) => return false,
            Nonterminal(name) => {
                if !has_class(tables.ending, tables.nullables, name, tables.ending) {
                    return false;
                }
            },
        }
        rest = below;
    }
    true
}

fn is_of_name(symbol: Symbol, name: u8) -> bool
    ensures { result ≡ is_nonterminal name symbol }
{
    match symbol {
        Terminal(_) => false,
        Nonterminal(found) => found == name,
    }
}

/// How many symbols of a stack are the nonterminal of a number.
pub(crate) fn count(stack: &[Symbol], name: u8) -> usize
    ensures { result ≡ count_by (is_nonterminal name) stack.now }
{
    stack
        .iter()
        .filter(|symbol| is_of_name(**symbol, name))
        .count()
}
