//! For each production of the grammar, in the order of the grammar: which symbols of its body matter to the
//! tree, and its kind.
ghost use Rattle.std.specs.Prelude.{◌≡◌, slice_get, slice_index_or, map, []};
ghost use Rattle.sh_parse_words.specs.Productions.{kept_symbols, kinds};

use sh_parse_actions::kind::{Binary, Item, Kind, Ternary, Unary};
use sh_syntax::tree::{Connector, Separator};

/// What each production makes of the symbols that matter.
const KINDS: [Kind; 73] = [
    Kind::Two(Binary::List),
    Kind::Nothing,
    Kind::One(Unary::Separated(Separator::Sequential)),
    Kind::One(Unary::Separated(Separator::Asynchronous)),
    Kind::Nothing,
    Kind::Two(Binary::List),
    Kind::Two(Binary::AndOr),
    Kind::Nothing,
    Kind::Two(Binary::Connected(Connector::And)),
    Kind::Two(Binary::Connected(Connector::Or)),
    Kind::Two(Binary::Pipeline { is_negated: true }),
    Kind::Two(Binary::Pipeline { is_negated: false }),
    Kind::Nothing,
    Kind::Two(Binary::Piped),
    Kind::Two(Binary::Compound),
    Kind::Two(Binary::Named),
    Kind::Two(Binary::Simple(Item::Word)),
    Kind::Two(Binary::Simple(Item::Assignment)),
    Kind::Two(Binary::Simple(Item::Redirect)),
    Kind::Two(Binary::Body),
    Kind::One(Unary::Same),
    Kind::Nothing,
    Kind::Two(Binary::Items(Item::Assignment)),
    Kind::Two(Binary::Items(Item::Redirect)),
    Kind::Two(Binary::Items(Item::Word)),
    Kind::Nothing,
    Kind::Two(Binary::Items(Item::Word)),
    Kind::Two(Binary::Items(Item::Redirect)),
    Kind::Nothing,
    Kind::Two(Binary::Redirects),
    Kind::Three(Ternary::Redirect),
    Kind::Two(Binary::Redirect),
    Kind::Nothing,
    Kind::Nothing,
    Kind::Two(Binary::CompoundList),
    Kind::Nothing,
    Kind::One(Unary::Separated(Separator::Sequential)),
    Kind::One(Unary::Separated(Separator::Asynchronous)),
    Kind::One(Unary::Separated(Separator::Sequential)),
    Kind::Nothing,
    Kind::Two(Binary::List),
    Kind::One(Unary::Group),
    Kind::One(Unary::Subshell),
    Kind::Three(Ternary::If),
    Kind::Three(Ternary::Loop),
    Kind::Two(Binary::For),
    Kind::Two(Binary::Case),
    Kind::Nothing,
    Kind::Three(Ternary::ElseIf),
    Kind::One(Unary::Else),
    Kind::One(Unary::Parameters {
        is_separated: false,
    }),
    Kind::One(Unary::Parameters { is_separated: true }),
    Kind::One(Unary::Same),
    Kind::One(Unary::Same),
    Kind::One(Unary::Parameters { is_separated: true }),
    Kind::One(Unary::Same),
    Kind::Two(Binary::Value),
    Kind::One(Unary::LastValue),
    Kind::One(Unary::LastValue),
    Kind::Nothing,
    Kind::Three(Ternary::CaseItem {
        has_parenthesis: true,
    }),
    Kind::Three(Ternary::CaseItem {
        has_parenthesis: false,
    }),
    Kind::Nothing,
    Kind::Two(Binary::Patterns),
    Kind::One(Unary::Same),
    Kind::One(Unary::EmptyItem),
    Kind::Three(Ternary::ItemList),
    Kind::Nothing,
    Kind::One(Unary::Break),
    Kind::One(Unary::Same),
    Kind::Nothing,
    Kind::Two(Binary::List),
    Kind::Nothing,
];

/// Which symbols of each production's body matter: not a token that the production names, not newlines,
/// and not the mark of a compound command's end.
const KEPT: [&[bool]; 73] = [
    &[true, true],
    &[],
    &[false, true],
    &[false, true],
    &[],
    &[true, true],
    &[true, true],
    &[],
    &[false, false, true, true],
    &[false, false, true, true],
    &[false, true, true],
    &[true, true],
    &[],
    &[false, false, true, true],
    &[true, true],
    &[true, true],
    &[true, true],
    &[true, true],
    &[true, true],
    &[false, false, false, true, true],
    &[true],
    &[],
    &[true, true],
    &[true, true],
    &[true, true],
    &[],
    &[true, true],
    &[true, true],
    &[],
    &[true, true],
    &[true, true, true],
    &[true, true],
    &[],
    &[false, false],
    &[false, true, true],
    &[],
    &[false, false, true],
    &[false, false, true],
    &[false, false, true],
    &[],
    &[true, true],
    &[false, true, false, false],
    &[false, true, false, false],
    &[false, true, false, true, true, false, false],
    &[true, true, false, true, false, false],
    &[false, true, true, false],
    &[false, true, false, false, false, true, false, false],
    &[],
    &[false, true, false, true, true],
    &[false, true],
    &[false, true, false],
    &[false, false, false, true, false],
    &[false, false, true],
    &[false, true],
    &[false, true, false],
    &[false, true],
    &[true, true],
    &[false, false, false, true, false],
    &[false, false, false, true, false],
    &[],
    &[false, true, true, false, true],
    &[true, true, false, true],
    &[],
    &[false, true, true],
    &[false, true],
    &[true],
    &[true, true, true],
    &[],
    &[false, false, true],
    &[false, true],
    &[],
    &[true, true],
    &[],
];

fn kind_at(kinds: &[Kind], place: usize) -> Option<Kind>
    ensures { result ≡ slice_get kinds.now place }
{
    kinds.get(place).copied()
}

fn kind_table() -> &'static [Kind]
    ensures { result.now ≡ kinds }
{
    &KINDS
}

/// The kind of a production; `None` past the last.
pub(crate) fn kind(production: u8) -> Option<Kind>
    ensures { result ≡ slice_get kinds production }
{
    kind_at(kind_table(), usize::from(production))
}

fn kept_table() -> &'static [&'static [bool]]
    ensures { map (λ k. k.now) result.now ≡ kept_symbols }
{
    &KEPT
}

fn kept_at<'t>(table: &[&'t [bool]], place: usize) -> &'t [bool]
    ensures { result.now ≡ slice_index_or (map (λ k. k.now) table.now) place [] }
{
    match table.get(place) {
        Some(kept) => kept,
        None => &[],
    }
}

/// Which symbols of a production's body matter; none past the last production.
pub(crate) fn kept(production: u8) -> &'static [bool]
    ensures { result.now ≡ slice_index_or kept_symbols production [] }
{
    kept_at(kept_table(), usize::from(production))
}
