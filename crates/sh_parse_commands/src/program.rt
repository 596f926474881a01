//! The list of commands of a text: its tokens are judged, their words have substitutions, and the
//! substitutions have texts again.
ghost use Rattle.std.specs.Prelude.{◌≡◌, ◌++◌, ◌∷◌, [], IfOk, OnOk, length};
ghost use Rattle.sh_parse_documents.specs.Scanned.{ending_of};
ghost use Rattle.sh_parse_words.specs.Building.{Takes, take_piece};
ghost use Rattle.sh_parse_words.specs.Places.{behind_joins, behind_piece, place_of};
ghost use Rattle.sh_parse_leaves.specs.Results.{Gives, GivesBodies, Changes};
ghost use Rattle.sh_parse_leaves.specs.Words.{answer_of, with_piece, whole, parts_in, within, unread};
ghost use Rattle.sh_parse_leaves.specs.Leaves.{word_leaf, leaf_of};
ghost use Rattle.sh_parse_commands.specs.Documents.{expanded_body, document_parts, bodies_of};
ghost use Rattle.sh_parse_commands.specs.Judging.{with_item};
ghost use Rattle.sh_parse_documents.specs.Waiting.{nothing};
ghost use Rattle.sh_parse_documents.specs.Stream.{waiting_behind};
ghost use Rattle.sh_parse_commands.specs.Replacing.{origin, with_token, with_tokens};
ghost use Rattle.sh_parse_commands.specs.Programs.{inside_at, reader_at, ended_by};

use crate::body_prefix::{fault_at, literal_parts, prefix_of, unless};
use crate::cut::cut_fault;
use crate::prefix::Prefix;
use crate::replacing::{alias_at, fault_of_value};
use crate::scope::{Scope, with_name};
use sh_aliases::Alias;
use sh_base::sequence::Sequence;
use sh_base::shared::Shared;
use sh_base::span::Span;
use sh_parse_actions::leaf::Leaf;
use sh_parse_documents::document::{Document, documents};
use sh_parse_documents::item::Item;
use sh_parse_documents::items::scan_items;
use sh_parse_documents::waiting::Waiting;
use sh_parse_leaves::input::input;
use sh_parse_leaves::leaf::{assignment_leaf, name_size, operator_leaf, plain_leaf};
use sh_parse_leaves::source::{
    behind_pieces, digits_in, pieces_behind, pieces_through, text_between, text_from,
};
use sh_parse_leaves::word::{
    at_its_level, begins_closed, fault_in, level_fault, place_of, text_of,
};
use sh_parse_words::build::{Builder, Request};
use sh_parse_words::fault::PartFault;
use sh_parse_words::place::{behind_joins, behind_piece};
use sh_syntax::tree::{CompoundList, Parts};
use sh_token::token::TokenKind;
use sh_token_pieces::here::Delimiter;
use sh_token_pieces::piece::{Piece, literal_prefix};
use std::alloc::{AllocError, Global};

/// The commands that the parts of a word wait for.
#[tactic(auto, using(crate::proofs::Steps::answer_gives, crate::proofs::Steps::answer_fault))]
#[cycle(program)]
fn answer(
    alloc: Global,
    scope: Scope<'_>,
    text: &[u8],
    request: &Request,
) -> Result<CompoundList, PartFault>
    ensures { Gives result (answer_of (reader_at scope.entry.aliases.now scope.entry.from.now scope.entry.depth) text.now request.now) }
{
    let inner = text_of(alloc, request, text)?;
    match program(alloc, scope, request.left, inner.as_slice()) {
        Ok(program) => at_its_level(request, program),
        Err(fault) => Err(level_fault(request, fault_in(request, fault))),
    }
}

/// Takes a piece. `bytes` is what is left of the text, and begins with the piece.
fn take_piece(
    text: &[u8],
    builder: &mut Builder,
    piece: &Piece,
    is_empty: bool,
    bytes: &[u8],
) -> Result<Option<Request>, PartFault>
    ensures { Takes result builder.new
        (take_piece builder.old piece.now is_empty
        (place_of (length text.now) (behind_joins bytes.now))
        (place_of (length text.now) (behind_piece piece.now bytes.now))) }
{
    let place = place_of(text.len(), behind_joins(bytes));
    let behind = place_of(text.len(), behind_piece(piece, bytes));
    builder.take(piece, is_empty, place, behind)
}

/// Takes one more piece, with the commands that it asks for.
#[tactic(auto, using(crate::proofs::Steps::piece_alone, crate::proofs::Steps::piece_answered, crate::proofs::Steps::piece_fault, crate::proofs::Steps::piece_answer_fault))]
#[cycle(program)]
fn put_piece(
    alloc: Global,
    scope: Scope<'_>,
    text: &[u8],
    builder: &mut Builder,
    piece: &Piece,
    is_empty: bool,
    bytes: &[u8],
) -> Result<(), PartFault>
    ensures { Changes result builder.new
        (with_piece (reader_at scope.entry.aliases.now scope.entry.from.now scope.entry.depth) (unread text.now bytes.now) builder.old piece.now is_empty) }
{
    let request = match take_piece(text, builder, piece, is_empty, bytes) {
        Ok(Some(request)) => request,
        Ok(None) => return Ok(()),
        Err(fault) => return Err(fault),
    };
    match answer(alloc, scope, text, &request) {
        Ok(program) => {
            let program = Shared::new(alloc, program)?;
            builder.put_program(request.form, program)?;
            Ok(())
        },
        Err(fault) => Err(fault),
    }
}

/// The parts of pieces. `bytes` is what is left of the text, and begins with the pieces.
#[tactic(auto, using(crate::proofs::Steps::parts_done, crate::proofs::Steps::parts_fault))]
#[cycle(program)]
fn parts_in(
    alloc: Global,
    scope: Scope<'_>,
    left: usize,
    text: &[u8],
    pieces: &[Piece],
    bytes: &[u8],
) -> Result<Parts, PartFault>
    ensures { Gives result (parts_in (reader_at scope.entry.aliases.now scope.entry.from.now scope.entry.depth) left text.now pieces.now bytes.now) }
{
    let mut builder = Builder::new(alloc, left);
    let mut rest = pieces;
    let mut behind = bytes;
    while let Some((piece, others)) = rest.split_first() {
        let is_empty = begins_closed(others);
        if let Err(fault) = put_piece(alloc, scope, text, &mut builder, piece, is_empty, behind) {
            return Err(fault);
        }
        behind = behind_piece(piece, behind);
        rest = others;
    }
    let parts = whole(alloc, builder)?;
    Ok(parts)
}

/// The parts of pieces that close what they open.
fn whole(alloc: Global, builder: Builder) -> Result<Parts, AllocError>
    ensures { IfOk result (λ parts. parts ≡ whole builder) }
{
    match builder.finish()? {
        Some(parts) => Ok(parts),
        None => Ok(Parts {
            items: Sequence::new(alloc),
        }),
    }
}

/// What a word is to the tree.
#[tactic(auto, using(crate::proofs::Steps::word_plain, crate::proofs::Steps::word_plain_fault, crate::proofs::Steps::word_assigned, crate::proofs::Steps::word_assigned_fault))]
#[cycle(program)]
fn word_leaf(
    alloc: Global,
    scope: Scope<'_>,
    left: usize,
    text: &[u8],
    pieces: &[Piece],
    span: Span,
) -> Result<Leaf, PartFault>
    ensures { Gives result (word_leaf (reader_at scope.entry.aliases.now scope.entry.from.now scope.entry.depth) left text.now pieces.now span) }
{
    let bytes = text_from(text, span.start);
    let source = text_between(text, span.start, span.end);
    let prefix = literal_prefix(alloc, pieces)?;
    let Some(size) = name_size(prefix.as_slice()) else {
        return match parts_in(alloc, scope, left, text, pieces, bytes) {
            Ok(parts) => {
                let leaf = plain_leaf(alloc, pieces, prefix, parts, source)?;
                Ok(leaf)
            },
            Err(fault) => Err(fault),
        };
    };
    let behind = behind_pieces(pieces_through(pieces, size), bytes);
    let others = pieces_behind(pieces, size);
    match parts_in(alloc, scope, left, text, others, behind) {
        Ok(value) => {
            let leaf = assignment_leaf(alloc, prefix.as_slice(), size, value, source)?;
            Ok(leaf)
        },
        Err(fault) => Err(fault),
    }
}

/// What a token is to the tree.
#[cycle(program)]
fn leaf_of(
    alloc: Global,
    scope: Scope<'_>,
    left: usize,
    text: &[u8],
    kind: &TokenKind,
    span: Span,
) -> Result<Leaf, PartFault>
    ensures { Gives result (leaf_of (reader_at scope.entry.aliases.now scope.entry.from.now scope.entry.depth) left text.now kind.now span) }
{
    match kind {
        TokenKind::Operator(operator) => {
            let leaf = operator_leaf(alloc, *operator)?;
            Ok(leaf)
        },
        TokenKind::Number => {
            let digits = digits_in(alloc, text_between(text, span.start, span.end))?;
            Ok(Leaf::Number(Sequence::from_vec(digits)))
        },
        TokenKind::Word(pieces) => { word_leaf(alloc, scope, left, text, pieces.as_slice(), span) },
        TokenKind::End => Ok(Leaf::Operator),
    }
}

/// The parts of a body that is expanded.
#[tactic(auto, using(crate::proofs::Steps::body_gives, crate::proofs::Steps::body_fault))]
#[cycle(program)]
fn expanded_body(
    alloc: Global,
    scope: Scope<'_>,
    left: usize,
    body: &[u8],
) -> Result<Parts, PartFault>
    ensures { Gives result (expanded_body (reader_at scope.entry.aliases.now scope.entry.from.now scope.entry.depth) left body.now) }
{
    let prefix = prefix_of(alloc, body)?;
    match parts_in(alloc, scope, left, body, prefix.pieces.as_slice(), body) {
        Ok(parts) => unless(prefix.fault, parts),
        Err(fault) => Err(fault),
    }
}

/// The parts of a body.
#[tactic(auto, using(crate::proofs::Steps::document_quoted, crate::proofs::Steps::document_expanded, crate::proofs::Steps::document_fault))]
#[cycle(program)]
fn document_parts(
    alloc: Global,
    scope: Scope<'_>,
    left: usize,
    document: &Document,
) -> Result<Parts, PartFault>
    ensures { Gives result (document_parts (reader_at scope.entry.aliases.now scope.entry.from.now scope.entry.depth) left document.now) }
{
    if document.is_quoted {
        let parts = literal_parts(alloc, &document.text)?;
        return Ok(parts);
    }
    match expanded_body(alloc, scope, left, document.text.as_slice()) {
        Ok(parts) => Ok(parts),
        Err(fault) => Err(fault_at(document, fault)),
    }
}

/// The parts of the bodies after an item, for the here-documents that are due at it, where `left` levels may
/// open.
#[tactic(auto, using(crate::proofs::Steps::bodies_done, crate::proofs::Steps::bodies_fault))]
#[cycle(program)]
pub(crate) fn bodies_within(
    alloc: Global,
    scope: Scope<'_>,
    left: usize,
    text: &[u8],
    due: &[Delimiter],
    item: &Item,
) -> Result<Vec<Shared<Parts>>, PartFault>
    ensures { GivesBodies result (bodies_of (reader_at scope.entry.aliases.now scope.entry.from.now scope.entry.depth) left text.now due.now item.now) }
{
    let found = documents(alloc, due, text, item.token.span.end, item.end)?;
    let mut bodies = Vec::new(alloc);
    let mut rest = found.as_slice();
    while let Some((document, others)) = rest.split_first() {
        let parts = match document_parts(alloc, scope, left, document) {
            Ok(parts) => parts,
            Err(fault) => return Err(fault),
        };
        let parts = Shared::new(alloc, parts)?;
        bodies.push(parts)?;
        rest = others;
    }
    Ok(bodies)
}

/// Takes one more token of a text in which `left` levels may open, with the bodies of the here-documents that
/// are due at it.
#[tactic(auto, using(crate::proofs::Steps::item_refused, crate::proofs::Steps::item_deep, crate::proofs::Steps::leaf_fault, crate::proofs::Steps::item_bodies_fault, crate::proofs::Steps::item_taken))]
#[cycle(program)]
pub(crate) fn judge_within(
    alloc: Global,
    scope: Scope<'_>,
    left: usize,
    text: &[u8],
    due: &[Delimiter],
    item: &Item,
    prefix: &mut Prefix,
) -> Result<(), PartFault>
    ensures { Changes result prefix.new
        (with_item (within (reader_at scope.entry.aliases.now scope.entry.from.now scope.entry.depth) left text.now) due.now item.now prefix.old) }
{
    let input = input(alloc, item)?;
    let start = item.token.span.start;
    if !prefix.show(input)? {
        return Err(PartFault::Refused { at: start });
    }
    let open = prefix.open();
    if left < open {
        return Err(PartFault::TooDeep { at: start });
    }
    let inner = left - open;
    let leaf = match leaf_of(alloc, scope, inner, text, &item.token.kind, item.token.span) {
        Ok(leaf) => leaf,
        Err(fault) => return Err(fault),
    };
    match bodies_within(alloc, scope, inner, text, due, item) {
        Ok(bodies) => {
            prefix.put(leaf, bodies)?;
            Ok(())
        },
        Err(fault) => Err(fault),
    }
}

/// What a text gives after its tokens, where `left` levels may open and `waiting` is awaited. `cut` is the
/// place from which on no token is found, or `None` where the text ends.
fn ended_by(
    alloc: Global,
    left: usize,
    text: &[u8],
    waiting: Waiting,
    prefix: Prefix,
    cut: Option<usize>,
) -> Result<CompoundList, PartFault>
    ensures { Gives result (ended_by left text.now waiting prefix (ending_of cut)) }
{
    let size = text.len();
    let Some(at) = cut else {
        return match prefix.into_tree()? {
            Some(tree) => Ok(tree),
            None => Err(PartFault::Refused { at: size }),
        };
    };
    let left = left.saturating_sub(prefix.open());
    match cut_fault(alloc, left, text, &waiting, at)? {
        Some(fault) => Err(fault),
        None => Err(PartFault::Refused { at: size }),
    }
}

/// Takes one more token of a text, or what an alias has in its place, with the bodies of the here-documents that are due at it.
#[cycle(program)]
pub(crate) fn judge_token(
    alloc: Global,
    scope: Scope<'_>,
    left: usize,
    text: &[u8],
    due: &[Delimiter],
    item: &Item,
    prefix: &mut Prefix,
) -> Result<(), PartFault>
    ensures { Changes result prefix.new
        (with_token scope.entry.aliases.now (inside_at scope.entry.aliases.now scope.entry.depth)
        (origin scope.entry.from.now left text.now) due.now item.now prefix.old) }
{
    let Some(alias) = alias_at(alloc, scope, prefix, item)? else {
        return judge_within(alloc, scope, left, text, due, item, prefix);
    };
    match judge_value(alloc, scope, left, alias, prefix) {
        Ok(()) => {
            prefix.end_value(alias);
            Ok(())
        },
        Err(fault) => Err(fault_of_value(item.token.span.start, fault)),
    }
}

/// Takes the tokens of an alias's value.
#[cycle(program)]
fn judge_value(
    alloc: Global,
    scope: Scope<'_>,
    left: usize,
    alias: &Alias,
    prefix: &mut Prefix,
) -> Result<(), PartFault>
    ensures { Changes result prefix.new
        ((inside_at scope.entry.aliases.now scope.entry.depth).value
        (origin (scope.entry.from.now ++ alias.now.name ∷ []) left alias.now.value) alias.now.items
        prefix.old) }
{
    if scope.depth == 0 {
        return Err(PartFault::TooDeep { at: 0 });
    }
    let from = with_name(alloc, scope.from, alias.name.as_slice())?;
    let inner = Scope {
        aliases: scope.aliases,
        from: from.as_slice(),
        depth: scope.depth - 1,
    };
    let value = alias.value.as_slice();
    match judge_all(alloc, inner, left, value, alias.items.as_slice(), prefix) {
        Ok(waiting) => {
            drop(waiting);
            Ok(())
        },
        Err(fault) => Err(fault),
    }
}

/// Takes tokens of a text, one after another; what is awaited behind them.
#[cycle(program)]
fn judge_all(
    alloc: Global,
    scope: Scope<'_>,
    left: usize,
    text: &[u8],
    items: &[Item],
    prefix: &mut Prefix,
) -> Result<Waiting, PartFault>
    ensures judged { Changes result prefix.new
        (with_tokens scope.entry.aliases.now (inside_at scope.entry.aliases.now scope.entry.depth)
        (origin scope.entry.from.now left text.now) nothing items.now prefix.old) }
    ensures waiting { IfOk result (λ waiting. waiting ≡ waiting_behind nothing items.now) }
{
    let mut waiting = Waiting::new(alloc);
    let mut rest = items;
    while let Some((item, others)) = rest.split_first() {
        let due = waiting.due_at(&item.token.kind);
        if let Err(fault) = judge_token(alloc, scope, left, text, due, item, prefix) {
            return Err(fault);
        }
        waiting.pass(&item.token.kind)?;
        rest = others;
    }
    Ok(waiting)
}

/// The list of commands of a text, in which `left` levels may open.
#[cycle(program)]
fn program(
    alloc: Global,
    scope: Scope<'_>,
    left: usize,
    text: &[u8],
) -> Result<CompoundList, PartFault>
    ensures { Gives result (reader_at scope.entry.aliases.now scope.entry.from.now scope.entry.depth left text.now) }
{
    if scope.depth == 0 {
        return Err(PartFault::TooDeep { at: 0 });
    }
    let found = scan_items(alloc, text, true)?;
    let mut prefix = Prefix::of_substitution(alloc)?;
    let inner = Scope {
        aliases: scope.aliases,
        from: scope.from,
        depth: scope.depth - 1,
    };
    match judge_all(
        alloc,
        inner,
        left,
        text,
        found.items.as_slice(),
        &mut prefix,
    ) {
        Ok(waiting) => ended_by(alloc, left, text, waiting, prefix, found.cut),
        Err(fault) => Err(fault),
    }
}
