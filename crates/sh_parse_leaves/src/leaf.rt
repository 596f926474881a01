//! What tokens are to the tree.
ghost use Rattle.std.specs.Prelude.{◌≡◌, ◌++◌, ◌∷◌, [], IfOk, OnOk};
ghost use Rattle.sh_parse_words.specs.Building.{parts_of};
ghost use Rattle.sh_parse_leaves.specs.Leaves.{operator_leaf, word_of, with_prefix, items_of, name_size, assignment_leaf, plain_leaf};

use crate::source::{bytes_through, first_bytes};
use sh_base::name::is_name;
use sh_base::sequence::{Sequence, Text};
use sh_base::shared::Shared;
use sh_parse_actions::leaf::Leaf;
use sh_syntax::tree::{HereDocumentOperator, Parameter, Part, Parts, RedirectOperator, Word};
use sh_token_pieces::operator::Operator;
use sh_token_pieces::piece::{Piece, are_bytes, begins_with_name, equals_at};
use std::alloc::{AllocError, Global};

fn here_document(alloc: Global, operator: HereDocumentOperator) -> Result<Leaf, AllocError>
    ensures { IfOk result (λ leaf. leaf ≡ Leaf.HereDocument operator (parts_of [])) }
{
    let body = Shared::new(
        alloc,
        Parts {
            items: Sequence::new(alloc),
        },
    )?;
    Ok(Leaf::HereDocument { operator, body })
}

/// The leaf of an operator; the body of a here-document is put in later.
pub fn operator_leaf(alloc: Global, operator: Operator) -> Result<Leaf, AllocError>
    ensures { IfOk result (λ leaf. leaf ≡ operator_leaf operator) }
{
    match operator {
        Operator::Less => Ok(Leaf::Redirection(RedirectOperator::Input)),
        Operator::Great => Ok(Leaf::Redirection(RedirectOperator::Output)),
        Operator::DoubleGreat => Ok(Leaf::Redirection(RedirectOperator::Append)),
        Operator::LessAnd => Ok(Leaf::Redirection(RedirectOperator::DuplicateInput)),
        Operator::GreatAnd => Ok(Leaf::Redirection(RedirectOperator::DuplicateOutput)),
        Operator::LessGreat => Ok(Leaf::Redirection(RedirectOperator::ReadWrite)),
        Operator::Clobber => Ok(Leaf::Redirection(RedirectOperator::Clobber)),
        Operator::DoubleLess => here_document(alloc, HereDocumentOperator::AsWritten),
        Operator::DoubleLessDash => here_document(alloc, HereDocumentOperator::TabsStripped),
        _ => Ok(Leaf::Operator),
    }
}

/// The length of the name, where the bytes begin with a name and `=`.
pub fn name_size(prefix: &[u8]) -> Option<usize>
    ensures { result ≡ name_size prefix.now }
{
    if begins_with_name(prefix) {
        equals_at(prefix)
    } else {
        None
    }
}

fn same_text(alloc: Global, text: &Text) -> Result<Text, AllocError>
    ensures { IfOk result (λ copy. copy ≡ text.now) }
{
    let bytes = text.as_slice().to_vec(alloc)?;
    Ok(Sequence::from_vec(bytes))
}

fn same_parameter(alloc: Global, parameter: &Parameter) -> Result<Parameter, AllocError>
    ensures { IfOk result (λ copy. copy ≡ parameter.now) }
{
    match parameter {
        Parameter::Variable(name) => {
            let name = same_text(alloc, name)?;
            Ok(Parameter::Variable(name))
        },
        Parameter::Positional(number) => Ok(Parameter::Positional(*number)),
        Parameter::Special(special) => Ok(Parameter::Special(*special)),
    }
}

/// A copy of a part, which shares what is inside the part.
fn same_part(alloc: Global, part: &Part) -> Result<Part, AllocError>
    ensures { IfOk result (λ copy. copy ≡ part.now) }
{
    match part {
        Part::Literal(text) => {
            let text = same_text(alloc, text)?;
            Ok(Part::Literal(text))
        },
        Part::Escaped(b) => Ok(Part::Escaped(*b)),
        Part::SingleQuoted(text) => {
            let text = same_text(alloc, text)?;
            Ok(Part::SingleQuoted(text))
        },
        Part::DoubleQuoted(parts) => {
            let parts = parts.share()?;
            Ok(Part::DoubleQuoted(parts))
        },
        Part::Parameter(parameter) => {
            let parameter = same_parameter(alloc, parameter)?;
            Ok(Part::Parameter(parameter))
        },
        Part::Length(parameter) => {
            let parameter = same_parameter(alloc, parameter)?;
            Ok(Part::Length(parameter))
        },
        Part::Conditional {
            parameter,
            absence,
            action,
            word,
        } => {
            let parameter = same_parameter(alloc, parameter)?;
            let word = word.share()?;
            Ok(Part::Conditional {
                parameter,
                absence: *absence,
                action: *action,
                word,
            })
        },
        Part::Removal {
            parameter,
            affix,
            extent,
            pattern,
        } => {
            let parameter = same_parameter(alloc, parameter)?;
            let pattern = pattern.share()?;
            Ok(Part::Removal {
                parameter,
                affix: *affix,
                extent: *extent,
                pattern,
            })
        },
        Part::Substitution(program) => {
            let program = program.share()?;
            Ok(Part::Substitution(program))
        },
        Part::Backquoted(program) => {
            let program = program.share()?;
            Ok(Part::Backquoted(program))
        },
        Part::Arithmetic(parts) => {
            let parts = parts.share()?;
            Ok(Part::Arithmetic(parts))
        },
    }
}

/// Adds copies of parts after others.
fn put_same(alloc: Global, parts: &mut Vec<Part>, others: &[Part]) -> Result<(), AllocError>
    ensures { OnOk result (parts.new.items ≡ parts.old.items ++ others.now) }
{
    let mut rest = others;
    while let Some((part, behind)) = rest.split_first() {
        let copy = same_part(alloc, part)?;
        parts.push(copy)?;
        rest = behind;
    }
    Ok(())
}

fn literal(alloc: Global, prefix: &[u8], bytes: &[u8]) -> Result<Part, AllocError>
    ensures { IfOk result (λ part. part ≡ Part.Literal (prefix.now ++ bytes.now)) }
{
    let mut text = prefix.to_vec(alloc)?;
    text.extend_from_slice(bytes)?;
    Ok(Part::Literal(Sequence::from_vec(text)))
}

/// Bytes before copies of parts.
fn with_prefix(alloc: Global, prefix: &[u8], items: &[Part]) -> Result<Vec<Part>, AllocError>
    ensures { IfOk result (λ all. all.items ≡ with_prefix prefix.now items.now) }
{
    let mut all = Vec::new(alloc);
    if let Some((Part::Literal(bytes), others)) = items.split_first() {
        let first = literal(alloc, prefix, bytes.as_slice())?;
        all.push(first)?;
        put_same(alloc, &mut all, others)?;
        return Ok(all);
    }
    let first = literal(alloc, prefix, &[])?;
    all.push(first)?;
    put_same(alloc, &mut all, items)?;
    Ok(all)
}

fn word_of(alloc: Global, parts: Parts, source: &[u8]) -> Result<Word, AllocError>
    ensures { IfOk result (λ word. word ≡ word_of parts source.now) }
{
    let parts = Shared::new(alloc, parts)?;
    let source = source.to_vec(alloc)?;
    Ok(Word {
        parts,
        source: Sequence::from_vec(source),
    })
}

/// The leaf of an assignment, whose name has `size` bytes.
#[tactic(auto, unfolding(crate::specs::Leaves::assignment_leaf))]
pub fn assignment_leaf(
    alloc: Global,
    prefix: &[u8],
    size: usize,
    value: Parts,
    source: &[u8],
) -> Result<Leaf, AllocError>
    ensures { IfOk result (λ leaf. leaf ≡ assignment_leaf prefix.now size value source.now) }
{
    let items = with_prefix(alloc, bytes_through(prefix, size), value.items.as_slice())?;
    let word = word_of(
        alloc,
        Parts {
            items: Sequence::from_vec(items),
        },
        source,
    )?;
    let name = first_bytes(prefix, size).to_vec(alloc)?;
    let value = Shared::new(alloc, value)?;
    Ok(Leaf::Assignment {
        word,
        name: Sequence::from_vec(name),
        value,
    })
}

/// The leaf of a word that is no assignment.
#[tactic(auto, unfolding(crate::specs::Leaves::plain_leaf))]
pub fn plain_leaf(
    alloc: Global,
    pieces: &[Piece],
    prefix: Vec<u8>,
    parts: Parts,
    source: &[u8],
) -> Result<Leaf, AllocError>
    ensures { IfOk result (λ leaf. leaf ≡ plain_leaf pieces.now prefix.items parts source.now) }
{
    let word = word_of(alloc, parts, source)?;
    if are_bytes(pieces) && is_name(prefix.as_slice()) {
        return Ok(Leaf::Name {
            word,
            name: Sequence::from_vec(prefix),
        });
    }
    Ok(Leaf::Word(word))
}
