//! Fields of expanded words.
ghost use Rattle.std.specs.Prelude.{◌≡◌, ◌++◌, ◌∷◌, [], OnOk, IfOk, map};
ghost use Rattle.std.specs.List.{flat_map};
ghost use Rattle.sh_expand_fields.specs.Text.{text_of};
ghost use Rattle.sh_expand.specs.Fields.{all_fields, field_paths, fields_as, split_fields, word_fields};
ghost use Rattle.sh_expand.specs.FieldProgress.{texts_of};

use sh_base::sequence::{Sequence, Text};
use sh_expand_fields::{Fields, Item, Separators, expand_pathnames, remove_quotes, split};
use sh_expand_parts::{Context, ExpandedWord};
use sh_files::Files;
use sh_vars::Vars;
use std::alloc::{AllocError, Global};

/// Appends texts.
fn push_texts(texts: Vec<Vec<u8>>, fields: &mut Sequence<Text>) -> Result<(), AllocError>
    ensures { OnOk result (fields.new ≡ fields.old ++ texts_of texts.items) }
{
    for text in texts {
        fields.push(Text::from_vec(text))?;
    }
    Ok(())
}

/// Appends the paths that a field gives; under `set -f`, its text without its quotes.
fn push_paths(
    alloc: Global,
    vars: &Vars,
    files: &Files,
    field: &[Item],
    fields: &mut Sequence<Text>,
) -> Result<(), AllocError>
    ensures { OnOk result (fields.new ≡ fields.old ++ field_paths files.now vars.now field.now) }
{
    if vars.options().no_glob {
        let text = remove_quotes(alloc, field)?;
        fields.push(Text::from_vec(text))?;
        return Ok(());
    }
    let paths = expand_pathnames(alloc, files, vars.directory(), field)?;
    push_texts(paths, fields)?;
    Ok(())
}

/// The fields of the items of a command's word, still with their quotes.
fn split_fields(alloc: Global, vars: &Vars, items: &[Item]) -> Result<Fields, AllocError>
    ensures { IfOk result (λ fields.
        map (λ field. field.items) fields.items ≡ split_fields vars.now items.now) }
{
    match vars.get(b"IFS") {
        None => split(alloc, Separators::Unset, items),
        Some(ifs) => split(alloc, Separators::Set(ifs), items),
    }
}

/// Appends what each of some fields gives.
fn push_all_paths(
    alloc: Global,
    vars: &Vars,
    files: &Files,
    split: &[Vec<Item>],
    fields: &mut Sequence<Text>,
) -> Result<(), AllocError>
    ensures { OnOk result
        (fields.new ≡ fields.old ++ flat_map (field_paths files.now vars.now)
        (map (λ field. field.items) split.now)) }
{
    for field in split {
        push_paths(alloc, vars, files, field.as_slice(), fields)?;
    }
    Ok(())
}

/// Appends the fields of a command's word.
fn push_fields(
    alloc: Global,
    vars: &Vars,
    files: &Files,
    items: &[Item],
    fields: &mut Sequence<Text>,
) -> Result<(), AllocError>
    ensures { OnOk result
        (fields.new ≡ fields.old ++ flat_map (field_paths files.now vars.now)
        (split_fields vars.now items.now)) }
{
    let split = split_fields(alloc, vars, items)?;
    push_all_paths(alloc, vars, files, split.as_slice(), fields)?;
    Ok(())
}

/// Appends a word's text, as one field.
fn push_text(alloc: Global, items: &[Item], fields: &mut Sequence<Text>) -> Result<(), AllocError>
    ensures { OnOk result (fields.new ≡ fields.old ++ text_of items.now ∷ []) }
{
    let text = remove_quotes(alloc, items)?;
    fields.push(Text::from_vec(text))?;
    Ok(())
}

/// Appends the fields of a word.
fn push_word(
    alloc: Global,
    vars: &Vars,
    files: &Files,
    word: &ExpandedWord,
    fields: &mut Sequence<Text>,
) -> Result<(), AllocError>
    ensures { OnOk result (fields.new ≡ fields.old ++ word_fields files.now vars.now word.now) }
{
    let items = word.items.as_slice();
    match word.context {
        Context::Fields => {
            push_fields(alloc, vars, files, items, fields)?;
            Ok(())
        }
        Context::Inner => push_text(alloc, items, fields),
        Context::Quoted => push_text(alloc, items, fields),
        Context::Single => push_text(alloc, items, fields),
        Context::Assignment => push_text(alloc, items, fields),
        Context::Operand => push_text(alloc, items, fields),
        Context::QuotedSingle => push_text(alloc, items, fields),
    }
}

/// The fields of words, in order.
pub(crate) fn all_fields(
    alloc: Global,
    vars: &Vars,
    files: &Files,
    words: &[ExpandedWord],
) -> Result<Sequence<Text>, AllocError>
    ensures { IfOk result (λ fields. fields ≡ all_fields files.now vars.now words.now) }
{
    let mut fields = Sequence::new(alloc);
    for word in words {
        push_word(alloc, vars, files, word, &mut fields)?;
    }
    Ok(fields)
}
