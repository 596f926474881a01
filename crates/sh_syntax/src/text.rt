//! The text of a command, as `jobs`, `fg` and `bg` show it (XCU jobs, STDOUT): its tokens, joined by one
//! space. Words are shown as in the source, with `;` or `&` after each AND-OR list inside a compound command.
//! Bodies of here-documents and newlines aren't shown; a `;` is shown for a newline before the `do` of a
//! `for`.
ghost use Rattle.std.specs.Prelude.{◌≡◌, ◌++◌, OnOk, IfOk};
ghost use Rattle.std.specs.Ffi.{without_last};
ghost use Rattle.sh_syntax.specs.Tokens.{Spelled, with_space, text_of, with_spaces};
ghost use Rattle.sh_syntax.specs.Spelling.{operator_spelling, here_spelling, loop_spelling, connector_spelling, separator_spelling, case_end_tokens, optional};
ghost use Rattle.sh_syntax.specs.Text.{and_or_tokens, else_if_tokens, case_item_tokens, command_tokens, compound_list_tokens, compound_tokens, form_tokens, item_tokens, connected_tokens, list_item_tokens, pipeline_tokens, redirect_tokens, target_tokens, word_tokens};

use crate::tree::{
    AndOr, CaseEnd, CaseItem, Command, Compound, CompoundForm, CompoundList, Connected, Connector,
    ElseIf, HereDocumentOperator, ListItem, LoopKind, Pipeline, Redirect, RedirectOperator,
    Separator, SimpleItem, Target, Word,
};
use sh_base::NoMemory;
use sh_base::sequence::Text;
use std::alloc::{AllocError, Global};

/// The text of an AND-OR list, without the `;` or `&` after it. It calls itself down the tree, so the stack
/// it needs grows with the levels of the tree. The only error is want of memory.
pub fn command_text(alloc: Global, list: &AndOr) -> Result<Text, NoMemory>
    ensures { IfOk result (λ text. text ≡ text_of (and_or_tokens list.now)) }
{
    let mut out = Vec::new(alloc);
    put_and_or(&mut out, list)?;
    Ok(without_last_space(out))
}

/// The text of a pipeline, with its `!`. It calls itself down the tree, so the stack it needs grows with the
/// levels of the tree. The only error is want of memory.
pub fn pipeline_text(alloc: Global, pipeline: &Pipeline) -> Result<Text, NoMemory>
    ensures { IfOk result (λ text. text ≡ text_of (pipeline_tokens pipeline.now)) }
{
    let mut out = Vec::new(alloc);
    put_pipeline(&mut out, pipeline)?;
    Ok(without_last_space(out))
}

/// Takes off the space after the last token.
fn without_last_space(mut out: Vec<u8>) -> Text
    ensures { result ≡ without_last out.items }
{
    let _space = out.pop();
    Text::from_vec(out)
}

/// Puts a token and the space after it.
fn put_token(out: &mut Vec<u8>, token: &[u8]) -> Result<(), AllocError>
    ensures { OnOk result (out.new.items ≡ out.old.items ++ with_space (Spelled token.now)) }
{
    out.extend_from_slice(token)?;
    out.extend_from_slice(b" ")
}

/// Puts a token that only some of the texts have.
fn put_optional(out: &mut Vec<u8>, stands: bool, token: &[u8]) -> Result<(), AllocError>
    ensures { OnOk result (out.new.items ≡ out.old.items ++ with_spaces (optional stands token.now)) }
{
    if stands {
        put_token(out, token)?;
    }
    Ok(())
}

fn put_operator(out: &mut Vec<u8>, operator: RedirectOperator) -> Result<(), AllocError>
    ensures { OnOk result
        (out.new.items ≡ out.old.items ++ with_space (Spelled (operator_spelling operator))) }
{
    match operator {
        RedirectOperator::Input => put_token(out, b"<"),
        RedirectOperator::Output => put_token(out, b">"),
        RedirectOperator::Clobber => put_token(out, b">|"),
        RedirectOperator::Append => put_token(out, b">>"),
        RedirectOperator::DuplicateInput => put_token(out, b"<&"),
        RedirectOperator::DuplicateOutput => put_token(out, b">&"),
        RedirectOperator::ReadWrite => put_token(out, b"<>"),
    }
}

fn put_here_operator(out: &mut Vec<u8>, operator: HereDocumentOperator) -> Result<(), AllocError>
    ensures { OnOk result
        (out.new.items ≡ out.old.items ++ with_space (Spelled (here_spelling operator))) }
{
    match operator {
        HereDocumentOperator::AsWritten => put_token(out, b"<<"),
        HereDocumentOperator::TabsStripped => put_token(out, b"<<-"),
    }
}

fn put_loop_kind(out: &mut Vec<u8>, kind: LoopKind) -> Result<(), AllocError>
    ensures { OnOk result
        (out.new.items ≡ out.old.items ++ with_space (Spelled (loop_spelling kind))) }
{
    match kind {
        LoopKind::While => put_token(out, b"while"),
        LoopKind::Until => put_token(out, b"until"),
    }
}

fn put_connector(out: &mut Vec<u8>, connector: Connector) -> Result<(), AllocError>
    ensures { OnOk result
        (out.new.items ≡ out.old.items ++ with_space (Spelled (connector_spelling connector))) }
{
    match connector {
        Connector::And => put_token(out, b"&&"),
        Connector::Or => put_token(out, b"||"),
    }
}

fn put_separator(out: &mut Vec<u8>, separator: Separator) -> Result<(), AllocError>
    ensures { OnOk result
        (out.new.items ≡ out.old.items ++ with_space (Spelled (separator_spelling separator))) }
{
    match separator {
        Separator::Sequential => put_token(out, b";"),
        Separator::Asynchronous => put_token(out, b"&"),
    }
}

fn put_case_end(out: &mut Vec<u8>, end: CaseEnd) -> Result<(), AllocError>
    ensures { OnOk result (out.new.items ≡ out.old.items ++ with_spaces (case_end_tokens end)) }
{
    match end {
        CaseEnd::Omitted => Ok(()),
        CaseEnd::Break => put_token(out, b";;"),
    }
}

fn put_word(out: &mut Vec<u8>, word: &Word) -> Result<(), AllocError>
    ensures { OnOk result (out.new.items ≡ out.old.items ++ with_spaces (word_tokens word.now)) }
{
    put_token(out, word.source.as_slice())
}

fn put_target(out: &mut Vec<u8>, target: &Target) -> Result<(), AllocError>
    ensures { OnOk result (out.new.items ≡ out.old.items ++ with_spaces (target_tokens target.now)) }
{
    match target {
        Target::Named { operator, word } => {
            put_operator(out, *operator)?;
            put_word(out, word)
        }
        Target::Here {
            operator,
            delimiter,
            body: _,
        } => {
            put_here_operator(out, *operator)?;
            put_word(out, delimiter)
        }
    }
}

fn put_redirect(out: &mut Vec<u8>, redirect: &Redirect) -> Result<(), AllocError>
    ensures { OnOk result
        (out.new.items ≡ out.old.items ++ with_spaces (redirect_tokens redirect.now)) }
{
    match &redirect.number {
        None => put_target(out, &redirect.target),
        Some(number) => {
            out.extend_from_slice(number.as_slice())?;
            put_target(out, &redirect.target)
        }
    }
}

fn put_item(out: &mut Vec<u8>, item: &SimpleItem) -> Result<(), AllocError>
    ensures { OnOk result (out.new.items ≡ out.old.items ++ with_spaces (item_tokens item.now)) }
{
    match item {
        SimpleItem::Assignment {
            name: _,
            value: _,
            source,
        } => put_token(out, source.as_slice()),
        SimpleItem::Word(word) => put_word(out, word),
        SimpleItem::Redirect(redirect) => put_redirect(out, redirect),
    }
}

#[cycle(text)]
fn put_compound_list(out: &mut Vec<u8>, list: &CompoundList) -> Result<(), AllocError>
    ensures { OnOk result
        (out.new.items ≡ out.old.items ++ with_spaces (compound_list_tokens list.now)) }
{
    for list_item in list.items.as_slice() {
        put_list_item(out, list_item)?;
    }
    Ok(())
}

#[cycle(text)]
fn put_list_item(out: &mut Vec<u8>, list_item: &ListItem) -> Result<(), AllocError>
    ensures { OnOk result
        (out.new.items ≡ out.old.items ++ with_spaces (list_item_tokens list_item.now)) }
{
    put_and_or(out, list_item.list.get())?;
    put_separator(out, list_item.separator)
}

#[cycle(text)]
fn put_and_or(out: &mut Vec<u8>, list: &AndOr) -> Result<(), AllocError>
    ensures { OnOk result (out.new.items ≡ out.old.items ++ with_spaces (and_or_tokens list.now)) }
{
    put_pipeline(out, list.first.get())?;
    for connected in list.rest.as_slice() {
        put_connected(out, connected)?;
    }
    Ok(())
}

#[cycle(text)]
fn put_connected(out: &mut Vec<u8>, connected: &Connected) -> Result<(), AllocError>
    ensures { OnOk result
        (out.new.items ≡ out.old.items ++ with_spaces (connected_tokens connected.now)) }
{
    put_connector(out, connected.connector)?;
    put_pipeline(out, connected.pipeline.get())
}

#[cycle(text)]
fn put_pipeline(out: &mut Vec<u8>, pipeline: &Pipeline) -> Result<(), AllocError>
    ensures { OnOk result
        (out.new.items ≡ out.old.items ++ with_spaces (pipeline_tokens pipeline.now)) }
{
    put_optional(out, pipeline.is_negated, b"!")?;
    put_command(out, pipeline.first.get())?;
    for command in pipeline.rest.as_slice() {
        put_token(out, b"|")?;
        put_command(out, command.get())?;
    }
    Ok(())
}

#[cycle(text)]
fn put_command(out: &mut Vec<u8>, command: &Command) -> Result<(), AllocError>
    ensures { OnOk result
        (out.new.items ≡ out.old.items ++ with_spaces (command_tokens command.now)) }
{
    match command {
        Command::Simple(items) => {
            for item in items.as_slice() {
                put_item(out, item)?;
            }
            Ok(())
        }
        Command::Compound(compound) => put_compound(out, compound.get()),
        Command::Function { name, body } => {
            put_token(out, name.source.as_slice())?;
            put_token(out, b"(")?;
            put_token(out, b")")?;
            put_compound(out, body.get())
        }
    }
}

#[cycle(text)]
fn put_compound(out: &mut Vec<u8>, compound: &Compound) -> Result<(), AllocError>
    ensures { OnOk result
        (out.new.items ≡ out.old.items ++ with_spaces (compound_tokens compound.now)) }
{
    put_form(out, &compound.form)?;
    for redirect in compound.redirects.as_slice() {
        put_redirect(out, redirect)?;
    }
    Ok(())
}

#[cycle(text)]
fn put_form(out: &mut Vec<u8>, form: &CompoundForm) -> Result<(), AllocError>
    ensures { OnOk result (out.new.items ≡ out.old.items ++ with_spaces (form_tokens form.now)) }
{
    match form {
        CompoundForm::Group(list) => put_between(out, b"{", list.get(), b"}"),
        CompoundForm::Subshell(list) => put_between(out, b"(", list.get(), b")"),
        CompoundForm::If {
            condition,
            body,
            else_ifs,
            else_body,
        } => {
            put_between(out, b"if", condition.get(), b"then")?;
            put_compound_list(out, body.get())?;
            for else_if in else_ifs.as_slice() {
                put_else_if(out, else_if)?;
            }
            match else_body {
                None => put_token(out, b"fi"),
                Some(list) => put_between(out, b"else", list.get(), b"fi"),
            }
        }
        CompoundForm::Loop {
            kind,
            condition,
            body,
        } => {
            put_loop_kind(out, *kind)?;
            put_compound_list(out, condition.get())?;
            put_between(out, b"do", body.get(), b"done")
        }
        CompoundForm::For { name, words, body } => {
            put_token(out, b"for")?;
            put_token(out, name.source.as_slice())?;
            put_token(out, b"in")?;
            for word in words.as_slice() {
                put_word(out, word)?;
            }
            put_token(out, b";")?;
            put_between(out, b"do", body.get(), b"done")
        }
        CompoundForm::ForParameters {
            name,
            is_separated,
            body,
        } => {
            put_token(out, b"for")?;
            put_token(out, name.source.as_slice())?;
            put_optional(out, *is_separated, b";")?;
            put_between(out, b"do", body.get(), b"done")
        }
        CompoundForm::Case { word, items } => {
            put_token(out, b"case")?;
            put_word(out, word)?;
            put_token(out, b"in")?;
            for item in items.as_slice() {
                put_case_item(out, item)?;
            }
            put_token(out, b"esac")
        }
    }
}

/// Puts a list between two tokens.
#[cycle(text)]
fn put_between(
    out: &mut Vec<u8>,
    before: &[u8],
    list: &CompoundList,
    behind: &[u8],
) -> Result<(), AllocError>
    ensures { OnOk result
        (out.new.items ≡ out.old.items
        ++ (with_space (Spelled before.now)
        ++ (with_spaces (compound_list_tokens list.now) ++ with_space (Spelled behind.now)))) }
{
    put_token(out, before)?;
    put_compound_list(out, list)?;
    put_token(out, behind)
}

#[cycle(text)]
fn put_else_if(out: &mut Vec<u8>, else_if: &ElseIf) -> Result<(), AllocError>
    ensures { OnOk result
        (out.new.items ≡ out.old.items ++ with_spaces (else_if_tokens else_if.now)) }
{
    put_between(out, b"elif", else_if.condition.get(), b"then")?;
    put_compound_list(out, else_if.body.get())
}

#[cycle(text)]
fn put_case_item(out: &mut Vec<u8>, item: &CaseItem) -> Result<(), AllocError>
    ensures { OnOk result (out.new.items ≡ out.old.items ++ with_spaces (case_item_tokens item.now)) }
{
    put_optional(out, item.has_parenthesis, b"(")?;
    put_word(out, &item.pattern)?;
    for pattern in item.more_patterns.as_slice() {
        put_token(out, b"|")?;
        put_word(out, pattern)?;
    }
    put_token(out, b")")?;
    put_compound_list(out, item.body.get())?;
    put_case_end(out, item.end)
}
