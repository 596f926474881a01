//! What each kind of production makes.
ghost use Rattle.std.specs.Prelude.{◌≡◌, Some, None, IfOk, ◌∷◌};
ghost use Rattle.sh_parse_actions.specs.Forms.{and_or, case_item, compound_list, compound, conditional, pipeline};
ghost use Rattle.sh_parse_actions.specs.Actions.{list_items, production_value, made_for, made_named, made_of_one, made_of_two, made_of_three, made_one, made_redirect, made_simple, made_three, made_two};
ghost use Rattle.sh_parse_actions.specs.Values.{children_values, parameters_in, values_in};

use crate::backward::Backward;
use crate::kind::{Binary, Item, Kind, Ternary, Unary};
use crate::value::{Children, ElsePart, ItemBody, ItemEnd, Parameters, Tail, Value, Values};
use sh_base::sequence::{Sequence, Text};
use sh_base::shared::Shared;
use sh_syntax::tree::{
    AndOr, CaseEnd, CaseItem, Command, Compound, CompoundForm, CompoundList, Connected, Connector,
    ElseIf, ListItem, Name, Pipeline, Redirect, Separator, SimpleItem, Word,
};
use std::alloc::{AllocError, Global};

/// The value that is made; `None` where there is none.
type Made = Result<Option<Value>, AllocError>;

fn separated(alloc: Global, separator: Separator, list: Value) -> Option<Value>
    ensures { result ≡ made_one (Unary.Separated separator) list }
{
    let items = list.into_list(alloc)?;
    Some(Value::Tail(Tail { separator, items }))
}

fn else_list(alloc: Global, list: Value) -> Option<Value>
    ensures { result ≡ made_one Unary.Else list }
{
    let list = list.into_compound_list()?;
    Some(Value::Else(ElsePart {
        else_ifs: Backward::new(alloc),
        else_body: Some(list),
    }))
}

fn parameters(is_separated: bool, list: Value) -> Option<Value>
    ensures { result ≡ made_one (Unary.Parameters is_separated) list }
{
    let body = list.into_compound_list()?;
    Some(Value::Parameters(Parameters { is_separated, body }))
}

fn last_value(alloc: Global, list: Value) -> Option<Value>
    ensures { result ≡ made_one Unary.LastValue list }
{
    let body = list.into_compound_list()?;
    Some(Value::Values(Values {
        words: Backward::new(alloc),
        body,
    }))
}

fn group(list: Value) -> Option<Value>
    ensures { result ≡ made_one Unary.Group list }
{
    let list = list.into_compound_list()?;
    Some(Value::Form(CompoundForm::Group(list)))
}

fn subshell(list: Value) -> Option<Value>
    ensures { result ≡ made_one Unary.Subshell list }
{
    let list = list.into_compound_list()?;
    Some(Value::Form(CompoundForm::Subshell(list)))
}

fn ended(alloc: Global, items: Value) -> Option<Value>
    ensures { result ≡ made_one Unary.Break items }
{
    let items = items.into_case_items(alloc)?;
    Some(Value::ItemEnd(ItemEnd {
        end: CaseEnd::Break,
        items,
    }))
}

/// A list of these items.
fn list_of_items(
    alloc: Global,
    items: Sequence<ListItem>,
) -> Result<Shared<CompoundList>, AllocError>
    ensures { IfOk result (λ list. list ≡ compound_list items) }
{
    let list = Shared::new(alloc, CompoundList { items })?;
    Ok(list)
}

fn empty_item(alloc: Global, end: Value) -> Made
    ensures { IfOk result (λ v. v ≡ made_one Unary.EmptyItem end) }
{
    let Some(end) = end.into_item_end(alloc) else {
        return Ok(None);
    };
    let body = list_of_items(alloc, Sequence::new(alloc))?;
    Ok(Some(Value::ItemBody(ItemBody { body, end })))
}

/// What a production makes of one value.
fn make_one(alloc: Global, kind: Unary, a: Value) -> Made
    ensures { IfOk result (λ v. v ≡ made_one kind a) }
{
    match kind {
        Unary::Same => Ok(Some(a)),
        Unary::Separated(separator) => Ok(separated(alloc, separator, a)),
        Unary::Else => Ok(else_list(alloc, a)),
        Unary::Parameters { is_separated } => Ok(parameters(is_separated, a)),
        Unary::LastValue => Ok(last_value(alloc, a)),
        Unary::Group => Ok(group(a)),
        Unary::Subshell => Ok(subshell(a)),
        Unary::EmptyItem => empty_item(alloc, a),
        Unary::Break => Ok(ended(alloc, a)),
    }
}

/// The items of a list: its first AND-OR list, and what comes after that.
fn items_of_list(list: Shared<AndOr>, tail: Tail) -> Result<Backward<ListItem>, AllocError>
    ensures { IfOk result (λ items. items ≡ list_items list tail) }
{
    let Tail { separator, items } = tail;
    let items = items.with_first(ListItem { list, separator })?;
    Ok(items)
}

fn list(alloc: Global, first: Value, tail: Value) -> Made
    ensures { IfOk result (λ v. v ≡ made_two Binary.List first tail) }
{
    let Some((list, tail)) = first.into_and_or().zip(tail.into_tail(alloc)) else {
        return Ok(None);
    };
    let items = items_of_list(list, tail)?;
    Ok(Some(Value::List(items)))
}

/// A list: its first AND-OR list, and what comes after that.
fn compound_list_from(
    alloc: Global,
    list: Shared<AndOr>,
    tail: Tail,
) -> Result<Shared<CompoundList>, AllocError>
    ensures { IfOk result (λ shared. shared ≡ compound_list (list_items list tail)) }
{
    let items = items_of_list(list, tail)?;
    let list = list_of_items(alloc, items.into_sequence())?;
    Ok(list)
}

fn compound_list(alloc: Global, first: Value, tail: Value) -> Made
    ensures { IfOk result (λ v. v ≡ made_two Binary.CompoundList first tail) }
{
    let Some((list, tail)) = first.into_and_or().zip(tail.into_tail(alloc)) else {
        return Ok(None);
    };
    let list = compound_list_from(alloc, list, tail)?;
    Ok(Some(Value::CompoundList(list)))
}

fn and_or(alloc: Global, first: Value, others: Value) -> Made
    ensures { IfOk result (λ v. v ≡ made_two Binary.AndOr first others) }
{
    let Some((first, others)) = first.into_pipeline().zip(others.into_pipelines(alloc)) else {
        return Ok(None);
    };
    let rest = others.into_sequence();
    let list = Shared::new(alloc, AndOr { first, rest })?;
    Ok(Some(Value::AndOr(list)))
}

fn connected(alloc: Global, connector: Connector, first: Value, others: Value) -> Made
    ensures { IfOk result (λ v. v ≡ made_two (Binary.Connected connector) first others) }
{
    let Some((pipeline, others)) = first.into_pipeline().zip(others.into_pipelines(alloc)) else {
        return Ok(None);
    };
    let pipelines = others.with_first(Connected {
        connector,
        pipeline,
    })?;
    Ok(Some(Value::Pipelines(pipelines)))
}

fn pipeline(alloc: Global, is_negated: bool, first: Value, others: Value) -> Made
    ensures { IfOk result (λ v. v ≡ made_two (Binary.Pipeline is_negated) first others) }
{
    let Some((first, others)) = first.into_command().zip(others.into_commands(alloc)) else {
        return Ok(None);
    };
    let rest = others.into_sequence();
    let pipeline = Shared::new(
        alloc,
        Pipeline {
            is_negated,
            first,
            rest,
        },
    )?;
    Ok(Some(Value::Pipeline(pipeline)))
}

fn piped(alloc: Global, first: Value, others: Value) -> Made
    ensures { IfOk result (λ v. v ≡ made_two Binary.Piped first others) }
{
    let Some((first, others)) = first.into_command().zip(others.into_commands(alloc)) else {
        return Ok(None);
    };
    let commands = others.with_first(first)?;
    Ok(Some(Value::Commands(commands)))
}

/// A compound command with its redirections.
fn compound_of(
    alloc: Global,
    form: CompoundForm,
    redirects: Backward<Redirect>,
) -> Result<Shared<Compound>, AllocError>
    ensures { IfOk result (λ shared. shared ≡ compound form redirects) }
{
    let redirects = redirects.into_sequence();
    let compound = Shared::new(alloc, Compound { form, redirects })?;
    Ok(compound)
}

fn body(alloc: Global, form: Value, redirects: Value) -> Made
    ensures { IfOk result (λ v. v ≡ made_two Binary.Body form redirects) }
{
    let Some((form, redirects)) = form.into_form().zip(redirects.into_redirects(alloc)) else {
        return Ok(None);
    };
    let compound = compound_of(alloc, form, redirects)?;
    Ok(Some(Value::Body(compound)))
}

fn compound(alloc: Global, form: Value, redirects: Value) -> Made
    ensures { IfOk result (λ v. v ≡ made_two Binary.Compound form redirects) }
{
    let Some((form, redirects)) = form.into_form().zip(redirects.into_redirects(alloc)) else {
        return Ok(None);
    };
    let compound = compound_of(alloc, form, redirects)?;
    let command = Shared::new(alloc, Command::Compound(compound))?;
    Ok(Some(Value::Command(command)))
}

fn simple(alloc: Global, kind: Item, first: Value, others: Value) -> Made
    ensures { IfOk result (λ v. v ≡ made_simple kind first others) }
{
    let Some((item, others)) = first.into_item(kind).zip(others.into_items(alloc)) else {
        return Ok(None);
    };
    let items = others.with_first(item)?;
    let command = Shared::new(alloc, Command::Simple(items.into_sequence()))?;
    Ok(Some(Value::Command(command)))
}

fn function(alloc: Global, name: Value, body: Shared<Compound>) -> Made
    ensures { IfOk result (λ v. v ≡ made_named (Some body) name name) }
{
    let Some(name) = name.into_name() else {
        return Ok(None);
    };
    let command = Shared::new(alloc, Command::Function { name, body })?;
    Ok(Some(Value::Command(command)))
}

/// A name, and after it the body of a function or the other items of a simple command.
fn named(alloc: Global, first: Value, behind: Value) -> Made
    ensures { IfOk result (λ v. v ≡ made_two Binary.Named first behind) }
{
    match behind.into_body() {
        Ok(body) => {
            let command = function(alloc, first, body)?;
            Ok(command)
        },
        Err(others) => {
            let command = simple(alloc, Item::Word, first, others)?;
            Ok(command)
        },
    }
}

fn items(alloc: Global, kind: Item, first: Value, others: Value) -> Made
    ensures { IfOk result (λ v. v ≡ made_two (Binary.Items kind) first others) }
{
    let Some((item, others)) = first.into_item(kind).zip(others.into_items(alloc)) else {
        return Ok(None);
    };
    let items = others.with_first(item)?;
    Ok(Some(Value::Items(items)))
}

fn redirects(alloc: Global, first: Value, others: Value) -> Made
    ensures { IfOk result (λ v. v ≡ made_two Binary.Redirects first others) }
{
    let Some((first, others)) = first.into_redirect().zip(others.into_redirects(alloc)) else {
        return Ok(None);
    };
    let redirects = others.with_first(first)?;
    Ok(Some(Value::Redirects(redirects)))
}

/// A redirection from its number, operator and word.
fn redirect_to(number: Option<Text>, operator: Value, word: Word) -> Option<Value>
    ensures { result ≡ made_redirect number operator word }
{
    let target = operator.into_target(word)?;
    Some(Value::Redirect(Redirect { number, target }))
}

fn redirect(operator: Value, word: Value) -> Option<Value>
    ensures { result ≡ made_two Binary.Redirect operator word }
{
    let Some(word) = word.into_word() else {
        return operator.discard();
    };
    redirect_to(None, operator, word)
}

/// A `for` from its variable and what comes after that.
fn for_of(name: Name, behind: Value) -> Option<Value>
    ensures { result ≡ made_for (parameters_in behind) (values_in behind) name }
{
    match behind.into_parameters() {
        Ok(Parameters { is_separated, body }) => Some(Value::Form(CompoundForm::ForParameters {
            name,
            is_separated,
            body,
        })),
        Err(other) => for_words(name, other),
    }
}

fn for_words(name: Name, behind: Value) -> Option<Value>
    ensures { result ≡ made_for None (values_in behind) name }
{
    let Values { words, body } = behind.into_values()?;
    Some(Value::Form(CompoundForm::For {
        name,
        words: words.into_sequence(),
        body,
    }))
}

fn for_loop(name: Value, behind: Value) -> Option<Value>
    ensures { result ≡ made_two Binary.For name behind }
{
    let Some(name) = name.into_name() else {
        return behind.discard();
    };
    for_of(name, behind)
}

fn value(word: Value, values: Value) -> Made
    ensures { IfOk result (λ v. v ≡ made_two Binary.Value word values) }
{
    let Some((word, values)) = word.into_word().zip(values.into_values()) else {
        return Ok(None);
    };
    let Values { words, body } = values;
    let words = words.with_first(word)?;
    Ok(Some(Value::Values(Values { words, body })))
}

fn case(alloc: Global, word: Value, items: Value) -> Option<Value>
    ensures { result ≡ made_two Binary.Case word items }
{
    let (word, items) = word.into_word().zip(items.into_case_items(alloc))?;
    Some(Value::Form(CompoundForm::Case {
        word,
        items: items.into_sequence(),
    }))
}

fn patterns(alloc: Global, word: Value, others: Value) -> Made
    ensures { IfOk result (λ v. v ≡ made_two Binary.Patterns word others) }
{
    let Some((word, others)) = word.into_word().zip(others.into_patterns(alloc)) else {
        return Ok(None);
    };
    let patterns = others.with_first(word)?;
    Ok(Some(Value::Patterns(patterns)))
}

/// What a production makes of two values.
fn make_two(alloc: Global, kind: Binary, a: Value, b: Value) -> Made
    ensures { IfOk result (λ v. v ≡ made_two kind a b) }
{
    match kind {
        Binary::List => list(alloc, a, b),
        Binary::CompoundList => compound_list(alloc, a, b),
        Binary::AndOr => and_or(alloc, a, b),
        Binary::Connected(connector) => connected(alloc, connector, a, b),
        Binary::Pipeline { is_negated } => pipeline(alloc, is_negated, a, b),
        Binary::Piped => piped(alloc, a, b),
        Binary::Compound => compound(alloc, a, b),
        Binary::Body => body(alloc, a, b),
        Binary::Named => named(alloc, a, b),
        Binary::Simple(kind) => simple(alloc, kind, a, b),
        Binary::Items(kind) => items(alloc, kind, a, b),
        Binary::Redirects => redirects(alloc, a, b),
        Binary::Redirect => Ok(redirect(a, b)),
        Binary::For => Ok(for_loop(a, b)),
        Binary::Value => value(a, b),
        Binary::Case => Ok(case(alloc, a, b)),
        Binary::Patterns => patterns(alloc, a, b),
    }
}

fn numbered_redirect(number: Value, operator: Value, word: Value) -> Option<Value>
    ensures { result ≡ made_three Ternary.Redirect number operator word }
{
    let Some((digits, word)) = number.into_number().zip(word.into_word()) else {
        return operator.discard();
    };
    redirect_to(Some(digits), operator, word)
}

fn conditional(alloc: Global, condition: Value, body: Value, others: Value) -> Option<Value>
    ensures { result ≡ made_three Ternary.If condition body others }
{
    let lists = condition
        .into_compound_list()
        .zip(body.into_compound_list());
    let ((condition, body), others) = lists.zip(others.into_else(alloc))?;
    let ElsePart {
        else_ifs,
        else_body,
    } = others;
    Some(Value::Form(CompoundForm::If {
        condition,
        body,
        else_ifs: else_ifs.into_sequence(),
        else_body,
    }))
}

fn else_if(alloc: Global, condition: Value, body: Value, others: Value) -> Made
    ensures { IfOk result (λ v. v ≡ made_three Ternary.ElseIf condition body others) }
{
    let lists = condition
        .into_compound_list()
        .zip(body.into_compound_list());
    let Some(((condition, body), others)) = lists.zip(others.into_else(alloc)) else {
        return Ok(None);
    };
    let ElsePart {
        else_ifs,
        else_body,
    } = others;
    let else_ifs = else_ifs.with_first(ElseIf { condition, body })?;
    Ok(Some(Value::Else(ElsePart {
        else_ifs,
        else_body,
    })))
}

fn while_loop(first: Value, condition: Value, body: Value) -> Option<Value>
    ensures { result ≡ made_three Ternary.Loop first condition body }
{
    let head = first.into_loop().zip(condition.into_compound_list());
    let ((kind, condition), body) = head.zip(body.into_compound_list())?;
    Some(Value::Form(CompoundForm::Loop {
        kind,
        condition,
        body,
    }))
}

/// An item of a `case` and the items after it.
fn case_items(
    has_parenthesis: bool,
    pattern: Word,
    others: Backward<Word>,
    behind: ItemBody,
) -> Result<Backward<CaseItem>, AllocError>
    ensures { IfOk result (λ items.
        items ≡ case_item has_parenthesis pattern others behind ∷ behind.end.items) }
{
    let ItemBody { body, end } = behind;
    let ItemEnd { end, items } = end;
    let items = items.with_first(CaseItem {
        has_parenthesis,
        pattern,
        more_patterns: others.into_sequence(),
        body,
        end,
    })?;
    Ok(items)
}

fn case_item(
    alloc: Global,
    has_parenthesis: bool,
    pattern: Value,
    others: Value,
    behind: Value,
) -> Made
    ensures { IfOk result (λ v.
        v ≡ made_three (Ternary.CaseItem has_parenthesis) pattern others behind) }
{
    let patterns = pattern.into_word().zip(others.into_patterns(alloc));
    let Some(((pattern, others), behind)) = patterns.zip(behind.into_item_body()) else {
        return Ok(None);
    };
    let items = case_items(has_parenthesis, pattern, others, behind)?;
    Ok(Some(Value::CaseItems(items)))
}

fn item_list(alloc: Global, first: Value, tail: Value, end: Value) -> Made
    ensures { IfOk result (λ v. v ≡ made_three Ternary.ItemList first tail end) }
{
    let lists = first.into_and_or().zip(tail.into_tail(alloc));
    let Some(((list, tail), end)) = lists.zip(end.into_item_end(alloc)) else {
        return Ok(None);
    };
    let body = compound_list_from(alloc, list, tail)?;
    Ok(Some(Value::ItemBody(ItemBody { body, end })))
}

/// What a production makes of three values.
fn make_three(alloc: Global, kind: Ternary, a: Value, b: Value, c: Value) -> Made
    ensures { IfOk result (λ v. v ≡ made_three kind a b c) }
{
    match kind {
        Ternary::Redirect => Ok(numbered_redirect(a, b, c)),
        Ternary::If => Ok(conditional(alloc, a, b, c)),
        Ternary::ElseIf => else_if(alloc, a, b, c),
        Ternary::Loop => Ok(while_loop(a, b, c)),
        Ternary::CaseItem { has_parenthesis } => case_item(alloc, has_parenthesis, a, b, c),
        Ternary::ItemList => item_list(alloc, a, b, c),
    }
}

/// What a production makes of no value.
fn nothing(children: Children) -> Made
    ensures { IfOk result (λ v. v ≡ Some Value.Nothing) }
{
    Ok(children.discard().or(Some(Value::Nothing)))
}

fn of_one(alloc: Global, kind: Unary, children: Children) -> Made
    ensures { IfOk result (λ v. v ≡ made_of_one kind (children_values children)) }
{
    match children {
        Children::One(a) => make_one(alloc, kind, a),
        other => Ok(other.discard()),
    }
}

fn of_two(alloc: Global, kind: Binary, children: Children) -> Made
    ensures { IfOk result (λ v. v ≡ made_of_two kind (children_values children)) }
{
    match children {
        Children::Two(a, b) => make_two(alloc, kind, a, b),
        other => Ok(other.discard()),
    }
}

fn of_three(alloc: Global, kind: Ternary, children: Children) -> Made
    ensures { IfOk result (λ v. v ≡ made_of_three kind (children_values children)) }
{
    match children {
        Children::Three(a, b, c) => make_three(alloc, kind, a, b, c),
        other => Ok(other.discard()),
    }
}

/// What a production of a kind makes of the values of the symbols that matter. `None` where there are more or
/// fewer values than the kind asks for, or where a value lacks the part that is taken from it. The only error
/// is want of memory.
pub fn make(alloc: Global, kind: Kind, children: Children) -> Result<Option<Value>, AllocError>
    ensures { IfOk result (λ value. value ≡ production_value kind (children_values children)) }
{
    match kind {
        Kind::Nothing => nothing(children),
        Kind::One(kind) => of_one(alloc, kind, children),
        Kind::Two(kind) => of_two(alloc, kind, children),
        Kind::Three(kind) => of_three(alloc, kind, children),
    }
}
