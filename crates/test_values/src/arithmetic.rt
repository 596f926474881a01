//! Values of arithmetic expressions, and what is wrong with texts that have none.
use crate::steps::{answers, decimal, joined, number, repeated, said};
use itoa::Buffer;
use sh_arith::{
    ArithFault, evaluate, evaluation_is_computed, operators_are_spelled_as_in_c,
    operators_bind_as_in_c, operators_group_as_in_c, says_one_expression, texts_are_read_as_in_c,
};
use sh_arith_grammar::levels_are_nested;
use sh_vars::Vars;
use std::alloc::Global;
use test_rows::{Row, RowFault};

/// The steps before a text.
const BEFORE: &[u8] = b"set n 7; set m 5; set e ";

/// A fault's text.
pub(crate) fn text_of(alloc: Global, fault: ArithFault) -> Result<Vec<u8>, RowFault> {
    Ok(format!(in alloc; "{fault}")?.into_bytes())
}

/// A fault's text, and the place that it tells.
fn placed(alloc: Global, fault: ArithFault, at: usize) -> Result<Vec<u8>, RowFault> {
    let text = text_of(alloc, fault)?;
    let place = decimal(alloc, at)?;
    joined(alloc, &[&text, b" ".as_slice(), &place])
}

/// A fault's text, and its place where it tells one.
fn told(alloc: Global, fault: ArithFault) -> Result<Vec<u8>, RowFault> {
    match fault {
        ArithFault::Syntax { at } => placed(alloc, fault, at),
        ArithFault::ReadOnly { at } => placed(alloc, fault, at),
        ArithFault::Unset { at } => placed(alloc, fault, at),
        ArithFault::NoMemory(_) => Err(RowFault::NoMemory),
        _ => text_of(alloc, fault),
    }
}

/// What the evaluation of a text answers: its value, or what is wrong and where.
pub(crate) fn answer(alloc: Global, vars: &mut Vars, text: &[u8]) -> Result<Vec<u8>, RowFault> {
    match evaluate(alloc, text, vars) {
        Ok(value) => Ok(Buffer::new().format(value).as_bytes().to_vec(alloc)?),
        Err(fault) => told(alloc, fault),
    }
}

/// What a text answers, and the variable `n` where it has another value then.
fn answer_and_change(alloc: Global, vars: &mut Vars, text: &[u8]) -> Result<Vec<u8>, RowFault> {
    drop(answers(alloc, vars, BEFORE)?);
    let mut found = answer(alloc, vars, text)?;
    let n = vars.get(b"n").unwrap_or(b"");
    if n != b"7".as_slice() {
        found.extend_from_slice(b" n=")?;
        found.extend_from_slice(n)?;
    }
    Ok(found)
}

/// `value TEXT`: what the text answers where the variable `n` is 7, `m` is 5, `e` is empty and no other is set that it names; behind
/// it `n`, where that has another value then.
pub(crate) fn value(alloc: Global, text: &[u8]) -> Result<Vec<u8>, RowFault> {
    let mut vars = Vars::new(alloc)?;
    let found = answer_and_change(alloc, &mut vars, text);
    drop(vars);
    found
}

/// `nested TIMES BEFORE INSIDE BEHIND`: as `value`, of the text that has INSIDE between so many BEFORE and so many BEHIND.
pub(crate) fn nested(alloc: Global, row: &Row) -> Result<Vec<u8>, RowFault> {
    let times = number(row.field(1));
    let before = repeated(alloc, row.field(2), times)?;
    let behind = repeated(alloc, row.field(4), times)?;
    let text = joined(alloc, &[&before, row.field(3), &behind])?;
    value(alloc, &text)
}

/// `laws`: the laws of arithmetic can be called.
pub(crate) fn laws(alloc: Global) -> Result<Vec<u8>, RowFault> {
    says_one_expression();
    texts_are_read_as_in_c();
    evaluation_is_computed();
    operators_group_as_in_c();
    operators_bind_as_in_c();
    operators_are_spelled_as_in_c();
    levels_are_nested();
    said(alloc, "called")
}
