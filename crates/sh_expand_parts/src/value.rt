//! The values of parameters (XCU 2.5).
ghost use Rattle.std.specs.Prelude.{◌≡◌, ◌++◌, ℕ, List, IfOk, decimal, option_map};
ghost use Rattle.std.specs.Fmt.{signed_decimal};
ghost use Rattle.sh_expand_parts.specs.Values.{if_set, name_of, number_if_set, positional, special, special_name, value_in};

use itoa::Buffer;
use sh_base::sequence::{Sequence, Text, copies_of};
use sh_syntax::tree::{Parameter, SpecialParameter};
use sh_vars::Vars;
use std::alloc::{AllocError, Global};

/// The value of a parameter (XCU 2.5).
#[derive(Debug, Drop)]
pub enum Value {
    /// The parameter isn't set.
    Unset,
    /// One text.
    Scalar(Text),
    /// `$@`: the positional parameters, each a field where quoted.
    Each(Sequence<Text>),
    /// `$*`: the positional parameters, joined where quoted.
    Joined(Sequence<Text>),
}

/// A number's decimal digits.
pub(crate) fn decimal(alloc: Global, number: u64) -> Result<Text, AllocError>
    ensures { IfOk result (λ text. text ≡ decimal number) }
{
    let mut buffer = Buffer::new();
    Text::copy_of(alloc, buffer.format(number).as_bytes())
}

/// A number's decimal digits, with its sign.
pub(crate) fn signed_decimal(alloc: Global, number: i64) -> Result<Text, AllocError>
    ensures { IfOk result (λ text. text ≡ signed_decimal number) }
{
    let text = format!(in alloc; "{number}")?;
    Ok(Text::from_vec(text.into_bytes()))
}

/// The value that is this text; `Unset` without one.
fn if_set(alloc: Global, text: Option<&[u8]>) -> Result<Value, AllocError>
    ensures { IfOk result (λ value. value ≡ if_set (option_map (λ t. t.now) text.entry)) }
{
    match text {
        None => Ok(Value::Unset),
        Some(text) => Ok(Value::Scalar(Text::copy_of(alloc, text)?)),
    }
}

/// The value that is this number in decimal; `Unset` without one.
fn number_if_set(alloc: Global, number: Option<u32>) -> Result<Value, AllocError>
    ensures { IfOk result (λ value. value ≡ number_if_set number) }
{
    match number {
        None => Ok(Value::Unset),
        Some(number) => Ok(Value::Scalar(decimal(alloc, u64::from(number))?)),
    }
}

/// The value of a positional parameter, counted from 1.
fn positional(alloc: Global, operands: &[Text], number: usize) -> Result<Value, AllocError>
    ensures { IfOk result (λ value. value ≡ positional operands.now number) }
{
    if number == 0 {
        return Ok(Value::Unset);
    }
    match operands.get(number - 1) {
        None => Ok(Value::Unset),
        Some(text) => Ok(Value::Scalar(Text::copy_of(alloc, text.as_slice())?)),
    }
}

/// The value of a special parameter.
fn special(alloc: Global, vars: &Vars, parameter: SpecialParameter) -> Result<Value, AllocError>
    ensures { IfOk result (λ value. value ≡ special vars.now parameter) }
{
    match parameter {
        SpecialParameter::At => Ok(Value::Each(Sequence::from_vec(copies_of(
            alloc,
            vars.positional(),
        )?))),
        SpecialParameter::Asterisk => Ok(Value::Joined(Sequence::from_vec(copies_of(
            alloc,
            vars.positional(),
        )?))),
        SpecialParameter::Count => Ok(Value::Scalar(decimal(
            alloc,
            vars.positional().len() as u64,
        )?)),
        SpecialParameter::Status => Ok(Value::Scalar(decimal(alloc, u64::from(vars.status()))?)),
        SpecialParameter::Options => { Ok(Value::Scalar(vars.options().letters(alloc)?)) }
        SpecialParameter::Process => Ok(Value::Scalar(decimal(alloc, u64::from(vars.process()))?)),
        SpecialParameter::Background => number_if_set(alloc, vars.background()),
        SpecialParameter::Zero => Ok(Value::Scalar(Text::copy_of(alloc, vars.zero())?)),
    }
}

impl Value {
    ghost use Rattle.sh_expand_parts.specs.Values.{value_in};

    /// The value that a parameter has now. The only error is want of memory.
    pub fn of(alloc: Global, vars: &Vars, parameter: &Parameter) -> Result<Value, AllocError>
        ensures { IfOk result (λ value. value ≡ value_in vars.now parameter.now) }
    {
        match parameter {
            Parameter::Variable(name) => if_set(alloc, vars.get(name.as_slice())),
            Parameter::Positional(number) => positional(alloc, vars.positional(), *number),
            Parameter::Special(parameter) => special(alloc, vars, *parameter),
        }
    }

    /// A copy. The only error is want of memory.
    pub fn copy(&self, alloc: Global) -> Result<Value, AllocError>
        ensures { IfOk result (λ copy. copy ≡ self.now) }
    {
        match self {
            Value::Unset => Ok(Value::Unset),
            Value::Scalar(text) => Ok(Value::Scalar(Text::copy_of(alloc, text.as_slice())?)),
            Value::Each(texts) => Ok(Value::Each(Sequence::from_vec(copies_of(
                alloc,
                texts.as_slice(),
            )?))),
            Value::Joined(texts) => Ok(Value::Joined(Sequence::from_vec(copies_of(
                alloc,
                texts.as_slice(),
            )?))),
        }
    }
}

/// How a special parameter is written after the `$`.
fn special_name(parameter: SpecialParameter) -> &'static [u8]
    ensures { result.now ≡ special_name parameter }
{
    match parameter {
        SpecialParameter::At => b"@",
        SpecialParameter::Asterisk => b"*",
        SpecialParameter::Count => b"#",
        SpecialParameter::Status => b"?",
        SpecialParameter::Options => b"-",
        SpecialParameter::Process => b"$",
        SpecialParameter::Background => b"!",
        SpecialParameter::Zero => b"0",
    }
}

/// How a parameter is written after the `$`.
pub(crate) fn name_of(alloc: Global, parameter: &Parameter) -> Result<Text, AllocError>
    ensures { IfOk result (λ name. name ≡ name_of parameter.now) }
{
    match parameter {
        Parameter::Variable(name) => Text::copy_of(alloc, name.as_slice()),
        Parameter::Positional(number) => decimal(alloc, *number as u64),
        Parameter::Special(parameter) => Text::copy_of(alloc, special_name(*parameter)),
    }
}
