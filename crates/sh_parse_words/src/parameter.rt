//! Parameters, and what a `${..}` asks for (XCU 2.5, 2.6.2).
ghost use Rattle.std.specs.Prelude.{◌≡◌, ◌≤◌, IfOk, suc, length, position, not, take, drop, ◌∷◌, []};
ghost use Rattle.std.specs.Option.{option_map, unwrap_or};
ghost use Rattle.sh_parse_words.specs.Parameters.{number_behind, parameter_by_number, special, count_while, parameter_size, parameter, action, removal, by_operator, whole_parameter, length_of, behind_hash, behind_other, braces_of, short};
ghost use Rattle.std.specs.Char.{is_ascii_digit};
ghost use Rattle.sh_base.specs.Names.{continues_name};

use sh_base::name::{begins_name, continues_name};
use sh_base::sequence::Sequence;
use sh_syntax::tree::{Absence, Affix, ConditionalAction, Extent, Parameter, SpecialParameter};
use std::alloc::{AllocError, Global};

/// What a `${..}` asks for (XCU 2.6.2), without its word or pattern, which comes after the operator.
#[derive(Debug, Drop)]
pub enum Braces {
    /// `${p}`: the parameter's value.
    Value(Parameter),
    /// `${#p}`: the length of the value.
    Length(Parameter),
    /// `${p-w}`, `${p=w}`, `${p?w}` or `${p+w}`, with a colon or without.
    Conditional {
        parameter: Parameter,
        absence: Absence,
        action: ConditionalAction,
    },
    /// `${p%w}`, `${p%%w}`, `${p#w}` or `${p##w}`.
    Removal {
        parameter: Parameter,
        affix: Affix,
        extent: Extent,
    },
}

/// The value of decimal digits. It is the largest `usize` where the value is larger.
fn number(digits: &[u8]) -> usize
    ensures { result ≡ number_behind 0 digits.now }
{
    let mut number: usize = 0;
    let mut rest = digits;
    while let Some((digit, others)) = rest.split_first() {
        number = number
            .saturating_mul(10)
            .saturating_add(usize::from(digit.saturating_sub(b'0')));
        rest = others;
    }
    number
}

fn numbered(number: usize) -> Parameter
    ensures { result ≡ parameter_by_number number }
{
    if number == 0 {
        Parameter::Special(SpecialParameter::Zero)
    } else {
        Parameter::Positional(number)
    }
}

fn special(b: u8) -> Option<Parameter>
    ensures { result ≡ special b }
{
    match b {
        b'@' => Some(Parameter::Special(SpecialParameter::At)),
        b'*' => Some(Parameter::Special(SpecialParameter::Asterisk)),
        b'#' => Some(Parameter::Special(SpecialParameter::Count)),
        b'?' => Some(Parameter::Special(SpecialParameter::Status)),
        b'-' => Some(Parameter::Special(SpecialParameter::Options)),
        b'$' => Some(Parameter::Special(SpecialParameter::Process)),
        b'!' => Some(Parameter::Special(SpecialParameter::Background)),
        _ => None,
    }
}

fn ends_name(b: u8) -> bool
    ensures { result ≡ not (continues_name b) }
{
    !continues_name(b)
}

fn ends_number(b: u8) -> bool
    ensures { result ≡ not (is_ascii_digit b) }
{
    !b.is_ascii_digit()
}

fn end_of_name(bytes: &[u8]) -> Option<usize>
    ensures { result ≡ position (λ b. not (continues_name b)) bytes.now }
{
    bytes.iter().position(|b| ends_name(*b))
}

fn end_of_number(bytes: &[u8]) -> Option<usize>
    ensures { result ≡ position (λ b. not (is_ascii_digit b)) bytes.now }
{
    bytes.iter().position(|b| ends_number(*b))
}

/// How many of the bytes are the parameter.
fn parameter_size(bytes: &[u8]) -> usize
    ensures { result ≡ parameter_size bytes.now }
{
    let Some((first, _)) = bytes.split_first() else {
        return 0;
    };
    if begins_name(*first) {
        end_of_name(bytes).unwrap_or(bytes.len())
    } else if first.is_ascii_digit() {
        end_of_number(bytes).unwrap_or(bytes.len())
    } else {
        1
    }
}

/// The parameter that bytes after a `$` or `${` are: a name, digits, or one byte. `None` where they are no
/// parameter. The only error is want of memory.
pub fn parameter(alloc: Global, bytes: &[u8]) -> Result<Option<Parameter>, AllocError>
    ensures { IfOk result (λ found. found ≡ parameter bytes.now) }
{
    let Some((first, _)) = bytes.split_first() else {
        return Ok(None);
    };
    if begins_name(*first) {
        let name = bytes.to_vec(alloc)?;
        return Ok(Some(Parameter::Variable(Sequence::from_vec(name))));
    }
    if first.is_ascii_digit() {
        return Ok(Some(numbered(number(bytes))));
    }
    Ok(special(*first))
}

fn action(b: u8) -> Option<ConditionalAction>
    ensures { result ≡ action b }
{
    match b {
        b'-' => Some(ConditionalAction::Default),
        b'=' => Some(ConditionalAction::Assign),
        b'?' => Some(ConditionalAction::Error),
        b'+' => Some(ConditionalAction::Alternative),
        _ => None,
    }
}

fn removal(parameter: Parameter, b: u8, extent: Extent) -> Option<Braces>
    ensures { result ≡ removal parameter b extent }
{
    match b {
        b'%' => Some(Braces::Removal {
            parameter,
            affix: Affix::Suffix,
            extent,
        }),
        b'#' => Some(Braces::Removal {
            parameter,
            affix: Affix::Prefix,
            extent,
        }),
        _ => None,
    }
}

/// What an operator after the parameter asks for; `is_empty`: no word comes after it.
fn by_operator(parameter: Parameter, operator: &[u8], is_empty: bool) -> Option<Braces>
    ensures { result ≡ by_operator parameter operator.now is_empty }
{
    match operator {
        [] if is_empty => Some(Braces::Value(parameter)),
        [] => None,
        [b] => match action(*b) {
            Some(action) => Some(Braces::Conditional {
                parameter,
                absence: Absence::Unset,
                action,
            }),
            None => removal(parameter, *b, Extent::Smallest),
        },
        [b':', c] => {
            let action = action(*c)?;
            Some(Braces::Conditional {
                parameter,
                absence: Absence::UnsetOrNull,
                action,
            })
        },
        [b, c] if *b == *c => removal(parameter, *b, Extent::Largest),
        _ => None,
    }
}

/// The parameter that all the bytes together are.
fn whole_parameter(alloc: Global, bytes: &[u8]) -> Result<Option<Parameter>, AllocError>
    ensures { IfOk result (λ found. found ≡ whole_parameter bytes.now) }
{
    if parameter_size(bytes) != bytes.len() {
        return Ok(None);
    }
    parameter(alloc, bytes)
}

fn length_of(parameter: Parameter) -> Option<Braces>
    ensures { result ≡ length_of parameter }
{
    match parameter {
        Parameter::Special(SpecialParameter::At | SpecialParameter::Asterisk) => None,
        _ => Some(Braces::Length(parameter)),
    }
}

/// What bytes after `${#` ask for.
fn behind_hash(alloc: Global, bytes: &[u8], is_empty: bool) -> Result<Option<Braces>, AllocError>
    ensures { IfOk result (λ found. found ≡ behind_hash bytes.now is_empty) }
{
    let count = Parameter::Special(SpecialParameter::Count);
    if !is_empty {
        return Ok(by_operator(count, bytes, false));
    }
    match whole_parameter(alloc, bytes)? {
        Some(parameter) => Ok(length_of(parameter)),
        None => Ok(by_operator(count, bytes, true)),
    }
}

/// What other bytes after `${` ask for.
fn behind_other(alloc: Global, bytes: &[u8], is_empty: bool) -> Result<Option<Braces>, AllocError>
    ensures { IfOk result (λ found. found ≡ behind_other bytes.now is_empty) }
{
    let (name, operator) = parted(bytes, parameter_size(bytes));
    let Some(parameter) = parameter(alloc, name)? else {
        return Ok(None);
    };
    Ok(by_operator(parameter, operator, is_empty))
}

/// The first bytes and the others.
fn parted(bytes: &[u8], count: usize) -> (&[u8], &[u8])
    ensures prefix { result.0.now ≡ take count bytes.now }
    ensures rest { result.1.now ≡ drop count bytes.now }
{
    if count < bytes.len() {
        bytes.split_at(count)
    } else {
        (bytes, &[])
    }
}

impl Braces {
    /// What the bytes between `${` and its word ask for; `is_empty`: the `}` comes directly after them.
    /// `None` is a bad substitution (XCU 2.6.2). The only error is want of memory.
    #[tactic(auto, unfolding(crate::specs::Parameters::braces_of))]
    pub fn of_head(alloc: Global, head: &[u8], is_empty: bool) -> Result<Option<Self>, AllocError>
        ensures { IfOk result (λ found. found ≡ braces_of head.now is_empty) }
    {
        let Some((first, rest)) = head.split_first() else {
            return Ok(None);
        };
        if *first == b'#' {
            return behind_hash(alloc, rest, is_empty);
        }
        behind_other(alloc, head, is_empty)
    }
}
