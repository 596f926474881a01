//! How each form of a parameter begins (XCU 2.6.2).
ghost use Rattle.std.specs.Prelude.{◌≡◌, ◌&&◌, IfOk, None};
ghost use Rattle.sh_expand_parts.specs.Contexts.{inside_default};
ghost use Rattle.sh_expand_parts.specs.Drafts.{joiner, value_draft};
ghost use Rattle.sh_expand_parts.specs.Forms.{action_begun, are_null, assignment_begun, conditional_begun, error_begun, is_absent, is_null, is_unset, length_begun, value_length_begun, number_begun, parameter_begun, removal_begun, value_begun};
ghost use Rattle.sh_expand_parts.specs.Values.{name_of, value_in};

use crate::closing::Purpose;
use crate::context::Context;
use crate::draft::{Draft, shown, text_draft};
use crate::fault::Fault;
use crate::value::{Value, decimal, name_of};
use sh_base::sequence::Text;
use sh_syntax::tree::{Absence, Affix, ConditionalAction, Extent, Parameter};
use sh_vars::Vars;
use std::alloc::{AllocError, Global};

/// What the beginning of a form gives.
#[derive(Debug, Drop)]
pub enum Begun {
    /// It is these items.
    Adds(Draft),
    /// The word inside it is expanded first.
    Enters { purpose: Purpose, context: Context },
    /// It can't be expanded.
    Fails(Fault),
}

impl Value {
    ghost use Rattle.sh_expand_parts.specs.Forms.{is_absent, is_null, is_unset};

    fn is_unset(&self) -> bool
        ensures { result ≡ is_unset self.now }
    {
        match self {
            Value::Unset => true,
            Value::Scalar(_) => false,
            Value::Each(_) => false,
            Value::Joined(_) => false,
        }
    }

    fn is_null(&self) -> bool
        ensures { result ≡ is_null self.now }
    {
        match self {
            Value::Unset => true,
            Value::Scalar(text) => text.as_slice().is_empty(),
            Value::Each(texts) => are_null(texts.as_slice()),
            Value::Joined(texts) => are_null(texts.as_slice()),
        }
    }

    /// Whether `${p-w}` or `${p:-w}` takes its word.
    fn is_absent(&self, absence: Absence) -> bool
        ensures { result ≡ is_absent absence self.now }
    {
        match absence {
            Absence::Unset => self.is_unset(),
            Absence::UnsetOrNull => self.is_null(),
        }
    }
}

/// Whether there is no text, or just an empty one.
fn are_null(texts: &[Text]) -> bool
    ensures { result ≡ are_null texts.now }
{
    match texts {
        [] => true,
        [text] => text.as_slice().is_empty(),
        [_, _, ..] => false,
    }
}

/// Whether `set -u` refuses a parameter with this value.
fn is_refused(vars: &Vars, value: &Value) -> bool
    ensures { result ≡ (is_unset value.now && vars.now.options.no_unset) }
{
    value.is_unset() && vars.options().no_unset
}

/// The fault of a parameter that isn't set, without a message.
fn unset(alloc: Global, parameter: &Parameter) -> Result<Begun, AllocError>
    ensures { IfOk result (λ b. b ≡ Begun.Fails (Fault.Unset (name_of parameter.now) None)) }
{
    Ok(Begun::Fails(Fault::Unset {
        name: name_of(alloc, parameter)?,
        message: None,
    }))
}

/// The items of a value.
fn adds(alloc: Global, vars: &Vars, context: Context, value: &Value) -> Result<Begun, AllocError>
    ensures { IfOk result (λ b. b ≡ Begun.Adds (value_draft context (joiner vars.now) value.now)) }
{
    Ok(Begun::Adds(shown(alloc, context, vars, value)?))
}

/// `$p` or `${p}` (XCU 2.6.2). It is a fault under `set -u` where the parameter isn't set. The only error is
/// want of memory.
pub fn begin_parameter(
    alloc: Global,
    vars: &Vars,
    context: Context,
    parameter: &Parameter,
) -> Result<Begun, AllocError>
    ensures { IfOk result (λ b. b ≡ parameter_begun context vars.now parameter.now) }
{
    let value = Value::of(alloc, vars, parameter)?;
    if is_refused(vars, &value) {
        return unset(alloc, parameter);
    }
    adds(alloc, vars, context, &value)
}

/// The items of a number in decimal.
fn number(alloc: Global, context: Context, number: usize) -> Result<Begun, AllocError>
    ensures { IfOk result (λ b. b ≡ number_begun context number) }
{
    let digits = decimal(alloc, number as u64)?;
    Ok(Begun::Adds(text_draft(alloc, context, digits.as_slice())?))
}

/// The length of a value.
fn measured(alloc: Global, context: Context, value: &Value) -> Result<Begun, AllocError>
    ensures { IfOk result (λ b. b ≡ value_length_begun context value.now) }
{
    match value {
        Value::Unset => number(alloc, context, 0),
        Value::Scalar(text) => number(alloc, context, text.len()),
        Value::Each(_) => Ok(Begun::Fails(Fault::BadSubstitution)),
        Value::Joined(_) => Ok(Begun::Fails(Fault::BadSubstitution)),
    }
}

/// `${#p}` (XCU 2.6.2): how many bytes the value has. It is a fault under `set -u` where the parameter isn't
/// set, and always for `@` and `*`. The only error is want of memory.
pub fn begin_length(
    alloc: Global,
    vars: &Vars,
    context: Context,
    parameter: &Parameter,
) -> Result<Begun, AllocError>
    ensures { IfOk result (λ b. b ≡ length_begun context vars.now parameter.now) }
{
    let value = Value::of(alloc, vars, parameter)?;
    if is_refused(vars, &value) {
        return unset(alloc, parameter);
    }
    measured(alloc, context, &value)
}

/// `${p%w}`, `${p%%w}`, `${p#w}` or `${p##w}` (XCU 2.6.2): the pattern is expanded first. It is a fault under
/// `set -u` where the parameter isn't set. The only error is want of memory.
pub fn begin_removal(
    alloc: Global,
    vars: &Vars,
    context: Context,
    parameter: &Parameter,
    affix: Affix,
    extent: Extent,
) -> Result<Begun, AllocError>
    ensures { IfOk result (λ b. b ≡ removal_begun context vars.now parameter.now affix extent) }
{
    let value = Value::of(alloc, vars, parameter)?;
    if is_refused(vars, &value) {
        return unset(alloc, parameter);
    }
    Ok(Begun::Enters {
        purpose: Purpose::Remove {
            value,
            affix,
            extent,
            context,
        },
        context: Context::Single,
    })
}

/// `${p=w}`.
fn assignment(
    alloc: Global,
    vars: &Vars,
    context: Context,
    parameter: &Parameter,
    value: &Value,
    absent: bool,
) -> Result<Begun, AllocError>
    requires { value.now ≡ value_in vars.now parameter.now }
    ensures { IfOk result (λ b. b ≡ assignment_begun context vars.now absent parameter.now) }
{
    match parameter {
        Parameter::Variable(name) => {
            if !absent {
                return adds(alloc, vars, context, value);
            }
            Ok(Begun::Enters {
                purpose: Purpose::Assign {
                    name: Text::copy_of(alloc, name.as_slice())?,
                    context,
                },
                context: context.inside_text(),
            })
        }
        Parameter::Positional(_) => Ok(Begun::Fails(Fault::BadSubstitution)),
        Parameter::Special(_) => Ok(Begun::Fails(Fault::BadSubstitution)),
    }
}

/// `${p?w}` where the parameter is absent: unset, or null where a colon tests for that too.
fn error(
    alloc: Global,
    context: Context,
    parameter: &Parameter,
    is_empty: bool,
) -> Result<Begun, AllocError>
    ensures { IfOk result (λ b. b ≡ error_begun context parameter.now is_empty) }
{
    if is_empty {
        return unset(alloc, parameter);
    }
    Ok(Begun::Enters {
        purpose: Purpose::Report {
            name: name_of(alloc, parameter)?,
        },
        context: context.inside_text(),
    })
}

/// `${p-w}` or `${p+w}` where its word is used.
fn word(context: Context) -> Begun
    ensures { result ≡ Begun.Enters Purpose.Default (inside_default context) }
{
    Begun::Enters {
        purpose: Purpose::Default,
        context: context.inside_default(),
    }
}

/// `${p-w}`, `${p=w}`, `${p?w}` or `${p+w}`, with a colon or without (XCU 2.6.2). The last argument says
/// whether the word has no part. `=` on a parameter that isn't a variable is a fault, also where the
/// parameter is set. The only error is want of memory.
pub fn begin_conditional(
    alloc: Global,
    vars: &Vars,
    context: Context,
    parameter: &Parameter,
    absence: Absence,
    action: ConditionalAction,
    is_empty: bool,
) -> Result<Begun, AllocError>
    ensures { IfOk result (λ b.
        b ≡ conditional_begun context vars.now parameter.now absence action is_empty) }
{
    let value = Value::of(alloc, vars, parameter)?;
    let absent = value.is_absent(absence);
    match action {
        ConditionalAction::Default => {
            if absent {
                return Ok(word(context));
            }
            adds(alloc, vars, context, &value)
        }
        ConditionalAction::Assign => { assignment(alloc, vars, context, parameter, &value, absent) }
        ConditionalAction::Error => {
            if absent {
                return error(alloc, context, parameter, is_empty);
            }
            adds(alloc, vars, context, &value)
        }
        ConditionalAction::Alternative => {
            if absent {
                return Ok(Begun::Adds(Draft::new(alloc)));
            }
            Ok(word(context))
        }
    }
}
