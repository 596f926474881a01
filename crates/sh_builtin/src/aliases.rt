//! The built-ins alias and unalias (XCU alias, unalias).
ghost use Rattle.std.specs.Prelude.{◌≡◌, ◌++◌, ◌∷◌, [], codes, IfOk, OnOk};
ghost use Rattle.sh_aliases.specs.Aliases.{alias_named, alias_of};
ghost use Rattle.sh_builtin.specs.Aliases.{after_operand, after_operands, after_parts, alias_line, alias_lines, alias_ran, alias_status, alias_with, bad_name, defined, defined_by, definition, refused, status_behind, unalias_ran, unalias_with, unaliased, with_outcome, written};
ghost use Rattle.sh_builtin_environment.specs.Options.{options_and_operands};
ghost use Rattle.sh_builtin_outcome.specs.Outcomes.{done};

use sh_aliases::{Alias, Aliases};
use sh_base::NoMemory;
use sh_base::sequence::{Sequence, Text};
use sh_base::shared::Shared;
use sh_builtin_environment::{name_in, parse_options, put_quoted, value_in};
use sh_builtin_outcome::message::line_about;
use sh_builtin_outcome::{Builtin, Outcome};
use std::alloc::Global;

/// What alias says of its operands.
#[derive(Drop)]
struct Told {
    /// The lines of the aliases that operands name.
    out: Text,
    /// The messages of operands that were refused.
    messages: Sequence<Text>,
}

/// Adds an alias as it is written to a text.
#[tactic(auto, unfolding(crate::specs::Aliases::definition))]
pub(crate) fn put_definition(text: &mut Text, alias: &Alias) -> Result<(), NoMemory>
    ensures { OnOk result (text.new ≡ text.old ++ definition alias.now) }
{
    text.extend_from_slice(alias.name.as_slice())?;
    text.push(b'=')?;
    put_quoted(text, alias.value.as_slice())
}

/// Adds the line of an alias to a text.
fn put_line(text: &mut Text, alias: &Alias) -> Result<(), NoMemory>
    ensures { OnOk result (text.new ≡ text.old ++ alias_line alias.now) }
{
    put_definition(text, alias)?;
    text.push(b'\n')?;
    Ok(())
}

/// The lines of aliases.
fn lines(alloc: Global, aliases: &[Shared<Alias>]) -> Result<Text, NoMemory>
    ensures { IfOk result (λ text. text ≡ alias_lines aliases.now) }
{
    let mut text = Sequence::new(alloc);
    let mut rest = aliases;
    'aliases: while let Some((alias, others)) = rest.split_first() {
        put_line(&mut text, alias.get())?;
        rest = others;
    }
    Ok(text)
}

/// The message of an operand with this name.
fn bad_name(alloc: Global, name: &[u8]) -> Result<Text, NoMemory>
    ensures { IfOk result (λ line. line ≡ bad_name name.now) }
{
    line_about(alloc, Builtin::Alias.name(), name, b": bad name")
}

/// An operand with this name is refused.
fn refuse(alloc: Global, told: &mut Told, name: &[u8]) -> Result<(), NoMemory>
    ensures out { told.new.out ≡ told.old.out }
    ensures messages { OnOk result (told.new.messages ≡ told.old.messages ++ bad_name name.now ∷ []) }
{
    let line = bad_name(alloc, name)?;
    told.messages.push(line)?;
    Ok(())
}

/// Writes the alias of a name.
fn write(alloc: Global, aliases: &Aliases, told: &mut Told, name: &[u8]) -> Result<(), NoMemory>
    ensures { OnOk result (defined_by aliases.now told.new
        ≡ written (defined_by aliases.now told.old) name.now (alias_named aliases.now name.now)) }
{
    match aliases.get(name) {
        Some(alias) => put_line(&mut told.out, alias),
        None => refuse(alloc, told, name),
    }
}

/// Defines the alias of a name and a value.
fn define(
    alloc: Global,
    aliases: &mut Aliases,
    told: &mut Told,
    name: &[u8],
    value: &[u8],
) -> Result<(), NoMemory>
    ensures { OnOk result (defined_by aliases.new told.new
        ≡ defined (defined_by aliases.old told.old) name.now (alias_of name.now value.now)) }
{
    match Alias::of(alloc, name, value)? {
        Some(alias) => aliases.put(alias),
        None => refuse(alloc, told, name),
    }
}

/// Takes an operand.
#[tactic(auto, unfolding(crate::specs::Aliases::after_operand))]
fn take_operand(
    alloc: Global,
    aliases: &mut Aliases,
    told: &mut Told,
    operand: &[u8],
) -> Result<(), NoMemory>
    ensures { OnOk result (defined_by aliases.new told.new
        ≡ after_operand (defined_by aliases.old told.old) operand.now) }
{
    let name = name_in(operand);
    match value_in(operand) {
        Some(value) => define(alloc, aliases, told, name, value),
        None => write(alloc, aliases, told, name),
    }
}

/// Takes operands from left to right.
fn take_operands(
    alloc: Global,
    aliases: &mut Aliases,
    told: &mut Told,
    operands: &[Text],
) -> Result<(), NoMemory>
    ensures { OnOk result (defined_by aliases.new told.new
        ≡ after_operands (defined_by aliases.old told.old) operands.now) }
{
    let mut rest = operands;
    'operands: while let Some((operand, others)) = rest.split_first() {
        take_operand(alloc, aliases, told, operand.as_slice())?;
        rest = others;
    }
    Ok(())
}

/// The status by the messages.
fn status_of(messages: &[Text]) -> u8
    ensures { result ≡ alias_status messages.now }
{
    if messages.is_empty() { 0 } else { 1 }
}

/// alias with its operands.
fn alias_with(alloc: Global, aliases: &mut Aliases, operands: &[Text]) -> Result<Outcome, NoMemory>
    ensures { IfOk result (λ outcome.
        with_outcome aliases.new outcome ≡ alias_with aliases.old operands.now) }
{
    if operands.is_empty() {
        let text = lines(alloc, aliases.as_slice())?;
        return Ok(Outcome::output(alloc, text));
    }
    let mut told = Told {
        out: Sequence::new(alloc),
        messages: Sequence::new(alloc),
    };
    take_operands(alloc, aliases, &mut told, operands)?;
    let Told { out, messages } = told;
    let status = status_of(messages.as_slice());
    Ok(Outcome::saying(out, messages, status))
}

/// alias with its arguments (XCU alias).
pub(crate) fn alias(
    alloc: Global,
    aliases: &mut Aliases,
    arguments: &[Text],
) -> Result<Outcome, NoMemory>
    ensures { IfOk result (λ outcome.
        with_outcome aliases.new outcome ≡ alias_ran aliases.old (options_and_operands [] arguments.now)) }
{
    match parse_options(b"", arguments) {
        Some((_, operands)) => alias_with(alloc, aliases, operands),
        None => Outcome::misuse(alloc, Builtin::Alias),
    }
}

/// The status behind a name, which may be that of an alias.
fn status_behind(status: u8, found: bool) -> u8
    ensures { result ≡ status_behind status found }
{
    if found { status } else { 1 }
}

/// Removes the aliases of names; the status of that.
fn remove_all(aliases: &mut Aliases, names: &[Text]) -> u8
    ensures { with_outcome aliases.new (done result) ≡ unaliased aliases.old 0 names.now }
{
    let mut status = 0;
    let mut rest = names;
    'names: while let Some((name, others)) = rest.split_first() {
        status = status_behind(status, aliases.remove(name.as_slice()));
        rest = others;
    }
    status
}

/// unalias with its operands, and without an option.
fn unalias_with(alloc: Global, aliases: &mut Aliases, names: &[Text]) -> Result<Outcome, NoMemory>
    ensures { IfOk result (λ outcome.
        with_outcome aliases.new outcome ≡ unalias_with aliases.old names.now) }
{
    if names.is_empty() {
        return Outcome::misuse(alloc, Builtin::Unalias);
    }
    let status = remove_all(aliases, names);
    Ok(Outcome::done(alloc, status))
}

/// unalias with its arguments (XCU unalias).
pub(crate) fn unalias(
    alloc: Global,
    aliases: &mut Aliases,
    arguments: &[Text],
) -> Result<Outcome, NoMemory>
    ensures { IfOk result (λ outcome.
        with_outcome aliases.new outcome ≡ unalias_ran aliases.old (options_and_operands (codes "a") arguments.now)) }
{
    match parse_options(b"a", arguments) {
        Some((Some(_), _)) => {
            aliases.clear();
            Ok(Outcome::done(alloc, 0))
        },
        Some((None, names)) => unalias_with(alloc, aliases, names),
        None => Outcome::misuse(alloc, Builtin::Unalias),
    }
}
