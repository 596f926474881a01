//! The values of a `for`.
ghost use Rattle.std.specs.Prelude.{◌≡◌, IfOk, map};
ghost use Rattle.sh_exec_command.specs.Expanding.{start_of};
ghost use Rattle.sh_syntax.specs.declared.tree.Command.TheViews as view;
ghost use Rattle.sh_exec_actions.specs.declared.action.Expanded.TheVariants.{Go};
ghost use Rattle.sh_exec_actions.specs.declared.action.Move.TheVariants.{At};
ghost use Rattle.sh_exec_command.specs.Series.{begun_with, give_by, give_turn, header_in, header_of, header_turn, series_from, series_turn, values_turn, word_of_series};

use crate::expanding::{expand, fail};
use sh_base::NoMemory;
use sh_base::sequence::{Sequence, Text, copies_of};
use sh_base::shared::Shared;
use sh_builtin_environment::{may_set, set_variable};
use sh_exec_actions::{
    Action, Active, CommandStatus, Expanded, ForLoop, Move, ToExpand, fatal_message, rest_of_series,
};
use sh_exec_parts::Queue;
use sh_exec_parts::message::read_only;
use sh_expand::{Pending, Progress, Wanted};
use sh_expand_parts::Context;
use sh_files::Files;
use sh_syntax::tree::{Command, CompoundForm, CompoundList, Name, Word};
use sh_vars::Vars;
use std::alloc::Global;

/// What the values of a `for` are.
#[derive(Drop)]
pub(crate) enum Values {
    /// What these words come to.
    Words(Sequence<Wanted>),
    /// The positional parameters.
    Parameters,
}

/// A `for` before its body.
#[derive(Drop)]
pub(crate) struct Header {
    name: Text,
    values: Values,
    body: Shared<CompoundList>,
}

/// The words of a `for`, to be expanded.
fn words_wanted(alloc: Global, words: &[Word]) -> Result<Sequence<Wanted>, NoMemory>
    ensures { IfOk result (λ wanted. wanted ≡ map word_of_series words.now) }
{
    let mut wanted = Sequence::new(alloc);
    let mut rest = words;
    'words: while let Some((word, others)) = rest.split_first() {
        wanted.push(Wanted {
            parts: word.parts.share()?,
            context: Context::Fields,
        })?;
        rest = others;
    }
    Ok(wanted)
}

/// A header with these values.
fn with_header(
    alloc: Global,
    name: &Name,
    values: Values,
    body: &Shared<CompoundList>,
) -> Result<Header, NoMemory>
    ensures { IfOk result (λ h.
        h ≡ record { name = name.now.name; values = values; body = body.now }) }
{
    let name = Text::copy_of(alloc, name.name.as_slice())?;
    let body = body.share()?;
    Ok(Header { name, values, body })
}

/// The header of a compound command, if that is a `for`.
fn header_in(alloc: Global, form: &CompoundForm) -> Result<Option<Header>, NoMemory>
    ensures { IfOk result (λ h. h ≡ header_in (view.out-CompoundForm form.now)) }
{
    match form {
        CompoundForm::Group(_) => Ok(None),
        CompoundForm::Subshell(_) => Ok(None),
        CompoundForm::If { .. } => Ok(None),
        CompoundForm::Loop { .. } => Ok(None),
        CompoundForm::For { name, words, body } => {
            let wanted = words_wanted(alloc, words.as_slice())?;
            let found = with_header(alloc, name, Values::Words(wanted), body)?;
            Ok(Some(found))
        },
        CompoundForm::ForParameters { name, body, .. } => {
            let found = with_header(alloc, name, Values::Parameters, body)?;
            Ok(Some(found))
        },
        CompoundForm::Case { .. } => Ok(None),
    }
}

/// The header of a command, if that is a `for`.
#[tactic(auto, unfolding(crate::specs::Series::header_of))]
fn header_of(alloc: Global, command: &Command) -> Result<Option<Header>, NoMemory>
    ensures { IfOk result (λ h. h ≡ header_of command.now) }
{
    match command {
        Command::Simple(_) => Ok(None),
        Command::Compound(compound) => header_in(alloc, &compound.get().form),
        Command::Function { .. } => Ok(None),
    }
}

/// What a `for` does first whose values are these.
fn begin_series(name: Text, values: Sequence<Text>, body: Shared<CompoundList>) -> Expanded
    ensures { result ≡ Go (At (begun_with name values body)) }
{
    let series = ForLoop {
        name,
        values: Queue::new(values),
        body,
    };
    Expanded::Go(Move::At(rest_of_series(series, CommandStatus::unexcused(0))))
}

/// The words of a `for` are expanded.
fn expand_words(
    alloc: Global,
    command: Shared<Command>,
    pending: Option<Pending>,
    name: Text,
    body: Shared<CompoundList>,
    wanted: Sequence<Wanted>,
    vars: &mut Vars,
    files: &Files,
) -> Result<Expanded, NoMemory>
    ensures { IfOk result (λ e.
        record { environment = vars.new; outcome = e } ≡ series_from files.now command name body
        (start_of vars.old wanted pending)) }
{
    match expand(alloc, wanted, pending, vars, files)? {
        Progress::Need { program, pending } => Ok(Expanded::Need {
            program,
            wants: ToExpand::ForWords(command),
            pending,
        }),
        Progress::Fields(fields) => Ok(begin_series(name, fields, body)),
        Progress::Fault(fault) => fail(alloc, fault),
    }
}

/// The turn of a `for` with this header.
fn values_turn(
    alloc: Global,
    command: Shared<Command>,
    pending: Option<Pending>,
    header: Header,
    vars: &mut Vars,
    files: &Files,
) -> Result<Expanded, NoMemory>
    ensures { IfOk result (λ e.
        record { environment = vars.new; outcome = e } ≡ values_turn files.now vars.old command
        pending header.name header.body header.values) }
{
    let Header { name, values, body } = header;
    match values {
        Values::Words(wanted) => {
            expand_words(alloc, command, pending, name, body, wanted, vars, files)
        },
        Values::Parameters => {
            let values = Sequence::from_vec(copies_of(alloc, vars.positional())?);
            Ok(begin_series(name, values, body))
        },
    }
}

/// The turn of the words of a `for` (XCU 2.9.4.2), with the answers so far; without `in` its values are the
/// positional parameters. The only error is want of memory; what the variables are then is left open.
#[tactic(auto, unfolding(crate::specs::Series::series_turn))]
pub fn series_turn(
    alloc: Global,
    command: Shared<Command>,
    pending: Option<Pending>,
    vars: &mut Vars,
    files: &Files,
) -> Result<Expanded, NoMemory>
    ensures { IfOk result (λ e.
        record { environment = vars.new; outcome = e } ≡ series_turn files.now vars.old command
        pending) }
{
    match header_of(alloc, command.get())? {
        Some(header) => values_turn(alloc, command, pending, header, vars, files),
        None => Ok(Expanded::Go(Move::At(Active::Done(CommandStatus::unexcused(0))))),
    }
}

/// What follows where a `for` gives its variable a value.
#[derive(Drop)]
pub enum Round {
    /// Its body is run.
    Body(ForLoop),
    /// It goes on here.
    Over(Active),
}

/// The turn in which the variable of a `for` has its next value. The only error is want of memory; what the variables are then is
/// left open.
#[tactic(auto, unfolding(crate::specs::Series::give_turn))]
pub fn give_turn(alloc: Global, series: ForLoop, vars: &mut Vars) -> Result<Round, NoMemory>
    ensures { IfOk result (λ r.
        record { environment = vars.new; round = r } ≡ give_turn vars.old series) }
{
    let ForLoop { name, values, body } = series;
    let mut values = values;
    let Some(value) = values.take() else {
        return Ok(Round::Over(Active::Done(CommandStatus::unexcused(0))));
    };
    if !may_set(vars, name.as_slice()) {
        let piece = read_only(alloc, name.as_slice())?;
        return Ok(Round::Over(fatal_message(piece)));
    }
    set_variable(vars, name.as_slice(), value.as_slice())?;
    Ok(Round::Body(ForLoop { name, values, body }))
}
