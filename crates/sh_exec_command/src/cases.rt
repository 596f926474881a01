//! A `case`.
ghost use Rattle.std.specs.Prelude.{◌≡◌, ◌∷◌, ◌++◌, [], IfOk, OnOk};
ghost use Rattle.sh_exec_command.specs.Assigning.{text_of};
ghost use Rattle.sh_exec_command.specs.Cases.{branch_from, branch_of, branch_turn, branches_of, case_header, case_turn, header_in, header_of, header_turn, item_branches, next_branch, pattern_turn, single, tried, word_from};
ghost use Rattle.sh_exec_command.specs.Expanding.{start_of};
ghost use Rattle.sh_expand.specs.Answers.{fields_in, pattern_from};
ghost use Rattle.sh_expand.specs.Pendings.{IsKept, IsPatternKept, patterned_by, result_of};
ghost use Rattle.sh_pattern.specs.Deciding.{is_match};
ghost use Rattle.sh_syntax.specs.declared.tree.Command.TheViews as view;

use crate::assigning::text_of;
use crate::expanding::{expand, fail};
use sh_base::NoMemory;
use sh_base::sequence::{Sequence, Text};
use sh_base::shared::Shared;
use sh_exec_actions::{Action, Active, Case, CaseBranch, CommandStatus, Expanded, Move, ToExpand};
use sh_exec_parts::Queue;
use sh_expand::{PatternProgress, Pending, Progress, Wanted};
use sh_expand_parts::Context;
use sh_files::Files;
use sh_pattern::{PatternByte, matches};
use sh_syntax::tree::{CaseItem, Command, CompoundForm, CompoundList, Parts, Word};
use sh_vars::Vars;
use std::alloc::Global;

/// A `case` before its word is expanded.
#[derive(Drop)]
pub(crate) struct Header {
    word: Shared<Parts>,
    branches: Sequence<CaseBranch>,
}

/// A pattern of an item, with its list.
fn branch_of(pattern: &Word, body: &Shared<CompoundList>) -> Result<CaseBranch, NoMemory>
    ensures { IfOk result (λ branch. branch ≡ branch_of body.now pattern.now) }
{
    let pattern = pattern.parts.share()?;
    let body = body.share()?;
    Ok(CaseBranch { pattern, body })
}

/// Each pattern of an item, behind those of other items.
fn push_item(branches: &mut Sequence<CaseBranch>, item: &CaseItem) -> Result<(), NoMemory>
    ensures { OnOk result (branches.new ≡ branches.old ++ item_branches item.now) }
{
    branches.push(branch_of(&item.pattern, &item.body)?)?;
    let mut rest = item.more_patterns.as_slice();
    'patterns: while let Some((pattern, others)) = rest.split_first() {
        branches.push(branch_of(pattern, &item.body)?)?;
        rest = others;
    }
    Ok(())
}

/// Each pattern of some items.
fn branches_of(alloc: Global, items: &[CaseItem]) -> Result<Sequence<CaseBranch>, NoMemory>
    ensures { IfOk result (λ branches. branches ≡ branches_of items.now) }
{
    let mut branches = Sequence::new(alloc);
    let mut rest = items;
    'items: while let Some((item, others)) = rest.split_first() {
        push_item(&mut branches, item)?;
        rest = others;
    }
    Ok(branches)
}

/// The header of a `case`.
fn case_header(alloc: Global, word: &Word, items: &[CaseItem]) -> Result<Header, NoMemory>
    ensures { IfOk result (λ header. header ≡ case_header word.now items.now) }
{
    let word = word.parts.share()?;
    let branches = branches_of(alloc, items)?;
    Ok(Header { word, branches })
}

/// The header of a compound command, if that is a `case`.
fn header_in(alloc: Global, form: &CompoundForm) -> Result<Option<Header>, NoMemory>
    ensures { IfOk result (λ h. h ≡ header_in (view.out-CompoundForm form.now)) }
{
    match form {
        CompoundForm::Group(_) => Ok(None),
        CompoundForm::Subshell(_) => Ok(None),
        CompoundForm::If { .. } => Ok(None),
        CompoundForm::Loop { .. } => Ok(None),
        CompoundForm::For { .. } => Ok(None),
        CompoundForm::ForParameters { .. } => Ok(None),
        CompoundForm::Case { word, items } => {
            let found = case_header(alloc, word, items.as_slice())?;
            Ok(Some(found))
        },
    }
}

/// The header of a command, if that is a `case`.
#[tactic(auto, unfolding(crate::specs::Cases::header_of))]
fn header_of(alloc: Global, command: &Command) -> Result<Option<Header>, NoMemory>
    ensures { IfOk result (λ h. h ≡ header_of command.now) }
{
    match command {
        Command::Simple(_) => Ok(None),
        Command::Compound(compound) => header_in(alloc, &compound.get().form),
        Command::Function { .. } => Ok(None),
    }
}

/// What a `case` goes on with: its next pattern, or its end, with 0, where none is left.
fn next_branch(word: Text, branches: Queue<CaseBranch>) -> Active
    ensures { result ≡ next_branch word branches }
{
    if branches.is_empty() {
        return Active::Done(CommandStatus::unexcused(0));
    }
    let case = Case { word, branches };
    Active::Next(Action::Expanding(ToExpand::CasePattern(case), None))
}

/// What a `case` goes on with once its word has come to these fields.
fn first_branch(
    alloc: Global,
    fields: Sequence<Text>,
    branches: Sequence<CaseBranch>,
) -> Result<Expanded, NoMemory>
    ensures { IfOk result (λ e. e ≡ Expanded.Go (Move.At (next_branch (text_of fields) branches))) }
{
    let word = Text::copy_of(alloc, text_of(fields.as_slice()))?;
    drop(fields);
    let active = next_branch(word, Queue::new(branches));
    Ok(Expanded::Go(Move::At(active)))
}

/// A word that gives one text, to be expanded.
fn single(alloc: Global, word: Shared<Parts>) -> Result<Sequence<Wanted>, NoMemory>
    ensures { IfOk result (λ wanted. wanted ≡ single word ∷ []) }
{
    let mut wanted = Sequence::new(alloc);
    wanted.push(Wanted {
        parts: word,
        context: Context::Single,
    })?;
    Ok(wanted)
}

/// The word of a `case` is expanded.
fn expand_word(
    alloc: Global,
    command: Shared<Command>,
    header: Header,
    pending: Option<Pending>,
    vars: &mut Vars,
    files: &Files,
) -> Result<Expanded, NoMemory>
    ensures { IfOk result (λ e.
        record { environment = vars.new; outcome = e } ≡ word_from files.now command header.branches
        (start_of vars.old (single header.word ∷ []) pending)) }
{
    let Header { word, branches } = header;
    let wanted = single(alloc, word)?;
    match expand(alloc, wanted, pending, vars, files)? {
        Progress::Need { program, pending } => Ok(Expanded::Need {
            program,
            wants: ToExpand::CaseWord(command),
            pending,
        }),
        Progress::Fields(fields) => first_branch(alloc, fields, branches),
        Progress::Fault(fault) => fail(alloc, fault),
    }
}

/// The turn of the word of a `case` (XCU 2.9.4.3), with the answers so far. The only error is want of memory; what the variables
/// are then is left open.
#[tactic(auto, unfolding(crate::specs::Cases::case_turn))]
pub fn case_turn(
    alloc: Global,
    command: Shared<Command>,
    pending: Option<Pending>,
    vars: &mut Vars,
    files: &Files,
) -> Result<Expanded, NoMemory>
    ensures { IfOk result (λ e.
        record { environment = vars.new; outcome = e } ≡ case_turn files.now vars.old command
        pending) }
{
    let Some(header) = header_of(alloc, command.get())? else {
        return Ok(Expanded::Go(Move::At(Active::Done(CommandStatus::unexcused(0)))));
    };
    expand_word(alloc, command, header, pending, vars, files)
}

/// Whether a pattern matches a text (2.14.1).
fn is_match(pattern: &[PatternByte], text: &[u8]) -> bool
    ensures { result ≡ is_match pattern.now text.now }
{
    matches(pattern, text)
}

/// Where a `case` goes on whose next pattern is this one.
fn tried(
    word: Text,
    branch: CaseBranch,
    branches: Queue<CaseBranch>,
    pattern: &[PatternByte],
) -> Move
    ensures { result ≡ tried word branch branches pattern.now }
{
    if is_match(pattern, word.as_slice()) {
        return Move::Enter(branch.body);
    }
    Move::At(next_branch(word, branches))
}

/// A pattern is expanded from where its expansion waits, or from its beginning where it doesn't wait.
fn expand_pattern(
    alloc: Global,
    pattern: Shared<Parts>,
    pending: Option<Pending>,
    vars: &mut Vars,
    files: &Files,
) -> Result<PatternProgress, NoMemory>
    ensures result { IfOk result (λ p.
        patterned_by p vars.new ≡ pattern_from (start_of vars.old (single pattern ∷ []) pending)) }
    ensures kept { IfOk result (λ p.
        IsPatternKept p (start_of vars.old (single pattern ∷ []) pending)) }
{
    let wanted = single(alloc, pattern)?;
    match pending {
        Some(pending) => Ok(pending.resume_pattern(alloc, vars, files)?),
        None => Ok(Pending::begin_pattern(alloc, wanted, vars, files)?),
    }
}

/// The next pattern of a `case` is expanded, and tried.
fn expand_branch(
    alloc: Global,
    word: Text,
    branch: CaseBranch,
    branches: Queue<CaseBranch>,
    pending: Option<Pending>,
    vars: &mut Vars,
    files: &Files,
) -> Result<Expanded, NoMemory>
    ensures { IfOk result (λ e.
        record { environment = vars.new; outcome = e } ≡ branch_from word branch branches
        (start_of vars.old (single branch.pattern ∷ []) pending)) }
{
    let pattern = branch.pattern.share()?;
    match expand_pattern(alloc, pattern, pending, vars, files)? {
        PatternProgress::Need { program, pending } => {
            let mut branches = branches;
            branches.put_front(branch)?;
            Ok(Expanded::Need {
                program,
                wants: ToExpand::CasePattern(Case { word, branches }),
                pending,
            })
        },
        PatternProgress::Pattern(pattern) => {
            Ok(Expanded::Go(tried(word, branch, branches, pattern.as_slice())))
        },
        PatternProgress::Fault(fault) => fail(alloc, fault),
    }
}

/// The turn of the next pattern of a `case` (2.9.4.3), with the answers so far: where it matches the word, its list is entered.
/// The only error is want of memory; what the variables are then is left open.
#[tactic(auto, unfolding(crate::specs::Cases::pattern_turn))]
pub fn pattern_turn(
    alloc: Global,
    case: Case,
    pending: Option<Pending>,
    vars: &mut Vars,
    files: &Files,
) -> Result<Expanded, NoMemory>
    ensures { IfOk result (λ e.
        record { environment = vars.new; outcome = e } ≡ pattern_turn vars.old case pending) }
{
    let Case { word, branches } = case;
    let mut branches = branches;
    let Some(branch) = branches.take() else {
        return Ok(Expanded::Go(Move::At(Active::Done(CommandStatus::unexcused(0)))));
    };
    expand_branch(alloc, word, branch, branches, pending, vars, files)
}
