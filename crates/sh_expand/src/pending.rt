//! An expansion that waits for an answer from one turn of its shell to another one.
ghost use Rattle.std.specs.Prelude.{◌≡◌, ◌++◌, ◌∷◌, [], ℕ, List, IfOk};
ghost use Rattle.sh_expand.specs.Answers.{expansion_with, pattern_with};
ghost use Rattle.sh_expand.specs.FieldProgress.{pattern_in};
ghost use Rattle.sh_expand.specs.Pendings.{IsAnswered, IsKept, IsNeeding, IsPatternKept, pattern_progress_of, patterned_by, progress_of, result_of};
ghost use Rattle.sh_expand.specs.Waiting.{IsWaiting};
ghost use Rattle.sh_vars.specs.Environment.{Environment};

use crate::expansion::{Expansion, Step};
use crate::wanted::Wanted;
use sh_base::sequence::{Sequence, Text, copies_of};
use sh_base::shared::Shared;
use sh_expand_parts::Fault;
use sh_files::Files;
use sh_pattern::PatternByte;
use sh_syntax::tree::CompoundList;
use sh_vars::Vars;
use std::alloc::{AllocError, Global};
use std::marker::Model;

/// Words whose expansion has come to a command substitution (XCU 2.6.3): it goes on from there once what the program writes is known.
///
/// A contract sees the words, the shell's variables at the start, and the answers so far. What was done before isn't done again: the
/// expansion is kept as it stands, and the variables as they were then.
#[derive(Drop)]
pub struct Pending {
    kept: Box<Kept>,
}

/// What is kept of an expansion that waits. It is large, and what waits is handed on in each turn: so it stands in a box.
#[derive(Drop)]
struct Kept {
    program: Shared<CompoundList>,
    expansion: Expansion,
    start: Vars,
    /// The variables that the expansion has reached.
    vars: Vars,
    answers: Sequence<Text>,
    /// How many of the answers the expansion has had.
    taken: usize,
}

impl Model for Pending {
    ghost use Rattle.std.specs.Coded.{codes};
    ghost use Rattle.std.specs.Prelude.{◌≤◌, length, take};
    ghost use Rattle.sh_expand.specs.Answers.{Pending};
    ghost use Rattle.sh_expand.specs.Waiting.{IsWaiting};
    ghost use Rattle.sh_vars.specs.Codes.{map_code};
    ghost use Rattle.sh_syntax.specs.contracts.tree.Parts as parts_row;

    ghost Value = { Pending };

    ghost coded = { Prim.hlevel (codes, map_code, parts_row.the_row.coded) };

    ghost view = { λ p.
        record { words = p.kept.value.expansion.words.words; start = p.kept.value.start; answers = p.kept.value.answers } };

    ghost invariant = { λ p.
        IsWaiting p.kept.value.program p.kept.value.expansion p.kept.value.vars p.kept.value.start (take p.kept.value.taken p.kept.value.answers)
        × (p.kept.value.taken ≤ length p.kept.value.answers) };
}

/// What an expansion to fields comes to in a turn.
#[derive(Drop)]
pub enum Progress {
    /// What this program writes is needed, and the expansion waits for it.
    Need {
        program: Shared<CompoundList>,
        pending: Pending,
    },
    /// The fields of the words, in their order.
    Fields(Sequence<Text>),
    /// The words can't be expanded. What was assigned before the fault stays.
    Fault(Fault),
}

/// What an expansion to a pattern comes to in a turn.
#[derive(Drop)]
pub enum PatternProgress {
    /// What this program writes is needed, and the expansion waits for it.
    Need {
        program: Shared<CompoundList>,
        pending: Pending,
    },
    /// The pattern, whose quoted bytes are literal.
    Pattern(Sequence<PatternByte>),
    /// The word can't be expanded. What was assigned before the fault stays.
    Fault(Fault),
}

/// An expansion, and the step to which it has come.
#[derive(Drop)]
pub(crate) struct Reached {
    expansion: Expansion,
    step: Step,
}

/// Where an expansion comes that begins, without answers.
#[tactic(auto, using(crate::proofs::Waiting::begun))]
fn begun(
    alloc: Global,
    words: Sequence<Wanted>,
    vars: &mut Vars,
    files: &Files,
) -> Result<Reached, AllocError>
    ensures { IfOk result (λ r. IsAnswered files.now r.step r.expansion vars.new words vars.old []) }
{
    let (expansion, step) = Expansion::start(alloc, words, vars, files)?;
    Ok(Reached { expansion, step })
}

/// Where an expansion comes that waits for this program's output, with these answers more.
fn go_through(
    alloc: Global,
    program: Shared<CompoundList>,
    expansion: Expansion,
    answers: &[Text],
    vars: &mut Vars,
    files: &Files,
) -> Result<Reached, AllocError>
    ensures { (start : Environment) (given : List (List ℕ))
        → IsWaiting program expansion vars.old start given → IfOk result (λ r.
        IsAnswered files.now r.step r.expansion vars.new expansion.words.words start
        (given ++ answers.now)) }
{
    let mut expansion = expansion;
    let mut step = Step::Need(program);
    let mut rest = answers;
    'answers: while let Some((answer, others)) = rest.split_first() {
        let Step::Need(_) = step else {
            return Ok(Reached { expansion, step });
        };
        step = expansion.resume(alloc, answer.as_slice(), vars, files)?;
        rest = others;
    }
    Ok(Reached { expansion, step })
}

/// An expansion that waits for this program's output, once it has had these answers.
fn waiting(
    alloc: Global,
    program: &Shared<CompoundList>,
    expansion: Expansion,
    start: Vars,
    answers: Sequence<Text>,
    vars: &Vars,
) -> Result<Pending, AllocError>
    requires { IsWaiting program.now expansion vars.now start answers }
    ensures { IfOk result (λ p.
        p ≡ record { words = expansion.words.words; start = start; answers = answers }) }
{
    let taken = answers.len();
    let kept = Kept {
        program: program.share()?,
        expansion,
        start,
        vars: vars.copy()?,
        answers,
        taken,
    };
    Ok(Pending {
        kept: Box::new(alloc, kept)?,
    })
}

/// What an expansion to fields comes to that has come to this step.
fn fields(
    alloc: Global,
    reached: Reached,
    start: Vars,
    answers: Sequence<Text>,
    vars: &Vars,
) -> Result<Progress, AllocError>
    requires { IsNeeding reached.step reached.expansion vars.now start answers }
    ensures { IfOk result (λ p.
        p ≡ progress_of reached.step
        (record { words = reached.expansion.words.words; start = start; answers = answers })) }
{
    let Reached { expansion, step } = reached;
    match step {
        Step::Need(program) => {
            let pending = waiting(alloc, &program, expansion, start, answers, vars)?;
            Ok(Progress::Need { program, pending })
        }
        Step::Fields(fields) => Ok(Progress::Fields(fields)),
        Step::Fault(fault) => Ok(Progress::Fault(fault)),
    }
}

/// What an expansion to a pattern comes to that has come to this step.
fn pattern(
    alloc: Global,
    reached: Reached,
    start: Vars,
    answers: Sequence<Text>,
    vars: &Vars,
) -> Result<PatternProgress, AllocError>
    requires { IsNeeding reached.step reached.expansion vars.now start answers }
    ensures { IfOk result (λ p.
        p ≡ pattern_progress_of reached.step (pattern_in reached.expansion)
        (record { words = reached.expansion.words.words; start = start; answers = answers })) }
{
    let Reached { expansion, step } = reached;
    match step {
        Step::Need(program) => {
            let pending = waiting(alloc, &program, expansion, start, answers, vars)?;
            Ok(PatternProgress::Need { program, pending })
        }
        Step::Fields(_) => {
            let pattern = expansion.pattern(alloc)?;
            Ok(PatternProgress::Pattern(Sequence::from_vec(pattern)))
        }
        Step::Fault(fault) => Ok(PatternProgress::Fault(fault)),
    }
}

impl Pending {
    ghost use Rattle.sh_expand.specs.Answers.{expansion_with, fields_in, pattern_from, pattern_with};
    ghost use Rattle.sh_expand.specs.Pendings.{IsKept, IsPatternKept, patterned_by, result_of};

    /// Begins the expansion of words to fields, in these files (XCU 2.6). The only error is want of memory; what the variables are
    /// then is left open.
    #[tactic(auto, using(crate::proofs::Waiting::told))]
    pub fn begin(
        alloc: Global,
        words: Sequence<Wanted>,
        vars: &mut Vars,
        files: &Files,
    ) -> Result<Progress, AllocError>
        ensures result { IfOk result (λ p.
            result_of p vars.new ≡ expansion_with files.now words vars.old []) }
        ensures kept { IfOk result (λ p.
            IsKept p (record { words = words; start = vars.old; answers = [] })) }
    {
        let start = vars.copy()?;
        let reached = begun(alloc, words, vars, files)?;
        fields(alloc, reached, start, Sequence::new(alloc), vars)
    }

    /// Goes on with the expansion to fields, with the answers that it has not had yet, in the files as they are now. The variables
    /// are first those that were reached. The only error is want of memory; what the variables are then is left open.
    pub fn resume(
        self,
        alloc: Global,
        vars: &mut Vars,
        files: &Files,
    ) -> Result<Progress, AllocError>
        ensures result { IfOk result (λ p. result_of p vars.new ≡ fields_in files.now self) }
        ensures kept { IfOk result (λ p. IsKept p self) }
    {
        let Kept {
            program,
            expansion,
            start,
            vars: reached,
            answers,
            taken,
        } = Box::into_inner(self.kept);
        *vars = reached;
        let more = &answers.as_slice()[taken..];
        let reached = go_through(alloc, program, expansion, more, vars, files)?;
        fields(alloc, reached, start, answers, vars)
    }

    /// Begins the expansion of words, the first of which is a pattern (XCU 2.9.4.3, 2.14.1). The only error is want of memory; what
    /// the variables are then is left open.
    #[tactic(auto, using(crate::proofs::Waiting::patterned))]
    pub fn begin_pattern(
        alloc: Global,
        words: Sequence<Wanted>,
        vars: &mut Vars,
        files: &Files,
    ) -> Result<PatternProgress, AllocError>
        ensures result { IfOk result (λ p. patterned_by p vars.new ≡ pattern_with words vars.old []) }
        ensures kept { IfOk result (λ p.
            IsPatternKept p (record { words = words; start = vars.old; answers = [] })) }
    {
        let start = vars.copy()?;
        let reached = begun(alloc, words, vars, files)?;
        pattern(alloc, reached, start, Sequence::new(alloc), vars)
    }

    /// Goes on with the expansion to a pattern, as [`Pending::resume`] does to fields. Files are of no account, as pathnames aren't
    /// expanded in a pattern.
    pub fn resume_pattern(
        self,
        alloc: Global,
        vars: &mut Vars,
        files: &Files,
    ) -> Result<PatternProgress, AllocError>
        ensures result { IfOk result (λ p. patterned_by p vars.new ≡ pattern_from self) }
        ensures kept { IfOk result (λ p. IsPatternKept p self) }
    {
        let Kept {
            program,
            expansion,
            start,
            vars: reached,
            answers,
            taken,
        } = Box::into_inner(self.kept);
        *vars = reached;
        let more = &answers.as_slice()[taken..];
        let reached = go_through(alloc, program, expansion, more, vars, files)?;
        pattern(alloc, reached, start, answers, vars)
    }

    /// The expansion with one answer more: what the program wrote that is needed. The only error is want of memory, with which the
    /// expansion is given up.
    pub fn answer(self, answer: Text) -> Result<Pending, AllocError>
        ensures { IfOk result (λ next.
            next ≡ record self { answers = self.answers ++ answer ∷ [] }) }
    {
        let mut kept = self.kept;
        kept.answers.push(answer)?;
        Ok(Pending { kept })
    }

    /// A copy. The only error is want of memory.
    pub fn copy(&self, alloc: Global) -> Result<Pending, AllocError>
        ensures { IfOk result (λ copy. copy ≡ self.now) }
    {
        let kept = Kept {
            program: self.kept.program.share()?,
            expansion: self.kept.expansion.copy(alloc)?,
            start: self.kept.start.copy()?,
            vars: self.kept.vars.copy()?,
            answers: Sequence::from_vec(copies_of(alloc, self.kept.answers.as_slice())?),
            taken: self.kept.taken,
        };
        Ok(Pending {
            kept: Box::new(alloc, kept)?,
        })
    }
}
