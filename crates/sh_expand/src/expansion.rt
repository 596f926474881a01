//! Expansion to fields, which stops where an answer is needed and goes on from there.
ghost use Rattle.std.specs.Prelude.{◌≡◌, ◌++◌, ◌∷◌, [], ℕ, List, IfOk};
ghost use Rattle.sh_vars.specs.Environment.{Environment};
ghost use Rattle.sh_expand.specs.declared.wanted.Wanted.{Wanted};
ghost use Rattle.sh_expand.specs.WordProgress as words_stand;
ghost use Rattle.sh_expand.specs.WordProgress.{inputs};
ghost use Rattle.sh_expand.specs.FieldProgress.{IsStep};

use crate::fields::all_fields;
use crate::wanted::Wanted;
use crate::words::{self, WordExpansion};
use sh_base::sequence::{Sequence, Text};
use sh_base::shared::Shared;
use sh_expand_fields::pattern_of;
use sh_expand_parts::Fault;
use sh_files::Files;
use sh_pattern::PatternByte;
use sh_syntax::tree::CompoundList;
use sh_vars::Vars;
use std::alloc::{AllocError, Global};

/// What an expansion needs next, or its result.
#[derive(Drop)]
pub enum Step {
    /// The output of this program is needed (XCU 2.6.3): [`Expansion::resume`] takes it.
    Need(Shared<CompoundList>),
    /// The fields of the words, in their order. A word for another context than `Fields` gives one field.
    Fields(Sequence<Text>),
    /// The words can't be expanded. What was assigned before the fault stays.
    Fault(Fault),
}

/// An expansion of words that has begun.
#[derive(Drop)]
pub struct Expansion {
    words: WordExpansion,
}

/// The step of the expansion to fields, from the step of its words.
fn finish(
    alloc: Global,
    step: words::Step,
    words: &WordExpansion,
    vars: &Vars,
    files: &Files,
) -> Result<Step, AllocError>
    ensures { IfOk result (λ s.
        (wanted : List Wanted) (before : Environment) (given : List (List ℕ))
        → words_stand.IsStep step words.now vars.now (inputs wanted before given)
        → IsStep files.now s (record { words = words.now }) vars.now (inputs wanted before given)) }
{
    match step {
        words::Step::Need(program) => Ok(Step::Need(program)),
        words::Step::Words => {
            let fields = all_fields(alloc, vars, files, words.words())?;
            Ok(Step::Fields(fields))
        }
        words::Step::Fault(fault) => Ok(Step::Fault(fault)),
    }
}

impl Expansion {
    ghost use Rattle.sh_expand.specs.FieldProgress.{IsStep, Waits, pattern_in};
    ghost use Rattle.sh_expand.specs.WordProgress.{inputs};

    /// Begins the expansion of words, in order, and goes on until an answer is needed or it ends (XCU 2.6).
    ///
    /// All words are expanded before the first is split into fields. After a fault what was assigned before
    /// it stays. The only error is want of memory, after which the variables are left open.
    pub fn start(
        alloc: Global,
        words: Sequence<Wanted>,
        vars: &mut Vars,
        files: &Files,
    ) -> Result<(Expansion, Step), AllocError>
        ensures step { IfOk result (λ r.
            IsStep files.now r.1 r.0 vars.new (inputs words vars.old [])) }
        ensures words { IfOk result (λ r. r.0.words.words ≡ words) }
    {
        let (words, step) = WordExpansion::start(alloc, words, vars)?;
        let step = finish(alloc, step, &words, vars, files)?;
        Ok((Expansion { words }, step))
    }

    /// Goes on with the answer that is needed: what the program wrote. The variables have to be as they were
    /// when the answer was asked for. The files may have changed. Nothing that was done before is done again.
    ///
    /// The only error is want of memory, after which the expansion and the variables are left open.
    pub fn resume(
        &mut self,
        alloc: Global,
        answer: &[u8],
        vars: &mut Vars,
        files: &Files,
    ) -> Result<Step, AllocError>
        ensures step { (wanted : List Wanted) (before : Environment) (given : List (List ℕ))
            → Waits self.old vars.old wanted before given → IfOk result (λ s.
            IsStep files.now s self.new vars.new (inputs wanted before (given ++ answer.now ∷ []))) }
        ensures words { IfOk result (λ s. self.new.words.words ≡ self.old.words.words) }
    {
        let step = self.words.resume(alloc, answer, vars)?;
        let step = finish(alloc, step, &self.words, vars, files)?;
        Ok(step)
    }

    /// A copy. The only error is want of memory.
    pub fn copy(&self, alloc: Global) -> Result<Expansion, AllocError>
        ensures { IfOk result (λ copy. copy ≡ self.now) }
    {
        Ok(Expansion {
            words: self.words.copy(alloc)?,
        })
    }

    /// The first of the expanded words as a pattern (XCU 2.9.4.3, 2.14.1): its quoted bytes are literal. The
    /// pattern is empty where no word is expanded. The only error is want of memory.
    pub fn pattern(&self, alloc: Global) -> Result<Vec<PatternByte>, AllocError>
        ensures { IfOk result (λ pattern. pattern.items ≡ pattern_in self.now) }
    {
        let Some(word) = self.words.words().first() else {
            return Ok(Vec::new(alloc));
        };
        let pattern = pattern_of(alloc, word.items.as_slice())?;
        Ok(pattern)
    }
}
