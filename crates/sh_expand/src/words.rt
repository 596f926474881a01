//! An expansion that stops where an answer is needed, and goes on from there.
ghost use Rattle.std.specs.Prelude.{◌≡◌, ◌++◌, ◌∷◌, ◌+◌, ◌<◌, ◌≤◌, [], ℕ, List, length, IfOk, OnOk, None};
ghost use Rattle.sh_vars.specs.Environment.{Environment};
ghost use Rattle.sh_expand_parts.specs.Drafts.{nothing};
ghost use Rattle.sh_expand.specs.Expansion.{Done, closes};
ghost use Rattle.sh_expand.specs.Parts.{parts_of};
ghost use Rattle.sh_expand.specs.declared.wanted.Wanted.{Wanted};
ghost use Rattle.sh_expand.specs.Weights.{parts_weight};

use crate::part::{Act, begin};
use crate::place::Place;
use crate::wanted::Wanted;
use sh_base::sequence::Sequence;
use sh_base::shared::Shared;
use sh_expand_parts::{Closed, Context, Draft, ExpandedWord, Fault, Purpose, answer_items, close};
use sh_syntax::tree::{CompoundList, Parts};
use sh_vars::Vars;
use std::alloc::{AllocError, Global};

/// A word that is begun. Its parts from index `at` on are left to do; `purpose` is what its end does. `saved`
/// has what is before it in the word around it.
#[derive(Drop)]
pub struct Frame {
    parts: Shared<Parts>,
    at: usize,
    context: Context,
    purpose: Purpose,
    saved: Draft,
}

/// An expansion of words that has begun, up to the items of the words.
#[derive(Drop)]
pub struct WordExpansion {
    words: Sequence<Wanted>,
    next: usize,
    frames: Sequence<Frame>,
    draft: Draft,
    done: Sequence<ExpandedWord>,
    asked: Context,
}

/// What an expansion of words needs next, or how it ends.
#[derive(Drop)]
pub enum Step {
    /// The output of this program is needed.
    Need(Shared<CompoundList>),
    /// The words are expanded.
    Words,
    /// The words can't be expanded.
    Fault(Fault),
}

impl Frame {
    ghost use Rattle.sh_expand.specs.WordProgress.{left_of, place_of};

    /// The place of the frame's next part.
    fn place(&self) -> Place
        requires { self.now.at < length (parts_of self.now.parts) }
        ensures { result ≡ place_of self.now }
    {
        let count = self.parts.get().items.len();
        Place {
            context: self.context,
            first: self.at == 0,
            last: self.at + 1 == count,
        }
    }

    /// A copy.
    fn copy(&self, alloc: Global) -> Result<Frame, AllocError>
        ensures { IfOk result (λ copy. copy ≡ self.now) }
    {
        Ok(Frame {
            parts: self.parts.share()?,
            at: self.at,
            context: self.context,
            purpose: self.purpose.copy(alloc)?,
            saved: self.saved.copy(alloc)?,
        })
    }
}

/// Copies of words that are to be expanded, in order.
fn copy_wanted(alloc: Global, words: &[Wanted]) -> Result<Sequence<Wanted>, AllocError>
    ensures { IfOk result (λ copies. copies ≡ words.now) }
{
    let mut copies = Sequence::new(alloc);
    for word in words {
        copies.push(Wanted {
            parts: word.parts.share()?,
            context: word.context,
        })?;
    }
    Ok(copies)
}

/// Copies of words that are begun, in order.
fn copy_frames(alloc: Global, frames: &[Frame]) -> Result<Sequence<Frame>, AllocError>
    ensures { IfOk result (λ copies. copies ≡ frames.now) }
{
    let mut copies = Sequence::new(alloc);
    for frame in frames {
        copies.push(frame.copy(alloc)?)?;
    }
    Ok(copies)
}

/// Copies of words that are expanded, in order.
fn copy_words(alloc: Global, words: &[ExpandedWord]) -> Result<Sequence<ExpandedWord>, AllocError>
    ensures { IfOk result (λ copies. copies ≡ words.now) }
{
    let mut copies = Sequence::new(alloc);
    for word in words {
        copies.push(word.copy(alloc)?)?;
    }
    Ok(copies)
}

impl WordExpansion {
    ghost use Rattle.sh_expand.specs.WordProgress.{IsStep, Waits, act_weight, entered_frame, inputs, left_of, outcome_after, outcome_at, outcome_closed, outcome_of, rest, run_frame, state_of, weight};

    /// Ends a word inside another one, or a word of its own.
    fn end(
        &mut self,
        alloc: Global,
        vars: &mut Vars,
        purpose: Purpose,
        saved: Draft,
    ) -> Result<Option<Fault>, AllocError>
        ensures outcome { IfOk result (λ f.
            (bs : List (List ℕ)) → outcome_closed f self.new vars.new bs ≡ closes purpose saved
            (state_of self.old vars.old bs)) }
        ensures frames { self.new.frames ≡ self.old.frames }
        ensures words { self.new.words ≡ self.old.words }
        ensures next { self.new.next ≡ self.old.next }
    {
        let inner = std::mem::replace(&mut self.draft, Draft::new(alloc));
        match close(alloc, vars, purpose, saved, inner)? {
            Closed::Goes(draft) => {
                self.draft = draft;
                Ok(None)
            }
            Closed::Ends(word) => {
                self.done.push(word)?;
                Ok(None)
            }
            Closed::Fails(fault) => Ok(Some(fault)),
        }
    }

    /// Begins a word, or one inside another. What the word so far has is set aside.
    fn enter(
        &mut self,
        alloc: Global,
        parts: Shared<Parts>,
        purpose: Purpose,
        context: Context,
    ) -> Result<(), AllocError>
        ensures frames { OnOk result
            (self.new.frames ≡ self.old.frames ++ entered_frame parts purpose context
            self.old.draft ∷ []) }
        ensures draft { OnOk result (self.new.draft ≡ nothing) }
        ensures words { self.new.words ≡ self.old.words }
        ensures next { self.new.next ≡ self.old.next }
        ensures done { self.new.done ≡ self.old.done }
    {
        let saved = std::mem::replace(&mut self.draft, Draft::new(alloc));
        self.frames.push(Frame {
            parts,
            at: 0,
            context,
            purpose,
            saved,
        })?;
        Ok(())
    }

    /// Begins the next word, if there is one.
    fn next_word(&mut self, alloc: Global) -> Result<Option<Step>, AllocError>
        requires { self.old.frames ≡ [] }
        ensures outcome { IfOk result (λ s.
            (env : Environment) (bs : List (List ℕ)) → outcome_after s self.new env bs
            ≡ rest self.old (Done (state_of self.old env bs))) }
        ensures smaller { IfOk result (λ s. s ≡ None → weight self.new < weight self.old) }
        ensures words { IfOk result (λ s. self.new.words ≡ self.old.words) }
    {
        let Some(word) = self.words.as_slice().get(self.next) else {
            return Ok(Some(Step::Words));
        };
        let parts = word.parts.share()?;
        let context = word.context;
        self.next += 1;
        self.enter(alloc, parts, Purpose::Word { context }, context)?;
        Ok(None)
    }

    /// Goes on after a part was begun. Its frame is already after that part.
    fn advance(&mut self, alloc: Global, act: Act) -> Result<Option<Step>, AllocError>
        ensures outcome { IfOk result (λ s.
            (env : Environment) (bs : List (List ℕ)) → outcome_after s self.new env bs
            ≡ rest self.old (outcome_at act (state_of self.old env bs))) }
        ensures smaller { IfOk result (λ s.
            s ≡ None → weight self.new ≡ weight self.old + act_weight act) }
        ensures words { IfOk result (λ s. self.new.words ≡ self.old.words) }
    {
        match act {
            Act::Went => Ok(None),
            Act::Enter {
                word,
                purpose,
                context,
            } => {
                self.enter(alloc, word, purpose, context)?;
                Ok(None)
            }
            Act::Ask { program, context } => {
                self.asked = context;
                Ok(Some(Step::Need(program)))
            }
            Act::Fail(fault) => Ok(Some(Step::Fault(fault))),
        }
    }

    /// Ends the word of a frame that was taken off the stack.
    fn close_frame(
        &mut self,
        alloc: Global,
        vars: &mut Vars,
        frame: Frame,
    ) -> Result<Option<Step>, AllocError>
        requires { length (parts_of frame.parts) ≤ frame.at }
        ensures outcome { IfOk result (λ s.
            (bs : List (List ℕ)) → outcome_after s self.new vars.new bs
            ≡ rest self.old (run_frame frame (state_of self.old vars.old bs))) }
        ensures smaller { IfOk result (λ s. weight self.new ≡ weight self.old) }
        ensures words { IfOk result (λ s. self.new.words ≡ self.old.words) }
    {
        let Some(fault) = self.end(alloc, vars, frame.purpose, frame.saved)? else {
            return Ok(None);
        };
        Ok(Some(Step::Fault(fault)))
    }

    /// Begins the next part of a frame that was taken off the stack.
    fn take_part(
        &mut self,
        alloc: Global,
        vars: &Vars,
        frame: Frame,
    ) -> Result<Option<Step>, AllocError>
        requires { frame.at < length (parts_of frame.parts) }
        ensures outcome { IfOk result (λ s.
            (bs : List (List ℕ)) → outcome_after s self.new vars.now bs
            ≡ rest self.old (run_frame frame (state_of self.old vars.now bs))) }
        ensures smaller { IfOk result (λ s.
            s ≡ None → weight self.new < weight self.old + (1 + parts_weight (left_of frame))) }
        ensures words { IfOk result (λ s. self.new.words ≡ self.old.words) }
    {
        let place = frame.place();
        let act = begin(
            alloc,
            &frame.parts.get().items.as_slice()[frame.at],
            place,
            &mut self.draft,
            vars,
        )?;
        self.frames.push(Frame {
            parts: frame.parts,
            at: frame.at + 1,
            context: frame.context,
            purpose: frame.purpose,
            saved: frame.saved,
        })?;
        let step = self.advance(alloc, act)?;
        Ok(step)
    }

    /// One turn: the next part of the innermost word, or its end, or the next word.
    fn turn(&mut self, alloc: Global, vars: &mut Vars) -> Result<Option<Step>, AllocError>
        ensures outcome { IfOk result (λ s.
            (bs : List (List ℕ)) → outcome_after s self.new vars.new bs
            ≡ rest self.old (Done (state_of self.old vars.old bs))) }
        ensures smaller { IfOk result (λ s. s ≡ None → weight self.new < weight self.old) }
        ensures words { IfOk result (λ s. self.new.words ≡ self.old.words) }
    {
        let Some(frame) = self.frames.pop() else {
            return self.next_word(alloc);
        };
        if frame.at < frame.parts.get().items.len() {
            let step = self.take_part(alloc, vars, frame)?;
            return Ok(step);
        }
        let step = self.close_frame(alloc, vars, frame)?;
        Ok(step)
    }

    /// Goes on to the next answer that is needed, or to the end.
    fn go(&mut self, alloc: Global, vars: &mut Vars) -> Result<Step, AllocError>
        ensures outcome { IfOk result (λ s.
            (bs : List (List ℕ)) → outcome_of s self.new vars.new bs
            ≡ rest self.old (Done (state_of self.old vars.old bs))) }
        ensures words { IfOk result (λ s. self.new.words ≡ self.old.words) }
    {
        loop {
            if let Some(step) = self.turn(alloc, vars)? {
                return Ok(step);
            }
        }
    }

    /// Begins the expansion of words, in order, and goes on until an answer is needed or it ends (XCU 2.6).
    ///
    /// The only error is want of memory, after which the variables are left open.
    pub fn start(
        alloc: Global,
        words: Sequence<Wanted>,
        vars: &mut Vars,
    ) -> Result<(WordExpansion, Step), AllocError>
        ensures step { IfOk result (λ r. IsStep r.1 r.0 vars.new (inputs words vars.old [])) }
        ensures words { IfOk result (λ r. r.0.words ≡ words) }
    {
        let mut expansion = WordExpansion {
            words,
            next: 0,
            frames: Sequence::new(alloc),
            draft: Draft::new(alloc),
            done: Sequence::new(alloc),
            asked: Context::Fields,
        };
        let step = expansion.go(alloc, vars)?;
        Ok((expansion, step))
    }

    /// Goes on with the answer that is needed: what the program wrote. The variables have to be as they were
    /// when the answer was asked for.
    ///
    /// The only error is want of memory, after which the expansion and the variables are left open.
    pub fn resume(
        &mut self,
        alloc: Global,
        answer: &[u8],
        vars: &mut Vars,
    ) -> Result<Step, AllocError>
        ensures step { (words : List Wanted) (before : Environment) (given : List (List ℕ))
            → Waits self.old vars.old words before given → IfOk result (λ s.
            IsStep s self.new vars.new (inputs words before (given ++ answer.now ∷ []))) }
        ensures words { IfOk result (λ s. self.new.words ≡ self.old.words) }
    {
        let items = answer_items(alloc, self.asked, answer)?;
        self.draft.append(&items)?;
        let step = self.go(alloc, vars)?;
        Ok(step)
    }

    /// A copy. The only error is want of memory.
    pub fn copy(&self, alloc: Global) -> Result<WordExpansion, AllocError>
        ensures { IfOk result (λ copy. copy ≡ self.now) }
    {
        Ok(WordExpansion {
            words: copy_wanted(alloc, self.words.as_slice())?,
            next: self.next,
            frames: copy_frames(alloc, self.frames.as_slice())?,
            draft: self.draft.copy(alloc)?,
            done: copy_words(alloc, self.done.as_slice())?,
            asked: self.asked,
        })
    }

    /// The words that are expanded so far, in their order.
    pub fn words(&self) -> &[ExpandedWord]
        ensures { result.now ≡ self.now.done }
    {
        self.done.as_slice()
    }
}
