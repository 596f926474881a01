//! The parts of a word, put together piece by piece.
ghost use Rattle.std.specs.Prelude.{◌≡◌, ◌++◌, ◌∷◌, [], suc, ◌-◌, not, nat_eq, if◌then◌else◌, Err, IfOk, OnOk, None, Some, Ok, option_map};
ghost use Rattle.sh_syntax.specs.declared.tree.Part.{Part as PartTree};
ghost use Rattle.sh_parse_words.specs.Parameters.{braces_of, short};
ghost use Rattle.sh_parse_words.specs.declared.fault.PartFault.TheVariants as fault;
ghost use Rattle.sh_parse_words.specs.declared.build.Form.TheVariants as form;
ghost use Rattle.sh_parse_words.specs.Building.{Building, Takes, empty_building, parts_of, with_literal, with_literal_part, with_part, with_bytes, braces_part, form_part, opened, with_form_part, on, skipping, skip_close, braces_quote, form_quotes, in_quotes, backquotes_by, backquotes_request, parameter_part, open_braces, at_level, taking, plainly, take_piece, program_part, with_program, whole_parts, last_frame, other_frames};

use crate::fault::PartFault;
use crate::parameter::{Braces, parameter};
use sh_base::sequence::{Sequence, Text};
use sh_base::shared::Shared;
use sh_syntax::tree::{CompoundList, Parameter, Part, Parts};
use sh_token_pieces::piece::Piece;
use std::alloc::{AllocError, Global};
use std::marker::Model;
use std::mem;

/// A form that is open.
#[derive(Debug, Drop)]
pub enum Form {
    /// Double quotes (XCU 2.2.3).
    Quotes,
    /// `${..}` (XCU 2.6.2).
    Braces(Braces),
    /// `$((..))` (XCU 2.6.4).
    Arithmetic,
}

/// An open form, with what is around it.
#[derive(Drop)]
pub struct Frame {
    pub form: Form,
    /// The parts before it.
    pub before: Sequence<Part>,
    /// How many levels might still open around it.
    pub left: usize,
}

/// A command substitution whose pieces are passed over, since its text is read by itself.
#[derive(Clone, Copy, Debug)]
pub struct Skip {
    /// How many substitutions are open inside this one.
    pub depth: usize,
    /// The place of its `$`.
    pub place: usize,
    /// The place of its text.
    pub start: usize,
}

/// The form of a command substitution (XCU 2.6.3).
#[derive(Clone, Copy, Debug, PartialEq, Eq)]
pub enum Substitution {
    /// `$(..)`
    Commands,
    /// Backquotes outside of double quotes.
    Backquotes,
    /// Backquotes in double quotes, where a backslash before a `"` doesn't belong to their text (XCU 2.2.3).
    QuotedBackquotes,
}

/// The commands that the parts wait for. A place is the number of bytes before it, in the text that has the
/// word.
#[derive(Clone, Copy, Debug)]
pub struct Request {
    pub form: Substitution,
    /// The place of the substitution.
    pub place: usize,
    /// Where its text begins and ends: with the backquotes, but without `$(` and `)`.
    pub start: usize,
    pub end: usize,
    /// How many levels may open in it.
    pub left: usize,
    /// Whether the substitution itself opens a level too many. A `$(..)` that does so asks for no commands.
    pub is_too_deep: bool,
}

/// Parts that are being put together. Contracts see what it has taken so far (`Building`).
#[derive(Drop)]
pub struct Builder {
    alloc: Global,
    parts: Sequence<Part>,
    literal: Text,
    left: usize,
    frames: Sequence<Frame>,
    skip: Option<Skip>,
}

impl Model for Builder {
    ghost use Rattle.std.specs.Coded.{codes};
    ghost use Rattle.sh_parse_words.specs.Building.{Building};
    ghost use Rattle.sh_syntax.specs.contracts.tree.Part as part_row;

    ghost Value = { Building };

    ghost coded = { Prim.hlevel (codes, part_row.the_row.coded) };

    ghost view = { λ b. record { parts = b.parts; literal = b.literal; left = b.left; frames = b.frames; skip = b.skip } };
}

impl Form {
    /// Whether what is inside the form is in double quotes; `around`: the form itself is.
    fn quotes(&self, around: bool) -> bool
        ensures { result ≡ form_quotes self.now around }
    {
        match self {
            Form::Quotes => true,
            Form::Braces(braces) => braces_quote(braces, around),
            Form::Arithmetic => false,
        }
    }

    /// The part that the form makes of what is inside it.
    fn part(self, alloc: Global, inside: Sequence<Part>) -> Result<Part, AllocError>
        ensures { IfOk result (λ part. part ≡ form_part self (parts_of inside)) }
    {
        let word = Shared::new(alloc, Parts { items: inside })?;
        match self {
            Form::Quotes => Ok(Part::DoubleQuoted(word)),
            Form::Arithmetic => Ok(Part::Arithmetic(word)),
            Form::Braces(braces) => Ok(braces_part(braces, word)),
        }
    }
}

/// Whether the word of a `${..}` is in double quotes; `around`: the `${..}` itself is.
fn braces_quote(braces: &Braces, around: bool) -> bool
    ensures { result ≡ braces_quote braces.now around }
{
    match braces {
        Braces::Value(_) => around,
        Braces::Length(_) => around,
        Braces::Conditional { .. } => around,
        Braces::Removal { .. } => false,
    }
}

/// Whether what is inside the innermost of these forms is in double quotes; `around`: the outermost form is.
fn in_quotes(around: bool, frames: &[Frame]) -> bool
    ensures { result ≡ in_quotes around frames.now }
{
    let mut is_quoted = around;
    let mut rest = frames;
    while let Some((frame, others)) = rest.split_first() {
        is_quoted = frame.form.quotes(is_quoted);
        rest = others;
    }
    is_quoted
}

/// The form of backquotes; `is_quoted`: they are in double quotes.
fn backquotes_by(is_quoted: bool) -> Substitution
    ensures { result ≡ backquotes_by is_quoted }
{
    if is_quoted {
        Substitution::QuotedBackquotes
    } else {
        Substitution::Backquotes
    }
}

fn braces_part(braces: Braces, word: Shared<Parts>) -> Part
    ensures { result ≡ braces_part braces word }
{
    match braces {
        Braces::Value(parameter) => Part::Parameter(parameter),
        Braces::Length(parameter) => Part::Length(parameter),
        Braces::Conditional {
            parameter,
            absence,
            action,
        } => Part::Conditional {
            parameter,
            absence,
            action,
            word,
        },
        Braces::Removal {
            parameter,
            affix,
            extent,
        } => Part::Removal {
            parameter,
            affix,
            extent,
            pattern: word,
        },
    }
}

fn copied(alloc: Global, text: &Text) -> Result<Text, AllocError>
    ensures { IfOk result (λ copy. copy ≡ text.now) }
{
    let bytes = text.as_slice().to_vec(alloc)?;
    Ok(Sequence::from_vec(bytes))
}

/// The part that `$` and one byte make.
fn short_part(alloc: Global, b: u8) -> Result<Part, AllocError>
    ensures { IfOk result (λ part. part ≡ parameter_part b (short b)) }
{
    match parameter(alloc, &[b])? {
        Some(parameter) => Ok(Part::Parameter(parameter)),
        None => {
            let bytes = [b'$', b].to_vec(alloc)?;
            Ok(Part::Literal(Sequence::from_vec(bytes)))
        },
    }
}

/// Takes the innermost frame.
fn innermost(frames: &mut Sequence<Frame>) -> Option<Frame>
    ensures value { result ≡ last_frame frames.old }
    ensures left { frames.new ≡ other_frames frames.old }
{
    frames.pop()
}

impl Builder {
    /// A builder without parts, in which so many levels may open. It takes no memory.
    pub fn new(alloc: Global, left: usize) -> Self
        ensures { result ≡ empty_building left }
    {
        Builder {
            alloc,
            parts: Sequence::new(alloc),
            literal: Sequence::new(alloc),
            left,
            frames: Sequence::new(alloc),
            skip: None,
        }
    }

    /// Makes a part of the last bytes, which stand for themselves.
    fn flush(&mut self) -> Result<(), AllocError>
        ensures { OnOk result (self.new ≡ with_literal_part self.old) }
    {
        if self.literal.is_empty() {
            return Ok(());
        }
        let text = mem::replace(&mut self.literal, Sequence::new(self.alloc));
        self.parts.push(Part::Literal(text))?;
        Ok(())
    }

    #[tactic(auto, unfolding(crate::specs::Building::with_part))]
    fn put(&mut self, part: Part) -> Result<(), AllocError>
        ensures { OnOk result (self.new ≡ with_part self.old part) }
    {
        self.flush()?;
        self.parts.push(part)?;
        Ok(())
    }

    #[tactic(auto, unfolding(crate::specs::Building::with_bytes))]
    fn put_bytes(&mut self, bytes: &[u8]) -> Result<(), AllocError>
        ensures { OnOk result (self.new ≡ with_bytes self.old bytes.now) }
    {
        self.literal.extend_from_slice(bytes)?;
        Ok(())
    }

    /// Opens a form, in which so many levels may open.
    #[tactic(auto, unfolding(crate::specs::Building::opened))]
    fn open(&mut self, form: Form, left: usize) -> Result<(), AllocError>
        ensures { OnOk result (self.new ≡ opened self.old form left) }
    {
        self.flush()?;
        let before = mem::replace(&mut self.parts, Sequence::new(self.alloc));
        self.frames.push(Frame {
            form,
            before,
            left: self.left,
        })?;
        self.left = left;
        Ok(())
    }

    /// Closes the innermost form.
    #[tactic(auto, unfolding(crate::specs::Building::with_form_part))]
    fn close(&mut self) -> Result<(), AllocError>
        ensures { OnOk result (self.new ≡ with_form_part self.old) }
    {
        let Some(frame) = innermost(&mut self.frames) else {
            return Ok(());
        };
        self.flush()?;
        let Frame { form, before, left } = frame;
        let inside = mem::replace(&mut self.parts, before);
        let part = form.part(self.alloc, inside)?;
        self.parts.push(part)?;
        self.left = left;
        Ok(())
    }

    /// Whether one more level may open.
    fn has_level(&self) -> bool
        ensures { result ≡ not (nat_eq self.now.left 0) }
    {
        self.left != 0
    }

    /// Opens a `${..}`.
    fn open_braces(
        &mut self,
        head: &[u8],
        is_empty: bool,
        place: usize,
    ) -> Result<Option<Request>, PartFault>
        ensures { Takes result self.new (open_braces self.old place (braces_of head.now is_empty)) }
    {
        if !self.has_level() {
            return Err(PartFault::TooDeep { at: place });
        }
        let Some(braces) = Braces::of_head(self.alloc, head, is_empty)? else {
            return Err(PartFault::BadSubstitution { at: place });
        };
        let left = self.left - 1;
        self.open(Form::Braces(braces), left)?;
        Ok(None)
    }

    /// Opens a `$((..))`.
    fn open_arithmetic(&mut self, place: usize) -> Result<Option<Request>, PartFault>
        ensures { Takes result self.new
            (at_level self.old.left place
            (on (opened self.old form.Arithmetic (self.old.left - 1)))) }
    {
        if !self.has_level() {
            return Err(PartFault::TooDeep { at: place });
        }
        let left = self.left - 1;
        self.open(Form::Arithmetic, left)?;
        Ok(None)
    }

    /// Begins to pass over a `$(..)`, whose text begins at `start`.
    fn skip(&mut self, place: usize, start: usize) -> Result<Option<Request>, PartFault>
        ensures { Takes result self.new
            (at_level self.old.left place
            (on (record self.old
            { skip = Some (record { depth = 0; place = place; start = start }) }))) }
    {
        if !self.has_level() {
            return Err(PartFault::TooDeep { at: place });
        }
        self.skip = Some(Skip {
            depth: 0,
            place,
            start,
        });
        Ok(None)
    }

    /// Asks for the commands between backquotes.
    fn ask_backquoted(&self, place: usize, behind: usize) -> Request
        ensures { result ≡ backquotes_request self.now place behind }
    {
        Request {
            form: backquotes_by(in_quotes(false, self.frames.as_slice())),
            place,
            start: place,
            end: behind,
            left: self.left.saturating_sub(1),
            is_too_deep: self.left == 0,
        }
    }

    /// Ends the `$(..)` that is passed over, or one inside it.
    fn close_skipped(&mut self, skip: Skip, here: usize) -> Option<Request>
        ensures { Ok (record { building = self.new; request = result })
            ≡ skip_close self.old skip here }
    {
        if skip.depth != 0 {
            self.skip = Some(Skip {
                depth: skip.depth - 1,
                ..skip
            });
            return None;
        }
        self.skip = None;
        Some(Request {
            form: Substitution::Commands,
            place: skip.place,
            start: skip.start,
            end: here,
            left: self.left.saturating_sub(1),
            is_too_deep: false,
        })
    }

    /// Passes over a piece inside a `$(..)`.
    fn pass_over(
        &mut self,
        skip: Skip,
        piece: &Piece,
        here: usize,
    ) -> Result<Option<Request>, AllocError>
        ensures { IfOk result (λ request.
            Ok (record { building = self.new; request = request })
            ≡ skipping self.old skip piece.now here) }
    {
        match piece {
            Piece::CommandsOpen => {
                // more substitutions than can be counted would not fit into memory
                let Some(depth) = skip.depth.checked_add(1) else {
                    return Err(AllocError);
                };
                self.skip = Some(Skip { depth, ..skip });
                Ok(None)
            },
            Piece::CommandsClose => Ok(self.close_skipped(skip, here)),
            _ => Ok(None),
        }
    }

    /// Takes a piece that asks for nothing and opens no level.
    #[tactic(auto, unfolding(crate::specs::Building::plainly))]
    fn take_plain(&mut self, piece: &Piece) -> Result<(), AllocError>
        ensures { OnOk result (self.new ≡ plainly self.old piece.now) }
    {
        match piece {
            Piece::Byte(b) => self.put_bytes(&[*b]),
            Piece::Backslash(b) => self.put_bytes(&[b'\\', *b]),
            Piece::Dollar => self.put_bytes(b"$"),
            Piece::Escaped(b) => self.put(Part::Escaped(*b)),
            Piece::SingleQuoted(bytes) => {
                let bytes = copied(self.alloc, bytes)?;
                self.put(Part::SingleQuoted(bytes))
            },
            Piece::Variable(name) => {
                let name = copied(self.alloc, name)?;
                self.put(Part::Parameter(Parameter::Variable(name)))
            },
            Piece::Parameter(b) => {
                let part = short_part(self.alloc, *b)?;
                self.put(part)
            },
            Piece::DoubleQuotesOpen => self.open(Form::Quotes, self.left),
            Piece::DoubleQuotesClose | Piece::BraceClose | Piece::ArithmeticClose => self.close(),
            _ => Ok(()),
        }
    }

    /// Takes the next piece, which is at `place` in the text; the text after the piece begins at `behind`.
    /// `is_empty`: the next piece is a `}`. If it asks for commands, give them to `put_program` before the
    /// next piece. The errors are `BadSubstitution`, `TooDeep` and want of memory; after one of them the
    /// parts are of no use.
    #[tactic(auto, unfolding(crate::specs::Building::take_piece))]
    pub fn take(
        &mut self,
        piece: &Piece,
        is_empty: bool,
        place: usize,
        behind: usize,
    ) -> Result<Option<Request>, PartFault>
        ensures { Takes result self.new (take_piece self.old piece.now is_empty place behind) }
    {
        if let Some(skip) = self.skip {
            let request = self.pass_over(skip, piece, place)?;
            return Ok(request);
        }
        match piece {
            Piece::BraceOpen(head) => self.open_braces(head.as_slice(), is_empty, place),
            Piece::ArithmeticOpen => self.open_arithmetic(place),
            Piece::CommandsOpen => self.skip(place, behind),
            Piece::Backquoted(_) => Ok(Some(self.ask_backquoted(place, behind))),
            _ => {
                self.take_plain(piece)?;
                Ok(None)
            },
        }
    }

    /// Puts the commands that were asked for after the parts so far. The only error is want of memory, after
    /// which the parts are of no use.
    #[tactic(auto, unfolding(crate::specs::Building::with_program))]
    pub fn put_program(
        &mut self,
        form: Substitution,
        program: Shared<CompoundList>,
    ) -> Result<(), AllocError>
        ensures { OnOk result (self.new ≡ with_program self.old form program) }
    {
        match form {
            Substitution::Commands => self.put(Part::Substitution(program)),
            Substitution::Backquotes => self.put(Part::Backquoted(program)),
            Substitution::QuotedBackquotes => self.put(Part::Backquoted(program)),
        }
    }

    /// The parts, or `None` where a form is still open. The only error is want of memory.
    #[tactic(auto, unfolding(crate::specs::Building::whole_parts))]
    pub fn finish(self) -> Result<Option<Parts>, AllocError>
        ensures { IfOk result (λ parts. parts ≡ whole_parts self) }
    {
        let mut builder = self;
        builder.flush()?;
        let Builder {
            parts,
            frames,
            skip,
            ..
        } = builder;
        if !frames.is_empty() {
            return Ok(None);
        }
        match skip {
            Some(_) => Ok(None),
            None => Ok(Some(Parts { items: parts })),
        }
    }
}
