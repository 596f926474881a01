//! The built-in set (XCU 2.15).
ghost use Rattle.std.specs.Prelude.{◌≡◌, IfOk, None, OnOk, option_map};
ghost use Rattle.sh_builtin_environment.specs.Options.{some_letters};
ghost use Rattle.sh_builtin_environment.specs.Outcomes.{with_outcome};
ghost use Rattle.sh_builtin_environment.specs.Setting.{setting_at_end, is_settable, letter_switched, option_by_letter, letters_switched, name_awaited, option_by_name, no_name_awaited, option_switched, set_from, set_ran, sign_and_letters, switched_word, with_operands, with_sign, word_of};

use crate::listing::{Listing, list};
use crate::options::some_letters;
use crate::outcome::{BuiltinFault, Outcome};
use sh_base::NoMemory;
use sh_base::sequence::{Text, copies_of};
use sh_vars::{Options, ShellOption, Vars};
use std::alloc::Global;

/// What the words of options so far give.
#[derive(Clone, Copy, Debug)]
pub(crate) struct Switched {
    /// The options.
    pub(crate) options: Options,
    /// Whether the option that the next word names is switched on, or off; `None` where the next word names
    /// none.
    pub(crate) awaited: Option<bool>,
}

/// What a word among the arguments is.
#[derive(Clone, Copy, Debug)]
pub(crate) enum Word {
    /// Options, or the name of one. With it the words so far give this.
    Options(Switched),
    /// `--`: operands follow.
    End,
    /// The first operand.
    Operand,
    /// Options that there aren't.
    Bad,
}

/// Whether an option can be switched.
fn is_settable(option: ShellOption) -> bool
    ensures { result ≡ is_settable option }
{
    match option {
        ShellOption::AllExport => true,
        ShellOption::NoClobber => true,
        ShellOption::ExitOnError => true,
        ShellOption::NoGlob => true,
        ShellOption::Interactive => false,
        ShellOption::Monitor => true,
        ShellOption::NoUnset => true,
    }
}

/// The option of a letter.
fn lettered(letter: u8) -> Option<ShellOption>
    ensures { result ≡ option_by_letter letter }
{
    let option = ShellOption::from_letter(letter)?;
    if is_settable(option) {
        return Some(option);
    }
    None
}

/// The option of a name.
fn named(name: &[u8]) -> Option<ShellOption>
    ensures { result ≡ option_by_name name.now }
{
    if name == b"allexport".as_slice() {
        return Some(ShellOption::AllExport);
    }
    if name == b"noclobber".as_slice() {
        return Some(ShellOption::NoClobber);
    }
    if name == b"errexit".as_slice() {
        return Some(ShellOption::ExitOnError);
    }
    if name == b"noglob".as_slice() {
        return Some(ShellOption::NoGlob);
    }
    if name == b"monitor".as_slice() {
        return Some(ShellOption::Monitor);
    }
    if name == b"nounset".as_slice() {
        return Some(ShellOption::NoUnset);
    }
    None
}

impl Switched {
    /// Options, with none to be named.
    fn new(options: Options) -> Switched
        ensures { result ≡ no_name_awaited options }
    {
        Switched {
            options,
            awaited: None,
        }
    }

    /// With an option switched, if there is one.
    fn with_option(self, on: bool, option: Option<ShellOption>) -> Option<Switched>
        ensures { result ≡ option_switched on self option }
    {
        let option = option?;
        Some(Switched {
            options: self.options.switched(option, on),
            awaited: self.awaited,
        })
    }

    /// With an option that the next word names, if no other is awaited.
    fn awaiting(self, on: bool) -> Option<Switched>
        ensures { result ≡ name_awaited on self self.awaited }
    {
        match self.awaited {
            Some(_) => None,
            None => Some(Switched {
                options: self.options,
                awaited: Some(on),
            }),
        }
    }

    /// With a letter.
    #[tactic(auto, unfolding(crate::specs::Setting::letter_switched))]
    fn with_letter(self, on: bool, letter: u8) -> Option<Switched>
        ensures { result ≡ letter_switched on self letter }
    {
        if letter == b'o' {
            return self.awaiting(on);
        }
        self.with_option(on, lettered(letter))
    }

    /// With letters.
    fn with_letters(self, on: bool, letters: &[u8]) -> Option<Switched>
        ensures { result ≡ letters_switched on self letters.now }
    {
        let mut state = self;
        let mut rest = letters;
        'letters: while let Some((letter, others)) = rest.split_first() {
            state = state.with_letter(on, *letter)?;
            rest = others;
        }
        Some(state)
    }

    /// What a word is after these.
    #[tactic(auto, unfolding(crate::specs::Setting::word_of))]
    fn read(self, word: &[u8]) -> Word
        ensures { result ≡ word_of self word.now }
    {
        if let Some(on) = self.awaited {
            return Word::of(Switched::new(self.options).with_option(on, named(word)));
        }
        if word == b"--".as_slice() {
            return Word::End;
        }
        match signed(word) {
            Some((on, letters)) => Word::of(self.with_letters(on, letters)),
            None => Word::Operand,
        }
    }

    /// The options at the end of the arguments.
    fn end(self) -> Option<Options>
        ensures { option_map (λ options. (options, None)) result ≡ setting_at_end self self.awaited }
    {
        match self.awaited {
            Some(_) => None,
            None => Some(self.options),
        }
    }
}

impl Word {
    /// A word of options that gives this.
    fn of(switched: Option<Switched>) -> Word
        ensures { result ≡ switched_word switched }
    {
        match switched {
            Some(next) => Word::Options(next),
            None => Word::Bad,
        }
    }
}

/// The letters after a sign, with whether the sign switches on.
fn with_sign(on: bool, letters: &[u8]) -> Option<(bool, &[u8])>
    ensures { option_map (λ p. (p.0, p.1.now)) result ≡ with_sign on (some_letters letters.now) }
{
    let letters = some_letters(letters)?;
    Some((on, letters))
}

/// The letters of a word of options, with whether they are switched on.
fn signed(word: &[u8]) -> Option<(bool, &[u8])>
    ensures { option_map (λ p. (p.0, p.1.now)) result ≡ sign_and_letters word.now }
{
    match word.split_first() {
        Some((b'-', letters)) => with_sign(true, letters),
        Some((b'+', letters)) => with_sign(false, letters),
        Some(_) => None,
        None => None,
    }
}

/// The options that are then on, and the operands if there are any; `None` where a word is bad.
fn read_words(options: Options, arguments: &[Text]) -> Option<(Options, Option<&[Text]>)>
    ensures { option_map (λ p. (p.0, option_map (λ operands. operands.now) p.1)) result
        ≡ set_from (no_name_awaited options) arguments.now }
{
    let mut state = Switched::new(options);
    let mut rest = arguments;
    'words: while let Some((word, others)) = rest.split_first() {
        match state.read(word.as_slice()) {
            Word::Options(next) => state = next,
            Word::End => return Some((state.options, Some(others))),
            Word::Operand => return Some((state.options, Some(rest))),
            Word::Bad => return None,
        }
        rest = others;
    }
    let options = state.end()?;
    Some((options, None))
}

/// Replaces the positional parameters, if there are operands.
fn set_operands(alloc: Global, vars: &mut Vars, operands: Option<&[Text]>) -> Result<(), NoMemory>
    ensures { OnOk result
        (vars.new ≡ with_operands vars.old (option_map (λ operands. operands.now) operands.entry)) }
{
    if let Some(operands) = operands {
        let copies = copies_of(alloc, operands)?;
        vars.set_positional(copies);
    }
    Ok(())
}

/// `set` with its arguments (XCU 2.15). A hyphen and letters of `aCefmu` switch options on, a plus sign and
/// letters switch them off; the letter `o` switches the option that the next word names. Operands become the
/// positional parameters; after `--` there may be none. A sign alone is an operand. Without arguments the
/// variables that are set are listed. Where there is no such option, or no name after `o`, the call is
/// refused and nothing has changed. The only error is want of memory; what the variables are then is left
/// open.
#[tactic(auto, unfolding(crate::specs::Setting::set_ran))]
pub fn set(alloc: Global, vars: &mut Vars, arguments: &[Text]) -> Result<Outcome, NoMemory>
    ensures { IfOk result (λ outcome.
        with_outcome vars.new outcome ≡ set_ran vars.old arguments.now) }
{
    if arguments.is_empty() {
        let text = list(alloc, Listing::Values, vars)?;
        return Ok(Outcome::Output(text));
    }
    let Some((options, operands)) = read_words(vars.options(), arguments) else {
        return Ok(Outcome::Fault(BuiltinFault::Usage));
    };
    vars.set_options(options);
    set_operands(alloc, vars, operands)?;
    Ok(Outcome::Done(0))
}
