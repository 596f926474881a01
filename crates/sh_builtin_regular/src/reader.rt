//! A line as it is read.
ghost use Rattle.std.specs.Prelude.{◌≡◌, IfOk, OnOk, option_map};
ghost use Rattle.sh_builtin_environment.specs.Options.{options_and_operands};
ghost use Rattle.sh_builtin_regular.specs.Lines.{behind_backslash, byte_taken, bytes_taken, plain_byte, with_byte};
ghost use Rattle.sh_builtin_regular.specs.Operands.{bad_name, reader_of, reader_with};
ghost use Rattle.sh_builtin_regular.specs.Assigning.{line_assigned};

use crate::assigning::assign_all;
use sh_base::NoMemory;
use sh_base::name::is_name;
use sh_base::sequence::{Sequence, Text, copies_of};
use sh_builtin_environment::{BuiltinFault, parse_options};
use sh_expand_fields::split_line;
use sh_pattern::PatternByte;
use sh_vars::Vars;
use std::alloc::Global;

/// A line that `read` reads (XCU read), and the variables that its fields are for.
#[derive(Debug, Drop)]
pub struct LineReader {
    /// Whether a backslash is a byte like any other, as with `-r`.
    raw: bool,
    /// The names of the variables.
    names: Sequence<Text>,
    /// The line so far. A byte behind a backslash is literal: it delimits no field.
    line: Sequence<PatternByte>,
    /// Whether its last byte is a backslash, which quotes the next one.
    escaped: bool,
}

/// The first of some words that is no name.
fn bad_name(words: &[Text]) -> Option<&[u8]>
    ensures { option_map (λ word. word.now) result ≡ bad_name words.now }
{
    let mut rest = words;
    'words: while let Some((word, others)) = rest.split_first() {
        if !is_name(word.as_slice()) {
            return Some(word.as_slice());
        }
        rest = others;
    }
    None
}

/// The reader for these names.
fn reader_with(
    alloc: Global,
    raw: bool,
    names: &[Text],
) -> Result<Result<LineReader, BuiltinFault>, NoMemory>
    ensures { IfOk result (λ answer. answer ≡ reader_with raw names.now) }
{
    if names.is_empty() {
        return Ok(Err(BuiltinFault::Usage));
    }
    if let Some(word) = bad_name(names) {
        let word = Text::copy_of(alloc, word)?;
        return Ok(Err(BuiltinFault::BadName(word)));
    }
    Ok(Ok(LineReader {
        raw,
        names: Sequence::from_vec(copies_of(alloc, names)?),
        line: Sequence::new(alloc),
        escaped: false,
    }))
}

impl LineReader {
    /// What the arguments of `read` ask for: `read [-r] NAME..`. The inner error says why they are refused: `Usage` for another option or
    /// without a name, `BadName` for a word that is no name. The outer one is want of memory.
    #[tactic(auto, unfolding(crate::specs::Operands::reader_of))]
    pub fn of(
        alloc: Global,
        arguments: &[Text],
    ) -> Result<Result<LineReader, BuiltinFault>, NoMemory>
        ensures { IfOk result (λ answer. answer ≡ reader_of arguments.now) }
    {
        match parse_options(b"r", arguments) {
            Some((letter, names)) => reader_with(alloc, letter.is_some(), names),
            None => Ok(Err(BuiltinFault::Usage)),
        }
    }

    /// A byte of the line.
    fn put(&mut self, byte: u8, literal: bool) -> Result<(), NoMemory>
        ensures { OnOk result (self.new ≡ with_byte self.old literal byte) }
    {
        self.line.push(PatternByte { byte, literal })?;
        self.escaped = false;
        Ok(())
    }

    /// A byte behind a backslash.
    fn take_quoted(&mut self, byte: u8) -> Result<bool, NoMemory>
        ensures { IfOk result (λ over.
            record { over = over; reader = self.new } ≡ behind_backslash self.old byte) }
    {
        if byte == b'\n' {
            self.escaped = false;
            return Ok(false);
        }
        self.put(byte, true)?;
        Ok(false)
    }

    /// Any other byte.
    fn take_plain(&mut self, byte: u8) -> Result<bool, NoMemory>
        ensures { IfOk result (λ over.
            record { over = over; reader = self.new } ≡ plain_byte self.old byte) }
    {
        if byte == b'\n' {
            return Ok(true);
        }
        if byte == b'\\' && !self.raw {
            self.escaped = true;
            return Ok(false);
        }
        self.put(byte, false)?;
        Ok(false)
    }

    /// One byte, and whether it ends the line.
    fn take_byte(&mut self, byte: u8) -> Result<bool, NoMemory>
        ensures { IfOk result (λ over.
            record { over = over; reader = self.new } ≡ byte_taken self.old byte) }
    {
        if byte == 0 {
            return Ok(false);
        }
        if self.escaped {
            return self.take_quoted(byte);
        }
        self.take_plain(byte)
    }

    /// Takes bytes of the line, up to its newline, and says whether that is among them. Bytes behind it are passed over. The only error is
    /// want of memory; what the line is then is left open.
    pub fn take(&mut self, bytes: &[u8]) -> Result<bool, NoMemory>
        ensures { IfOk result (λ over.
            record { over = over; reader = self.new } ≡ bytes_taken self.old bytes.now) }
    {
        let mut rest = bytes;
        'bytes: while let Some((byte, others)) = rest.split_first() {
            if self.take_byte(*byte)? {
                return Ok(true);
            }
            rest = others;
        }
        Ok(false)
    }

    /// Gives the variables the fields of the line (2.6.5), from left to right. The answer is the name of the first one that is read-only;
    /// those before it have their fields. The only error is want of memory; what the variables are then is left open.
    #[tactic(auto, unfolding(crate::specs::Assigning::line_assigned))]
    pub fn assign(&self, alloc: Global, vars: &mut Vars) -> Result<Option<Text>, NoMemory>
        ensures { IfOk result (λ refused.
            record { environment = vars.new; refused = refused } ≡ line_assigned vars.old self.now) }
    {
        let fields = split_line(alloc, vars, self.line.as_slice(), self.names.len())?;
        let refused = assign_all(alloc, vars, self.names.as_slice(), fields.as_slice())?;
        Ok(refused)
    }

    /// A copy, which is equal. The only error is want of memory.
    pub fn copy(&self, alloc: Global) -> Result<LineReader, NoMemory>
        ensures { IfOk result (λ copy. copy ≡ self.now) }
    {
        let names = Sequence::from_vec(copies_of(alloc, self.names.as_slice())?);
        match Sequence::copy_of(alloc, self.line.as_slice()) {
            Ok(line) => Ok(LineReader {
                raw: self.raw,
                names,
                line,
                escaped: self.escaped,
            }),
            Err(error) => {
                drop(names);
                Err(NoMemory::from(error))
            },
        }
    }
}
