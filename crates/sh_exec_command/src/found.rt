//! What a reading turn finds.
use sh_base::sequence::Text;
use sh_exec_parts::Rest;
use sh_exec_parts::message::Refusal;
use sh_syntax::tree::CompoundList;

/// What one reading of a text answers.
#[derive(Drop)]
pub enum Answer {
    /// A complete command, and how many bytes it takes.
    Command(CompoundList, usize),
    /// As many bytes without a command.
    Blank(usize),
    /// The text of the next command is refused, which takes so many bytes.
    Fault(Refusal, usize),
    /// It isn't closed before the end of the text, and is refused for that.
    Unclosed,
}

/// What is found in what an interactive shell has read by descriptor 0.
#[derive(Drop)]
pub enum InputFound {
    /// The next complete command, and what was read behind it.
    Command(CompoundList, Text),
    /// No command in the lines up to here, behind which this was read.
    Blank(Text),
    /// The beginning of a command: all that was read.
    More(Text),
    /// What was read is refused.
    Fault(Refusal),
}

/// What a reading turn finds.
#[derive(Drop)]
pub enum Found {
    /// No command follows.
    Nothing,
    /// The next complete command, and the text after it.
    Command(CompoundList, Rest),
    /// The text of the next command is refused, and this is the text after it.
    Fault(Refusal, Rest),
}
