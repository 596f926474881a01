//! What built-ins answer.
use sh_base::sequence::Text;

/// Why a built-in is refused. A message says it; after the message a special built-in ends a shell that isn't
/// interactive (XCU 2.8.1), but for a condition that is none.
#[derive(Debug, Drop)]
pub enum BuiltinFault {
    /// Its options are wrong, or its operands or their number.
    Usage,
    /// This operand has no name where one is needed.
    BadName(Text),
    /// This operand of `trap` is no condition. It is told like a bad name, but ends no shell (XCU trap, EXIT STATUS).
    BadCondition(Text),
    /// The variable of this name is read-only.
    ReadOnly(Text),
    /// This word doesn't lead to what is needed: of `cd` a directory, of `.` a file that can be read.
    CannotOpen(Text),
}

/// What a built-in answers, beside what it changes.
#[derive(Debug, Drop)]
pub enum Outcome {
    /// It is done with this status, and writes nothing.
    Done(u8),
    /// It writes this text, and is done with 0. Where the text is empty it writes nothing, also to a closed
    /// descriptor.
    Output(Text),
    /// It is refused. What it did before stays done.
    Fault(BuiltinFault),
}
