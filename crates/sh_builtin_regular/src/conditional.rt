//! The utility test (XCU test).
ghost use Rattle.std.specs.Prelude.{◌≡◌, IfOk, option_map};
ghost use Rattle.sh_builtin_regular.specs.Conditional.{binary, compared_by, comparison_of, compares, verdict_of, file_holds, file_test_of, flags_of, found_holds, four, has_bytes, is_binary, is_directory, is_filled, is_negation, is_regular, negation, one, terminal_of, text_binary, text_unary, three, two, unary};
ghost use Rattle.sh_builtin_regular.specs.Integers.{whole_of};

use crate::number::Whole;
use sh_base::NoMemory;
use sh_base::decimal::number_of;
use sh_base::sequence::Text;
use sh_files::Files;
use sh_files_image::{Flags, Node};

/// What `test` answers.
#[derive(Clone, Copy, Debug, PartialEq, Eq)]
pub enum Verdict {
    /// Whether the condition holds: the status is 0 or 1.
    Is(bool),
    /// Whether a descriptor of this number is open on a terminal; or, where it is inverted, isn't.
    Terminal {
        /// The descriptor's number.
        descriptor: u64,
        /// Whether an odd number of `!` is before the condition.
        inverted: bool,
    },
    /// The operands are wrong: the status is 2.
    Usage,
}

/// What may be asked of a path.
#[derive(Clone, Copy, Debug)]
pub(crate) enum FileTest {
    /// `-d`: whether it names a directory.
    Directory,
    /// `-e`: whether it names something.
    Exists,
    /// `-f`: whether it names a regular file.
    Regular,
    /// `-r`: whether that may be read.
    Readable,
    /// `-s`: whether that has a size above zero.
    Filled,
    /// `-w`: whether that may be written.
    Writable,
    /// `-x`: whether that may be executed.
    Executable,
}

/// How two numbers may be compared.
#[derive(Clone, Copy, Debug)]
pub(crate) enum Comparison {
    /// `-eq`
    Equal,
    /// `-ne`
    NotEqual,
    /// `-gt`
    Greater,
    /// `-ge`
    GreaterOrEqual,
    /// `-lt`
    Less,
    /// `-le`
    LessOrEqual,
}

impl FileTest {
    /// What a primary asks of a path.
    fn of(word: &[u8]) -> Option<FileTest>
        ensures { result ≡ file_test_of word.now }
    {
        if word == b"-d".as_slice() {
            return Some(FileTest::Directory);
        }
        if word == b"-e".as_slice() {
            return Some(FileTest::Exists);
        }
        if word == b"-f".as_slice() {
            return Some(FileTest::Regular);
        }
        if word == b"-r".as_slice() {
            return Some(FileTest::Readable);
        }
        if word == b"-s".as_slice() {
            return Some(FileTest::Filled);
        }
        if word == b"-w".as_slice() {
            return Some(FileTest::Writable);
        }
        if word == b"-x".as_slice() {
            return Some(FileTest::Executable);
        }
        None
    }

    /// Whether what a path names passes.
    fn holds(self, node: &Node) -> bool
        ensures { result ≡ file_holds self node.now }
    {
        match self {
            FileTest::Directory => is_directory(node),
            FileTest::Exists => true,
            FileTest::Regular => is_regular(node),
            FileTest::Readable => flags_of(node).read,
            FileTest::Filled => is_filled(node),
            FileTest::Writable => flags_of(node).write,
            FileTest::Executable => flags_of(node).execute,
        }
    }
}

impl Comparison {
    /// How a primary compares numbers.
    fn of(word: &[u8]) -> Option<Comparison>
        ensures { result ≡ comparison_of word.now }
    {
        if word == b"-eq".as_slice() {
            return Some(Comparison::Equal);
        }
        if word == b"-ne".as_slice() {
            return Some(Comparison::NotEqual);
        }
        if word == b"-gt".as_slice() {
            return Some(Comparison::Greater);
        }
        if word == b"-ge".as_slice() {
            return Some(Comparison::GreaterOrEqual);
        }
        if word == b"-lt".as_slice() {
            return Some(Comparison::Less);
        }
        if word == b"-le".as_slice() {
            return Some(Comparison::LessOrEqual);
        }
        None
    }

    /// Whether two numbers compare so.
    fn holds(self, left: Whole, right: Whole) -> bool
        ensures { result ≡ compares self left right }
    {
        match self {
            Comparison::Equal => left.is_equal(right),
            Comparison::NotEqual => !left.is_equal(right),
            Comparison::Greater => right.is_less(left),
            Comparison::GreaterOrEqual => !left.is_less(right),
            Comparison::Less => left.is_less(right),
            Comparison::LessOrEqual => !right.is_less(left),
        }
    }
}

impl Verdict {
    /// The opposite.
    fn negated(self) -> Verdict
        ensures { result ≡ negation self }
    {
        match self {
            Verdict::Is(holds) => Verdict::Is(!holds),
            Verdict::Terminal {
                descriptor,
                inverted,
            } => Verdict::Terminal {
                descriptor,
                inverted: !inverted,
            },
            Verdict::Usage => Verdict::Usage,
        }
    }
}

/// Whether it is a directory.
fn is_directory(node: &Node) -> bool
    ensures { result ≡ is_directory node.now }
{
    match node {
        Node::Directory => true,
        _ => false,
    }
}

/// Whether it is a regular file.
fn is_regular(node: &Node) -> bool
    ensures { result ≡ is_regular node.now }
{
    match node {
        Node::File(_) => true,
        _ => false,
    }
}

/// What may be done with it.
fn flags_of(node: &Node) -> Flags
    ensures { result ≡ flags_of node.now }
{
    match node {
        Node::Directory => Flags {
            read: true,
            write: true,
            execute: true,
        },
        Node::File(file) => file.flags(),
        Node::Null | Node::Terminal => Flags {
            read: true,
            write: true,
            execute: false,
        },
    }
}

/// Whether it has a size above zero.
fn is_filled(node: &Node) -> bool
    ensures { result ≡ is_filled node.now }
{
    match node {
        Node::Directory => true,
        Node::File(file) => has_bytes(file.bytes()),
        Node::Null | Node::Terminal => false,
    }
}

/// Whether there is a byte.
fn has_bytes(text: &[u8]) -> bool
    ensures { result ≡ has_bytes text.now }
{
    !text.is_empty()
}

/// Whether what was found passes; where nothing was found no test passes.
fn found_holds(asked: FileTest, found: Option<&Node>) -> bool
    ensures { result ≡ found_holds asked (option_map (λ node. node.now) found.entry) }
{
    match found {
        Some(node) => asked.holds(node),
        None => false,
    }
}

/// `-t` with its operand.
fn terminal_of(descriptor: Option<u64>) -> Verdict
    ensures { result ≡ terminal_of descriptor }
{
    match descriptor {
        Some(descriptor) => Verdict::Terminal {
            descriptor,
            inverted: false,
        },
        None => Verdict::Usage,
    }
}

/// A primary that asks nothing of a path, with its operand.
fn text_unary(word: &[u8], operand: &[u8]) -> Verdict
    ensures { result ≡ text_unary word.now operand.now }
{
    if word == b"-n".as_slice() {
        return Verdict::Is(has_bytes(operand));
    }
    if word == b"-z".as_slice() {
        return Verdict::Is(!has_bytes(operand));
    }
    if word == b"-t".as_slice() {
        return terminal_of(number_of(operand));
    }
    Verdict::Usage
}

/// A primary with the operand after it.
#[tactic(auto, unfolding(crate::specs::Conditional::unary))]
fn unary(files: &Files, directory: &[u8], word: &[u8], operand: &[u8]) -> Result<Verdict, NoMemory>
    ensures { IfOk result (λ verdict. verdict ≡ unary files.now directory.now word.now operand.now) }
{
    let Some(asked) = FileTest::of(word) else {
        return Ok(text_unary(word, operand));
    };
    let found = files.find(directory, operand)?;
    Ok(Verdict::Is(found_holds(asked, found)))
}

/// Two operands that may be no numbers, with a primary between them.
fn text_binary(left: &[u8], word: &[u8], right: &[u8]) -> Verdict
    ensures { result ≡ text_binary left.now word.now right.now }
{
    if word == b"=".as_slice() {
        return Verdict::Is(left == right);
    }
    if word == b"!=".as_slice() {
        return Verdict::Is(left != right);
    }
    Verdict::Usage
}

/// Two operands that have to be numbers.
fn compared_by(how: Comparison, left: Option<Whole>, right: Option<Whole>) -> Verdict
    ensures { result ≡ compared_by how left right }
{
    let Some(left) = left else {
        return Verdict::Usage;
    };
    let Some(right) = right else {
        return Verdict::Usage;
    };
    Verdict::Is(how.holds(left, right))
}

/// A primary between its operands.
#[tactic(auto, unfolding(crate::specs::Conditional::binary))]
fn binary(left: &[u8], word: &[u8], right: &[u8]) -> Verdict
    ensures { result ≡ binary left.now word.now right.now }
{
    let Some(how) = Comparison::of(word) else {
        return text_binary(left, word, right);
    };
    compared_by(how, Whole::of(left), Whole::of(right))
}

/// Whether a word is a primary with two operands.
#[tactic(auto, unfolding(crate::specs::Conditional::is_binary))]
fn is_binary(word: &[u8]) -> bool
    ensures { result ≡ is_binary word.now }
{
    if Comparison::of(word).is_some() {
        return true;
    }
    word == b"=".as_slice() || word == b"!=".as_slice()
}

/// Whether a word is `!`.
fn is_negation(word: &[u8]) -> bool
    ensures { result ≡ is_negation word.now }
{
    word == b"!".as_slice()
}

/// One argument.
fn one(word: &[u8]) -> Verdict
    ensures { result ≡ one word.now }
{
    Verdict::Is(has_bytes(word))
}

/// Two arguments.
#[tactic(auto, unfolding(crate::specs::Conditional::two))]
fn two(files: &Files, directory: &[u8], first: &[u8], second: &[u8]) -> Result<Verdict, NoMemory>
    ensures { IfOk result (λ verdict. verdict ≡ two files.now directory.now first.now second.now) }
{
    if is_negation(first) {
        return Ok(one(second).negated());
    }
    unary(files, directory, first, second)
}

/// Three arguments.
#[tactic(auto, unfolding(crate::specs::Conditional::three))]
fn three(
    files: &Files,
    directory: &[u8],
    first: &[u8],
    second: &[u8],
    third: &[u8],
) -> Result<Verdict, NoMemory>
    ensures { IfOk result (λ verdict.
        verdict ≡ three files.now directory.now first.now second.now third.now) }
{
    if is_binary(second) {
        return Ok(binary(first, second, third));
    }
    if is_negation(first) {
        let verdict = two(files, directory, second, third)?;
        return Ok(verdict.negated());
    }
    Ok(Verdict::Usage)
}

/// Four arguments.
#[tactic(auto, unfolding(crate::specs::Conditional::four))]
fn four(
    files: &Files,
    directory: &[u8],
    first: &[u8],
    second: &[u8],
    third: &[u8],
    fourth: &[u8],
) -> Result<Verdict, NoMemory>
    ensures { IfOk result (λ verdict.
        verdict ≡ four files.now directory.now first.now second.now third.now fourth.now) }
{
    if is_negation(first) {
        let verdict = three(files, directory, second, third, fourth)?;
        return Ok(verdict.negated());
    }
    Ok(Verdict::Usage)
}

/// What `test` answers for its arguments, or `[` for those before its `]` (XCU test). It goes by their
/// number, up to four; more are `Verdict::Usage`. Paths name these files, from this directory. The primaries
/// are `-d -e -f -r -s -w -x` with a path, `-t` with a descriptor, `-n -z` with a text, `= !=` between texts,
/// `-eq -ne -gt -ge -lt -le` between whole numbers of up to 18 digits, and `!`. The only error is want of
/// memory.
#[tactic(auto, unfolding(crate::specs::Conditional::verdict_of))]
pub fn evaluate(files: &Files, directory: &[u8], arguments: &[Text]) -> Result<Verdict, NoMemory>
    ensures { IfOk result (λ verdict. verdict ≡ verdict_of files.now directory.now arguments.now) }
{
    match arguments {
        [] => Ok(Verdict::Is(false)),
        [a] => Ok(one(a.as_slice())),
        [a, b] => two(files, directory, a.as_slice(), b.as_slice()),
        [a, b, c] => three(files, directory, a.as_slice(), b.as_slice(), c.as_slice()),
        [a, b, c, d] => four(
            files,
            directory,
            a.as_slice(),
            b.as_slice(),
            c.as_slice(),
            d.as_slice(),
        ),
        _ => Ok(Verdict::Usage),
    }
}
