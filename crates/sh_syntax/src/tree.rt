//! Syntax trees of the Shell Command Language (XCU 2.2, 2.5 to 2.7, 2.9 and 2.10). Parts that a running shell
//! also holds outside of the tree are `Shared`. Only nested syntax makes a tree deep, and `sh_parse` reads at
//! most 500 levels. A list of any length is a sequence, never a chain of pairs. Contracts see a tree as plain
//! data, without pointers.
ghost use Rattle.std.specs.Prelude.{◌≡◌};
ghost use Rattle.sh_syntax.specs.declared.tree.Command.TheViews as view;

use sh_base::sequence::{Sequence, Text};
use sh_base::shared::Shared;

/// A word (XCU 2.3): its parts, and its bytes as they are in the source.
#[cycle(syntax)]
#[derive(Drop)]
pub struct Word {
    pub parts: Shared<Parts>,
    /// Each byte of the word, its quotes and joined lines included.
    pub source: Text,
}

/// Parts one after another: of a word, between double quotes, in `${..}`, in `$((..))` or of the body of a
/// here-document.
#[cycle(syntax)]
pub struct Parts {
    pub items: Sequence<Part>,
}

/// A part of a word (XCU 2.2, 2.6).
#[cycle(syntax)]
#[derive(Drop)]
pub enum Part {
    /// Bytes that stand for themselves, as many as there are in a row.
    Literal(Text),
    /// A byte after a backslash that quotes it (XCU 2.2.1).
    Escaped(u8),
    /// The bytes between single quotes (XCU 2.2.2).
    SingleQuoted(Text),
    /// What is between double quotes (XCU 2.2.3).
    DoubleQuoted(Shared<Parts>),
    /// `$p` or `${p}` (XCU 2.6.2).
    Parameter(Parameter),
    /// `${#p}`: the length of a parameter's value.
    Length(Parameter),
    /// `${p-w}`, `${p=w}`, `${p?w}` or `${p+w}`, with a colon or without.
    Conditional {
        parameter: Parameter,
        absence: Absence,
        action: ConditionalAction,
        word: Shared<Parts>,
    },
    /// `${p%w}`, `${p%%w}`, `${p#w}` or `${p##w}`: the value without what a pattern matches.
    Removal {
        parameter: Parameter,
        affix: Affix,
        extent: Extent,
        pattern: Shared<Parts>,
    },
    /// `$(..)`: a command substitution (XCU 2.6.3). The list has no item where no command is in it.
    Substitution(Shared<CompoundList>),
    /// A command substitution in backquotes, as for `$(..)`.
    Backquoted(Shared<CompoundList>),
    /// `$((..))`: an arithmetic expansion (XCU 2.6.4).
    Arithmetic(Shared<Parts>),
}

/// A parameter (XCU 2.5).
#[derive(Debug, Drop)]
pub enum Parameter {
    /// `NAME`: a variable.
    Variable(Text),
    /// `1` and above: a positional parameter.
    Positional(usize),
    /// One of the special parameters.
    Special(SpecialParameter),
}

/// A special parameter (XCU 2.5.2).
#[derive(Clone, Copy, Debug, PartialEq, Eq)]
pub enum SpecialParameter {
    /// `@`: the positional parameters, each a field where quoted.
    At,
    /// `*`: the positional parameters, joined where quoted.
    Asterisk,
    /// `#`: how many positional parameters there are.
    Count,
    /// `?`: the status of the last pipeline.
    Status,
    /// `-`: the letters of the options.
    Options,
    /// `$`: the process id of the shell.
    Process,
    /// `!`: the process id of the last asynchronous list.
    Background,
    /// `0`: the name of the shell or of its script.
    Zero,
}

/// When `${p-w}` and its like take the word, or for `+` don't (XCU 2.6.2).
#[derive(Clone, Copy, Debug, PartialEq, Eq)]
pub enum Absence {
    /// Without a colon: the parameter is unset.
    Unset,
    /// With a colon: the parameter is unset or null.
    UnsetOrNull,
}

/// What `${p-w}` and its like do with the word (XCU 2.6.2).
#[derive(Clone, Copy, Debug, PartialEq, Eq)]
pub enum ConditionalAction {
    /// `-`: uses it in place of the value.
    Default,
    /// `=`: assigns it.
    Assign,
    /// `?`: fails, with it as the message.
    Error,
    /// `+`: uses it where there is a value.
    Alternative,
}

/// Which end of a value a pattern is taken off (XCU 2.6.2).
#[derive(Clone, Copy, Debug, PartialEq, Eq)]
pub enum Affix {
    /// `#`: the prefix.
    Prefix,
    /// `%`: the suffix.
    Suffix,
}

/// How much of a value a pattern is to match (XCU 2.6.2).
#[derive(Clone, Copy, Debug, PartialEq, Eq)]
pub enum Extent {
    /// The sign once: as little as matches.
    Smallest,
    /// The sign twice: as much as matches.
    Largest,
}

/// A name as it is in the source (XBD 3.216).
#[derive(Debug, Drop)]
pub struct Name {
    pub name: Text,
    /// Each byte of the word that holds it, joined lines included.
    pub source: Text,
}

/// A redirection (XCU 2.7).
#[cycle(syntax)]
#[derive(Drop)]
pub struct Redirect {
    /// The digits of the file descriptor's number, where one is given.
    pub number: Option<Text>,
    pub target: Target,
}

/// What a redirection makes the file descriptor refer to (XCU 2.7).
#[cycle(syntax)]
#[derive(Drop)]
pub enum Target {
    /// A file, or another file descriptor, that a word names.
    Named {
        operator: RedirectOperator,
        word: Word,
    },
    /// A here-document (XCU 2.7.4). The body of one whose delimiter is quoted is a single literal part.
    Here {
        operator: HereDocumentOperator,
        delimiter: Word,
        body: Shared<Parts>,
    },
}

/// The operator of a redirection to what a word names (XCU 2.7).
#[derive(Clone, Copy, Debug, PartialEq, Eq)]
pub enum RedirectOperator {
    /// `<`
    Input,
    /// `>`
    Output,
    /// `>|`
    Clobber,
    /// `>>`
    Append,
    /// `<&`
    DuplicateInput,
    /// `>&`
    DuplicateOutput,
    /// `<>`
    ReadWrite,
}

/// The operator of a here-document (XCU 2.7.4).
#[derive(Clone, Copy, Debug, PartialEq, Eq)]
pub enum HereDocumentOperator {
    /// `<<`
    AsWritten,
    /// `<<-`: leading tabs are stripped.
    TabsStripped,
}

/// A command (XCU 2.9).
#[cycle(syntax)]
pub enum Command {
    /// A simple command: at least one item, in the order of the source.
    Simple(Sequence<SimpleItem>),
    Compound(Shared<Compound>),
    /// A function definition (XCU 2.9.5).
    Function { name: Name, body: Shared<Compound> },
}

/// What a simple command is made of (XCU 2.9.1).
#[cycle(syntax)]
#[derive(Drop)]
pub enum SimpleItem {
    /// `NAME=value`.
    Assignment {
        name: Text,
        value: Shared<Parts>,
        /// Each byte of the word, from the name on.
        source: Text,
    },
    Word(Word),
    Redirect(Redirect),
}

/// A compound command with its redirections (XCU 2.9.4).
#[cycle(syntax)]
pub struct Compound {
    pub form: CompoundForm,
    pub redirects: Sequence<Redirect>,
}

/// The compound commands (XCU 2.9.4).
#[cycle(syntax)]
#[derive(Drop)]
pub enum CompoundForm {
    /// `{ list ; }`
    Group(Shared<CompoundList>),
    /// `( list )`
    Subshell(Shared<CompoundList>),
    /// `if list then list`, each further `elif list then list`, `else list`, `fi`.
    If {
        condition: Shared<CompoundList>,
        body: Shared<CompoundList>,
        else_ifs: Sequence<ElseIf>,
        else_body: Option<Shared<CompoundList>>,
    },
    /// `while list do list done`, or the same with `until`.
    Loop {
        kind: LoopKind,
        condition: Shared<CompoundList>,
        body: Shared<CompoundList>,
    },
    /// `for NAME in words ; do list done`
    For {
        name: Name,
        words: Sequence<Word>,
        body: Shared<CompoundList>,
    },
    /// `for NAME do list done`, over the positional parameters.
    ForParameters {
        name: Name,
        /// Whether a semicolon or newline is before the `do`.
        is_separated: bool,
        body: Shared<CompoundList>,
    },
    /// `case word in items esac`
    Case {
        word: Word,
        items: Sequence<CaseItem>,
    },
}

/// `elif list then list` (XCU 2.9.4.4).
#[cycle(syntax)]
#[derive(Drop)]
pub struct ElseIf {
    pub condition: Shared<CompoundList>,
    pub body: Shared<CompoundList>,
}

/// How long a loop runs (XCU 2.9.4.5, 2.9.4.6).
#[derive(Clone, Copy, Debug, PartialEq, Eq)]
pub enum LoopKind {
    /// While its condition succeeds.
    While,
    /// Until its condition succeeds.
    Until,
}

/// An item of a case: patterns and a list (XCU 2.9.4.3).
#[cycle(syntax)]
#[derive(Drop)]
pub struct CaseItem {
    /// Whether the optional `(` is before the patterns.
    pub has_parenthesis: bool,
    pub pattern: Word,
    /// The patterns after a `|`.
    pub more_patterns: Sequence<Word>,
    /// The list after the `)`. It has no item where no command is there.
    pub body: Shared<CompoundList>,
    pub end: CaseEnd,
}

/// What ends an item of a case (XCU 2.9.4.3).
#[derive(Clone, Copy, Debug, PartialEq, Eq)]
pub enum CaseEnd {
    /// Nothing: it is the last item, and the `;;` is left out.
    Omitted,
    /// `;;`
    Break,
}

/// A pipeline (XCU 2.9.2).
#[cycle(syntax)]
pub struct Pipeline {
    /// Whether a `!` is before it.
    pub is_negated: bool,
    pub first: Shared<Command>,
    /// The commands after a `|`.
    pub rest: Sequence<Shared<Command>>,
}

/// An AND-OR list (XCU 2.9.3).
#[cycle(syntax)]
pub struct AndOr {
    pub first: Shared<Pipeline>,
    /// The pipelines after a `&&` or `||`.
    pub rest: Sequence<Connected>,
}

/// A further pipeline of an AND-OR list, and what joins it to the one before.
#[cycle(syntax)]
#[derive(Drop)]
pub struct Connected {
    pub connector: Connector,
    pub pipeline: Shared<Pipeline>,
}

/// What joins two pipelines (XCU 2.9.3.2, 2.9.3.3).
#[derive(Clone, Copy, Debug, PartialEq, Eq)]
pub enum Connector {
    /// `&&`: run if what is before it succeeds.
    And,
    /// `||`: run if what is before it fails.
    Or,
}

/// AND-OR lists one after another: a complete command (XCU 2.10.2), the list inside a compound command, or
/// the commands of a substitution.
#[cycle(syntax)]
pub struct CompoundList {
    pub items: Sequence<ListItem>,
}

impl CompoundList {
    /// Takes the AND-OR lists out.
    pub fn into_items(self) -> Sequence<ListItem>
        ensures { result ≡ (view.out-CompoundList self).items }
    {
        let CompoundList { items: lists } = self;
        lists
    }
}

/// An AND-OR list of a list, and how it is run (XCU 2.9.3).
#[cycle(syntax)]
#[derive(Drop)]
pub struct ListItem {
    pub list: Shared<AndOr>,
    pub separator: Separator,
}

/// What comes after an AND-OR list (XCU 2.9.3).
#[derive(Clone, Copy, Debug, PartialEq, Eq)]
pub enum Separator {
    /// `;`, a newline or nothing: the shell waits for the end of the list.
    Sequential,
    /// `&`: the shell goes on at once.
    Asynchronous,
}

// The types inside a `Shared` say how they are dropped, instead of deriving it. That is proved once here, so
// no crate above has to prove it again for the whole cycle of a tree's types.

impl Drop for Parts {
    #[cycle(letting_go)]
    fn drop(self) {
        let Parts { items } = self;
        drop(items);
    }
}

impl Drop for Command {
    #[cycle(letting_go)]
    fn drop(self) {
        match self {
            Command::Simple(items) => drop(items),
            Command::Compound(compound) => drop(compound),
            Command::Function { name, body } => {
                drop(name);
                drop(body);
            }
        }
    }
}

impl Drop for Compound {
    #[cycle(letting_go)]
    fn drop(self) {
        let Compound { form, redirects } = self;
        drop(form);
        drop(redirects);
    }
}

impl Drop for Pipeline {
    #[cycle(letting_go)]
    fn drop(self) {
        let Pipeline {
            is_negated: _,
            first,
            rest,
        } = self;
        drop(first);
        drop(rest);
    }
}

impl Drop for AndOr {
    #[cycle(letting_go)]
    fn drop(self) {
        let AndOr { first, rest } = self;
        drop(first);
        drop(rest);
    }
}

impl Drop for CompoundList {
    #[cycle(letting_go)]
    fn drop(self) {
        let CompoundList { items } = self;
        drop(items);
    }
}
