//! The kinds of productions: what the tree has for each.
use sh_syntax::tree::{Connector, Separator};

/// The kind of a production: what it makes of the values of those symbols of its body that matter.
#[derive(Clone, Copy)]
pub enum Kind {
    /// The kind of a body in which no symbol matters: an empty list, no further part, or newlines.
    Nothing,
    One(Unary),
    Two(Binary),
    Three(Ternary),
}

/// What a production makes of one value.
#[derive(Clone, Copy)]
pub enum Unary {
    /// That value.
    Same,
    /// A list after a separator.
    Separated(Separator),
    /// `else list`.
    Else,
    /// The list of a `for` without words.
    Parameters { is_separated: bool },
    /// The list of a `for` with words, after the last word.
    LastValue,
    /// `{ list }`
    Group,
    /// `( list )`
    Subshell,
    /// The end of an item of a case without a list.
    EmptyItem,
    /// `;;` and the further items of a case.
    Break,
}

/// What a production makes of two values.
#[derive(Clone, Copy)]
pub enum Binary {
    /// A list: its first AND-OR list, and what comes after that.
    List,
    /// A compound list, from the same two.
    CompoundList,
    /// An AND-OR list: its first pipeline and the further ones.
    AndOr,
    /// Further pipelines: the connector, the first of them, and the others.
    Connected(Connector),
    /// A pipeline, with a `!` before it or not: its first command and the further ones.
    Pipeline { is_negated: bool },
    /// Further commands of a pipeline.
    Piped,
    /// A compound command: its form and redirections.
    Compound,
    /// The body of a function: the same two.
    Body,
    /// A name, and after it the body of a function or the other items of a simple command.
    Named,
    /// A simple command: its first item, which is of this kind, and the others.
    Simple(Item),
    /// Further items of a simple command.
    Items(Item),
    /// Redirections.
    Redirects,
    /// A redirection without a number: its operator and word.
    Redirect,
    /// A `for`: its variable, and what comes after that.
    For,
    /// Words of a `for`: the first of them, and the others with the list.
    Value,
    /// A `case`: its word and items.
    Case,
    /// Further patterns of an item of a `case`.
    Patterns,
}

/// What a production makes of three values.
#[derive(Clone, Copy)]
pub enum Ternary {
    /// A redirection: its number, operator and word.
    Redirect,
    /// An `if`: its condition, its list, and what comes after that list.
    If,
    /// `elif`: the same three.
    ElseIf,
    /// A loop: its first word, its condition and its list.
    Loop,
    /// An item of a `case` and the items after it: its first pattern, the further ones, and what comes after
    /// its `)`.
    CaseItem { has_parenthesis: bool },
    /// The list of an item of a `case`: the two parts of a list, and the end of the item.
    ItemList,
}

/// An item of a simple command.
#[derive(Clone, Copy)]
pub enum Item {
    Word,
    Assignment,
    Redirect,
}
