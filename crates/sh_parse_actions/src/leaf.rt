//! What the tokens of a derivation are to its tree.
use sh_base::sequence::Text;
use sh_base::shared::Shared;
use sh_syntax::tree::{HereDocumentOperator, Parts, RedirectOperator, Word};

/// What a token is to the tree.
#[derive(Drop)]
pub enum Leaf {
    /// A newline, or an operator other than a redirection operator: the tree needs nothing of it.
    Operator,
    /// The operator of a redirection to what a word names (XCU 2.7).
    Redirection(RedirectOperator),
    /// The operator of a here-document (XCU 2.7.4), with the body. The delimiter is the next token.
    HereDocument {
        operator: HereDocumentOperator,
        body: Shared<Parts>,
    },
    /// The digits of a file descriptor's number.
    Number(Text),
    /// A word that is neither a name nor an assignment.
    Word(Word),
    /// A word that is a name (XBD 3.216), a reserved word or not, and the name without its joined lines.
    Name {
        word: Word,
        name: Text,
    },
    /// A word that begins with an unquoted name and `=`: the name, and the parts after the `=`.
    Assignment {
        word: Word,
        name: Text,
        value: Shared<Parts>,
    },
}
