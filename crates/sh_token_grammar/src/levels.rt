//! How many compound commands (XCU 2.9.4) are open after the tokens that a recognizer has taken.
ghost use Rattle.std.specs.Prelude.{◌≡◌};
ghost use Rattle.sh_token_grammar.specs.Levels.{open_compounds, begins_compound, OpenAreRound};
ghost use Rattle.sh_token_grammar.specs.Shell.{complete, substitution, compound_end, number_of};

use crate::class::TokenClass;
use crate::tables::COMPOUND_END;
use sh_grammar::Recognizer;

/// The number of the nonterminal at the end of each compound command, for `Recognizer::awaits`.
pub fn end_of_compound() -> u8
    ensures { result ≡ number_of compound_end }
{
    COMPOUND_END
}

/// Makes the recognizer keep the count for `open_compounds`, which then tells it at once. It takes no memory.
pub fn keep_open_compounds(recognizer: &mut Recognizer<'_>)
    ensures { recognizer.new ≡ recognizer.old }
{
    recognizer.keep_count(end_of_compound());
}

/// How many compound commands are open after the tokens taken so far, where the recognizer reads by one of
/// the tables of `grammar`. Each is open after each of its tokens, the last one included: the count is 3
/// after `{ ( if` and 1 after `{ :; }`. A refused token changes nothing. It takes no memory. Without
/// `keep_open_compounds` the time grows with the levels that are open.
pub fn open_compounds(recognizer: &Recognizer<'_>) -> usize
    ensures { result ≡ open_compounds recognizer.now.grammar recognizer.now.tokens }
{
    recognizer.awaits(end_of_compound())
}

impl TokenClass {
    /// Whether a compound command may begin with the token. No other token opens one.
    pub fn begins_compound(self) -> bool
        ensures { result ≡ begins_compound self }
    {
        match self {
            TokenClass::LeftParenthesis
            | TokenClass::LeftBrace
            | TokenClass::If
            | TokenClass::While
            | TokenClass::Until
            | TokenClass::For
            | TokenClass::Case => true,
            _ => false,
        }
    }
}

/// Law: after each token of a text, as many compound commands are open as there are around that token in the
/// text's tree.
pub fn open_compounds_are_nested()
    ensures command { OpenAreRound complete }
    ensures substitution { OpenAreRound substitution }
{}
