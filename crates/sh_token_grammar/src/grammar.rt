//! The grammar of the shell (XCU 2.10.2) as tables of the generic recognizer.
ghost use Rattle.std.specs.Prelude.{◌≡◌};
ghost use Rattle.sh_grammar.specs.Tabulation.{tabulation_of};
ghost use Rattle.sh_grammar.specs.Passes.{IsPredictive};
ghost use Rattle.sh_token_grammar.specs.Shell.{complete, substitution};

use crate::tables::{
    BODIES, COMPLETE_COMMAND, ENDING, FIRSTS, GUARDS, HEADS, NULLABLES, PREDICTS, SUBSTITUTED,
    TERMINALS,
};
use sh_grammar::Tables;

/// The tables of a complete command.
pub fn complete_command() -> Tables<'static>
    ensures grammar { tabulation_of result ≡ complete }
    ensures predictive { IsPredictive (tabulation_of result) }
{
    Tables {
        heads: &HEADS,
        bodies: &BODIES,
        guards: &GUARDS,
        terminals: &TERMINALS,
        ending: ENDING,
        start: COMPLETE_COMMAND,
        firsts: &FIRSTS,
        nullables: &NULLABLES,
        predicts: &PREDICTS,
    }
}

/// The tables of the text of a command substitution (XCU 2.6.3): a compound list, or newlines alone.
pub fn substituted() -> Tables<'static>
    ensures grammar { tabulation_of result ≡ substitution }
    ensures predictive { IsPredictive (tabulation_of result) }
{
    Tables {
        heads: &HEADS,
        bodies: &BODIES,
        guards: &GUARDS,
        terminals: &TERMINALS,
        ending: ENDING,
        start: SUBSTITUTED,
        firsts: &FIRSTS,
        nullables: &NULLABLES,
        predicts: &PREDICTS,
    }
}
