//! Laws on the syntax of derivations.
ghost use Rattle.sh_token_grammar.specs.Shell.{complete, substitution};
ghost use Rattle.sh_parse_words.specs.Fitting.{FittingHaveSyntax};
ghost use Rattle.sh_parse_words.specs.Productions.{AreThoseOf};

/// Law: a derivation whose tokens have fitting leaves has a syntax.
pub fn fitting_leaves_have_syntax()
    ensures command { FittingHaveSyntax complete }
    ensures substitution { FittingHaveSyntax substitution }
{}

/// Law: the productions that have their kinds beside them are the productions of the grammar, symbol by
/// symbol and in its order. So the row of `&&` is the production of `&&`.
pub fn kinds_stand_beside_their_productions()
    ensures command { AreThoseOf complete }
    ensures substitution { AreThoseOf substitution }
{}
