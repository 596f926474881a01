//! A law on the levels of expressions.
ghost use Rattle.std.specs.Prelude.{◌≡◌, List};
ghost use Rattle.sh_grammar.specs.declared.Token.{Token};
ghost use Rattle.sh_grammar.specs.Grammar.{Tree};
ghost use Rattle.sh_grammar.specs.Text.{IsTreeOf};
ghost use Rattle.sh_arith_grammar.specs.Grammar.{arithmetic};
ghost use Rattle.sh_arith_grammar.specs.Levels.{are_shallow, none_open};
ghost use Rattle.sh_arith_grammar.specs.Nesting.{is_few};

/// Law: the tokens of an expression open no level past the 500th exactly where no part of its tree is inside
/// more than 500 levels.
pub fn levels_are_nested()
    ensures { (tokens : List Token) (tree : Tree) → IsTreeOf arithmetic tokens tree
        → are_shallow none_open tokens ≡ is_few tree 0 }
{}
