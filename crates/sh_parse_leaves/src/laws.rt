//! Laws of leaves.
ghost use Rattle.std.specs.Prelude.{◌≡◌, ℕ, List, Ok, IsTrue};
ghost use Rattle.sh_base.specs.declared.span.Span.{Span};
ghost use Rattle.sh_token_grammar.specs.Classes.{class_number};
ghost use Rattle.sh_token.specs.declared.token.TokenKind.{TokenKind};
ghost use Rattle.sh_parse_actions.specs.declared.leaf.Leaf.{Leaf};
ghost use Rattle.sh_parse_words.specs.Fitting.{fits};
ghost use Rattle.sh_parse_leaves.specs.Inputs.{class_of_kind};
ghost use Rattle.sh_parse_leaves.specs.Words.{Reader};
ghost use Rattle.sh_parse_leaves.specs.Leaves.{leaf_of};

/// Law: what a token is to the tree fits its class.
pub fn leaves_fit()
    ensures { (read : Reader) (left : ℕ) (text : List ℕ) (kind : TokenKind) (span : Span)
        (leaf : Leaf) → (kind ≡ TokenKind.End → ⊥) → leaf_of read left text kind span ≡ Ok leaf
        → IsTrue (fits (class_number (class_of_kind kind)) leaf) }
{}
