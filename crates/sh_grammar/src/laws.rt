//! Laws on the grammars that pass the test.
ghost use Rattle.std.specs.Prelude.{◌≡◌, ◌<◌, ◌≤◌, ◌↔◌, ℕ, suc, List, IsTrue, length, take};
ghost use Rattle.sh_grammar.specs.declared.Token.{Token};
ghost use Rattle.sh_grammar.specs.Grammar.{Tree};
ghost use Rattle.sh_grammar.specs.Tabulation.{Tabulation, grammar_of};
ghost use Rattle.sh_grammar.specs.Passes.{IsPredictive};
ghost use Rattle.sh_grammar.specs.Text.{IsTreeOf, IsText, BeginsText};
ghost use Rattle.sh_grammar.specs.Computed.{is_whole, is_prefix, prefix_length};
ghost use Rattle.sh_grammar.specs.Derived.{tree_of};
ghost use Rattle.sh_grammar.specs.Awaited.{awaited_count};
ghost use Rattle.sh_grammar.specs.Around.{Marks, nodes_around};

/// Law: no tokens have two trees.
pub fn one_tree()
    ensures { (d : Tabulation) → IsPredictive d → (tokens : List Token) (x y : Tree)
        → IsTreeOf d tokens x → IsTreeOf d tokens y → x ≡ y }
{}

/// Law: the computed `is_whole` is true of exactly the tokens that derive from the start symbol.
pub fn whole_is_text()
    ensures { (d : Tabulation) → IsPredictive d → (tokens : List Token)
        → IsTrue (is_whole d tokens) ↔ IsText d tokens }
{}

/// Law: the computed `is_prefix` is true of exactly the tokens that begin a text: with some further tokens
/// they derive from the start symbol.
pub fn prefix_begins_text()
    ensures { (d : Tabulation) → IsPredictive d → (tokens : List Token)
        → IsTrue (is_prefix d tokens) ↔ BeginsText d tokens }
{}

/// Law: the first `k` tokens begin a text exactly where `k` is at most the computed `prefix_length`.
pub fn prefix_length_is_longest()
    ensures { (d : Tabulation) → IsPredictive d → (tokens : List Token) (k : ℕ) → k ≤ length tokens
        → (k ≤ prefix_length d tokens) ↔ BeginsText d (take k tokens) }
{}

/// Law: the tree of tokens that derive from the start symbol is the computed `tree_of`.
pub fn tree_is_computed()
    ensures { (d : Tabulation) → IsPredictive d → (tokens : List Token) (tree : Tree)
        → IsTreeOf d tokens tree → tree_of d tokens ≡ tree }
{}

/// Law: where a nonterminal marks the end of each production of another one, it is awaited after a token of a
/// text as often as there are nodes of these productions around that token.
pub fn awaited_marks_are_around()
    ensures { (d : Tabulation) → IsPredictive d → (m n : ℕ) → Marks d m n
        → (tokens : List Token) (tree : Tree) → IsTreeOf d tokens tree → (i : ℕ)
        → i < length tokens → awaited_count d m (take (suc i) tokens)
        ≡ nodes_around (grammar_of d).rules n tree i }
{}
