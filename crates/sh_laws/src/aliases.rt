//! Laws on aliases.
ghost use Rattle.std.specs.Prelude.{◌≡◌, ◌↔◌, true, false, List, None, Result, Ok, Some};
ghost use Rattle.sh_aliases.specs.Aliases.{AliasTable};
ghost use Rattle.sh_grammar.specs.Grammar.{Tree};
ghost use Rattle.sh_grammar.specs.Tabulation.{Tabulation};
ghost use Rattle.sh_grammar.specs.Text.{IsText, IsTreeOf};
ghost use Rattle.sh_laws.specs.Rewritten.{AreFaultless, AreJudged, HaveNoEnd, Judge, inputs_there};
ghost use Rattle.sh_parse_commands.specs.Judging.{IsShell, Judged, are_whole, none_of, tree_by, with_bodies};
ghost use Rattle.sh_parse_commands.specs.Programs.{inside_of};
ghost use Rattle.sh_parse_commands.specs.Replacing.{Origin, with_tokens};
ghost use Rattle.sh_parse_commands.specs.Rewriting.{IsRewritten, Sourced, plainly, sourced};
ghost use Rattle.sh_parse_documents.specs.Waiting.{Waiting};
ghost use Rattle.sh_parse_documents.specs.declared.item.Item.{Item};
ghost use Rattle.sh_parse_words.specs.Meaning.{syntax_of};
ghost use Rattle.sh_parse_words.specs.declared.fault.PartFault.{PartFault};
ghost use Rattle.sh_syntax.specs.declared.tree.Parts.{Parts};

/// Law: tokens that are read with aliases are judged as derivations say of the tokens that come of rewriting them (XCU 2.3.1, 2.10). They
/// are judged without a fault exactly where each of the rewritten ones is taken: up to it they are a prefix of what derives. A token that
/// is refused is the first with which they are no prefix; where it came from a value, that is told at the word that the value replaces.
/// The tokens are whole exactly where they derive, and then the syntax of their derivation is their tree, whatever bodies their
/// here-documents have.
pub fn rewritten_tokens_are_judged_by_derivations()
    ensures judged { (table : AliasTable) (grammar : Tabulation) → IsShell grammar → (o : Origin) (w : Waiting) (tokens : List Item) (rewritten : List Sourced)
        → IsRewritten table grammar (sourced o None w tokens) rewritten → (answer : Result Judged PartFault)
        → (plainly (with_tokens table (inside_of table) o w tokens (none_of grammar)) ≡ answer)
        ↔ AreJudged (record { grammar = grammar; inside = inside_of table }) rewritten answer }
    ensures whole { (j : Judged) → IsShell j.grammar → (are_whole j ≡ true) ↔ IsText j.grammar j.tokens }
    ensures tree { (g : Judge) → IsShell g.grammar → (rewritten : List Sourced) (j : Judged) → AreFaultless g rewritten j → HaveNoEnd rewritten
        → (tree : Tree) → IsTreeOf g.grammar (inputs_there rewritten) tree → (bodies : List Parts)
        → syntax_of tree (with_bodies j.leaves bodies) ≡ Some (tree_by (record j { bodies = bodies })) }
{}
