//! Laws on judged tokens, and on the lists of commands of texts.
ghost use Rattle.std.specs.Prelude.{◌≡◌, ◌↔◌, ℕ, Bool, List, Result, Some, None, Ok};
ghost use Rattle.sh_grammar.specs.Grammar.{Tree};
ghost use Rattle.sh_grammar.specs.Tabulation.{Tabulation};
ghost use Rattle.sh_grammar.specs.Text.{IsTreeOf};
ghost use Rattle.sh_syntax.specs.declared.tree.CompoundList.{CompoundList};
ghost use Rattle.sh_syntax.specs.declared.tree.Parts.{Parts};
ghost use Rattle.sh_parse_words.specs.Meaning.{syntax_of};
ghost use Rattle.sh_parse_documents.specs.declared.item.Item.{Item};
ghost use Rattle.sh_parse_documents.specs.Stream.{items_of};
ghost use Rattle.sh_parse_documents.specs.Waiting.{Waiting, nothing};
ghost use Rattle.sh_parse_words.specs.declared.fault.PartFault.{PartFault};
ghost use Rattle.sh_parse_leaves.specs.Inputs.{inputs_of};
ghost use Rattle.sh_parse_leaves.specs.Words.{Reader, within};
ghost use Rattle.sh_parse_commands.specs.Judging.{IsShell, Judged, none_of, with_items, with_bodies, tree_by};
ghost use Rattle.sh_aliases.specs.Aliases.{AliasTable, no_aliases};
ghost use Rattle.sh_parse_commands.specs.Replacing.{Inside, Origin, origin, with_tokens};
ghost use Rattle.sh_parse_commands.specs.Rewriting.{IsRewritten, Sourced, plainly, sourced, with_sourced};
ghost use Rattle.sh_parse_commands.specs.Programs.{inside_of, program_in, read_text};
ghost use Rattle.sh_parse_commands.specs.Defined.{AreTokens, IsProgram};

/// Law: where tokens are judged without fault, the syntax of their derivation is their tree, whatever bodies
/// their here-documents have.
pub fn judged_tokens_have_their_tree()
    ensures { (grammar : Tabulation) → IsShell grammar → (read : Reader) (left : ℕ) (text : List ℕ) (tokens : List Item) (j : Judged) → AreTokens tokens → with_items (within read left text) nothing tokens (none_of grammar) ≡ Ok j → (tree : Tree) → IsTreeOf grammar (inputs_of tokens) tree → (bodies : List Parts) → syntax_of tree (with_bodies j.leaves bodies) ≡ Some (tree_by (record j { bodies = bodies })) }
{}

/// Law: no tokens have two derivations by the grammar of commands, nor by the grammar of substitutions.
pub fn no_tokens_have_two_derivations()
    ensures { (grammar : Tabulation) → IsShell grammar → (tokens : List Item) (x y : Tree)
        → IsTreeOf grammar (inputs_of tokens) x → IsTreeOf grammar (inputs_of tokens) y → x ≡ y }
{}

/// Law: none of the items of a text is its end.
pub fn items_are_tokens()
    ensures { (at_end : Bool) (text : List ℕ) → AreTokens (items_of at_end text).items }
{}

/// Law: without aliases `program_in` gives an answer exactly where the text has this answer by derivations. A list of
/// commands is given exactly where the tokens derive without a fault, and a refused token is the first with
/// which the tokens are no prefix.
pub fn program_is_the_defined_one()
    ensures { (inside : Inside) (o : Origin) (answer : Result CompoundList PartFault)
        → (program_in no_aliases inside o ≡ answer) ↔ IsProgram (inside.read o.from) o.left o.text answer }
{}

/// Law: `inside_of` reads a text by the same definition, whatever aliases there are, and reads the texts of its substitutions by
/// `inside_of` again. So no text and no value nests too deep for it. Without aliases `read_text` is defined by derivations.
pub fn read_text_is_the_defined_one()
    ensures itself { (table : AliasTable) (from : List (List ℕ)) (left : ℕ) (text : List ℕ)
        → (inside_of table).read from left text ≡ program_in table (inside_of table) (origin from left text) }
    ensures defined { (left : ℕ) (text : List ℕ) (answer : Result CompoundList PartFault)
        → (read_text no_aliases left text ≡ answer) ↔ IsProgram (read_text no_aliases) left text answer }
{}

/// Law: tokens that are read with aliases are judged as those that come of rewriting them (XCU 2.3.1): the first one that is replaced is
/// replaced by the tokens of its alias's value, until none is replaced. So one pass over the tokens does what rewriting does.
pub fn aliases_are_rewritings()
    ensures { (table : AliasTable) (grammar : Tabulation) (o : Origin) (w : Waiting) (tokens : List Item) (rewritten : List Sourced)
        → IsRewritten table grammar (sourced o None w tokens) rewritten
        → plainly (with_tokens table (inside_of table) o w tokens (none_of grammar))
        ≡ plainly (with_sourced (inside_of table) rewritten (none_of grammar)) }
{}

/// Law: rewriting ends, whatever aliases there are: each row of tokens comes to one in which none is replaced.
pub fn rewriting_ends()
    ensures { (table : AliasTable) (grammar : Tabulation) (o : Origin) (w : Waiting) (tokens : List Item)
        → (rewritten : List Sourced) × IsRewritten table grammar (sourced o None w tokens) rewritten }
{}
