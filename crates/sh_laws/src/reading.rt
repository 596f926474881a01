//! Laws on words.
ghost use Rattle.std.specs.Prelude.{◌≡◌, ◌≤◌, ◌<◌, ◌^◌, ℕ, Bool, true, List, ◌∷◌, ◌++◌, length, Ok, Err};
ghost use Rattle.std.specs.List.{list_all};
ghost use Rattle.sh_token_pieces.specs.TokenClasses.{is_byte};
ghost use Rattle.sh_token.specs.Body.{IsPrefix, TooDeepAt};
ghost use Rattle.sh_token.specs.FirstToken.{DeepAt};
ghost use Rattle.sh_token.specs.Found.{first_token, pieces_of_body};
ghost use Rattle.sh_token.specs.Tokens.{HasToken};
ghost use Rattle.sh_token.specs.declared.token.TokenKind.{TokenKind};
ghost use Rattle.sh_token_pieces.specs.declared.here.Delimiter.{Delimiter};
ghost use Rattle.sh_token_pieces.specs.declared.piece.Piece.{Piece};
ghost use Rattle.sh_syntax.specs.declared.tree.Part.{Part};
ghost use Rattle.sh_parse_documents.specs.declared.item.Item.{Item};
ghost use Rattle.sh_parse_documents.specs.Stream.{items_of};
ghost use Rattle.sh_parse_words.specs.declared.fault.PartFault.{PartFault};
ghost use Rattle.sh_parse_words.specs.Building.{parts_of};
ghost use Rattle.sh_parse_commands.specs.Defined.{FirstFault, Judge};
ghost use Rattle.sh_parse_commands.specs.Documents.{bodies_of};
ghost use Rattle.sh_parse_leaves.specs.Leaves.{leaf_of};
ghost use Rattle.sh_parse_commands.specs.Programs.{inside_of};
ghost use Rattle.sh_parse_leaves.specs.Words.{Reader, parts_in};
ghost use Rattle.sh_exec_command.specs.Reading.{next_command};
ghost use Rattle.sh_laws.specs.BeforeAction.{FoundBegins};
ghost use Rattle.sh_laws.specs.Spelled.{AreSpelled, Nested};
ghost use Rattle.sh_aliases.specs.Aliases.{AliasTable};
ghost use Rattle.sh_parse.specs.Reading.{reading};
ghost use Rattle.sh_laws.specs.Standing.{Stands, StandsBefore};

/// Law: where the pieces of a word, or of a here-document's body, spell some parts, the reader gives these parts and no others (XCU 2.2,
/// 2.6).
pub fn spelled_parts_are_given()
    ensures { (read : Reader) (left : ℕ) (text : List ℕ) (pieces : List Piece) (bytes : List ℕ) (parts : List Part) → AreSpelled read text left pieces bytes parts → parts_in read left text pieces bytes ≡ Ok (parts_of parts) }
{}

/// Law: no pieces spell two lists of parts.
pub fn pieces_spell_one_word()
    ensures { (read : Reader) (left : ℕ) (text : List ℕ) (pieces : List Piece) (bytes : List ℕ) (one other : List Part) → AreSpelled read text left pieces bytes one → AreSpelled read text left pieces bytes other → one ≡ other }
{}

/// Law: what the reader gives for pieces that close each form that they open is what these spell.
pub fn given_parts_are_spelled()
    ensures { (read : Reader) (left : ℕ) (text : List ℕ) (pieces : List Piece) (bytes : List ℕ)
        (parts : List Part) → Nested pieces → parts_in read left text pieces bytes
        ≡ Ok (parts_of parts) → AreSpelled read text left pieces bytes parts }
{}

/// Law: the pieces of each word of a text, and of each here-document's body, close each form that they open;
/// and so do the pieces after bytes at a word's front, such as those of an assignment's value after its name
/// and `=`.
pub fn words_are_nested()
    ensures words { (at_end : Bool) (levels : ℕ) (bytes prefix rest : List ℕ) (pieces : List Piece)
        → HasToken at_end levels bytes prefix rest (TokenKind.Word pieces) → Nested pieces }
    ensures values { (prefix pieces : List Piece) → list_all is_byte prefix ≡ true → Nested (prefix ++ pieces) → Nested pieces }
    ensures bodies { (levels : ℕ) (bytes : List ℕ) (pieces : List Piece) (place : List ℕ)
        → IsPrefix levels bytes pieces place → Nested pieces }
{}

/// Law: no text opens as many levels as it has bytes. So where that many may be open, as where commands are read, no token and no body
/// of a here-document is too deep to be found.
pub fn no_text_opens_a_level_for_each_byte()
    ensures tokens { (at_end : Bool) (levels : ℕ) (bytes : List ℕ) (place : ℕ)
        → length bytes ≤ levels → first_token at_end levels bytes ≡ DeepAt place → ⊥ }
    ensures bodies { (levels : ℕ) (bytes : List ℕ) (place : ℕ) → length bytes ≤ levels
        → pieces_of_body levels bytes ≡ TooDeepAt place → ⊥ }
{}

/// Law: the place of a fault in a word is inside that word, also of a fault in the commands of a substitution
/// there. The place of a fault in the bodies of here-documents after a token is inside these bodies. So the
/// first fault of a text's tokens, however they are judged, is between the first byte of the token that has
/// it and the end of the bodies after that token. The text has less than 2^64 bytes. Want of memory has no
/// place. So it is whatever aliases there are.
pub fn faults_stand_in_their_words()
    ensures words { (table : AliasTable) (from : List (List ℕ)) → (at_end : Bool) (text : List ℕ) → length text < 2 ^ 64 → (before : List Item) (t : Item) (after : List Item) → (items_of at_end text).items ≡ before ++ t ∷ after → (left : ℕ) (f : PartFault) → leaf_of ((inside_of table).read from) left text t.token.kind t.token.span ≡ Err f → Stands t.token.span.start t.token.span.«end» f }
    ensures bodies { (table : AliasTable) (from : List (List ℕ)) → (left : ℕ) (text : List ℕ) (due : List Delimiter) (t : Item) (f : PartFault)
        → t.token.span.«end» ≤ t.«end» → bodies_of ((inside_of table).read from) left text due t ≡ Err f
        → Stands t.token.span.«end» t.«end» f }
    ensures first { (table : AliasTable) (from : List (List ℕ)) → (at_end : Bool) (text : List ℕ) → length text < 2 ^ 64 → (judge : Judge)
        → judge.read ≡ (inside_of table).read from → judge.text ≡ text
        → (f : PartFault) (first : FirstFault judge (items_of at_end text).items f)
        → Stands first.token.token.span.start first.token.«end» f }
{}

/// Law: the place of a fault of a text is before the decision place at which the fault is told, after which
/// the next reading begins. The text has less than 2^64 bytes. So it is whatever aliases there are.
pub fn faults_stand_before_their_decision()
    ensures { (aliases : AliasTable) (at_end : Bool) (text : List ℕ) → length text < 2 ^ 64 → StandsBefore (reading aliases at_end text) }
{}

/// Law: the command that a shell finds in a text begins with an action wherever it is entered. So each list of
/// commands in it has a command, unless it is the list of a command substitution or of an item of a `case`.
pub fn found_commands_begin_with_actions()
    ensures { (aliases : AliasTable) (text : List ℕ) → FoundBegins (next_command aliases text) }
{}
