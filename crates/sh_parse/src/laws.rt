//! Laws on readings.
ghost use Rattle.std.specs.Prelude.{◌≡◌, ◌↔◌, ℕ, Bool, List, length};
ghost use Rattle.sh_parse_documents.specs.Stream.{items_of};
ghost use Rattle.sh_aliases.specs.Aliases.{AliasTable, no_aliases};
ghost use Rattle.sh_parse.specs.Reading.{Answer, reading};
ghost use Rattle.sh_parse.specs.Defined.{IsReading};
ghost use Rattle.sh_parse.specs.Insides.{AreInside, IsInside};

/// Law: without aliases `reading` gives an answer exactly where the text reads as this answer by derivations. A complete
/// command is given exactly where the tokens derive without a fault, and its tree is the syntax of the
/// derivation. A refused token is the first with which the tokens are no prefix. Where nothing is decided,
/// the tokens up to each newline are a prefix of what may come.
pub fn reading_is_the_defined_one()
    ensures { (at_end : Bool) (text : List ℕ) (answer : Answer) → (reading no_aliases at_end text ≡ answer) ↔ IsReading at_end text answer }
{}

/// Law: without aliases no text reads as two answers, and so none has two trees.
pub fn no_text_has_two_readings()
    ensures { (at_end : Bool) (text : List ℕ) (one other : Answer)
        → IsReading at_end text one → IsReading at_end text other → one ≡ other }
{}

/// Law: a reading takes at least one byte of the text, or none of an empty text, and no more than the text.
/// An unclosed command ends with the text. More is asked for only before the end of the input. The place of a
/// fault is in the text or at its end, also for a fault in a substitution or in a body.
pub fn readings_are_inside()
    ensures { (table : AliasTable) (at_end : Bool) (text : List ℕ) → IsInside at_end text (reading table at_end text) }
{}

/// Law: the items of a text are inside it, one after another.
pub fn items_are_inside()
    ensures { (at_end : Bool) (text : List ℕ)
        → AreInside 0 (length text) (items_of at_end text).items }
{}
