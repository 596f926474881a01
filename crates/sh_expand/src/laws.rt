//! Laws of the definition.
ghost use Rattle.sh_expand.specs.Laws.{PartLaws};

/// Law: each part of a word does what its form says, by what the parts inside it do.
pub fn parts_do_what_their_forms_say()
    ensures { PartLaws }
{}
