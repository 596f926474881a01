//! Laws of field splitting and pathname expansion.
ghost use Rattle.std.specs.Prelude.{◌≡◌, ◌↔◌, List, ℕ};
ghost use Rattle.sh_files.specs.Nodes.{FileMap};
ghost use Rattle.sh_expand_fields.specs.declared.class.Class.{Class};
ghost use Rattle.sh_expand_fields.specs.declared.item.Item.{Item};
ghost use Rattle.sh_expand_fields.specs.Found.{pathnames};
ghost use Rattle.sh_expand_fields.specs.Pathnames.{IsExpanded};
ghost use Rattle.sh_expand_fields.specs.Ranges.{NoBetween, Splits};
ghost use Rattle.sh_expand_fields.specs.Splitting.{split_one};

/// Law: the fields of one parameter are what is between its delimiters, where each delimiter is as long as
/// possible (XCU 2.6.5). No other fields are.
pub fn fields_stand_between_delimiters()
    ensures stand { (xs : List Class) → NoBetween xs → Splits xs (split_one xs) }
    ensures only { (xs : List Class) (fs : List (List Item)) → NoBetween xs → Splits xs fs
        → fs ≡ split_one xs }
{}

/// Law: pathname expansion (XCU 2.6.6) gives the paths of the function `pathnames`, and no others.
pub fn pathnames_are_computed()
    ensures { (files : FileMap) (directory : List ℕ) (field : List Item) (paths : List (List ℕ))
        → IsExpanded files directory field paths ↔ (paths ≡ pathnames files directory field) }
{}
