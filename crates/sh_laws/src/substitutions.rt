//! Laws of expansions with answers.
ghost use Rattle.std.specs.Prelude.{◌≡◌, ◌++◌, ℕ, List};
ghost use Rattle.sh_laws.specs.Answers.{Stays};
ghost use Rattle.sh_expand.specs.Answers.{expansion_with};
ghost use Rattle.sh_expand.specs.Expanding.{expand};
ghost use Rattle.sh_expand.specs.declared.wanted.Wanted.{Wanted};
ghost use Rattle.sh_files.specs.Nodes.{FileMap};
ghost use Rattle.sh_vars.specs.Environment.{Environment};

/// Law: an expansion that has the answers that it needs gives the same with more of them.
pub fn further_answers_change_nothing()
    ensures { (files : FileMap) (wanted : List Wanted) (env : Environment)
        (answers more : List (List ℕ)) → Stays (expand files wanted env answers)
        (expand files wanted env (answers ++ more)) }
{}

/// Law: an expansion that goes from one need to the next, each answer serving one, gives what it gives where
/// all answers are there from the start.
pub fn answers_are_used_in_order()
    ensures { (files : FileMap) (wanted : List Wanted) (env : Environment) (answers : List (List ℕ)) → expansion_with files wanted env answers ≡ expand files wanted env answers }
{}
