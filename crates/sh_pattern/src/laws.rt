//! Laws of the definitions.
ghost use Rattle.std.specs.Prelude.{◌≡◌, ◌↔◌, ℕ, List, Option, IsTrue};
ghost use Rattle.sh_pattern.specs.declared.pattern_byte.PatternByte.{PatternByte};
ghost use Rattle.sh_pattern.specs.Deciding.{is_match, longest, shortest};
ghost use Rattle.sh_pattern.specs.Match.{IsLongest, IsShortest, Matches};

/// Law: whether a pattern matches a text is decided by the function `is_match`.
pub fn matching_is_decided()
    ensures { (p : List PatternByte) (t : List ℕ) → IsTrue (is_match p t) ↔ Matches p t }
{}

/// Law: the functions `shortest` and `longest` give the length of the shortest and of the longest part that a
/// pattern matches, and nothing else is that length.
pub fn parts_are_decided()
    ensures shortest { (p : List PatternByte) (part : ℕ → List ℕ) (most : ℕ) (n : Option ℕ)
        → IsShortest p part most n ↔ (n ≡ shortest p part most) }
    ensures longest { (p : List PatternByte) (part : ℕ → List ℕ) (most : ℕ) (n : Option ℕ)
        → IsLongest p part most n ↔ (n ≡ longest p part most) }
{}
