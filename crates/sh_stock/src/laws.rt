// Laws on the definitions for lines.
ghost use Rattle.std.specs.Prelude.{◌≡◌, ◌↔◌, ℕ, List, [], take, IsTrue, if◌then◌else◌};
ghost use Rattle.std.specs.List.{concat, list_any};
ghost use Rattle.sh_stock.specs.Filters.{having_output, having_status};
ghost use Rattle.sh_stock.specs.Lines.{HaveNone, IsPart, contains, contents, first_lines, lines_behind, newlines, unfinished_line, whole_lines};

/// Laws on the words by which `head` and `having` are defined. The lines of some bytes, joined, are the
/// bytes, and none has a newline inside. `first_lines` gives the first of these lines. `having` ends with 0
/// where some line contains its text, else with 1. A line contains a text where some part of the line is the
/// text. The function does nothing.
pub fn laws_of_lines()
    ensures joined { (bytes : List ℕ) → concat (lines_behind [] bytes) ≡ bytes }
    ensures whole { (bytes : List ℕ) → HaveNone (whole_lines [] bytes) }
    ensures last { (bytes : List ℕ) → newlines (unfinished_line [] bytes) ≡ 0 }
    ensures first { (n : ℕ) (bytes : List ℕ) → first_lines n bytes
        ≡ concat (take n (lines_behind [] bytes)) }
    ensures status { (text bytes : List ℕ) → having_status (having_output text bytes)
        ≡ (if list_any (contains text) (contents bytes) then 0 else 1) }
    ensures part { (text line : List ℕ) → IsTrue (contains text line) ↔ IsPart text line }
{}
