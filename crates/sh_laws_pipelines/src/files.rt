//! Laws of the file to which a pipeline writes.
ghost use Rattle.std.specs.Prelude.{◌≡◌, ℕ, List, [], ◌∷◌, ◌++◌, Bool, Option, Some};
ghost use Rattle.sh_kernel_descriptors.specs.Machine.{MachineState};
ghost use Rattle.sh_laws_pipelines.specs.Files.{last_of};
ghost use Rattle.sh_laws_pipelines.specs.Stages.{Holds, Source, StageProcess, Stands, stages_of};
ghost use Rattle.sh_laws_pipelines.specs.Pipelines.{AreAtStart, Stage, Steps, filterings_of, output_of, written_by};
ghost use Rattle.sh_stock.specs.Filtering.{Begins};

use sh_stock::Filter;

/// Law: where the stages of a pipeline have come by their steps from their start to some that ended or are of no account any more, and behind these to some
/// that stand, the file to which the last one writes holds a beginning of the pipeline's output for the whole input. Where the last stage has ended by itself, a
/// file that holds what it has written holds the whole output.
pub fn files_hold_the_output<S: Filter>()
    ensures beginning { (input : List ℕ) (start front : List (Stage S)) → AreAtStart S.meaning S.filtering start
        → (s : MachineState) (before : Option ℕ) (source : Source) (given : List ℕ) (complete : Bool) (j : StageProcess S) (js : List (StageProcess S))
        → Steps S.meaning input start (front ++ stages_of (j ∷ js)) → Stands S.meaning s before source given complete (j ∷ js)
        → (held : List ℕ) × Holds s (last_of j js).to held × Begins held (output_of (filterings_of start) input) }
    ensures whole { (input : List ℕ) (start front : List (Stage S)) → AreAtStart S.meaning S.filtering start
        → (s : MachineState) (number : ℕ) (last : Stage S) (status : ℕ) → Steps S.meaning input start (front ++ last ∷ []) → last.end ≡ Some status
        → Holds s number (written_by S.meaning last) → Holds s number (output_of (filterings_of start) input) }
{}
