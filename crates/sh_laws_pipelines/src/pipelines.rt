//! Laws of pipelines.
ghost use Rattle.std.specs.Prelude.{◌≡◌, ℕ, List, Option, Some};
ghost use Rattle.sh_laws_pipelines.specs.Pipelines.{AreAtStart, Stage, Steps, filterings_of, last_end, last_written, output_of, status_of};
ghost use Rattle.sh_stock.specs.Filtering.{Begins};

use sh_stock::Filter;

/// Law: a pipeline is a function of its input (2.9.2), in whatever order its stages take their steps. What its last stage has written is a
/// beginning of the pipeline's output. Once the last stage has ended by itself it is the whole output, also where a stage before it
/// hasn't ended, as before `head`; and its exit status is the pipeline's.
pub fn pipelines_are_functions_of_their_input<S: Filter>()
    ensures beginning { (input : List ℕ) (stages later : List (Stage S)) → AreAtStart S.meaning S.filtering stages → Steps S.meaning input stages later
        → Begins (last_written S.meaning input later) (output_of (filterings_of stages) input) }
    ensures whole { (input : List ℕ) (stages later : List (Stage S)) (status : ℕ) → AreAtStart S.meaning S.filtering stages → Steps S.meaning input stages later
        → last_end later ≡ Some status → last_written S.meaning input later ≡ output_of (filterings_of stages) input }
    ensures status { (input : List ℕ) (stages later : List (Stage S)) (status : ℕ) → AreAtStart S.meaning S.filtering stages → Steps S.meaning input stages later
        → last_end later ≡ Some status → status_of (filterings_of stages) input ≡ Some status }
{}
