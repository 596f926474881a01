//! Laws of pipelines as processes.
ghost use Rattle.std.specs.Prelude.{◌≡◌, ℕ, List, [], Bool, true, false, Option, Some, None, slice_get};
ghost use Rattle.sh_exec.specs.Turns.{turn};
ghost use Rattle.sh_kernel.specs.Calls.{after_key};
ghost use Rattle.sh_kernel.specs.Reaching.{is_file, reaches};
ghost use Rattle.sh_kernel.specs.State.{KernelState};
ghost use Rattle.sh_kernel_processes.specs.Processes.{lives};
ghost use Rattle.sh_laws.specs.Requests.{ChangesByRequests, opens_by};
ghost use Rattle.sh_laws_pipelines.specs.Stages.{AreAlive, AreDistinct, Ends, FromPipe, GoesOn, HasRoom, Holds, IsAlive, IsElsewhere, IsElsewhereBefore, StageProcess, LeavesLast, LeavesSource, NotBefore, NotEnding, ReadsOther, Source, Stands, behind, stages_of, with_turn};
ghost use Rattle.sh_laws_pipelines.specs.Pipelines.{Step, course_of, written_by};
ghost use Rattle.sh_stock.specs.declared.asking.Ask.TheVariants.{End};

use sh_stock::Stock;

/// Law: where the stages of a pipeline stand, each run by its process and joined to the next by a pipe, they stand after a turn of the process of
/// any of them that doesn't end, and that stage took a step; or its process couldn't take its turn, and nothing changed for them. Premises: no two stages are run by one process, the file
/// that is read isn't the one that is written, that one has room, and no process of a stage ends by the turn.
pub fn turns_keep_pipelines<S: Stock>()
    ensures { (s : KernelState) (before : Option ℕ) (source : Source) (given : List ℕ) (complete : Bool) (js : List (StageProcess S)) (n : ℕ) (j : StageProcess S) → slice_get js n ≡ Some j
        → let t = turn S.meaning s j.task in IsAlive t.machine.machine before → AreAlive t.machine.machine js → AreDistinct js → NotBefore before js → ReadsOther source js
        → NotEnding S.meaning j → HasRoom S.meaning j → Stands S.meaning s.machine before source given complete js
        → GoesOn S.meaning s before source given complete js n j t.machine.machine t.task }
{}

/// Law: where the process of a stage ends by itself, the stages behind it stand, and read on what it has written; no more is to come to them.
/// The stages before it are of no account then. If it was the last one, the file holds what it has written.
pub fn ends_keep_pipelines<S: Stock>()
    ensures stands { (s : KernelState) (before : Option ℕ) (source : Source) (given : List ℕ) (complete : Bool) (js : List (StageProcess S)) (n : ℕ) (j : StageProcess S) (status : ℕ) → slice_get js n ≡ Some j
        → let t = turn S.meaning s j.task in (course_of S.meaning j.stage).ask ≡ End status → lives s.machine.processes j.pid ≡ true → Ends s t.machine j.pid
        → AreAlive t.machine.machine (behind n js) → AreDistinct js → Stands S.meaning s.machine before source given complete js
        → Stands S.meaning t.machine.machine None (FromPipe j.to) (written_by S.meaning j.stage) true (behind n js) }
    ensures steps { (given : List ℕ) (complete : Bool) (js : List (StageProcess S)) (n : ℕ) (j : StageProcess S) (status : ℕ) → slice_get js n ≡ Some j → (course_of S.meaning j.stage).ask ≡ End status
        → Step S.meaning given complete (stages_of js) (stages_of (with_turn n (record j.stage { end = Some status }) j.task js)) }
    ensures file { (s : KernelState) (before : Option ℕ) (source : Source) (given : List ℕ) (complete : Bool) (js : List (StageProcess S)) (n : ℕ) (j : StageProcess S) (status : ℕ) → slice_get js n ≡ Some j
        → behind n js ≡ [] → (course_of S.meaning j.stage).ask ≡ End status → Stands S.meaning s.machine before source given complete js
        → Holds (turn S.meaning s j.task).machine.machine j.to (written_by S.meaning j.stage) }
{}

/// Law: where the stages of a pipeline stand, they stand after what another process does by its requests, as in a turn, and after a key.
/// Premises: it runs none of the stages, no process of a stage ends by it, and it neither reaches nor opens the file that is read or the one that is
/// written.
pub fn others_keep_pipelines<S: Stock>()
    ensures requests { (s t : KernelState) (other : ℕ) (made : Option ℕ) (directory : List ℕ) (c : ChangesByRequests other made directory s t)
        (before : Option ℕ) (source : Source) (given : List ℕ) (complete : Bool) (js : List (StageProcess S)) → IsElsewhereBefore other s.machine t.machine before → IsElsewhere other s.machine js → AreAlive t.machine js
        → LeavesSource (λ number. (reaches s.machine.descriptors other (is_file s.machine.descriptions number) ≡ false) × (opens_by s c.requests number ≡ false)) source
        → LeavesLast (λ number. (reaches s.machine.descriptors other (is_file s.machine.descriptions number) ≡ false) × (opens_by s c.requests number ≡ false)) js
        → Stands S.meaning s.machine before source given complete js → Stands S.meaning t.machine before source given complete js }
    ensures keys { (s : KernelState) (byte : ℕ) (before : Option ℕ) (source : Source) (given : List ℕ) (complete : Bool) (js : List (StageProcess S)) → IsAlive (after_key s byte).machine before → AreAlive (after_key s byte).machine js
        → Stands S.meaning s.machine before source given complete js → Stands S.meaning (after_key s byte).machine before source given complete js }
{}
