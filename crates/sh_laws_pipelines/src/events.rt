//! Laws of events.
ghost use Rattle.std.specs.Prelude.{◌≡◌, ℕ, List, [], Bool, true, false, Option, Some, None, slice_get};
ghost use Rattle.sh_exec.specs.State.{State, after_turn, task_of, with_key};
ghost use Rattle.sh_exec.specs.Tasks.{pid_of};
ghost use Rattle.sh_exec.specs.Turns.{turn};
ghost use Rattle.sh_exec.specs.declared.task.Task.{Task};
ghost use Rattle.sh_kernel.specs.Calls.{after_key};
ghost use Rattle.sh_kernel.specs.Reaching.{is_file, reaches};
ghost use Rattle.sh_kernel_processes.specs.Processes.{lives};
ghost use Rattle.sh_laws.specs.Requests.{ChangesByRequests, directory_of, number_of, opens_by};
ghost use Rattle.sh_laws_pipelines.specs.Events.{AreLiving, GoesOnAt, StandsAt};
ghost use Rattle.sh_laws_pipelines.specs.Stages.{AreDistinct, Ends, FromPipe, HasRoom, Holds, IsAlive, IsElsewhere, IsElsewhereBefore, StageProcess, LeavesLast, LeavesSource, NotAmong, NotBefore, NotEnding, ReadsOther, Source, behind};
ghost use Rattle.sh_laws_pipelines.specs.Pipelines.{course_of, written_by};
ghost use Rattle.sh_stock.specs.declared.asking.Ask.TheVariants.{End};

use sh_stock::Stock;

/// Law: where the stages of a pipeline stand at a state of the shell machine, and the process of one of them takes a turn that doesn't end it, they
/// stand at the state after it, and that stage took a step; or its process couldn't take its turn. Premises as in `turns_keep_pipelines` of `sh_laws_pipelines`.
pub fn turns_of_stages_keep_pipelines<S: Stock>()
    ensures { (s : State S) (before : Option ℕ) (source : Source) (given : List ℕ) (complete : Bool) (js : List (StageProcess S)) (n : ℕ) (j : StageProcess S) → slice_get js n ≡ Some j
        → let t = turn S.meaning s.machine j.task in IsAlive t.machine.machine before → AreLiving t.machine js → AreDistinct js → NotBefore before js → ReadsOther source js
        → NotEnding S.meaning j → HasRoom S.meaning j → StandsAt S.meaning s before source given complete js
        → GoesOnAt S.meaning s (after_turn S.meaning s j.pid) before source given complete js n j }
{}

/// Law: where the process of a stage takes the turn by which it ends by itself, the stages behind it stand at the state after that, and read on
/// what it has written; no more is to come to them. If it was the last one, the file holds what it has written.
pub fn ends_of_stages_keep_pipelines<S: Stock>()
    ensures stands { (s : State S) (before : Option ℕ) (source : Source) (given : List ℕ) (complete : Bool) (js : List (StageProcess S)) (n : ℕ) (j : StageProcess S) (status : ℕ) → slice_get js n ≡ Some j
        → let t = turn S.meaning s.machine j.task in (course_of S.meaning j.stage).ask ≡ End status → lives s.machine.machine.processes j.pid ≡ true → Ends s.machine t.machine j.pid
        → AreLiving t.machine (behind n js) → AreDistinct js → StandsAt S.meaning s before source given complete js
        → StandsAt S.meaning (after_turn S.meaning s j.pid) None (FromPipe j.to) (written_by S.meaning j.stage) true (behind n js) }
    ensures file { (s : State S) (before : Option ℕ) (source : Source) (given : List ℕ) (complete : Bool) (js : List (StageProcess S)) (n : ℕ) (j : StageProcess S) (status : ℕ) → slice_get js n ≡ Some j
        → behind n js ≡ [] → (course_of S.meaning j.stage).ask ≡ End status → StandsAt S.meaning s before source given complete js
        → Holds (after_turn S.meaning s j.pid).machine.machine j.to (written_by S.meaning j.stage) }
{}

/// Law: a turn of a process that runs none of the stages, and a key, leave the stages of a pipeline as they stand. Premises: no process of a stage
/// ends by it, and the turn's requests neither open the file that is read or the one that is written, nor does the process reach them. That
/// a turn comes of requests is `turns_change_what_is_reached` of `sh_laws`.
pub fn other_events_keep_pipelines<S: Stock>()
    ensures turns { (s : State S) (pid : ℕ) (task : Task S) → task_of s pid ≡ Some task
        → (c : ChangesByRequests (pid_of task) (number_of (turn S.meaning s.machine task).child) (directory_of task) s.machine (turn S.meaning s.machine task).machine)
        (before : Option ℕ) (source : Source) (given : List ℕ) (complete : Bool) (js : List (StageProcess S))
        → let t = turn S.meaning s.machine task in IsElsewhereBefore (pid_of task) s.machine.machine t.machine.machine before → IsElsewhere (pid_of task) s.machine.machine js → NotAmong pid js → AreLiving t.machine js
        → LeavesSource (λ number. (reaches s.machine.machine.descriptors (pid_of task) (is_file s.machine.machine.descriptions number) ≡ false) × (opens_by s.machine c.requests number ≡ false)) source
        → LeavesLast (λ number. (reaches s.machine.machine.descriptors (pid_of task) (is_file s.machine.machine.descriptions number) ≡ false) × (opens_by s.machine c.requests number ≡ false)) js
        → StandsAt S.meaning s before source given complete js → StandsAt S.meaning (after_turn S.meaning s pid) before source given complete js }
    ensures keys { (s : State S) (byte : ℕ) (before : Option ℕ) (source : Source) (given : List ℕ) (complete : Bool) (js : List (StageProcess S)) → IsAlive (after_key s.machine byte).machine before → AreLiving (after_key s.machine byte) js
        → StandsAt S.meaning s before source given complete js → StandsAt S.meaning (with_key s byte) before source given complete js }
{}
