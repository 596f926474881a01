//! Laws of turns.
ghost use Rattle.std.specs.Prelude.{◌≡◌, ℕ, ◌≤◌, List, [], ◌++◌, length, Bool};
ghost use Rattle.sh_exec.specs.Turns.{turn};
ghost use Rattle.sh_exec.specs.declared.task.Task.{Task};
ghost use Rattle.sh_kernel.specs.Calls.{end_call, kill_call};
ghost use Rattle.sh_kernel.specs.State.{KernelState};
ghost use Rattle.sh_kernel_processes.specs.declared.target.SignalTarget.TheVariants.{Process};
ghost use Rattle.sh_pipe.specs.Pipe.{PipeState};
ghost use Rattle.sh_laws_pipelines.specs.Joined.{ReadsFile, ReadsPipe, WritesFile, WritesPipe};
ghost use Rattle.sh_laws_pipelines.specs.Turns.{ReadFromFile, ReadFromPipe, Runs, Stepped, WrittenToFile, WrittenToPipe};
ghost use Rattle.sh_laws_pipelines.specs.Pipelines.{Stage, course_of, written_by};
ghost use Rattle.sh_signal.specs.declared.signal.Signal.TheVariants as signal;
ghost use Rattle.sh_stock.specs.declared.asking.Ask.TheVariants.{End, Idle, Read, Stop, Write};

use sh_stock::Stock;

/// Law: the turn of a process that runs a stage of a pipeline, and asks to read, is a step of the stage, or the process waits and nothing
/// changes. It reads what was given, in its order, and sees the end of file only where no more is to come. Nothing changes but the pipe, or
/// the offset of the file.
pub fn reads_of_stages_are_steps<S: Stock>()
    ensures from_pipes { (s : KernelState) (pid : ℕ) (stage : Stage S) (task : Task S) (given : List ℕ) (complete : Bool) (count : ℕ)
        → Runs S.meaning pid stage task → (course_of S.meaning stage).ask ≡ Read count → (r : ReadsPipe s.machine pid given complete (course_of S.meaning stage).read)
        → ReadFromPipe S.meaning s pid given complete stage task r (turn S.meaning s task) }
    ensures from_files { (s : KernelState) (pid : ℕ) (stage : Stage S) (task : Task S) (given : List ℕ) (complete : Bool) (count : ℕ)
        → Runs S.meaning pid stage task → (course_of S.meaning stage).ask ≡ Read count → (r : ReadsFile s.machine pid given complete (course_of S.meaning stage).read)
        → ReadFromFile S.meaning s pid given complete stage r (turn S.meaning s task) }
{}

/// Law: the turn of a process that runs a stage of a pipeline, and asks to write, is a step of the stage, or the process waits and nothing
/// changes. What goes comes behind what is in the pipe, which has a reader, or behind what the file holds, as long as that has room for it. Nothing else changes.
pub fn writes_of_stages_are_steps<S: Stock>()
    ensures to_pipes { (s : KernelState) (pid : ℕ) (stage : Stage S) (task : Task S) (given : List ℕ) (complete : Bool) (bytes : List ℕ) (pipe : ℕ) (state : PipeState)
        → Runs S.meaning pid stage task → (course_of S.meaning stage).ask ≡ Write bytes → WritesPipe s.machine pid pipe state
        → WrittenToPipe S.meaning s pid given complete stage task pipe state (turn S.meaning s task) }
    ensures to_files { (s : KernelState) (pid : ℕ) (stage : Stage S) (task : Task S) (given : List ℕ) (complete : Bool) (bytes : List ℕ) (number : ℕ)
        → Runs S.meaning pid stage task → (course_of S.meaning stage).ask ≡ Write bytes → (w : WritesFile s.machine pid number (written_by S.meaning stage))
        → length ((course_of S.meaning stage).written ++ bytes) ≤ 1073741824
        → WrittenToFile S.meaning s pid given complete stage number w (turn S.meaning s task) }
{}

/// Law: the turn of a process that runs a stage of a pipeline, and asks to be stopped, to idle or to end, is a step of the stage. To be stopped
/// is to send itself STOP; an idle turn changes nothing.
pub fn other_turns_of_stages_are_steps<S: Stock>()
    ensures stops { (s : KernelState) (pid : ℕ) (stage : Stage S) (task : Task S) (given : List ℕ) (complete : Bool)
        → Runs S.meaning pid stage task → (course_of S.meaning stage).ask ≡ Stop
        → Stepped S.meaning pid given complete stage [] [] (turn S.meaning s task).task × ((turn S.meaning s task).machine ≡ (kill_call s (Process pid) signal.Stop).after) }
    ensures idles { (s : KernelState) (pid : ℕ) (stage : Stage S) (task : Task S) (given : List ℕ) (complete : Bool)
        → Runs S.meaning pid stage task → (course_of S.meaning stage).ask ≡ Idle
        → Stepped S.meaning pid given complete stage [] [] (turn S.meaning s task).task × ((turn S.meaning s task).machine ≡ s) }
    ensures ends { (s : KernelState) (pid : ℕ) (stage : Stage S) (task : Task S) (given : List ℕ) (complete : Bool) (status : ℕ)
        → Runs S.meaning pid stage task → (course_of S.meaning stage).ask ≡ End status
        → Stepped S.meaning pid given complete stage [] [] (turn S.meaning s task).task × ((turn S.meaning s task).machine ≡ (end_call s pid status).after) }
{}
