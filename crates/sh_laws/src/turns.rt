//! Laws of turns and runs.
ghost use Rattle.std.specs.Prelude.{◌≡◌, ℕ, ◌<◌, List};
ghost use Rattle.sh_exec.specs.Turns.{turn};
ghost use Rattle.sh_exec.specs.Tasks.{pid_of};
ghost use Rattle.sh_exec.specs.declared.task.Task.{Task};
ghost use Rattle.sh_exec_forms.specs.Running.{InterpreterState};
ghost use Rattle.sh_exec_shell.specs.Reduction.{shell_turn};
ghost use Rattle.sh_files.specs.Nodes.{FileMap};
ghost use Rattle.sh_laws.specs.BeforeAction.{ActedStands, AreBeforeActions, ChildStands, HaveActions, InterpreterStands, IsBeforeAction, MadeStands, TaskStands, TasksStand};
ghost use Rattle.sh_laws.specs.Forking.{UnmadeReachNothing};
ghost use Rattle.sh_kernel_processes.specs.Processes.{next_pid};
ghost use Rattle.sh_kernel.specs.Laws.{OnlyGrows};
ghost use Rattle.sh_kernel.specs.State.{KernelState};
ghost use Rattle.sh_laws.specs.Requests.{ByRequests, ChangesByRequests, ComesByChanges, Shows, directory_of, number_of};
ghost use Rattle.sh_exec.specs.State.{State, run, start};
ghost use Rattle.sh_exec.specs.declared.event.Event.{Event};
ghost use Rattle.sh_exec.specs.declared.settings.Settings.{Settings};
ghost use Rattle.sh_laws.specs.Terminals.{GivesJobsTerminalBack, GivesJobsTerminalBackAtRest, GivesTerminalBack, GivesTerminalBackAtRest};

use sh_stock::Stock;

/// Law: all that a turn does to the kernel is done by requests of the process that takes it, and of the one that it makes; a shell opens
/// files from its working directory.
pub fn turns_are_requests<S: Stock>()
    ensures { (s : KernelState) (task : Task S)
        → let t = turn S.meaning s task in ByRequests (pid_of task) (number_of t.child)
        (directory_of task) s t.machine }
{}

/// Law: a process has the same number after its turn.
pub fn turns_keep_numbers<S: Stock>()
    ensures { (s : KernelState) (task : Task S) → pid_of (turn S.meaning s task).task ≡ pid_of task }
{}

/// Law: by its turn a process changes only pipes and files that its descriptors refer to or that it opens. It
/// changes only open file descriptions that its descriptors refer to, and neither the descriptors nor the
/// status of another process that was there; unless it sends a signal, as by its end: then it may also change the
/// status of others that live, and close what those have that it ends. It comes to reach nothing that was there and that it didn't reach, but for
/// files that it opens, and no other process comes to reach a pipe that neither of them reached; numbers only grow. Premises: the process is there, and no descriptor is of a process
/// that is still to come; which stays so.
pub fn turns_change_what_is_reached<S: Stock>()
    ensures { (s : KernelState) (task : Task S) → pid_of task < next_pid s.machine.processes
        → UnmadeReachNothing s.machine
        → let t = turn S.meaning s task in ChangesByRequests (pid_of task) (number_of t.child)
        (directory_of task) s t.machine }
{}

/// Law: whatever the events, and so under every schedule, the kernel's state after them comes from the state
/// before them by requests of processes and by keys alone.
pub fn runs_are_requests<S: Stock>()
    ensures { (s : State S) (events : List Event)
        → ComesByChanges s.machine (run S.meaning s events).machine }
{}

/// Law: under events the numbers of processes, open file descriptions, pipes and files only grow. The target
/// of a description never changes, a path goes on to name what it names, and what the terminal shows goes on.
pub fn runs_only_grow<S: Stock>()
    ensures machine { (s : State S) (events : List Event)
        → OnlyGrows s.machine.machine (run S.meaning s events).machine.machine }
    ensures terminal { (s : State S) (events : List Event)
        → Shows s.machine (run S.meaning s events).machine }
{}

/// Law: a turn of a shell goes on up to its next action. So a shell that stands before an action stands before
/// one again after its turn: nothing at its place is done or left or acts in the same turn, and no later turn is
/// spent on that. The same holds of each process, and of the process that a turn makes. To stand before an
/// action is also to hold only commands that begin with one wherever they are entered; otherwise an empty
/// list, which no text has, would be done at once.
pub fn turns_end_before_actions<S: Stock>()
    ensures shell { (s : KernelState) (interpreter : InterpreterState) → InterpreterStands interpreter
        → let t = shell_turn s interpreter in ActedStands t.left × ChildStands t.child }
    ensures process { (s : KernelState) (task : Task S) → TaskStands task
        → let t = turn S.meaning s task in TaskStands t.task × MadeStands t.child }
    ensures next { (task : Task S) → TaskStands task → IsBeforeAction task }
{}

/// Law: after any list of events, and so under every schedule, each process of a world that has just been
/// made is a program that asks for something, or a shell that stands before its next action. From any other
/// state in which the processes stand before actions the same holds. So `Task::action` tells what each process of such a world does next.
pub fn runs_stand_before_actions<S: Stock>()
    ensures start { (image : FileMap) (settings : Settings) (events : List Event)
        → AreBeforeActions (run S.meaning (start image settings) events).tasks }
    ensures later { (s : State S) (events : List Event) → TasksStand s.tasks
        → TasksStand (run S.meaning s events).tasks }
    ensures told { (image : FileMap) (settings : Settings) (events : List Event)
        → HaveActions (run S.meaning (start image settings) events).tasks }
{}

/// Law: with job control (XCU 2.11) the turn in which a shell waits for a pipeline, or for a job that `fg` has brought to the foreground, either
/// leaves all as it is, or gives the terminal back: its foreground group is the shell's own then. It gives it back wherever none of the
/// processes runs any more. Until that turn the foreground group may be one without a process that lives.
pub fn waits_give_the_terminal_back()
    ensures pipelines { GivesTerminalBack }
    ensures jobs { GivesJobsTerminalBack }
    ensures pipelines_at_rest { GivesTerminalBackAtRest }
    ensures jobs_at_rest { GivesJobsTerminalBackAtRest }
{}
