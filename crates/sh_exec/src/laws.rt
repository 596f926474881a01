//! Laws of the processes that can take a turn.
ghost use Rattle.std.specs.Prelude.{List};
ghost use Rattle.sh_kernel.specs.State.{KernelState};
ghost use Rattle.sh_exec.specs.Order.{ListsRunnable, Rises, pids_of};
ghost use Rattle.sh_exec.specs.Processes.{runnable_pids};
ghost use Rattle.sh_exec.specs.declared.task.Task.{Task};

use sh_stock::Stock;

/// Law: where the processes are in order of pid, the list of the runnable ones rises by pid, and has every
/// process that can take a turn and no other.
pub fn runnable_pids_rise<S: Stock>()
    ensures { (s : KernelState) (tasks : List (Task S)) → Rises (pids_of tasks)
        → ListsRunnable s tasks (runnable_pids s tasks) }
{}
