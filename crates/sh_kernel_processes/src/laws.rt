//! Laws of signals, over all processes.
ghost use Rattle.sh_kernel_processes.specs.Laws.{EndsChangeOnlyStatuses, SignalsChangeOnlyStatuses};

/// Law: signals change the status of processes that live, and nothing else of processes (XSH kill). None comes or goes, each keeps its maker,
/// and one that has ended stays as it is. The same holds of the end of a process that lives (XSH _exit).
pub fn signals_change_only_statuses()
    ensures send { SignalsChangeOnlyStatuses }
    ensures end { EndsChangeOnlyStatuses }
{}
