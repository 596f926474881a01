//! Laws of requests, over all states.
ghost use Rattle.sh_kernel.specs.Laws.{KeysOnlyGrow, KeysOnlyGrowTheTerminal, ListsChangeOnlyReached, ListsLeaveOwned, ListsLeaveTheTerminal, ListsOnlyGrow, ListsOnlyGrowTheTerminal, ListsReachNoMore, OwnedStaysOwned, RequestsChangeOnlyReached, RequestsOnlyGrow, RequestsReachNoMore, TerminalIsReached, TerminalOnlyGrows};

/// Law: a request changes only pipes, files and descriptions to which its process's descriptors refer, and
/// files that it opens. It changes neither the descriptors nor the status of another process that was there; unless
/// it sends a signal: then it may also change the status of others that live, and close what those have that it ends.
/// The same holds of a list of requests of one process.
pub fn requests_change_what_is_reached()
    ensures one { RequestsChangeOnlyReached }
    ensures list { ListsChangeOnlyReached }
{}

/// Law: by its own request a process comes to reach no pipe, file or description that was there and that it
/// didn't reach, but for the file that it opens. The same holds of a list of its requests, but for the files
/// that they open.
pub fn requests_reach_no_more()
    ensures one { RequestsReachNoMore }
    ensures list { ListsReachNoMore }
{}

/// Law: where no descriptor of a process refers to the terminal, a request of that process does nothing to
/// the terminal. Nor does a list of its requests that doesn't open the terminal.
pub fn the_terminal_is_reached()
    ensures one { TerminalIsReached }
    ensures list { ListsLeaveTheTerminal }
{}

/// Law: after a request, after a list of them, and after a key the terminal shows what it showed, and perhaps more.
pub fn the_terminal_only_grows()
    ensures key { KeysOnlyGrowTheTerminal }
    ensures one { TerminalOnlyGrows }
    ensures list { ListsOnlyGrowTheTerminal }
{}

/// Law: where only descriptors of one process refer to a description, that stays so after a request, or a
/// list of requests, of another process; and the other process doesn't reach the description.
pub fn owned_stays_owned()
    ensures one { OwnedStaysOwned }
    ensures list { ListsLeaveOwned }
{}

/// Law: after a request, after a list of them, and after a key each description is still of the same target, and
/// each path names what it named. The lists of processes, descriptions, pipes and nodes are at least as long as
/// they were.
pub fn numbers_only_grow()
    ensures key { KeysOnlyGrow }
    ensures one { RequestsOnlyGrow }
    ensures list { ListsOnlyGrow }
{}
