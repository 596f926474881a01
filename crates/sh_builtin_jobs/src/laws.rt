//! Laws of `kill`.
ghost use Rattle.sh_builtin_jobs.specs.Laws.{EachIsServed, NamesAreTaken, StatusesAreRead};

/// Law: once there was an answer for each operand, `kill` is over, and has said of each operand that reached no process, and of no other,
/// that it did not; whatever the answers are, and whatever becomes of the jobs meanwhile.
pub fn each_operand_is_served()
    ensures { EachIsServed }
{}

/// Law: the name of a signal, as `kill -l` lists it, names the signal; and so does its number, and the exit status of a process that it ended,
/// as an operand of `kill -l`.
pub fn names_and_statuses_name_signals()
    ensures names { NamesAreTaken }
    ensures statuses { StatusesAreRead }
{}
