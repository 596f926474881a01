//! What a `for` goes on with (XCU 2.9.4.2).
ghost use Rattle.std.specs.Prelude.{◌≡◌};
ghost use Rattle.sh_exec_actions.specs.ForLoops.{rest_of_series};

use crate::action::{Action, Active, ForLoop};
use crate::status::CommandStatus;

/// What a `for` goes on with: its next value, or its end, with this status, where none is left. Takes no memory.
pub fn rest_of_series(series: ForLoop, status: CommandStatus) -> Active
    ensures { result ≡ rest_of_series series status }
{
    if series.values.is_empty() {
        return Active::Done(status);
    }
    Active::Next(Action::AssignLoopVariable(series))
}
