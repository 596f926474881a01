//! What a shell is about to start.
ghost use Rattle.std.specs.Prelude.{◌≡◌, IfOk, option_map};
ghost use Rattle.sh_exec.specs.Starting.{starting_at, starting_in};

use sh_base::NoMemory;
use sh_exec_actions::{Action, Active, ProgramStart};
use sh_exec_parts::Copying;
use std::alloc::Global;

/// What is started at a place.
fn starting_at(place: &Action) -> Option<&ProgramStart>
    ensures { option_map (λ start. start.now) result ≡ starting_at place.now }
{
    match place {
        Action::Starting(start) => Some(start),
        _ => None,
    }
}

/// What is started at an active place.
fn starting_in(active: &Active) -> Option<&ProgramStart>
    ensures { option_map (λ start. start.now) result ≡ starting_in active.now }
{
    match active {
        Active::Next(place) => starting_at(place),
        Active::Acting(_, _) => None,
        Active::Calling(_, _) => None,
        Active::Evaluating(_, _) => None,
        Active::Done(_) => None,
        Active::Leaving(_) => None,
    }
}

/// A copy of what is started at an active place.
pub(crate) fn starting_of(alloc: Global, active: &Active) -> Result<Option<ProgramStart>, NoMemory>
    ensures { IfOk result (λ start. start ≡ starting_in active.now) }
{
    match starting_in(active) {
        Some(start) => {
            let copy = start.copy(alloc)?;
            Ok(Some(copy))
        },
        None => Ok(None),
    }
}
