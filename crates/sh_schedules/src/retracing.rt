//! What a schedule that was kept comes to.
ghost use Rattle.std.specs.Prelude.{◌≡◌, ℕ, IfErr, IfOk, Ok, map};
ghost use Rattle.sh_files.specs.Image.{read_image};
ghost use Rattle.sh_files.specs.Nodes.{FileMap};
ghost use Rattle.sh_schedules_outcomes.specs.World.{WorldStands};
ghost use Rattle.sh_exec.specs.State.{State, start};
ghost use Rattle.sh_exec.specs.declared.event.Event.TheVariants.{Run};
ghost use Rattle.sh_schedules_outcomes.specs.Found.{IsRetraced};
ghost use Rattle.sh_schedules.specs.Paths.{events_of};
ghost use Rattle.sh_schedules_outcomes.specs.Refusals.{IsRefusal};
ghost use Rattle.sh_schedules_outcomes.specs.Shell.{outcome_of, shell};

use crate::exploring::events_of;
use crate::path::Turn;
use crate::turns::replay;
use sh_base::NoMemory;
use sh_exec::Settings;
use sh_schedules_outcomes::{ExploreFault, Found, World, begin, outcome_of};
use sh_stock::Stock;
use std::alloc::Global;

/// A turn at a place, with no other to try.
fn turn_at(alloc: Global, place: u32) -> Turn
    ensures { result.place ≡ place }
{
    Turn {
        place,
        others: Vec::new(alloc),
    }
}

/// The turns at places.
fn path_of(alloc: Global, places: &[u32]) -> Result<Vec<Turn>, NoMemory>
    ensures { IfOk result (λ path. events_of path.items ≡ map Run places.now) }
{
    let mut path = Vec::new(alloc);
    for place in places {
        path.push(turn_at(alloc, *place))?;
    }
    Ok(path)
}

/// What a world comes to by the turns of a path.
fn retrace_in<S: Stock>(
    alloc: Global,
    world: &mut World<S>,
    path: &[Turn],
    schedules: u64,
) -> Result<Found, NoMemory>
    ensures { (s : State S) → WorldStands world.old s → IfOk result (λ found.
        IsRetraced (shell S.meaning) outcome_of s (events_of path.now) schedules found) }
{
    let standing = replay(world, path, u32::MAX)?;
    let events = events_of(alloc, path)?;
    let outcome = outcome_of(alloc, world)?;
    Ok(Found {
        outcome,
        schedules,
        preemptions: u32::MAX - standing.left,
        events,
    })
}

/// What a schedule comes to that gives its turns to the processes at these places, from the start of a script, over the files of an image.
/// It counts for so many schedules. The error is that the image is refused, or want of memory.
pub fn retrace<S: Stock>(
    alloc: Global,
    image: &[u8],
    settings: &Settings,
    places: &[u32],
    schedules: u64,
) -> Result<Found, ExploreFault>
    ensures retraced { (files : FileMap) → read_image image.now ≡ Ok files → IfOk result (λ found.
        IsRetraced (shell S.meaning) outcome_of (start files settings.now) (map Run places.now) schedules found) }
    ensures refused { IfErr result (λ fault. IsRefusal image.now fault) }
{
    let path = path_of(alloc, places)?;
    let mut world = begin::<S>(alloc, image, settings)?;
    let found = retrace_in(alloc, &mut world, path.as_slice(), schedules);
    drop(world);
    match found {
        Ok(found) => Ok(found),
        Err(lack) => Err(ExploreFault::NoMemory(lack)),
    }
}
