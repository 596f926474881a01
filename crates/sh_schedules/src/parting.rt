//! Where two schedules part.
ghost use Rattle.std.specs.Prelude.{◌≡◌, ◌+◌, ◌<◌, ◌≤◌, ◌^◌, ℕ, IfErr, IfOk, Ok, length};
ghost use Rattle.sh_files.specs.Image.{read_image};
ghost use Rattle.sh_files.specs.Nodes.{FileMap};
ghost use Rattle.sh_schedules_outcomes.specs.World.{WorldStands};
ghost use Rattle.sh_exec.specs.State.{State, start};
ghost use Rattle.sh_schedules.specs.Parting.{is_same_turn, mover, parting, parting_by};
ghost use Rattle.sh_schedules_outcomes.specs.Refusals.{IsRefusal};
ghost use Rattle.sh_schedules_outcomes.specs.Shell.{shell};

use crate::turns::{runnable, turn_of};
use sh_base::NoMemory;
use sh_exec::{Event, Settings};
use sh_schedules_outcomes::{ExploreFault, World, begin};
use sh_stock::Stock;
use std::alloc::Global;

/// The first turn that two schedules give to different processes.
#[derive(Clone, Copy, Debug, PartialEq, Eq)]
pub struct Parting {
    /// How many turns both have in common before it.
    pub common: usize,
    /// The process that moves there by the first schedule.
    pub first: u32,
    /// The process that moves there by the second one.
    pub second: u32,
}

/// Whether two events name the same place.
fn is_same_turn(one: Event, other: Event) -> bool
    ensures { result ≡ is_same_turn one other }
{
    match (one, other) {
        (Event::Run(place), Event::Run(other)) => place == other,
        (Event::Next, Event::Next) => true,
        (Event::Key(byte), Event::Key(other)) => byte == other,
        (Event::Run(_), Event::Next) | (Event::Next, Event::Run(_)) => false,
        (Event::Run(_), Event::Key(_)) | (Event::Key(_), Event::Run(_)) => false,
        (Event::Next, Event::Key(_)) | (Event::Key(_), Event::Next) => false,
    }
}

/// The process that an event gives the turn to.
fn mover<S: Stock>(world: &World<S>, event: Event) -> Result<Option<u32>, NoMemory>
    ensures { (s : State S) → WorldStands world.now s → IfOk result (λ pid.
        pid ≡ mover (shell S.meaning) s event) }
{
    let pids = runnable(world)?;
    match event {
        Event::Run(place) => Ok(pids.get(place as usize).copied()),
        Event::Next => Ok(None),
        Event::Key(_) => Ok(None),
    }
}

/// Where schedules part that give a turn to these processes.
fn parting_by(common: usize, first: Option<u32>, second: Option<u32>) -> Option<Parting>
    ensures { result ≡ parting_by common first second }
{
    Some(Parting {
        common,
        first: first?,
        second: second?,
    })
}

/// Where schedules part that give different turns next.
fn part<S: Stock>(
    world: &World<S>,
    common: usize,
    first: Event,
    second: Event,
) -> Result<Option<Parting>, NoMemory>
    ensures { (s : State S) → WorldStands world.now s → IfOk result (λ found.
        found ≡ parting_by common (mover (shell S.meaning) s first) (mover (shell S.meaning) s second)) }
{
    let first = mover(world, first)?;
    let second = mover(world, second)?;
    Ok(parting_by(common, first, second))
}

/// Where schedules part, from a world before all their turns.
fn parting_in<S: Stock>(
    world: &mut World<S>,
    first: &[Event],
    second: &[Event],
) -> Result<Option<Parting>, NoMemory>
    ensures { (s : State S) → WorldStands world.old s → IfOk result (λ found.
        found ≡ parting (shell S.meaning) s 0 first.now second.now) }
{
    let mut common = 0usize;
    let mut ones = first;
    let mut others = second;
    'turns: while let Some((one, ones_behind)) = ones.split_first() {
        let Some((other, others_behind)) = others.split_first() else {
            return Ok(None);
        };
        if !is_same_turn(*one, *other) {
            return part(world, common, *one, *other);
        }
        turn_of(world, *one)?;
        common += 1;
        ones = ones_behind;
        others = others_behind;
    }
    Ok(None)
}

/// Where two schedules of a script part, over the files of an image. It is `None` where one of them has no further turn before they part,
/// or where an event there names no process by its place. Two different schedules always part (`different_schedules_part`). The error
/// is that the image is refused, or want of memory.
pub fn find_parting<S: Stock>(
    alloc: Global,
    image: &[u8],
    settings: &Settings,
    first: &[Event],
    second: &[Event],
) -> Result<Option<Parting>, ExploreFault>
    ensures parted { (files : FileMap) → read_image image.now ≡ Ok files → IfOk result (λ found.
        found ≡ parting (shell S.meaning) (start files settings.now) 0 first.now second.now) }
    ensures refused { IfErr result (λ fault. IsRefusal image.now fault) }
{
    let mut world = begin::<S>(alloc, image, settings)?;
    let found = parting_in(&mut world, first, second);
    drop(world);
    match found {
        Ok(found) => Ok(found),
        Err(lack) => Err(ExploreFault::NoMemory(lack)),
    }
}
