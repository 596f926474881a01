//! What shards kept of the outcomes that they found, put together.
ghost use Rattle.std.specs.Prelude.{◌≡◌, IfErr, OnOk, Ok};
ghost use Rattle.sh_files.specs.Image.{read_image};
ghost use Rattle.sh_files.specs.Nodes.{FileMap};
ghost use Rattle.sh_exec.specs.State.{start};
ghost use Rattle.sh_schedules.specs.Merging.{AreJoined, IsJoined};
ghost use Rattle.sh_schedules_outcomes.specs.Refusals.{IsRefusal};
ghost use Rattle.sh_schedules_outcomes.specs.Shell.{outcome_of, shell};

use crate::retracing::retrace;
use sh_exec::Settings;
use sh_schedules_outcomes::{ExploreFault, Found, join};
use sh_stock::Stock;
use std::alloc::Global;

/// What a shard kept of an outcome that it found.
#[derive(Drop)]
pub struct Kept {
    /// How many of its schedules come to it.
    pub schedules: u64,
    /// The places of the processes that take the turns of one of them.
    pub places: Vec<u32>,
}

/// Adds what one schedule comes to that was kept.
fn join_one<S: Stock>(
    alloc: Global,
    image: &[u8],
    settings: &Settings,
    kept: &Kept,
    found: &mut Vec<Found>,
) -> Result<(), ExploreFault>
    ensures joined { (files : FileMap) → read_image image.now ≡ Ok files → OnOk result
        (IsJoined (shell S.meaning) outcome_of (start files settings.now) kept.now found.old.items found.new.items) }
    ensures refused { IfErr result (λ fault. IsRefusal image.now fault) }
{
    let places = kept.places.as_slice();
    let one = retrace::<S>(alloc, image, settings, places, kept.schedules)?;
    match join(found, one) {
        Ok(()) => Ok(()),
        Err(lack) => Err(ExploreFault::NoMemory(lack)),
    }
}

/// Adds what a shard found to what others found: each schedule that it kept is run again from the start of the script, over the files of the
/// image, so that each outcome is one of the script. The error is that the image is refused, or want of memory; what was found has some of the
/// outcomes then.
pub fn join_kept<S: Stock>(
    alloc: Global,
    image: &[u8],
    settings: &Settings,
    kept: &[Kept],
    found: &mut Vec<Found>,
) -> Result<(), ExploreFault>
    ensures joined { (files : FileMap) → read_image image.now ≡ Ok files → OnOk result
        (AreJoined (shell S.meaning) outcome_of (start files settings.now) kept.now found.old.items found.new.items) }
    ensures refused { IfErr result (λ fault. IsRefusal image.now fault) }
{
    'kept: for one in kept {
        join_one::<S>(alloc, image, settings, one, found)?;
    }
    Ok(())
}
