//! A world before all events, begun again for each schedule.
ghost use Rattle.std.specs.Prelude.{◌≡◌, IfErr, IfOk, Ok};
ghost use Rattle.sh_files.specs.Image.{read_image};
ghost use Rattle.sh_files.specs.Nodes.{FileMap};
ghost use Rattle.sh_world.specs.World.{WorldStands};
ghost use Rattle.sh_world.specs.State.{start};
ghost use Rattle.sh_schedules_outcomes.specs.Refusals.{IsRefusal};

use crate::fault::{ExploreFault, refusal};
use sh_base::NoMemory;
use sh_base::sequence::{Sequence, Text, copies_of};
use sh_files::Files;
use sh_stock::Stock;
use sh_world::{Settings, Source, World};
use std::alloc::Global;

/// A copy of a text.
fn text_copy(alloc: Global, text: &Text) -> Result<Text, NoMemory>
    ensures { IfOk result (λ copy. copy ≡ text.now) }
{
    let copy = Text::copy_of(alloc, text.as_slice())?;
    Ok(copy)
}

/// A copy of where commands come from.
fn source_copy(alloc: Global, source: &Source) -> Result<Source, NoMemory>
    ensures { IfOk result (λ copy. copy ≡ source.now) }
{
    match source {
        Source::Text(text) => Ok(Source::Text(text_copy(alloc, text)?)),
        Source::Script(path) => Ok(Source::Script(text_copy(alloc, path)?)),
        Source::Terminal => Ok(Source::Terminal),
    }
}

/// A copy of how a shell is started.
fn settings_copy(alloc: Global, settings: &Settings) -> Result<Settings, NoMemory>
    ensures { IfOk result (λ copy. copy ≡ settings.now) }
{
    let zero = text_copy(alloc, &settings.zero)?;
    let args = Sequence::from_vec(copies_of(alloc, settings.args.as_slice())?);
    let source = source_copy(alloc, &settings.source)?;
    Ok(Settings {
        source,
        zero,
        args,
        options: settings.options,
    })
}

/// The files that an image holds. The error is that the image is refused, or want of memory.
pub fn files_of(alloc: Global, image: &[u8]) -> Result<Files, ExploreFault>
    ensures read { IfOk result (λ files. read_image image.now ≡ Ok files) }
    ensures refused { IfErr result (λ fault. IsRefusal image.now fault) }
{
    match Files::from_image(alloc, image) {
        Ok(files) => Ok(files),
        Err(fault) => Err(refusal(fault)),
    }
}

/// The world of a script before the first event, over the files of an image. The error is that the image is refused, or want of memory.
pub fn begin<S: Stock>(
    alloc: Global,
    image: &[u8],
    settings: &Settings,
) -> Result<World<S>, ExploreFault>
    ensures stands { (files : FileMap) → read_image image.now ≡ Ok files → IfOk result (λ world.
        WorldStands world (start files settings.now)) }
    ensures refused { IfErr result (λ fault. IsRefusal image.now fault) }
{
    let files = files_of(alloc, image)?;
    let settings = settings_copy(alloc, settings)?;
    match World::<S>::new(alloc, files, settings) {
        Ok(world) => Ok(world),
        Err(lack) => Err(ExploreFault::NoMemory(lack)),
    }
}
