//! The putting together of the files of shards.
ghost use Rattle.std.specs.Prelude.{◌≡◌, ◌+◌, ◌-◌, ◌^◌, ◌&&◌, [], IfOk, OnOk, Ok, map, min};
ghost use Rattle.std.specs.List.{list_all, sum_by};
ghost use Rattle.sh_files.specs.Image.{read_image};
ghost use Rattle.sh_files.specs.Nodes.{FileMap};
ghost use Rattle.sh_schedules.specs.State.{start};
ghost use Rattle.sh_schedules.specs.Merging.{AreJoined, AreJoinedInTurn};
ghost use Rattle.sh_schedules.specs.Shell.{outcome_of, shell};

use crate::shard_file::{ShardFault, ShardFile, read_shard};
use crate::{PROGRAM, refuse};
use psh_common::{lack, read};
use sh_schedules::{Exploration, Settings, join_kept};
use sh_stock::Stock;
use std::str;

/// A file of a shard, with its name.
#[derive(Drop)]
pub struct Named<'a> {
    /// The name.
    pub name: &'a str,
    /// What the file holds.
    pub file: ShardFile,
}

/// Says what is wrong with a line of a file, and answers the program's exit status.
fn refuse_line(rt: &HostRuntime, name: &str, line: u64, sentence: &str) -> u8 {
    let _ = eprintln!(rt; "{PROGRAM}: {name}: line {line}: {sentence}");
    1
}

/// The number of a file's shard.
fn number_of(file: &ShardFile) -> u64 {
    u64::from(file.shard.before) + 1
}

/// How many shards there are.
fn shards_of(file: &ShardFile) -> u64 {
    u64::from(file.shard.before) + u64::from(file.shard.behind) + 1
}

/// Whether words are the same.
fn are_words(words: &[Vec<u8>], others: &[Vec<u8>]) -> bool {
    let mut rest = others;
    for word in words {
        let Some((other, behind)) = rest.split_first() else {
            return false;
        };
        if word.as_slice() != other.as_slice() {
            return false;
        }
        rest = behind;
    }
    rest.is_empty()
}

/// Whether a file is of the same run as the first one, and of another shard than those before it. On an `Err`, which is the program's exit
/// status, standard error has been told why not.
fn check(rt: &HostRuntime, named: &Named<'_>, before: &[Named<'_>]) -> Result<(), u8> {
    let Some(first) = before.first() else {
        return Ok(());
    };
    if shards_of(&named.file) != shards_of(&first.file) {
        return Err(refuse_line(
            rt,
            named.name,
            1,
            "another number of shards than in the first file",
        ));
    }
    if !are_words(named.file.words.as_slice(), first.file.words.as_slice()) {
        return Err(refuse_line(rt, named.name, 2, "other words than in the first file"));
    }
    if named.file.image.as_slice() != first.file.image.as_slice() {
        return Err(refuse_line(
            rt,
            named.name,
            named.file.image_line,
            "another image than in the first file",
        ));
    }
    for other in before {
        if number_of(&other.file) == number_of(&named.file) {
            return Err(refuse_line(rt, named.name, 1, "this shard was given before"));
        }
    }
    Ok(())
}

/// Reads a file of a shard.
fn read_one<'a>(rt: &HostRuntime, name: &'a str) -> Result<Named<'a>, u8> {
    let bytes = read(rt, PROGRAM, name)?;
    match read_shard(rt.alloc(), bytes.as_slice()) {
        Ok(file) => Ok(Named { name, file }),
        Err(ShardFault::BadLine { line }) => Err(refuse_line(
            rt,
            name,
            line,
            "not as in the file of a shard",
        )),
        Err(ShardFault::NoMemory(_)) => Err(lack(rt, PROGRAM)),
    }
}

/// Adds the file of a word to those before it.
fn add_one<'a>(rt: &HostRuntime, files: &mut Vec<Named<'a>>, word: &'a [u8]) -> Result<(), u8> {
    let Ok(name) = str::from_utf8(word) else {
        let _ = eprintln!(rt; "{PROGRAM}: the path of a shard is not UTF-8");
        return Err(2);
    };
    let named = read_one(rt, name)?;
    check(rt, &named, files.as_slice())?;
    match files.push(named) {
        Ok(()) => Ok(()),
        Err(_) => Err(lack(rt, PROGRAM)),
    }
}

/// Whether there is a shard with a number.
fn has_shard(files: &[Named<'_>], number: u64) -> bool {
    for named in files {
        if number_of(&named.file) == number {
            return true;
        }
    }
    false
}

/// Whether all shards are there. On an `Err`, which is the program's exit status, standard error has been told which are missing.
fn check_all(rt: &HostRuntime, files: &[Named<'_>], shards: u64) -> Result<(), u8> {
    let mut is_whole = true;
    for number in 1..=shards {
        if !has_shard(files, number) {
            let _ = eprintln!(rt; "{PROGRAM}: shard {number} of {shards} is missing");
            is_whole = false;
        }
    }
    if is_whole { Ok(()) } else { Err(1) }
}

/// The files of shards with these names: all of one run, each shard once. On an `Err`, which is the program's exit status, standard error has been told
/// what is wrong.
pub fn read_all<'a>(rt: &HostRuntime, words: &'a [Vec<u8>]) -> Result<Vec<Named<'a>>, u8> {
    let mut files = Vec::new(rt.alloc());
    for word in words {
        add_one(rt, &mut files, word.as_slice())?;
    }
    let Some(first) = files.first() else {
        let _ = eprintln!(rt; "usage: {PROGRAM} merge FILE..");
        return Err(2);
    };
    let shards = shards_of(&first.file);
    check_all(rt, files.as_slice(), shards)?;
    Ok(files)
}

/// Adds what one shard found.
fn add_file<S: Stock>(
    rt: &HostRuntime,
    image: &[u8],
    all: &mut Exploration,
    settings: &Settings,
    file: &ShardFile,
) -> Result<(), u8>
    ensures joined { (nodes : FileMap) → read_image image.now ≡ Ok nodes → OnOk result
        (AreJoined (shell S.meaning) outcome_of (start nodes settings.now) file.now.kept.items all.old.found.items all.new.found.items) }
    ensures tried { OnOk result (all.new.schedules ≡ min (all.old.schedules + file.now.schedules) (2 ^ 64 - 1)) }
    ensures complete { OnOk result (all.new.is_complete ≡ (all.old.is_complete && file.now.is_complete)) }
{
    let kept = file.kept.as_slice();
    match join_kept::<S>(rt.alloc(), image, settings, kept, &mut all.found) {
        Ok(()) => {},
        Err(fault) => return Err(refuse(rt, fault)),
    }
    all.schedules = all.schedules.saturating_add(file.schedules);
    all.is_complete = all.is_complete && file.is_complete;
    Ok(())
}

/// What the shards found together, over an image: the schedules that they kept are run again from the start, so that each outcome is that of the
/// script. As many schedules were tried as all of them tried, 2^64 - 1 at most, and these are all there are if each of them tried all of its own.
/// On an `Err`, which is the program's exit status, standard error has been told why there is nothing.
pub fn joined<S: Stock>(
    rt: &HostRuntime,
    image: &[u8],
    files: &[Named<'_>],
    settings: &Settings,
) -> Result<Exploration, u8>
    ensures joined { (nodes : FileMap) → read_image image.now ≡ Ok nodes → IfOk result (λ all.
        AreJoinedInTurn (shell S.meaning) outcome_of (start nodes settings.now) (map (λ named. named.file.kept.items) files.now) [] all.found.items) }
    ensures tried { IfOk result (λ all. all.schedules ≡ min (sum_by (λ named. named.file.schedules) files.now) (2 ^ 64 - 1)) }
    ensures complete { IfOk result (λ all. all.is_complete ≡ list_all (λ named. named.file.is_complete) files.now) }
{
    let mut all = Exploration {
        found: Vec::new(rt.alloc()),
        schedules: 0,
        is_complete: true,
    };
    'files: for named in files {
        add_file::<S>(rt, image, &mut all, settings, &named.file)?;
    }
    Ok(all)
}
