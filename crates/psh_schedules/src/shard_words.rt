//! The words that say which shard is tried.
use crate::PROGRAM;
use psh_common::{UsageFault, usage};
use sh_base::decimal::{all_digits, limited_value};
use sh_schedules::Shard;
use std::alloc::Global;

/// How many shards there are at most.
const MOST: u64 = 2_147_483_647;

/// The shard with a number of so many.
pub fn shard_of(number: u64, shards: u64) -> Option<Shard> {
    if number == 0 || number > shards || shards > MOST {
        return None;
    }
    Some(Shard {
        before: (number - 1) as u32,
        behind: (shards - number) as u32,
    })
}

/// A number from 1 to 2147483647.
pub fn number(digits: &[u8]) -> Option<u64> {
    if digits.is_empty() || digits.len() > 10 || !all_digits(digits) {
        return None;
    }
    limited_value(digits, MOST)
}

/// What stands behind a beginning.
pub fn behind<'a>(bytes: &'a [u8], beginning: &[u8]) -> Option<&'a [u8]> {
    if bytes.len() < beginning.len() || !bytes.starts_with(beginning) {
        return None;
    }
    Some(&bytes[beginning.len()..])
}

/// The shard that `I/N` names.
fn named(word: &[u8]) -> Option<Shard> {
    let place = word.iter().position(|byte| *byte == b'/')?;
    let (first, rest) = word.split_at(place);
    let (_, second) = rest.split_first()?;
    shard_of(number(first)?, number(second)?)
}

/// The shard of a word that comes behind `--shard`.
fn shard_in(alloc: Global, word: &[u8]) -> Result<Shard, UsageFault> {
    match named(word) {
        Some(shard) => Ok(shard),
        None => Err(usage(alloc, PROGRAM, "bad shard")),
    }
}

/// The shard that the first words name, as `--shard I/N` or `--shard=I/N`, and the words behind them; none where they name none.
pub fn shard_first<'a>(
    alloc: Global,
    words: &'a [Vec<u8>],
) -> Result<Option<(Shard, &'a [Vec<u8>])>, UsageFault> {
    let Some((first, others)) = words.split_first() else {
        return Ok(None);
    };
    if let Some(word) = behind(first.as_slice(), b"--shard=") {
        let shard = shard_in(alloc, word)?;
        return Ok(Some((shard, others)));
    }
    if first.as_slice() != b"--shard".as_slice() {
        return Ok(None);
    }
    let Some((word, rest)) = others.split_first() else {
        return Ok(None);
    };
    let shard = shard_in(alloc, word.as_slice())?;
    Ok(Some((shard, rest)))
}
