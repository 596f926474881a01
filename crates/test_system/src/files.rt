//! Images, and calls of files that were read from one.
//!
//! - `image IMAGE ANSWER`: `ok`, or why it is refused.
//! - `nested LENGTHS ANSWER`: the same of directories in directories, by the lengths of their names.
//! - `large BYTES ANSWER`: the same of an image with one file, longer by so many bytes than an image may be.
//! - `files IMAGE STEPS ANSWERS`: calls, one after another. Of no image these are the files of a new machine.
//! - `many NUMBER ANSWERS`: what so many files in a directory are written and listed as, and what one of them holds.
use crate::calls::opening;
use crate::steps::{bytes_of, count, is, number_of, say, truth, word};
use sh_files::{FileFault, Files, ImageFault, MAX_IMAGE, Node};
use std::alloc::{AllocError, Global};
use test_rows::RowFault;

/// Files of an image, or why it is refused.
fn read_image(alloc: Global, image: &[u8]) -> Result<Files, ImageFault> {
    Files::from_image(alloc, image)
}

/// What an image comes to.
pub(crate) fn image(alloc: Global, bytes: &[u8]) -> Result<Vec<u8>, RowFault> {
    match read_image(alloc, bytes) {
        Ok(files) => {
            drop(files);
            Ok(b"ok".to_vec(alloc)?)
        },
        Err(fault) => Ok(format!(in alloc; "{fault}")?.into_bytes()),
    }
}

/// Puts a slash and a name of so many `n` behind a path.
fn put_name(path: &mut Vec<u8>, length: usize) -> Result<(), AllocError> {
    path.push(b'/')?;
    for _ in 0..length {
        path.push(b'n')?;
    }
    Ok(())
}

/// An image with a directory in a directory for each of these lengths of names, and the path of the last.
fn nested_image(alloc: Global, lengths: &[u8]) -> Result<(Vec<u8>, Vec<u8>), AllocError> {
    let mut bytes = Vec::from_slice(alloc, b"psh image 1\n")?;
    let mut path = Vec::new(alloc);
    for length in lengths.split(|byte| *byte == b',') {
        put_name(&mut path, number_of(length).unwrap_or(0))?;
        bytes.extend_from_slice(b"dir ")?;
        bytes.extend_from_slice(&path)?;
        bytes.push(b'\n')?;
    }
    bytes.extend_from_slice(b"end\n")?;
    Ok((bytes, path))
}

/// What an image of nested directories comes to.
pub(crate) fn nested(alloc: Global, lengths: &[u8]) -> Result<Vec<u8>, RowFault> {
    let (bytes, _) = nested_image(alloc, lengths)?;
    image(alloc, &bytes)
}

/// What comes of making a file with a name of so many bytes in the last of nested directories.
pub(crate) fn made(alloc: Global, lengths: &[u8], length: &[u8]) -> Result<Vec<u8>, RowFault> {
    let (bytes, path) = nested_image(alloc, lengths)?;
    let name = vec![in alloc; b'f'; number_of(length).unwrap_or(0)]?;
    let Ok(mut files) = read_image(alloc, &bytes) else {
        return Err(RowFault::NoMemory);
    };
    let opened = files.open(&path, &name, opening(b"w", 0));
    drop(files);
    let mut said = Vec::new(alloc);
    say_number(alloc, &mut said, opened)?;
    Ok(said)
}

/// What an image comes to that is longer by so many bytes than one may be.
pub(crate) fn large(alloc: Global, more: &[u8]) -> Result<Vec<u8>, RowFault> {
    let length = MAX_IMAGE.saturating_add(number_of(more).unwrap_or(0));
    let mut bytes = Vec::from_slice(alloc, b"psh image 1\nfile /f rw- 268435417\n")?;
    bytes.resize(MAX_IMAGE - 5, b'\n')?;
    bytes.extend_from_slice(b"\nend\n")?;
    bytes.resize(length, b'x')?;
    image(alloc, &bytes)
}

/// Says why a call is refused.
fn say_fault(alloc: Global, said: &mut Vec<u8>, fault: FileFault) -> Result<(), RowFault> {
    if let FileFault::NoMemory(_) = fault {
        return Err(RowFault::NoMemory);
    }
    let text = format!(in alloc; "{fault}")?;
    Ok(say(said, text.as_bytes())?)
}

/// Says a number, or why there is none.
fn say_number(
    alloc: Global,
    said: &mut Vec<u8>,
    number: Result<usize, FileFault>,
) -> Result<(), RowFault> {
    match number {
        Ok(number) => {
            let text = format!(in alloc; "{number}")?;
            Ok(say(said, text.as_bytes())?)
        },
        Err(fault) => say_fault(alloc, said, fault),
    }
}

/// Says that a change was made, or why not.
fn say_done(
    alloc: Global,
    said: &mut Vec<u8>,
    done: Result<(), FileFault>,
) -> Result<(), RowFault> {
    match done {
        Ok(()) => Ok(say(said, b"ok")?),
        Err(fault) => say_fault(alloc, said, fault),
    }
}

/// Says the names in a directory, each behind a slash, or why there are none.
fn list(
    alloc: Global,
    files: &Files,
    directory: &[u8],
    path: &[u8],
    said: &mut Vec<u8>,
) -> Result<(), RowFault> {
    let names = match files.list(directory, path) {
        Ok(names) => names,
        Err(fault) => return say_fault(alloc, said, fault),
    };
    let mut text = Vec::new(alloc);
    for name in &names {
        text.push(b'/')?;
        text.extend_from_slice(name)?;
    }
    Ok(say(said, &text)?)
}

/// Says what a path names.
fn find(files: &Files, directory: &[u8], path: &[u8], said: &mut Vec<u8>) -> Result<(), RowFault> {
    let found: &[u8] = match files.find(directory, path)? {
        Some(Node::File(file)) => file.bytes(),
        Some(Node::Directory) => b"directory",
        Some(_) => b"device",
        None => b"nothing",
    };
    Ok(say(said, found)?)
}

/// Takes a step that changes nothing: `find DIRECTORY PATH`, `list DIRECTORY PATH`, `runs PATH`, `read NUMBER OFFSET SIZE`, `image`.
fn ask(alloc: Global, files: &Files, step: &[u8], said: &mut Vec<u8>) -> Result<(), RowFault> {
    let directory = bytes_of(alloc, word(step, 1))?;
    let path = bytes_of(alloc, word(step, 2))?;
    if is(step, 0, "find") {
        return find(files, &directory, &path, said);
    }
    if is(step, 0, "list") {
        return list(alloc, files, &directory, &path, said);
    }
    if is(step, 0, "runs") {
        let runs = files.is_executable(b"/", &directory)?;
        return Ok(say(said, truth(runs))?);
    }
    if is(step, 0, "read") {
        return match files.read(count(step, 1), count(step, 2), count(step, 3)) {
            Ok(bytes) => Ok(say(said, bytes)?),
            Err(fault) => say_fault(alloc, said, fault),
        };
    }
    let written = files.write_image()?;
    Ok(say(said, &written)?)
}

/// Takes a step: `open DIRECTORY PATH HOW`, `write NUMBER OFFSET BYTES`, `cut NUMBER LENGTH`, `add BYTES`, or one that asks.
fn take(alloc: Global, files: &mut Files, step: &[u8], said: &mut Vec<u8>) -> Result<(), RowFault> {
    if is(step, 0, "open") {
        let directory = bytes_of(alloc, word(step, 1))?;
        let path = bytes_of(alloc, word(step, 2))?;
        let opened = files.open(&directory, &path, opening(step, 3));
        return say_number(alloc, said, opened);
    }
    if is(step, 0, "write") {
        let done = files.write(count(step, 1), count(step, 2), word(step, 3));
        return say_done(alloc, said, done);
    }
    if is(step, 0, "cut") {
        let done = files.truncate(count(step, 1), count(step, 2));
        return say_done(alloc, said, done);
    }
    if is(step, 0, "add") {
        let added = files.add_nameless(word(step, 1).to_vec(alloc)?);
        return say_number(alloc, said, added);
    }
    ask(alloc, files, step, said)
}

/// Takes all steps.
fn take_all(alloc: Global, files: &mut Files, steps: &[u8]) -> Result<Vec<u8>, RowFault> {
    let mut said = Vec::new(alloc);
    for step in steps.split(|byte| *byte == b';') {
        take(alloc, files, step, &mut said)?;
    }
    Ok(said)
}

/// The files of an image, or those of a new machine where there is none.
fn files_of(alloc: Global, image: &[u8]) -> Result<Files, RowFault> {
    if image.is_empty() {
        return Ok(Files::new(alloc)?);
    }
    match read_image(alloc, image) {
        Ok(files) => Ok(files),
        Err(_) => Err(RowFault::NoMemory),
    }
}

/// What calls of an image's files answer, one after another.
pub(crate) fn answers(alloc: Global, image: &[u8], steps: &[u8]) -> Result<Vec<u8>, RowFault> {
    let mut files = files_of(alloc, image)?;
    let said = take_all(alloc, &mut files, steps);
    drop(files);
    said
}

/// An image of so many files in a directory, in the order of their names, of which each holds its name; and the names, each behind a slash.
fn many_files(alloc: Global, files: usize) -> Result<(Vec<u8>, Vec<u8>), AllocError> {
    let mut image = Vec::from_slice(alloc, b"psh image 1\ndir /many\n")?;
    let mut names = Vec::new(alloc);
    for number in 0..files {
        let name = format!(in alloc; "{number:05}")?;
        let line = format!(in alloc; "file /many/{name} rw- 5\n{name}\n")?;
        image.extend_from_slice(line.as_bytes())?;
        names.push(b'/')?;
        names.extend_from_slice(name.as_bytes())?;
    }
    image.extend_from_slice(b"end\n")?;
    Ok((image, names))
}

/// Says whether many files are written as the image that they were read from, and listed by their names.
fn compare(
    alloc: Global,
    files: &Files,
    image: &[u8],
    names: &[u8],
    said: &mut Vec<u8>,
) -> Result<(), RowFault> {
    let written = files.write_image()?;
    say(said, truth(written.as_slice() == image))?;
    let mut listed = Vec::new(alloc);
    list(alloc, files, b"/", b"many", &mut listed)?;
    Ok(say(said, truth(listed.strip_suffix(b";") == Some(names)))?)
}

/// What so many files come to, and what further steps answer.
pub(crate) fn many(alloc: Global, count: &[u8], steps: &[u8]) -> Result<Vec<u8>, RowFault> {
    let (image, names) = many_files(alloc, number_of(count).unwrap_or(0))?;
    let mut files = files_of(alloc, &image)?;
    let mut said = Vec::new(alloc);
    let compared = compare(alloc, &files, &image, &names, &mut said);
    let more = take_all(alloc, &mut files, steps);
    drop(files);
    compared?;
    said.extend_from_slice(&more?)?;
    Ok(said)
}
