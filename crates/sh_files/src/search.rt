//! The search for a command (XCU 2.9.1.4) and for a dot script (2.15 dot), by the variable PATH (XBD 8.3).
ghost use Rattle.std.specs.Prelude.{◌≡◌, ◌∷◌, ◌==◌, ◌<◌, [], IfOk, IfSome, MatchOption, Some, find, length, map, option_map, position};
ghost use Rattle.std.specs.List.{list_any};
ghost use Rattle.sh_files.specs.Nodes.{is_executable};
ghost use Rattle.sh_files_image.specs.declared.node.Node.TheVariants as node;
ghost use Rattle.sh_files.specs.Search.{elements, executable_path, has_slash, is_regular, line_of, located_of, names_regular, node_leads, not_executed, path_in, path_leads, paths_of, program_of, script_of, program_among, stock_name, candidate_paths, dot_script, first_text, may_be_read, readable_text, text_at, with_slash};

use crate::files::Files;
use sh_base::NoMemory;
use sh_base::sequence::{Sequence, Text};
use sh_files_image::{File, Node};
use std::alloc::Global;

/// The longest script, in bytes: a longer file can't be executed.
pub const MAX_SCRIPT: usize = 1 << 24;

/// What a command's name leads to (XCU 2.9.1.4).
#[derive(Debug, Drop)]
pub enum Located {
    /// No file.
    Missing,
    /// A file that can't be executed.
    Unfit,
    /// The program of this name in the stock.
    Stock(Text),
    /// A script, with its path and its text.
    Script { path: Text, text: Text },
}

/// The place of the first newline.
fn first_newline(text: &[u8]) -> Option<usize>
    ensures place { result ≡ position (λ b. b == 10) text.now }
    ensures within { IfSome result (λ i. i < length text.now) }
{
    text.iter().position(|byte| *byte == b'\n')
}

/// The text of a line, which has at least one byte before its newline and none after it.
fn line_of(text: &[u8]) -> Option<&[u8]>
    ensures { option_map (λ line. line.now) result ≡ line_of text.now }
{
    let Some(place) = first_newline(text) else {
        return None;
    };
    if 1 <= place && place + 1 == text.len() {
        return Some(&text[..place]);
    }
    None
}

/// The name in a file that is the one line `#!stock NAME`.
fn stock_name(text: &[u8]) -> Option<&[u8]>
    ensures { option_map (λ name. name.now) result ≡ stock_name text.now }
{
    if text.starts_with(b"#!stock ") {
        return line_of(&text[8..]);
    }
    None
}

/// Whether a file can be read as a script: it has the flag r, and at most [`MAX_SCRIPT`] bytes. Takes no memory.
pub fn may_be_read(file: &File) -> bool
    ensures { result ≡ may_be_read file.now }
{
    file.flags().read && file.bytes().len() <= MAX_SCRIPT
}

/// A file's text as a script.
fn script_of(alloc: Global, path: &[u8], file: &File) -> Result<Located, NoMemory>
    ensures { IfOk result (λ located. located ≡ script_of path.now file.now) }
{
    if !may_be_read(file) {
        return Ok(Located::Unfit);
    }
    Ok(Located::Script {
        path: Text::copy_of(alloc, path)?,
        text: Text::copy_of(alloc, file.bytes())?,
    })
}

/// What a file that may be executed leads to.
fn program_of(alloc: Global, path: &[u8], file: &File) -> Result<Located, NoMemory>
    ensures { IfOk result (λ located. located ≡ program_of path.now file.now) }
{
    let Some(name) = stock_name(file.bytes()) else {
        return script_of(alloc, path, file);
    };
    Ok(Located::Stock(Text::copy_of(alloc, name)?))
}

/// What a regular file leads to.
fn file_leads(alloc: Global, path: &[u8], file: &File) -> Result<Located, NoMemory>
    ensures { IfOk result (λ located. located ≡ node_leads path.now (Some (node.File file.now))) }
{
    if !file.flags().execute {
        return Ok(Located::Unfit);
    }
    program_of(alloc, path, file)
}

/// What a path leads to, where it names this node.
fn node_leads(alloc: Global, path: &[u8], found: Option<&Node>) -> Result<Located, NoMemory>
    ensures { IfOk result (λ located.
        located ≡ node_leads path.now (option_map (λ node. node.now) found.entry)) }
{
    match found {
        Some(Node::File(file)) => file_leads(alloc, path, file),
        Some(_) => Ok(Located::Unfit),
        None => Ok(Located::Missing),
    }
}

/// What a path leads to.
#[tactic(auto, unfolding(crate::specs::Search::path_leads))]
fn path_leads(
    alloc: Global,
    files: &Files,
    directory: &[u8],
    path: &[u8],
) -> Result<Located, NoMemory>
    ensures { IfOk result (λ located. located ≡ path_leads files.now directory.now path.now) }
{
    let found = files.find(directory, path)?;
    node_leads(alloc, path, found)
}

/// The place of the first colon.
fn first_colon(value: &[u8]) -> Option<usize>
    ensures place { result ≡ position (λ b. b == 58) value.now }
    ensures within { IfSome result (λ i. i < length value.now) }
{
    value.iter().position(|byte| *byte == b':')
}

/// The first element, and what is after its colon; `None` where there is only one element.
fn split_element(value: &[u8]) -> Option<(&[u8], &[u8])>
    ensures parts { MatchOption result (elements value.now ≡ value.now ∷ []) (λ parts.
        elements value.now ≡ parts.0.now ∷ elements parts.1.now) }
    ensures shorter { IfSome result (λ parts. length parts.1.now < length value.now) }
{
    match first_colon(value) {
        Some(place) => Some((&value[..place], &value[place + 1..])),
        None => None,
    }
}

/// An element with a slash at its end.
fn with_slash(alloc: Global, element: &[u8]) -> Result<Text, NoMemory>
    ensures { IfOk result (λ path. path ≡ with_slash element.now) }
{
    let mut path = Text::copy_of(alloc, element)?;
    if !element.ends_with(b"/") {
        path.push(b'/')?;
    }
    Ok(path)
}

/// The path of a name in an element.
fn path_in(alloc: Global, name: &[u8], element: &[u8]) -> Result<Text, NoMemory>
    ensures { IfOk result (λ path. path ≡ path_in name.now element.now) }
{
    if element.is_empty() {
        return Ok(Text::copy_of(alloc, name)?);
    }
    let mut path = with_slash(alloc, element)?;
    path.extend_from_slice(name)?;
    Ok(path)
}

/// The paths of a name in the elements of PATH.
fn paths_in(alloc: Global, value: &[u8], name: &[u8]) -> Result<Sequence<Text>, NoMemory>
    ensures { IfOk result (λ paths. paths ≡ map (path_in name.now) (elements value.now)) }
{
    let mut paths = Sequence::new(alloc);
    let mut rest = value;
    'elements: while let Some((element, behind)) = split_element(rest) {
        paths.push(path_in(alloc, name, element)?)?;
        rest = behind;
    }
    paths.push(path_in(alloc, name, rest)?)?;
    Ok(paths)
}

/// The paths that are tried.
fn tried(alloc: Global, value: Option<&[u8]>, name: &[u8]) -> Result<Sequence<Text>, NoMemory>
    ensures { IfOk result (λ paths.
        paths ≡ candidate_paths (option_map (λ value. value.now) value.entry) name.now) }
{
    let Some(value) = value else {
        return Ok(Sequence::new(alloc));
    };
    paths_in(alloc, value, name)
}

/// Whether what was found is a regular file.
fn is_regular(found: Option<&Node>) -> bool
    ensures { result ≡ is_regular (option_map (λ node. node.now) found.entry) }
{
    match found {
        Some(Node::File(_)) => true,
        _ => false,
    }
}

/// Whether a path names a regular file.
fn names_regular(files: &Files, directory: &[u8], path: &[u8]) -> Result<bool, NoMemory>
    ensures { IfOk result (λ regular. regular ≡ names_regular files.now directory.now path.now) }
{
    let found = files.find(directory, path)?;
    Ok(is_regular(found))
}

/// Whether one of these paths names a regular file.
fn any_regular(files: &Files, directory: &[u8], paths: &[Text]) -> Result<bool, NoMemory>
    ensures { IfOk result (λ any. any ≡ list_any (names_regular files.now directory.now) paths.now) }
{
    let mut rest = paths;
    'paths: while let Some((path, others)) = rest.split_first() {
        if names_regular(files, directory, path.as_slice())? {
            return Ok(true);
        }
        rest = others;
    }
    Ok(false)
}

/// The first of these paths that names a file that may be executed.
fn first_executable<'a>(
    files: &Files,
    directory: &[u8],
    paths: &'a [Text],
) -> Result<Option<&'a Text>, NoMemory>
    ensures { IfOk result (λ found.
        option_map (λ path. path.now) found ≡ find (is_executable files.now directory.now)
        paths.now) }
{
    let mut rest = paths;
    'paths: while let Some((path, others)) = rest.split_first() {
        if files.is_executable(directory, path.as_slice())? {
            return Ok(Some(path));
        }
        rest = others;
    }
    Ok(None)
}

/// What a search leads to where no path names a file that may be executed.
fn not_executed(files: &Files, directory: &[u8], paths: &[Text]) -> Result<Located, NoMemory>
    ensures { IfOk result (λ located.
        located ≡ not_executed (list_any (names_regular files.now directory.now) paths.now)) }
{
    if any_regular(files, directory, paths)? {
        return Ok(Located::Unfit);
    }
    Ok(Located::Missing)
}

/// What the paths that are tried lead to.
#[tactic(auto, unfolding(crate::specs::Search::program_among))]
fn searched(
    alloc: Global,
    files: &Files,
    directory: &[u8],
    paths: &[Text],
) -> Result<Located, NoMemory>
    ensures { IfOk result (λ located. located ≡ program_among files.now directory.now paths.now) }
{
    let Some(path) = first_executable(files, directory, paths)? else {
        return not_executed(files, directory, paths);
    };
    path_leads(alloc, files, directory, path.as_slice())
}

/// Whether a name has a slash.
fn has_slash(name: &[u8]) -> bool
    ensures { result ≡ has_slash name.now }
{
    name.iter().any(|byte| *byte == b'/')
}

/// What a command's name leads to from a working directory, where `elements` is the value of PATH, if that is set: a name with a slash is
/// a path, another one is searched for in the elements of PATH. The only error is want of memory.
#[tactic(auto, unfolding(crate::specs::Search::located_of))]
pub fn locate(
    alloc: Global,
    files: &Files,
    directory: &[u8],
    elements: Option<&[u8]>,
    name: &[u8],
) -> Result<Located, NoMemory>
    ensures { IfOk result (λ located.
        located ≡ located_of files.now directory.now
        (option_map (λ elements. elements.now) elements.entry) name.now) }
{
    if has_slash(name) {
        return path_leads(alloc, files, directory, name);
    }
    let paths = tried(alloc, elements, name)?;
    searched(alloc, files, directory, paths.as_slice())
}

/// The paths that a name may stand for: itself if it has a slash.
fn paths_of(alloc: Global, elements: Option<&[u8]>, name: &[u8]) -> Result<Sequence<Text>, NoMemory>
    ensures { IfOk result (λ paths.
        paths ≡ paths_of (option_map (λ elements. elements.now) elements.entry) name.now) }
{
    if !has_slash(name) {
        return tried(alloc, elements, name);
    }
    let mut paths = Sequence::new(alloc);
    paths.push(Text::copy_of(alloc, name)?)?;
    Ok(paths)
}

/// The path of the file that a command's name leads to from a working directory (XCU 2.9.1.4, command), where `elements` is the value of
/// PATH, if that is set: a name with a slash is the path, another one is searched for in the elements of PATH. `None` where no regular
/// file with the flag x is found. The only error is want of memory.
#[tactic(auto, unfolding(crate::specs::Search::executable_path))]
pub fn executable_path(
    alloc: Global,
    files: &Files,
    directory: &[u8],
    elements: Option<&[u8]>,
    name: &[u8],
) -> Result<Option<Text>, NoMemory>
    ensures { IfOk result (λ path.
        path ≡ executable_path files.now directory.now
        (option_map (λ elements. elements.now) elements.entry) name.now) }
{
    let paths = paths_of(alloc, elements, name)?;
    let Some(path) = first_executable(files, directory, paths.as_slice())? else {
        return Ok(None);
    };
    let path = Text::copy_of(alloc, path.as_slice())?;
    Ok(Some(path))
}

/// The text of a regular file, if that can be read as a script.
fn readable_file(alloc: Global, file: &File) -> Result<Option<Text>, NoMemory>
    ensures { IfOk result (λ text. text ≡ readable_text (Some (node.File file.now))) }
{
    if !may_be_read(file) {
        return Ok(None);
    }
    let text = Text::copy_of(alloc, file.bytes())?;
    Ok(Some(text))
}

/// The text of a file that can be read as a script.
fn readable_text(alloc: Global, found: Option<&Node>) -> Result<Option<Text>, NoMemory>
    ensures { IfOk result (λ text.
        text ≡ readable_text (option_map (λ node. node.now) found.entry)) }
{
    match found {
        Some(Node::Directory) => Ok(None),
        Some(Node::File(file)) => readable_file(alloc, file),
        Some(Node::Null) => Ok(Some(Text::new(alloc))),
        Some(Node::Terminal) => Ok(None),
        None => Ok(None),
    }
}

/// The text of the file at a path.
fn text_at(
    alloc: Global,
    files: &Files,
    directory: &[u8],
    path: &[u8],
) -> Result<Option<Text>, NoMemory>
    ensures { IfOk result (λ text. text ≡ text_at files.now directory.now path.now) }
{
    let found = files.find(directory, path)?;
    readable_text(alloc, found)
}

/// The text of the first file among these paths that can be read as a script.
fn first_text(
    alloc: Global,
    files: &Files,
    directory: &[u8],
    paths: &[Text],
) -> Result<Option<Text>, NoMemory>
    ensures { IfOk result (λ text. text ≡ first_text files.now directory.now paths.now) }
{
    let mut rest = paths;
    'paths: while let Some((path, others)) = rest.split_first() {
        if let Some(text) = text_at(alloc, files, directory, path.as_slice())? {
            return Ok(Some(text));
        }
        rest = others;
    }
    Ok(None)
}

/// The text of the dot script of a name (XCU 2.15 dot) from a working directory, where `elements` is the value of PATH, if that is set: a
/// name with a slash is a path, another one is searched for in the elements of PATH. `None` where no file is found that can be read, or
/// only files that are longer than a script may be; a device is read as an empty text if it is the null device, and not at all if it is
/// the terminal. The only error is want of memory.
#[tactic(auto, unfolding(crate::specs::Search::dot_script))]
pub fn dot_script(
    alloc: Global,
    files: &Files,
    directory: &[u8],
    elements: Option<&[u8]>,
    name: &[u8],
) -> Result<Option<Text>, NoMemory>
    ensures { IfOk result (λ text.
        text ≡ dot_script files.now directory.now
        (option_map (λ elements. elements.now) elements.entry) name.now) }
{
    if has_slash(name) {
        return text_at(alloc, files, directory, name);
    }
    let paths = tried(alloc, elements, name)?;
    first_text(alloc, files, directory, paths.as_slice())
}
