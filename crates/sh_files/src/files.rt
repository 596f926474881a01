// The files by path and by number.
ghost use Rattle.sh_base.specs.Memory.{no_memory};
ghost use Rattle.std.specs.Prelude.{◌≡◌, ◌≢◌, ◌+◌, ◌≤◌, ◌^◌, IfOk, IfErr, OnOk, OnErr, IsOk, Ok, Err, option_map, slice_get, length, codes, true, false, ◌⊎◌, take, drop, if◌then◌else◌};
ghost use Rattle.std.specs.Prelude.{List, ℕ, map as list_map};
ghost use Rattle.std.specs.Borrow.{Bor};
ghost use Rattle.std.specs.FinMap as map;
ghost use Rattle.sh_files_image.specs.Blocks.{flat};
ghost use Rattle.sh_files_image.specs.Listing.{prefix_of, names_in};
ghost use Rattle.sh_files_image.specs.Paths.{fits, components};
ghost use Rattle.std.specs.Result.{result_map_both};
ghost use Rattle.sh_files_image.specs.Contents.{content_after_write};
ghost use Rattle.sh_files.specs.Nodes.{allows, node_opened, node_truncated, node_written, file_after_open, runs, write_fits, file_creation, entrance, is_empty, is_executable, may_create, node_of_path, nameless, node_at, open_node, open_number, opened, read_at, resolution, starting, truncation, walk_end, with_new, write_at};

use crate::fault::FileFault;
use crate::opening::Opening;
use sh_files_image::{
    Block, Entry, File, Flags, MAX_LENGTH, MAX_PATH, Node, Table, absolute, names_fit, split_slash,
    step,
};
use std::alloc::{AllocError, Global};
use std::marker::Model;

/// Directories, regular files and devices, by path.
///
/// A node is named by a number, which stays its own as long as the value lives. After each error the value is as it
/// was before the call.
#[derive(Drop)]
pub struct Files {
    alloc: Global,
    paths: Table,
    nodes: Vec<Node>,
}

impl Model for Files {
    ghost use Rattle.std.specs.Coded.{codes};
    ghost use Rattle.std.specs.Result.{result_map_both};
    ghost use Rattle.sh_files_image.specs.Contents.{content_after_write};
    ghost use Rattle.sh_files.specs.Nodes.{allows, node_opened, node_truncated, node_written, file_after_open, runs, write_fits, FileMap};
    ghost use Rattle.sh_files_image.specs.Codes.{map_code};

    ghost Value = { FileMap };

    ghost coded = { Prim.hlevel (codes, map_code) };

    ghost view = { λ files. record { paths = files.paths; nodes = files.nodes.items } };
}

impl Files {
    /// The root directory, `/dev`, `/dev/null` and `/dev/tty`. The only error is want of memory.
    #[tactic(auto, unfolding(crate::specs::Nodes::starting))]
    pub fn new(alloc: Global) -> Result<Files, AllocError>
        ensures { IfOk result (λ files. files ≡ starting) }
    {
        let paths = Table::starting(alloc)?;
        let mut nodes = Vec::with_capacity(alloc, 4)?;
        nodes.push(Node::Directory)?;
        nodes.push(Node::Directory)?;
        nodes.push(Node::Null)?;
        nodes.push(Node::Terminal)?;
        Ok(Files {
            alloc,
            paths,
            nodes,
        })
    }

    /// A copy, which is equal: the same nodes have the same numbers and are at the same paths, and from here on each
    /// of the two changes alone. The only error is want of memory.
    pub fn copy(&self) -> Result<Files, AllocError>
        ensures { IfOk result (λ copy. copy ≡ self.now) }
    {
        let paths = self.paths.copy(self.alloc)?;
        let nodes = copy_nodes(self.alloc, &self.nodes)?;
        Ok(Files {
            alloc: self.alloc,
            paths,
            nodes,
        })
    }

    /// The node of this number.
    pub fn node(&self, number: usize) -> Option<&Node>
        ensures { option_map (λ node. node.now) result ≡ slice_get self.now.nodes number }
    {
        self.nodes.get(number)
    }

    /// The node at an absolute path without dot, dot-dot and doubled slashes.
    pub(crate) fn node_at(&self, place: &[u8]) -> Option<&Node>
        ensures { option_map (λ node. node.now) result ≡ node_at self.now place.now }
    {
        match self.paths.find(place) {
            Some(number) => self.node(number),
            None => None,
        }
    }

    /// The numbers of the nodes at two such paths; this is quicker where they are near each other in order.
    pub(crate) fn numbers_at(&self, place: &[u8], near: &[u8]) -> (Option<usize>, Option<usize>)
        ensures { result ≡ (map.get self.now.paths place.now, map.get self.now.paths near.now) }
    {
        self.paths.find_both(place, near)
    }

    /// All nodes, each at its number.
    pub(crate) fn nodes(&self) -> &[Node]
        ensures { result.now ≡ self.now.nodes }
    {
        self.nodes.as_slice()
    }

    /// The paths with the numbers of their nodes, in the order of their bytes.
    pub(crate) fn blocks(&self) -> &[Block]
        ensures { flat result.now ≡ map.entries self.now.paths }
    {
        self.paths.blocks()
    }

    /// The names in the directory at a place, in the order of their paths' bytes.
    pub(crate) fn names_at(&self, place: &[u8]) -> Result<Vec<&[u8]>, AllocError>
        ensures { IfOk result (λ names.
            list_map (λ (name : Bor (List ℕ)). name.now) names.items
            ≡ names_in (prefix_of place.now) (map.entries self.now.paths)) }
    {
        let names = self.paths.names_in(self.alloc, place)?;
        Ok(names)
    }

    /// Where memory comes from.
    pub(crate) fn alloc(&self) -> Global {
        self.alloc
    }

    /// Refuses a place where no directory is.
    pub(crate) fn check_directory(&self, place: &[u8]) -> Result<(), FileFault>
        ensures { result ≡ entrance (node_at self.now place.now) }
    {
        match self.node_at(place) {
            Some(Node::Directory) => Ok(()),
            Some(_) => Err(FileFault::NotDirectory),
            None => Err(FileFault::NoEntry),
        }
    }

    /// Goes from the root along the components of a path.
    fn walk(&self, path: &[u8]) -> Result<Vec<u8>, FileFault>
        ensures ok { IfOk result (λ place.
            walk_end self.now (codes "/") (components path.now) ≡ Ok place.items) }
        ensures refused { IfErr result (λ fault.
            fault ≢ FileFault.NoMemory no_memory
            → walk_end self.now (codes "/") (components path.now) ≡ Err fault) }
    {
        let mut place = Vec::from_slice(self.alloc, b"/")?;
        let mut rest = path;
        'names: while let Some((name, behind)) = split_slash(rest) {
            self.check_directory(&place)?;
            step(&mut place, name)?;
            rest = behind;
        }
        self.check_directory(&place)?;
        step(&mut place, rest)?;
        Ok(place)
    }

    /// The absolute path of what a path names, from a directory.
    pub(crate) fn resolve(&self, directory: &[u8], path: &[u8]) -> Result<Vec<u8>, FileFault>
        ensures ok { IfOk result (λ place.
            resolution self.now directory.now path.now ≡ Ok place.items) }
        ensures refused { IfErr result (λ fault.
            fault ≢ FileFault.NoMemory no_memory → resolution self.now directory.now path.now
            ≡ Err fault) }
    {
        if path.is_empty() || path.len() > MAX_PATH {
            return Err(FileFault::NoEntry);
        }
        let whole = absolute(self.alloc, directory, path)?;
        if whole.len() > MAX_PATH || !names_fit(&whole) {
            return Err(FileFault::NoEntry);
        }
        self.walk(&whole)
    }

    /// Opens what a path names, in a working directory where the path doesn't begin with a slash, and gives the number
    /// of its node. An empty path names nothing. Dot and dot-dot are followed.
    ///
    /// The errors are looked for in this order. `NoEntry` where the path is longer than [`MAX_PATH`], as
    /// given or as an absolute path, or a name is longer than [`MAX_NAME`]; then, from the left, `NoEntry`
    /// where what is named before a slash isn't there, and `NotDirectory` where it is no directory; `NoEntry`
    /// where the path names nothing and `create` isn't set; `IsDirectory`, since no directory is opened;
    /// `Exists` for a regular file under `exclusive`; `NoAccess` where the file's flags don't allow it, or
    /// nothing may be made there: in `/dev`, or under a name with a newline or NUL. `NoMemory` may come at
    /// any point.
    pub fn open(&mut self, directory: &[u8], path: &[u8], how: Opening) -> Result<usize, FileFault>
        ensures ok { IfOk result (λ number.
            opened self.old directory.now path.now how ≡ Ok (number, self.new)) }
        ensures refused { IfErr result (λ fault.
            fault ≢ FileFault.NoMemory no_memory → opened self.old directory.now path.now how
            ≡ Err fault) }
        ensures err { OnErr result (self.new ≡ self.old) }
    {
        let place = self.resolve(directory, path)?;
        let Some(number) = self.paths.find(&place) else {
            return self.create(place, how);
        };
        self.open_number(number, how)?;
        Ok(number)
    }

    /// Opens what is there.
    fn open_number(&mut self, number: usize, how: Opening) -> Result<(), FileFault>
        ensures ok { OnOk result
            (open_node self.old how number (slice_get self.old.nodes number) ≡ Ok self.new) }
        ensures refused { IfErr result (λ fault.
            open_node self.old how number (slice_get self.old.nodes number) ≡ Err fault) }
        ensures err { OnErr result (self.new ≡ self.old) }
    {
        let Some(node) = self.nodes.get_mut(number) else {
            return Err(FileFault::NoEntry);
        };
        open_node(node, how)
    }

    /// Makes a file where nothing is.
    fn create(&mut self, place: Vec<u8>, how: Opening) -> Result<usize, FileFault>
        ensures ok { IfOk result (λ number.
            file_creation self.old place.items how ≡ Ok (number, self.new)) }
        ensures refused { IfErr result (λ fault.
            fault ≢ FileFault.NoMemory no_memory → file_creation self.old place.items how
            ≡ Err fault) }
        ensures err { OnErr result (self.new ≡ self.old) }
    {
        if !how.create {
            return Err(FileFault::NoEntry);
        }
        if !may_create(&place) {
            return Err(FileFault::NoAccess);
        }
        let file = File::new(NEW_FLAGS, Vec::new(self.alloc));
        Ok(self.add(place, Node::File(file))?)
    }

    /// Adds a node at a place where nothing is.
    pub(crate) fn add(&mut self, place: Vec<u8>, node: Node) -> Result<usize, AllocError>
        ensures ok { IfOk result (λ number.
            (number ≡ length self.old.nodes) × (self.new ≡ with_new self.old place.items node)) }
        ensures err { OnErr result (self.new ≡ self.old) }
    {
        let number = self.nodes.len();
        self.nodes.reserve(1)?;
        self.paths.put(Entry::new(place, number))?;
        self.nodes.push_reserved(node);
        Ok(number)
    }

    /// Up to `count` bytes of a file from an offset on (XSH read); none where it ends there or before. The
    /// null device is always at its end. `BadNumber` where the number is of no regular file and not of the
    /// null device. Takes no memory.
    pub fn read(&self, number: usize, offset: usize, count: usize) -> Result<&[u8], FileFault>
        ensures { result_map_both (λ bytes. bytes.now) (λ fault. fault) result
            ≡ read_at self.now number offset count }
    {
        match self.node(number) {
            Some(Node::File(file)) => Ok(part(file.bytes(), offset, count)),
            Some(Node::Null) => Ok(&[]),
            _ => Err(FileFault::BadNumber),
        }
    }

    /// Writes all these bytes at an offset, over those that are there (XSH write); where the file ends before
    /// it, NUL bytes fill the gap. A write of no bytes changes nothing. The null device takes everything.
    ///
    /// `BadNumber` where the number is of no regular file and not of the null device; `TooLarge` where the file would
    /// be longer than [`MAX_LENGTH`]; else `NoMemory`.
    pub fn write(&mut self, number: usize, offset: usize, bytes: &[u8]) -> Result<(), FileFault>
        ensures ok { OnOk result (write_at self.old number offset bytes.now ≡ Ok self.new) }
        ensures refused { IfErr result (λ fault.
            fault ≢ FileFault.NoMemory no_memory → write_at self.old number offset bytes.now
            ≡ Err fault) }
        ensures room { IfErr result (λ fault.
            fault ≡ FileFault.NoMemory no_memory
            → IsOk (write_at self.old number offset bytes.now)) }
        ensures err { OnErr result (self.new ≡ self.old) }
    {
        let Some(node) = self.nodes.get_mut(number) else {
            return Err(FileFault::BadNumber);
        };
        write_node(node, offset, bytes)
    }

    /// Cuts a file to a length, if it is longer. `BadNumber` where the number is of no regular file and not
    /// of the null device. Takes no memory.
    pub fn truncate(&mut self, number: usize, length: usize) -> Result<(), FileFault>
        ensures ok { OnOk result (truncation self.old number length ≡ Ok self.new) }
        ensures refused { IfErr result (λ fault. truncation self.old number length ≡ Err fault) }
        ensures err { OnErr result (self.new ≡ self.old) }
    {
        let Some(node) = self.nodes.get_mut(number) else {
            return Err(FileFault::BadNumber);
        };
        truncate_node(node, length)
    }

    /// Adds a regular file of these bytes, as for a here-document (XCU 2.7.4), and gives the number of its node. No path
    /// names it, and it is in no image. It may be read and written.
    ///
    /// `TooLarge` where there are more than [`MAX_LENGTH`] bytes; else `NoMemory`.
    pub fn add_nameless(&mut self, bytes: Vec<u8>) -> Result<usize, FileFault>
        ensures ok { IfOk result (λ number. nameless self.old bytes.items ≡ Ok (number, self.new)) }
        ensures refused { IfErr result (λ fault.
            fault ≢ FileFault.NoMemory no_memory → nameless self.old bytes.items ≡ Err fault) }
        ensures room { IfErr result (λ fault.
            fault ≡ FileFault.NoMemory no_memory → IsOk (nameless self.old bytes.items)) }
        ensures err { OnErr result (self.new ≡ self.old) }
    {
        if bytes.len() > MAX_LENGTH {
            return Err(FileFault::TooLarge);
        }
        let number = self.nodes.len();
        self.nodes.reserve(1)?;
        self.nodes
            .push_reserved(Node::File(File::new(NEW_FLAGS, bytes)));
        Ok(number)
    }

    /// The node that a path names. The path is followed as by [`Files::open`]; `None` where it names nothing
    /// or can't be followed. The only error is want of memory.
    pub fn find(&self, directory: &[u8], path: &[u8]) -> Result<Option<&Node>, AllocError>
        ensures { IfOk result (λ found.
            option_map (λ node. node.now) found ≡ node_of_path self.now directory.now path.now) }
    {
        match self.resolve(directory, path) {
            Ok(place) => Ok(self.node_at(&place)),
            Err(FileFault::NoMemory(lack)) => Err(AllocError::from(lack)),
            Err(_) => Ok(None),
        }
    }

    /// Whether a path names a regular file that may be executed (XCU 2.9.1.4). The only error is want of memory.
    pub fn is_executable(&self, directory: &[u8], path: &[u8]) -> Result<bool, AllocError>
        ensures { IfOk result (λ executable.
            executable ≡ is_executable self.now directory.now path.now) }
    {
        let found = self.find(directory, path)?;
        Ok(runs(found))
    }
}

/// Copies of these nodes, in order. The only error is want of memory.
fn copy_nodes(alloc: Global, nodes: &[Node]) -> Result<Vec<Node>, AllocError>
    ensures { IfOk result (λ copies. copies.items ≡ nodes.now) }
{
    let mut copies = Vec::with_capacity(alloc, nodes.len())?;
    for node in nodes {
        copies.push(node.copy(alloc)?)?;
    }
    Ok(copies)
}

/// Whether what was found may be run.
fn runs(found: Option<&Node>) -> bool
    ensures { result ≡ runs (option_map (λ node. node.now) found.entry) }
{
    match found {
        Some(Node::File(file)) => file.flags().execute,
        _ => false,
    }
}

/// The flags of a file that is made.
const NEW_FLAGS: Flags = Flags {
    read: true,
    write: true,
    execute: false,
};

/// Opens a node.
fn open_node(node: &mut Node, how: Opening) -> Result<(), FileFault>
    ensures ok { OnOk result (node_opened how node.old ≡ Ok node.new) }
    ensures refused { IfErr result (λ fault. node_opened how node.old ≡ Err fault) }
    ensures err { OnErr result (node.new ≡ node.old) }
{
    if matches!(node, Node::Directory) {
        return Err(FileFault::IsDirectory);
    }
    let Node::File(file) = node else {
        return Ok(());
    };
    open_file(file, how)
}

/// Writes to a node.
fn write_node(node: &mut Node, offset: usize, bytes: &[u8]) -> Result<(), FileFault>
    ensures ok { OnOk result (node_written offset bytes.now node.old ≡ Ok node.new) }
    ensures refused { IfErr result (λ fault.
        fault ≢ FileFault.NoMemory no_memory → node_written offset bytes.now node.old ≡ Err fault) }
    ensures room { IfErr result (λ fault.
        fault ≡ FileFault.NoMemory no_memory → IsOk (node_written offset bytes.now node.old)) }
    ensures err { OnErr result (node.new ≡ node.old) }
{
    if matches!(node, Node::Null) {
        return Ok(());
    }
    let Node::File(file) = node else {
        return Err(FileFault::BadNumber);
    };
    write_file(file, offset, bytes)
}

/// Cuts the bytes of a node to a length.
fn truncate_node(node: &mut Node, length: usize) -> Result<(), FileFault>
    ensures ok { OnOk result (node_truncated length node.old ≡ Ok node.new) }
    ensures refused { IfErr result (λ fault. node_truncated length node.old ≡ Err fault) }
    ensures err { OnErr result (node.new ≡ node.old) }
{
    if matches!(node, Node::Null) {
        return Ok(());
    }
    let Node::File(file) = node else {
        return Err(FileFault::BadNumber);
    };
    file.truncate(length);
    Ok(())
}

/// Opens a file.
fn open_file(file: &mut File, how: Opening) -> Result<(), FileFault>
    ensures ok { OnOk result
        ((how.exclusive ≡ false) × (allows file.old.flags how ≡ true)
        × (file.new ≡ file_after_open file.old how)) }
    ensures refused { IfErr result (λ fault.
        fault ≡ (if how.exclusive then FileFault.Exists else FileFault.NoAccess)) }
    ensures err { OnErr result
        (((how.exclusive ≡ true) ⊎ (allows file.old.flags how ≡ false)) × (file.new ≡ file.old)) }
{
    if how.exclusive {
        return Err(FileFault::Exists);
    }
    let flags = file.flags();
    if how.read && !flags.read || (how.write || how.truncate) && !flags.write {
        return Err(FileFault::NoAccess);
    }
    if how.truncate {
        file.truncate(0);
    }
    Ok(())
}

/// Writes into a file.
fn write_file(file: &mut File, offset: usize, bytes: &[u8]) -> Result<(), FileFault>
    ensures ok { OnOk result
        ((write_fits offset bytes.now ≡ true)
        × (file.new ≡ record file.old
        { bytes = content_after_write file.old.bytes offset bytes.now })) }
    ensures refused { IfErr result (λ fault.
        fault ≢ FileFault.NoMemory no_memory → (fault ≡ FileFault.TooLarge)
        × (write_fits offset bytes.now ≡ false)) }
    ensures room { IfErr result (λ fault.
        fault ≡ FileFault.NoMemory no_memory → write_fits offset bytes.now ≡ true) }
    ensures err { OnErr result (file.new ≡ file.old) }
{
    if bytes.is_empty() {
        return Ok(());
    }
    if bytes.len() > MAX_LENGTH || offset > MAX_LENGTH - bytes.len() {
        return Err(FileFault::TooLarge);
    }
    file.write(offset, bytes)?;
    Ok(())
}

/// The part of these bytes from a place on, up to a length.
fn part(bytes: &[u8], offset: usize, count: usize) -> &[u8]
    ensures { result.now ≡ take count (drop offset bytes.now) }
{
    let start = offset.min(bytes.len());
    let rest = &bytes[start..];
    &rest[..count.min(rest.len())]
}

/// Whether a file may be made at a place.
fn may_create(place: &[u8]) -> bool
    ensures { result ≡ may_create place.now }
{
    !place.starts_with(b"/dev/") && !place.contains(&b'\n') && !place.contains(&0)
}
