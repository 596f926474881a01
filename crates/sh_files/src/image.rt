// Reading an image.
ghost use Rattle.sh_base.specs.Memory.{no_memory};
ghost use Rattle.std.specs.Prelude.{◌≡◌, ◌≢◌, ◌≤◌, IfOk, IfErr, OnOk, OnErr, Ok, Err, None, length, [], slice_get, Some};
ghost use Rattle.std.specs.Option.{option_and_then};
ghost use Rattle.sh_files_image.specs.Fields.{line_of};
ghost use Rattle.sh_files.specs.Image.{by_header, image_of, read_image, stands, content_fault, entries, entry, file_entry, is_directory, path_fault, node_entry};

use crate::files::Files;
use sh_files_image::{
    FaultKind, File, Flags, ImageFault, MAX_IMAGE, Node, behind, count_newlines, file_fields,
    first, is_image_path, parent, skip, split_line,
};
use std::alloc::Global;

/// Where reading an image stopped: so many bytes before its end.
#[derive(Clone, Copy)]
struct Stop {
    kind: FaultKind,
    left: usize,
}

/// What is wrong with a file's bytes and the newline after them.
fn check_content(size: usize, after: &[u8]) -> Result<(), FaultKind>
    ensures ok { OnOk result (content_fault size (slice_get after.now size) ≡ None) }
    ensures refused { IfErr result (λ kind.
        content_fault size (slice_get after.now size) ≡ Some kind) }
{
    match after.get(size) {
        Some(byte) if *byte == b'\n' => Ok(()),
        Some(_) => Err(FaultKind::BadLine),
        None => Err(FaultKind::Truncated),
    }
}

impl Files {
    /// Whether a number is that of a directory.
    fn is_directory(&self, number: Option<usize>) -> bool
        ensures { result ≡ is_directory (option_and_then (λ n. slice_get self.now.nodes n) number) }
    {
        match number {
            Some(number) => matches!(self.node(number), Some(Node::Directory)),
            None => false,
        }
    }

    /// What is wrong with naming a path.
    fn check_path(&self, path: &[u8]) -> Result<(), FaultKind>
        ensures ok { OnOk result (path_fault self.now path.now ≡ None) }
        ensures refused { IfErr result (λ kind. path_fault self.now path.now ≡ Some kind) }
    {
        if !is_image_path(path) {
            return Err(FaultKind::BadPath);
        }
        let (number, above) = self.numbers_at(path, parent(path));
        if !self.is_directory(above) {
            return Err(FaultKind::NoParent);
        }
        if number.is_some() {
            return Err(FaultKind::Duplicate);
        }
        Ok(())
    }

    /// Adds a directory.
    fn add_directory(&mut self, path: &[u8]) -> Result<usize, FaultKind>
        ensures ok { IfOk result (λ used.
            node_entry self.old path.now Node.Directory 0 (path_fault self.old path.now)
            ≡ Ok (self.new, used)) }
        ensures refused { IfErr result (λ kind.
            kind ≢ FaultKind.NoMemory no_memory → node_entry self.old path.now Node.Directory 0
            (path_fault self.old path.now) ≡ Err kind) }
    {
        self.check_path(path)?;
        let place = Vec::from_slice(self.alloc(), path)?;
        self.add(place, Node::Directory)?;
        Ok(0)
    }

    /// Adds a file. Its bytes are the first of those after its line.
    fn add_file(
        &mut self,
        after: &[u8],
        path: &[u8],
        flags: Flags,
        size: Option<usize>,
    ) -> Result<usize, FaultKind>
        ensures ok { IfOk result (λ used.
            file_entry self.old after.now path.now flags size ≡ Ok (self.new, used)) }
        ensures refused { IfErr result (λ kind.
            kind ≢ FaultKind.NoMemory no_memory
            → file_entry self.old after.now path.now flags size ≡ Err kind) }
    {
        self.check_path(path)?;
        let Some(size) = size else {
            return Err(FaultKind::TooLarge);
        };
        check_content(size, after)?;
        let bytes = Vec::from_slice(self.alloc(), &after[..size])?;
        let place = Vec::from_slice(self.alloc(), path)?;
        self.add(place, Node::File(File::new(flags, bytes)))?;
        Ok(size + 1)
    }

    /// Adds what a line names, and says how many of the bytes after the line belong to it.
    fn add_entry(&mut self, line: &[u8], after: &[u8]) -> Result<usize, FaultKind>
        ensures ok { IfOk result (λ used. entry self.old line.now after.now ≡ Ok (self.new, used)) }
        ensures refused { IfErr result (λ kind.
            kind ≢ FaultKind.NoMemory no_memory → entry self.old line.now after.now ≡ Err kind) }
    {
        if let Some(path) = behind(line, b"dir ") {
            return self.add_directory(path);
        }
        let Some(fields) = behind(line, b"file ") else {
            return Err(FaultKind::BadLine);
        };
        let Some((path, (flags, size))) = file_fields(fields) else {
            return Err(FaultKind::BadLine);
        };
        self.add_file(after, path, flags, size)
    }

    /// Adds what the lines of an image name, up to its end.
    fn add_entries(&mut self, bytes: &[u8]) -> Result<(), Stop>
        ensures ok { OnOk result (entries self.old 0 bytes.now ≡ Ok self.new) }
        ensures refused { IfErr result (λ stop.
            stop.kind ≢ FaultKind.NoMemory no_memory → entries self.old 0 bytes.now ≡ Err stop) }
        ensures within { IfErr result (λ stop. stop.left ≤ length bytes.now) }
    {
        let mut rest = bytes;
        'lines: while let Some((line, after)) = split_line(rest) {
            if line == b"end".as_slice() {
                return check_end(after);
            }
            match self.add_entry(line, after) {
                Ok(used) => rest = skip(after, used),
                Err(kind) => {
                    return Err(Stop {
                        kind,
                        left: rest.len(),
                    });
                }
            }
        }
        Err(Stop {
            kind: FaultKind::Truncated,
            left: rest.len(),
        })
    }

    /// The files of an image.
    fn read_lines(alloc: Global, bytes: &[u8]) -> Result<Files, Stop>
        ensures ok { IfOk result (λ files. by_header bytes.now (line_of bytes.now) ≡ Ok files) }
        ensures refused { IfErr result (λ stop.
            stop.kind ≢ FaultKind.NoMemory no_memory → by_header bytes.now (line_of bytes.now)
            ≡ Err stop) }
        ensures within { IfErr result (λ stop. stop.left ≤ length bytes.now) }
    {
        let left = bytes.len();
        let Some((line, rest)) = split_line(bytes) else {
            return Err(Stop {
                kind: FaultKind::Truncated,
                left,
            });
        };
        if line != b"psh image 1".as_slice() {
            return Err(Stop {
                kind: FaultKind::BadHeader,
                left,
            });
        }
        let mut files = match Files::new(alloc) {
            Ok(files) => files,
            Err(error) => {
                return Err(Stop {
                    kind: FaultKind::from(error),
                    left,
                });
            }
        };
        files.add_entries(rest)?;
        Ok(files)
    }
}

impl Files {
    /// The files that an image describes, with those of [`Files::new`]. The image is the line `psh image 1`; then lines
    /// `dir PATH` and `file PATH FLAGS LENGTH`, the latter followed by LENGTH bytes and a newline; then the line `end`.
    /// FLAGS are `r`, `w` and `x`, or a hyphen for each. LENGTH is decimal without leading zeros. PATH is absolute,
    /// without dot, dot-dot and doubled slashes, and isn't `/`, `/dev` or below `/dev`. A directory comes before what it
    /// holds.
    ///
    /// The error tells the first line with a fault, and of its faults the first in this order: `BadHeader`,
    /// `BadLine` (also where no newline follows a file's bytes), `BadPath`, `NoParent`, `Duplicate`,
    /// `TooLarge` (a LENGTH above [`MAX_IMAGE`]). A line without its newline is `Truncated`, as is a file
    /// whose bytes or newline are cut off; bytes after `end` are `Trailing`. An image longer than
    /// [`MAX_IMAGE`] is `TooLarge` at the line of the first byte beyond, if no line before has a fault.
    /// `NoMemory` may come at any point.
    pub fn from_image(alloc: Global, bytes: &[u8]) -> Result<Files, ImageFault>
        ensures ok { IfOk result (λ files. read_image bytes.now ≡ Ok files) }
        ensures refused { IfErr result (λ fault.
            fault.kind ≢ FaultKind.NoMemory no_memory → read_image bytes.now ≡ Err fault) }
    {
        if bytes.len() <= MAX_IMAGE {
            return Files::read_short(alloc, bytes);
        }
        let prefix = first(bytes, MAX_IMAGE);
        let line = 1 + count_newlines(prefix);
        let too_large = ImageFault {
            kind: FaultKind::TooLarge,
            line,
        };
        let Err(fault) = Files::read_short(alloc, prefix) else {
            return Err(too_large);
        };
        if matches!(fault.kind, FaultKind::NoMemory(_)) || stands(fault, line) {
            return Err(fault);
        }
        Err(too_large)
    }

    /// The files of an image that isn't too long.
    fn read_short(alloc: Global, bytes: &[u8]) -> Result<Files, ImageFault>
        requires { length bytes.now ≤ 268435456 }
        ensures ok { IfOk result (λ files. image_of bytes.now ≡ Ok files) }
        ensures refused { IfErr result (λ fault.
            fault.kind ≢ FaultKind.NoMemory no_memory → image_of bytes.now ≡ Err fault) }
    {
        match Files::read_lines(alloc, bytes) {
            Ok(files) => Ok(files),
            Err(stop) => Err(ImageFault {
                kind: stop.kind,
                line: 1 + count_newlines(&bytes[..bytes.len() - stop.left]),
            }),
        }
    }
}

/// Whether a fault is in a line before this one, and isn't that the image ends too early.
fn stands(fault: ImageFault, line: usize) -> bool
    ensures { result ≡ stands fault line }
{
    !matches!(fault.kind, FaultKind::Truncated) && fault.line < line
}

/// Refuses bytes after the last line.
fn check_end(after: &[u8]) -> Result<(), Stop>
    ensures ok { OnOk result (after.now ≡ []) }
    ensures refused { IfErr result (λ stop.
        (stop ≡ record { kind = FaultKind.Trailing; left = length after.now }) × (after.now ≢ [])) }
{
    if after.is_empty() {
        return Ok(());
    }
    Err(Stop {
        kind: FaultKind::Trailing,
        left: after.len(),
    })
}
