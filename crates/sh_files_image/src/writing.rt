// Writing what an image has of the paths.
ghost use Rattle.std.specs.Prelude.{◌≡◌, ◌++◌, OnOk};
ghost use Rattle.sh_files_image.specs.Blocks.{flat};
ghost use Rattle.sh_files_image.specs.Writing.{path_text, paths_text};

use crate::block::Block;
use crate::entry::Entry;
use crate::node::Node;
use crate::texts::{is_left_out, write_node};
use std::alloc::AllocError;

/// Writes what the image has of one path.
fn write_path(image: &mut Vec<u8>, nodes: &[Node], entry: &Entry) -> Result<(), AllocError>
    ensures { OnOk result (image.new.items ≡ image.old.items ++ path_text nodes.now entry.now) }
{
    if is_left_out(entry.path()) {
        return Ok(());
    }
    match nodes.get(entry.node()) {
        Some(node) => write_node(image, entry.path(), node),
        None => Ok(()),
    }
}

/// Writes what the image has of these paths.
fn write_paths(image: &mut Vec<u8>, nodes: &[Node], entries: &[Entry]) -> Result<(), AllocError>
    ensures { OnOk result (image.new.items ≡ image.old.items ++ paths_text nodes.now entries.now) }
{
    let mut rest = entries;
    'paths: while let Some((entry, behind)) = rest.split_first() {
        write_path(image, nodes, entry)?;
        rest = behind;
    }
    Ok(())
}

/// Writes what the image has of the paths in blocks. The only error is want of memory, and part of it may be
/// written then.
pub fn write_blocks(image: &mut Vec<u8>, nodes: &[Node], blocks: &[Block]) -> Result<(), AllocError>
    ensures { OnOk result
        (image.new.items ≡ image.old.items ++ paths_text nodes.now (flat blocks.now)) }
{
    let mut rest = blocks;
    'parts: while let Some((block, behind)) = rest.split_first() {
        write_paths(image, nodes, block.entries())?;
        rest = behind;
    }
    Ok(())
}
