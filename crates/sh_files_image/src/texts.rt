// The lines that an image has for nodes.
ghost use Rattle.std.specs.Prelude.{◌≡◌, ◌++◌, ◌∷◌, OnOk, decimal};
ghost use Rattle.sh_files_image.specs.Texts.{directory_line, file_line, flag_text, flags_text, is_left_out, node_text};

use crate::names::is_device;
use crate::node::{File, Flags, Node};
use itoa::Buffer;
use std::alloc::AllocError;

/// A flag's letter, or a hyphen.
fn flag_letter(letter: u8, flag: bool) -> u8
    ensures { result ≡ flag_text letter flag }
{
    if flag { letter } else { b'-' }
}

/// Writes flags.
fn write_flags(text: &mut Vec<u8>, flags: Flags) -> Result<(), AllocError>
    ensures { OnOk result (text.new.items ≡ text.old.items ++ flags_text flags) }
{
    let letters = [
        flag_letter(b'r', flags.read),
        flag_letter(b'w', flags.write),
        flag_letter(b'x', flags.execute),
    ];
    text.extend_from_slice(&letters)
}

/// Writes a number in decimal.
fn write_number(text: &mut Vec<u8>, number: usize) -> Result<(), AllocError>
    ensures { OnOk result (text.new.items ≡ text.old.items ++ decimal number) }
{
    let mut buffer = Buffer::new();
    text.extend_from_slice(buffer.format(number).as_bytes())
}

/// Writes a directory's line.
fn write_directory(text: &mut Vec<u8>, path: &[u8]) -> Result<(), AllocError>
    ensures { OnOk result (text.new.items ≡ text.old.items ++ node_text path.now Node.Directory) }
{
    text.extend_from_slice(b"dir ")?;
    text.extend_from_slice(path)?;
    text.extend_from_slice(b"\n")
}

/// Writes a file's line, without the newline.
fn write_file_line(text: &mut Vec<u8>, path: &[u8], file: &File) -> Result<(), AllocError>
    ensures { OnOk result (text.new.items ≡ text.old.items ++ file_line path.now file.now) }
{
    text.extend_from_slice(b"file ")?;
    text.extend_from_slice(path)?;
    text.extend_from_slice(b" ")?;
    write_flags(text, file.flags())?;
    text.extend_from_slice(b" ")?;
    write_number(text, file.bytes().len())
}

/// Writes a file's line, its bytes and a newline.
fn write_file(text: &mut Vec<u8>, path: &[u8], file: &File) -> Result<(), AllocError>
    ensures { OnOk result
        (text.new.items ≡ text.old.items ++ node_text path.now (Node.File file.now)) }
{
    write_file_line(text, path, file)?;
    text.extend_from_slice(b"\n")?;
    text.extend_from_slice(file.bytes())?;
    text.extend_from_slice(b"\n")
}

/// Writes what an image has for the node at a path: a line for a directory; for a file a line, its bytes and a newline;
/// nothing for a device. The only error is want of memory, and part of it may be written then.
pub fn write_node(text: &mut Vec<u8>, path: &[u8], node: &Node) -> Result<(), AllocError>
    ensures { OnOk result (text.new.items ≡ text.old.items ++ node_text path.now node.now) }
{
    match node {
        Node::Directory => write_directory(text, path),
        Node::File(file) => write_file(text, path, file),
        Node::Null => Ok(()),
        Node::Terminal => Ok(()),
    }
}

/// Whether a path is in no image: `/`, `/dev`, and what is below `/dev`.
pub fn is_left_out(path: &[u8]) -> bool
    ensures { result ≡ is_left_out path.now }
{
    path == b"/".as_slice() || is_device(path)
}
