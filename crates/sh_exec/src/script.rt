//! The script that a shell is given as its operand.
ghost use Rattle.std.specs.Prelude.{◌≡◌, IfOk, Some, option_map};
ghost use Rattle.sh_files_image.specs.declared.node.Node.TheVariants as node;
ghost use Rattle.sh_exec.specs.Scripts.{missing, place_by, script_place, unreadable};

use sh_base::NoMemory;
use sh_base::sequence::Text;
use sh_exec_actions::status::{CANNOT_EXECUTE, NOT_FOUND};
use sh_exec_actions::{Action, Finish};
use sh_exec_parts::Rest;
use sh_exec_parts::message::{cannot_execute, not_found};
use sh_files::{Files, may_be_read};
use sh_files_image::{File, Node};
use std::alloc::Global;

/// The first place of a shell whose script isn't there.
fn missing(alloc: Global, path: &[u8]) -> Result<Action, NoMemory>
    ensures { IfOk result (λ place. place ≡ missing path.now) }
{
    let piece = not_found(alloc, path)?;
    Ok(Action::Writing(piece, Finish::Fault(NOT_FOUND)))
}

/// The first place of a shell whose script can't be read.
fn unreadable(alloc: Global, path: &[u8]) -> Result<Action, NoMemory>
    ensures { IfOk result (λ place. place ≡ unreadable path.now) }
{
    let piece = cannot_execute(alloc, path)?;
    Ok(Action::Writing(piece, Finish::Fault(CANNOT_EXECUTE)))
}

/// The first place of a shell that reads these bytes.
fn reading(alloc: Global, bytes: &[u8]) -> Result<Action, NoMemory>
    ensures { IfOk result (λ place. place ≡ Action.Reading bytes.now 0) }
{
    let mut text = Text::new(alloc);
    text.extend_from_slice(bytes)?;
    Ok(Action::Reading(Rest::new(text), 0))
}

/// The first place of a shell whose script is this regular file.
fn file_place(alloc: Global, path: &[u8], file: &File) -> Result<Action, NoMemory>
    ensures { IfOk result (λ place. place ≡ place_by path.now (Some (node.File file.now))) }
{
    if may_be_read(file) {
        return reading(alloc, file.bytes());
    }
    unreadable(alloc, path)
}

/// The first place of a shell whose script's path names this.
fn place_by(alloc: Global, path: &[u8], found: Option<&Node>) -> Result<Action, NoMemory>
    ensures { IfOk result (λ place.
        place ≡ place_by path.now (option_map (λ node. node.now) found.entry)) }
{
    match found {
        None => missing(alloc, path),
        Some(Node::Directory) => unreadable(alloc, path),
        Some(Node::File(file)) => file_place(alloc, path, file),
        Some(Node::Null) => reading(alloc, b""),
        Some(Node::Terminal) => unreadable(alloc, path),
    }
}

/// The first place of a shell that runs a script.
#[tactic(auto, unfolding(crate::specs::Scripts::script_place))]
pub(crate) fn script_place(alloc: Global, files: &Files, path: &[u8]) -> Result<Action, NoMemory>
    ensures { IfOk result (λ place. place ≡ script_place files.now path.now) }
{
    let found = files.find(b"/", path)?;
    place_by(alloc, path, found)
}
