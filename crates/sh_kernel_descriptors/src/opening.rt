//! What is opened.
ghost use Rattle.std.specs.Prelude.{◌≡◌, slice_get};
ghost use Rattle.sh_kernel_descriptors.specs.Opening as opening;
ghost use Rattle.sh_kernel_descriptors.specs.Starting.{the_terminal, to_terminal};
ghost use Rattle.sh_kernel_descriptors.specs.Terminals.{is_of_terminal};

use crate::description::{Description, Target};
use crate::descriptor::Descriptor;
use sh_files::{Files, Node, Opening};
use sh_kernel_processes::FIRST_PID;

/// What is open where a path names this node.
pub fn target_of(files: &Files, node: usize) -> Target
    ensures { result ≡ opening.target_of node (slice_get files.now.nodes node) }
{
    match files.node(node) {
        Some(Node::Null) => Target::Null,
        Some(Node::Terminal) => Target::Terminal,
        _ => Target::File(node),
    }
}

/// The description of what was opened.
pub fn description_of(target: Target, how: Opening, append: bool) -> Description
    ensures { result ≡ opening.description_of target how append }
{
    Description {
        target,
        offset: 0,
        append,
        readable: how.read,
        writable: how.write,
    }
}

/// The description of the terminal with which the first process starts.
pub fn the_terminal() -> Description
    ensures { result ≡ the_terminal }
{
    Description {
        target: Target::Terminal,
        offset: 0,
        append: false,
        readable: true,
        writable: true,
    }
}

/// A descriptor of the first process, which refers to the terminal.
pub fn to_terminal(number: u8) -> Descriptor
    ensures { result ≡ to_terminal number }
{
    Descriptor {
        pid: FIRST_PID,
        number: Some(number),
        description: 0,
    }
}

/// Whether a description is of the terminal.
pub fn is_of_terminal(description: &Description) -> bool
    ensures { result ≡ is_of_terminal description.now }
{
    matches!(description.target, Target::Terminal)
}
