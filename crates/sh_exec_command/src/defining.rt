//! Function definitions.
ghost use Rattle.std.specs.Prelude.{◌≡◌, OnOk};
ghost use Rattle.sh_builtin_shell.specs.Functions.{defined};
ghost use Rattle.sh_exec_command.specs.Defining.{define_turn};
ghost use Rattle.sh_syntax.specs.declared.tree.Command.TheVariants as command;

use sh_base::NoMemory;
use sh_base::shared::Shared;
use sh_builtin_shell::Functions;
use sh_syntax::tree::{Command, Compound, Name};
use std::alloc::Global;

/// Defines a function.
fn define(
    alloc: Global,
    name: &Name,
    body: &Shared<Compound>,
    functions: &mut Functions,
) -> Result<(), NoMemory>
    ensures { OnOk result
        (functions.new ≡ defined functions.old name.now.name (command.Compound body.now)) }
{
    let body = Shared::new(alloc, Command::Compound(body.share()?))?;
    functions.define(alloc, name.name.as_slice(), body)
}

/// The turn of a function definition command (XCU 2.9.5); a command of another form defines nothing. The only error is want of memory; what
/// the functions are then is left open.
#[tactic(auto, unfolding(crate::specs::Defining::define_turn))]
pub fn define_turn(
    alloc: Global,
    definition: Shared<Command>,
    functions: &mut Functions,
) -> Result<(), NoMemory>
    ensures { OnOk result (functions.new ≡ define_turn functions.old definition) }
{
    match definition.get() {
        Command::Simple(_) => Ok(()),
        Command::Compound(_) => Ok(()),
        Command::Function { name, body } => define(alloc, name, body, functions),
    }
}
