//! Pipelines and their commands (XCU 2.9.2).
ghost use Rattle.std.specs.Prelude.{◌≡◌, ◌++◌, ◌∷◌, IfOk};
ghost use Rattle.sh_exec_parts.specs.Pipelines.{commands_of, is_negated};

use sh_base::NoMemory;
use sh_base::sequence::Sequence;
use sh_base::shared::Shared;
use sh_syntax::tree::{Command, Pipeline};
use std::alloc::Global;

/// Whether a `!` is before a pipeline.
pub fn is_negated(pipeline: &Pipeline) -> bool
    ensures { result ≡ is_negated pipeline.now }
{
    pipeline.is_negated
}

/// The commands of a pipeline, in order.
pub fn commands_of(
    alloc: Global,
    pipeline: &Pipeline,
) -> Result<Sequence<Shared<Command>>, NoMemory>
    ensures { IfOk result (λ commands. commands ≡ commands_of pipeline.now) }
{
    let mut commands = Sequence::new(alloc);
    commands.push(pipeline.first.share()?)?;
    let mut rest = pipeline.rest.as_slice();
    'commands: while let Some((command, others)) = rest.split_first() {
        commands.push(command.share()?)?;
        rest = others;
    }
    Ok(commands)
}
