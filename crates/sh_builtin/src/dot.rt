//! The built-in `.` (XCU 2.15 dot).
ghost use Rattle.std.specs.Prelude.{◌≡◌, [], IfOk};
ghost use Rattle.sh_builtin.specs.Running.{dot_named, dot_with, dot_outcome};
ghost use Rattle.sh_builtin_environment.specs.Options.{options_and_operands};

use sh_base::NoMemory;
use sh_base::sequence::Text;
use sh_builtin_environment::{BuiltinFault, parse_options};
use sh_builtin_outcome::{Builtin, Outcome, TextOrigin};
use sh_files::{Files, dot_script};
use sh_vars::Vars;
use std::alloc::Global;

/// `.` with the name of its file.
fn dot_named(alloc: Global, files: &Files, vars: &Vars, name: &[u8]) -> Result<Outcome, NoMemory>
    ensures { IfOk result (λ outcome. outcome ≡ dot_named files.now vars.now name.now) }
{
    match dot_script(alloc, files, vars.directory(), vars.get(b"PATH"), name)? {
        Some(text) => Ok(Outcome::running(alloc, TextOrigin::DotScript, text)),
        None => {
            let name = Text::copy_of(alloc, name)?;
            Outcome::refusal(alloc, Builtin::Dot, BuiltinFault::CannotOpen(name))
        },
    }
}

/// `.` with its operands.
fn dot_with(
    alloc: Global,
    files: &Files,
    vars: &Vars,
    operands: &[Text],
) -> Result<Outcome, NoMemory>
    ensures { IfOk result (λ outcome. outcome ≡ dot_with files.now vars.now operands.now) }
{
    match operands {
        [name] => dot_named(alloc, files, vars, name.as_slice()),
        _ => Outcome::misuse(alloc, Builtin::Dot),
    }
}

/// `.` with its arguments.
pub(crate) fn dot(
    alloc: Global,
    files: &Files,
    vars: &Vars,
    arguments: &[Text],
) -> Result<Outcome, NoMemory>
    ensures { IfOk result (λ outcome.
        outcome ≡ dot_outcome files.now vars.now (options_and_operands [] arguments.now)) }
{
    match parse_options(b"", arguments) {
        Some((_, operands)) => dot_with(alloc, files, vars, operands),
        None => Outcome::misuse(alloc, Builtin::Dot),
    }
}
