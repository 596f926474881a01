//! The environment of a shell that a script begins (XCU 2.9.1.6, 2.5.3).
ghost use Rattle.std.specs.Prelude.{◌≡◌, ◌++◌, decimal, option_map, IfOk, OnOk};
ghost use Rattle.std.specs.FinMap.{entries};
ghost use Rattle.sh_vars.specs.Environment.{with_directory, with_export, with_positional, with_process, with_zero};
ghost use Rattle.sh_exec_parts.specs.Scripts.{all_inherited, with_exported_name, with_assignment, with_inherited_variable, is_own, own_variables, script_environment, with_exported_value};

use itoa::Buffer;
use sh_base::NoMemory;
use sh_base::sequence::{Text, copies_of};
use sh_vars::{Entry, Vars, VarsFault};
use std::alloc::Global;

/// Gives a variable a value, where that isn't refused.
#[tactic(auto, unfolding(crate::specs::Scripts::with_assignment))]
fn give(vars: &mut Vars, name: &[u8], value: &[u8]) -> Result<(), NoMemory>
    ensures { OnOk result (vars.new ≡ with_assignment vars.old name.now value.now) }
{
    match vars.set(name, value) {
        Ok(()) => Ok(()),
        Err(VarsFault::NoMemory(lack)) => Err(lack),
        Err(_) => Ok(()),
    }
}

/// Exports a variable.
fn export(vars: &mut Vars, name: &[u8]) -> Result<(), NoMemory>
    ensures { OnOk result (vars.new ≡ with_exported_name vars.old name.now) }
{
    match vars.export(name) {
        Ok(()) => Ok(()),
        Err(VarsFault::NoMemory(lack)) => Err(lack),
        Err(_) => Ok(()),
    }
}

/// Gives a variable the number of a process.
fn give_number(vars: &mut Vars, name: &[u8], number: u32) -> Result<(), NoMemory>
    ensures { OnOk result (vars.new ≡ with_assignment vars.old name.now (decimal number)) }
{
    let mut buffer = Buffer::new();
    give(vars, name, buffer.format(number).as_bytes())
}

/// What a shell sets itself.
#[tactic(auto, unfolding(crate::specs::Scripts::own_variables))]
fn own_variables(alloc: Global, directory: &[u8], parent: u32) -> Result<Vars, NoMemory>
    ensures { IfOk result (λ vars. vars ≡ own_variables directory.now parent) }
{
    let mut vars = Vars::new(alloc)?;
    vars.forget(b"PATH");
    vars.forget(b"HOME");
    give_number(&mut vars, b"PPID", parent)?;
    give(&mut vars, b"PWD", directory)?;
    Ok(vars)
}

/// Whether a variable is the shell's own whatever it is handed.
fn is_own(name: &[u8]) -> bool
    ensures { result ≡ is_own name.now }
{
    name == b"IFS".as_slice() || name == b"PPID".as_slice()
}

/// Hands a variable on, if it has a value.
fn hand_on(vars: &mut Vars, name: &[u8], value: Option<&[u8]>) -> Result<(), NoMemory>
    ensures { OnOk result
        (vars.new ≡ with_exported_value vars.old name.now
        (option_map (λ value. value.now) value.entry)) }
{
    let Some(value) = value else {
        return Ok(());
    };
    give(vars, name, value)?;
    export(vars, name)
}

/// Hands a variable on, if it is exported.
#[tactic(auto, unfolding(crate::specs::Scripts::with_inherited_variable))]
fn inherit(vars: &mut Vars, entry: &Entry) -> Result<(), NoMemory>
    ensures { OnOk result (vars.new ≡ with_inherited_variable vars.old entry.now) }
{
    if entry.is_exported() && !is_own(entry.name()) {
        return hand_on(vars, entry.name(), entry.value());
    }
    Ok(())
}

/// Hands variables on.
fn inherit_all(vars: &mut Vars, entries: &[Entry]) -> Result<(), NoMemory>
    ensures { OnOk result (vars.new ≡ all_inherited vars.old entries.now) }
{
    let mut rest = entries;
    'entries: while let Some((entry, others)) = rest.split_first() {
        inherit(vars, entry)?;
        rest = others;
    }
    Ok(())
}

/// Gives a shell what it is handed: variables, its name, its operands, its process and its directory.
fn hand_over(
    alloc: Global,
    vars: &mut Vars,
    old: &Vars,
    path: &[u8],
    operands: &[Text],
    pid: u32,
) -> Result<(), NoMemory>
    ensures { OnOk result
        (vars.new
        ≡ with_directory
        (with_process
        (with_positional
        (with_zero (all_inherited vars.old (entries old.now.variables)) path.now) operands.now)
        pid) old.now.directory) }
{
    inherit_all(vars, old.variables())?;
    vars.set_zero(Text::copy_of(alloc, path)?);
    vars.set_positional(copies_of(alloc, operands)?);
    vars.set_process(pid);
    vars.set_directory(Text::copy_of(alloc, old.directory())?);
    Ok(())
}

/// The environment of a shell that runs a script in place of the process `pid`, whose parent is `parent`: of the variables those
/// that are exported and its own, no options, `$0` the script's path, and the operands.
#[tactic(auto, unfolding(crate::specs::Scripts::script_environment))]
pub fn script_environment(
    alloc: Global,
    old: &Vars,
    path: &[u8],
    operands: &[Text],
    pid: u32,
    parent: u32,
) -> Result<Vars, NoMemory>
    ensures { IfOk result (λ vars.
        vars ≡ script_environment old.now path.now operands.now pid parent) }
{
    let mut vars = own_variables(alloc, old.directory(), parent)?;
    match hand_over(alloc, &mut vars, old, path, operands, pid) {
        Ok(()) => Ok(vars),
        Err(lack) => {
            drop(vars);
            Err(lack)
        },
    }
}
