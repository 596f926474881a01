//! Single variables, as commands change them.
ghost use Rattle.std.specs.Prelude.{◌≡◌, IfOk, IsTrue, OnOk, false};
ghost use Rattle.sh_builtin_environment.specs.Variables.{may_set};
ghost use Rattle.sh_vars.specs.Environment.{is_read_only, with_value};
ghost use Rattle.sh_base.specs.Names.{is_name};

use sh_base::NoMemory;
use sh_base::name::is_name;
use sh_base::sequence::{Sequence, Text};
use sh_vars::{Vars, VarsFault};
use std::alloc::Global;

/// Whether a variable is read-only.
pub(crate) fn is_read_only(vars: &Vars, name: &[u8]) -> bool
    ensures { result ≡ is_read_only vars.now name.now }
{
    match vars.variable(name) {
        Some(entry) => entry.is_read_only(),
        None => false,
    }
}

/// Whether a command may give a variable a value (XCU 2.8.1): its name is a NAME, and it isn't read-only. Takes no memory.
pub fn may_set(vars: &Vars, name: &[u8]) -> bool
    ensures { result ≡ may_set vars.now name.now }
{
    is_name(name) && !is_read_only(vars, name)
}

/// Gives a variable a value, where [`may_set`] says that it may have one. The only error is want of memory; what the variables are then
/// is left open.
pub fn set_variable(vars: &mut Vars, name: &[u8], value: &[u8]) -> Result<(), NoMemory>
    requires { IsTrue (may_set vars.old name.now) }
    ensures { OnOk result (vars.new ≡ with_value vars.old name.now value.now) }
{
    match vars.set(name, value) {
        Ok(()) => Ok(()),
        Err(VarsFault::NoMemory(lack)) => Err(lack),
        Err(_) => unreachable!(),
    }
}

/// Sets a variable that isn't read-only.
pub(crate) fn set_value(vars: &mut Vars, name: &[u8], value: &[u8]) -> Result<(), NoMemory>
    requires name { IsTrue (is_name name.now) }
    requires may_change { is_read_only vars.old name.now ≡ false }
    ensures { OnOk result (vars.new ≡ with_value vars.old name.now value.now) }
{
    set_variable(vars, name, value)
}
