//! Variables as they were before a command's assignments, and how these are undone (XCU 2.9.1.2).
ghost use Rattle.std.specs.Prelude.{◌≡◌, IfOk, OnOk};
ghost use Rattle.sh_exec_parts.specs.Saving.{all_restored, with_saved, saved_of};

use crate::Copying;
use sh_base::NoMemory;
use sh_base::sequence::{Sequence, Text};
use sh_vars::{Entry, Vars};
use std::alloc::Global;

/// A variable as it was before a command's assignment.
#[derive(Drop)]
pub enum Saved {
    /// It was there.
    Variable(Entry),
    /// None of this name was.
    Absent(Text),
}

impl Copying for Saved {
    fn copy(&self, alloc: Global) -> Result<Saved, NoMemory> {
        match self {
            Saved::Variable(entry) => Ok(Saved::Variable(entry.copy()?)),
            Saved::Absent(name) => Ok(Saved::Absent(name.copy(alloc)?)),
        }
    }
}

/// A variable as it is, to be brought back later. The only error is want of memory.
#[tactic(auto, unfolding(crate::specs::Saving::saved_of))]
pub fn save(alloc: Global, vars: &Vars, name: &[u8]) -> Result<Saved, NoMemory>
    ensures { IfOk result (λ saved. saved ≡ saved_of vars.now name.now) }
{
    match vars.variable(name) {
        Some(entry) => Ok(Saved::Variable(entry.copy()?)),
        None => {
            let mut text = Text::new(alloc);
            text.extend_from_slice(name)?;
            Ok(Saved::Absent(text))
        },
    }
}

/// Brings a variable back.
fn restore(vars: &mut Vars, saved: Saved) -> Result<(), NoMemory>
    ensures { OnOk result (vars.new ≡ with_saved saved vars.old) }
{
    match saved {
        Saved::Variable(entry) => {
            vars.put(entry)?;
            Ok(())
        },
        Saved::Absent(name) => {
            vars.forget(name.as_slice());
            Ok(())
        },
    }
}

/// Brings variables back as they were, the last one first (XCU 2.9.1.2). The only error is want of memory; what the
/// variables are then is left open.
pub fn restore_variables(vars: &mut Vars, saved: Sequence<Saved>) -> Result<(), NoMemory>
    ensures { OnOk result (vars.new ≡ all_restored saved vars.old) }
{
    let mut saved = saved;
    'saved: while let Some(one) = saved.pop() {
        restore(vars, one)?;
    }
    Ok(())
}
