//! A copy of a whole machine.
ghost use Rattle.std.specs.Prelude.{◌≡◌, IfOk, vec_len};
ghost use Rattle.sh_kernel_machine.specs.Tables.{AreOwn, held_in};

use super::Machine;
use crate::tables::Tables;
use sh_kernel_descriptors::{Channel, Entry};
use slab::Slab;
use std::alloc::AllocError;
use std::collections::BTreeMap;

/// The same tables once more. The only error is want of memory.
fn copy_tables(tables: &Tables) -> Result<Tables, AllocError>
    ensures held { IfOk result (λ copy. held_in copy.entries ≡ held_in tables.now.entries) }
    ensures own { IfOk result (λ copy. AreOwn tables.now.entries → AreOwn copy.entries) }
{
    let copy = tables.clone()?;
    Ok(copy)
}

/// The same entries under the same keys once more, perhaps with room for another number of them. The only error is want
/// of memory.
fn copy_entries(entries: &Slab<Entry>) -> Result<Slab<Entry>, AllocError>
    ensures { IfOk result (λ copy. copy ≡ record entries.now { capacity = copy.capacity }) }
{
    entries.clone()
}

/// The same pipes under the same numbers once more. The only error is want of memory.
fn copy_pipes(pipes: &BTreeMap<usize, Channel>) -> Result<BTreeMap<usize, Channel>, AllocError>
    ensures { IfOk result (λ copy. copy.entries ≡ pipes.now.entries) }
{
    pipes.clone()
}

/// As many elements of no size. The only error is want of memory.
fn copy_count(counted: &Vec<()>) -> Result<Vec<()>, AllocError>
    ensures { IfOk result (λ copy. vec_len copy ≡ vec_len counted.now) }
{
    counted.clone()
}

impl Machine {
    ghost use Rattle.sh_kernel_descriptors.specs.Machine.{MachineState};
    ghost use Rattle.sh_kernel_machine.specs.Machine.{StandsAt};

    /// A machine that stands at the same state: the same processes with the same descriptors, descriptions, pipes and
    /// files. The two share nothing, so no call on one changes the other. The only error is want of memory.
    pub fn copy(&self) -> Result<Machine, AllocError>
        ensures { (s : MachineState) → StandsAt self.now s → IfOk result (λ copy. StandsAt copy s) }
    {
        let processes = self.processes.copy(self.alloc)?;
        let held = copy_tables(&self.held)?;
        let entries = copy_entries(&self.entries)?;
        let described = copy_count(&self.described)?;
        let pipes = copy_pipes(&self.pipes)?;
        let piped = copy_count(&self.piped)?;
        let files = self.files.copy()?;
        Ok(Machine {
            alloc: self.alloc,
            processes,
            held,
            entries,
            described,
            pipes,
            piped,
            files,
        })
    }
}
