//! The report on a world, which `--report` asks for.
ghost use Rattle.std.specs.Prelude.{◌≡◌, ◌++◌, OnErr, OnOk};
ghost use Rattle.sh_world.specs.World.{WorldStands};
ghost use Rattle.sh_exec.specs.State.{State, files_of, job_lines_of};
ghost use Rattle.sh_files.specs.Writing.{image_text};
ghost use Rattle.sh_exec.specs.Tasks.{first_pid};
ghost use Rattle.psh.specs.Report.{process_lines, report_of, shown_processes};

use psh_common::put_process;
use sh_base::NoMemory;
use sh_kernel_processes::FIRST_PID;
use sh_stock::Stock;
use sh_world::World;
use std::alloc::Global;

/// How many processes there may be: their numbers go from 100 to 2147483647.
const MOST_PROCESSES: u32 = 2_147_483_548;

/// The lines of all processes.
fn put_processes<S: Stock>(text: &mut Vec<u8>, world: &World<S>) -> Result<(), NoMemory>
    ensures { (s : State S) → WorldStands world.now s → OnOk result
        (text.new.items ≡ text.old.items ++ process_lines first_pid (shown_processes s.machine.machine.processes)) }
{
    'places: for place in 0..MOST_PROCESSES {
        let pid = FIRST_PID + place;
        let Some(status) = world.status(pid) else {
            return Ok(());
        };
        put_process(text, pid, status)?;
    }
    Ok(())
}

/// The lines of the first shell's jobs.
fn put_jobs<S: Stock>(text: &mut Vec<u8>, world: &World<S>) -> Result<(), NoMemory>
    ensures { (s : State S) → WorldStands world.now s → OnOk result
        (text.new.items ≡ text.old.items ++ job_lines_of s) }
{
    let lines = world.job_lines()?;
    text.extend_from_slice(lines.as_slice())?;
    Ok(())
}

/// The image of the files.
fn put_files<S: Stock>(text: &mut Vec<u8>, world: &World<S>) -> Result<(), NoMemory>
    ensures { (s : State S) → WorldStands world.now s → OnOk result
        (text.new.items ≡ text.old.items ++ image_text (files_of s)) }
{
    if let Some(files) = world.files() {
        let image = files.write_image()?;
        text.extend_from_slice(&image)?;
    }
    Ok(())
}

/// Adds the report on a world. After an `Err`, which is want of memory, nothing is added.
pub fn put_report<S: Stock>(
    alloc: Global,
    world: &World<S>,
    out: &mut Vec<u8>,
) -> Result<(), NoMemory>
    ensures report { (s : State S) → WorldStands world.now s → OnOk result
        (out.new.items ≡ out.old.items ++ report_of s) }
    ensures kept { OnErr result (out.new.items ≡ out.old.items) }
{
    let mut text = Vec::from_slice(alloc, b"\n")?;
    put_processes(&mut text, world)?;
    put_jobs(&mut text, world)?;
    put_files(&mut text, world)?;
    out.extend_from_slice(&text)?;
    Ok(())
}
