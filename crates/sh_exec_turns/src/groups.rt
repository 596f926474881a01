//! The group of a process that a shell makes, and the signals that it ignores.
ghost use Rattle.std.specs.Prelude.{◌≡◌};
ghost use Rattle.sh_builtin_shell.specs.Shells.{has_job_control};
ghost use Rattle.sh_kernel.specs.State.{KernelState, StandsAt};
ghost use Rattle.sh_exec_turns.specs.Groups.{behind_fork, behind_fork_by, given_terminal, ignoring_keys, in_group, leader, released, with_control, without_control};

use sh_builtin_shell::Shell;
use sh_exec_settling::release_own_signals;
use sh_exec_waiting::take_terminal_back;
use sh_kernel::Kernel;
use sh_kernel_processes::SignalAction;
use sh_signal::Signal;

/// The terminal's foreground group is that of a pipeline's first process, for which the shell waits.
fn lend_terminal(kernel: &mut Kernel, is_foreground: bool, before: &[u32], child: u32)
    ensures state { (s : KernelState) → StandsAt kernel.old s
        → StandsAt kernel.new (given_terminal is_foreground before.now child s) }
    ensures terminal { kernel.new.terminal.bytes ≡ kernel.old.terminal.bytes }
    ensures watch { kernel.new.watch ≡ kernel.old.watch }
{
    if is_foreground && before.is_empty() {
        kernel.set_foreground(child);
    }
}

/// A process is in the group that the first of its pipeline names.
fn put_in_group(kernel: &mut Kernel, is_foreground: bool, before: &[u32], child: u32)
    ensures state { (s : KernelState) → StandsAt kernel.old s
        → StandsAt kernel.new (in_group is_foreground before.now child s) }
    ensures terminal { kernel.new.terminal.bytes ≡ kernel.old.terminal.bytes }
    ensures watch { kernel.new.watch ≡ kernel.old.watch }
{
    let group = before.first().copied().unwrap_or(child);
    kernel.set_group(child, group);
    lend_terminal(kernel, is_foreground, before, child);
}

/// A process ignores the signals of two keys.
fn ignore_keys(kernel: &mut Kernel, pid: u32)
    ensures state { (s : KernelState) → StandsAt kernel.old s
        → StandsAt kernel.new (ignoring_keys s pid) }
    ensures terminal { kernel.new.terminal ≡ kernel.old.terminal }
    ensures watch { kernel.new.watch ≡ kernel.old.watch }
{
    kernel.set_action(pid, Signal::Interrupt, SignalAction::Ignored);
    kernel.set_action(pid, Signal::Quit, SignalAction::Ignored);
}

/// Behind a fork, with job control (XCU 2.11).
fn control(kernel: &mut Kernel, pid: u32, is_foreground: bool, before: &[u32], child: Option<u32>)
    ensures state { (s : KernelState) → StandsAt kernel.old s
        → StandsAt kernel.new (with_control pid is_foreground before.now child s) }
    ensures terminal { kernel.new.terminal.bytes ≡ kernel.old.terminal.bytes }
    ensures watch { kernel.new.watch ≡ kernel.old.watch }
{
    match child {
        Some(child) => put_in_group(kernel, is_foreground, before, child),
        None => take_terminal_back(kernel, pid),
    }
}

/// Behind a fork, without job control: a process of an asynchronous list ignores INT and QUIT (XCU 2.12).
fn guard(kernel: &mut Kernel, is_foreground: bool, child: Option<u32>)
    ensures state { (s : KernelState) → StandsAt kernel.old s
        → StandsAt kernel.new (without_control is_foreground child s) }
    ensures terminal { kernel.new.terminal.bytes ≡ kernel.old.terminal.bytes }
    ensures watch { kernel.new.watch ≡ kernel.old.watch }
{
    if is_foreground {
        return;
    }
    if let Some(child) = child {
        ignore_keys(kernel, child);
    }
}

/// Behind a fork: the process doesn't ignore what an interactive shell ignores by itself (XCU 2.11). Takes no memory.
pub fn release(kernel: &mut Kernel, shell: &Shell, child: Option<u32>)
    ensures state { (s : KernelState) → StandsAt kernel.old s
        → StandsAt kernel.new (released shell.now child s) }
    ensures terminal { kernel.new.terminal ≡ kernel.old.terminal }
    ensures watch { kernel.new.watch ≡ kernel.old.watch }
{
    if let Some(child) = child {
        release_own_signals(kernel, shell, child);
    }
}

/// Behind a fork, after these processes of the same pipeline: the group of the process, and the signals that it ignores.
fn place(
    kernel: &mut Kernel,
    shell: &Shell,
    is_foreground: bool,
    before: &[u32],
    child: Option<u32>,
)
    ensures state { (s : KernelState) → StandsAt kernel.old s
        → StandsAt kernel.new (behind_fork_by (has_job_control shell.now) shell.now.pid is_foreground before.now child s) }
    ensures terminal { kernel.new.terminal.bytes ≡ kernel.old.terminal.bytes }
    ensures watch { kernel.new.watch ≡ kernel.old.watch }
{
    if shell.has_job_control() {
        control(kernel, shell.pid, is_foreground, before, child);
    } else {
        guard(kernel, is_foreground, child);
    }
}

/// Behind a fork, after these processes of the same pipeline: the group of the process, and the signals that it ignores (XCU 2.11, 2.12). Takes no
/// memory.
pub fn settle_fork(
    kernel: &mut Kernel,
    shell: &Shell,
    is_foreground: bool,
    before: &[u32],
    child: Option<u32>,
)
    ensures state { (s : KernelState) → StandsAt kernel.old s
        → StandsAt kernel.new (behind_fork shell.now is_foreground before.now child s) }
    ensures terminal { kernel.new.terminal.bytes ≡ kernel.old.terminal.bytes }
    ensures watch { kernel.new.watch ≡ kernel.old.watch }
{
    release(kernel, shell, child);
    place(kernel, shell, is_foreground, before, child);
}
