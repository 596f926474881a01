//! The traps of a shell: the one on EXIT, and those on signals.
ghost use Rattle.std.specs.Prelude.{◌≡◌, ◌∷◌, IfOk, OnOk};
ghost use Rattle.std.specs.Option.{is_some};
ghost use Rattle.sh_exec_actions.specs.Preparing.{fatal};
ghost use Rattle.sh_exec_settling.specs.Forms.{IsActed, behind_status};
ghost use Rattle.sh_exec_forms.specs.Running.{Run};
ghost use Rattle.sh_exec_forms.specs.Stacks.{run_in, run_of};
ghost use Rattle.sh_exec_parts.specs.Messages.{refusal_text};
ghost use Rattle.sh_exec_parts.specs.Simple.{compound_redirects};
ghost use Rattle.sh_exec_parts.specs.declared.message.Refusal.TheVariants as refusal;
ghost use Rattle.sh_exec_turns.specs.Acting.{in_forms, trap_turn, without_trap};
ghost use Rattle.sh_exec_turns.specs.Traps.{begins, drops_at_once, drops_before, interrupted, interruption, is_called, is_first, is_none, is_read, is_wait, may_drop, may_interrupt, shell_before, trap_before};
ghost use Rattle.sh_kernel.specs.State.{KernelState, StandsAt};

use crate::reading::read;
use sh_base::NoMemory;
use sh_base::sequence::Text;
use sh_builtin_environment::copy_of_action;
use sh_builtin_outcome::Ask;
use sh_builtin_shell::Shell;
use sh_exec_actions::{Action, Active, Boxed, Form, ToExpand, fatal_message};
use sh_exec_forms::Frames;
use sh_exec_parts::Rest;
use sh_exec_parts::compound::compound_redirects;
use sh_exec_parts::message::{Refusal, refused};
use sh_exec_settling::{is_dropping, is_interrupt_next, pending_action};
use sh_expand::Pending;
use sh_kernel::Kernel;
use sh_signal::Condition;
use sh_syntax::tree::Command;
use std::alloc::Global;

/// A shell's trap on EXIT is taken, and `$?` is the status with which the shell is to end.
fn take_trap(shell: &mut Shell, status: u8)
    ensures { shell.new ≡ behind_status (without_trap shell.old) status }
{
    shell.traps.set(Condition::Exit, None);
    shell.vars.set_status(status);
}

/// The turn in which a shell that is to end with this status reads the first command of its action on EXIT (XCU 2.15 trap); the trap is taken
/// once. The only error is want of memory, after which the shell is given up.
#[tactic(auto, unfolding(crate::specs::Acting::trap_turn))]
pub fn trap(
    alloc: Global,
    kernel: &Kernel,
    shell: &mut Shell,
    frames: &mut Frames,
    status: u8,
) -> Result<Active, NoMemory>
    ensures { (s : KernelState) → StandsAt kernel.now s → IfOk result (λ active.
        IsActed kernel.now shell.new (run_of frames.new active)
        (in_forms frames.old (trap_turn s shell.old status))) }
{
    let Some(text) = copy_of_action(alloc, shell.traps.action(Condition::Exit))? else {
        return Ok(Active::Next(Action::Ending(status)));
    };
    match frames.push(Form::Trapped(status)) {
        Ok(()) => {},
        Err(lack) => {
            drop(text);
            return Err(lack);
        },
    }
    take_trap(shell, status);
    let active = read(alloc, frames, Rest::new(text), 0, false, shell)?;
    Ok(active)
}

/// Whether a compound command has no redirections.
fn has_no_redirects(command: &Command) -> bool
    ensures { result ≡ is_none (compound_redirects command.now) }
{
    match compound_redirects(command) {
        [] => true,
        [_, ..] => false,
    }
}

/// Whether an expansion is the first one of its command.
fn is_first(wants: &ToExpand) -> bool
    ensures { result ≡ is_first wants.now }
{
    match wants {
        ToExpand::Words { .. } => true,
        ToExpand::Values(command) => !command.has_words,
        ToExpand::Redirects(_) => true,
        ToExpand::ForWords(command) => has_no_redirects(command.get()),
        ToExpand::CaseWord(command) => has_no_redirects(command.get()),
        ToExpand::CasePattern(_) => false,
    }
}

/// Whether that is the beginning of the expansion.
fn begins(wants: &ToExpand, pending: &Option<Pending>) -> bool
    ensures { result ≡ begins wants.now pending.now }
{
    match pending {
        Some(_) => false,
        None => is_first(wants),
    }
}

/// Whether the action of a trap may come before an action.
fn may_interrupt(place: &Action) -> bool
    ensures { result ≡ may_interrupt place.now }
{
    match place {
        Action::Reading(_, _) => true,
        Action::Prompting(_) => false,
        Action::ReadInput(_) => true,
        Action::Expanding(wants, pending) => begins(wants, pending),
        Action::ReadSubstitution(_) => false,
        Action::WaitSubstitution(_) => false,
        Action::Asking(_) => false,
        Action::WaitForJob(_) => false,
        Action::Redirecting(_) => false,
        Action::Forking(_) => false,
        Action::Starting(_) => false,
        Action::ForkStage(stages) => stages.children.is_empty(),
        Action::ForkList(_) => true,
        Action::AssignLoopVariable(_) => true,
        Action::Defining(_) => true,
        Action::Waiting(_) => false,
        Action::Writing(_, _) => false,
        Action::Trapping(_) => true,
        Action::Ending(_) => false,
    }
}

/// Whether the action of a trap on a signal comes before what a shell is about to do (XCU 2.12). Takes no memory.
pub fn is_interrupted(kernel: &Kernel, shell: &Shell, place: &Action) -> bool
    ensures { (s : KernelState) → StandsAt kernel.now s
        → result ≡ is_some (trap_before s shell.now place.now) }
{
    if !may_interrupt(place) {
        return false;
    }
    match pending_action(kernel, shell) {
        Some(_) => true,
        None => false,
    }
}

/// The action of a trap on a signal that comes before what a shell is about to do, if one does (XCU 2.12): that of the pending signal with the
/// lowest number, where a command would begin. The only error is want of memory.
pub fn trap_before(
    alloc: Global,
    kernel: &Kernel,
    shell: &Shell,
    place: &Action,
) -> Result<Option<Text>, NoMemory>
    ensures { (s : KernelState) → StandsAt kernel.now s → IfOk result (λ trap.
        trap ≡ trap_before s shell.now place.now) }
{
    if !may_interrupt(place) {
        return Ok(None);
    }
    let text = copy_of_action(alloc, pending_action(kernel, shell))?;
    Ok(text)
}

/// Whether the built-in wait waits.
fn is_wait(ask: Ask) -> bool
    ensures { result ≡ is_wait ask }
{
    match ask {
        Ask::Wait => true,
        Ask::Read | Ask::Signal | Ask::Continue => false,
    }
}

/// Whether the built-in read reads.
fn is_read(ask: Ask) -> bool
    ensures { result ≡ is_read ask }
{
    match ask {
        Ask::Read => true,
        Ask::Wait | Ask::Signal | Ask::Continue => false,
    }
}

/// Whether INT has an interactive shell drop what it does before an action, where no signal comes first.
fn may_drop(place: &Action) -> bool
    ensures { result ≡ may_drop place.now }
{
    match place {
        Action::Asking(rest) => is_wait(rest.ask()),
        other => may_interrupt(other),
    }
}

/// Whether it drops that at once.
fn drops_at_once(place: &Action) -> bool
    ensures { result ≡ drops_at_once place.now }
{
    match place {
        Action::Asking(rest) => is_read(rest.ask()),
        _ => false,
    }
}

/// Whether INT has an interactive shell drop what it does before what it is about to do (XCU sh, "ASYNCHRONOUS EVENTS"). Takes no memory.
pub fn drops_before(kernel: &Kernel, shell: &Shell, place: &Action) -> bool
    ensures { (s : KernelState) → StandsAt kernel.now s → result ≡ drops_before s shell.now place.now }
{
    if !is_dropping(kernel, shell) {
        return false;
    }
    drops_at_once(place) || (may_drop(place) && is_interrupt_next(kernel, shell))
}

/// Whether a shell has a trap to take, or something to drop, before what it is about to do. Takes no memory.
pub fn is_called(kernel: &Kernel, shell: &Shell, place: &Action) -> bool
    ensures { (s : KernelState) → StandsAt kernel.now s → result ≡ is_called s shell.now place.now }
{
    is_interrupted(kernel, shell, place) || drops_before(kernel, shell, place)
}

/// The place is kept, with `$?`, inside some forms.
fn suspend(alloc: Global, frames: &mut Frames, status: u8, place: Action) -> Result<(), NoMemory>
    ensures { OnOk result (frames.new ≡ Form.Interruption status place ∷ frames.old) }
{
    let place = Boxed::new(alloc, place)?;
    frames.push(Form::Interruption(status, place))
}

/// What is nested too deep is refused.
fn too_deep(alloc: Global) -> Result<Active, NoMemory>
    ensures { IfOk result (λ active. active ≡ fatal (refusal_text refusal.TooDeep)) }
{
    let piece = refused(alloc, Refusal::TooDeep)?;
    Ok(fatal_message(piece))
}

/// Where the shell is to end, `$?` is the status with which it is to.
fn set_status_before(shell: &mut Shell, place: &Action)
    ensures { shell.new ≡ shell_before shell.old place.now }
{
    if let Action::Trapping(status) = place {
        shell.vars.set_status(*status);
    }
}

/// The turn in which a shell takes the pending signal with the lowest number, and reads the first command of this action, before what it was about
/// to do (XCU 2.15 trap). Behind the action it goes on with that, and `$?` is what it was. Where too many actions, calls and texts are open the
/// shell is refused (`too deep`). The only error is want of memory, after which the shell is given up.
#[tactic(auto, unfolding(crate::specs::Traps::interruption))]
pub fn interrupt(
    alloc: Global,
    kernel: &mut Kernel,
    shell: &mut Shell,
    frames: &mut Frames,
    place: Action,
    text: Text,
) -> Result<Active, NoMemory>
    ensures state { (s : KernelState) → StandsAt kernel.old s → IfOk result (λ active.
        IsActed kernel.new shell.new (run_of frames.new active)
        (in_forms frames.old (interruption frames.old s shell.old place text))) }
    ensures terminal { kernel.new.terminal ≡ kernel.old.terminal }
    ensures watch { kernel.new.watch ≡ kernel.old.watch }
{
    let _taken = kernel.take_signal(shell.pid);
    set_status_before(shell, &place);
    if frames.levels_left() == 0 {
        drop(place);
        drop(text);
        let active = too_deep(alloc)?;
        return Ok(active);
    }
    match suspend(alloc, frames, shell.vars.status(), place) {
        Ok(()) => {},
        Err(lack) => {
            drop(text);
            return Err(lack);
        },
    }
    let active = read(alloc, frames, Rest::new(text), 0, false, shell)?;
    Ok(active)
}
