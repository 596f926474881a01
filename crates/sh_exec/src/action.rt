//! What processes are about to do.
ghost use Rattle.std.specs.Prelude.{◌≡◌};
ghost use Rattle.sh_kernel.specs.State.{KernelState, StandsAt};
ghost use Rattle.sh_kernel.specs.Turns.{action_of};
ghost use Rattle.sh_exec.specs.Actions.{action_at, action_in, action_for, asking, awaiting, cause_for, collecting, is_called_in, shell_action, waiting};

use sh_builtin_outcome::BuiltinRest;
use sh_builtin_shell::Shell;
use sh_builtin_wait::Awaited;
use sh_exec_actions::{Action, Active, PipelineWait};
use sh_exec_shell::{is_called, pending_signal};
use sh_kernel::{Cause, Kernel, Next};
use sh_kernel_descriptors::DescriptorRef;
use sh_signal::Signal;
use sh_stock::Ask;

/// Where the end of a pipe was set aside, a shell reads by it.
fn collecting(aside: Option<usize>) -> Next<'static>
    ensures { action_of result ≡ collecting aside }
{
    match aside {
        Some(aside) => Next::Read(DescriptorRef::Aside(aside)),
        None => Next::Other,
    }
}

/// The built-in `wait` waits for what an operand names, or for the processes of all asynchronous lists.
fn awaiting<'a>(caught: Option<Signal>, background: &'a [u32], awaited: &'a Awaited) -> Next<'a>
    ensures { action_of result ≡ awaiting caught background.now awaited.now }
{
    if caught.is_some() {
        return Next::Other;
    }
    match awaited {
        Awaited::All => Next::Wait(background),
        Awaited::Operand(wait) => Next::Wait(wait.processes()),
    }
}

/// What a built-in asks.
fn asking<'a>(caught: Option<Signal>, background: &'a [u32], rest: &'a BuiltinRest) -> Next<'a>
    ensures { action_of result ≡ asking caught background.now rest.now }
{
    match rest {
        BuiltinRest::Reads(_) => Next::Read(DescriptorRef::Number(0)),
        BuiltinRest::Waits(awaited) => awaiting(caught, background, awaited),
        BuiltinRest::Kills(_) => Next::Other,
        BuiltinRest::Continues(_) => Next::Other,
    }
}

/// With job control a shell waits for the processes of a pipeline also until they are stopped.
fn waiting(wait: &PipelineWait) -> Next<'_>
    ensures { action_of result ≡ waiting wait.now.children wait.now.job }
{
    match &wait.job {
        None => Next::Wait(wait.children.as_slice()),
        Some(_) => Next::WaitUntraced(wait.children.as_slice()),
    }
}

/// What is done at a place, where the shell has caught this signal, and its asynchronous lists have these processes.
fn action_at<'a>(caught: Option<Signal>, background: &'a [u32], place: &'a Action) -> Next<'a>
    ensures { action_of result ≡ action_at caught background.now place.now }
{
    match place {
        Action::Reading(_, _) => Next::Other,
        Action::Prompting(_) => Next::Other,
        Action::ReadInput(_) => Next::Read(DescriptorRef::Number(0)),
        Action::Expanding(_, _) => Next::Other,
        Action::ReadSubstitution(substitution) => collecting(substitution.aside),
        Action::WaitSubstitution(substitution) => Next::Wait(substitution.children.as_slice()),
        Action::Asking(rest) => asking(caught, background, rest),
        Action::WaitForJob(wait) => Next::WaitUntraced(wait.processes.as_slice()),
        Action::Redirecting(_) => Next::Other,
        Action::Forking(_) => Next::Other,
        Action::Starting(_) => Next::Other,
        Action::ForkStage(_) => Next::Other,
        Action::ForkList(_) => Next::Other,
        Action::AssignLoopVariable(_) => Next::Other,
        Action::Defining(_) => Next::Other,
        Action::Waiting(wait) => waiting(wait),
        Action::Writing(piece, _) => Next::Write(piece.descriptor, piece.bytes.len()),
        Action::Trapping(_) => Next::Other,
        Action::Ending(_) => Next::Other,
    }
}

/// What a shell at this active place does, where it has caught this signal, and its asynchronous lists have these processes.
fn action_in<'a>(caught: Option<Signal>, background: &'a [u32], active: &'a Active) -> Next<'a>
    ensures { action_of result ≡ action_in caught background.now active.now }
{
    match active {
        Active::Next(place) => action_at(caught, background, place),
        _ => Next::Other,
    }
}

/// Whether a shell at this active place has a trap to take, or something to drop, before what it does there.
fn is_called_in(kernel: &Kernel, shell: &Shell, active: &Active) -> bool
    ensures { (s : KernelState) → StandsAt kernel.now s → result ≡ is_called_in s shell.now active.now }
{
    match active {
        Active::Next(place) => is_called(kernel, shell, place),
        _ => false,
    }
}

/// What a shell does at this active place.
pub(crate) fn shell_action<'a>(kernel: &Kernel, shell: &'a Shell, active: &'a Active) -> Next<'a>
    ensures { (s : KernelState) → StandsAt kernel.now s
        → action_of result ≡ shell_action s shell.now active.now }
{
    if is_called_in(kernel, shell, active) {
        return Next::Other;
    }
    action_in(
        pending_signal(kernel, shell),
        shell.background.as_slice(),
        active,
    )
}

/// What a program would be blocked at, where it asks this.
pub(crate) fn cause_for(ask: &Ask) -> Option<Cause>
    ensures { result ≡ cause_for ask.now }
{
    match ask {
        Ask::Read(_) => Some(Cause::Reading(DescriptorRef::Number(0))),
        Ask::Write(bytes) => Some(Cause::Writing(1, bytes.len())),
        Ask::Stop => None,
        Ask::Idle => None,
        Ask::End(_) => None,
    }
}

/// What a program asks.
pub(crate) fn asked(ask: &Ask) -> Next<'_>
    ensures { action_of result ≡ action_for ask.now }
{
    match ask {
        Ask::Read(_) => Next::Read(DescriptorRef::Number(0)),
        Ask::Write(bytes) => Next::Write(1, bytes.as_slice().len()),
        Ask::Stop => Next::Other,
        Ask::Idle => Next::Other,
        Ask::End(_) => Next::Other,
    }
}
