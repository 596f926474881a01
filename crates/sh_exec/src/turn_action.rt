//! What a process does in its next turn, for those who look on.
ghost use Rattle.std.specs.Prelude.{◌≡◌, option_map};
ghost use Rattle.sh_kernel.specs.State.{KernelState, StandsAt};
ghost use Rattle.sh_exec.specs.TurnActions.{drops_in, takes_trap_in, turn_action_at, turn_action_for, turn_action_in, turn_action_of_ask, turn_action_of_expansion, words_at, words_in};

use sh_base::sequence::Text;
use sh_builtin_shell::Shell;
use sh_exec_actions::{Action, Active, ToExpand};
use sh_exec_shell::{drops_before, is_interrupted};
use sh_kernel::Kernel;
use sh_stock::Ask;

/// What a process does in its next turn.
#[derive(Clone, Copy, Debug, PartialEq, Eq)]
pub enum TurnAction {
    /// A shell reads the next complete command of a text, or finds that none follows (XCU 2.1).
    ReadCommand,
    /// An interactive shell tells a job that has changed, or writes a prompt (2.5.3 PS1, PS2).
    Prompt,
    /// INT has an interactive shell drop what it does, and it does what comes next: it tells a job or prompts, or reads on in its text.
    Drop,
    /// A shell takes a trap: it reads the first command of the trap's action (2.15 trap).
    TakeTrap,
    /// A shell defines a function (2.9.5).
    DefineFunction,
    /// A shell expands words (2.6). A built-in acts in the same turn, and a function is called in it, where nothing else is left to do
    /// before. Where a command substitution is needed, its process is made in the turn.
    Expand,
    /// A shell does the assignments of a simple command (2.9.1), with the same ends as an expansion.
    Assign,
    /// A shell gives the variable of a `for` its next value (2.9.4.2).
    SetLoopVariable,
    /// A shell does one redirection (2.7).
    Redirect,
    /// A shell makes a process.
    Fork,
    /// A shell searches for a program and starts it, in its own process (2.9.1.4).
    StartProgram,
    /// A shell reads what the process of a command substitution writes (2.6.3).
    ReadSubstitution,
    /// A program, the built-in `read` of a shell, or an interactive shell for its next command, reads by descriptor 0.
    Read,
    /// A process writes.
    Write {
        /// The descriptor by which it writes.
        descriptor: u8,
        /// How many bytes it has to write.
        bytes: usize,
    },
    /// A shell waits until processes have ended.
    Wait,
    /// A shell sends a signal, for one of the built-ins `kill`, `bg` and `fg` (XCU kill, bg, fg).
    SendSignal,
    /// A program stops itself, as by SIGSTOP.
    Stop,
    /// A program does nothing.
    Idle,
    /// The process ends with this exit status.
    End(u8),
}

/// What an expansion is.
fn expansion(wants: &ToExpand) -> TurnAction
    ensures { result ≡ turn_action_of_expansion wants.now }
{
    match wants {
        ToExpand::Values(_) => TurnAction::Assign,
        ToExpand::Words { .. } => TurnAction::Expand,
        ToExpand::Redirects(_) => TurnAction::Expand,
        ToExpand::ForWords(_) => TurnAction::Expand,
        ToExpand::CaseWord(_) => TurnAction::Expand,
        ToExpand::CasePattern(_) => TurnAction::Expand,
    }
}

/// What is asked for a built-in.
fn asked(ask: sh_builtin_outcome::Ask) -> TurnAction
    ensures { result ≡ turn_action_of_ask ask }
{
    match ask {
        sh_builtin_outcome::Ask::Read => TurnAction::Read,
        sh_builtin_outcome::Ask::Wait => TurnAction::Wait,
        sh_builtin_outcome::Ask::Signal => TurnAction::SendSignal,
        sh_builtin_outcome::Ask::Continue => TurnAction::SendSignal,
    }
}

/// What is done at a place.
fn at(place: &Action) -> TurnAction
    ensures { result ≡ turn_action_at place.now }
{
    match place {
        Action::Reading(_, _) => TurnAction::ReadCommand,
        Action::Prompting(_) => TurnAction::Prompt,
        Action::ReadInput(_) => TurnAction::Read,
        Action::Expanding(wants, _) => expansion(wants),
        Action::ReadSubstitution(_) => TurnAction::ReadSubstitution,
        Action::WaitSubstitution(_) => TurnAction::Wait,
        Action::Asking(rest) => asked(rest.ask()),
        Action::WaitForJob(_) => TurnAction::Wait,
        Action::Redirecting(_) => TurnAction::Redirect,
        Action::Forking(_) => TurnAction::Fork,
        Action::Starting(_) => TurnAction::StartProgram,
        Action::ForkStage(_) => TurnAction::Fork,
        Action::ForkList(_) => TurnAction::Fork,
        Action::AssignLoopVariable(_) => TurnAction::SetLoopVariable,
        Action::Defining(_) => TurnAction::DefineFunction,
        Action::Waiting(_) => TurnAction::Wait,
        Action::Writing(piece, _) => TurnAction::Write {
            descriptor: piece.descriptor,
            bytes: piece.bytes.len(),
        },
        Action::Trapping(_) => TurnAction::TakeTrap,
        Action::Ending(status) => TurnAction::End(*status),
    }
}

/// What a shell at this active place does, where it stands before an action.
pub(crate) fn turn_action_in(active: &Active) -> Option<TurnAction>
    ensures { result ≡ turn_action_in active.now }
{
    match active {
        Active::Next(place) => Some(at(place)),
        Active::Acting(_, _) => None,
        Active::Calling(_, _) => None,
        Active::Evaluating(_, _) => None,
        Active::Done(_) => None,
        Active::Leaving(_) => None,
    }
}

/// What a program asks.
pub(crate) fn turn_action_for(ask: &Ask) -> TurnAction
    ensures { result ≡ turn_action_for ask.now }
{
    match ask {
        Ask::Read(_) => TurnAction::Read,
        Ask::Write(bytes) => TurnAction::Write {
            descriptor: 1,
            bytes: bytes.as_slice().len(),
        },
        Ask::Stop => TurnAction::Stop,
        Ask::Idle => TurnAction::Idle,
        Ask::End(status) => TurnAction::End(*status),
    }
}

/// Whether INT has a shell at this active place drop what it does.
pub(crate) fn drops_in(kernel: &Kernel, shell: &Shell, active: &Active) -> bool
    ensures { (s : KernelState) → StandsAt kernel.now s → result ≡ drops_in s shell.now active.now }
{
    match active {
        Active::Next(place) => drops_before(kernel, shell, place),
        Active::Acting(_, _) => false,
        Active::Calling(_, _) => false,
        Active::Evaluating(_, _) => false,
        Active::Done(_) => false,
        Active::Leaving(_) => false,
    }
}

/// Whether the action of a trap on a signal comes before what a shell at this active place does.
pub(crate) fn takes_trap_in(kernel: &Kernel, shell: &Shell, active: &Active) -> bool
    ensures { (s : KernelState) → StandsAt kernel.now s
        → result ≡ takes_trap_in s shell.now active.now }
{
    match active {
        Active::Next(place) => is_interrupted(kernel, shell, place),
        Active::Acting(_, _) => false,
        Active::Calling(_, _) => false,
        Active::Evaluating(_, _) => false,
        Active::Done(_) => false,
        Active::Leaving(_) => false,
    }
}

/// The words of a program that is started at a place.
fn words_at(place: &Action) -> Option<&[Text]>
    ensures { option_map (λ words. words.now) result ≡ words_at place.now }
{
    match place {
        Action::Starting(start) => Some(start.fields.as_slice()),
        _ => None,
    }
}

/// The words of a program that a shell at this active place starts.
pub(crate) fn words_in(active: &Active) -> Option<&[Text]>
    ensures { option_map (λ words. words.now) result ≡ words_in active.now }
{
    match active {
        Active::Next(place) => words_at(place),
        _ => None,
    }
}
