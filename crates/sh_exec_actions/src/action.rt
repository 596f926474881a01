//! The place of a shell: its next action, with all that this needs.
use crate::beginning::Beginning;
use crate::status::CommandStatus;
use sh_base::sequence::{Sequence, Text};
use sh_base::shared::Shared;
use sh_builtin_outcome::{Builtin, BuiltinRest, Completion, Invocation, JobWait, Leave, TextRun};
use sh_exec_machine::Undone;
use sh_exec_parts::message::Piece;
use sh_exec_parts::redirection::Redirection;
use sh_exec_parts::simple::Assignment;
use sh_exec_parts::{Queue, Rest, Saved};
use sh_expand::Pending;
use sh_syntax::tree::{AndOr, Command, CompoundList, Parts};
use sh_vars::Entry;

/// What runs a command once its redirections and assignments are done.
#[derive(Drop)]
pub enum Role {
    /// Nothing: it is a simple command (XCU 2.9.1) without a command name.
    NoCommandName,
    /// A built-in utility.
    Builtin(Invocation),
    /// A function: its body, a compound command (2.9.5).
    Function(Shared<Command>),
    /// A program.
    Program,
    /// `exec` (2.15): whether it has a command, which takes the place of the shell in its process, and whether it is run as a special
    /// built-in, which `command` doesn't do.
    Exec { is_command: bool, is_special: bool },
    /// The shell, in which it is entered: it is this compound command (2.9.4).
    Compound(Shared<Command>),
    /// A process of its own, in which this list of a subshell (2.9.4.1) is entered.
    Subshell(Shared<CompoundList>),
}

/// How what a command changed is undone after it. Both lists are in the order of the changes, of which the
/// last is undone first.
#[derive(Drop)]
pub struct Undo {
    /// The command.
    pub command: Shared<Command>,
    pub descriptors: Sequence<Undone>,
    pub variables: Sequence<Saved>,
    /// Whether the redirections stay, as those of `exec` (2.15): then what they had set aside is closed.
    pub redirections_stay: bool,
}

/// A simple command whose words are expanded, or a compound command of whose redirections they are.
#[derive(Drop)]
pub struct ExpandedCommand {
    pub role: Role,
    /// The command name, and its arguments.
    pub fields: Sequence<Text>,
    /// The redirections that are to be done.
    pub redirections: Queue<Redirection>,
    /// The assignments that are to be done.
    pub assignments: Queue<Assignment>,
    pub undo: Undo,
    /// The status of its last command substitution, 0 without one.
    pub status: u8,
    /// Whether words were expanded before its redirections and assignments: not where it consists of assignments alone.
    pub has_words: bool,
}

/// A `for` loop (2.9.4.2) whose words are expanded.
#[derive(Drop)]
pub struct ForLoop {
    /// Its variable.
    pub name: Text,
    /// The values that the variable is still to have.
    pub values: Queue<Text>,
    pub body: Shared<CompoundList>,
}

/// A pattern of a `case` (2.9.4.3), and the list that is run where it matches.
#[derive(Drop)]
pub struct CaseBranch {
    pub pattern: Shared<Parts>,
    pub body: Shared<CompoundList>,
}

/// A `case` (2.9.4.3) whose word is expanded.
#[derive(Drop)]
pub struct Case {
    /// What its word came to.
    pub word: Text,
    /// The patterns that are still to be tried, the next one first.
    pub branches: Queue<CaseBranch>,
}

/// What is expanded.
#[derive(Drop)]
pub enum ToExpand {
    /// The words of a simple command and of its redirections. A program is run in the shell's own process if `in_place`;
    /// `status` is that of the last command substitution in them.
    Words {
        command: Shared<Command>,
        in_place: bool,
        status: u8,
    },
    /// The values of its assignments, one after another.
    Values(ExpandedCommand),
    /// The words of the redirections of a compound command.
    Redirects(Shared<Command>),
    /// The words of a `for`.
    ForWords(Shared<Command>),
    /// The word of a `case`.
    CaseWord(Shared<Command>),
    /// The next pattern of a `case`.
    CasePattern(Case),
}

/// A command substitution (2.6.3) whose process runs.
#[derive(Drop)]
pub struct Substitution {
    /// What is expanded once its answer is there.
    pub wants: ToExpand,
    pub pending: Pending,
    /// What the process has written so far.
    pub written: Text,
    /// The end of its pipe, which is set aside.
    pub aside: Option<usize>,
    /// The process, alone.
    pub children: Sequence<u32>,
}

/// A program that is started in the shell's process.
#[derive(Drop)]
pub struct ProgramStart {
    /// The command name, and its arguments.
    pub fields: Sequence<Text>,
    /// Whether the shell ends where the program can't be started: not where `command` runs `exec`.
    pub ends_shell: bool,
}

/// How a shell goes on once each command of a pipeline has its process.
#[derive(Drop)]
pub enum Launch {
    /// It waits for them (2.9.2). With job control (2.11) this is the text of the job that they become when they are suspended, from the first
    /// process on.
    Foreground(Option<Text>),
    /// It goes on at once: they are the job of this asynchronous list (2.9.3.1).
    Background(Shared<AndOr>),
}

/// A pipeline (2.9.2) whose processes are being made.
#[derive(Drop)]
pub struct Stages {
    /// The commands that have none yet.
    pub commands: Queue<Shared<Command>>,
    /// The end of the last pipe, which is set aside.
    pub aside: Option<usize>,
    /// The processes so far.
    pub children: Sequence<u32>,
    /// How the shell goes on once all are made.
    pub launch: Launch,
}

/// The processes of a pipeline, of a subshell or of a program for which a shell waits (2.9.2).
#[derive(Drop)]
pub struct PipelineWait {
    /// The processes, the last of which gives the status.
    pub children: Sequence<u32>,
    /// With job control (2.11) the text of the job that they become when they are suspended; else none.
    pub job: Option<Text>,
}

/// What a built-in has still to say, and how it ends then.
#[derive(Drop)]
pub struct Report {
    /// Its messages, each of which is whole, and is written to descriptor 2 in a write of its own.
    pub messages: Queue<Text>,
    /// How it ends after them.
    pub status: Completion,
}

/// What follows a write that is done whole.
#[derive(Drop)]
pub enum Finish {
    /// The command is done with this status.
    Status(u8),
    /// An error ends the shell with this status (2.8.1).
    Fault(u8),
    /// A built-in has still to say this.
    Messages(Report),
    /// That was the output of this built-in, which has still to say this. A write that fails gives it the status 1, and a message before
    /// the others.
    Output(Builtin, Report),
}

/// The next action of a shell.
#[derive(Drop)]
pub enum Action {
    /// Read the next complete command of the rest of a text (2.1). The status is that of the text's last command, and 0 before the
    /// first one.
    Reading(Rest, u8),
    /// Before the next command that an interactive shell reads by descriptor 0 (XCU 2.1): tell one job that has changed, or write the prompt
    /// (2.5.3 PS1). Behind the beginning of a command that was read so far: write the prompt for its next line (PS2).
    Prompting(Beginning),
    /// Read more of the next command of an interactive shell by descriptor 0, behind the beginning that was read so far.
    ReadInput(Beginning),
    /// Expand, with the answers so far if there were needs before.
    Expanding(ToExpand, Option<Pending>),
    /// Read what a command substitution's process writes.
    ReadSubstitution(Substitution),
    /// Wait for the end of that process.
    WaitSubstitution(Substitution),
    /// Ask the kernel for a built-in, which does the rest behind the answer (XCU read, wait, kill, bg, fg).
    Asking(BuiltinRest),
    /// Wait for the end or the stop of a job that `fg` has brought to the foreground.
    WaitForJob(JobWait),
    /// Do the next redirection of a command (2.7).
    Redirecting(ExpandedCommand),
    /// Make the process that runs a program.
    Forking(ExpandedCommand),
    /// Search for a program, and start it in this process (2.9.1.4).
    Starting(ProgramStart),
    /// Make the process of the next command of a pipeline.
    ForkStage(Stages),
    /// Make the process that runs an asynchronous list (2.9.3.1), where that isn't one pipeline, or has a `!`.
    ForkList(Shared<AndOr>),
    /// Give the variable of a `for` its next value.
    AssignLoopVariable(ForLoop),
    /// Define the function of this function definition command (2.9.5).
    Defining(Shared<Command>),
    /// Wait for the end of the processes of a pipeline, and with job control also for their stop.
    Waiting(PipelineWait),
    /// Write.
    Writing(Piece, Finish),
    /// The shell is to end with this status: take its trap on EXIT before that (2.15 trap), and read its action.
    Trapping(u8),
    /// End the process with a status.
    Ending(u8),
}

/// What a shell does at the innermost of its running forms.
#[derive(Drop)]
pub enum Active {
    /// An action comes next.
    Next(Action),
    /// A built-in acts, in the same turn; its name and arguments.
    Acting(Invocation, Sequence<Text>),
    /// A function is called (2.9.5): its body, and its name with its arguments. In the same turn it is entered, or refused where it is
    /// nested too deep.
    Calling(Shared<Command>, Sequence<Text>),
    /// A text is to be run here (2.15 dot, eval). In the same turn it is entered, or refused where it is nested too deep.
    Evaluating(TextRun, Text),
    /// What ran here is done, and ended so.
    Done(CommandStatus),
    /// What ran here is left before its end.
    Leaving(Leave),
}

/// Where a command goes on.
#[derive(Drop)]
pub enum Move {
    /// Here.
    At(Active),
    /// Here, and when that is done what the command changed is undone.
    Held(Undo, Active),
    /// Here, in this list.
    Enter(Shared<CompoundList>),
    /// Here, in this compound command, and when that is done what its redirections changed is undone.
    Compound(Undo, Shared<Command>),
    /// Here, in this list of a subshell, which is all that its process has left to do.
    Subshell(Shared<CompoundList>),
}

/// What an expansion turn comes to.
#[derive(Drop)]
pub enum Expanded {
    /// What this program writes is needed.
    Need {
        program: Shared<CompoundList>,
        wants: ToExpand,
        pending: Pending,
    },
    /// The command goes on.
    Go(Move),
}
