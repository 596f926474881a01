//! Shells.
ghost use Rattle.std.specs.Prelude.{◌≡◌, ◌==◌, IfOk, OnErr, OnOk};
ghost use Rattle.std.specs.List.{list_any};
ghost use Rattle.sh_builtin_shell.specs.Shells.{after_launch, after_suspension, all_but, all_but_those, forked_shell, group_by, has_job_control, in_background, in_foreground, is_interactive, job_group, last_of, own_group, up_to_date, with_last, without_background, without_job, without_process};
ghost use Rattle.sh_builtin_shell.specs.declared.shell.Shell.{Shell};
ghost use Rattle.sh_jobs.specs.Table.{free_number};
ghost use Rattle.sh_jobs.specs.State.{KernelState, StandsAt};

use crate::functions::Functions;
use sh_aliases::Aliases;
use sh_base::NoMemory;
use sh_base::sequence::Sequence;
use sh_builtin_environment::Traps;
use sh_jobs::{JobState, Jobs, Kernel, latest_change};
use sh_kernel_processes::SignalSet;
use sh_vars::Vars;
use std::alloc::Global;
use std::mem;

/// A shell execution environment (XCU 2.13) and the process in which it is: what a built-in acts on, beside the kernel.
#[derive(Drop)]
pub struct Shell {
    /// The number of its process. `$$` keeps that of the first shell.
    pub pid: u32,
    /// Its variables, options, parameters and working directory.
    pub vars: Vars,
    /// Its functions.
    pub functions: Functions,
    /// Its aliases (XCU 2.3.1).
    pub aliases: Aliases,
    /// What it does on conditions.
    pub traps: Traps,
    /// The processes that `wait` knows by their numbers: those of its asynchronous lists (XCU 2.9.3.1), and of pipelines that were suspended
    /// in the foreground (2.11), for which it hasn't waited.
    pub known: Sequence<u32>,
    /// Those of its asynchronous lists among them, for which `wait` without operands waits.
    pub background: Sequence<u32>,
    /// Its jobs (XBD chapter 3, Job): its asynchronous lists, and the pipelines that were suspended.
    pub jobs: Jobs,
    /// Whether it is the first shell: neither a process that a shell made, nor a script that was started as a program.
    pub is_first: bool,
    /// The signals that were ignored when it started, if it isn't interactive: `trap` does nothing on them (XCU 2.15 trap).
    pub fixed: SignalSet,
}

/// The group of a shell's process, 0 where no such process lives. Takes no memory.
pub fn own_group(kernel: &Kernel, pid: u32) -> u32
    ensures { (s : KernelState) → StandsAt kernel.now s → result ≡ own_group s pid }
{
    kernel.member(pid).map_or(0, |member| member.group)
}

impl Shell {
    /// The same shell. The only error is want of memory.
    pub fn copy(&self, alloc: Global) -> Result<Shell, NoMemory>
        ensures { IfOk result (λ shell. shell ≡ self.now) }
    {
        let traps = self.traps.copy(alloc)?;
        match self.copied_processes(alloc) {
            Ok(processes) => self.with(alloc, self.pid, traps, processes, self.is_first),
            Err(error) => {
                drop(traps);
                Err(error)
            },
        }
    }

    /// Copies of the processes that it knows, of those of its asynchronous lists, and of its jobs.
    fn copied_processes(
        &self,
        alloc: Global,
    ) -> Result<(Sequence<u32>, Sequence<u32>, Jobs), NoMemory>
        ensures { IfOk result (λ copies. (copies.0 ≡ self.now.known) × ((copies.1 ≡ self.now.background) × (copies.2 ≡ self.now.jobs))) }
    {
        let known = Sequence::copy_of(alloc, self.known.as_slice())?;
        let background = match Sequence::copy_of(alloc, self.background.as_slice()) {
            Ok(background) => background,
            Err(error) => {
                drop(known);
                return Err(NoMemory::from(error));
            },
        };
        match self.jobs.copy(alloc) {
            Ok(jobs) => Ok((known, background, jobs)),
            Err(error) => {
                drop(background);
                drop(known);
                Err(error)
            },
        }
    }

    /// A shell with the same environment in a process that this one made; of the traps it has those that ignore signals (XCU 2.13), it
    /// knows no processes, and has no jobs. The only error is want of memory.
    pub fn fork(&self, alloc: Global, pid: u32) -> Result<Shell, NoMemory>
        ensures { IfOk result (λ shell. shell ≡ forked_shell pid self.now) }
    {
        let traps = self.traps.for_subshell(alloc)?;
        let none = (Sequence::new(alloc), Sequence::new(alloc), Jobs::new(alloc));
        self.with(alloc, pid, traps, none, false)
    }

    /// The same environment in a process, with these traps, known processes and jobs.
    fn with(
        &self,
        alloc: Global,
        pid: u32,
        traps: Traps,
        processes: (Sequence<u32>, Sequence<u32>, Jobs),
        is_first: bool,
    ) -> Result<Shell, NoMemory>
        ensures { IfOk result (λ shell. shell
            ≡ record self.now {
              pid = pid;
              traps = traps;
              known = processes.0;
              background = processes.1;
              jobs = processes.2;
              is_first = is_first;
            }) }
    {
        let (known, background, jobs) = processes;
        match self.environment(alloc) {
            Ok((vars, functions, aliases)) => Ok(Shell {
                pid,
                vars,
                functions,
                aliases,
                traps,
                known,
                background,
                jobs,
                is_first,
                fixed: self.fixed,
            }),
            Err(error) => {
                drop(traps);
                drop(known);
                drop(background);
                drop(jobs);
                Err(error)
            },
        }
    }

    /// Copies of the variables, the functions and the aliases.
    fn environment(&self, alloc: Global) -> Result<(Vars, Functions, Aliases), NoMemory>
        ensures { IfOk result (λ copies. (copies.0 ≡ self.now.vars) × ((copies.1 ≡ self.now.functions) × (copies.2 ≡ self.now.aliases))) }
    {
        let (functions, aliases) = self.functions_and_aliases(alloc)?;
        match self.vars.copy() {
            Ok(vars) => Ok((vars, functions, aliases)),
            Err(error) => {
                drop(functions);
                drop(aliases);
                Err(NoMemory::from(error))
            },
        }
    }

    /// Copies of the functions and the aliases.
    fn functions_and_aliases(&self, alloc: Global) -> Result<(Functions, Aliases), NoMemory>
        ensures { IfOk result (λ copies. (copies.0 ≡ self.now.functions) × (copies.1 ≡ self.now.aliases)) }
    {
        let functions = self.functions.copy(alloc)?;
        match self.aliases.copy(alloc) {
            Ok(aliases) => Ok((functions, aliases)),
            Err(error) => {
                drop(functions);
                Err(error)
            },
        }
    }

    /// Whether it is interactive (XCU 2.1, sh `-i`): it is the first shell, and `-i` is on. Takes no memory.
    pub fn is_interactive(&self) -> bool
        ensures { result ≡ is_interactive self.now }
    {
        self.is_first && self.vars.options().interactive
    }

    /// Whether it has job control (XCU 2.11): it is the first shell, and `-m` is on. Takes no memory.
    pub fn has_job_control(&self) -> bool
        ensures { result ≡ has_job_control self.now }
    {
        self.is_first && self.vars.options().monitor
    }

    /// The group of a job of these processes.
    fn job_group(&self, kernel: &Kernel, pids: &[u32]) -> u32
        ensures { (s : KernelState) → StandsAt kernel.now s → result ≡ job_group s self.now pids.now }
    {
        if self.has_job_control() {
            return pids.first().copied().unwrap_or(0);
        }
        own_group(kernel, self.pid)
    }

    /// An asynchronous list with this text was started in these processes (XCU 2.9.3.1): the shell knows them, behind those that it knew, `$!` is
    /// the last of them, and the list is a job, which is known to run. The number of the job is the answer. Without a process `$!` stays. The
    /// only error is want of memory; the shell is then as it was.
    pub fn launch(
        &mut self,
        alloc: Global,
        kernel: &Kernel,
        text: &[u8],
        pids: &[u32],
    ) -> Result<usize, NoMemory>
        ensures ok { (s : KernelState) → StandsAt kernel.now s
            → OnOk result (self.new ≡ after_launch s self.old text.now pids.now) }
        ensures number { IfOk result (λ number. number ≡ free_number self.old.jobs) }
        ensures err { OnErr result (self.new ≡ self.old) }
    {
        let count = self.background.len();
        self.background.extend_from_slice(pids)?;
        match self.add_job(alloc, kernel, text, pids, JobState::Running) {
            Ok(number) => {
                set_last(&mut self.vars, pids);
                Ok(number)
            },
            Err(lack) => {
                self.background.truncate(count);
                Err(lack)
            },
        }
    }

    /// A pipeline with this text for which the shell waited was suspended in these processes (XCU 2.11): it becomes a job, of which this state is
    /// told at once, and `wait` knows its processes by their numbers. The number of the job is the answer. The only error is want of memory;
    /// the shell is then as it was.
    pub fn suspend(
        &mut self,
        alloc: Global,
        kernel: &Kernel,
        text: &[u8],
        pids: &[u32],
        state: JobState,
    ) -> Result<usize, NoMemory>
        ensures ok { (s : KernelState) → StandsAt kernel.now s
            → OnOk result (self.new ≡ after_suspension s self.old text.now pids.now state) }
        ensures number { IfOk result (λ number. number ≡ free_number self.old.jobs) }
        ensures err { OnErr result (self.new ≡ self.old) }
    {
        self.add_job(alloc, kernel, text, pids, state)
    }

    /// The shell knows these processes, and they are a job, of which this state was told.
    fn add_job(
        &mut self,
        alloc: Global,
        kernel: &Kernel,
        text: &[u8],
        pids: &[u32],
        told: JobState,
    ) -> Result<usize, NoMemory>
        ensures ok { (s : KernelState) → StandsAt kernel.now s
            → OnOk result (self.new ≡ after_suspension s self.old text.now pids.now told) }
        ensures number { IfOk result (λ number. number ≡ free_number self.old.jobs) }
        ensures err { OnErr result (self.new ≡ self.old) }
    {
        let count = self.known.len();
        self.known.extend_from_slice(pids)?;
        let group = self.job_group(kernel, pids);
        let moment = latest_change(kernel, pids);
        match self
            .jobs
            .launch(alloc, group, pids, text, Some(told), moment)
        {
            Ok(number) => Ok(number),
            Err(lack) => {
                self.known.truncate(count);
                Err(lack)
            },
        }
    }

    /// Each job has its last change when the kernel says (XBD chapter 3, Job ID). Takes no memory.
    pub fn bring_jobs_up_to_date(&mut self, kernel: &Kernel)
        ensures { (s : KernelState) → StandsAt kernel.now s → self.new ≡ up_to_date s self.old }
    {
        self.jobs.bring_up_to_date(kernel);
    }

    /// The shell has waited for this process, and doesn't know it any more (XCU wait). Takes no memory.
    pub fn forget(&mut self, pid: u32)
        ensures { self.new ≡ without_process self.old pid }
    {
        let alloc = self.functions.allocator();
        forget(alloc, &mut self.known, pid);
        forget(alloc, &mut self.background, pid);
    }

    /// The shell has waited for the job of this number, which has these processes: it doesn't know them any more, and the job goes (XCU wait).
    /// Takes no memory.
    pub fn forget_job(&mut self, number: usize, pids: &[u32])
        ensures { self.new ≡ without_job self.old number pids.now }
    {
        let alloc = self.functions.allocator();
        forget_each(alloc, &mut self.known, pids);
        forget_each(alloc, &mut self.background, pids);
        self.jobs.remove(number);
    }

    /// A job of these processes goes on in the foreground: the shell doesn't know them any more (XCU fg). Takes no memory.
    pub fn bring_to_foreground(&mut self, pids: &[u32])
        ensures { self.new ≡ in_foreground self.old pids.now }
    {
        let alloc = self.functions.allocator();
        forget_each(alloc, &mut self.known, pids);
        forget_each(alloc, &mut self.background, pids);
    }

    /// A job of these processes goes on in the background: the shell knows them as those of an asynchronous list (XCU bg). The only error is want
    /// of memory; what the shell knows then is left open.
    pub fn bring_to_background(&mut self, pids: &[u32]) -> Result<(), NoMemory>
        ensures { OnOk result (self.new ≡ in_background self.old pids.now) }
    {
        self.bring_to_foreground(pids);
        self.known.extend_from_slice(pids)?;
        self.background.extend_from_slice(pids)?;
        Ok(())
    }

    /// The shell has waited for all processes of its asynchronous lists, and knows them no more (XCU wait). Its jobs stay, to be told. Takes no
    /// memory.
    pub fn forget_background(&mut self)
        ensures { self.new ≡ without_background self.old }
    {
        let alloc = self.functions.allocator();
        forget_each(alloc, &mut self.known, self.background.as_slice());
        self.background.clear();
    }
}

/// `$!` is the last of these processes.
fn set_last(vars: &mut Vars, pids: &[u32])
    ensures { vars.new ≡ with_last vars.old (last_of pids.now) }
{
    if let Some(pid) = pids.last() {
        vars.set_background(*pid);
    }
}

/// Removes a process.
fn remove(known: &mut Vec<u32>, pid: u32)
    ensures { known.new.items ≡ all_but pid known.old.items }
{
    known.retain(|process| *process != pid);
}

/// Forgets a process.
fn forget(alloc: Global, known: &mut Sequence<u32>, pid: u32)
    ensures { known.new ≡ all_but pid known.old }
{
    let mut left = mem::replace(known, Sequence::new(alloc)).into_vec();
    remove(&mut left, pid);
    *known = Sequence::from_vec(left);
}

/// Whether a process is one of these.
fn is_one_of(pids: &[u32], process: u32) -> bool
    ensures { result ≡ list_any (λ pid. process == pid) pids.now }
{
    pids.iter().any(|pid| process == *pid)
}

/// Removes processes.
fn remove_each(known: &mut Vec<u32>, pids: &[u32])
    ensures { known.new.items ≡ all_but_those pids.now known.old.items }
{
    known.retain(|process| !is_one_of(pids, *process));
}

/// Forgets processes.
fn forget_each(alloc: Global, known: &mut Sequence<u32>, pids: &[u32])
    ensures { known.new ≡ all_but_those pids.now known.old }
{
    let mut left = mem::replace(known, Sequence::new(alloc)).into_vec();
    remove_each(&mut left, pids);
    *known = Sequence::from_vec(left);
}
