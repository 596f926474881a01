//! Laws of what other processes leave.
ghost use Rattle.std.specs.Prelude.{◌≡◌, ℕ, List, Bool, true, false, Option};
ghost use Rattle.sh_kernel.specs.Calls.{after_key, end_call};
ghost use Rattle.sh_kernel.specs.State.{KernelState};
ghost use Rattle.sh_kernel_processes.specs.Processes.{has_ended};
ghost use Rattle.sh_laws.specs.Requests.{ChangesByRequests, opens_by};
ghost use Rattle.sh_pipe.specs.Pipe.{PipeState};
ghost use Rattle.sh_laws_pipelines.specs.Joined.{ReadsFile, ReadsPipe, WritesFile, WritesPipe};
ghost use Rattle.sh_laws_pipelines.specs.Others.{AllGoOn, IsBeside, OnlyReach, OnlyReachFile, StillReads, StillReadsFile, StillWrites};

/// Law: where only some processes reach a pipe, and none of them ends, what another process does by its requests, as in a turn
/// (`turns_change_what_is_reached` of `sh_laws`), leaves the pipe's bytes. A process that reads from the pipe still does, and comes to the end of
/// file no sooner. A process that writes to it still does, and the pipe still has a reader. And only those processes reach it then.
pub fn others_leave_pipes()
    ensures reads { (s t : KernelState) (other : ℕ) (made : Option ℕ) (directory : List ℕ) (owners : ℕ → Bool) (pid : ℕ) (given : List ℕ) (complete : Bool) (read : List ℕ)
        → ChangesByRequests other made directory s t → IsBeside owners other s.machine t.machine → owners pid ≡ true
        → (r : ReadsPipe s.machine pid given complete read) → OnlyReach owners s.machine r.pipe → StillReads owners t.machine pid given complete read r.pipe r.state }
    ensures writes { (s t : KernelState) (other : ℕ) (made : Option ℕ) (directory : List ℕ) (owners : ℕ → Bool) (pid pipe : ℕ) (state : PipeState)
        → ChangesByRequests other made directory s t → IsBeside owners other s.machine t.machine → owners pid ≡ true
        → WritesPipe s.machine pid pipe state → OnlyReach owners s.machine pipe → StillWrites owners t.machine pid pipe state }
{}

/// Law: so does a key of the terminal, where none of those processes ends by it.
pub fn keys_leave_pipes()
    ensures reads { (s : KernelState) (byte : ℕ) (owners : ℕ → Bool) (pid : ℕ) (given : List ℕ) (complete : Bool) (read : List ℕ) → AllGoOn owners (after_key s byte).machine → owners pid ≡ true
        → (r : ReadsPipe s.machine pid given complete read) → OnlyReach owners s.machine r.pipe → StillReads owners (after_key s byte).machine pid given complete read r.pipe r.state }
    ensures writes { (s : KernelState) (byte : ℕ) (owners : ℕ → Bool) (pid pipe : ℕ) (state : PipeState) → AllGoOn owners (after_key s byte).machine → owners pid ≡ true
        → WritesPipe s.machine pid pipe state → OnlyReach owners s.machine pipe → StillWrites owners (after_key s byte).machine pid pipe state }
{}

/// Law: where a process ends by itself, another one that reads from a pipe, and doesn't end by it, still does. What the pipe holds stays until it is
/// read, also where the process that has ended wrote it; and that no more is to come may be taken as known then.
pub fn ends_leave_pipes()
    ensures { (s : KernelState) (pid status : ℕ) (owners : ℕ → Bool) (next : ℕ) (given : List ℕ) (complete : Bool) (read : List ℕ)
        → (r : ReadsPipe s.machine next given complete read) → OnlyReach owners s.machine r.pipe → has_ended (end_call s pid status).after.machine.processes next ≡ false
        → StillReads owners (end_call s pid status).after.machine next given true read r.pipe r.state }
{}

/// Law: where only some processes reach a file, and none of them ends, what another process does by its requests leaves the file, as long as it doesn't
/// open it. A process that reads from the file still does, and one that writes to it still does.
pub fn others_leave_files()
    ensures reads { (s t : KernelState) (other : ℕ) (made : Option ℕ) (directory : List ℕ) (owners : ℕ → Bool) (pid : ℕ) (given : List ℕ) (complete : Bool) (read : List ℕ)
        → (c : ChangesByRequests other made directory s t) → IsBeside owners other s.machine t.machine → owners pid ≡ true
        → (r : ReadsFile s.machine pid given complete read) → OnlyReachFile owners s.machine r.number → opens_by s c.requests r.number ≡ false → StillReadsFile t.machine pid given complete read r.number }
    ensures writes { (s t : KernelState) (other : ℕ) (made : Option ℕ) (directory : List ℕ) (owners : ℕ → Bool) (pid number : ℕ) (written : List ℕ)
        → (c : ChangesByRequests other made directory s t) → IsBeside owners other s.machine t.machine → owners pid ≡ true
        → WritesFile s.machine pid number written → OnlyReachFile owners s.machine number → opens_by s c.requests number ≡ false → WritesFile t.machine pid number written }
{}

/// Law: so does a key of the terminal, whoever reaches the file, where the process doesn't end by it.
pub fn keys_leave_files()
    ensures reads { (s : KernelState) (byte pid : ℕ) (given : List ℕ) (complete : Bool) (read : List ℕ) → has_ended (after_key s byte).machine.processes pid ≡ false
        → (r : ReadsFile s.machine pid given complete read) → StillReadsFile (after_key s byte).machine pid given complete read r.number }
    ensures writes { (s : KernelState) (byte pid number : ℕ) (written : List ℕ) → has_ended (after_key s byte).machine.processes pid ≡ false
        → WritesFile s.machine pid number written → WritesFile (after_key s byte).machine pid number written }
{}
