//! Laws of requests.
ghost use Rattle.std.specs.Prelude.{◌≡◌, ◌≢◌, ℕ, ◌<◌, Bool, true, false, List, length, Option};
ghost use Rattle.sh_files.specs.Nodes.{FileMap};
ghost use Rattle.sh_kernel_processes.specs.Processes.{next_pid};
ghost use Rattle.sh_kernel.specs.State.{KernelState, starting};
ghost use Rattle.sh_kernel.specs.Laws.{ChangesOnlyReached, IsOwned, OnlyGrows, ReachesNoMore};
ghost use Rattle.sh_kernel_descriptors.specs.declared.descriptor.DescriptorRef.{DescriptorRef};
ghost use Rattle.sh_kernel.specs.Requests.{Read, Request, Write, after_request, after_requests};
ghost use Rattle.sh_exec_machine.specs.declared.undone.Undone.{Undone};
ghost use Rattle.sh_exec_machine.specs.Undoing.{after_redirections};
ghost use Rattle.sh_exec_machine.specs.Forking.{fork_of};
ghost use Rattle.sh_exec_parts.specs.declared.redirection.Redirection.{Redirection};
ghost use Rattle.sh_exec_machine.specs.Redirecting.{redirection_outcome};
ghost use Rattle.sh_exec_machine.specs.Transfers.{give_bytes, take_bytes};
ghost use Rattle.sh_laws.specs.Redirecting.{redirecting};
ghost use Rattle.sh_laws.specs.Undoing.{undoing};
ghost use Rattle.sh_laws.specs.Forking.{UnmadeReachNothing, after_both, behind_fork, end_aside, in_child, end_for_next, new_process, with_fork};

/// Law: redirections end by requests of the shell's process alone, at most two for each, the newest first: they are undone (XCU 2.9.1), or
/// those of `exec` stay (2.15).
pub fn undoing_is_requests()
    ensures { (stay : Bool) (pid : ℕ) (us : List Undone) (s : KernelState) → after_redirections stay pid us s
        ≡ after_requests s pid (undoing stay us) }
{}

/// Law: a process is made by requests alone (XCU 2.9.2, 2.13, 2.6.3): first those of the shell up to its
/// fork, then those of the new process, where there could be one, and then those of the shell again.
pub fn forking_is_requests()
    ensures child { (s : KernelState) (pid : ℕ) (before : Option ℕ) (writes : Bool)
        → (fork_of s pid before writes).child ≡ new_process s pid before writes }
    ensures aside { (s : KernelState) (pid : ℕ) (before : Option ℕ) (writes : Bool)
        → (fork_of s pid before writes).aside ≡ end_for_next (new_process s pid before writes)
        (end_aside s pid writes) }
    ensures state { (s : KernelState) (pid : ℕ) (before : Option ℕ) (writes : Bool)
        → let child = new_process s pid before writes in (fork_of s pid before writes).after
        ≡ after_both s pid (with_fork before writes) child (in_child before writes)
        (behind_fork child (end_aside s pid writes)) }
{}

/// Law: the end of redirections changes only pipes, files and descriptions that the shell's process reached, and
/// neither the descriptors nor the status of another process that was there. What another process alone has
/// stays that process's, and numbers only grow.
pub fn undoing_changes_what_is_reached()
    ensures changes { (stay : Bool) (pid : ℕ) (us : List Undone) (s : KernelState)
        → ChangesOnlyReached pid false (λ node. false) s.machine (after_redirections stay pid us s).machine }
    ensures owned { (stay : Bool) (owner pid : ℕ) (us : List Undone) (s : KernelState) (test : ℕ → Bool) → pid ≢ owner → ((k : ℕ) → test k ≡ true → k < length s.machine.descriptions) → IsOwned owner test s.machine.descriptors → IsOwned owner test (after_redirections stay pid us s).machine.descriptors }
    ensures grows { (stay : Bool) (pid : ℕ) (us : List Undone) (s : KernelState)
        → OnlyGrows s.machine (after_redirections stay pid us s).machine }
{}

/// Law: making a process changes only pipes, files and descriptions that the shell's process reached, and
/// neither the descriptors nor the status of another process that was there. This is so as long as no
/// descriptor is of a process still to come. What another process alone has stays that process's, so the new
/// process doesn't come to have it; and numbers only grow.
pub fn forking_changes_what_is_reached()
    ensures changes { (s : KernelState) (pid : ℕ) (before : Option ℕ) (writes : Bool) → UnmadeReachNothing s.machine → ChangesOnlyReached pid false (λ node. false) s.machine (fork_of s pid before writes).after.machine }
    ensures owned { (s : KernelState) (owner pid : ℕ) (before : Option ℕ) (writes : Bool)
        (test : ℕ → Bool) → pid ≢ owner → owner < next_pid s.machine.processes
        → ((k : ℕ) → test k ≡ true → k < length s.machine.descriptions)
        → IsOwned owner test s.machine.descriptors
        → IsOwned owner test (fork_of s pid before writes).after.machine.descriptors }
    ensures grows { (s : KernelState) (pid : ℕ) (before : Option ℕ) (writes : Bool)
        → OnlyGrows s.machine (fork_of s pid before writes).after.machine }
{}

/// Law: by making a process the shell comes to reach no pipe, file or description that was there and that it didn't reach (as long as no
/// descriptor is of a process still to come).
pub fn forking_reaches_no_more()
    ensures { (s : KernelState) (pid : ℕ) (before : Option ℕ) (writes : Bool) → UnmadeReachNothing s.machine → ReachesNoMore pid (λ node. false) s.machine (fork_of s pid before writes).after.machine }
{}

/// Law: as the first process starts, no descriptor is of a process that is still to come. That stays so after
/// requests of a process that is there, also after those by which it makes another.
pub fn unmade_processes_reach_nothing()
    ensures start { (files : FileMap) → UnmadeReachNothing (starting files).machine }
    ensures list { (s : KernelState) (pid : ℕ) (rs : List Request) → pid < next_pid s.machine.processes → UnmadeReachNothing s.machine → UnmadeReachNothing (after_requests s pid rs).machine }
    ensures fork { (s : KernelState) (pid : ℕ) (before : Option ℕ) (writes : Bool)
        → pid < next_pid s.machine.processes → UnmadeReachNothing s.machine
        → UnmadeReachNothing (fork_of s pid before writes).after.machine }
{}

/// Law: a redirection is done by requests of its process (XCU 2.7): what the number referred to is set aside where it is to come back, the
/// number is made to refer to something else, and where that fails what was set aside comes back at once.
pub fn redirecting_is_requests()
    ensures { (keeps : Bool) (s : KernelState) (pid : ℕ) (directory : List ℕ) (r : Redirection)
        → (redirection_outcome keeps s pid directory r).after ≡ after_requests s pid
        (redirecting keeps s pid directory r) }
{}

/// Law: what a process takes in one turn is one request to read, and what it gives is one request to write.
pub fn transfers_are_requests()
    ensures taken { (s : KernelState) (pid : ℕ) (name : DescriptorRef) (count : ℕ)
        → (take_bytes s pid name count).after ≡ after_request s pid (Read name count) }
    ensures given { (s : KernelState) (pid number : ℕ) (bytes : List ℕ)
        → (give_bytes s pid number bytes).after ≡ after_request s pid (Write number bytes) }
{}
