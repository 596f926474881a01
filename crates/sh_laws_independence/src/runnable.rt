//! Laws of processes that can take a turn.
ghost use Rattle.std.specs.Prelude.{◌≡◌, ℕ, List, length};
ghost use Rattle.sh_kernel.specs.Requests.{Read, Request, Write, after_request};
ghost use Rattle.sh_kernel.specs.State.{KernelState};
ghost use Rattle.sh_kernel.specs.Turns.{ReadsBy, WritesBy, can_do};
ghost use Rattle.sh_kernel_descriptors.specs.declared.descriptor.DescriptorRef.{DescriptorRef};
ghost use Rattle.sh_laws_independence.specs.Independence.{AreIndependent};

/// Law: an independent request doesn't change whether another process can take its turn: whether it can read or write without a wait.
/// And no process starts, stops, goes on or ends by it.
pub fn independent_requests_leave_turns()
    ensures read { (s : KernelState) (p q : ℕ) (r : Request) (name : DescriptorRef) (count : ℕ) → AreIndependent s p r q (Read name count)
        → can_do (after_request s p r) q (ReadsBy name) ≡ can_do s q (ReadsBy name) }
    ensures write { (s : KernelState) (p q : ℕ) (r : Request) (number : ℕ) (bytes : List ℕ) → AreIndependent s p r q (Write number bytes)
        → can_do (after_request s p r) q (WritesBy number (length bytes)) ≡ can_do s q (WritesBy number (length bytes)) }
    ensures processes { (s : KernelState) (p q : ℕ) (r r' : Request) → AreIndependent s p r q r'
        → (after_request s p r).machine.processes ≡ s.machine.processes }
{}
