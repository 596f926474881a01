//! Laws of requests.
ghost use Rattle.std.specs.Prelude.{◌≡◌, ◌≢◌, ℕ, List, true, false};
ghost use Rattle.sh_kernel.specs.Calls.{read_call, write_call};
ghost use Rattle.sh_kernel.specs.Laws.{sends};
ghost use Rattle.sh_kernel_descriptors.specs.declared.description.Target.{Target};
ghost use Rattle.sh_kernel_descriptors.specs.declared.descriptor.DescriptorRef.TheVariants.{Number};
ghost use Rattle.sh_kernel.specs.Requests.{Read, Request, Write, after_request};
ghost use Rattle.sh_kernel.specs.State.{KernelState};
ghost use Rattle.sh_kernel_descriptors.specs.declared.descriptor.DescriptorRef.{DescriptorRef};
ghost use Rattle.sh_laws_independence.specs.Parts.{is_regular};
ghost use Rattle.sh_laws_independence.specs.Independence.{AreIndependent, LeadsTo, are_elsewhere};

/// Law: two requests of different processes that are independent commute: the same state comes of both orders. And each gets the answer
/// that it gets where the other isn't made before it (XSH read, write).
pub fn independent_requests_commute()
    ensures state { (s : KernelState) (p q : ℕ) (r r' : Request) → AreIndependent s p r q r'
        → after_request (after_request s p r) q r' ≡ after_request (after_request s q r') p r }
    ensures read { (s : KernelState) (p q : ℕ) (name : DescriptorRef) (count : ℕ) (r : Request) → AreIndependent s p (Read name count) q r
        → (read_call (after_request s q r) p name count).answer ≡ (read_call s p name count).answer }
    ensures write { (s : KernelState) (p q : ℕ) (number : ℕ) (bytes : List ℕ) (r : Request) → AreIndependent s p (Write number bytes) q r
        → (write_call (after_request s q r) p number bytes).answer ≡ (write_call s p number bytes).answer }
{}

/// Law: reads and writes of two processes are independent where they send no signal and their descriptors lead to what has nothing in
/// common: to two pipes, to two files, to a pipe and the terminal, or one of them to the null device. So which requests are independent can
/// be told by looking at two targets. Two reads of one file are independent where they go by different open file descriptions.
pub fn requests_elsewhere_are_independent()
    ensures reads { (s : KernelState) (p q : ℕ) (name name' : DescriptorRef) (count count' : ℕ) (t t' : Target) → p ≢ q
        → sends s p (Read name count) ≡ false → sends s q (Read name' count') ≡ false
        → LeadsTo s.machine p name t → LeadsTo s.machine q name' t' → are_elsewhere t t' ≡ true
        → AreIndependent s p (Read name count) q (Read name' count') }
    ensures both { (s : KernelState) (p q : ℕ) (name : DescriptorRef) (count number : ℕ) (bytes : List ℕ) (t t' : Target) → p ≢ q
        → sends s p (Read name count) ≡ false → sends s q (Write number bytes) ≡ false
        → LeadsTo s.machine p name t → LeadsTo s.machine q (Number number) t' → are_elsewhere t t' ≡ true
        → AreIndependent s p (Read name count) q (Write number bytes) }
    ensures writes { (s : KernelState) (p q number number' : ℕ) (bytes bytes' : List ℕ) (t t' : Target) → p ≢ q
        → sends s p (Write number bytes) ≡ false → sends s q (Write number' bytes') ≡ false
        → LeadsTo s.machine p (Number number) t → LeadsTo s.machine q (Number number') t' → are_elsewhere t t' ≡ true
        → AreIndependent s p (Write number bytes) q (Write number' bytes') }
    ensures files { (s : KernelState) (p q : ℕ) (name name' : DescriptorRef) (count count' : ℕ) (t t' : Target) → p ≢ q
        → sends s p (Read name count) ≡ false → sends s q (Read name' count') ≡ false
        → (l : LeadsTo s.machine p name t) (l' : LeadsTo s.machine q name' t') → l.number ≢ l'.number → is_regular t ≡ true → is_regular t' ≡ true
        → AreIndependent s p (Read name count) q (Read name' count') }
{}
