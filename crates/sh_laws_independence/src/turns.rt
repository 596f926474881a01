//! Laws of turns.
ghost use Rattle.std.specs.Prelude.{◌≡◌, ℕ, List, [], ◌∷◌, true};
ghost use Rattle.std.specs.List.{list_all};
ghost use Rattle.sh_exec.specs.Actions.{action_of};
ghost use Rattle.sh_exec.specs.Processes.{is_living};
ghost use Rattle.sh_exec.specs.State.{State, after_turn, task_of};
ghost use Rattle.sh_exec.specs.Turns.{turn};
ghost use Rattle.sh_exec.specs.declared.task.Task.{Task};
ghost use Rattle.sh_exec.specs.declared.task.Task.TheVariants.{Asks};
ghost use Rattle.sh_laws_independence.specs.IndependentTurns.{AreAlike, AreEquivalent, AreIndependentAt, AreIndependentTurns, after_turns, are_elsewhere_in};
ghost use Rattle.sh_kernel.specs.State.{KernelState};
ghost use Rattle.sh_kernel.specs.Turns.{can_do};
ghost use Rattle.sh_stock.specs.declared.asking.Ask.{Ask};
ghost use Rattle.sh_stock.specs.declared.asking.Ask.TheVariants.{Idle};

use sh_stock::Stock;

/// Law: the turns of two programs commute where they are independent. The kernel comes to the same state in both orders, each program asks
/// next what it asks where the other takes no turn before it, and whether the other can take its turn isn't changed.
pub fn independent_turns_commute<S: Stock>()
    ensures machine { (s : KernelState) (p q : ℕ) (ask ask' : Ask) (program program' : S) → AreIndependentTurns s p ask q ask'
        → (turn S.meaning (turn S.meaning s (Asks p ask program)).machine (Asks q ask' program')).machine
        ≡ (turn S.meaning (turn S.meaning s (Asks q ask' program')).machine (Asks p ask program)).machine }
    ensures task { (s : KernelState) (p q : ℕ) (ask ask' : Ask) (program program' : S) → AreIndependentTurns s p ask q ask'
        → (turn S.meaning (turn S.meaning s (Asks q ask' program')).machine (Asks p ask program)).task
        ≡ (turn S.meaning s (Asks p ask program)).task }
    ensures runnable { (s : KernelState) (p q : ℕ) (ask ask' : Ask) (program program' : S) → AreIndependentTurns s p ask q ask'
        → let t = (turn S.meaning s (Asks q ask' program')).machine in
        can_do t p (action_of t (Asks p ask program)) ≡ can_do s p (action_of s (Asks p ask program)) }
{}

/// Law: the turns of two programs, of different processes, are independent where neither sends a signal, and one of them idles, or they
/// read and write at different places. This can be tested at a state.
pub fn turns_elsewhere_are_independent()
    ensures { (s : KernelState) (p q : ℕ) (ask ask' : Ask) → are_elsewhere_in s p ask q ask' ≡ true → AreIndependentTurns s p ask q ask' }
{}

/// Law: the idle turn of a program leaves the kernel as it is, and the program asks next the same in each state. So it commutes with each
/// turn, of a shell too.
pub fn idle_turns_commute<S: Stock>()
    ensures machine { (s : KernelState) (pid : ℕ) (program : S) → (turn S.meaning s (Asks pid Idle program)).machine ≡ s }
    ensures task { (s t : KernelState) (pid : ℕ) (program : S)
        → (turn S.meaning s (Asks pid Idle program)).task ≡ (turn S.meaning t (Asks pid Idle program)).task }
{}

/// Law: where two processes are about to take independent turns, the machine and its processes are the same after both turns in both orders.
/// (Which process took a turn last differs.)
pub fn orders_of_independent_turns_meet<S: Stock>()
    ensures { (s : State S) (p q : ℕ) → AreIndependentAt s p q
        → AreAlike (after_turns S.meaning s (p ∷ q ∷ [])) (after_turns S.meaning s (q ∷ p ∷ [])) }
{}

/// Law: where two processes are about to take independent turns, the turn of one leaves what the other is about to do, and whether it can.
pub fn independent_turns_stay_possible<S: Stock>()
    ensures task { (s : State S) (p q : ℕ) → AreIndependentAt s p q → task_of (after_turn S.meaning s q) p ≡ task_of s p }
    ensures runnable { (s : State S) (p q : ℕ) (i : AreIndependentAt s p q)
        → let t = after_turn S.meaning s q in let task : Task S = Asks p i.ask i.program in
        can_do t.machine p (action_of t.machine task) ≡ can_do s.machine p (action_of s.machine task) }
{}

/// Law: equivalent schedules come to the same machine and the same processes (Mazurkiewicz), so to the same terminal, files and statuses.
pub fn equivalent_schedules_meet<S: Stock>()
    ensures { (s : State S) (one other : List ℕ) → AreEquivalent S.meaning s one other
        → AreAlike (after_turns S.meaning s one) (after_turns S.meaning s other) }
{}

/// Law: after a turn each process of the machine lives.
pub fn turns_leave_living_processes<S: Stock>()
    ensures { (s : State S) (pid : ℕ) → list_all (is_living (after_turn S.meaning s pid).machine) (after_turn S.meaning s pid).tasks ≡ true }
{}
