//! Laws of schedules.
ghost use Rattle.std.specs.Prelude.{◌≡◌, ◌+◌, ◌<◌, ◌≤◌, ◌^◌, ℕ, List, [], ◌++◌, length, true, IsPermutation, IsSortedBy};
ghost use Rattle.sh_exec.specs.State.{State, run};
ghost use Rattle.sh_exec.specs.declared.event.Event.{Event};
ghost use Rattle.sh_schedules_outcomes.specs.Schedules.{IsAnySchedule, IsSchedule, end_of};
ghost use Rattle.sh_schedules_outcomes.specs.Choices.{AreApart, In, schedules};
ghost use Rattle.sh_schedules_outcomes.specs.Found.{IsTally, JoinedAll, JoinedInTurn, Shows, is_before};
ghost use Rattle.sh_schedules.specs.Merging.{AreJoinedInTurn, AreKeptInTurn};
ghost use Rattle.sh_schedules.specs.Parting.{DifferentSchedulesPart};
ghost use Rattle.sh_schedules.specs.Shards.{AreAllShards, numbers_up_to, shard_at, shard_of};
ghost use Rattle.sh_schedules_outcomes.specs.Shell.{outcome_of, shell};
ghost use Rattle.sh_schedules.specs.Trying.{IsExploration, IsShardExploration};
ghost use Rattle.sh_schedules_outcomes.specs.declared.found.Found.{Found};
ghost use Rattle.sh_schedules.specs.declared.kept.Kept.{Kept};
ghost use Rattle.sh_schedules_outcomes.specs.declared.outcome.Outcome.{Outcome};

use sh_stock::Stock;

/// Law: the state to which events lead is the one to which the shell machine runs by them.
pub fn ends_are_runs<S: Stock>()
    ensures { (s : State S) (events : List Event)
        → end_of (shell S.meaning) s events ≡ run S.meaning s events }
{}

/// Law: the list of all schedules, in the order in which they are tried, has each schedule, nothing else, and none twice.
pub fn schedules_are_listed<S: Stock>()
    ensures all { (k n : ℕ) (s : State S) (events : List Event)
        → IsSchedule (shell S.meaning) k n s events → In (schedules (shell S.meaning) k n s) events }
    ensures only { (k n : ℕ) (s : State S) (events : List Event)
        → In (schedules (shell S.meaning) k n s) events → IsSchedule (shell S.meaning) k n s events }
    ensures once { (k n : ℕ) (s : State S) → AreApart (schedules (shell S.meaning) k n s) }
{}

/// Law: the shards share out the schedules of a script. Where there are so many shards and one more, each schedule is of one of them, none is of
/// two of them, and their numbers add up to that of all schedules.
pub fn shards_share_out<S: Stock>()
    ensures all { (k n last : ℕ) (s : State S) (events : List Event) → IsSchedule (shell S.meaning) k n s events
        → (before : ℕ) × (before ≤ last) × In (shard_of (shell S.meaning) (shard_at before last) k n s) events }
    ensures apart { (k n last before other : ℕ) (s : State S) (events : List Event) → before ≤ last → other ≤ last
        → In (shard_of (shell S.meaning) (shard_at before last) k n s) events
        → In (shard_of (shell S.meaning) (shard_at other last) k n s) events → before ≡ other }
    ensures number { (k n last : ℕ) (s : State S)
        → numbers_up_to (λ before. length (shard_of (shell S.meaning) (shard_at before last) k n s)) last
        ≡ length (schedules (shell S.meaning) k n s) }
{}

/// Law: what was found in two parts of the schedules, joined, is what is found in both together. Where just these schedules were counted in the
/// one and just those in the other, just the schedules of both are counted in what comes of joining: each outcome of the one or the other is
/// there once, with as many schedules as come to it in both, and with the first of them: it has the fewest preemptions, and of those with as many it
/// comes first by its places.
pub fn joins_are_tallies<S: Stock>()
    ensures { (k n : ℕ) (s : State S) (done others : List (List Event)) (found ones new : List Found)
        → IsTally (shell S.meaning) outcome_of k n s done found → IsTally (shell S.meaning) outcome_of k n s others ones
        → length done + length others < 2 ^ 64 → JoinedAll found ones new
        → IsTally (shell S.meaning) outcome_of k n s (done ++ others) new }
{}

/// Law: what was found in all shards, each explored whole, and then joined in any order, is a whole exploration, as `explore` gives it: each
/// schedule comes to one of the outcomes, no outcome is there twice, the counts are those of all schedules, and of those that come to an outcome
/// none comes before the one that is kept. So (`whole_explorations_agree`) it is what one run finds, up to the order of the outcomes.
pub fn merged_shards_are_an_exploration<S: Stock>()
    ensures { (k n last : ℕ) (s : State S) (found : ℕ → List Found) (tried : ℕ → ℕ) (order : List ℕ) (new : List Found)
        → ((before : ℕ) → before ≤ last
        → IsShardExploration (shell S.meaning) outcome_of k n s (shard_at before last) (found before) (tried before) true)
        → AreAllShards last order → length (schedules (shell S.meaning) k n s) < 2 ^ 64 → JoinedInTurn found order [] new
        → IsExploration (shell S.meaning) outcome_of k n s new (length (schedules (shell S.meaning) k n s)) true }
{}

/// Law: where of what each shard found, explored whole, only the counts and one schedule of each outcome is kept, and `join_kept` adds that of all
/// shards in any order, what comes of it is a whole exploration too. Bounds have less than 2^32 preemptions.
pub fn kept_shards_are_an_exploration<S: Stock>()
    ensures { (k n last : ℕ) (s : State S) (found : ℕ → List Found) (tried : ℕ → ℕ) (order : List ℕ) (kept : List (List Kept)) (new : List Found)
        → k < 2 ^ 32
        → ((before : ℕ) → before ≤ last → IsShardExploration (shell S.meaning) outcome_of k n s (shard_at before last) (found before) (tried before) true)
        → AreAllShards last order → length (schedules (shell S.meaning) k n s) < 2 ^ 64 → AreKeptInTurn found order kept
        → AreJoinedInTurn (shell S.meaning) outcome_of s kept [] new
        → IsExploration (shell S.meaning) outcome_of k n s new (length (schedules (shell S.meaning) k n s)) true }
{}

/// Law: two whole explorations of a script with the same bounds find the same: the same outcomes, and for each as many schedules, and the same
/// schedule that is kept, with as many preemptions. Only the order in which the outcomes stand may differ.
pub fn whole_explorations_agree<S: Stock>()
    ensures outcomes { (k n : ℕ) (s : State S) (found new : List Found) (tried more : ℕ) (seen : Outcome)
        → IsExploration (shell S.meaning) outcome_of k n s found tried true → IsExploration (shell S.meaning) outcome_of k n s new more true
        → Shows found seen → Shows new seen }
    ensures each { (k n : ℕ) (s : State S) (found new : List Found) (tried more : ℕ) (f g : Found)
        → IsExploration (shell S.meaning) outcome_of k n s found tried true → IsExploration (shell S.meaning) outcome_of k n s new more true
        → In found f → In new g → f.outcome ≡ g.outcome → f ≡ g }
{}

/// Law: in a whole exploration with as many preemptions as turns, preemptions bound nothing: each schedule of at most so many turns comes to one of
/// the outcomes, whichever process moves when.
pub fn as_many_preemptions_as_turns_bound_nothing<S: Stock>()
    ensures { (k n : ℕ) (s : State S) (found : List Found) (tried : ℕ) (events : List Event) → n ≤ k
        → IsExploration (shell S.meaning) outcome_of k n s found tried true → IsAnySchedule (shell S.meaning) n s events
        → Shows found (outcome_of (end_of (shell S.meaning) s events)) }
{}

/// Law: two whole explorations of a script with the same bounds, each put in order as `sort` does, have the same list of outcomes. So what
/// several shards found, joined in any order of the shards and put in order, is word for word what one run finds.
pub fn ordered_explorations_are_the_same<S: Stock>()
    ensures { (k n : ℕ) (s : State S) (found new ones others : List Found) (tried more : ℕ)
        → IsExploration (shell S.meaning) outcome_of k n s found tried true → IsExploration (shell S.meaning) outcome_of k n s new more true
        → IsPermutation found ones → IsPermutation new others → IsSortedBy is_before ones → IsSortedBy is_before others → ones ≡ others }
{}

/// Law: two different schedules of a script, with at most so many turns, part at a turn that each of them gives to a process.
pub fn different_schedules_part<S: Stock>()
    ensures { DifferentSchedulesPart (shell S.meaning) }
{}
