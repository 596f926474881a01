//! Laws of tables of jobs.
ghost use Rattle.sh_jobs.specs.Laws.{BringingTwiceIsOnce, BringingUpKeepsApart, ClearingsKeepApart, CurrentIsFirst, LaunchesKeepApart, NextIsLeast, NoneIsNext, NotesKeepApart, PreviousIsNext, RemovalsKeepApart, TellingsKeepApart};

/// Law: the current job is one of the table, and no job is ahead of it; no job but the current one is ahead of the previous one.
pub fn current_is_ahead_of_all()
    ensures current { CurrentIsFirst }
    ensures previous { PreviousIsNext }
{}

/// Law: the next job that has changed is one of the table that has, and none of a lesser number has; where there is none, no job has.
pub fn next_changed_is_the_least()
    ensures some { NextIsLeast }
    ensures none { NoneIsNext }
{}

/// Law: where no two jobs have one number, and each number is from 1 on, that stays so with each call.
pub fn numbers_stay_apart()
    ensures launch { LaunchesKeepApart }
    ensures note { NotesKeepApart }
    ensures tell { TellingsKeepApart }
    ensures remove { RemovalsKeepApart }
    ensures remove_told { ClearingsKeepApart }
    ensures bring_up_to_date { BringingUpKeepsApart }
{}

/// Law: a table that is up to date with a kernel stays as it is when it is brought up to date with that kernel once more.
pub fn bringing_up_twice_is_once()
    ensures { BringingTwiceIsOnce }
{}
