//! Which process an event moves.
ghost use Rattle.std.specs.Prelude.{◌≡◌, find, nat_lt};
ghost use Rattle.sh_exec.specs.Choice.{choice, next_above};

use sh_exec::Event;

/// The least pid above another.
fn first_above(last: u32, runnable: &[u32]) -> Option<u32>
    ensures { result ≡ find (λ pid. nat_lt last pid) runnable.now }
{
    runnable.iter().copied().find(|pid| last < *pid)
}

/// The process after the last one.
fn next_pid(last: Option<u32>, runnable: &[u32]) -> Option<u32>
    ensures { result ≡ next_above last runnable.now }
{
    let Some(last) = last else {
        return runnable.first().copied();
    };
    match first_above(last, runnable) {
        Some(pid) => Some(pid),
        None => runnable.first().copied(),
    }
}

/// The process that an event gives a turn to, of the runnable ones in order of pid.
pub(crate) fn choose(event: Event, last: Option<u32>, runnable: &[u32]) -> Option<u32>
    ensures { result ≡ choice event last runnable.now }
{
    if runnable.is_empty() {
        return None;
    }
    match event {
        Event::Run(k) => runnable.get(k as usize % runnable.len()).copied(),
        Event::Next => next_pid(last, runnable),
        Event::Key(_) => None,
    }
}
