//! What holds of running forms by their kind.
ghost use Rattle.std.specs.Prelude.{◌≡◌};
ghost use Rattle.sh_exec_forms.specs.Kinds.{before_trap, begins_round, ignores_failure, is_call, is_loop, is_dot_script, levels_inside, refusal_ends, takes_return};

use sh_builtin_outcome::TextOrigin;
use sh_exec_actions::{Action, Form};

/// How many calls of functions, texts that `eval` and `.` run (XCU 2.15), and actions of traps there may be, one in another.
pub const MOST_LEVELS: u16 = 1000;

/// Whether it is the body of a function.
pub(crate) fn is_call(form: &Form) -> bool
    ensures { result ≡ is_call form.now }
{
    matches!(form, Form::Call(_))
}

/// Whether a text is that of a dot script.
fn is_dot_script(origin: TextOrigin) -> bool
    ensures { result ≡ is_dot_script origin }
{
    match origin {
        TextOrigin::Eval => false,
        TextOrigin::DotScript => true,
    }
}

/// Whether a text that is refused right inside it ends the shell (2.8.1).
pub(crate) fn refusal_ends(form: &Form) -> bool
    ensures { result ≡ refusal_ends form.now }
{
    match form {
        Form::Evaluation(how) => how.is_special,
        _ => true,
    }
}

/// Whether `return` ends it: the body of a function, or a dot script (2.15 return).
pub(crate) fn takes_return(form: &Form) -> bool
    ensures { result ≡ takes_return form.now }
{
    match form {
        Form::Evaluation(how) => is_dot_script(how.origin),
        _ => is_call(form),
    }
}

/// Whether an action begins a round of a `for`.
fn begins_round(action: &Action) -> bool
    ensures { result ≡ begins_round action.now }
{
    matches!(action, Action::AssignLoopVariable(_))
}

/// Whether it is a loop, or the action of a trap that comes before a round of a `for`, which is inside that loop.
pub(crate) fn is_loop(form: &Form) -> bool
    ensures { result ≡ is_loop form.now }
{
    match form {
        Form::Condition(_, _) => true,
        Form::Body(_) => true,
        Form::ForBody(_) => true,
        Form::Interruption(_, next) => begins_round(next.get()),
        _ => false,
    }
}

/// Whether `set -e` takes no notice of a failure inside it, whatever is around it (2.15, set).
pub(crate) fn ignores_failure(form: &Form) -> bool
    ensures { result ≡ ignores_failure form.now }
{
    match form {
        Form::Joined(_) => true,
        Form::Negated => true,
        Form::If(_) => true,
        Form::Condition(_, _) => true,
        Form::FailuresIgnored => true,
        _ => false,
    }
}

/// How many more calls and texts there may be inside it, where there may be this number more around it.
pub(crate) fn levels_inside(form: &Form, levels: u16) -> u16
    ensures { result ≡ levels_inside form.now levels }
{
    match form {
        Form::Call(_) => levels.saturating_sub(1),
        Form::Evaluation(_) => levels.saturating_sub(1),
        Form::Trapped(_) => levels.saturating_sub(1),
        Form::Interruption(_, _) => levels.saturating_sub(1),
        _ => levels,
    }
}

/// What `$?` was before the action of a trap (2.15 trap), if it is one.
pub(crate) fn before_trap(form: &Form) -> Option<u8>
    ensures { result ≡ before_trap form.now }
{
    match form {
        Form::Trapped(status) => Some(*status),
        Form::Interruption(status, _) => Some(*status),
        _ => None,
    }
}
