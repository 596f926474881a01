//! The schedule that is being tried.
ghost use Rattle.std.specs.Prelude.{◌≡◌, ◌∷◌, [], IfNone, IfSome, IfOk};
ghost use Rattle.sh_schedules.specs.Paths.{HasNoOther, IsAdvance};

use sh_base::NoMemory;

/// A turn of the schedule that is being tried: the place of the process that takes it, and the places that are left to try after it.
#[derive(Drop)]
pub struct Turn {
    pub place: u32,
    pub others: Vec<u32>,
}

/// A turn at the first of these places; none where there is no place.
pub(crate) fn first_turn(mut places: Vec<u32>) -> Option<Turn>
    ensures some { IfSome result (λ turn. places.items ≡ turn.place ∷ turn.others.items) }
    ensures none { IfNone result (places.items ≡ []) }
{
    if places.is_empty() {
        return None;
    }
    let place = places.remove(0);
    Some(Turn {
        place,
        others: places,
    })
}

/// The turn that is tried after one; none where no place is left.
fn next_turn(turn: Turn) -> Option<Turn>
    ensures some { IfSome result (λ next. turn.others.items ≡ next.place ∷ next.others.items) }
    ensures none { IfNone result (HasNoOther turn) }
{
    let Turn { place: _, others } = turn;
    first_turn(others)
}

/// Goes over to the next schedule: the last turn that has others gives way to the first of them. It answers whether there was one.
pub(crate) fn advance(path: &mut Vec<Turn>) -> Result<bool, NoMemory>
    ensures { IfOk result (λ more. IsAdvance path.old.items path.new.items more) }
{
    'turns: while let Some(turn) = path.pop() {
        if let Some(next) = next_turn(turn) {
            path.push(next)?;
            return Ok(true);
        }
    }
    Ok(false)
}
