//! Variables that have the fields of a line.
ghost use Rattle.std.specs.Prelude.{◌≡◌, IfOk};
ghost use Rattle.sh_builtin_regular.specs.Assigning.{assigned};

use sh_base::NoMemory;
use sh_base::sequence::Text;
use sh_builtin_environment::{may_set, set_variable};
use sh_vars::Vars;
use std::alloc::Global;

/// Gives variables values, from left to right, up to one that may not be set: then the answer is its name.
pub(crate) fn assign_all(
    alloc: Global,
    vars: &mut Vars,
    names: &[Text],
    values: &[Text],
) -> Result<Option<Text>, NoMemory>
    ensures { IfOk result (λ refused.
        record { environment = vars.new; refused = refused } ≡ assigned vars.old names.now
        values.now) }
{
    let mut names_left = names;
    let mut values_left = values;
    'names: while let Some((name, other_names)) = names_left.split_first() {
        let Some((value, other_values)) = values_left.split_first() else {
            return Ok(None);
        };
        if !may_set(vars, name.as_slice()) {
            let name = Text::copy_of(alloc, name.as_slice())?;
            return Ok(Some(name));
        }
        set_variable(vars, name.as_slice(), value.as_slice())?;
        names_left = other_names;
        values_left = other_values;
    }
    Ok(None)
}
