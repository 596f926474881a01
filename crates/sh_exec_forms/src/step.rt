//! Where a shell goes on.
ghost use Rattle.std.specs.Prelude.{◌≡◌};

use sh_exec_actions::Active;

/// Where a shell goes on.
#[derive(Drop)]
pub enum Step {
    /// What ran is over, and what is around it goes on.
    Outward(Active),
    /// An action comes next, inside the forms that were entered.
    Inward(Active),
}

impl Step {
    ghost use Rattle.sh_exec_forms.specs.Stacks.{active_in};

    /// The active place.
    pub fn into_active(self) -> Active
        ensures { result ≡ active_in self }
    {
        match self {
            Step::Outward(active) => active,
            Step::Inward(active) => active,
        }
    }

    /// The same place inside a form that isn't over.
    pub fn inside(self) -> Step
        ensures { result ≡ Step.Inward (active_in self) }
    {
        Step::Inward(self.into_active())
    }
}
