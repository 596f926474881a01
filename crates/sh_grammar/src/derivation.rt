//! A derivation as a list of actions.
ghost use Rattle.std.specs.Prelude.{◌≡◌, List};
ghost use Rattle.sh_grammar.specs.declared.Action.{Action};

use crate::Action;
use std::marker::Model;

/// A derivation: its tree's actions in preorder. Contracts see the list.
#[derive(Debug, Drop)]
pub struct Actions {
    actions: Vec<Action>,
}

impl Model for Actions {
    ghost Value = { List Action };

    ghost view = { λ a. a.actions.items };
}

impl Actions {
    /// The derivation with these actions.
    pub(crate) fn new(actions: Vec<Action>) -> Self
        ensures { result ≡ actions.items }
    {
        Actions { actions }
    }

    /// The actions, from the first on.
    pub fn as_slice(&self) -> &[Action]
        ensures { result.now ≡ self.now }
    {
        self.actions.as_slice()
    }
}
