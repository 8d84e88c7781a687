//! All that was made, for contracts.
ghost use Rattle.std.specs.Prelude.{◌≡◌, [], ◌∷◌, ◌++◌};

use cg_action::Action;
use std::marker::Model;
use std::snapshot::Snapshot;

/// The actions that were made, in the order of their making, as contracts speak of them: nothing is kept of them here.
#[cycle(made)]
pub(crate) struct AllMade {
    last: LastMade,
}

impl Drop for AllMade {
    fn drop(self) {
        let AllMade { last: _ } = self;
    }
}

#[cycle(made)]
#[derive(Drop)]
enum LastMade {
    Nothing,
    Made {
        earlier: Snapshot<AllMade>,
        action: Snapshot<Action>,
    },
}

impl Model for AllMade {
    ghost use Rattle.std.specs.Prelude.{List, length};
    ghost use Rattle.cg_action.specs.declared.action.Action.{Action};

    ghost Value = { List Action };

    ghost use Rattle.cg_world.specs.AllMade.{up_to};

    ghost view = { λ a. up_to a.last };

    ghost size = { length };

    ghost use Rattle.std.proofs.Common.{arith, length-append};

    ghost size_decreases = { λ a h. Prim.grind (arith, length-append) };
}

impl AllMade {
    /// Nothing was made yet.
    pub(crate) fn nothing() -> AllMade
        ensures { result ≡ [] }
    {
        AllMade {
            last: LastMade::Nothing,
        }
    }

    /// These, and this action after them. It takes no memory.
    pub(crate) fn with(&self, action: &Action) -> AllMade
        ensures { result ≡ self.now ++ action.now ∷ [] }
    {
        AllMade {
            last: LastMade::Made {
                earlier: Snapshot::of(self),
                action: Snapshot::of(action),
            },
        }
    }
}
