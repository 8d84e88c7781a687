//! The calls that settled something since the last `begin`, for contracts.
ghost use Rattle.std.specs.Prelude.{◌≡◌, [], ◌∷◌};

use crate::model_side::ModelSide;
use std::marker::Model;
use std::snapshot::Snapshot;

/// The calls since the last `begin` that settled the writes before them, syncs and failed ones, as contracts speak of them:
/// nothing is kept of them here.
#[cycle(past)]
pub struct Past {
    last: LastPoint,
}

impl Drop for Past {
    fn drop(self) {
        let Past { last: _ } = self;
    }
}

#[cycle(past)]
#[derive(Drop)]
pub enum LastPoint {
    Nothing,
    Settled {
        earlier: Snapshot<Past>,
        call: Snapshot<u64>,
        a: Snapshot<ModelSide>,
        b: Snapshot<ModelSide>,
    },
}

impl Model for Past {
    ghost use Rattle.std.specs.Prelude.{List, length};
    ghost use Rattle.cg_disk.specs.Past.{SyncPoint};

    ghost Value = { List SyncPoint };

    ghost use Rattle.cg_disk.specs.Points.{down_from};

    ghost view = { λ p. down_from p.last };

    ghost size = { length };

    ghost use Rattle.std.proofs.Common.{arith};

    ghost size_decreases = { λ p h. Prim.grind arith };
}

impl Past {
    /// No call settled anything yet.
    pub fn nothing() -> Past
        ensures { result ≡ [] }
    {
        Past {
            last: LastPoint::Nothing,
        }
    }

    /// The same, and before them, as the newest, the call of this number, which settles the unsynced writes of these sides.
    pub fn with(&self, call: u64, a: &ModelSide, b: &ModelSide) -> Past
        ensures { result ≡ record { call = call; a = a.now.unsynced.items; b = b.now.unsynced.items } ∷ self.now }
    {
        Past {
            last: LastPoint::Settled {
                earlier: Snapshot::of(self),
                call: Snapshot::of(&call),
                a: Snapshot::of(a),
                b: Snapshot::of(b),
            },
        }
    }
}
