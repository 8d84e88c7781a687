ghost use Rattle.std.specs.Prelude.{◌≡◌, []};
ghost use Rattle.cg_gen.specs.Generated.{in_half, halved};

use crate::draws::Draws;
use cg_base::{IdSet, ReplicaId};

/// A cell in two halves.
#[derive(Clone, Copy)]
pub(crate) struct Halves {
    pub(crate) first: IdSet,
    pub(crate) second: IdSet,
}

/// Each member is drawn into a half.
pub(crate) fn halve(draws: &mut Draws, cell: IdSet) -> Halves
    ensures { halved cell (record { first = []; second = [] }) draws.old ≡ (result, draws.new) }
{
    let mut halves = Halves {
        first: IdSet::empty(),
        second: IdSet::empty(),
    };
    for p in cell.iter() {
        let n = draws.draw(2);
        halves = in_half(halves, p, n);
    }
    halves
}

fn in_half(halves: Halves, p: ReplicaId, n: u64) -> Halves
    ensures { result ≡ in_half halves p n }
{
    let Halves {
        mut first,
        mut second,
    } = halves;
    if n == 0 {
        first.add(p);
    } else {
        second.add(p);
    }
    Halves { first, second }
}
